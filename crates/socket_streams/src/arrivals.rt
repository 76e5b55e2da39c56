//! The connections of a listener as a source of jobs.
ghost use Rattle.std.specs.Prelude.{◌≡◌, ◌+◌, ◌<◌, ◌≤◌, ◌^◌};
ghost use Rattle.std.specs.Prelude.{Some, true, false, IfSome, IfNone, IfOk};
ghost use Rattle.worker_pool.specs.JobEnds.{ArePassesOf, AreUnused};
ghost use Rattle.socket_streams.specs.Arriving.{ArrivalsView, IsSameSource, IsNewConnection};

use crate::accept_fault::AcceptFault;
use crate::connection::Socket;
use crate::halves::{ReplyHalf, RequestHalf, new_halves, new_socket};
use crate::limits::Limits;
use crate::log_sink::log_refused;
use crate::pause::PAUSE_MILLIS;
use crate::run_signals::RunSignals;
use crate::spare::{PauseSpare, Spare};
use crate::waits::Waits;
use log::{Log, info, warn};
use std::alloc::Global;
use std::marker::Model;
use std::net::{OpenListener, SocketAddr, TcpStream};
use std::os::fd::AsRawFd;
use std::rt::Clock;
use std::sync::Wait;
use std::time::Duration;
use std::{io, thread};
use worker_pool::{Job, JobFault, Jobs, Passes, Shared};

/// The connections of a listener, each with new passes of the gates of a run, until as many were accepted as are to be, or the run is stopped or
/// paused.
///
/// One for which memory is refused is closed; whether it is one of those that were accepted its limits say. One that failed before it was
/// accepted is passed over. Where the system has no descriptor or no memory for a further one, that is logged, and it is accepted again every
/// 10 ms. Where the listener fails, or was tried as often as may be, serving is stopped.
#[derive(Drop)]
pub struct Arrivals<'a, X, L> {
    rt: &'a X,
    alloc: Global,
    listener: &'a L,
    waits: Waits,
    shared: &'a Shared,
    stop: &'a RunSignals,
    spare: Spare,
    for_pause: PauseSpare,
    limits: Limits,
    given: u64,
    refused: u64,
    /// How many tries in a row gave no connection, up to now.
    failures: u32,
    /// Whether the last of them was for want of memory for its job.
    wants_memory: bool,
    /// Whether it was logged that there is no descriptor or no memory for a further connection.
    is_logged: bool,
}

impl<'a, X, L> Model for Arrivals<'a, X, L> {
    ghost use Rattle.std.specs.Prelude.{◌≡◌, ◌+◌, ◌<◌, ◌≤◌, ◌^◌, false, IfSome};
    ghost use Rattle.socket_streams.specs.Arriving.{ArrivalsView};

    ghost Value = { ArrivalsView };

    ghost view = { λ a. record {
      gates = a.shared.now;
      limit = a.limits.connections;
      counts_refused = a.limits.counts_refused;
      can_stop = a.limits.can_stop;
      before = a.limits.before;
      given = a.given;
      refused = a.refused;
    } };

    ghost invariant = { λ a. (a.limits.before + a.given + a.refused < 2 ^ 64)
        × IfSome a.limits.connections (λ limit. a.given + a.refused ≤ limit)
        × (a.limits.counts_refused ≡ false → a.refused ≡ 0) };
}

impl<'a, X, L: OpenListener<Stream = TcpStream> + AsRawFd> Arrivals<'a, X, L> {
    /// The connections that come to a listener, within these limits.
    pub fn new(
        rt: &'a X,
        alloc: Global,
        listener: &'a L,
        waits: Waits,
        shared: &'a Shared,
        stop: &'a RunSignals,
        limits: Limits,
    ) -> io::Result<Arrivals<'a, X, L>>
        ensures { IfOk result (λ arrivals. arrivals ≡ record {
          gates = shared.now;
          limit = limits.connections;
          counts_refused = limits.counts_refused;
          can_stop = limits.can_stop;
          before = limits.before;
          given = 0;
          refused = 0;
        }) }
    {
        waits.watch(listener)?;
        Ok(Arrivals {
            rt,
            alloc,
            listener,
            waits,
            shared,
            stop,
            spare: Spare::new(alloc),
            for_pause: PauseSpare::new(alloc, limits.keeps_back),
            limits,
            given: 0,
            refused: 0,
            failures: 0,
            wants_memory: false,
            is_logged: false,
        })
    }

    /// The listener.
    pub(crate) fn listener(&self) -> &L {
        self.listener
    }

    /// The gates that its connections are for.
    pub(crate) fn shared(&self) -> &Shared
        ensures { result.now ≡ self.now.gates }
    {
        self.shared
    }

    /// How many connections were accepted.
    pub fn accepted(&self) -> u64
        ensures count { result ≡ self.now.given + self.now.refused }
        ensures most { IfSome self.now.limit (λ limit. result ≤ limit) }
    {
        self.given + self.refused
    }

    /// How many of them were closed for want of memory.
    pub fn refused(&self) -> u64
        ensures { result ≡ self.now.refused }
    {
        self.refused
    }

    /// Whether memory was refused for the connection that came last.
    pub fn wants_memory(&self) -> bool {
        self.wants_memory
    }

    /// Whether as many were accepted as are to be.
    fn is_reached(&self) -> bool
        ensures below { result ≡ false → IfSome self.now.limit
            (λ limit. self.now.given + self.now.refused < limit) }
        ensures reached { result ≡ true →
            self.now.limit ≡ Some (self.now.given + self.now.refused) }
        ensures uncounted { self.now.counts_refused ≡ false → self.now.refused ≡ 0 }
    {
        match self.limits.connections {
            Some(limit) => self.accepted() == limit,
            None => false,
        }
    }

    /// Whether accepting is to end before as many were accepted as are to be.
    fn is_stopped(&self) -> bool
        ensures { self.now.can_stop ≡ false → result ≡ false }
    {
        self.limits.are_cut(self.stop)
    }

    /// Whether no more are accepted.
    fn has_ended(&self) -> bool
        ensures below { result ≡ false → IfSome self.now.limit
            (λ limit. self.now.given + self.now.refused < limit) }
        ensures all { result ≡ true → self.now.can_stop ≡ false →
            self.now.limit ≡ Some (self.now.given + self.now.refused) }
        ensures uncounted { self.now.counts_refused ≡ false → self.now.refused ≡ 0 }
    {
        self.is_reached() || self.is_stopped()
    }

    /// New passes of the gates: once more where memory was refused and some was given up.
    fn new_passes(&mut self) -> Option<Passes>
        ensures same { self.new ≡ self.old }
        ensures gates { IfSome result (ArePassesOf self.old.gates) }
        ensures unused { IfSome result AreUnused }
    {
        match Passes::new(self.alloc, self.shared) {
            Ok(passes) => Some(passes),
            Err(_) => {
                if self.spare.give_up() {
                    Passes::new(self.alloc, self.shared).ok()
                } else {
                    None
                }
            }
        }
    }

    /// The socket of a stream: once more where memory was refused and some was given up.
    fn new_socket(&mut self, stream: TcpStream, number: u64) -> Option<Socket>
        ensures same { self.new ≡ self.old }
        ensures of { IfSome result (λ socket. socket.value.number ≡ Some number) }
    {
        match new_socket(self.alloc, stream, number) {
            Ok(socket) => Some(socket),
            Err(stream) => {
                if self.spare.give_up() {
                    new_socket(self.alloc, stream, number).ok()
                } else {
                    None
                }
            }
        }
    }

    /// The job of a connection that was accepted from `peer`. None where memory is refused; the connection is closed then.
    fn new_job(
        &mut self,
        stream: TcpStream,
        peer: SocketAddr,
    ) -> Option<Job<RequestHalf, ReplyHalf>>
        ensures same { self.new ≡ self.old }
        ensures new { IfSome result
            (IsNewConnection self.old.gates (self.old.before + self.old.given)) }
    {
        let number = self.limits.before + self.given;
        let passes = self.new_passes()?;
        let socket = self.new_socket(stream, number)?;
        match new_halves(self.alloc, socket, peer, number) {
            Ok((reader, writer)) => Some(Job {
                reader,
                writer,
                passes,
            }),
            Err(_) => None,
        }
    }
}

impl<'a, X, L> Arrivals<'a, X, L>
where
    X: Log + Clock + Wait,
    L: OpenListener<Stream = TcpStream> + AsRawFd,
{
    /// Waits for a short time.
    fn pause(&self) {
        thread::sleep(self.rt, Duration::from_millis(PAUSE_MILLIS));
    }

    /// All threads of the run were started: it is asked for its first job then. Memory is kept back for a pause once the workers have theirs, and before they have
    /// a session.
    pub(crate) fn start(&mut self)
        ensures { self.new ≡ self.old }
    {
        self.stop.start();
        if self.limits.keeps_back && !self.stop.is_ready() {
            self.stop.wait_for_workers(self.rt);
            self.for_pause.refill(self.alloc, self.stop);
            self.stop.set_ready();
        }
    }

    /// Waits until a connection does, or accepting is stopped. Where the wait fails, for a short time.
    fn wait(&mut self)
        ensures { self.new ≡ self.old }
    {
        if self.waits.poll.poll(&mut self.waits.events, None).is_err() {
            self.pause();
        }
        self.for_pause.refill(self.alloc, self.stop);
    }

    /// One try more gave no connection. Refused where none is to be made any more.
    fn count_failure(&mut self) -> Result<(), JobFault>
        ensures { self.new ≡ self.old }
    {
        self.failures = self.failures.saturating_add(1);
        if self.limits.are_tried(self.failures) {
            return Err(JobFault);
        }
        Ok(())
    }

    /// Logs that there was no descriptor or no memory for a connection, where that wasn't logged yet.
    fn log_want(&mut self)
        ensures { self.new ≡ self.old }
    {
        if !self.is_logged {
            warn!(self.rt; "no descriptor or no memory for a further connection: trying again");
        }
        self.is_logged = true;
    }

    /// Waits until the next connection may be accepted behind this fault of the last one. Refused where the listener failed.
    fn wait_behind(&mut self, fault: AcceptFault) -> Result<(), JobFault>
        ensures { self.new ≡ self.old }
    {
        match fault {
            AcceptFault::NoneWaits => {
                self.is_logged = false;
                self.wait();
                Ok(())
            }
            AcceptFault::OfOneConnection => self.count_failure(),
            AcceptFault::OutOfResources => {
                self.log_want();
                self.count_failure()?;
                self.pause();
                Ok(())
            }
            AcceptFault::OfListener => Err(JobFault),
        }
    }

    /// Counts a connection that was closed for want of memory, where it counts.
    fn count_refused(&mut self)
        requires room { self.old.before + self.old.given + self.old.refused + 1 < 2 ^ 64 }
        requires below { IfSome self.old.limit
            (λ limit. self.old.given + self.old.refused < limit) }
        ensures same { IsSameSource self.old self.new }
        ensures given { self.new.given ≡ self.old.given }
    {
        if self.limits.counts_refused {
            self.refused += 1;
        }
    }

    /// The job of a connection that was accepted from `peer`, which is logged and counted. None where it had to be closed.
    fn take(&mut self, stream: TcpStream, peer: SocketAddr) -> Option<Job<RequestHalf, ReplyHalf>>
        requires room { self.old.before + self.old.given + self.old.refused + 1 < 2 ^ 64 }
        requires below { IfSome self.old.limit
            (λ limit. self.old.given + self.old.refused < limit) }
        ensures same { IsSameSource self.old self.new }
        ensures given { IfSome result (λ job.
            IsNewConnection self.old.gates (self.old.before + self.old.given) job
            × (self.new.given ≡ self.old.given + 1)) }
        ensures none { IfNone result (self.new.given ≡ self.old.given) }
    {
        info!(self.rt; "connection from {peer}");
        self.stop.counts().count_accepted();
        self.spare.refill(self.alloc);
        let job = self.new_job(stream, peer);
        if job.is_some() {
            self.given += 1;
            self.failures = 0;
        } else {
            self.count_refused();
            self.stop.counts().count_turned_away();
            log_refused(self.rt, peer);
        }
        job
    }

    /// Accepts a connection. None where none waited, which was waited for, or one had to be closed.
    fn accept(&mut self) -> Result<Option<Job<RequestHalf, ReplyHalf>>, JobFault>
        requires below { IfSome self.old.limit
            (λ limit. self.old.given + self.old.refused < limit) }
        ensures same { IsSameSource self.old self.new }
        ensures given { IfOk result (λ next. IfSome next (λ job.
            IsNewConnection self.old.gates (self.old.before + self.old.given) job
            × (self.new.given ≡ self.old.given + 1))) }
        ensures none { IfOk result (λ next. IfNone next (self.new.given ≡ self.old.given)) }
    {
        if self.accepted() >= u64::MAX - self.limits.before {
            return Err(JobFault);
        }
        match self.listener.accept() {
            Ok((stream, peer)) => match self.take(stream, peer) {
                Some(job) => Ok(Some(job)),
                None => {
                    self.wants_memory = true;
                    self.count_failure()?;
                    Ok(None)
                }
            },
            Err(error) => {
                self.wants_memory = false;
                self.wait_behind(AcceptFault::of(&error))?;
                Ok(None)
            }
        }
    }
}

impl<'a, X, L> Jobs for Arrivals<'a, X, L>
where
    X: Log + Clock + Wait,
    L: OpenListener<Stream = TcpStream> + AsRawFd,
{
    type Job = Job<RequestHalf, ReplyHalf>;

    ghost use Rattle.socket_streams.specs.Arriving.{GivesConnection};

    ghost gives = { GivesConnection };

    fn next(&mut self) -> Result<Option<Job<RequestHalf, ReplyHalf>>, JobFault> {
        self.start();
        let rt = self.rt;
        for _ in rt.forever() {
            if self.has_ended() {
                return Ok(None);
            }
            match self.accept() {
                Ok(Some(job)) => return Ok(Some(job)),
                Ok(None) => {}
                Err(fault) => {
                    self.stop.raise();
                    return Err(fault);
                }
            }
        }
        unreachable!()
    }
}

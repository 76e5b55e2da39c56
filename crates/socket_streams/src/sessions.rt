//! Sessions over sockets as a source: those that rest, and then one for each connection of a listener.
ghost use Rattle.std.specs.Prelude.{◌≡◌, ◌+◌, ◌≤◌, ◌∷◌, [], map, IfSome, IfNone};
ghost use Rattle.worker_pool.specs.JobEnds.{IsForGates};
ghost use Rattle.socket_streams.specs.Sessions.{begun_by, in_turn};

use crate::arrivals::Arrivals;
use crate::halves::{ReplyHalf, RequestHalf};
use job_pool::{JobFault, Jobs};
use log::Log;
use std::alloc::Global;
use std::io;
use std::io::Write;
use std::marker::Model;
use std::net::{OpenListener, TcpStream};
use std::os::fd::AsRawFd;
use std::rt::Clock;
use std::sync::Wait;
use worker_pool::{Job, PausedSession};

/// A session over a socket that rests, or is to begin.
pub type SocketSession = PausedSession<RequestHalf, ReplyHalf>;

/// The sessions of a run over sockets: those that rest, which earlier runs left, and then one that is to begin for each connection that a listener
/// gives, as the [`Arrivals`] say.
///
/// Each session that rests is given once, the last one of the last list first. They take no place among the connections that may be accepted, and
/// are given where the run is stopped or paused too. Those that weren't given come back by [`Sessions::into_rested`].
///
/// ```text
/// Sessions::new(alloc, arrivals, [[a, b], [], [c]], None)
/// next, next, next      c, b, a
/// next                  a session for the first connection that is accepted; none, once no more are to be
/// ```
pub struct Sessions<'a, X, L, W> {
    alloc: Global,
    arrivals: Arrivals<'a, X, L>,
    /// Those that rest and weren't given yet.
    rested: Vec<Vec<SocketSession>>,
    /// Where it is written at which address connections are accepted, until it was.
    announcing: Option<&'a mut W>,
}

/// One call at each place where one is let go.
impl<'a, X, L, W> Drop for Sessions<'a, X, L, W> {
    fn drop(self) {
        let Sessions {
            alloc: _alloc,
            arrivals: _arrivals,
            rested: _rested,
            announcing: _announcing,
        } = self;
    }
}

impl<'a, X, L, W> Model for Sessions<'a, X, L, W> {
    ghost use Rattle.std.specs.Prelude.{map};
    ghost use Rattle.socket_streams.specs.Sessions.{SessionsView, in_turn};

    ghost Value = { SessionsView };

    ghost view = { λ s. record {
      rested = in_turn (map (λ one. one.items) s.rested.items);
      source = s.arrivals;
    } };
}

/// Writes where a listener listens, in a line.
fn write_address<L: OpenListener, W: Write>(listener: &L, writer: &mut W) -> io::Result<()> {
    let address = listener.local_addr()?;
    writeln!(writer, "listening {address}")?;
    writer.flush()
}

/// Takes the last element of the last list that has one. None where each is empty.
fn take_last<T: Drop>(lists: &mut Vec<Vec<T>>) -> Option<T>
    ensures some { IfSome result (λ one. in_turn (map (λ xs. xs.items) lists.old.items)
        ≡ one ∷ in_turn (map (λ xs. xs.items) lists.new.items)) }
    ensures none { IfNone result ((in_turn (map (λ xs. xs.items) lists.old.items) ≡ [])
        × (in_turn (map (λ xs. xs.items) lists.new.items) ≡ [])) }
{
    while let Some(mut last) = lists.pop() {
        if let Some(one) = last.pop() {
            lists.push_reserved(last);
            return Some(one);
        }
    }
    None
}

impl<'a, X, L, W> Sessions<'a, X, L, W> {
    /// Those that rest in these lists, and behind them those for the connections that come. Once all threads were
    /// started, and before the first session is given, a line `listening ADDRESS` is written there, if that is asked for.
    pub fn new(
        alloc: Global,
        arrivals: Arrivals<'a, X, L>,
        rested: Vec<Vec<SocketSession>>,
        announcing: Option<&'a mut W>,
    ) -> Sessions<'a, X, L, W>
        ensures rested { result.rested ≡ in_turn (map (λ one. one.items) rested.items) }
        ensures source { result.source ≡ arrivals.entry }
    {
        Sessions {
            alloc,
            arrivals,
            rested,
            announcing,
        }
    }

    /// The next of those that rest. None where each was given.
    fn next_rested(&mut self) -> Option<SocketSession>
        ensures given { IfSome result (λ session. self.old.rested ≡ session ∷ self.new.rested) }
        ensures none { IfNone result ((self.old.rested ≡ []) × (self.new.rested ≡ [])) }
        ensures source { self.new.source ≡ self.old.source }
    {
        take_last(&mut self.rested)
    }

    /// Lets it go, but for the sessions that rest and weren't given: all of them, where a run was refused before it took one.
    pub fn into_rested(self) -> Vec<Vec<SocketSession>>
        ensures { in_turn (map (λ one. one.items) result.items) ≡ self.entry.rested }
    {
        let Sessions {
            alloc: _,
            arrivals: _arrivals,
            rested,
            announcing: _announcing,
        } = self;
        rested
    }
}

impl<'a, X, L: OpenListener<Stream = TcpStream> + AsRawFd, W> Sessions<'a, X, L, W> {
    /// How many connections were accepted.
    pub fn accepted(&self) -> u64
        ensures count { result ≡ self.now.source.given + self.now.source.refused }
        ensures most { IfSome self.now.source.limit (λ limit. result ≤ limit) }
    {
        self.arrivals.accepted()
    }

    /// How many of them were closed for want of memory, and have no session.
    pub fn refused(&self) -> u64
        ensures { result ≡ self.now.source.refused }
    {
        self.arrivals.refused()
    }

    /// The session that is to begin by this job.
    fn begin(&self, job: Job<RequestHalf, ReplyHalf>) -> SocketSession
        requires { IsForGates self.now.source.gates job }
        ensures { result ≡ begun_by self.now.source.gates job }
    {
        let Job {
            reader,
            writer,
            passes,
        } = job;
        PausedSession::new(self.alloc, self.arrivals.shared(), passes, reader, writer)
    }
}

impl<'a, X, L: OpenListener<Stream = TcpStream> + AsRawFd, W: Write> Sessions<'a, X, L, W> {
    /// Writes where the listener listens, once, where that is asked for, as far as that can be done.
    fn announce(&mut self)
        ensures { self.new ≡ self.old }
    {
        if let Some(writer) = self.announcing.take() {
            let _unheard = write_address(self.arrivals.listener(), writer);
        }
    }
}

impl<'a, X, L, W> Jobs for Sessions<'a, X, L, W>
where
    X: Log + Clock + Wait,
    L: OpenListener<Stream = TcpStream> + AsRawFd,
    W: Write,
{
    type Job = SocketSession;

    ghost use Rattle.socket_streams.specs.Sessions.{GivesSession};

    ghost gives = { GivesSession };

    fn next(&mut self) -> Result<Option<SocketSession>, JobFault> {
        self.announce();
        self.arrivals.start();
        if let Some(session) = self.next_rested() {
            return Ok(Some(session));
        }
        match self.arrivals.next() {
            Ok(Some(job)) => Ok(Some(self.begin(job))),
            Ok(None) => Ok(None),
            Err(fault) => Err(fault),
        }
    }
}

//! What the threads of a run wait with.
ghost use Rattle.std.specs.Prelude.{◌≡◌, [], length, IfOk};
ghost use Rattle.job_pool.specs.Lists.{Every};

use crate::event_loop::EventLoop;
use crate::log_sink::LogSink;
use crate::replies_bound::{RepliesBound, WaitingBytes};
use crate::run_signals::RunSignals;
use crate::server_counts::ServerCounts;
use crate::waiting::Waiting;
use crate::worker_signals::{SocketWakeup, WorkerSignals};
use job_pool::Post;
use log::Log;
use mio::unix::SourceFd;
use mio::{Events, Interest, Poll, Token, Waker};
use std::alloc::Global;
use std::io;
use std::net::{Net, OpenListener};
use std::os::fd::AsRawFd;
use std::rt::Clock;
use std::sync::atomic::AtomicUsize;
use std::sync::{Arc, Wait};
use worker_pool::{ServingSetup, ShownStreams};

/// The token of the listener.
const LISTENER: usize = 0;

/// The token of a waker; those of connections are their slots, which are below it.
pub(crate) const WAKER: usize = 18_446_744_073_709_551_615;

/// How many events one wait gives at most.
const MAX_EVENTS: usize = 256;

/// What a thread waits with.
pub struct Waits {
    pub(crate) poll: Poll,
    pub(crate) events: Events<Global>,
}

/// One call at each place where one is let go.
impl Drop for Waits {
    fn drop(self) {
        let Waits {
            poll: _poll,
            events: _events,
        } = self;
    }
}

impl Waits {
    /// Has a listener not wait, and its connections reported.
    pub(crate) fn watch<L: OpenListener + AsRawFd>(&self, listener: &L) -> io::Result<()> {
        listener.set_nonblocking(true)?;
        let descriptor = listener.as_raw_fd();
        self.poll.registry().register(
            &mut SourceFd(&descriptor),
            Token(LISTENER),
            Interest::READABLE,
        )
    }
}

/// What a worker waits with, and what it shares with those who wake it.
#[derive(Drop)]
pub struct WorkerWaits {
    waits: Waits,
    worker_signals: Arc<WorkerSignals, Global>,
}

/// What the threads of a run wait with.
#[derive(Drop)]
pub struct RunWaits {
    pub accepting: Waits,
    pub workers: Vec<WorkerWaits>,
}

/// What a worker over sockets waits with in a run that keeps all ends, and is woken by.
pub type SocketPost<'s, X> = Post<ShownStreams<EventLoop<'s, X>>, SocketWakeup>;

/// What a worker over sockets is started with in a run that keeps none.
pub type SocketServingSetup<'a, 's, X> = ServingSetup<
    LogSink<'a, X>,
    EventLoop<'s, X>,
    SocketWakeup,
>;

/// What a thread waits with, and how another one wakes it.
fn new_waits<X: Net>(net: &X, alloc: Global) -> io::Result<(Waits, Waker)> {
    let poll = Poll::new(net)?;
    let events = Events::with_capacity(alloc, MAX_EVENTS)?;
    let waker = Waker::new(poll.registry(), Token(WAKER))?;
    Ok((Waits { poll, events }, waker))
}

/// What a further worker waits with, whose signals are one more of these.
fn new_worker<X: Net>(
    net: &X,
    alloc: Global,
    all_worker_signals: &mut Vec<Arc<WorkerSignals, Global>>,
    counts: &ServerCounts,
) -> io::Result<WorkerWaits> {
    let (waits, waker) = new_waits(net, alloc)?;
    let counts = counts.share_worker(all_worker_signals.len())?;
    let worker_signals = Arc::new(alloc, WorkerSignals::new(alloc, waker, counts))?;
    all_worker_signals.push(Arc::try_clone(&worker_signals)?)?;
    Ok(WorkerWaits {
        waits,
        worker_signals,
    })
}

/// What the threads of a run of so many workers wait with, and what stops or pauses the run. What they do is counted
/// there, of as many workers. Refused where memory is, or a descriptor.
pub fn new_run_waits<X: Net>(
    net: &X,
    alloc: Global,
    workers: u16,
    counts: &Arc<ServerCounts, Global>,
) -> io::Result<(RunWaits, RunSignals)>
    ensures { IfOk result (λ made. length made.0.workers.items ≡ workers) }
{
    let (accepting, waker) = new_waits(net, alloc)?;
    let mut waits = Vec::new(alloc);
    let mut all_worker_signals = Vec::new(alloc);
    for _ in 0..workers {
        waits.push(new_worker(net, alloc, &mut all_worker_signals, counts)?)?;
    }
    let made = RunWaits {
        accepting,
        workers: waits,
    };
    Ok((
        made,
        RunSignals::new(waker, all_worker_signals, Arc::try_clone(counts)?),
    ))
}

/// What a worker that waits with these has in a run that is stopped so.
fn new_post<'s, X: Clock + Log + Wait>(
    rt: &'s X,
    alloc: Global,
    stop: &'s RunSignals,
    worker: WorkerWaits,
    waiting: Waiting,
    replies: RepliesBound,
) -> io::Result<SocketPost<'s, X>> {
    let WorkerWaits {
        waits,
        worker_signals,
    } = worker;
    let of_wakeup = Arc::try_clone(&worker_signals)?;
    Ok(Post {
        readiness: ShownStreams {
            streams: EventLoop::new(rt, alloc, stop, worker_signals, waits, waiting, replies),
        },
        wakeup: SocketWakeup {
            worker_signals: of_wakeup,
        },
    })
}

/// The same of a run that keeps no ends, with a sink.
fn new_serving_setup<'a: 's, 's, X: Clock + Log + Wait>(
    rt: &'a X,
    alloc: Global,
    stop: &'s RunSignals,
    worker: WorkerWaits,
    waiting: Waiting,
    replies: &WaitingBytes,
) -> io::Result<SocketServingSetup<'a, 's, X>>
    ensures { IfOk result (λ serving_setup. serving_setup.sink ≡ []) }
{
    let of_sink = Arc::try_clone(&worker.worker_signals)?;
    let counts = worker.worker_signals.counts().sessions().try_clone()?;
    let bound = RepliesBound::of(waiting.replies_bytes, Arc::try_clone(replies)?);
    let Post { readiness, wakeup } = new_post(rt, alloc, stop, worker, waiting, bound)?;
    Ok(ServingSetup {
        sink: LogSink::new(rt, alloc, of_sink),
        readiness: readiness.streams,
        wakeup,
        counts: Some(counts),
    })
}

/// What the workers of a run that keeps all ends wait with, and are woken by. Its connections are waited for until they end. Refused where
/// memory is.
pub fn new_posts<'s, X: Clock + Log + Wait>(
    rt: &'s X,
    alloc: Global,
    stop: &'s RunSignals,
    workers: Vec<WorkerWaits>,
) -> io::Result<Vec<SocketPost<'s, X>>>
    ensures { IfOk result (λ posts. length posts.items ≡ length workers.items) }
{
    let waiting = Waiting {
        idle_seconds: None,
        spin_micros: None,
        replies_bytes: None,
    };
    let mut posts = Vec::new(alloc);
    for worker in workers {
        let bound = RepliesBound::none();
        posts.push(new_post(rt, alloc, stop, worker, waiting, bound)?)?;
    }
    Ok(posts)
}

/// What the workers of a run that keeps no ends are started with, which wait so: a connection has been silent since the run began at most. Refused
/// where memory is.
pub fn new_serving_setups<'a: 's, 's, X: Clock + Log + Wait>(
    rt: &'a X,
    alloc: Global,
    stop: &'s RunSignals,
    workers: Vec<WorkerWaits>,
    waiting: Waiting,
) -> io::Result<Vec<SocketServingSetup<'a, 's, X>>>
    ensures count { IfOk result (λ serving_setups.
        length serving_setups.items ≡ length workers.items) }
    ensures new { IfOk result (λ serving_setups.
        Every (λ serving_setup. serving_setup.sink ≡ []) serving_setups.items) }
{
    let replies = Arc::new(alloc, AtomicUsize::new(0))?;
    let mut serving_setups = Vec::new(alloc);
    for worker in workers {
        serving_setups.push(new_serving_setup(rt, alloc, stop, worker, waiting, &replies)?)?;
    }
    Ok(serving_setups)
}

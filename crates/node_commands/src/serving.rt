//! Many connections by many threads.
ghost use Rattle.std.specs.Prelude.{◌≡◌, ◌≤◌, length, IfOk};
ghost use Rattle.node_commands.specs.Runs.{AreServed, AreConnectionsServed};

use crate::fault::{ServeFault, setup_fault};
use crate::gates::new_shared;
use crate::lines::{conclude, write_address};
use gate_node::Ring;
use log::{Log, info, warn};
use socket_streams::{
    Arrivals, Limits, ReplyHalf, RequestHalf, RunSignals, RunWaits, ServerCounts, new_posts,
    new_run_waits,
};
use std::alloc::Global;
use std::io::Write;
use std::net::{Net, OpenListener, TcpStream};
use std::os::fd::AsRawFd;
use std::rt::Clock;
use std::sync::Wait;
use std::thread::Threads;
use worker_pool::{Closed, End, Open, Pool, PoolFault, Shared};

/// What came of all connections: the totals, the vnodes' tallies, and the end of each connection.
pub type Served = Closed<RequestHalf, ReplyHalf>;

/// How a run serves.
#[derive(Clone, Copy)]
pub struct Settings {
    /// How many connections are served, from 1 on.
    pub connections: u16,
    /// How many threads serve, each many connections: from 1 to 64.
    pub workers: u16,
    /// The partitions of the keys.
    pub ring: Ring,
    /// The run's number, from 1 on.
    pub run: u32,
    /// How many dead keys are forgotten after an answer, at most.
    pub sweep: u32,
}

/// How often a connection is accepted at most where that gives none: where the system has no descriptor or no memory for it, for an hour.
pub const MAX_ACCEPT_TRIES: u32 = 360_000;

/// Logs how each connection ended.
fn log_ends<L: Log>(rt: &L, ends: &[End<RequestHalf, ReplyHalf>]) {
    for end in ends {
        match &end.result {
            Ok(_) => info!(rt; "connection from {} ended", end.reader.peer()),
            Err(fault) => warn!(rt; "connection from {} ended: {fault}", end.reader.peer()),
        }
    }
}

/// Why there was no further connection.
fn of_connections(wants_memory: bool) -> ServeFault {
    if wants_memory {
        ServeFault::NoMemory
    } else {
        ServeFault::AcceptFailed
    }
}

/// The fault of serving for a fault of the pool; where the pool had no further job, that for which there was none.
pub(crate) fn serve_fault(fault: PoolFault, of_connections: ServeFault) -> ServeFault {
    match fault {
        PoolFault::NoMemory => ServeFault::NoMemory,
        PoolFault::NoThread => ServeFault::NoThread,
        PoolFault::JobsFailed => of_connections,
        PoolFault::BookFull => ServeFault::BookFull,
    }
}

/// Serves the next connections of a listener, so many, over the gates of a run, by workers that wait with these.
fn serve_over<T, L>(
    rt: &T,
    alloc: Global,
    shared: &Shared,
    listener: &L,
    connections: u16,
    workers: u16,
    stop: &RunSignals,
    waits: RunWaits,
) -> Result<Served, ServeFault>
where
    T: Log + Clock + Net + Threads + Wait + Sync,
    L: OpenListener<Stream = TcpStream> + AsRawFd,
    requires workers { (1 ≤ workers) × (workers ≤ 64) }
    requires waits { length waits.workers.items ≡ workers }
    ensures { IfOk result (AreServed shared.now connections workers) }
{
    let RunWaits {
        accepting,
        workers: waiting,
    } = waits;
    let Ok(posts) = new_posts(rt, alloc, stop, waiting) else {
        return Err(ServeFault::NoMemory);
    };
    let limits = Limits {
        before: 0,
        connections: Some(u64::from(connections)),
        counts_refused: false,
        can_stop: false,
        keeps_back: false,
        tries: Some(MAX_ACCEPT_TRIES),
    };
    let mut arrivals = match Arrivals::new(rt, alloc, listener, accepting, shared, stop, limits) {
        Ok(arrivals) => arrivals,
        Err(error) => return Err(setup_fault(&error)),
    };
    match Pool::run_with(rt, alloc, shared, &mut arrivals, workers, posts, &Open) {
        Ok(served) => Ok(served),
        Err(fault) => Err(serve_fault(fault, of_connections(arrivals.wants_memory()))),
    }
}

/// Writes the address, as far as that can be done.
fn announce<L: OpenListener, W: Write>(listener: &L, writer: &mut W) {
    if let Ok(address) = listener.local_addr() {
        let _unheard = write_address(writer, address.port());
        let _unheard = writer.flush();
    }
}

/// Serves the next connections of a listener, so many, by threads, and returns what came of them when all have ended.
///
/// Each connection is served by one thread, to its end, each as it is ready; a thread has many. There is one history of each vnode, which its machine
/// accepts, and each reply of each connection is at a position of it, which is never before another position that this connection
/// had a reply at. So what two connections are told of a key fits together. The vnode's tally is of the whole of that history, and the
/// totals are the sums of what the sessions counted. Where the tallies count all that the histories have (`count_all`), the histories are legal for the
/// sibling register, and each reply is the register's at its position, but an error of the gate and one for which memory was refused. Order in real time,
/// and order between vnodes, aren't said.
///
/// It writes two lines: `listening 127.0.0.1:P` before the first connection is accepted, and the totals after the last one has ended. A
/// failed write of them is passed over. The log has a line for each connection when it is accepted, and for each one's end, with its
/// fault, after the last one has ended.
///
/// A session that ends by a fault (a failed read or write, a bad length, too many reads, or no memory for what it reads or answers) ends
/// its own connection alone. A new one for which memory is refused is closed and logged, and isn't one of those that are served. Where the
/// listener fails, the connections that were accepted are ended, and serving ends. It ends too where memory is refused to the run, or for
/// the outcome of a connection, where the system refuses a thread, and where a total has no room ([`ServeFault`]).
///
/// Where the system has no descriptor or no memory for a further connection, the log has a warning, and it is accepted again every 10 ms
/// until there is one, [`MAX_ACCEPT_TRIES`] times at most.
///
/// The outcome keeps each connection's end: with its passes about 2,300 bytes on a ring of 64, 150 MB for 65,535. At the end each end's
/// passes are compared with a look at their vnode, one after another.
pub fn serve_on<T, L, W>(
    rt: &T,
    alloc: Global,
    listener: L,
    settings: &Settings,
    writer: &mut W,
) -> Result<Served, ServeFault>
where
    T: Log + Clock + Net + Threads + Wait + Sync,
    L: OpenListener<Stream = TcpStream> + AsRawFd + Drop,
    W: Write,
    requires workers { (1 ≤ settings.now.workers) × (settings.now.workers ≤ 64) }
    requires run { 1 ≤ settings.now.run }

    // Each connection was served once, to its end, over the gates of a new run, in one history of each vnode; these are the ends, the
    // tallies of the vnodes at the ends of these histories, and the totals. Where the tallies count all, these histories are legal for the sibling register,
    // and each connection was served by steps of the register among others, in them.
    ensures served { IfOk result (AreConnectionsServed settings.now) }
{
    let Some(shared) = new_shared(alloc, settings.ring, settings.run, settings.sweep) else {
        return Err(ServeFault::NoMemory);
    };
    let Ok(counts) = ServerCounts::new(alloc, settings.workers) else {
        return Err(ServeFault::NoMemory);
    };
    let (waits, stop) = match new_run_waits(rt, alloc, settings.workers, &counts) {
        Ok(made) => made,
        Err(error) => return Err(setup_fault(&error)),
    };
    announce(&listener, writer);
    let outcome = serve_over(
        rt,
        alloc,
        &shared,
        &listener,
        settings.connections,
        settings.workers,
        &stop,
        waits,
    );
    if let Ok(served) = &outcome {
        log_ends(rt, served.ends.as_slice());
        let _unheard = conclude(rt, served.totals, served.count_all, writer);
    }
    outcome
}

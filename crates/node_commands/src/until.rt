//! Serving for as long as is wanted.

ghost use Rattle.std.specs.Prelude.{◌≡◌, ◌≤◌, None, Some, true, false, length, IfOk, IfSome};
ghost use Rattle.gate_node.specs.Passes.{ArePassesOf};
ghost use Rattle.node_commands.specs.Lines.{EndsWithLine, totals_line};
ghost use Rattle.node_commands.specs.Runs.{AreTold, IsServedUntil, IsTallied};

use crate::fault::{ServeFault, setup_fault};
use crate::gates::new_shared;
use crate::lines::conclude;
use crate::options::ServerSettings;
use crate::serving::serve_fault;
use gate_node::{Open, Passes, RunTallies, Shared, tallies_of};
use log::Log;
use socket_streams::{
    Arrivals, Limits, LogSink, ReplyHalf, RequestHalf, RunSignals, RunWaits, ServerCounts,
    Sessions, new_run_waits, new_serving_setups,
};
use std::alloc::Global;
use std::io::{Read, Write};
use std::net::{Net, TcpListener};
use std::rt::Clock;
use std::sync::Wait;
use std::thread::{Scope, Threads};
use std::{slice, thread};
use worker_pool::{NoPause, ServedSessions, serve};

/// What came of a server for as many clients as come.
#[derive(Drop)]
pub struct ServedUntil<'a, T> {
    /// What the workers did with the connections that came to them, and what all that comes to.
    pub served: ServedSessions<RequestHalf, ReplyHalf, LogSink<'a, T>>,
    /// The tally of each vnode behind the last of them, of all that its connections saw of it, in the order of the partitions.
    pub tallies: RunTallies,
    /// How many connections were accepted.
    pub connections: u64,
    /// How many of them were closed before they came to a worker, for want of memory.
    pub closed: u64,
    /// Whether the line of the totals was written.
    pub wrote_totals: bool,
}

/// Starts a thread that raises the run's signals at the end of an input, if there is one.
fn start_reader<'s, X, T, I>(
    scope: &'s Scope<'s, X>,
    rt: &'s T,
    stop: &'s RunSignals,
    until: Option<I>,
) -> Result<(), ServeFault>
where
    T: Clock + Threads + Wait + Sync,
    I: Read + Send + Drop + 's,
{
    let Some(mut input) = until else {
        return Ok(());
    };
    match scope.spawn(move || stop.raise_after(rt, &mut input)) {
        Ok(_) => Ok(()),
        Err(_) => Err(ServeFault::NoThread),
    }
}

/// What came of connections, of whose ends these passes have seen all that their sessions had: with the tallies of the vnodes.
fn tally<'a, T>(
    rt: &'a T,
    alloc: Global,
    shared: &Shared,
    served: ServedSessions<RequestHalf, ReplyHalf, LogSink<'a, T>>,
    connections: u64,
    closed: u64,
    seen: &Passes,
) -> Result<ServedUntil<'a, T>, ServeFault>
where
    T: Wait,
    requires { ArePassesOf shared.now seen.now }
    ensures { IfOk result (IsTallied shared.now served.entry connections closed seen.now) }
{
    match tallies_of(rt, alloc, shared, slice::from_ref(seen)) {
        Ok(tallies) => Ok(ServedUntil {
            served,
            tallies,
            connections,
            closed,
            wrote_totals: false,
        }),
        Err(_) => Err(ServeFault::NoMemory),
    }
}

/// Serves the connections of a listener, by workers that wait with these, and writes where it listens.
fn serve_over<'a, T, W>(
    rt: &'a T,
    alloc: Global,
    listener: &TcpListener,
    shared: &Shared,
    settings: ServerSettings,
    stop: &RunSignals,
    waits: RunWaits,
    can_stop: bool,
    writer: &mut W,
) -> Result<ServedUntil<'a, T>, ServeFault>
where
    T: Log + Clock + Net + Threads + Wait + Sync,
    W: Write,
    requires workers { (1 ≤ length waits.workers.items) × (length waits.workers.items ≤ 64) }
    ensures served { IfOk result (λ outcome. AreTold shared.now outcome.served
        outcome.tallies outcome.connections outcome.closed) }
    ensures most { IfOk result (λ outcome.
        IfSome settings.options.connections (λ limit. outcome.connections ≤ limit)) }
    ensures all { can_stop ≡ false → IfOk result (λ outcome.
        settings.options.connections ≡ Some outcome.connections) }
{
    let RunWaits { accepting, workers } = waits;
    let Ok(serving_setups) = new_serving_setups(rt, alloc, stop, workers, settings.options.waiting)
    else {
        return Err(ServeFault::NoMemory);
    };
    let limits = Limits {
        before: 0,
        connections: settings.options.connections,
        counts_refused: true,
        can_stop,
        keeps_back: false,
        tries: None,
    };
    let arrivals = match Arrivals::new(rt, alloc, listener, accepting, shared, stop, limits) {
        Ok(arrivals) => arrivals,
        Err(error) => return Err(setup_fault(&error)),
    };
    let Ok(mut seen) = Passes::new(alloc, shared) else {
        return Err(ServeFault::NoMemory);
    };
    let mut sessions = Sessions::new(alloc, arrivals, Vec::new(alloc), Some(writer));
    match serve(
        rt,
        alloc,
        shared,
        &mut sessions,
        serving_setups,
        &Open,
        &NoPause,
        &mut seen,
    ) {
        Ok(served) => {
            let (connections, closed) = (sessions.accepted(), sessions.refused());
            tally(rt, alloc, shared, served, connections, closed, &seen)
        }
        Err(fault) => Err(serve_fault(fault, ServeFault::AcceptFailed)),
    }
}

/// The same, until an input ends, if there is one.
fn serve_until_end<'a, T, I, W>(
    rt: &'a T,
    alloc: Global,
    listener: &TcpListener,
    shared: &Shared,
    settings: ServerSettings,
    until: Option<I>,
    writer: &mut W,
) -> Result<ServedUntil<'a, T>, ServeFault>
where
    T: Log + Clock + Net + Threads + Wait + Sync,
    I: Read + Send + Drop,
    W: Write,
    requires workers { (1 ≤ settings.options.workers) × (settings.options.workers ≤ 64) }
    ensures served { IfOk result (λ outcome. AreTold shared.now outcome.served
        outcome.tallies outcome.connections outcome.closed) }
    ensures most { IfOk result (λ outcome.
        IfSome settings.options.connections (λ limit. outcome.connections ≤ limit)) }
    ensures all { until ≡ None → IfOk result (λ outcome.
        settings.options.connections ≡ Some outcome.connections) }
{
    let Ok(counts) = ServerCounts::new(alloc, settings.options.workers) else {
        return Err(ServeFault::NoMemory);
    };
    let (waits, stop) = match new_run_waits(rt, alloc, settings.options.workers, &counts) {
        Ok(made) => made,
        Err(error) => return Err(setup_fault(&error)),
    };
    let can_stop = until.is_some();
    thread::scope(
        thread::scope_env(),
        rt,
        |scope| -> Result<ServedUntil<'_, T>, ServeFault>
            requires workers { (1 ≤ length waits.workers.items)
                × (length waits.workers.items ≤ 64) }
            requires stops { until ≡ None → can_stop ≡ false }
            ensures served { IfOk result (λ outcome. AreTold shared.entry.now outcome.served
                outcome.tallies outcome.connections outcome.closed) }
            ensures most { IfOk result (λ outcome.
                IfSome settings.options.connections (λ limit. outcome.connections ≤ limit)) }
            ensures all { until ≡ None → IfOk result (λ outcome.
                settings.options.connections ≡ Some outcome.connections) }
        {
            start_reader(scope, rt, &stop, until)?;
            let served = serve_over(
                rt, alloc, listener, shared, settings, &stop, waits, can_stop, writer,
            );
            stop.close();
            served
        },
    )
}

/// The same, once its totals were told.
fn with_totals_told<'a, T: Log, W: Write>(
    rt: &'a T,
    outcome: ServedUntil<'a, T>,
    writer: &mut W,
) -> ServedUntil<'a, T>
    ensures same { result
        ≡ record outcome.entry { wrote_totals = result.wrote_totals } }
    ensures line { result.wrote_totals ≡ true
        → EndsWithLine W.contents writer.new (totals_line result.served.totals) }
{
    let ServedUntil {
        served,
        tallies,
        connections,
        closed,
        wrote_totals: _,
    } = outcome;
    let wrote_totals = conclude(rt, served.totals, tallies.count_all, writer);
    ServedUntil {
        served,
        tallies,
        connections,
        closed,
        wrote_totals,
    }
}

/// Serves all connections of a listener, each as it is ready, by threads that have many of them each, over the gates of a new run.
///
/// It serves until as many connections were accepted as are to be and all of them have ended by themselves, or until an input ends or the
/// listener fails, when it ends them. One for which memory is refused is closed, and is one of those that were accepted. It writes
/// `listening ADDRESS` once all threads were started, before the first connection is accepted, and the totals at the end. A failed write of these is passed over, that of the totals
/// with a warning in the log, which has a line for each connection when it is accepted, and one when it has ended.
///
/// There is one history of the primary of each partition, which the vnode's machine accepts, and after each step of each session its passes have seen
/// beginnings of these histories. So each reply is at a position of the history of its key's vnode
/// ([`replies_are_at_positions`](gate_node::replies_are_at_positions)), and what two connections are told of one vnode fits together. The
/// tallies are of the whole of these histories, in the order of the partitions, each of one look after the threads were joined, made
/// again where a session had seen more. Where they count all that the histories have (`count_all`), the histories are legal for the sibling register, and
/// each reply is the register's at its position, but an error of the gate and one for which memory was refused. Order in real time isn't said, nor any order
/// between vnodes. Where memory is refused for a tally, it is refused with `NoMemory`; what the connections did stays.
pub fn serve_on_until<'a, T, W, I>(
    rt: &'a T,
    alloc: Global,
    listener: TcpListener,
    settings: &ServerSettings,
    until: Option<I>,
    writer: &mut W,
) -> Result<ServedUntil<'a, T>, ServeFault>
where
    T: Log + Clock + Net + Threads + Wait + Sync,
    W: Write,
    I: Read + Send + Drop,

    // Each connection that came to a worker was served over the gates of a new run, in one history of each vnode, and its end was told the
    // worker's sink, once, or it was refused there for want of memory; the tallies are those of the vnodes at the ends of these histories, and the
    // totals are what the sessions counted. The connections that were accepted are those that came to a worker and those that were
    // closed before. Where the tallies count all, these histories are legal for the sibling register, and each session is by steps of the register among
    // others, in them.
    ensures served { IfOk result (IsServedUntil settings.now) }

    // No more connections were accepted than were to be, and just as many where no input could end serving before.
    ensures most { IfOk result (λ outcome.
        IfSome settings.now.options.connections (λ limit. outcome.connections ≤ limit)) }
    ensures all { until ≡ None → IfOk result (λ outcome.
        settings.now.options.connections ≡ Some outcome.connections) }

    // Where the totals were written, theirs is the last line.
    ensures line { IfOk result (λ outcome. outcome.wrote_totals ≡ true
        → EndsWithLine W.contents writer.new (totals_line outcome.served.totals)) }
{
    let Some(shared) = new_shared(
        alloc,
        settings.ring,
        settings.options.run,
        settings.options.sweep,
    ) else {
        return Err(ServeFault::NoMemory);
    };
    let outcome = serve_until_end(
        rt,
        alloc,
        &listener,
        &shared,
        *settings,
        until,
        &mut *writer,
    );
    match outcome {
        Ok(served) => Ok(with_totals_told(rt, served, writer)),
        Err(fault) => Err(fault),
    }
}

//! A period of a server: its workers serve until they are paused, or there are no more connections.

ghost use Rattle.std.specs.Prelude.{◌≡◌, ◌-◌, ◌≤◌, length, IfOk, IfSome};
ghost use Rattle.std.specs.Option.{option_map};
ghost use Rattle.gate_node.specs.Gates.{handoff_of};
ghost use Rattle.node_commands.specs.Periods.{AddsUp, HasServed, IsReady};
ghost use Rattle.handoff_tracks.specs.Tracks.{HaveTracks};

use crate::console::Console;
use crate::fault::{ServeFault, setup_fault};
use crate::hearing::{Hearing, KnowsTracks, hear};
use crate::options::ServerSettings;
use crate::progress::{Paused, Progress};
use crate::serving::serve_fault;
use gate_node::{Open, Passes, Shared};
use handoff_tracks::HandoffTracks;
use log::Log;
use socket_streams::{
    Arrivals, Limits, LogSink, ReplyHalf, RequestHalf, RunSignals, RunWaits, Sessions,
    new_run_waits, new_serving_setups,
};
use stats_book::Totals;
use std::alloc::Global;
use std::io::{Read, Write};
use std::net::{Net, TcpListener};
use std::rt::Clock;
use std::snapshot::Snapshot;
use std::sync::Wait;
use std::sync::atomic::{AtomicBool, Ordering};
use std::thread;
use std::thread::Threads;
use worker_pool::{ServedSessions, serve};

/// How many connections may still be accepted.
fn left_of(limit: Option<u64>, accepted: u64) -> Option<u64>
    requires { IfSome limit (λ most. accepted ≤ most) }
    ensures { result ≡ option_map (λ most. most - accepted) limit }
{
    match limit {
        Some(most) => Some(most - accepted),
        None => None,
    }
}

/// What was counted before a period.
#[derive(Clone, Copy)]
pub struct Before {
    pub totals: Totals,
    pub connections: u64,
    pub closed: u64,
}

/// What the workers have come to behind a period, in which so many connections were accepted and so many closed.
fn lay_down<T>(
    before: Before,
    served: ServedSessions<RequestHalf, ReplyHalf, LogSink<'_, T>>,
    connections: u64,
    closed: u64,
    seen: Passes,
) -> Result<Progress, ServeFault>
    ensures { IfOk result (AddsUp before served.entry connections closed seen) }
{
    let ServedSessions {
        totals,
        accepted: _,
        refused: _,
        sinks: _sinks,
        resting,
    } = served;
    let mut sum = before.totals;
    if !sum.add(&totals) {
        return Err(ServeFault::BookFull);
    }
    let (Some(connections), Some(closed)) = (
        before.connections.checked_add(connections),
        before.closed.checked_add(closed),
    ) else {
        return Err(ServeFault::BookFull);
    };
    Ok(Progress {
        rested: resting,
        seen,
        totals: sum,
        connections,
        closed,
    })
}

/// The workers serve the connections of a listener, and those whose sessions rest, until they are paused or stopped, or as many were accepted as are to be
/// and have ended.
fn serve_period<T, W>(
    rt: &T,
    alloc: Global,
    listener: &TcpListener,
    shared: &Shared,
    progress: Progress,
    settings: &ServerSettings,
    stop: &RunSignals,
    waits: RunWaits,
    announcing: Option<&mut W>,
) -> Result<Progress, ServeFault>
where
    T: Log + Clock + Net + Threads + Wait + Sync,
    W: Write,
    requires workers { (1 ≤ length waits.workers.items) × (length waits.workers.items ≤ 64) }
    requires ready { IsReady shared.now progress }
    requires limit { IfSome settings.now.options.connections
        (λ limit. progress.connections ≤ limit) }
    ensures served { IfOk result (HasServed shared.now progress) }
    ensures ready { IfOk result (IsReady shared.now) }
    ensures limit { IfOk result (λ later.
        IfSome settings.now.options.connections (λ limit. later.connections ≤ limit)) }
{
    let RunWaits { accepting, workers } = waits;
    let Ok(serving_setups) = new_serving_setups(rt, alloc, stop, workers, settings.options.waiting)
    else {
        return Err(ServeFault::NoMemory);
    };
    let Progress {
        rested,
        mut seen,
        totals,
        connections,
        closed,
    } = progress;
    let limits = Limits {
        before: connections,
        connections: left_of(settings.options.connections, connections),
        counts_refused: true,
        can_stop: true,
        keeps_back: true,
        tries: None,
    };
    let arrivals = match Arrivals::new(rt, alloc, listener, accepting, shared, stop, limits) {
        Ok(arrivals) => arrivals,
        Err(error) => return Err(setup_fault(&error)),
    };
    let before = Before {
        totals,
        connections,
        closed,
    };
    let mut sessions = Sessions::new(alloc, arrivals, rested, announcing);
    match serve(
        rt,
        alloc,
        shared,
        &mut sessions,
        serving_setups,
        &Open,
        stop,
        &mut seen,
    ) {
        Ok(served) => {
            let (accepted, away) = (sessions.accepted(), sessions.refused());
            lay_down(before, served, accepted, away, seen)
        }
        Err(fault) => Err(serve_fault(fault, ServeFault::AcceptFailed)),
    }
}

/// What a period comes to.
#[derive(Drop)]
pub(crate) struct Period<C> {
    pub(crate) paused: Paused,
    pub(crate) hearing: Hearing<C>,
}

/// A period while an operator is heard by a thread of its own, over these gates, with what the workers wait with and what pauses and stops them.
fn serve_and_hear<T, C, W>(
    rt: &T,
    alloc: Global,
    listener: &TcpListener,
    shared: &Shared,
    progress: Progress,
    settings: &ServerSettings,
    console: Console<C>,
    tracks: HandoffTracks,
    stop: RunSignals,
    waits: RunWaits,
    announcing: Option<&mut W>,
) -> Result<(Progress, Hearing<C>), ServeFault>
where
    T: Log + Clock + Net + Threads + Wait + Sync,
    C: Read + Write + Send + Drop,
    W: Write,
    requires workers { (1 ≤ length waits.workers.items) × (length waits.workers.items ≤ 64) }
    requires ready { IsReady shared.now progress }
    requires limit { IfSome settings.now.options.connections
        (λ limit. progress.connections ≤ limit) }
    requires tracks { HaveTracks (handoff_of shared.now) tracks }
    ensures served { IfOk result (λ came. HasServed shared.now progress came.0) }
    ensures ready { IfOk result (λ came. IsReady shared.now came.0) }
    ensures limit { IfOk result (λ came.
        IfSome settings.now.options.connections (λ limit. came.0.connections ≤ limit)) }
    ensures tracks { IfOk result (λ came. HaveTracks (handoff_of shared.now) came.1.tracks) }
{
    let has_ended = AtomicBool::new(false);
    thread::scope(
        thread::scope_env(),
        rt,
        |scope| -> Result<(Progress, Hearing<C>), ServeFault>
            requires workers { (1 ≤ length waits.workers.items)
                × (length waits.workers.items ≤ 64) }
            requires ready { IsReady shared.now progress }
            requires limit { IfSome settings.now.options.connections
                (λ limit. progress.connections ≤ limit) }
            requires tracks { HaveTracks (handoff_of shared.now) tracks }
            ensures served { IfOk result (λ came. HasServed shared.entry.now progress came.0) }
            ensures ready { IfOk result (λ came. IsReady shared.entry.now came.0) }
            ensures limit { IfOk result (λ came.
                IfSome settings.entry.now.options.connections
                (λ limit. came.0.connections ≤ limit)) }
            ensures tracks { IfOk result (λ came.
                HaveTracks (handoff_of shared.entry.now) came.1.tracks) }
        {
            let (stop, has_ended) = (&stop, &has_ended);
            let promise = KnowsTracks {
                shared: Snapshot::of(shared),
            };
            let hearing = scope.spawn_with(
                promise,
                move || -> Hearing<C>
                    requires { HaveTracks (handoff_of shared.now) tracks }
                    ensures { HaveTracks (handoff_of shared.entry.now) result.tracks }
                { hear(rt, alloc, shared, console, tracks, stop, has_ended) },
            );
            let Ok(heard) = hearing else {
                return Err(ServeFault::NoThread);
            };
            let served = serve_period(
                rt, alloc, listener, shared, progress, settings, stop, waits, announcing,
            );
            has_ended.store(true, Ordering::SeqCst);
            let hearing = heard.join(rt);
            match served {
                Ok(progress) => Ok((progress, hearing)),
                Err(fault) => Err(fault),
            }
        },
    )
}

/// A period of a server that was paused, while its operator is heard. It is written where the listener listens, where that is to be announced.
pub(crate) fn serve_on<T, C, W>(
    rt: &T,
    alloc: Global,
    listener: &TcpListener,
    paused: Paused,
    settings: &ServerSettings,
    console: Console<C>,
    tracks: HandoffTracks,
    announcing: Option<&mut W>,
) -> Result<Period<C>, ServeFault>
where
    T: Log + Clock + Net + Threads + Wait + Sync,
    C: Read + Write + Send + Drop,
    W: Write,
    requires workers { (1 ≤ settings.now.options.workers) × (settings.now.options.workers ≤ 64) }
    requires ready { IsReady paused.shared paused.progress }
    requires limit { IfSome settings.now.options.connections
        (λ limit. paused.progress.connections ≤ limit) }
    requires tracks { HaveTracks (handoff_of paused.shared) tracks }
    ensures shared { IfOk result (λ period. period.paused.shared ≡ paused.shared) }
    ensures served { IfOk result (λ period.
        HasServed paused.shared paused.progress period.paused.progress) }
    ensures ready { IfOk result (λ period.
        IsReady period.paused.shared period.paused.progress) }
    ensures limit { IfOk result (λ period. IfSome settings.now.options.connections
        (λ limit. period.paused.progress.connections ≤ limit)) }
    ensures tracks { IfOk result (λ period.
        HaveTracks (handoff_of period.paused.shared) period.hearing.tracks) }
{
    let (waits, stop) = match new_run_waits(rt, alloc, settings.options.workers, console.counts()) {
        Ok(made) => made,
        Err(error) => return Err(setup_fault(&error)),
    };
    let Paused { shared, progress } = paused;
    let came = serve_and_hear(
        rt, alloc, listener, &shared, progress, settings, console, tracks, stop, waits, announcing,
    );
    match came {
        Ok((progress, hearing)) => Ok(Period {
            paused: Paused { shared, progress },
            hearing,
        }),
        Err(fault) => Err(fault),
    }
}

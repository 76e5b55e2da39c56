//! Runs of two workers that keep no end: a sink is told each as it comes, or that there was no room for its session.
ghost use Rattle.std.specs.Prelude.{◌+◌, ◌≤◌, length, vec_len, vec_capacity};
ghost use Rattle.job_pool.specs.Lists.{Every};
ghost use Rattle.gate_node.specs.Passes.{ArePassesOf};
ghost use Rattle.worker_pool.specs.EndReporters.{IsNewServingSetup};

use crate::exchanges::{NOTHING_ACCEPTED, NOTHING_COUNTED, new_shared};
use crate::workers::kept_ends::KeptEnds;
use crate::workers::runs::{RUNS, Run, THREE_JOBS, are_streams, are_tallies, is_accepted};
use crate::workers::script::{Line, Wires};
use crate::workers::serving_setups::{TestServingSetup, live_of, new_serving_setups};
use crate::workers::sessions::{TestServed, play_new};
use crate::workers::streams::{Counts, Input, Output};
use gate_node::tallies_of;
use stats_book::Totals;
use std::alloc::Global;
use std::process::Abort;
use std::slice;
use std::sync::{Arc, Wait};
use std::test::*;
use std::thread::Threads;
use worker_pool::{LiveCounts, Passes, PoolFault, SessionEnd, Shared};

/// Runs whose sinks have no room for an end.
const REFUSED: &[Run] = &[
    Run {
        shows: "jobs are refused whose ends there is no room for",
        partitions: 2,
        budget: 1,
        lines: THREE_JOBS,
        fails: false,
        totals: Ok(NOTHING_COUNTED),
        accepted: NOTHING_ACCEPTED,
    },
    Run {
        shows: "a source that fails behind jobs that were refused fails the run",
        partitions: 2,
        budget: 1,
        lines: THREE_JOBS,
        fails: true,
        totals: Err(PoolFault::JobsFailed),
        accepted: NOTHING_ACCEPTED,
    },
];

/// Whether a session ended as its line says.
fn is_end(end: &SessionEnd<Input, Output>, line: &Line) -> bool {
    end.result == line.result && are_streams(&end.reader, &end.writer, line, 0)
}

/// How often these sinks were told the end of a line's job, under its number.
pub fn times_told(sinks: &[KeptEnds], number: usize, line: &Line) -> usize {
    let mut times = 0usize;
    for sink in sinks {
        for told in &sink.ends {
            if told.number == number && is_end(&told.end, line) {
                times = times.saturating_add(1);
            }
        }
    }
    times
}

/// How often these sinks were told that the job of this number was refused.
pub fn times_refused(sinks: &[KeptEnds], number: usize) -> usize {
    let mut times = 0usize;
    for sink in sinks {
        for refused in &sink.refused {
            if *refused == number {
                times = times.saturating_add(1);
            }
        }
    }
    times
}

/// Whether each line's job was told or refused, once, as there was room or wasn't.
fn are_told(sinks: &[KeptEnds], lines: &[Line], has_room: bool) -> bool {
    let (told, refused) = if has_room { (1, 0) } else { (0, 1) };
    for (number, line) in lines.iter().enumerate() {
        if times_told(sinks, number, line) != told || times_refused(sinks, number) != refused {
            return false;
        }
    }
    true
}

/// Whether what a run left is as it says.
pub fn is_served(served: &TestServed, run: &Run, has_room: bool) -> bool {
    let jobs = run.lines.len() as u64;
    run.totals == Ok(served.totals)
        && served.accepted == jobs
        && served.refused == if has_room { 0 } else { jobs }
        && are_told(served.sinks.as_slice(), run.lines, has_room)
        && none_rests(served)
}

/// Whether the live counts of workers that are paused or joined are these totals.
fn are_live(live: &[LiveCounts], totals: Totals) -> bool {
    let mut sum = Totals::zeros();
    for counts in live {
        if !sum.add(&counts.totals().now()) {
            return false;
        }
    }
    !live.is_empty() && sum == totals
}

/// Whether no session of a run rests.
fn none_rests(served: &TestServed) -> bool {
    for resting in &served.resting {
        if !resting.is_empty() {
            return false;
        }
    }
    true
}

/// Whether the vnodes accepted what was counted, and what they are to, of histories of which these passes have seen beginnings.
pub fn has_tallies<X: Wait>(
    rt: &X,
    alloc: Global,
    shared: &Shared,
    seen: &Passes,
    totals: Totals,
    run: &Run,
) -> bool
    requires { ArePassesOf shared.now seen.now }
{
    match tallies_of(rt, alloc, shared, slice::from_ref(seen)) {
        Ok(found) => are_tallies(found.tallies.as_slice(), totals, run) && found.count_all,
        Err(_) => false,
    }
}

/// Whether a run over these gates by these setups comes to what it says, also where it fails.
fn serve_by_setups<X: Threads + Wait + Sync>(
    rt: &X,
    shared: &Shared,
    wires: Wires<'_>,
    run: &Run,
    serving_setups: Vec<TestServingSetup>,
    seen: &mut Passes,
    has_room: bool,
) -> bool
    requires seen { ArePassesOf shared.now seen.old }
    requires count { (1 ≤ length serving_setups.items) × (length serving_setups.items ≤ 64) }
    requires new { Every (IsNewServingSetup (λ sink. sink.ends.items)
        (λ sink n. vec_len sink.ends + n ≤ vec_capacity sink.ends)) serving_setups.items }
{
    let Ok(live) = live_of(wires.alloc, serving_setups.as_slice()) else {
        return false;
    };
    match play_new(rt, shared, wires, run, serving_setups, seen) {
        Ok(served) => {
            is_served(&served, run, has_room)
                && are_live(live.as_slice(), served.totals)
                && has_tallies(rt, wires.alloc, shared, seen, served.totals, run)
        }
        Err(fault) => run.totals == Err(fault),
    }
}

/// The same by two new setups.
fn serve_by_two<X: Threads + Wait + Sync>(
    rt: &X,
    shared: &Shared,
    wires: Wires<'_>,
    run: &Run,
    seen: &mut Passes,
    has_room: bool,
) -> bool
    requires { ArePassesOf shared.now seen.old }
{
    let rooms = if has_room { u32::MAX } else { 0 };
    match new_serving_setups(wires.alloc, true, rooms, wires.counts) {
        Ok(serving_setups) => serve_by_setups(
            rt,
            shared,
            wires,
            run,
            serving_setups,
            seen,
            has_room,
        ),
        Err(_) => false,
    }
}

/// The same by new passes.
fn serve_by_passes<X: Threads + Wait + Sync>(
    rt: &X,
    shared: &Shared,
    wires: Wires<'_>,
    run: &Run,
    has_room: bool,
) -> bool {
    match Passes::new(wires.alloc, shared) {
        Ok(mut seen) => serve_by_two(rt, shared, wires, run, &mut seen, has_room),
        Err(_) => false,
    }
}

/// The same, and that each of its jobs was told or refused.
fn serve_over<X: Threads + Wait + Sync>(
    rt: &X,
    alloc: Global,
    shared: &Shared,
    run: &Run,
    has_room: bool,
) -> bool {
    let Ok(counts) = Arc::new(alloc, Counts::new()) else {
        return false;
    };
    let wires = Wires {
        alloc,
        counts: &counts,
        most: usize::MAX,
    };
    let jobs = run.lines.len() as u64;
    let told = if has_room { (jobs, 0) } else { (0, jobs) };
    serve_by_passes(rt, shared, wires, run, has_room) && counts.are_told(told)
}

/// The same over new gates, and that their vnodes accepted what they were to.
fn serve_anew<X: Threads + Wait + Sync>(rt: &X, alloc: Global, run: &Run, has_room: bool) -> bool {
    match new_shared(alloc, run.partitions, run.budget) {
        Some(shared) => {
            serve_over(rt, alloc, &shared, run, has_room) && is_accepted(rt, alloc, &shared, run)
        }
        None => false,
    }
}

#[test]
fn each_end_is_told(rt: HostRuntime) {
    for run in RUNS {
        assert!(rt; serve_anew(&rt, rt.alloc(), run, true), "{}", run.shows);
    }
}

#[test]
fn jobs_without_room_are_refused(rt: HostRuntime) {
    for run in REFUSED {
        assert!(rt; serve_anew(&rt, rt.alloc(), run, false), "{}", run.shows);
    }
}

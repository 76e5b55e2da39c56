//! A run of forty workers, each of which serves one of forty sessions.
ghost use Rattle.std.specs.Prelude.{◌+◌, ◌≤◌, length, vec_len, vec_capacity};
ghost use Rattle.job_pool.specs.Lists.{Every};
ghost use Rattle.gate_node.specs.Passes.{ArePassesOf};
ghost use Rattle.worker_pool.specs.EndReporters.{IsNewServingSetup};

use crate::exchanges::{NOTHING_ACCEPTED, NOTHING_COUNTED, new_shared};
use crate::workers::runs::{GET_ABSENT, Run};
use crate::workers::script::Wires;
use crate::workers::served::is_served;
use crate::workers::serving_setups::{TestServingSetup, serving_setups_apart};
use crate::workers::sessions::{TestServed, play_new};
use crate::workers::streams::Counts;
use stats_book::Totals;
use std::alloc::Global;
use std::process::Abort;
use std::sync::{Arc, Wait};
use std::test::*;
use std::thread::Threads;
use worker_pool::{Passes, Shared};

/// How many workers there are.
const WORKERS: u16 = 40;

/// A session for each.
const FORTY: &Run = &Run {
    shows: "each of forty workers serves one of forty sessions",
    partitions: 1,
    budget: 0,
    lines: &[GET_ABSENT; 40],
    fails: false,
    totals: Ok(Totals {
        gets: 40,
        ..NOTHING_COUNTED
    }),
    accepted: NOTHING_ACCEPTED,
};

/// Whether each worker's sink was told one end.
fn has_each_one(served: &TestServed) -> bool {
    for sink in &served.sinks {
        if sink.ends.len() != 1 {
            return false;
        }
    }
    served.sinks.len() == usize::from(WORKERS)
}

/// Whether each worker of these setups serves one session over these gates as it should be.
fn serve_by_setups<X: Threads + Wait + Sync>(
    rt: &X,
    shared: &Shared,
    wires: Wires<'_>,
    serving_setups: Vec<TestServingSetup>,
    seen: &mut Passes,
) -> bool
    requires seen { ArePassesOf shared.now seen.old }
    requires count { (1 ≤ length serving_setups.items) × (length serving_setups.items ≤ 64) }
    requires new { Every (IsNewServingSetup (λ sink. sink.ends.items)
        (λ sink n. vec_len sink.ends + n ≤ vec_capacity sink.ends)) serving_setups.items }
{
    match play_new(rt, shared, wires, FORTY, serving_setups, seen) {
        Ok(served) => is_served(&served, FORTY, true) && has_each_one(&served),
        Err(_) => false,
    }
}

/// The same by forty new setups.
fn serve_forty<X: Threads + Wait + Sync>(
    rt: &X,
    shared: &Shared,
    wires: Wires<'_>,
    seen: &mut Passes,
) -> bool
    requires { ArePassesOf shared.now seen.old }
{
    match serving_setups_apart(wires.alloc, WORKERS, wires.counts) {
        Ok(serving_setups) => serve_by_setups(rt, shared, wires, serving_setups, seen),
        Err(_) => false,
    }
}

/// The same by new passes.
fn serve_by_passes<X: Threads + Wait + Sync>(rt: &X, alloc: Global, shared: &Shared) -> bool {
    let Ok(counts) = Arc::new(alloc, Counts::new()) else {
        return false;
    };
    let wires = Wires {
        alloc,
        counts: &counts,
        most: usize::MAX,
    };
    match Passes::new(alloc, shared) {
        Ok(mut seen) => serve_forty(rt, shared, wires, &mut seen),
        Err(_) => false,
    }
}

/// The same over new gates.
fn serve_anew<X: Threads + Wait + Sync>(rt: &X, alloc: Global) -> bool {
    match new_shared(alloc, FORTY.partitions, FORTY.budget) {
        Some(shared) => serve_by_passes(rt, alloc, &shared),
        None => false,
    }
}

#[test]
fn each_of_forty_workers_serves(rt: HostRuntime) {
    assert!(rt; serve_anew(&rt, rt.alloc()), "{}", FORTY.shows);
}

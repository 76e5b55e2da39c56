//! Two gets of one key are inside at once: inside its primary, and inside the fallback of its partition.
use crate::diversions::divert;
use crate::exchanges::{NOTHING_ACCEPTED, NOTHING_COUNTED, new_shared};
use crate::workers::runs::{GET_ABSENT, Run, play_over};
use crate::workers::streams::Counts;
use stats_book::Totals;
use std::alloc::Global;
use std::process::Abort;
use std::sync::atomic::{AtomicU64, Ordering};
use std::sync::{Arc, Wait};
use std::test::*;
use std::thread;
use std::thread::Threads;
use worker_pool::{Shared, Turnstile};

/// How many turns the first call waits at most.
const TURNS: u32 = 10_000_000;

/// Holds the first call until a reply was written, and then says so.
#[derive(Drop)]
struct Holding<'a> {
    counts: &'a Counts,
    met: &'a AtomicU64,
}

impl Turnstile for Holding<'_> {
    fn inside(&self, call: u64) {
        if call != 1 {
            return;
        }
        for _ in 0..TURNS {
            if self.counts.writes.load(Ordering::SeqCst) > 0 {
                self.met.store(1, Ordering::SeqCst);
                return;
            }
            thread::yield_now();
        }
    }
}

const TWO_GETS: Run = Run {
    shows: "two gets of one key are inside at once",
    partitions: 1,
    budget: 0,
    lines: &[GET_ABSENT, GET_ABSENT],
    fails: false,
    totals: Ok(Totals {
        gets: 2,
        ..NOTHING_COUNTED
    }),
    accepted: NOTHING_ACCEPTED,
};

/// Whether the second get over these gates was answered while the first was inside.
fn meet<X: Threads + Wait + Sync>(rt: &X, alloc: Global, shared: &Shared) -> bool {
    let Ok(counts) = Arc::new(alloc, Counts::new()) else {
        return false;
    };
    let met = AtomicU64::new(0);
    let turnstile = Holding {
        counts: &counts,
        met: &met,
    };
    let is_well = play_over(rt, alloc, shared, &counts, &turnstile, &TWO_GETS);
    is_well && met.load(Ordering::SeqCst) == 1
}

/// The same over new gates, whose partition is diverted or not.
fn meet_anew<X: Threads + Wait + Sync>(rt: &X, alloc: Global, is_diverted: bool) -> bool {
    let Some(shared) = new_shared(alloc, 1, 0) else {
        return false;
    };
    if !is_diverted {
        return meet(rt, alloc, &shared);
    }
    match divert(alloc, shared, 0, 0) {
        Some(shared) => meet(rt, alloc, &shared),
        None => false,
    }
}

#[test]
fn two_readers_inside(rt: HostRuntime) {
    assert!(rt; meet_anew(&rt, rt.alloc(), false));
}

#[test]
fn two_readers_inside_a_fallback(rt: HostRuntime) {
    assert!(rt; meet_anew(&rt, rt.alloc(), true));
}

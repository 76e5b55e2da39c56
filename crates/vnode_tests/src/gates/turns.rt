//! One caller that waits for a gate beside two that come and go all the time: it has its right, whichever rights these are.
use rw_gate::Gate;
use rw_gate::counter::GatedCounter;
use std::alloc::Global;
use std::process::Abort;
use std::sync::Wait;
use std::sync::atomic::{AtomicU64, Ordering};
use std::test::*;
use std::thread;
use std::thread::{Threads, map_indices};

/// How many rights each of those that come and go has at most.
const TURNS: u32 = 10_000_000;

/// A caller that waits once, and two that come and go.
struct Crowd {
    shows: &'static str,
    is_writer: bool,
    are_writers: bool,
}

const CROWDS: &[Crowd] = &[
    Crowd {
        shows: "a writer is served among readers",
        is_writer: true,
        are_writers: false,
    },
    Crowd {
        shows: "a reader is served among writers",
        is_writer: false,
        are_writers: true,
    },
    Crowd {
        shows: "a writer is served among writers",
        is_writer: true,
        are_writers: true,
    },
];

/// How far the threads of a crowd are.
#[derive(Drop)]
struct Progress {
    /// How many rights were had by those that come and go.
    had: AtomicU64,
    /// Whether the one was served: 1 then.
    served: AtomicU64,
}

/// Waits for a right, and gives it back.
fn come_and_go<W: Wait>(rt: &W, gate: &Gate<GatedCounter>, is_writer: bool) {
    if is_writer {
        gate.write(rt).release();
    } else {
        gate.read(rt).release();
    }
}

/// Comes and goes until the one is served. Whether it is.
fn keep_coming<W: Wait>(
    rt: &W,
    gate: &Gate<GatedCounter>,
    progress: &Progress,
    is_writer: bool,
) -> bool {
    for _ in 0..TURNS {
        come_and_go(rt, gate, is_writer);
        progress.had.fetch_add(1, Ordering::SeqCst);
        if progress.served.load(Ordering::SeqCst) > 0 {
            return true;
        }
    }
    false
}

/// Comes once, behind the first rights of the others. Whether these had begun.
fn come_once<W: Wait>(
    rt: &W,
    gate: &Gate<GatedCounter>,
    progress: &Progress,
    is_writer: bool,
) -> bool {
    let mut is_crowded = false;
    for _ in 0..TURNS {
        is_crowded = progress.had.load(Ordering::SeqCst) > 2;
        if is_crowded {
            break;
        }
        thread::yield_now();
    }
    come_and_go(rt, gate, is_writer);
    progress.served.store(1, Ordering::SeqCst);
    is_crowded
}

/// Whether the one of a crowd is served at this gate before the others have had all their turns.
fn is_served<R: Threads + Wait + Sync>(
    rt: &R,
    alloc: Global,
    gate: &Gate<GatedCounter>,
    crowd: &Crowd,
) -> bool {
    let progress = Progress {
        had: AtomicU64::new(0),
        served: AtomicU64::new(0),
    };
    let all = map_indices(
        rt,
        alloc,
        3,
        &|at| match at {
            0 => come_once(rt, gate, &progress, crowd.is_writer),
            _ => keep_coming(rt, gate, &progress, crowd.are_writers),
        },
    );
    match all {
        Ok(all) => all.as_slice() == [true, true, true].as_slice(),
        Err(_) => false,
    }
}

/// The same at a new gate.
fn is_served_anew<R: Threads + Wait + Sync>(rt: &R, alloc: Global, crowd: &Crowd) -> bool {
    match Gate::new(alloc, GatedCounter { value: 0 }) {
        Ok(gate) => is_served(rt, alloc, &gate, crowd),
        Err(_) => false,
    }
}

#[test]
fn who_waits_in_a_crowd_is_served(rt: HostRuntime) {
    for crowd in CROWDS {
        assert!(rt; is_served_anew(&rt, rt.alloc(), crowd), "{}", crowd.shows);
    }
}

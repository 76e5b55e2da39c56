//! Sessions that are paused after each of their steps, once or twice, and come to what they come to without a pause.
ghost use Rattle.job_pool.specs.Lists.{Every};
ghost use Rattle.gate_node.specs.Passes.{ArePassesOf};
ghost use Rattle.worker_pool.specs.PausedSessions.{CanGoOn};

use crate::exchanges::{NOTHING_ACCEPTED, NOTHING_COUNTED, new_shared};
use crate::workers::resting::{Manner, PLAIN, Stage, after_looks, new_stage, run_once};
use crate::workers::runs::{ONE_KEY, Run, THREE};
use crate::workers::script::Line;
use crate::workers::served::has_tallies;
use node_session::Ended;
use stats_book::Totals;
use std::alloc::Global;
use std::process::Abort;
use std::sync::Wait;
use std::sync::atomic::Ordering;
use std::test::*;
use std::thread::Threads;
use vnode_core::Tally;
use worker_pool::{NoPause, Shared};

/// Sessions over new gates, in a run that is paused and later ones, and what they come to.
struct Row {
    shows: &'static str,
    manner: Manner,
    run: &'static Run,
    /// How often the first run asks for the pause, if it isn't paused.
    looks: u64,
    /// How many sessions are refused in all.
    refused: u64,
}

/// One of eight sessions: a put of "v" on a key of its own, a get of b/z, and a delete of its key: stored, nothing, deleted.
const ONE_OF_EIGHT: Line = Line {
    input: b"",
    fails: false,
    result: Ok(Ended {
        replies: 3,
        rest: 0,
    }),
    written: b"\0\0\0\x01\x0c\0\0\0\x01\x0a\0\0\0\x01\x0e",
};

const EIGHT_LINES: &[Line] = &[
    Line {
        input: b"\0\0\0\x0c\x0b\x0a\x01b\x12\x01a\x22\x03\x0a\x01v\0\0\0\x07\x09\x0a\x01b\x12\x01z\0\0\0\x07\x0d\x0a\x01b\x12\x01a",
        ..ONE_OF_EIGHT
    },
    Line {
        input: b"\0\0\0\x0c\x0b\x0a\x01b\x12\x01c\x22\x03\x0a\x01v\0\0\0\x07\x09\x0a\x01b\x12\x01z\0\0\0\x07\x0d\x0a\x01b\x12\x01c",
        ..ONE_OF_EIGHT
    },
    Line {
        input: b"\0\0\0\x0c\x0b\x0a\x01b\x12\x01d\x22\x03\x0a\x01v\0\0\0\x07\x09\x0a\x01b\x12\x01z\0\0\0\x07\x0d\x0a\x01b\x12\x01d",
        ..ONE_OF_EIGHT
    },
    Line {
        input: b"\0\0\0\x0c\x0b\x0a\x01b\x12\x01e\x22\x03\x0a\x01v\0\0\0\x07\x09\x0a\x01b\x12\x01z\0\0\0\x07\x0d\x0a\x01b\x12\x01e",
        ..ONE_OF_EIGHT
    },
    Line {
        input: b"\0\0\0\x0c\x0b\x0a\x01b\x12\x01f\x22\x03\x0a\x01v\0\0\0\x07\x09\x0a\x01b\x12\x01z\0\0\0\x07\x0d\x0a\x01b\x12\x01f",
        ..ONE_OF_EIGHT
    },
    Line {
        input: b"\0\0\0\x0c\x0b\x0a\x01b\x12\x01g\x22\x03\x0a\x01v\0\0\0\x07\x09\x0a\x01b\x12\x01z\0\0\0\x07\x0d\x0a\x01b\x12\x01g",
        ..ONE_OF_EIGHT
    },
    Line {
        input: b"\0\0\0\x0c\x0b\x0a\x01b\x12\x01h\x22\x03\x0a\x01v\0\0\0\x07\x09\x0a\x01b\x12\x01z\0\0\0\x07\x0d\x0a\x01b\x12\x01h",
        ..ONE_OF_EIGHT
    },
    Line {
        input: b"\0\0\0\x0c\x0b\x0a\x01b\x12\x01i\x22\x03\x0a\x01v\0\0\0\x07\x09\x0a\x01b\x12\x01z\0\0\0\x07\x0d\x0a\x01b\x12\x01i",
        ..ONE_OF_EIGHT
    },
];

const EIGHT: Run = Run {
    shows: "eight sessions, each over a key of its own",
    partitions: 2,
    budget: 0,
    lines: EIGHT_LINES,
    fails: false,
    totals: Ok(Totals {
        gets: 8,
        puts: 8,
        deletes: 8,
        ..NOTHING_COUNTED
    }),
    accepted: Tally {
        writes: 8,
        tombstones: 8,
        ..NOTHING_ACCEPTED
    },
};

/// What the first five of them come to, where the others are refused.
const FIVE_OF_EIGHT: Run = Run {
    totals: Ok(Totals {
        gets: 5,
        puts: 5,
        deletes: 5,
        ..NOTHING_COUNTED
    }),
    accepted: Tally {
        writes: 5,
        tombstones: 5,
        ..NOTHING_ACCEPTED
    },
    ..EIGHT
};

/// A read of all takes 3 steps, a request and its reply 2, the end of what there is to read 3, and then it is found that a session is over.
const ROWS: &[Row] = &[
    Row {
        shows: "a key lives twice in one session",
        manner: PLAIN,
        run: &ONE_KEY,
        looks: 17,
        refused: 0,
    },
    Row {
        shows: "requests are read and replies are written in pieces of five bytes",
        manner: Manner { most: 5, ..PLAIN },
        run: &ONE_KEY,
        looks: 65,
        refused: 0,
    },
    Row {
        shows: "one session is whole, one is cut, and of one the writer fails",
        manner: PLAIN,
        run: &THREE,
        looks: 28,
        refused: 0,
    },
    Row {
        shows: "they are served by two workers",
        manner: Manner {
            are_two: true,
            ..PLAIN
        },
        run: &THREE,
        looks: 28,
        refused: 0,
    },
    Row {
        shows: "a session more begins in each run, behind those that rest",
        manner: Manner { begins: 1, ..PLAIN },
        run: &THREE,
        looks: 13,
        refused: 0,
    },
    Row {
        shows: "eight sessions are served by two workers, each one told or resting once",
        manner: Manner {
            are_two: true,
            ..PLAIN
        },
        run: &EIGHT,
        looks: 104,
        refused: 0,
    },
    Row {
        shows: "three of eight sessions are refused for want of memory in the run that is paused",
        manner: Manner {
            rooms: (5, u32::MAX),
            ..PLAIN
        },
        run: &FIVE_OF_EIGHT,
        looks: 65,
        refused: 3,
    },
];

/// Five of eight sessions that rest have room when they are to go on.
const LATER_REFUSED: Row = Row {
    shows: "three of eight sessions that rest are refused when they are to go on",
    manner: Manner {
        rooms: (u32::MAX, 5),
        ..PLAIN
    },
    run: &FIVE_OF_EIGHT,
    looks: 104,
    refused: 3,
};

/// Makes a run of a row that is paused after so many looks: whether it was. None where the run doesn't come to what it should.
fn pause_once<X: Threads + Wait + Sync>(
    rt: &X,
    alloc: Global,
    shared: &Shared,
    row: &Row,
    stage: &mut Stage,
    looks: u64,
) -> Option<bool>
    requires rest { Every (CanGoOn shared.now) stage.old.resting.items }
    requires seen { ArePassesOf shared.now stage.old.seen }
    ensures rest { Every (CanGoOn shared.now) stage.new.resting.items }
    ensures seen { ArePassesOf shared.now stage.new.seen }
{
    let pause = after_looks(looks);
    if run_once(rt, alloc, shared, row.manner, row.run.lines, stage, &pause) {
        Some(pause.looks.load(Ordering::SeqCst) > looks)
    } else {
        None
    }
}

/// Whether the sessions of a row are all over, and counted as it says.
fn is_done<X: Wait>(rt: &X, alloc: Global, shared: &Shared, row: &Row, stage: &Stage) -> bool
    requires { ArePassesOf shared.now stage.now.seen }
{
    stage.resting.is_empty()
        && stage.sums.begun == row.run.lines.len()
        && stage.sums.refused == row.refused
        && row.run.totals == Ok(stage.sums.totals)
        && has_tallies(rt, alloc, shared, &stage.seen, stage.sums.totals, row.run)
}

/// Whether what rests, and what didn't begin yet, comes to what the row says in a run that isn't paused.
fn goes_on<X: Threads + Wait + Sync>(
    rt: &X,
    alloc: Global,
    shared: &Shared,
    row: &Row,
    stage: &mut Stage,
) -> bool
    requires rest { Every (CanGoOn shared.now) stage.old.resting.items }
    requires seen { ArePassesOf shared.now stage.old.seen }
{
    let manner = Manner {
        begins: usize::MAX,
        ..row.manner
    };
    run_once(rt, alloc, shared, manner, row.run.lines, stage, &NoPause)
        && is_done(rt, alloc, shared, row, stage)
}

/// The same, where it is paused a second time after so many looks, if it is.
fn goes_on_by<X: Threads + Wait + Sync>(
    rt: &X,
    alloc: Global,
    shared: &Shared,
    row: &Row,
    stage: &mut Stage,
    second: Option<u64>,
) -> bool
    requires rest { Every (CanGoOn shared.now) stage.old.resting.items }
    requires seen { ArePassesOf shared.now stage.old.seen }
{
    match second {
        Some(looks) => {
            pause_once(rt, alloc, shared, row, stage, looks).is_some()
                && goes_on(rt, alloc, shared, row, stage)
        }
        None => goes_on(rt, alloc, shared, row, stage),
    }
}

/// Whether a row, in runs over these new gates of which the first is paused after so many looks, and the second too, if it is, comes to what it says.
fn is_paused_over<X: Threads + Wait + Sync>(
    rt: &X,
    alloc: Global,
    shared: &Shared,
    row: &Row,
    first: u64,
    second: Option<u64>,
) -> bool {
    match new_stage(alloc, shared) {
        Some(mut stage) => {
            pause_once(rt, alloc, shared, row, &mut stage, first) == Some(first < row.looks)
                && goes_on_by(rt, alloc, shared, row, &mut stage, second)
        }
        None => false,
    }
}

/// The same over gates of its own.
fn is_paused<X: Threads + Wait + Sync>(
    rt: &X,
    alloc: Global,
    row: &Row,
    first: u64,
    second: Option<u64>,
) -> bool {
    match new_shared(alloc, row.run.partitions, row.run.budget) {
        Some(shared) => is_paused_over(rt, alloc, &shared, row, first, second),
        None => false,
    }
}

#[test]
fn sessions_rest_after_each_step(rt: HostRuntime) {
    for row in ROWS {
        for looks in 0..row.looks.saturating_add(1) {
            assert!(rt;
                is_paused(&rt, rt.alloc(), row, looks, None),
                "{}: {looks}",
                row.shows
            );
        }
    }
}

#[test]
fn sessions_rest_twice(rt: HostRuntime) {
    let row = &ROWS[0];
    for first in 0..18u64 {
        for second in 0..18u64 {
            let is_so = is_paused(&rt, rt.alloc(), row, first, Some(second));
            assert!(rt; is_so, "{}: {first}, {second}", row.shows);
        }
    }
}

#[test]
fn sessions_that_rest_may_be_refused(rt: HostRuntime) {
    let row = &LATER_REFUSED;
    assert!(rt; is_paused(&rt, rt.alloc(), row, 0, None), "{}", row.shows);
}

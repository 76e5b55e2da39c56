//! Runs of two workers: a key's two lives; three jobs, of which one is cut and one has a writer that fails; a hundred jobs; and a source
//! that fails behind three.
use crate::exchanges::{
    GET, LIVED_TWICE, NOTHING, NOTHING_ACCEPTED, NOTHING_COUNTED, TWO_LIVES, accepted_of,
    new_shared,
};
use crate::workers::script::{Line, Script, play};
use crate::workers::streams::{Counts, Input, Output};
use node_session::{Ended, SessionFault};
use stats_book::Totals;
use std::alloc::Global;
use std::process::Abort;
use std::sync::atomic::Ordering;
use std::sync::{Arc, Wait};
use std::test::*;
use std::thread::Threads;
use vnode_core::Tally;
use worker_pool::{Closed, End, Open, PoolFault, Shared, Turnstile};

/// Jobs over new gates, and what they come to.
pub struct Run {
    pub shows: &'static str,
    pub partitions: u16,
    /// How many dead keys a vnode forgets after an answer.
    pub budget: u32,
    pub lines: &'static [Line],
    /// Whether the source fails behind its jobs.
    pub fails: bool,
    /// What is counted, or why the run fails.
    pub totals: Result<Totals, PoolFault>,
    /// What all vnodes together accept, also where the run fails: its jobs were served.
    pub accepted: Tally,
}

/// One that is whole, one that is cut, and one whose writer fails.
pub const THREE_JOBS: &[Line] = &[
    // A put of "v" on b/k, a delete without context, and a get: stored, deleted, and nothing.
    Line {
        input: b"\0\0\0\x0c\x0b\x0a\x01b\x12\x01k\x22\x03\x0a\x01v\0\0\0\x07\x0d\x0a\x01b\x12\x01k\0\0\0\x07\x09\x0a\x01b\x12\x01k",
        fails: false,
        result: Ok(Ended {
            replies: 3,
            rest: 0,
        }),
        written: b"\0\0\0\x01\x0c\0\0\0\x01\x0e\0\0\0\x01\x0a",
    },
    // A put of "u" on b/j, and the first six bytes of a get: stored.
    Line {
        input: b"\0\0\0\x0c\x0b\x0a\x01b\x12\x01j\x22\x03\x0a\x01u\0\0\0\x07\x09\x0a",
        fails: false,
        result: Ok(Ended {
            replies: 1,
            rest: 6,
        }),
        written: b"\0\0\0\x01\x0c",
    },
    // A put of "w" on b/m.
    Line {
        input: b"\0\0\0\x0c\x0b\x0a\x01b\x12\x01m\x22\x03\x0a\x01w",
        fails: true,
        result: Err(SessionFault::WriteFailed(0)),
        written: b"",
    },
];

/// A put, a get, a delete, and a put and a get of a second life.
pub const ONE_KEY: Run = Run {
    shows: "a key lives twice",
    partitions: 1,
    budget: 1,
    lines: &[Line {
        input: TWO_LIVES,
        fails: false,
        result: Ok(Ended {
            replies: 5,
            rest: 0,
        }),
        written: LIVED_TWICE,
    }],
    fails: false,
    totals: Ok(Totals {
        gets: 2,
        puts: 2,
        deletes: 1,
        refusals: 0,
        reaps: 1,
    }),
    accepted: Tally {
        writes: 2,
        tombstones: 1,
        reaps: 1,
    },
};

/// The three jobs.
pub const THREE: Run = Run {
    shows: "three jobs end in their order, one cut and one without a writer",
    partitions: 2,
    budget: 1,
    lines: THREE_JOBS,
    fails: false,
    totals: Ok(Totals {
        gets: 1,
        puts: 3,
        deletes: 1,
        refusals: 0,
        reaps: 1,
    }),
    accepted: THREE_ACCEPTED,
};

/// A get of b/k, where it is absent.
pub const GET_ABSENT: Line = Line {
    input: GET,
    fails: false,
    result: Ok(Ended {
        replies: 1,
        rest: 0,
    }),
    written: NOTHING,
};

pub const RUNS: &[Run] = &[
    ONE_KEY,
    THREE,
    Run {
        shows: "a hundred jobs end, of which each has seen a beginning of one history",
        partitions: 1,
        budget: 0,
        lines: &[GET_ABSENT; 100],
        fails: false,
        totals: Ok(Totals {
            gets: 100,
            ..NOTHING_COUNTED
        }),
        accepted: NOTHING_ACCEPTED,
    },
    Run {
        shows: "a source that fails behind its jobs fails the run, and the jobs were served",
        partitions: 2,
        budget: 1,
        lines: THREE_JOBS,
        fails: true,
        totals: Err(PoolFault::JobsFailed),
        accepted: THREE_ACCEPTED,
    },
];

/// What the vnodes accept of the three jobs.
const THREE_ACCEPTED: Tally = Tally {
    writes: 3,
    tombstones: 1,
    reaps: 1,
};

/// Whether streams are those of a session over this line, and were ended so often.
pub fn are_streams(reader: &Input, writer: &Output, line: &Line, times: u32) -> bool {
    writer.held.as_slice() == line.written && reader.ended == times && writer.ended == times
}

/// Whether a session ended as its line says.
fn is_end(end: &End<Input, Output>, line: &Line) -> bool {
    end.result == line.result && are_streams(&end.reader, &end.writer, line, 1)
}

/// Whether these are the ends of the lines' jobs, in their order.
fn are_ends(ends: &[End<Input, Output>], lines: &[Line]) -> bool {
    let mut count = 0usize;
    for end in ends {
        match lines.get(count) {
            Some(line) if is_end(end, line) => count = count.saturating_add(1),
            _ => return false,
        }
    }
    count == lines.len()
}

/// The events of all vnodes together.
fn sum_of(tallies: &[Tally]) -> Tally {
    let mut sum = NOTHING_ACCEPTED;
    for tally in tallies {
        sum = Tally {
            writes: sum.writes.saturating_add(tally.writes),
            tombstones: sum.tombstones.saturating_add(tally.tombstones),
            reaps: sum.reaps.saturating_add(tally.reaps),
        };
    }
    sum
}

/// Whether the vnodes, so many, accepted what was counted, and what they are to accept.
pub fn are_tallies(tallies: &[Tally], totals: Totals, run: &Run) -> bool {
    let counted = accepted_of(totals);
    tallies.len() == usize::from(run.partitions)
        && sum_of(tallies) == counted
        && counted == run.accepted
}

/// Whether what a run left is as it says.
fn is_closed(closed: &Closed<Input, Output>, run: &Run) -> bool {
    run.totals == Ok(closed.totals)
        && are_ends(closed.ends.as_slice(), run.lines)
        && are_tallies(closed.tallies.as_slice(), closed.totals, run)
        && closed.count_all
}

/// Whether a run over these gates, through a turnstile, comes to what it says. The replies are counted as they are written.
pub fn play_over<X: Threads + Wait + Sync, T: Turnstile + Sync>(
    rt: &X,
    alloc: Global,
    shared: &Shared,
    counts: &Arc<Counts, Global>,
    turnstile: &T,
    run: &Run,
) -> bool {
    let script = Script {
        alloc,
        shared,
        counts,
        lines: run.lines,
        fails: run.fails,
    };
    let is_so = match play(rt, script, turnstile) {
        Ok(closed) => is_closed(&closed, run),
        Err(fault) => run.totals == Err(fault),
    };
    is_so && counts.well_ended.load(Ordering::SeqCst) == run.lines.len() as u64
}

/// Whether a run without jobs over these gates finds that the vnodes accepted what a run before was to.
pub fn is_accepted<X: Threads + Wait + Sync>(
    rt: &X,
    alloc: Global,
    shared: &Shared,
    run: &Run,
) -> bool {
    let Ok(counts) = Arc::new(alloc, Counts::new()) else {
        return false;
    };
    let script = Script {
        alloc,
        shared,
        counts: &counts,
        lines: &[],
        fails: false,
    };
    match play(rt, script, &Open) {
        Ok(closed) => closed.ends.is_empty() && sum_of(closed.tallies.as_slice()) == run.accepted,
        Err(_) => false,
    }
}

/// The same over new gates, and that their vnodes accepted what they were to.
fn play_anew<X: Threads + Wait + Sync>(rt: &X, alloc: Global, run: &Run) -> bool {
    let Ok(counts) = Arc::new(alloc, Counts::new()) else {
        return false;
    };
    match new_shared(alloc, run.partitions, run.budget) {
        Some(shared) => {
            play_over(rt, alloc, &shared, &counts, &Open, run)
                && is_accepted(rt, alloc, &shared, run)
        }
        None => false,
    }
}

#[test]
fn jobs_are_served_by_two_workers(rt: HostRuntime) {
    for run in RUNS {
        assert!(rt; play_anew(&rt, rt.alloc(), run), "{}", run.shows);
    }
}

//! A counter behind a gate: adds by several callers, the mark that keeps readers out, and four threads.
use crate::gates::attempts::Attempt::{Mark, Read, Unmark, Write};
use crate::gates::steps::Act::{Ask, Beside, Look};
use crate::gates::steps::Who::{Ann, Bob};
use crate::gates::steps::{Outcome, Request, Step, Turn, View, plays};
use crate::gates::threads::{Work, cross_threads, is_end, makes_rounds, name_of};
use rw_gate::Gate;
use rw_gate::counter::{GatedCounter, TooMuch};
use std::alloc::Global;
use std::process::Abort;
use std::sync::Wait;
use std::test::*;
use std::thread::{Threads, map_indices};

/// An add, and the sum where it is known.
pub(crate) struct Add {
    by: u64,
    sum: Option<u64>,
}

/// What a look shows.
pub(crate) enum Shown {
    /// This number.
    Sum(u64),
    /// At least as many as the thread has made rounds.
    Rounds,
}

impl Request<GatedCounter, u64, u64, TooMuch> for Add {
    fn ask(&self, _alloc: Global, _turn: Turn) -> Option<u64> {
        Some(self.by)
    }

    fn is_reply(&self, sum: u64, _is_event: bool) -> bool {
        match self.sum {
            Some(expected) => sum == expected,
            None => true,
        }
    }

    fn refused(&self, _refusal: TooMuch) -> Outcome {
        Outcome::Wrong
    }
}

impl View<GatedCounter> for Shown {
    fn is_of(&self, counter: &GatedCounter, _alloc: Global, turn: Turn) -> bool {
        match self {
            Shown::Sum(sum) => counter.value == *sum,
            Shown::Rounds => u64::from(turn.round) <= counter.value,
        }
    }
}

/// Steps at a counter.
struct Row {
    shows: &'static str,
    from: u64,
    steps: &'static [Step<Add, Shown>],
}

const ROWS: &[Row] = &[
    Row {
        shows: "a writer is alone, and what it publishes is shown to it and, once it is out, to a reader",
        from: 0,
        steps: &[
            Step::Write(
                Ann,
                &[
                    Beside(Read, false),
                    Beside(Write, false),
                    Beside(Mark, false),
                    Beside(Unmark, false),
                    Look(Shown::Sum(0)),
                    Ask(Add {
                        by: 5,
                        sum: Some(5),
                    }),
                ],
            ),
            Step::Seen(Ann, 1),
            Step::LookAnew(Shown::Sum(5), 1),
        ],
    },
    Row {
        shows: "a mark is set once and keeps a reader out; given up, it lets readers in",
        from: 7,
        steps: &[
            Step::Try(Mark, true),
            Step::Try(Mark, false),
            Step::Try(Read, false),
            Step::Try(Unmark, true),
            Step::Try(Unmark, false),
            Step::LookAnew(Shown::Sum(7), 0),
        ],
    },
    // the reader that is in stays, and the writer waits for it alone
    Row {
        shows: "a mark beside a reader keeps others out, and what a writer puts back is unmarked",
        from: 7,
        steps: &[
            Step::BesideReader(&[(Read, true), (Mark, true), (Write, false), (Read, false)]),
            Step::Try(Read, false),
            Step::Try(Write, true),
            Step::Try(Read, true),
        ],
    },
    Row {
        shows: "a pass that another's publish has overtaken has seen no more until it looks",
        from: 0,
        steps: &[
            Step::Look(Shown::Sum(0)),
            Step::Write(
                Bob,
                &[Ask(Add {
                    by: 5,
                    sum: Some(5),
                })],
            ),
            Step::Seen(Ann, 0),
            Step::Look(Shown::Sum(5)),
            Step::Seen(Ann, 1),
        ],
    },
    Row {
        shows: "a pass that is overtaken may publish without a look, and has then seen the other's event too",
        from: 0,
        steps: &[
            Step::Write(
                Bob,
                &[Ask(Add {
                    by: 5,
                    sum: Some(5),
                })],
            ),
            Step::Write(
                Ann,
                &[Ask(Add {
                    by: 2,
                    sum: Some(7),
                })],
            ),
            Step::Seen(Ann, 2),
            Step::Seen(Bob, 1),
        ],
    },
];

#[test]
fn a_counter_behind_a_gate(rt: HostRuntime) {
    for row in ROWS {
        let counter = GatedCounter { value: row.from };
        assert!(rt; plays(rt.alloc(), counter, row.steps), "{}", row.shows);
    }
}

const HUNDRED_ADDS: &Work<Add, Shown> = &Work {
    rounds: 100,
    writes: &[&[Look(Shown::Rounds), Ask(Add { by: 1, sum: None })]],
    end: Shown::Sum(400),
    events: 400,
};

/// Whether four threads did their work, and it is shown in the end what the work says.
fn four_work<R: Threads + Wait + Sync>(rt: &R, alloc: Global, gate: &Gate<GatedCounter>) -> bool {
    match map_indices(
        rt,
        alloc,
        4,
        &|at| { makes_rounds(rt, alloc, gate, HUNDRED_ADDS, name_of(at)) },
    ) {
        Ok(all) => all.as_slice() == [true, true, true, true].as_slice(),
        Err(_) => false,
    }
}

fn is_worked<R: Threads + Wait + Sync>(rt: &R, alloc: Global) -> bool {
    match Gate::new(alloc, GatedCounter { value: 0 }) {
        Ok(gate) => {
            cross_threads(&gate, &gate.pass());
            four_work(rt, alloc, &gate) && is_end(rt, alloc, &gate, HUNDRED_ADDS)
        }
        Err(_) => false,
    }
}

#[test]
fn four_threads_add_four_hundred(rt: HostRuntime) {
    let is_so = is_worked(&rt, rt.alloc());
    assert!(rt; is_so);
}

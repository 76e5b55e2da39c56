//! The lines of a text, those that are steps and those that are none.

use riak_msgs::{Key, Request};
use schedule_text::*;
use std::alloc::Global;
use std::process::Abort;

/// Reads, and a second time where memory was refused: then the answer is the same as it would have been.
pub(super) fn read_again(alloc: Global, text: &[u8]) -> Result<Line, LineFault> {
    match read_line(alloc, text, 3) {
        Err(LineFault::NoMemory) => read_line(alloc, text, 3),
        other => other,
    }
}

/// Lets a line go, in this one function: to let one go costs the prover seconds.
pub(super) fn let_go(_read: Result<Line, LineFault>) {}

/// What a line asks its worker for.
enum Asks {
    /// A step at the gate.
    Gate(GateStep),
    /// A get of b/k.
    Get,
    /// A put of "v" under b/k.
    Put,
    /// To do this with b/k.
    Key(KeyStep),
    /// No worker: a partition is diverted.
    Divert,
    /// To close the fallback of the partition of this index.
    Close(u16),
}

use Asks::{Close, Divert, Gate, Get, Put};

/// A line that is a step of one of three workers, or of a partition.
struct StepLine {
    shows: &'static str,
    line: &'static str,
    /// The worker's number, or the partition's index.
    number: u16,
    asks: Asks,
}

const STEP_LINES: &[StepLine] = &[
    StepLine {
        shows: "a worker enters",
        line: "enter 1",
        number: 1,
        asks: Gate(GateStep::Enter),
    },
    StepLine {
        shows: "a worker leaves",
        line: "leave 2",
        number: 2,
        asks: Gate(GateStep::Leave),
    },
    StepLine {
        shows: "a worker marks",
        line: "mark 3",
        number: 3,
        asks: Gate(GateStep::Mark),
    },
    StepLine {
        shows: "a worker takes its mark away",
        line: "unmark 1",
        number: 1,
        asks: Gate(GateStep::Unmark),
    },
    StepLine {
        shows: "a worker takes the state",
        line: "take 2",
        number: 2,
        asks: Gate(GateStep::Take),
    },
    StepLine {
        shows: "a worker puts the state back",
        line: "put 3",
        number: 3,
        asks: Gate(GateStep::Put),
    },
    StepLine {
        shows: "a worker looks",
        line: "look 1",
        number: 1,
        asks: Gate(GateStep::Look),
    },
    StepLine {
        shows: "a worker publishes",
        line: "publish 2",
        number: 2,
        asks: Gate(GateStep::Publish),
    },
    StepLine {
        shows: "a worker is asked to get",
        line: "ask 1 090a016212016b",
        number: 1,
        asks: Get,
    },
    StepLine {
        shows: "a worker is asked to put",
        line: "ask 2 0b0a016212016b22030a0176",
        number: 2,
        asks: Put,
    },
    StepLine {
        shows: "a worker is asked to forget a key",
        line: "reap 3 090a016212016b",
        number: 3,
        asks: Asks::Key(KeyStep::Reap),
    },
    StepLine {
        shows: "a worker is asked to copy a key back",
        line: "copy 1 090a016212016b",
        number: 1,
        asks: Asks::Key(KeyStep::Copy),
    },
    StepLine {
        shows: "a partition is diverted",
        line: "divert 0",
        number: 0,
        asks: Divert,
    },
    StepLine {
        shows: "the greatest index has 16 bits",
        line: "divert 65535",
        number: 65_535,
        asks: Divert,
    },
    StepLine {
        shows: "a worker is asked to close a fallback",
        line: "close 2 0",
        number: 2,
        asks: Close(0),
    },
    StepLine {
        shows: "the worker stands before the index",
        line: "close 3 65535",
        number: 3,
        asks: Close(65_535),
    },
];

/// The key is k in the bucket b.
fn is_key(key: &Key) -> bool {
    key.bucket.as_slice() == b"b".as_slice() && key.key.as_slice() == b"k".as_slice()
}

fn is_request(request: &Request, asks: &Asks) -> bool {
    match (request, asks) {
        (Request::Get(ask), Get) => is_key(&ask.key),
        (Request::Put(ask), Put) => { is_key(&ask.key) && ask.content.value() == b"v".as_slice() }
        _ => false,
    }
}

fn is_action(action: &LineAction, asks: &Asks) -> bool {
    match (action, asks) {
        (LineAction::Ask(request), _) => is_request(request, asks),
        (LineAction::Key(found, key), Asks::Key(step)) => *found == *step && is_key(key),
        (LineAction::Gate(found), Gate(step)) => *found == *step,
        _ => false,
    }
}

fn is_close(index: u16, asks: &Asks) -> bool {
    match asks {
        Close(wanted) => index == *wanted,
        _ => false,
    }
}

fn is_step(read: &Result<Line, LineFault>, row: &StepLine) -> bool {
    match read {
        Ok(Line::By(worker, action)) => *worker == row.number && is_action(action, &row.asks),
        Ok(Line::Divert(index)) => *index == row.number && matches!(row.asks, Divert),
        Ok(Line::Close(worker, index)) => *worker == row.number && is_close(*index, &row.asks),
        Err(_) => false,
    }
}

/// Whether a row holds.
fn is_read(alloc: Global, row: &StepLine) -> bool {
    let read = read_again(alloc, row.line.as_bytes());
    let is = is_step(&read, row);
    let_go(read);
    is
}

#[test]
fn each_word_is_a_step(rt: HostRuntime) {
    for row in STEP_LINES {
        assert!(rt; is_read(rt.alloc(), row), "{}", row.shows);
    }
}

/// Lines that are no steps for one reason, where there are three workers.
struct BadSteps {
    shows: &'static str,
    lines: &'static [&'static str],
}

const BAD_STEPS: &[BadSteps] = &[
    BadSteps {
        shows: "workers are numbered from 1 without leading zeros",
        lines: &[
            "enter 01",
            "enter 0",
            "enter 4",
            "enter +1",
            "enter -1",
            "enter 65537",
            "enter one",
            "ask 01 090a016212016b",
            "reap 4 090a016212016b",
        ],
    },
    BadSteps {
        shows: "one space stands between the parts",
        lines: &[
            "",
            "enter",
            "enter ",
            "enter  1",
            "enter 1 ",
            " enter 1",
            "enter\t1",
            "enter 1\r",
            "ask  1 090a016212016b",
            "ask 1  090a016212016b",
            "ask 1 090a016212016b ",
        ],
    },
    BadSteps {
        shows: "other words are no steps",
        lines: &[
            "wait 1",
            "Enter 1",
            "enters 1",
            "ask 1",
            "ask 1 ",
            "enter 1 090a016212016b",
        ],
    },
    BadSteps {
        shows: "messages are lower case and of even length",
        lines: &[
            "ask 1 090A016212016B",
            "ask 1 090a016212016",
            "ask 1 090a016212016g",
            "ask 1 0x090a016212016b",
        ],
    },
    BadSteps {
        shows: "a ping is no step, and neither is an unknown code",
        lines: &["ask 1 01", "ask 1 07"],
    },
    BadSteps {
        shows: "a get has its key, and its bucket isn't empty",
        lines: &["ask 1 090a0162", "ask 1 090a0012016b"],
    },
    BadSteps {
        shows: "bytes that are no fields are no request",
        lines: &["ask 1 09ff"],
    },
    BadSteps {
        shows: "a partition's index is decimal without leading zeros, at most 65,535, and all that follows",
        lines: &[
            "divert",
            "divert ",
            "divert 01",
            "divert -1",
            "divert +1",
            "divert 65536",
            "divert zero",
            "divert  0",
            "divert 0 ",
            "divert 0 x",
            "divert 0 090a016212016b",
            "diverts 0",
        ],
    },
    BadSteps {
        shows: "a close names a worker and an index, and nothing more",
        lines: &[
            "close",
            "close ",
            "close 1",
            "close 1 ",
            "close 0 0",
            "close 4 0",
            "close 01 0",
            "close 1 00",
            "close 1 -1",
            "close 1 65536",
            "close 1  0",
            "close  1 0",
            "close 1 0 ",
            "close 1 0 0",
            "close 1 090a016212016b",
            "closes 1 0",
        ],
    },
    BadSteps {
        shows: "a reap is asked for by a get",
        lines: &["reap 1 0b0a016212016b22030a0176", "reap 1 01"],
    },
];

fn is_bad_step(read: &Result<Line, LineFault>) -> bool {
    match read {
        Ok(_) => false,
        Err(fault) => *fault == LineFault::BadStep,
    }
}

fn is_bad(alloc: Global, line: &str) -> bool {
    let read = read_again(alloc, line.as_bytes());
    let is = is_bad_step(&read);
    let_go(read);
    is
}

/// The lines of a row are bad steps.
fn are_bad(rt: &impl Abort, alloc: Global, row: &BadSteps) {
    for line in row.lines {
        assert!(rt; is_bad(alloc, line), "{}: {line}", row.shows);
    }
}

#[test]
fn other_lines_are_bad_steps(rt: HostRuntime) {
    for row in BAD_STEPS {
        are_bad(&rt, rt.alloc(), row);
    }
}

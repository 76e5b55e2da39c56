//! Runs that are compared with a plain register. Where memory was refused in a run, it is made again from its start.

use crate::messages::{
    ABSENT, DELETE, DELETED, GET, Message, PUT_J, PUT_V, SHOWS_V, STORED, reply_again,
    request_again,
};
use crate::text::compared::*;
use riak_msgs::{Key, MsgFault, Reply, Request};
use schedule_text::*;
use std::alloc::Global;
use std::process::Abort;

/// What a comparison is given, or must say.
enum Event {
    /// A worker gets this call, and it is answered by this reply, at this line.
    Answer(u64, Message, Message),
    /// A worker gets this call, which isn't answered.
    Call(Message),
    /// A reap of b/k is answered.
    Reap,
    /// The verdict is this one.
    Is(Verdict),
}

use Event::{Answer, Call, Is, Reap};

/// A run that is compared.
struct Run {
    shows: &'static str,
    events: &'static [Event],
}

const RUNS: &[Run] = &[
    Run {
        shows: "the schedule of a marking writer is equal",
        events: &[
            Is(Verdict::Equal),
            Answer(8, GET, ABSENT),
            Answer(12, PUT_V, STORED),
            Answer(16, GET, SHOWS_V),
            Is(Verdict::Equal),
        ],
    },
    Run {
        shows: "another value differs at its line, and the first difference stays",
        events: &[
            Answer(12, PUT_V, STORED),
            Answer(16, GET, SHOWS_W),
            Is(Verdict::DiffersAt(16)),
            Answer(20, GET, ABSENT),
            Is(Verdict::DiffersAt(16)),
        ],
    },
    Run {
        shows: "a shown context is the position that it was shown at",
        events: &[
            Answer(1, PUT_V, STORED),
            Answer(2, GET, SHOWS_V),
            Answer(3, PUT_W, STORED),
            Answer(4, PUT_X, STORED),
            Answer(5, GET, SHOWS_X_W),
            Is(Verdict::Equal),
            Answer(6, GET, SHOWS_W_X),
            Is(Verdict::DiffersAt(6)),
        ],
    },
    Run {
        shows: "a context that was not shown is not compared",
        events: &[
            Answer(1, PUT_V, STORED),
            Answer(2, PUT_X, STORED),
            Is(Verdict::NotCompared),
        ],
    },
    // A context of another form is refused, and the register isn't asked.
    Run {
        shows: "refusals are compared but for those of clocks",
        events: &[
            Answer(1, PUT_V, STORED),
            Answer(2, PUT_Z_IF_NONE, MATCH_FOUND),
            Answer(3, PUT_Z_BY_BAD_CONTEXT, BAD_CONTEXT),
            Answer(4, GET, SHOWS_V),
            Is(Verdict::Equal),
            Answer(5, PUT_Z_IF_NONE, MODIFIED),
            Is(Verdict::DiffersAt(5)),
        ],
    },
    Run {
        shows: "tombstones and heads are compared",
        events: &[
            Answer(1, PUT_V, STORED),
            Answer(2, GET, SHOWS_V),
            Answer(3, GET_HEAD, SHOWS_HEAD),
            Answer(4, PUT_W, STORED),
            Answer(5, DELETE_V, DELETED),
            Answer(6, GET, SHOWS_TOMBSTONE_W),
            Is(Verdict::Equal),
            Answer(7, GET_HEAD, SHOWS_TOMBSTONE_W),
            Is(Verdict::DiffersAt(7)),
        ],
    },
    Run {
        shows: "a reap forgets a dead key, and no other",
        events: &[
            Answer(1, PUT_V, STORED),
            Reap,
            Answer(2, GET, SHOWS_V),
            Answer(3, DELETE, DELETED),
            Answer(4, GET, ABSENT),
            Reap,
            Answer(5, PUT_W, STORED),
            Answer(6, GET, SHOWS_W_ANEW),
            Is(Verdict::Equal),
        ],
    },
    Run {
        shows: "a call that isn't answered counts by its context",
        events: &[
            Answer(1, PUT_V, STORED),
            Call(PUT_W),
            Call(PUT_Z_BY_BAD_CONTEXT),
            Is(Verdict::Equal),
            Call(PUT_X),
            Is(Verdict::NotCompared),
            Answer(2, GET, ABSENT),
            Is(Verdict::NotCompared),
        ],
    },
    Run {
        shows: "a context that was shown for another key isn't known for this one",
        events: &[
            Answer(1, PUT_J, STORED),
            Answer(2, GET_J, SHOWS_V),
            Answer(3, PUT_V, STORED),
            Is(Verdict::Equal),
            Call(PUT_X),
            Is(Verdict::NotCompared),
        ],
    },
    Run {
        shows: "the reply to a put shows a context",
        events: &[
            Answer(1, PUT_V_FOR_BODY, PUT_SHOWS_V),
            Answer(2, PUT_X, STORED),
            Answer(3, GET, SHOWS_X),
            Is(Verdict::Equal),
        ],
    },
    Run {
        shows: "a put without options shows nothing",
        events: &[Answer(1, PUT_V, PUT_SHOWS_V), Is(Verdict::DiffersAt(1))],
    },
    Run {
        shows: "a put that asks for its body shows it",
        events: &[Answer(1, PUT_V_FOR_BODY, STORED), Is(Verdict::DiffersAt(1))],
    },
    Run {
        shows: "an absent key that a put wants unmodified is refused",
        events: &[
            Answer(1, PUT_Y_IF_SAME, NOT_FOUND),
            Is(Verdict::Equal),
            Answer(2, PUT_Y_IF_SAME, STORED),
            Is(Verdict::DiffersAt(2)),
        ],
    },
    Run {
        shows: "an absent key's refusal where there is a value differs",
        events: &[
            Answer(1, PUT_V, STORED),
            Answer(2, PUT_Y_IF_SAME, NOT_FOUND),
            Is(Verdict::DiffersAt(2)),
        ],
    },
    Run {
        shows: "too many siblings where there are few differs",
        events: &[
            Answer(1, PUT_V, STORED),
            Answer(2, PUT_W, TOO_MANY),
            Is(Verdict::DiffersAt(2)),
        ],
    },
];

fn let_go(_request: Result<Request, MsgFault>, _reply: Result<Reply, MsgFault>) {}

/// Compares what was read.
fn compares_read(
    run: &mut Comparison,
    alloc: Global,
    line: u64,
    request: &Result<Request, MsgFault>,
    reply: &Result<Reply, MsgFault>,
) -> bool {
    match (request, reply) {
        (Ok(request), Ok(reply)) => {
            run.call(request);
            run.reply(alloc, line, request, reply).is_ok()
        }
        _ => false,
    }
}

fn calls_read(run: &mut Comparison, request: &Result<Request, MsgFault>) -> bool {
    match request {
        Ok(request) => {
            run.call(request);
            true
        }
        Err(_) => false,
    }
}

fn let_request_go(_request: Result<Request, MsgFault>) {}

/// Tells of a call.
fn calls(run: &mut Comparison, alloc: Global, request: &Message) -> bool {
    let asked = request_again(alloc, request);
    let is_told = calls_read(run, &asked);
    let_request_go(asked);
    is_told
}

/// Compares the reply to a request.
fn compares(
    run: &mut Comparison,
    alloc: Global,
    line: u64,
    request: &Message,
    reply: &Message,
) -> bool {
    let asked = request_again(alloc, request);
    let answered = reply_again(alloc, reply);
    let is_compared = compares_read(run, alloc, line, &asked, &answered);
    let_go(asked, answered);
    is_compared
}

fn reaps(run: &mut Comparison, alloc: Global) -> bool {
    match Key::of_default_type(alloc, b"b", b"k") {
        Ok(key) => run.reap(alloc, &key).is_ok(),
        Err(_) => false,
    }
}

fn takes(run: &mut Comparison, alloc: Global, event: &Event) -> bool {
    match event {
        Answer(line, request, reply) => compares(run, alloc, *line, request, reply),
        Call(request) => calls(run, alloc, request),
        Reap => reaps(run, alloc),
        Is(verdict) => run.verdict() == *verdict,
    }
}

fn takes_all(run: &mut Comparison, alloc: Global, events: &[Event]) -> bool {
    for event in events {
        if !takes(run, alloc, event) {
            return false;
        }
    }
    true
}

/// Makes a run.
fn makes(alloc: Global, events: &[Event]) -> bool {
    let mut run = Comparison::new(alloc);
    takes_all(&mut run, alloc, events)
}

/// Whether a row holds, or holds where it is made once more.
fn makes_again(alloc: Global, row: &Run) -> bool {
    makes(alloc, row.events) || makes(alloc, row.events)
}

#[test]
fn a_run_is_compared_with_plain_registers(rt: HostRuntime) {
    for row in RUNS {
        assert!(rt; makes_again(rt.alloc(), row), "{}", row.shows);
    }
}

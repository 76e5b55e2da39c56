//! Sessions to which memory is refused, and what takes none.
//!
//! `scripts/maintain/refuse-memory` runs them once for each of their allocations, and refuses that one.

use crate::tests::exchange::answers;
use crate::tests::frames::{
    ABSENT, DELETE, DELETED, GET, NO_MEMORY, PONG, PUT_V, SHOWN_V, SHOWN_W_V, SHOWN_X_W, STORED,
};
use crate::tests::scripts::{Line, PING_PUT_GET, THREE_PUTS, requests_of, shown_after};
use crate::tests::streams::{Channel, PLAIN, Sink, Source};
use node_session::{Ended, PlainNode, SessionFault, serve, write_fault};
use std::alloc::Global;
use std::cell::Cell;
use std::test::Fail;

/// A session that may meet a refusal of memory, which is answered or ends it.
struct Refusal {
    shows: &'static str,
    budget: u32,
    /// What is asked at the end.
    get: &'static [u8],
    /// What is answered where no memory is refused.
    script: &'static [Line],
    /// What is answered where it is refused to the request of the same place, and what the get shows then.
    refused: &'static [(&'static [&'static [u8]], &'static [u8])],
}

const REFUSALS: &[Refusal] = &[
    Refusal {
        shows: "a put that was answered is stored, and one that was refused is not",
        budget: 0,
        get: GET,
        script: PING_PUT_GET,
        refused: &[
            (&[PONG, STORED, SHOWN_V], SHOWN_V),
            (&[PONG, NO_MEMORY, ABSENT], ABSENT),
            (&[PONG, STORED, NO_MEMORY], SHOWN_V),
        ],
    },
    Refusal {
        shows: "a delete that was refused leaves the value, and one that was answered leaves none",
        budget: 1,
        get: GET,
        script: PUT_AND_DELETE,
        refused: &[
            (&[NO_MEMORY, DELETED], ABSENT),
            (&[STORED, NO_MEMORY], SHOWN_V),
        ],
    },
    // Without "v" the first dot is that of "w", which the put of "x" then covers; without "w" the put of "x" has the second.
    Refusal {
        shows: "of three puts those that were answered are stored",
        budget: 0,
        get: GET,
        script: THREE_PUTS,
        refused: &[
            (
                &[NO_MEMORY, ABSENT, STORED, SHOWN_W, STORED, SHOWN_X],
                SHOWN_X,
            ),
            (
                &[STORED, NO_MEMORY, STORED, SHOWN_W_V, STORED, SHOWN_X_W],
                SHOWN_X_W,
            ),
            (
                &[STORED, SHOWN_V, NO_MEMORY, SHOWN_V, STORED, SHOWN_X],
                SHOWN_X,
            ),
            (
                &[STORED, SHOWN_V, STORED, NO_MEMORY, STORED, SHOWN_X_W],
                SHOWN_X_W,
            ),
            (
                &[STORED, SHOWN_V, STORED, SHOWN_W_V, NO_MEMORY, SHOWN_W_V],
                SHOWN_W_V,
            ),
            (
                &[STORED, SHOWN_V, STORED, SHOWN_W_V, STORED, NO_MEMORY],
                SHOWN_X_W,
            ),
        ],
    },
    Refusal {
        shows: "a content with details under long names is shown whole or not stored",
        budget: 0,
        get: GET_LONG,
        script: DETAILED,
        refused: &[
            (&[NO_MEMORY, ABSENT], ABSENT),
            (&[STORED_DETAILED, NO_MEMORY], SHOWN_DETAILED),
        ],
    },
];

/// A put of "v" on b/k, and a delete without context.
const PUT_AND_DELETE: &[Line] = &[
    Line {
        request: PUT_V,
        reply: STORED,
        shown: SHOWN_V,
    },
    Line {
        request: DELETE,
        reply: DELETED,
        shown: ABSENT,
    },
];

/// "w" with the first dot.
const SHOWN_W: &[u8] =
    b"\0\0\0\x1d\x0a\x0a\x03\x0a\x01w\x12\x15\x02\0\0\0\0\0\x01\0\0\0\0\0\x01\0\0\0\0\0\0\0\x01";

/// "x" with the second.
const SHOWN_X: &[u8] =
    b"\0\0\0\x1d\x0a\x0a\x03\x0a\x01x\x12\x15\x02\0\0\0\0\0\x01\0\0\0\0\0\x01\0\0\0\0\0\0\0\x02";

/// A put with `return_body` under a type, a bucket and a key of twenty bytes, of a value with a content type, a link, a pair and
/// an index; and a get of it.
const DETAILED: &[Line] = &[
    Line {
        request: PUT_DETAILED,
        reply: STORED_DETAILED,
        shown: SHOWN_DETAILED,
    },
    Line {
        request: GET_LONG,
        reply: SHOWN_DETAILED,
        shown: SHOWN_DETAILED,
    },
];

const PUT_DETAILED: &[u8] =
    b"\0\0\x01\x08\x0b\x0a\x14a bucket of 20 bytes\x12\x14and a key of as many\x22\xbf\x01\x0a\x01v\x12\x15text/plain; charset=x2C\x0a\x14the bucket of a link\x12\x15the key that it names\x1a\x14the tag of that linkJ-\x0a\x14a name of usermeta..\x12\x15and the value of it..R/\x0a\x14an index of 20 bytes\x12\x17and what it is found by8\x01\x82\x01\x14its type of 20 bytes";

const GET_LONG: &[u8] =
    b"\0\0\0C\x09\x0a\x14a bucket of 20 bytes\x12\x14and a key of as manyj\x14its type of 20 bytes";

const STORED_DETAILED: &[u8] =
    b"\0\0\0\xda\x0c\x0a\xbf\x01\x0a\x01v\x12\x15text/plain; charset=x2C\x0a\x14the bucket of a link\x12\x15the key that it names\x1a\x14the tag of that linkJ-\x0a\x14a name of usermeta..\x12\x15and the value of it..R/\x0a\x14an index of 20 bytes\x12\x17and what it is found by\x12\x15\x02\0\0\0\0\0\x01\0\0\0\0\0\x01\0\0\0\0\0\0\0\x01";

const SHOWN_DETAILED: &[u8] =
    b"\0\0\0\xda\x0a\x0a\xbf\x01\x0a\x01v\x12\x15text/plain; charset=x2C\x0a\x14the bucket of a link\x12\x15the key that it names\x1a\x14the tag of that linkJ-\x0a\x14a name of usermeta..\x12\x15and the value of it..R/\x0a\x14an index of 20 bytes\x12\x17and what it is found by\x12\x15\x02\0\0\0\0\0\x01\0\0\0\0\0\x01\0\0\0\0\0\0\0\x01";

/// Pieces of 64 bytes, and writes of as many as there are.
const WHOLE: Channel<'static> = Channel {
    pieces: (64, 64),
    most: 500,
    ..PLAIN
};

/// What stands behind this front.
fn behind<'a>(bytes: &'a [u8], front: &[u8]) -> Option<&'a [u8]> {
    if bytes.starts_with(front) {
        let (_, rest) = bytes.split_at(front.len());
        return Some(rest);
    }
    None
}

/// Whether these replies are written, and nothing else.
fn are_written(output: &[u8], replies: &[&[u8]]) -> bool {
    let mut left = output;
    for reply in replies {
        match behind(left, reply) {
            Some(rest) => left = rest,
            None => return false,
        }
    }
    left.is_empty()
}

/// Whether just the first so many replies of a script are written.
fn are_first(output: &[u8], script: &[Line], count: u64) -> bool {
    let mut left = output;
    let mut missing = count;
    for line in script {
        if missing == 0 {
            break;
        }
        missing -= 1;
        match behind(left, line.reply) {
            Some(rest) => left = rest,
            None => return false,
        }
    }
    missing == 0 && left.is_empty()
}

/// What a get may show after a session that came to its end with this output; none where the output is another.
fn shown_at_end(row: &Refusal, output: &[u8]) -> Option<(&'static [u8], &'static [u8])> {
    let count = row.script.len() as u64;
    if are_first(output, row.script, count) {
        let shown = shown_after(row.script, count);
        return Some((shown, shown));
    }
    for (replies, shown) in row.refused {
        if are_written(output, replies) {
            return Some((*shown, *shown));
        }
    }
    None
}

/// The same after a session that ended behind so many replies: those requests were answered, and perhaps one more.
fn shown_behind(
    row: &Refusal,
    output: &[u8],
    replies: u64,
) -> Option<(&'static [u8], &'static [u8])> {
    if are_first(output, row.script, replies) {
        let next = shown_after(row.script, replies.saturating_add(1));
        return Some((shown_after(row.script, replies), next));
    }
    None
}

/// What a get may show after this end and this output, of which so many bytes were flushed.
fn shown_by(
    row: &Refusal,
    end: Result<Ended, SessionFault>,
    output: &[u8],
    flushed: usize,
) -> Option<(&'static [u8], &'static [u8])> {
    if flushed != output.len() {
        return None;
    }
    match end {
        Ok(Ended { replies, rest: 0 }) if replies == row.script.len() as u64 => {
            shown_at_end(row, output)
        }
        Err(SessionFault::NoMemory(replies)) => shown_behind(row, output, replies),
        _ => None,
    }
}

/// Serves the requests, and says what a get may show after them.
fn served(
    alloc: Global,
    node: &mut PlainNode,
    room: Vec<u8>,
    input: &[u8],
    row: &Refusal,
) -> Option<(&'static [u8], &'static [u8])> {
    let flushed = Cell::new(0);
    let mut source = Source::new(input, &WHOLE, &flushed);
    let mut sink = Sink::new(alloc, &WHOLE, &flushed);
    sink.bytes = room;
    let end = serve(alloc, &mut source, &mut sink, node, 100);
    shown_by(row, end, sink.bytes.as_slice(), flushed.get())
}

/// A get has this reply, asked once more where memory was refused.
fn shows(alloc: Global, node: &mut PlainNode, get: &[u8], reply: &[u8]) -> bool {
    answers(alloc, node, get, reply) || answers(alloc, node, get, reply)
}

/// Serves the requests, and then a get.
fn is_answered_or_ends(
    alloc: Global,
    node: &mut PlainNode,
    room: Vec<u8>,
    input: &[u8],
    row: &Refusal,
) -> bool {
    match served(alloc, node, room, input, row) {
        Some((shown, also)) => {
            shows(alloc, node, row.get, shown) || shows(alloc, node, row.get, also)
        }
        None => false,
    }
}

/// The same with a new node, where there is memory for what the test itself needs.
fn meets_refusals(alloc: Global, row: &Refusal) -> bool {
    let (Ok(input), Ok(room)) = (
        requests_of(alloc, row.script),
        Vec::with_capacity(alloc, 1024),
    ) else {
        return true;
    };
    match PlainNode::new(alloc, 1) {
        Ok(node) => {
            let mut node = node.with_budget(row.budget);
            is_answered_or_ends(alloc, &mut node, room, &input, row)
        }
        Err(_) => true,
    }
}

// Where no memory is refused, the tables of other files say that all of this is answered.
#[test]
fn a_refusal_of_memory_is_answered_or_ends(rt: HostRuntime) {
    for row in REFUSALS {
        assert!(rt; meets_refusals(rt.alloc(), row), "{}", row.shows);
    }
}

/// A message of no code, a get of an empty bucket, a get that ends within its key, and a length of 0.
const BAD_REQUESTS: &[u8] =
    b"\0\0\0\x01\x07\0\0\0\x06\x09\x0a\0\x12\x01k\0\0\0\x06\x09\x0a\x01b\x12\x01\0\0\0\0";

/// Their replies.
const ERRORS: &[u8] =
    b"\0\0\0\x19\0\x0a\x14unknown message code\x10\x01\0\0\0\x0f\0\x0a\x0aempty name\x10\x01\0\0\0\x10\0\x0a\x0bbad message\x10\x01\0\0\0\x0e\0\x0a\x09bad frame\x10\x01";

/// Memory was refused for what was read, or not at all. The fault's line takes none either.
fn is_reported(sink: &mut Sink, fault: SessionFault) -> bool {
    let is_written = write_fault(sink, fault).is_ok();
    let output = sink.bytes.as_slice();
    match fault {
        SessionFault::BadFrame(3) => is_written && output.starts_with(ERRORS),
        SessionFault::NoMemory(0) => is_written && output.starts_with(b"riak_node: no memory"),
        _ => false,
    }
}

/// Serves the requests, and writes the line of the fault that ends them.
fn take_no_memory(alloc: Global, node: &mut PlainNode, room: Vec<u8>) -> bool {
    let flushed = Cell::new(0);
    let mut source = Source::new(BAD_REQUESTS, &WHOLE, &flushed);
    let mut sink = Sink::new(alloc, &WHOLE, &flushed);
    sink.bytes = room;
    match serve(alloc, &mut source, &mut sink, node, 100) {
        Err(fault) => is_reported(&mut sink, fault),
        Ok(_) => false,
    }
}

// One allocation is for the output's room, one for the node, one for what is read; no error and no line asks for another.
#[test]
fn errors_take_no_memory(rt: HostRuntime) -> Result<(), Fail> {
    let alloc = rt.alloc();
    let (Ok(room), Ok(mut node)) = (Vec::with_capacity(alloc, 256), PlainNode::new(alloc, 1)) else {
        return Ok(());
    };
    assert!(rt; take_no_memory(alloc, &mut node, room));
    Ok(())
}

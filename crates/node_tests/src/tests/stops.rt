//! Sessions that stop at each of their reads, writes and flushes in turn, and what a get shows after each.

use crate::tests::exchange::answers;
use crate::tests::frames::GET;
use crate::tests::scripts::{Line, PING_PUT_GET, THREE_PUTS, replies_of, requests_of, shown_after};
use crate::tests::sessions::{Count, Outcome, comes_to, ended};
use crate::tests::streams::{Call, Channel, Trouble};
use node_session::{Ended, PlainNode, SessionFault};
use std::alloc::Global;
use std::process::Abort;

/// Sessions of a script, each of which stops at a call of another number.
struct Stops {
    shows: &'static str,
    script: &'static [Line],
    /// The call that fails: alone, and in another session with each after it.
    call: Call,
    /// Whether just the reads before it may be made, so that it isn't made.
    is_bounded: bool,
    sizes: &'static [Size],
}

/// How many bytes a read gives at most, how many a write takes at most, and how many such calls a session makes that meets no
/// trouble.
struct Size(usize, usize, u32);

/// All requests of a script in one piece.
const WHOLE: usize = 1000;

const STOPS: &[Stops] = &[
    // A read for each byte, and one that would meet the end.
    Stops {
        shows: "reads are bounded",
        script: PING_PUT_GET,
        call: Call::Read,
        is_bounded: true,
        sizes: &[Size(1, 64, 33)],
    },
    Stops {
        shows: "reads of three puts are bounded",
        script: THREE_PUTS,
        call: Call::Read,
        is_bounded: true,
        sizes: &[Size(1, 64, 101), Size(7, 64, 16), Size(WHOLE, 64, 2)],
    },
    Stops {
        shows: "each read fails in turn",
        script: PING_PUT_GET,
        call: Call::Read,
        is_bounded: false,
        sizes: &[Size(1, 64, 33)],
    },
    Stops {
        shows: "each read of three puts fails in turn",
        script: THREE_PUTS,
        call: Call::Read,
        is_bounded: false,
        sizes: &[Size(1, 64, 101), Size(7, 64, 16), Size(WHOLE, 64, 2)],
    },
    // A write for each byte of the replies.
    Stops {
        shows: "each write fails in turn",
        script: PING_PUT_GET,
        call: Call::Write,
        is_bounded: false,
        sizes: &[Size(WHOLE, 1, 43)],
    },
    // The replies are of 5, 33, 5, 38, 5 and 38 bytes.
    Stops {
        shows: "each write of three puts fails in turn",
        script: THREE_PUTS,
        call: Call::Write,
        is_bounded: false,
        sizes: &[
            Size(WHOLE, 1, 124),
            Size(WHOLE, 2, 64),
            Size(WHOLE, 3, 43),
            Size(WHOLE, 4, 35),
            Size(WHOLE, 5, 26),
        ],
    },
    // A flush before each read.
    Stops {
        shows: "each flush fails in turn",
        script: PING_PUT_GET,
        call: Call::Flush,
        is_bounded: false,
        sizes: &[Size(4, 64, 9)],
    },
    Stops {
        shows: "each flush of three puts fails in turn",
        script: THREE_PUTS,
        call: Call::Flush,
        is_bounded: false,
        sizes: &[Size(4, 64, 26), Size(1, 64, 101)],
    },
];

/// How far a session comes: whole replies, the bytes that go out, and the requests that are answered by the node.
#[derive(Drop)]
struct Progress {
    replies: u64,
    written: usize,
    asked: u64,
}

/// How far it comes by so many calls, where one more fails: by reads and flushes it has read so many pieces; and where a write fails,
/// the next request was answered too.
fn progress_at(row: &Stops, size: &Size, number: u64) -> Progress {
    let is_write = row.call == Call::Write;
    let most = size.1.max(1);
    let mut left = if is_write {
        number
    } else {
        number.saturating_mul(size.0 as u64)
    };
    let mut replies = 0u64;
    let mut written = 0usize;
    for line in row.script {
        let needed = if is_write {
            line.reply.len().div_ceil(most) as u64
        } else {
            line.request.len() as u64
        };
        if left < needed {
            if is_write {
                written = written.saturating_add((left as usize).saturating_mul(most));
            }
            break;
        }
        left -= needed;
        replies = replies.saturating_add(1);
        written = written.saturating_add(line.reply.len());
    }
    let asked = if is_write {
        replies.saturating_add(1)
    } else {
        replies
    };
    Progress {
        replies,
        written,
        asked,
    }
}

/// How a session stops, and how many reads it has made.
fn stop_of(row: &Stops, number: u64, replies: u64) -> (SessionFault, u64) {
    match row.call {
        Call::Read => {
            if row.is_bounded {
                (SessionFault::TooManyReads(replies), number)
            } else {
                (SessionFault::ReadFailed(replies), number.saturating_add(1))
            }
        }
        Call::Write => (SessionFault::WriteFailed(replies), 1),
        Call::Flush => (SessionFault::WriteFailed(replies), number),
    }
}

/// A call that fails.
#[derive(Drop)]
struct Failure {
    number: u32,
    /// Whether each call after it fails too.
    lasts: bool,
}

/// The channel of a session in which a call fails, or isn't made.
fn channel_of<'t>(row: &Stops, size: &Size, number: u32, troubles: &'t [Trouble]) -> Channel<'t> {
    Channel {
        pieces: (size.0, size.0),
        most: size.1,
        reads: if row.is_bounded { number } else { 200 },
        troubles,
    }
}

fn trouble_of(call: Call, failure: &Failure) -> Trouble {
    let number = u64::from(failure.number);
    if failure.lasts {
        Trouble::Fails(call, number)
    } else {
        Trouble::FailsOnce(call, number)
    }
}

/// What comes of a session of a script.
#[derive(Drop)]
struct Ending<'c> {
    end: Result<Ended, SessionFault>,
    /// How many bytes of the replies go out.
    written: usize,
    counts: &'c [Count],
}

/// The session comes to this where that call fails.
fn comes_to_ending(
    alloc: Global,
    node: &mut PlainNode,
    row: &Stops,
    size: &Size,
    failure: &Failure,
    ending: &Ending,
) -> bool {
    let (Ok(input), Ok(replies)) = (
        requests_of(alloc, row.script),
        replies_of(alloc, row.script),
    ) else {
        return false;
    };
    let outcome = Outcome {
        end: ending.end,
        output: replies.get(..ending.written).unwrap_or(&[]),
        counts: ending.counts,
    };
    let troubles = [trouble_of(row.call, failure)];
    let channel = channel_of(row, size, failure.number, &troubles);
    comes_to(alloc, node, &input, &channel, &outcome)
}

/// A session that stops at this call has answered what came before.
fn stops_at(
    alloc: Global,
    node: &mut PlainNode,
    row: &Stops,
    size: &Size,
    failure: &Failure,
) -> bool {
    let number = u64::from(failure.number);
    let progress = progress_at(row, size, number);
    let (fault, reads) = stop_of(row, number, progress.replies);
    let counts = [Count::Reads(reads), Count::FlushesOverReads(1)];
    let counted = if row.is_bounded { 2 } else { 1 };
    let ending = Ending {
        end: Err(fault),
        written: progress.written,
        counts: &counts[..counted],
    };
    comes_to_ending(alloc, node, row, size, failure, &ending)
}

/// The session meets no trouble where the call of the number behind its last fails.
fn ends_before(alloc: Global, node: &mut PlainNode, row: &Stops, size: &Size) -> bool {
    let failure = Failure {
        number: size.2,
        lasts: true,
    };
    let ending = Ending {
        end: ended!(row.script.len() as u64, 0),
        written: progress_at(row, size, u64::MAX).written,
        counts: &[],
    };
    comes_to_ending(alloc, node, row, size, &failure, &ending)
}

/// What a get shows in another session says which requests were answered.
fn stands(
    alloc: Global,
    node: &mut PlainNode,
    row: &Stops,
    size: &Size,
    failure: &Failure,
) -> bool {
    let progress = progress_at(row, size, u64::from(failure.number));
    answers(alloc, node, GET, shown_after(row.script, progress.asked))
}

/// Serves a new node up to a stop, and asks it.
fn serves_up_to(alloc: Global, row: &Stops, size: &Size, failure: &Failure) -> bool {
    match PlainNode::new(alloc, 1) {
        Ok(mut node) => {
            stops_at(alloc, &mut node, row, size, failure)
                && stands(alloc, &mut node, row, size, failure)
        }
        Err(_) => false,
    }
}

/// Serves a new node to its end.
fn serves_all(alloc: Global, row: &Stops, size: &Size) -> bool {
    match PlainNode::new(alloc, 1) {
        Ok(mut node) => ends_before(alloc, &mut node, row, size),
        Err(_) => false,
    }
}

/// Each call fails in turn, alone and with those after it.
fn stop_at_each(rt: &impl Abort, alloc: Global, row: &Stops, size: &Size) {
    for lasts in [true, false] {
        for number in 0..size.2 {
            let failure = Failure { number, lasts };
            assert!(rt;
                serves_up_to(alloc, row, size, &failure),
                "{}, at {number}, and those after it: {lasts}; pieces of {}, writes of {}",
                row.shows,
                size.0,
                size.1
            );
        }
    }
    assert!(rt;
        serves_all(alloc, row, size),
        "{}, of {} calls; pieces of {}, writes of {}",
        row.shows,
        size.2,
        size.0,
        size.1
    );
}

#[test]
fn what_came_before_a_stop_is_answered(rt: HostRuntime) {
    for row in STOPS {
        for size in row.sizes {
            stop_at_each(&rt, rt.alloc(), row, size);
        }
    }
}

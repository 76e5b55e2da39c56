//! Sessions that meet the end of their input, however they are cut.

use crate::tests::frames::{
    ABSENT, BAD_FRAME, EMPTY_NAME, GET, MISSING_FIELD, PING, PONG, PUT_AND_GET, PUT_WITHOUT_KEY,
    REPLIES, REQUESTS, STORED_AND_SHOWN, UNKNOWN, UNKNOWN_CODE,
};
use crate::tests::sessions::{
    ANSWERED, Count, EMPTY, Outcome, Part, Session, comes_to_new, ended, goes,
};
use crate::tests::streams::{Call, Channel, PLAIN, Trouble};
use node_session::SessionFault;
use std::alloc::Global;
use std::process::Abort;

/// Requests that are cut in many ways, each answered.
struct Cuts {
    shows: &'static str,
    input: &'static [u8],
    output: &'static [u8],
    replies: u64,
    /// Lengths of the first piece.
    firsts: &'static [usize],
    /// Lengths of the later pieces. 0 is the first one's.
    laters: &'static [usize],
    /// How many bytes a write takes at most.
    mosts: &'static [usize],
    troubles: &'static [Trouble],
}

/// All cuts of the three requests.
const ANYWHERE: &[usize] = &[
    1, 2, 3, 4, 5, 6, 7, 8, 9, 10, 11, 12, 13, 14, 15, 16, 17, 18, 19, 20, 21, 22, 23, 24, 25, 26,
    27, 28, 29, 30, 31, 32,
];

const CUTS: &[Cuts] = &[
    Cuts {
        shows: "pieces do not matter",
        input: &REQUESTS,
        output: &REPLIES,
        replies: 3,
        firsts: &[1, 2, 3, 4, 5, 6, 7, 9, 16, 31, 32, 100],
        laters: &[0],
        mosts: &[1, 2, 3, 4, 5, 64],
        troubles: &[],
    },
    Cuts {
        shows: "a put and a get may be cut anywhere",
        input: PUT_AND_GET,
        output: STORED_AND_SHOWN,
        replies: 2,
        firsts: ANYWHERE,
        laters: &[1, 27],
        mosts: &[64],
        troubles: &[],
    },
    Cuts {
        shows: "frames are answered and flushed before the next read",
        input: &REQUESTS,
        output: &REPLIES,
        replies: 3,
        firsts: ANYWHERE,
        laters: &[1, 2, 5, 27, 32],
        mosts: &[64],
        troubles: &[Trouble::Awaits],
    },
];

/// All is answered where the requests are cut so, and each read has its flush.
fn are_answered(alloc: Global, row: &Cuts, first: usize, later: usize, most: usize) -> bool {
    let later = if later == 0 { first } else { later };
    let channel = Channel {
        pieces: (first, later),
        most,
        reads: 100,
        troubles: row.troubles,
    };
    let outcome = Outcome {
        end: ended!(row.replies, 0),
        output: row.output,
        counts: &[Count::FlushesOverReads(0)],
    };
    comes_to_new(alloc, row.input, &channel, &outcome)
}

/// Cuts the requests behind their first piece in each way.
fn cut_behind(rt: &impl Abort, alloc: Global, row: &Cuts, first: usize) {
    for later in row.laters {
        for most in row.mosts {
            let well = are_answered(alloc, row, first, *later, *most);
            assert!(rt;
                well,
                "{}: {first}, then {later}, writes of {most}",
                row.shows
            );
        }
    }
}

#[test]
fn requests_are_answered_however_they_are_cut(rt: HostRuntime) {
    for row in CUTS {
        for first in row.firsts {
            cut_behind(&rt, rt.alloc(), row, *first);
        }
    }
}

/// Pieces of four bytes, whose third read fails.
const THIRD_READ_FAILS: Channel<'static> = Channel {
    pieces: (4, 4),
    troubles: &[Trouble::Fails(Call::Read, 2)],
    ..PLAIN
};

const ENDS: &[Session] = &[
    Session {
        shows: "an empty input has no rest",
        ..EMPTY
    },
    Session {
        shows: "three bytes are a rest",
        input: &[Part::Bytes(b"\0\0\x01")],
        end: ended!(0, 3),
        ..EMPTY
    },
    Session {
        shows: "a long frame that isn't whole is a rest",
        input: &[Part::Bytes(b"\0\0\x01\0\0\0\x01\0")],
        end: ended!(0, 8),
        ..EMPTY
    },
    Session {
        shows: "a frame before the rest is answered",
        input: &[Part::Bytes(b"\0\0\0\x02\x07\x01\0\0")],
        end: ended!(1, 2),
        output: &[Part::Bytes(UNKNOWN_CODE)],
        ..EMPTY
    },
    // Several frames in the first read, the end in the third.
    Session {
        shows: "the last read may meet the end",
        channel: Channel {
            pieces: (21, 11),
            reads: 3,
            ..PLAIN
        },
        counts: &[Count::Status(0)],
        ..ANSWERED
    },
    Session {
        shows: "a session goes on behind an error",
        input: &[Part::Bytes(UNKNOWN), Part::Bytes(PING)],
        channel: Channel {
            pieces: (7, 7),
            reads: 10,
            ..PLAIN
        },
        end: ended!(2, 0),
        output: &[Part::Bytes(UNKNOWN_CODE), Part::Bytes(PONG)],
        ..EMPTY
    },
    // A put without key, one without content, an empty bucket, an unknown code, and a get. Each is answered by its error,
    // and the session goes on.
    Session {
        shows: "what is missing is answered",
        input: &[
            Part::Bytes(PUT_WITHOUT_KEY),
            Part::Bytes(b"\0\0\0\x09\x0b\x0a\x01b\x12\x01k\x22\0"),
            Part::Bytes(b"\0\0\0\x06\x09\x0a\0\x12\x01k"),
            Part::Bytes(UNKNOWN),
            Part::Bytes(GET),
        ],
        channel: Channel {
            pieces: (16, 16),
            reads: 10,
            ..PLAIN
        },
        end: ended!(5, 0),
        output: &[
            Part::Bytes(b"\0\0\0\x11\0\x0a\x0ckey required\x10\x01"),
            Part::Bytes(MISSING_FIELD),
            Part::Bytes(EMPTY_NAME),
            Part::Bytes(UNKNOWN_CODE),
            Part::Bytes(ABSENT),
        ],
        ..EMPTY
    },
    // A rest behind the last frame is no fault; a bad length is one, and so is a read that fails.
    Session {
        shows: "the status of an empty input is 0",
        channel: THIRD_READ_FAILS,
        counts: &[Count::Status(0)],
        ..EMPTY
    },
    Session {
        shows: "the status of a rest is 0",
        input: &[Part::Bytes(b"\0\0\x01")],
        channel: THIRD_READ_FAILS,
        end: ended!(0, 3),
        counts: &[Count::Status(0)],
        ..EMPTY
    },
    Session {
        shows: "the status of a bad length is 1",
        input: &[Part::Bytes(b"\0\0\0\0")],
        channel: THIRD_READ_FAILS,
        end: Err(SessionFault::BadFrame(0)),
        output: &[Part::Bytes(BAD_FRAME)],
        counts: &[Count::Status(1)],
    },
    Session {
        shows: "the status of a read that fails is 1",
        input: &[Part::Bytes(PING), Part::Bytes(b"\0\0\0")],
        channel: THIRD_READ_FAILS,
        end: Err(SessionFault::ReadFailed(1)),
        output: &[Part::Bytes(PONG)],
        counts: &[Count::Status(1)],
    },
];

#[test]
fn sessions_end_as_their_input_does(rt: HostRuntime) {
    for row in ENDS {
        assert!(rt; goes(rt.alloc(), row), "{}", row.shows);
    }
}

//! Sessions that stop before the end of their input.

use crate::tests::exchange::answers;
use crate::tests::frames::{
    BAD_FRAME, FRAME_TOO_LARGE, GET, PING, PONG, PUT_V, REQUESTS, SHOWN_V, STORED,
};
use crate::tests::sessions::{Count, EMPTY, Part, Session, goes, goes_on};
use crate::tests::streams::{Call, Channel, PLAIN, Trouble};
use node_session::{PlainNode, SessionFault};
use std::alloc::Global;

/// All of an input in one piece.
const WHOLE: usize = 1000;

/// A session that stops, and what a get shows after it.
struct Stopped {
    session: Session,
    shown: &'static [u8],
}

const STOPPED: &[Stopped] = &[
    Stopped {
        session: Session {
            shows: "a put in one read, and a read that fails",
            input: &[Part::Bytes(PUT_V)],
            channel: Channel {
                pieces: (WHOLE, WHOLE),
                troubles: &[Trouble::Fails(Call::Read, 1)],
                ..PLAIN
            },
            end: Err(SessionFault::ReadFailed(1)),
            output: &[Part::Bytes(STORED)],
            ..EMPTY
        },
        shown: SHOWN_V,
    },
    Stopped {
        session: Session {
            shows: "a put in the one read that may be made",
            input: &[Part::Bytes(PUT_V)],
            channel: Channel {
                pieces: (WHOLE, WHOLE),
                reads: 1,
                ..PLAIN
            },
            end: Err(SessionFault::TooManyReads(1)),
            output: &[Part::Bytes(STORED)],
            ..EMPTY
        },
        shown: SHOWN_V,
    },
    Stopped {
        session: Session {
            shows: "a writer takes three bytes of a put's reply, and then fails",
            input: &[Part::Bytes(PUT_V)],
            channel: Channel {
                pieces: (WHOLE, WHOLE),
                most: 3,
                troubles: &[Trouble::Fails(Call::Write, 1)],
                ..PLAIN
            },
            end: Err(SessionFault::WriteFailed(0)),
            output: &[Part::Bytes(b"\0\0\0")],
            ..EMPTY
        },
        shown: SHOWN_V,
    },
];

/// Serves a new node, and then a get by another session.
fn stops_and_stands(alloc: Global, row: &Stopped) -> bool {
    match PlainNode::new(alloc, 1) {
        Ok(mut node) => {
            goes_on(alloc, &mut node, &row.session) && answers(alloc, &mut node, GET, row.shown)
        }
        Err(_) => false,
    }
}

#[test]
fn a_node_stands_where_its_session_stopped(rt: HostRuntime) {
    for row in STOPPED {
        assert!(rt; stops_and_stands(rt.alloc(), row), "{}", row.session.shows);
    }
}

/// Pieces of three bytes.
const BY_3: Channel<'static> = Channel {
    pieces: (3, 3),
    ..PLAIN
};

/// Pieces of three bytes and writes of four, of which the fourth fails.
const FOURTH_WRITE_FAILS: Channel<'static> = Channel {
    most: 4,
    troubles: &[Trouble::Fails(Call::Write, 3)],
    ..BY_3
};

const FAULTS: &[Session] = &[
    Session {
        shows: "a write of no bytes has failed",
        input: &[Part::Bytes(&REQUESTS)],
        channel: Channel {
            pieces: (32, 32),
            most: 0,
            ..PLAIN
        },
        end: Err(SessionFault::WriteFailed(0)),
        ..EMPTY
    },
    Session {
        shows: "a length of 0 is answered once",
        input: &[Part::Bytes(b"\0\0\0\0")],
        channel: BY_3,
        end: Err(SessionFault::BadFrame(0)),
        output: &[Part::Bytes(BAD_FRAME)],
        counts: &[Count::Unread(0), Count::FlushesOverReads(1)],
    },
    Session {
        shows: "too great a length is answered once",
        input: &[Part::Bytes(b"\0\x10\0\x01")],
        channel: BY_3,
        end: Err(SessionFault::BadFrame(0)),
        output: &[Part::Bytes(FRAME_TOO_LARGE)],
        counts: &[Count::Unread(0), Count::FlushesOverReads(1)],
    },
    // The second ping is not read any more.
    Session {
        shows: "a bad length behind a ping is answered once",
        input: &[
            Part::Bytes(PING),
            Part::Bytes(b"\0\0\0\0"),
            Part::Bytes(PING),
        ],
        channel: BY_3,
        end: Err(SessionFault::BadFrame(1)),
        output: &[Part::Bytes(PONG), Part::Bytes(BAD_FRAME)],
        counts: &[Count::Unread(5), Count::FlushesOverReads(1)],
    },
    // Of the error three writes of four bytes go out.
    Session {
        shows: "the error for a length of 0 is cut short",
        input: &[Part::Bytes(b"\0\0\0\0")],
        channel: FOURTH_WRITE_FAILS,
        end: Err(SessionFault::WriteFailed(0)),
        output: &[Part::Bytes(b"\0\0\0\x0e\0\x0a\x09bad f")],
        ..EMPTY
    },
    // Five writes.
    Session {
        shows: "the error for too great a length is cut short",
        input: &[Part::Bytes(b"\0\x10\0\x01")],
        channel: Channel {
            most: 4,
            troubles: &[Trouble::Fails(Call::Write, 5)],
            ..BY_3
        },
        end: Err(SessionFault::WriteFailed(0)),
        output: &[Part::Bytes(b"\0\0\0\x14\0\x0a\x0fframe too lar")],
        ..EMPTY
    },
    // The ping's reply takes two writes, and two more go out.
    Session {
        shows: "the error behind a ping is cut short",
        input: &[
            Part::Bytes(PING),
            Part::Bytes(b"\0\0\0\0"),
            Part::Bytes(PING),
        ],
        channel: Channel {
            most: 4,
            troubles: &[Trouble::Fails(Call::Write, 4)],
            ..BY_3
        },
        end: Err(SessionFault::WriteFailed(1)),
        output: &[Part::Bytes(PONG), Part::Bytes(b"\0\0\0\x0e\0\x0a\x09b")],
        ..EMPTY
    },
];

#[test]
fn a_fault_is_answered_once(rt: HostRuntime) {
    for row in FAULTS {
        assert!(rt; goes(rt.alloc(), row), "{}", row.shows);
    }
}

//! Connections over streams that need not wait.

use crate::tests::frames::{
    BAD_FRAME, FRAME_TOO_LARGE, GET, PING, PONG, PUT_AND_GET, REPLIES, REQUESTS, STORED,
    STORED_AND_SHOWN, UNKNOWN, UNKNOWN_CODE,
};
use crate::tests::sessions::{ANSWERED, EMPTY, Part, Session, ended, goes};
use crate::tests::streams::{Call, Channel, PLAIN, Trouble};
use crate::tests::turns::{Carried, comes_so, is_carried};
use node_session::SessionFault;
use std::alloc::Global;

/// The field of a reply that shows the first dot of the first key.
const FIRST_DOT: &[u8] = b"\x12\x15\x02\0\0\0\0\0\x01\0\0\0\0\0\x01\0\0\0\0\0\0\0\x01";

/// The same of the second key.
const SECOND_DOT: &[u8] = b"\x12\x15\x02\0\0\0\0\0\x01\0\0\0\0\0\x02\0\0\0\0\0\0\0\x01";

/// A reply to a get of b/k, of 1,048,561 bytes, up to these.
const SHOWN_LONGEST: &[u8] = b"\0\x10\0\x11\x0a\x0a\xf5\xff\x3f\x0a\xf1\xff\x3f";

/// The 1,048,561 bytes.
const LONGEST: Part = Part::Times(911, &[7; 1151]);

/// A get of b/j.
const GET_J: &[u8] = b"\0\0\0\x07\x09\x0a\x01b\x12\x01j";

/// A reply to a get of b/k, of 5,000 bytes, up to these.
const SHOWN_5_000: &[u8] = b"\0\0\x13\xa6\x0a\x0a\x8b\x27\x0a\x88\x27";

/// A reply to a get of b/j, of 20,000 bytes, up to these.
const SHOWN_20_000: &[u8] = b"\0\0\x4e\x40\x0a\x0a\xa4\x9c\x01\x0a\xa0\x9c\x01";

/// Streams that wait, or that never have to.
const EITHER_WAY: &[Session] = &[
    Session {
        shows: "two pings, and a writer that takes seven bytes",
        input: &[Part::Bytes(PING), Part::Bytes(PING)],
        channel: Channel {
            pieces: (10, 10),
            most: 7,
            ..PLAIN
        },
        end: ended!(2, 0),
        output: &[Part::Bytes(PONG), Part::Bytes(PONG)],
        ..EMPTY
    },
    Session {
        shows: "an empty input",
        ..EMPTY
    },
    Session {
        shows: "a byte a read, and a byte a write",
        channel: Channel {
            pieces: (1, 1),
            most: 1,
            ..PLAIN
        },
        ..ANSWERED
    },
    Session {
        shows: "a message of no code, and the end in the middle of a frame",
        input: &[Part::Bytes(UNKNOWN), Part::Bytes(b"\0\0\0\x0c\x0b")],
        end: ended!(1, 5),
        output: &[Part::Bytes(UNKNOWN_CODE)],
        ..EMPTY
    },
    Session {
        shows: "a length of 0 behind replies",
        input: &[
            Part::Bytes(PUT_AND_GET),
            Part::Bytes(b"\0\0\0\0"),
            Part::Bytes(PING),
        ],
        channel: Channel {
            pieces: (64, 64),
            most: 5,
            ..PLAIN
        },
        end: Err(SessionFault::BadFrame(2)),
        output: &[Part::Bytes(STORED_AND_SHOWN), Part::Bytes(BAD_FRAME)],
        ..EMPTY
    },
    Session {
        shows: "too great a length",
        input: &[Part::Bytes(PING), Part::Bytes(b"\0\x10\0\x01")],
        end: Err(SessionFault::BadFrame(1)),
        output: &[Part::Bytes(PONG), Part::Bytes(FRAME_TOO_LARGE)],
        ..EMPTY
    },
    Session {
        shows: "a read that fails",
        input: &[Part::Bytes(PING), Part::Bytes(b"\0\0\0")],
        channel: Channel {
            pieces: (8, 8),
            troubles: &[Trouble::Fails(Call::Read, 1)],
            ..PLAIN
        },
        end: Err(SessionFault::ReadFailed(1)),
        output: &[Part::Bytes(PONG)],
        ..EMPTY
    },
    Session {
        shows: "every second call is interrupted",
        channel: Channel {
            most: 3,
            troubles: &[
                Trouble::Interrupts(Call::Read, 2),
                Trouble::Interrupts(Call::Write, 2),
            ],
            ..PLAIN
        },
        ..ANSWERED
    },
    // The replies are 3,145,796 bytes in all.
    Session {
        shows: "the longest request, and three gets of it in one piece",
        input: &[
            Part::Bytes(b"\0\x10\0\0\x0b\x0a\x01b\x12\x01k\x22\xf5\xff\x3f\x0a\xf1\xff\x3f"),
            LONGEST,
            Part::Times(3, GET),
        ],
        channel: Channel {
            pieces: (4096, 4096),
            most: 2_000_000,
            reads: 1000,
            ..PLAIN
        },
        end: ended!(4, 0),
        output: &[
            Part::Bytes(STORED),
            Part::Bytes(SHOWN_LONGEST),
            LONGEST,
            Part::Bytes(FIRST_DOT),
            Part::Bytes(SHOWN_LONGEST),
            LONGEST,
            Part::Bytes(FIRST_DOT),
            Part::Bytes(SHOWN_LONGEST),
            LONGEST,
            Part::Bytes(FIRST_DOT),
        ],
        ..EMPTY
    },
];

#[test]
fn a_connection_is_a_session(rt: HostRuntime) {
    for row in EITHER_WAY {
        assert!(rt; is_carried(rt.alloc(), row), "{}", row.shows);
        assert!(rt;
            goes(rt.alloc(), row),
            "{}, in a session that waits",
            row.shows
        );
    }
}

/// Streams that would have to wait.
const BLOCKED: &[Session] = &[
    Session {
        shows: "a byte a read, and every second call would wait",
        channel: Channel {
            pieces: (1, 1),
            most: 1,
            troubles: &[
                Trouble::Blocks(Call::Read, 2),
                Trouble::Blocks(Call::Write, 2),
            ],
            ..PLAIN
        },
        ..ANSWERED
    },
    Session {
        shows: "a reply waits for the writer, and then the others and the error behind them",
        input: &[Part::Bytes(&REQUESTS), Part::Bytes(b"\0\0\0\0")],
        channel: Channel {
            most: 4,
            troubles: &[Trouble::Holds(Call::Write, 50)],
            ..PLAIN
        },
        end: Err(SessionFault::BadFrame(3)),
        output: &[Part::Bytes(&REPLIES), Part::Bytes(BAD_FRAME)],
        ..EMPTY
    },
    Session {
        shows: "the writer takes nothing for 20,000 steps, and then all",
        input: &[Part::Times(20_000, PING)],
        channel: Channel {
            pieces: (4096, 4096),
            most: 1000,
            troubles: &[Trouble::Holds(Call::Write, 20_000)],
            ..PLAIN
        },
        end: ended!(20_000, 0),
        output: &[Part::Times(20_000, PONG)],
        ..EMPTY
    },
    Session {
        shows: "long replies are taken one behind the other, in parts",
        input: &[
            Part::Bytes(b"\0\0\x13\x95\x0b\x0a\x01b\x12\x01k\x22\x8b\x27\x0a\x88\x27"),
            Part::Times(5, &[7; 1000]),
            Part::Bytes(b"\0\0\x4e\x2f\x0b\x0a\x01b\x12\x01j\x22\xa4\x9c\x01\x0a\xa0\x9c\x01"),
            Part::Times(20, &[8; 1000]),
            Part::Bytes(GET),
            Part::Bytes(GET_J),
            Part::Bytes(GET),
            Part::Bytes(GET_J),
            Part::Bytes(GET),
        ],
        channel: Channel {
            pieces: (4096, 4096),
            most: 5000,
            troubles: &[Trouble::Holds(Call::Write, 50)],
            ..PLAIN
        },
        end: ended!(7, 0),
        output: &[
            Part::Times(2, STORED),
            Part::Bytes(SHOWN_5_000),
            Part::Times(5, &[7; 1000]),
            Part::Bytes(FIRST_DOT),
            Part::Bytes(SHOWN_20_000),
            Part::Times(20, &[8; 1000]),
            Part::Bytes(SECOND_DOT),
            Part::Bytes(SHOWN_5_000),
            Part::Times(5, &[7; 1000]),
            Part::Bytes(FIRST_DOT),
            Part::Bytes(SHOWN_20_000),
            Part::Times(20, &[8; 1000]),
            Part::Bytes(SECOND_DOT),
            Part::Bytes(SHOWN_5_000),
            Part::Times(5, &[7; 1000]),
            Part::Bytes(FIRST_DOT),
        ],
        ..EMPTY
    },
];

#[test]
fn a_connection_goes_on_where_it_would_wait(rt: HostRuntime) {
    for row in BLOCKED {
        assert!(rt; is_carried(rt.alloc(), row), "{}", row.shows);
    }
}

/// How long the three replies are.
const LENGTHS: [u64; 3] = [5, 5, 33];

/// How many bytes were taken in so many writes, each of one reply's bytes alone and of so many at most; and how many replies whole.
fn taken_in(writes: u64, most: u64) -> (u64, u64) {
    let mut bytes: u64 = 0;
    let mut replies: u64 = 0;
    let mut left = writes;
    for length in LENGTHS {
        let taken = left.saturating_mul(most).min(length);
        left = left.saturating_sub(length.div_ceil(most.max(1)));
        bytes = bytes.saturating_add(taken);
        if taken == length {
            replies = replies.saturating_add(1);
        }
    }
    (bytes, replies)
}

/// Whether the fault counts the replies that were taken whole where the writer fails at this write, behind 50 at which it would have to wait.
fn fails_at(alloc: Global, most: u64, write: u64) -> bool {
    let (taken, replies) = taken_in(write, most);
    let troubles = [
        Trouble::Holds(Call::Write, 50),
        Trouble::Fails(Call::Write, write.saturating_add(50)),
    ];
    let carried = Carried {
        input: &REQUESTS,
        output: &REPLIES,
        channel: Channel {
            pieces: (8, 8),
            most: most as usize,
            reads: 100,
            troubles: &troubles,
        },
        end: Err(SessionFault::WriteFailed(replies)),
        left: 43usize.saturating_sub(taken as usize),
    };
    comes_so(alloc, &carried)
}

#[test]
fn a_writer_that_fails_has_taken_so_many_replies(rt: HostRuntime) {
    for most in 1..=8u64 {
        for write in 0..(42 / most).saturating_add(1) {
            assert!(rt;
                fails_at(rt.alloc(), most, write),
                "write {write} of {most} bytes"
            );
        }
    }
}

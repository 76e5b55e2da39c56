//! Contexts in puts, and how many siblings a key may have.

use crate::tests::exchange::{Asks, Exchange, PLAIN_NODE, PUTS_V_AND_W, Repeats, Turn, run_all};
use crate::tests::frames::{
    ABSENT, BAD_CONTEXT, CLOCK_FULL, GET, PUT_V, PUT_W, PUT_X_AHEAD, PUT_X_BY_SECOND_EPOCH,
    PUT_X_FALLING, PUT_X_OVER_V, PUT_X_OVER_V_AS_SHOWN, PUT_X_SHORT, PUT_X_WITHOUT_ENTRY, SHOWN_V,
    SHOWN_W_V, SHOWN_X_W, STORED, TOO_MANY_SIBLINGS,
};
use crate::tests::sessions::{EMPTY, Part, Session, ended, goes};
use crate::tests::streams::{Channel, PLAIN};

/// 64 puts fill a key, and one more is refused.
const FILLS: &[Turn] = &[Repeats(64, PUT_V, STORED), Asks(PUT_V, TOO_MANY_SIBLINGS)];

const CONTEXTS: &[Exchange] = &[
    Exchange {
        shows: "blind puts make siblings",
        turns: &[
            Asks(GET, ABSENT),
            Asks(PUT_V, STORED),
            Asks(GET, SHOWN_V),
            Asks(PUT_W, STORED),
            Asks(GET, SHOWN_W_V),
        ],
        ..PLAIN_NODE
    },
    // "v" and "w" are written, and then "x" by one who had seen "v" alone: "v" goes, and "w" stays.
    Exchange {
        shows: "an old context covers what it had seen",
        begin: PUTS_V_AND_W,
        turns: &[Asks(PUT_X_OVER_V, STORED), Asks(GET, SHOWN_X_W)],
        ..PLAIN_NODE
    },
    // The same by the context as it was shown.
    Exchange {
        shows: "a context of version 2 covers what it had seen",
        begin: PUTS_V_AND_W,
        turns: &[Asks(PUT_X_OVER_V_AS_SHOWN, STORED), Asks(GET, SHOWN_X_W)],
        ..PLAIN_NODE
    },
    // "x" over "v" by version 1; "y" over "x" and "w" by version 2; then "w" over "y" by version 1.
    Exchange {
        shows: "one session mixes both versions",
        begin: PUTS_V_AND_W,
        turns: &[
            Asks(PUT_X_OVER_V, STORED),
            Asks(GET, SHOWN_X_W),
            Asks(
                b"\0\0\0\x23\x0b\x0a\x01b\x12\x01k\x1a\x15\x02\0\0\0\0\0\x01\0\0\0\0\0\x01\0\0\0\0\0\0\0\x03\x22\x03\x0a\x01y",
                STORED,
            ),
            Asks(
                GET,
                b"\0\0\0\x1d\x0a\x0a\x03\x0a\x01y\x12\x15\x02\0\0\0\0\0\x01\0\0\0\0\0\x01\0\0\0\0\0\0\0\x04",
            ),
            Asks(
                b"\0\0\0\x1f\x0b\x0a\x01b\x12\x01k\x1a\x11\x01\0\0\0\0\0\x01\0\0\0\0\0\x01\0\0\0\x04\x22\x03\x0a\x01w",
                STORED,
            ),
            Asks(
                GET,
                b"\0\0\0\x1d\x0a\x0a\x03\x0a\x01w\x12\x15\x02\0\0\0\0\0\x01\0\0\0\0\0\x01\0\0\0\0\0\0\0\x05",
            ),
        ],
        ..PLAIN_NODE
    },
    Exchange {
        shows: "a key has at most 64 siblings",
        begin: FILLS,
        turns: &[Asks(PUT_W, TOO_MANY_SIBLINGS)],
        ..PLAIN_NODE
    },
    // 64 puts without context fill a key; one more is refused, and a put that has seen them all leaves one sibling.
    Exchange {
        shows: "a context of all leaves one",
        begin: FILLS,
        turns: &[
            Asks(
                b"\0\0\0\x1f\x0b\x0a\x01b\x12\x01k\x1a\x11\x01\0\0\0\0\0\x01\0\0\0\0\0\x01\0\0\0@\x22\x03\x0a\x01w",
                STORED,
            ),
            Asks(
                GET,
                b"\0\0\0\x1d\x0a\x0a\x03\x0a\x01w\x12\x15\x02\0\0\0\0\0\x01\0\0\0\0\0\x01\0\0\0\0\0\0\0A",
            ),
        ],
        ..PLAIN_NODE
    },
    // A context that isn't of the form, or names dots that weren't given, is refused, and nothing has changed; and once
    // another key has the second epoch, a context of it covers nothing here.
    Exchange {
        shows: "bad contexts are refused",
        turns: &[
            Asks(PUT_V, STORED),
            // The counter runs ahead.
            Asks(PUT_X_AHEAD, BAD_CONTEXT),
            // No key has this epoch yet.
            Asks(PUT_X_BY_SECOND_EPOCH, BAD_CONTEXT),
            // The actors don't rise.
            Asks(PUT_X_FALLING, BAD_CONTEXT),
            // No entry, and an entry of version 1 as one of version 2, which is short by four bytes.
            Asks(PUT_X_WITHOUT_ENTRY, BAD_CONTEXT),
            Asks(PUT_X_SHORT, BAD_CONTEXT),
            // Of version 2 the counter runs ahead: by one, and by 2 to the 32.
            Asks(
                b"\0\0\0\x23\x0b\x0a\x01b\x12\x01k\x1a\x15\x02\0\0\0\0\0\x01\0\0\0\0\0\x01\0\0\0\0\0\0\0\x02\x22\x03\x0a\x01x",
                BAD_CONTEXT,
            ),
            Asks(
                b"\0\0\0\x23\x0b\x0a\x01b\x12\x01k\x1a\x15\x02\0\0\0\0\0\x01\0\0\0\0\0\x01\0\0\0\x01\0\0\0\x01\x22\x03\x0a\x01x",
                BAD_CONTEXT,
            ),
            // Its actors don't rise, and no entry.
            Asks(
                b"\0\0\0\x37\x0b\x0a\x01b\x12\x01k\x1a\x29\x02\0\0\0\0\0\x01\0\0\0\0\0\x01\0\0\0\0\0\0\0\x01\0\0\0\0\0\x01\0\0\0\0\0\x01\0\0\0\0\0\0\0\x01\x22\x03\x0a\x01x",
                BAD_CONTEXT,
            ),
            Asks(
                b"\0\0\0\x0f\x0b\x0a\x01b\x12\x01k\x1a\x01\x02\x22\x03\x0a\x01x",
                BAD_CONTEXT,
            ),
            Asks(b"\0\0\0\x0c\x0b\x0a\x01b\x12\x01j\x22\x03\x0a\x01v", STORED),
            Asks(PUT_X_BY_SECOND_EPOCH, STORED),
            Asks(
                GET,
                b"\0\0\06\x0a\x0a\x03\x0a\x01x\x0a\x03\x0a\x01v\x12)\x02\0\0\0\0\0\x01\0\0\0\0\0\x01\0\0\0\0\0\0\0\x02\0\0\0\0\0\x01\0\0\0\0\0\x02\0\0\0\0\0\0\0\x01",
            ),
        ],
        ..PLAIN_NODE
    },
];

/// The counter of each entry in a context of many, of version 1 and of version 2.
const ONE: &[u8] = b"\0\0\0\x01";

const WIDE_ONE: &[u8] = b"\0\0\0\0\0\0\0\x01";

const LONG_PIECES: Channel<'static> = Channel {
    pieces: (500, 500),
    most: 500,
    ..PLAIN
};

/// A get's reply that shows 64 siblings: what stands before them, each of them, and their context.
const BEFORE_SIBLINGS: &[u8] = b"\0\0\x01X\x0a";

const SIBLING_V: &[u8] = b"\x0a\x03\x0a\x01v";

const BEHIND_SIBLINGS: &[u8] = b"\x12\x15\x02\0\0\0\0\0\x01\0\0\0\0\0\x01\0\0\0\0\0\0\0@";

/// As many siblings of b/k as a key may have; puts of "v" on it behind contexts of another vnode's actors; and gets.
const CROWDS: &[Session] = &[
    Session {
        shows: "a put too many leaves the siblings as they were",
        input: &[
            Part::Times(64, PUT_V),
            Part::Bytes(GET),
            Part::Bytes(PUT_V),
            Part::Bytes(GET),
        ],
        channel: LONG_PIECES,
        end: ended!(67, 0),
        output: &[
            Part::Times(64, STORED),
            Part::Bytes(BEFORE_SIBLINGS),
            Part::Times(64, SIBLING_V),
            Part::Bytes(BEHIND_SIBLINGS),
            Part::Bytes(TOO_MANY_SIBLINGS),
            Part::Bytes(BEFORE_SIBLINGS),
            Part::Times(64, SIBLING_V),
            Part::Bytes(BEHIND_SIBLINGS),
        ],
        ..EMPTY
    },
    // The put after it has the first epoch.
    Session {
        shows: "with 64 actors of its context and its own a clock is full, and takes no epoch",
        input: &[
            Part::Bytes(b"\0\0\x04\x10\x0b\x0a\x01b\x12\x01k\x1a\x81\x08\x01"),
            Part::Entries(64, ONE),
            Part::Bytes(b"\x22\x03\x0a\x01v"),
            Part::Bytes(GET),
            Part::Bytes(PUT_V),
            Part::Bytes(GET),
        ],
        channel: LONG_PIECES,
        end: ended!(4, 0),
        output: &[
            Part::Bytes(CLOCK_FULL),
            Part::Bytes(ABSENT),
            Part::Bytes(STORED),
            Part::Bytes(SHOWN_V),
        ],
        ..EMPTY
    },
    Session {
        shows: "63 actors of a context and its own are a clock, whose first epoch is 1",
        input: &[
            Part::Bytes(b"\0\0\x04\0\x0b\x0a\x01b\x12\x01k\x1a\xf1\x07\x01"),
            Part::Entries(63, ONE),
            Part::Bytes(b"\x22\x03\x0a\x01v"),
            Part::Bytes(GET),
        ],
        channel: LONG_PIECES,
        end: ended!(2, 0),
        output: &[
            Part::Bytes(STORED),
            Part::Bytes(
                b"\0\0\x05\x0a\x0a\x0a\x03\x0a\x01v\x12\x81\x0a\x02\0\0\0\0\0\x01\0\0\0\0\0\x01\0\0\0\0\0\0\0\x01",
            ),
            Part::Entries(63, WIDE_ONE),
        ],
        ..EMPTY
    },
    Session {
        shows: "65 entries are no context",
        input: &[
            Part::Bytes(b"\0\0\x04\x20\x0b\x0a\x01b\x12\x01k\x1a\x91\x08\x01"),
            Part::Entries(65, ONE),
            Part::Bytes(b"\x22\x03\x0a\x01v"),
            Part::Bytes(GET),
            Part::Bytes(PUT_V),
            Part::Bytes(GET),
        ],
        channel: LONG_PIECES,
        end: ended!(4, 0),
        output: &[
            Part::Bytes(BAD_CONTEXT),
            Part::Bytes(ABSENT),
            Part::Bytes(STORED),
            Part::Bytes(SHOWN_V),
        ],
        ..EMPTY
    },
    Session {
        shows: "a context of 64 wide entries is one, and leaves no room for the own actor",
        input: &[
            Part::Bytes(b"\0\0\x05\x10\x0b\x0a\x01b\x12\x01k\x1a\x81\x0a\x02"),
            Part::Entries(64, WIDE_ONE),
            Part::Bytes(b"\x22\x03\x0a\x01v"),
            Part::Bytes(PUT_V),
            Part::Bytes(GET),
        ],
        channel: LONG_PIECES,
        end: ended!(3, 0),
        output: &[
            Part::Bytes(CLOCK_FULL),
            Part::Bytes(STORED),
            Part::Bytes(SHOWN_V),
        ],
        ..EMPTY
    },
    Session {
        shows: "65 wide entries are no context",
        input: &[
            Part::Bytes(b"\0\0\x05\x24\x0b\x0a\x01b\x12\x01k\x1a\x95\x0a\x02"),
            Part::Entries(65, WIDE_ONE),
            Part::Bytes(b"\x22\x03\x0a\x01v"),
            Part::Bytes(PUT_V),
            Part::Bytes(GET),
        ],
        channel: LONG_PIECES,
        end: ended!(3, 0),
        output: &[
            Part::Bytes(BAD_CONTEXT),
            Part::Bytes(STORED),
            Part::Bytes(SHOWN_V),
        ],
        ..EMPTY
    },
];

#[test]
fn a_clock_has_64_actors_and_a_key_64_siblings_at_most(rt: HostRuntime) {
    for row in CROWDS {
        assert!(rt; goes(rt.alloc(), row), "{}", row.shows);
    }
}

#[test]
fn contexts_cover_what_they_have_seen(rt: HostRuntime) {
    run_all(&rt, rt.alloc(), CONTEXTS);
}

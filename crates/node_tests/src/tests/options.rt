//! Options of gets and puts, and deletes with a context.

use crate::tests::exchange::{Asks, Exchange, PLAIN_NODE, PUTS_V_AND_W, run_all};
use crate::tests::frames::{
    BAD_CONTEXT, DELETE, DELETE_V, DELETED, GET, GET_HEAD, GET_IF_MODIFIED, MATCH_FOUND, MODIFIED,
    NOT_FOUND, PUT_E_IF_V, PUT_Q_IF_V, PUT_V, PUT_V_FOR_BODY, SHOWN_V, STORED,
};

/// A put's reply that shows "v" with its own dot.
const STORED_V: &[u8] =
    b"\0\0\0\x1d\x0c\x0a\x03\x0a\x01v\x12\x15\x02\0\0\0\0\0\x01\0\0\0\0\0\x01\0\0\0\0\0\0\0\x01";

const OPTIONS: &[Exchange] = &[
    Exchange {
        shows: "return_body shows the own dot",
        turns: &[Asks(PUT_V_FOR_BODY, STORED_V)],
        ..PLAIN_NODE
    },
    Exchange {
        shows: "return_body goes before return_head",
        turns: &[Asks(
            b"\0\0\0\x10\x0b\x0a\x01b\x12\x01k\x22\x03\x0a\x01v8\x01X\x01",
            STORED_V,
        )],
        ..PLAIN_NODE
    },
    // "v" is deleted by one who has not seen "w".
    Exchange {
        shows: "a tombstone is shown beside a write",
        begin: PUTS_V_AND_W,
        turns: &[
            Asks(DELETE_V, DELETED),
            Asks(
                GET,
                b"\0\0\0#\x0a\x0a\x04\x0a\0X\x01\x0a\x03\x0a\x01w\x12\x15\x02\0\0\0\0\0\x01\0\0\0\0\0\x01\0\0\0\0\0\0\0\x03",
            ),
        ],
        ..PLAIN_NODE
    },
    Exchange {
        shows: "a get may ask for less: for what was modified, or for the head alone",
        turns: &[
            Asks(PUT_V, STORED),
            Asks(GET_IF_MODIFIED, b"\0\0\0\x03\x0a\x18\x01"),
            // The same by version 2, and one whose counter is greater by 2 to the 32.
            Asks(
                b"\0\0\0\x1e\x09\x0a\x01b\x12\x01k:\x15\x02\0\0\0\0\0\x01\0\0\0\0\0\x01\0\0\0\0\0\0\0\x01",
                b"\0\0\0\x03\x0a\x18\x01",
            ),
            Asks(
                b"\0\0\0\x1e\x09\x0a\x01b\x12\x01k:\x15\x02\0\0\0\0\0\x01\0\0\0\0\0\x01\0\0\0\x01\0\0\0\x01",
                SHOWN_V,
            ),
            Asks(
                GET_HEAD,
                b"\0\0\0\x1c\x0a\x0a\x02\x0a\0\x12\x15\x02\0\0\0\0\0\x01\0\0\0\0\0\x01\0\0\0\0\0\0\0\x01",
            ),
        ],
        ..PLAIN_NODE
    },
    // An epoch that wasn't given is refused, and a delete of an absent key without context takes none: the put after it
    // begins the first life.
    Exchange {
        shows: "a delete of an absent key takes no epoch",
        turns: &[
            Asks(DELETE_V, BAD_CONTEXT),
            Asks(DELETE, DELETED),
            Asks(PUT_V, STORED),
            Asks(GET, SHOWN_V),
        ],
        ..PLAIN_NODE
    },
    // It is refused where another write came since, or no value is there; one that wants no value either is judged by that
    // alone.
    Exchange {
        shows: "a put may want the key unchanged",
        begin: PUTS_V_AND_W,
        turns: &[
            Asks(PUT_E_IF_V, MODIFIED),
            Asks(PUT_Q_IF_V, NOT_FOUND),
            Asks(
                b"\0\0\0\x10\x0b\x0a\x01b\x12\x01k\x22\x03\x0a\x01eH\x01P\x01",
                MATCH_FOUND,
            ),
        ],
        ..PLAIN_NODE
    },
    // By version 1, and then by version 2.
    Exchange {
        shows: "a put wants the key unchanged by a context of either version",
        turns: &[
            Asks(PUT_V, STORED),
            Asks(PUT_E_IF_V, STORED),
            Asks(
                b"\0\0\0\x25\x0b\x0a\x01b\x12\x01k\x1a\x15\x02\0\0\0\0\0\x01\0\0\0\0\0\x01\0\0\0\0\0\0\0\x01\x22\x03\x0a\x01eH\x01",
                MODIFIED,
            ),
            Asks(
                b"\0\0\0\x25\x0b\x0a\x01b\x12\x01k\x1a\x15\x02\0\0\0\0\0\x01\0\0\0\0\0\x01\0\0\0\0\0\0\0\x02\x22\x03\x0a\x01eH\x01",
                STORED,
            ),
        ],
        ..PLAIN_NODE
    },
];

#[test]
fn options_are_followed(rt: HostRuntime) {
    run_all(&rt, rt.alloc(), OPTIONS);
}

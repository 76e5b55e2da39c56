//! Messages in encodings that a client of another make may choose, and those that are no requests.

use crate::tests::exchange::{Asks, Exchange, PLAIN_NODE, run_all};
use crate::tests::frames::{
    ABSENT, BAD_MESSAGE, EMPTY_NAME, GET, GET_BUCKET_TWICE, GET_LONG_LENGTH, GET_LONG_VARINT,
    GET_UNKNOWN_FIELD, MISSING_FIELD, PING, PONG, PUT_V, PUT_V_TWICE, SHOWN_V, STORED, UNKNOWN,
    UNKNOWN_CODE,
};

const MESSAGES: &[Exchange] = &[
    // The bucket twice, of which the last counts; an unknown field 99; a length in two bytes; a key before its bucket. A varint of eleven bytes is none.
    Exchange {
        shows: "a get may be encoded otherwise",
        turns: &[
            Asks(PUT_V, STORED),
            Asks(GET_BUCKET_TWICE, SHOWN_V),
            Asks(GET_UNKNOWN_FIELD, SHOWN_V),
            Asks(GET_LONG_LENGTH, SHOWN_V),
            Asks(b"\0\0\0\x07\x09\x12\x01k\x0a\x01b", SHOWN_V),
            Asks(GET_LONG_VARINT, BAD_MESSAGE),
            Asks(GET, SHOWN_V),
        ],
        ..PLAIN_NODE
    },
    // A value in the first occurrence, its content type in the second.
    Exchange {
        shows: "a content in two pieces is one",
        turns: &[
            Asks(PUT_V_TWICE, STORED),
            Asks(
                GET,
                b"\0\0\0 \x0a\x0a\x06\x0a\x01v\x12\x01t\x12\x15\x02\0\0\0\0\0\x01\0\0\0\0\0\x01\0\0\0\0\0\0\0\x01",
            ),
        ],
        ..PLAIN_NODE
    },
    // A message of no code, a varint of eleven bytes, a get that ends within its key, a content that ends before its value,
    // and a field of wire type 3; then a content without value, and an empty bucket. None of them stores anything.
    Exchange {
        shows: "other messages get errors",
        turns: &[
            Asks(UNKNOWN, UNKNOWN_CODE),
            Asks(GET_LONG_VARINT, BAD_MESSAGE),
            Asks(b"\0\0\0\x06\x09\x0a\x01b\x12\x01", BAD_MESSAGE),
            Asks(
                b"\0\0\0\x0b\x0b\x0a\x01b\x12\x01k\x22\x03\x0a\x01",
                BAD_MESSAGE,
            ),
            Asks(b"\0\0\0\x09\x09\x0a\x01b\x12\x01k\x9b\x06", BAD_MESSAGE),
            Asks(b"\0\0\0\x09\x0b\x0a\x01b\x12\x01k\x22\0", MISSING_FIELD),
            Asks(b"\0\0\0\x06\x09\x0a\0\x12\x01k", EMPTY_NAME),
            Asks(PING, PONG),
            Asks(GET, ABSENT),
        ],
        ..PLAIN_NODE
    },
];

#[test]
fn messages_are_read_as_they_are_encoded(rt: HostRuntime) {
    run_all(&rt, rt.alloc(), MESSAGES);
}

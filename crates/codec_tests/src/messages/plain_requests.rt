//! Requests in the one encoding that most clients write, and ones that differ from it in one thing.

use crate::messages::contents::{ContentRow, V};
use crate::messages::reading::Asked::{Del, Get, Put};
use crate::messages::reading::{DEFAULT, Read, reads};
use riak_msgs::plain_get_names;

/// A value of 130 bytes alone.
const LONG: ContentRow = ContentRow {
    value: &[b'z'; 130],
    ..V
};

/// The value v with a type, a character set and an encoding.
const LABELED: ContentRow = ContentRow {
    content_type: Some(b"t"),
    charset: Some(b"c"),
    content_encoding: Some(b"e"),
    ..V
};

/// Each is read as any other message is, whether it is read straight or scanned.
const PLAIN: &[Read] = &[
    Read {
        shows: "a value of 130 bytes, whose length and whose content's have two bytes",
        code: 11,
        body: b"\x0a\x01b\x12\x01k\x22\x85\x01\x0a\x82\x01zzzzzzzzzzzzzzzzzzzzzzzzzzzzzzzzzzzzzzzzzzzzzzzzzzzzzzzzzzzzzzzzzzzzzzzzzzzzzzzzzzzzzzzzzzzzzzzzzzzzzzzzzzzzzzzzzzzzzzzzzzzzzzzzzz",
        asked: Put(DEFAULT, b"", LONG, &[]),
    },
    Read {
        shows: "a content's length with a byte more than it needs",
        code: 11,
        body: b"\x0a\x01b\x12\x01k\x22\x83\x00\x0a\x01v",
        asked: Put(DEFAULT, b"", V, &[]),
    },
    Read {
        shows: "a value's length with a byte more than it needs",
        code: 11,
        body: b"\x0a\x01b\x12\x01k\x22\x04\x0a\x81\x00v",
        asked: Put(DEFAULT, b"", V, &[]),
    },
    Read {
        shows: "a value's key with a byte more than it needs",
        code: 11,
        body: b"\x0a\x01b\x12\x01k\x22\x04\x8a\x00\x01v",
        asked: Put(DEFAULT, b"", V, &[]),
    },
    Read {
        shows: "a content of a value, a type, a character set and an encoding, in their order",
        code: 11,
        body: b"\x0a\x01b\x12\x01k\x22\x0c\x0a\x01v\x12\x01t\x1a\x01c\x22\x01e",
        asked: Put(DEFAULT, b"", LABELED, &[]),
    },
    Read {
        shows: "the same in another order",
        code: 11,
        body: b"\x0a\x01b\x12\x01k\x22\x0c\x22\x01e\x12\x01t\x0a\x01v\x1a\x01c",
        asked: Put(DEFAULT, b"", LABELED, &[]),
    },
    Read {
        shows: "the same with its type twice, of which the last counts",
        code: 11,
        body: b"\x0a\x01b\x12\x01k\x22\x0f\x0a\x01v\x12\x01x\x12\x01t\x1a\x01c\x22\x01e",
        asked: Put(DEFAULT, b"", LABELED, &[]),
    },
    Read {
        shows: "a content with two values, of which the last counts",
        code: 11,
        body: b"\x0a\x01b\x12\x01k\x22\x06\x0a\x01x\x0a\x01v",
        asked: Put(DEFAULT, b"", V, &[]),
    },
    Read {
        shows: "a content with a tag and a time that aren't kept",
        code: 11,
        body: b"\x0a\x01b\x12\x01k\x22\x08\x0a\x01v*\x01t8\x05",
        asked: Put(DEFAULT, b"", V, &[]),
    },
    Read {
        shows: "a context behind the content",
        code: 11,
        body: b"\x0a\x01b\x12\x01k\x22\x03\x0a\x01v\x1a\x01c",
        asked: Put(DEFAULT, b"c", V, &[]),
    },
    Read {
        shows: "a context of no bytes before the content",
        code: 11,
        body: b"\x0a\x01b\x12\x01k\x1a\x00\x22\x03\x0a\x01v",
        asked: Put(DEFAULT, b"", V, &[]),
    },
    Read {
        shows: "options of a put in their order",
        code: 11,
        body: b"\x0a\x01b\x12\x01k\x22\x03\x0a\x01v8\x01H\x01P\x01X\x01",
        asked: Put(DEFAULT, b"", V, &[7, 9, 10, 11]),
    },
    Read {
        shows: "options of a put in another order",
        code: 11,
        body: b"\x0a\x01b\x12\x01k\x22\x03\x0a\x01vX\x018\x01",
        asked: Put(DEFAULT, b"", V, &[7, 11]),
    },
    Read {
        shows: "an option of a put that is false",
        code: 11,
        body: b"\x0a\x01b\x12\x01k\x22\x03\x0a\x01v8\x00",
        asked: Put(DEFAULT, b"", V, &[]),
    },
    Read {
        shows: "an option of a put that is 2",
        code: 11,
        body: b"\x0a\x01b\x12\x01k\x22\x03\x0a\x01v8\x02",
        asked: Put(DEFAULT, b"", V, &[7]),
    },
    Read {
        shows: "an option of a put twice, of which the last counts",
        code: 11,
        body: b"\x0a\x01b\x12\x01k\x22\x03\x0a\x01v8\x018\x00",
        asked: Put(DEFAULT, b"", V, &[]),
    },
    Read {
        shows: "a put of a type behind its options",
        code: 11,
        body: b"\x0a\x01b\x12\x01k\x22\x03\x0a\x01vX\x01\x82\x01\x01t",
        asked: Put(b"t", b"", V, &[11]),
    },
    Read {
        shows: "options of a get in their order",
        code: 9,
        body: b"\x0a\x01b\x12\x01k:\x01c@\x01H\x01",
        asked: Get(DEFAULT, b"c", &[8, 9]),
    },
    Read {
        shows: "options of a get in another order",
        code: 9,
        body: b"\x0a\x01b\x12\x01kH\x01:\x01c",
        asked: Get(DEFAULT, b"c", &[9]),
    },
    Read {
        shows: "an option of a get that is 2, behind the names",
        code: 9,
        body: b"\x0a\x01b\x12\x01k@\x02",
        asked: Get(DEFAULT, b"", &[8]),
    },
    Read {
        shows: "a delete's context twice, of which the last counts",
        code: 13,
        body: b"\x0a\x01b\x12\x01k\x22\x01d\x22\x01c",
        asked: Del(DEFAULT, b"c"),
    },
    Read {
        shows: "a delete's context whose length has a byte more than it needs",
        code: 13,
        body: b"\x0a\x01b\x12\x01k\x22\x81\x00c",
        asked: Del(DEFAULT, b"c"),
    },
];

#[test]
fn plain_requests_and_those_beside_them(rt: HostRuntime) {
    for row in PLAIN {
        assert!(rt; reads(rt.alloc(), row), "{}", row.shows);
    }
}

/// The body of a get, and its bucket and key where it is plain.
struct PlainGet {
    shows: &'static str,
    body: &'static [u8],
    names: Option<(&'static [u8], &'static [u8])>,
}

const GETS: &[PlainGet] = &[
    PlainGet {
        shows: "a bucket and a key",
        body: b"\x0a\x02bu\x12\x03key",
        names: Some((b"bu", b"key")),
    },
    PlainGet {
        shows: "an option behind them",
        body: b"\x0a\x01b\x12\x01k@\x01",
        names: None,
    },
    PlainGet {
        shows: "the default type behind them",
        body: b"\x0a\x01b\x12\x01kj\x07default",
        names: None,
    },
    PlainGet {
        shows: "the key before the bucket",
        body: b"\x12\x01k\x0a\x01b",
        names: None,
    },
    PlainGet {
        shows: "a length with a byte more than it needs",
        body: b"\x0a\x81\x00b\x12\x01k",
        names: None,
    },
    PlainGet {
        shows: "a key of no bytes",
        body: b"\x0a\x01b\x12\x00",
        names: None,
    },
    PlainGet {
        shows: "a key that isn't whole",
        body: b"\x0a\x01b\x12\x02k",
        names: None,
    },
];

#[test]
fn names_of_plain_gets(rt: HostRuntime) {
    for row in GETS {
        assert!(rt; plain_get_names(row.body) == row.names, "{}", row.shows);
    }
}

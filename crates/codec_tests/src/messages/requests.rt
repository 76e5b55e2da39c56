//! Requests, as this node reads them.

use crate::messages::contents::{ContentRow, V};
use crate::messages::reading::Asked::{Del, Get, Ping, Put};
use crate::messages::reading::{DEFAULT, Read, reads};
use crate::messages::*;

/// The value x alone.
const X: ContentRow = ContentRow { value: b"x", ..V };

/// The value z alone.
const Z: ContentRow = ContentRow { value: b"z", ..V };

/// The value v of the content type t.
const V_OF_TYPE: ContentRow = ContentRow {
    content_type: Some(b"t"),
    ..V
};

/// The value w, a link to the key j, and the pairs m and n, of which only the first has a value.
const MERGED: ContentRow = ContentRow {
    value: b"w",
    links: &[(None, Some(b"j"), None)],
    usermeta: &[(b"m", Some(b"")), (b"n", None)],
    ..V
};

/// Content first, an empty context, quorum and timeout fields, the type behind a key of two bytes, and the bucket.
const PUT_WITH_QUORUM: &[u8] =
    b"\x22\x03\x0a\x01v\x1a\0\x12\x01k\x28\x01\x30\x01\x40\x01\x60\x01\x68\x01\x70\x01\x78\x01\x82\x01\x01t\x0a\x01b";

/// A content of two occurrences.
const PUT_TWICE: &[u8] =
    b"\x0a\x01b\x12\x01k\x22\x0a\x0a\x01v\x4a\x05\x0a\x01m\x12\0\x22\x0d\x0a\x01w\x4a\x03\x0a\x01n\x32\x03\x12\x01j";

/// A content whose two occurrences have links, pairs of metadata and of indexes in no order of their numbers.
const PUT_OF_MIXED_PARTS: &[u8] =
    b"\x0a\x01b\x12\x01k\x22\x0d\x0a\x01v\x4a\x03\x0a\x01m\x32\x03\x12\x01j\x22\x11\x52\x05\x0a\x01i\x12\0\x32\x03\x0a\x01c\x4a\x03\x0a\x01n";

/// The links and pairs of both, each kind in its order.
const MIXED_PARTS: ContentRow = ContentRow {
    links: &[(None, Some(b"j"), None), (Some(b"c"), None, None)],
    usermeta: &[(b"m", None), (b"n", None)],
    indexes: &[(b"i", Some(b""))],
    ..V
};

/// The value v with a link to the key j.
const LINKED: ContentRow = ContentRow {
    links: &[(None, Some(b"j"), None)],
    ..V
};

/// The value v with the pair y, 2.
const PAIRED: ContentRow = ContentRow {
    usermeta: &[(b"y", Some(b"2"))],
    ..V
};

/// The value v with a link of no fields, and pairs whose keys have no bytes.
const EMPTY_PARTS: ContentRow = ContentRow {
    links: &[(None, None, None), (None, None, None)],
    usermeta: &[(b"", None)],
    indexes: &[(b"", None)],
    ..V
};

/// Pings, gets and their options, puts and theirs, and deletes.
const REQUESTS: &[Read] = &[
    Read {
        shows: "a ping",
        code: 1,
        body: b"",
        asked: Ping,
    },
    Read {
        shows: "a ping's body is not looked at",
        code: 1,
        body: b"\xff\x00",
        asked: Ping,
    },
    Read {
        shows: "a get of the names alone",
        code: 9,
        body: NAMES,
        asked: Get(DEFAULT, b"", &[]),
    },
    Read {
        shows: "the bucket of a get twice, of which the last counts",
        code: 9,
        body: b"\x0a\x01a\x0a\x01b\x12\x01k",
        asked: Get(DEFAULT, b"", &[]),
    },
    Read {
        shows: "an unknown field 99 of a get",
        code: 9,
        body: b"\x0a\x01b\x12\x01k\x98\x06\x05",
        asked: Get(DEFAULT, b"", &[]),
    },
    Read {
        shows: "a length of a get in two bytes",
        code: 9,
        body: b"\x0a\x81\x00b\x12\x01k",
        asked: Get(DEFAULT, b"", &[]),
    },
    Read {
        shows: "the fields of a get in another order",
        code: 9,
        body: b"\x12\x01k\x0a\x01b",
        asked: Get(DEFAULT, b"", &[]),
    },
    Read {
        shows: "quorum and timeout fields have no effect on a get",
        code: 9,
        body: b"\x0a\x01b\x12\x01k\x18\x03\x20\x01\x28\x01\x30\x00\x50\x0a\x58\x01\x60\x03",
        asked: Get(DEFAULT, b"", &[]),
    },
    Read {
        shows: "numbers under the names' fields of a get are skipped",
        code: 9,
        body: b"\x0a\x01b\x12\x01k\x08\x05\x15\0\0\0\0",
        asked: Get(DEFAULT, b"", &[]),
    },
    Read {
        shows: "a get of a type",
        code: 9,
        body: b"\x0a\x01b\x12\x01k\x6a\x04maps",
        asked: Get(b"maps", b"", &[]),
    },
    Read {
        shows: "a get with if_modified of two entries, which takes memory",
        code: 9,
        body: b"\x0a\x01b\x12\x01k\x3a\x21\x01\0\0\0\0\0\x01\0\0\0\0\0\x01\0\0\0\x01\0\0\0\0\0\x01\0\x01\0\0\0\x01\0\0\0\x02",
        asked: Get(DEFAULT, CONTEXT_OF_TWO, &[]),
    },
    Read {
        shows: "a get with if_modified alone",
        code: 9,
        body: GET_IF_MODIFIED,
        asked: Get(DEFAULT, CONTEXT, &[]),
    },
    Read {
        shows: "a get with head alone",
        code: 9,
        body: GET_HEAD,
        asked: Get(DEFAULT, b"", &[8]),
    },
    Read {
        shows: "a get with deletedvclock alone",
        code: 9,
        body: GET_DELETED_VCLOCK,
        asked: Get(DEFAULT, b"", &[9]),
    },
    Read {
        shows: "a get with all its options",
        code: 9,
        body: GET_WITH_ALL,
        asked: Get(b"t", b"c", &[8, 9]),
    },
    Read {
        shows: "a bool of 2, before the names",
        code: 9,
        body: b"\x40\x02\x0a\x01b\x12\x01k",
        asked: Get(DEFAULT, b"", &[8]),
    },
    Read {
        shows: "a bool of 256",
        code: 9,
        body: b"\x0a\x01b\x12\x01k\x48\x80\x02",
        asked: Get(DEFAULT, b"", &[9]),
    },
    Read {
        shows: "a bool of a get that is false after a true",
        code: 9,
        body: b"\x0a\x01b\x12\x01k\x40\x01\x40\0",
        asked: Get(DEFAULT, b"", &[]),
    },
    Read {
        shows: "a context of a get of no bytes is none",
        code: 9,
        body: b"\x0a\x01b\x12\x01k\x3a\0",
        asked: Get(DEFAULT, b"", &[]),
    },
    Read {
        shows: "of two contexts of a get the last counts",
        code: 9,
        body: b"\x3a\x01c\x3a\x02de\x0a\x01b\x12\x01k",
        asked: Get(DEFAULT, b"de", &[]),
    },
    Read {
        shows: "numbers of a get with another wire type than their own are skipped",
        code: 9,
        body: b"\x0a\x01b\x12\x01k\x38\x01\x42\x01\x01\x4d\x01\0\0\0",
        asked: Get(DEFAULT, b"", &[]),
    },
    Read {
        shows: "a put of a value",
        code: 11,
        body: PUT,
        asked: Put(DEFAULT, b"", V, &[]),
    },
    Read {
        shows: "a put by a context of two entries, which takes memory",
        code: 11,
        body: b"\x0a\x01b\x12\x01k\x1a\x21\x01\0\0\0\0\0\x01\0\0\0\0\0\x01\0\0\0\x01\0\0\0\0\0\x01\0\x01\0\0\0\x01\0\0\0\x02\x22\x03\x0a\x01x",
        asked: Put(DEFAULT, CONTEXT_OF_TWO, X, &[]),
    },
    Read {
        shows: "a put by a context",
        code: 11,
        body: PUT_AFTER,
        asked: Put(DEFAULT, CONTEXT, X, &[]),
    },
    Read {
        shows: "a put with its content first, an empty context, quorum and timeout fields, a key of two bytes, the bucket last",
        code: 11,
        body: PUT_WITH_QUORUM,
        asked: Put(b"t", b"", V, &[]),
    },
    Read {
        shows: "a content of two occurrences has the value of one and the content type of the other",
        code: 11,
        body: b"\x0a\x01b\x12\x01k\x22\x03\x0a\x01v\x22\x03\x12\x01t",
        asked: Put(DEFAULT, b"", V_OF_TYPE, &[]),
    },
    Read {
        shows: "of a content of two occurrences the later value counts, and links and pairs of both stay, in order",
        code: 11,
        body: PUT_TWICE,
        asked: Put(DEFAULT, b"", MERGED, &[]),
    },
    Read {
        shows: "links and pairs of two occurrences of a content are kept in order, whatever stands between them",
        code: 11,
        body: PUT_OF_MIXED_PARTS,
        asked: Put(DEFAULT, b"", MIXED_PARTS, &[]),
    },
    Read {
        shows: "of a pair's keys and values the last counts",
        code: 11,
        body: b"\x0a\x01b\x12\x01k\x22\x11\x0a\x01v\x4a\x0c\x0a\x01x\x12\x011\x0a\x01y\x12\x012",
        asked: Put(DEFAULT, b"", PAIRED, &[]),
    },
    Read {
        shows: "unknown fields of a link, and a number under its bucket's, are skipped",
        code: 11,
        body: b"\x0a\x01b\x12\x01k\x22\x0f\x0a\x01v\x32\x0a\x20\x05\x12\x01j\x22\x01z\x08\x01",
        asked: Put(DEFAULT, b"", LINKED, &[]),
    },
    Read {
        shows: "a link whose key and lengths have more bytes than they need",
        code: 11,
        body: b"\x0a\x01b\x12\x01k\x22\x8b\0\x0a\x01v\xb2\0\x84\0\x12\x81\0j",
        asked: Put(DEFAULT, b"", LINKED, &[]),
    },
    Read {
        shows: "links of no fields, and pairs whose keys have no bytes",
        code: 11,
        body: b"\x0a\x01b\x12\x01k\x22\x0f\x32\0\x0a\x01v\x52\x02\x0a\0\x4a\x02\x0a\0\x32\0",
        asked: Put(DEFAULT, b"", EMPTY_PARTS, &[]),
    },
    Read {
        shows: "a put without options",
        code: 11,
        body: PUT,
        asked: Put(DEFAULT, b"", V, &[]),
    },
    Read {
        shows: "a put with return_body alone",
        code: 11,
        body: PUT_RETURN_BODY,
        asked: Put(DEFAULT, b"", V, &[7]),
    },
    Read {
        shows: "a put with if_not_modified alone",
        code: 11,
        body: PUT_IF_NOT_MODIFIED,
        asked: Put(DEFAULT, b"", V, &[9]),
    },
    Read {
        shows: "a put with if_none_match alone",
        code: 11,
        body: PUT_IF_NONE_MATCH,
        asked: Put(DEFAULT, b"", Z, &[10]),
    },
    Read {
        shows: "a put with return_head alone",
        code: 11,
        body: PUT_RETURN_HEAD,
        asked: Put(DEFAULT, b"", V, &[11]),
    },
    Read {
        shows: "a put with all its options",
        code: 11,
        body: PUT_WITH_ALL,
        asked: Put(b"t", b"c", V, &[7, 9, 10, 11]),
    },
    Read {
        shows: "a bool of a put that is false after a true, and one of 2",
        code: 11,
        body: b"\x50\x01\x50\0\x38\x02\x0a\x01b\x12\x01k\x22\x03\x0a\x01v",
        asked: Put(DEFAULT, b"", V, &[7]),
    },
    Read {
        shows: "the number of pw of a put has no effect",
        code: 11,
        body: b"\x0a\x01b\x12\x01k\x22\x03\x0a\x01v\x40\x01",
        asked: Put(DEFAULT, b"", V, &[]),
    },
    Read {
        shows: "a delete of the names alone",
        code: 13,
        body: NAMES,
        asked: Del(DEFAULT, b""),
    },
    Read {
        shows: "a delete by a context of two entries, which takes memory",
        code: 13,
        body: b"\x0a\x01b\x12\x01k\x22\x21\x01\0\0\0\0\0\x01\0\0\0\0\0\x01\0\0\0\x01\0\0\0\0\0\x01\0\x01\0\0\0\x01\0\0\0\x02",
        asked: Del(DEFAULT, CONTEXT_OF_TWO),
    },
    Read {
        shows: "a delete with the context in field 4",
        code: 13,
        body: DEL_AFTER,
        asked: Del(DEFAULT, CONTEXT),
    },
    Read {
        shows: "quorum and timeout fields have no effect on a delete",
        code: 13,
        body: b"\x0a\x01b\x12\x01k\x18\x03\x28\x01\x30\x01\x38\x01\x40\x01\x48\x01\x50\x0a\x58\x01\x60\x03",
        asked: Del(DEFAULT, b""),
    },
    Read {
        shows: "field 3, where a put has its context, is none of a delete",
        code: 13,
        body: b"\x0a\x01b\x12\x01k\x1a\x01c",
        asked: Del(DEFAULT, b""),
    },
    Read {
        shows: "a context of no bytes of a delete is none, and the last key counts",
        code: 13,
        body: b"\x22\0\x12\x01j\x0a\x01b\x12\x01k",
        asked: Del(DEFAULT, b""),
    },
    Read {
        shows: "a delete of a type",
        code: 13,
        body: b"\x0a\x01b\x12\x01k\x6a\x04maps",
        asked: Del(b"maps", b""),
    },
];

#[test]
fn requests_in_any_encoding(rt: HostRuntime) {
    for row in REQUESTS {
        assert!(rt; reads(rt.alloc(), row), "{}", row.shows);
    }
}

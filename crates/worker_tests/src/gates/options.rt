//! Options of gets and puts, and a bucket type, on a ring of two partitions: b/k and b/q lie in the first, b/k of the type `maps` in the
//! second, by the first bytes 56, 0f and da of their digests as Python's `hashlib` gives them.
use crate::exchanges::NOTHING_COUNTED;
use crate::playing::{NEW_SESSION, Session};
use stats_book::Totals;

/// A put of "v" on b/k; a get with `head`, and one with `if_modified` by the context of "v"; a put of "w" without context; a get with both,
/// by the same context; a delete without context; a get with `deletedvclock`, and one without.
///
/// Stored; no value, with the context of one dot; unchanged; stored; two contents without a value, with the context of two dots; deleted;
/// the context of three dots alone; nothing.
pub const GET_OPTIONS: Session = Session {
    requests: b"\0\0\0\x0c\x0b\x0a\x01b\x12\x01k\x22\x03\x0a\x01v\0\0\0\x09\x09\x0a\x01b\x12\x01k@\x01\0\0\0\x1a\x09\x0a\x01b\x12\x01k:\x11\x01\0\0\0\0\0\x01\0\0\0\0\0\x01\0\0\0\x01\0\0\0\x0c\x0b\x0a\x01b\x12\x01k\x22\x03\x0a\x01w\0\0\0\x1c\x09\x0a\x01b\x12\x01k:\x11\x01\0\0\0\0\0\x01\0\0\0\0\0\x01\0\0\0\x01@\x01\0\0\0\x07\x0d\x0a\x01b\x12\x01k\0\0\0\x09\x09\x0a\x01b\x12\x01kH\x01\0\0\0\x07\x09\x0a\x01b\x12\x01k",
    replies: b"\0\0\0\x01\x0c\0\0\0\x1c\x0a\x0a\x02\x0a\0\x12\x15\x02\0\0\0\0\0\x01\0\0\0\0\0\x01\0\0\0\0\0\0\0\x01\0\0\0\x03\x0a\x18\x01\0\0\0\x01\x0c\0\0\0 \x0a\x0a\x02\x0a\0\x0a\x02\x0a\0\x12\x15\x02\0\0\0\0\0\x01\0\0\0\0\0\x01\0\0\0\0\0\0\0\x02\0\0\0\x01\x0e\0\0\0\x18\x0a\x12\x15\x02\0\0\0\0\0\x01\0\0\0\0\0\x01\0\0\0\0\0\0\0\x03\0\0\0\x01\x0a",
    totals: Totals {
        gets: 5,
        puts: 2,
        deletes: 1,
        ..NOTHING_COUNTED
    },
    ..NEW_SESSION
};

/// A put of "v" on b/k with `return_body`; one of "w" with `return_head`; one of "z" with `if_none_match`; one of "e" with `if_not_modified`
/// by the context of "v", and the same on b/q; and one of "e" on b/k with `return_body` and `if_not_modified` by the context of both.
///
/// "v" with the context of one dot; two contents without a value, with that of two; "match_found"; "modified"; "notfound"; "e" with the
/// context of three dots.
pub const PUT_OPTIONS: Session = Session {
    requests: b"\0\0\0\x0e\x0b\x0a\x01b\x12\x01k\x22\x03\x0a\x01v8\x01\0\0\0\x0e\x0b\x0a\x01b\x12\x01k\x22\x03\x0a\x01wX\x01\0\0\0\x0e\x0b\x0a\x01b\x12\x01k\x22\x03\x0a\x01zP\x01\0\0\0!\x0b\x0a\x01b\x12\x01k\x1a\x11\x01\0\0\0\0\0\x01\0\0\0\0\0\x01\0\0\0\x01\x22\x03\x0a\x01eH\x01\0\0\0!\x0b\x0a\x01b\x12\x01q\x1a\x11\x01\0\0\0\0\0\x01\0\0\0\0\0\x01\0\0\0\x01\x22\x03\x0a\x01eH\x01\0\0\0\x27\x0b\x0a\x01b\x12\x01k\x1a\x15\x02\0\0\0\0\0\x01\0\0\0\0\0\x01\0\0\0\0\0\0\0\x02\x22\x03\x0a\x01e8\x01H\x01",
    replies: b"\0\0\0\x1d\x0c\x0a\x03\x0a\x01v\x12\x15\x02\0\0\0\0\0\x01\0\0\0\0\0\x01\0\0\0\0\0\0\0\x01\0\0\0 \x0c\x0a\x02\x0a\0\x0a\x02\x0a\0\x12\x15\x02\0\0\0\0\0\x01\0\0\0\0\0\x01\0\0\0\0\0\0\0\x02\0\0\0\x10\0\x0a\x0bmatch_found\x10\x01\0\0\0\x0d\0\x0a\x08modified\x10\x01\0\0\0\x0d\0\x0a\x08notfound\x10\x01\0\0\0\x1d\x0c\x0a\x03\x0a\x01e\x12\x15\x02\0\0\0\0\0\x01\0\0\0\0\0\x01\0\0\0\0\0\0\0\x03",
    totals: Totals {
        puts: 3,
        refusals: 3,
        ..NOTHING_COUNTED
    },
    ..NEW_SESSION
};

/// A put of "v" on b/k of the type `maps`; a get of b/k without a type, one with `maps`, and one with `default`; a delete with `maps`, and a
/// get of that.
///
/// Stored; nothing; "v", with the first dot of the vnode 65,537; nothing; deleted; nothing.
pub const BUCKET_TYPES: Session = Session {
    requests: b"\0\0\0\x13\x0b\x0a\x01b\x12\x01k\x22\x03\x0a\x01v\x82\x01\x04maps\0\0\0\x07\x09\x0a\x01b\x12\x01k\0\0\0\x0d\x09\x0a\x01b\x12\x01kj\x04maps\0\0\0\x10\x09\x0a\x01b\x12\x01kj\x07default\0\0\0\x0d\x0d\x0a\x01b\x12\x01kj\x04maps\0\0\0\x0d\x09\x0a\x01b\x12\x01kj\x04maps",
    replies: b"\0\0\0\x01\x0c\0\0\0\x01\x0a\0\0\0\x1d\x0a\x0a\x03\x0a\x01v\x12\x15\x02\0\0\0\0\0\x01\0\x01\0\0\0\x01\0\0\0\0\0\0\0\x01\0\0\0\x01\x0a\0\0\0\x01\x0e\0\0\0\x01\x0a",
    totals: Totals {
        gets: 4,
        puts: 1,
        deletes: 1,
        ..NOTHING_COUNTED
    },
    ..NEW_SESSION
};

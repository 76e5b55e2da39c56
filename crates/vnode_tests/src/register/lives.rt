//! A key's life and its next.

use crate::exchanges::steps::{OF_DEAD, PutOptions, RETURN_BODY};
use crate::register::steps::{
    Del, Done, Get, Kept, Len, NOTHING, Put, Reap, Reaped, Refused, Shows, Step, Unchanged, Value,
};
use sibling_register::MATCH_FOUND;

const IF_NONE_MATCH_BODY: PutOptions = PutOptions {
    if_none_match: true,
    ..RETURN_BODY
};

pub(crate) const STEPS: &[Step] = &[
    // Two puts make siblings, and a put by the first one's context covers that alone.
    Get(b"k", None, OF_DEAD, NOTHING),
    Put(b"k", b'v', None, RETURN_BODY, Shows(&[1], Some(1))),
    Put(b"k", b'w', None, RETURN_BODY, Shows(&[2, 1], Some(2))),
    Put(b"k", b'x', Some(1), RETURN_BODY, Shows(&[3, 2], Some(3))),
    Value(b"k", 3, Some(b'x')),
    Put(b"k", b'z', None, IF_NONE_MATCH_BODY, Refused(MATCH_FOUND)),
    Get(b"k", Some(3), OF_DEAD, Unchanged),
    // A delete covers all, a reap forgets, and a context of the first life covers nothing in the second.
    Del(b"k", None, Done),
    Get(b"k", None, OF_DEAD, Shows(&[], Some(4))),
    Value(b"k", 4, None),
    Reap(b"k", Reaped),
    Reap(b"k", Kept),
    Put(b"k", b'b', None, RETURN_BODY, Shows(&[6], Some(6))),
    Put(b"k", b'd', Some(1), RETURN_BODY, Shows(&[7, 6], Some(7))),
    Len(7),
];

//! Puts in every option, over several keys.

use crate::exchanges::steps::{
    BOTH_CONDITIONS, IF_NONE_MATCH, IF_NOT_MODIFIED, PutOptions, RETURN_BODY, RETURN_BOTH,
    RETURN_HEAD,
};
use crate::register::steps::{Bare, Done, Len, Put, Refused, Reply, Shows, Step, Value};
use sibling_register::{MATCH_FOUND, MODIFIED, NOT_FOUND};

const IF_NOT_MODIFIED_HEAD: PutOptions = PutOptions {
    return_head: true,
    ..IF_NOT_MODIFIED
};

const FOUND: Reply = Refused(MATCH_FOUND);

pub(crate) const STEPS: &[Step] = &[
    // What is returned, at positions 1 to 3: siblings, bare siblings, and siblings where both are asked.
    Put(b"k", b'v', None, RETURN_BODY, Shows(&[1], Some(1))),
    Put(b"j", b'a', None, RETURN_HEAD, Bare(&[1], Some(2))),
    Put(b"k", b'w', None, RETURN_BOTH, Shows(&[2, 1], Some(3))),
    // A present key matches; an absent one doesn't, and position 4 is a write of it.
    Put(b"k", b'x', None, IF_NONE_MATCH, FOUND),
    Put(b"j", b'x', None, IF_NONE_MATCH, FOUND),
    Put(b"i", b'c', None, IF_NONE_MATCH, Done),
    Put(b"i", b'x', None, IF_NONE_MATCH, FOUND),
    // An absent key isn't found, an old context or none is of a modified key, and the last one's put is accepted.
    Put(b"h", b'x', None, IF_NOT_MODIFIED, Refused(NOT_FOUND)),
    Put(b"k", b'x', Some(1), IF_NOT_MODIFIED, Refused(MODIFIED)),
    Put(b"k", b'x', None, IF_NOT_MODIFIED, Refused(MODIFIED)),
    Put(
        b"k",
        b'y',
        Some(3),
        IF_NOT_MODIFIED_HEAD,
        Bare(&[3], Some(5)),
    ),
    Put(b"j", b'b', Some(2), IF_NOT_MODIFIED, Done),
    // Of both conditions the first alone counts.
    Put(b"k", b'x', None, BOTH_CONDITIONS, FOUND),
    Put(b"h", b'd', None, BOTH_CONDITIONS, Done),
    // Each key has its own numbers, and no refused value stands anywhere.
    Len(7),
    Value(b"k", 1, Some(b'v')),
    Value(b"k", 2, Some(b'w')),
    Value(b"k", 3, Some(b'y')),
    Value(b"k", 4, None),
    Value(b"j", 2, Some(b'b')),
    Value(b"i", 1, Some(b'c')),
    Value(b"h", 1, Some(b'd')),
];

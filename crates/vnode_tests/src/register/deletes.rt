//! Deletes with and without a context, and reaps, over two keys.

use crate::exchanges::steps::{OF_DEAD, PLAIN_PUT};
use crate::register::steps::{
    Del, Done, Get, Kept, Len, NOTHING, Put, Reap, Reaped, Shows, Step, Value,
};

pub(crate) const STEPS: &[Step] = &[
    // A delete of an absent key does nothing. Then "v" and "w" on k, "a" on j.
    Del(b"k", None, Done),
    Len(0),
    Put(b"k", b'v', None, PLAIN_PUT, Done),
    Put(b"k", b'w', None, PLAIN_PUT, Done),
    Put(b"j", b'a', None, PLAIN_PUT, Done),
    // By "v"'s context k loses "v" alone, and by one from before j's write j loses nothing: a tombstone stands beside what
    // was not seen.
    Del(b"k", Some(1), Done),
    Get(b"k", None, OF_DEAD, Shows(&[3, 2], Some(4))),
    Value(b"k", 3, None),
    Value(b"k", 2, Some(b'w')),
    Del(b"j", Some(2), Done),
    Get(b"j", None, OF_DEAD, Shows(&[2, 1], Some(5))),
    // Without one k loses all, and then is forgotten; j is present, and stays.
    Reap(b"k", Kept),
    Del(b"k", None, Done),
    Get(b"k", None, OF_DEAD, Shows(&[], Some(6))),
    Reap(b"j", Kept),
    Reap(b"k", Reaped),
    Get(b"k", None, OF_DEAD, NOTHING),
    Get(b"j", None, OF_DEAD, Shows(&[2, 1], Some(7))),
    // With a context a delete of an absent key is a tombstone, which a reap forgets again.
    Del(b"k", None, Done),
    Len(7),
    Del(b"k", Some(4), Done),
    Get(b"k", None, OF_DEAD, Shows(&[], Some(8))),
    Reap(b"k", Reaped),
    Len(9),
];

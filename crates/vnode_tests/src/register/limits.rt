//! A key of as many siblings as it may have.

use crate::exchanges::steps::{PLAIN_GET, PLAIN_PUT};
use crate::register::steps::{Del, Done, Get, Len, Put, PutTimes, Refused, Reply, Shows, Step};
use sibling_register::TOO_MANY_SIBLINGS;

const FULL: Reply = Refused(TOO_MANY_SIBLINGS);

pub(crate) const STEPS: &[Step] = &[
    // 64 puts are accepted. What would make one more is refused, on this key alone.
    PutTimes(64, b"k"),
    Put(b"k", b'x', None, PLAIN_PUT, FULL),
    Put(b"k", b'x', Some(0), PLAIN_PUT, FULL),
    Del(b"k", Some(0), FULL),
    Len(64),
    Put(b"j", b'a', None, PLAIN_PUT, Done),
    // What has seen one makes room for itself, and a delete that saw 63 of 64 leaves two.
    Put(b"k", b'y', Some(1), PLAIN_PUT, Done),
    Put(b"k", b'x', None, PLAIN_PUT, FULL),
    Del(b"k", Some(64), Done),
    Get(b"k", None, PLAIN_GET, Shows(&[66, 65], Some(67))),
];

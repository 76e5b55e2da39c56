//! Gets in every option, over two keys.

use crate::exchanges::steps::{GetOptions, HEAD, OF_DEAD, PLAIN_GET, PLAIN_PUT};
use crate::register::steps::{Bare, Del, Done, Get, NOTHING, Put, Shows, Step, Unchanged};

const HEAD_OF_DEAD: GetOptions = GetOptions {
    head: true,
    deletedvclock: true,
};

pub(crate) const STEPS: &[Step] = &[
    // An absent key shows nothing, whatever is asked of it.
    Get(b"k", None, PLAIN_GET, NOTHING),
    Get(b"k", None, HEAD, NOTHING),
    Get(b"k", None, OF_DEAD, NOTHING),
    Get(b"k", Some(0), PLAIN_GET, NOTHING),
    // "v" and "w" on k, and between them "a" on j: positions 1, 3 and 2.
    Put(b"k", b'v', None, PLAIN_PUT, Done),
    Put(b"j", b'a', None, PLAIN_PUT, Done),
    Put(b"k", b'w', None, PLAIN_PUT, Done),
    // Each shows its own siblings, and bare ones where that is asked.
    Get(b"k", None, PLAIN_GET, Shows(&[2, 1], Some(3))),
    Get(b"k", None, HEAD, Bare(&[2, 1], Some(3))),
    Get(b"k", None, OF_DEAD, Shows(&[2, 1], Some(3))),
    Get(b"j", None, PLAIN_GET, Shows(&[1], Some(3))),
    Get(b"j", None, HEAD, Bare(&[1], Some(3))),
    // Since position 2 k was written, and j wasn't.
    Get(b"k", Some(3), PLAIN_GET, Unchanged),
    Get(b"k", Some(2), PLAIN_GET, Shows(&[2, 1], Some(3))),
    Get(b"j", Some(2), PLAIN_GET, Unchanged),
    Get(b"j", Some(1), PLAIN_GET, Shows(&[1], Some(3))),
    Get(b"j", Some(3), HEAD, Unchanged),
    // A dead key shows its context where that is asked, and j stays.
    Del(b"k", None, Done),
    Get(b"k", None, PLAIN_GET, NOTHING),
    Get(b"k", None, OF_DEAD, Shows(&[], Some(4))),
    Get(b"k", None, HEAD_OF_DEAD, Shows(&[], Some(4))),
    Get(b"k", Some(4), PLAIN_GET, NOTHING),
    Get(b"j", None, PLAIN_GET, Shows(&[1], Some(4))),
];

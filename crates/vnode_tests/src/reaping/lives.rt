//! Lives of a key: after a reap a new one begins, and contexts of the old one cover nothing in it; and what is counted.

use crate::exchanges::asking::go_as_expected;
use crate::exchanges::steps::{
    Ask, B, Counted, D, Del, Done, Exchange, FIRST, FIRST_OF_SECOND, Get, IF_NOT_MODIFIED, Idle,
    NEW_VNODE, NONE, NOTHING, Put, PutWith, Reap, Refused, Reply, Shows, Step,
};
use vnode_core::Reaped::{Absent, Gone, Kept};
use vnode_core::{Refusal, Tally};

const MODIFIED: Reply = Refused(Refusal::Modified);

const NOT_FOUND: Reply = Refused(Refusal::NotFound);

/// Two entries: the first dot of the first epoch, and the second of the second.
const BOTH_LIVES: &[u8] =
    b"\x02\0\0\0\0\0\x01\0\0\0\0\0\x01\0\0\0\0\0\0\0\x01\0\0\0\0\0\x01\0\0\0\0\0\x02\0\0\0\0\0\0\0\x02";

const NONE_YET: Tally = Tally {
    writes: 0,
    tombstones: 0,
    reaps: 0,
};

const TWO_PUTS: Tally = Tally {
    writes: 2,
    tombstones: 0,
    reaps: 0,
};

const ALL_THREE: Tally = Tally {
    writes: 2,
    tombstones: 1,
    reaps: 1,
};

/// "v" is put, deleted and forgotten, and then "b" is put.
const TWO_LIVES: &[Step] = &[
    Ask(Put(b"k", b"v", NONE), Done),
    Ask(Del(b"k", NONE), Done),
    Reap(b"k", Gone),
    Ask(Put(b"k", b"b", NONE), Done),
];

const EXCHANGES: &[Exchange] = &[
    // A value isn't reaped: the get after it shows the same. After put, delete and reap the key is absent; the next put has
    // the first dot of a new epoch.
    Exchange {
        shows: "a new life has a new epoch",
        steps: &[
            Ask(Put(b"k", b"b", NONE), Done),
            Get(b"k", Shows(&[B], FIRST)),
            Reap(b"k", Kept),
            Get(b"k", Shows(&[B], FIRST)),
            Ask(Del(b"k", NONE), Done),
            Reap(b"k", Gone),
            Get(b"k", NOTHING),
            Reap(b"k", Absent),
            Ask(Put(b"k", b"b", NONE), Done),
            Get(b"k", Shows(&[B], FIRST_OF_SECOND)),
        ],
        ..NEW_VNODE
    },
    // Both values stay, and the clock knows both lives.
    Exchange {
        shows: "a put by the context of the first life covers nothing",
        begin: TWO_LIVES,
        steps: &[
            Ask(Put(b"k", b"d", FIRST), Done),
            Get(b"k", Shows(&[D, B], BOTH_LIVES)),
        ],
        ..NEW_VNODE
    },
    // Of a key that has changed; of an absent key it is refused too, since there is none.
    Exchange {
        shows: "a put of an unmodified key, by the context of the first life, is refused",
        begin: TWO_LIVES,
        steps: &[
            Ask(PutWith(b"k", b"e", FIRST, IF_NOT_MODIFIED), MODIFIED),
            Ask(PutWith(b"q", b"e", FIRST, IF_NOT_MODIFIED), NOT_FOUND),
            Get(b"k", Shows(&[B], FIRST_OF_SECOND)),
            Ask(PutWith(b"k", b"e", FIRST_OF_SECOND, IF_NOT_MODIFIED), Done),
        ],
        ..NEW_VNODE
    },
    // Accepted puts, tombstones and forgotten keys; a refused put, a delete of an absent key and a reap that forgets nothing
    // aren't.
    Exchange {
        shows: "accepted events are counted",
        steps: &[
            Counted(NONE_YET),
            Ask(Put(b"k", b"v", NONE), Done),
            Ask(Put(b"k", b"w", NONE), Done),
            Ask(PutWith(b"k", b"e", FIRST, IF_NOT_MODIFIED), MODIFIED),
            Ask(Del(b"j", NONE), Idle),
            Reap(b"k", Kept),
            Counted(TWO_PUTS),
            Ask(Del(b"k", NONE), Done),
            Reap(b"k", Gone),
            Reap(b"k", Absent),
            Counted(ALL_THREE),
        ],
        ..NEW_VNODE
    },
];

#[test]
fn lives_end_and_begin(rt: HostRuntime) {
    go_as_expected(&rt, EXCHANGES);
}

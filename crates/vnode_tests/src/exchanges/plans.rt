//! Puts and plans: what is made, let go, or ended.

use crate::exchanges::asking::go_as_expected;
use crate::exchanges::steps::{
    Ask, Done, Exchange, FIRST, FIRST_OF_SECOND, Get, LetGo, NEW_VNODE, NONE, NOTHING, Put,
    Refused, SECOND, Shows, V, W,
};
use vnode_core::Refusal;

const EXCHANGES: &[Exchange] = &[
    // A put that memory is refused leaves what was there.
    Exchange {
        shows: "two puts without context stay beside each other",
        steps: &[
            Get(b"k", NOTHING),
            Ask(Put(b"k", b"v", NONE), Done),
            Get(b"k", Shows(&[V], FIRST)),
            Ask(Put(b"k", b"w", NONE), Done),
            Get(b"k", Shows(&[W, V], SECOND)),
            Get(b"j", NOTHING),
        ],
        ..NEW_VNODE
    },
    // Whether its key is held or not; and the next one goes on.
    Exchange {
        shows: "a planned put that isn't made changes nothing",
        steps: &[
            Ask(Put(b"k", b"never written", NONE), LetGo),
            Get(b"k", NOTHING),
            Ask(Put(b"k", b"v", NONE), Done),
            Ask(Put(b"k", b"never written", NONE), LetGo),
            Ask(Put(b"j", b"never written", NONE), LetGo),
            Get(b"k", Shows(&[V], FIRST)),
            Ask(Put(b"k", b"w", NONE), Done),
            Get(b"k", Shows(&[W, V], SECOND)),
        ],
        ..NEW_VNODE
    },
    // A put is planned, and ended by one whose context is malformed. What follows goes on as if neither had been asked for,
    // on the same key and on another.
    Exchange {
        shows: "a refused plan ends the one before",
        steps: &[
            Ask(Put(b"k", b"never written", NONE), LetGo),
            Ask(Put(b"k", b"w", b"\x01"), Refused(Refusal::BadContext)),
            Get(b"k", NOTHING),
            Ask(Put(b"j", b"v", NONE), Done),
            Get(b"j", Shows(&[V], FIRST)),
            Ask(Put(b"j", b"never written", NONE), LetGo),
            Ask(Put(b"j", b"w", b"\x01"), Refused(Refusal::BadContext)),
            Ask(Put(b"k", b"v", NONE), Done),
            Get(b"k", Shows(&[V], FIRST_OF_SECOND)),
            Get(b"j", Shows(&[V], FIRST)),
        ],
        ..NEW_VNODE
    },
];

#[test]
fn plans_are_made_or_let_go(rt: HostRuntime) {
    go_as_expected(&rt, EXCHANGES);
}

const VALUES_ARE_THERE: &[Exchange] = &[Exchange {
    shows: "what was accepted is there",
    steps: &[
        Ask(Put(b"k", b"v", NONE), Done),
        Get(b"k", Shows(&[V], FIRST)),
        Ask(Put(b"k", b"w", FIRST), Done),
        Get(b"k", Shows(&[W], SECOND)),
        Ask(Put(b"j", b"v", NONE), Done),
        Get(b"j", Shows(&[V], FIRST_OF_SECOND)),
    ],
    ..NEW_VNODE
}];

/// Plans a put, once more where memory was refused, and makes it. Whichever one growth is refused (the tests run with
/// each refused in turn), none is one of `finish`, which has no way to refuse: the value is there.
#[test]
fn finish_takes_no_memory(rt: HostRuntime) {
    go_as_expected(&rt, VALUES_ARE_THERE);
}

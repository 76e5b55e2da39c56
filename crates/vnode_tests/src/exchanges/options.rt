//! The options of gets and puts.

use crate::exchanges::asking::go_as_expected;
use crate::exchanges::steps::{
    Ask, BARE, BOTH_CONDITIONS, Del, Done, Exchange, FIRST, FOURTH, Get, GetWith, HEAD,
    IF_NONE_MATCH, IF_NOT_MODIFIED, NARROW_FIRST, NARROW_SECOND, NEW_VNODE, NONE, NOTHING, OF_DEAD,
    PLAIN_GET, Put, PutWith, RETURN_BODY, RETURN_BOTH, RETURN_HEAD, Reap, Refused, Reply, SECOND,
    Shows, THIRD, Tombstone, Unchanged, V, W, X,
};
use vnode_core::{Reaped, Refusal};

const BAD: Reply = Refused(Refusal::BadContext);

const FOUND: Reply = Refused(Refusal::MatchFound);

const MODIFIED: Reply = Refused(Refusal::Modified);

const NOT_FOUND: Reply = Refused(Refusal::NotFound);

const W_AND_V: Reply = Shows(&[W, V], SECOND);

const X_AND_W: Reply = Shows(&[X, W], THIRD);

const CONDITIONS: &[Exchange] = &[
    // It lets a dead key and an absent one be written.
    Exchange {
        shows: "if_none_match refuses a key with a value",
        steps: &[
            Ask(PutWith(b"k", b"v", NONE, IF_NONE_MATCH), Done),
            Ask(PutWith(b"k", b"z", NONE, IF_NONE_MATCH), FOUND),
            Get(b"k", Shows(&[V], FIRST)),
            Ask(Del(b"k", NONE), Done),
            Ask(PutWith(b"k", b"w", SECOND, IF_NONE_MATCH), Done),
            Get(b"k", Shows(&[W], THIRD)),
        ],
        ..NEW_VNODE
    },
    // An absent key isn't found, nor is a dead one; with an old context, or none, the key is modified; with its own it is
    // written, whichever version it is of.
    Exchange {
        shows: "if_not_modified wants the key's own context",
        steps: &[
            Ask(PutWith(b"k", b"v", NONE, IF_NOT_MODIFIED), NOT_FOUND),
            Ask(Put(b"k", b"v", NONE), Done),
            Ask(Put(b"k", b"w", NONE), Done),
            Ask(PutWith(b"k", b"x", FIRST, IF_NOT_MODIFIED), MODIFIED),
            Ask(PutWith(b"k", b"x", NONE, IF_NOT_MODIFIED), MODIFIED),
            Get(b"k", W_AND_V),
            Ask(PutWith(b"k", b"x", NARROW_SECOND, IF_NOT_MODIFIED), Done),
            Ask(
                PutWith(b"k", b"x", NARROW_SECOND, IF_NOT_MODIFIED),
                MODIFIED,
            ),
            Ask(PutWith(b"k", b"w", THIRD, IF_NOT_MODIFIED), Done),
            Get(b"k", Shows(&[W], FOURTH)),
            Ask(Del(b"k", NONE), Done),
            Ask(PutWith(b"k", b"y", NONE, IF_NOT_MODIFIED), NOT_FOUND),
        ],
        ..NEW_VNODE
    },
    // A context that runs ahead is refused before either.
    Exchange {
        shows: "with both conditions if_none_match decides",
        steps: &[
            Ask(PutWith(b"k", b"v", FIRST, BOTH_CONDITIONS), BAD),
            Ask(PutWith(b"k", b"v", NONE, BOTH_CONDITIONS), Done),
            Ask(PutWith(b"k", b"z", FIRST, BOTH_CONDITIONS), FOUND),
            Ask(PutWith(b"k", b"z", SECOND, BOTH_CONDITIONS), BAD),
            Get(b"k", Shows(&[V], FIRST)),
        ],
        ..NEW_VNODE
    },
];

#[test]
fn puts_have_conditions(rt: HostRuntime) {
    go_as_expected(&rt, CONDITIONS);
}

/// More bytes than lie in a name itself.
const LONG_NAME: &[u8] = b"a name of more than sixteen bytes";

const REPLIES: &[Exchange] = &[
    // The siblings that stay, the new one first, and the context with its dot.
    Exchange {
        shows: "return_body shows what a get then shows",
        steps: &[
            Ask(PutWith(b"k", b"v", NONE, RETURN_BODY), Shows(&[V], FIRST)),
            Ask(PutWith(b"k", b"w", NONE, RETURN_BODY), W_AND_V),
            Ask(PutWith(b"k", b"x", FIRST, RETURN_BODY), X_AND_W),
            Get(b"k", X_AND_W),
        ],
        ..NEW_VNODE
    },
    // With both return_body decides; a put that asks for nothing is shown nothing.
    Exchange {
        shows: "return_head shows empty values",
        steps: &[
            Ask(
                PutWith(b"k", b"v", NONE, RETURN_HEAD),
                Shows(&[BARE], FIRST),
            ),
            Ask(PutWith(b"k", b"w", NONE, RETURN_BOTH), W_AND_V),
            Ask(Put(b"k", b"x", SECOND), NOTHING),
            Get(b"k", Shows(&[X], THIRD)),
        ],
        ..NEW_VNODE
    },
    Exchange {
        shows: "a tombstone that a put has not seen is among the siblings after it",
        steps: &[
            Ask(Put(b"k", b"v", NONE), Done),
            Ask(Del(b"k", NONE), Done),
            Ask(
                PutWith(b"k", b"w", NONE, RETURN_BODY),
                Shows(&[W, Tombstone], THIRD),
            ),
        ],
        ..NEW_VNODE
    },
    Exchange {
        shows: "a key of a long name lives as any other",
        steps: &[
            Ask(
                PutWith(LONG_NAME, b"v", NONE, RETURN_BODY),
                Shows(&[V], FIRST),
            ),
            Get(LONG_NAME, Shows(&[V], FIRST)),
            Ask(Del(LONG_NAME, FIRST), Done),
            GetWith(LONG_NAME, NONE, OF_DEAD, Shows(&[], SECOND)),
            Reap(LONG_NAME, Reaped::Gone),
            GetWith(LONG_NAME, NONE, OF_DEAD, NOTHING),
        ],
        ..NEW_VNODE
    },
    // An older one, one that isn't of the form, or that of an absent key is as none. head shows empty values.
    Exchange {
        shows: "a get by the key's own context as if_modified is answered by unchanged alone",
        steps: &[
            GetWith(b"k", FIRST, PLAIN_GET, NOTHING),
            Ask(Put(b"k", b"v", NONE), Done),
            GetWith(b"k", FIRST, PLAIN_GET, Unchanged),
            GetWith(b"k", NARROW_FIRST, PLAIN_GET, Unchanged),
            GetWith(b"k", NARROW_SECOND, PLAIN_GET, Shows(&[V], FIRST)),
            GetWith(b"k", b"\x01", PLAIN_GET, Shows(&[V], FIRST)),
            Ask(Put(b"k", b"w", NONE), Done),
            GetWith(b"k", FIRST, PLAIN_GET, W_AND_V),
            GetWith(b"k", NONE, HEAD, Shows(&[BARE, BARE], SECOND)),
        ],
        ..NEW_VNODE
    },
];

#[test]
fn replies_show_what_is_asked(rt: HostRuntime) {
    go_as_expected(&rt, REPLIES);
}

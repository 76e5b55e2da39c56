//! What a context covers, and which are refused.

use crate::exchanges::asking::go_as_expected;
use crate::exchanges::steps::{
    Ask, B, D, Del, Done, Exchange, FIRST, FIRST_OF_SECOND, FOURTH, Get, HasDead, NARROW_FIRST,
    NEW_VNODE, NONE, PUTS_V_AND_W, Put, Refused, Reply, SECOND, Shows, THIRD, Tombstone, V, W, X,
};
use vnode_core::Refusal;

const BAD: Reply = Refused(Refusal::BadContext);

const ONLY_V: Reply = Shows(&[V], FIRST);

const EXCHANGES: &[Exchange] = &[
    // v, then w beside it; x, which has seen v alone, replaces v and stays beside w. A put that memory is refused leaves
    // what was there.
    Exchange {
        shows: "a context covers what it saw",
        begin: PUTS_V_AND_W,
        steps: &[
            Get(b"k", Shows(&[W, V], SECOND)),
            Ask(Put(b"k", b"x", FIRST), Done),
            Get(b"k", Shows(&[X, W], THIRD)),
        ],
        ..NEW_VNODE
    },
    Exchange {
        shows: "a context of version 1 covers what it covered",
        begin: PUTS_V_AND_W,
        steps: &[
            Ask(Put(b"k", b"x", NARROW_FIRST), Done),
            Get(b"k", Shows(&[X, W], THIRD)),
        ],
        ..NEW_VNODE
    },
    Exchange {
        shows: "of three siblings a context covers the oldest, two, all",
        begin: PUTS_V_AND_W,
        steps: &[
            Ask(Put(b"k", b"x", NONE), Done),
            Get(b"k", Shows(&[X, W, V], THIRD)),
            Ask(Put(b"k", b"b", FIRST), Done),
            Get(b"k", Shows(&[B, X, W], FOURTH)),
            Ask(Put(b"k", b"d", THIRD), Done),
            Get(b"k", Shows(&[D, B], FIFTH)),
            Ask(Put(b"k", b"v", FIFTH), Done),
            Get(b"k", Shows(&[V], SIXTH)),
        ],
        ..NEW_VNODE
    },
    // v goes, w stays. The last put has the key's pair alone, and the clock knows both actors.
    Exchange {
        shows: "a context of the key's pair and another key's covers what the first covers",
        begin: PUTS_V_AND_W,
        steps: &[
            Ask(Put(b"j", b"v", NONE), Done),
            Ask(Put(b"k", b"x", FIRST_AND_THAT_OF_J), Done),
            Get(b"k", Shows(&[X, W], THIRD_AND_THAT_OF_J)),
            Ask(Put(b"k", b"v", THIRD), Done),
            Get(b"k", Shows(&[V], FOURTH_AND_THAT_OF_J)),
        ],
        ..NEW_VNODE
    },
    // The tombstone has dot 2: behind nothing it stays beside w.
    Exchange {
        shows: "a put on a dead key, by its context and without one",
        steps: &[
            Ask(Put(b"k", b"v", NONE), Done),
            Ask(Del(b"k", NONE), Done),
            HasDead(None, true),
            Ask(Put(b"k", b"w", SECOND), Done),
            HasDead(None, false),
            Get(b"k", Shows(&[W], THIRD)),
            Ask(Del(b"k", THIRD), Done),
            Ask(Put(b"k", b"x", NONE), Done),
            HasDead(None, false),
            Get(b"k", Shows(&[X, Tombstone], FIFTH)),
            Ask(Put(b"k", b"w", FOURTH), Done),
            Get(b"k", Shows(&[W, X], SIXTH)),
            Ask(Del(b"k", FIFTH), Done),
            HasDead(None, false),
            Get(b"k", Shows(&[Tombstone, W], SEVENTH)),
            Ask(Put(b"k", b"x", SIXTH), Done),
            Get(b"k", Shows(&[X, Tombstone], EIGHTH)),
        ],
        ..NEW_VNODE
    },
    // A context that is refused changes nothing.
    Exchange {
        shows: "contexts out of the form, and contexts that run ahead, are refused",
        steps: &[
            Ask(Put(b"k", b"v", NONE), Done),
            // one counter ahead
            Ask(Put(b"k", b"w", SECOND), BAD),
            Get(b"k", ONLY_V),
            // an epoch that wasn't given
            Ask(Put(b"k", b"w", FIRST_OF_SECOND), BAD),
            Get(b"k", ONLY_V),
            // the same behind the key's own pair
            Ask(Put(b"k", b"w", FIRST_AND_THAT_OF_J), BAD),
            Get(b"k", ONLY_V),
            // no entry
            Ask(Put(b"k", b"w", b"\x01"), BAD),
            Get(b"k", ONLY_V),
            // a byte too few
            Ask(Put(b"k", b"w", A_BYTE_TOO_FEW), BAD),
            Get(b"k", ONLY_V),
            // an entry that is too short for its version, and another version
            Ask(Put(b"k", b"w", SHORT_FOR_ITS_VERSION), BAD),
            Get(b"k", ONLY_V),
            Ask(Put(b"k", b"w", ANOTHER_VERSION), BAD),
            Get(b"k", ONLY_V),
            // a counter that is ahead by 2 to the 32
            Ask(Put(b"k", b"w", FAR_AHEAD), BAD),
            Get(b"k", ONLY_V),
            // the same actor twice
            Ask(Put(b"k", b"w", ONE_ACTOR_TWICE), BAD),
            Get(b"k", ONLY_V),
        ],
        ..NEW_VNODE
    },
    Exchange {
        shows: "the context of another key's life covers nothing; it is known from then on",
        steps: &[
            Ask(Put(b"k", b"v", NONE), Done),
            Ask(Put(b"j", b"v", NONE), Done),
            Get(b"j", Shows(&[V], FIRST_OF_SECOND)),
            Ask(Put(b"k", b"w", FIRST_OF_SECOND), Done),
            Get(b"k", Shows(&[W, V], SECOND_AND_THAT_OF_J)),
        ],
        ..NEW_VNODE
    },
];

const A_BYTE_TOO_FEW: &[u8] = b"\x01\0\0\0\0\0\x01\0\0\0\0\0\x01\0\0\0";

const SHORT_FOR_ITS_VERSION: &[u8] = b"\x02\0\0\0\0\0\x01\0\0\0\0\0\x01\0\0\0\x01";

const ANOTHER_VERSION: &[u8] = b"\x03\0\0\0\0\0\x01\0\0\0\0\0\x01\0\0\0\0\0\0\0\x01";

const FAR_AHEAD: &[u8] = b"\x02\0\0\0\0\0\x01\0\0\0\0\0\x01\0\0\0\x01\0\0\0\x01";

const ONE_ACTOR_TWICE: &[u8] =
    b"\x01\0\0\0\0\0\x01\0\0\0\0\0\x01\0\0\0\x01\0\0\0\0\0\x01\0\0\0\0\0\x01\0\0\0\x01";

const FIFTH: &[u8] = b"\x02\0\0\0\0\0\x01\0\0\0\0\0\x01\0\0\0\0\0\0\0\x05";

const SIXTH: &[u8] = b"\x02\0\0\0\0\0\x01\0\0\0\0\0\x01\0\0\0\0\0\0\0\x06";

const SEVENTH: &[u8] = b"\x02\0\0\0\0\0\x01\0\0\0\0\0\x01\0\0\0\0\0\0\0\x07";

const EIGHTH: &[u8] = b"\x02\0\0\0\0\0\x01\0\0\0\0\0\x01\0\0\0\0\0\0\0\x08";

/// A dot of the first epoch, and the first of the second.
const FIRST_AND_THAT_OF_J: &[u8] =
    b"\x02\0\0\0\0\0\x01\0\0\0\0\0\x01\0\0\0\0\0\0\0\x01\0\0\0\0\0\x01\0\0\0\0\0\x02\0\0\0\0\0\0\0\x01";

const THIRD_AND_THAT_OF_J: &[u8] =
    b"\x02\0\0\0\0\0\x01\0\0\0\0\0\x01\0\0\0\0\0\0\0\x03\0\0\0\0\0\x01\0\0\0\0\0\x02\0\0\0\0\0\0\0\x01";

const FOURTH_AND_THAT_OF_J: &[u8] =
    b"\x02\0\0\0\0\0\x01\0\0\0\0\0\x01\0\0\0\0\0\0\0\x04\0\0\0\0\0\x01\0\0\0\0\0\x02\0\0\0\0\0\0\0\x01";

/// The second dot of the first epoch, and the first of the second.
const SECOND_AND_THAT_OF_J: &[u8] =
    b"\x02\0\0\0\0\0\x01\0\0\0\0\0\x01\0\0\0\0\0\0\0\x02\0\0\0\0\0\x01\0\0\0\0\0\x02\0\0\0\0\0\0\0\x01";

#[test]
fn contexts_cover_what_they_saw(rt: HostRuntime) {
    go_as_expected(&rt, EXCHANGES);
}

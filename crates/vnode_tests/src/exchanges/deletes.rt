//! Deletes: what they cover, and what is left.

use crate::exchanges::asking::go_as_expected;
use crate::exchanges::steps::{
    Ask, Del, Done, Exchange, FIRST, FIRST_OF_SECOND, FOURTH, Get, GetWith, HasDead, Idle,
    NEW_VNODE, NONE, NOTHING, OF_DEAD, PUTS_V_AND_W, Put, Refused, SECOND, Shows, THIRD, Tombstone,
    V, W,
};
use vnode_core::Refusal;

const EXCHANGES: &[Exchange] = &[
    // v and w without context, x by v's context, then a delete without context. A get shows nothing, and with deletedvclock
    // the context with the tombstone's dot.
    Exchange {
        shows: "a delete without context has seen them all",
        begin: PUTS_V_AND_W,
        steps: &[
            Ask(Put(b"k", b"x", FIRST), Done),
            Ask(Del(b"k", NONE), Done),
            GetWith(b"k", NONE, OF_DEAD, Shows(&[], FOURTH)),
            Get(b"k", NOTHING),
        ],
        ..NEW_VNODE
    },
    Exchange {
        shows: "the tombstone of a delete that has seen v alone stays beside w",
        begin: PUTS_V_AND_W,
        steps: &[
            Ask(Del(b"k", FIRST), Done),
            Get(b"k", Shows(&[Tombstone, W], THIRD)),
        ],
        ..NEW_VNODE
    },
    // The put after it begins the first life.
    Exchange {
        shows: "a delete without context of an absent key does nothing, and takes no epoch",
        steps: &[
            Ask(Del(b"k", NONE), Idle),
            GetWith(b"k", NONE, OF_DEAD, NOTHING),
            Ask(Put(b"k", b"v", NONE), Done),
            Get(b"k", Shows(&[V], FIRST)),
        ],
        ..NEW_VNODE
    },
    // One by a context that names an epoch which wasn't given is refused, and takes none.
    Exchange {
        shows: "a delete of an absent key by another's context is a tombstone at a life of its own",
        steps: &[
            Ask(Del(b"k", FIRST), Refused(Refusal::BadContext)),
            Ask(Put(b"j", b"v", NONE), Done),
            Get(b"j", Shows(&[V], FIRST)),
            Ask(Del(b"k", FIRST), Done),
            GetWith(b"k", NONE, OF_DEAD, Shows(&[], THAT_OF_J_AND_ITS_OWN)),
        ],
        ..NEW_VNODE
    },
    // A counter ahead, then an epoch that wasn't given: v stays, and has the next dot after it.
    Exchange {
        shows: "a delete by a context that runs ahead is refused, and changes nothing",
        steps: &[
            Ask(Put(b"k", b"v", NONE), Done),
            Ask(Del(b"k", SECOND), Refused(Refusal::BadContext)),
            Ask(Del(b"k", FIRST_OF_SECOND), Refused(Refusal::BadContext)),
            Get(b"k", Shows(&[V], FIRST)),
            HasDead(None, false),
            Ask(Del(b"k", FIRST), Done),
            HasDead(None, true),
            GetWith(b"k", NONE, OF_DEAD, Shows(&[], SECOND)),
        ],
        ..NEW_VNODE
    },
    // The context has the key's pair and that of j, which the clock knows from then on.
    Exchange {
        shows: "a delete by a context of the key's pair and another key's covers what the first covers",
        begin: PUTS_V_AND_W,
        steps: &[
            Ask(Put(b"j", b"v", NONE), Done),
            Ask(Del(b"k", THAT_OF_J_AND_ITS_OWN), Done),
            Get(b"k", Shows(&[Tombstone, W], THIRD_AND_THAT_OF_J)),
        ],
        ..NEW_VNODE
    },
    // The second is at its life's next dot; a put then is a sibling beside it.
    Exchange {
        shows: "a dead key takes another tombstone",
        steps: &[
            Ask(Put(b"k", b"v", NONE), Done),
            Ask(Del(b"k", NONE), Done),
            GetWith(b"k", NONE, OF_DEAD, Shows(&[], SECOND)),
            Ask(Del(b"k", NONE), Done),
            GetWith(b"k", NONE, OF_DEAD, Shows(&[], THIRD)),
            Ask(Put(b"k", b"w", NONE), Done),
            Get(b"k", Shows(&[W, Tombstone], FOURTH)),
            Ask(Put(b"j", b"v", NONE), Done),
            Get(b"j", Shows(&[V], FIRST_OF_SECOND)),
        ],
        ..NEW_VNODE
    },
];

/// The first dot of the first epoch, and the first of the second.
const THAT_OF_J_AND_ITS_OWN: &[u8] =
    b"\x02\0\0\0\0\0\x01\0\0\0\0\0\x01\0\0\0\0\0\0\0\x01\0\0\0\0\0\x01\0\0\0\0\0\x02\0\0\0\0\0\0\0\x01";

/// The third dot of the first epoch, and the first of the second.
const THIRD_AND_THAT_OF_J: &[u8] =
    b"\x02\0\0\0\0\0\x01\0\0\0\0\0\x01\0\0\0\0\0\0\0\x03\0\0\0\0\0\x01\0\0\0\0\0\x02\0\0\0\0\0\0\0\x01";

#[test]
fn deletes_leave_tombstones(rt: HostRuntime) {
    go_as_expected(&rt, EXCHANGES);
}

//! The limits of siblings, epochs and actors.

use crate::exchanges::asking::{go_as_expected, taken_from};
use crate::exchanges::steps::{
    Ask, AskTimes, Counts, Del, Done, Exchange, FIRST, Get, NEW_VNODE, NONE, NOTHING, Put,
    PutAfterOthers, Refused, Reply, SECOND, Shows, Step, V, W,
};
use std::process::Abort;
use vnode_core::Refusal;

const SIXTY_FOURTH: &[u8] = b"\x02\0\0\0\0\0\x01\0\0\0\0\0\x01\0\0\0\0\0\0\0\x40";

/// The 64th dot of the second epoch.
const SIXTY_FOURTH_OF_SECOND: &[u8] = b"\x02\0\0\0\0\0\x01\0\0\0\0\0\x02\0\0\0\0\0\0\0\x40";

const SIXTY_FIFTH: &[u8] = b"\x02\0\0\0\0\0\x01\0\0\0\0\0\x01\0\0\0\0\0\0\0\x41";

const SECOND_OF_LAST_EPOCH: &[u8] = b"\x02\0\0\0\0\0\x01\0\0\xff\xff\xff\xff\0\0\0\0\0\0\0\x02";

const SHOWS_64: Reply = Shows(&[V; 64], SIXTY_FOURTH);

const EXCHANGES: &[Exchange] = &[
    // 64 puts are accepted; the next is refused, and a get before and after it shows the same. One that has seen them all
    // leaves one sibling.
    Exchange {
        shows: "the 65th sibling is refused",
        steps: &[
            AskTimes(64, Put(b"k", b"v", NONE), Done),
            Get(b"k", SHOWS_64),
            Ask(Put(b"k", b"w", NONE), Refused(Refusal::TooManySiblings)),
            Get(b"k", SHOWS_64),
            Ask(Put(b"k", b"w", SIXTY_FOURTH), Done),
            Get(b"k", Shows(&[W], SIXTY_FIFTH)),
        ],
        ..NEW_VNODE
    },
    // Of 64 the context covers the first; then it covers none, and 64 stay; then the second.
    Exchange {
        shows: "a context that covers a sibling makes place for one",
        steps: &[
            AskTimes(63, Put(b"k", b"v", NONE), Done),
            Get(b"k", Counts(63, 21)),
            Ask(Put(b"k", b"v", NONE), Done),
            Ask(Put(b"k", b"w", FIRST), Done),
            Get(b"k", Counts(64, 21)),
            Ask(Put(b"k", b"w", FIRST), Refused(Refusal::TooManySiblings)),
            Ask(Put(b"k", b"w", SECOND), Done),
            Get(b"k", Counts(64, 21)),
        ],
        ..NEW_VNODE
    },
    // Its counter is that of the key's last dot, and its actor another.
    Exchange {
        shows: "a context of another key covers none of 64 siblings",
        steps: &[
            AskTimes(64, Put(b"k", b"v", NONE), Done),
            AskTimes(64, Put(b"j", b"v", NONE), Done),
            Ask(
                Put(b"k", b"w", SIXTY_FOURTH_OF_SECOND),
                Refused(Refusal::TooManySiblings),
            ),
            Ask(
                Del(b"k", SIXTY_FOURTH_OF_SECOND),
                Refused(Refusal::TooManySiblings),
            ),
            Get(b"k", SHOWS_64),
        ],
        ..NEW_VNODE
    },
    // A tombstone is a sibling: 63 stay beside the first, and 64 beside the next. One that has seen them all stays alone.
    Exchange {
        shows: "a delete by a context has the limit of siblings as well",
        steps: &[
            AskTimes(64, Put(b"k", b"v", NONE), Done),
            Ask(Del(b"k", FIRST), Done),
            Get(b"k", Counts(64, 21)),
            Ask(Del(b"k", FIRST), Refused(Refusal::TooManySiblings)),
            Get(b"k", Counts(64, 21)),
            Ask(Del(b"k", SIXTY_FIFTH), Done),
            Get(b"k", NOTHING),
        ],
        ..NEW_VNODE
    },
    // 64 entries of another vnode leave no room for the key's own actor, and take no epoch; 65 are out of the form; 63 and
    // the own one fill the clock.
    Exchange {
        shows: "a clock has 64 actors",
        steps: &[
            Ask(PutAfterOthers(64), Refused(Refusal::ClockFull)),
            Ask(PutAfterOthers(65), Refused(Refusal::BadContext)),
            Ask(Put(b"k", b"v", NONE), Done),
            Get(b"k", Shows(&[V], FIRST)),
            Ask(PutAfterOthers(64), Refused(Refusal::ClockFull)),
            Get(b"k", Shows(&[V], FIRST)),
            Ask(PutAfterOthers(63), Done),
            Get(b"k", Counts(2, 1_281)),
        ],
        ..NEW_VNODE
    },
];

#[test]
fn siblings_and_actors_have_limits(rt: HostRuntime) {
    go_as_expected(&rt, EXCHANGES);
}

const WITH_THE_LAST_EPOCH: &[Step] = &[
    Ask(Put(b"k", b"v", NONE), Done),
    Ask(Put(b"j", b"v", NONE), Refused(Refusal::EpochsUsedUp)),
    Get(b"j", NOTHING),
    Ask(Put(b"k", b"w", NONE), Done),
    Get(b"k", Shows(&[W, V], SECOND_OF_LAST_EPOCH)),
];

/// The last epoch begins one life. Another key is then refused, and the first goes on.
#[test]
fn the_last_epoch_begins_one_life(rt: HostRuntime) {
    let taken = taken_from(rt.alloc(), 4_294_967_295, &[], WITH_THE_LAST_EPOCH);
    assert!(rt;
        taken == WITH_THE_LAST_EPOCH.len(),
        "not so after {} steps",
        taken
    );
}

//! Copies of keys from a fallback vnode to its primary. What is wanted was computed by hand, from what a sync does to two clocks.

use crate::exchanges::asking::{key_of, taken};
use crate::exchanges::steps::{
    Ask, AskTimes, Close, ClosedAt, Closes, Counts, Del, Done, FIRST, Get, GetWith, HasDead, ID,
    LastEpoch, NONE, NOTHING, OF_DEAD, Put, PutAfterOthers, Reap, Refused, Shows, Sibling, Step,
    Tombstone, V, Value,
};
use actor_epoch::Dot;
use clock_store::{KeyRef, given_parts};
use ghost_state::GhostList;
use riak_msgs::Key;
use std::alloc::{AllocError, Global};
use vnode_core::{Answer, Ask as VnodeAsk, KeyCopy, Plan, Reaped, Refusal, Vnode};

/// The id of the fallback: 00 00 00 00 00 01 80 00.
const FALLBACK: u64 = 98_304;

const F: Sibling = Value(b"f");

const G: Sibling = Value(b"g");

/// A context of the fallback's first dot alone.
const F1: &[u8] = b"\x02\0\0\0\0\0\x01\x80\0\0\0\0\x01\0\0\0\0\0\0\0\x01";

/// And of its second.
const F2: &[u8] = b"\x02\0\0\0\0\0\x01\x80\0\0\0\0\x01\0\0\0\0\0\0\0\x02";

/// A context of its fortieth dot.
const F40: &[u8] = b"\x02\0\0\0\0\0\x01\x80\0\0\0\0\x01\0\0\0\0\0\0\0\x28";

/// A context of the first dots of both.
const P1_F1: &[u8] =
    b"\x02\0\0\0\0\0\x01\0\0\0\0\0\x01\0\0\0\0\0\0\0\x01\0\0\0\0\0\x01\x80\0\0\0\0\x01\0\0\0\0\0\0\0\x01";

/// The primary's second dot, and the fallback's first.
const P2_F1: &[u8] =
    b"\x02\0\0\0\0\0\x01\0\0\0\0\0\x01\0\0\0\0\0\0\0\x02\0\0\0\0\0\x01\x80\0\0\0\0\x01\0\0\0\0\0\0\0\x01";

/// The first dot of the primary's second epoch, and the fallback's first.
const SECOND_LIFE_F1: &[u8] =
    b"\x02\0\0\0\0\0\x01\0\0\0\0\0\x02\0\0\0\0\0\0\0\x01\0\0\0\0\0\x01\x80\0\0\0\0\x01\0\0\0\0\0\0\0\x01";

/// What a copy comes to.
#[derive(Clone, Copy, PartialEq, Eq)]
enum Copying {
    Copied,
    Stuck,
    Closed,
    /// The fallback has no such key.
    NoKey,
    /// Anything else.
    Other,
}

use Copying::{Closed, Copied, NoKey, Stuck};

/// Which key of the fallback, in their order.
#[derive(Clone, Copy)]
enum Which {
    First,
    Second,
}

use Which::{First, Second};

/// What happens to a primary and its fallback.
enum Turn {
    Primary(&'static [Step]),
    Fallback(&'static [Step]),
    Copy(Which, Copying),
    /// The epoch of the actor of the key "k" at the primary and its counter, where it has one.
    Own(Option<(u32, u64)>),
}

use Turn::{Copy, Fallback, Own, Primary};

struct Row {
    shows: &'static str,
    /// The last epoch that the primary gave before.
    last_epoch: u32,
    turns: &'static [Turn],
}

/// "v" is put at the primary.
const PUTS_V: Turn = Primary(&[Ask(Put(b"k", b"v", NONE), Done)]);

/// "f" is put at the fallback.
const PUTS_F: Turn = Fallback(&[Ask(Put(b"k", b"f", NONE), Done)]);

const ROWS: &[Row] = &[
    Row {
        shows: "an absent key comes without an actor, and the next write gives it one",
        last_epoch: 0,
        turns: &[
            Copy(First, NoKey),
            PUTS_F,
            Copy(First, Copied),
            Primary(&[Get(b"k", Shows(&[F], F1)), LastEpoch(0)]),
            Own(None),
            Copy(First, Copied),
            Primary(&[
                Get(b"k", Shows(&[F], F1)),
                Ask(Put(b"j", b"v", NONE), Done),
                Ask(Put(b"k", b"v", NONE), Done),
                Get(b"k", Shows(&[V, F], SECOND_LIFE_F1)),
                LastEpoch(2),
            ]),
            Own(Some((2, 1))),
            Copy(First, Copied),
            Primary(&[Get(b"k", Shows(&[V, F], SECOND_LIFE_F1))]),
            Own(Some((2, 1))),
        ],
    },
    Row {
        shows: "a present key gets the siblings of both, each actor's in its place",
        last_epoch: 0,
        turns: &[
            PUTS_V,
            PUTS_F,
            Copy(First, Copied),
            Primary(&[Get(b"k", Shows(&[V, F], P1_F1))]),
            Own(Some((1, 1))),
        ],
    },
    Row {
        shows: "what the fallback's write saw is gone, and a later write may have seen both",
        last_epoch: 0,
        turns: &[
            PUTS_V,
            Fallback(&[Ask(Put(b"k", b"f", FIRST), Done)]),
            Copy(First, Copied),
            Primary(&[
                Get(b"k", Shows(&[F], P1_F1)),
                Ask(Put(b"k", b"v", P1_F1), Done),
                Get(b"k", Shows(&[V], P2_F1)),
            ]),
            Copy(First, Copied),
            Primary(&[Get(b"k", Shows(&[V], P2_F1))]),
        ],
    },
    Row {
        shows: "a dead key becomes present, its tombstone beside",
        last_epoch: 0,
        turns: &[
            Primary(&[
                Ask(Put(b"k", b"v", NONE), Done),
                Ask(Del(b"k", NONE), Done),
                HasDead(None, true),
            ]),
            PUTS_F,
            Copy(First, Copied),
            Primary(&[
                HasDead(None, false),
                Get(b"k", Shows(&[Tombstone, F], P2_F1)),
            ]),
        ],
    },
    Row {
        shows: "a dead key that came by copies alone is reaped, and its next life takes an epoch",
        last_epoch: 0,
        turns: &[
            Fallback(&[Ask(Put(b"k", b"f", NONE), Done), Ask(Del(b"k", NONE), Done)]),
            Copy(First, Copied),
            Primary(&[
                Get(b"k", NOTHING),
                GetWith(b"k", NONE, OF_DEAD, Shows(&[], F2)),
                HasDead(None, true),
                Reap(b"k", Reaped::Gone),
                HasDead(None, false),
                GetWith(b"k", NONE, OF_DEAD, NOTHING),
                LastEpoch(0),
                Ask(Put(b"k", b"v", NONE), Done),
                Get(b"k", Shows(&[V], FIRST)),
            ]),
        ],
    },
    Row {
        shows: "a present key becomes dead, where the fallback's delete saw its value",
        last_epoch: 0,
        turns: &[
            PUTS_V,
            Fallback(&[Ask(Del(b"k", FIRST), Done)]),
            Copy(First, Copied),
            Primary(&[
                Get(b"k", NOTHING),
                HasDead(None, true),
                GetWith(b"k", NONE, OF_DEAD, Shows(&[], P1_F1)),
            ]),
        ],
    },
    Row {
        shows: "a delete of a key without an actor takes an epoch, and saw what the copy brought",
        last_epoch: 0,
        turns: &[
            PUTS_F,
            Copy(First, Copied),
            Primary(&[
                Ask(Del(b"k", NONE), Done),
                Get(b"k", NOTHING),
                GetWith(b"k", NONE, OF_DEAD, Shows(&[], P1_F1)),
                LastEpoch(1),
            ]),
        ],
    },
    Row {
        shows: "the second key is copied alone",
        last_epoch: 0,
        turns: &[
            Fallback(&[
                Ask(Put(b"j", b"f", NONE), Done),
                Ask(Put(b"k", b"g", NONE), Done),
            ]),
            Copy(Second, Copied),
            Primary(&[
                Get(b"j", NOTHING),
                Get(
                    b"k",
                    Shows(
                        &[G],
                        b"\x02\0\0\0\0\0\x01\x80\0\0\0\0\x02\0\0\0\0\0\0\0\x01",
                    ),
                ),
            ]),
        ],
    },
    Row {
        shows: "a copy that would leave more than 64 siblings is stuck and changes nothing",
        last_epoch: 0,
        turns: &[
            Primary(&[AskTimes(40, Put(b"k", b"v", NONE), Done)]),
            Fallback(&[AskTimes(40, Put(b"k", b"f", NONE), Done)]),
            Copy(First, Stuck),
            Primary(&[Get(b"k", Counts(40, 21))]),
            Fallback(&[Ask(Put(b"k", b"g", F40), Done), Get(b"k", Counts(1, 21))]),
            Copy(First, Copied),
            Primary(&[Get(b"k", Counts(41, 41))]),
        ],
    },
    Row {
        shows: "a copy that would leave more than 64 actors is stuck and changes nothing",
        last_epoch: 0,
        turns: &[
            Primary(&[Ask(PutAfterOthers(63), Done), Get(b"k", Counts(1, 1281))]),
            PUTS_F,
            Copy(First, Stuck),
            Primary(&[Get(b"k", Counts(1, 1281))]),
        ],
    },
    Row {
        shows: "where no epoch is left, a key without an actor takes no write, and one with an actor does",
        last_epoch: 4_294_967_294,
        turns: &[
            Primary(&[Ask(Put(b"j", b"v", NONE), Done)]),
            PUTS_F,
            Copy(First, Copied),
            Primary(&[
                Ask(Put(b"k", b"v", NONE), Refused(Refusal::EpochsUsedUp)),
                Ask(Put(b"k", b"v", F1), Refused(Refusal::EpochsUsedUp)),
                Ask(Del(b"k", NONE), Refused(Refusal::EpochsUsedUp)),
                Get(b"k", Shows(&[F], F1)),
                Ask(Put(b"j", b"v", NONE), Done),
            ]),
        ],
    },
    Row {
        shows: "a closed vnode takes no copy",
        last_epoch: 0,
        turns: &[
            PUTS_F,
            Primary(&[Ask(Close(1), Closes)]),
            Copy(First, Closed),
            Primary(&[Get(b"k", NOTHING), ClosedAt(Some(1))]),
        ],
    },
];

/// A copy of one of a vnode's keys, as the first diversion's; None where it has no such key.
fn copy_of(fallback: &Vnode, alloc: Global, which: Which) -> Result<Option<KeyCopy>, Refusal> {
    let before = match which {
        First => None,
        Second => first_key(fallback, alloc)?,
    };
    match fallback.next_key(given_parts(before.as_ref())) {
        None => Ok(None),
        Some((key, stored)) => {
            let key = key.to_key(alloc)?;
            let parts = KeyRef::of(&key);
            Ok(Some(KeyCopy::of(alloc, parts, stored, 1, GhostList::new())?))
        }
    }
}

/// A copy of the first key of a vnode; None where it has no key.
fn first_key(vnode: &Vnode, alloc: Global) -> Result<Option<Key>, AllocError> {
    match vnode.next_key(None) {
        None => Ok(None),
        Some((key, _)) => Ok(Some(key.to_key(alloc)?)),
    }
}

/// How many siblings its first key has.
fn first_siblings(vnode: &Vnode) -> Option<u128> {
    match vnode.next_key(None) {
        None => None,
        Some((_, stored)) => Some(stored.clock.uncovered(None)),
    }
}

/// What an answer says, which goes then.
fn said(answer: Answer, is_change: bool) -> Copying {
    match answer {
        Answer::Copied if is_change => Copied,
        Answer::Stuck if !is_change => Stuck,
        Answer::Closed if !is_change => Closed,
        _ => Copying::Other,
    }
}

/// Asks a vnode for a copy, and makes it. One that is refused memory leaves as many siblings as there were.
fn ask_copy(primary: &mut Vnode, alloc: Global, copy: KeyCopy) -> Result<Copying, Refusal> {
    let siblings = first_siblings(primary);
    match primary.prepare(alloc, VnodeAsk::Copy(copy)) {
        Ok(Plan::Change(change)) => Ok(said(primary.finish(change), true)),
        Ok(Plan::Nothing(answer)) => Ok(said(answer, false)),
        Err(refusal) if first_siblings(primary) == siblings => Err(refusal),
        Err(_) => Ok(Copying::Other),
    }
}

/// Copies a key; an error where memory was refused.
fn copy(
    primary: &mut Vnode,
    fallback: &Vnode,
    alloc: Global,
    which: Which,
) -> Result<Copying, Refusal> {
    match copy_of(fallback, alloc, which)? {
        None => Ok(NoKey),
        Some(copy) => ask_copy(primary, alloc, copy),
    }
}

/// Whether this is the dot of an actor of the primary with this epoch and counter.
fn is_own(own: Option<Dot>, wanted: Option<(u32, u64)>) -> bool {
    match (own, wanted) {
        (None, None) => true,
        (Some(dot), Some((epoch, counter))) => {
            dot.actor.vnode == ID && dot.actor.epoch == epoch && dot.counter == counter
        }
        _ => false,
    }
}

/// Whether a turn comes as expected; an error where memory was refused.
fn goes_once(
    primary: &mut Vnode,
    fallback: &mut Vnode,
    alloc: Global,
    turn: &Turn,
) -> Result<bool, Refusal> {
    match turn {
        Primary(steps) => Ok(taken(primary, alloc, steps) == steps.len()),
        Fallback(steps) => Ok(taken(fallback, alloc, steps) == steps.len()),
        Copy(which, wanted) => Ok(copy(primary, fallback, alloc, *which)? == *wanted),
        Own(wanted) => Ok(is_own(primary.own(&key_of(alloc, b"k")?), *wanted)),
    }
}

/// The same, once more where memory was refused.
fn goes(primary: &mut Vnode, fallback: &mut Vnode, alloc: Global, turn: &Turn) -> bool {
    match goes_once(primary, fallback, alloc, turn) {
        Ok(is_so) => is_so,
        Err(_) => goes_once(primary, fallback, alloc, turn) == Ok(true),
    }
}

/// How many turns come as expected, before one that doesn't.
fn turns_taken(alloc: Global, row: &Row) -> usize {
    let mut primary = Vnode::after(alloc, ID, row.last_epoch);
    let mut fallback = Vnode::new(alloc, FALLBACK, 1);
    let mut count = 0usize;
    for turn in row.turns {
        if !goes(&mut primary, &mut fallback, alloc, turn) {
            return count;
        }
        count = count.saturating_add(1);
    }
    count
}

#[test]
fn copies_join_what_both_hold(rt: HostRuntime) {
    for row in ROWS {
        let taken = turns_taken(rt.alloc(), row);
        let is_so = taken == row.turns.len();
        assert!(rt; is_so, "{}: not so after {} turns", row.shows, taken);
    }
}

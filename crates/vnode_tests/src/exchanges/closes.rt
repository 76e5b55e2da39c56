//! Closes: what a closed vnode keeps and answers, and a vnode that goes on behind it.

use crate::exchanges::asking::{go_as_expected, taken};
use crate::exchanges::steps::{
    Ask, Close, Closed, ClosedAt, Closes, Command, Counted, Del, Done, Exchange, FIRST, Get,
    HasDead, ID, IF_NOT_MODIFIED, LastEpoch, LetGo, NEW_VNODE, NONE, NOTHING, Put, PutWith, Reap,
    ReapFirst, Shows, Step, V,
};
use vnode_core::{Reaped, Tally, Vnode};

/// The first dot of the third epoch.
const FIRST_OF_THIRD: &[u8] = b"\x02\0\0\0\0\0\x01\0\0\0\0\0\x03\0\0\0\0\0\0\0\x01";

/// What has been counted before the close, and no more.
const COUNTED: Tally = Tally {
    writes: 2,
    tombstones: 1,
    reaps: 0,
};

const EXCHANGES: &[Exchange] = &[
    Exchange {
        shows: "a closed vnode keeps no key and takes nothing, whatever is asked",
        steps: &[
            Ask(Put(b"k", b"v", NONE), Done),
            Ask(Put(b"j", b"v", NONE), Done),
            Ask(Del(b"j", NONE), Done),
            ClosedAt(None),
            Ask(Close(7), Closes),
            ClosedAt(Some(7)),
            Get(b"k", NOTHING),
            HasDead(None, false),
            Ask(Put(b"k", b"w", NONE), Closed),
            Ask(Put(b"k", b"w", FIRST), Closed),
            Ask(Put(b"k", b"w", b"\x01"), Closed),
            Ask(PutWith(b"k", b"w", NONE, IF_NOT_MODIFIED), Closed),
            Ask(Del(b"k", NONE), Closed),
            Ask(Command::Reap(b"j"), Closed),
            Ask(Command::ReapFirst(None), Closed),
            Ask(Close(9), Closed),
            Reap(b"j", Reaped::Absent),
            ReapFirst(false),
            ClosedAt(Some(7)),
            LastEpoch(2),
            Counted(COUNTED),
            Get(b"k", NOTHING),
        ],
        ..NEW_VNODE
    },
    Exchange {
        shows: "a close that isn't made closes nothing",
        steps: &[
            Ask(Put(b"k", b"v", NONE), Done),
            Ask(Close(1), LetGo),
            ClosedAt(None),
            Get(b"k", Shows(&[V], FIRST)),
            Ask(Del(b"k", NONE), Done),
        ],
        ..NEW_VNODE
    },
    Exchange {
        shows: "a close ends the plan before it, and may have the number 0",
        steps: &[
            Ask(Put(b"k", b"v", NONE), LetGo),
            Ask(Close(0), Closes),
            ClosedAt(Some(0)),
            Get(b"k", NOTHING),
            LastEpoch(0),
        ],
        ..NEW_VNODE
    },
];

#[test]
fn a_closed_vnode_takes_nothing(rt: HostRuntime) {
    go_as_expected(&rt, EXCHANGES);
}

const CLOSING: &[Step] = &[
    Ask(Put(b"k", b"v", NONE), Done),
    Ask(Put(b"j", b"v", NONE), Done),
    Ask(Close(3), Closes),
];

const BEHIND: &[Step] = &[
    ClosedAt(None),
    LastEpoch(2),
    Get(b"k", NOTHING),
    Ask(Put(b"k", b"v", NONE), Done),
    Get(b"k", Shows(&[V], FIRST_OF_THIRD)),
    LastEpoch(3),
];

/// The vnode that goes on behind a closed one gives no epoch again.
#[test]
fn epochs_go_on_behind_a_closed_vnode(rt: HostRuntime) {
    let mut closed = Vnode::new(rt.alloc(), ID, 1);
    let count = taken(&mut closed, rt.alloc(), CLOSING);
    assert!(rt;
        count == CLOSING.len(),
        "closing: not so after {count} steps"
    );
    let mut behind = Vnode::after(rt.alloc(), ID, closed.last_epoch());
    let count = taken(&mut behind, rt.alloc(), BEHIND);
    assert!(rt; count == BEHIND.len(), "behind: not so after {count} steps");
}

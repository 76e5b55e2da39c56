//! Sweeps, and reaps as commands: which keys are forgotten, and whether more are left.

use crate::exchanges::asking::go_as_expected;
use crate::exchanges::steps::{
    Ask, Command, Del, Done, Exchange, Get, HasDead, NEW_VNODE, NONE, Put, Reap, ReapFirst, Reply,
    Shows, Step, Sweep, V,
};
use tomb_reaper::Swept;
use vnode_core::Reaped::{Absent, Gone, Kept};

const LEAVES_MORE: Swept = Swept {
    reaped: 1,
    more: true,
};

const THE_LAST_TWO: Swept = Swept {
    reaped: 2,
    more: false,
};

const NONE_OF_THEM: Swept = Swept {
    reaped: 0,
    more: true,
};

/// The context of the key d: the first dot of the third epoch.
const LIFE_OF_D: &[u8] = b"\x02\0\0\0\0\0\x01\0\0\0\0\0\x03\0\0\0\0\0\0\0\x01";

/// The keys a, c and e are dead, and d has a value.
const THREE_DEAD: &[Step] = &[
    Ask(Put(b"a", b"v", NONE), Done),
    Ask(Del(b"a", NONE), Done),
    Ask(Put(b"c", b"v", NONE), Done),
    Ask(Del(b"c", NONE), Done),
    Ask(Put(b"d", b"v", NONE), Done),
    Ask(Put(b"e", b"v", NONE), Done),
    Ask(Del(b"e", NONE), Done),
];

const EXCHANGES: &[Exchange] = &[
    // Of the dead keys a, c and e a sweep from b with budget 1 forgets c, and more are left; one of all with budget 5
    // forgets the other two, and no more are left. The key d has a value, and stays.
    Exchange {
        shows: "a sweep forgets the first dead keys",
        begin: THREE_DEAD,
        steps: &[
            Sweep(Some(b"b"), 1, LEAVES_MORE),
            Reap(b"c", Absent),
            Sweep(None, 5, THE_LAST_TWO),
            Reap(b"d", Kept),
            Get(b"d", Shows(&[V], LIFE_OF_D)),
        ],
        ..NEW_VNODE
    },
    // The key itself is among them, and those before it aren't, neither in what is forgotten nor in what is left. With no
    // budget nothing is forgotten.
    Exchange {
        shows: "a sweep counts from its key on",
        begin: THREE_DEAD,
        steps: &[
            Sweep(Some(b"c"), 0, NONE_OF_THEM),
            Sweep(Some(b"c"), 2, THE_LAST_TWO),
            HasDead(None, true),
            HasDead(Some(b"a"), true),
            HasDead(Some(b"b"), false),
            Reap(b"a", Gone),
            HasDead(None, false),
            ReapFirst(false),
        ],
        ..NEW_VNODE
    },
    // The reap of a key is answered as the key is: it was dead and is gone, has a value, or isn't there. The reap of the
    // least dead key from c on takes e, and then finds none, though a before it is dead.
    Exchange {
        shows: "reaps may be asked for",
        steps: &[
            Ask(Put(b"a", b"v", NONE), Done),
            Ask(Del(b"a", NONE), Done),
            Ask(Put(b"d", b"v", NONE), Done),
            Ask(Command::Reap(b"d"), Reply::Reaped(Kept)),
            Ask(Put(b"e", b"v", NONE), Done),
            Ask(Del(b"e", NONE), Done),
            Ask(Command::ReapFirst(Some(b"c")), Reply::Reaped(Gone)),
            Reap(b"e", Absent),
            Ask(Command::ReapFirst(Some(b"c")), Reply::Reaped(Absent)),
            Ask(Del(b"d", NONE), Done),
            Ask(Command::Reap(b"d"), Reply::Reaped(Gone)),
            Ask(Command::Reap(b"d"), Reply::Reaped(Absent)),
            Ask(Command::Reap(b"a"), Reply::Reaped(Gone)),
        ],
        ..NEW_VNODE
    },
];

#[test]
fn sweeps_forget_dead_keys(rt: HostRuntime) {
    go_as_expected(&rt, EXCHANGES);
}

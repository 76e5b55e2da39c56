//! Steps of a store of four keys, and what each of their rows shows.

use actor_epoch::Actor;
use clock_store::{Reaped, WriteKind};

/// The actor of each key's life.
pub const A: Actor = Actor {
    vnode: 65_536,
    epoch: 1,
};

/// The actor of another vnode.
pub const B: Actor = Actor {
    vnode: 65_537,
    epoch: 1,
};

/// The bytes of the context (A, 1), then of that with (B, 1), and with (B, 2).
pub const SEEN_A: &[u8] = b"\x01\0\0\0\0\0\x01\0\0\0\0\0\x01\0\0\0\x01";

pub const SEEN_A_B1: &[u8] = b"\x01\
    \0\0\0\0\0\x01\0\0\0\0\0\x01\0\0\0\x01\
    \0\0\0\0\0\x01\0\x01\0\0\0\x01\0\0\0\x01";

pub const SEEN_A_B2: &[u8] = b"\x01\
    \0\0\0\0\0\x01\0\0\0\0\0\x01\0\0\0\x01\
    \0\0\0\0\0\x01\0\x01\0\0\0\x01\0\0\0\x02";

/// What is done to a store, and what comes of it.
pub enum Step {
    /// Something is done to the key of this name.
    To(&'static [u8], Act),
    /// What room there is is dropped.
    DropRoom,
    /// The least dead key is forgotten: there is one.
    Sweep,
    /// Whether there is a dead key.
    HasDead(bool),
    /// The least key behind the one of this name (None: of all), and how many contents it has.
    Next(Option<&'static [u8]>, Option<(&'static [u8], u32)>),
    /// All keys are forgotten.
    Clear,
}

/// What is done to a key.
pub enum Act {
    /// It takes in another clock: what the context of these bytes saw (no bytes: nothing), and a write at B.
    Sync(&'static [u8], Option<WriteKind>),
    /// An empty content is written beside what is there.
    Value,
    /// A tombstone is written over all that is there.
    Tombstone,
    /// Room is made for a tombstone, and left.
    Reserve,
    /// It is reaped, and this comes of it.
    Reap(Reaped),
    /// It has so many contents; None: it is absent. A dead key has none.
    Holds(Option<u32>),
    /// It is held, and this is the actor of its life.
    IsOf(Option<Actor>),
}

use Act::{Holds, IsOf, Reap, Reserve, Sync, Tombstone, Value};
use Step::{Clear, DropRoom, HasDead, Next, Sweep, To};

/// Steps of a store of four keys.
pub struct Row {
    pub shows: &'static str,
    pub steps: &'static [Step],
}

// a and c are written, b and d are dead; room for e is never used.
pub const FOUR: &[Step] = &[
    To(b"c", Value),
    To(b"d", Tombstone),
    To(b"a", Value),
    To(b"b", Value),
    To(b"b", Tombstone),
    To(b"e", Reserve),
];

pub const ROWS: &[Row] = &[
    Row {
        shows: "dead keys go in their order",
        steps: &[
            // A sweep takes b, and leaves d.
            To(b"b", Holds(Some(0))),
            Sweep,
            To(b"b", Holds(None)),
            To(b"d", Holds(Some(0))),
            // A reap keeps a, which has a value, and takes d, the last dead key.
            To(b"a", Reap(Reaped::Kept)),
            To(b"d", Reap(Reaped::Gone)),
            HasDead(false),
            To(b"c", Holds(Some(1))),
        ],
    },
    Row {
        shows: "room that no write used is no key",
        steps: &[
            To(b"e", Holds(None)),
            // Room for a tombstone of a, then a value of it beside the one that is there.
            To(b"a", Reserve),
            To(b"a", Value),
            To(b"a", Holds(Some(2))),
            // A value of b, which was dead, after the room is dropped.
            DropRoom,
            To(b"b", Value),
            To(b"e", Reap(Reaped::Absent)),
            To(b"b", Holds(Some(1))),
        ],
    },
    Row {
        shows: "behind each key comes the next, dead or not, and none that has room alone",
        steps: &[
            Next(None, Some((b"a", 1))),
            Next(Some(b"a"), Some((b"b", 0))),
            Next(Some(b"bb"), Some((b"c", 1))),
            Next(Some(b"d"), None),
            // Room for a key between others.
            To(b"bb", Reserve),
            Next(Some(b"b"), Some((b"c", 1))),
        ],
    },
    Row {
        shows: "where all keys are forgotten there is none, and none dead",
        steps: &[
            Clear,
            Next(None, None),
            HasDead(false),
            To(b"b", Reap(Reaped::Absent)),
            To(b"b", Value),
            Next(None, Some((b"b", 1))),
        ],
    },
    Row {
        shows: "an absent key takes in a clock, with a value or dead",
        steps: &[
            To(b"e", Sync(b"", Some(WriteKind::Value))),
            To(b"e", Holds(Some(1))),
            To(b"aa", Sync(SEEN_A, None)),
            To(b"aa", Holds(Some(0))),
            // The first dead key is aa, and then b.
            Sweep,
            To(b"aa", Holds(None)),
            Sweep,
            To(b"b", Holds(None)),
            To(b"d", Holds(Some(0))),
        ],
    },
    Row {
        shows: "a key that came by syncs alone has no actor until it is written",
        steps: &[
            To(b"e", Sync(b"", Some(WriteKind::Value))),
            To(b"e", IsOf(None)),
            To(b"e", Sync(SEEN_A_B1, Some(WriteKind::Value))),
            To(b"e", Holds(Some(1))),
            To(b"e", IsOf(None)),
            // Room for a tombstone that isn't written.
            To(b"e", Reserve),
            To(b"e", IsOf(None)),
            To(b"e", Value),
            To(b"e", IsOf(Some(A))),
            To(b"e", Holds(Some(2))),
        ],
    },
    Row {
        shows: "a key keeps its actor in a sync, dead or not",
        steps: &[
            To(b"a", IsOf(Some(A))),
            To(b"a", Sync(b"", Some(WriteKind::Value))),
            To(b"a", IsOf(Some(A))),
            To(b"b", Sync(SEEN_A_B1, None)),
            To(b"b", IsOf(Some(A))),
            // A key that was forgotten comes again without one.
            To(b"d", Reap(Reaped::Gone)),
            To(b"d", Sync(b"", Some(WriteKind::Value))),
            To(b"d", IsOf(None)),
        ],
    },
    // The other clocks have seen (A, 1), the only value of c, and no longer have it.
    Row {
        shows: "a key dies by a sync, and lives by the next one",
        steps: &[
            To(b"b", Reap(Reaped::Gone)),
            To(b"d", Reap(Reaped::Gone)),
            HasDead(false),
            To(b"c", Sync(SEEN_A, Some(WriteKind::Tombstone))),
            To(b"c", Holds(Some(0))),
            HasDead(true),
            To(b"c", Sync(SEEN_A_B1, Some(WriteKind::Value))),
            To(b"c", Holds(Some(1))),
            HasDead(false),
            To(b"c", Sync(SEEN_A_B2, None)),
            HasDead(true),
            Sweep,
            To(b"c", Holds(None)),
            To(b"a", Holds(Some(1))),
        ],
    },
    Row {
        shows: "a dead key takes in a clock, and lives where that has a value",
        steps: &[
            // The other clock has not seen (A, 2), the tombstone of b.
            To(b"b", Sync(SEEN_A, Some(WriteKind::Value))),
            To(b"b", Holds(Some(1))),
            To(b"d", Sync(SEEN_A, Some(WriteKind::Tombstone))),
            // The first dead key is d.
            Sweep,
            To(b"d", Holds(None)),
            HasDead(false),
            Next(Some(b"a"), Some((b"b", 1))),
        ],
    },
];

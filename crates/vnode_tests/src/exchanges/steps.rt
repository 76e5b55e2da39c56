//! Steps of an exchange with a vnode, and what is expected of each. Keys are of the bucket "b".

use tomb_reaper::Swept;
use vnode_core::{Reaped, Refusal, Tally};

/// The vnode id of every test: 00 00 00 00 00 01 00 00.
pub(crate) const ID: u64 = 65_536;

/// No context.
pub(crate) const NONE: &[u8] = b"";

/// A context: the number of the version, then vnode id, epoch and counter of the one entry.
pub(crate) const FIRST: &[u8] = b"\x02\0\0\0\0\0\x01\0\0\0\0\0\x01\0\0\0\0\0\0\0\x01";

pub(crate) const SECOND: &[u8] = b"\x02\0\0\0\0\0\x01\0\0\0\0\0\x01\0\0\0\0\0\0\0\x02";

pub(crate) const THIRD: &[u8] = b"\x02\0\0\0\0\0\x01\0\0\0\0\0\x01\0\0\0\0\0\0\0\x03";

pub(crate) const FOURTH: &[u8] = b"\x02\0\0\0\0\0\x01\0\0\0\0\0\x01\0\0\0\0\0\0\0\x04";

/// The same as version 1 has them, whose counters are of four bytes.
pub(crate) const NARROW_FIRST: &[u8] = b"\x01\0\0\0\0\0\x01\0\0\0\0\0\x01\0\0\0\x01";

pub(crate) const NARROW_SECOND: &[u8] = b"\x01\0\0\0\0\0\x01\0\0\0\0\0\x01\0\0\0\x02";

/// The first dot of the second epoch.
pub(crate) const FIRST_OF_SECOND: &[u8] = b"\x02\0\0\0\0\0\x01\0\0\0\0\0\x02\0\0\0\0\0\0\0\x01";

/// A sibling as a reply shows it.
pub(crate) enum Sibling {
    Value(&'static [u8]),
    Tombstone,
}

pub(crate) use Sibling::{Tombstone, Value};

pub(crate) const B: Sibling = Value(b"b");

pub(crate) const D: Sibling = Value(b"d");

pub(crate) const V: Sibling = Value(b"v");

pub(crate) const W: Sibling = Value(b"w");

pub(crate) const X: Sibling = Value(b"x");

/// A value that is shown empty.
pub(crate) const BARE: Sibling = Value(b"");

/// The options of a get, but for `if_modified`.
#[derive(Clone, Copy)]
pub(crate) struct GetOptions {
    pub(crate) head: bool,
    pub(crate) deletedvclock: bool,
}

/// None of them.
pub(crate) const PLAIN_GET: GetOptions = GetOptions {
    head: false,
    deletedvclock: false,
};

pub(crate) const HEAD: GetOptions = GetOptions {
    head: true,
    deletedvclock: false,
};

/// The context of a dead key is shown.
pub(crate) const OF_DEAD: GetOptions = GetOptions {
    head: false,
    deletedvclock: true,
};

/// The options of a put.
#[derive(Clone, Copy)]
pub(crate) struct PutOptions {
    pub(crate) return_body: bool,
    pub(crate) return_head: bool,
    pub(crate) if_not_modified: bool,
    pub(crate) if_none_match: bool,
}

/// None of them.
pub(crate) const PLAIN_PUT: PutOptions = PutOptions {
    return_body: false,
    return_head: false,
    if_not_modified: false,
    if_none_match: false,
};

pub(crate) const IF_NONE_MATCH: PutOptions = PutOptions {
    if_none_match: true,
    ..PLAIN_PUT
};

pub(crate) const IF_NOT_MODIFIED: PutOptions = PutOptions {
    if_not_modified: true,
    ..PLAIN_PUT
};

pub(crate) const BOTH_CONDITIONS: PutOptions = PutOptions {
    if_not_modified: true,
    if_none_match: true,
    ..PLAIN_PUT
};

pub(crate) const RETURN_BODY: PutOptions = PutOptions {
    return_body: true,
    ..PLAIN_PUT
};

pub(crate) const RETURN_HEAD: PutOptions = PutOptions {
    return_head: true,
    ..PLAIN_PUT
};

pub(crate) const RETURN_BOTH: PutOptions = PutOptions {
    return_body: true,
    return_head: true,
    ..PLAIN_PUT
};

/// A command that may change a vnode.
#[derive(Clone, Copy)]
pub(crate) enum Command<'a> {
    /// A put of a key: its value and its context.
    Put(&'a [u8], &'a [u8], &'a [u8]),
    /// The same with options.
    PutWith(&'a [u8], &'a [u8], &'a [u8], PutOptions),
    /// A put of "w" under the key "k", by a context of so many entries of another vnode.
    PutAfterOthers(u8),
    /// A delete of a key by a context.
    Del(&'a [u8], &'a [u8]),
    /// The reap of a key.
    Reap(&'a [u8]),
    /// The reap of the least dead key at or after one, or of all.
    ReapFirst(Option<&'a [u8]>),
    /// The close, with its number.
    Close(u64),
}

pub(crate) use Command::{Close, Del, Put, PutAfterOthers, PutWith};

/// What a vnode is to answer.
pub(crate) enum Reply {
    /// These siblings, in this order, and this context.
    Shows(&'static [Sibling], &'static [u8]),
    /// That nothing was modified, and nothing else.
    Unchanged,
    /// So many siblings, and a context of so many bytes.
    Counts(usize, usize),
    /// A put that shows nothing, or a delete that wrote a tombstone.
    Done,
    /// A delete that had nothing to do.
    Idle,
    /// What a reap came to.
    Reaped(Reaped),
    Refused(Refusal),
    /// That it closes the vnode.
    Closes,
    /// That the vnode is closed, and nothing changed.
    Closed,
    /// A change, which is let go and not made.
    LetGo,
}

pub(crate) use Reply::{Closed, Closes, Counts, Done, Idle, LetGo, Refused, Shows, Unchanged};

/// Nothing is shown of a key that is absent, nor of one that is dead.
pub(crate) const NOTHING: Reply = Shows(&[], NONE);

/// What is asked of a vnode, and what it answers.
pub(crate) enum Step {
    /// A get of a key.
    Get(&'static [u8], Reply),
    /// The same with `if_modified` and options.
    GetWith(&'static [u8], &'static [u8], GetOptions, Reply),
    /// A command, planned, and made where there is a change.
    Ask(Command<'static>, Reply),
    /// The same command so many times.
    AskTimes(u8, Command<'static>, Reply),
    /// The reap of a key, made at once.
    Reap(&'static [u8], Reaped),
    /// The reap of the least dead key, made at once: whether there was one.
    ReapFirst(bool),
    /// A sweep from a key, or of all, with a budget.
    Sweep(Option<&'static [u8]>, u32, Swept),
    /// Whether a key at or after one, or any at all, is dead.
    HasDead(Option<&'static [u8]>, bool),
    /// What is counted so far.
    Counted(Tally),
    /// The number of its close, where it is closed.
    ClosedAt(Option<u64>),
    /// The last epoch that it gave.
    LastEpoch(u32),
}

pub(crate) use Step::{
    Ask, AskTimes, ClosedAt, Counted, Get, GetWith, HasDead, LastEpoch, Reap, ReapFirst, Sweep,
};

/// An exchange with a new vnode.
#[derive(Clone, Copy)]
pub(crate) struct Exchange {
    pub(crate) shows: &'static str,
    /// What others begin with too.
    pub(crate) begin: &'static [Step],
    pub(crate) steps: &'static [Step],
}

/// One in which nothing is asked. Rows say what is other.
pub(crate) const NEW_VNODE: Exchange = Exchange {
    shows: "",
    begin: &[],
    steps: &[],
};

/// "v" is put under k, and "w" beside it.
pub(crate) const PUTS_V_AND_W: &[Step] = &[
    Ask(Put(b"k", b"v", NONE), Done),
    Ask(Put(b"k", b"w", NONE), Done),
];

//! Steps with the register, and what is expected of each. Keys are of the bucket "b"; a context is the position that it names.

use crate::exchanges::steps::{GetOptions, PutOptions};

/// What the register is to answer.
#[derive(Clone, Copy)]
pub(crate) enum Reply {
    /// These siblings, and the context of this position.
    Shows(&'static [u64], Option<u64>),
    /// The same, their contents bare.
    Bare(&'static [u64], Option<u64>),
    /// That nothing was modified.
    Unchanged,
    Done,
    Refused(u8),
    Reaped,
    Kept,
}

pub(crate) use Reply::{Bare, Done, Kept, Reaped, Refused, Shows, Unchanged};

/// Nothing is shown of a key that is absent, nor of one that is dead.
pub(crate) const NOTHING: Reply = Shows(&[], None);

/// What is asked of the register, and what it answers.
#[derive(Clone, Copy)]
pub(crate) enum Step {
    /// A get of a key: `if_modified`, and its other options.
    Get(&'static [u8], Option<u64>, GetOptions, Reply),
    /// A put of a key: its value, its context, and its options.
    Put(&'static [u8], u8, Option<u64>, PutOptions, Reply),
    /// So many puts of a key without context and options, of the values 0, 1 and so on: each is done.
    PutTimes(u8, &'static [u8]),
    /// A delete of a key by a context.
    Del(&'static [u8], Option<u64>, Reply),
    /// The reap of a key.
    Reap(&'static [u8], Reply),
    /// The value of a number under a key.
    Value(&'static [u8], u64, Option<u8>),
    /// How many commands were accepted.
    Len(u64),
}

pub(crate) use Step::{Del, Get, Len, Put, PutTimes, Reap, Value};

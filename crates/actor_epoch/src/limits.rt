//! The limits of epochs, counters and contexts, each stated here alone.

/// The greatest epoch of a vnode.
pub const MAX_EPOCH: u32 = 4_294_967_295;

/// A counter: the number of a write or tombstone in the life of an actor.
pub type Counter = u64;

/// The greatest counter of an actor.
pub const MAX_COUNTER: Counter = 18_446_744_073_709_551_615;

/// The most actors of a clock, and the most entries of a context.
pub const MAX_ACTORS: usize = 64;

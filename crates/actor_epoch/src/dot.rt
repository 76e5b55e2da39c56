//! A dot: one write or tombstone.

use crate::actor::Actor;
use crate::limits::Counter;

/// The dot of one write or tombstone. As an entry of a context it covers the dots 1 to `counter` of its actor.
#[derive(Clone, Copy, Debug, PartialEq, Eq)]
pub struct Dot {
    /// The life in which it was written.
    pub actor: Actor,
    /// Its number among the writes and tombstones of that life, from 1 to `MAX_COUNTER`.
    pub counter: Counter,
}

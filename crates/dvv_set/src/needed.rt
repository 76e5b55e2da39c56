//! What the next event of an actor needs.

use actor_epoch::Counter;

/// What the next event of an actor needs of a clock, without what a context saw.
#[derive(Clone, Copy, Debug, PartialEq, Eq)]
pub struct Needed {
    /// How many actors are known after it; a clock knows `MAX_ACTORS` at most.
    pub actors: usize,
    /// The last counter of the actor before it, 0 where there is none; the greatest is `MAX_COUNTER`.
    pub counter: Counter,
}

//! Actors, dots and contexts: who writes a key, which write it was, and what a client has seen.
//!
//! An actor is one life of a key at one vnode (`specs/Dots`: `actor_cmp`), a dot one write or
//! tombstone of it. A context is a list of pairs (actor, n), strictly rising by actor, that covers
//! the dots 1 to n of each (`covers`). Bytes that are given decode to none, to a malformed context
//! or to pairs (`specs/Given`: `context_of`); how pairs are encoded is a definition of its own
//! (`specs/Contexts`: `encoding_as`). The bytes have two versions (`specs/Versions`), which differ
//! in the width of a counter alone: both are read, and the second is written. An `EpochSource`
//! gives each epoch of a vnode once (`specs/Epochs`: `next_epoch`).
//!
//! Reading a context takes no memory and one pass over its bytes; asking whether it covers a dot
//! takes one more. Writing takes one allocation. A `Context` is a slice of the bytes that it was
//! read from; nothing is kept beside it.
//!
//! ```text
//! EpochSource::new(1).next()                          Some(1), the epoch of the first life at a vnode
//! let a = Actor { vnode: 65_536, epoch: 1 };
//! let bytes = Context::write(alloc, &[(a, 2)])?;      02 0000000000010000 00000001 0000000000000002
//! let context = Context::read(&bytes)?;               Some: the pair (a, 2)
//! context.covers(&Dot { actor: a, counter: 2 })       true, and false at the counter 3
//! ```
//!
//! # Proved
//!
//! An [`EpochSource`] never gives an epoch twice, and gives none exactly after the greatest.
//! [`Context::given`] and [`Context::read`] compute what bytes decode to, without memory. What
//! [`Context::write`] wrote decodes to its pairs again, and nothing else does. By the calls of
//! `EpochSource` and `Context`; laws `what_is_written_is_read`, `pairs_cover_up_to_their_counters`,
//! `limits_are_those_of_the_definitions`.
#![tactic(auto)]

mod actor;
mod context;
mod context_pairs;
mod dot;
mod epoch_source;
mod laws;
mod limits;
mod version;

pub use actor::Actor;
pub use context::{Context, MalformedContext};
pub use context_pairs::ContextPairs;
pub use dot::Dot;
pub use epoch_source::EpochSource;
pub use laws::{
    limits_are_those_of_the_definitions, pairs_cover_up_to_their_counters, what_is_written_is_read,
};
pub use limits::{Counter, MAX_ACTORS, MAX_COUNTER, MAX_EPOCH};

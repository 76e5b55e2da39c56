//! Dotted version vector sets: the clock of a key, with its concurrent values.
//!
//! A clock means a set of known dots, and those of them that are live, each with its value
//! (`specs/Clocks`: `DotState`). Its calls are `sync`, `discard` and `event` there, in `specs/Laws`
//! dot by dot. In code a clock is the module's entries (actor, n, values): the dots 1 to n are
//! known, and the values, newest first, have the last of them (`specs/ClockEntries`).
//!
//! Known and live dots follow the `dvvset` module of Riak without its anonymous values. Its update
//! first syncs with the pairs of a context, which is a call of its own here, `discard`. An actor is
//! found by a walk over the entries, 64 at most; an event moves the actor's values once. A clock
//! holds one entry and each entry two values in place (`InlineList`). It takes memory for more,
//! and, to make room for a value, for one more in each entry that is full.
//!
//! Where a change is accepted before it is made, `uncovered`, `is_actors_full` and `needed` say how
//! its limits stand, `reserve` makes its room and is refused by memory alone, and `put_ready` or
//! `overwrite_ready` makes it in that room; a sync is so made by `reserve_sync` and `sync_ready`.
//!
//! ```text
//! let mut clock = Clock::new(alloc);                  values: none; join: none
//! clock.event(a, Some(1))?; clock.event(a, Some(2))?; values: 2, 1; join: (a, 2)
//! clock.discard(&context)?;                           with the context (a, 1): values: 2; join: (a, 2)
//! clock.event(b, Some(3))?;                           values: 2, 3; join: (a, 2), (b, 1)
//! clock.covers(&Dot { actor: a, counter: 1 })         true: it is known, and no longer live
//! ```
//!
//! # Proved
//!
//! `sync`, `discard`, `event` and `join` are the set operations on known and live dots. A sync is
//! idempotent, commutative and associative in what is known and live, and an upper bound. After
//! `reserve`, `put_ready` or `overwrite_ready` takes no memory. A refusal comes exactly if its
//! definition says so, and changes nothing. By the calls of `Clock`; laws
//! `calls_are_set_operations`, `sync_joins`, `discard_of_all_leaves_no_value`.
//!
//! # Open
//!
//! That `sync_ready` takes no memory.
#![tactic(auto)]

mod clock;
mod clone_value;
mod entry;
mod fault;
mod inline;
mod known_pairs;
mod laws;
mod merging;
mod needed;
mod room;
mod sizes;
mod values;

pub use clock::Clock;
pub use clone_value::CloneValue;
pub use fault::{ClockFault, Rejected};
pub use known_pairs::KnownPairs;
pub use laws::{calls_are_set_operations, discard_of_all_leaves_no_value, sync_joins};
pub use needed::Needed;
pub use sizes::Sizes;
pub use values::Values;

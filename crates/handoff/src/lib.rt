//! The gates of a run, and the fallbacks of partitions that are diverted.
//!
//! A [`Handoff`] has a gate (`rw_gate`) round the vnode of each partition of a ring: the partition's
//! primary. A partition may be diverted. Then a fallback stands beside its primary: a gate round another
//! vnode, which has an id of its own, a history of its own, and no keys at first. From then on the
//! partition's calls are the fallback's, and what the primary holds stays as it is; so who answers a call
//! asks [`Handoff::fallback`] first.
//!
//! While calls go on, [`Handoff::copy_back`] copies the fallback's keys to the primary, each by a sync of
//! the key's two clocks. [`Handoff::finish_return`] ends the diversion, where each key is copied as it is
//! then: it closes the fallback, which drops its keys and takes nothing more. Who finds it closed goes to
//! the primary, and there to a state that has as many entries as the close says. The closed fallback
//! stays where it is until the partition is diverted again.
//!
//! ```text
//! handoff.divert(alloc, 0)?                  the calls of partition 0 are for its fallback; say they put b/j and b/k there
//! handoff.copy_back(rt, alloc, 0, 1)?        keys: 1, stuck: 0, left: 1    b/j, the first in their order, is copied
//! handoff.finish_return(rt, alloc, 0)        Err(LeftOver(passes))         these passes show that b/k isn't
//! handoff.copy_back(rt, alloc, 0, 10)?       keys: 1, stuck: 0, left: 0
//! handoff.finish_return(rt, alloc, 0)?       the calls of partition 0 are for its primary again
//! handoff.finish_return(rt, alloc, 0)        Err(NotDiverted(pass))         the pass has seen it closed
//! handoff.divert(alloc, 0)?                  a new fallback, whose epochs begin behind the last one's
//! ```
//!
//! What it means: a diversion puts a new fallback beside a partition that has none or a closed one, under
//! the next number of that partition (1, 2, ..), and leaves all else as it was (`IsDiverted` in
//! `specs/Partitions`); the gate of each fallback was made round a new vnode with the id `run * 65536 +
//! 32768 + index` (`IsFallback`). No partition's index reaches 32,768, so no vnode of the run has the id
//! of another. What a copy back made is said by the passes that it gives back (`CopiesBack` in
//! `specs/Copying`): each entry that it published at the primary is a copy (`IsCopy`) of what a look
//! showed at the fallback. That these are the copies of which the law of copies (`copy_joins` of
//! `vnode_core`) says that no sibling is lost or comes again is [`copies_are_true`]. So it is with the
//! end of a diversion (`EndsDiversion` in `specs/Returning`): the close stands right behind what was
//! looked at, and then each key's siblings at the primary are the joint ones of all sides
//! ([`returns_join`]).
//!
//! How a running hand-off meets that law: a fallback keeps the pass that saw the one before it closed,
//! and what the primary had when the partition was diverted ([`Start`]). So the end of a diversion can
//! compare tallies, and says that the fallback took writes and deletes alone, and the primary only copies
//! since then (`EndsFrom`). A caller who copies back alone, one call after another, can compare that its
//! calls made all of these copies ([`copies_are_of_calls`]).
//!
//! What it costs: a partition that isn't diverted has a place for its fallback, and a call looks at that
//! place. A diversion makes one gate and one vnode without keys. A key that is copied, or that is looked
//! at and isn't, is searched for once in each vnode, and is copied for that; a key that is copied back
//! takes three rights and its clock's size in memory, and a stretch of 16 keys that are copied already
//! takes two, and each call one more in the beginning. A return looks at each key once, while no call is
//! answered at the fallback. A diversion looks at the primary once, and a fallback keeps two passes,
//! which have a number each.
//!
//! Rights are taken in one order, the fallback's before the primary's, and no call that holds a primary's
//! asks for a fallback's. So none of these calls waits for another that waits for it.
//!
//! # Proved
//!
//! - `divert` puts a fallback beside a partition's primary. `copy_back` publishes at the primary
//!   copies alone, each of a key's clock as the fallback held it at a look. Each other key that it
//!   tried was stuck: too many siblings or actors would have come of it, or the primary was closed.
//! - `finish_return` closes the fallback if each of its keys was copied as it was. `LeftOver` comes
//!   only with the first key that isn't. By `divert`, `copy_back`, `finish_return`, `Handoff::new`,
//!   `diversion`, `fallback`.
//! - **After any number of diversions of a partition, each of which has returned, the siblings of
//!   each key at the primary are its joint ones. The primary's log is legal for the key** (law
//!   `running_hand_offs_join`). Its caller compares two things of each diversion
//!   (`HasReturnedBehind`). First: the primary took commands alone since the return before. Second:
//!   its calls of `copy_back`, one behind another, copied as many keys as entries came (law
//!   `copies_are_of_calls`).
//! - Contexts have to name what was there. They do if each had been shown for its key (law
//!   `shown_contexts_name`). No reply is tied to a context that a client holds.
//! - If two calls copy back one partition at once, `returns_join` asks for more (`IsHandedOff`). By
//!   the laws `returns_join`, `copies_are_true`, `turns_spare_reaps`.
//!
//! # Tested
//!
//! - Neither vnode reaps during a diversion.
//! - Rights are taken in one order.
//! - A `copy_back` tries as many keys as it may.
//! - A diversion ends, or begins again, if it may: no clause says that a refusal had to be.
//!
//! # Open
//!
//! No contract or test says:
//!
//! - that the tally at the diversion could be read. Without it the diversion doesn't end.
//! - that `began` isn't less than it could be, if the caller's comparisons fail. The console of
//!   `serve` is such a caller (`node_commands`).
#![tactic(auto)]

mod copy_step;
mod copying;
mod counting;
mod fault;
mod gates;
mod laws;
mod left;
mod partitions;
mod returning;

pub use copying::Copied;
pub use fault::{HandoffFault, Returned};
pub use gates::{Fallback, Start};
pub use laws::{
    copies_are_of_calls, copies_are_true, returns_join, running_hand_offs_join,
    shown_contexts_name, turns_spare_reaps,
};
pub use partitions::Handoff;
pub use rw_gate::{Gate, Pass, ReadRight};
pub use vnode_core::{Tally, Vnode};

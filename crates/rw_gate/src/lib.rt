//! A gate round a state: many may read it or one may write it, and each change is one event of one history.
//!
//! What it means: each state that is shown is the replay of a prefix of that history (`IsReplay` of
//! `specs/Histories`), the prefix that the right holds. A caller's `Pass` holds which prefix the caller
//! has seen, and no look shows it an older one. A change is made at one atomic exchange,
//! `WriteRight::publish`, and the history has then just one event more, with the reply that was answered.
//!
//! ```text
//! let gate = Gate::new(alloc, GatedCounter { value: 0 })?;
//! let mut pass = gate.pass();         // pass.seen() is 0
//! let mut right = gate.write(rt);     // the counter is in hand, and no one else is in
//! right.look(&mut pass)               // Ok: the counter 0
//! right.prepare(alloc, 5)             // Ok(Plan::Change(change)), and the counter is 0 still
//! right.publish(&mut pass, change)    // Ok(5): the history is `+5 = 5`, and pass.seen() is 1
//! right.release();                    // the counter 5 is in place, and may be read
//! ```
//!
//! [`ask`] is that way in one call, and [`ask_under`] the part of it under a right that the caller has.
//! What came of an ask ([`AskOutcome`], `specs/Asking`): one that was accepted is the event at one
//! position of the history, behind all that the caller had seen, published once and the caller's own; one
//! that changes nothing, or that was refused, is so by the machine's state at the end of what the caller
//! has then seen. `Moved` and `Full` change nothing: the history had gone on past the state under the
//! right, or it can have no further event.
//!
//! What it costs: an attempt is a load and an exchange, a look a load, a publish an exchange, a release
//! an atomic step or two. A writer moves the state out of its place and back. No call but `prepare` takes
//! memory, and none but `Gate::read`, `Gate::write` and `ask` waits: these attempt again and again, and
//! where many wait for long, one of each goes on attempting and the others sleep.
//!
//! How it is built: the state lies in place in a slot with a counting word (`counted_slot`); the steps of
//! that word are functions, in `words`. The history exists in the proofs alone; threads share its length,
//! a word under a rule (`logbook`). By the rule the history is a run of the state's machine, and names no
//! pass and no thread. What lies in the slot knows a prefix of the history and is its replay, so where
//! the length of that prefix is found in the word, it is the whole history, and the event that was
//! prepared from the state may follow.
//!
//! # Proved
//!
//! The event of a publish is the request that was prepared, and the only one added. `Moved` comes
//! only with a longer prefix, `Full` exactly at the last event. A reader comes in only if the state
//! is in place and unmarked, a writer only if no reader is in. By the calls of `Gate`, `ReadRight`,
//! `WriteRight` and `Pass`, and `ask`, `ask_under`, `ask_shown`.
//!
//! # Tested
//!
//! The word takes the steps of its definition and no others. `mark` and `unmark` answer as their
//! docs say. A reader and a writer who wait are both served, also if other callers come and go.
//!
//! # Open
//!
//! No contract or test says:
//!
//! - that a look loads;
//! - that `Moved` comes at all, and only behind a look;
//! - what two passes have seen if both get `Moved` under one right;
//! - that `write` marks the state while it waits.
#![tactic(auto)]

mod asking;
pub mod counter;
mod gate;
mod kept;
mod log;
mod pass;
mod read;
mod slot_value;
mod words;
mod write;

pub use asking::{AskOutcome, ask, ask_shown, ask_under};
pub use counted_slot::MOST_READERS;
pub use gate::Gate;
pub use kept::{Kept, Plan};
pub use pass::{Moved, Pass};
pub use read::ReadRight;
pub use write::{PublishFault, WriteRight};

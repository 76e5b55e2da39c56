//! The sibling register: what a store that keeps siblings answers, as a function of its whole
//! history.
//!
//! A history lists what was accepted, newest first (`specs/History`). A key's siblings are its
//! writes and tombstones that no later accepted command of it saw (`specs/Siblings`). A context
//! names a position of a key, and a command saw the key's events up to there (`specs/Naming`). So
//! each answer follows from the history alone, with no counters, epochs or locks (`specs/Answers`);
//! it keeps every event, reaps too, and is legal where each may follow those before it
//! (`specs/Legal`). The naming of contexts is a parameter: a store that shows contexts of its own
//! defines what they name, and is held to the same definitions.
//!
//! [`PlainRegister`] is the register as a program: a list of all accepted commands, which is never
//! shortened. Beside it stands an index of the keys, so that a call takes the same time however
//! long the list is, but for a search.
//!
//! ```text
//! put b/k "v"                    Done
//! put b/k "w"                    Done                       a second sibling: it gave no context
//! get b/k                        Shown [2, 1], position 2
//! put b/k "x", context 2         Done                       "x" replaces what its context saw
//! get b/k                        Shown [3], position 3
//! ```
//!
//! # Proved
//!
//! [`PlainRegister`] is the sibling register: it answers each command as the definitions say. A
//! context of a position settles what a command saw. Counting a key's events is a naming. By
//! `PlainRegister::ask`, `PlainRegister::value`, `PlainRegister::len`; laws
//! `values_leave_only_seen`, `counting_is_a_naming`, `a_context_names_one_sight`,
//! `answers_stay_legal`.
//!
//! # Tested
//!
//! A call with ample memory succeeds, with every option.
#![tactic(auto)]

mod command;
mod del;
mod entry;
mod fault;
mod get;
mod key_index;
mod key_map;
mod key_state;
mod laws;
mod numbers;
mod operation;
mod planned;
mod put;
mod reap;
mod refusals;
mod register;
mod told;

pub use command::Command;
pub use fault::RegisterFault;
pub use laws::{
    a_context_names_one_sight, answers_stay_legal, counting_is_a_naming, values_leave_only_seen,
};
pub use numbers::Numbers;
pub use refusals::{MATCH_FOUND, MAX_SIBLINGS, MODIFIED, NOT_FOUND, TOO_MANY_SIBLINGS};
pub use register::PlainRegister;
pub use told::Told;

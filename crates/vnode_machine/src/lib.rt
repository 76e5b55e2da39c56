//! The vnode machine: what one vnode means, and the law that it is a sibling register.
//!
//! A vnode keeps for each stored key an actor and a dotted version vector set (`specs/Machine`,
//! `State`). A write or tombstone discards what its context covers and then takes the next dot of
//! the key's actor, a new actor where the key has none; a reap forgets a dead key whole
//! (`apply_operation`). What it refuses, in which order, is `put_check` and `del_check`; what it
//! shows is `get_reply` and `put_reply` (`specs/Replies`). What comes of an ask in a state is one
//! function, `outcome` (`specs/Step`): refused, answered with nothing changed, or accepted, with
//! the next state. The replay of a list of events is the machine's state after them
//! (`specs/Replay`, `replay`, `HasReplay`). What a copy from another vnode and a close change is
//! `specs/Copying`; a key that came by copies alone has a clock and no actor here. Commands, copies
//! and closes keep a state sound (`IsSound` in `specs/Sound`, `proofs/Formed`, `proofs/Copying`).
//!
//! So a vnode keeps one compact clock a key and forgets it at a reap, and yet behaves as
//! `sibling_register` does, which keeps every event for good and compares sets of numbers
//! (`specs/Registers`, `IsRegisters`). Its proof goes over the history, event by event
//! (`proofs/Steps`): the live dots of a key are its siblings, one by one, and what an earlier
//! position knew splits them into those that it had seen and those that came later. So the turns
//! that a vnode takes one after another, refusals for want of memory among them, are those of a
//! legal history (`runs_are_histories`, `specs/Runs`).
//!
//! One life of a key at vnode 65536, written as (epoch, counter):
//!
//! ```text
//! put "v"                     live (1,1) "v"                knows (1,1)
//! put "w"                     live (1,2) "w", (1,1) "v"     knows (1,2)
//! put "x" by context (1,1)    live (1,3) "x", (1,2) "w"     knows (1,3)
//! delete                      live (1,4) tombstone          knows (1,4)
//! reap                        absent
//! put "y"                     live (2,1) "y"                knows (2,1)
//! put "z" by context (1,1)    live (2,2) "z", (2,1) "y"     knows (1,1), (2,2)
//! ```
//!
//! This crate has definitions and laws alone: nothing in it runs, so it costs nothing. Definitions
//! of the state compute, and `proofs/Exchange` and `proofs/Rows` evaluate whole exchanges on them.
//!
//! # Proved
//!
//! **The vnode machine is the sibling register.** What comes of an ask (`outcome`) is what the
//! register may give, at every history that may have led to the state. An accepted ask is the
//! register's next event. After it the history is legal, and the machine's contexts are its naming.
//! If clients give only contexts that were shown to them for that key, the event saw just what was
//! there. By laws `machine_is_register`, `runs_are_histories`, `shown_context_is_the_name`,
//! `no_dot_is_issued_twice`, `dots_are_of_lives`, `values_leave_only_covered`,
//! `shown_contexts_name_positions`, `first_dead_is_least`.
#![tactic(auto)]

mod laws;

pub use laws::{
    dots_are_of_lives, first_dead_is_least, machine_is_register, no_dot_is_issued_twice,
    runs_are_histories, shown_context_is_the_name, shown_contexts_name_positions,
    values_leave_only_covered,
};

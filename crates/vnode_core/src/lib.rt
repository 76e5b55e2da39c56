//! One vnode of a store that keeps siblings: gets, puts, deletes and reaps of its keys, as Riak answers them.
//!
//! A [`Vnode`] is the vnode machine (`State` in `specs/Machine` of `vnode_machine`), and each call is the
//! machine's step (`outcome` in its `specs/Step`): each key that it holds has the actor of its life, but
//! where it came by copies alone, and a clock whose live dots are its siblings. A command is refused, or
//! planned by [`Vnode::prepare`] and made by [`Vnode::finish`].
//!
//! What a command comes to is the machine's outcome of it (`planned` in `specs/Plans`). A call that plans
//! a command meets `Plans`, or refuses it as `Refuses` says; one that makes it meets `Steps`; and in each
//! sound state (`IsSound` of `vnode_machine`) these are outcomes of the sibling register
//! (`RegistersPlan`). Each [`Refusal`] has its number (`specs/Refusals`) and its error text.
//!
//! What is prepared is in the vnode's model, the whole command with its options and its context as given,
//! and a [`Change`] is that command and nothing else. Room, the actor and the answer that were made for
//! it lie in the vnode, so nothing that callers see is a place, an index or a number of actors. The next
//! `prepare` or `finish` ends the command; the room of a copy that was given up stays until room is made
//! again, or a reap or a close ends it.
//!
//! Behind a gate (`rw_gate`) a vnode is a [`Kept`] state, and an [`Entry`] is what its history consists
//! of: a [`VnodeEvent`], which is a command that was accepted with its answer, a copy of a key from
//! another vnode, or the close of a vnode, after which it takes nothing more. Its change there, a
//! [`LoggedChange`], carries for clauses alone the vnode that it was prepared from, and the two name the
//! [`VnodeEvent`] that it makes in the gate's history, with its answer. [`histories_are_legal`] is the
//! law of such a history.
//!
//! Dead keys stay, with their clocks, until a reap forgets them.
//!
//! A vnode may stand beside another, as the fallback of a primary: [`is_copied`] says whether the primary
//! has a key as the fallback has it now, and [`count_left`] how many keys it hasn't so.
//!
//! Its storage is any [`ClockStore`](clock_store::ClockStore): a [`VnodeOver`] is proved from that
//! trait's contract alone, so each form of storage gives the same vnode, and [`Vnode`] is the one over
//! the ordered map. What a key costs to find is the form's; a put looks its key up once, for its checks,
//! its answer (`checks` and `replies`) and its room, and a new key is put where a second search leads. A
//! put or a delete takes memory in `prepare` alone: room in the store for its key, in the key's clock for
//! the actors that are new to it, and for its siblings with one more. `finish` takes none, so what is
//! accepted is never half made. Making a put moves the key's siblings once.
//!
//! ```text
//! Vnode::new(alloc, 65536, 1)               no key; the first life's epoch is 1
//! vnode.prepare(alloc, Ask::Put(put))?      Plan::Change(change), for "v" under b/k
//! vnode.finish(change)                      Answer::Put, which shows nothing
//! vnode.get(alloc, &get)?                   "v", and the context of one entry: (65536, 1) with counter 1
//! vnode.tally()                             writes: 1, tombstones: 0, reaps: 0
//! ```
//!
//! ```text
//! Ask::Put(put)              planned as Plan::Change, made with Answer::Put(reply)     VnodeEvent::Put(put, reply)
//! Ask::Del(del)              planned as Plan::Change, made with Answer::Del            VnodeEvent::Del(del)
//! Ask::Del(del), absent      planned as Plan::Nothing(Answer::Del)                     no event
//! Ask::Reap(key), dead       made with Answer::Reaped(Reaped::Gone)                    VnodeEvent::Reap(key)
//! Ask::Put(put), 64 stay     Refusal::TooManySiblings, Text::TooManySiblings           no event
//! ```
//!
//! Sources: the documentation of Riak's Protocol Buffers client API for get, put and delete, and of its actor epochs;
//! dotted version vector sets (Preguiça, Baquero, Almeida, Fonte, Gonçalves) for dots, and for which siblings stay.
//!
//! # Proved
//!
//! - **At every history that led to the state, each answer and refusal is the sibling register's,
//!   and a finished command is its next event.** This holds over every `ClockStore` (`Registers` in
//!   `specs/Plans`), and so at every log that is legal for the key.
//! - `prepare` refuses exactly as the machine checks, and by `no memory` only if the machine
//!   accepts. The state stays. `refusal_without_memory` gives a put the same refusals, and makes no
//!   room for it. `finish` takes no memory.
//! - `reap` and `reap_first` forget dead keys alone. A copy syncs its key's two clocks, or is
//!   stuck. A closed vnode answers `Closed`.
//! - `sweep` forgets exactly the first dead keys at or after a key, in key order, as many as its
//!   budget at most. Each goes by a reap that the register accepts. `sweep` takes no memory.
//!
//! By the calls of `Vnode`, `StoredReply` and `KeyCopy`, `is_copied`, `count_left`, `sweep`,
//! `From<Refusal> for Text` and `impl Kept for Vnode`; law `histories_are_legal`.
//!
//! # Tested
//!
//! Calls with ample memory succeed. `finish` makes no allocation.
//!
//! # Open
//!
//! No contract or test says that room which was made and not used is given back.
#![tactic(auto)]

mod ask;
mod change;
mod checks;
mod context;
mod entry;
mod event;
mod kept;
mod key_copy;
mod laid_answer;
mod laws;
mod left;
mod lookup;
mod ready;
mod refusal;
mod replies;
mod sole_writer;
mod stored_reply;
mod sweeps;
mod vnode;

pub use ask::{Answer, Ask, Plan, Reaped};
pub use change::Change;
pub use clock_store::{FoundKey, KeyRef, OwnActor, ShortKey, StoredClock, given_parts};
/// The law of copies between a primary vnode and its fallbacks: what is live of a key at the primary are
/// its joint siblings.
pub use copy_laws::copy_joins;
pub use entry::Entry;
pub use event::{VnodeEvent, histories_are_legal};
pub use kept::LoggedChange;
pub use key_copy::{CloneSibling, KeyCopy};
pub use laws::{
    dots_are_of_lives, first_dead_is_least, machine_is_register, no_dot_is_issued_twice,
    runs_are_histories, shown_context_is_the_name, shown_contexts_name_positions,
    values_leave_only_covered,
};
pub use left::{count_left, is_copied};
pub use lookup::Lookup;
pub use refusal::Refusal;
pub use rw_gate::Kept;
pub use stored_reply::StoredReply;
pub use sweeps::{Swept, sweep};
pub use vnode::{Tally, Vnode, VnodeOver};

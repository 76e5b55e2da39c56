//! The storage of a vnode as a list in key order.
//!
//! ```text
//! let mut list = ClockList::new(alloc);
//! list.reserve(alloc, &k, None, None, a, WriteKind::Value)?;  room for the row of k, at its place in the order
//! list.write(k.clone(alloc)?, None, a, Some(v));              the row stands there, with v in its clock
//! list.has_dead(None)                                         false: k has a value
//! list.forget_dead(&k)                                        Reaped::Kept: it isn't dead
//! ```
//!
//! [`ClockList`] keeps each key with its clock in one list, sorted by key. A call looks through it from
//! the front, and a new key moves those behind it: n keys cost n. Room for a write is a place in the
//! list, with a copy of the key, and for a new key its row, which goes in at that place without memory.
//!
//! It is the plain form of [`ClockStore`], for tests to compare others with.
//!
//! # Proved
//!
//! The list meets the contract of every form of storage. By `impl ClockStore for ClockList`.
//!
//! # Tested
//!
//! A vnode over the list (`ListVnode`) gives the same answers and tallies as the program's vnode.
//! The test makes 1,000 requests over 20 keys: with contexts of earlier replies, deletes and reaps.
#![tactic(auto)]

mod list;
mod place;
mod removal;
mod row;

pub use clock_store::ClockStore;
pub use list::ClockList;

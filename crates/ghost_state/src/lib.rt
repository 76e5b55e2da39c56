//! Ghost state: values that only clauses read. They have no bytes, and making one does nothing at run time.
//!
//! A struct, a change or an event carries one for what its contract has to name and its code never needs:
//! the command that was prepared, the positions at which a caller published. The model of a
//! [`GhostValue`] is an optional value, that of a [`GhostList`] a list. They cost no memory, no time and
//! no byte of the struct that they stand in. They may cross threads.
//!
//! ```text
//! GhostValue::some(&7)                // in clauses Some 7
//! let mut list = GhostList::new();    // in clauses []
//! list.push(&3);                      // [3]
//! list.push(&5);                      // [3, 5]
//! size_of::<GhostList<u64>>()         // 0
//! ```
//!
//! How it is built: a list is what was seen of a log (`logbook::Seen`) that is opened with the whole
//! list, has no word, and never grows. A value is a list of at most one.
//!
//! # Proved
//!
//! By the calls of `GhostValue` and `GhostList`.
//!
//! # Tested
//!
//! Both types have no bytes.
#![tactic(auto)]

mod list;
mod value;

pub use list::{GhostList, Listing};
pub use value::GhostValue;

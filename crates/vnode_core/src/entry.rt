//! What the history of a vnode behind a gate consists of.

use crate::event::VnodeEvent;
use crate::key_copy::KeyCopy;

/// An entry of the history of a vnode behind a gate. Clauses alone speak of it, and code makes none.
pub enum Entry {
    /// A command that was accepted.
    Command(VnodeEvent),
    /// At a primary: a key's clock was synced with the one that it had at a fallback.
    Copied(KeyCopy),
    /// At a fallback: all keys were forgotten, and no command is taken any more. The number is the length
    /// of the primary's history.
    Closed(u64),
}

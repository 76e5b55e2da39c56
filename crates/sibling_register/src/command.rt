//! What the register is asked.

use riak_msgs::Key;

/// What the register is asked.
///
/// A context is given as the position that it names: how many accepted commands came before it was shown, those of
/// other keys among them. A position is not past the end of the history.
#[derive(Drop)]
pub enum Command<V> {
    /// Asks for the siblings of a key. Where the key is present and `if_modified` is its context, it shows that nothing
    /// was modified; `head` shows contents bare, and `deletedvclock` the context of a dead key.
    Get {
        key: Key,
        if_modified: Option<u64>,
        head: bool,
        deletedvclock: bool,
    },
    /// Writes a value that replaces what its context saw, and nothing where it has none.
    Put {
        key: Key,
        context: Option<u64>,
        value: V,
        return_body: bool,
        return_head: bool,
        if_not_modified: bool,
        if_none_match: bool,
    },
    /// Writes a tombstone that replaces what its context saw, and all siblings where it has none.
    Del {
        key: Key,
        context: Option<u64>,
    },
    /// Forgets a dead key.
    Reap {
        key: Key,
    },
}

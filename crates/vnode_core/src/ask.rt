//! What a vnode is asked to change, and what it answers.

ghost use Rattle.std.specs.Prelude.{◌≡◌};
ghost use Rattle.vnode_core.specs.Replies.{answer_reply};

use crate::key_copy::KeyCopy;
pub use clock_store::Reaped;
use riak_msgs::{DelAsk, Key, PutAsk, PutReply, Reply, Text};
pub use rw_gate::Plan;

/// A command that may change a vnode.
#[derive(Drop)]
pub enum Ask {
    /// Write a content under a key.
    Put(PutAsk),
    /// Write a tombstone over what the deleter has seen of a key.
    Del(DelAsk),
    /// Forget a key with its clock, where it is dead.
    Reap(Key),
    /// Forget the least dead key at or after this one, or of all where none is given.
    ReapFirst(Option<Key>),
    /// Sync a key's clock with the one that it had at another vnode.
    Copy(KeyCopy),
    /// Forget all keys, and take no command any more. The number goes into the close.
    Close(u64),
}

/// The answer to a command that isn't refused.
#[derive(Drop)]
pub enum Answer {
    /// To a put: what it asked to be shown, else nothing.
    Put(PutReply),
    /// To a delete.
    Del,
    /// To a reap.
    Reaped(Reaped),
    /// To a copy.
    Copied,
    /// To a copy after which the key would have more than 64 siblings, or its clock more than 64 actors:
    /// nothing changed.
    Stuck,
    /// To a close; and to whatever is asked of a vnode that is closed, where nothing changes.
    Closed,
}

/// The reply for an answer. No request asks for a reap, and one is replied to as a delete is; of a vnode that
/// is closed, or that was asked for a copy, it is the error `moved`. It takes no memory.
impl From<Answer> for Reply {
    ghost from_gives = { λ answer reply. reply ≡ answer_reply answer };

    #[inline(always)]
    fn from(answer: Answer) -> Reply {
        match answer {
            Answer::Put(reply) => Reply::Put(reply),
            Answer::Del => Reply::Del,
            Answer::Reaped(Reaped::Gone | Reaped::Kept | Reaped::Absent) => Reply::Del,
            Answer::Copied | Answer::Stuck | Answer::Closed => Reply::Error(Text::Moved),
        }
    }
}

//! An accepted command as it is kept.

use crate::operation::Operation;
use riak_msgs::Key;

/// An accepted command. Its context is how many events the key had at the position that it names, and it saw the key's
/// events up to the number `saw`.
#[derive(Drop)]
pub(crate) struct Entry<V> {
    pub(crate) key: Key,
    pub(crate) operation: Operation<V>,
    pub(crate) context: Option<u64>,
    pub(crate) saw: u64,
}

//! What the thread of a node keeps, and lends to the node.
ghost use Rattle.std.specs.Prelude.{◌≡◌, ◌<◌, ◌^◌};
ghost use Rattle.riak_msgs.specs.Requests.{default_key};
ghost use Rattle.node_session.specs.PlainNodes.{partition_of};

use crate::node::GateNode;
use crate::partition_cache::PartitionCache;
use crate::reserve::{Reserve, ReserveOf};
use crate::turnstile::Turnstile;
use riak_msgs::{DEFAULT_TYPE, Key};
use stats_book::CountReplies;
use std::sync::Wait;

impl<'a, W: Wait, T: Turnstile, C: CountReplies> GateNode<'a, W, T, C> {
    /// This node with memory kept back for what doesn't make its vnodes grow. It takes no memory.
    pub fn with_reserve(mut self, reserve: &'a Reserve<'a>) -> Self
        ensures { result ≡ self.entry }
    {
        self.reserve = ReserveOf::lent(reserve);
        self
    }

    /// This node with the partitions of the keys that its thread met. It takes no memory.
    pub fn with_partitions(mut self, partitions: &'a PartitionCache) -> Self
        ensures { result ≡ self.entry }
    {
        self.partitions = Some(partitions);
        self
    }

    /// The index of the partition that a key lies in, as its thread remembers it, or by the key's digest.
    #[inline(always)]
    pub(crate) fn index(&self, key: &Key) -> usize
        ensures index { result ≡ partition_of self.now.shared.index_bits key.now }
        ensures below { result < 2 ^ self.now.shared.index_bits }
    {
        let shared = self.shared;
        let ring = shared.handoff.ring();
        usize::from(match self.partitions {
            Some(partitions) => partitions.index(&ring, key),
            None => ring.index(key),
        })
    }
    /// The same of the key of the default bucket type with these names.
    #[inline(always)]
    pub(crate) fn index_of_names(&self, bucket: &[u8], key: &[u8]) -> usize
        ensures index { result
            ≡ partition_of self.now.shared.index_bits (default_key bucket.now key.now) }
        ensures below { result < 2 ^ self.now.shared.index_bits }
    {
        let shared = self.shared;
        let ring = shared.handoff.ring();
        usize::from(match self.partitions {
            Some(partitions) => partitions.index_of_names(&ring, bucket, key),
            None => ring.index_of_names(DEFAULT_TYPE, bucket, key),
        })
    }
}

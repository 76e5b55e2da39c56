//! A ring of partitions, and the ids of the vnodes that serve them.
ghost use Rattle.std.specs.Prelude.{◌≡◌, ◌<◌, ◌≤◌, ◌^◌, ◌↔◌, IsSome, IfSome};
ghost use Rattle.ring_map.specs.Ring.{IsRingSize, digest_of, names_digest, id_of, index_of};

use crate::key_digest::names_digest;
use byteorder::{BigEndian, ByteOrder};
use riak_msgs::Key;
use sha1::DIGEST_LEN;
use std::marker::Model;

/// How many partitions a ring has at most.
pub const MAX_PARTITIONS: u16 = 1024;

/// A ring of a power of two of partitions, from 1 to 1,024. Contracts see how many bits number them.
#[derive(Clone, Copy, Debug, PartialEq, Eq)]
pub struct Ring {
    index_bits: u32,
}

impl Model for Ring {
    ghost use Rattle.std.specs.Prelude.{ℕ, ◌≤◌};

    ghost Value = { ℕ };

    ghost view = { λ ring. ring.index_bits };

    ghost invariant = { λ ring. ring.index_bits ≤ 10 };

    ghost inverse = { λ bits. record { index_bits = bits } };
}

impl Ring {
    /// A ring of `size` partitions; `None` where that is no power of two from 1 to 1,024.
    pub fn new(size: u16) -> Option<Ring>
        ensures size { IfSome result (λ ring. 2 ^ ring ≡ size) }
        ensures some { IsSome result ↔ IsRingSize size }
    {
        if !size.is_power_of_two() || size > MAX_PARTITIONS {
            return None;
        }
        Some(Ring {
            index_bits: size.trailing_zeros(),
        })
    }

    /// How many partitions there are.
    pub fn size(&self) -> u16
        ensures value { result ≡ 2 ^ self.now }
        ensures bound { result ≤ 1024 }
    {
        1 << self.index_bits
    }

    /// The partition of a digest, below the ring's size.
    pub fn index_of(&self, digest: &[u8; DIGEST_LEN]) -> u16
        ensures index { result ≡ index_of self.now digest.now }
        ensures below { result < 2 ^ self.now }
    {
        let first_two = u32::from(BigEndian::read_u16(digest));
        (first_two >> (16 - self.index_bits)) as u16
    }

    /// The partition of a key, below the ring's size. It costs one SHA-1 over the key, and none where the ring has but
    /// one partition.
    pub fn index(&self, key: &Key) -> u16
        ensures index { result ≡ index_of self.now (digest_of key.now) }
        ensures below { result < 2 ^ self.now }
    {
        self.index_of_names(
            key.bucket_type.as_slice(),
            key.bucket.as_slice(),
            key.key.as_slice(),
        )
    }

    /// The same of the key with these names: a bucket type, a bucket and a key, which lie where they lie.
    pub fn index_of_names(&self, bucket_type: &[u8], bucket: &[u8], key: &[u8]) -> u16
        ensures index { result
            ≡ index_of self.now (names_digest bucket_type.now bucket.now key.now) }
        ensures below { result < 2 ^ self.now }
    {
        if self.index_bits == 0 {
            return 0;
        }
        self.index_of(&names_digest(bucket_type, bucket, key))
    }
}

/// The id of the vnode that serves partition `index` in run `run`: `run * 65,536 + index`, below 2 to the 48.
///
/// Any index is served; those of a ring are below 1,024, so that two vnodes of one run, or of two runs, have two ids.
pub fn vnode_id(run: u32, index: u16) -> u64
    ensures { result ≡ id_of run index }
{
    (u64::from(run) << 16) + u64::from(index)
}

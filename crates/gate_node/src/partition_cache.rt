//! The partitions of the keys that a thread met.
ghost use Rattle.std.specs.Prelude.{◌≡◌, ◌<◌, ◌^◌, IfSome, IfOk, IsTrue};
ghost use Rattle.std.specs.List.{All};
ghost use Rattle.ring_map.specs.Ring.{digest_of, index_of};
ghost use Rattle.riak_msgs.specs.BucketTypes.{default_type};
ghost use Rattle.riak_msgs.specs.Requests.{default_key};
ghost use Rattle.gate_node.specs.PartitionCache.{IsIndexed, key_in};

use crate::cached_key::CachedKey;
use crossbeam_utils::CachePadded;
use riak_msgs::{BucketType, Bytes, DEFAULT_TYPE, Key};
use ring_map::Ring;
use std::alloc::{AllocError, Global};
use std::cmp::Ordering;
use std::marker::Model;
use std::sync::Mutex;

/// A key, and the partition that it lies in.
#[derive(Clone, Copy)]
struct Entry {
    key: CachedKey,
    index: u16,
}

/// The entries of a cache, one for each place, and the ring of whose partitions they speak. Contracts see the ring.
#[derive(Drop)]
struct Entries {
    ring: Ring,
    places: Vec<Entry>,
}

impl Model for Entries {
    ghost use Rattle.std.specs.Prelude.{ℕ};
    ghost use Rattle.std.specs.List.{All};
    ghost use Rattle.gate_node.specs.PartitionCache.{IsIndexed};

    ghost Value = { ℕ };

    ghost view = { λ entries. entries.ring };

    ghost invariant = { λ entries. All (IsIndexed entries.ring) entries.places.items };
}

/// The entry of the key whose bucket and name are empty, which is in each place at first.
fn first_entry(alloc: Global, ring: &Ring) -> Entry
    ensures { IsIndexed ring.now result }
{
    let key = Key {
        bucket_type: BucketType::default_type(),
        bucket: Bytes::new(alloc),
        key: Bytes::new(alloc),
    };
    Entry {
        key: CachedKey::empty(),
        index: ring.index(&key),
    }
}

/// Whether a bucket type is the default.
#[inline(always)]
fn is_default(bucket_type: &BucketType) -> bool
    ensures { IsTrue result → bucket_type.now ≡ default_type }
{
    match bucket_type.cmp(&BucketType::default_type()) {
        Ordering::Equal => true,
        _ => false,
    }
}

/// So many places with this entry.
fn places_of(alloc: Global, entry: Entry, count: usize) -> Result<Vec<Entry>, AllocError>
    ensures { IfOk result (λ places. All (λ e. e ≡ entry) places.items) }
{
    let mut places = Vec::with_capacity(alloc, count)?;
    for _ in 0..count {
        places.push(entry)?;
    }
    Ok(places)
}

/// The place that a hash has among so many: its high half, as a fraction of all that it could be.
#[inline(always)]
fn place_of(hash: u64, count: usize) -> usize {
    ((hash >> 32).wrapping_mul(count as u64) >> 32) as usize
}

impl Entries {
    /// So many places for keys on this ring, or none where memory for them is refused.
    fn new(alloc: Global, ring: Ring, count: usize) -> Entries
        ensures { result ≡ ring }
    {
        let first = first_entry(alloc, &ring);
        match places_of(alloc, first, count) {
            Ok(places) => Entries { ring, places },
            Err(_) => Entries {
                ring,
                places: Vec::new(alloc),
            },
        }
    }

    /// The partition of a key, where it is the last that was remembered in this place.
    #[inline(always)]
    fn find(&self, place: usize, key: &CachedKey) -> Option<u16>
        ensures { IfSome result (λ index. index ≡ index_of self.now (digest_of (key_in key.now))) }
    {
        let entry = self.places.get(place)?;
        if entry.key.is_same(key) {
            Some(entry.index)
        } else {
            None
        }
    }

    /// Remembers the partition of a key in a place, and forgets what was there.
    #[inline(always)]
    fn remember(&mut self, place: usize, key: CachedKey, index: u16)
        requires { index ≡ index_of self.old (digest_of (key_in key)) }
        ensures { self.new ≡ self.old }
    {
        if place < self.places.len() {
            self.places[place] = Entry { key, index };
        }
    }

    /// The partition of a key of the default bucket type, by its names: remembered from then on where they are short.
    #[inline(always)]
    fn index_of_names(&mut self, bucket: &[u8], key: &[u8]) -> u16
        ensures index { result ≡ index_of self.old (digest_of (default_key bucket.now key.now)) }
        ensures below { result < 2 ^ self.old }
    {
        let Some(cached) = CachedKey::of_names(bucket, key) else {
            return self.ring.index_of_names(DEFAULT_TYPE, bucket, key);
        };
        let place = place_of(cached.hash(), self.places.len());
        if let Some(index) = self.find(place, &cached) {
            return index;
        }
        let index = self.ring.index_of_names(DEFAULT_TYPE, bucket, key);
        self.remember(place, cached, index);
        index
    }
}

/// The partitions of the keys that a thread met on one ring: as many as it has places, of those of the default bucket type whose bucket and key
/// have up to 48 bytes together. Where two keys have one place, the later is remembered. It takes memory when it is made, and none later.
#[derive(Drop)]
pub struct PartitionCache {
    entries: CachePadded<Mutex<Entries>>,
}

impl PartitionCache {
    /// With so many places, of 52 bytes each, in which nothing is remembered yet; without any where memory for them is refused.
    pub fn new(alloc: Global, ring: Ring, places: usize) -> PartitionCache {
        PartitionCache {
            entries: CachePadded::new(Mutex::new(Entries::new(alloc, ring, places))),
        }
    }

    /// The partition of a key on a ring, below the ring's size: what [`Ring::index`] answers. It is remembered where the cache is of that
    /// ring, and no other thread asks it at this moment.
    #[inline(always)]
    pub fn index(&self, ring: &Ring, key: &Key) -> u16
        ensures index { result ≡ index_of ring.now (digest_of key.now) }
        ensures below { result < 2 ^ ring.now }
    {
        if is_default(&key.bucket_type) {
            return self.index_of_names(ring, key.bucket.as_slice(), key.key.as_slice());
        }
        ring.index(key)
    }

    /// The same of the key of the default bucket type with these names.
    #[inline(always)]
    pub fn index_of_names(&self, ring: &Ring, bucket: &[u8], key: &[u8]) -> u16
        ensures index { result
            ≡ index_of ring.now (digest_of (default_key bucket.now key.now)) }
        ensures below { result < 2 ^ ring.now }
    {
        if let Some(mut entries) = self.entries.try_lock() {
            if entries.ring == *ring {
                return entries.index_of_names(bucket, key);
            }
        }
        ring.index_of_names(DEFAULT_TYPE, bucket, key)
    }
}

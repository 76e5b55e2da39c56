//! An ordered map from keys to places, as a trie of three levels: a map of bucket types, in each a map of buckets, in each a map of keys.
//!
//! ```text
//! let mut map = NameMap::new(alloc);
//! map.insert(alloc, &k, 7)?;            b/k has the place 7
//! map.insert(alloc, &j, 8)?;            b/j has the place 8; the name of the bucket b is not copied again
//! map.get(&k)                           Some(7)
//! map.next(None)                        b/j and 8, the names of b/j as they are stored
//! map.remove(&k)                        Some(7): b/k has no place, b/j has 8
//! ```
//!
//! A place is a number, as the index of what belongs to a key in a slab. Contracts see a [`NameMap`] as the list of all
//! keys in the order of [`Key`](riak_msgs::Key), each with its place (`AssocList`): they say what is found of each key, and
//! that the keys ascend.
//!
//! Names of up to 15 bytes stand as two numbers ([`ShortName`](crate::ShortName)), by which a search compares them, and longer ones as
//! byte strings: buckets and keys have a map for each kind. Both are one in clauses, in the order of bytes.
//!
//! Cost: a call is one search among the bucket types, one among the buckets of that type with names of
//! that kind, and one among such keys of that bucket, in each of which only the names of that level are
//! compared. An `insert` of a new key is one search more, in the level that gets a new entry; a `remove`
//! that leaves a bucket or a bucket type without keys is one search more for each. A `next` is a search
//! in each level, and one more in each that has no key behind, of buckets and keys in both maps.
//!
//! Memory: the name of a bucket is held once, whatever the number of its keys, and a key takes its own
//! bytes and its place alone. A bucket has a tree of its own, of one node or more, and so has a bucket
//! type: many buckets of one key each take more than one map of whole keys would.

ghost use Rattle.std.specs.Prelude.{◌≡◌, [], OnOk, OnErr, Some, None, true, if◌then◌else◌};
ghost use Rattle.std.specs.BTreeMap.{is_at};
ghost use Rattle.std.specs.Option.{option_map};
ghost use Rattle.riak_msgs.specs.declared.key.Key.{Key};
ghost use Rattle.riak_msgs.specs.KeyOrder.{key_cmp};
ghost use Rattle.names.specs.ShortNames.{is_short};
ghost use Rattle.names.specs.AssocList.{get, IsOrdered};
ghost use Rattle.names.specs.Behind.{next_entry};
ghost use Rattle.names.specs.KeyRefs.{key_found, key_after};
ghost use Rattle.names.specs.Nested.{bytes_cmp, bucket_key_cmp, bucket_entries, key_of};
ghost use Rattle.names.specs.Nested.{next_inside, first_behind, AreTypes};

mod behind;
mod buckets;
mod keys;
mod long_buckets;
mod short_buckets;

use crate::key_ref::{FoundKey, KeyRef};
use crate::short_key::ShortKey;
use crate::short_name::ShortName;
use behind::next_entry;
use buckets::BucketPlaces;
use riak_msgs::{BucketType, Key};
use std::alloc::{AllocError, Global};
use std::collections::BTreeMap;
use std::marker::Model;

/// Keys in their order, each with its place.
///
/// A bucket type is held once, a bucket once in its type, and in the bucket the bytes of each key. No bucket type is held
/// without buckets, and no bucket without keys. Contracts see the list of all keys with their places.
pub struct NameMap {
    types: BTreeMap<BucketType, BucketPlaces>,
}

/// One call at each place where one is let go.
impl Drop for NameMap {
    fn drop(self) {
        let NameMap { types: _types } = self;
    }
}

impl Model for NameMap {
    ghost use Rattle.std.specs.Prelude.{ℕ};
    ghost use Rattle.riak_msgs.specs.declared.key.Key.{Key};
    ghost use Rattle.names.specs.AssocList.{AssocList};
    ghost use Rattle.names.specs.Nested.{places_of, AreTypes};

    ghost Value = { AssocList Key ℕ };

    ghost view = { λ p. places_of p.types };

    ghost invariant = { λ p. AreTypes p.types };
}

/// The least key behind one in its own bucket type, with its place.
fn next_in_type<'a>(
    types: &'a BTreeMap<BucketType, BucketPlaces>,
    after: KeyRef<'_>,
) -> Option<(FoundKey<'a>, usize)>
    ensures { option_map (λ entry. (key_found entry.0, entry.1)) result
        ≡ next_inside bucket_entries key_of bytes_cmp bucket_key_cmp after.entry.bucket_type.now
        (after.entry.bucket.now, after.entry.key.now) types.now.entries }
{
    match types.get_key_value(after.bucket_type) {
        None => None,
        Some((bucket_type, buckets)) => match buckets.next(Some((after.bucket, after.key))) {
            None => None,
            Some((bucket, key, place)) => {
                let key = FoundKey {
                    bucket_type,
                    bucket,
                    key,
                };
                Some((key, place))
            }
        },
    }
}

/// The least key of the bucket types behind one, or of all where none is given, with its place.
fn first_behind<'a>(
    types: &'a BTreeMap<BucketType, BucketPlaces>,
    after: Option<&BucketType>,
) -> Option<(FoundKey<'a>, usize)>
    requires { AreTypes types.now }
    ensures { option_map (λ entry. (key_found entry.0, entry.1)) result
        ≡ first_behind bucket_entries key_of bytes_cmp
        (option_map (λ bucket_type. bucket_type.now) after.entry) types.now.entries }
{
    match next_entry(types, after) {
        None => None,
        Some((bucket_type, buckets)) => match buckets.next(None) {
            None => unreachable!(),
            Some((bucket, key, place)) => {
                let key = FoundKey {
                    bucket_type,
                    bucket,
                    key,
                };
                Some((key, place))
            }
        },
    }
}

impl NameMap {
    /// No keys. It takes no memory.
    pub fn new(alloc: Global) -> NameMap
        ensures { result.entries ≡ [] }
    {
        NameMap {
            types: BTreeMap::new(alloc),
        }
    }

    /// The place of a key, if it has one.
    pub fn get(&self, key: &Key) -> Option<usize>
        ensures place { result ≡ get key_cmp self.now key.now }
        ensures ordered { IsOrdered key_cmp self.now }
    {
        match self.types.get(&key.bucket_type) {
            Some(buckets) => buckets.get(&key.bucket, &key.key),
            None => None,
        }
    }

    /// The place of a key of a bucket type by its names of up to 15 bytes.
    #[inline(always)]
    fn get_names(
        &self,
        bucket_type: &BucketType,
        bucket: &ShortName,
        key: ShortName,
    ) -> Option<usize>
        requires bucket { is_short bucket.now ≡ true }
        requires key { is_short key ≡ true }
        ensures place { result ≡ get key_cmp self.now (key_of bucket_type.now (bucket.now, key)) }
        ensures ordered { IsOrdered key_cmp self.now }
    {
        match self.types.get(bucket_type) {
            Some(buckets) => buckets.get_names(bucket, key),
            None => None,
        }
    }

    /// The same as `get` of a key with short names, where no whole key lies anywhere.
    #[inline(always)]
    pub fn get_short(&self, key: ShortKey) -> Option<usize>
        ensures place { result ≡ get key_cmp self.now key }
        ensures ordered { IsOrdered key_cmp self.now }
    {
        let bucket_type = BucketType::default_type();
        let names = key.names();
        self.get_names(&bucket_type, &names.0, names.1)
    }

    /// The least key behind one, or of all where none is given, with its place. It takes no memory.
    pub fn next(&self, after: Option<KeyRef<'_>>) -> Option<(FoundKey<'_>, usize)>
        ensures next { option_map (λ entry. (key_found entry.0, entry.1)) result
            ≡ next_entry key_cmp (key_after after.entry) self.now.entries }
        ensures ordered { IsOrdered key_cmp self.now }
    {
        let Some(after) = after else {
            return first_behind(&self.types, None);
        };
        match next_in_type(&self.types, after) {
            None => first_behind(&self.types, Some(after.bucket_type)),
            Some(found) => Some(found),
        }
    }

    /// Gives a key a place, which replaces the one that it has. The key's bytes are copied, its bucket
    /// and its bucket type where they are new. Refused where memory is, and where the place is no number
    /// of 32 bits; then each key has the place that it had.
    pub fn insert(&mut self, alloc: Global, key: &Key, place: usize) -> Result<(), AllocError>
        ensures inserted { OnOk result ((other : Key) → get key_cmp self.new other
            ≡ (if is_at (key_cmp key.now) other then Some place else get key_cmp self.old other)) }
        ensures refused { OnErr result (self.new.entries ≡ self.old.entries) }
        ensures ordered { IsOrdered key_cmp self.new }
    {
        match self.types.get_mut(&key.bucket_type) {
            Some(buckets) => return buckets.insert(alloc, &key.bucket, &key.key, place),
            None => {}
        }
        let buckets = BucketPlaces::one_key(alloc, &key.bucket, &key.key, place)?;
        let own = key.bucket_type.clone(alloc)?;
        match self.types.insert(own, buckets) {
            Ok(_) => Ok(()),
            Err(_) => Err(AllocError),
        }
    }

    /// Removes all keys. It takes no memory.
    pub fn clear(&mut self)
        ensures { self.new.entries ≡ [] }
    {
        self.types.clear();
    }

    /// Removes a key, and its bucket and its bucket type where these have no other key; returns the place
    /// that it had, if it had one. It takes no memory.
    pub fn remove(&mut self, key: &Key) -> Option<usize>
        ensures place { result ≡ get key_cmp self.old key.now }
        ensures removed { (other : Key) → get key_cmp self.new other
            ≡ (if is_at (key_cmp key.now) other then None else get key_cmp self.old other) }
        ensures ordered { IsOrdered key_cmp self.new }
    {
        match self.types.get_mut(&key.bucket_type) {
            None => None,
            Some(buckets) => {
                let place = buckets.remove(&key.bucket, &key.key);
                let is_empty = buckets.is_empty();
                if is_empty {
                    drop(self.types.remove(&key.bucket_type));
                }
                place
            }
        }
    }

    /// Removes a key of a bucket type by its names of up to 15 bytes.
    fn remove_names(
        &mut self,
        bucket_type: &BucketType,
        bucket: &ShortName,
        key: ShortName,
    ) -> Option<usize>
        requires bucket { is_short bucket.now ≡ true }
        requires key { is_short key ≡ true }
        ensures place { result ≡ get key_cmp self.old (key_of bucket_type.now (bucket.now, key)) }
        ensures removed { (other : Key) → get key_cmp self.new other
            ≡ (if is_at (key_cmp (key_of bucket_type.now (bucket.now, key))) other then None
            else get key_cmp self.old other) }
        ensures ordered { IsOrdered key_cmp self.new }
    {
        match self.types.get_mut(bucket_type) {
            None => None,
            Some(buckets) => {
                let place = buckets.remove_names(bucket, key);
                let is_empty = buckets.is_empty();
                if is_empty {
                    drop(self.types.remove(bucket_type));
                }
                place
            }
        }
    }

    /// The same as `remove` of a key with short names, where no whole key lies anywhere.
    pub fn remove_short(&mut self, key: ShortKey) -> Option<usize>
        ensures place { result ≡ get key_cmp self.old key }
        ensures removed { (other : Key) → get key_cmp self.new other
            ≡ (if is_at (key_cmp key) other then None else get key_cmp self.old other) }
        ensures ordered { IsOrdered key_cmp self.new }
    {
        let bucket_type = BucketType::default_type();
        let names = key.names();
        self.remove_names(&bucket_type, &names.0, names.1)
    }
}

//! Buckets with names of up to 15 bytes, with their keys and places.

ghost use Rattle.std.specs.Prelude.{◌≡◌, [], ◌∷◌, IfOk, OnOk, OnErr, Some, None, IsTrue, true, ◌↔◌};
ghost use Rattle.std.specs.Prelude.{if◌then◌else◌};
ghost use Rattle.std.specs.BTreeMap.{is_at};
ghost use Rattle.names.specs.ShortNames.{is_short};
ghost use Rattle.names.specs.AssocList.{get, IsOrdered};
ghost use Rattle.std.specs.Option.{option_map};
ghost use Rattle.names.specs.Behind.{next_entry};
ghost use Rattle.names.specs.KeyRefs.{name_of};
ghost use Rattle.names.specs.Nested.{BucketKey, bucket_key, bytes_cmp, bucket_key_cmp};
ghost use Rattle.names.specs.Nested.{key_entries, next_inside, first_behind};
ghost use Rattle.names.specs.Nested.{first_of_buckets_behind, AreBuckets};

use crate::name::Name;
use crate::name_map::behind::next_entry;
use crate::name_map::keys::KeyPlaces;
use crate::short_name::ShortName;
use riak_msgs::Bytes;
use std::alloc::{AllocError, Global};
use std::collections::BTreeMap;
use std::marker::Model;

/// Buckets in their order, each with its keys in theirs, and each key with its place. No bucket is without keys.
///
/// Contracts see the list of all keys, each with its bucket and its place.
pub(crate) struct ShortBuckets {
    buckets: BTreeMap<ShortName, KeyPlaces>,
}

/// One call at each place where one is let go.
impl Drop for ShortBuckets {
    fn drop(self) {
        let ShortBuckets { buckets: _buckets } = self;
    }
}

impl Model for ShortBuckets {
    ghost use Rattle.names.specs.Nested.{BucketKeyPlaces, bucket_places, AreBuckets};

    ghost Value = { BucketKeyPlaces };

    ghost view = { λ b. bucket_places b.buckets };

    ghost invariant = { λ b. AreBuckets b.buckets };
}

/// The least key behind one in its own bucket, with its bucket and its place.
fn next_in_bucket<'a>(
    buckets: &'a BTreeMap<ShortName, KeyPlaces>,
    bucket: &ShortName,
    key: &Bytes,
) -> Option<(ShortName, Name<'a>, usize)>
    ensures { option_map (λ e. ((e.0, name_of e.1), e.2)) result
        ≡ next_inside key_entries bucket_key bytes_cmp bytes_cmp bucket.now key.now
        buckets.now.entries }
{
    match buckets.get_key_value(bucket) {
        None => None,
        Some((bucket, keys)) => match keys.next(Some(key)) {
            None => None,
            Some((key, place)) => Some((*bucket, key, place)),
        },
    }
}

/// The least key of the buckets behind one, or of all where none is given, with its bucket and its place.
fn first_behind<'a>(
    buckets: &'a BTreeMap<ShortName, KeyPlaces>,
    after: Option<&ShortName>,
) -> Option<(ShortName, Name<'a>, usize)>
    requires { AreBuckets buckets.now }
    ensures { option_map (λ e. ((e.0, name_of e.1), e.2)) result
        ≡ first_behind key_entries bucket_key bytes_cmp
        (option_map (λ bucket. bucket.now) after.entry) buckets.now.entries }
{
    match next_entry(buckets, after) {
        None => None,
        Some((bucket, keys)) => match keys.next(None) {
            None => unreachable!(),
            Some((key, place)) => Some((*bucket, key, place)),
        },
    }
}

impl ShortBuckets {
    /// The least key behind one, or of all where none is given, with its bucket and its place.
    pub(crate) fn next(
        &self,
        after: Option<(&ShortName, &Bytes)>,
    ) -> Option<(ShortName, Name<'_>, usize)>
        ensures { option_map (λ e. ((e.0, name_of e.1), e.2)) result
            ≡ next_entry bucket_key_cmp (option_map (λ key. (key.0.now, key.1.now)) after.entry)
            self.now.entries }
    {
        let Some((bucket, key)) = after else {
            return first_behind(&self.buckets, None);
        };
        match next_in_bucket(&self.buckets, bucket, key) {
            None => first_behind(&self.buckets, Some(bucket)),
            Some(found) => Some(found),
        }
    }

    /// The least key of the buckets behind one, with its bucket and its place.
    pub(crate) fn first_of_behind(&self, after: &ShortName) -> Option<(ShortName, Name<'_>, usize)>
        ensures { option_map (λ e. ((e.0, name_of e.1), e.2)) result
            ≡ first_of_buckets_behind after.now self.now.entries }
    {
        first_behind(&self.buckets, Some(after))
    }

    /// No keys. It takes no memory.
    pub(crate) fn new(alloc: Global) -> ShortBuckets
        ensures { result.entries ≡ [] }
    {
        ShortBuckets {
            buckets: BTreeMap::new(alloc),
        }
    }

    /// One key with its place. Refused where memory is.
    pub(crate) fn one_key(
        alloc: Global,
        bucket: &ShortName,
        key: &Bytes,
        place: usize,
    ) -> Result<ShortBuckets, AllocError>
        ensures { IfOk result (λ places. places.entries ≡ ((bucket.now, key.now), place) ∷ []) }
    {
        let keys = KeyPlaces::one_key(alloc, key, place)?;
        let own = *bucket;
        let mut buckets = BTreeMap::new(alloc);
        match buckets.insert(own, keys) {
            Ok(_) => Ok(ShortBuckets { buckets }),
            Err(_) => Err(AllocError),
        }
    }

    /// The place of a key, if it has one.
    #[inline(always)]
    pub(crate) fn get(&self, bucket: &ShortName, key: &Bytes) -> Option<usize>
        ensures place { result ≡ get bucket_key_cmp self.now (bucket.now, key.now) }
        ensures ordered { IsOrdered bucket_key_cmp self.now }
    {
        match self.buckets.get(bucket) {
            Some(keys) => keys.get(key),
            None => None,
        }
    }

    /// The same of a key with a name of up to 15 bytes.
    #[inline(always)]
    pub(crate) fn get_name(&self, bucket: &ShortName, key: ShortName) -> Option<usize>
        requires { is_short key ≡ true }
        ensures place { result ≡ get bucket_key_cmp self.now (bucket.now, key) }
        ensures ordered { IsOrdered bucket_key_cmp self.now }
    {
        match self.buckets.get(bucket) {
            Some(keys) => keys.get_name(key),
            None => None,
        }
    }

    /// Whether there is no key.
    pub(crate) fn is_empty(&self) -> bool
        ensures { IsTrue result ↔ (self.now.entries ≡ []) }
    {
        self.buckets.is_empty()
    }

    /// Gives a key a place, which replaces the one that it has. Refused where memory is, and then nothing changes.
    pub(crate) fn insert(
        &mut self,
        alloc: Global,
        bucket: &ShortName,
        key: &Bytes,
        place: usize,
    ) -> Result<(), AllocError>
        ensures inserted { OnOk result ((other : BucketKey) → get bucket_key_cmp self.new other
            ≡ (if is_at (bucket_key_cmp (bucket.now, key.now)) other then Some place
            else get bucket_key_cmp self.old other)) }
        ensures refused { OnErr result (self.new.entries ≡ self.old.entries) }
        ensures ordered { IsOrdered bucket_key_cmp self.new }
    {
        match self.buckets.get_mut(bucket) {
            Some(keys) => return keys.insert(alloc, key, place),
            None => {}
        }
        let keys = KeyPlaces::one_key(alloc, key, place)?;
        let own = *bucket;
        match self.buckets.insert(own, keys) {
            Ok(_) => Ok(()),
            Err(_) => Err(AllocError),
        }
    }

    /// Removes a key, and its bucket where that has no other; returns the place that the key had. It takes no memory.
    pub(crate) fn remove(&mut self, bucket: &ShortName, key: &Bytes) -> Option<usize>
        ensures place { result ≡ get bucket_key_cmp self.old (bucket.now, key.now) }
        ensures removed { (other : BucketKey) → get bucket_key_cmp self.new other
            ≡ (if is_at (bucket_key_cmp (bucket.now, key.now)) other then None
            else get bucket_key_cmp self.old other) }
        ensures ordered { IsOrdered bucket_key_cmp self.new }
    {
        match self.buckets.get_mut(bucket) {
            None => None,
            Some(keys) => {
                let place = keys.remove(key);
                let is_empty = keys.is_empty();
                if is_empty {
                    drop(self.buckets.remove(bucket));
                }
                place
            }
        }
    }
    /// The same of a key with a name of up to 15 bytes.
    pub(crate) fn remove_name(&mut self, bucket: &ShortName, key: ShortName) -> Option<usize>
        requires { is_short key ≡ true }
        ensures place { result ≡ get bucket_key_cmp self.old (bucket.now, key) }
        ensures removed { (other : BucketKey) → get bucket_key_cmp self.new other
            ≡ (if is_at (bucket_key_cmp (bucket.now, key)) other then None
            else get bucket_key_cmp self.old other) }
        ensures ordered { IsOrdered bucket_key_cmp self.new }
    {
        match self.buckets.get_mut(bucket) {
            None => None,
            Some(keys) => {
                let place = keys.remove_name(key);
                let is_empty = keys.is_empty();
                if is_empty {
                    drop(self.buckets.remove(bucket));
                }
                place
            }
        }
    }
}

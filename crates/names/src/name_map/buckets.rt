//! The keys of one bucket type, with their places.

ghost use Rattle.std.specs.Prelude.{◌≡◌, [], ◌∷◌, IfOk, OnOk, OnErr, Some, None, IsTrue, true, ◌↔◌};
ghost use Rattle.std.specs.Prelude.{if◌then◌else◌};
ghost use Rattle.std.specs.BTreeMap.{is_at};
ghost use Rattle.names.specs.ShortNames.{is_short};
ghost use Rattle.names.specs.AssocList.{get, IsOrdered};
ghost use Rattle.std.specs.Option.{option_map};
ghost use Rattle.names.specs.Behind.{next_entry};
ghost use Rattle.names.specs.KeyRefs.{name_of};
ghost use Rattle.names.specs.Nested.{BucketKey, bucket_key_cmp, AreInShort};

use crate::name::Name;
use crate::name_map::long_buckets::LongBuckets;
use crate::name_map::short_buckets::ShortBuckets;
use crate::short_name::ShortName;
use riak_msgs::Bytes;
use std::alloc::{AllocError, Global};
use std::marker::Model;

/// Buckets in their order, each with its keys in theirs, and each key with its place: those with names of
/// up to 15 bytes, and those with longer ones. No bucket is without keys.
///
/// Contracts see the list of all keys, each with its bucket and its place.
pub(crate) struct BucketPlaces {
    short: ShortBuckets,
    long: LongBuckets,
}

/// One call at each place where one is let go.
impl Drop for BucketPlaces {
    fn drop(self) {
        let BucketPlaces {
            short: _short,
            long: _long,
        } = self;
    }
}

impl Model for BucketPlaces {
    ghost use Rattle.names.specs.Nested.{BucketKeyPlaces, all_buckets, AreAllBuckets};

    ghost Value = { BucketKeyPlaces };

    ghost view = { λ b. all_buckets b.short b.long };

    ghost invariant = { λ b. AreAllBuckets b.short b.long };
}

/// The least key behind one, or of all where none is given, of the buckets with names of up to 15 bytes.
fn next_in_short<'a>(
    short: &'a ShortBuckets,
    after: Option<(&Bytes, &Bytes)>,
) -> Option<(ShortName, Name<'a>, usize)>
    requires { AreInShort short.now.entries }
    ensures { option_map (λ e. ((e.0, name_of e.1), e.2)) result
        ≡ next_entry bucket_key_cmp (option_map (λ key. (key.0.now, key.1.now)) after.entry)
        short.now.entries }
{
    let Some((bucket, key)) = after else {
        return short.next(None);
    };
    match ShortName::of(bucket.as_slice()) {
        Some(name) => short.next(Some((&name, key))),
        None => short.first_of_behind(&ShortName::prefix_of(bucket.as_slice())),
    }
}

impl BucketPlaces {
    /// The least key behind one, or of all where none is given, with its bucket and its place.
    pub(crate) fn next(
        &self,
        after: Option<(&Bytes, &Bytes)>,
    ) -> Option<(Name<'_>, Name<'_>, usize)>
        ensures { option_map (λ e. ((name_of e.0, name_of e.1), e.2)) result
            ≡ next_entry bucket_key_cmp (option_map (λ key. (key.0.now, key.1.now)) after.entry)
            self.now.entries }
    {
        let long = self.long.next(after);
        match next_in_short(&self.short, after) {
            None => match long {
                None => None,
                Some((bucket, key, place)) => Some((Name::Bytes(bucket), key, place)),
            },
            Some(found) => match long {
                None => Some((Name::Short(found.0), found.1, found.2)),
                Some((bucket, other, there)) => {
                    if found.0.is_above(bucket.as_slice()) {
                        return Some((Name::Bytes(bucket), other, there));
                    }
                    Some((Name::Short(found.0), found.1, found.2))
                }
            },
        }
    }

    /// One key with its place. Refused where memory is.
    pub(crate) fn one_key(
        alloc: Global,
        bucket: &Bytes,
        key: &Bytes,
        place: usize,
    ) -> Result<BucketPlaces, AllocError>
        ensures { IfOk result (λ places. places.entries ≡ ((bucket.now, key.now), place) ∷ []) }
    {
        match ShortName::of(bucket.as_slice()) {
            Some(name) => {
                let short = ShortBuckets::one_key(alloc, &name, key, place)?;
                let long = LongBuckets::new(alloc);
                Ok(BucketPlaces { short, long })
            }
            None => {
                let long = LongBuckets::one_key(alloc, bucket, key, place)?;
                let short = ShortBuckets::new(alloc);
                Ok(BucketPlaces { short, long })
            }
        }
    }

    /// The place of a key, if it has one.
    #[inline(always)]
    pub(crate) fn get(&self, bucket: &Bytes, key: &Bytes) -> Option<usize>
        ensures place { result ≡ get bucket_key_cmp self.now (bucket.now, key.now) }
        ensures ordered { IsOrdered bucket_key_cmp self.now }
    {
        match ShortName::of(bucket.as_slice()) {
            Some(name) => self.short.get(&name, key),
            None => self.long.get(bucket, key),
        }
    }

    /// The same of a key where the names of its bucket and of its own have up to 15 bytes.
    #[inline(always)]
    pub(crate) fn get_names(&self, bucket: &ShortName, key: ShortName) -> Option<usize>
        requires bucket { is_short bucket.now ≡ true }
        requires key { is_short key ≡ true }
        ensures place { result ≡ get bucket_key_cmp self.now (bucket.now, key) }
        ensures ordered { IsOrdered bucket_key_cmp self.now }
    {
        self.short.get_name(bucket, key)
    }

    /// Whether there is no key.
    pub(crate) fn is_empty(&self) -> bool
        ensures { IsTrue result ↔ (self.now.entries ≡ []) }
    {
        self.short.is_empty() && self.long.is_empty()
    }

    /// Gives a key a place, which replaces the one that it has. Refused where memory is, and then nothing changes.
    pub(crate) fn insert(
        &mut self,
        alloc: Global,
        bucket: &Bytes,
        key: &Bytes,
        place: usize,
    ) -> Result<(), AllocError>
        ensures inserted { OnOk result ((other : BucketKey) → get bucket_key_cmp self.new other
            ≡ (if is_at (bucket_key_cmp (bucket.now, key.now)) other then Some place
            else get bucket_key_cmp self.old other)) }
        ensures refused { OnErr result (self.new.entries ≡ self.old.entries) }
        ensures ordered { IsOrdered bucket_key_cmp self.new }
    {
        match ShortName::of(bucket.as_slice()) {
            Some(name) => self.short.insert(alloc, &name, key, place),
            None => self.long.insert(alloc, bucket, key, place),
        }
    }

    /// Removes a key, and its bucket where that has no other; returns the place that the key had. It takes no memory.
    pub(crate) fn remove(&mut self, bucket: &Bytes, key: &Bytes) -> Option<usize>
        ensures place { result ≡ get bucket_key_cmp self.old (bucket.now, key.now) }
        ensures removed { (other : BucketKey) → get bucket_key_cmp self.new other
            ≡ (if is_at (bucket_key_cmp (bucket.now, key.now)) other then None
            else get bucket_key_cmp self.old other) }
        ensures ordered { IsOrdered bucket_key_cmp self.new }
    {
        match ShortName::of(bucket.as_slice()) {
            Some(name) => self.short.remove(&name, key),
            None => self.long.remove(bucket, key),
        }
    }
    /// The same of a key where the names of its bucket and of its own have up to 15 bytes.
    pub(crate) fn remove_names(&mut self, bucket: &ShortName, key: ShortName) -> Option<usize>
        requires bucket { is_short bucket.now ≡ true }
        requires key { is_short key ≡ true }
        ensures place { result ≡ get bucket_key_cmp self.old (bucket.now, key) }
        ensures removed { (other : BucketKey) → get bucket_key_cmp self.new other
            ≡ (if is_at (bucket_key_cmp (bucket.now, key)) other then None
            else get bucket_key_cmp self.old other) }
        ensures ordered { IsOrdered bucket_key_cmp self.new }
    {
        self.short.remove_name(bucket, key)
    }
}

//! Keys with short names, as numbers.

ghost use Rattle.std.specs.Prelude.{◌≡◌, true};
ghost use Rattle.std.proofs.Common.{rules};
ghost use Rattle.std.specs.Cmp.{partial_order_from_own_ties};
ghost use Rattle.std.specs.Cmp.Rules.{comparing};
ghost use Rattle.std.specs.Cmp.Lexicographic.{slice_cmp};
ghost use Rattle.std.specs.Ordering.{nat_cmp, as_partial_cmp};
ghost use Rattle.riak_msgs.specs.KeyOrder.{key_cmp, key_eq};
ghost use Rattle.riak_msgs.specs.Requests.{default_key};
ghost use Rattle.names.specs.ShortNames.{is_short};
ghost use Rattle.names.specs.ShortKeys.{short_key, short_names};

use crate::short_name::ShortName;
use riak_msgs::{BucketType, Bytes, Key};
use std::cmp::Ordering;
use std::marker::Model;

/// A key of the default bucket type whose bucket and key have up to 15 bytes each, as four numbers. It is
/// copied as it is, and two compare by their numbers alone. Contracts see the key.
#[derive(Clone, Copy)]
pub struct ShortKey {
    bucket: ShortName,
    key: ShortName,
}

impl Model for ShortKey {
    ghost use Rattle.riak_msgs.specs.declared.key.Key.{Key};
    ghost use Rattle.names.specs.ShortKeys.{key_named, names_of, AreShort};

    ghost Value = { Key };

    ghost view = { λ k. key_named k };

    ghost invariant = { λ k. AreShort k };

    ghost inverse = { λ key. names_of key };

    ghost inverse_ok = { λ a h. λ i. a };
}

/// How bytes of any length are to a name, in the order of bytes.
fn compare_bytes(bytes: &Bytes, name: ShortName) -> Ordering
    requires { is_short name ≡ true }
    ensures { result ≡ slice_cmp nat_cmp bytes.now name }
{
    match ShortName::of(bytes.as_slice()) {
        Some(other) => other.cmp(&name),
        None => {
            if name.is_above(bytes.as_slice()) {
                return Ordering::Less;
            }
            Ordering::Greater
        }
    }
}

impl ShortKey {
    /// The key of the default bucket type with these names, where both are short. It takes no memory.
    #[inline(always)]
    pub fn of_names(bucket: &[u8], key: &[u8]) -> Option<ShortKey>
        ensures { result ≡ short_names bucket.now key.now }
    {
        match ShortName::of(bucket) {
            None => None,
            Some(bucket) => match ShortName::of(key) {
                None => None,
                Some(key) => Some(ShortKey { bucket, key }),
            },
        }
    }

    /// A key, where it is of the default bucket type and both its names are short. It takes no memory.
    #[inline(always)]
    pub fn of(key: &Key) -> Option<ShortKey>
        ensures { result ≡ short_key key.now }
    {
        let default = BucketType::default_type();
        match key.bucket_type.cmp(&default) {
            Ordering::Equal => ShortKey::of_names(key.bucket.as_slice(), key.key.as_slice()),
            _ => None,
        }
    }

    /// The bucket and the key.
    pub(crate) fn names(self) -> (ShortName, ShortName)
        ensures same { default_key result.0 result.1 ≡ self }
        ensures short { (is_short result.0 ≡ true) × (is_short result.1 ≡ true) }
    {
        (self.bucket, self.key)
    }

    /// How the names of a key are to these.
    fn compare_names(self, bucket: &Bytes, key: &Bytes) -> Ordering
        ensures { result ≡ key_cmp (default_key bucket.now key.now) self }
    {
        match compare_bytes(bucket, self.bucket) {
            Ordering::Equal => compare_bytes(key, self.key),
            unequal => unequal,
        }
    }

    /// How another key is to this one: less, where it is before it.
    pub fn compare_key(self, key: &Key) -> Ordering
        ensures { result ≡ key_cmp key.now self }
    {
        let _bucket = self.bucket;
        let default = BucketType::default_type();
        match key.bucket_type.cmp(&default) {
            Ordering::Equal => self.compare_names(&key.bucket, &key.key),
            unequal => unequal,
        }
    }
}

impl PartialEq for ShortKey {
    ghost eq = { key_eq };

    ghost laws = { Prim.search (comparing, rules) };

    fn eq(&self, other: &ShortKey) -> bool {
        self.bucket == other.bucket && self.key == other.key
    }
}

impl Eq for ShortKey {
    ghost laws = { Prim.search (comparing, rules) };
}

impl Ord for ShortKey {
    ghost cmp = { key_cmp };

    ghost total = { Prim.search (comparing, rules) };

    ghost matches_partial_cmp = { Prim.search (comparing, rules) };

    ghost matches_eq = { Prim.search (comparing, rules) };

    #[inline(always)]
    fn cmp(&self, other: &ShortKey) -> Ordering {
        match self.bucket.cmp(&other.bucket) {
            Ordering::Equal => self.key.cmp(&other.key),
            unequal => unequal,
        }
    }
}

impl PartialOrd for ShortKey {
    ghost partial_cmp = { as_partial_cmp key_cmp };

    ghost laws = { partial_order_from_own_ties (Prim.search (comparing, rules))
        (Prim.search (comparing, rules)) };

    fn partial_cmp(&self, other: &ShortKey) -> Option<Ordering> {
        Some(self.cmp(other))
    }
}

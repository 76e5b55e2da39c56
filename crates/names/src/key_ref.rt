//! Keys part by part: as they are given, and as they are found.

ghost use Rattle.std.specs.Prelude.{◌≡◌, IfOk};
ghost use Rattle.std.specs.Option.{option_map};
ghost use Rattle.names.specs.KeyRefs.{key_after};

use crate::name::Name;
use riak_msgs::{BucketType, Bytes, Key};
use std::alloc::{AllocError, Global};

/// What names a value, borrowed from where its parts lie: in a map of maps no whole key lies anywhere.
#[derive(Clone, Copy)]
pub struct KeyRef<'a> {
    pub bucket_type: &'a BucketType,
    pub bucket: &'a Bytes,
    pub key: &'a Bytes,
}

impl<'a> KeyRef<'a> {
    ghost use Rattle.names.specs.KeyRefs.{key_in};

    /// The parts of a key.
    pub fn of(key: &'a Key) -> KeyRef<'a>
        ensures { key_in result ≡ key.now }
    {
        KeyRef {
            bucket_type: &key.bucket_type,
            bucket: &key.bucket,
            key: &key.key,
        }
    }

    /// A key of its own, with copies of the parts. Refused where memory is.
    pub fn to_key(&self, alloc: Global) -> Result<Key, AllocError>
        ensures { IfOk result (λ key. key ≡ key_in self.now) }
    {
        Ok(Key {
            bucket_type: self.bucket_type.clone(alloc)?,
            bucket: self.bucket.clone(alloc)?,
            key: self.key.clone(alloc)?,
        })
    }
}

/// The parts of a key that is given, or none.
pub fn given_parts(key: Option<&Key>) -> Option<KeyRef<'_>>
    ensures { key_after result ≡ option_map (λ k. k.now) key.entry }
{
    match key {
        None => None,
        Some(key) => Some(KeyRef::of(key)),
    }
}

/// A key as a map of maps lends it: short names by their numbers, the others where they lie.
#[derive(Clone, Copy)]
pub struct FoundKey<'a> {
    pub bucket_type: &'a BucketType,
    pub bucket: Name<'a>,
    pub key: Name<'a>,
}

impl<'a> FoundKey<'a> {
    ghost use Rattle.names.specs.KeyRefs.{key_found};

    /// The parts of a whole key.
    pub fn of(key: &'a Key) -> FoundKey<'a>
        ensures { key_found result ≡ key.now }
    {
        FoundKey {
            bucket_type: &key.bucket_type,
            bucket: Name::Bytes(&key.bucket),
            key: Name::Bytes(&key.key),
        }
    }

    /// A key of its own, with copies of the parts. Refused where memory is.
    pub fn to_key(&self, alloc: Global) -> Result<Key, AllocError>
        ensures { IfOk result (λ key. key ≡ key_found self.now) }
    {
        Ok(Key {
            bucket_type: self.bucket_type.clone(alloc)?,
            bucket: self.bucket.to_bytes(alloc)?,
            key: self.key.to_bytes(alloc)?,
        })
    }
}

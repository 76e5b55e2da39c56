//! What names a value in the store.

ghost use Rattle.std.specs.Prelude.{◌≡◌, ◌↔◌, ◌++◌, IsTrue, IfOk, OnOk};
ghost use Rattle.pb_fields.specs.Encoding.{bytes_field};
ghost use Rattle.std.proofs.Common.{rules};
ghost use Rattle.std.specs.Cmp.{partial_order_from_own_ties};
ghost use Rattle.std.specs.Cmp.Rules.{comparing};
ghost use Rattle.std.specs.Ordering.{as_partial_cmp};
ghost use Rattle.riak_msgs.specs.KeyOrder.{key_cmp, key_eq};
ghost use Rattle.riak_msgs.specs.Requests.{default_key};

use crate::bucket_type::BucketType;
use crate::bytes::Bytes;
use pb_fields::Output;
use std::alloc::{AllocError, Global};
use std::cmp::Ordering;

/// What names a value in the store, ordered by bucket type, then bucket, then key, each by its bytes.
#[derive(PartialEq, Eq)]
pub struct Key {
    pub bucket_type: BucketType,
    pub bucket: Bytes,
    pub key: Bytes,
}

/// One call at each place where one is let go.
impl Drop for Key {
    fn drop(self) {
        let Key {
            bucket_type: _bucket_type,
            bucket: _bucket,
            key: _key,
        } = self;
    }
}

impl Ord for Key {
    ghost cmp = { key_cmp };

    ghost total = { Prim.search (comparing, rules) };

    ghost matches_partial_cmp = { Prim.search (comparing, rules) };

    ghost matches_eq = { Prim.search (comparing, rules) };

    /// What a derived order answers, with the three comparisons in its own code.
    fn cmp(&self, other: &Key) -> Ordering {
        match self.bucket_type.cmp(&other.bucket_type) {
            Ordering::Equal => {}
            unequal => return unequal,
        }
        match self.bucket.compare_as_names(&other.bucket) {
            Ordering::Equal => self.key.cmp(&other.key),
            unequal => unequal,
        }
    }
}

impl PartialOrd for Key {
    ghost partial_cmp = { as_partial_cmp key_cmp };

    ghost laws = { partial_order_from_own_ties (Prim.search (comparing, rules))
        (Prim.search (comparing, rules)) };

    fn partial_cmp(&self, other: &Key) -> Option<Ordering> {
        Some(self.cmp(other))
    }
}

impl Key {
    /// A key of the default type.
    #[inline(always)]
    pub fn of_default_type(alloc: Global, bucket: &[u8], key: &[u8]) -> Result<Key, AllocError>
        ensures { IfOk result (λ named. named ≡ default_key bucket.now key.now) }
    {
        Ok(Key {
            bucket_type: BucketType::default_type(),
            bucket: Bytes::from_slice(alloc, bucket)?,
            key: Bytes::from_slice(alloc, key)?,
        })
    }

    /// A copy.
    pub fn clone(&self, alloc: Global) -> Result<Key, AllocError>
        ensures { IfOk result (λ copy. copy ≡ self.now) }
    {
        Ok(Key {
            bucket_type: self.bucket_type.clone(alloc)?,
            bucket: self.bucket.clone(alloc)?,
            key: self.key.clone(alloc)?,
        })
    }

    /// Whether two keys are one: what `==` answers, by their bytes.
    pub fn is_same(&self, other: &Key) -> bool
        ensures value { result ≡ key_eq self.now other.now }
        ensures same { IsTrue result ↔ (self.now ≡ other.now) }
    {
        self == other
    }

    /// Encodes the bucket and the key, with which each request that names a key begins.
    #[inline(always)]
    pub(crate) fn encode_names<O: Output>(&self, out: &mut O) -> Result<(), AllocError>
        ensures { OnOk result (O.appends out.old
            (bytes_field 1 self.now.bucket ++ bytes_field 2 self.now.key) out.new) }
    {
        out.encode_bytes(1, self.bucket.as_slice())?;
        out.encode_bytes(2, self.key.as_slice())
    }
}

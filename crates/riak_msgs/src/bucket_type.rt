//! The bucket type of a key.

ghost use Rattle.std.specs.Prelude.{◌≡◌, ◌==◌, List, ℕ, IfOk};
ghost use Rattle.std.specs.Option.{option_map_or};
ghost use Rattle.std.proofs.Common.{rules};
ghost use Rattle.std.specs.Cmp.{partial_order_from_own_ties};
ghost use Rattle.std.specs.Cmp.Lexicographic.{pointwise, slice_cmp};
ghost use Rattle.std.specs.Cmp.Rules.{comparing};
ghost use Rattle.std.specs.Ordering.{nat_cmp, as_partial_cmp};
ghost use Rattle.riak_msgs.specs.BucketTypes.{default_type};

use crate::byte_order::compare_names;
use crate::bytes::Bytes;
use std::alloc::{AllocError, Global};
use std::cmp::Ordering;
use std::marker::Model;

/// The bucket type of a key for which no type is given.
pub const DEFAULT_TYPE: &[u8] = b"default";

/// The bucket type of a key: a byte string, ordered byte by byte. [`DEFAULT_TYPE`] takes no memory. Contracts see the
/// list of its bytes.
pub struct BucketType {
    // None is the default. Another is rarely given, and so it lies behind a pointer: a key has a byte string less.
    content: Option<Box<Bytes>>,
}

/// One call at each place where a bucket type is let go.
impl Drop for BucketType {
    fn drop(self) {
        let BucketType { content: _content } = self;
    }
}

impl Model for BucketType {
    ghost Value = { List ℕ };

    ghost view = { λ t. option_map_or (λ b. b.value) t.content default_type };
}

impl BucketType {
    /// [`DEFAULT_TYPE`]. It takes no memory.
    pub fn default_type() -> BucketType
        ensures { result ≡ default_type }
    {
        BucketType { content: None }
    }

    /// A copy of a slice. [`DEFAULT_TYPE`] takes no memory.
    #[inline(always)]
    pub fn from_slice(alloc: Global, content: &[u8]) -> Result<BucketType, AllocError>
        ensures { IfOk result (λ bucket_type. bucket_type ≡ content.now) }
    {
        if content == DEFAULT_TYPE {
            return Ok(BucketType { content: None });
        }
        BucketType::behind(alloc, Bytes::from_slice(alloc, content)?)
    }

    /// Bytes behind a pointer.
    fn behind(alloc: Global, content: Bytes) -> Result<BucketType, AllocError>
        ensures { IfOk result (λ bucket_type. bucket_type ≡ content) }
    {
        let place = Box::new(alloc, content)?;
        Ok(BucketType {
            content: Some(place),
        })
    }

    /// The bytes, borrowed.
    pub fn as_slice(&self) -> &[u8]
        ensures { result.now ≡ self.now }
    {
        match &self.content {
            Some(content) => content.as_slice(),
            None => DEFAULT_TYPE,
        }
    }

    /// A copy. One of the default takes no memory.
    #[inline(always)]
    pub fn clone(&self, alloc: Global) -> Result<BucketType, AllocError>
        ensures { IfOk result (λ copy. copy ≡ self.now) }
    {
        match &self.content {
            Some(content) => BucketType::behind(alloc, Bytes::clone(content, alloc)?),
            None => Ok(BucketType { content: None }),
        }
    }
}

impl PartialEq for BucketType {
    ghost eq = { pointwise ◌==◌ };

    ghost laws = { Prim.search (comparing, rules) };

    fn eq(&self, other: &BucketType) -> bool {
        self.as_slice() == other.as_slice()
    }
}

impl Eq for BucketType {
    ghost laws = { Prim.search (comparing, rules) };
}

impl Ord for BucketType {
    ghost cmp = { slice_cmp nat_cmp };

    ghost total = { Prim.search (comparing, rules) };

    ghost matches_partial_cmp = { Prim.search (comparing, rules) };

    ghost matches_eq = { Prim.search (comparing, rules) };

    #[inline(always)]
    fn cmp(&self, other: &BucketType) -> Ordering {
        match (&self.content, &other.content) {
            (None, None) => Ordering::Equal,
            _ => compare_names(self.as_slice(), other.as_slice()),
        }
    }
}

impl PartialOrd for BucketType {
    ghost partial_cmp = { as_partial_cmp (slice_cmp nat_cmp) };

    ghost laws = { partial_order_from_own_ties (Prim.search (comparing, rules))
        (Prim.search (comparing, rules)) };

    fn partial_cmp(&self, other: &BucketType) -> Option<Ordering> {
        Some(self.cmp(other))
    }
}

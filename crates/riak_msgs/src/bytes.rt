//! Byte strings.

ghost use Rattle.std.specs.Prelude.{◌≡◌, ◌==◌, List, ℕ, [], length, IfOk};
ghost use Rattle.std.proofs.Common.{rules};
ghost use Rattle.std.specs.Cmp.{partial_order_from_own_ties};
ghost use Rattle.std.specs.Cmp.Lexicographic.{pointwise, slice_cmp};
ghost use Rattle.std.specs.Cmp.Rules.{comparing};
ghost use Rattle.std.specs.Ordering.{nat_cmp, as_partial_cmp};

use crate::byte_order::{compare, compare_names};
use smallvec::SmallVec;
use std::alloc::{AllocError, Global};
use std::cmp::Ordering;
use std::marker::Model;

/// A byte string of any length, ordered byte by byte. Up to 16 bytes lie in the value itself, more in a
/// place of their own on the heap. Contracts see the list of its bytes.
pub struct Bytes {
    content: SmallVec<u8, 16>,
}

/// One call, where a derived one would be a case for each form at each place where a byte string is let go.
impl Drop for Bytes {
    fn drop(self) {
        let Bytes { content: _content } = self;
    }
}

impl Model for Bytes {
    ghost Value = { List ℕ };

    ghost view = { λ b. b.content.items };
}

impl Bytes {
    /// No bytes. It takes no memory.
    pub fn new(alloc: Global) -> Bytes
        ensures { result ≡ [] }
    {
        Bytes {
            content: SmallVec::new(alloc),
        }
    }

    /// The bytes of a vector, which is kept as it is where it has room for more than 16.
    pub fn from_vec(content: Vec<u8>) -> Bytes
        ensures { result ≡ content.items }
    {
        Bytes {
            content: SmallVec::from_vec(content),
        }
    }

    /// A copy of a slice. Up to 16 bytes take no memory.
    #[inline(always)]
    pub fn from_slice(alloc: Global, content: &[u8]) -> Result<Bytes, AllocError>
        ensures { IfOk result (λ bytes. bytes ≡ content.now) }
    {
        Ok(Bytes {
            content: SmallVec::from_slice(alloc, content)?,
        })
    }

    /// The bytes, borrowed.
    #[inline(always)]
    pub fn as_slice(&self) -> &[u8]
        ensures { result.now ≡ self.now }
    {
        self.content.as_slice()
    }

    /// How many bytes there are.
    pub fn len(&self) -> usize
        ensures { result ≡ length self.now }
    {
        self.content.len()
    }

    /// Whether there are none.
    pub fn is_empty(&self) -> bool
        ensures { result ≡ (length self.now == 0) }
    {
        self.content.is_empty()
    }

    /// How two compare, as `cmp` answers: for buckets, whose names are mostly short.
    #[inline(always)]
    pub(crate) fn compare_as_names(&self, other: &Bytes) -> Ordering
        ensures { result ≡ slice_cmp nat_cmp self.now other.now }
    {
        compare_names(self.content.as_slice(), other.content.as_slice())
    }

    /// A copy. Up to 16 bytes take no memory.
    pub fn clone(&self, alloc: Global) -> Result<Bytes, AllocError>
        ensures { IfOk result (λ copy. copy ≡ self.now) }
    {
        Bytes::from_slice(alloc, self.content.as_slice())
    }
}

impl PartialEq for Bytes {
    ghost eq = { pointwise ◌==◌ };

    ghost laws = { Prim.search (comparing, rules) };

    fn eq(&self, other: &Bytes) -> bool {
        self.content.as_slice() == other.content.as_slice()
    }
}

impl Eq for Bytes {
    ghost laws = { Prim.search (comparing, rules) };
}

impl Ord for Bytes {
    ghost cmp = { slice_cmp nat_cmp };

    ghost total = { Prim.search (comparing, rules) };

    ghost matches_partial_cmp = { Prim.search (comparing, rules) };

    ghost matches_eq = { Prim.search (comparing, rules) };

    #[inline(always)]
    fn cmp(&self, other: &Bytes) -> Ordering {
        compare(self.content.as_slice(), other.content.as_slice())
    }
}

impl PartialOrd for Bytes {
    ghost partial_cmp = { as_partial_cmp (slice_cmp nat_cmp) };

    ghost laws = { partial_order_from_own_ties (Prim.search (comparing, rules))
        (Prim.search (comparing, rules)) };

    fn partial_cmp(&self, other: &Bytes) -> Option<Ordering> {
        Some(self.cmp(other))
    }
}

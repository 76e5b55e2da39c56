//! The bytes of contexts.

ghost use Rattle.std.specs.Prelude.{◌≡◌, ◌==◌, List, ℕ, [], length, IfOk, option_copied, unwrap_or};

use smallvec::SmallVec;
use std::alloc::{AllocError, Global};
use std::marker::Model;

/// The bytes of a context, as a client was given them and gives them back; none, where there is no
/// context. Up to 24 bytes lie in the value itself, and so those of one pair, which most contexts have;
/// more lie in a place of their own on the heap. Contracts see the list of its bytes.
pub struct ContextBytes {
    content: SmallVec<u8, 24>,
}

/// One call at each place where they are let go.
impl Drop for ContextBytes {
    fn drop(self) {
        let ContextBytes { content: _content } = self;
    }
}

impl Model for ContextBytes {
    ghost Value = { List ℕ };

    ghost view = { λ b. b.content.items };
}

impl ContextBytes {
    /// No bytes. It takes no memory.
    pub fn new(alloc: Global) -> ContextBytes
        ensures { result ≡ [] }
    {
        ContextBytes {
            content: SmallVec::new(alloc),
        }
    }

    /// The bytes of a vector, which is kept as it is where it has room for more than 24.
    pub fn from_vec(content: Vec<u8>) -> ContextBytes
        ensures { result ≡ content.items }
    {
        ContextBytes {
            content: SmallVec::from_vec(content),
        }
    }

    /// A copy of a slice. Up to 24 bytes take no memory.
    #[inline(always)]
    pub fn from_slice(alloc: Global, content: &[u8]) -> Result<ContextBytes, AllocError>
        ensures { IfOk result (λ bytes. bytes ≡ content.now) }
    {
        Ok(ContextBytes {
            content: SmallVec::from_slice(alloc, content)?,
        })
    }

    /// The bytes that a message gives, or none: a copy. Up to 24 bytes take no memory.
    #[inline(always)]
    pub(crate) fn given(alloc: Global, context: Option<&[u8]>) -> Result<ContextBytes, AllocError>
        ensures { IfOk result (λ bytes. bytes ≡ unwrap_or (option_copied context.entry) []) }
    {
        match context {
            None => Ok(ContextBytes::new(alloc)),
            Some(content) => ContextBytes::from_slice(alloc, content),
        }
    }

    /// A copy. Up to 24 bytes take no memory.
    pub fn clone(&self, alloc: Global) -> Result<ContextBytes, AllocError>
        ensures { IfOk result (λ copy. copy ≡ self.now) }
    {
        ContextBytes::from_slice(alloc, self.content.as_slice())
    }

    /// The bytes, borrowed.
    #[inline(always)]
    pub fn as_slice(&self) -> &[u8]
        ensures { result.now ≡ self.now }
    {
        self.content.as_slice()
    }

    /// How many bytes there are.
    pub fn len(&self) -> usize
        ensures { result ≡ length self.now }
    {
        self.content.len()
    }

    /// Whether there are none.
    pub fn is_empty(&self) -> bool
        ensures { result ≡ (length self.now == 0) }
    {
        self.content.is_empty()
    }
}

//! Values in their order.

ghost use Rattle.std.specs.Prelude.{◌≡◌, ◌==◌, ◌++◌, ◌∷◌, List, [], length, IfOk, OnOk, OnErr};

use std::alloc::{AllocError, Global};
use std::marker::Model;

/// Values in their order, as many as there are. Contracts see the list of them.
pub struct Sequence<T> {
    content: Vec<T>,
}

/// One call at each place where one is let go.
impl<T: Drop> Drop for Sequence<T> {
    fn drop(self) {
        let Sequence { content: _content } = self;
    }
}

impl<T> Model for Sequence<T> {
    ghost Value = { List T };

    ghost view = { λ s. s.content.items };
}

impl<T> Sequence<T> {
    /// No values. It takes no memory.
    pub fn new(alloc: Global) -> Sequence<T>
        ensures { result ≡ [] }
    {
        Sequence {
            content: Vec::new(alloc),
        }
    }

    /// No values, and room for so many.
    pub fn with_capacity(alloc: Global, capacity: usize) -> Result<Sequence<T>, AllocError>
        ensures { IfOk result (λ s. s ≡ []) }
    {
        Ok(Sequence {
            content: Vec::with_capacity(alloc, capacity)?,
        })
    }

    /// Puts a value behind the others. Where memory is refused it is let go, and the others stay.
    pub fn push(&mut self, value: T) -> Result<(), AllocError>
    where
        T: Drop,
        ensures ok { OnOk result (self.new ≡ self.old ++ value ∷ []) }
        ensures err { OnErr result (self.new ≡ self.old) }
    {
        self.content.push(value)?;
        Ok(())
    }

    /// The values, borrowed.
    pub fn as_slice(&self) -> &[T]
        ensures { result.now ≡ self.now }
    {
        self.content.as_slice()
    }

    /// How many values there are.
    pub fn len(&self) -> usize
        ensures { result ≡ length self.now }
    {
        self.content.len()
    }

    /// Whether there are none.
    pub fn is_empty(&self) -> bool
        ensures { result ≡ (length self.now == 0) }
    {
        self.content.is_empty()
    }
}

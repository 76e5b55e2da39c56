//! Sequence numbers as a list.

ghost use Rattle.std.specs.Prelude.{◌≡◌};

use std::marker::Model;

/// Sequence numbers of a key's events. Contracts see a list.
#[derive(Drop)]
pub struct Numbers {
    content: Vec<u64>,
}

impl Model for Numbers {
    ghost use Rattle.std.specs.Prelude.{List, ℕ};

    ghost Value = { List ℕ };

    ghost view = { λ n. n.content.items };
}

impl Numbers {
    /// These numbers, in their order.
    pub fn new(content: Vec<u64>) -> Self
        ensures value { result ≡ content.items }
    {
        Numbers { content }
    }

    /// The numbers in their order.
    pub fn as_slice(&self) -> &[u64]
        ensures value { result.now ≡ self.now }
    {
        self.content.as_slice()
    }
}

//! The epochs of a vnode, each given once.

ghost use Rattle.std.specs.Prelude.{◌≡◌, ◌+◌, ◌<◌, ◌≤◌, IfSome, IfNone};
ghost use Rattle.actor_epoch.specs.Epochs.{next_epoch};

use crate::limits::MAX_EPOCH;
use std::marker::Model;

/// Gives the epochs of a vnode, rising, each once. Contracts see the last epoch given, 0 before the first.
///
/// A life: `new(1)` has given none; `next` gives 1; `peek` then shows 2 and gives nothing; `next` gives 2; and so on
/// up to 4,294,967,295, after which `next` gives None for good.
#[derive(Debug, Drop)]
pub struct EpochSource {
    last: u32,
}

impl Model for EpochSource {
    ghost use Rattle.std.specs.Prelude.{ℕ, ◌<◌};

    ghost Value = { ℕ };

    ghost view = { λ s. s.last };
}

impl EpochSource {
    /// A source whose first epoch is `first`.
    pub fn new(first: u32) -> Self
        requires { 1 ≤ first }
        ensures { result + 1 ≡ first }
    {
        Self::after(first - 1)
    }

    /// A source that goes on after the epoch `last`, which another source gave (0: none was given).
    pub fn after(last: u32) -> Self
        ensures { result ≡ last }
    {
        EpochSource { last }
    }

    /// The last epoch given, 0 before the first.
    pub fn last(&self) -> u32
        ensures { result ≡ self.now }
    {
        self.last
    }

    /// The epoch that `next` would give; None exactly where `MAX_EPOCH` was given.
    pub fn peek(&self) -> Option<u32>
        ensures { result ≡ next_epoch self.now }
    {
        if self.last < MAX_EPOCH {
            Some(self.last + 1)
        } else {
            None
        }
    }

    /// Gives the next epoch, above all that were given; None exactly where `MAX_EPOCH` was given, and then
    /// nothing changes.
    pub fn next(&mut self) -> Option<u32>
        ensures gives { result ≡ next_epoch self.old }
        ensures once { IfSome result (λ epoch. (self.old < epoch) × (self.new ≡ epoch)) }
        ensures unchanged { IfNone result (self.new ≡ self.old) }
    {
        let epoch = self.peek()?;
        self.last = epoch;
        Some(epoch)
    }
}

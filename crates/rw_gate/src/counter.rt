//! A number that asks raise: the smallest state behind a gate, an example and a test.
use crate::kept::{Kept, Plan};
use std::alloc::Global;

/// A number. To raise it by 0 changes nothing and answers the number; past 18,446,744,073,709,551,615 an
/// ask is refused.
#[derive(Drop)]
pub struct GatedCounter {
    pub value: u64,
}

/// A raise, and the number that it comes to: the change, which is its own event.
#[derive(Drop)]
pub struct Raise {
    by: u64,
    to: u64,
}

/// The sum would not fit.
#[derive(Clone, Copy, Debug, PartialEq, Eq, Drop)]
pub struct TooMuch;

impl Kept for GatedCounter {
    type Ask = u64;

    type Change = Raise;

    type Reply = u64;

    type Refusal = TooMuch;

    type Event = Raise;

    ghost use Rattle.std.specs.Prelude.{◌≡◌, ◌≢◌, ℕ, ◌+◌, ◌≤◌, ◌^◌, refl};

    ghost State = { ℕ };

    ghost content = { λ c. c.value };

    ghost accepts = { λ n e m. (e.by ≢ 0) × (m ≡ n + e.by) × (e.to ≡ m) };

    ghost answers = { λ n ask reply. (ask ≡ 0) × (reply ≡ n) };

    ghost refuses = { λ n ask refusal. 2 ^ 64 ≤ n + ask };

    ghost asks = { λ e ask. e.by ≡ ask };

    ghost answered_by = { λ e reply. e.to ≡ reply };

    ghost event = { λ c. c };

    ghost ready = { λ s c. (c.by ≢ 0) × (c.to ≡ s.value + c.by) };

    fn prepare(&mut self, alloc: Global, ask: u64) -> Result<Plan<Raise, u64>, TooMuch> {
        let _ = alloc;
        if ask == 0 {
            return Ok(Plan::Nothing(self.value));
        }
        match self.value.checked_add(ask) {
            Some(to) => Ok(Plan::Change(Raise { by: ask, to })),
            None => Err(TooMuch),
        }
    }

    fn apply(&mut self, change: Raise) -> u64 {
        self.value = change.to;
        change.to
    }

    ghost sound = { λ s c is. (c.to, (is.0, is.1, refl)) };
}

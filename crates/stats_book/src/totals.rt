//! The five numbers.
ghost use Rattle.std.specs.Prelude.{◌≡◌, ◌+◌, ◌≤◌, ◌^◌, ◌↔◌, IfNone, IfSome, MatchBool, false};
ghost use Rattle.stats_book.specs.Counting.{ArePastFull, IsFull, both, raised, zeros};

use crate::quantity::Quantity;

/// How much was counted of each quantity.
#[derive(Clone, Copy, Debug, PartialEq, Eq)]
pub struct Totals {
    /// Gets that were answered.
    pub gets: u64,
    /// Puts that were accepted.
    pub puts: u64,
    /// Deletes that were accepted: the tombstones that they wrote.
    pub deletes: u64,
    /// Refusals: the error replies to gets, puts and deletes.
    pub refusals: u64,
    /// Dead keys that were reaped.
    pub reaps: u64,
}

/// Raises a number. False where it would pass the last number; it stays then.
#[inline(always)]
fn raise(number: &mut u64, amount: u64) -> bool
    ensures { MatchBool result (number.new ≡ number.old + amount)
        ((number.new ≡ number.old) × (2 ^ 64 ≤ number.old + amount)) }
{
    match number.checked_add(amount) {
        Some(sum) => {
            *number = sum;
            true
        }
        None => false,
    }
}

impl Totals {
    /// Nothing was counted.
    pub fn zeros() -> Totals
        ensures { result ≡ zeros }
    {
        Totals {
            gets: 0,
            puts: 0,
            deletes: 0,
            refusals: 0,
            reaps: 0,
        }
    }

    /// Raises the number of a quantity. False where it would pass the last number; all stay then.
    #[inline(always)]
    pub(crate) fn raise(&mut self, quantity: Quantity, amount: u64) -> bool
        ensures { MatchBool result (self.new ≡ raised quantity amount self.old)
            ((self.new ≡ self.old) × IsFull quantity self.old amount) }
    {
        match quantity {
            Quantity::Gets => raise(&mut self.gets, amount),
            Quantity::Puts => raise(&mut self.puts, amount),
            Quantity::Deletes => raise(&mut self.deletes, amount),
            Quantity::Refusals => raise(&mut self.refusals, amount),
            Quantity::Reaps => raise(&mut self.reaps, amount),
        }
    }

    /// Both together. None where some number would pass the last one.
    fn checked_add(&self, more: &Totals) -> Option<Totals>
        ensures sum { IfSome result (λ sum. sum ≡ both self.now more.now) }
        ensures past { IfNone result (ArePastFull self.now more.now) }
    {
        Some(Totals {
            gets: self.gets.checked_add(more.gets)?,
            puts: self.puts.checked_add(more.puts)?,
            deletes: self.deletes.checked_add(more.deletes)?,
            refusals: self.refusals.checked_add(more.refusals)?,
            reaps: self.reaps.checked_add(more.reaps)?,
        })
    }

    /// Raises each number by its own of the others. False just where one would pass 18,446,744,073,709,551,615; all stay then.
    pub fn add(&mut self, more: &Totals) -> bool
        ensures added { MatchBool result (self.new ≡ both self.old more.now) (self.new ≡ self.old) }
        ensures full { (result ≡ false) ↔ ArePastFull self.old more.now }
    {
        let Some(sum) = self.checked_add(more) else {
            return false;
        };
        *self = sum;
        true
    }
}

//! What a worker's sessions have counted by now.

use crate::quantity::Quantity;
use crate::totals::Totals;
use std::sync::atomic::{AtomicU64, Ordering};

/// What a worker's sessions have counted by now. Their thread alone raises the numbers. Every thread may read them at
/// any time, each as it is then, without a lock.
///
/// Where nothing is counted meanwhile, they are the sums of what these sessions have counted.
#[derive(Drop)]
pub struct LiveTotals {
    gets: AtomicU64,
    puts: AtomicU64,
    deletes: AtomicU64,
    refusals: AtomicU64,
    reaps: AtomicU64,
}

/// Raises a number that this thread alone raises. It stops at 18,446,744,073,709,551,615.
#[inline(always)]
fn raise(number: &AtomicU64, amount: u64) {
    let raised = number.load(Ordering::Relaxed).saturating_add(amount);
    number.store(raised, Ordering::Relaxed);
}

impl LiveTotals {
    /// Nothing was counted.
    pub fn new() -> LiveTotals {
        LiveTotals {
            gets: AtomicU64::new(0),
            puts: AtomicU64::new(0),
            deletes: AtomicU64::new(0),
            refusals: AtomicU64::new(0),
            reaps: AtomicU64::new(0),
        }
    }

    /// What was counted by now.
    pub fn now(&self) -> Totals {
        Totals {
            gets: self.gets.load(Ordering::Relaxed),
            puts: self.puts.load(Ordering::Relaxed),
            deletes: self.deletes.load(Ordering::Relaxed),
            refusals: self.refusals.load(Ordering::Relaxed),
            reaps: self.reaps.load(Ordering::Relaxed),
        }
    }

    /// So many more of a quantity were counted.
    #[inline(always)]
    pub(crate) fn raise(&self, quantity: Quantity, amount: u64) {
        match quantity {
            Quantity::Gets => raise(&self.gets, amount),
            Quantity::Puts => raise(&self.puts, amount),
            Quantity::Deletes => raise(&self.deletes, amount),
            Quantity::Refusals => raise(&self.refusals, amount),
            Quantity::Reaps => raise(&self.reaps, amount),
        }
    }
}

//! What one session counts by itself.
ghost use Rattle.std.specs.Prelude.{◌≡◌, false};
ghost use Rattle.stats_book.specs.Counter.{Counts, CountsReply, CountsAnswer};
ghost use Rattle.stats_book.specs.Counting.{zeros};

use crate::count_replies::CountReplies;
use crate::live_totals::LiveTotals;
use crate::quantity::Quantity;
use crate::totals::Totals;
use std::alloc::Global;
use std::marker::Model;
use std::sync::Arc;

/// What one session counts by itself, with no book, and whether there was no room for some of what was to be counted.
/// It takes no lock and no memory. What it counts may be seen meanwhile in the live totals of its worker.
///
/// A number that would pass 18,446,744,073,709,551,615 stays, and the count remembers that.
#[derive(Drop)]
pub struct SessionCount {
    counted: Totals,
    is_full: bool,
    live: Option<Arc<LiveTotals, Global>>,
}

impl Model for SessionCount {
    ghost use Rattle.stats_book.specs.Counter.{Count};

    ghost Value = { Count };

    ghost view = { λ c. record { counted = c.counted; book_full = c.is_full } };
}

impl SessionCount {
    /// Nothing was counted, and there was room so far.
    pub fn new() -> SessionCount
        ensures { result ≡ record { counted = zeros; book_full = false } }
    {
        SessionCount::seen_in(None)
    }

    /// The same, of which what it counts is seen in these live totals, if there are such.
    pub fn seen_in(live: Option<Arc<LiveTotals, Global>>) -> SessionCount
        ensures { result ≡ record { counted = zeros; book_full = false } }
    {
        SessionCount {
            counted: Totals::zeros(),
            is_full: false,
            live,
        }
    }

    /// What was counted, and whether there was no room for some of what was to be counted.
    pub fn into_parts(self) -> (Totals, bool)
        ensures counted { result.0 ≡ self.counted }
        ensures full { result.1 ≡ self.book_full }
    {
        let SessionCount {
            counted,
            is_full,
            live: _live,
        } = self;
        (counted, is_full)
    }

    /// Counts so many of a quantity; where its number would pass the last one, none rises and that is kept.
    #[inline(always)]
    fn count(&mut self, quantity: Quantity, amount: u64)
        ensures { Counts quantity amount self.old self.new }
    {
        if !self.counted.raise(quantity, amount) {
            self.is_full = true;
        }
        self.show(quantity, amount);
    }

    /// So many of a quantity are seen in the live totals. For none nothing is stored there: each store is an exchange, and
    /// most answers forget no dead key.
    #[inline(always)]
    fn show(&self, quantity: Quantity, amount: u64) {
        if amount == 0 {
            return;
        }
        if let Some(live) = &self.live {
            live.raise(quantity, amount);
        }
    }

    /// Counts a reply as its quantity, where it has one.
    #[inline(always)]
    fn count_reply(&mut self, quantity: Option<Quantity>)
        ensures { CountsReply quantity self.old self.new }
    {
        if let Some(quantity) = quantity {
            self.count(quantity, 1);
        }
    }
}

impl CountReplies for SessionCount {
    ghost count = { λ c. c };

    #[inline(always)]
    fn count_answer(&mut self, quantity: Option<Quantity>, reaps: u32)
        ensures { CountsAnswer quantity reaps self.old self.new }
    {
        self.count_reply(quantity);
        self.count(Quantity::Reaps, u64::from(reaps));
    }
}

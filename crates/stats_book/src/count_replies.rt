//! What counts the replies of one session.
ghost use Rattle.stats_book.specs.Counter.{CountsAnswer};

use crate::quantity::Quantity;

/// What counts the replies of one session: by its share of a book, or by itself.
pub trait CountReplies {
    ghost use Rattle.stats_book.specs.Counter.{Count, CountsAnswer};

    // What it has counted, and whether there was no room for some of what was to be counted.
    ghost count: { Self → Count };

    /// Counts what was answered: the reply as its quantity, where it has one, and each dead key that was forgotten
    /// then. A reply never waits for room: a number that would pass 18,446,744,073,709,551,615 stays, and that is kept.
    fn count_answer(&mut self, quantity: Option<Quantity>, reaps: u32)
        ensures { CountsAnswer quantity reaps (count self.old) (count self.new) };
}

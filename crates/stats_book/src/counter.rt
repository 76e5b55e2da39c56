//! What one session counts, for its share of the book.
ghost use Rattle.std.specs.Prelude.{◌≡◌, ◌⊎◌, false, true};
ghost use Rattle.stats_book.specs.Counter.{CountsAnswer};
ghost use Rattle.stats_book.specs.Counting.{ArePastFull, zeros};
ghost use Rattle.stats_book.specs.Holdings.{AllAre};

use crate::book::Book;
use crate::count_replies::CountReplies;
use crate::quantity::Quantity;
use crate::session_count::SessionCount;
use crate::share::Share;
use std::marker::Model;
use std::sync::Wait;
use std::sync::ledger::Ledger;

/// What one session counts, for its share of a book, and whether there was no room for some of what was to be counted.
///
/// It counts by itself, and takes no lock for a reply: the share and the book rise when it is taken apart. A reply never waits for room: where a number would
/// pass 18,446,744,073,709,551,615 it stays, and the counter remembers that.
pub struct ReplyCounter<'a, G: Ledger, P: Ledger, D: Ledger, E: Ledger, R: Ledger> {
    book: &'a Book<G, P, D, E, R>,
    share: Share<G, P, D, E, R>,
    /// What was counted, and isn't in the share yet.
    since: SessionCount,
}

/// One call at each place where one is let go.
impl<'a, G: Ledger, P: Ledger, D: Ledger, E: Ledger, R: Ledger> Drop
    for ReplyCounter<'a, G, P, D, E, R> {
    fn drop(self) {
        let ReplyCounter {
            book: _book,
            share: _share,
            since: _since,
        } = self;
    }
}

impl<'a, G: Ledger, P: Ledger, D: Ledger, E: Ledger, R: Ledger> Model
    for ReplyCounter<'a, G, P, D, E, R> {
    ghost use Rattle.stats_book.specs.Counter.{Count, count_after};

    ghost Value = { Count };

    ghost view = { λ c. count_after c.share c.since };
}

impl<'a, G: Ledger, P: Ledger, D: Ledger, E: Ledger, R: Ledger> ReplyCounter<'a, G, P, D, E, R> {
    /// A counter for this share of the book, which had room so far.
    pub fn new(
        book: &'a Book<G, P, D, E, R>,
        share: Share<G, P, D, E, R>,
    ) -> ReplyCounter<'a, G, P, D, E, R>
        ensures { result ≡ record { counted = share; book_full = false } }
    {
        ReplyCounter {
            book,
            share,
            since: SessionCount::new(),
        }
    }

    /// The share, with all that was counted, which is in the book then too; and whether there was no room for some of it. Waits while another has the book.
    pub fn parts<W: Wait>(self, rt: &W) -> (Share<G, P, D, E, R>, bool)
        ensures share { result.1 ≡ false → result.0 ≡ self.entry.counted }
        ensures full { self.entry.book_full ≡ true → result.1 ≡ true }

        // Where the book has no other share, it has room for all that this one may count.
        ensures sole { AllAre 1 G.parts P.parts D.parts E.parts R.parts → result.1 ≡ true
            → (self.entry.book_full ≡ true) ⊎ ArePastFull zeros self.entry.counted }
    {
        let ReplyCounter {
            book,
            mut share,
            since,
        } = self;
        let (counted, is_book_full) = since.into_parts();
        let is_counted = share.add_all(rt, book, &counted).is_ok();
        (share, is_book_full || !is_counted)
    }
}

impl<'a, G: Ledger, P: Ledger, D: Ledger, E: Ledger, R: Ledger> CountReplies
    for ReplyCounter<'a, G, P, D, E, R> {
    ghost count = { λ c. c };

    fn count_answer(&mut self, quantity: Option<Quantity>, reaps: u32)
        ensures { CountsAnswer quantity reaps self.old self.new }
    {
        self.since.count_answer(quantity, reaps);
    }
}

//! A worker's share of a book.
ghost use Rattle.std.specs.Prelude.{◌≡◌, ◌+◌, IfErr, IfOk, IsErrOf, IsOkUnless, MatchResult};
ghost use Rattle.stats_book.specs.Counting.{ArePastFull, IsFull, both, raised};
ghost use Rattle.stats_book.specs.Holdings.{AllAre};

use crate::book::Book;
use crate::count::Part;
use crate::fault::BookFault;
use crate::holding::Holding;
use crate::quantity::Quantity;
use crate::totals::Totals;
use std::marker::Model;
use std::sync::Wait;
use std::sync::ledger::Ledger;

/// What one worker has counted in a book. It has no bytes: contracts alone see its numbers.
///
/// Its type parameters name the ledgers of the gets, puts, deletes, refusals (errors) and reaps, as those of its book do.
/// A share that is let go takes its numbers with it, so that its book can't be closed any more.
pub struct Share<G: Ledger, P: Ledger, D: Ledger, E: Ledger, R: Ledger> {
    pub(crate) gets: Part<G>,
    pub(crate) puts: Part<P>,
    pub(crate) deletes: Part<D>,
    pub(crate) refusals: Part<E>,
    pub(crate) reaps: Part<R>,
}

/// One call at each place where one is let go.
impl<G: Ledger, P: Ledger, D: Ledger, E: Ledger, R: Ledger> Drop for Share<G, P, D, E, R> {
    fn drop(self) {
        let Share {
            gets: _gets,
            puts: _puts,
            deletes: _deletes,
            refusals: _refusals,
            reaps: _reaps,
        } = self;
    }
}

impl<G: Ledger, P: Ledger, D: Ledger, E: Ledger, R: Ledger> Model for Share<G, P, D, E, R> {
    ghost use Rattle.stats_book.specs.declared.totals.Totals.{Totals};
    ghost use Rattle.stats_book.specs.Counting.{numbers};

    ghost Value = { Totals };

    ghost view = { λ s. numbers s.gets s.puts s.deletes s.refusals s.reaps };
}

impl<G: Ledger, P: Ledger, D: Ledger, E: Ledger, R: Ledger> Share<G, P, D, E, R> {
    /// Locks the book, and raises a quantity there and here. Where the number there would pass 18,446,744,073,709,551,615
    /// the book is full, and both stay as they are.
    ///
    /// It waits while another has the lock.
    pub fn add<W: Wait>(
        &mut self,
        rt: &W,
        book: &Book<G, P, D, E, R>,
        quantity: Quantity,
        amount: u64,
    ) -> Result<(), BookFault>
        ensures only { IsOkUnless result BookFault.BookFull }
        ensures share { MatchResult result
            (λ _. self.new ≡ raised quantity amount self.old)
            (λ _. self.new ≡ self.old) }

        // The book is full where this share alone would pass the last number, and, where it has no other share, just there.
        ensures full { IsFull quantity self.old amount → IsErrOf result BookFault.BookFull }
        ensures sole { AllAre 1 G.parts P.parts D.parts E.parts R.parts
            → IsErrOf result BookFault.BookFull → IsFull quantity self.old amount }
    {
        book.sums.lock(rt).add(self, quantity, amount)
    }

    /// Locks the book, and raises all quantities there and here by so much. Where one of the numbers there would pass 18,446,744,073,709,551,615 the
    /// book is full: that number stays, and the others rise, in both by the same.
    ///
    /// It waits while another has the lock.
    pub(crate) fn add_all<W: Wait>(
        &mut self,
        rt: &W,
        book: &Book<G, P, D, E, R>,
        more: &Totals,
    ) -> Result<(), BookFault>
        ensures added { IfOk result (λ _. self.new ≡ both self.old more.now) }
        ensures sole { AllAre 1 G.parts P.parts D.parts E.parts R.parts
            → IfErr result (λ _. ArePastFull self.old more.now) }
    {
        book.sums.lock(rt).add_all(self, more)
    }

    /// Adds it to those in one hand.
    pub(crate) fn merge_into(self, others: &mut Holding<G, P, D, E, R>)
        ensures shares { others.new.shares ≡ others.old.shares + 1 }
        ensures counted { others.new.counted ≡ both others.old.counted self }
    {
        let Share {
            gets,
            puts,
            deletes,
            refusals,
            reaps,
        } = self;
        gets.merge_into(&mut others.gets);
        puts.merge_into(&mut others.puts);
        deletes.merge_into(&mut others.deletes);
        refusals.merge_into(&mut others.refusals);
        reaps.merge_into(&mut others.reaps);
    }
}

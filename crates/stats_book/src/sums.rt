//! The numbers of a book, as they lie under its lock.
ghost use Rattle.std.specs.Prelude.{◌≡◌, ◌≤◌, ◌↔◌};
ghost use Rattle.std.specs.Prelude.{IfErr, IfOk, IsErrOf, IsOkUnless, MatchResult, vec_len};
ghost use Rattle.stats_book.specs.Counting.{ArePastFull, IsFull};
ghost use Rattle.stats_book.specs.Counting.{both, number_of, raised, sum_of, zeros};
ghost use Rattle.stats_book.specs.Holdings.{AllAre};

use crate::blanks::Blanks;
use crate::count::Count;
use crate::fault::BookFault;
use crate::holding::Holding;
use crate::quantity::Quantity;
use crate::share::Share;
use crate::totals::Totals;
use std::marker::Model;
use std::sync::ledger::Ledger;

/// The numbers of a book, each the total of its ledger. Contracts see the five numbers.
#[derive(Drop)]
pub struct Sums<G: Ledger, P: Ledger, D: Ledger, E: Ledger, R: Ledger> {
    gets: Count<G>,
    puts: Count<P>,
    deletes: Count<D>,
    refusals: Count<E>,
    reaps: Count<R>,
    /// No share, to which all shares come back.
    rest: Holding<G, P, D, E, R>,
}

impl<G: Ledger, P: Ledger, D: Ledger, E: Ledger, R: Ledger> Model for Sums<G, P, D, E, R> {
    ghost use Rattle.std.specs.Prelude.{◌≡◌};
    ghost use Rattle.stats_book.specs.declared.totals.Totals.{Totals};
    ghost use Rattle.stats_book.specs.Counting.{numbers, zeros};

    ghost Value = { Totals };

    ghost view = { λ s. numbers s.gets s.puts s.deletes s.refusals s.reaps };

    ghost invariant = { λ s. (s.rest.shares ≡ 0) × (s.rest.counted ≡ zeros) };
}

impl<G: Ledger, P: Ledger, D: Ledger, E: Ledger, R: Ledger> Sums<G, P, D, E, R> {
    /// Raises a quantity here and in the share. Where the number here would pass 18,446,744,073,709,551,615 the book is
    /// full, and both stay as they are.
    pub fn add(
        &mut self,
        share: &mut Share<G, P, D, E, R>,
        quantity: Quantity,
        amount: u64,
    ) -> Result<(), BookFault>
        ensures full { IsErrOf result BookFault.BookFull ↔ IsFull quantity self.old amount }
        ensures only { IsOkUnless result BookFault.BookFull }
        ensures sums { MatchResult result
            (λ _. self.new ≡ raised quantity amount self.old)
            (λ _. self.new ≡ self.old) }
        ensures share { MatchResult result
            (λ _. share.new ≡ raised quantity amount share.old)
            (λ _. share.new ≡ share.old) }

        // The number here is at least the share's, and just that where the book has no other share.
        ensures most { number_of quantity share.old ≤ number_of quantity self.old }
        ensures sole { AllAre 1 G.parts P.parts D.parts E.parts R.parts
            → number_of quantity share.old ≡ number_of quantity self.old }
    {
        match quantity {
            Quantity::Gets => self.gets.add(&mut share.gets, amount),
            Quantity::Puts => self.puts.add(&mut share.puts, amount),
            Quantity::Deletes => self.deletes.add(&mut share.deletes, amount),
            Quantity::Refusals => self.refusals.add(&mut share.refusals, amount),
            Quantity::Reaps => self.reaps.add(&mut share.reaps, amount),
        }
    }

    /// Raises all quantities here and in the share by so much. Where one of the numbers here would pass 18,446,744,073,709,551,615 the book is full: that
    /// one stays, and the others rise.
    pub(crate) fn add_all(
        &mut self,
        share: &mut Share<G, P, D, E, R>,
        more: &Totals,
    ) -> Result<(), BookFault>
        ensures added { IfOk result (λ _. share.new ≡ both share.old more.now) }
        ensures sole { AllAre 1 G.parts P.parts D.parts E.parts R.parts
            → IfErr result (λ _. ArePastFull share.old more.now) }
    {
        let gets = self.add(share, Quantity::Gets, more.gets);
        let puts = self.add(share, Quantity::Puts, more.puts);
        let deletes = self.add(share, Quantity::Deletes, more.deletes);
        let refusals = self.add(share, Quantity::Refusals, more.refusals);
        let reaps = self.add(share, Quantity::Reaps, more.reaps);
        gets.and(puts).and(deletes).and(refusals).and(reaps)
    }

    /// Zeros, and all shares of them in one hand.
    pub(crate) fn open(blanks: Blanks) -> (Sums<G, P, D, E, R>, Holding<G, P, D, E, R>)
        requires gets { (blanks.gets.name ≡ G.name) × (blanks.gets.parts ≡ G.parts) }
        requires puts { (blanks.puts.name ≡ P.name) × (blanks.puts.parts ≡ P.parts) }
        requires deletes { (blanks.deletes.name ≡ D.name) × (blanks.deletes.parts ≡ D.parts) }
        requires refusals { (blanks.refusals.name ≡ E.name) × (blanks.refusals.parts ≡ E.parts) }
        requires reaps { (blanks.reaps.name ≡ R.name) × (blanks.reaps.parts ≡ R.parts) }
        requires parts { AllAre G.parts G.parts P.parts D.parts E.parts R.parts }
        ensures sums { result.0 ≡ zeros }
        ensures shares { result.1.shares ≡ G.parts }
        ensures counted { result.1.counted ≡ zeros }
    {
        let (gets, all_gets) = blanks.gets.open::<G>();
        let (puts, all_puts) = blanks.puts.open::<P>();
        let (deletes, all_deletes) = blanks.deletes.open::<D>();
        let (refusals, all_refusals) = blanks.refusals.open::<E>();
        let (reaps, all_reaps) = blanks.reaps.open::<R>();
        let mut all = Holding {
            gets: all_gets,
            puts: all_puts,
            deletes: all_deletes,
            refusals: all_refusals,
            reaps: all_reaps,
        };
        let sums = Sums {
            gets: Count::new(gets),
            puts: Count::new(puts),
            deletes: Count::new(deletes),
            refusals: Count::new(refusals),
            reaps: Count::new(reaps),
            rest: all.empty(),
        };
        (sums, all)
    }

    /// The numbers, which are what all shares together have counted.
    pub(crate) fn close(self, shares: Vec<Share<G, P, D, E, R>>) -> Totals
        requires all { AllAre (vec_len shares) G.parts P.parts D.parts E.parts R.parts }
        ensures { result ≡ sum_of shares.items }
    {
        let mut sums = self;
        let all = sums.rest.empty().merge_all(shares);
        sums.close_held(all)
    }

    /// The numbers, which are what all shares together have counted, where these are in one hand.
    pub(crate) fn close_held(self, all: Holding<G, P, D, E, R>) -> Totals
        requires all { AllAre all.shares G.parts P.parts D.parts E.parts R.parts }
        ensures { result ≡ all.counted }
    {
        let Sums {
            gets,
            puts,
            deletes,
            refusals,
            reaps,
            rest: _,
        } = self;
        Totals {
            gets: gets.close(all.gets),
            puts: puts.close(all.puts),
            deletes: deletes.close(all.deletes),
            refusals: refusals.close(all.refusals),
            reaps: reaps.close(all.reaps),
        }
    }
}

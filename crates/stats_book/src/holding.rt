//! Shares that are in one hand.
ghost use Rattle.std.specs.Prelude.{◌≡◌, ◌+◌, ◌<◌, ◌≤◌, [], replicate, vec_capacity, vec_len};
ghost use Rattle.stats_book.specs.Counting.{both, sum_of, zeros};

use crate::count::Part;
use crate::share::Share;
use std::marker::Model;
use std::sync::ledger;
use std::sync::ledger::Ledger;

/// So many shares in one hand: that many parts of each ledger. Contracts see how many, and what they have counted.
#[derive(Drop)]
pub(crate) struct Holding<G: Ledger, P: Ledger, D: Ledger, E: Ledger, R: Ledger> {
    pub(crate) gets: ledger::Share<G>,
    pub(crate) puts: ledger::Share<P>,
    pub(crate) deletes: ledger::Share<D>,
    pub(crate) refusals: ledger::Share<E>,
    pub(crate) reaps: ledger::Share<R>,
}

impl<G: Ledger, P: Ledger, D: Ledger, E: Ledger, R: Ledger> Model for Holding<G, P, D, E, R> {
    ghost use Rattle.stats_book.specs.Counting.{numbers};
    ghost use Rattle.stats_book.specs.Holdings.{AllAre, HoldingView};

    ghost Value = { HoldingView };

    ghost view = { λ h. record {
      shares = h.gets.parts;
      counted = numbers h.gets.amount h.puts.amount h.deletes.amount
          h.refusals.amount h.reaps.amount;
    } };

    ghost invariant = { λ h.
        AllAre h.gets.parts h.gets.parts h.puts.parts h.deletes.parts
        h.refusals.parts h.reaps.parts };
}

impl<G: Ledger, P: Ledger, D: Ledger, E: Ledger, R: Ledger> Holding<G, P, D, E, R> {
    /// No share of the same ledgers.
    pub(crate) fn empty(&mut self) -> Holding<G, P, D, E, R>
        ensures shares { result.shares ≡ 0 }
        ensures counted { result.counted ≡ zeros }
        ensures same { self.new ≡ self.old }
    {
        Holding {
            gets: self.gets.empty(),
            puts: self.puts.empty(),
            deletes: self.deletes.empty(),
            refusals: self.refusals.empty(),
            reaps: self.reaps.empty(),
        }
    }

    /// One share of those that have counted nothing yet.
    pub(crate) fn split_off(&mut self) -> Share<G, P, D, E, R>
        requires shares { 0 < self.old.shares }
        requires counted { self.old.counted ≡ zeros }
        ensures share { result ≡ zeros }
        ensures shares { self.new.shares + 1 ≡ self.old.shares }
        ensures counted { self.new.counted ≡ zeros }
    {
        Share {
            gets: Part::split_off(&mut self.gets),
            puts: Part::split_off(&mut self.puts),
            deletes: Part::split_off(&mut self.deletes),
            refusals: Part::split_off(&mut self.refusals),
            reaps: Part::split_off(&mut self.reaps),
        }
    }

    /// All shares, so many, where none has counted anything yet, in a vector that has room for them.
    pub(crate) fn split_into(
        self,
        shares: u16,
        room: Vec<Share<G, P, D, E, R>>,
    ) -> Vec<Share<G, P, D, E, R>>
        requires shares { self.shares ≡ shares }
        requires counted { self.counted ≡ zeros }
        requires empty { room.items ≡ [] }
        requires room { shares ≤ vec_capacity room }
        ensures { result.items ≡ replicate shares zeros }
    {
        let mut all = self;
        let mut split = room;
        for _ in 0..shares {
            split.push_reserved(all.split_off());
        }
        split
    }

    /// These shares and others.
    pub(crate) fn merge_all(self, shares: Vec<Share<G, P, D, E, R>>) -> Holding<G, P, D, E, R>
        ensures shares { result.shares ≡ self.shares + vec_len shares }
        ensures counted { result.counted ≡ both self.counted (sum_of shares.items) }
    {
        let mut all = self;
        let mut others = shares.into_iter();
        while let Some(share) = others.next() {
            share.merge_into(&mut all);
        }
        all
    }
}

//! One number of the book, and one part of its ledger.
ghost use Rattle.std.specs.Prelude.{◌≡◌, ◌+◌, ◌<◌, ◌≤◌, ◌^◌, ◌↔◌, IsErrOf, IsOkUnless, MatchResult};

use crate::fault::BookFault;
use std::marker::Model;
use std::sync::ledger;
use std::sync::ledger::Ledger;

/// A number of the book: the total of its ledger. Contracts see the number.
#[derive(Drop)]
pub struct Count<L: Ledger> {
    total: u64,
    ledger: ledger::Book<L>,
}

impl<L: Ledger> Model for Count<L> {
    ghost use Rattle.std.specs.Prelude.{ℕ, ◌≡◌};

    ghost Value = { ℕ };

    ghost view = { λ count. count.total };

    ghost invariant = { λ count. count.total ≡ count.ledger.total };
}

/// One part of a ledger. Contracts see what was added by it.
#[derive(Drop)]
pub struct Part<L: Ledger> {
    share: ledger::Share<L>,
}

impl<L: Ledger> Model for Part<L> {
    ghost use Rattle.std.specs.Prelude.{ℕ, ◌≡◌};

    ghost Value = { ℕ };

    ghost view = { λ part. part.share.amount };

    ghost invariant = { λ part. part.share.parts ≡ 1 };
}

impl<L: Ledger> Count<L> {
    /// The number of a new ledger: 0.
    pub(crate) fn new(ledger: ledger::Book<L>) -> Count<L>
        requires { ledger.total ≡ 0 }
        ensures { result ≡ 0 }
    {
        Count { total: 0, ledger }
    }

    /// Raises the number and the part. Where the number would pass 18,446,744,073,709,551,615 the book is full, and
    /// both stay as they are.
    pub(crate) fn add(&mut self, part: &mut Part<L>, amount: u64) -> Result<(), BookFault>
        ensures full { IsErrOf result BookFault.BookFull ↔ (2 ^ 64 ≤ self.old + amount) }
        ensures only { IsOkUnless result BookFault.BookFull }
        ensures number { MatchResult result
            (λ _. self.new ≡ self.old + amount)
            (λ _. self.new ≡ self.old) }
        ensures part { MatchResult result
            (λ _. part.new ≡ part.old + amount)
            (λ _. part.new ≡ part.old) }

        // The number is what all parts added: as much as this one at least, and just as much where it is the only one.
        ensures most { part.old ≤ self.old }
        ensures sole { L.parts ≡ 1 → part.old ≡ self.old }
    {
        self.ledger.audit(&mut part.share);
        let Some(total) = self.total.checked_add(amount) else {
            return Err(BookFault::BookFull);
        };
        self.ledger.add(&mut part.share, amount);
        self.total = total;
        Ok(())
    }

    /// The number, which is what was added by all parts together.
    pub(crate) fn close(self, all: ledger::Share<L>) -> u64
        requires { all.parts ≡ L.parts }
        ensures { result ≡ all.amount }
    {
        let Count { total, mut ledger } = self;
        let mut all = all;
        ledger.audit(&mut all);
        total
    }
}

impl<L: Ledger> Part<L> {
    /// One of the parts of a ledger by which nothing was added yet.
    pub(crate) fn split_off(all: &mut ledger::Share<L>) -> Part<L>
        requires parts { 0 < all.old.parts }
        requires amount { all.old.amount ≡ 0 }
        ensures part { result ≡ 0 }
        ensures parts { all.new.parts + 1 ≡ all.old.parts }
        ensures amount { all.new.amount ≡ 0 }
    {
        Part {
            share: all.split_off(1, 0),
        }
    }

    /// Lays the part to others.
    pub(crate) fn merge_into(self, others: &mut ledger::Share<L>)
        ensures parts { others.new.parts ≡ others.old.parts + 1 }
        ensures amount { others.new.amount ≡ others.old.amount + self }
    {
        let Part { share } = self;
        others.merge(share);
    }
}

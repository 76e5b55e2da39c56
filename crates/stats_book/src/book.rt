//! The book that many threads add to.
ghost use Rattle.std.specs.Prelude.{◌≡◌, IfOk, IsOkUnless, replicate, vec_len};
ghost use Rattle.stats_book.specs.Counting.{sum_of, zeros};
ghost use Rattle.stats_book.specs.Holdings.{AllAre};

use crate::blanks::Blanks;
use crate::fault::BookFault;
use crate::share::Share;
use crate::sums::Sums;
use crate::totals::Totals;
use std::alloc::Global;
use std::sync::Mutex;
use std::sync::ledger::Ledger;

/// The numbers of a node, which threads raise by their shares, one at a time.
///
/// Its type parameters name the ledgers of the gets, puts, deletes, refusals (errors) and reaps.
pub struct Book<G: Ledger, P: Ledger, D: Ledger, E: Ledger, R: Ledger> {
    pub(crate) sums: Mutex<Sums<G, P, D, E, R>>,
}

/// One call at each place where one is let go.
impl<G: Ledger, P: Ledger, D: Ledger, E: Ledger, R: Ledger> Drop for Book<G, P, D, E, R> {
    fn drop(self) {
        let Book { sums: _sums } = self;
    }
}

/// A book and all its shares.
pub type Opened<G, P, D, E, R> = (Book<G, P, D, E, R>, Vec<Share<G, P, D, E, R>>);

impl<G: Ledger, P: Ledger, D: Ledger, E: Ledger, R: Ledger> Book<G, P, D, E, R> {
    /// A book of zeros, and all its shares, which have counted nothing; or memory for them was refused.
    ///
    /// The blanks are the ledgers that the type parameters name, each cut into so many shares.
    pub fn new(
        alloc: Global,
        shares: u16,
        blanks: Blanks,
    ) -> Result<Opened<G, P, D, E, R>, BookFault>
        requires gets { (blanks.gets.name ≡ G.name) × (blanks.gets.parts ≡ G.parts) }
        requires puts { (blanks.puts.name ≡ P.name) × (blanks.puts.parts ≡ P.parts) }
        requires deletes { (blanks.deletes.name ≡ D.name) × (blanks.deletes.parts ≡ D.parts) }
        requires refusals { (blanks.refusals.name ≡ E.name) × (blanks.refusals.parts ≡ E.parts) }
        requires reaps { (blanks.reaps.name ≡ R.name) × (blanks.reaps.parts ≡ R.parts) }
        requires parts { AllAre shares G.parts P.parts D.parts E.parts R.parts }
        ensures zeros { IfOk result (λ opened. opened.1.items ≡ replicate shares zeros) }
        ensures only { IsOkUnless result BookFault.NoMemory }
    {
        let room = Vec::with_capacity(alloc, usize::from(shares))?;
        let (sums, all) = Sums::open(blanks);
        let shares = all.split_into(shares, room);
        let sums = Mutex::new(sums);
        Ok((Book { sums }, shares))
    }

    /// Its numbers.
    pub(crate) fn into_sums(self) -> Sums<G, P, D, E, R> {
        let Book { sums } = self;
        sums.into_inner()
    }
}

/// The numbers of a book: the sums of what its shares have counted.
///
/// The shares are all those of the book, in any order; `Book::new` made as many as its ledgers have parts.
pub fn close<G: Ledger, P: Ledger, D: Ledger, E: Ledger, R: Ledger>(
    book: Book<G, P, D, E, R>,
    shares: Vec<Share<G, P, D, E, R>>,
) -> Totals
    requires all { AllAre (vec_len shares) G.parts P.parts D.parts E.parts R.parts }
    ensures { result ≡ sum_of shares.items }
{
    book.into_sums().close(shares)
}

//! What shares add to a book, and what the book has when it is closed.
mod count;

ghost use Rattle.std.specs.Prelude.{◌≡◌, vec_len};
ghost use Rattle.stats_book.specs.Holdings.{AllAre};

use crate::exchanges::NOTHING_COUNTED;
use stats_book::*;
use std::alloc::Global;
use std::marker::Brand;
use std::process::Abort;
use std::sync::Wait;
use std::sync::ledger::Ledger;

/// A call of `Share::add`: which share adds, which quantity and how much.
struct Addition(usize, Quantity, u64);

/// Additions to a new book, and what it comes to.
struct Sum {
    shows: &'static str,
    shares: u16,
    additions: &'static [Addition],
    /// How many of them are refused.
    refused: u32,
    totals: Totals,
}

const SUMS: &[Sum] = &[
    Sum {
        shows: "shares of one book sum",
        shares: 2,
        additions: &[
            Addition(0, Quantity::Gets, 3),
            Addition(1, Quantity::Gets, 4),
        ],
        refused: 0,
        totals: Totals {
            gets: 7,
            ..NOTHING_COUNTED
        },
    },
    // The share that is refused adds to another quantity afterwards, and the full one takes 0 more.
    Sum {
        shows: "a full book refuses one more, and stays",
        shares: 2,
        additions: &[
            Addition(0, Quantity::Gets, 18_446_744_073_709_551_615),
            Addition(1, Quantity::Gets, 1),
            Addition(0, Quantity::Gets, 0),
            Addition(1, Quantity::Puts, 1),
        ],
        refused: 1,
        totals: Totals {
            gets: 18_446_744_073_709_551_615,
            puts: 1,
            ..NOTHING_COUNTED
        },
    },
    Sum {
        shows: "each quantity is counted apart",
        shares: 1,
        additions: &[
            Addition(0, Quantity::Gets, 1),
            Addition(0, Quantity::Puts, 2),
            Addition(0, Quantity::Deletes, 3),
            Addition(0, Quantity::Refusals, 4),
            Addition(0, Quantity::Reaps, 5),
        ],
        refused: 0,
        totals: Totals {
            gets: 1,
            puts: 2,
            deletes: 3,
            refusals: 4,
            reaps: 5,
        },
    },
    Sum {
        shows: "a book without shares closes at zero",
        shares: 0,
        additions: &[],
        refused: 0,
        totals: NOTHING_COUNTED,
    },
];

/// How many of the additions were refused.
fn add_all<W: Wait, G: Ledger, P: Ledger, D: Ledger, E: Ledger, R: Ledger>(
    rt: &W,
    book: &Book<G, P, D, E, R>,
    shares: &mut Vec<Share<G, P, D, E, R>>,
    additions: &[Addition],
) -> u32
    ensures { vec_len shares.new ≡ vec_len shares.old }
{
    let mut refused = 0u32;
    for addition in additions {
        let Addition(index, quantity, amount) = addition;
        if let Some(share) = shares.get_mut(*index) {
            let added = share.add(rt, book, *quantity, *amount);
            if added == Err(BookFault::BookFull) {
                refused = refused.saturating_add(1);
            }
        }
    }
    refused
}

/// How many additions to a new book were refused, and what the book then has.
fn play_by<W: Wait, G: Ledger, P: Ledger, D: Ledger, E: Ledger, R: Ledger>(
    rt: &W,
    alloc: Global,
    shares: u16,
    blanks: Blanks,
    additions: &[Addition],
) -> Result<(u32, Totals), BookFault>
    requires gets { (blanks.gets.name ≡ G.name) × (blanks.gets.parts ≡ G.parts) }
    requires puts { (blanks.puts.name ≡ P.name) × (blanks.puts.parts ≡ P.parts) }
    requires deletes { (blanks.deletes.name ≡ D.name) × (blanks.deletes.parts ≡ D.parts) }
    requires refusals { (blanks.refusals.name ≡ E.name) × (blanks.refusals.parts ≡ E.parts) }
    requires reaps { (blanks.reaps.name ≡ R.name) × (blanks.reaps.parts ≡ R.parts) }
    requires parts { AllAre shares G.parts P.parts D.parts E.parts R.parts }
{
    let (book, mut shares) = Book::<G, P, D, E, R>::new(alloc, shares, blanks)?;
    let refused = add_all(rt, &book, &mut shares, additions);
    Ok((refused, close(book, shares)))
}

/// The same, by ledgers that no caller names.
fn play<W: Wait>(
    rt: &W,
    alloc: Global,
    shares: u16,
    additions: &[Addition],
) -> Result<(u32, Totals), BookFault> {
    play_by::<W, Brand, Brand, Brand, Brand, Brand>(
        rt,
        alloc,
        shares,
        Blanks::new(shares),
        additions,
    )
}

/// Whether a row holds.
fn sums<W: Wait>(rt: &W, alloc: Global, row: &Sum) -> bool {
    play(rt, alloc, row.shares, row.additions) == Ok((row.refused, row.totals))
}

#[test]
fn additions_are_summed(rt: HostRuntime) {
    for row in SUMS {
        assert!(rt; sums(&rt, rt.alloc(), row), "{}", row.shows);
    }
}

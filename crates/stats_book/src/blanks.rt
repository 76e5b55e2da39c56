//! The ledgers that a book is opened with.
ghost use Rattle.std.specs.Prelude.{◌≡◌};

use std::sync::ledger::Blank;

/// A new ledger for each quantity. They have no bytes.
///
/// The names of the ledgers are the type parameters of [`crate::Book`]; whoever makes blanks calls a function that is
/// generic in the five names at `std::marker::Brand`, and names each by its blank.
#[derive(Drop)]
pub struct Blanks {
    pub gets: Blank,
    pub puts: Blank,
    pub deletes: Blank,
    pub refusals: Blank,
    pub reaps: Blank,
}

impl Blanks {
    /// Ledgers that are cut into so many shares.
    pub fn new(shares: u16) -> Blanks
        ensures gets { result.gets.parts ≡ shares }
        ensures puts { result.puts.parts ≡ shares }
        ensures deletes { result.deletes.parts ≡ shares }
        ensures refusals { result.refusals.parts ≡ shares }
        ensures reaps { result.reaps.parts ≡ shares }
    {
        let parts = u64::from(shares);
        Blanks {
            gets: Blank::new(parts),
            puts: Blank::new(parts),
            deletes: Blank::new(parts),
            refusals: Blank::new(parts),
            reaps: Blank::new(parts),
        }
    }
}

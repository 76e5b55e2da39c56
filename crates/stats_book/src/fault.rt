//! Why a call on a book was refused.
ghost use Rattle.std.specs.Prelude.{◌≡◌};
ghost use Rattle.stats_book.specs.declared.fault.BookFault.TheVariants.{NoMemory};

use std::alloc::AllocError;
use thiserror::Error;

/// Why a call on a book was refused. Nothing is changed then.
#[derive(Clone, Copy, Debug, PartialEq, Eq, Drop, Error)]
pub enum BookFault {
    /// A number would pass 18,446,744,073,709,551,615.
    #[error("book full")]
    BookFull,
    /// Memory was refused.
    #[error("no memory")]
    NoMemory,
}

impl From<AllocError> for BookFault {
    ghost from_gives = { λ _ fault. fault ≡ NoMemory };

    fn from(_error: AllocError) -> BookFault {
        BookFault::NoMemory
    }
}

//! Why bytes begin no varint.

use thiserror::Error;

/// Why the bytes begin no varint.
#[derive(Clone, Copy, Debug, Drop, Error, PartialEq, Eq)]
pub enum VarintFault {
    /// The bytes end before the varint does: there are fewer than ten, each with the high bit.
    #[error("the bytes end within a varint")]
    Short,
    /// The first ten bytes have the high bit.
    #[error("a varint has more than ten bytes")]
    TooLong,
}

//! Base 128 varints, the integers of the Protocol Buffers wire encoding: seven bits a byte, the
//! least significant group first, and the high bit set on every byte but the last.
//!
//! A varint's value is the sum of its groups, modulo 2 to the 64 (`value_of`). [`read`] decodes the
//! value of the varint that the bytes begin with (`IsVarint`), in any encoding of at most ten
//! bytes; [`write`] gives the shortest encoding of a value (`encoding`).
//!
//! Nothing here takes memory. The numbers below 128, nearly all that a wire carries, take one test
//! each way, and are read and written in the caller's own code (`inline(always)`, a hint to LLVM).
//!
//! Source: the Protocol Buffers documentation, "Encoding", section "Base 128 Varints".
//!
//! ```text
//! read(ac 02)       (300, 2): the value, and how many bytes it has
//! read(80 00 ff)    (0, 2): not the shortest encoding, and a byte that isn't looked at
//! read(80)          Short
//! len(300)          2
//! write(300, out)   2, and out begins with ac 02
//! ```
//!
//! # Proved
//!
//! [`read`] returns the value and the length of a varint in any encoding. It returns `Short` or
//! `TooLong` exactly if that fault holds. [`write`] gives the one shortest encoding, which [`read`]
//! reads back whatever follows it. By `read`, `write`, `len`; laws `varints_are_one`,
//! `encoding_is_shortest`, `longest_is_that_of_the_definitions`.
#![tactic(auto)]

mod fault;
mod laws;
mod reading;
mod writing;

pub use fault::VarintFault;
pub use laws::{encoding_is_shortest, longest_is_that_of_the_definitions, varints_are_one};
pub use reading::read;
pub use writing::{len, write};

/// The most bytes that a varint has: ten groups of seven bits hold any 64-bit value.
pub const MAX_VARINT_LEN: usize = 10;

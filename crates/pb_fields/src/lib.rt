//! Fields, the wire form of a Protocol Buffers message: one behind the other, each a key (its
//! number and wire type in one varint) and a value.
//!
//! ```text
//! FieldOut::varint(&mut out, 1, 150)?             appends 08 96 01
//! FieldOut::bytes(&mut out, 2, b"b")?             appends 12 01 62
//! let mut fields = Fields::new(b"\x08\x96\x01\x12\x01b");
//! fields.next(), fields.next(), fields.next()     number 1: Varint(150); number 2: Bytes("b"); None
//! Fields::new(b"\x12\x02b").next()                FieldFault::Short: the value goes past the end
//! ```
//!
//! Bytes stand for a list of fields (`Encodes`) by the grammar alone, and for one list at most.
//! [`Fields`] gives that list, borrowed, or the first fault of a table (`fault_table`). [`scan`]
//! merges each field into a value, by the value's step for one field ([`Merge`]): what it did is
//! the fold of that step over the list (`MergesAll`).
//!
//! A value is a [`Message`] where it is encoded as fields to an [`Output`]: a vector, for which
//! [`FieldOut`] appends a field in its one encoding (`encoding`), or a [`LengthCounter`].
//!
//! Reading takes no memory, reads a key, a length or a number's bytes once and looks at no other
//! byte of a value; a field is written with one growth at most. What the fields of a message mean
//! is for its reader to say. What is called for each field is marked `inline(always)`, a hint to
//! LLVM: its results are wide and would else pass through memory.
//!
//! Source: the Protocol Buffers documentation, "Encoding", section "Message Structure". The groups
//! of wire types 3 and 4 are left out.
//!
//! # Proved
//!
//! [`Fields`] gives the one list of fields that the bytes stand for, or the first fault. After a
//! fault the list has ended. [`scan`] is the fold of a message's step over that list. What was
//! written is read again, whatever follows it. By `Fields::next`, `scan`, the calls of `FieldOut`
//! and `Output`, `encoded_len`, `encode_message`, `encode_repeated`; laws `fields_are_one`,
//! `fields_go_on`, `fields_stop`, `written_is_read`.
#![tactic(auto)]

mod fault;
mod field;
mod field_out;
mod fields;
mod laws;
mod merge;
mod message;
mod output;
mod value;

pub use fault::FieldFault;
pub use field::{Field, MAX_FIELD_NUMBER};
pub use field_out::FieldOut;
pub use fields::Fields;
pub use laws::{fields_are_one, fields_go_on, fields_stop, written_is_read};
pub use merge::{Merge, scan};
pub use message::{Message, encode_message, encode_repeated, encoded_len};
pub use output::{LengthCounter, Output};
pub use value::Value;

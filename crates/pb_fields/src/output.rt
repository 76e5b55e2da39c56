//! Where encoded fields go: a vector, or a count of their bytes.

ghost use Rattle.std.specs.Prelude.{◌≡◌, ◌+◌, ◌++◌, List, ℕ, [], length, Ok, IfOk, OnOk};
ghost use Rattle.std.proofs.Common.{◌∙◌, ap, sym, append_assoc, length-append, arith};
ghost use Rattle.std.proofs.lemmas.List.{append-nil};
ghost use Rattle.wire_varint.specs.Varint.{encoding as varint_encoding};
ghost use Rattle.pb_fields.specs.Field.{IsNumber};
ghost use Rattle.pb_fields.specs.Encoding.{bool_field, bytes_field, bytes_head};
ghost use Rattle.pb_fields.specs.Encoding.{varint_field, BeginsMessage};

use crate::field_out::{FieldOut, append_head, key_of};
use crate::value::{BYTES, VARINT};
use std::alloc::AllocError;

/// What fields are encoded to, one behind another.
///
/// A vector holds their bytes. A [`LengthCounter`] holds none and counts them, so that a message's
/// length is known before room is made for it. Each call is refused only where memory is, or where the
/// count passes the greatest `usize`. The numbers are those that a field may have, from 1 to
/// [`MAX_FIELD_NUMBER`](crate::MAX_FIELD_NUMBER).
pub trait Output {
    ghost use Rattle.std.specs.Prelude.{◌++◌, List, ℕ, [], IfOk, OnOk};
    ghost use Rattle.pb_fields.specs.Field.{IsNumber};
    ghost use Rattle.pb_fields.specs.Encoding.{bool_field, bytes_field};
    ghost use Rattle.pb_fields.specs.Encoding.{varint_field, BeginsMessage};

    // The second is the first with the bytes behind it.
    ghost appends: { Self → List ℕ → Self → Type 0 };

    /// Encodes the number's field with this varint.
    fn encode_varint(&mut self, number: u32, value: u64) -> Result<(), AllocError>
        requires { IsNumber number }
        ensures { OnOk result (appends self.old (varint_field number value) self.new) };

    /// Encodes the number's field with these bytes, behind their length.
    fn encode_bytes(&mut self, number: u32, content: &[u8]) -> Result<(), AllocError>
        requires { IsNumber number }
        ensures { OnOk result (appends self.old (bytes_field number content.now) self.new) };

    /// Begins the number's field with a message of so many bytes: encodes its key and length. It answers
    /// whether the message is to be encoded next; a counter has counted it.
    fn begin_message(&mut self, number: u32, len: usize) -> Result<bool, AllocError>
        requires { IsNumber number }
        ensures { IfOk result (λ follows.
            BeginsMessage (appends self.old) number len follows self.new) };

    /// Appends fields that are encoded already.
    fn append_encoded(&mut self, fields: &[u8]) -> Result<(), AllocError>
        ensures { OnOk result (appends self.old fields.now self.new) };

    /// Encodes a true as the number's field with 1, and a false not at all.
    fn encode_bool(&mut self, number: u32, value: bool) -> Result<(), AllocError>
        requires { IsNumber number }
        ensures { OnOk result (appends self.old (bool_field number value) self.new) }
    {
        if value {
            self.encode_varint(number, 1)
        } else {
            Ok(())
        }
    }

    ghost nothing: { (a : Self) → appends a [] a };

    ghost joins: { (a b c : Self) → (xs ys : List ℕ) → appends a xs b → appends b ys c
        → appends a (xs ++ ys) c };
}

impl Output for Vec<u8> {
    ghost appends = { λ a xs b. b.items ≡ a.items ++ xs };

    ghost nothing = { λ a. sym (append-nil a.items) };

    ghost joins = { λ a b c xs ys e f. f ∙ ap (λ zs. zs ++ ys) e ∙ append_assoc a.items xs ys };

    #[inline(always)]
    fn encode_varint(&mut self, number: u32, value: u64) -> Result<(), AllocError> {
        FieldOut::varint(self, number, value)
    }

    #[inline(always)]
    fn encode_bytes(&mut self, number: u32, content: &[u8]) -> Result<(), AllocError> {
        FieldOut::bytes(self, number, content)
    }

    #[inline(always)]
    fn begin_message(&mut self, number: u32, len: usize) -> Result<bool, AllocError> {
        append_head(self, number, len)?;
        Ok(true)
    }

    #[inline(always)]
    fn append_encoded(&mut self, fields: &[u8]) -> Result<(), AllocError> {
        self.extend_from_slice(fields)
    }
}

/// Counts the bytes of the fields, and holds none.
#[derive(Clone, Copy)]
pub struct LengthCounter {
    /// How many bytes there were so far.
    pub len: usize,
}

impl LengthCounter {
    // Counts so many bytes more.
    #[inline(always)]
    fn add(&mut self, len: usize) -> Result<(), AllocError>
        ensures { OnOk result (self.new.len ≡ self.old.len + len) }
    {
        self.len = self.len.checked_add(len).ok_or(AllocError)?;
        Ok(())
    }

    // Counts a field of so many bytes, with its key and length.
    #[inline(always)]
    fn add_field(&mut self, number: u32, len: usize) -> Result<(), AllocError>
        requires { IsNumber number }
        ensures { OnOk result (self.new.len ≡ self.old.len + length (bytes_head number len) + len) }
    {
        self.add(pair_len(key_of(number, BYTES), len as u64))?;
        self.add(len)
    }
}

impl Output for LengthCounter {
    ghost appends = { λ a xs b. b.len ≡ a.len + length xs };

    ghost nothing = { λ a. Prim.omega arith };

    ghost joins = { λ a b c xs ys e f. Prim.omega (arith, length-append xs ys) };

    #[inline(always)]
    fn encode_varint(&mut self, number: u32, value: u64) -> Result<(), AllocError> {
        self.add(pair_len(key_of(number, VARINT), value))
    }

    #[inline(always)]
    fn encode_bytes(&mut self, number: u32, content: &[u8]) -> Result<(), AllocError> {
        self.add_field(number, content.len())
    }

    #[inline(always)]
    fn begin_message(&mut self, number: u32, len: usize) -> Result<bool, AllocError> {
        self.add_field(number, len)?;
        Ok(false)
    }

    #[inline(always)]
    fn append_encoded(&mut self, fields: &[u8]) -> Result<(), AllocError> {
        self.add(fields.len())
    }
}

// How many bytes two varints have.
#[inline(always)]
fn pair_len(first: u64, second: u64) -> usize
    ensures { result ≡ length (varint_encoding first ++ varint_encoding second) }
{
    wire_varint::len(first) + wire_varint::len(second)
}

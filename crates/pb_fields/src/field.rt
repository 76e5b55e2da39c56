//! A field, and the one at the front of some bytes.

ghost use Rattle.std.specs.Prelude.{◌≡◌, ◌/◌, IfOk, IfErr, IfSome, IfNone};
ghost use Rattle.pb_fields.specs.Field.{BeginsWithField, IsNumber, seen};
ghost use Rattle.pb_fields.specs.Faults.{FirstFault, HasNoNumber};

use crate::value::{decode_value, varint_at};
use crate::{FieldFault, Value};

/// The greatest number that a field has: its key, the number times 8 and the wire type, fits in 32 bits.
pub const MAX_FIELD_NUMBER: u32 = 536_870_911;

/// A field of a message: its number and its value.
#[derive(Clone, Copy, Debug, PartialEq, Eq)]
pub struct Field<'a> {
    /// From 1 to [`MAX_FIELD_NUMBER`].
    pub number: u32,
    /// The value, in the input.
    pub value: Value<'a>,
}

// The field at the front, and the bytes behind it. A value's varint comes before the key's number among the
// faults, so the value is read first.
#[inline(always)]
pub(crate) fn decode_field(bytes: &[u8]) -> Result<(Field<'_>, &[u8]), FieldFault>
    ensures field { IfOk result (λ r. BeginsWithField bytes.now (seen r.0) r.1.now) }
    ensures fault { IfErr result (λ fault. FirstFault bytes.now fault) }
{
    let (key, behind) = varint_at(bytes)?;
    match (decode_value(key % 8, behind), number_of(key)) {
        (Err(FieldFault::BadVarint), _) => Err(FieldFault::BadVarint),
        (_, None) => Err(FieldFault::BadKey),
        (Err(fault), _) => Err(fault),
        (Ok((value, rest)), Some(number)) => Ok((Field { number, value }, rest)),
    }
}

// The number of a key, if it has one: from 1 to the greatest.
#[inline(always)]
fn number_of(key: u64) -> Option<u32>
    ensures number { IfSome result (λ number. IsNumber number × (number ≡ key / 8)) }
    ensures none { IfNone result (HasNoNumber key) }
{
    match u32::try_from(key) {
        Ok(key) if key >= 8 => Some(key / 8),
        _ => None,
    }
}

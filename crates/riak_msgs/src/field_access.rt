//! What a walk over fields picks: fields of a number and their own wire type.

ghost use Rattle.std.specs.Prelude.{◌≡◌, ◌==◌, ◌∷◌, [], not, option_copied};
ghost use Rattle.std.specs.Option.{option_map_or};
ghost use Rattle.std.specs.List.{last_or};
ghost use Rattle.pb_fields.specs.Field.{seen};
ghost use Rattle.riak_msgs.specs.Picking.{bytes_at, each_bytes, varint_at};

use pb_fields::{Field, Value};

/// The bytes of a field, where it is a byte string of this number.
#[inline(always)]
pub(crate) fn bytes_at<'a>(number: u32, field: Field<'a>) -> Option<&'a [u8]>
    ensures { option_copied result ≡ bytes_at number (seen field.entry) }
{
    match field.value {
        Value::Bytes(bytes) if field.number == number => Some(bytes),
        _ => None,
    }
}

/// Keeps the bytes of a field as the last of this number, where it is a byte string of it. (By a place
/// that is written where they are, so that a walk over fields branches on each field's number once.)
#[inline(always)]
pub(crate) fn keep_last<'a>(number: u32, field: Field<'a>, last: &mut Option<&'a [u8]>)
    ensures { option_copied last.new
        ≡ last_or (option_copied last.old) (each_bytes number (seen field.entry ∷ [])) }
{
    match bytes_at(number, field) {
        Some(bytes) => *last = Some(bytes),
        None => {}
    }
}

/// The number of a field, where it is a varint of this number.
#[inline(always)]
pub(crate) fn varint_at(number: u32, field: Field<'_>) -> Option<u64>
    ensures { result ≡ varint_at number (seen field.entry) }
{
    match field.value {
        Value::Varint(value) if field.number == number => Some(value),
        _ => None,
    }
}

/// Keeps whether the number of a field isn't 0, where it is a varint of this number.
#[inline(always)]
pub(crate) fn keep_flag(number: u32, field: Field<'_>, last: &mut bool)
    ensures { last.new
        ≡ option_map_or (λ n. not (n == 0)) (varint_at number (seen field.entry)) last.old }
{
    match varint_at(number, field) {
        Some(value) => *last = value != 0,
        None => {}
    }
}

//! A field's value, and the one at the front of some bytes.

ghost use Rattle.std.specs.Prelude.{◌≡◌, ◌<◌, ◌++◌, ℕ, IfOk, IfErr, length, List};
ghost use Rattle.pb_fields.specs.Field.{IsValue, value_seen, wire_type};
ghost use Rattle.pb_fields.specs.Faults.{BeginsWithVarint, ValueFails, VarintFails};

use crate::FieldFault;
use wire_varint::VarintFault;

// The wire types of a value, the lowest three bits of its key.
pub(crate) const VARINT: u64 = 0;

pub(crate) const I64: u64 = 1;

pub(crate) const BYTES: u64 = 2;

pub(crate) const I32: u64 = 5;

/// A field's value, as it lies in the input.
#[derive(Clone, Copy, Debug, PartialEq, Eq)]
pub enum Value<'a> {
    /// Wire type 0: a number. A `uint32` is its low 32 bits, a `bool` is true where it isn't 0.
    Varint(u64),
    /// Wire type 1: eight bytes.
    Eight(&'a [u8]),
    /// Wire type 2: bytes, behind a length; a string, an embedded message.
    Bytes(&'a [u8]),
    /// Wire type 5: four bytes.
    Four(&'a [u8]),
}

// The value of this wire type at the front, and the bytes behind it.
#[inline(always)]
pub(crate) fn decode_value(wire: u64, bytes: &[u8]) -> Result<(Value<'_>, &[u8]), FieldFault>
    ensures wire { IfOk result (λ r. wire_type (value_seen r.0) ≡ wire) }
    ensures value { IfOk result (λ r. (w : List ℕ) × IsValue w (value_seen r.0)
        × (bytes.now ≡ w ++ r.1.now)) }
    ensures fault { IfErr result (λ fault. ValueFails wire bytes.now fault) }
{
    match wire {
        VARINT => {
            let (number, rest) = varint_at(bytes)?;
            Ok((Value::Varint(number), rest))
        }
        I64 => {
            let (eight, rest) = split(bytes, 8)?;
            Ok((Value::Eight(eight), rest))
        }
        BYTES => {
            let (len, behind) = varint_at(bytes)?;
            let (content, rest) = split(behind, len)?;
            Ok((Value::Bytes(content), rest))
        }
        I32 => {
            let (four, rest) = split(bytes, 4)?;
            Ok((Value::Four(four), rest))
        }
        _ => Err(FieldFault::BadWire),
    }
}

// The varint at the front, and the bytes behind it.
#[inline(always)]
pub(crate) fn varint_at(bytes: &[u8]) -> Result<(u64, &[u8]), FieldFault>
    ensures varint { IfOk result (λ r. BeginsWithVarint bytes.now r.0 r.1.now) }
    ensures fault { IfErr result (λ fault. VarintFails bytes.now fault) }
{
    match wire_varint::read(bytes) {
        Ok((number, used)) => {
            let (_, behind) = bytes.split_at(used);
            Ok((number, behind))
        }
        Err(VarintFault::Short) => Err(FieldFault::Short),
        Err(VarintFault::TooLong) => Err(FieldFault::BadVarint),
    }
}

// The first `len` bytes, and those behind them.
#[inline(always)]
fn split(bytes: &[u8], len: u64) -> Result<(&[u8], &[u8]), FieldFault>
    ensures parts { IfOk result (λ r. (bytes.now ≡ r.0.now ++ r.1.now) × (length r.0.now ≡ len)) }
    ensures fault { IfErr result (λ fault. (fault ≡ FieldFault.Short) × (length bytes.now < len)) }
{
    if (bytes.len() as u64) < len {
        return Err(FieldFault::Short);
    }
    Ok(bytes.split_at(len as usize))
}

//! Reading a varint.

ghost use Rattle.std.specs.Prelude.{◌≤◌, ◌↔◌, IfOk, IsErrOf, length, take};
ghost use Rattle.wire_varint.specs.Varint.{IsTruncated, IsVarint, IsOverlong};

use crate::{MAX_VARINT_LEN, VarintFault};

/// Reads the varint at the front of `bytes`: its value, and how many bytes it has.
///
/// An encoding that isn't the shortest is read as well, and bits above 64 are dropped: `80 00` is 0 in two bytes.
/// What follows the varint isn't looked at.
///
/// Refused are bytes that end within the varint ([`VarintFault::Short`], no bytes among them) and bytes of which
/// the first ten have the high bit ([`VarintFault::TooLong`]).
#[inline(always)]
pub fn read(bytes: &[u8]) -> Result<(u64, usize), VarintFault>
    ensures within { IfOk result (λ r. r.1 ≤ length bytes.now) }
    ensures varint { IfOk result (λ r. IsVarint (take r.1 bytes.now) r.0) }
    ensures short { IsErrOf result VarintFault.Short ↔ IsTruncated bytes.now }
    ensures too_long { IsErrOf result VarintFault.TooLong ↔ IsOverlong bytes.now }
{
    if let Some(&first) = bytes.first() {
        if first < 128 {
            return Ok((u64::from(first), 1));
        }
    }
    read_groups(bytes)
}

// One group after another.
#[inline(never)]
fn read_groups(bytes: &[u8]) -> Result<(u64, usize), VarintFault>
    ensures within { IfOk result (λ r. r.1 ≤ length bytes.now) }
    ensures varint { IfOk result (λ r. IsVarint (take r.1 bytes.now) r.0) }
    ensures short { IsErrOf result VarintFault.Short ↔ IsTruncated bytes.now }
    ensures too_long { IsErrOf result VarintFault.TooLong ↔ IsOverlong bytes.now }
{
    let mut value = 0u64;
    let mut weight = 1u64;
    for i in 0..MAX_VARINT_LEN {
        if i >= bytes.len() {
            return Err(VarintFault::Short);
        }
        let byte = bytes[i];
        let group = u64::from(byte % 128);
        value = value.wrapping_add(group.wrapping_mul(weight));
        if byte < 128 {
            return Ok((value, i + 1));
        }
        weight = weight.wrapping_mul(128);
    }
    Err(VarintFault::TooLong)
}

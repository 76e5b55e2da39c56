//! Writing a varint.

ghost use Rattle.std.specs.Prelude.{◌≡◌, ℕ, ◌≤◌, ◌++◌, List, length, drop};
ghost use Rattle.wire_varint.specs.Varint.{HasGroups, IsVarint, encoding};

use crate::MAX_VARINT_LEN;

/// How many bytes the shortest encoding of `value` has: 1 to 10.
#[inline(always)]
pub fn len(value: u64) -> usize
    ensures encoded { result ≡ length (encoding value) }
    ensures bounded { result ≤ MAX_VARINT_LEN }
{
    groups(value)
}

// How many groups of seven bits the value has, and one for 0.
#[inline(always)]
fn groups(value: u64) -> usize
    ensures bounded { result ≤ MAX_VARINT_LEN }
    ensures fewest { HasGroups value result }
{
    match value {
        0..=0x7f => 1,
        0x80..=0x3fff => 2,
        0x4000..=0x1f_ffff => 3,
        0x20_0000..=0xfff_ffff => 4,
        0x1000_0000..=0x7_ffff_ffff => 5,
        0x8_0000_0000..=0x3ff_ffff_ffff => 6,
        0x400_0000_0000..=0x1_ffff_ffff_ffff => 7,
        0x2_0000_0000_0000..=0xff_ffff_ffff_ffff => 8,
        0x100_0000_0000_0000..=0x7fff_ffff_ffff_ffff => 9,
        _ => 10,
    }
}

/// Writes the shortest encoding of `value` to the front of `out`, and returns how many bytes it has.
///
/// The caller has room: `out` has `len(value)` bytes at least, as any ten bytes have. What lies behind the
/// encoding stays. [`read`](crate::read) reads the value back, whatever follows it.
#[inline(always)]
pub fn write(value: u64, out: &mut [u8]) -> usize
    requires room { length (encoding value) ≤ length out.old }
    ensures used { result ≡ length (encoding value) }
    ensures written { out.new ≡ encoding value ++ drop result out.old }
    ensures varint { IsVarint (encoding value) value }
    ensures shortest { (others : List ℕ) → IsVarint others value → result ≤ length others }
{
    let mut rest = value;
    let mut used = 0;
    while rest >= 128 {
        out[used] = (rest % 128) as u8 + 128;
        rest /= 128;
        used += 1;
    }
    out[used] = rest as u8;
    used + 1
}

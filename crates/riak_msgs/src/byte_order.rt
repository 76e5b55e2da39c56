//! The order of byte strings.

ghost use Rattle.std.specs.Prelude.{◌≡◌, ◌<◌, ◌≤◌, length, drop};
ghost use Rattle.std.specs.declared.cmp.Ordering.TheVariants.{Equal};
ghost use Rattle.std.specs.Cmp.Lexicographic.{slice_cmp};
ghost use Rattle.std.specs.Ordering.{nat_cmp, ordering_then};
ghost use Rattle.byteorder.specs.Endian.{big_number};

use byteorder::{BigEndian, ByteOrder};
use std::cmp::Ordering;

/// How two byte strings compare, byte by byte; where one begins with the other, the shorter is the
/// lesser. Strings of one length from 8 to 16, as most keys of a bucket are, are compared where they are
/// asked for, as two numbers.
#[inline(always)]
pub(crate) fn compare(left: &[u8], right: &[u8]) -> Ordering
    ensures { result ≡ slice_cmp nat_cmp left.now right.now }
{
    let len = left.len();
    if len != right.len() || len < 8 || len > 16 {
        return compare_long(left, right);
    }
    match compare_eight(left, right) {
        Ordering::Equal => compare_last_eight(left, right),
        unequal => unequal,
    }
}

/// The same, where strings of one length with fewer than eight bytes, as most buckets, are compared
/// where they are asked for.
#[inline(always)]
pub(crate) fn compare_names(left: &[u8], right: &[u8]) -> Ordering
    ensures { result ≡ slice_cmp nat_cmp left.now right.now }
{
    if left.len() == right.len() && left.len() < 8 {
        return compare_few(left, right);
    }
    compare_long(left, right)
}

/// How two byte strings of one length compare, up to 16, whose first eight bytes are equal: by their last eight.
#[inline(always)]
fn compare_last_eight(left: &[u8], right: &[u8]) -> Ordering
    requires long { 8 ≤ length left.now }
    requires few { length left.now ≤ 16 }
    requires one { length left.now ≡ length right.now }
    requires equal { nat_cmp (big_number 8 left.now) (big_number 8 right.now) ≡ Equal }
    ensures { result ≡ slice_cmp nat_cmp left.now right.now }
{
    let at = left.len() - 8;
    compare_eight(&left[at..], &right[at..])
}

/// How two byte strings of one length compare that have fewer than eight bytes.
#[inline(always)]
fn compare_few(left: &[u8], right: &[u8]) -> Ordering
    requires few { length left.now < 8 }
    requires one { length left.now ≡ length right.now }
    ensures { result ≡ slice_cmp nat_cmp left.now right.now }
{
    if left.len() < 4 {
        return compare_bytes(left, right);
    }
    match compare_four(left, right) {
        Ordering::Equal => compare_last_four(left, right),
        unequal => unequal,
    }
}

/// How two byte strings of one length compare, up to 8, whose first four bytes are equal: by their last four.
#[inline(always)]
fn compare_last_four(left: &[u8], right: &[u8]) -> Ordering
    requires long { 4 ≤ length left.now }
    requires few { length left.now ≤ 8 }
    requires one { length left.now ≡ length right.now }
    requires equal { nat_cmp (big_number 4 left.now) (big_number 4 right.now) ≡ Equal }
    ensures { result ≡ slice_cmp nat_cmp left.now right.now }
{
    let at = left.len() - 4;
    compare_four(&left[at..], &right[at..])
}

/// How two byte strings compare, eight bytes at a time, then four, then one.
fn compare_long(left: &[u8], right: &[u8]) -> Ordering
    ensures { result ≡ slice_cmp nat_cmp left.now right.now }
{
    let mut left = left;
    let mut right = right;
    while left.len() >= 8 && right.len() >= 8 {
        match compare_eight(left, right) {
            Ordering::Equal => {}
            unequal => return unequal,
        }
        left = &left[8..];
        right = &right[8..];
    }
    if left.len() < 4 || right.len() < 4 {
        return compare_bytes(left, right);
    }
    match compare_four(left, right) {
        Ordering::Equal => compare_bytes(&left[4..], &right[4..]),
        unequal => unequal,
    }
}

/// How the first eight bytes compare, as numbers with the first byte highest.
#[inline(always)]
fn compare_eight(left: &[u8], right: &[u8]) -> Ordering
    requires left { 8 ≤ length left.now }
    requires right { 8 ≤ length right.now }
    ensures number { result ≡ nat_cmp (big_number 8 left.now) (big_number 8 right.now) }
    ensures order { slice_cmp nat_cmp left.now right.now
        ≡ ordering_then result (slice_cmp nat_cmp (drop 8 left.now) (drop 8 right.now)) }
{
    BigEndian::read_u64(left).cmp(&BigEndian::read_u64(right))
}

/// How the first four bytes compare, in the same way.
#[inline(always)]
fn compare_four(left: &[u8], right: &[u8]) -> Ordering
    requires left { 4 ≤ length left.now }
    requires right { 4 ≤ length right.now }
    ensures number { result ≡ nat_cmp (big_number 4 left.now) (big_number 4 right.now) }
    ensures order { slice_cmp nat_cmp left.now right.now
        ≡ ordering_then result (slice_cmp nat_cmp (drop 4 left.now) (drop 4 right.now)) }
{
    BigEndian::read_u32(left).cmp(&BigEndian::read_u32(right))
}

/// How two byte strings compare, one byte at a time.
#[inline(always)]
fn compare_bytes(left: &[u8], right: &[u8]) -> Ordering
    ensures { result ≡ slice_cmp nat_cmp left.now right.now }
{
    for at in 0..left.len().min(right.len()) {
        if left[at] != right[at] {
            return left[at].cmp(&right[at]);
        }
    }
    left.len().cmp(&right.len())
}

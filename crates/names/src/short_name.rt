//! Names of up to 15 bytes as two numbers.

ghost use Rattle.std.specs.Prelude.{◌≡◌, IfOk, ◌<◌, ◌≤◌, ◌==◌, ◌*◌, ◌+◌, ◌^◌};
ghost use Rattle.std.specs.Prelude.{List, ℕ, length, slice_index, take};
ghost use Rattle.std.proofs.Common.{rules};
ghost use Rattle.std.specs.Cmp.{partial_order_from_own_ties};
ghost use Rattle.std.specs.Cmp.Lexicographic.{pointwise, slice_cmp};
ghost use Rattle.std.specs.Cmp.Rules.{comparing};
ghost use Rattle.std.specs.Ordering.{nat_cmp, as_partial_cmp, ordering_then, is_lt};
ghost use Rattle.byteorder.specs.Endian.{big_number, big_from};
ghost use Rattle.names.specs.ShortNames.{short_name, high_of, low_of};

use byteorder::{BigEndian, ByteOrder};
use riak_msgs::Bytes;
use std::alloc::{AllocError, Global};
use std::cmp::Ordering;
use std::marker::Model;

/// A name of up to 15 bytes, as two numbers with the first byte highest: the first eight bytes, and the
/// others with the length. Zeros stand for the bytes that it doesn't have. It is copied as it is, and
/// two compare as their bytes do, by their numbers alone. Contracts see the list of its bytes.
#[derive(Clone, Copy)]
pub struct ShortName {
    high: u64,
    low: u64,
}

impl Model for ShortName {
    ghost use Rattle.std.specs.Prelude.{List, ℕ};
    ghost use Rattle.names.specs.ShortNames.{name_in, words_of, AreWords};

    ghost Value = { List ℕ };

    ghost view = { λ n. name_in n };

    ghost invariant = { λ n. AreWords n };

    ghost inverse = { λ name. words_of name };

    ghost inverse_ok = { λ a h. λ i. record { high = h.high i; low = h.low i } };
}

/// The law of the order of names of up to 15 bytes, as it is proved.
pub fn names_are_ordered()
    ensures { (xs ys : List ℕ) → length xs ≤ 15 → length ys ≤ 15
        → ((k : ℕ) → slice_index xs k < 256)
        → ((k : ℕ) → slice_index ys k < 256) → slice_cmp nat_cmp xs ys
        ≡ ordering_then (nat_cmp (high_of xs) (high_of ys)) (nat_cmp (low_of xs) (low_of ys)) }
{}

/// The number of the bytes behind the first eight, and of the length.
#[inline(always)]
fn low_word(bytes: &[u8]) -> u64
    requires { length bytes.now ≤ 15 }
    ensures { result ≡ low_of bytes.now }
{
    let len = bytes.len();
    if len <= 8 {
        return len as u64;
    }
    rest_word(bytes)
}

/// The same, where there are bytes behind the first eight.
#[inline(always)]
fn rest_word(bytes: &[u8]) -> u64
    requires long { 8 < length bytes.now }
    requires short { length bytes.now ≤ 15 }
    ensures { result ≡ low_of bytes.now }
{
    let len = bytes.len();
    let last = BigEndian::read_u64(&bytes[len - 8..]);
    let shift = 8 * (16 - len) as u32;
    (last << shift) | len as u64
}

/// The number of the first eight bytes, with zeros for those that there aren't.
#[inline(always)]
fn high_word(bytes: &[u8]) -> u64
    ensures { result ≡ high_of bytes.now }
{
    let len = bytes.len();
    if len >= 8 {
        return BigEndian::read_u64(bytes);
    }
    if len > 4 {
        return word_of_some(bytes);
    }
    word_of_few(bytes)
}

/// The same of five to seven bytes.
#[inline(always)]
fn word_of_some(bytes: &[u8]) -> u64
    requires long { 4 < length bytes.now }
    requires short { length bytes.now < 8 }
    ensures { result ≡ high_of bytes.now }
{
    let len = bytes.len();
    let first = u64::from(BigEndian::read_u32(bytes));
    let last = BigEndian::read_u32(&bytes[len - 4..]);
    let shift = 8 * (8 - len) as u32;
    (first << 32) | u64::from(last << shift)
}

/// The same of up to four bytes.
#[inline(always)]
fn word_of_few(bytes: &[u8]) -> u64
    requires { length bytes.now ≤ 4 }
    ensures { result ≡ high_of bytes.now }
{
    let len = bytes.len();
    if len == 4 {
        return u64::from(BigEndian::read_u32(bytes)) << 32;
    }
    if len == 0 {
        return 0;
    }
    if len == 1 {
        return u64::from(bytes[0]) << 56;
    }
    let first = u64::from(BigEndian::read_u16(bytes)) << 48;
    if len == 2 {
        return first;
    }
    first | (u64::from(bytes[2]) << 40)
}

impl ShortName {
    /// A name of up to 15 bytes; none of more. It takes no memory.
    #[inline(always)]
    pub fn of(bytes: &[u8]) -> Option<ShortName>
        ensures { result ≡ short_name bytes.now }
    {
        let len = bytes.len();
        if len > 15 {
            return None;
        }
        Some(ShortName {
            high: high_word(bytes),
            low: low_word(bytes),
        })
    }

    /// The name of the first 15 bytes, or of all where there are fewer. It takes no memory.
    #[inline(always)]
    pub fn prefix_of(bytes: &[u8]) -> ShortName
        ensures { result ≡ take 15 bytes.now }
    {
        let len = bytes.len();
        if len > 15 {
            return ShortName::of_all(&bytes[..15]);
        }
        ShortName::of_all(bytes)
    }

    /// The name of up to 15 bytes.
    #[inline(always)]
    fn of_all(bytes: &[u8]) -> ShortName
        requires { length bytes.now ≤ 15 }
        ensures { result ≡ bytes.now }
    {
        ShortName {
            high: high_word(bytes),
            low: low_word(bytes),
        }
    }

    /// The bytes of the name, copied. They take no memory.
    pub fn to_bytes(self, alloc: Global) -> Result<Bytes, AllocError>
        ensures { IfOk result (λ bytes. bytes ≡ self) }
    {
        let mut bytes = [0; 15];
        BigEndian::write_u64(&mut bytes[7..], self.low / 256);
        BigEndian::write_u64(&mut bytes, self.high);
        let len = (self.low % 256) as usize;
        Bytes::from_slice(alloc, &bytes[..len])
    }

    /// Whether it is behind these bytes, of any length.
    #[inline(always)]
    pub fn is_above(self, bytes: &[u8]) -> bool
        ensures { result ≡ is_lt (slice_cmp nat_cmp bytes.now self) }
    {
        let _high = self.high;
        let prefix = ShortName::prefix_of(bytes);
        ShortName::is_less(&prefix, &self)
    }

    /// Whether one is below another.
    #[inline(always)]
    fn is_less(left: &ShortName, right: &ShortName) -> bool
        ensures { result ≡ is_lt (slice_cmp nat_cmp left.now right.now) }
    {
        match left.cmp(right) {
            Ordering::Less => true,
            _ => false,
        }
    }
}

impl PartialEq for ShortName {
    ghost eq = { pointwise ◌==◌ };

    ghost laws = { Prim.search (comparing, rules) };

    #[inline(always)]
    fn eq(&self, other: &ShortName) -> bool {
        self.high == other.high && self.low == other.low
    }
}

impl Eq for ShortName {
    ghost laws = { Prim.search (comparing, rules) };
}

impl Ord for ShortName {
    ghost cmp = { slice_cmp nat_cmp };

    ghost total = { Prim.search (comparing, rules) };

    ghost matches_partial_cmp = { Prim.search (comparing, rules) };

    ghost matches_eq = { Prim.search (comparing, rules) };

    #[inline(always)]
    fn cmp(&self, other: &ShortName) -> Ordering {
        match self.high.cmp(&other.high) {
            Ordering::Equal => self.low.cmp(&other.low),
            unequal => unequal,
        }
    }
}

impl PartialOrd for ShortName {
    ghost partial_cmp = { as_partial_cmp (slice_cmp nat_cmp) };

    ghost laws = { partial_order_from_own_ties (Prim.search (comparing, rules))
        (Prim.search (comparing, rules)) };

    #[inline(always)]
    fn partial_cmp(&self, other: &ShortName) -> Option<Ordering> {
        Some(self.cmp(other))
    }
}

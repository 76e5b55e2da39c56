//! Laws of varints.

ghost use Rattle.std.specs.Prelude.{◌≡◌, ℕ, ◌<◌, ◌≤◌, ◌^◌, ◌++◌, List, length};
ghost use Rattle.wire_varint.specs.Varint.{IsVarint, max_varint_len, encoding};

use crate::MAX_VARINT_LEN;

/// A law: no varint begins another. So bytes begin with one varint at most, and what follows it doesn't matter.
pub fn varints_are_one()
    ensures { (a b x y : List ℕ) (m n : ℕ) → IsVarint a m → IsVarint b n → a ++ x ≡ b ++ y
        → (a ≡ b) × (m ≡ n) × (x ≡ y) }
{}

/// A law: the encoding of a value is a varint of it, and none is shorter. By [`varints_are_one`] it is read back
/// whatever follows.
pub fn encoding_is_shortest()
    ensures varint { (value : ℕ) → value < 2 ^ 64 → IsVarint (encoding value) value }
    ensures shortest { (value : ℕ) (others : List ℕ) → value < 2 ^ 64 → IsVarint others value
        → length (encoding value) ≤ length others }
{}

/// A law: the limit of the code is that of the definitions, ten bytes.
pub fn longest_is_that_of_the_definitions()
    ensures { MAX_VARINT_LEN ≡ max_varint_len }
{}

//! Fields of bytes in their one encoding: with a key of one byte, and a length of one or two in its shortest form.

ghost use Rattle.std.specs.Prelude.{◌≡◌, ◌↔◌, ◌<◌, ◌≤◌, true, List, ℕ};
ghost use Rattle.std.specs.Prelude.{Option, length, IfSome, IfNone, IsTrue};
ghost use Rattle.pb_fields.specs.Field.{BeginsWithField};
ghost use Rattle.riak_msgs.specs.PlainFields.{string_at};
ghost use Rattle.riak_msgs.specs.PlainFields.{ArePlainDetails, BeginsPlainly, BeginsWithContext};
ghost use Rattle.riak_msgs.specs.PlainFields.{BeginsWithFlag, BeginsWithLen, BeginsWithNames};
ghost use Rattle.riak_msgs.specs.PlainFields.{BeginsWithOptional, IsPlainContent};

/// The length at the front, where it is below 16,384 and in its shortest form, and what is behind it.
#[inline(always)]
fn first_len(bytes: &[u8]) -> Option<(usize, &[u8])>
    ensures some { IfSome result (λ r. BeginsWithLen bytes.now r.0 r.1.now) }
    ensures none { IfNone result ((len : ℕ) (behind : List ℕ) → BeginsWithLen bytes.now len behind
        → ⊥) }
{
    let Some((low, rest)) = bytes.split_first() else {
        return None;
    };
    if *low < 128 {
        return Some((*low as usize, rest));
    }
    let Some((high, behind)) = rest.split_first() else {
        return None;
    };
    if *high == 0 {
        return None;
    }
    if *high >= 128 {
        return None;
    }
    Some(((*low - 128) as usize + 128 * (*high as usize), behind))
}

/// The bytes of a field of this number at the front, where it is plain, and what is behind it.
#[inline(always)]
pub(crate) fn first_bytes(number: u8, bytes: &[u8]) -> Option<(&[u8], &[u8])>
    requires { (1 ≤ number) × (number < 16) }
    ensures some { IfSome result (λ r. BeginsPlainly number bytes.now r.0.now r.1.now) }
    ensures field { IfSome result (λ r.
        BeginsWithField bytes.now (string_at number r.0.now) r.1.now) }
    ensures none { IfNone result ((content behind : List ℕ)
        → BeginsPlainly number bytes.now content behind → ⊥) }
{
    let Some((key, behind)) = bytes.split_first() else {
        return None;
    };
    if *key != number * 8 + 2 {
        return None;
    }
    let Some((len, rest)) = first_len(behind) else {
        return None;
    };
    if rest.len() < len {
        return None;
    }
    Some(rest.split_at(len))
}

/// The bytes of a field of this number at the front, where it is plain and has bytes, and what is behind
/// it; none, where it isn't there.
#[inline(always)]
pub(crate) fn first_context(number: u8, bytes: &[u8]) -> (&[u8], &[u8])
    requires { (1 ≤ number) × (number < 16) }
    ensures begins { BeginsWithContext number bytes.now result.0.now result.1.now }
    ensures found { (content behind : List ℕ) → BeginsPlainly number bytes.now content behind
        → 1 ≤ length content → (result.0.now ≡ content) × (result.1.now ≡ behind) }
{
    let Some((context, behind)) = first_bytes(number, bytes) else {
        return (&[], bytes);
    };
    if context.is_empty() {
        return (&[], bytes);
    }
    (context, behind)
}

/// Whether the one encoding of a true of this number is at the front, and what is behind it.
#[inline(always)]
pub(crate) fn first_flag(number: u8, bytes: &[u8]) -> (bool, &[u8])
    requires { number < 16 }
    ensures begins { BeginsWithFlag number bytes.now result.0 result.1.now }
    ensures found { (behind : List ℕ) → BeginsWithFlag number bytes.now true behind
        → result.0 ≡ true }
{
    let Some((key, rest)) = bytes.split_first() else {
        return (false, bytes);
    };
    if *key != number * 8 {
        return (false, bytes);
    }
    let Some((value, behind)) = rest.split_first() else {
        return (false, bytes);
    };
    if *value != 1 {
        return (false, bytes);
    }
    (true, behind)
}

/// The names of a bucket and a key at the front, where they are plain and have bytes, and what is behind them.
#[inline(always)]
pub(crate) fn first_names(body: &[u8]) -> Option<(&[u8], &[u8], &[u8])>
    ensures some { IfSome result (λ r. BeginsWithNames body.now r.0.now r.1.now r.2.now) }
    ensures none { IfNone result ((bucket key behind : List ℕ)
        → BeginsWithNames body.now bucket key behind → ⊥) }
{
    let Some((bucket, rest)) = first_bytes(1, body) else {
        return None;
    };
    let Some((key, behind)) = first_bytes(2, rest) else {
        return None;
    };
    if bucket.is_empty() {
        return None;
    }
    if key.is_empty() {
        return None;
    }
    Some((bucket, key, behind))
}

/// What is behind a plain field of this number; all, where it isn't at the front.
#[inline(always)]
fn behind_optional(number: u8, bytes: &[u8]) -> &[u8]
    requires { (1 ≤ number) × (number < 16) }
    ensures begins { (content : Option (List ℕ))
        × BeginsWithOptional number bytes.now content result.now }
    ensures found { (content behind : List ℕ) → BeginsPlainly number bytes.now content behind
        → result.now ≡ behind }
{
    match first_bytes(number, bytes) {
        Some((_, behind)) => behind,
        None => bytes,
    }
}

/// Whether these are the plain fields of a content type, a character set and a content encoding, as far
/// as they are given.
fn are_details(bytes: &[u8]) -> bool
    ensures { IsTrue result ↔ ArePlainDetails bytes.now }
{
    let behind_type = behind_optional(2, bytes);
    let behind_charset = behind_optional(3, behind_type);
    behind_optional(4, behind_charset).is_empty()
}

/// Whether a content is in the plain form: its value, and behind it these details.
#[inline(always)]
pub(crate) fn is_plain_content(bytes: &[u8]) -> bool
    ensures { IsTrue result ↔ IsPlainContent bytes.now }
{
    let Some((_, details)) = first_bytes(1, bytes) else {
        return false;
    };
    details.is_empty() || are_details(details)
}

//! The least entry of a map behind a key.

ghost use Rattle.std.specs.Prelude.{◌≡◌, IfSome, Some};
ghost use Rattle.std.specs.Option.{option_map};
ghost use Rattle.std.specs.BTreeMap.{get};
ghost use Rattle.names.specs.Behind.{next_entry};

use std::collections::BTreeMap;
use std::ops::Bound;

/// The least entry behind a key, or of all where none is given: one search. It takes no memory.
pub(crate) fn next_entry<'a, K: Ord, V>(
    map: &'a BTreeMap<K, V>,
    after: Option<&K>,
) -> Option<(&'a K, &'a V)>
    ensures next { option_map (λ entry. (entry.0.now, entry.1.now)) result
        ≡ next_entry K.cmp (option_map (λ key. key.now) after.entry) map.now.entries }
    ensures held { IfSome result (λ entry. get K.cmp map.now entry.0.now ≡ Some entry.1.now) }
{
    match after {
        None => map.first_key_value(),
        Some(after) => map.range((Bound::Excluded(after), Bound::Unbounded)).next(),
    }
}

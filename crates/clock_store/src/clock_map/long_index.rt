//! The dead keys in their order, but those with short names.

ghost use Rattle.std.specs.Prelude.{◌≡◌, OnOk, OnErr, IfSome, IfNone, Some, None, drop};
ghost use Rattle.std.specs.Prelude.{if◌then◌else◌};
ghost use Rattle.std.specs.BTreeMap.{get, is_at, IsOrdered};
ghost use Rattle.riak_msgs.specs.KeyOrder.{key_cmp};
ghost use Rattle.std.specs.Option.{option_map};
ghost use Rattle.clock_store.specs.Forgetting.{key_given};
ghost use Rattle.clock_store.specs.Index.{without_spare, first_marked, left_by};

use crate::clock_map::room::is_mark;
use riak_msgs::Key;
use std::alloc::{AllocError, Global};
use std::collections::BTreeMap;
use std::collections::btree_map::Range;

/// Makes an entry for a key, which is copied, with its place. Refused where memory is, and then nothing changes.
pub(crate) fn insert(
    index: &mut BTreeMap<Key, usize>,
    alloc: Global,
    key: &Key,
    place: usize,
) -> Result<(), AllocError>
    ensures inserted { OnOk result ((q : Key) → get key_cmp index.new q
        ≡ (if is_at (key_cmp key.now) q then Some place else get key_cmp index.old q)) }
    ensures refused { OnErr result (index.new.entries ≡ index.old.entries) }
    ensures ordered { IsOrdered key_cmp index.new }
{
    // By this call it is known that the keys are in order, also where there is no memory for the copy.
    let _count = index.len();
    let own = key.clone(alloc)?;
    match index.insert(own, place) {
        Ok(_) => Ok(()),
        Err(_) => Err(AllocError),
    }
}

/// Takes the entry of a key out. It takes no memory.
pub(crate) fn remove(index: &mut BTreeMap<Key, usize>, key: &Key)
    ensures removed { (q : Key) → get key_cmp index.new q
        ≡ (if is_at (key_cmp key.now) q then None else get key_cmp index.old q) }
    ensures ordered { IsOrdered key_cmp index.new }
{
    let _ = index.remove(key);
}

/// Takes the entry with the spare place out, by a pass over all entries.
pub(crate) fn retain_marks(index: &mut BTreeMap<Key, usize>, spare: Option<usize>)
    ensures left { (q : Key) →
        get key_cmp index.new q ≡ without_spare spare (get key_cmp index.old q) }
    ensures ordered { IsOrdered key_cmp index.new }
{
    index.retain(|_key, place| is_mark(spare, *place));
}

/// The first dead key of a part of the index.
fn first_in<'a>(entries: Range<'a, Key, usize>, spare: Option<usize>) -> Option<&'a Key>
    ensures { option_map (λ key. key.now) result ≡ first_marked spare None entries.entry }
{
    for (key, place) in entries {
        if is_mark(spare, *place) {
            return Some(key);
        }
    }
    None
}

/// The least dead key at or after one, or of all where none is given. It passes over the entry of the spare place.
pub(crate) fn first_dead<'a>(
    index: &'a BTreeMap<Key, usize>,
    spare: Option<usize>,
    from: Option<&Key>,
) -> Option<&'a Key>
    ensures { option_map (λ key. key.now) result
        ≡ first_marked spare (key_given from.entry) index.now.entries }
{
    match from {
        None => first_in(index.range(..), spare),
        Some(from) => first_in(index.range(from..), spare),
    }
}

/// How many keys of the index are before one; none where none is given.
fn count_before(index: &BTreeMap<Key, usize>, from: Option<&Key>) -> usize
    ensures first { first_marked None None (drop result index.now.entries)
        ≡ first_marked None (key_given from.entry) index.now.entries }
{
    match from {
        None => 0,
        Some(from) => index.range(..from).count(),
    }
}

/// Takes out the first entry behind so many.
fn take_entry_after(index: &mut BTreeMap<Key, usize>, passed: usize) -> Option<(Key, usize)>
    ensures first { option_map (λ entry. entry.0) result
        ≡ first_marked None None (drop passed index.old.entries) }
    ensures taken { (q : Key) →
        get key_cmp index.new q ≡ left_by result q (get key_cmp index.old q) }
    ensures ordered { IsOrdered key_cmp index.old }
{
    let _count = index.len();
    let mut left = passed;
    let picks = move |_key: &Key, _place: &mut usize| {
        if left > 0 {
            left -= 1;
            return false;
        }
        true
    };
    let mut dead = index.extract_if(.., picks);
    dead.next()
}

/// Takes out the least key at or after one, or of all where none is given: there by one search, else by a
/// pass over the keys before it. Where no entry is spare that key is dead. It takes no memory.
pub(crate) fn take_first(index: &mut BTreeMap<Key, usize>, from: Option<&Key>) -> Option<Key>
    ensures first { result ≡ first_marked None (key_given from.entry) index.old.entries }
    ensures taken { IfSome result (λ key. (q : Key) → get key_cmp index.new q
        ≡ (if is_at (key_cmp key) q then None else get key_cmp index.old q)) }
    ensures none { IfNone result ((q : Key) →
        get key_cmp index.new q ≡ get key_cmp index.old q) }
    ensures ordered { IsOrdered key_cmp index.new }
{
    let passed = count_before(index, from);
    let taken = take_entry_after(index, passed);
    let _count = index.len();
    match taken {
        None => None,
        Some((key, _place)) => Some(key),
    }
}

//! The dead keys with short names in their order.

ghost use Rattle.std.specs.Prelude.{◌≡◌, ◌&&◌, OnOk, OnErr, Some, None, if◌then◌else◌};
ghost use Rattle.std.specs.BTreeMap.{get, is_at, IsOrdered};
ghost use Rattle.riak_msgs.specs.declared.key.Key.{Key};
ghost use Rattle.riak_msgs.specs.KeyOrder.{key_cmp};
ghost use Rattle.vnode_machine.specs.Dead.{is_from};
ghost use Rattle.clock_store.specs.Forgetting.{key_given};
ghost use Rattle.clock_store.specs.Index.{is_mark, without_spare, first_marked};

use crate::clock_map::room::is_mark;
use names::ShortKey;
use riak_msgs::Key;
use std::alloc::AllocError;
use std::cmp::Ordering;
use std::collections::BTreeMap;
use std::collections::btree_map::Range;

/// Makes an entry for a key with its place. Refused where memory is, and then nothing changes.
#[inline(always)]
pub(crate) fn insert(
    index: &mut BTreeMap<ShortKey, usize>,
    key: ShortKey,
    place: usize,
) -> Result<(), AllocError>
    ensures inserted { OnOk result ((q : Key) → get key_cmp index.new q
        ≡ (if is_at (key_cmp key) q then Some place else get key_cmp index.old q)) }
    ensures refused { OnErr result (index.new.entries ≡ index.old.entries) }
    ensures ordered { IsOrdered key_cmp index.new }
{
    match index.insert(key, place) {
        Ok(_) => Ok(()),
        Err(_) => Err(AllocError),
    }
}

/// Takes the entry of a key out. It takes no memory.
pub(crate) fn remove(index: &mut BTreeMap<ShortKey, usize>, key: ShortKey)
    ensures removed { (q : Key) → get key_cmp index.new q
        ≡ (if is_at (key_cmp key) q then None else get key_cmp index.old q) }
    ensures ordered { IsOrdered key_cmp index.new }
{
    let _ = index.remove(&key);
}

/// Takes the entry with the spare place out, by a pass over all entries.
pub(crate) fn retain_marks(index: &mut BTreeMap<ShortKey, usize>, spare: Option<usize>)
    ensures left { (q : Key) →
        get key_cmp index.new q ≡ without_spare spare (get key_cmp index.old q) }
    ensures ordered { IsOrdered key_cmp index.new }
{
    index.retain(|_key, place| is_mark(spare, *place));
}

/// The first dead key of a part of the index.
fn first_in(entries: Range<'_, ShortKey, usize>, spare: Option<usize>) -> Option<ShortKey>
    ensures { result ≡ first_marked spare None entries.entry }
{
    for (key, place) in entries {
        if is_mark(spare, *place) {
            return Some(*key);
        }
    }
    None
}

/// Whether an entry is of a dead key at or after a key.
fn is_dead_from(key: ShortKey, place: usize, spare: Option<usize>, from: &Key) -> bool
    ensures { result ≡ (is_from (Some from.now) key && is_mark spare place) }
{
    match key.compare_key(from) {
        Ordering::Greater => false,
        _ => is_mark(spare, place),
    }
}

/// The first dead key at or after a key whose names aren't short, by a pass over those before it.
fn first_from(
    entries: Range<'_, ShortKey, usize>,
    spare: Option<usize>,
    from: &Key,
) -> Option<ShortKey>
    ensures { result ≡ first_marked spare (Some from.now) entries.entry }
{
    for (key, place) in entries {
        if is_dead_from(*key, *place, spare, from) {
            return Some(*key);
        }
    }
    None
}

/// The least dead key at or after one: there by one search, where that one has short names.
fn first_at(index: &BTreeMap<ShortKey, usize>, spare: Option<usize>, from: &Key) -> Option<ShortKey>
    ensures { result ≡ first_marked spare (Some from.now) index.now.entries }
{
    match ShortKey::of(from) {
        Some(short) => first_in(index.range(&short..), spare),
        None => first_from(index.range(..), spare, from),
    }
}

/// The least dead key at or after one, or of all where none is given. It passes over the entry of the spare place.
pub(crate) fn first_dead(
    index: &BTreeMap<ShortKey, usize>,
    spare: Option<usize>,
    from: Option<&Key>,
) -> Option<ShortKey>
    ensures { result ≡ first_marked spare (key_given from.entry) index.now.entries }
{
    match from {
        None => first_in(index.range(..), spare),
        Some(from) => first_at(index, spare, from),
    }
}

//! What entries take in from other entries and from the pairs of a context.

ghost use Rattle.std.specs.Prelude.{◌≡◌, ◌≤◌, ◌<◌, ◌+◌, ◌∷◌, List, ℕ, T, IsTrue};
ghost use Rattle.std.specs.Prelude.{length, map, max, take, true, [], Some};
ghost use Rattle.std.specs.declared.cmp.Ordering.TheVariants.{Less};
ghost use Rattle.std.specs.FinMap.Entries.{is_sorted};
ghost use Rattle.std.specs.List.{list_all};
ghost use Rattle.actor_epoch.specs.Dots.{actor_cmp};
ghost use Rattle.dvv_set.specs.ClockEntries.{is_entry, merged, merge_entry, merge_all};
ghost use Rattle.dvv_set.specs.ClockEntries.{entries_of_pairs, AreEntries, entries_without};
ghost use Rattle.dvv_set.specs.Soles.{put_after};
ghost use Rattle.actor_epoch.specs.Contexts.{is_well_formed};
ghost use Rattle.actor_epoch.specs.declared.Actor.{Actor};
ghost use Rattle.actor_epoch.specs.declared.Dot.{Dot};
ghost use Rattle.dvv_set.specs.Held.{pairs_of};
ghost use Rattle.dvv_set.specs.Stored.{actor_of, are_below, clock_entry, clock_entries, has_room};

use crate::entry::{Entries, Entry, KnownPair, Place, add_value, replace_value, search_behind};
use crate::inline::InlineList;
use actor_epoch::{Actor, Context, ContextPairs, Counter, MAX_COUNTER};
use std::alloc::Global;
use std::default::MadeWith;

/// Merges another entry of the same actor into one: of the two, the one that has seen more stays, without the values
/// that the other has seen and dropped.
pub(crate) fn merge<V: MadeWith<Global> + Drop>(own: &mut Entry<V>, other: Entry<V>)
    requires own_entry { IsTrue (is_entry (clock_entry own.old)) }
    requires other_entry { IsTrue (is_entry (clock_entry other)) }
    ensures merged { clock_entry own.new
        ≡ (actor_of own.old.pair, merged (clock_entry own.old).1 (clock_entry other).1) }
    ensures room { IsTrue (has_room own.old) → IsTrue (has_room other) → IsTrue (has_room own.new) }
{
    if other.pair.counter <= own.pair.counter {
        let kept = (own.pair.counter - other.pair.counter) as usize + other.values.len();
        own.values.truncate(kept);
    } else {
        let kept = (other.pair.counter - own.pair.counter) as usize + own.values.len();
        own.values = other.values;
        own.values.truncate(kept);
        own.pair.counter = other.pair.counter;
    }
}

/// Merges an entry into entries: with that of its actor, or in the place of a new one, for which there is room. It is
/// searched behind the first entries, which are below it. Gives how many entries are below it.
pub(crate) fn merge_entry<V: MadeWith<Global> + Drop>(
    entries: &mut Entries<V>,
    first: usize,
    entry: Entry<V>,
) -> usize
    requires sorted { T (is_sorted actor_cmp (clock_entries entries.old.items)) }
    requires entries { IsTrue (list_all is_entry (clock_entries entries.old.items)) }
    requires entry { IsTrue (is_entry (clock_entry entry)) }
    requires within { first ≤ length entries.old.items }
    requires below { IsTrue (are_below (actor_of entry.pair)
        (clock_entries (take first entries.old.items))) }
    requires room { length (merge_entry (clock_entry entry) (clock_entries entries.old.items))
        ≤ entries.old.capacity }
    ensures within { result ≤ length entries.new.items }
    ensures below { (actor : Actor) → actor_cmp (actor_of entry.pair) actor ≡ Less
        → IsTrue (are_below actor (clock_entries (take result entries.new.items))) }
    ensures merged_in { clock_entries entries.new.items
        ≡ merge_entry (clock_entry entry) (clock_entries entries.old.items) }
    ensures rooms { IsTrue (has_room entry) → IsTrue (list_all has_room entries.old.items)
        → IsTrue (list_all has_room entries.new.items) }
    ensures capacity { entries.old.capacity ≤ entries.new.capacity }
{
    match search_behind(entries, first, entry.pair.actor()) {
        Place::Taken(at) => match entries.get_mut(at) {
            Some(own) => {
                merge(own, entry);
                at
            }
            None => unreachable!(),
        },
        Place::Free(at) => {
            entries.insert(at, entry);
            at
        }
    }
}

/// Merges a pair into the entry of its actor, as an entry without values: of these the ones up to its counter go.
#[inline(always)]
fn cover<V: MadeWith<Global> + Drop>(own: &mut Entry<V>, counter: Counter)
    ensures merged { clock_entry own.new
        ≡ (actor_of own.old.pair, merged (clock_entry own.old).1 (counter, [])) }
    ensures room { IsTrue (has_room own.old) → IsTrue (has_room own.new) }
{
    if counter <= own.pair.counter {
        let kept = (own.pair.counter - counter) as usize;
        if kept < own.values.len() {
            own.values.truncate(kept);
        }
    } else {
        own.values.truncate(0);
        own.pair.counter = counter;
    }
}

/// Whether an entry has one value alone, and its dot is the counter that was seen.
#[inline(always)]
fn is_all_seen<V>(entry: &Entry<V>, seen: Counter) -> bool
    ensures { result ≡ true
        → (entry.now.pair.counter ≡ seen) × (length entry.now.values.items ≡ 1) }
{
    entry.pair.counter == seen && entry.values.len() == 1
}

/// Puts a value in front of the others of the one entry that there is, with its next counter, and drops
/// those up to a counter that was seen; the entry has room for one more.
#[inline(always)]
pub(crate) fn put_sole<V: MadeWith<Global> + Drop>(
    entries: &mut Entries<V>,
    seen: Counter,
    value: V,
)
    requires one { length entries.old.items ≡ 1 }
    requires counter { (entry : Actor × (ℕ × List V)) → clock_entries entries.old.items ≡ entry ∷ []
        → max entry.1.0 seen < MAX_COUNTER }
    requires rooms { IsTrue (list_all has_room entries.old.items) }
    ensures { clock_entries entries.new.items
        ≡ map (put_after seen value) (clock_entries entries.old.items) }
{
    match entries.get_mut(0) {
        Some(entry) => {
            // So it is of a writer that has seen the last one: one value takes another's place.
            if is_all_seen(entry, seen) {
                replace_value(entry, value);
                return;
            }
            cover(entry, seen);
            add_value(entry, value);
        }
        None => unreachable!(),
    }
}

/// The entry of a pair, without values.
fn pair_entry<V: MadeWith<Global> + Drop>(alloc: Global, actor: Actor, counter: Counter) -> Entry<V>
    ensures entry { clock_entry result ≡ (actor, (counter, [])) }
    ensures room { IsTrue (has_room result) }
{
    let values = InlineList::new(alloc);
    Entry {
        pair: KnownPair {
            vnode: actor.vnode,
            epoch: actor.epoch,
            counter,
        },
        values,
    }
}

/// Merges a pair into entries, as `merge_entry` does an entry without values; one is made only where its
/// actor has none.
#[inline(always)]
fn merge_pair<V: MadeWith<Global> + Drop>(
    alloc: Global,
    entries: &mut Entries<V>,
    first: usize,
    actor: Actor,
    counter: Counter,
) -> usize
    requires sorted { T (is_sorted actor_cmp (clock_entries entries.old.items)) }
    requires counter { 1 ≤ counter }
    requires within { first ≤ length entries.old.items }
    requires below { IsTrue (are_below actor (clock_entries (take first entries.old.items))) }
    requires room { length (merge_entry (actor, (counter, [])) (clock_entries entries.old.items))
        ≤ entries.old.capacity }
    ensures within { result ≤ length entries.new.items }
    ensures below { (next : Actor) → actor_cmp actor next ≡ Less
        → IsTrue (are_below next (clock_entries (take result entries.new.items))) }
    ensures merged_in { clock_entries entries.new.items
        ≡ merge_entry (actor, (counter, [])) (clock_entries entries.old.items) }
    ensures rooms { IsTrue (list_all has_room entries.old.items)
        → IsTrue (list_all has_room entries.new.items) }
    ensures capacity { entries.old.capacity ≤ entries.new.capacity }
{
    match search_behind(entries, first, actor) {
        Place::Taken(at) => match entries.get_mut(at) {
            Some(own) => {
                cover(own, counter);
                at
            }
            None => unreachable!(),
        },
        Place::Free(at) => {
            entries.insert(at, pair_entry(alloc, actor, counter));
            at
        }
    }
}

/// Merges other entries into entries, for all of which there is room.
pub(crate) fn merge_all<V: MadeWith<Global> + Drop>(entries: &mut Entries<V>, others: Entries<V>)
    requires own_entries { AreEntries (clock_entries entries.old.items) }
    requires other_entries { AreEntries (clock_entries others.items) }
    requires room { length (merge_all (clock_entries others.items)
        (clock_entries entries.old.items)) ≤ entries.old.capacity }
    ensures merged_in { clock_entries entries.new.items
        ≡ merge_all (clock_entries others.items) (clock_entries entries.old.items) }
    ensures capacity { entries.old.capacity ≤ entries.new.capacity }
{
    let mut others = others;
    // Both rise, so that each search goes on where the last one ended.
    let mut first = 0usize;
    while !others.is_empty() {
        let entry = others.remove_first();
        first = merge_entry(entries, first, entry);
    }
}

/// Merges pairs, as entries without values, into entries, for all of which there is room.
#[inline(always)]
pub(crate) fn merge_pairs<V: MadeWith<Global> + Drop>(
    alloc: Global,
    entries: &mut Entries<V>,
    pairs: ContextPairs<'_>,
)
    requires own_entries { AreEntries (clock_entries entries.old.items) }
    requires of_form { IsTrue (is_well_formed pairs) }
    requires room { length (merge_all (entries_of_pairs pairs) (clock_entries entries.old.items))
        ≤ entries.old.capacity }
    ensures merged_in { clock_entries entries.new.items
        ≡ merge_all (entries_of_pairs pairs.entry) (clock_entries entries.old.items) }
    ensures rooms { IsTrue (list_all has_room entries.old.items)
        → IsTrue (list_all has_room entries.new.items) }
    ensures capacity { entries.old.capacity ≤ entries.new.capacity }
{
    // Both rise, so that each search goes on where the last one ended.
    let mut first = 0usize;
    for (actor, counter) in pairs {
        first = merge_pair(alloc, entries, first, actor, counter);
    }
}

/// Merges what a context saw into entries, for all of which there is room; no context saw nothing.
#[inline(always)]
pub(crate) fn merge_context<V: MadeWith<Global> + Drop>(
    alloc: Global,
    entries: &mut Entries<V>,
    context: Option<&Context<'_>>,
)
    requires entries { AreEntries (clock_entries entries.old.items) }
    requires room { length (entries_without (pairs_of context) (clock_entries entries.old.items))
        ≤ entries.old.capacity }
    ensures merged_in { clock_entries entries.new.items
        ≡ entries_without (pairs_of context.entry) (clock_entries entries.old.items) }
    ensures rooms { IsTrue (list_all has_room entries.old.items)
        → IsTrue (list_all has_room entries.new.items) }
    ensures capacity { entries.old.capacity ≤ entries.new.capacity }
    ensures of_form { (ps : List Dot) → pairs_of context.entry ≡ Some ps
        → IsTrue (is_well_formed ps) }
{
    if let Some(context) = context {
        merge_pairs(alloc, entries, context.pairs());
    }
}

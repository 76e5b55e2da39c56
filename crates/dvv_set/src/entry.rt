//! The entry of one actor, and lists of entries that strictly rise by actor.

ghost use Rattle.std.specs.Prelude.{◌≡◌, ◌≤◌, ◌<◌, ◌∷◌, ◌+◌, T, IsTrue, length};
ghost use Rattle.std.specs.Prelude.{map, take, is_some, [], Some, IfOk, OnOk};
ghost use Rattle.std.specs.declared.cmp.Ordering.TheVariants.{Less};
ghost use Rattle.std.specs.FinMap.Entries.{find, put, is_sorted};
ghost use Rattle.std.specs.List.{list_all};
ghost use Rattle.actor_epoch.specs.Dots.{actor_cmp};
ghost use Rattle.dvv_set.specs.ClockEntries.{entry_for, with_value, AreEntries, emptied};
ghost use Rattle.actor_epoch.specs.declared.Actor.{Actor};
ghost use Rattle.dvv_set.specs.References.{referred, with_entry};
ghost use Rattle.dvv_set.specs.Stored.{actor_of, are_below, clock_entry};
ghost use Rattle.dvv_set.specs.Stored.{clock_entries, has_room, search_actor};

use crate::clone_value::CloneValue;
use crate::inline::InlineList;
use actor_epoch::{Actor, Counter, MAX_COUNTER};
use std::alloc::{AllocError, Global};
use std::cmp::Ordering;
use std::default::MadeWith;

/// A pair (actor, n): the dots 1 to `counter` of an actor are known.
// It has no type parameter, so that a call on it owes no proof that an entry fits in memory.
#[derive(Clone, Copy)]
pub(crate) struct KnownPair {
    pub(crate) vnode: u64,
    pub(crate) epoch: u32,
    pub(crate) counter: Counter,
}

impl KnownPair {
    /// The actor.
    #[inline(always)]
    pub(crate) fn actor(&self) -> Actor
        ensures { result ≡ actor_of self.now }
    {
        Actor {
            vnode: self.vnode,
            epoch: self.epoch,
        }
    }
}

/// The values of an entry: two of them lie in place, since two writers that haven't seen each other leave as many.
pub(crate) type EntryValues<V> = InlineList<V, 2>;

/// The entries of a clock: one of them lies in place, since a key has one actor until it is forgotten
/// and written by an older context.
pub(crate) type Entries<V> = InlineList<Entry<V>, 1>;

/// What a clock has seen of one actor: the dots of `pair`, of which the last have `values`, newest
/// first, two of them in place.
#[derive(Drop)]
pub(crate) struct Entry<V> {
    pub(crate) pair: KnownPair,
    pub(crate) values: EntryValues<V>,
}

impl<V: MadeWith<Global> + Drop> MadeWith<Global> for Entry<V> {
    fn made_with(alloc: Global) -> Entry<V> {
        Entry {
            pair: KnownPair {
                vnode: 0,
                epoch: 0,
                counter: 0,
            },
            values: InlineList::new(alloc),
        }
    }
}

impl<V> Entry<V> {
    /// An entry that has seen the same, with references to its values in their places.
    pub(crate) fn references(&self, alloc: Global) -> Result<Entry<Option<&V>>, AllocError>
        ensures { IfOk result (λ entry. with_entry referred (clock_entry entry)
            ≡ with_entry (λ value. Some value) (clock_entry self.now)) }
    {
        let mut values = InlineList::new(alloc);
        for value in self.values.iter() {
            values.push(Some(value))?;
        }
        Ok(Entry {
            pair: self.pair,
            values,
        })
    }

    /// The last counter of the actor that it has seen.
    fn counter(&self) -> Counter
        ensures { result ≡ self.now.pair.counter }
    {
        self.pair.counter
    }
}

impl<V: MadeWith<Global> + Drop> Entry<V> {
    /// An entry that has seen the same, with a copy of each value.
    pub(crate) fn try_clone<C: CloneValue<V>>(&self, alloc: Global) -> Result<Entry<V>, AllocError>
        ensures { IfOk result (λ copy. clock_entry copy ≡ clock_entry self.now) }
    {
        let mut values = InlineList::new(alloc);
        for value in self.values.iter() {
            values.push(C::clone_value(value, alloc)?)?;
        }
        let pair = self.pair;
        Ok(Entry { pair, values })
    }
}

/// Where the entry of an actor is, or where it would be inserted.
#[derive(Clone, Copy)]
pub(crate) enum Place {
    Taken(usize),
    Free(usize),
}

/// Searches the entry of an actor.
#[inline(always)]
pub(crate) fn search_actor<V>(entries: &[Entry<V>], actor: Actor) -> Place
    ensures { result ≡ search_actor actor (clock_entries entries.now) }
{
    for (at, entry) in entries.iter().enumerate() {
        match entry.pair.actor().cmp(&actor) {
            Ordering::Less => {}
            Ordering::Equal => return Place::Taken(at),
            Ordering::Greater => return Place::Free(at),
        }
    }
    Place::Free(entries.len())
}

/// Searches the entry of an actor behind the first entries, which are below it.
#[inline(always)]
pub(crate) fn search_behind<V>(entries: &[Entry<V>], first: usize, actor: Actor) -> Place
    requires within { first ≤ length entries.now }
    requires below { IsTrue (are_below actor (clock_entries (take first entries.now))) }
    ensures { result ≡ search_actor actor (clock_entries entries.now) }
{
    let (_, rest) = entries.split_at(first);
    match search_actor(rest, actor) {
        Place::Taken(at) => Place::Taken(first + at),
        Place::Free(at) => Place::Free(first + at),
    }
}

/// Whether an actor has an entry.
pub(crate) fn has<V>(entries: &[Entry<V>], actor: Actor) -> bool
    ensures { result ≡ is_some (find actor_cmp actor (clock_entries entries.now)) }
{
    for entry in entries {
        if entry.pair.actor() == actor {
            return true;
        }
    }
    false
}

/// The last counter of an actor in entries, 0 where it has no entry.
pub(crate) fn last_counter<V>(entries: &[Entry<V>], actor: Actor) -> Counter
    requires { T (is_sorted actor_cmp (clock_entries entries.now)) }
    ensures counter { result ≡ (entry_for actor (clock_entries entries.now)).0 }
    ensures greatest { result ≤ MAX_COUNTER }
{
    match search_actor(entries, actor) {
        Place::Taken(at) => entries[at].counter(),
        Place::Free(_) => 0,
    }
}

/// Puts a value in front of an actor's, with its next counter, in the room of its entry or in that of a new one.
#[inline(always)]
pub(crate) fn put_value<V: MadeWith<Global> + Drop>(
    alloc: Global,
    entries: &mut Entries<V>,
    actor: Actor,
    value: V,
)
    requires entries { AreEntries (clock_entries entries.old.items) }
    requires counter { (entry_for actor (clock_entries entries.old.items)).0 < MAX_COUNTER }
    requires rooms { IsTrue (list_all has_room entries.old.items) }
    requires actors { length (put actor_cmp actor
        (with_value value (entry_for actor (clock_entries entries.old.items)))
        (clock_entries entries.old.items)) ≤ entries.old.capacity }
    ensures { clock_entries entries.new.items ≡ put actor_cmp actor
        (with_value value (entry_for actor (clock_entries entries.old.items)))
        (clock_entries entries.old.items) }
{
    match search_actor(entries, actor) {
        Place::Taken(at) => match entries.get_mut(at) {
            Some(entry) => add_value(entry, value),
            None => unreachable!(),
        },
        Place::Free(at) => entries.insert(at, first_entry(alloc, actor, value)),
    }
}

/// The entry of an actor that has its first value.
fn first_entry<V: MadeWith<Global> + Drop>(alloc: Global, actor: Actor, value: V) -> Entry<V>
    ensures { clock_entry result ≡ (actor, (1, value ∷ [])) }
{
    let mut values = InlineList::new(alloc);
    values.push_reserved(value);
    Entry {
        pair: KnownPair {
            vnode: actor.vnode,
            epoch: actor.epoch,
            counter: 1,
        },
        values,
    }
}

/// Puts a value before the others, for which there is room. Where there is none it moves none.
#[inline(always)]
fn put_first<V: MadeWith<Global> + Drop>(values: &mut EntryValues<V>, value: V)
    requires { length values.old.items < values.old.capacity }
    ensures { values.new.items ≡ value ∷ values.old.items }
{
    if values.is_empty() {
        values.push_reserved(value);
        return;
    }
    values.insert(0, value);
}

/// Counts one more, and puts its value before the others, for which there is room.
#[inline(always)]
pub(crate) fn add_value<V: MadeWith<Global> + Drop>(entry: &mut Entry<V>, value: V)
    requires counter { entry.old.pair.counter < MAX_COUNTER }
    requires room { IsTrue (has_room entry.old) }
    ensures { clock_entry entry.new
        ≡ (actor_of entry.old.pair, (entry.old.pair.counter + 1, value ∷ entry.old.values.items)) }
{
    put_first(&mut entry.values, value);
    entry.pair.counter += 1;
}

/// Counts one more, and puts its value in the place of the only one.
#[inline(always)]
pub(crate) fn replace_value<V: MadeWith<Global> + Drop>(entry: &mut Entry<V>, value: V)
    requires counter { entry.old.pair.counter < MAX_COUNTER }
    requires one { length entry.old.values.items ≡ 1 }
    ensures { clock_entry entry.new
        ≡ (actor_of entry.old.pair, (entry.old.pair.counter + 1, value ∷ [])) }
{
    match entry.values.get_mut(0) {
        Some(place) => *place = value,
        None => unreachable!(),
    }
    entry.pair.counter = entry.pair.counter + 1;
}

/// Drops the values of all entries; what they have seen stays.
pub(crate) fn drop_values<V: MadeWith<Global> + Drop>(entries: &mut Entries<V>)
    ensures emptied { clock_entries entries.new.items
        ≡ map emptied (clock_entries entries.old.items) }
    ensures capacity { entries.new.capacity ≡ entries.old.capacity }
    ensures rooms { IsTrue (list_all has_room entries.old.items)
        → IsTrue (list_all has_room entries.new.items) }
{
    for at in 0..entries.len() {
        match entries.get_mut(at) {
            Some(entry) => entry.values.truncate(0),
            None => unreachable!(),
        }
    }
}

/// Makes room for more entries, and for one value more in each that is there. Refused where there is no
/// memory; no value changes, and the room that was got may stay.
#[inline(always)]
pub(crate) fn reserve_room<V: MadeWith<Global> + Drop>(
    entries: &mut Entries<V>,
    more: usize,
) -> Result<(), AllocError>
    ensures same { clock_entries entries.new.items ≡ clock_entries entries.old.items }
    ensures room { OnOk result ((length entries.old.items + more ≤ entries.new.capacity)
        × IsTrue (list_all has_room entries.new.items)) }
    ensures capacity { entries.old.capacity ≤ entries.new.capacity }
{
    entries.reserve(more)?;
    for at in 0..entries.len() {
        match entries.get_mut(at) {
            Some(entry) => entry.values.reserve(1)?,
            None => unreachable!(),
        }
    }
    Ok(())
}

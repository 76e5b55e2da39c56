//! A dotted version vector set.

ghost use Rattle.std.specs.Prelude.{◌≡◌, ◌<◌, ◌≤◌, ◌↔◌, [], true, false, length, map, OnOk};
ghost use Rattle.std.specs.Prelude.{OnErr, IfOk, IfErr, None, Some, unwrap_or, nat_le};

use crate::clone_value::CloneValue;
use crate::entry::{self, Entries, Entry};
use crate::fault::{ClockFault, Rejected};
use crate::inline::InlineList;
use crate::known_pairs::KnownPairs;
use crate::needed::Needed;
use crate::sizes::{self, Sizes};
use crate::values::Values;
use crate::{merging, room};
use actor_epoch::{Actor, Context, Counter, Dot, MAX_ACTORS, MAX_COUNTER};
use std::alloc::{AllocError, Global};
use std::default::MadeWith;
use std::marker::Model;

/// The clock of a key, with its concurrent values. Contracts see what it means, the dots that it knows
/// and those of them that are live, each with its value (`DotState`), and how much it has room for
/// (`Held`).
///
/// A life, at one actor a: new, it knows nothing. `event(a, v)`: it knows the dot (a, 1), live with v.
/// `event(a, w)`, by a writer that had not seen v: it knows (a, 1) and (a, 2) and shows w, v. A writer
/// that had seen v alone brings the context (a, 1): `discard` takes v, and `event(a, x)` makes (a, 3)
/// live, so that it shows x, w. A context of all, (a, 3), leaves no value; the dots stay known, and a
/// sync with an older copy brings none of them back. `overwrite_ready(a, y)`, after `reserve`, puts y at
/// (a, 4) and leaves nothing else.
pub struct Clock<V: MadeWith<Global> + Drop> {
    entries: Entries<V>,
}

/// One call at each place where one is let go.
impl<V: MadeWith<Global> + Drop> Drop for Clock<V> {
    fn drop(self) {
        let Clock { entries: _entries } = self;
    }
}

impl<V: MadeWith<Global> + Drop> Model for Clock<V> {
    ghost use Rattle.std.specs.Prelude.{◌≤◌, length};
    ghost use Rattle.dvv_set.specs.Held.{Held};

    ghost Value = { Held V };

    ghost use Rattle.dvv_set.specs.ClockEntries.{dot_state_of, AreEntries};
    ghost use Rattle.dvv_set.specs.Stored.{clock_entries, values_room};

    ghost view = { λ c. record {
      meaning = dot_state_of (clock_entries c.entries.items);
      actors_room = c.entries.capacity;
      values_room = values_room c.entries.items;
    } };

    ghost invariant = { λ c. record {
      entries : AreEntries (clock_entries c.entries.items);
      few : length c.entries.items ≤ 64;
    } };
}

impl<V: MadeWith<Global> + Drop> Clock<V> {
    ghost use Rattle.actor_epoch.specs.Dots.{covers, counter_in};
    ghost use Rattle.dvv_set.specs.Clocks.{sync, discard, event};
    ghost use Rattle.dvv_set.specs.Held.{IsReady, IsSyncReady, IsWithin, IsActorsFull};
    ghost use Rattle.dvv_set.specs.Held.{IsCounterFull, without, pairs_of};
    ghost use Rattle.dvv_set.specs.Held.{actors_after, counter_before, uncovered};
    ghost use Rattle.dvv_set.specs.Laws.{IsClock};
    ghost use Rattle.dvv_set.specs.References.{referred, with_values};

    /// A clock that has seen nothing.
    pub fn new(alloc: Global) -> Self
        ensures { result.meaning ≡ record { known = []; live = [] } }
    {
        Clock {
            entries: InlineList::new(alloc),
        }
    }

    /// Takes in what another clock has seen: the set operations of a sync (`calls_are_set_operations`);
    /// of a dot that is live on both sides the value of the side with the greater counter of its actor,
    /// its own where they are equal. Refused, with the other clock back, by ActorsFull exactly where
    /// both know more than 64 actors, else by NoMemory; never by CounterFull.
    pub fn sync(&mut self, other: Clock<V>) -> Result<(), Rejected<Clock<V>>>
        ensures synced { OnOk result (self.new.meaning ≡ sync self.old.meaning other.meaning) }
        ensures refused { IfErr result (λ refused. (refused.value ≡ other)
            × (self.new.meaning ≡ self.old.meaning)) }
        ensures full { IfErr result (λ refused. (refused.fault ≡ ClockFault.ActorsFull)
            ↔ (MAX_ACTORS < length (sync self.old.meaning other.meaning).known)) }
        ensures never { IfErr result (λ refused. refused.fault ≡ ClockFault.CounterFull → ⊥) }
        ensures within { OnOk result (length (sync self.old.meaning other.meaning).known
            ≤ MAX_ACTORS) }
    {
        if let Err(fault) = self.reserve_sync(&other) {
            return Err(Rejected {
                fault,
                value: other,
            });
        }
        self.sync_ready(other);
        Ok(())
    }

    /// How many values and actors it would have after a sync with another clock. It takes no memory.
    pub fn sizes_after(&self, other: &Clock<V>) -> Sizes
        ensures siblings { result.siblings
            ≡ length (sync self.now.meaning other.now.meaning).live }
        ensures actors { result.actors ≡ length (sync self.now.meaning other.now.meaning).known }
    {
        let entries: &[Entry<V>] = &self.entries;
        let others: &[Entry<V>] = &other.entries;
        Sizes {
            siblings: sizes::merged_values(entries, others),
            actors: entries.len() + room::count_new(entries, others),
        }
    }

    /// Makes room for a sync with another clock; no value changes. Refused by ActorsFull exactly where
    /// both know more than 64 actors, else by NoMemory; never by CounterFull.
    pub fn reserve_sync(&mut self, other: &Clock<V>) -> Result<(), ClockFault>
        ensures ready { OnOk result (IsSyncReady self.new other.now.meaning) }
        ensures unchanged { self.new.meaning ≡ self.old.meaning }
        ensures full { IfErr result (λ fault. (fault ≡ ClockFault.ActorsFull)
            ↔ (MAX_ACTORS < length (sync self.old.meaning other.now.meaning).known)) }
        ensures never { IfErr result (λ fault. fault ≡ ClockFault.CounterFull → ⊥) }
    {
        let new = room::count_new(&self.entries, &other.entries);
        if let Err(fault) = room::reserve_actors(&mut self.entries, new) {
            return Err(fault);
        }
        Ok(())
    }

    /// Takes in what another clock has seen, as `sync` does, in the room that `reserve_sync` made: it
    /// takes no memory and succeeds.
    pub fn sync_ready(&mut self, other: Clock<V>)
        requires { IsSyncReady self.old other.meaning }
        ensures { self.new.meaning ≡ sync self.old.meaning other.meaning }
    {
        let Clock { entries } = other;
        merging::merge_all(&mut self.entries, entries);
    }

    /// Knows what a context saw, and has none of it live: the sync with the context's pairs, none live. Refused by
    /// ActorsFull exactly where more than 64 actors would be known, else by NoMemory.
    pub fn discard(&mut self, context: &Context<'_>) -> Result<(), ClockFault>
        ensures discarded { OnOk result (self.new.meaning ≡ discard context.now self.old.meaning) }
        ensures refused { OnErr result (self.new.meaning ≡ self.old.meaning) }
        ensures full { IfErr result (λ fault. (fault ≡ ClockFault.ActorsFull)
            ↔ (MAX_ACTORS < length (discard context.now self.old.meaning).known)) }
        ensures never { IfErr result (λ fault. fault ≡ ClockFault.CounterFull → ⊥) }
        ensures within { OnOk result (length (discard context.now self.old.meaning).known
            ≤ MAX_ACTORS) }
    {
        let new = room::count_new_pairs(&self.entries, context.pairs());
        if let Err(fault) = room::reserve_actors(&mut self.entries, new) {
            return Err(fault);
        }
        let alloc = self.entries.allocator();
        merging::merge_pairs(alloc, &mut self.entries, context.pairs());
        Ok(())
    }

    /// What it knows, as pairs (actor, n) by rising actor: the dots 1 to n of each.
    pub fn join(&self) -> KnownPairs<'_, V>
        ensures pairs { result ≡ self.now.meaning.known }
        ensures clock { IsClock self.now.meaning }
    {
        KnownPairs {
            entries: &self.entries,
        }
    }

    /// Its values, by rising actor, newest first in each.
    pub fn values(&self) -> Values<'_, V>
        ensures { result ≡ map (λ entry. entry.1) self.now.meaning.live }
    {
        Values {
            first: &[],
            entries: &self.entries,
        }
    }

    /// A clock that knows the same, with references to its values in their places. Refused where there is no memory.
    pub fn references(&self, alloc: Global) -> Result<Clock<Option<&V>>, AllocError>
        ensures { IfOk result (λ clock. with_values referred clock.meaning
            ≡ with_values (λ value. Some value) self.now.meaning) }
    {
        let mut entries = InlineList::new(alloc);
        for entry in self.entries.iter() {
            entries.push(entry.references(alloc)?)?;
        }
        Ok(Clock { entries })
    }

    /// A clock that means the same, with a copy of each value. Refused where there is no memory.
    pub fn try_clone<C: CloneValue<V>>(&self, alloc: Global) -> Result<Clock<V>, AllocError>
        ensures { IfOk result (λ copy. copy.meaning ≡ self.now.meaning) }
    {
        let mut entries = InlineList::new(alloc);
        for entry in self.entries.iter() {
            entries.push(entry.try_clone::<C>(alloc)?)?;
        }
        Ok(Clock { entries })
    }

    /// Whether it knows a dot.
    pub fn covers(&self, dot: &Dot) -> bool
        ensures { result ≡ covers self.now.meaning.known dot.now }
    {
        let counter = entry::last_counter(&self.entries, dot.actor);
        1 <= dot.counter && dot.counter <= counter
    }

    /// The last counter of an actor that it knows, 0 where it knows none of its dots.
    pub fn counter_of(&self, actor: Actor) -> Counter
        ensures { result ≡ counter_in self.now.meaning.known actor }
    {
        entry::last_counter(&self.entries, actor)
    }

    /// How many of its values a context doesn't cover (None: all).
    pub fn uncovered(&self, context: Option<&Context<'_>>) -> u128
        ensures { result ≡ uncovered (unwrap_or (pairs_of context.entry) []) self.now.meaning }
    {
        room::uncovered(&self.entries, context)
    }

    /// Whether it has so many values, or more, that a context doesn't cover (None: all). Where it has
    /// fewer values at all, the context isn't looked at.
    #[inline(always)]
    pub fn has_uncovered(&self, context: Option<&Context<'_>>, many: u128) -> bool
        ensures { result
            ≡ nat_le many (uncovered (unwrap_or (pairs_of context.entry) []) self.now.meaning) }
    {
        if self.uncovered(None) < many {
            return false;
        }
        many <= self.uncovered(context)
    }

    /// What the next event of an actor needs, without what a context saw (None: nothing).
    pub fn needed(&self, context: Option<&Context<'_>>, actor: Actor) -> Needed
        ensures actors { result.actors
            ≡ actors_after self.now.meaning.known (pairs_of context.entry) actor }
        ensures counter { result.counter
            ≡ counter_before self.now.meaning.known (pairs_of context.entry) actor }
        ensures clock { IsClock self.now.meaning }
    {
        let (counter, more) = room::required_room(&self.entries, context, actor);
        Needed {
            actors: self.entries.len() + more,
            counter,
        }
    }

    /// Whether more than 64 actors would be known after the next event of an actor, without what a context saw (None:
    /// nothing). Where its own actors and the context's are fewer than 64 together, they aren't compared.
    #[inline(always)]
    pub fn is_actors_full(&self, context: Option<&Context<'_>>, actor: Actor) -> bool
        ensures full { result ≡ true
            → IsActorsFull self.now.meaning.known (pairs_of context.entry) actor }
        ensures fits { result ≡ false
            → actors_after self.now.meaning.known (pairs_of context.entry) actor ≤ MAX_ACTORS }
        ensures clock { IsClock self.now.meaning }
    {
        if room::most_actors(&self.entries, context) <= MAX_ACTORS {
            return false;
        }
        MAX_ACTORS < self.needed(context, actor).actors
    }

    /// Makes room to put a value for an actor without what a context saw (None: nothing), where what
    /// that needs is within the limits (a condition); no value changes. Refused where there is no
    /// memory.
    #[inline(always)]
    pub fn reserve(&mut self, context: Option<&Context<'_>>, actor: Actor) -> Result<(), AllocError>
        requires { IsWithin self.old.meaning.known (pairs_of context) actor }
        ensures ready { OnOk result (IsReady self.new (pairs_of context.entry) actor) }
        ensures unchanged { self.new.meaning ≡ self.old.meaning }
    {
        let room = self.entries.capacity();
        let more = room::more_entries(&self.entries, room, context, actor);
        entry::reserve_room(&mut self.entries, more)
    }

    /// Makes room to put a value for an actor without what a context saw (None: nothing); no value
    /// changes. Refused by ActorsFull exactly where more than 64 actors would be known, else by
    /// CounterFull exactly where the actor's counter is the greatest, else by NoMemory.
    pub fn ready(&mut self, context: Option<&Context<'_>>, actor: Actor) -> Result<(), ClockFault>
        ensures ready { OnOk result (IsReady self.new (pairs_of context.entry) actor) }
        ensures unchanged { self.new.meaning ≡ self.old.meaning }
        ensures actors_full { IfErr result (λ fault. (fault ≡ ClockFault.ActorsFull)
            ↔ IsActorsFull self.old.meaning.known (pairs_of context.entry) actor) }
        ensures counter_full { IfErr result (λ fault. (fault ≡ ClockFault.CounterFull)
            ↔ IsCounterFull self.old.meaning.known (pairs_of context.entry) actor) }
    {
        let needed = self.needed(context, actor);
        if MAX_ACTORS < needed.actors {
            return Err(ClockFault::ActorsFull);
        }
        if needed.counter == MAX_COUNTER {
            return Err(ClockFault::CounterFull);
        }
        match self.reserve(context, actor) {
            Ok(()) => Ok(()),
            Err(_) => Err(ClockFault::NoMemory),
        }
    }

    /// Puts a value at the next dot of an actor: it is known, and live with the value. Refused as
    /// `ready` without a context is, with the value back.
    pub fn event(&mut self, actor: Actor, value: V) -> Result<(), Rejected<V>>
        ensures put { OnOk result (self.new.meaning ≡ event actor value self.old.meaning) }
        ensures within { OnOk result (length (event actor value self.old.meaning).known
            ≤ MAX_ACTORS) }
        ensures counter { OnOk result (counter_in self.old.meaning.known actor < MAX_COUNTER) }
        ensures refused { IfErr result (λ refused. (refused.value ≡ value)
            × (self.new.meaning ≡ self.old.meaning)) }
        ensures actors_full { IfErr result (λ refused. (refused.fault ≡ ClockFault.ActorsFull)
            ↔ IsActorsFull self.old.meaning.known None actor) }
        ensures counter_full { IfErr result (λ refused. (refused.fault ≡ ClockFault.CounterFull)
            ↔ IsCounterFull self.old.meaning.known None actor) }
    {
        if let Err(fault) = self.ready(None, actor) {
            return Err(Rejected { fault, value });
        }
        self.put_ready(None, actor, value);
        Ok(())
    }

    /// Puts a value at the next dot of an actor, without what a context saw, in the room that `ready` made: it takes no
    /// memory and succeeds.
    #[inline(always)]
    pub fn put_ready(&mut self, context: Option<&Context<'_>>, actor: Actor, value: V)
        requires { IsReady self.old (pairs_of context) actor }
        ensures { self.new.meaning
            ≡ event actor value (without (pairs_of context.entry) self.old.meaning) }
    {
        if let Some(seen) = room::sole_seen(&self.entries, context, actor) {
            merging::put_sole(&mut self.entries, seen, value);
            return;
        }
        let alloc = self.entries.allocator();
        merging::merge_context(alloc, &mut self.entries, context);
        entry::put_value(alloc, &mut self.entries, actor, value);
    }

    /// Puts a value at the next dot of an actor, in place of all values, in the room that `ready` or
    /// `reserve` made without a context: what it knew is known, and the value alone is live. It takes no
    /// memory and succeeds.
    pub fn overwrite_ready(&mut self, actor: Actor, value: V)
        requires { IsReady self.old None actor }
        ensures { self.new.meaning
            ≡ event actor value (discard self.old.meaning.known self.old.meaning) }
    {
        let alloc = self.entries.allocator();
        entry::drop_values(&mut self.entries);
        entry::put_value(alloc, &mut self.entries, actor, value);
    }
}

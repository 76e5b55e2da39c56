//! What a change of a clock needs: how many actors are new, and room for them.

ghost use Rattle.std.specs.Prelude.{◌≡◌, ◌≤◌, ◌<◌, ◌+◌, ◌-◌, List, [], IsTrue, length, min};
ghost use Rattle.std.specs.Prelude.{max, unwrap_or, ◌↔◌, OnOk, IfErr, IfSome, Some, T};
ghost use Rattle.std.specs.FinMap.Entries.{is_sorted};
ghost use Rattle.actor_epoch.specs.declared.Actor.{Actor};
ghost use Rattle.actor_epoch.specs.declared.Dot.{Dot};
ghost use Rattle.actor_epoch.specs.Contexts.{is_well_formed};
ghost use Rattle.actor_epoch.specs.Dots.{counter_in, actor_cmp};
ghost use Rattle.dvv_set.specs.Held.{pairs_of, actors_after, counter_before};
ghost use Rattle.dvv_set.specs.ClockEntries.{AreEntries, known_of, entries_of_pairs};
ghost use Rattle.dvv_set.specs.ClockEntries.{count_new, count_uncovered, newer};
ghost use Rattle.dvv_set.specs.Soles.{IsSole};
ghost use Rattle.dvv_set.specs.Stored.{actor_of, clock_entry, clock_entries};

use crate::entry::{Entries, Entry, Place, has, last_counter, search_actor};
use crate::fault::ClockFault;
use actor_epoch::{Actor, Context, ContextPairs, Counter, MAX_ACTORS, MAX_COUNTER};
use std::alloc::Global;
use std::default::MadeWith;

/// How many of other entries have actors that are new.
pub(crate) fn count_new<V>(entries: &[Entry<V>], others: &[Entry<V>]) -> usize
    ensures { result ≡ count_new (clock_entries others.now) (clock_entries entries.now) }
{
    let mut new = 0usize;
    for other in others {
        if !has(entries, other.pair.actor()) {
            new += 1;
        }
    }
    new
}

/// How many of the pairs have actors that are new.
pub(crate) fn count_new_pairs<V>(entries: &[Entry<V>], pairs: ContextPairs<'_>) -> usize
    requires sorted { T (is_sorted actor_cmp (clock_entries entries.now)) }
    requires of_form { IsTrue (is_well_formed pairs) }
    ensures counted { result
        ≡ count_new (entries_of_pairs pairs.entry) (clock_entries entries.now) }
    ensures few { result ≤ 64 }
{
    let mut new = 0usize;
    // Both rise, so that each search goes on where the last one ended.
    let mut rest = entries;
    for (actor, _) in pairs {
        match search_actor(rest, actor) {
            Place::Taken(at) => {
                let (_, after) = rest.split_at(at);
                rest = after;
            }
            Place::Free(at) => {
                let (_, after) = rest.split_at(at);
                rest = after;
                new += 1;
            }
        }
    }
    new
}

/// The counter up to which a context has seen the dots of an actor, 0 without one, where the actor alone
/// has an entry and the context has a pair of no other; None elsewhere. So it is of most writes.
#[inline(always)]
pub(crate) fn sole_seen<V>(
    entries: &[Entry<V>],
    context: Option<&Context<'_>>,
    actor: Actor,
) -> Option<Counter>
    ensures sole { IfSome result (λ seen.
        IsSole (clock_entries entries.now) (pairs_of context.entry) actor seen) }
    ensures of_form { IfSome result (λ _. (ps : List Dot) → pairs_of context.entry ≡ Some ps
        → IsTrue (is_well_formed ps)) }
{
    let (entry, rest) = entries.split_first()?;
    if !rest.is_empty() || entry.pair.actor() != actor {
        return None;
    }
    match context {
        None => Some(0),
        Some(context) => {
            let (other, counter) = context.sole_pair()?;
            if other != actor {
                return None;
            }
            Some(counter)
        }
    }
}

/// What a context adds to entries: the counter of an actor in it, and how many of its actors are new.
fn context_counts<V>(
    entries: &[Entry<V>],
    context: Option<&Context<'_>>,
    actor: Actor,
) -> (Counter, usize)
    requires { T (is_sorted actor_cmp (clock_entries entries.now)) }
    ensures counter { result.0 ≡ counter_in (unwrap_or (pairs_of context.entry) []) actor }
    ensures new { result.1 ≡ count_new
        (entries_of_pairs (unwrap_or (pairs_of context.entry) [])) (clock_entries entries.now) }
    ensures few { result.1 ≤ 64 }
    ensures of_form { (ps : List Dot) → pairs_of context.entry ≡ Some ps
        → IsTrue (is_well_formed ps) }
{
    match context {
        None => (0, 0),
        Some(context) => (
            context.counter_of(actor),
            count_new_pairs(entries, context.pairs()),
        ),
    }
}

/// As many actors as can be known after the next event of one, without what a context saw: those of the
/// entries, those of the context, and one.
#[inline(always)]
pub(crate) fn most_actors<V>(entries: &[Entry<V>], context: Option<&Context<'_>>) -> usize
    requires entries { AreEntries (clock_entries entries.now) }
    requires few { length entries.now ≤ 64 }
    ensures { (actor : Actor) →
        actors_after (known_of (clock_entries entries.now)) (pairs_of context.entry) actor
        ≤ result }
{
    let given = match context {
        None => 0,
        Some(context) => context.pairs().len(),
    };
    entries.len() + given + 1
}

/// What is known after the next event of an actor, without what a context saw: the actor's counter before it, and how
/// many actors there are more.
#[inline(always)]
pub(crate) fn required_room<V>(
    entries: &[Entry<V>],
    context: Option<&Context<'_>>,
    actor: Actor,
) -> (Counter, usize)
    requires { AreEntries (clock_entries entries.now) }
    ensures counter { result.0
        ≡ counter_before (known_of (clock_entries entries.now)) (pairs_of context.entry) actor }
    ensures more { length entries.now + result.1
        ≡ actors_after (known_of (clock_entries entries.now)) (pairs_of context.entry) actor }
    ensures greatest { result.0 ≤ MAX_COUNTER }
    ensures few { result.1 ≤ 65 }
    ensures of_form { (ps : List Dot) → pairs_of context.entry ≡ Some ps
        → IsTrue (is_well_formed ps) }
{
    let own = last_counter(entries, actor);
    let (given, new) = context_counts(entries, context, actor);
    let seen = own.max(given);
    if seen == 0 {
        return (seen, new + 1);
    }
    (seen, new)
}

/// For how many entries more room has to be made for the next event of an actor, without what a context
/// saw: where the actor has an entry, as most have, for those that the context adds; else for none,
/// where there is room for one more than these.
#[inline(always)]
pub(crate) fn more_entries<V>(
    entries: &[Entry<V>],
    room: usize,
    context: Option<&Context<'_>>,
    actor: Actor,
) -> usize
    requires entries { AreEntries (clock_entries entries.now) }
    requires few { length entries.now ≤ 64 }
    ensures enough { actors_after (known_of (clock_entries entries.now)) (pairs_of context.entry)
        actor ≤ max room (length entries.now + result) }
    ensures few { result ≤ 65 }
    ensures of_form { (ps : List Dot) → pairs_of context.entry ≡ Some ps
        → IsTrue (is_well_formed ps) }
{
    if let Some(_seen) = sole_seen(entries, context, actor) {
        return 0;
    }
    let new = count_new_in(entries, context);
    let own = last_counter(entries, actor);
    if own != 0 {
        return new;
    }
    if entries.len() + new + 1 <= room {
        return 0;
    }
    let (_, more) = required_room(entries, context, actor);
    more
}

/// How many actors a context adds to entries.
#[inline(always)]
fn count_new_in<V>(entries: &[Entry<V>], context: Option<&Context<'_>>) -> usize
    requires { T (is_sorted actor_cmp (clock_entries entries.now)) }
    ensures new { result ≡ count_new
        (entries_of_pairs (unwrap_or (pairs_of context.entry) [])) (clock_entries entries.now) }
    ensures few { result ≤ 64 }
    ensures of_form { (ps : List Dot) → pairs_of context.entry ≡ Some ps
        → IsTrue (is_well_formed ps) }
{
    match context {
        None => 0,
        Some(context) => count_new_pairs(entries, context.pairs()),
    }
}

/// How many values entries have that a context doesn't cover. Each of 64 entries may have as many as
/// there are counters.
pub(crate) fn uncovered<V>(entries: &[Entry<V>], context: Option<&Context<'_>>) -> u128
    requires { length entries.now ≤ 64 }
    ensures { result ≡ count_uncovered
        (unwrap_or (pairs_of context.entry) []) (clock_entries entries.now) }
{
    let mut count = 0u128;
    for entry in entries {
        let more = newer(entry, context);
        count += more as u128;
    }
    count
}

/// How many values of an entry a context doesn't cover: those above the actor's counter in it, which are the newest.
fn newer<V>(entry: &Entry<V>, context: Option<&Context<'_>>) -> usize
    ensures newer { result ≡ newer
        (counter_in (unwrap_or (pairs_of context.entry) []) (actor_of entry.now.pair))
        (clock_entry entry.now).1 }
    ensures few { result ≤ MAX_COUNTER }
{
    if entry.values.is_empty() {
        return 0;
    }
    let seen = match context {
        None => 0,
        Some(context) => context.counter_of(entry.pair.actor()),
    };
    let above = entry.pair.counter.saturating_sub(seen);
    entry.values.len().min(above as usize)
}

/// Makes room for more entries, which are refused past 64.
pub(crate) fn reserve_actors<V: MadeWith<Global> + Drop>(
    entries: &mut Entries<V>,
    more: usize,
) -> Result<(), ClockFault>
    requires few { length entries.old.items ≤ 64 }
    requires more { more ≤ 65 }
    ensures unchanged { entries.new.items ≡ entries.old.items }
    ensures ok { OnOk result ((length entries.old.items + more ≤ MAX_ACTORS)
        × (length entries.old.items + more ≤ entries.new.capacity)) }
    ensures full { IfErr result (λ fault. (fault ≡ ClockFault.ActorsFull)
        ↔ (MAX_ACTORS < length entries.old.items + more)) }
    ensures never { IfErr result (λ fault. fault ≡ ClockFault.CounterFull → ⊥) }
{
    if entries.len() + more > MAX_ACTORS {
        return Err(ClockFault::ActorsFull);
    }
    match entries.reserve(more) {
        Ok(()) => Ok(()),
        Err(_) => Err(ClockFault::NoMemory),
    }
}

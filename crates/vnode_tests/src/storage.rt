//! Writes, syncs, reaps and room that no write used, each tried again where memory is refused.

ghost use Rattle.std.specs.Prelude.{◌≡◌, ◌≤◌, ◌<◌, true, None, OnOk};
ghost use Rattle.actor_epoch.specs.Limits.{max_actors, max_counter};
ghost use Rattle.dvv_set.specs.Held.{IsWithin};
ghost use Rattle.clock_store.specs.Keys.{clock_at};
ghost use Rattle.clock_store.specs.Contents.{HasWriteRoom};

mod dead;
mod rows;
mod syncs;

use crate::storage::rows::Act::{self, Holds, IsOf, Reap, Reserve, Sync, Tombstone, Value};
use crate::storage::rows::Step::{self, Clear, DropRoom, HasDead, Next, Sweep, To};
use crate::storage::rows::{A, FOUR, ROWS, Row};
use actor_epoch::{Actor, MAX_ACTORS, MAX_COUNTER};
use clock_list::ClockList;
use clock_store::{ClockMap, ClockStore, FoundKey, KeyRef, StoredClock, WriteKind, place_in};
use dvv_set::{Clock, Needed};
use riak_msgs::{Content, Key};
use std::alloc::{AllocError, Global};

/// Whether what a write needs is within the limits.
fn allows(needed: Needed) -> bool
    ensures actors { result ≡ true → needed.actors ≤ max_actors }
    ensures counter { result ≡ true → needed.counter < max_counter }
{
    needed.actors <= MAX_ACTORS && needed.counter < MAX_COUNTER
}

/// Whether a write of a key is within the limits.
fn is_within<S: ClockStore>(store: &S, alloc: Global, key: &Key, actor: Actor) -> bool
    ensures { result ≡ true
        → IsWithin (clock_at (S.shows store.now).keys key.now).known None actor }
{
    match store.get(key) {
        Some(stored) => allows(stored.clock.needed(None, actor)),
        None => {
            let clock: Clock<Option<Content>> = Clock::new(alloc);
            allows(clock.needed(None, actor))
        }
    }
}

/// Room for a write of a key, tried twice where memory is refused.
fn reserve<S: ClockStore>(
    store: &mut S,
    alloc: Global,
    key: &Key,
    actor: Actor,
    kind: WriteKind,
) -> Result<(), AllocError>
    ensures ok { OnOk result (HasWriteRoom (S.shows store.new) key.now None actor kind) }
{
    if !is_within(store, alloc, key, actor) {
        return Err(AllocError);
    }
    let place = place_in(store.find(key));
    if store.reserve(alloc, key, place, None, actor, kind).is_ok() {
        return Ok(());
    }
    let place = place_in(store.find(key));
    store.reserve(alloc, key, place, None, actor, kind)
}

/// An empty content, tried twice where memory is refused.
fn content(alloc: Global) -> Result<Content, AllocError> {
    match Content::of_value(alloc, b"") {
        Err(_) => Content::of_value(alloc, b""),
        made => made,
    }
}

/// Writes an empty content beside what is there.
fn write_value<S: ClockStore>(store: &mut S, alloc: Global, key: Key) -> Result<(), AllocError> {
    reserve(store, alloc, &key, A, WriteKind::Value)?;
    store.write(key, None, A, Some(content(alloc)?));
    Ok(())
}

/// Writes a tombstone over all that is there.
fn write_tombstone<S: ClockStore>(
    store: &mut S,
    alloc: Global,
    key: Key,
) -> Result<(), AllocError> {
    reserve(store, alloc, &key, A, WriteKind::Tombstone)?;
    store.overwrite(key, A, None);
    Ok(())
}

/// The key of this name, tried twice where memory is refused.
fn key_of(alloc: Global, name: &[u8]) -> Result<Key, AllocError> {
    match Key::of_default_type(alloc, b"b", name) {
        Err(_) => Key::of_default_type(alloc, b"b", name),
        made => made,
    }
}

/// How many values of a clock are contents.
fn count_contents(stored: &StoredClock) -> u32 {
    let mut values = 0u32;
    for value in stored.clock.values() {
        values = values.saturating_add(u32::from(value.is_some()));
    }
    values
}

/// How many contents the key has; None where it is absent.
fn count_of<S: ClockStore>(store: &S, key: &Key) -> Option<u32> {
    match store.get(key) {
        None => None,
        Some(stored) => Some(count_contents(stored)),
    }
}

/// Whether a key is held with this actor.
fn is_of<S: ClockStore>(store: &S, key: &Key, actor: Option<Actor>) -> bool {
    match store.get(key) {
        None => false,
        Some(stored) => stored.actor.get() == actor,
    }
}

/// Whether what is done to a key succeeds, and comes to what it says.
fn acts<S: ClockStore>(store: &mut S, alloc: Global, key: Key, act: &Act) -> bool {
    match act {
        Value => write_value(store, alloc, key).is_ok(),
        Tombstone => write_tombstone(store, alloc, key).is_ok(),
        Reserve => reserve(store, alloc, &key, A, WriteKind::Tombstone).is_ok(),
        Sync(seen, written) => syncs::takes_in(store, alloc, key, seen, *written),
        Reap(reaped) => store.forget_dead(&key) == *reaped,
        Holds(contents) => count_of(store, &key) == *contents,
        IsOf(actor) => is_of(store, &key, *actor),
    }
}

/// Whether a key of the default type has this name, and what is stored of it so many contents.
fn is_stored(
    alloc: Global,
    key: &FoundKey<'_>,
    stored: &StoredClock,
    name: &[u8],
    contents: u32,
) -> bool {
    match key.to_key(alloc) {
        Ok(key) => {
            key.bucket.as_slice() == b"b".as_slice()
                && key.key.as_slice() == name
                && count_contents(stored) == contents
        }
        Err(_) => false,
    }
}

/// Whether the least key behind one is this, with so many contents.
fn is_next<S: ClockStore>(
    store: &S,
    alloc: Global,
    after: Option<KeyRef<'_>>,
    wanted: Option<(&[u8], u32)>,
) -> bool {
    match store.next(after) {
        None => wanted.is_none(),
        Some((key, stored)) => match wanted {
            None => false,
            Some((name, contents)) => is_stored(alloc, &key, stored, name, contents),
        },
    }
}

/// Whether the least key behind the one of this name is this, with so many contents.
fn is_next_of<S: ClockStore>(
    store: &S,
    alloc: Global,
    after: Option<&[u8]>,
    wanted: Option<(&[u8], u32)>,
) -> bool {
    let Some(name) = after else {
        return is_next(store, alloc, None, wanted);
    };
    match key_of(alloc, name) {
        Ok(key) => is_next(store, alloc, Some(KeyRef::of(&key)), wanted),
        Err(_) => false,
    }
}

fn takes<S: ClockStore>(store: &mut S, alloc: Global, step: &Step) -> bool {
    match step {
        To(name, act) => match key_of(alloc, name) {
            Ok(key) => acts(store, alloc, key, act),
            Err(_) => false,
        },
        DropRoom => {
            store.drop_room();
            true
        }
        Sweep => store.forget_first_dead(None),
        HasDead(is_any) => store.has_dead(None) == *is_any,
        Next(after, wanted) => is_next_of(store, alloc, *after, *wanted),
        Clear => {
            store.clear();
            true
        }
    }
}

fn takes_all<S: ClockStore>(store: &mut S, alloc: Global, steps: &[Step]) -> bool {
    for step in steps {
        if !takes(store, alloc, step) {
            return false;
        }
    }
    true
}

fn holds<S: ClockStore>(alloc: Global, row: &Row) -> bool {
    let mut store = S::new(alloc);
    takes_all(&mut store, alloc, FOUR) && takes_all(&mut store, alloc, row.steps)
}

#[test]
fn keys_live_by_their_writes_and_go_when_dead(rt: HostRuntime) {
    for row in ROWS {
        assert!(rt; holds::<ClockMap>(rt.alloc(), row), "{}", row.shows);
        assert!(rt;
            holds::<ClockList>(rt.alloc(), row),
            "a list: {}",
            row.shows
        );
    }
}

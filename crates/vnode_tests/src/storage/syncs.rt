//! Another clock that a key takes in, in room that is made first.

ghost use Rattle.std.specs.Prelude.{◌≡◌, ◌≤◌, true, length, OnOk};
ghost use Rattle.actor_epoch.specs.Limits.{max_actors};
ghost use Rattle.dvv_set.specs.Clocks.{sync};
ghost use Rattle.clock_store.specs.Keys.{clock_at};
ghost use Rattle.clock_store.specs.Contents.{HasSyncRoom};

use crate::storage::content;
use crate::storage::rows::B;
use actor_epoch::{Context, MAX_ACTORS};
use clock_store::{ClockStore, WriteKind, place_in};
use dvv_set::Clock;
use riak_msgs::{Content, Key};
use std::alloc::{AllocError, Global};

/// Whether a key's clock and another one know so few actors together that they can be synced.
fn is_within<S: ClockStore>(
    store: &S,
    alloc: Global,
    key: &Key,
    other: &Clock<Option<Content>>,
) -> bool
    ensures { result ≡ true
        → length (sync (clock_at (S.shows store.now).keys key.now) other.now.meaning).known
        ≤ max_actors }
{
    match store.get(key) {
        Some(stored) => stored.clock.sizes_after(other).actors <= MAX_ACTORS,
        None => {
            let clock: Clock<Option<Content>> = Clock::new(alloc);
            clock.sizes_after(other).actors <= MAX_ACTORS
        }
    }
}

/// Room for a sync of a key, tried twice where memory is refused.
fn reserve_sync<S: ClockStore>(
    store: &mut S,
    alloc: Global,
    key: &Key,
    other: &Clock<Option<Content>>,
) -> Result<(), AllocError>
    ensures ok { OnOk result (HasSyncRoom (S.shows store.new) key.now other.now.meaning) }
{
    if !is_within(store, alloc, key, other) {
        return Err(AllocError);
    }
    let place = place_in(store.find(key));
    if store.reserve_sync(alloc, key, place, other).is_ok() {
        return Ok(());
    }
    let place = place_in(store.find(key));
    store.reserve_sync(alloc, key, place, other)
}

/// Whether a clock takes in what the context of these bytes saw (no bytes: nothing), tried twice where memory is refused.
fn discards(clock: &mut Clock<Option<Content>>, seen: &[u8]) -> bool {
    match Context::given(seen) {
        Ok(Some(context)) => clock.discard(&context).is_ok() || clock.discard(&context).is_ok(),
        Ok(None) => true,
        Err(_) => false,
    }
}

/// What a write puts.
fn value_of(alloc: Global, kind: WriteKind) -> Result<Option<Content>, AllocError> {
    match kind {
        WriteKind::Value => Ok(Some(content(alloc)?)),
        WriteKind::Tombstone => Ok(None),
    }
}

/// Whether a clock has a write at B, tried twice where memory is refused.
fn has_written(
    clock: &mut Clock<Option<Content>>,
    alloc: Global,
    written: Option<WriteKind>,
) -> bool {
    let Some(kind) = written else {
        return true;
    };
    match value_of(alloc, kind) {
        Ok(value) => match clock.event(B, value) {
            Ok(()) => true,
            Err(refused) => clock.event(B, refused.value).is_ok(),
        },
        Err(_) => false,
    }
}

/// Syncs a key with another clock, in room that is made first.
fn syncs<S: ClockStore>(
    store: &mut S,
    alloc: Global,
    key: Key,
    other: Clock<Option<Content>>,
) -> bool {
    match reserve_sync(store, alloc, &key, &other) {
        Ok(()) => {
            store.sync(key, other);
            true
        }
        Err(_) => false,
    }
}

/// Whether a key takes in another clock: what the context of these bytes saw, and a write at B.
pub fn takes_in<S: ClockStore>(
    store: &mut S,
    alloc: Global,
    key: Key,
    seen: &[u8],
    written: Option<WriteKind>,
) -> bool {
    let mut other = Clock::new(alloc);
    discards(&mut other, seen)
        && has_written(&mut other, alloc, written)
        && syncs(store, alloc, key, other)
}

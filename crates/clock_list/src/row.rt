//! Rows of the list, and writes at their places.

ghost use Rattle.std.specs.Prelude.{◌≡◌, ◌≤◌, map, length, IsTrue, OnOk, IfOk, None};
ghost use Rattle.std.specs.FinMap.Entries.{is_sorted};
ghost use Rattle.riak_msgs.specs.KeyOrder.{key_cmp};
ghost use Rattle.actor_epoch.specs.Limits.{max_actors};
ghost use Rattle.dvv_set.specs.Clocks.{sync};
ghost use Rattle.dvv_set.specs.Held.{IsWithin, IsReady, IsSyncReady, pairs_of as seen_in};
ghost use Rattle.clock_store.specs.Keys.{empty, stored_of, written, overwritten, synced};
ghost use Rattle.clock_list.specs.declared.place.Place.TheVariants as places;
ghost use Rattle.clock_list.specs.Places.{place_in};
ghost use Rattle.clock_list.specs.Rows.{entry_of, nothing, RowFits, ReadyAt, SyncFitsAt};
ghost use Rattle.clock_list.specs.Rows.{SyncReadyAt, FitsIn, IsNewRow, IsNewSyncRow};

use actor_epoch::{Actor, Context};
use clock_store::{OwnActor, StoredClock};
use dvv_set::Clock;
use riak_msgs::{Content, Key};
use std::alloc::{AllocError, Global};

/// A key with what is stored of it.
#[derive(Drop)]
pub(crate) struct Row {
    pub(crate) key: Key,
    pub(crate) stored: StoredClock,
}

/// Makes room in the clock of the row at a place.
pub(crate) fn reserve_at(
    rows: &mut Vec<Row>,
    i: usize,
    seen: Option<&Context<'_>>,
    actor: Actor,
) -> Result<(), AllocError>
    requires { RowFits rows.old.items i (seen_in seen) actor }
    ensures same { map entry_of rows.new.items ≡ map entry_of rows.old.items }
    ensures ok { OnOk result (ReadyAt rows.new.items i (seen_in seen.entry) actor) }
{
    rows[i].stored.reserve(seen, actor)
}

/// Makes room for a sync in the clock of the row at a place.
pub(crate) fn reserve_sync_at(
    rows: &mut Vec<Row>,
    i: usize,
    other: &Clock<Option<Content>>,
) -> Result<(), AllocError>
    requires { SyncFitsAt rows.old.items i other.now.meaning }
    ensures same { map entry_of rows.new.items ≡ map entry_of rows.old.items }
    ensures ok { OnOk result (SyncReadyAt rows.new.items i other.now.meaning) }
{
    rows[i].stored.reserve_sync(other)
}

/// An empty clock, without an actor.
fn empty_clock(alloc: Global) -> StoredClock
    ensures { stored_of result ≡ nothing }
{
    StoredClock {
        actor: OwnActor::none(),
        clock: Clock::new(alloc),
    }
}

/// A row of a key that isn't held: its clock is empty, without an actor, with room for a sync.
pub(crate) fn new_sync_row(
    alloc: Global,
    key: &Key,
    other: &Clock<Option<Content>>,
) -> Result<Row, AllocError>
    requires { length (sync empty other.now.meaning).known ≤ max_actors }
    ensures { IfOk result (λ row. IsNewSyncRow row key.now other.now.meaning) }
{
    let key = key.clone(alloc)?;
    let mut stored = empty_clock(alloc);
    stored.reserve_sync(other)?;
    Ok(Row { key, stored })
}

/// A row of a key that isn't held: its clock is empty, without an actor, with room for a write.
pub(crate) fn new_row(
    alloc: Global,
    key: &Key,
    seen: Option<&Context<'_>>,
    actor: Actor,
) -> Result<Row, AllocError>
    requires { IsWithin empty.known (seen_in seen) actor }
    ensures { IfOk result (λ row. IsNewRow row key.now (seen_in seen.entry) actor) }
{
    let key = key.clone(alloc)?;
    let mut stored = empty_clock(alloc);
    stored.reserve(seen, actor)?;
    Ok(Row { key, stored })
}

/// Writes in the row at a place.
pub(crate) fn write_at(
    rows: &mut Vec<Row>,
    i: usize,
    key: Key,
    seen: Option<&Context<'_>>,
    actor: Actor,
    value: Option<Content>,
)
    requires placed { place_in key (map entry_of rows.old.items) ≡ places.At i }
    requires ready { ReadyAt rows.old.items i (seen_in seen) actor }
    ensures { map entry_of rows.new.items
        ≡ written (map entry_of rows.old.items) key (seen_in seen.entry) actor value }
{
    let _key = key;
    rows[i].stored.write(seen, actor, value);
}

/// Writes in the row at a place, over all that is there.
pub(crate) fn overwrite_at(
    rows: &mut Vec<Row>,
    i: usize,
    key: Key,
    actor: Actor,
    value: Option<Content>,
)
    requires placed { place_in key (map entry_of rows.old.items) ≡ places.At i }
    requires ready { ReadyAt rows.old.items i None actor }
    ensures { map entry_of rows.new.items
        ≡ overwritten (map entry_of rows.old.items) key actor value }
{
    let _key = key;
    rows[i].stored.overwrite(actor, value);
}

/// Puts a row in at its place, with its first write.
pub(crate) fn write_new(
    rows: &mut Vec<Row>,
    i: usize,
    mut row: Row,
    seen: Option<&Context<'_>>,
    actor: Actor,
    value: Option<Content>,
)
    requires sorted { IsTrue (is_sorted key_cmp (map entry_of rows.old.items)) }
    requires fits { FitsIn rows.old i row }
    requires ready { IsReady row.stored.clock (seen_in seen) actor }
    ensures { map entry_of rows.new.items
        ≡ written (map entry_of rows.old.items) row.key (seen_in seen.entry) actor value }
{
    row.stored.write(seen, actor, value);
    if rows.insert(i, row).is_err() {
        unreachable!()
    }
}

/// Syncs the clock of the row at a place; its actor stays.
pub(crate) fn sync_at(rows: &mut Vec<Row>, i: usize, key: Key, other: Clock<Option<Content>>)
    requires placed { place_in key (map entry_of rows.old.items) ≡ places.At i }
    requires ready { SyncReadyAt rows.old.items i other.meaning }
    ensures { map entry_of rows.new.items
        ≡ synced (map entry_of rows.old.items) key other.meaning }
{
    let _key = key;
    rows[i].stored.sync(other);
}

/// Puts a row in at its place, with its first clock and no actor.
pub(crate) fn sync_new(rows: &mut Vec<Row>, i: usize, mut row: Row, other: Clock<Option<Content>>)
    requires sorted { IsTrue (is_sorted key_cmp (map entry_of rows.old.items)) }
    requires fits { FitsIn rows.old i row }
    requires ready { IsSyncReady row.stored.clock other.meaning }
    ensures { map entry_of rows.new.items
        ≡ synced (map entry_of rows.old.items) row.key other.meaning }
{
    row.stored.sync(other);
    if rows.insert(i, row).is_err() {
        unreachable!()
    }
}

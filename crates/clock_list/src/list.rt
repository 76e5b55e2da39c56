//! The list of keys with room for one write.

ghost use Rattle.std.specs.Prelude.{◌≡◌, ◌≤◌, map, length, IsTrue, IfOk, Some};
ghost use Rattle.std.specs.FinMap.Entries.{is_sorted};
ghost use Rattle.riak_msgs.specs.KeyOrder.{key_cmp};
ghost use Rattle.dvv_set.specs.Held.{IsWithin, pairs_of as seen_in};
ghost use Rattle.actor_epoch.specs.Limits.{max_actors};
ghost use Rattle.dvv_set.specs.Clocks.{sync};
ghost use Rattle.clock_store.specs.Contents.{HasWriteRoom, HasSyncRoom};
ghost use Rattle.clock_store.specs.Keys.{clock_at};
ghost use Rattle.clock_list.specs.Rows.{entry_of, contents_in, IsRowRoom};

use crate::place::{Place, next_row, place_of, stored_short};
use crate::removal::{first_dead, forget_at};
use crate::row::{
    Row, new_row, new_sync_row, overwrite_at, reserve_at, reserve_sync_at, sync_at, sync_new,
    write_at, write_new,
};
use actor_epoch::{Actor, Context};
use clock_store::{
    ClockStore, Found, FoundKey, KeyRef, Place as KeyPlace, Reaped, ShortKey, StoredClock,
    WriteKind, stored_in,
};
use dvv_set::Clock;
use riak_msgs::{Content, Key};
use std::alloc::{AllocError, Global};
use std::marker::Model;

/// Where a write finds room.
#[derive(Drop)]
pub(crate) enum Room {
    /// In the clock of this key, which stands at this place.
    At(usize, Key),
    /// In this row, whose key isn't held; it goes in at this place.
    New(usize, Row),
}

/// Keys in their order, each with what is stored of it, and room for one write. Contracts see what a
/// store means; nothing outside says where it is.
#[derive(Drop)]
pub struct ClockList {
    rows: Vec<Row>,
    room: Option<Room>,
}

impl Model for ClockList {
    ghost use Rattle.clock_store.specs.Contents.{Contents};

    ghost Value = { Contents };

    ghost use Rattle.clock_list.specs.Rows.{view_of, IsList};

    ghost view = { view_of };

    ghost invariant = { IsList };
}

/// Makes room for a write of a key: in its clock, or in a row of its own.
fn make_room(
    rows: &mut Vec<Row>,
    alloc: Global,
    key: &Key,
    seen: Option<&Context<'_>>,
    actor: Actor,
    kind: WriteKind,
) -> Result<Room, AllocError>
    requires sorted { IsTrue (is_sorted key_cmp (map entry_of rows.old.items)) }
    requires fits { IsWithin (clock_at (map entry_of rows.old.items) key.now).known
        (seen_in seen) actor }
    ensures same { map entry_of rows.new.items ≡ map entry_of rows.old.items }
    ensures ok { IfOk result (λ room.
        HasWriteRoom (contents_in rows.new.items (Some room)) key.now (seen_in seen.entry) actor
        kind) }
    ensures fits { IfOk result (λ room. IsRowRoom rows.new (Some room)) }
{
    let _kind = kind; // a list has room for either
    match place_of(rows.as_slice(), key) {
        Place::At(i) => {
            let own = key.clone(alloc)?;
            reserve_at(rows, i, seen, actor)?;
            Ok(Room::At(i, own))
        }
        Place::New(i) => {
            let row = new_row(alloc, key, seen, actor)?;
            rows.reserve(1)?;
            Ok(Room::New(i, row))
        }
    }
}

/// Makes room for a sync of a key's clock: in it, or in a row of its own.
fn make_sync_room(
    rows: &mut Vec<Row>,
    alloc: Global,
    key: &Key,
    other: &Clock<Option<Content>>,
) -> Result<Room, AllocError>
    requires sorted { IsTrue (is_sorted key_cmp (map entry_of rows.old.items)) }
    requires few { length (sync (clock_at (map entry_of rows.old.items) key.now)
        other.now.meaning).known ≤ max_actors }
    ensures same { map entry_of rows.new.items ≡ map entry_of rows.old.items }
    ensures ok { IfOk result (λ room.
        HasSyncRoom (contents_in rows.new.items (Some room)) key.now other.now.meaning) }
    ensures fits { IfOk result (λ room. IsRowRoom rows.new (Some room)) }
{
    match place_of(rows.as_slice(), key) {
        Place::At(i) => {
            let own = key.clone(alloc)?;
            reserve_sync_at(rows, i, other)?;
            Ok(Room::At(i, own))
        }
        Place::New(i) => {
            let row = new_sync_row(alloc, key, other)?;
            rows.reserve(1)?;
            Ok(Room::New(i, row))
        }
    }
}

impl ClockStore for ClockList {
    ghost shows = { λ list. list };

    fn new(alloc: Global) -> ClockList {
        ClockList {
            rows: Vec::new(alloc),
            room: None,
        }
    }

    fn get(&self, key: &Key) -> Option<&StoredClock> {
        stored_in(self.find(key))
    }

    fn get_short(&self, key: ShortKey) -> Option<&StoredClock> {
        stored_short(self.rows.as_slice(), key)
    }

    fn find(&self, key: &Key) -> Option<Found<'_>> {
        match place_of(self.rows.as_slice(), key) {
            Place::At(i) => Some(Found {
                place: KeyPlace { index: 0 }, // a list looks for it again
                stored: &self.rows[i].stored,
            }),
            Place::New(_) => None,
        }
    }

    fn next(&self, after: Option<KeyRef<'_>>) -> Option<(FoundKey<'_>, &StoredClock)> {
        match next_row(self.rows.as_slice(), after) {
            None => None,
            Some(row) => Some((FoundKey::of(&row.key), &row.stored)),
        }
    }

    fn reserve(
        &mut self,
        alloc: Global,
        key: &Key,
        place: Option<KeyPlace>,
        seen: Option<&Context<'_>>,
        actor: Actor,
        kind: WriteKind,
    ) -> Result<(), AllocError> {
        let _place = place;
        self.room = None;
        let room = make_room(&mut self.rows, alloc, key, seen, actor, kind)?;
        self.room = Some(room);
        Ok(())
    }

    fn drop_room(&mut self) {
        self.room = None;
    }

    fn write(
        &mut self,
        key: Key,
        seen: Option<&Context<'_>>,
        actor: Actor,
        value: Option<Content>,
    ) {
        match self.room.take() {
            Some(Room::At(i, _)) => write_at(&mut self.rows, i, key, seen, actor, value),
            Some(Room::New(i, row)) => write_new(&mut self.rows, i, row, seen, actor, value),
            None => unreachable!(),
        }
    }

    fn overwrite(&mut self, key: Key, actor: Actor, value: Option<Content>) {
        match self.room.take() {
            Some(Room::At(i, _)) => overwrite_at(&mut self.rows, i, key, actor, value),
            Some(Room::New(i, row)) => write_new(&mut self.rows, i, row, None, actor, value),
            None => unreachable!(),
        }
    }

    fn reserve_sync(
        &mut self,
        alloc: Global,
        key: &Key,
        place: Option<KeyPlace>,
        other: &Clock<Option<Content>>,
    ) -> Result<(), AllocError> {
        let _place = place;
        self.room = None;
        let room = make_sync_room(&mut self.rows, alloc, key, other)?;
        self.room = Some(room);
        Ok(())
    }

    fn sync(&mut self, key: Key, other: Clock<Option<Content>>) {
        match self.room.take() {
            Some(Room::At(i, _)) => sync_at(&mut self.rows, i, key, other),
            Some(Room::New(i, row)) => sync_new(&mut self.rows, i, row, other),
            None => unreachable!(),
        }
    }

    fn has_dead(&self, from: Option<&Key>) -> bool {
        first_dead(self.rows.as_slice(), from).is_some()
    }

    fn forget_dead(&mut self, key: &Key) -> Reaped {
        self.room = None;
        match place_of(self.rows.as_slice(), key) {
            Place::New(_) => Reaped::Absent,
            Place::At(i) => {
                if self.rows[i].stored.has_value() {
                    return Reaped::Kept;
                }
                forget_at(&mut self.rows, i);
                Reaped::Gone
            }
        }
    }

    fn forget_first_dead(&mut self, from: Option<&Key>) -> bool {
        self.room = None;
        match first_dead(self.rows.as_slice(), from) {
            None => false,
            Some(i) => {
                forget_at(&mut self.rows, i);
                true
            }
        }
    }

    fn clear(&mut self) {
        self.rows.clear();
        self.room = None;
    }
}

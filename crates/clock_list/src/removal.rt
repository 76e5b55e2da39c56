//! Dead rows of the list, and how one is forgotten.

ghost use Rattle.std.specs.Prelude.{◌≡◌, ◌<◌, length, map, remove};
ghost use Rattle.std.specs.List.{position_from};
ghost use Rattle.vnode_machine.specs.Dead.{is_from};
ghost use Rattle.clock_store.specs.Forgetting.{key_given, is_dead_from};
ghost use Rattle.clock_list.specs.Rows.{entry_of};

use crate::row::Row;
use riak_msgs::Key;

/// Whether a key is at or after another, where one is given.
fn is_from(from: Option<&Key>, key: &Key) -> bool
    ensures { result ≡ is_from (key_given from.entry) key.now }
{
    match from {
        None => true,
        Some(from) => from.cmp(key).is_le(),
    }
}

/// Whether a row's key is dead, and at or after another, where one is given.
fn is_dead_from(from: Option<&Key>, row: &Row) -> bool
    ensures { result ≡ is_dead_from (key_given from.entry) (entry_of row.now) }
{
    is_from(from, &row.key) && !row.stored.has_value()
}

/// The place of the first dead key at or after one.
pub(crate) fn first_dead(rows: &[Row], from: Option<&Key>) -> Option<usize>
    ensures { result
        ≡ position_from (is_dead_from (key_given from.entry)) 0 (map entry_of rows.now) }
{
    for (i, row) in rows.iter().enumerate() {
        if is_dead_from(from, row) {
            return Some(i);
        }
    }
    None
}

/// Forgets the key at a place, with its clock.
#[tactic(auto, using(crate::proofs::DeadRows::map_remove))]
pub(crate) fn forget_at(rows: &mut Vec<Row>, i: usize)
    requires { i < length rows.old.items }
    ensures { map entry_of rows.new.items ≡ remove (map entry_of rows.old.items) i }
{
    rows.remove(i);
}

//! Where a key stands in the list of keys.

ghost use Rattle.std.specs.Prelude.{◌≡◌, map};
ghost use Rattle.std.specs.Option.{option_map};
ghost use Rattle.riak_msgs.specs.KeyOrder.{key_cmp};
ghost use Rattle.clock_store.specs.Behind.{is_behind, next_entry};
ghost use Rattle.clock_store.specs.KeyRefs.{key_after};
ghost use Rattle.clock_list.specs.Places.{place_in};
ghost use Rattle.clock_list.specs.Rows.{entry_of};
ghost use Rattle.std.specs.FinMap.Entries.{find};
ghost use Rattle.std.specs.Ordering.{is_eq};
ghost use Rattle.clock_store.specs.Keys.{stored_of};

use crate::row::Row;
use clock_store::{KeyRef, ShortKey, StoredClock};
use riak_msgs::Key;
use std::cmp::Ordering;

/// A key's place in a list in key order.
#[derive(Clone, Copy, Debug, Drop, PartialEq, Eq)]
pub(crate) enum Place {
    /// It stands here.
    At(usize),
    /// It isn't there, and would be put in here.
    New(usize),
}

/// The place of a key in a list in key order. It looks through the list from the front.
pub(crate) fn place_of(rows: &[Row], key: &Key) -> Place
    ensures { result ≡ place_in key.now (map entry_of rows.now) }
{
    for (i, other) in rows.iter().enumerate() {
        match key.cmp(&other.key) {
            Ordering::Less => return Place::New(i),
            Ordering::Equal => return Place::At(i),
            Ordering::Greater => {}
        }
    }
    Place::New(rows.len())
}

/// Whether a key is the one of these short names.
fn is_key(short: ShortKey, key: &Key) -> bool
    ensures { result ≡ is_eq (key_cmp short key.now) }
{
    short.compare_key(key).reverse().is_eq()
}

/// What is stored of the key of these short names. It looks through the list from the front.
pub(crate) fn stored_short(rows: &[Row], short: ShortKey) -> Option<&StoredClock>
    ensures { option_map (λ stored. stored_of stored.now) result
        ≡ find key_cmp short (map entry_of rows.now) }
{
    for row in rows {
        if is_key(short, &row.key) {
            return Some(&row.stored);
        }
    }
    None
}

/// Whether a key is behind another, where one is given.
fn is_behind(after: Option<KeyRef<'_>>, key: &Key) -> bool
    ensures { result ≡ is_behind key_cmp (key_after after.entry) key.now }
{
    match after {
        None => true,
        Some(after) => {
            let bucket_type = after.bucket_type.cmp(&key.bucket_type);
            let bucket = after.bucket.cmp(&key.bucket);
            bucket_type
                .then(bucket)
                .then(after.key.cmp(&key.key))
                .is_lt()
        }
    }
}

/// The row of the least key behind one, or of all where none is given. It looks through the list from the front.
pub(crate) fn next_row<'a>(rows: &'a [Row], after: Option<KeyRef<'_>>) -> Option<&'a Row>
    ensures { option_map (λ row. entry_of row.now) result
        ≡ next_entry key_cmp (key_after after.entry) (map entry_of rows.now) }
{
    for row in rows {
        if is_behind(after, &row.key) {
            return Some(row);
        }
    }
    None
}

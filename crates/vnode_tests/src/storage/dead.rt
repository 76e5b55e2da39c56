//! Dead keys with short names, with longer ones and of another bucket type, and the order in which they are reaped.

use crate::storage::write_tombstone;
use clock_list::ClockList;
use clock_store::{ClockMap, ClockStore};
use riak_msgs::{BucketType, Bytes, DEFAULT_TYPE, Key};
use std::alloc::{AllocError, Global};

/// A bucket type, a bucket and a key.
type Name = (&'static [u8], &'static [u8], &'static [u8]);

const T: &[u8] = DEFAULT_TYPE;

const LONG: &[u8] = b"k and some bytes more than fit";

const K: Name = (T, b"b", b"k");

const FITS: Name = (T, b"b", b"k of 15 bytes..");

const LONG_KEY: Name = (T, b"b", LONG);

const L: Name = (T, b"b", b"l");

const LONG_BUCKET: Name = (T, b"b with a name of many bytes", b"a");

const C: Name = (T, b"c", b"");

const LOW_TYPE: Name = (b"a type", b"z", b"z");

const HIGH_TYPE: Name = (b"other", b"a", b"a");

/// All of them, not in their order.
const ALL: &[Name] = &[L, HIGH_TYPE, LONG_KEY, C, K, LOW_TYPE, FITS, LONG_BUCKET];

struct Row {
    shows: &'static str,
    /// From where dead keys are reaped.
    from: Option<Name>,
    /// Those that go, in their order.
    reaped: &'static [Name],
    /// Those that stay.
    left: &'static [Name],
}

const ROWS: &[Row] = &[
    Row {
        shows: "all go in key order, whatever their names",
        from: None,
        reaped: &[LOW_TYPE, K, LONG_KEY, FITS, L, LONG_BUCKET, C, HIGH_TYPE],
        left: &[],
    },
    Row {
        shows: "from a key with short names",
        from: Some(FITS),
        reaped: &[FITS, L, LONG_BUCKET, C, HIGH_TYPE],
        left: &[LOW_TYPE, K, LONG_KEY],
    },
    Row {
        shows: "from a longer key, which stands between short ones",
        from: Some(LONG_KEY),
        reaped: &[LONG_KEY, FITS, L, LONG_BUCKET, C, HIGH_TYPE],
        left: &[LOW_TYPE, K],
    },
    Row {
        shows: "from a longer key that isn't held",
        from: Some((T, b"b", b"l and so many bytes more")),
        reaped: &[LONG_BUCKET, C, HIGH_TYPE],
        left: &[LOW_TYPE, K, LONG_KEY, FITS, L],
    },
    Row {
        shows: "from a bucket with a long name",
        from: Some((T, b"b with a name of many bytes, and more", b"")),
        reaped: &[C, HIGH_TYPE],
        left: &[LOW_TYPE, K, LONG_KEY, FITS, L, LONG_BUCKET],
    },
    Row {
        shows: "from a bucket type below the default one",
        from: Some((b"b type", b"", b"")),
        reaped: &[K, LONG_KEY, FITS, L, LONG_BUCKET, C, HIGH_TYPE],
        left: &[LOW_TYPE],
    },
    Row {
        shows: "from a bucket type above it",
        from: Some((b"n type", b"", b"")),
        reaped: &[HIGH_TYPE],
        left: &[LOW_TYPE, K, LONG_KEY, FITS, L, LONG_BUCKET, C],
    },
];

fn try_key(alloc: Global, name: Name) -> Result<Key, AllocError> {
    Ok(Key {
        bucket_type: BucketType::from_slice(alloc, name.0)?,
        bucket: Bytes::from_slice(alloc, name.1)?,
        key: Bytes::from_slice(alloc, name.2)?,
    })
}

/// The key of this name, tried twice where memory is refused.
fn key_of(alloc: Global, name: Name) -> Result<Key, AllocError> {
    match try_key(alloc, name) {
        Err(_) => try_key(alloc, name),
        made => made,
    }
}

/// Whether a key dies.
fn dies<S: ClockStore>(store: &mut S, alloc: Global, name: Name) -> bool {
    match key_of(alloc, name) {
        Ok(key) => write_tombstone(store, alloc, key).is_ok(),
        Err(_) => false,
    }
}

/// Whether a key is held.
fn is_held<S: ClockStore>(store: &S, alloc: Global, name: Name) -> bool {
    match key_of(alloc, name) {
        Ok(key) => store.get(&key).is_some(),
        Err(_) => false,
    }
}

/// Whether the least dead key from one on is this one, which is reaped.
fn goes_first<S: ClockStore>(store: &mut S, alloc: Global, from: Option<&Key>, name: Name) -> bool {
    let is_there = is_held(store, alloc, name) && store.has_dead(from);
    let goes = store.forget_first_dead(from);
    is_there && goes && !is_held(store, alloc, name)
}

/// Whether these go one after another, and then none.
fn go_in_turn<S: ClockStore>(
    store: &mut S,
    alloc: Global,
    from: Option<&Key>,
    names: &[Name],
) -> bool {
    for name in names {
        if !goes_first(store, alloc, from, *name) {
            return false;
        }
    }
    !store.has_dead(from) && !store.forget_first_dead(from)
}

fn go_from<S: ClockStore>(store: &mut S, alloc: Global, row: &Row) -> bool {
    let Some(from) = row.from else {
        return go_in_turn(store, alloc, None, row.reaped);
    };
    match key_of(alloc, from) {
        Ok(from) => go_in_turn(store, alloc, Some(&from), row.reaped),
        Err(_) => false,
    }
}

fn all_die<S: ClockStore>(store: &mut S, alloc: Global) -> bool {
    for name in ALL {
        if !dies(store, alloc, *name) {
            return false;
        }
    }
    true
}

fn are_held<S: ClockStore>(store: &S, alloc: Global, names: &[Name]) -> bool {
    for name in names {
        if !is_held(store, alloc, *name) {
            return false;
        }
    }
    true
}

fn holds<S: ClockStore>(alloc: Global, row: &Row) -> bool {
    let mut store = S::new(alloc);
    all_die(&mut store, alloc)
        && go_from(&mut store, alloc, row)
        && are_held(&store, alloc, row.left)
}

#[test]
fn dead_keys_are_reaped_in_key_order(rt: HostRuntime) {
    for row in ROWS {
        assert!(rt; holds::<ClockMap>(rt.alloc(), row), "{}", row.shows);
        assert!(rt;
            holds::<ClockList>(rt.alloc(), row),
            "a list: {}",
            row.shows
        );
    }
}

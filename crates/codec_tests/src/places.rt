//! Places of keys in more than one bucket type and bucket, each call tried again where memory is refused.

mod keys;

use crate::places::keys::{
    ALL_LONG, BUCKET_OF_15, BUCKET_OF_16, EXCHANGED, KEY_OF_15, KEY_OF_16, KEY_WITH_ZERO, KEYS,
    LONG_BUCKET, LONG_KEY, LONG_TYPE, LONGER_KEY, Names, OTHER_BUCKET, OTHER_KEY, OTHER_TYPE,
    OTHERS, Places, SHORT,
};
use names::{FoundKey, KeyRef, NameMap, ShortKey};
use riak_msgs::{BucketType, Bytes, DEFAULT_TYPE, Key};
use std::alloc::{AllocError, Global};

/// What is done to a map, and what comes of it.
enum Step {
    /// The key gets this place.
    Insert(&'static Names, usize),
    /// The key is removed, and had this place.
    Remove(&'static Names, Option<usize>),
    /// The key has this place.
    Get(&'static Names, Option<usize>),
    /// Each of [`KEYS`] has its place of these, and no other key has one.
    Holds(Places),
    /// The least key behind this one (None: of all), with its place.
    Next(Option<&'static Names>, Option<(&'static Names, usize)>),
    /// All keys are removed.
    Clear,
}

use Step::{Clear, Get, Holds, Insert, Next, Remove};

/// Steps of a new map: first those that make it, and then others.
struct Row {
    shows: &'static str,
    first: &'static [Step],
    then: &'static [Step],
}

// Two bucket types, of two buckets each.
const SIX: &[Step] = &[
    Insert(LONGER_KEY, 6),
    Insert(LONG_KEY, 2),
    Insert(LONG_TYPE, 4),
    Insert(SHORT, 1),
    Insert(ALL_LONG, 5),
    Insert(LONG_BUCKET, 3),
];

const ROWS: &[Row] = &[
    Row {
        shows: "in an empty map no key has a place",
        first: &[],
        then: &[Holds([None, None, None, None, None, None])],
    },
    Row {
        shows: "each key has its own place",
        first: SIX,
        then: &[Holds([Some(1), Some(2), Some(3), Some(4), Some(5), Some(6)])],
    },
    Row {
        shows: "a second insert replaces the place",
        first: SIX,
        then: &[
            Insert(SHORT, 11),
            Insert(ALL_LONG, 15),
            Holds([Some(11), Some(2), Some(3), Some(4), Some(15), Some(6)]),
        ],
    },
    Row {
        shows: "keys are removed to the last and inserted again",
        first: SIX,
        then: &[
            // The last key of a bucket: the other keys of its bucket type stay.
            Remove(LONG_BUCKET, Some(3)),
            Remove(LONG_BUCKET, None),
            Holds([Some(1), Some(2), None, Some(4), Some(5), Some(6)]),
            // All keys of a bucket type, whose one bucket has two: the other bucket type stays.
            Remove(SHORT, Some(1)),
            Get(LONG_KEY, Some(2)),
            Remove(LONG_KEY, Some(2)),
            Holds([None, None, None, Some(4), Some(5), Some(6)]),
            // The last three keys.
            Remove(ALL_LONG, Some(5)),
            Remove(LONG_TYPE, Some(4)),
            Remove(LONGER_KEY, Some(6)),
            Remove(LONGER_KEY, None),
            Holds([None, None, None, None, None, None]),
            Insert(ALL_LONG, 7),
            Holds([None, None, None, None, Some(7), None]),
        ],
    },
    Row {
        shows: "behind each key comes the next, from bucket to bucket and from type to type",
        first: SIX,
        then: &[
            Next(None, Some((ALL_LONG, 5))),
            Next(Some(ALL_LONG), Some((LONGER_KEY, 6))),
            Next(Some(LONGER_KEY), Some((LONG_TYPE, 4))),
            Next(Some(LONG_TYPE), Some((LONG_BUCKET, 3))),
            Next(Some(LONG_BUCKET), Some((LONG_KEY, 2))),
            Next(Some(LONG_KEY), Some((SHORT, 1))),
            Next(Some(SHORT), None),
            // Keys that aren't held: of a bucket with a key behind, of a bucket and a type that aren't held, and behind all.
            Next(Some(OTHER_KEY), Some((SHORT, 1))),
            Next(Some(OTHER_BUCKET), Some((LONG_KEY, 2))),
            Next(Some(OTHER_TYPE), Some((LONG_BUCKET, 3))),
            Next(Some(EXCHANGED), None),
        ],
    },
    Row {
        shows: "names are told apart at 15 bytes, at 16, and at a zero byte behind one",
        first: &[
            Insert(KEY_WITH_ZERO, 7),
            Insert(BUCKET_OF_16, 2),
            Insert(KEY_OF_16, 4),
            Insert(SHORT, 6),
            Insert(BUCKET_OF_15, 1),
            Insert(LONG_KEY, 5),
            Insert(KEY_OF_15, 3),
        ],
        then: &[
            Get(KEY_OF_15, Some(3)),
            Get(KEY_OF_16, Some(4)),
            Get(SHORT, Some(6)),
            Get(KEY_WITH_ZERO, Some(7)),
            Next(None, Some((BUCKET_OF_15, 1))),
            Next(Some(BUCKET_OF_15), Some((BUCKET_OF_16, 2))),
            Next(Some(BUCKET_OF_16), Some((KEY_OF_15, 3))),
            Next(Some(KEY_OF_15), Some((KEY_OF_16, 4))),
            Next(Some(KEY_OF_16), Some((LONG_KEY, 5))),
            Next(Some(LONG_KEY), Some((SHORT, 6))),
            Next(Some(SHORT), Some((KEY_WITH_ZERO, 7))),
            Next(Some(KEY_WITH_ZERO), None),
            Remove(KEY_OF_15, Some(3)),
            Remove(BUCKET_OF_15, Some(1)),
            Get(KEY_OF_16, Some(4)),
            Next(Some(KEY_OF_15), Some((KEY_OF_16, 4))),
            Next(Some(BUCKET_OF_15), Some((BUCKET_OF_16, 2))),
        ],
    },
    Row {
        shows: "where all keys are removed there is none",
        first: SIX,
        then: &[
            Clear,
            Next(None, None),
            Holds([None, None, None, None, None, None]),
            Insert(SHORT, 9),
            Next(Some(ALL_LONG), Some((SHORT, 9))),
        ],
    },
    // A new key in a bucket that is held, one of a new bucket in a bucket type that is held, and one of a new bucket type.
    // After a refusal in any of the levels, `insert_key` compares the places.
    Row {
        shows: "a refused insert leaves each key its place",
        first: &[Insert(SHORT, 1)],
        then: &[
            Insert(LONG_KEY, 2),
            Holds([Some(1), Some(2), None, None, None, None]),
            Insert(LONG_BUCKET, 3),
            Holds([Some(1), Some(2), Some(3), None, None, None]),
            Insert(ALL_LONG, 5),
            Holds([Some(1), Some(2), Some(3), None, Some(5), None]),
        ],
    },
];

/// The key of these names. Refused where memory is.
fn try_key(alloc: Global, names: &Names) -> Result<Key, AllocError> {
    Ok(Key {
        bucket_type: BucketType::from_slice(alloc, names.bucket_type)?,
        bucket: Bytes::from_slice(alloc, names.bucket)?,
        key: Bytes::from_slice(alloc, names.key)?,
    })
}

/// The key of these names, tried twice where memory is refused.
fn key_of(alloc: Global, names: &Names) -> Result<Key, AllocError> {
    match try_key(alloc, names) {
        Err(_) => try_key(alloc, names),
        made => made,
    }
}

/// The place of the key of these names.
fn place_of(alloc: Global, map: &NameMap, names: &Names) -> Result<Option<usize>, AllocError> {
    match key_of(alloc, names) {
        Ok(key) => Ok(map.get(&key)),
        Err(fault) => Err(fault),
    }
}

/// Whether a key of the default type with short names has this place by them too.
fn has_short_place(map: &NameMap, names: &Names, place: Option<usize>) -> bool {
    match ShortKey::of_names(names.bucket, names.key) {
        Some(short) if names.bucket_type == DEFAULT_TYPE => map.get_short(short) == place,
        _ => true,
    }
}

/// The place of each of [`KEYS`].
fn places_of(alloc: Global, map: &NameMap) -> Result<Places, AllocError> {
    let mut places = [None; 6];
    for (place, names) in places.iter_mut().zip(KEYS) {
        *place = place_of(alloc, map, names)?;
    }
    Ok(places)
}

/// Whether none of [`OTHERS`] has a place.
fn holds_no_other(alloc: Global, map: &NameMap) -> bool {
    for names in OTHERS {
        if place_of(alloc, map, names) != Ok(None) {
            return false;
        }
    }
    true
}

/// Whether the keys that the tests insert have these places, and no other key has one.
fn has_places(alloc: Global, map: &NameMap, wanted: Places) -> bool {
    places_of(alloc, map) == Ok(wanted) && holds_no_other(alloc, map)
}

/// Inserts a key, tried twice where memory is refused: before the second call each key has the place that it had.
fn insert_key(alloc: Global, map: &mut NameMap, key: &Key, place: usize) -> bool {
    let Ok(before) = places_of(alloc, map) else {
        return false;
    };
    map.insert(alloc, key, place).is_ok()
        || (has_places(alloc, map, before) && map.insert(alloc, key, place).is_ok())
}

/// Inserts the key of these names.
fn insert(alloc: Global, map: &mut NameMap, names: &Names, place: usize) -> bool {
    match key_of(alloc, names) {
        Ok(key) => insert_key(alloc, map, &key, place),
        Err(_) => false,
    }
}

/// Removes the key of these names; whether it had this place.
fn removes(alloc: Global, map: &mut NameMap, names: &Names, place: Option<usize>) -> bool {
    match key_of(alloc, names) {
        Ok(key) => map.remove(&key) == place,
        Err(_) => false,
    }
}

/// A copy of a key.
fn copy_of(alloc: Global, key: &FoundKey<'_>) -> Result<Key, AllocError> {
    match key.to_key(alloc) {
        Ok(copy) => Ok(copy),
        Err(_) => key.to_key(alloc),
    }
}

/// Whether a key is the one of these names.
fn is_named(alloc: Global, key: &FoundKey<'_>, names: &Names) -> bool {
    match key_of(alloc, names) {
        Ok(named) => copy_of(alloc, key) == Ok(named),
        Err(_) => false,
    }
}

/// Whether the least key behind one is this, with this place.
fn is_next(
    alloc: Global,
    map: &NameMap,
    after: Option<KeyRef<'_>>,
    wanted: Option<(&Names, usize)>,
) -> bool {
    match map.next(after) {
        None => wanted.is_none(),
        Some((key, place)) => match wanted {
            None => false,
            Some((names, at)) => place == at && is_named(alloc, &key, names),
        },
    }
}

/// Whether the least key behind the one of these names is this, with this place.
fn is_next_of(
    alloc: Global,
    map: &NameMap,
    after: Option<&Names>,
    wanted: Option<(&Names, usize)>,
) -> bool {
    let Some(names) = after else {
        return is_next(alloc, map, None, wanted);
    };
    match key_of(alloc, names) {
        Ok(key) => is_next(alloc, map, Some(KeyRef::of(&key)), wanted),
        Err(_) => false,
    }
}

/// Whether a step comes to what it says.
fn takes(alloc: Global, map: &mut NameMap, step: &Step) -> bool {
    match step {
        Insert(names, place) => insert(alloc, map, names, *place),
        Remove(names, place) => removes(alloc, map, names, *place),
        Get(names, place) => {
            place_of(alloc, map, names) == Ok(*place) && has_short_place(map, names, *place)
        }
        Holds(places) => has_places(alloc, map, *places),
        Next(after, wanted) => is_next_of(alloc, map, *after, *wanted),
        Clear => {
            map.clear();
            true
        }
    }
}

fn takes_all(alloc: Global, map: &mut NameMap, steps: &[Step]) -> bool {
    for step in steps {
        if !takes(alloc, map, step) {
            return false;
        }
    }
    true
}

fn holds(alloc: Global, row: &Row) -> bool {
    let mut map = NameMap::new(alloc);
    takes_all(alloc, &mut map, row.first) && takes_all(alloc, &mut map, row.then)
}

#[test]
fn each_key_has_the_place_that_it_got_last(rt: HostRuntime) {
    for row in ROWS {
        assert!(rt; holds(rt.alloc(), row), "{}", row.shows);
    }
}

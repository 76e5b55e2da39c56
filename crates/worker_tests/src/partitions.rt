//! What a cache of partitions answers: what the ring answers, in whatever order it is asked.

use gate_node::PartitionCache;
use riak_msgs::{BucketType, Bytes, Key};
use ring_map::Ring;
use std::alloc::{AllocError, Global};
use std::process::Abort;
use std::test::*;

/// A text whose pieces are the names.
const TEXT: &[u8; 72] = b"abcabcabcabcabcabcabcabcabcabcabcabcabcabcabcabcabcabcabcabcabcabcabcabc";

/// How many bytes of the text may come before a name.
const STARTS: usize = 8;

/// A cache with so many places for keys on a ring of so many partitions. The names of each key have so many bytes together.
#[derive(Clone, Copy)]
struct Row {
    shows: &'static str,
    size: u16,
    places: usize,
    bucket_type: &'static [u8],
    len: usize,
}

/// A cache of 16 places on a ring of 64 partitions, asked for keys of twelve bytes. Rows say what is other.
const SIXTEEN_PLACES: Row = Row {
    shows: "sixteen places for 104 keys",
    size: 64,
    places: 16,
    bucket_type: b"default",
    len: 12,
};

const ROWS: &[Row] = &[
    SIXTEEN_PLACES,
    Row {
        shows: "one place for all keys, whose names have the same bytes and are cut elsewhere",
        places: 1,
        ..SIXTEEN_PLACES
    },
    Row {
        shows: "more places than keys",
        places: 4_096,
        ..SIXTEEN_PLACES
    },
    Row {
        shows: "no place",
        places: 0,
        ..SIXTEEN_PLACES
    },
    Row {
        shows: "more places than there is memory for",
        places: 1 << 60,
        ..SIXTEEN_PLACES
    },
    Row {
        shows: "a ring of four partitions",
        size: 4,
        ..SIXTEEN_PLACES
    },
    Row {
        shows: "a ring of 1,024 partitions",
        size: 1_024,
        ..SIXTEEN_PLACES
    },
    Row {
        shows: "names of one byte, beside an empty one",
        len: 1,
        ..SIXTEEN_PLACES
    },
    Row {
        shows: "empty names",
        len: 0,
        ..SIXTEEN_PLACES
    },
    Row {
        shows: "the longest names that are remembered",
        len: 48,
        ..SIXTEEN_PLACES
    },
    Row {
        shows: "names that are a byte longer",
        len: 49,
        ..SIXTEEN_PLACES
    },
    Row {
        shows: "names of 64 bytes",
        len: 64,
        ..SIXTEEN_PLACES
    },
    Row {
        shows: "another bucket type",
        places: 1,
        bucket_type: b"defaulu",
        ..SIXTEEN_PLACES
    },
    Row {
        shows: "an empty bucket type",
        places: 1,
        bucket_type: b"",
        ..SIXTEEN_PLACES
    },
];

/// The key of a number: where its names begin in the text, and how long its bucket is.
fn key_of(alloc: Global, row: &Row, number: usize) -> Result<Key, AllocError> {
    let start = number % STARTS;
    let bucket_len = (number / STARTS) % row.len.saturating_add(1);
    let names = TEXT.get(start..).unwrap_or(b"");
    let names = names.get(..row.len).unwrap_or(names);
    let bucket = names.get(..bucket_len).unwrap_or(b"");
    let key = names.get(bucket_len..).unwrap_or(b"");
    Ok(Key {
        bucket_type: BucketType::from_slice(alloc, row.bucket_type)?,
        bucket: Bytes::from_slice(alloc, bucket)?,
        key: Bytes::from_slice(alloc, key)?,
    })
}

/// Whether the cache answers what the ring does, also where it is asked about another ring.
fn agrees(cache: &PartitionCache, ring: &Ring, other: &Ring, key: &Key) -> bool {
    cache.index(ring, key) == ring.index(key)
        && cache.index(other, key) == other.index(key)
        && cache.index(ring, key) == ring.index(key)
}

/// The same for the key of a number.
fn agrees_at(alloc: Global, cache: &PartitionCache, ring: &Ring, row: &Row, number: usize) -> bool {
    match (Ring::new(512), key_of(alloc, row, number)) {
        (Some(other), Ok(key)) => agrees(cache, ring, &other, &key),
        _ => false,
    }
}

/// Whether it does for all keys of a row, twice, in a mixed order.
fn agrees_always(alloc: Global, row: &Row) -> bool {
    let Some(ring) = Ring::new(row.size) else {
        return false;
    };
    let cache = PartitionCache::new(alloc, ring, row.places);
    let count = STARTS.saturating_mul(row.len.saturating_add(1));
    for step in 0..count.saturating_mul(2) {
        let number = step.saturating_mul(37) % count.max(1);
        if !agrees_at(alloc, &cache, &ring, row, number) {
            return false;
        }
    }
    true
}

#[test]
fn cache_answers_what_the_ring_does(rt: HostRuntime) {
    for row in ROWS {
        assert!(rt; agrees_always(rt.alloc(), row), "{}", row.shows);
    }
}

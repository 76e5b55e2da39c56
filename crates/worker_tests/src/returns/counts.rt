//! How much is stored at a partition, before it is diverted, while it is, and behind its return.
use crate::exchanges::NOTHING_COUNTED;
use crate::playing::{NEW_SESSION, Session};
use crate::returns::long::Numbers;
use crate::returns::{
    Call, Copies, Course, Finish, ONE_PARTITION, PUTS_F_AND_G, PUTS_P, Turn, copies, finishes,
    play_course,
};
use handoff::Handoff;
use key_counts::{KeyCounts, count_all, count_partitions, total_of};
use stats_book::Totals;
use std::alloc::Global;
use std::process::Abort;
use std::sync::Wait;
use std::test::*;

/// Whether the vnodes of all partitions store so much together, by the sums of a list and by those without one.
pub fn are_stored<W: Wait>(rt: &W, alloc: Global, handoff: &Handoff, wanted: &KeyCounts) -> bool {
    match count_all(rt, alloc, handoff) {
        Ok(counts) => counts == *wanted && are_listed(rt, alloc, handoff, wanted),
        Err(_) => false,
    }
}

/// Whether those of all that are listed do.
fn are_listed<W: Wait>(rt: &W, alloc: Global, handoff: &Handoff, wanted: &KeyCounts) -> bool {
    match count_partitions(rt, alloc, handoff) {
        Ok(partitions) => total_of(partitions.as_slice()) == *wanted,
        Err(_) => false,
    }
}

// How many keys, siblings, dead keys and bytes of values are stored.
macro_rules! stores {
    ($keys:expr, $siblings:expr, $dead_keys:expr, $value_bytes:expr) => {
        Turn::Call(Call::Stores(KeyCounts {
            keys: $keys,
            siblings: $siblings,
            dead_keys: $dead_keys,
            value_bytes: $value_bytes,
        }))
    };
}

/// A delete of b/k without context: done.
const DELETES_K: &Session = &Session {
    requests: b"\0\0\0\x07\x0d\x0a\x01b\x12\x01k",
    replies: b"\0\0\0\x01\x0e",
    totals: Totals {
        deletes: 1,
        ..NOTHING_COUNTED
    },
    ..NEW_SESSION
};

/// A put of "long" on b/k without context: stored.
const PUTS_LONG: &Session = &Session {
    requests: b"\0\0\0\x0f\x0b\x0a\x01b\x12\x01k\x22\x06\x0a\x04long",
    replies: b"\0\0\0\x01\x0c",
    totals: Totals {
        puts: 1,
        ..NOTHING_COUNTED
    },
    ..NEW_SESSION
};

/// "p" is stored on b/k; at the fallback "f" by its context, and "g" on b/j.
const COUNTED: Course = Course {
    shows: "keys that both sides have are counted twice, until the partition is returned",
    turns: &[
        stores!(0, 0, 0, 0),
        Turn::Serve(PUTS_P),
        stores!(1, 1, 0, 1),
        Turn::Divert,
        Turn::Serve(PUTS_F_AND_G),
        stores!(3, 3, 0, 3),
        copies!(10 => 2, 0, 0),
        stores!(4, 4, 0, 4),
        finishes!(Returned),
        stores!(2, 2, 0, 2),
        Turn::Serve(DELETES_K),
        stores!(2, 2, 1, 1),
        Turn::Serve(PUTS_LONG),
        stores!(2, 3, 0, 5),
    ],
    ..ONE_PARTITION
};

/// Deletes of the numbers 999 and 1,000, the last key of a piece and the first of the next: done.
const DELETES_BESIDE_AN_EDGE: &Session = &Session {
    requests: b"\0\0\0\x08\x0d\x0a\x01b\x12\x02\x03\xe7\0\0\0\x08\x0d\x0a\x01b\x12\x02\x03\xe8",
    replies: b"\0\0\0\x01\x0e\0\0\0\x01\x0e",
    totals: Totals {
        deletes: 2,
        ..NOTHING_COUNTED
    },
    ..NEW_SESSION
};

// Puts of the numbers from one to before another, each of two bytes: stored.
macro_rules! puts {
    ($first:expr, $end:expr) => {
        Turn::Call(Call::Puts(Numbers {
            first: $first,
            end: $end,
        }))
    };
}

/// A count looks at 1,000 keys at once.
const EDGES: Course = Course {
    shows: "keys beside the edges of what is counted at once count once each",
    turns: &[
        puts!(0, 999),
        stores!(999, 999, 0, 1_998),
        puts!(999, 1_000),
        stores!(1_000, 1_000, 0, 2_000),
        puts!(1_000, 1_001),
        stores!(1_001, 1_001, 0, 2_002),
        Turn::Serve(DELETES_BESIDE_AN_EDGE),
        stores!(1_001, 1_001, 2, 1_998),
        puts!(1_001, 2_000),
        stores!(2_000, 2_000, 2, 3_996),
        puts!(2_000, 2_001),
        stores!(2_001, 2_001, 2, 3_998),
    ],
    ..ONE_PARTITION
};

#[test]
fn keys_beside_edges_are_counted(rt: HostRuntime) {
    assert!(rt; play_course(&rt, rt.alloc(), &EDGES), "{}", EDGES.shows);
}

#[test]
fn what_is_stored_is_counted(rt: HostRuntime) {
    assert!(rt; play_course(&rt, rt.alloc(), &COUNTED), "{}", COUNTED.shows);
}

//! One key that lives thousands of times, in a vnode whose history is as long then.
use crate::exchanges::{NOTHING_COUNTED, new_shared};
use crate::playing::{NEW_SESSION, Session, play};
use gate_node::{Open, Shared};
use stats_book::Totals;
use std::alloc::Global;
use std::process::Abort;
use std::sync::Wait;
use std::test::*;

/// How often the key lives before: each time of three events, so of 10,200 in all.
const LIVES: u32 = 3_400;

/// A put of "v" on b/k and a delete of it, which is forgotten then: stored; deleted.
const A_LIFE: &Session = &Session {
    requests: b"\0\0\0\x0c\x0b\x0a\x01b\x12\x01k\x22\x03\x0a\x01v\0\0\0\x07\x0d\x0a\x01b\x12\x01k",
    replies: b"\0\0\0\x01\x0c\0\0\0\x01\x0e",
    totals: Totals {
        puts: 1,
        deletes: 1,
        reaps: 1,
        ..NOTHING_COUNTED
    },
    ..NEW_SESSION
};

/// The same with a get behind each: stored; "v", with the first dot of the epoch 3,401; deleted; nothing.
const LAST_LIFE: &Session = &Session {
    requests: b"\0\0\0\x0c\x0b\x0a\x01b\x12\x01k\x22\x03\x0a\x01v\0\0\0\x07\x09\x0a\x01b\x12\x01k\0\0\0\x07\x0d\x0a\x01b\x12\x01k\0\0\0\x07\x09\x0a\x01b\x12\x01k",
    replies: b"\0\0\0\x01\x0c\0\0\0\x1d\x0a\x0a\x03\x0a\x01v\x12\x15\x02\0\0\0\0\0\x01\0\0\0\0\x0dI\0\0\0\0\0\0\0\x01\0\0\0\x01\x0e\0\0\0\x01\x0a",
    totals: Totals {
        gets: 2,
        puts: 1,
        deletes: 1,
        reaps: 1,
        ..NOTHING_COUNTED
    },
    ..NEW_SESSION
};

/// Whether each life over these gates goes as it should.
fn lives<W: Wait>(rt: &W, alloc: Global, shared: &Shared) -> bool {
    for _ in 0..LIVES {
        if !play(rt, alloc, shared, &Open, A_LIFE) {
            return false;
        }
    }
    play(rt, alloc, shared, &Open, LAST_LIFE)
}

/// The same over new gates, of which each answer forgets one dead key.
fn lives_anew<W: Wait>(rt: &W, alloc: Global) -> bool {
    match new_shared(alloc, 1, 1) {
        Some(shared) => lives(rt, alloc, &shared),
        None => false,
    }
}

#[test]
fn after_ten_thousand_events_all_is_as_before(rt: HostRuntime) {
    assert!(rt; lives_anew(&rt, rt.alloc()));
}

//! Sessions over two gates. The key k of the bucket b lies in partition 0 of a ring of two, b/j in partition 1, by the
//! first bytes 56 and a6 of their digests as Python's `hashlib` gives them.
mod lives;
mod options;

use crate::exchanges::{
    GET, GET_AND_PUT, LIVED_TWICE, NOTHING_COUNTED, ONE_GET, STORED_TWICE, TWO_LIVES, new_shared,
};
use crate::gates::options::{BUCKET_TYPES, GET_OPTIONS, PUT_OPTIONS};
use crate::playing::{NEW_SESSION, Session, play};
use gate_node::{Open, Shared, Turnstile};
use stats_book::Totals;
use std::alloc::Global;
use std::process::Abort;
use std::sync::Wait;
use std::sync::atomic::{AtomicU64, Ordering};
use std::test::*;
use std::thread::{Threads, map_indices};

/// Sessions over the same new gates, each of which goes on where the one before it stopped.
struct Sessions {
    shows: &'static str,
    /// How many dead keys a vnode forgets after an answer.
    budget: u32,
    sessions: &'static [Session],
    /// The numbers of the calls of all sessions, a decimal digit each: each get, put and delete is a call, and a reap is none.
    calls: u64,
}

/// A get where b/k is absent, and a put of "v".
const ABSENT_PUT_V: &[u8] =
    b"\0\0\0\x07\x09\x0a\x01b\x12\x01k\0\0\0\x0c\x0b\x0a\x01b\x12\x01k\x22\x03\x0a\x01v";

/// Nothing; stored.
const NOTHING_STORED: &[u8] = b"\0\0\0\x01\x0a\0\0\0\x01\x0c";

/// A get of b/k, and a put of "w" without context.
const GET_PUT_W: &[u8] =
    b"\0\0\0\x07\x09\x0a\x01b\x12\x01k\0\0\0\x0c\x0b\x0a\x01b\x12\x01k\x22\x03\x0a\x01w";

/// "v" with the context of its dot; stored.
const V_STORED: &[u8] =
    b"\0\0\0\x1d\x0a\x0a\x03\x0a\x01v\x12\x15\x02\0\0\0\0\0\x01\0\0\0\0\0\x01\0\0\0\0\0\0\0\x01\0\0\0\x01\x0c";

/// A get, a put of "x" by the context that showed "v" alone, and a get.
const GET_PUT_X_GET: &[u8] =
    b"\0\0\0\x07\x09\x0a\x01b\x12\x01k\0\0\0\x1f\x0b\x0a\x01b\x12\x01k\x1a\x11\x01\0\0\0\0\0\x01\0\0\0\0\0\x01\0\0\0\x01\x22\x03\x0a\x01x\0\0\0\x07\x09\x0a\x01b\x12\x01k";

/// "w" and "v"; stored; "x" and "w".
const SIBLINGS: &[u8] =
    b"\0\0\0\x22\x0a\x0a\x03\x0a\x01w\x0a\x03\x0a\x01v\x12\x15\x02\0\0\0\0\0\x01\0\0\0\0\0\x01\0\0\0\0\0\0\0\x02\0\0\0\x01\x0c\0\0\0\x22\x0a\x0a\x03\x0a\x01x\x0a\x03\x0a\x01w\x12\x15\x02\0\0\0\0\0\x01\0\0\0\0\0\x01\0\0\0\0\0\0\0\x03";

/// A ping, a put of "v" on b/k, a put of "u" on b/j, and a get of each.
const TWO_KEYS: &[u8] =
    b"\0\0\0\x01\x01\0\0\0\x0c\x0b\x0a\x01b\x12\x01k\x22\x03\x0a\x01v\0\0\0\x0c\x0b\x0a\x01b\x12\x01j\x22\x03\x0a\x01u\0\0\0\x07\x09\x0a\x01b\x12\x01k\0\0\0\x07\x09\x0a\x01b\x12\x01j";

/// Each has the first epoch of its vnode, 65,536 and 65,537.
const TWO_VNODES: &[u8] =
    b"\0\0\0\x01\x02\0\0\0\x01\x0c\0\0\0\x01\x0c\0\0\0\x1d\x0a\x0a\x03\x0a\x01v\x12\x15\x02\0\0\0\0\0\x01\0\0\0\0\0\x01\0\0\0\0\0\0\0\x01\0\0\0\x1d\x0a\x0a\x03\x0a\x01u\x12\x15\x02\0\0\0\0\0\x01\0\x01\0\0\0\x01\0\0\0\0\0\0\0\x01";

/// The greatest number that the book has room for.
const LAST: u64 = 18_446_744_073_709_551_615;

/// A delete where b/k is absent, and a put on it by a context of which no dot was given.
const IDLE_REFUSED: &[u8] =
    b"\0\0\0\x07\x0d\x0a\x01b\x12\x01k\0\0\0\x1f\x0b\x0a\x01b\x12\x01k\x1a\x11\x01\0\0\0\0\0\x01\0\0\0\0\0\x02\0\0\0\x01\x22\x03\x0a\x01x";

/// Deleted; "bad context".
const DELETED_BAD_CONTEXT: &[u8] = b"\0\0\0\x01\x0e\0\0\0\x10\0\x0a\x0bbad context\x10\x01";

const SESSIONS: &[Sessions] = &[
    Sessions {
        shows: "nodes share their vnodes",
        budget: 0,
        sessions: &[
            Session {
                requests: ABSENT_PUT_V,
                replies: NOTHING_STORED,
                totals: GET_AND_PUT,
                ..NEW_SESSION
            },
            Session {
                requests: GET_PUT_W,
                replies: V_STORED,
                totals: GET_AND_PUT,
                ..NEW_SESSION
            },
            Session {
                requests: GET_PUT_X_GET,
                replies: SIBLINGS,
                totals: Totals {
                    gets: 2,
                    puts: 1,
                    ..NOTHING_COUNTED
                },
                ..NEW_SESSION
            },
        ],
        calls: 1_234_567,
    },
    Sessions {
        shows: "keys of two vnodes have the first epochs of their own",
        budget: 0,
        sessions: &[Session {
            requests: TWO_KEYS,
            replies: TWO_VNODES,
            totals: Totals {
                gets: 2,
                puts: 2,
                ..NOTHING_COUNTED
            },
            ..NEW_SESSION
        }],
        calls: 1_234,
    },
    Sessions {
        shows: "the same, where the partition of one key is remembered",
        budget: 0,
        sessions: &[Session {
            has_reserve: true,
            requests: TWO_KEYS,
            replies: TWO_VNODES,
            totals: Totals {
                gets: 2,
                puts: 2,
                ..NOTHING_COUNTED
            },
            ..NEW_SESSION
        }],
        calls: 1_234,
    },
    Sessions {
        shows: "a budget forgets the dead key, and no reap is a call",
        budget: 1,
        sessions: &[Session {
            requests: TWO_LIVES,
            replies: LIVED_TWICE,
            totals: Totals {
                gets: 2,
                puts: 2,
                deletes: 1,
                reaps: 1,
                ..NOTHING_COUNTED
            },
            ..NEW_SESSION
        }],
        calls: 12_345,
    },
    Sessions {
        shows: "a full book changes no reply, and what it has room for is counted",
        budget: 0,
        sessions: &[Session {
            gets_before: LAST,
            requests: ABSENT_PUT_V,
            replies: NOTHING_STORED,
            is_book_full: true,
            totals: Totals {
                gets: LAST,
                puts: 1,
                ..NOTHING_COUNTED
            },
            ..NEW_SESSION
        }],
        calls: 12,
    },
    Sessions {
        shows: "an idle delete is not counted",
        budget: 1,
        sessions: &[Session {
            requests: IDLE_REFUSED,
            replies: DELETED_BAD_CONTEXT,
            totals: Totals {
                refusals: 1,
                ..NOTHING_COUNTED
            },
            ..NEW_SESSION
        }],
        calls: 12,
    },
    Sessions {
        shows: "options of gets are followed",
        budget: 0,
        sessions: &[GET_OPTIONS],
        calls: 12_345_678,
    },
    Sessions {
        shows: "options of puts are followed",
        budget: 0,
        sessions: &[PUT_OPTIONS],
        calls: 123_456,
    },
    Sessions {
        shows: "a key of another bucket type is another key",
        budget: 0,
        sessions: &[BUCKET_TYPES],
        calls: 123_456,
    },
    Sessions {
        shows: "memory that is kept back is given up when it is asked for, and made again, and all is answered",
        budget: 0,
        sessions: &[
            Session {
                has_reserve: true,
                requests: ABSENT_PUT_V,
                replies: NOTHING_STORED,
                totals: GET_AND_PUT,
                ..NEW_SESSION
            },
            Session {
                has_reserve: true,
                requests: GET_PUT_W,
                replies: V_STORED,
                totals: GET_AND_PUT,
                ..NEW_SESSION
            },
        ],
        calls: 1_234,
    },
];

/// Keeps the numbers of the calls, a decimal digit each.
#[derive(Drop)]
struct Digits {
    digits: AtomicU64,
}

impl Turnstile for Digits {
    fn inside(&self, call: u64) {
        let before = self.digits.load(Ordering::SeqCst);
        let digits = before.wrapping_mul(10).wrapping_add(call);
        self.digits.store(digits, Ordering::SeqCst);
    }
}

/// Whether the sessions over these gates, and the numbers of their calls, are as a row says.
fn play_all<W: Wait>(rt: &W, alloc: Global, shared: &Shared, row: &Sessions) -> bool {
    let turnstile = Digits {
        digits: AtomicU64::new(0),
    };
    for session in row.sessions {
        if !play(rt, alloc, shared, &turnstile, session) {
            return false;
        }
    }
    turnstile.digits.load(Ordering::SeqCst) == row.calls
}

/// The same over new gates.
fn play_anew<W: Wait>(rt: &W, alloc: Global, row: &Sessions) -> bool {
    match new_shared(alloc, 2, row.budget) {
        Some(shared) => play_all(rt, alloc, &shared, row),
        None => false,
    }
}

#[test]
fn sessions_are_answered_and_counted(rt: HostRuntime) {
    for row in SESSIONS {
        assert!(rt; play_anew(&rt, rt.alloc(), row), "{}", row.shows);
    }
}

/// Two puts of "v" on b/k without context; both are stored.
const PUT_TWICE: Session = Session {
    requests: b"\0\0\0\x0c\x0b\x0a\x01b\x12\x01k\x22\x03\x0a\x01v\0\0\0\x0c\x0b\x0a\x01b\x12\x01k\x22\x03\x0a\x01v",
    replies: STORED_TWICE,
    totals: Totals {
        puts: 2,
        ..NOTHING_COUNTED
    },
    ..NEW_SESSION
};

/// A get of b/k: eight siblings, and the context of eight dots.
const GET_EIGHT: Session = Session {
    requests: GET,
    replies: b"\0\0\0@\x0a\x0a\x03\x0a\x01v\x0a\x03\x0a\x01v\x0a\x03\x0a\x01v\x0a\x03\x0a\x01v\x0a\x03\x0a\x01v\x0a\x03\x0a\x01v\x0a\x03\x0a\x01v\x0a\x03\x0a\x01v\x12\x15\x02\0\0\0\0\0\x01\0\0\0\0\0\x01\0\0\0\0\0\0\0\x08",
    totals: ONE_GET,
    ..NEW_SESSION
};

/// Four threads put twice each, by nodes of their own. Whether each put was stored.
fn put_by_four<R: Threads + Wait + Sync>(rt: &R, alloc: Global, shared: &Shared) -> bool {
    let all = map_indices(
        rt,
        alloc,
        4,
        &|_| { play(rt, alloc, shared, &Open, &PUT_TWICE) },
    );
    match all {
        Ok(all) => all.as_slice() == [true, true, true, true].as_slice(),
        Err(_) => false,
    }
}

/// Whether each put of four threads was stored, and none of them was lost.
fn is_none_lost<R: Threads + Wait + Sync>(rt: &R, alloc: Global) -> bool {
    match new_shared(alloc, 2, 0) {
        Some(shared) => {
            put_by_four(rt, alloc, &shared) && play(rt, alloc, &shared, &Open, &GET_EIGHT)
        }
        None => false,
    }
}

#[test]
fn four_threads_lose_no_put(rt: HostRuntime) {
    assert!(rt; is_none_lost(&rt, rt.alloc()));
}

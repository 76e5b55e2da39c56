//! What puts leave when a partition is returned. The id of the primary of partition 0 is 65,536, that of its fallbacks 98,304; of partition 1
//! they are 65,537 and 98,305.
use crate::diversions::{F_AND_G, PUT_F_AND_G, PUT_P, PUT_P_AND_U};
use crate::exchanges::{
    GET, GET_AND_PUT, GET_BOTH, NOTHING_COUNTED, ONE_GET, ONE_PUT, STORED, STORED_TWICE,
};
use crate::playing::{NEW_SESSION, Session};
use crate::returns::{
    Call, Copies, Course, Finish, ONE_PARTITION, Turn, copies, finishes, play_course,
};
use stats_book::Totals;
use std::process::Abort;
use std::test::*;

/// A put of "p" on b/k: stored.
pub const PUTS_P: &Session = &Session {
    requests: PUT_P,
    replies: STORED,
    totals: ONE_PUT,
    ..NEW_SESSION
};

/// At the fallback a put of "f" on b/k by the context of "p", and one of "g" on b/j, with gets.
pub const PUTS_F_AND_G: &Session = &Session {
    requests: PUT_F_AND_G,
    replies: F_AND_G,
    totals: Totals {
        gets: 3,
        puts: 2,
        ..NOTHING_COUNTED
    },
    ..NEW_SESSION
};

/// A get of b/k: "f" alone, which had seen "p", with the first dots of both vnodes.
const GETS_F: &Session = &Session {
    requests: GET,
    replies: b"\0\0\01\x0a\x0a\x03\x0a\x01f\x12)\x02\0\0\0\0\0\x01\0\0\0\0\0\x01\0\0\0\0\0\0\0\x01\0\0\0\0\0\x01\x80\0\0\0\0\x01\0\0\0\0\0\0\0\x01",
    totals: ONE_GET,
    ..NEW_SESSION
};

/// A put of "q" on b/k and a get: the first dot of the third epoch of a vnode 98,304, since the first fallback gave two.
const PUTS_Q: &Session = &Session {
    requests: b"\0\0\0\x0c\x0b\x0a\x01b\x12\x01k\x22\x03\x0a\x01q\0\0\0\x07\x09\x0a\x01b\x12\x01k",
    replies: b"\0\0\0\x01\x0c\0\0\0\x1d\x0a\x0a\x03\x0a\x01q\x12\x15\x02\0\0\0\0\0\x01\x80\0\0\0\0\x03\0\0\0\0\0\0\0\x01",
    totals: GET_AND_PUT,
    ..NEW_SESSION
};

/// A put of "h" on b/k without context: stored.
pub const PUTS_H: &Session = &Session {
    requests: b"\0\0\0\x0c\x0b\x0a\x01b\x12\x01k\x22\x03\x0a\x01h",
    replies: STORED,
    totals: ONE_PUT,
    ..NEW_SESSION
};

/// A get of b/k: "p" and "h", each with the first dot of its vnode.
const GETS_P_AND_H: &Session = &Session {
    requests: GET,
    replies: b"\0\0\06\x0a\x0a\x03\x0a\x01p\x0a\x03\x0a\x01h\x12)\x02\0\0\0\0\0\x01\0\0\0\0\0\x01\0\0\0\0\0\0\0\x01\0\0\0\0\0\x01\x80\0\0\0\0\x01\0\0\0\0\0\0\0\x01",
    totals: ONE_GET,
    ..NEW_SESSION
};

/// Eight puts of "v" on b/k without context.
const PUTS_EIGHT: &Session = &Session {
    requests: b"\0\0\0\x0c\x0b\x0a\x01b\x12\x01k\x22\x03\x0a\x01v\0\0\0\x0c\x0b\x0a\x01b\x12\x01k\x22\x03\x0a\x01v\0\0\0\x0c\x0b\x0a\x01b\x12\x01k\x22\x03\x0a\x01v\0\0\0\x0c\x0b\x0a\x01b\x12\x01k\x22\x03\x0a\x01v\0\0\0\x0c\x0b\x0a\x01b\x12\x01k\x22\x03\x0a\x01v\0\0\0\x0c\x0b\x0a\x01b\x12\x01k\x22\x03\x0a\x01v\0\0\0\x0c\x0b\x0a\x01b\x12\x01k\x22\x03\x0a\x01v\0\0\0\x0c\x0b\x0a\x01b\x12\x01k\x22\x03\x0a\x01v",
    replies: b"\0\0\0\x01\x0c\0\0\0\x01\x0c\0\0\0\x01\x0c\0\0\0\x01\x0c\0\0\0\x01\x0c\0\0\0\x01\x0c\0\0\0\x01\x0c\0\0\0\x01\x0c",
    totals: Totals {
        puts: 8,
        ..NOTHING_COUNTED
    },
    ..NEW_SESSION
};

/// A get of b/k: the 40 siblings of the fallback.
const GETS_FORTY: &Session = &Session {
    requests: GET,
    replies: b"\0\0\0\xe0\x0a\x0a\x03\x0a\x01v\x0a\x03\x0a\x01v\x0a\x03\x0a\x01v\x0a\x03\x0a\x01v\x0a\x03\x0a\x01v\x0a\x03\x0a\x01v\x0a\x03\x0a\x01v\x0a\x03\x0a\x01v\x0a\x03\x0a\x01v\x0a\x03\x0a\x01v\x0a\x03\x0a\x01v\x0a\x03\x0a\x01v\x0a\x03\x0a\x01v\x0a\x03\x0a\x01v\x0a\x03\x0a\x01v\x0a\x03\x0a\x01v\x0a\x03\x0a\x01v\x0a\x03\x0a\x01v\x0a\x03\x0a\x01v\x0a\x03\x0a\x01v\x0a\x03\x0a\x01v\x0a\x03\x0a\x01v\x0a\x03\x0a\x01v\x0a\x03\x0a\x01v\x0a\x03\x0a\x01v\x0a\x03\x0a\x01v\x0a\x03\x0a\x01v\x0a\x03\x0a\x01v\x0a\x03\x0a\x01v\x0a\x03\x0a\x01v\x0a\x03\x0a\x01v\x0a\x03\x0a\x01v\x0a\x03\x0a\x01v\x0a\x03\x0a\x01v\x0a\x03\x0a\x01v\x0a\x03\x0a\x01v\x0a\x03\x0a\x01v\x0a\x03\x0a\x01v\x0a\x03\x0a\x01v\x0a\x03\x0a\x01v\x12\x15\x02\0\0\0\0\0\x01\x80\0\0\0\0\x01\0\0\0\0\0\0\0(",
    totals: ONE_GET,
    ..NEW_SESSION
};

/// A put of "w" on b/k by the context of these.
const PUTS_W: &Session = &Session {
    requests: b"\0\0\0#\x0b\x0a\x01b\x12\x01k\x1a\x15\x02\0\0\0\0\0\x01\x80\0\0\0\0\x01\0\0\0\0\0\0\0(\x22\x03\x0a\x01w",
    replies: STORED,
    totals: ONE_PUT,
    ..NEW_SESSION
};

/// A get of b/k: "w" alone, with the 41 dots of the vnode 98,304.
const GETS_W: &Session = &Session {
    requests: GET,
    replies: b"\0\0\0\x1d\x0a\x0a\x03\x0a\x01w\x12\x15\x02\0\0\0\0\0\x01\x80\0\0\0\0\x01\0\0\0\0\0\0\0)",
    totals: ONE_GET,
    ..NEW_SESSION
};

/// A get of b/k: the 40 siblings of the primary, and "w".
const GETS_FORTY_ONE: &Session = &Session {
    requests: GET,
    replies: b"\0\0\0\xf9\x0a\x0a\x03\x0a\x01v\x0a\x03\x0a\x01v\x0a\x03\x0a\x01v\x0a\x03\x0a\x01v\x0a\x03\x0a\x01v\x0a\x03\x0a\x01v\x0a\x03\x0a\x01v\x0a\x03\x0a\x01v\x0a\x03\x0a\x01v\x0a\x03\x0a\x01v\x0a\x03\x0a\x01v\x0a\x03\x0a\x01v\x0a\x03\x0a\x01v\x0a\x03\x0a\x01v\x0a\x03\x0a\x01v\x0a\x03\x0a\x01v\x0a\x03\x0a\x01v\x0a\x03\x0a\x01v\x0a\x03\x0a\x01v\x0a\x03\x0a\x01v\x0a\x03\x0a\x01v\x0a\x03\x0a\x01v\x0a\x03\x0a\x01v\x0a\x03\x0a\x01v\x0a\x03\x0a\x01v\x0a\x03\x0a\x01v\x0a\x03\x0a\x01v\x0a\x03\x0a\x01v\x0a\x03\x0a\x01v\x0a\x03\x0a\x01v\x0a\x03\x0a\x01v\x0a\x03\x0a\x01v\x0a\x03\x0a\x01v\x0a\x03\x0a\x01v\x0a\x03\x0a\x01v\x0a\x03\x0a\x01v\x0a\x03\x0a\x01v\x0a\x03\x0a\x01v\x0a\x03\x0a\x01v\x0a\x03\x0a\x01v\x0a\x03\x0a\x01w\x12)\x02\0\0\0\0\0\x01\0\0\0\0\0\x01\0\0\0\0\0\0\0(\0\0\0\0\0\x01\x80\0\0\0\0\x01\0\0\0\0\0\0\0)",
    totals: ONE_GET,
    ..NEW_SESSION
};

/// A put of "l" on b/l: stored.
const PUTS_L: &Session = &Session {
    requests: b"\0\0\0\x0c\x0b\x0a\x01b\x12\x01l\x22\x03\x0a\x01l",
    replies: STORED,
    totals: ONE_PUT,
    ..NEW_SESSION
};

/// A get of b/l: "l", with the first dot of the second epoch of the vnode 98,304.
const GETS_L: &Session = &Session {
    requests: b"\0\0\0\x07\x09\x0a\x01b\x12\x01l",
    replies: b"\0\0\0\x1d\x0a\x0a\x03\x0a\x01l\x12\x15\x02\0\0\0\0\0\x01\x80\0\0\0\0\x02\0\0\0\0\0\0\0\x01",
    totals: ONE_GET,
    ..NEW_SESSION
};

/// Puts of "p" on b/k and of "u" on b/j: stored.
const PUTS_P_AND_U: &Session = &Session {
    requests: PUT_P_AND_U,
    replies: STORED_TWICE,
    totals: Totals {
        puts: 2,
        ..NOTHING_COUNTED
    },
    ..NEW_SESSION
};

/// Gets of b/k and of b/j, and a put of "h" on b/j: "p" with the first dot of the vnode 65,536; nothing, since b/j is at a fallback; stored.
const PUTS_H_ON_J: &Session = &Session {
    requests: b"\0\0\0\x07\x09\x0a\x01b\x12\x01k\0\0\0\x07\x09\x0a\x01b\x12\x01j\0\0\0\x0c\x0b\x0a\x01b\x12\x01j\x22\x03\x0a\x01h",
    replies: b"\0\0\0\x1d\x0a\x0a\x03\x0a\x01p\x12\x15\x02\0\0\0\0\0\x01\0\0\0\0\0\x01\0\0\0\0\0\0\0\x01\0\0\0\x01\x0a\0\0\0\x01\x0c",
    totals: Totals {
        gets: 2,
        puts: 1,
        ..NOTHING_COUNTED
    },
    ..NEW_SESSION
};

/// Gets of b/k and of b/j: "p" as before; "u" and "h", each with the first dot of its vnode.
const GETS_P_AND_U_AND_H: &Session = &Session {
    requests: GET_BOTH,
    replies: b"\0\0\0\x1d\x0a\x0a\x03\x0a\x01p\x12\x15\x02\0\0\0\0\0\x01\0\0\0\0\0\x01\0\0\0\0\0\0\0\x01\0\0\06\x0a\x0a\x03\x0a\x01u\x0a\x03\x0a\x01h\x12)\x02\0\0\0\0\0\x01\0\x01\0\0\0\x01\0\0\0\0\0\0\0\x01\0\0\0\0\0\x01\x80\x01\0\0\0\x01\0\0\0\0\0\0\0\x01",
    totals: Totals {
        gets: 2,
        ..NOTHING_COUNTED
    },
    ..NEW_SESSION
};

/// A put of "a" on b/k without context: stored.
const PUTS_A: &Session = &Session {
    requests: b"\0\0\0\x0c\x0b\x0a\x01b\x12\x01k\x22\x03\x0a\x01a",
    replies: STORED,
    totals: ONE_PUT,
    ..NEW_SESSION
};

/// A put of "b" on b/k without context: stored.
const PUTS_B: &Session = &Session {
    requests: b"\0\0\0\x0c\x0b\x0a\x01b\x12\x01k\x22\x03\x0a\x01b",
    replies: STORED,
    totals: ONE_PUT,
    ..NEW_SESSION
};

/// A put of "c" on b/k without context: stored.
const PUTS_C: &Session = &Session {
    requests: b"\0\0\0\x0c\x0b\x0a\x01b\x12\x01k\x22\x03\x0a\x01c",
    replies: STORED,
    totals: ONE_PUT,
    ..NEW_SESSION
};

/// A put of "d" on b/k without context: stored.
const PUTS_D: &Session = &Session {
    requests: b"\0\0\0\x0c\x0b\x0a\x01b\x12\x01k\x22\x03\x0a\x01d",
    replies: STORED,
    totals: ONE_PUT,
    ..NEW_SESSION
};

/// A get of b/k: all four, each with the first dot of an epoch of its own of a vnode 98,304.
const GETS_FOUR: &Session = &Session {
    requests: b"\0\0\0\x07\x09\x0a\x01b\x12\x01k",
    replies: b"\0\0\0h\x0a\x0a\x03\x0a\x01a\x0a\x03\x0a\x01b\x0a\x03\x0a\x01c\x0a\x03\x0a\x01d\x12Q\x02\0\0\0\0\0\x01\x80\0\0\0\0\x01\0\0\0\0\0\0\0\x01\0\0\0\0\0\x01\x80\0\0\0\0\x02\0\0\0\0\0\0\0\x01\0\0\0\0\0\x01\x80\0\0\0\0\x03\0\0\0\0\0\0\0\x01\0\0\0\0\0\x01\x80\0\0\0\0\x04\0\0\0\0\0\0\0\x01",
    totals: ONE_GET,
    ..NEW_SESSION
};

/// The partition of b/k among 1,024, by the first two bytes, 56 and 73, of its digest, as Python's `hashlib` gives it.
const INDEX_OF_K: u16 = 345;

/// A get of b/k: "p", with the first dot of its vnode.
const GETS_P: &Session = &Session {
    requests: GET,
    replies: b"\0\0\0\x1d\x0a\x0a\x03\x0a\x01p\x12\x15\x02\0\0\0\0\0\x01\0\0\0\0\0\x01\0\0\0\0\0\0\0\x01",
    totals: ONE_GET,
    ..NEW_SESSION
};

/// What comes back with puts alone.
const RETURNS: &[Course] = &[
    Course {
        shows: "a partition of which nothing was asked is returned, and its next fallback gives the first epoch",
        turns: &[
            Turn::Serve(PUTS_P),
            Turn::Call(Call::Number(0)),
            Turn::Divert,
            Turn::Call(Call::Number(1)),
            copies!(10 => 0, 0, 0),
            finishes!(Returned),
            Turn::Serve(GETS_P),
            Turn::Divert,
            Turn::Call(Call::Number(2)),
            Turn::Serve(PUTS_F_AND_G),
            copies!(10 => 2, 0, 0),
            finishes!(Returned),
            Turn::Serve(GETS_F),
        ],
        ..ONE_PARTITION
    },
    Course {
        shows: "a mark that was left at the primary is gone when it is diverted, and no budget is too great",
        turns: &[
            Turn::Serve(PUTS_P),
            Turn::Call(Call::Mark),
            Turn::Divert,
            Turn::Serve(PUTS_H),
            copies!(4_294_967_295 => 1, 0, 0),
            finishes!(Returned),
            Turn::Serve(GETS_P_AND_H),
        ],
        ..ONE_PARTITION
    },
    Course {
        shows: "one of 1,024 partitions is handed off and returned",
        partitions: 1_024,
        index: INDEX_OF_K,
        turns: &[
            Turn::Divert,
            Turn::Serve(PUTS_H),
            copies!(10 => 1, 0, 0),
            finishes!(Returned),
            finishes!(NotDiverted),
        ],
        ..ONE_PARTITION
    },
    Course {
        shows: "what the fallback accepted is copied key by key, and then the primary answers, until a later diversion",
        turns: &[
            Turn::Serve(PUTS_P),
            Turn::Divert,
            Turn::Serve(PUTS_F_AND_G),
            copies!(1 => 1, 0, 1),
            finishes!(LeftOver),
            copies!(10 => 1, 0, 0),
            copies!(10 => 0, 0, 0),
            finishes!(Returned),
            Turn::Serve(GETS_F),
            finishes!(NotDiverted),
            Turn::Divert,
            Turn::Serve(PUTS_Q),
        ],
        ..ONE_PARTITION
    },
    Course {
        shows: "a sibling of each side stays, where neither saw the other",
        turns: &[
            Turn::Serve(PUTS_P),
            Turn::Divert,
            Turn::Serve(PUTS_H),
            copies!(10 => 1, 0, 0),
            finishes!(Returned),
            Turn::Serve(GETS_P_AND_H),
        ],
        ..ONE_PARTITION
    },
    Course {
        shows: "a key that would have too many siblings is stuck, until a put takes them away",
        turns: &[
            Turn::Serve(PUTS_EIGHT),
            Turn::Serve(PUTS_EIGHT),
            Turn::Serve(PUTS_EIGHT),
            Turn::Serve(PUTS_EIGHT),
            Turn::Serve(PUTS_EIGHT),
            Turn::Divert,
            Turn::Serve(PUTS_EIGHT),
            Turn::Serve(PUTS_EIGHT),
            Turn::Serve(PUTS_EIGHT),
            Turn::Serve(PUTS_EIGHT),
            Turn::Serve(PUTS_EIGHT),
            Turn::Serve(GETS_FORTY),
            copies!(10 => 0, 1, 1),
            finishes!(LeftOver),
            Turn::Serve(GETS_FORTY),
            Turn::Serve(PUTS_W),
            Turn::Serve(GETS_W),
            copies!(10 => 1, 0, 0),
            finishes!(Returned),
            Turn::Serve(GETS_FORTY_ONE),
        ],
        ..ONE_PARTITION
    },
    Course {
        shows: "a key behind a stuck one is copied all the same, unless the budget ends before it",
        turns: &[
            Turn::Serve(PUTS_EIGHT),
            Turn::Serve(PUTS_EIGHT),
            Turn::Serve(PUTS_EIGHT),
            Turn::Serve(PUTS_EIGHT),
            Turn::Serve(PUTS_EIGHT),
            Turn::Divert,
            Turn::Serve(PUTS_EIGHT),
            Turn::Serve(PUTS_EIGHT),
            Turn::Serve(PUTS_EIGHT),
            Turn::Serve(PUTS_EIGHT),
            Turn::Serve(PUTS_EIGHT),
            Turn::Serve(PUTS_L),
            copies!(1 => 0, 1, 2),
            copies!(10 => 1, 1, 1),
            copies!(10 => 0, 1, 1),
            finishes!(LeftOver),
            Turn::Serve(PUTS_W),
            copies!(10 => 1, 0, 0),
            finishes!(Returned),
            Turn::Serve(GETS_FORTY_ONE),
            Turn::Serve(GETS_L),
        ],
        ..ONE_PARTITION
    },
    Course {
        shows: "partition 1 of two is handed off and returned, while partition 0 is not",
        partitions: 2,
        index: 1,
        turns: &[
            Turn::Serve(PUTS_P_AND_U),
            Turn::Divert,
            Turn::Serve(PUTS_H_ON_J),
            Turn::Call(Call::NoneAt(0)),
            copies!(10 => 1, 0, 0),
            Turn::Call(Call::NoneAt(0)),
            finishes!(Returned),
            Turn::Serve(GETS_P_AND_U_AND_H),
            finishes!(NotDiverted),
        ],
        ..ONE_PARTITION
    },
    Course {
        shows: "a partition is diverted four times, and each time what was put comes back",
        turns: &[
            Turn::Divert,
            Turn::Serve(PUTS_A),
            copies!(10 => 1, 0, 0),
            finishes!(Returned),
            Turn::Divert,
            Turn::Serve(PUTS_B),
            copies!(10 => 1, 0, 0),
            finishes!(Returned),
            Turn::Divert,
            Turn::Serve(PUTS_C),
            copies!(10 => 1, 0, 0),
            finishes!(Returned),
            Turn::Divert,
            Turn::Serve(PUTS_D),
            copies!(10 => 1, 0, 0),
            finishes!(Returned),
            Turn::Serve(GETS_FOUR),
        ],
        ..ONE_PARTITION
    },
];

#[test]
fn diversions_are_copied_back_and_returned(rt: HostRuntime) {
    for course in RETURNS {
        assert!(rt; play_course(&rt, rt.alloc(), course), "{}", course.shows);
    }
}

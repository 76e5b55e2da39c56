//! What deletes at a fallback leave when the partition is returned, and reaps, which are for neither vnode while it is diverted. The id of
//! the primary is 65,536, that of the fallback 98,304.
use crate::diversions::{ONE_WRITE, PUT_DELETE, STORED_DELETED};
use crate::exchanges::{GET, NOTHING_ACCEPTED, NOTHING_COUNTED, ONE_GET, ONE_PUT, STORED};
use crate::playing::{NEW_SESSION, Session};
use crate::returns::rows::{PUTS_H, PUTS_P};
use crate::returns::tallies::{Accepted, Side};
use crate::returns::{
    Call, Copies, Course, Finish, ONE_PARTITION, Turn, copies, finishes, has, play_course,
};
use stats_book::Totals;
use std::process::Abort;
use std::test::*;
use vnode_core::Tally;

/// At the fallback a get of b/k, a put of "f" on it by the context of "p", a delete, a get, and a get with `deletedvclock`: nothing; stored;
/// deleted; nothing; the dots of both vnodes, of which the delete's is the second of the fallback.
const PUTS_F_DELETES: &Session = &Session {
    requests: b"\0\0\0\x07\x09\x0a\x01b\x12\x01k\0\0\0\x1f\x0b\x0a\x01b\x12\x01k\x1a\x11\x01\0\0\0\0\0\x01\0\0\0\0\0\x01\0\0\0\x01\x22\x03\x0a\x01f\0\0\0\x07\x0d\x0a\x01b\x12\x01k\0\0\0\x07\x09\x0a\x01b\x12\x01k\0\0\0\x09\x09\x0a\x01b\x12\x01kH\x01",
    replies: b"\0\0\0\x01\x0a\0\0\0\x01\x0c\0\0\0\x01\x0e\0\0\0\x01\x0a\0\0\0,\x0a\x12)\x02\0\0\0\0\0\x01\0\0\0\0\0\x01\0\0\0\0\0\0\0\x01\0\0\0\0\0\x01\x80\0\0\0\0\x01\0\0\0\0\0\0\0\x02",
    totals: Totals {
        gets: 3,
        puts: 1,
        deletes: 1,
        ..NOTHING_COUNTED
    },
    ..NEW_SESSION
};

/// At the fallback a put of "f" on b/k by the context of "p": stored.
const PUTS_F: &Session = &Session {
    requests: b"\0\0\0\x1f\x0b\x0a\x01b\x12\x01k\x1a\x11\x01\0\0\0\0\0\x01\0\0\0\0\0\x01\0\0\0\x01\x22\x03\x0a\x01f",
    replies: STORED,
    totals: ONE_PUT,
    ..NEW_SESSION
};

/// A delete of b/k, and a get: deleted; nothing.
const DELETES_K: &Session = &Session {
    requests: b"\0\0\0\x07\x0d\x0a\x01b\x12\x01k\0\0\0\x07\x09\x0a\x01b\x12\x01k",
    replies: b"\0\0\0\x01\x0e\0\0\0\x01\x0a",
    totals: Totals {
        gets: 1,
        deletes: 1,
        ..NOTHING_COUNTED
    },
    ..NEW_SESSION
};

/// A put of "f" on b/k and a delete of it: stored; deleted.
const PUTS_AND_DELETES: &Session = &Session {
    requests: PUT_DELETE,
    replies: STORED_DELETED,
    totals: Totals {
        puts: 1,
        deletes: 1,
        ..NOTHING_COUNTED
    },
    ..NEW_SESSION
};

/// A get of b/k, and one with `deletedvclock`: nothing; the dots of both vnodes.
const GETS_DEAD: &Session = &Session {
    requests: b"\0\0\0\x07\x09\x0a\x01b\x12\x01k\0\0\0\x09\x09\x0a\x01b\x12\x01kH\x01",
    replies: b"\0\0\0\x01\x0a\0\0\0,\x0a\x12)\x02\0\0\0\0\0\x01\0\0\0\0\0\x01\0\0\0\0\0\0\0\x01\0\0\0\0\0\x01\x80\0\0\0\0\x01\0\0\0\0\0\0\0\x02",
    totals: Totals {
        gets: 2,
        ..NOTHING_COUNTED
    },
    ..NEW_SESSION
};

/// Two gets of b/k with `deletedvclock`: the dots of both vnodes; nothing, since the dead key was forgotten behind the first.
const GETS_DEAD_ONCE: &Session = &Session {
    requests: b"\0\0\0\x09\x09\x0a\x01b\x12\x01kH\x01\0\0\0\x09\x09\x0a\x01b\x12\x01kH\x01",
    replies: b"\0\0\0,\x0a\x12)\x02\0\0\0\0\0\x01\0\0\0\0\0\x01\0\0\0\0\0\0\0\x01\0\0\0\0\0\x01\x80\0\0\0\0\x01\0\0\0\0\0\0\0\x02\0\0\0\x01\x0a",
    totals: Totals {
        gets: 2,
        reaps: 1,
        ..NOTHING_COUNTED
    },
    ..NEW_SESSION
};

/// A get of b/k with `deletedvclock`: nothing.
const GETS_NOTHING: &Session = &Session {
    requests: b"\0\0\0\x09\x09\x0a\x01b\x12\x01kH\x01",
    replies: b"\0\0\0\x01\x0a",
    totals: ONE_GET,
    ..NEW_SESSION
};

/// A get of b/k: "p", and the delete, which hadn't seen it.
const GETS_P_AND_DELETED: &Session = &Session {
    requests: GET,
    replies: b"\0\0\07\x0a\x0a\x03\x0a\x01p\x0a\x04\x0a\0X\x01\x12)\x02\0\0\0\0\0\x01\0\0\0\0\0\x01\0\0\0\0\0\0\0\x01\0\0\0\0\0\x01\x80\0\0\0\0\x01\0\0\0\0\0\0\0\x02",
    totals: ONE_GET,
    ..NEW_SESSION
};

/// At the fallback a put of "g" on b/j: stored.
const PUTS_G: &Session = &Session {
    requests: b"\0\0\0\x0c\x0b\x0a\x01b\x12\x01j\x22\x03\x0a\x01g",
    replies: STORED,
    totals: ONE_PUT,
    ..NEW_SESSION
};

/// Two gets of b/k with `deletedvclock`: the second dot of the primary; nothing, since the dead key was forgotten behind the first.
const GETS_OLD_DEAD_ONCE: &Session = &Session {
    requests: b"\0\0\0\x09\x09\x0a\x01b\x12\x01kH\x01\0\0\0\x09\x09\x0a\x01b\x12\x01kH\x01",
    replies: b"\0\0\0\x18\x0a\x12\x15\x02\0\0\0\0\0\x01\0\0\0\0\0\x01\0\0\0\0\0\0\0\x02\0\0\0\x01\x0a",
    totals: Totals {
        gets: 2,
        reaps: 1,
        ..NOTHING_COUNTED
    },
    ..NEW_SESSION
};

/// A write and a tombstone.
const WRITE_AND_TOMBSTONE: Tally = Tally {
    writes: 1,
    tombstones: 1,
    ..NOTHING_ACCEPTED
};

/// A write, a tombstone, and a reap.
const ALL_OF_A_LIFE: Tally = Tally {
    writes: 1,
    tombstones: 1,
    reaps: 1,
};

/// A write, and a reap of what a copy made dead.
const WRITE_AND_REAP: Tally = Tally {
    writes: 1,
    reaps: 1,
    ..NOTHING_ACCEPTED
};

/// A get of b/k: nothing, and the dead key is forgotten behind it.
const GETS_AND_FORGETS: &Session = &Session {
    requests: GET,
    replies: b"\0\0\0\x01\x0a",
    totals: Totals {
        gets: 1,
        reaps: 1,
        ..NOTHING_COUNTED
    },
    ..NEW_SESSION
};

/// At the fallback a get of b/k, and one with `deletedvclock`, behind its 10,200 events: nothing; the dot of the last of them.
const GETS_LONG_DEAD: &Session = &Session {
    requests: b"\0\0\0\x07\x09\x0a\x01b\x12\x01k\0\0\0\x09\x09\x0a\x01b\x12\x01kH\x01",
    replies: b"\0\0\0\x01\x0a\0\0\0\x18\x0a\x12\x15\x02\0\0\0\0\0\x01\x80\0\0\0\0\x01\0\0\0\0\0\0'\xd8",
    totals: Totals {
        gets: 2,
        ..NOTHING_COUNTED
    },
    ..NEW_SESSION
};

/// How often a key is put and deleted in a long history.
const ROUNDS: u32 = 5_100;

/// So many writes and tombstones.
const LONG: Tally = Tally {
    writes: 5_100,
    tombstones: 5_100,
    ..NOTHING_ACCEPTED
};

/// The same, and a reap.
const LONG_AND_REAP: Tally = Tally { reaps: 1, ..LONG };

/// What comes back with deletes.
const DELETES: &[Course] = &[
    Course {
        shows: "a primary that forgot a key before it was diverted is returned",
        turns: &[
            Turn::Serve(PUTS_AND_DELETES),
            Turn::Call(Call::Reap(Side::Primary)),
            has!(ALL_OF_A_LIFE, None, true),
            Turn::Divert,
            Turn::Serve(PUTS_G),
            copies!(10 => 1, 0, 0),
            finishes!(Returned),
            has!(ALL_OF_A_LIFE, Some(ONE_WRITE), false),
        ],
        ..ONE_PARTITION
    },
    Course {
        shows: "a partition is handed off and returned behind ten thousand events of each side",
        budget: 1,
        turns: &[
            Turn::Call(Call::Serves(ROUNDS, PUTS_AND_DELETES)),
            has!(LONG, None, true),
            Turn::Divert,
            Turn::Call(Call::Serves(ROUNDS, PUTS_AND_DELETES)),
            Turn::Serve(GETS_LONG_DEAD),
            has!(LONG, Some(LONG), true),
            copies!(10 => 1, 0, 0),
            finishes!(Returned),
            Turn::Serve(GETS_AND_FORGETS),
            has!(LONG_AND_REAP, Some(LONG), false),
        ],
        ..ONE_PARTITION
    },
    Course {
        shows: "a delete before its key's copy comes back with it, and no vnode reaps until then",
        budget: 1,
        turns: &[
            Turn::Serve(PUTS_P),
            Turn::Divert,
            Turn::Serve(PUTS_F_DELETES),
            has!(ONE_WRITE, Some(WRITE_AND_TOMBSTONE), true),
            copies!(10 => 1, 0, 0),
            has!(ONE_WRITE, Some(WRITE_AND_TOMBSTONE), false),
            finishes!(Returned),
            Turn::Serve(GETS_DEAD_ONCE),
            has!(WRITE_AND_REAP, Some(WRITE_AND_TOMBSTONE), false),
        ],
        ..ONE_PARTITION
    },
    Course {
        shows: "a delete behind its key's copy is left over until it is copied too",
        turns: &[
            Turn::Serve(PUTS_P),
            Turn::Divert,
            Turn::Serve(PUTS_F),
            copies!(10 => 1, 0, 0),
            Turn::Serve(DELETES_K),
            has!(ONE_WRITE, Some(WRITE_AND_TOMBSTONE), false),
            finishes!(LeftOver),
            copies!(10 => 1, 0, 0),
            has!(ONE_WRITE, Some(WRITE_AND_TOMBSTONE), false),
            finishes!(Returned),
            Turn::Serve(GETS_DEAD),
            has!(ONE_WRITE, Some(WRITE_AND_TOMBSTONE), false),
        ],
        ..ONE_PARTITION
    },
    Course {
        shows: "a delete at the fallback leaves what it had not seen",
        turns: &[
            Turn::Serve(PUTS_P),
            Turn::Divert,
            Turn::Serve(PUTS_H),
            Turn::Serve(DELETES_K),
            copies!(10 => 1, 0, 0),
            finishes!(Returned),
            Turn::Serve(GETS_P_AND_DELETED),
        ],
        ..ONE_PARTITION
    },
    Course {
        shows: "a key that was dead before is not forgotten at the primary while that is diverted",
        budget: 1,
        turns: &[
            Turn::Serve(PUTS_AND_DELETES),
            has!(WRITE_AND_TOMBSTONE, None, true),
            Turn::Divert,
            Turn::Serve(GETS_NOTHING),
            Turn::Serve(PUTS_G),
            copies!(10 => 1, 0, 0),
            has!(WRITE_AND_TOMBSTONE, Some(ONE_WRITE), false),
            finishes!(Returned),
            has!(WRITE_AND_TOMBSTONE, Some(ONE_WRITE), false),
            Turn::Serve(GETS_OLD_DEAD_ONCE),
            has!(ALL_OF_A_LIFE, Some(ONE_WRITE), false),
        ],
        ..ONE_PARTITION
    },
    Course {
        shows: "a fallback that a pass of its own made forget a key is not returned, and goes on",
        turns: &[
            Turn::Serve(PUTS_P),
            Turn::Divert,
            Turn::Serve(PUTS_AND_DELETES),
            Turn::Call(Call::Reap(Side::Fallback)),
            has!(ONE_WRITE, Some(ALL_OF_A_LIFE), true),
            copies!(10 => 0, 0, 0),
            finishes!(GateStopped),
            Turn::Serve(GETS_NOTHING),
            finishes!(GateStopped),
        ],
        ..ONE_PARTITION
    },
    Course {
        shows: "a diversion whose primary a pass of its own made forget a key does not end",
        turns: &[
            Turn::Serve(PUTS_AND_DELETES),
            Turn::Divert,
            Turn::Serve(PUTS_G),
            Turn::Call(Call::Reap(Side::Primary)),
            copies!(10 => 1, 0, 0),
            has!(ALL_OF_A_LIFE, Some(ONE_WRITE), false),
            finishes!(GateStopped),
            Turn::Serve(GETS_NOTHING),
            finishes!(GateStopped),
        ],
        ..ONE_PARTITION
    },
];

#[test]
fn deletes_come_back(rt: HostRuntime) {
    for course in DELETES {
        assert!(rt; play_course(&rt, rt.alloc(), course), "{}", course.shows);
    }
}

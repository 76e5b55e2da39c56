//! Schedules in which a closer meets others, and diversions one after another.

use crate::messages::{
    ABSENT, DELETE, DELETED, GET, MATCH_FOUND, PUT_V, PUT_V_IF_NONE, PUT_W_BY_BOTH, PUT_W_BY_THREE,
    SHOWS_BOTH, SHOWS_THREE, SHOWS_V_AT_FALLBACK, SHOWS_V_AT_SECOND, SHOWS_V_IN_LIFE_TWO, STORED,
    STORED_W_ALONE, STORED_W_BESIDE_V,
};
use crate::steps::parts::{
    CLOSE, COPY, DIVERT, Schedule, WRITE, all_play, finds_left, reads, writes,
};
use crate::steps::playing::{Act, Wanted};
use Act::{Ask, Close, Copy, Divert, Enter, Leave, Look, Mark, Publish, Put, Reap, Take, Unmark};
use Wanted::{Copied, Done, Elsewhere, Left, No, Reaped, Reply};

/// A closer beside another worker.
const BESIDE: &[Schedule] = &[
    // A reader inside keeps the closer out; while the closer has the state nobody comes in, marks or takes it.
    Schedule {
        shows: "a closer and a reader, and a writer",
        workers: 3,
        vnodes: 1,
        parts: &[
            DIVERT,
            &[
                (Ask(1, 0, GET), Done),
                (Enter(1), Done),
                (Close(2, 0), Done),
                (Take(2), No),
                (Look(1), Reply(ABSENT)),
                (Take(2), No),
                (Leave(1), Done),
                (Take(2), Done),
                (Ask(1, 0, GET), Done),
                (Ask(3, 0, PUT_V), Done),
                (Enter(1), No),
                (Mark(3), No),
                (Take(3), No),
                (Enter(2), Done),
                (Look(2), Done),
                (Publish(2), Done),
                (Take(3), No),
                (Leave(2), Done),
                (Put(2), Done),
                (Enter(1), Done),
                (Take(3), No),
                (Look(1), Elsewhere),
                (Take(3), No),
                (Leave(1), Done),
                (Take(3), Done),
                (Look(3), Elsewhere),
                (Enter(1), Done),
                (Look(1), Reply(ABSENT)),
                (Put(3), Done),
                (Take(3), No),
                (Leave(1), Done),
                (Take(3), Done),
                (Look(3), Done),
                (Publish(3), Reply(STORED)),
            ],
        ],
    },
    // A mark keeps no closer out, and is gone when it puts the state back.
    Schedule {
        shows: "a closer takes a word that a writer has marked",
        workers: 2,
        vnodes: 1,
        parts: &[
            DIVERT,
            &[(Ask(1, 0, PUT_V), Done), (Mark(1), Done)],
            CLOSE,
            &[
                (Unmark(1), No),
                (Mark(1), Done),
                (Unmark(1), Done),
                (Take(1), Done),
                (Look(1), Elsewhere),
            ],
        ],
    },
    // A writer has the fallback's state first: the closer waits, and finds what it wrote left.
    Schedule {
        shows: "a writer before a closer",
        workers: 2,
        vnodes: 1,
        parts: &[
            DIVERT,
            &[
                (Ask(1, 0, PUT_V), Done),
                (Take(1), Done),
                (Close(2, 0), Done),
                (Take(2), No),
                (Look(1), Done),
                (Take(2), No),
                (Publish(1), Reply(STORED)),
                (Take(2), No),
                (Put(1), Done),
                (Take(2), Done),
                (Enter(2), Done),
                (Look(2), Left(1)),
            ],
        ],
    },
    // A copier inside the fallback keeps the closer out until it has left; then nothing is left.
    Schedule {
        shows: "a copier before a closer",
        workers: 2,
        vnodes: 1,
        parts: &[
            DIVERT,
            WRITE,
            &[
                (Copy(1, 0), Done),
                (Close(2, 0), Done),
                (Enter(1), Done),
                (Take(2), No),
                (Look(1), Done),
                (Take(2), No),
                (Take(1), Done),
                (Take(2), No),
                (Look(1), Done),
                (Publish(1), Copied),
                (Take(2), No),
                (Put(1), Done),
                (Take(2), No),
                (Leave(1), Done),
                (Take(2), Done),
                (Enter(2), Done),
                (Look(2), Done),
                (Publish(2), Done),
            ],
        ],
    },
    // The closer has the fallback's state: the copier doesn't come in, and the key is left. It is copied once the closer is done.
    Schedule {
        shows: "a closer before a copier",
        workers: 2,
        vnodes: 1,
        parts: &[
            DIVERT,
            WRITE,
            &[
                (Close(2, 0), Done),
                (Copy(1, 0), Done),
                (Take(2), Done),
                (Enter(1), No),
                (Enter(2), Done),
                (Enter(1), No),
                (Look(2), Left(1)),
                (Leave(2), Done),
                (Enter(1), No),
                (Put(2), Done),
                (Enter(1), Done),
                (Look(1), Done),
                (Take(1), Done),
                (Look(1), Done),
                (Publish(1), Copied),
            ],
        ],
    },
    // Two closers: the one waits for the other, and finds nothing left and the fallback closed.
    Schedule {
        shows: "two closers",
        workers: 2,
        vnodes: 1,
        parts: &[
            DIVERT,
            &[
                (Close(1, 0), Done),
                (Close(2, 0), Done),
                (Take(2), Done),
                (Take(1), No),
                (Enter(2), Done),
                (Look(2), Done),
                (Take(1), No),
                (Publish(2), Done),
                (Leave(2), Done),
                (Take(1), No),
                (Put(2), Done),
                (Take(1), Done),
                (Enter(1), Done),
                (Look(1), Elsewhere),
            ],
        ],
    },
    // A closer that is late is a reader at the primary beside those whom the calls go to again: it doesn't come in while a writer
    // has marked or has the state there, and no writer takes the state while it is inside.
    Schedule {
        shows: "a late closer and a writer at the primary",
        workers: 3,
        vnodes: 1,
        parts: &[
            DIVERT,
            &[(Close(3, 0), Done)],
            CLOSE,
            &[
                (Ask(1, 0, PUT_V), Done),
                (Take(3), Done),
                (Mark(1), Done),
                (Enter(3), No),
                (Take(1), Done),
                (Enter(3), No),
                (Look(1), Done),
                (Publish(1), Reply(STORED)),
                (Put(1), Done),
                (Enter(3), Done),
                (Ask(1, 0, PUT_V), Done),
                (Take(1), No),
                (Look(3), Elsewhere),
                (Take(1), No),
                (Leave(3), Done),
                (Take(1), Done),
                (Put(3), Done),
            ],
        ],
    },
];

/// Diversions one after another.
const AGAIN: &[Schedule] = &[
    // The second fallback has nothing of the first; its lives begin behind that one's epoch 1. What came from both stands beside the
    // primary's own value.
    Schedule {
        shows: "epochs go on in the second fallback",
        workers: 2,
        vnodes: 1,
        parts: &[
            WRITE,
            DIVERT,
            WRITE,
            COPY,
            CLOSE,
            DIVERT,
            &[(Divert(0), No)],
            reads!(ABSENT),
            WRITE,
            reads!(SHOWS_V_AT_SECOND),
            finds_left!(1),
            COPY,
            CLOSE,
            reads!(SHOWS_THREE),
        ],
    },
    // The put has seen the values of all sides, and stands alone.
    Schedule {
        shows: "a put behind a second return, by what is shown there",
        workers: 2,
        vnodes: 1,
        parts: &[
            WRITE,
            DIVERT,
            WRITE,
            COPY,
            CLOSE,
            DIVERT,
            WRITE,
            COPY,
            CLOSE,
            reads!(SHOWS_THREE),
            writes!(1, PUT_W_BY_THREE, STORED_W_ALONE),
        ],
    },
    // Its context was shown before the second diversion: what that fallback wrote stays.
    Schedule {
        shows: "a put behind a second return, by what was shown before it",
        workers: 2,
        vnodes: 1,
        parts: &[
            WRITE,
            DIVERT,
            WRITE,
            COPY,
            CLOSE,
            reads!(SHOWS_BOTH),
            DIVERT,
            WRITE,
            COPY,
            CLOSE,
            writes!(1, PUT_W_BY_BOTH, STORED_W_BESIDE_V),
        ],
    },
    // The delete has seen what came, too. The key is dead, and forgotten; its next life has the vnode's epoch 2, and nothing of either
    // fallback.
    Schedule {
        shows: "a delete and a reap behind a second return",
        workers: 2,
        vnodes: 1,
        parts: &[
            WRITE,
            DIVERT,
            WRITE,
            COPY,
            CLOSE,
            DIVERT,
            WRITE,
            COPY,
            CLOSE,
            writes!(1, DELETE, DELETED),
            reads!(ABSENT),
            &[
                (Reap(1, 0), Done),
                (Take(1), Done),
                (Look(1), Done),
                (Publish(1), Reaped),
                (Put(1), Done),
            ],
            WRITE,
            reads!(SHOWS_V_IN_LIFE_TWO),
        ],
    },
    // The primary has written nothing itself; what the second fallback wrote makes the key present there.
    Schedule {
        shows: "a put is refused behind a second return",
        workers: 2,
        vnodes: 1,
        parts: &[
            DIVERT,
            CLOSE,
            DIVERT,
            WRITE,
            COPY,
            CLOSE,
            &[
                (Ask(1, 0, PUT_V_IF_NONE), Done),
                (Take(1), Done),
                (Look(1), Reply(MATCH_FOUND)),
                (Put(1), Done),
            ],
            reads!(SHOWS_V_AT_FALLBACK),
        ],
    },
    // The first fallback gave no epoch, so that the second begins with 1.
    Schedule {
        shows: "epochs that weren't given are given by the next fallback",
        workers: 2,
        vnodes: 1,
        parts: &[DIVERT, CLOSE, DIVERT, WRITE, reads!(SHOWS_V_AT_FALLBACK)],
    },
    // Partition 1 is closed and diverted again; partition 0 stays diverted.
    Schedule {
        shows: "a close is one partition's",
        workers: 1,
        vnodes: 2,
        parts: &[&[
            (Divert(0), Done),
            (Close(1, 1), No),
            (Divert(1), Done),
            (Close(1, 1), Done),
            (Divert(0), No),
            (Take(1), Done),
            (Enter(1), Done),
            (Look(1), Done),
            (Publish(1), Done),
            (Leave(1), Done),
            (Divert(1), No),
            (Put(1), Done),
            (Divert(0), No),
            (Close(1, 1), No),
            (Divert(1), Done),
            (Close(1, 0), Done),
        ]],
    },
];

#[test]
fn a_closer_and_others_come_to_their_outcomes(rt: HostRuntime) {
    all_play(&rt, rt.alloc(), BESIDE);
}

#[test]
fn diversions_follow_one_another(rt: HostRuntime) {
    all_play(&rt, rt.alloc(), AGAIN);
}

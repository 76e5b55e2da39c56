//! What schedules are made of: what a worker does from its call to the end of it, step by step.

use crate::messages::{PUT_V, STORED};
use crate::steps::playing::{Act, Wanted, come_to, world_of};
use std::alloc::Global;
use std::process::Abort;

/// Steps of a world, each with what comes of it.
pub struct Schedule {
    pub shows: &'static str,
    pub workers: u16,
    pub vnodes: u16,
    pub parts: &'static [&'static [(Act, Wanted)]],
}

// A worker is asked a write at partition 0, to which this is the reply.
macro_rules! writes {
    ($worker:expr, $request:expr, $reply:expr) => {
        &[
            (Act::Ask($worker, 0, $request), Wanted::Done),
            (Act::Take($worker), Wanted::Done),
            (Act::Look($worker), Wanted::Done),
            (Act::Publish($worker), Wanted::Reply($reply)),
            (Act::Put($worker), Wanted::Done),
        ]
    };
}

// Worker 1 is asked to get b/k at partition 0, to which this is the reply.
macro_rules! reads {
    ($reply:expr) => {
        &[
            (Act::Ask(1, 0, GET), Wanted::Done),
            (Act::Enter(1), Wanted::Done),
            (Act::Look(1), Wanted::Reply($reply)),
            (Act::Leave(1), Wanted::Done),
        ]
    };
}

// Worker 2 is to close the fallback, and finds so many keys left there.
macro_rules! finds_left {
    ($keys:expr) => {
        &[
            (Act::Close(2, 0), Wanted::Done),
            (Act::Take(2), Wanted::Done),
            (Act::Enter(2), Wanted::Done),
            (Act::Look(2), Wanted::Left($keys)),
            (Act::Leave(2), Wanted::Done),
            (Act::Put(2), Wanted::Done),
        ]
    };
}

pub(crate) use finds_left;
pub(crate) use reads;
pub(crate) use writes;

/// Partition 0 is diverted.
pub const DIVERT: &[(Act, Wanted)] = &[(Act::Divert(0), Wanted::Done)];

/// Worker 1 puts "v" under b/k, where the calls go.
pub const WRITE: &[(Act, Wanted)] = writes!(1, PUT_V, STORED);

/// Worker 1 copies b/k back.
pub const COPY: &[(Act, Wanted)] = &[
    (Act::Copy(1, 0), Wanted::Done),
    (Act::Enter(1), Wanted::Done),
    (Act::Look(1), Wanted::Done),
    (Act::Take(1), Wanted::Done),
    (Act::Look(1), Wanted::Done),
    (Act::Publish(1), Wanted::Copied),
    (Act::Put(1), Wanted::Done),
    (Act::Leave(1), Wanted::Done),
];

/// Worker 2 closes the fallback, where nothing is left.
pub const CLOSE: &[(Act, Wanted)] = &[
    (Act::Close(2, 0), Wanted::Done),
    (Act::Take(2), Wanted::Done),
    (Act::Enter(2), Wanted::Done),
    (Act::Look(2), Wanted::Done),
    (Act::Publish(2), Wanted::Done),
    (Act::Leave(2), Wanted::Done),
    (Act::Put(2), Wanted::Done),
];

/// Whether a row holds.
fn plays(alloc: Global, row: &Schedule) -> bool {
    let Ok(mut world) = world_of(alloc, row.workers, row.vnodes) else {
        return false;
    };
    for steps in row.parts {
        if !come_to(&mut world, alloc, steps) {
            return false;
        }
    }
    true
}

/// Each row holds.
pub fn all_play(rt: &impl Abort, alloc: Global, rows: &[Schedule]) {
    for row in rows {
        assert!(rt; plays(alloc, row), "{}", row.shows);
    }
}

//! Schedules with copiers, and one in which a copy is stuck.

use crate::messages::{GET, PUT_V, STORED};
use crate::steps::parts::{DIVERT, Schedule, WRITE, all_play};
use crate::steps::playing::{Act, Wanted, come_to, world_of};
use Act::{Ask, Copy, Divert, Enter, Leave, Look, Mark, Publish, Put, Take};
use Wanted::{Copied, Done, Kept, No, Reply, Stuck};
use node_steps::World;
use std::alloc::Global;
use std::process::Abort;

const SCHEDULES: &[Schedule] = &[
    // Nothing is copied before the partition is diverted, nor twice at once by one worker. A copier enters, looks, takes, looks,
    // publishes, puts and leaves, in this order alone.
    Schedule {
        shows: "each line of a copier, and those that aren't possible",
        workers: 1,
        vnodes: 1,
        parts: &[&[
            (Copy(1, 0), No),
            (Divert(0), Done),
            (Copy(1, 1), No),
            (Copy(2, 0), No),
            (Ask(1, 0, PUT_V), Done),
            (Copy(1, 0), No),
            (Take(1), Done),
            (Look(1), Done),
            (Publish(1), Reply(STORED)),
            (Put(1), Done),
            (Copy(1, 0), Done),
            (Copy(1, 0), No),
            (Ask(1, 0, GET), No),
            (Mark(1), No),
            (Take(1), No),
            (Look(1), No),
            (Enter(1), Done),
            (Enter(1), No),
            (Take(1), No),
            (Leave(1), No),
            (Look(1), Done),
            (Look(1), No),
            (Leave(1), No),
            (Publish(1), No),
            (Take(1), Done),
            (Publish(1), No),
            (Put(1), No),
            (Leave(1), No),
            (Look(1), Done),
            (Look(1), No),
            (Put(1), No),
            (Publish(1), Copied),
            (Publish(1), No),
            (Leave(1), No),
            (Put(1), Done),
            (Take(1), No),
            (Leave(1), Done),
            (Leave(1), No),
            (Ask(1, 0, GET), Done),
        ]],
    },
    Schedule {
        shows: "a key that the fallback doesn't hold is kept",
        workers: 1,
        vnodes: 1,
        parts: &[
            DIVERT,
            &[
                (Copy(1, 0), Done),
                (Enter(1), Done),
                (Look(1), Kept),
                (Look(1), No),
                (Take(1), No),
                (Put(1), No),
                (Leave(1), Done),
                (Leave(1), No),
            ],
        ],
    },
    // 1 marks, so that the copier can't enter, and takes; the copier can't enter while it is taken. Then the copier is inside, and
    // 1 can't take until it has left, though it is at the primary meanwhile.
    Schedule {
        shows: "a copier and a writer",
        workers: 2,
        vnodes: 1,
        parts: &[
            DIVERT,
            &[
                (Copy(2, 0), Done),
                (Ask(1, 0, PUT_V), Done),
                (Mark(1), Done),
                (Enter(2), No),
                (Take(1), Done),
                (Enter(2), No),
                (Look(1), Done),
                (Publish(1), Reply(STORED)),
                (Put(1), Done),
                (Enter(2), Done),
                (Ask(1, 0, PUT_V), Done),
                (Take(1), No),
                (Look(2), Done),
                (Take(2), Done),
                (Take(1), No),
                (Look(2), Done),
                (Publish(2), Copied),
                (Put(2), Done),
                (Take(1), No),
                (Leave(2), Done),
                (Take(1), Done),
            ],
        ],
    },
    // Both have the key's clock; the second finds the first one's copy at the primary, and its own changes nothing.
    Schedule {
        shows: "two copiers of one key",
        workers: 2,
        vnodes: 1,
        parts: &[
            DIVERT,
            WRITE,
            &[
                (Copy(1, 0), Done),
                (Copy(2, 0), Done),
                (Enter(1), Done),
                (Enter(2), Done),
                (Look(1), Done),
                (Look(2), Done),
                (Take(1), Done),
                (Take(2), No),
                (Look(1), Done),
                (Publish(1), Copied),
                (Take(2), No),
                (Put(1), Done),
                (Take(2), Done),
                (Look(2), Done),
                (Publish(2), Copied),
                (Put(2), Done),
                (Leave(2), Done),
                (Leave(1), Done),
            ],
        ],
    },
];

#[test]
fn each_step_of_a_copier_comes_to_its_outcome(rt: HostRuntime) {
    all_play(&rt, rt.alloc(), SCHEDULES);
}

/// A copier that finds its copy stuck has the primary's state still to put back, and then to leave.
const STUCK: &[(Act, Wanted)] = &[
    (Copy(1, 0), Done),
    (Enter(1), Done),
    (Look(1), Done),
    (Take(1), Done),
    (Look(1), Stuck),
    (Publish(1), No),
    (Leave(1), No),
    (Put(1), Done),
    (Put(1), No),
    (Leave(1), Done),
    (Leave(1), No),
];

/// So many puts.
fn writes(world: &mut World, alloc: Global, times: u16) -> bool {
    for _ in 0..times {
        if !come_to(world, alloc, WRITE) {
            return false;
        }
    }
    true
}

/// A key with 33 siblings at the primary and 32 at the fallback would have 65: its copy is stuck.
fn sticks(alloc: Global) -> bool {
    match world_of(alloc, 1, 1) {
        Ok(mut world) => {
            writes(&mut world, alloc, 33)
                && come_to(&mut world, alloc, DIVERT)
                && writes(&mut world, alloc, 32)
                && come_to(&mut world, alloc, STUCK)
        }
        Err(_) => false,
    }
}

#[test]
fn a_copy_of_too_many_siblings_is_stuck(rt: HostRuntime) {
    let alloc = rt.alloc();
    assert!(rt; sticks(alloc), "33 siblings and 32 are too many");
}

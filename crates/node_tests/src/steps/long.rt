//! Schedules whose steps are taken hundreds and thousands of times.

use crate::messages::{DELETE, DELETED, GET, Message, SHOWS_V, STORED};
use crate::steps::parts::{CLOSE, DIVERT, WRITE, reads, writes};
use crate::steps::playing::{Act, Wanted, come_to, world_of};
use node_steps::World;
use std::alloc::Global;
use std::process::Abort;

/// Steps of two workers at one vnode that are taken so many times, and what comes behind them.
struct Long {
    shows: &'static str,
    times: u32,
    again: &'static [&'static [(Act, Wanted)]],
    last: &'static [&'static [(Act, Wanted)]],
}

/// The reply to a get that shows "v", the first write of the vnode's epoch 1,101, and its context.
const SHOWS_V_OF_LATER_EPOCH: Message = Message {
    code: 10,
    body: b"\x0a\x03\x0a\x01v\x12\x15\x02\0\0\0\0\0\x01\0\0\0\0\x04M\0\0\0\0\0\0\0\x01",
};

/// Worker 1 has the dead key forgotten.
const REAP: &[(Act, Wanted)] = &[
    (Act::Reap(1, 0), Wanted::Done),
    (Act::Take(1), Wanted::Done),
    (Act::Look(1), Wanted::Done),
    (Act::Publish(1), Wanted::Reaped),
    (Act::Put(1), Wanted::Done),
];

const LONG: &[Long] = &[
    Long {
        shows: "a key lives 1,100 times, and then once more",
        times: 1_100,
        again: &[WRITE, writes!(1, DELETE, DELETED), REAP],
        last: &[WRITE, reads!(SHOWS_V_OF_LATER_EPOCH)],
    },
    Long {
        shows: "a partition is diverted 2,100 times, and its primary answers behind that",
        times: 2_100,
        again: &[DIVERT, CLOSE],
        last: &[WRITE, reads!(SHOWS_V)],
    },
];

/// Whether each of these parts comes to what is wanted.
fn parts_come(world: &mut World, alloc: Global, parts: &[&[(Act, Wanted)]]) -> bool {
    for steps in parts {
        if !come_to(world, alloc, steps) {
            return false;
        }
    }
    true
}

/// Whether a row holds.
fn plays(alloc: Global, row: &Long) -> bool {
    let Ok(mut world) = world_of(alloc, 2, 1) else {
        return false;
    };
    for _ in 0..row.times {
        if !parts_come(&mut world, alloc, row.again) {
            return false;
        }
    }
    parts_come(&mut world, alloc, row.last)
}

#[test]
fn many_times_are_as_few(rt: HostRuntime) {
    for row in LONG {
        assert!(rt; plays(rt.alloc(), row), "{}", row.shows);
    }
}

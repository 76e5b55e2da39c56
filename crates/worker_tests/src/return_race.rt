//! Two threads copy the keys of a fallback back, one by one, while a third ends the diversion as soon as it can.
use crate::diversions::divert;
use crate::exchanges::new_shared;
use crate::playing::play;
use crate::returns::forty::{GETS_FORTY, PUTS_FORTY};
use crate::returns::{Finish, try_finish};
use gate_node::{Open, Shared};
use handoff::{Handoff, HandoffFault};
use std::alloc::Global;
use std::process::Abort;
use std::sync::Wait;
use std::test::*;
use std::thread;
use std::thread::{Threads, map_indices};

/// How many calls a thread makes at most: many times what the race takes, and few enough that a thread whose partners
/// were refused memory gives up within seconds.
const CALLS: u32 = 100_000;

/// How often another thread may run before the end of the diversion is tried again.
const YIELDS: u32 = 50;

/// How often forty keys come back so.
const ROUNDS: u32 = 2;

/// Copies one key, again and again, until the fallback is found closed, and lets other threads run between. Whether that
/// came to be.
fn copy_until_closed<W: Wait>(rt: &W, alloc: Global, handoff: &Handoff) -> bool {
    for _ in 0..CALLS {
        match handoff.copy_back(rt, alloc, 0, 1) {
            Ok(_) => thread::yield_now(),
            Err(HandoffFault::NotDiverted(Some(_))) => return true,
            Err(_) => return false,
        }
    }
    false
}

/// Lets other threads run: between two attempts to end a diversion, since each stops all copies.
fn pause() {
    for _ in 0..YIELDS {
        thread::yield_now();
    }
}

/// Tries to end the diversion, again and again, while keys are left over. Whether it was ended.
fn finish_until_returned<W: Wait>(rt: &W, alloc: Global, handoff: &Handoff) -> bool {
    for _ in 0..CALLS {
        match try_finish(rt, alloc, handoff, 0) {
            Some(Finish::Returned) => return true,
            Some(Finish::LeftOver) => pause(),
            _ => return false,
        }
    }
    false
}

/// Two threads copy while a third ends the diversion. Whether each of them came to its end.
fn race<R: Threads + Wait + Sync>(rt: &R, alloc: Global, shared: &Shared) -> bool {
    let handoff = shared.handoff();
    let all = map_indices(
        rt,
        alloc,
        3,
        &|index| match index {
            0 => finish_until_returned(rt, alloc, handoff),
            _ => copy_until_closed(rt, alloc, handoff),
        },
    );
    match all {
        Ok(all) => all.as_slice() == [true, true, true].as_slice(),
        Err(_) => false,
    }
}

/// Whether forty keys that were put at a fallback are all at the primary, once three threads have ended the diversion.
fn returns_forty<R: Threads + Wait + Sync>(rt: &R, alloc: Global) -> bool {
    let Some(shared) = new_shared(alloc, 1, 0) else {
        return false;
    };
    match divert(alloc, shared, 0, 0) {
        Some(shared) => {
            play(rt, alloc, &shared, &Open, PUTS_FORTY)
                && race(rt, alloc, &shared)
                && play(rt, alloc, &shared, &Open, GETS_FORTY)
        }
        None => false,
    }
}

#[test]
fn copies_and_ends_do_not_wait_for_each_other(rt: HostRuntime) {
    for _ in 0..ROUNDS {
        assert!(rt; returns_forty(&rt, rt.alloc()));
    }
}

//! Clocks of one actor and of several, at their limits, and with the memory that they take.

mod answers;
mod steps;

use crate::actors::{A, B};
use crate::clocks::steps::Step::{Event, Overwrite, Put};
use crate::clocks::steps::{Step, takes_all};
use dvv_set::Clock;
use std::alloc::Global;

/// The bytes of the context (A, 1), of version 1 as all but those that name another.
const SEEN_1: &[u8] = b"\x01\0\0\0\0\0\x01\0\0\0\0\0\x01\0\0\0\x01";

/// Of version 2.
const SEEN_2: &[u8] = b"\x02\0\0\0\0\0\x01\0\0\0\0\0\x01\0\0\0\0\0\0\0\x02";

const SEEN_3: &[u8] = b"\x01\0\0\0\0\0\x01\0\0\0\0\0\x01\0\0\0\x03";

const SEEN_ALL_BUT_ONE: &[u8] = b"\x02\0\0\0\0\0\x01\0\0\0\0\0\x01\xff\xff\xff\xff\xff\xff\xff\xfe";

const SEEN_ALL: &[u8] = b"\x02\0\0\0\0\0\x01\0\0\0\0\0\x01\xff\xff\xff\xff\xff\xff\xff\xff";

/// The greatest counter of version 1.
const SEEN_MANY: &[u8] = b"\x01\0\0\0\0\0\x01\0\0\0\0\0\x01\xff\xff\xff\xff";

/// The bytes of the context (A, 1), (C, 1), (D, 3).
const SEEN_A_C_D: &[u8] = b"\x01\
    \0\0\0\0\0\x01\0\0\0\0\0\x01\0\0\0\x01\
    \0\0\0\0\0\x01\0\x01\0\0\0\x01\0\0\0\x01\
    \0\0\0\0\0\x01\0\x01\0\0\0\x02\0\0\0\x03";

/// Whether one allocation can be made after steps.
fn allocates_after(alloc: Global, steps: &[Step]) -> bool {
    let mut clock = Clock::new(alloc);
    takes_all(&mut clock, steps) && Vec::<u8>::with_capacity(alloc, 1).is_ok()
}

const EVENTS: &[Step] = &[Event(A, b'v'), Event(A, b'w')];

// Two values of one actor have places in the clock. So where the first allocation of this test is refused, it is the one
// that is made at the end, and the test fails.
#[test]
fn a_clock_of_one_actor_takes_no_memory(rt: HostRuntime) {
    assert!(rt; allocates_after(rt.alloc(), EVENTS));
}

const OF_TWO: &[Step] = &[Event(B, b'p'), Event(A, b'v'), Event(A, b'w')];

// One allocation is the room of a second actor's entry. So where the second of this test is refused, it is the one that is
// made at the end, and the test fails; where the first is, the room is made again.
#[test]
fn a_second_actor_takes_memory_once(rt: HostRuntime) {
    assert!(rt; allocates_after(rt.alloc(), OF_TWO));
}

const OVERWRITE: &[Step] = &[Event(A, b'v'), Event(A, b'w'), Overwrite(A, b't')];

// One allocation is the room of a third value, and to put it takes none. So where the second of this test is refused, it is
// the one that is made at the end, and the test fails; where the first is, the room is made again.
#[test]
fn an_overwrite_takes_no_memory(rt: HostRuntime) {
    assert!(rt; allocates_after(rt.alloc(), OVERWRITE));
}

const PUT: &[Step] = &[Event(A, b'v'), Event(A, b'w'), Put(SEEN_1, A, Some(b'x'))];

// The same of a put by a context of the first value.
#[test]
fn a_put_takes_no_memory(rt: HostRuntime) {
    assert!(rt; allocates_after(rt.alloc(), PUT));
}

//! Callers that wait for a gate: a reader and a writer at once, a writer whose mark is taken away, and marks that four threads set and take.
use rw_gate::counter::GatedCounter;
use rw_gate::{Gate, ReadRight};
use std::alloc::Global;
use std::process::Abort;
use std::rt::Clock;
use std::sync::Wait;
use std::sync::atomic::{AtomicU64, Ordering};
use std::test::*;
use std::thread;
use std::thread::{Threads, map_indices};
use std::time::Duration;

/// How many pauses are made for another thread at most.
const PAUSES: u32 = 10_000;

/// How many pauses a thread that has begun has, in which it comes to wait.
const PAUSES_TO_WAIT: u32 = 20;

/// How far the threads of a meeting are.
#[derive(Drop)]
struct Meeting {
    /// How many of the others may begin.
    let_in: AtomicU64,
    /// How many have begun.
    begun: AtomicU64,
    /// How many had their right, and gave it back.
    served: AtomicU64,
}

/// One that nobody has come to.
fn new_meeting() -> Meeting {
    Meeting {
        let_in: AtomicU64::new(0),
        begun: AtomicU64::new(0),
        served: AtomicU64::new(0),
    }
}

/// Lets other threads run for a millisecond.
fn pause<C: Clock>(rt: &C) {
    thread::sleep(rt, Duration::from_millis(1));
}

/// Whether a number comes to be so great.
fn comes_to<C: Clock>(rt: &C, number: &AtomicU64, least: u64) -> bool {
    for _ in 0..PAUSES {
        if number.load(Ordering::SeqCst) >= least {
            return true;
        }
        pause(rt);
    }
    false
}

/// Lets one more begin, and come to wait for its right. Whether it has begun.
fn lets_one_wait<C: Clock>(rt: &C, meeting: &Meeting, number: u64) -> bool {
    meeting.let_in.store(number, Ordering::SeqCst);
    if !comes_to(rt, &meeting.begun, number) {
        return false;
    }
    for _ in 0..PAUSES_TO_WAIT {
        pause(rt);
    }
    true
}

/// Begins to wait as the one of this number, where that may.
fn begin<C: Clock>(rt: &C, meeting: &Meeting, number: u64) {
    let _is_let_in = comes_to(rt, &meeting.let_in, number);
    meeting.begun.store(number, Ordering::SeqCst);
}

/// Lets both begin, and takes marks away, so that a reader comes in, until both were served.
fn let_both_go<C: Clock>(rt: &C, gate: &Gate<GatedCounter>, meeting: &Meeting) {
    meeting.let_in.store(2, Ordering::SeqCst);
    for _ in 0..PAUSES {
        if meeting.served.load(Ordering::SeqCst) >= 2 {
            return;
        }
        gate.unmark();
        pause(rt);
    }
}

/// Gives a right to read back, where it was had.
fn gives_back(right: Option<ReadRight<'_, GatedCounter>>) -> bool {
    match right {
        Some(right) => {
            right.release();
            true
        }
        None => false,
    }
}

/// Reads, and marks the state; leaves when a reader, and then a writer, wait. Whether both are served then.
fn leave_both<C: Clock>(rt: &C, gate: &Gate<GatedCounter>, meeting: &Meeting) -> bool {
    let right = gate.try_read();
    let is_marked = gate.mark();
    let are_waiting = lets_one_wait(rt, meeting, 1) && lets_one_wait(rt, meeting, 2);
    let has_read = gives_back(right);
    if are_waiting && comes_to(rt, &meeting.served, 2) {
        return has_read && is_marked;
    }
    let_both_go(rt, gate, meeting);
    false
}

/// Waits for a right to read, as the first that begins.
fn read_once<W: Clock + Wait>(rt: &W, gate: &Gate<GatedCounter>, meeting: &Meeting) -> bool {
    begin(rt, meeting, 1);
    gate.read(rt).release();
    meeting.served.fetch_add(1, Ordering::SeqCst);
    true
}

/// Waits for a right to write, as the second that begins.
fn write_once<W: Clock + Wait>(rt: &W, gate: &Gate<GatedCounter>, meeting: &Meeting) -> bool {
    begin(rt, meeting, 2);
    gate.write(rt).release();
    meeting.served.fetch_add(1, Ordering::SeqCst);
    true
}

/// Whether a reader and a writer that wait beside a reader are both served once it leaves.
fn are_served<R: Clock + Threads + Wait + Sync>(
    rt: &R,
    alloc: Global,
    gate: &Gate<GatedCounter>,
    meeting: &Meeting,
) -> bool {
    let all = map_indices(
        rt,
        alloc,
        3,
        &|at| match at {
            0 => leave_both(rt, gate, meeting),
            1 => read_once(rt, gate, meeting),
            _ => write_once(rt, gate, meeting),
        },
    );
    match all {
        Ok(all) => all.as_slice() == [true, true, true].as_slice(),
        Err(_) => false,
    }
}

/// The same at a new gate.
fn are_served_anew<R: Clock + Threads + Wait + Sync>(rt: &R, alloc: Global) -> bool {
    match Gate::new(alloc, GatedCounter { value: 0 }) {
        Ok(gate) => are_served(rt, alloc, &gate, &new_meeting()),
        Err(_) => false,
    }
}

// The writer has to end the mark for which the reader waits: so it isn't kept out by that reader.
#[test]
fn a_reader_and_a_writer_that_wait_are_both_served(rt: HostRuntime) {
    assert!(rt; are_served_anew(&rt, rt.alloc()));
}

/// How often a writer that waits is to mark the state.
const MARKS: u32 = 50;

/// Takes the marks of a writer that waits away, and counts them.
fn take_marks<C: Clock>(rt: &C, gate: &Gate<GatedCounter>) -> u32 {
    let mut marks = 0u32;
    for _ in 0..PAUSES {
        if gate.unmark() {
            marks = marks.saturating_add(1);
        }
        if marks == MARKS {
            return marks;
        }
        pause(rt);
    }
    marks
}

/// Reads while a writer waits, whose marks it takes away. Whether they are so many.
fn read_beside_writer<C: Clock>(rt: &C, gate: &Gate<GatedCounter>, meeting: &Meeting) -> bool {
    let right = gate.try_read();
    meeting.let_in.store(2, Ordering::SeqCst);
    match right {
        Some(right) => {
            let marks = take_marks(rt, gate);
            right.release();
            marks == MARKS
        }
        None => false,
    }
}

/// Whether a writer that waits beside a reader marks the state as often as the mark is taken away.
fn is_marked_again<R: Clock + Threads + Wait + Sync>(
    rt: &R,
    alloc: Global,
    gate: &Gate<GatedCounter>,
    meeting: &Meeting,
) -> bool {
    let all = map_indices(
        rt,
        alloc,
        2,
        &|at| match at {
            0 => read_beside_writer(rt, gate, meeting),
            _ => write_once(rt, gate, meeting),
        },
    );
    match all {
        Ok(all) => all.as_slice() == [true, true].as_slice(),
        Err(_) => false,
    }
}

/// The same at a new gate.
fn is_marked_again_anew<R: Clock + Threads + Wait + Sync>(rt: &R, alloc: Global) -> bool {
    match Gate::new(alloc, GatedCounter { value: 0 }) {
        Ok(gate) => is_marked_again(rt, alloc, &gate, &new_meeting()),
        Err(_) => false,
    }
}

#[test]
fn a_writer_that_waits_marks_again(rt: HostRuntime) {
    assert!(rt; is_marked_again_anew(&rt, rt.alloc()));
}

/// How often each of four threads tries to mark the state, and to take the mark away.
const TRIES: u32 = 100_000;

/// Marks and unmarks: how many more marks were set than taken, modulo 2^64, if all of them were as it was said.
fn mark_and_unmark(gate: &Gate<GatedCounter>) -> u64 {
    let mut marks = 0u64;
    for _ in 0..TRIES {
        if gate.mark() {
            marks = marks.wrapping_add(1);
        }
        if gate.unmark() {
            marks = marks.wrapping_sub(1);
        }
    }
    marks
}

/// The sum, modulo 2^64.
fn sum_of(numbers: &[u64]) -> u64 {
    let mut sum = 0u64;
    for number in numbers {
        sum = sum.wrapping_add(*number);
    }
    sum
}

/// Whether the marks of four threads are as many as were taken away, but for one that is there in the end.
fn are_counted<R: Threads + Wait + Sync>(rt: &R, alloc: Global, gate: &Gate<GatedCounter>) -> bool {
    match map_indices(rt, alloc, 4, &|_| mark_and_unmark(gate)) {
        Ok(all) => sum_of(all.as_slice()) == u64::from(gate.unmark()),
        Err(_) => false,
    }
}

/// The same at a new gate.
fn are_counted_anew<R: Threads + Wait + Sync>(rt: &R, alloc: Global) -> bool {
    match Gate::new(alloc, GatedCounter { value: 0 }) {
        Ok(gate) => are_counted(rt, alloc, &gate),
        Err(_) => false,
    }
}

// Of two calls that come to one word at once, one says that it did nothing.
#[test]
fn each_mark_is_set_once_and_taken_once(rt: HostRuntime) {
    assert!(rt; are_counted_anew(&rt, rt.alloc()));
}

//! What is done to a clock, each step tried again where memory is refused.

ghost use Rattle.std.specs.Prelude.{OnOk};
ghost use Rattle.dvv_set.specs.Held.{IsSyncReady};

use actor_epoch::{Actor, Context, Counter};
use dvv_set::{Clock, ClockFault, CloneValue, Rejected};
use std::alloc::{AllocError, Global};

/// What is done to a clock.
#[derive(Drop)]
pub enum Step {
    /// An event at an actor, with its value.
    Event(Actor, u8),
    /// What a context saw is forgotten.
    Discard(&'static [u8]),
    /// Room is made for a value at an actor behind a context (no bytes: none), and the value takes the place of what the
    /// context saw. None: the room is left.
    Put(&'static [u8], Actor, Option<u8>),
    /// Room is made, and a value at an actor takes the place of all.
    Overwrite(Actor, u8),
}

use Step::{Discard, Event, Overwrite, Put};

/// What comes of a step. None as the fault: its context is malformed, or the value that is refused doesn't come back.
type Taken = Result<(), Option<ClockFault>>;

pub fn event(clock: &mut Clock<u8>, actor: Actor, value: u8) -> Taken {
    match clock.event(actor, value) {
        Ok(()) => Ok(()),
        Err(refused) if refused.value == value => Err(Some(refused.fault)),
        Err(_) => Err(None),
    }
}

fn discard(clock: &mut Clock<u8>, bytes: &[u8]) -> Taken {
    match Context::read(bytes) {
        Some(context) => match clock.discard(&context) {
            Ok(()) => Ok(()),
            Err(fault) => Err(Some(fault)),
        },
        None => Err(None),
    }
}

fn put(clock: &mut Clock<u8>, bytes: &[u8], actor: Actor, value: Option<u8>) -> Taken {
    let Ok(context) = Context::given(bytes) else {
        return Err(None);
    };
    if let Err(fault) = clock.ready(context.as_ref(), actor) {
        return Err(Some(fault));
    }
    if let Some(value) = value {
        clock.put_ready(context.as_ref(), actor, value);
    }
    Ok(())
}

fn overwrite(clock: &mut Clock<u8>, actor: Actor, value: u8) -> Taken {
    match clock.ready(None, actor) {
        Ok(()) => {
            clock.overwrite_ready(actor, value);
            Ok(())
        }
        Err(fault) => Err(Some(fault)),
    }
}

fn try_step(clock: &mut Clock<u8>, step: &Step) -> Taken {
    match step {
        Event(actor, value) => event(clock, *actor, *value),
        Discard(bytes) => discard(clock, bytes),
        Put(bytes, actor, value) => put(clock, bytes, *actor, *value),
        Overwrite(actor, value) => overwrite(clock, *actor, *value),
    }
}

/// How many values a clock has.
pub fn count(clock: &Clock<u8>) -> u32 {
    let mut values = 0u32;
    for _ in clock.values() {
        values = values.saturating_add(1);
    }
    values
}

/// The pairs that a clock knows, and its values: the first so many of each.
#[derive(Drop)]
struct Held {
    pairs: [(Actor, Counter); 64],
    known: usize,
    values: [u8; 64],
    live: usize,
}

/// An actor that no clock knows.
const NOBODY: Actor = Actor { vnode: 0, epoch: 0 };

/// What a clock holds. It takes no memory.
fn held_by(clock: &Clock<u8>) -> Held {
    let mut pairs = [(NOBODY, 0); 64];
    let mut known = 0usize;
    for pair in clock.join() {
        if let Some(place) = pairs.get_mut(known) {
            *place = pair;
        }
        known = known.saturating_add(1);
    }
    let mut values = [0u8; 64];
    let mut live = 0usize;
    for value in clock.values() {
        if let Some(place) = values.get_mut(live) {
            *place = *value;
        }
        live = live.saturating_add(1);
    }
    Held {
        pairs,
        known,
        values,
        live,
    }
}

/// Whether a clock holds just this.
fn is_held(clock: &Clock<u8>, held: &Held) -> bool {
    match (held.pairs.get(..held.known), held.values.get(..held.live)) {
        (Some(pairs), Some(values)) => holds(clock, pairs, values),
        _ => false,
    }
}

/// Whether a step is taken. Where memory is refused, the clock holds the pairs and values of before; then once more.
fn takes(clock: &mut Clock<u8>, step: &Step) -> bool {
    let before = held_by(clock);
    match try_step(clock, step) {
        Ok(()) => true,
        Err(fault) => {
            fault == Some(ClockFault::NoMemory)
                && is_held(clock, &before)
                && try_step(clock, step).is_ok()
        }
    }
}

/// Whether all steps are taken.
pub fn takes_all(clock: &mut Clock<u8>, steps: &[Step]) -> bool {
    for step in steps {
        if !takes(clock, step) {
            return false;
        }
    }
    true
}

/// Whether a refused sync left both clocks as they were, for want of memory.
fn is_refused(
    clock: &Clock<u8>,
    before: &Held,
    refused: &Rejected<Clock<u8>>,
    other: &Held,
) -> bool {
    refused.fault == ClockFault::NoMemory
        && is_held(clock, before)
        && is_held(&refused.value, other)
}

/// How the value of a clock is copied.
struct CopyByte;

impl CloneValue<u8> for CopyByte {
    fn clone_value(value: &u8, alloc: Global) -> Result<u8, AllocError> {
        let _alloc = alloc;
        Ok(*value)
    }
}

/// A copy of a clock, tried twice where memory is refused.
fn copy_of(alloc: Global, clock: &Clock<u8>) -> Result<Clock<u8>, AllocError> {
    match clock.try_clone::<CopyByte>(alloc) {
        Err(_) => clock.try_clone::<CopyByte>(alloc),
        made => made,
    }
}

/// Room for a sync, tried twice where memory is refused.
fn reserve_sync(clock: &mut Clock<u8>, other: &Clock<u8>) -> Result<(), ClockFault>
    ensures { OnOk result (IsSyncReady clock.new other.now.meaning) }
{
    match clock.reserve_sync(other) {
        Ok(()) => Ok(()),
        Err(_) => clock.reserve_sync(other),
    }
}

/// Takes in another clock, in room that is made first.
fn takes_in_room(clock: &mut Clock<u8>, other: Clock<u8>) -> bool {
    match reserve_sync(clock, &other) {
        Ok(()) => {
            clock.sync_ready(other);
            true
        }
        Err(_) => false,
    }
}

/// Takes in another clock, and so does a copy of the clock, in room that is made first: both come to the same.
pub fn takes_in(alloc: Global, clock: &mut Clock<u8>, steps: &[Step]) -> bool {
    let Ok(mut copy) = copy_of(alloc, clock) else {
        return false;
    };
    let mut other = Clock::new(alloc);
    is_held(&copy, &held_by(clock))
        && takes_all(&mut other, steps)
        && takes_in_room(&mut copy, other)
        && takes_in_at_once(alloc, clock, steps)
        && is_held(clock, &held_by(&copy))
}

/// Takes in another clock, and again where memory is refused: then both are as before.
fn takes_in_at_once(alloc: Global, clock: &mut Clock<u8>, steps: &[Step]) -> bool {
    let mut other = Clock::new(alloc);
    if !takes_all(&mut other, steps) {
        return false;
    }
    let before = held_by(clock);
    let others = held_by(&other);
    match clock.sync(other) {
        Ok(()) => true,
        Err(refused) => {
            is_refused(clock, &before, &refused, &others) && clock.sync(refused.value).is_ok()
        }
    }
}

/// Whether so many actors of one vnode each take a value.
pub fn takes_crowd(clock: &mut Clock<u8>, actors: u32) -> bool {
    for epoch in 1..=actors {
        if !takes(clock, &Event(Actor { vnode: 9, epoch }, b'v')) {
            return false;
        }
    }
    true
}

/// Whether a clock knows just these pairs, and has just these values.
pub fn holds(clock: &Clock<u8>, pairs: &[(Actor, Counter)], values: &[u8]) -> bool {
    clock.join().eq(pairs.iter().copied()) && clock.values().eq(values)
}

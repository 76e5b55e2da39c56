//! The bound over all replies of a run that wait because sockets don't take them.

use crate::slots::{Patience, Slots};
use job_pool::MAX_STEPS_PER_TURN;
use std::alloc::Global;
use std::sync::Arc;
use std::sync::atomic::{AtomicUsize, Ordering};

/// How often it is looked at least whether connections that are set aside may go on, in milliseconds.
pub(crate) const ASIDE_MILLIS: u64 = 10;

/// Behind so many steps a turn ends at the next call of its socket, so that it needs no end elsewhere: no more than a few steps lie between two calls.
const MAX_STEPS: u32 = MAX_STEPS_PER_TURN - 16;

/// How many bytes of replies wait in a run, as all its workers count them together.
pub(crate) type WaitingBytes = Arc<AtomicUsize, Global>;

/// A bound, as one of the workers of a run keeps it.
#[derive(Drop)]
struct Bound {
    /// From how many bytes on no further reply is begun.
    most: u64,
    waiting: WaitingBytes,
}

/// The bound over all replies of a run that wait because sockets don't take them, if there is one: which turns it ends, and which it puts off.
///
/// Once replies of so many bytes wait, a connection of which none waits has no turn: it is set aside until fewer do. Those with replies that
/// wait go on as their sockets take them. A reply counts whole until the last of it is taken, since it keeps all its memory until then.
///
/// A turn ends only behind a step that has called the socket: what its connection holds then was handed to the system, and is counted as far as
/// that hasn't taken it. So behind each turn all is counted, and beside what the bound lets through each worker has the reply of one turn at most.
///
/// ```text
/// a bound of 1,000,000, and clients that read nothing. One asks for 600,000 bytes      they wait
/// another asks for 600,000 bytes                                                      they wait too: 600,000 are below the bound
/// a third asks for anything                                                           it is set aside until one of these has read, or is gone
/// ```
#[derive(Drop)]
pub(crate) struct RepliesBound {
    bound: Option<Bound>,
    /// Whether the turn is to end behind the next call of its socket.
    is_due: bool,
}

impl Bound {
    /// Whether no further reply is begun.
    fn is_reached(&self) -> bool {
        self.waiting.load(Ordering::Relaxed) as u64 >= self.most
    }

    /// So many bytes wait where so many did.
    fn note_change(&self, before: usize, now: usize) {
        if now > before {
            self.waiting.fetch_add(now - before, Ordering::Relaxed);
        } else if now < before {
            self.waiting.fetch_sub(before - now, Ordering::Relaxed);
        }
    }
}

impl RepliesBound {
    /// There is none.
    pub(crate) fn none() -> RepliesBound {
        RepliesBound {
            bound: None,
            is_due: false,
        }
    }

    /// A bound of so many bytes, where there is such a number, over what is counted there.
    pub(crate) fn of(most: Option<u64>, waiting: WaitingBytes) -> RepliesBound {
        let mut bound = None;
        if let Some(most) = most {
            bound = Some(Bound { most, waiting });
        }
        RepliesBound {
            bound,
            is_due: false,
        }
    }

    /// Whether no further reply is begun.
    pub(crate) fn is_reached(&self) -> bool {
        match &self.bound {
            Some(bound) => bound.is_reached(),
            None => false,
        }
    }

    /// Whether the turn of a slot is put off: no further reply is begun, none of its connection waits, and that isn't to end.
    pub(crate) fn puts_off(&self, slots: &Slots, slot: usize) -> bool {
        self.is_reached()
            && slots.waiting(slot) == 0
            && slots.patience(slot) == Some(Patience::Open)
    }

    /// A turn begins.
    pub(crate) fn begin_turn(&mut self) {
        self.is_due = false;
    }

    /// Whether the turn of a slot ends behind a step before which it had so many. `is_enough` where it has cost enough.
    pub(crate) fn ends_turn(
        &mut self,
        slots: &Slots,
        slot: usize,
        is_enough: bool,
        before: u32,
    ) -> bool {
        let Some(bound) = &self.bound else {
            return is_enough;
        };
        self.is_due = self.is_due || is_enough || before >= MAX_STEPS;
        slots.take_call(slot) && (self.is_due || (bound.is_reached() && slots.waiting(slot) == 0))
    }

    /// Counts what waits of the connection in a slot, behind its turn.
    pub(crate) fn count(&self, slots: &mut Slots, slot: usize) {
        if let Some(bound) = &self.bound {
            let (before, now) = slots.recount(slot);
            bound.note_change(before, now);
        }
    }
}

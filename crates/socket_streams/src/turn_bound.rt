//! When a turn has cost enough, though its connection could go on.

use crate::waiting::is_within;
use std::rt::Clock;
use std::time::Instant;

/// How many bytes are read and written in a turn before others have theirs: a turn moves no more than these, and what one call moves beside.
const MAX_BYTES: usize = 65_536;

/// How long a turn may take, in microseconds, before others have theirs.
const MAX_MICROS: u32 = 1_000;

/// Behind how many steps a turn's time begins: one that answers a single request takes seven, and so asks for no clock.
const UNTIMED_STEPS: u32 = 8;

/// Behind how many steps each the clock is looked at.
const LOOK_STEPS: u32 = 16;

/// When a turn has cost enough, though its connection could go on: it has moved 64 KiB, or a millisecond has gone by.
#[derive(Drop)]
pub(crate) struct TurnBound {
    /// When the turn's time began, where there is a clock.
    began: Option<Instant>,
}

impl TurnBound {
    /// No turn has begun.
    pub(crate) fn new() -> TurnBound {
        TurnBound { began: None }
    }

    /// Whether a turn has cost enough that has moved so many bytes, behind a step before which it had so many.
    pub(crate) fn is_reached<X: Clock>(&mut self, rt: &X, moved: usize, before: u32) -> bool {
        if moved >= MAX_BYTES {
            return true;
        }
        let steps = before.saturating_add(1);
        if steps == UNTIMED_STEPS {
            self.began = Instant::now(rt).ok();
        }
        if steps % LOOK_STEPS != 0 {
            return false;
        }
        match &self.began {
            Some(began) => !is_within(rt, began, MAX_MICROS),
            None => false,
        }
    }
}

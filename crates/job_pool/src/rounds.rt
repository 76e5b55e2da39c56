//! What a worker waits with that has one session open at a time.
use crate::readiness::{Turn, Wakeup};
use crate::service::StepOutcome;
use crate::stream_readiness::StreamReadiness;
use crossbeam_utils::sync::{Parker, Unparker};
use std::alloc::{AllocError, Global};
use std::sync::Wait;

/// All slots, one after another, where nothing is waited for but a task: a stream waits by itself, and so one session is open at a time, or who
/// waits in it would keep the others.
#[derive(Drop)]
pub struct Rounds {
    parker: Parker,
    next: usize,
    slots: usize,
}

/// Wakes a worker that waits for a task. One that is awake does not sleep the next time.
#[derive(Drop)]
pub struct Wake {
    unparker: Unparker,
}

impl Rounds {
    /// There is no slot.
    pub fn new(alloc: Global) -> Result<(Rounds, Wake), AllocError> {
        let parker = Parker::new(alloc)?;
        let unparker = parker.unparker().clone()?;
        let rounds = Rounds {
            parker,
            next: 0,
            slots: 0,
        };
        Ok((rounds, Wake { unparker }))
    }
}

/// One session at a time, over streams that wait by themselves.
impl<R, W> StreamReadiness<R, W> for Rounds {
    fn takes(&mut self, is_idle: bool) -> bool {
        is_idle
    }

    fn may_take_memory(&self) -> bool {
        true
    }

    fn begin(&mut self, slot: usize, _reader: &R, _writer: &W) {
        self.slots = self.slots.max(slot.saturating_add(1));
    }

    fn next(&mut self) -> Option<Turn> {
        if self.next < self.slots {
            let slot = self.next;
            self.next = slot.saturating_add(1);
            Some(Turn {
                slot,
                may_wait: false,
            })
        } else {
            self.next = 0;
            None
        }
    }

    fn ends_turn(&mut self, _slot: usize, _before: u32) -> bool {
        false
    }

    fn after(&mut self, _slot: usize, _moved: StepOutcome) {}

    fn wait<T: Wait>(&mut self, rt: &T, is_idle: bool) {
        if is_idle {
            self.parker.park(rt);
        }
    }
}

impl Wakeup for Wake {
    fn load(&self) -> usize {
        0
    }

    fn ring(&self) {
        self.unparker.unpark();
    }

    fn close(&self) {
        self.unparker.unpark();
    }
}

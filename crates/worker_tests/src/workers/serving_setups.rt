//! What the workers of [`serve`](worker_pool::serve) wait with over the streams of the tests, and are woken by.
ghost use Rattle.std.specs.Prelude.{◌≡◌, ◌+◌, ◌≤◌, length, vec_len, vec_capacity, IfOk};
ghost use Rattle.job_pool.specs.Lists.{Every};
ghost use Rattle.worker_pool.specs.EndReporters.{IsNewServingSetup};

use crate::workers::kept_ends::KeptEnds;
use crate::workers::streams::{Counts, Input, Output};
use crossbeam_utils::sync::{Parker, Unparker};
use job_pool::{StepOutcome, Turn, Wakeup};
use std::alloc::{AllocError, Global};
use std::sync::atomic::Ordering;
use std::sync::{Arc, Wait};
use std::thread;
use worker_pool::{LiveCounts, ServingSetup, StreamReadiness};

/// All slots, one after another. A stream of a test is always ready, so a worker with a session open never sleeps.
///
/// A session that has begun has its first turn once a further job was looked for: so a worker has all sessions open at once that it finds jobs for.
#[derive(Drop)]
pub struct InTurn {
    parker: Parker,
    next: usize,
    slots: usize,
    has_begun: bool,
    /// A worker that has begun a session takes no further one before this many have begun in the run.
    apart: u64,
    counts: Arc<Counts, Global>,
}

/// Wakes a worker that sleeps. One that is awake doesn't sleep the next time.
#[derive(Drop)]
pub struct Wake {
    unparker: Unparker,
}

/// What a worker of the tests is started with.
pub type TestServingSetup = ServingSetup<KeptEnds, InTurn, Wake>;

/// A setup, whose sink has memory for so many sessions, for a worker that takes a second one when so many have begun.
fn new_serving_setup(
    alloc: Global,
    rooms: u32,
    apart: u64,
    counts: &Arc<Counts, Global>,
) -> Result<TestServingSetup, AllocError>
    ensures { IfOk result (IsNewServingSetup (λ sink. sink.ends.items)
        (λ sink n. vec_len sink.ends + n ≤ vec_capacity sink.ends)) }
{
    let parker = Parker::new(alloc)?;
    let unparker = parker.unparker().clone()?;
    Ok(ServingSetup {
        sink: KeptEnds::new(alloc, rooms, Arc::try_clone(counts)?),
        readiness: InTurn {
            parker,
            next: 0,
            slots: 0,
            has_begun: false,
            apart,
            counts: Arc::try_clone(counts)?,
        },
        wakeup: Wake { unparker },
        counts: Some(LiveCounts::new(alloc)?),
    })
}

/// The live counts of these setups.
pub fn live_of(
    alloc: Global,
    serving_setups: &[TestServingSetup],
) -> Result<Vec<LiveCounts>, AllocError> {
    let mut live = Vec::new(alloc);
    for serving_setup in serving_setups {
        if let Some(counts) = &serving_setup.counts {
            live.push(counts.try_clone()?)?;
        }
    }
    Ok(live)
}

/// One setup or two, each with memory for so many sessions.
pub fn new_serving_setups(
    alloc: Global,
    are_two: bool,
    rooms: u32,
    counts: &Arc<Counts, Global>,
) -> Result<Vec<TestServingSetup>, AllocError>
    ensures count { IfOk result (λ serving_setups.
        (1 ≤ length serving_setups.items) × (length serving_setups.items ≤ 2)) }
    ensures new { IfOk result (λ serving_setups. Every (IsNewServingSetup (λ sink. sink.ends.items)
        (λ sink n. vec_len sink.ends + n ≤ vec_capacity sink.ends)) serving_setups.items) }
{
    let mut serving_setups = Vec::with_capacity(alloc, 2)?;
    serving_setups.push(new_serving_setup(alloc, rooms, 0, counts)?)?;
    if are_two {
        serving_setups.push(new_serving_setup(alloc, rooms, 0, counts)?)?;
    }
    Ok(serving_setups)
}

/// So many setups, whose sinks have memory, for workers of which none takes a second session before as many sessions have begun.
pub fn serving_setups_apart(
    alloc: Global,
    count: u16,
    counts: &Arc<Counts, Global>,
) -> Result<Vec<TestServingSetup>, AllocError>
    ensures count { IfOk result (λ serving_setups. length serving_setups.items ≡ count) }
    ensures new { IfOk result (λ serving_setups. Every (IsNewServingSetup (λ sink. sink.ends.items)
        (λ sink n. vec_len sink.ends + n ≤ vec_capacity sink.ends)) serving_setups.items) }
{
    let apart = u64::from(count);
    let mut serving_setups = Vec::with_capacity(alloc, usize::from(count))?;
    for _ in 0..count {
        serving_setups.push(new_serving_setup(alloc, u32::MAX, apart, counts)?)?;
    }
    Ok(serving_setups)
}

impl StreamReadiness<Input, Output> for InTurn {
    fn takes(&mut self, _is_idle: bool) -> bool {
        self.slots == 0 || self.counts.are_begun(self.apart)
    }

    fn may_take_memory(&self) -> bool {
        true
    }

    fn begin(&mut self, slot: usize, _reader: &Input, _writer: &Output) {
        self.slots = self.slots.max(slot.saturating_add(1));
        self.has_begun = true;
        self.counts.begun.fetch_add(1, Ordering::SeqCst);
    }

    fn next(&mut self) -> Option<Turn> {
        if self.has_begun || self.next >= self.slots {
            self.has_begun = false;
            self.next = 0;
            return None;
        }
        let slot = self.next;
        self.next = slot.saturating_add(1);
        Some(Turn {
            slot,
            may_wait: false,
        })
    }

    fn ends_turn(&mut self, _slot: usize, _before: u32) -> bool {
        false
    }

    fn after(&mut self, _slot: usize, _moved: StepOutcome) {}

    fn wait<T: Wait>(&mut self, rt: &T, is_idle: bool) {
        if self.apart > 0 {
            thread::yield_now();
        } else if is_idle {
            self.parker.park(rt);
        }
    }
}

impl Wakeup for Wake {
    fn load(&self) -> usize {
        0
    }

    fn ring(&self) {
        self.unparker.unpark();
    }

    fn close(&self) {
        self.unparker.unpark();
    }
}

//! What the workers wait with, are woken by, and tell the ends.
ghost use Rattle.std.specs.Prelude.{◌≡◌, ◌++◌, ◌∷◌, [], ℕ, true, ⊤, IfOk};
ghost use Rattle.job_pool.specs.Lists.{Every};
ghost use Rattle.job_pool.specs.Workers.{IsNew};

use crate::jobs::turns::{Doing, Row, Seen, Stepping, Work};
use crate::jobs::wait_for;
use ghost_state::GhostList;
use job_pool::{NumberedEnd, Readiness, Sink, StepOutcome, Turn, Wakeup, WorkerSetup};
use std::alloc::{AllocError, Global};
use std::snapshot::Snapshot;
use std::sync::Wait;
use std::sync::atomic::{AtomicU64, Ordering};
use std::thread;

/// Gives each slot its turn, one after another: once so many jobs were opened; and behind one that waits when the worker has waited twice, the
/// second time after all tasks were in the queue.
#[derive(Drop)]
pub struct Watched<'a> {
    row: &'a Row,
    seen: &'a Seen,
    next: u32,
    /// The slots of the jobs that are open, by a bit for each.
    open: u64,
    waits: u32,
    /// How often it was asked while it waits.
    asked: u32,
}

/// The bit of a slot.
fn bit_of(slot: usize) -> u64 {
    match u32::try_from(slot) {
        Ok(bit) => 1u64.checked_shl(bit).unwrap_or(0),
        Err(_) => 0,
    }
}

/// How often it is asked for a turn at most until the worker waits.
const ASKED: u32 = 1_000;

impl Readiness<Stepping<'_>> for Watched<'_> {
    fn takes(&mut self, _is_idle: bool) -> bool {
        true
    }

    fn begin(&mut self, slot: usize, opened: &Doing) {
        self.open |= bit_of(slot);
        self.seen
            .shown
            .fetch_add(u64::from(opened.work.steps), Ordering::SeqCst);
    }

    fn next(&mut self) -> Option<Turn> {
        if self.waits > 0 {
            self.asked = self.asked.saturating_add(1);
            if self.asked > ASKED {
                self.seen.is_late.store(1, Ordering::SeqCst);
                self.waits = 0;
            }
            return None;
        }
        let rest = self.open.checked_shr(self.next).unwrap_or(0);
        if rest == 0 || self.seen.begun.load(Ordering::SeqCst) < self.row.begun {
            self.next = 0;
            return None;
        }
        let slot = self.next.saturating_add(rest.trailing_zeros());
        self.next = slot.saturating_add(1);
        Some(Turn {
            slot: slot as usize,
            may_wait: self.row.may_wait,
        })
    }

    fn ends_turn(&mut self, slot: usize, before: u32) -> bool {
        if slot.saturating_add(1) != self.next as usize {
            self.seen.is_late.store(1, Ordering::SeqCst);
        }
        before.saturating_add(1) >= self.row.most_steps
    }

    fn after(&mut self, slot: usize, moved: StepOutcome) {
        if slot.saturating_add(1) != self.next as usize {
            self.seen.is_late.store(1, Ordering::SeqCst);
        }
        let of_its_kind = match moved {
            StepOutcome::Going => &self.seen.going,
            StepOutcome::Waits => &self.seen.waiting,
            StepOutcome::Over => &self.seen.over,
        };
        of_its_kind.fetch_add(1, Ordering::SeqCst);
        if moved == StepOutcome::Waits {
            self.waits = 2;
            self.asked = 0;
        }
        if moved == StepOutcome::Over {
            self.open &= !bit_of(slot);
        }
    }

    fn wait<T: Wait>(&mut self, _rt: &T, is_idle: bool) {
        if is_idle {
            self.seen.idle_waits.fetch_add(1, Ordering::SeqCst);
        } else if self.waits > 0 {
            wait_for(&self.seen.closes, 1, &self.seen.is_late);
            self.waits = self.waits.saturating_sub(1);
        }
        thread::yield_now();
    }
}

/// Tells this load, and counts its rings.
#[derive(Drop)]
pub struct Counted<'a> {
    row: &'a Row,
    seen: &'a Seen,
    load: usize,
    rings: &'a AtomicU64,
}

impl Wakeup for Counted<'_> {
    fn load(&self) -> usize {
        self.load
    }

    fn ring(&self) {
        self.rings.fetch_add(1, Ordering::SeqCst);
        let rung = self
            .seen
            .rung
            .fetch_add(1, Ordering::SeqCst)
            .saturating_add(1);
        if self.row.one_by_one {
            wait_for(&self.seen.ended, rung, &self.seen.is_late);
        }
    }

    fn close(&self) {
        self.seen.closes.fetch_add(1, Ordering::SeqCst);
    }
}

/// Lets the ends go, and has room for them where there is memory. In clauses it has them all.
#[derive(Drop)]
pub struct LetGo<'a> {
    told: GhostList<NumberedEnd<()>>,
    row: &'a Row,
    seen: &'a Seen,
}

impl Sink<Stepping<'_>> for LetGo<'_> {
    ghost use Rattle.std.specs.Prelude.{⊤};

    ghost told = { λ sink. sink.told };

    ghost has_room = { λ sink n. ⊤ };

    fn make_room(&mut self, _more: usize) -> bool
        ensures told { self.new.told ≡ self.old.told }
        ensures room { result ≡ true → ⊤ }
        ensures kept { (n : ℕ) → ⊤ → ⊤ }
    {
        !self.row.is_short || self.seen.given_up.load(Ordering::SeqCst) > 0
    }

    fn tell(&mut self, _service: &Stepping<'_>, number: usize, _job: Snapshot<Work>, end: ())
        ensures told { self.new.told
            ≡ self.old.told ++ record { number = number; end = end } ∷ [] }
        ensures room { (n : ℕ) → ⊤ → ⊤ }
    {
        self.told.push(&NumberedEnd { number, end });
    }

    fn refuse(&mut self, _service: &Stepping<'_>, _number: usize, _job: Work)
        ensures told { self.new.told ≡ self.old.told }
        ensures kept { (n : ℕ) → ⊤ → ⊤ }
    {}
}

/// What a worker of the tests is started with.
pub type TestWorkerSetup<'a> = WorkerSetup<(), LetGo<'a>, Watched<'a>, Counted<'a>>;

/// A setup with a wakeup that tells this load.
fn worker_setup_of<'a>(
    row: &'a Row,
    seen: &'a Seen,
    load: usize,
    rings: &'a AtomicU64,
) -> TestWorkerSetup<'a>
    ensures { IsNew (λ sink. sink.told) (λ sink n. ⊤) result }
{
    WorkerSetup {
        worker: (),
        sink: LetGo {
            told: GhostList::new(),
            row,
            seen,
        },
        readiness: Watched {
            row,
            seen,
            next: 0,
            open: 0,
            waits: 0,
            asked: 0,
        },
        wakeup: Counted {
            row,
            seen,
            load,
            rings,
        },
    }
}

/// The row's setups.
pub fn worker_setups_of<'a>(
    alloc: Global,
    row: &'a Row,
    seen: &'a Seen,
) -> Result<Vec<TestWorkerSetup<'a>>, AllocError>
    ensures { IfOk result (λ worker_setups.
        Every (IsNew (λ sink. sink.told) (λ sink n. ⊤)) worker_setups.items) }
{
    let mut worker_setups: Vec<TestWorkerSetup<'a>> = Vec::new(alloc);
    worker_setups.push(worker_setup_of(row, seen, row.load, &seen.first_rings))?;
    let Some((second, third)) = row.others else {
        return Ok(worker_setups);
    };
    worker_setups.push(worker_setup_of(row, seen, second, &seen.second_rings))?;
    worker_setups.push(worker_setup_of(row, seen, third, &seen.third_rings))?;
    Ok(worker_setups)
}

//! Jobs that come while others are served: who waits for one is woken, each worker has one open, and as many wait as the queue holds.
ghost use Rattle.std.specs.Prelude.{◌≡◌};

use crate::jobs::one_by_one::run;
use crate::jobs::wait_for;
use job_pool::{JobFault, Jobs, MAX_WAITING, Service, StepOutcome};
use std::alloc::Global;
use std::process::Abort;
use std::rt::Clock;
use std::sync::Wait;
use std::sync::atomic::{AtomicU64, Ordering};
use std::test::*;
use std::thread;
use std::thread::Threads;
use std::time::Duration;

/// For how many milliseconds the leading thread lets the workers go to sleep, or a worker the leading thread go on.
const REST_MILLIS: u64 = 10;

/// Jobs, how they come, and what holds them.
struct Row {
    shows: &'static str,
    workers: u16,
    jobs: u64,
    /// How many steps each job takes.
    steps: u32,
    /// Whether the source gives a job only when those before it are over, and the workers had time to go to sleep.
    one_by_one: bool,
    /// Each job is held until so many have begun.
    begun: u64,
    /// Each job is held until so many were given, and the source had time to give more.
    given: u64,
    /// How many had been given when the first job was held no longer, where one is held for that.
    had_given: u64,
}

/// Ten jobs for one worker, which nothing holds. Rows say what is other.
const TEN: Row = Row {
    shows: "",
    workers: 1,
    jobs: 10,
    steps: 1,
    one_by_one: false,
    begun: 0,
    given: 0,
    had_given: 0,
};

const ROWS: &[Row] = &[
    Row {
        shows: "a worker that sleeps is woken for each job",
        one_by_one: true,
        ..TEN
    },
    Row {
        shows: "two workers serve two jobs at once, while the source goes on",
        workers: 2,
        jobs: 2,
        begun: 2,
        ..TEN
    },
    Row {
        shows: "a worker has one job open at a time, however long that takes",
        workers: 2,
        steps: 5_000,
        ..TEN
    },
    Row {
        shows: "so many jobs wait as the queue holds, beside the one that is served and the one that has no place",
        jobs: MAX_WAITING as u64 + 6,
        given: MAX_WAITING as u64 + 2,
        had_given: MAX_WAITING as u64 + 2,
        ..TEN
    },
];

/// What the jobs and their source tell each other.
#[derive(Drop)]
struct Pace {
    given: AtomicU64,
    begun: AtomicU64,
    ended: AtomicU64,
    open: AtomicU64,
    most_open: AtomicU64,
    had_given: AtomicU64,
    is_late: AtomicU64,
}

impl Pace {
    /// Nothing came yet.
    fn new() -> Pace {
        Pace {
            given: AtomicU64::new(0),
            begun: AtomicU64::new(0),
            ended: AtomicU64::new(0),
            open: AtomicU64::new(0),
            most_open: AtomicU64::new(0),
            had_given: AtomicU64::new(0),
            is_late: AtomicU64::new(0),
        }
    }

    /// Whether the row's jobs came to what it says.
    fn is_so(&self, row: &Row) -> bool {
        self.is_late.load(Ordering::SeqCst) == 0
            && self.ended.load(Ordering::SeqCst) == row.jobs
            && self.most_open.load(Ordering::SeqCst) <= u64::from(row.workers)
            && self.had_given.load(Ordering::SeqCst) == row.had_given
    }
}

/// Gives jobs, as the row says: the first when the workers had time to go to sleep. It says that there are no more when all are over.
#[derive(Drop)]
struct Paced<'a, R> {
    rt: &'a R,
    row: &'a Row,
    pace: &'a Pace,
}

impl<R: Clock> Jobs for Paced<'_, R> {
    type Job = u32;

    ghost use Rattle.std.specs.Prelude.{⊤};

    ghost gives = { λ first given last. ⊤ };

    fn next(&mut self) -> Result<Option<u32>, JobFault> {
        let given = self.pace.given.load(Ordering::SeqCst);
        if self.row.one_by_one || given == 0 || given == self.row.jobs {
            wait_for(&self.pace.ended, given, &self.pace.is_late);
            thread::sleep(self.rt, Duration::from_millis(REST_MILLIS));
        }
        if given == self.row.jobs {
            return Ok(None);
        }
        self.pace.given.fetch_add(1, Ordering::SeqCst);
        Ok(Some(self.row.steps))
    }
}

/// Takes the steps of each job, and holds it as the row says.
#[derive(Drop)]
struct Holding<'a, R> {
    rt: &'a R,
    row: &'a Row,
    pace: &'a Pace,
}

impl<R: Clock> Holding<'_, R> {
    /// Holds a job before its first step.
    fn hold(&self) {
        wait_for(&self.pace.begun, self.row.begun, &self.pace.is_late);
        wait_for(&self.pace.given, self.row.given, &self.pace.is_late);
        if self.row.given > 0 && self.pace.had_given.load(Ordering::SeqCst) == 0 {
            thread::sleep(self.rt, Duration::from_millis(REST_MILLIS));
            self.pace
                .had_given
                .store(self.pace.given.load(Ordering::SeqCst), Ordering::SeqCst);
        }
    }
}

impl<R: Clock + Sync> Service for Holding<'_, R> {
    type Job = u32;

    type End = ();

    type Worker = ();

    type Open = u32;

    ghost use Rattle.std.specs.Prelude.{⊤};

    ghost accepts = { λ service job. ⊤ };

    ghost stands = { λ service job opened. ⊤ };

    ghost is_over = { λ opened. ⊤ };

    ghost serves = { λ service first job last end. ⊤ };

    fn open(&self, _alloc: Global, _worker: &mut (), job: u32) -> Result<u32, u32> {
        self.pace.begun.fetch_add(1, Ordering::SeqCst);
        let open = self
            .pace
            .open
            .fetch_add(1, Ordering::SeqCst)
            .saturating_add(1);
        self.pace.most_open.fetch_max(open, Ordering::SeqCst);
        Ok(job)
    }

    fn step(
        &self,
        _alloc: Global,
        _worker: &mut (),
        opened: &mut u32,
        _may_wait: bool,
    ) -> StepOutcome {
        if *opened == self.row.steps {
            self.hold();
        }
        *opened = opened.saturating_sub(1);
        if *opened == 0 {
            StepOutcome::Over
        } else {
            StepOutcome::Going
        }
    }

    fn close(&self, _worker: &mut (), _opened: u32) {
        self.pace.open.fetch_sub(1, Ordering::SeqCst);
        self.pace.ended.fetch_add(1, Ordering::SeqCst);
    }
}

/// Whether the row's jobs are served as it says.
fn is_paced<T: Clock + Threads + Wait + Sync>(rt: &T, alloc: Global, row: &Row) -> bool {
    let pace = Pace::new();
    let service = Holding {
        rt: &*rt,
        row: &*row,
        pace: &pace,
    };
    let mut source = Paced {
        rt: &*rt,
        row: &*row,
        pace: &pace,
    };
    let mut workers = Vec::new(alloc);
    for _ in 0..row.workers {
        if workers.push(()).is_err() {
            return false;
        }
    }
    if workers.is_empty() {
        return false;
    }
    let is_done = run(rt, alloc, &service, &mut source, workers).is_ok();
    is_done && pace.is_so(row)
}

#[test]
fn jobs_come_while_others_are_served(rt: HostRuntime) {
    for row in ROWS {
        assert!(rt; is_paced(&rt, rt.alloc(), row), "{}", row.shows);
    }
}

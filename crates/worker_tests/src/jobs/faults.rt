//! A source that fails ends the run, and its workers are joined.
ghost use Rattle.std.specs.Prelude.{◌≡◌};

use crate::jobs::one_by_one::run;
use crate::jobs::{Numbers, doubled};
use job_pool::{JobFault, Jobs, RunFault, Service, StepOutcome};
use std::alloc::Global;
use std::process::Abort;
use std::sync::Wait;
use std::sync::atomic::{AtomicU64, Ordering};
use std::test::*;
use std::thread;
use std::thread::Threads;

/// A source that fails behind so many jobs, of which the first is 7.
struct Fault {
    shows: &'static str,
    jobs: u32,
    workers: u16,
    /// The number behind the last job.
    next: u32,
}

const FAULTS: &[Fault] = &[
    Fault {
        shows: "jobs fail at the third",
        jobs: 2,
        workers: 2,
        next: 9,
    },
    Fault {
        shows: "jobs fail before there is one",
        jobs: 0,
        workers: 4,
        next: 7,
    },
];

/// Whether the run ends by the source's fault, and the source is as its last call left it.
fn fails<T: Threads + Wait + Sync>(rt: &T, alloc: Global, row: &Fault) -> bool {
    let mut source = Numbers {
        next: 7,
        left: row.jobs,
        fails: true,
    };
    let fault = doubled(rt, alloc, &mut source, row.workers).err();
    fault == Some(RunFault::JobsFailed) && source.next == row.next && source.left == 0
}

#[test]
fn a_source_that_fails_ends_the_run(rt: HostRuntime) {
    for row in FAULTS {
        assert!(rt; fails(&rt, rt.alloc(), row), "{}", row.shows);
    }
}

/// Gives numbers, and says so before it fails.
#[derive(Drop)]
struct Failing<'a> {
    numbers: Numbers,
    has_failed: &'a AtomicU64,
}

impl Jobs for Failing<'_> {
    type Job = u32;

    ghost use Rattle.std.specs.Prelude.{⊤};

    ghost gives = { λ first given last. ⊤ };

    fn next(&mut self) -> Result<Option<u32>, JobFault> {
        let next = self.numbers.next();
        if next.is_err() {
            self.has_failed.store(1, Ordering::SeqCst);
        }
        next
    }
}

/// How many turns a job waits for the source's failure at most, and how many after it.
const TURNS: u32 = 1_000_000;

const TURNS_AFTER: u32 = 1_000;

/// Counts the jobs that it serves, each when the source has failed: until then all but one for each worker wait in the queue.
#[derive(Drop)]
struct Counter<'a> {
    served: &'a AtomicU64,
    has_failed: &'a AtomicU64,
}

impl Service for Counter<'_> {
    type Job = u32;

    type End = u32;

    type Worker = ();

    type Open = u32;

    ghost use Rattle.std.specs.Prelude.{⊤};

    ghost accepts = { λ service job. ⊤ };

    ghost stands = { λ service job opened. ⊤ };

    ghost is_over = { λ opened. ⊤ };

    ghost serves = { λ service first job last end. ⊤ };

    fn open(&self, _alloc: Global, _worker: &mut (), job: u32) -> Result<u32, u32> {
        Ok(job)
    }

    fn step(
        &self,
        _alloc: Global,
        _worker: &mut (),
        _opened: &mut u32,
        _may_wait: bool,
    ) -> StepOutcome {
        for _ in 0..TURNS {
            if self.has_failed.load(Ordering::SeqCst) > 0 {
                break;
            }
            thread::yield_now();
        }
        for _ in 0..TURNS_AFTER {
            thread::yield_now();
        }
        StepOutcome::Over
    }

    fn close(&self, _worker: &mut (), opened: u32) -> u32 {
        self.served.fetch_add(1, Ordering::SeqCst);
        opened
    }
}

/// How many of so many jobs two workers serve whose source then fails; none where the run ends otherwise.
fn served_before_fault<T: Threads + Wait + Sync>(rt: &T, alloc: Global, jobs: u32) -> Option<u64> {
    let served = AtomicU64::new(0);
    let has_failed = AtomicU64::new(0);
    let service = Counter {
        served: &served,
        has_failed: &has_failed,
    };
    let mut source = Failing {
        numbers: Numbers {
            next: 1,
            left: jobs,
            fails: true,
        },
        has_failed: &has_failed,
    };
    let mut workers = Vec::new(alloc);
    workers.push(()).ok()?;
    workers.push(()).ok()?;
    match run(rt, alloc, &service, &mut source, workers) {
        Err(RunFault::JobsFailed) => Some(served.load(Ordering::SeqCst)),
        _ => None,
    }
}

// The jobs that wait in the queue when the source fails are served before the run ends.
#[test]
fn jobs_that_wait_at_a_fault_are_served(rt: HostRuntime) -> Result<(), Fail> {
    assert!(rt; served_before_fault(&rt, rt.alloc(), 100) == Some(100));
    Ok(())
}

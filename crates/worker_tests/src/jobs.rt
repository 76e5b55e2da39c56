//! What the services and the sources of the tests are, and one run with them.
ghost use Rattle.std.specs.Prelude.{◌≡◌, ◌<◌};

use crate::jobs::one_by_one::run;
use job_pool::{Finished, JobFault, Jobs, RunFault, Service, StepOutcome};
use std::alloc::{AllocError, Global};
use std::sync::Wait;
use std::sync::atomic::{AtomicU64, Ordering};
use std::test::*;
use std::thread;
use std::thread::Threads;

mod faults;
mod locking;
mod one_by_one;
mod order;
mod pace;
mod turns;

/// How many jobs a worker has served.
#[derive(Drop)]
struct Tally {
    served: usize,
}

/// Multiplies a job by a factor that all workers share.
#[derive(Drop)]
struct Multiplier<'a> {
    factor: &'a u64,
}

impl<'a> Service for Multiplier<'a> {
    type Job = u32;

    type End = u64;

    type Worker = Tally;

    type Open = u32;

    ghost use Rattle.std.specs.Prelude.{◌≡◌, ◌*◌, ◌≤◌, ◌%◌, ◌^◌, ⊤};

    ghost accepts = { λ service job. ⊤ };

    ghost stands = { λ service job opened. opened ≡ job };

    ghost is_over = { λ opened. ⊤ };

    ghost serves = { λ service first job last end. (first.served ≤ last.served)
        × (end ≡ (job * service.factor.now) % 2 ^ 64) };

    fn open(&self, _alloc: Global, _worker: &mut Tally, job: u32) -> Result<u32, u32> {
        Ok(job)
    }

    fn step(
        &self,
        _alloc: Global,
        _worker: &mut Tally,
        _opened: &mut u32,
        _may_wait: bool,
    ) -> StepOutcome {
        StepOutcome::Over
    }

    fn close(&self, worker: &mut Tally, opened: u32) -> u64 {
        worker.served = worker.served.saturating_add(1);
        u64::from(opened).wrapping_mul(*self.factor)
    }
}

/// Gives the numbers from `next` on, as many as are left, and then none, or a fault.
#[derive(Drop)]
struct Numbers {
    next: u32,
    left: u32,
    fails: bool,
}

impl Jobs for Numbers {
    type Job = u32;

    ghost use Rattle.std.specs.Prelude.{◌≡◌, ◌+◌, true, MatchResult, MatchOption};

    ghost gives = { λ first given last. MatchResult given
        (λ job. MatchOption job ((last ≡ first) × (first.left ≡ 0))
        (λ number. (number ≡ first.next) × (last.left + 1 ≡ first.left)))
        (λ fault. (last ≡ first) × (first.fails ≡ true)) };

    fn next(&mut self) -> Result<Option<u32>, JobFault> {
        if self.left == 0 {
            return if self.fails { Err(JobFault) } else { Ok(None) };
        }
        let number = self.next;
        self.left -= 1;
        self.next = number.wrapping_add(1);
        Ok(Some(number))
    }
}

/// So many workers that have served nothing.
fn tallies(alloc: Global, count: u16) -> Result<Vec<Tally>, AllocError> {
    let mut workers = Vec::new(alloc);
    for _ in 0..count {
        workers.push(Tally { served: 0 })?;
    }
    Ok(workers)
}

/// A run that multiplies the numbers of the source by 2.
fn doubled<T: Threads + Wait + Sync>(
    rt: &T,
    alloc: Global,
    numbers: &mut Numbers,
    workers: u16,
) -> Result<Finished<u64, Tally>, RunFault> {
    let Ok(crew) = tallies(alloc, workers) else {
        return Err(RunFault::NoMemory);
    };
    if crew.is_empty() {
        return Err(RunFault::NoThread);
    }
    run(rt, alloc, &Multiplier { factor: &2 }, numbers, crew)
}

/// How many jobs all workers have served.
fn served(workers: &[Tally]) -> usize {
    let mut sum = 0usize;
    for worker in workers {
        sum = sum.saturating_add(worker.served);
    }
    sum
}

/// How often a number is looked at until it is late: minutes, also where other programs have the processors.
const MOST_LOOKS: u32 = 50_000_000;

/// Waits until a number is at least this. Where that doesn't come, it says so.
fn wait_for(number: &AtomicU64, least: u64, is_late: &AtomicU64) {
    for _ in 0..MOST_LOOKS {
        if number.load(Ordering::SeqCst) >= least {
            return;
        }
        thread::yield_now();
    }
    is_late.store(1, Ordering::SeqCst);
}

//! A service that waits for a lock, by a handle of its own.
use crate::jobs::Numbers;
use crate::jobs::one_by_one::run;
use job_pool::{Service, StepOutcome};
use std::alloc::Global;
use std::process::Abort;
use std::sync::{Mutex, Wait};
use std::test::*;
use std::thread::Threads;

/// Adds each job to one sum under a lock.
#[derive(Drop)]
struct Adder<'a, T> {
    rt: &'a T,
    sum: &'a Mutex<u64>,
}

impl<'a, T: Wait + Sync> Service for Adder<'a, T> {
    type Job = u32;

    type End = u32;

    type Worker = ();

    type Open = u32;

    ghost use Rattle.std.specs.Prelude.{◌≡◌, ⊤};

    ghost accepts = { λ service job. ⊤ };

    ghost stands = { λ service job opened. opened ≡ job };

    ghost is_over = { λ opened. ⊤ };

    ghost serves = { λ service first job last end. end ≡ job };

    fn open(&self, _alloc: Global, _worker: &mut (), job: u32) -> Result<u32, u32> {
        Ok(job)
    }

    fn step(
        &self,
        _alloc: Global,
        _worker: &mut (),
        opened: &mut u32,
        _may_wait: bool,
    ) -> StepOutcome {
        let mut sum = self.sum.lock(self.rt);
        *sum = sum.saturating_add(u64::from(*opened));
        StepOutcome::Over
    }

    fn close(&self, _worker: &mut (), opened: u32) -> u32 {
        opened
    }
}

/// How many ends a run on three workers has.
fn ends_of<T: Threads + Wait + Sync>(
    rt: &T,
    alloc: Global,
    service: &Adder<'_, T>,
    source: &mut Numbers,
) -> Option<usize> {
    let mut workers = Vec::new(alloc);
    workers.push(()).ok()?;
    workers.push(()).ok()?;
    workers.push(()).ok()?;
    match run(rt, alloc, service, source, workers) {
        Ok(done) => Some(done.ends.len()),
        Err(_) => None,
    }
}

// The numbers from 1 to 100 are added once each: their sum is 5,050.
#[test]
fn each_job_is_added_once(rt: HostRuntime) -> Result<(), Fail> {
    let sum = Mutex::new(0u64);
    let service = Adder { rt: &rt, sum: &sum };
    let mut source = Numbers {
        next: 1,
        left: 100,
        fails: false,
    };
    let ends = ends_of(&rt, rt.alloc(), &service, &mut source);
    assert!(rt; ends == Some(100));
    assert_eq!(rt; *sum.lock(&rt), 5050);
    Ok(())
}

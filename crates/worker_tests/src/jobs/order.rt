//! The ends stand in the order of the jobs, one for each, whoever served it.
use crate::jobs::{Numbers, doubled, served};
use std::alloc::Global;
use std::process::Abort;
use std::sync::Wait;
use std::test::*;
use std::thread::Threads;

/// So many numbers from this on.
fn numbers(next: u32, left: u32) -> Numbers {
    Numbers {
        next,
        left,
        fails: false,
    }
}

/// Whether a run over these numbers has these ends, each job was served once, and so many workers came back.
fn gives<T: Threads + Wait + Sync>(
    rt: &T,
    alloc: Global,
    mut source: Numbers,
    workers: u16,
    expected: &[u64],
) -> bool {
    match doubled(rt, alloc, &mut source, workers) {
        Ok(done) => {
            done.ends.as_slice() == expected
                && done.workers.len() == usize::from(workers)
                && served(done.workers.as_slice()) == expected.len()
        }
        Err(_) => false,
    }
}

// Three jobs on two workers.
#[test]
fn three_jobs_on_two_workers(rt: HostRuntime) -> Result<(), Fail> {
    assert!(rt; gives(&rt, rt.alloc(), numbers(5, 3), 2, &[10, 12, 14]));
    Ok(())
}

// One worker serves all.
#[test]
fn one_worker(rt: HostRuntime) -> Result<(), Fail> {
    assert!(rt; gives(&rt, rt.alloc(), numbers(1, 4), 1, &[2, 4, 6, 8]));
    Ok(())
}

// Without a job the workers come back as they were.
#[test]
fn no_job(rt: HostRuntime) -> Result<(), Fail> {
    assert!(rt; gives(&rt, rt.alloc(), numbers(1, 0), 3, &[]));
    Ok(())
}

/// Whether these are the doubles of the numbers from 0 on.
fn are_doubles(ends: &[u64]) -> bool {
    let mut expected = 0u64;
    for end in ends {
        if *end != expected {
            return false;
        }
        expected = expected.wrapping_add(2);
    }
    true
}

/// How many ends a run has whose ends are the doubles of the numbers from 0 on, and how many jobs were served.
fn counts<T: Threads + Wait + Sync>(
    rt: &T,
    alloc: Global,
    jobs: u32,
    workers: u16,
) -> Option<(usize, usize)> {
    let mut source = numbers(0, jobs);
    match doubled(rt, alloc, &mut source, workers) {
        Ok(done) => {
            if are_doubles(done.ends.as_slice()) {
                Some((done.ends.len(), served(done.workers.as_slice())))
            } else {
                None
            }
        }
        Err(_) => None,
    }
}

// More jobs than the queue holds.
#[test]
fn two_thousand_jobs_on_four_workers(rt: HostRuntime) -> Result<(), Fail> {
    assert!(rt; counts(&rt, rt.alloc(), 2000, 4) == Some((2000, 2000)));
    Ok(())
}

// Far more: each number stands for a job that was served once, and for one end.
#[test]
fn two_hundred_thousand_jobs_on_two_workers(rt: HostRuntime) -> Result<(), Fail> {
    assert!(rt; counts(&rt, rt.alloc(), 200_000, 2) == Some((200_000, 200_000)));
    Ok(())
}

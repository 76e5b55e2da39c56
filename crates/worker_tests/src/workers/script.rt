//! A source of jobs by a list, and runs of it.
use crate::workers::streams::{Counts, Input, Output};
use node_session::{Ended, SessionFault};
use std::alloc::Global;
use std::sync::{Arc, Wait};
use std::thread::Threads;
use worker_pool::{Closed, Job, JobFault, Jobs, Passes, Pool, PoolFault, Shared, Turnstile};

/// What a job reads, whether its writer fails, and how it ends.
#[derive(Clone, Copy)]
pub struct Line {
    pub input: &'static [u8],
    pub fails: bool,
    pub result: Result<Ended, SessionFault>,
    pub written: &'static [u8],
}

/// What the streams of a test are made by.
#[derive(Clone, Copy)]
pub struct Wires<'a> {
    pub alloc: Global,
    pub counts: &'a Arc<Counts, Global>,
    /// How many bytes a read gives and a write takes at most.
    pub most: usize,
}

/// The streams of a session over the line of this number. None where memory is refused.
pub fn streams_of(wires: Wires<'_>, number: usize, line: &Line) -> Option<(Input, Output)> {
    let Ok(counts) = Arc::try_clone(wires.counts) else {
        return None;
    };
    let reader = Input {
        rest: line.input,
        most: wires.most,
        ended: 0,
    };
    let writer = Output {
        held: Vec::new(wires.alloc),
        most: wires.most,
        fails: line.fails,
        line: number,
        wanted: line.written,
        ended: 0,
        counts,
    };
    Some((reader, writer))
}

/// Gives a job for each line, by new passes, and then none, or a fault.
#[derive(Drop)]
pub struct Script<'a> {
    pub alloc: Global,
    pub shared: &'a Shared,
    pub counts: &'a Arc<Counts, Global>,
    pub lines: &'a [Line],
    pub fails: bool,
}

impl<'a> Jobs for Script<'a> {
    type Job = Job<Input, Output>;

    ghost use Rattle.std.specs.Prelude.{◌≡◌, ⊤, MatchResult, MatchOption};
    ghost use Rattle.worker_pool.specs.JobEnds.{IsForGates};

    ghost gives = { λ first given last. (last.shared ≡ first.shared) × MatchResult given
        (λ next. MatchOption next ⊤ (IsForGates first.shared.now))
        (λ fault. ⊤) };

    fn next(&mut self) -> Result<Option<Job<Input, Output>>, JobFault> {
        let Some((line, rest)) = self.lines.split_first() else {
            return if self.fails { Err(JobFault) } else { Ok(None) };
        };
        let Ok(passes) = Passes::new(self.alloc, self.shared) else {
            return Err(JobFault);
        };
        let wires = Wires {
            alloc: self.alloc,
            counts: self.counts,
            most: usize::MAX,
        };
        let Some((reader, writer)) = streams_of(wires, 0, line) else {
            return Err(JobFault);
        };
        self.lines = rest;
        Ok(Some(Job {
            reader,
            writer,
            passes,
        }))
    }
}

/// A run of these jobs on two workers.
pub fn play<X: Threads + Wait + Sync, T: Turnstile + Sync>(
    rt: &X,
    mut script: Script<'_>,
    turnstile: &T,
) -> Result<Closed<Input, Output>, PoolFault> {
    let alloc = script.alloc;
    let shared = script.shared;
    Pool::run(rt, alloc, shared, &mut script, 2, turnstile)
}

//! A source of sessions, those that rest first, and runs of it.
ghost use Rattle.std.specs.Prelude.{◌≡◌, ◌+◌, ◌≤◌, length, map, vec_len, vec_capacity, IfOk};
ghost use Rattle.std.specs.Prelude.{IfSome};
ghost use Rattle.job_pool.specs.Lists.{Every, concat};
ghost use Rattle.gate_node.specs.Gates.{Gates};
ghost use Rattle.gate_node.specs.Passes.{ArePassesOf};
ghost use Rattle.worker_pool.specs.PausedSessions.{CanGoOn};
ghost use Rattle.worker_pool.specs.EndReporters.{IsNewServingSetup};

use crate::workers::kept_ends::KeptEnds;
use crate::workers::runs::Run;
use crate::workers::script::{Line, Wires, streams_of};
use crate::workers::serving_setups::TestServingSetup;
use crate::workers::streams::{Counts, Input, Output};
use std::alloc::Global;
use std::sync::atomic::{AtomicU64, Ordering};
use std::sync::{Arc, Wait};
use std::thread::Threads;
use worker_pool::{
    JobFault, Jobs, NoPause, Open, Passes, Pause, PausedSession, PoolFault, ServedSessions, Shared,
    serve,
};

/// A session of a test.
pub type TestSession = PausedSession<Input, Output>;

/// What a run of a test leaves.
pub type TestServed = ServedSessions<Input, Output, KeptEnds>;

/// Is raised once it was looked at so often.
#[derive(Drop)]
pub struct AfterLooks {
    pub most: u64,
    pub looks: AtomicU64,
}

impl Pause for AfterLooks {
    ghost can_be_raised = { Unit {0} };

    fn is_raised(&self) -> bool {
        self.looks.fetch_add(1, Ordering::SeqCst) >= self.most
    }
}

/// Gives the sessions that rest, the last one first, and a new one for each line, by new passes; then none, or a fault.
#[derive(Drop)]
pub struct Sessions<'a> {
    pub alloc: Global,
    pub shared: &'a Shared,
    pub counts: &'a Arc<Counts, Global>,
    /// How many bytes a read gives and a write takes at most.
    pub most: usize,
    pub resting: Vec<TestSession>,
    pub lines: &'a [Line],
    /// The number of the first of these lines.
    pub number: usize,
    pub fails: bool,
}

/// A session over the line of this number that is to begin, by new passes. None where memory is refused.
fn new_session(
    shared: &Shared,
    wires: Wires<'_>,
    number: usize,
    line: &Line,
) -> Result<TestSession, JobFault>
    ensures { IfOk result (CanGoOn shared.now) }
{
    let Ok(passes) = Passes::new(wires.alloc, shared) else {
        return Err(JobFault);
    };
    match streams_of(wires, number, line) {
        Some((reader, writer)) => Ok(PausedSession::new(
            wires.alloc,
            shared,
            passes,
            reader,
            writer,
        )),
        None => Err(JobFault),
    }
}

/// The last one of those that rest, if one does.
fn next_resting(resting: &mut Vec<TestSession>) -> Option<TestSession>
    ensures rest { (gates : Gates) → Every (CanGoOn gates) resting.old.items
        → Every (CanGoOn gates) resting.new.items }
    ensures one { IfSome result (λ session. (gates : Gates)
        → Every (CanGoOn gates) resting.old.items → CanGoOn gates session) }
{
    match resting.pop() {
        Some(session) => Some(session),
        None => None,
    }
}

impl<'a> Jobs for Sessions<'a> {
    type Job = TestSession;

    ghost use Rattle.std.specs.Prelude.{◌≡◌, ⊤, MatchResult, MatchOption};
    ghost use Rattle.job_pool.specs.Lists.{Every};
    ghost use Rattle.worker_pool.specs.PausedSessions.{CanGoOn};

    ghost gives = { λ first given last. (last.shared ≡ first.shared)
        × (Every (CanGoOn first.shared.now) first.resting.items
        → Every (CanGoOn first.shared.now) last.resting.items
        × MatchResult given
        (λ next. MatchOption next ⊤ (CanGoOn first.shared.now))
        (λ fault. ⊤)) };

    fn next(&mut self) -> Result<Option<TestSession>, JobFault> {
        if let Some(session) = next_resting(&mut self.resting) {
            return Ok(Some(session));
        }
        let Some((line, rest)) = self.lines.split_first() else {
            return if self.fails { Err(JobFault) } else { Ok(None) };
        };
        let wires = Wires {
            alloc: self.alloc,
            counts: self.counts,
            most: self.most,
        };
        match new_session(self.shared, wires, self.number, line) {
            Ok(session) => {
                self.lines = rest;
                self.number = self.number.saturating_add(1);
                Ok(Some(session))
            }
            Err(fault) => {
                let very_many = u64::from(u32::MAX);
                self.counts.begun.fetch_add(very_many, Ordering::SeqCst);
                Err(fault)
            }
        }
    }
}

/// A run of these sessions over these gates on the workers of these setups.
pub fn play<X: Threads + Wait + Sync, Q: Pause + Sync>(
    rt: &X,
    shared: &Shared,
    mut sessions: Sessions<'_>,
    serving_setups: Vec<TestServingSetup>,
    pause: &Q,
    seen: &mut Passes,
) -> Result<TestServed, PoolFault>
    requires of_gates { sessions.shared.now ≡ shared.now }
    requires rest { Every (CanGoOn shared.now) sessions.resting.items }
    requires seen { ArePassesOf shared.now seen.old }
    requires count { (1 ≤ length serving_setups.items) × (length serving_setups.items ≤ 64) }
    requires new { Every (IsNewServingSetup (λ sink. sink.ends.items)
        (λ sink n. vec_len sink.ends + n ≤ vec_capacity sink.ends)) serving_setups.items }
    ensures resting { IfOk result (λ served. Every (CanGoOn shared.now)
        (concat (map (λ one. one.items) served.resting.items))) }
    ensures seen { ArePassesOf shared.now seen.new }
{
    let alloc = sessions.alloc;
    serve(
        rt,
        alloc,
        shared,
        &mut sessions,
        serving_setups,
        &Open,
        pause,
        seen,
    )
}

/// A run of new sessions over the lines of this one, which isn't paused.
pub fn play_new<X: Threads + Wait + Sync>(
    rt: &X,
    shared: &Shared,
    wires: Wires<'_>,
    run: &Run,
    serving_setups: Vec<TestServingSetup>,
    seen: &mut Passes,
) -> Result<TestServed, PoolFault>
    requires seen { ArePassesOf shared.now seen.old }
    requires count { (1 ≤ length serving_setups.items) × (length serving_setups.items ≤ 64) }
    requires new { Every (IsNewServingSetup (λ sink. sink.ends.items)
        (λ sink n. vec_len sink.ends + n ≤ vec_capacity sink.ends)) serving_setups.items }
    ensures { ArePassesOf shared.now seen.new }
{
    let sessions = Sessions {
        alloc: wires.alloc,
        shared,
        counts: wires.counts,
        most: wires.most,
        resting: Vec::new(wires.alloc),
        lines: run.lines,
        number: 0,
        fails: run.fails,
    };
    play(rt, shared, sessions, serving_setups, &NoPause, seen)
}

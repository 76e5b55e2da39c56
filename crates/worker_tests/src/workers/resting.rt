//! Runs that are paused between two steps of their sessions, and go on in later runs.
ghost use Rattle.std.specs.Prelude.{◌≡◌, ◌+◌, ◌≤◌, length, map, vec_len, vec_capacity, IfSome};
ghost use Rattle.job_pool.specs.Lists.{Every, concat};
ghost use Rattle.gate_node.specs.Gates.{Gates};
ghost use Rattle.gate_node.specs.Passes.{ArePassesOf};
ghost use Rattle.worker_pool.specs.PausedSessions.{CanGoOn};
ghost use Rattle.worker_pool.specs.EndReporters.{IsNewServingSetup};

mod counted;
mod cuts;
mod rows;
mod turned;

use crate::exchanges::NOTHING_COUNTED;
use crate::workers::resting::counted::is_counted;
use crate::workers::script::{Line, Wires};
use crate::workers::serving_setups::{TestServingSetup, new_serving_setups};
use crate::workers::sessions::{AfterLooks, Sessions, TestServed, TestSession, play};
use crate::workers::streams::Counts;
use stats_book::Totals;
use std::alloc::Global;
use std::mem;
use std::sync::atomic::AtomicU64;
use std::sync::{Arc, Wait};
use std::thread::Threads;
use worker_pool::{Passes, Pause, ServedSessions, Shared};

/// How runs over the same gates are made.
#[derive(Clone, Copy)]
pub struct Manner {
    /// By two workers; else by one.
    pub are_two: bool,
    /// How many bytes a read gives and a write takes at most.
    pub most: usize,
    /// How many new sessions begin in each run at most.
    pub begins: usize,
    /// For how many sessions each worker of the first run has memory, and each of a later one.
    pub rooms: (u32, u32),
}

/// By one worker that has memory, over streams that give and take all at once; all sessions begin in the first run.
pub const PLAIN: Manner = Manner {
    are_two: false,
    most: usize::MAX,
    begins: usize::MAX,
    rooms: (u32::MAX, u32::MAX),
};

/// What was counted in all runs so far.
#[derive(Clone, Copy)]
pub struct Sums {
    pub runs: u32,
    /// How many lines have begun.
    pub begun: usize,
    pub totals: Totals,
    pub refused: u64,
}

/// What stands between two runs.
pub struct Stage {
    pub resting: Vec<TestSession>,
    /// They have seen what the sessions had seen that are over.
    pub seen: Passes,
    pub sums: Sums,
}

/// One call at each place where one is let go.
impl Drop for Stage {
    fn drop(self) {
        let Stage {
            resting: _resting,
            seen: _seen,
            sums: _sums,
        } = self;
    }
}

/// No run was made yet over these gates.
pub fn new_stage(alloc: Global, shared: &Shared) -> Option<Stage>
    ensures { IfSome result (λ stage. Every (CanGoOn shared.now) stage.resting.items
        × ArePassesOf shared.now stage.seen) }
{
    let sums = Sums {
        runs: 0,
        begun: 0,
        totals: NOTHING_COUNTED,
        refused: 0,
    };
    match Passes::new(alloc, shared) {
        Ok(seen) => Some(Stage {
            resting: Vec::new(alloc),
            seen,
            sums,
        }),
        Err(_) => None,
    }
}

/// How many lines have begun behind the next run.
fn next_begun(begun: usize, lines: &[Line], begins: usize) -> usize {
    begun.saturating_add(begins).min(lines.len())
}

/// The numbers of the lines in the order in which the next run is given their sessions.
fn order_of(
    alloc: Global,
    resting: &[TestSession],
    begun: usize,
    end: usize,
) -> Option<Vec<usize>> {
    let mut order = Vec::new(alloc);
    for session in resting.iter().rev() {
        if order.push(session.writer().line).is_err() {
            return None;
        }
    }
    for number in begun..end {
        if order.push(number).is_err() {
            return None;
        }
    }
    Some(order)
}

/// The sessions that rest, of each worker. All else of what a run left is let go.
fn resting_of(served: TestServed) -> Vec<Vec<TestSession>>
    ensures { result ≡ served.resting }
{
    let ServedSessions { resting, .. } = served;
    resting
}

/// The sessions that rest of all workers.
fn rest_of(alloc: Global, workers: Vec<Vec<TestSession>>) -> Option<Vec<TestSession>>
    ensures { (gates : Gates)
        → Every (CanGoOn gates) (concat (map (λ one. one.items) workers.items))
        → IfSome result (λ rest. Every (CanGoOn gates) rest.items) }
{
    let mut all = Vec::new(alloc);
    for worker in workers {
        let mut rest = worker;
        match all.append(&mut rest) {
            Ok(()) => {}
            Err(_) => return None,
        }
    }
    Some(all)
}

/// Both counts.
fn both(first: Totals, second: Totals) -> Totals {
    Totals {
        gets: first.gets.saturating_add(second.gets),
        puts: first.puts.saturating_add(second.puts),
        deletes: first.deletes.saturating_add(second.deletes),
        refusals: first.refusals.saturating_add(second.refusals),
        reaps: first.reaps.saturating_add(second.reaps),
    }
}

/// In which order a run is given the sessions of which lines, and how many lines have begun behind it.
#[derive(Drop)]
struct Plan {
    order: Vec<usize>,
    begun: usize,
}

/// The plan of the next run behind this stage. None where memory is refused.
fn plan_of(alloc: Global, manner: Manner, lines: &[Line], stage: &Stage) -> Option<Plan> {
    let begun = next_begun(stage.sums.begun, lines, manner.begins);
    let order = order_of(alloc, stage.resting.as_slice(), stage.sums.begun, begun)?;
    Some(Plan { order, begun })
}

/// For how many sessions each worker has memory in the next run behind this stage.
fn rooms_of(manner: Manner, stage: &Stage) -> u32 {
    let (first, later) = manner.rooms;
    if stage.sums.runs == 0 { first } else { later }
}

/// The lines that begin in a run.
fn lines_of(lines: &[Line], begun: usize, end: usize) -> &[Line] {
    match lines.get(begun..end) {
        Some(lines) => lines,
        None => &[],
    }
}

/// What was counted, with what this run counted behind which so many lines have begun.
fn count_run(before: Sums, begun: usize, served: &TestServed) -> Sums {
    Sums {
        runs: before.runs.saturating_add(1),
        begun,
        totals: both(before.totals, served.totals),
        refused: before.refused.saturating_add(served.refused),
    }
}

/// The sessions that rested. None does now.
fn take_resting(alloc: Global, stage: &mut Stage) -> Vec<TestSession>
    ensures given { (gates : Gates) → Every (CanGoOn gates) stage.old.resting.items
        → Every (CanGoOn gates) result.items }
    ensures none { (gates : Gates) → Every (CanGoOn gates) stage.new.resting.items }
    ensures seen { stage.new.seen ≡ stage.old.seen }
{
    mem::replace(&mut stage.resting, Vec::new(alloc))
}

/// The sessions of these workers rest now. False where memory is refused, and then those rest that did.
fn put_resting(alloc: Global, workers: Vec<Vec<TestSession>>, stage: &mut Stage) -> bool
    ensures rest { (gates : Gates)
        → Every (CanGoOn gates) (concat (map (λ one. one.items) workers.items))
        → Every (CanGoOn gates) stage.old.resting.items
        → Every (CanGoOn gates) stage.new.resting.items }
    ensures seen { stage.new.seen ≡ stage.old.seen }
{
    match rest_of(alloc, workers) {
        Some(resting) => {
            stage.resting = resting;
            true
        }
        None => false,
    }
}

/// Whether what a run left by this plan is counted right, and its ends are those of these lines. What rests of it stands in the stage then.
fn take_served(
    alloc: Global,
    lines: &[Line],
    plan: &Plan,
    served: TestServed,
    stage: &mut Stage,
) -> bool
    ensures rest { (gates : Gates)
        → Every (CanGoOn gates) (concat (map (λ one. one.items) served.resting.items))
        → Every (CanGoOn gates) stage.old.resting.items
        → Every (CanGoOn gates) stage.new.resting.items }
    ensures seen { stage.new.seen ≡ stage.old.seen }
{
    let is_right = is_counted(&served, plan.order.as_slice(), lines);
    stage.sums = count_run(stage.sums, plan.begun, &served);
    put_resting(alloc, resting_of(served), stage) && is_right
}

/// The same of a run of what rests and of new sessions by these setups, whose streams are made by these wires.
fn run_by_setups<'x, X: Threads + Wait + Sync, Q: Pause + Sync>(
    rt: &X,
    shared: &'x Shared,
    wires: Wires<'x>,
    lines: &'x [Line],
    plan: &Plan,
    serving_setups: Vec<TestServingSetup>,
    pause: &Q,
    stage: &mut Stage,
) -> bool
    requires rest { Every (CanGoOn shared.now) stage.old.resting.items }
    requires seen { ArePassesOf shared.now stage.old.seen }
    requires count { (1 ≤ length serving_setups.items) × (length serving_setups.items ≤ 2) }
    requires new { Every (IsNewServingSetup (λ sink. sink.ends.items)
        (λ sink n. vec_len sink.ends + n ≤ vec_capacity sink.ends)) serving_setups.items }
    ensures rest { Every (CanGoOn shared.now) stage.new.resting.items }
    ensures seen { ArePassesOf shared.now stage.new.seen }
{
    let number = stage.sums.begun;
    let sessions = Sessions {
        alloc: wires.alloc,
        shared,
        counts: wires.counts,
        most: wires.most,
        resting: take_resting(wires.alloc, stage),
        lines: lines_of(lines, number, plan.begun),
        number,
        fails: false,
    };
    match play(rt, shared, sessions, serving_setups, pause, &mut stage.seen) {
        Ok(served) => take_served(wires.alloc, lines, plan, served, stage),
        Err(_) => false,
    }
}

/// The same by new setups.
fn run_planned<'x, X: Threads + Wait + Sync, Q: Pause + Sync>(
    rt: &X,
    shared: &'x Shared,
    wires: Wires<'x>,
    manner: Manner,
    lines: &'x [Line],
    plan: &Plan,
    pause: &Q,
    stage: &mut Stage,
) -> bool
    requires rest { Every (CanGoOn shared.now) stage.old.resting.items }
    requires seen { ArePassesOf shared.now stage.old.seen }
    ensures rest { Every (CanGoOn shared.now) stage.new.resting.items }
    ensures seen { ArePassesOf shared.now stage.new.seen }
{
    let rooms = rooms_of(manner, stage);
    match new_serving_setups(wires.alloc, manner.are_two, rooms, wires.counts) {
        Ok(serving_setups) => run_by_setups(
            rt,
            shared,
            wires,
            lines,
            plan,
            serving_setups,
            pause,
            stage,
        ),
        Err(_) => false,
    }
}

/// Makes the next run over these gates, of what rests and of new sessions over these lines. False where it fails, or isn't counted right, or its ends
/// aren't those of these lines.
pub fn run_once<'x, X: Threads + Wait + Sync, Q: Pause + Sync>(
    rt: &X,
    alloc: Global,
    shared: &'x Shared,
    manner: Manner,
    lines: &'x [Line],
    stage: &mut Stage,
    pause: &Q,
) -> bool
    requires rest { Every (CanGoOn shared.now) stage.old.resting.items }
    requires seen { ArePassesOf shared.now stage.old.seen }
    ensures rest { Every (CanGoOn shared.now) stage.new.resting.items }
    ensures seen { ArePassesOf shared.now stage.new.seen }
{
    let Ok(counts) = Arc::new(alloc, Counts::new()) else {
        return false;
    };
    let wires = Wires {
        alloc,
        counts: &counts,
        most: manner.most,
    };
    match plan_of(alloc, manner, lines, stage) {
        Some(plan) => run_planned(rt, shared, wires, manner, lines, &plan, pause, stage),
        None => false,
    }
}

/// Is to be raised after so many looks.
pub fn after_looks(most: u64) -> AfterLooks {
    AfterLooks {
        most,
        looks: AtomicU64::new(0),
    }
}

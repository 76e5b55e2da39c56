//! Four threads at one gate: each does the same in rounds.
ghost use Rattle.std.specs.Prelude.{◌≡◌};

use crate::gates::steps::{Act, Outcome, Request, Turn, View, is_shown_anew, writes};
use rw_gate::{Gate, Kept, Pass};
use std::alloc::Global;
use std::sync::Wait;

/// The work of each of four threads, and what is shown after it.
pub(crate) struct Work<Q: 'static, V: 'static> {
    /// How many rounds a thread makes.
    pub(crate) rounds: u8,
    /// What it does in a round, under a right to write for each of these lists.
    pub(crate) writes: &'static [&'static [Act<Q, V>]],
    /// What a new pass is shown in the end.
    pub(crate) end: V,
    /// How many events it has then seen.
    pub(crate) events: u64,
}

/// Whether a thread's round went well. It waits for each right.
fn makes_round<S, Q, V, R>(
    rt: &R,
    alloc: Global,
    gate: &Gate<S>,
    pass: &mut Pass<S>,
    lists: &[&[Act<Q, V>]],
    turn: Turn,
) -> bool
where
    S: Kept,
    Q: Request<S, S::Ask, S::Reply, S::Refusal>,
    V: View<S>,
    R: Wait,
    requires { pass.old.gate ≡ gate.now }
    ensures { pass.new.gate ≡ pass.old.gate }
{
    let mut is_well = true;
    for all in lists {
        let mut right = gate.write(rt);
        let outcome = writes(&mut right, gate, pass, alloc, all, turn);
        right.release();
        is_well = is_well && outcome == Outcome::Done;
    }
    is_well
}

/// Whether all rounds of a thread went well.
pub(crate) fn makes_rounds<S, Q, V, R>(
    rt: &R,
    alloc: Global,
    gate: &Gate<S>,
    work: &Work<Q, V>,
    thread: u8,
) -> bool
where
    S: Kept,
    Q: Request<S, S::Ask, S::Reply, S::Refusal>,
    V: View<S>,
    R: Wait,
{
    let mut pass = gate.pass();
    let mut is_well = true;
    for round in 0..work.rounds {
        let turn = Turn { thread, round };
        is_well = makes_round(rt, alloc, gate, &mut pass, work.writes, turn) && is_well;
    }
    is_well
}

pub(crate) fn name_of(thread: usize) -> u8 {
    match thread {
        0 => b'a',
        1 => b'b',
        2 => b'c',
        _ => b'd',
    }
}

fn goes<T: Send>(_: &T) {}

fn is_shared<T: Sync>(_: &T) {}

/// Any gate and any pass may go to another thread, and a gate may be shared.
pub(crate) fn cross_threads<S: Kept + Send + Sync>(gate: &Gate<S>, pass: &Pass<S>) {
    goes(gate);
    is_shared(gate);
    goes(pass);
}

/// Whether a reader with a new pass, who waits for the right, is shown what stands at the end of the work.
pub(crate) fn is_end<S: Kept, Q, V: View<S>, R: Wait>(
    rt: &R,
    alloc: Global,
    gate: &Gate<S>,
    work: &Work<Q, V>,
) -> bool {
    is_shown_anew(gate.read(rt), gate.pass(), alloc, &work.end, work.events)
}

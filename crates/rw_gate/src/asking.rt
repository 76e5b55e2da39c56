//! One ask of a state behind a gate, by a caller who has a pass of it.
ghost use Rattle.std.specs.Prelude.{◌≡◌};
ghost use mathlib.Core.List.{IsPrefix};
ghost use Rattle.rw_gate.specs.Histories.{IsReplayed};
ghost use Rattle.rw_gate.specs.Asking.{Comes, MadeRightBehind, SeesUnder};

use crate::gate::Gate;
use crate::kept::{Kept, Plan};
use crate::pass::Pass;
use crate::write::{PublishFault, WriteRight};
use std::alloc::Global;
use std::sync::Wait;

/// What came of an ask.
#[derive(Drop)]
pub enum AskOutcome<P, F> {
    /// It was accepted, as the next event of the history, and this is its answer.
    Made(P),
    /// It changes nothing, and this is its answer.
    Told(P),
    /// It was refused.
    Refused(F),
    /// The history has gone on past the state under the right, and nothing was changed.
    Moved,
    /// The history can have no further event, and nothing was changed.
    Full,
}

/// Asks once, by the pass, under a right to write of its own: waits until the state is in hand, looks,
/// plans what is asked, publishes the change, and gives the right back. Memory is taken by the state's
/// own `prepare` alone.
pub fn ask<S: Kept, R: Wait>(
    rt: &R,
    alloc: Global,
    gate: &Gate<S>,
    pass: &mut Pass<S>,
    ask: S::Ask,
) -> AskOutcome<S::Reply, S::Refusal>
    requires { pass.old.gate ≡ gate.now }
    ensures gate { pass.new.gate ≡ pass.old.gate }
    ensures more { IsPrefix pass.old.prefix pass.new.prefix }
    ensures outcome { Comes S.content S.accepts S.answers S.refuses S.asks S.answered_by
        ask pass.old pass.new result }
{
    let mut right = gate.write(rt);
    let outcome = ask_under(&mut right, alloc, pass, ask);
    right.release();
    outcome
}

/// Asks once under a right to write, which the caller gives back: looks, plans what is asked, and publishes the change.
pub fn ask_under<S: Kept>(
    right: &mut WriteRight<'_, S>,
    alloc: Global,
    pass: &mut Pass<S>,
    ask: S::Ask,
) -> AskOutcome<S::Reply, S::Refusal>
    requires { pass.old.gate ≡ right.old.gate }
    ensures gate { pass.new.gate ≡ pass.old.gate }
    ensures more { IsPrefix pass.old.prefix pass.new.prefix }
    ensures outcome { Comes S.content S.accepts S.answers S.refuses S.asks S.answered_by
        ask pass.old pass.new result }
    ensures under { SeesUnder S.content S.accepts S.answers S.refuses S.asks S.answered_by
        right.old.history pass.new result }
{
    if right.look(pass).is_err() {
        return AskOutcome::Moved;
    }
    ask_shown(right, alloc, pass, ask)
}

/// Asks once under a right whose whole history the pass has seen, as a look has just shown it.
pub fn ask_shown<S: Kept>(
    right: &mut WriteRight<'_, S>,
    alloc: Global,
    pass: &mut Pass<S>,
    ask: S::Ask,
) -> AskOutcome<S::Reply, S::Refusal>
    requires gate { pass.old.gate ≡ right.old.gate }
    requires shown { pass.old.prefix ≡ right.old.history }
    requires replay { IsReplayed S.content S.accepts right.old }
    ensures gate { pass.new.gate ≡ pass.old.gate }
    ensures more { IsPrefix pass.old.prefix pass.new.prefix }
    ensures outcome { Comes S.content S.accepts S.answers S.refuses S.asks S.answered_by
        ask pass.old pass.new result }
    ensures follows { MadeRightBehind S.content S.accepts S.answers S.refuses S.asks S.answered_by
        ask pass.old pass.new result }
    ensures under { SeesUnder S.content S.accepts S.answers S.refuses S.asks S.answered_by
        right.old.history pass.new result }
{
    match right.prepare(alloc, ask) {
        Ok(Plan::Change(change)) => match right.publish(pass, change) {
            Ok(reply) => AskOutcome::Made(reply),
            Err(PublishFault::Moved(_)) => AskOutcome::Moved,
            Err(PublishFault::Full) => AskOutcome::Full,
        },
        Ok(Plan::Nothing(reply)) => AskOutcome::Told(reply),
        Err(refusal) => AskOutcome::Refused(refusal),
    }
}

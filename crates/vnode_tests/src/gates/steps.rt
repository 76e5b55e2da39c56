//! Steps at a gate round any state: a table lists them, and these functions take them.
ghost use Rattle.std.specs.Prelude.{◌≡◌};
ghost use Rattle.rw_gate.specs.Plans.{IfChange};

use crate::gates::attempts::{Attempt, are_so_beside_reader, succeeds};
use rw_gate::{Gate, Kept, Pass, Plan, ReadRight, WriteRight};
use std::alloc::Global;

/// A thread, and how many rounds it has made.
#[derive(Clone, Copy)]
pub(crate) struct Turn {
    pub(crate) thread: u8,
    pub(crate) round: u8,
}

/// The turn of a test in one thread.
const ALONE: Turn = Turn {
    thread: b'a',
    round: 0,
};

/// What came of a request.
#[derive(Clone, Copy, PartialEq, Eq)]
pub(crate) enum Outcome {
    /// It was answered as the table says.
    Done,
    /// Memory was refused, and nothing changed.
    NoMemory,
    /// It was not answered as the table says.
    Wrong,
}

/// The outcome of an answer that is as the table says, or not.
fn done_if(is_so: bool) -> Outcome {
    if is_so { Outcome::Done } else { Outcome::Wrong }
}

/// A request of a state `S` and its answer, by what is asked, replied and refused there.
pub(crate) trait Request<S, A, R, F> {
    /// What is asked. `None` where memory was refused for it.
    fn ask(&self, alloc: Global, turn: Turn) -> Option<A>;

    /// Whether it is answered like this, by an event or by none.
    fn is_reply(&self, reply: R, is_event: bool) -> bool;

    /// What it means that it was refused.
    fn refused(&self, refusal: F) -> Outcome;
}

/// What a look at a state `S` shows.
pub(crate) trait View<S> {
    fn is_of(&self, state: &S, alloc: Global, turn: Turn) -> bool;
}

/// Whose pass it is.
#[derive(Clone, Copy)]
pub(crate) enum Who {
    Ann,
    Bob,
}

/// What is done under a right to write.
pub(crate) enum Act<Q: 'static, V: 'static> {
    /// A request, which is answered as it says.
    Ask(Q),
    /// A look, which shows this.
    Look(V),
    /// An attempt of another caller, and whether it succeeds.
    Beside(Attempt, bool),
}

/// A step at a gate. A right is taken by one attempt, and given back.
pub(crate) enum Step<Q: 'static, V: 'static> {
    /// An attempt, and whether it succeeds. What it takes is given back, but for a mark.
    Try(Attempt, bool),
    /// Attempts beside a reader.
    BesideReader(&'static [(Attempt, bool)]),
    /// So many events a pass has seen.
    Seen(Who, u64),
    /// Under one right to read first Ann and then Bob is shown this.
    Look(V),
    /// Under a right to read a new pass is shown this, and has then seen so many events.
    LookAnew(V, u64),
    /// What is done under one right to write. Where memory is refused at the first act, it is done again under another one.
    Write(Who, &'static [Act<Q, V>]),
}

/// Whether a look under a right to read shows this.
fn is_shown<S: Kept, V: View<S>>(
    right: &ReadRight<'_, S>,
    pass: &mut Pass<S>,
    alloc: Global,
    view: &V,
) -> bool
    requires { pass.old.gate ≡ right.now.gate }
    ensures { pass.new.gate ≡ pass.old.gate }
{
    match right.look(pass) {
        Ok(state) => view.is_of(state, alloc, ALONE),
        Err(_) => false,
    }
}

/// Whether two looks under one right to read show this.
fn is_shown_to_both<S: Kept, V: View<S>>(
    gate: &Gate<S>,
    ann: &mut Pass<S>,
    bob: &mut Pass<S>,
    alloc: Global,
    view: &V,
) -> bool
    requires ann { ann.old.gate ≡ gate.now }
    requires bob { bob.old.gate ≡ gate.now }
    ensures ann { ann.new.gate ≡ ann.old.gate }
    ensures bob { bob.new.gate ≡ bob.old.gate }
{
    let Some(right) = gate.try_read() else {
        return false;
    };
    let is_first = is_shown(&right, ann, alloc, view);
    let is_second = is_shown(&right, bob, alloc, view);
    right.release();
    is_first && is_second
}

/// Whether a reader with a new pass is shown this, and the pass has then seen so many events. The reader leaves.
pub(crate) fn is_shown_anew<S: Kept, V: View<S>>(
    right: ReadRight<'_, S>,
    pass: Pass<S>,
    alloc: Global,
    view: &V,
    events: u64,
) -> bool
    requires { pass.gate ≡ right.gate }
{
    let mut pass = pass;
    let is_shown = is_shown(&right, &mut pass, alloc, view);
    right.release();
    is_shown && pass.seen() == events
}

/// The same of a reader who comes in by one attempt.
fn is_shown_to_new<S: Kept, V: View<S>>(
    gate: &Gate<S>,
    alloc: Global,
    view: &V,
    events: u64,
) -> bool {
    match gate.try_read() {
        Some(right) => is_shown_anew(right, gate.pass(), alloc, view, events),
        None => false,
    }
}

/// What comes of a plan for a request.
fn finishes<S: Kept, Q: Request<S, S::Ask, S::Reply, S::Refusal>>(
    right: &mut WriteRight<'_, S>,
    pass: &mut Pass<S>,
    request: &Q,
    plan: Plan<S::Change, S::Reply>,
) -> bool
    requires gate { pass.old.gate ≡ right.old.gate }
    requires ready { IfChange plan (λ change. S.ready right.old.state change) }
    ensures pass { pass.new.gate ≡ pass.old.gate }
    ensures right { right.new.gate ≡ right.old.gate }
{
    match plan {
        Plan::Change(change) => match right.publish(pass, change) {
            Ok(reply) => request.is_reply(reply, true),
            Err(_) => false,
        },
        Plan::Nothing(reply) => request.is_reply(reply, false),
    }
}

/// What comes of a request.
fn asks<S: Kept, Q: Request<S, S::Ask, S::Reply, S::Refusal>>(
    right: &mut WriteRight<'_, S>,
    pass: &mut Pass<S>,
    alloc: Global,
    request: &Q,
    turn: Turn,
) -> Outcome
    requires { pass.old.gate ≡ right.old.gate }
    ensures pass { pass.new.gate ≡ pass.old.gate }
    ensures right { right.new.gate ≡ right.old.gate }
{
    let Some(ask) = request.ask(alloc, turn) else {
        return Outcome::NoMemory;
    };
    match right.prepare(alloc, ask) {
        Ok(plan) => done_if(finishes(right, pass, request, plan)),
        Err(refusal) => request.refused(refusal),
    }
}

/// Whether a look under a right to write shows this.
fn is_shown_in_hand<S: Kept, V: View<S>>(
    right: &WriteRight<'_, S>,
    pass: &mut Pass<S>,
    alloc: Global,
    view: &V,
    turn: Turn,
) -> bool
    requires { pass.old.gate ≡ right.now.gate }
    ensures { pass.new.gate ≡ pass.old.gate }
{
    match right.look(pass) {
        Ok(state) => view.is_of(state, alloc, turn),
        Err(_) => false,
    }
}

/// What comes of an act under a right.
fn acts<S: Kept, Q: Request<S, S::Ask, S::Reply, S::Refusal>, V: View<S>>(
    right: &mut WriteRight<'_, S>,
    gate: &Gate<S>,
    pass: &mut Pass<S>,
    alloc: Global,
    act: &Act<Q, V>,
    turn: Turn,
) -> Outcome
    requires { pass.old.gate ≡ right.old.gate }
    ensures pass { pass.new.gate ≡ pass.old.gate }
    ensures right { right.new.gate ≡ right.old.gate }
{
    match act {
        Act::Ask(request) => asks(right, pass, alloc, request, turn),
        Act::Look(view) => done_if(is_shown_in_hand(right, pass, alloc, view, turn)),
        Act::Beside(attempt, is_let) => done_if(succeeds(gate, *attempt) == *is_let),
    }
}

/// What comes of acts under a right, up to the first that isn't done.
pub(crate) fn writes<S: Kept, Q: Request<S, S::Ask, S::Reply, S::Refusal>, V: View<S>>(
    right: &mut WriteRight<'_, S>,
    gate: &Gate<S>,
    pass: &mut Pass<S>,
    alloc: Global,
    all: &[Act<Q, V>],
    turn: Turn,
) -> Outcome
    requires pass { pass.old.gate ≡ gate.now }
    requires right { right.old.gate ≡ gate.now }
    ensures pass { pass.new.gate ≡ gate.now }
    ensures right { right.new.gate ≡ gate.now }
{
    let mut outcome = Outcome::Done;
    for act in all {
        if outcome == Outcome::Done {
            outcome = acts(right, gate, pass, alloc, act, turn);
        }
    }
    outcome
}

/// The same under a right of its own.
fn writes_alone<S: Kept, Q: Request<S, S::Ask, S::Reply, S::Refusal>, V: View<S>>(
    gate: &Gate<S>,
    pass: &mut Pass<S>,
    alloc: Global,
    all: &[Act<Q, V>],
) -> Outcome
    requires { pass.old.gate ≡ gate.now }
    ensures { pass.new.gate ≡ pass.old.gate }
{
    let Some(right) = gate.try_write() else {
        return Outcome::Wrong;
    };
    let mut right = right;
    let outcome = writes(&mut right, gate, pass, alloc, all, ALONE);
    right.release();
    outcome
}

/// Whether all acts are done, once more where memory was refused.
fn are_done<S: Kept, Q: Request<S, S::Ask, S::Reply, S::Refusal>, V: View<S>>(
    gate: &Gate<S>,
    pass: &mut Pass<S>,
    alloc: Global,
    all: &[Act<Q, V>],
) -> bool
    requires { pass.old.gate ≡ gate.now }
    ensures { pass.new.gate ≡ pass.old.gate }
{
    match writes_alone(gate, pass, alloc, all) {
        Outcome::Done => true,
        Outcome::NoMemory => writes_alone(gate, pass, alloc, all) == Outcome::Done,
        Outcome::Wrong => false,
    }
}

/// Whether a step that takes no pass is as it says.
fn is_tried<S: Kept, Q, V: View<S>>(gate: &Gate<S>, alloc: Global, step: &Step<Q, V>) -> bool {
    match step {
        Step::Try(attempt, is_let) => succeeds(gate, *attempt) == *is_let,
        Step::BesideReader(attempts) => are_so_beside_reader(gate, attempts),
        Step::LookAnew(view, events) => is_shown_to_new(gate, alloc, view, *events),
        _ => false,
    }
}

/// Whose pass a step takes, where it takes one.
fn who_takes<Q, V>(step: &Step<Q, V>) -> Who {
    match step {
        Step::Seen(who, _) | Step::Write(who, _) => *who,
        _ => Who::Ann,
    }
}

/// Whether a step of one pass is as it says.
fn is_taken_by<S: Kept, Q: Request<S, S::Ask, S::Reply, S::Refusal>, V: View<S>>(
    gate: &Gate<S>,
    pass: &mut Pass<S>,
    alloc: Global,
    step: &Step<Q, V>,
) -> bool
    requires { pass.old.gate ≡ gate.now }
    ensures { pass.new.gate ≡ pass.old.gate }
{
    match step {
        Step::Seen(_, events) => pass.seen() == *events,
        Step::Write(_, all) => are_done(gate, pass, alloc, all),
        _ => is_tried(gate, alloc, step),
    }
}

/// Whether a step is as it says.
fn is_taken<S: Kept, Q: Request<S, S::Ask, S::Reply, S::Refusal>, V: View<S>>(
    gate: &Gate<S>,
    ann: &mut Pass<S>,
    bob: &mut Pass<S>,
    alloc: Global,
    step: &Step<Q, V>,
) -> bool
    requires ann { ann.old.gate ≡ gate.now }
    requires bob { bob.old.gate ≡ gate.now }
    ensures ann { ann.new.gate ≡ ann.old.gate }
    ensures bob { bob.new.gate ≡ bob.old.gate }
{
    if let Step::Look(view) = step {
        return is_shown_to_both(gate, ann, bob, alloc, view);
    }
    match who_takes(step) {
        Who::Ann => is_taken_by(gate, ann, alloc, step),
        Who::Bob => is_taken_by(gate, bob, alloc, step),
    }
}

/// Whether each step at a gate is as it says.
fn are_taken<S: Kept, Q: Request<S, S::Ask, S::Reply, S::Refusal>, V: View<S>>(
    gate: &Gate<S>,
    alloc: Global,
    steps: &[Step<Q, V>],
) -> bool {
    let mut ann = gate.pass();
    let mut bob = gate.pass();
    let mut are_so = true;
    for step in steps {
        are_so = are_so && is_taken(gate, &mut ann, &mut bob, alloc, step);
    }
    are_so
}

/// A gate round a state, made once more where memory was refused.
fn new_gate<S: Kept>(alloc: Global, state: S) -> Result<Gate<S>, S> {
    match Gate::new(alloc, state) {
        Ok(gate) => Ok(gate),
        Err(state) => Gate::new(alloc, state),
    }
}

/// Whether each step at a gate round a state is as it says.
pub(crate) fn plays<S: Kept, Q: Request<S, S::Ask, S::Reply, S::Refusal>, V: View<S>>(
    alloc: Global,
    state: S,
    steps: &[Step<Q, V>],
) -> bool {
    match new_gate(alloc, state) {
        Ok(gate) => are_taken(&gate, alloc, steps),
        Err(_) => false,
    }
}

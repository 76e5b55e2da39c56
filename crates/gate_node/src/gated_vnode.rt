//! The requests to one vnode behind a gate.
ghost use Rattle.std.specs.Prelude.{◌≡◌, nat_le, length};
ghost use mathlib.Core.List.{IsPrefix};
ghost use Rattle.rw_gate.specs.Histories.{IsReplayed};
ghost use Rattle.vnode_core.specs.Events.{Makes};
ghost use Rattle.vnode_core.specs.declared.ask.Ask.TheVariants.{Put};
ghost use Rattle.gate_node.specs.Asked.{IsShownGet, Gets, Changes, ReapsUpTo, AnswersAndReaps};
ghost use Rattle.gate_node.specs.Asked.{ComesOf, ComesUnchanged, SeesUnder, state_of};

use crate::call::Call;
use crate::get_answer::GetAnswer;
use crate::replies::counted_reply;
use crate::turnstile::Turnstile;
use riak_msgs::{GetAsk, PutAsk, Reply, Text};
use rw_gate::{AskOutcome, Gate, Pass, WriteRight, ask, ask_shown};
use stats_book::Quantity;
use std::alloc::Global;
use std::sync::Wait;
use vnode_core::{Answer, Ask, Refusal, Vnode};

/// A reply as it is handed on, what it is counted as, and how many dead keys were forgotten then.
#[derive(Drop)]
pub(crate) struct Answered<A> {
    pub(crate) reply: A,
    pub(crate) quantity: Option<Quantity>,
    pub(crate) reaps: u32,
}

/// Answers a get, under a right to read, behind the turnstile.
#[inline(always)]
fn answer_get<W: Wait, T: Turnstile, G, A: GetAnswer<G>>(
    call: Call<'_, W, T>,
    gate: &Gate<Vnode>,
    pass: &mut Pass<Vnode>,
    get: &G,
    frame: &mut A::Frame,
    room: &mut A::Room,
) -> A
    requires pass { pass.old.gate ≡ gate.now }
    requires free { A.is_free frame.old }
    ensures gate { pass.new.gate ≡ pass.old.gate }
    ensures more { IsPrefix pass.old.prefix pass.new.prefix }
    ensures shown { IsShownGet (A.get get.now) pass.old pass.new (A.reply result) }
    ensures put { A.is_put result frame.new }
{
    let right = gate.read(call.rt);
    call.shared.enter(call.turnstile);
    match right.look(pass) {
        Ok(vnode) => {
            let reply = A::show(vnode, call.alloc, call.reserve, get, frame, room);
            right.release();
            reply
        }
        Err(_) => {
            right.release();
            A::error(Text::Moved, frame)
        }
    }
}

/// What comes of a put for which there is no memory: the first check that holds refuses it, and else that.
fn outcome_without_memory(vnode: &Vnode, put: &PutAsk) -> AskOutcome<Answer, Refusal>
    ensures { ComesUnchanged vnode.now.state (Put put.now) result }
{
    match vnode.refusal_without_memory(put) {
        Some(refusal) => AskOutcome::Refused(refusal),
        None => AskOutcome::Told(Answer::Closed),
    }
}

/// Refuses a put for which there is no memory, under a right, which the caller gives back.
#[inline(never)]
fn refuse_put(
    right: &WriteRight<'_, Vnode>,
    pass: &mut Pass<Vnode>,
    put: &PutAsk,
) -> AskOutcome<Answer, Refusal>
    requires { pass.old.gate ≡ right.now.gate }
    ensures gate { pass.new.gate ≡ pass.old.gate }
    ensures more { IsPrefix pass.old.prefix pass.new.prefix }
    ensures outcome { ComesOf (Put put.now) pass.old pass.new result }
    ensures under { SeesUnder right.now.history pass.new result }
{
    match right.look(pass) {
        Ok(vnode) => outcome_without_memory(vnode, put),
        Err(_) => AskOutcome::Moved,
    }
}

/// Asks once under a right whose whole history the pass has seen, as a look has just shown it. A put that has no room is refused.
#[inline(always)]
pub(crate) fn ask_seen(
    right: &mut WriteRight<'_, Vnode>,
    alloc: Global,
    pass: &mut Pass<Vnode>,
    change: Ask,
    has_room: bool,
) -> AskOutcome<Answer, Refusal>
    requires gate { pass.old.gate ≡ right.old.gate }
    requires shown { pass.old.prefix ≡ right.old.history }
    requires replay { IsReplayed state_of Makes right.old }
    ensures gate { pass.new.gate ≡ pass.old.gate }
    ensures more { IsPrefix pass.old.prefix pass.new.prefix }
    ensures outcome { ComesOf change pass.old pass.new result }
    ensures under { SeesUnder right.old.history pass.new result }
{
    if !has_room {
        if let Ask::Put(put) = &change {
            return refuse_put(right, pass, put);
        }
    }
    ask_shown(right, alloc, pass, change)
}

/// Asks once under a right to write, which the caller gives back.
#[inline(always)]
fn ask_vnode(
    right: &mut WriteRight<'_, Vnode>,
    alloc: Global,
    pass: &mut Pass<Vnode>,
    change: Ask,
    has_room: bool,
) -> AskOutcome<Answer, Refusal>
    requires { pass.old.gate ≡ right.old.gate }
    ensures gate { pass.new.gate ≡ pass.old.gate }
    ensures more { IsPrefix pass.old.prefix pass.new.prefix }
    ensures outcome { ComesOf change pass.old pass.new result }
{
    if right.look(pass).is_err() {
        return AskOutcome::Moved;
    }
    ask_seen(right, alloc, pass, change, has_room)
}

/// Answers what may change the vnode, under a right to write, behind the turnstile; and what that is counted as.
#[inline(always)]
fn answer_change<W: Wait, T: Turnstile>(
    call: Call<'_, W, T>,
    gate: &Gate<Vnode>,
    pass: &mut Pass<Vnode>,
    change: Ask,
) -> (Reply, Option<Quantity>)
    requires { pass.old.gate ≡ gate.now }
    ensures gate { pass.new.gate ≡ pass.old.gate }
    ensures more { IsPrefix pass.old.prefix pass.new.prefix }
    ensures answers { Changes change pass.old pass.new result.0 result.1 }
{
    let has_room = call.reserve.has_room_for(call.alloc, &change);
    let mut right = gate.write(call.rt);
    call.shared.enter(call.turnstile);
    let outcome = ask_vnode(&mut right, call.alloc, pass, change, has_room);
    right.release();
    counted_reply(outcome)
}

/// Forgets the vnode's first dead keys, so many at most, each under a right to write of its own, until no further one is
/// forgotten; and how many those were.
fn reap<W: Wait>(
    rt: &W,
    alloc: Global,
    gate: &Gate<Vnode>,
    pass: &mut Pass<Vnode>,
    budget: u32,
) -> u32
    requires { pass.old.gate ≡ gate.now }
    ensures gate { pass.new.gate ≡ pass.old.gate }
    ensures reaps { ReapsUpTo budget result pass.old pass.new }
{
    let mut count = 0;
    while count < budget {
        match ask(rt, alloc, gate, pass, Ask::ReapFirst(None)) {
            AskOutcome::Made(_) => count += 1,
            _ => return count,
        }
    }
    count
}

/// The same, without a call where none may be forgotten.
#[inline(always)]
fn reap_allowed<W: Wait>(
    rt: &W,
    alloc: Global,
    gate: &Gate<Vnode>,
    pass: &mut Pass<Vnode>,
    budget: u32,
) -> u32
    requires { pass.old.gate ≡ gate.now }
    ensures gate { pass.new.gate ≡ pass.old.gate }
    ensures reaps { ReapsUpTo budget result pass.old pass.new }
{
    if budget == 0 {
        return 0;
    }
    reap(rt, alloc, gate, pass, budget)
}

/// Answers a get, and then forgets the vnode's first dead keys, as many as the budget allows.
#[inline(always)]
pub(crate) fn get_and_reap<W: Wait, T: Turnstile, G, A: GetAnswer<G>>(
    call: Call<'_, W, T>,
    gate: &Gate<Vnode>,
    pass: &mut Pass<Vnode>,
    get: &G,
    frame: &mut A::Frame,
    room: &mut A::Room,
) -> Answered<A>
    requires pass { pass.old.gate ≡ gate.now }
    requires free { A.is_free frame.old }
    ensures gate { pass.new.gate ≡ pass.old.gate }
    ensures steps { AnswersAndReaps call.entry.shared.now.budget result.reaps
        (λ p q. Gets (A.get get.now) p q (A.reply result.reply) result.quantity) pass.old pass.new }
    ensures put { A.is_put result.reply frame.new }
{
    let reply = answer_get::<W, T, G, A>(call, gate, pass, get, frame, room);
    let quantity = Some(reply.quantity());
    let shared = call.shared;
    let reaps = reap_allowed(call.rt, call.alloc, gate, pass, shared.budget);
    Answered {
        reply,
        quantity,
        reaps,
    }
}

/// Answers what may change the vnode, and then forgets its first dead keys, as many as the budget allows.
#[inline(always)]
pub(crate) fn change_and_reap<W: Wait, T: Turnstile>(
    call: Call<'_, W, T>,
    gate: &Gate<Vnode>,
    pass: &mut Pass<Vnode>,
    change: Ask,
) -> Answered<Reply>
    requires { pass.old.gate ≡ gate.now }
    ensures gate { pass.new.gate ≡ pass.old.gate }
    ensures steps { AnswersAndReaps call.entry.shared.now.budget result.reaps
        (λ p q. Changes change p q result.reply result.quantity) pass.old pass.new }
{
    let (reply, quantity) = answer_change(call, gate, pass, change);
    let shared = call.shared;
    let reaps = reap_allowed(call.rt, call.alloc, gate, pass, shared.budget);
    Answered {
        reply,
        quantity,
        reaps,
    }
}

/// Shows the vnode to a pass that has seen fewer events of it than so many; and whether it has seen as many then.
pub(crate) fn catch_up<W: Wait>(
    rt: &W,
    gate: &Gate<Vnode>,
    pass: &mut Pass<Vnode>,
    number: u64,
) -> bool
    requires { pass.old.gate ≡ gate.now }
    ensures gate { pass.new.gate ≡ pass.old.gate }
    ensures more { IsPrefix pass.old.prefix pass.new.prefix }
    ensures own { pass.new.own ≡ pass.old.own }
    ensures far { result ≡ nat_le number (length pass.new.prefix) }
{
    if pass.seen() >= number {
        return true;
    }
    let right = gate.read(rt);
    // where the history has gone on past the state, that is shown all the same
    let _is_moved = right.look(pass).is_err();
    right.release();
    number <= pass.seen()
}

//! The requests to a partition's fallback, which is asked no more once it is closed.
ghost use Rattle.std.specs.Prelude.{◌≡◌, Some, IfOk, IfErr, IfSome, OnErr};
ghost use mathlib.Core.List.{IsPrefix};
ghost use Rattle.gate_node.specs.Asked.{ChangesOpen, GetsOpen, HasSeenClose, IsClosedWith};
ghost use Rattle.gate_node.specs.Asked.{ComesOf, IsOfOpenVnode, IsShownOpen, ShowsOpen};
ghost use Rattle.gate_node.specs.Passes.{AnswersAtFallback, AnswersBy, FindsClosed};
ghost use Rattle.gate_node.specs.Passes.{FitsPartition, IsClosedBy};

use crate::call::Call;
use crate::gated_vnode::ask_seen;
use crate::get_answer::GetAnswer;
use crate::passes::{FallbackPass, renew};
use crate::replies::counted_reply;
use crate::reserve::ReserveOf;
use crate::turnstile::Turnstile;
use handoff::Fallback;
use riak_msgs::{GetAsk, Reply, Text};
use rw_gate::{AskOutcome, Gate, Pass, WriteRight};
use stats_book::Quantity;
use std::alloc::Global;
use std::sync::Wait;
use vnode_core::{Answer, Ask, Refusal, Vnode};

/// Shows a vnode's state to a get, or the number of its close.
fn show_open<G, A: GetAnswer<G>>(
    vnode: &Vnode,
    alloc: Global,
    reserve: ReserveOf<'_>,
    get: &G,
    frame: &mut A::Frame,
    room: &mut A::Room,
) -> Result<A, u64>
    requires { A.is_free frame.old }
    ensures shown { IfOk result (λ reply.
        ShowsOpen (A.get get.now) (A.reply reply) vnode.now.state) }
    ensures put { IfOk result (λ reply. A.is_put reply frame.new) }
    ensures closed { IfErr result (λ number. vnode.now.state.closed ≡ Some number) }
    ensures free { OnErr result (A.is_free frame.new) }
{
    match vnode.closed_at() {
        None => Ok(A::show(vnode, alloc, reserve, get, frame, room)),
        Some(number) => Err(number),
    }
}

/// Answers a get, under a right to read, behind the turnstile; or gives the number of the vnode's close.
fn answer_get_open<W: Wait, T: Turnstile, G, A: GetAnswer<G>>(
    call: Call<'_, W, T>,
    gate: &Gate<Vnode>,
    pass: &mut Pass<Vnode>,
    get: &G,
    frame: &mut A::Frame,
    room: &mut A::Room,
) -> Result<A, u64>
    requires pass { pass.old.gate ≡ gate.now }
    requires free { A.is_free frame.old }
    ensures gate { pass.new.gate ≡ pass.old.gate }
    ensures more { IsPrefix pass.old.prefix pass.new.prefix }
    ensures shown { IfOk result (λ reply.
        IsShownOpen (A.get get.now) pass.old pass.new (A.reply reply)) }
    ensures put { IfOk result (λ reply. A.is_put reply frame.new) }
    ensures closed { IfErr result (λ number. IsClosedWith number pass.old pass.new) }
    ensures free { OnErr result (A.is_free frame.new) }
{
    let right = gate.read(call.rt);
    call.shared.enter(call.turnstile);
    match right.look(pass) {
        Ok(vnode) => {
            let found = show_open::<G, A>(vnode, call.alloc, call.reserve, get, frame, room);
            right.release();
            found
        }
        Err(_) => {
            right.release();
            Ok(A::error(Text::Moved, frame))
        }
    }
}

/// Asks once under a right to write, which the caller gives back; or gives the number of the vnode's close, and the ask.
fn ask_open_under(
    right: &mut WriteRight<'_, Vnode>,
    alloc: Global,
    pass: &mut Pass<Vnode>,
    change: Ask,
    has_room: bool,
) -> Result<AskOutcome<Answer, Refusal>, (u64, Ask)>
    requires { pass.old.gate ≡ right.old.gate }
    ensures gate { pass.new.gate ≡ pass.old.gate }
    ensures more { IsPrefix pass.old.prefix pass.new.prefix }
    ensures outcome { IfOk result (λ outcome. ComesOf change pass.old pass.new outcome) }
    ensures unclosed { IfOk result IsOfOpenVnode }
    ensures closed { IfErr result (λ back. IsClosedWith back.0 pass.old pass.new) }
    ensures same { IfErr result (λ back. back.1 ≡ change) }
{
    let Ok(vnode) = right.look(pass) else {
        return Ok(AskOutcome::Moved);
    };
    match vnode.closed_at() {
        None => Ok(ask_seen(right, alloc, pass, change, has_room)),
        Some(number) => Err((number, change)),
    }
}

/// Answers what may change the vnode, under a right to write, behind the turnstile, and what that is counted as; or gives the number of
/// the vnode's close, and the ask. The right is given back then, so that the caller has none while it asks for another.
fn answer_change_open<W: Wait, T: Turnstile>(
    call: Call<'_, W, T>,
    gate: &Gate<Vnode>,
    pass: &mut Pass<Vnode>,
    change: Ask,
) -> Result<(Reply, Option<Quantity>), (u64, Ask)>
    requires { pass.old.gate ≡ gate.now }
    ensures gate { pass.new.gate ≡ pass.old.gate }
    ensures more { IsPrefix pass.old.prefix pass.new.prefix }
    ensures answers { IfOk result (λ a. ChangesOpen change pass.old pass.new a.0 a.1) }
    ensures closed { IfErr result (λ back. IsClosedWith back.0 pass.old pass.new) }
    ensures same { IfErr result (λ back. back.1 ≡ change) }
{
    let has_room = call.reserve.has_room_for(call.alloc, &change);
    let mut right = gate.write(call.rt);
    call.shared.enter(call.turnstile);
    let found = ask_open_under(&mut right, call.alloc, pass, change, has_room);
    right.release();
    match found {
        Ok(outcome) => Ok(counted_reply(outcome)),
        Err(back) => Err(back),
    }
}

/// Answers a get at a fallback by a pass of it, or gives the number of its close, which the pass keeps.
fn get_by<W: Wait, T: Turnstile, G, A: GetAnswer<G>>(
    call: Call<'_, W, T>,
    gate: &Gate<Vnode>,
    kept: &mut FallbackPass,
    get: &G,
    frame: &mut A::Frame,
    room: &mut A::Room,
) -> Result<(A, Option<Quantity>), u64>
    requires gate { kept.old.pass.gate ≡ gate.now }
    requires seen { IfSome kept.old.closed (HasSeenClose kept.old.pass) }
    requires free { A.is_free frame.old }
    ensures answers { IfOk result (λ a. AnswersBy kept.old kept.new
        (λ p q. GetsOpen (A.get get.now) p q (A.reply a.0) a.1)) }
    ensures put { IfOk result (λ a. A.is_put a.0 frame.new) }
    ensures closed { IfErr result (λ number. IsClosedBy number kept.old kept.new) }
    ensures free { OnErr result (A.is_free frame.new) }
{
    if let Some(number) = kept.closed {
        return Err(number);
    }
    match answer_get_open::<W, T, G, A>(call, gate, &mut kept.pass, get, frame, room) {
        Ok(reply) => {
            let quantity = Some(reply.quantity());
            Ok((reply, quantity))
        }
        Err(number) => {
            kept.closed = Some(number);
            Err(number)
        }
    }
}

/// Answers what may change a vnode at a fallback by a pass of it; or gives the number of its close, which the pass keeps, and the ask.
fn change_by<W: Wait, T: Turnstile>(
    call: Call<'_, W, T>,
    gate: &Gate<Vnode>,
    kept: &mut FallbackPass,
    change: Ask,
) -> Result<(Reply, Option<Quantity>), (u64, Ask)>
    requires gate { kept.old.pass.gate ≡ gate.now }
    requires seen { IfSome kept.old.closed (HasSeenClose kept.old.pass) }
    ensures answers { IfOk result (λ a. AnswersBy kept.old kept.new
        (λ p q. ChangesOpen change p q a.0 a.1)) }
    ensures closed { IfErr result (λ back. IsClosedBy back.0 kept.old kept.new) }
    ensures same { IfErr result (λ back. back.1 ≡ change) }
{
    if let Some(number) = kept.closed {
        return Err((number, change));
    }
    match answer_change_open(call, gate, &mut kept.pass, change) {
        Ok(answered) => Ok(answered),
        Err(back) => {
            kept.closed = Some(back.0);
            Err(back)
        }
    }
}

/// Answers a get at the fallback of a partition, by the pass of it that is kept, and what that is counted as; or gives the number of the
/// fallback's close.
pub(crate) fn get_diverted<W: Wait, T: Turnstile, G, A: GetAnswer<G>>(
    call: Call<'_, W, T>,
    fallback: &Fallback,
    kept: &mut Option<FallbackPass>,
    get: &G,
    frame: &mut A::Frame,
    room: &mut A::Room,
) -> Result<(A, Option<Quantity>), u64>
    requires fits { FitsPartition (Some fallback.now) kept.old }
    requires free { A.is_free frame.old }
    ensures answers { IfOk result (λ a. AnswersAtFallback fallback.now kept.old kept.new
        (λ p q. GetsOpen (A.get get.now) p q (A.reply a.0) a.1)) }
    ensures put { IfOk result (λ a. A.is_put a.0 frame.new) }
    ensures closed { IfErr result (FindsClosed fallback.now kept.old kept.new) }
    ensures free { OnErr result (A.is_free frame.new) }
{
    renew(kept, fallback);
    match kept {
        Some(kept) => get_by::<W, T, G, A>(call, &fallback.gate, kept, get, frame, room),
        None => unreachable!(),
    }
}

/// Answers what may change a vnode at the fallback of a partition, by the pass of it that is kept, and what that is counted as; or gives
/// the number of the fallback's close, and the ask.
pub(crate) fn change_diverted<W: Wait, T: Turnstile>(
    call: Call<'_, W, T>,
    fallback: &Fallback,
    kept: &mut Option<FallbackPass>,
    change: Ask,
) -> Result<(Reply, Option<Quantity>), (u64, Ask)>
    requires { FitsPartition (Some fallback.now) kept.old }
    ensures answers { IfOk result (λ a. AnswersAtFallback fallback.now kept.old kept.new
        (λ p q. ChangesOpen change p q a.0 a.1)) }
    ensures closed { IfErr result (λ back. FindsClosed fallback.now kept.old kept.new back.0) }
    ensures same { IfErr result (λ back. back.1 ≡ change) }
{
    renew(kept, fallback);
    match kept {
        Some(kept) => change_by(call, &fallback.gate, kept, change),
        None => unreachable!(),
    }
}

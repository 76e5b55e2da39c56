//! A look, and a publish.

ghost use Rattle.std.specs.Prelude.{◌≡◌, None, IfOk, IfErr};
ghost use Rattle.node_steps.specs.declared.site.Site.{Site};
ghost use Rattle.vnode_machine.specs.Asks.{get_command};
ghost use Rattle.node_steps.specs.Parts.{IsFit};
ghost use Rattle.node_steps.specs.Turning.{HoldsTo, LooksTo, ReadsTo};
ghost use Rattle.node_steps.specs.World.{Holding, Reading};
ghost use Rattle.node_steps.specs.Steps.{Looks, Publishes};
ghost use Rattle.node_steps.specs.Running.{ask_of, phase_of, vnode_of, Turns};

use crate::call::Call;
use crate::copier;
use crate::fault::StepFault;
use crate::hand::Hand;
use crate::outcome::Outcome;
use crate::phase::Phase;
use crate::site::Site;
use riak_msgs::GetAsk;
use std::alloc::Global;

/// The phase as it was, where memory was refused for a look.
pub(crate) type Looked = Result<(Phase, Outcome), Phase>;

/// A reader looks at the state in place. Where the vnode is closed it is turned away, to its partition's own site.
fn look_in_place(alloc: Global, own: usize, index: usize, get: Box<GetAsk>, hand: &Hand) -> Looked
    ensures ok { IfOk result (λ r.
        ReadsTo own index (get_command get.value) hand.now.state (phase_of r.0) r.1) }
    ensures err { IfErr result (λ p. phase_of p ≡ Reading index (get_command get.value)) }
{
    if hand.is_closed() {
        let phase = Phase::Turned(own, index, Call::Get(get), None);
        return Ok((phase, Outcome::Elsewhere));
    }
    match hand.show(alloc, &get) {
        Ok(answer) => Ok((Phase::Done(index, None), answer)),
        Err(StepFault::NoMemory) => Err(Phase::Reading(index, get)),
    }
}

/// A worker looks at the state in its hand, of which it has planned nothing, and which isn't closed.
fn look_in_hand(alloc: Global, index: usize, call: Call, mut hand: Box<Hand>) -> Looked
    requires plan { hand.value.plan ≡ None }
    requires opened { hand.value.state.closed ≡ None }
    ensures ok { IfOk result (λ r.
        LooksTo index (ask_of call) hand.value.state (phase_of r.0) r.1) }
    ensures err { IfErr result (λ p.
        phase_of p ≡ Holding index (ask_of call) hand.value.state None) }
{
    match hand.look(alloc, &call) {
        Ok(None) => Ok((Phase::Holding(index, call, hand), Outcome::Done)),
        Ok(Some(answer)) => Ok((Phase::Done(index, Some(hand)), answer)),
        Err(StepFault::NoMemory) => Err(Phase::Holding(index, call, hand)),
    }
}

/// A holder looks at the state in its hand, of which it has planned nothing. Where the vnode is closed it
/// is turned away, to its partition's own site.
fn look_held(alloc: Global, own: usize, index: usize, call: Call, hand: Box<Hand>) -> Looked
    requires { hand.value.plan ≡ None }
    ensures ok { IfOk result (λ r.
        HoldsTo own index (ask_of call) hand.value.state (phase_of r.0) r.1) }
    ensures err { IfErr result (λ p.
        phase_of p ≡ Holding index (ask_of call) hand.value.state None) }
{
    if hand.is_closed() {
        let phase = Phase::Turned(own, index, call, Some(hand));
        return Ok((phase, Outcome::Elsewhere));
    }
    look_in_hand(alloc, index, call, hand)
}

/// Looks at the state in place or in hand. Where memory is refused the worker is as it was. In every
/// world that is kept the state is in place where a reader is inside.
pub(crate) fn look(alloc: Global, site: &Site, phase: Phase) -> Looked
    ensures ok { IfOk result (λ r. IsFit (vnode_of site.now).word (phase_of phase)
        → Turns Looks (vnode_of site.now) (phase_of phase) (vnode_of site.now) (phase_of r.0) r.1) }
    ensures err { IfErr result (λ p. phase_of p ≡ phase_of phase) }
{
    match phase {
        Phase::Reading(index, get) => match &site.place {
            Some(hand) => look_in_place(alloc, site.own, index, get, hand),
            None => Ok((Phase::Reading(index, get), Outcome::No)),
        },
        Phase::Holding(index, call, hand) => {
            if hand.has_plan() {
                return Ok((Phase::Holding(index, call, hand), Outcome::No));
            }
            look_held(alloc, site.own, index, call, hand)
        }
        Phase::Copying(own, from, key, stage) => {
            copier::look(alloc, site, own, from, key, stage)
        }
        other => Ok((other, Outcome::No)),
    }
}

/// Publishes what was planned. It takes no memory.
pub(crate) fn publish(phase: Phase) -> (Phase, Outcome)
    ensures { (site : Site) → Turns Publishes (vnode_of site) (phase_of phase)
        (vnode_of site) (phase_of result.0) result.1 }
{
    match phase {
        Phase::Holding(index, call, mut hand) => match hand.publish() {
            Some(answer) => (Phase::Done(index, Some(hand)), answer),
            None => (Phase::Holding(index, call, hand), Outcome::No),
        },
        Phase::Copying(own, from, key, stage) => copier::publish(own, from, key, stage),
        other => (other, Outcome::No),
    }
}

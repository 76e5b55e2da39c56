//! A vnode as a worker holds it.

ghost use Rattle.std.specs.Prelude.{◌≡◌, ◌-◌, ◌^◌, min, Some, None, IfOk, IfErr, IsSome, is_some};
ghost use Rattle.vnode_machine.specs.Copying.{apply_close};
ghost use Rattle.vnode_machine.specs.Step.{outcome};
ghost use Rattle.node_steps.specs.Hands.{command_of, ShowsBy, PlansAsk, PlansBy, PublishesPlan};
ghost use Rattle.node_steps.specs.CopyHands.{FindsClock, IsCopy, PlansCopy, copied_by};
ghost use Rattle.node_steps.specs.Running.{ask_of};
ghost use Rattle.node_steps.specs.Steps.{accepted_in, left_in};
ghost use Rattle.vnode_machine.specs.Sound.{IsSound};

use crate::call::Call;
use crate::copied_clock::CopiedClock;
use crate::fault::StepFault;
use crate::outcome::{Outcome, answered};
use ghost_state::GhostList;
use riak_msgs::{GetAsk, Key, Reply, Text};
use std::alloc::{AllocError, Global};
use std::marker::Model;
use vnode_core::{Ask, Change, KeyCopy, KeyRef, Plan, Refusal, Vnode, count_left};

/// A vnode of an id, and the change that was planned at a look. Contracts see its state and the plan.
pub(crate) struct Hand {
    id: u64,
    vnode: Vnode,
    change: Option<Change>,
}

/// One call at each place where one is let go.
impl Drop for Hand {
    fn drop(self) {
        let Hand {
            id: _id,
            vnode: _vnode,
            change: _change,
        } = self;
    }
}

impl Model for Hand {
    ghost use Rattle.node_steps.specs.Hands.{HandView, hand_of, IsHand};

    ghost Value = { HandView };

    ghost view = { hand_of };

    ghost invariant = { IsHand };
}

/// Puts a change, or none, in the place of the one before, which is let go.
fn replace(place: &mut Option<Change>, change: Option<Change>)
    ensures { place.new ≡ change }
{
    *place = change;
}

impl Hand {
    /// A vnode of this id, of which nothing is planned.
    pub(crate) fn new(id: u64, vnode: Vnode) -> Hand
        requires named { vnode.state.vnode ≡ id }
        requires sound { IsSound vnode.state }
        ensures state { result.state ≡ vnode.state }
        ensures plan { result.plan ≡ None }
    {
        Hand {
            id,
            vnode,
            change: None,
        }
    }

    /// The vnode's id.
    pub(crate) fn id(&self) -> u64
        ensures { result ≡ self.now.state.vnode }
    {
        self.id
    }

    /// Whether the vnode is closed.
    pub(crate) fn is_closed(&self) -> bool
        ensures { result ≡ is_some self.now.state.closed }
    {
        self.vnode.closed_at().is_some()
    }

    /// The last epoch that the vnode gave.
    pub(crate) fn last_epoch(&self) -> u32
        ensures { result ≡ self.now.state.last_epoch }
    {
        self.vnode.last_epoch()
    }

    /// How many commands the vnode has accepted; 18,446,744,073,709,551,615 where there are more.
    pub(crate) fn count_accepted(&self) -> u64
        ensures { result ≡ accepted_in self.now.state }
    {
        let tally = self.vnode.tally();
        tally
            .writes
            .saturating_add(tally.tombstones)
            .saturating_add(tally.reaps)
    }

    /// Whether a change is planned.
    pub(crate) fn has_plan(&self) -> bool
        ensures { result ≡ is_some self.now.plan }
    {
        self.change.is_some()
    }

    /// Lets the plan go, if there is one.
    pub(crate) fn drop_plan(&mut self)
        ensures state { self.new.state ≡ self.old.state }
        ensures plan { self.new.plan ≡ None }
    {
        replace(&mut self.change, None);
    }

    /// The answer to a get.
    pub(crate) fn show(&self, alloc: Global, get: &GetAsk) -> Result<Outcome, StepFault>
        ensures { IfOk result (ShowsBy self.now.state get.now) }
    {
        match self.vnode.get(alloc, get) {
            Ok(reply) => Ok(Outcome::Reply(Reply::Get(reply))),
            Err(_) => Err(StepFault::NoMemory),
        }
    }

    /// A copy of the clock that it has for a key; none where it doesn't hold the key.
    pub(crate) fn clock_of(
        &self,
        alloc: Global,
        key: &Key,
    ) -> Result<Option<Box<CopiedClock>>, AllocError>
        ensures { IfOk result (FindsClock self.now.state key.now) }
    {
        match self.vnode.clock(key) {
            None => Ok(None),
            Some(clock) => {
                let copied = CopiedClock::of(alloc, clock)?;
                Ok(Some(Box::new(alloc, copied)?))
            }
        }
    }

    /// How many keys a fallback has that this primary hasn't as they are there now; at most
    /// 18,446,744,073,709,551,615. Refused where memory is.
    pub(crate) fn left_of(&self, alloc: Global, fallback: &Hand) -> Result<u64, AllocError>
        ensures { IfOk result (λ count. count
            ≡ min (left_in self.now.state fallback.now.state) (2 ^ 64 - 1)) }
    {
        count_left(alloc, &self.vnode, &fallback.vnode)
    }

    /// Prepares a copy of a key with this clock; none where it is stuck, or the vnode is closed. Where
    /// memory is refused nothing is prepared.
    pub(crate) fn plan_copy(
        &mut self,
        alloc: Global,
        key: &Key,
        clock: &CopiedClock,
    ) -> Result<Option<Change>, StepFault>
        ensures state { self.new.state ≡ self.old.state }
        ensures ok { IfOk result (λ change.
            PlansCopy self.old.state self.new.prepared key.now clock.now change) }
    {
        replace(&mut self.change, None);
        let parts = KeyRef::of(key);
        let copy = KeyCopy::of(alloc, parts, clock.stored(), 1, GhostList::new())?;
        match self.vnode.prepare(alloc, Ask::Copy(copy)) {
            Ok(Plan::Change(change)) => Ok(Some(change)),
            Ok(Plan::Nothing(_answer)) => Ok(None),
            Err(_) => Err(StepFault::NoMemory),
        }
    }

    /// Makes the copy that it prepared last. It takes no memory.
    pub(crate) fn finish_copy(&mut self, change: Change)
        requires prepared { self.old.prepared ≡ Some change }
        requires copy { IsCopy change }
        ensures { self.new.state ≡ copied_by self.old.state change }
    {
        replace(&mut self.change, None);
        let _answer = self.vnode.finish(change);
    }

    /// Closes the vnode, with this number. It takes no memory.
    pub(crate) fn close(&mut self, alloc: Global, number: u64)
        requires { self.old.state.closed ≡ None }
        ensures { self.new.state ≡ apply_close self.old.state number }
    {
        replace(&mut self.change, None);
        match self.vnode.prepare(alloc, Ask::Close(number)) {
            Ok(Plan::Change(change)) => {
                let _answer = self.vnode.finish(change);
            }
            Ok(Plan::Nothing(_)) | Err(_) => unreachable!(),
        }
    }

    /// Looks for a call at a vnode that isn't closed: answers it, or plans its change. Where memory is
    /// refused nothing is planned.
    pub(crate) fn look(&mut self, alloc: Global, call: &Call) -> Result<Option<Outcome>, StepFault>
        requires plan { self.old.plan ≡ None }
        requires opened { self.old.state.closed ≡ None }
        ensures state { self.new.state ≡ self.old.state }
        ensures ok { IfOk result (λ answer.
            PlansBy (outcome self.old.state (ask_of call.now)) self.new.plan answer) }
        ensures err { IfErr result (λ fault. self.new.plan ≡ None) }
    {
        if let Call::Get(get) = call {
            return Ok(Some(self.show(alloc, get)?));
        }
        match call.change(alloc)? {
            None => unreachable!(),
            Some(ask) => self.plan(alloc, ask),
        }
    }

    /// Plans a change, or answers it: what the machine refuses, and what changes nothing.
    fn plan(&mut self, alloc: Global, ask: Ask) -> Result<Option<Outcome>, StepFault>
        requires command { IsSome (command_of ask) }
        requires opened { self.old.state.closed ≡ None }
        ensures state { self.new.state ≡ self.old.state }
        ensures ok { IfOk result (λ answer.
            PlansAsk self.old.state ask self.new.plan answer) }
        ensures err { IfErr result (λ fault. self.new.plan ≡ None) }
    {
        replace(&mut self.change, None);
        match self.vnode.prepare(alloc, ask) {
            Ok(Plan::Change(change)) => {
                replace(&mut self.change, Some(change));
                Ok(None)
            }
            Ok(Plan::Nothing(answer)) => Ok(Some(answered(answer))),
            Err(Refusal::NoMemory) => Err(StepFault::NoMemory),
            Err(refusal) => Ok(Some(Outcome::Reply(Reply::Error(Text::from(refusal))))),
        }
    }

    /// Makes the change that is planned, and answers it; none where nothing is planned. It takes no memory.
    pub(crate) fn publish(&mut self) -> Option<Outcome>
        ensures { PublishesPlan self.old self.new result }
    {
        match self.change.take() {
            Some(change) => Some(answered(self.vnode.finish(change))),
            None => None,
        }
    }
}

//! Copies that come from another vnode, and the close.

ghost use Rattle.std.specs.Prelude.{◌≡◌, None, Some, IfOk, IfErr};
ghost use Rattle.riak_msgs.specs.declared.Key.{Key};
ghost use Rattle.riak_msgs.specs.Contents.{Content};
ghost use Rattle.vnode_machine.specs.Copying.{is_stuck};
ghost use Rattle.vnode_machine.specs.Machine.{State, stored};
ghost use Rattle.vnode_core.specs.declared.ask.Ask.TheVariants.{Copy, Close};
ghost use Rattle.vnode_core.specs.Plans.{Plans, Refuses, RegistersStep, Steps};
ghost use Rattle.vnode_core.specs.Checks.{found_in};
ghost use Rattle.vnode_core.specs.Readiness.{plan_in};

use crate::ask::{Answer, Ask};
use crate::checks::MAX_SIBLINGS;
use crate::key_copy::KeyCopy;
use crate::ready::Readiness;
use crate::refusal::Refusal;
use crate::vnode::VnodeOver;
use actor_epoch::MAX_ACTORS;
use clock_store::{ClockStore, StoredClock, place_in, stored_in};
use dvv_set::Clock;
use ghost_state::GhostValue;
use riak_msgs::Content;
use std::alloc::Global;

/// Whether a key would have too many siblings, or its clock too many actors, once it is synced with another clock.
fn is_stuck(alloc: Global, found: Option<&StoredClock>, other: &Clock<Option<Content>>) -> bool
    ensures { (state : State Content) (key : Key) → found_in found.entry ≡ stored state key
        → result ≡ is_stuck state key other.now.meaning }
{
    let sizes = match found {
        None => Clock::new(alloc).sizes_after(other),
        Some(stored) => stored.clock.sizes_after(other),
    };
    MAX_SIBLINGS < sizes.siblings || MAX_ACTORS < sizes.actors
}

impl<S: ClockStore> VnodeOver<S> {
    /// Makes ready what a copy needs: room in the clock of its key; then it is what is prepared. One that
    /// is stuck needs nothing.
    pub(crate) fn make_copy_ready(
        &mut self,
        alloc: Global,
        ask: &Ask,
        copy: &KeyCopy,
    ) -> Result<Readiness, Refusal>
        requires is { ask.now ≡ Copy copy.now }
        requires ended { self.old.prepared ≡ None }
        requires opened { self.old.state.closed ≡ None }
        ensures same { self.new.state ≡ self.old.state }
        ensures ok { IfOk result (λ r. Plans self.new (Copy copy.now) (plan_in r (Copy copy.now))) }
        ensures err { IfErr result (λ refusal. Refuses self.old.state (Copy copy.now) refusal) }
        ensures ended { IfErr result (λ refusal. self.new.prepared ≡ None) }
    {
        let key = copy.key();
        let clock = copy.clock();
        let found = self.store.find(key);
        if is_stuck(alloc, stored_in(found), clock) {
            return Ok(Readiness::Stuck);
        }
        let place = place_in(found);
        self.store.reserve_sync(alloc, key, place, clock)?;
        self.prepared = GhostValue::some(ask);
        Ok(Readiness::Ready)
    }

    /// Plans the close, where nothing is prepared; then it is what is prepared.
    pub(crate) fn make_close_ready(&mut self, ask: &Ask, number: u64) -> Readiness
        requires is { ask.now ≡ Close number }
        requires ended { self.old.prepared ≡ None }
        requires opened { self.old.state.closed ≡ None }
        ensures same { self.new.state ≡ self.old.state }
        ensures plans { Plans self.new (Close number) (plan_in result (Close number)) }
    {
        let _number = number;
        self.prepared = GhostValue::some(ask);
        Readiness::Ready
    }

    /// Makes the copy that is prepared.
    pub(crate) fn finish_copy(&mut self, copy: KeyCopy) -> Answer
        requires { self.old.prepared ≡ Some (Copy copy) }
        ensures step { Steps self.old.state (Copy copy) result self.new.state }
        ensures ended { self.new.prepared ≡ None }
        ensures register { RegistersStep self.old.state (Copy copy) result self.new.state }
    {
        self.prepared = GhostValue::none(); // it is made now
        let (key, clock) = copy.into_parts();
        self.store.sync(key, clock);
        Answer::Copied
    }

    /// Makes the close that is prepared.
    pub(crate) fn finish_close(&mut self, number: u64) -> Answer
        requires { self.old.prepared ≡ Some (Close number) }
        ensures step { Steps self.old.state (Close number) result self.new.state }
        ensures ended { self.new.prepared ≡ None }
        ensures register { RegistersStep self.old.state (Close number) result self.new.state }
    {
        self.prepared = GhostValue::none(); // it is made now
        self.store.clear();
        self.closed = Some(number);
        Answer::Closed
    }
}

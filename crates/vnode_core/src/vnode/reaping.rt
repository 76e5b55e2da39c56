//! Reaps of a vnode: dead keys are forgotten whole.

ghost use Rattle.std.specs.Prelude.{◌≡◌, None, Some};
ghost use Rattle.vnode_machine.specs.Dead.{has_dead};
ghost use Rattle.vnode_core.specs.declared.ask.Ask.TheVariants.{Reap, ReapFirst};
ghost use Rattle.vnode_core.specs.Plans.{Plans, RegistersReap, RegistersFirstReap, RegistersStep};
ghost use Rattle.vnode_core.specs.Plans.{Steps};
ghost use Rattle.vnode_core.specs.Readiness.{plan_in};
ghost use Rattle.vnode_core.specs.Reaping.{key_given, reap_result, after_reap, after_first_reap};
ghost use Rattle.vnode_core.specs.Reaping.{LosesFirstDead};

use crate::ask::{Answer, Ask, Reaped};
use crate::ready::Readiness;
use crate::vnode::VnodeOver;
use clock_store::ClockStore;
use ghost_state::GhostValue;
use riak_msgs::Key;

impl<S: ClockStore> VnodeOver<S> {
    /// Forgets a dead key whole, with its clock; its next write begins a new life, at a new actor.
    /// `Gone`: it was dead, and is forgotten. `Kept`: it has a value, and stays as it is. `Absent`: it
    /// wasn't there. What was prepared ends. It takes no memory.
    pub fn reap(&mut self, key: &Key) -> Reaped
        ensures exact { result ≡ reap_result self.old.state key.now }
        ensures state { self.new.state ≡ after_reap self.old.state key.now }
        ensures ended { self.new.prepared ≡ None }
        ensures register { RegistersReap self.old.state key.now result self.new.state }
    {
        self.drop_prepared();
        let reaped = self.store.forget_dead(key);
        if reaped == Reaped::Gone {
            self.reaps = self.reaps.saturating_add(1);
        }
        reaped
    }

    /// Reaps the least dead key at or after the given one, or of all where none is given. False where
    /// there is none, and then the state stays. What was prepared ends. It takes no memory.
    pub fn reap_first(&mut self, from: Option<&Key>) -> bool
        ensures found { result ≡ has_dead self.old.state (key_given from.entry) }
        ensures state { self.new.state ≡ after_first_reap self.old.state (key_given from.entry) }
        ensures left { LosesFirstDead self.old.state (key_given from.entry) self.new.state }
        ensures ended { self.new.prepared ≡ None }
        ensures register { RegistersFirstReap self.old.state (key_given from.entry) self.new.state }
    {
        self.drop_prepared();
        let found = self.store.forget_first_dead(from);
        if found {
            self.reaps = self.reaps.saturating_add(1);
        }
        found
    }

    /// Whether there is a dead key at or after the given one, or anywhere where none is given. It takes no memory.
    pub fn has_dead(&self, from: Option<&Key>) -> bool
        ensures { result ≡ has_dead self.now.state (key_given from.entry) }
    {
        self.store.has_dead(from)
    }

    /// Plans the reap of a key, where nothing is prepared; it is prepared then where the key is dead.
    pub(crate) fn make_reap_ready(&mut self, ask: &Ask, key: &Key) -> Readiness
        requires is { ask.now ≡ Reap key.now }
        requires ended { self.old.prepared ≡ None }
        requires opened { self.old.state.closed ≡ None }
        ensures same { self.new.state ≡ self.old.state }
        ensures plans { Plans self.new (Reap key.now) (plan_in result (Reap key.now)) }
    {
        match Reaped::of(self.store.get(key)) {
            Reaped::Gone => {
                self.prepared = GhostValue::some(ask);
                Readiness::Ready
            }
            Reaped::Kept => Readiness::NothingToReap(Reaped::Kept),
            Reaped::Absent => Readiness::NothingToReap(Reaped::Absent),
        }
    }

    /// Plans the reap of the least dead key at or after one, where nothing is prepared; it is prepared then where there
    /// is such a key.
    pub(crate) fn make_first_reap_ready(&mut self, ask: &Ask, from: Option<&Key>) -> Readiness
        requires is { ask.now ≡ ReapFirst (key_given from) }
        requires ended { self.old.prepared ≡ None }
        requires opened { self.old.state.closed ≡ None }
        ensures same { self.new.state ≡ self.old.state }
        ensures plans { Plans self.new (ReapFirst (key_given from.entry))
            (plan_in result (ReapFirst (key_given from.entry))) }
    {
        if self.store.has_dead(from) {
            self.prepared = GhostValue::some(ask);
            return Readiness::Ready;
        }
        Readiness::NothingToReap(Reaped::Absent)
    }

    /// Makes the reap of a key that is prepared.
    pub(crate) fn finish_reap(&mut self, key: Key) -> Answer
        requires { self.old.prepared ≡ Some (Reap key) }
        ensures step { Steps self.old.state (Reap key) result self.new.state }
        ensures ended { self.new.prepared ≡ None }
        ensures register { RegistersStep self.old.state (Reap key) result self.new.state }
    {
        self.drop_prepared();
        let reaped = self.reap(&key);
        Answer::Reaped(reaped)
    }

    /// Makes the reap of the least dead key that is prepared.
    pub(crate) fn finish_first_reap(&mut self, from: Option<Key>) -> Answer
        requires { self.old.prepared ≡ Some (ReapFirst from) }
        ensures step { Steps self.old.state (ReapFirst from) result self.new.state }
        ensures ended { self.new.prepared ≡ None }
        ensures register { RegistersStep self.old.state (ReapFirst from) result self.new.state }
    {
        self.drop_prepared();
        if self.reap_first(from.as_ref()) {
            return Answer::Reaped(Reaped::Gone);
        }
        unreachable!()
    }
}

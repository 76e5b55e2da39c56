//! The right to write.
ghost use Rattle.std.specs.Prelude.{◌≡◌, ◌++◌, ◌∷◌, [], length, IfOk, IfErr, OnOk, OnErr};
ghost use mathlib.Core.List.{IsPrefix};
ghost use Rattle.rw_gate.specs.Faults.{IsFaultOf};
ghost use Rattle.rw_gate.specs.Histories.{IsSlotValue, IsReplayed, IsLonger, GoesOnBy};
ghost use Rattle.rw_gate.specs.Plans.{IfChange, IfNothing};

use crate::gate::Gate;
use crate::kept::{Kept, Plan};
use crate::log::SeenLog;
use crate::pass::{Moved, Pass};
use crate::slot_value::SlotValue;
use std::alloc::Global;
use std::marker::{Model, PhantomData};
use thiserror::Error;

/// Why a change was not made.
#[derive(Clone, Copy, Debug, PartialEq, Eq, Drop, Error)]
pub enum PublishFault {
    /// The history is longer than that of the state in hand.
    #[error(transparent)]
    Moved(#[from] Moved),
    /// The history has 18,446,744,073,709,551,615 events, and can have no more.
    #[error("the history is full")]
    Full,
}

/// The right to change the state, which is in hand: no one else is in.
///
/// It knows a prefix of the history, whose replay the state is. It has to be released, and stays in its thread.
pub struct WriteRight<'a, S: Kept> {
    gate: &'a Gate<S>,
    state: Box<S>,
    seen: SeenLog<S>,
    count: u64,
    // keeps it in its thread
    here: PhantomData<*const S>,
}

impl<'a, S: Kept> Model for WriteRight<'a, S> {
    ghost use Rattle.rw_gate.specs.Logs.{events};
    ghost use Rattle.rw_gate.specs.Views.{RightView, right_coded, gate_id};
    ghost use Rattle.rw_gate.specs.Histories.{IsSlotValue};

    ghost Value = { RightView S S.Event };

    ghost coded = { right_coded S.code S.Event.code };

    ghost view = { λ r. record {
      gate = gate_id r.seen.book r.seen.log;
      history = events r.seen.log;
      state = r.state.value;
    } };

    ghost invariant = { λ r. IsSlotValue S.content S.accepts r.gate.now
        r.seen.book r.seen.log r.count r.state.value };
}

impl<'a, S: Kept> WriteRight<'a, S> {
    /// The right of a state that was taken out of the slot.
    pub(crate) fn new(gate: &'a Gate<S>, value: SlotValue<S>) -> WriteRight<'a, S>
        requires { IsSlotValue S.content S.accepts gate.now
            value.seen.book value.seen.log value.count value.state.value }
        ensures gate { result.gate ≡ gate.now }
        ensures state { IsReplayed S.content S.accepts result }
    {
        let (state, seen, count) = value.into_parts();
        WriteRight {
            gate,
            state,
            seen,
            count,
            here: PhantomData,
        }
    }

    /// Shows the state in hand to a pass of this gate that has seen no more than the history of the
    /// state. The pass has then seen just that. `Moved` where the history was found to be longer: the
    /// pass takes what was found, and no state is shown.
    pub fn look(&self, pass: &mut Pass<S>) -> Result<&S, Moved>
        requires { pass.old.gate ≡ self.now.gate }
        ensures gate { pass.new.gate ≡ pass.old.gate }
        ensures own { pass.new.own ≡ pass.old.own }
        ensures more { IsPrefix pass.old.prefix pass.new.prefix }
        ensures seen { OnOk result (pass.new.prefix ≡ self.now.history) }
        ensures shown { IfOk result (λ s. s.now ≡ self.now.state) }
        ensures replay { IsReplayed S.content S.accepts self.now }
        ensures moved { IfErr result (λ m. IsLonger self.now.history pass.new.prefix m.seen) }
    {
        let gate = self.gate;
        pass.look(&gate.word, &self.state, &self.seen, self.count)?;
        Ok(&self.state)
    }

    /// Plans what is asked, as the state's own `prepare` does. History and content stay as they were.
    pub fn prepare(
        &mut self,
        alloc: Global,
        ask: S::Ask,
    ) -> Result<Plan<S::Change, S::Reply>, S::Refusal>
        ensures gate { self.new.gate ≡ self.old.gate }
        ensures history { self.new.history ≡ self.old.history }
        ensures content { S.content self.new.state ≡ S.content self.old.state }
        ensures change { IfOk result (λ plan. IfChange plan (λ c.
            S.ready self.new.state c × S.asks (S.event c) ask)) }
        ensures nothing { IfOk result (λ plan.
            IfNothing plan (S.answers (S.content self.old.state) ask)) }
        ensures refusal { IfErr result (S.refuses (S.content self.old.state) ask) }
    {
        self.state.prepare(alloc, ask)
    }

    /// Makes the change that was prepared from the state in hand, at one exchange. Its event is the next
    /// of the history, behind all that the pass had seen, and its reply is answered. The pass has then
    /// seen it, and has it as its own. `Moved` where the history was found to be longer, and the pass
    /// takes what was found. `Full` exactly where the history can have no further event. After either the
    /// change is let go, and state and history are as they were.
    pub fn publish(
        &mut self,
        pass: &mut Pass<S>,
        change: S::Change,
    ) -> Result<S::Reply, PublishFault>
        requires gate { pass.old.gate ≡ self.old.gate }
        requires ready { S.ready self.old.state change }
        ensures gate { pass.new.gate ≡ pass.old.gate }
        ensures event { OnOk result (
            GoesOnBy S.content S.accepts (S.event change) self.old self.new) }
        ensures reply { IfOk result (S.answered_by (S.event change)) }
        ensures state { IsReplayed S.content S.accepts self.new }
        ensures before { OnOk result (IsPrefix pass.old.prefix self.old.history) }
        ensures seen { OnOk result (pass.new.prefix ≡ self.new.history) }
        ensures more { IsPrefix pass.old.prefix pass.new.prefix }
        ensures own { OnOk result (pass.new.own ≡ pass.old.own ++ length self.old.history ∷ []) }
        ensures same_own { OnErr result (pass.new.own ≡ pass.old.own) }
        ensures same { OnErr result (self.new ≡ self.old) }
        ensures fault { IfErr result (IsFaultOf self.old.history pass.old pass.new) }
    {
        if self.count == u64::MAX {
            return Err(PublishFault::Full);
        }
        let gate = self.gate;
        match pass.publish(&gate.word, &self.state, &self.seen, self.count, &change) {
            Ok(longer) => {
                self.count += 1;
                self.seen = longer;
                Ok(self.state.apply(change))
            }
            Err(moved) => Err(PublishFault::Moved(moved)),
        }
    }

    /// Gives the right back, with the state in place and unmarked.
    pub fn release(self) {
        let WriteRight {
            gate,
            state,
            seen,
            count,
            here: _,
        } = self;
        // the slot is free while its state is in hand, which no clause of the slot states
        if let Err(value) = gate.put_back(SlotValue { state, seen, count }) {
            drop(value);
        }
    }
}

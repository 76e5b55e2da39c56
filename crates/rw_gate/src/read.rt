//! The right to read.
ghost use Rattle.std.specs.Prelude.{◌≡◌, IfSome, IfOk, IfErr, OnOk};
ghost use mathlib.Core.List.{IsPrefix};
ghost use Rattle.rw_gate.specs.Views.{gate_id};
ghost use Rattle.rw_gate.specs.Histories.{IsReplayed, IsLonger};

use crate::gate::Gate;
use crate::kept::Kept;
use crate::log::SeenLog;
use crate::pass::{Moved, Pass};
use crate::slot_value::SlotValue;
use counted_slot::Claim;
use std::marker::Model;
use std::snapshot::Snapshot;

/// The right to look at the state in place, beside others who may.
///
/// It knows a prefix of the history, whose replay the state is: the same state for as long as the right
/// is held. It has to be released, and stays in its thread.
pub struct ReadRight<'a, S: Kept> {
    gate: &'a Gate<S>,
    claim: Claim<'a, Option<SlotValue<S>>>,
    seen: SeenLog<S>,
    state: Snapshot<S>,
}

impl<'a, S: Kept> Model for ReadRight<'a, S> {
    ghost use Rattle.std.specs.Prelude.{◌≡◌, IsSomeAnd};
    ghost use Rattle.rw_gate.specs.Views.{RightView, right_coded, gate_id};
    ghost use Rattle.rw_gate.specs.Logs.{events};

    ghost Value = { RightView S S.Event };

    ghost coded = { right_coded S.code S.Event.code };

    ghost view = { λ r. record {
      gate = gate_id r.seen.book r.seen.log;
      history = events r.seen.log;
      state = r.state.value;
    } };

    ghost invariant = { λ r. (r.claim.right ≡ 1)
        × (gate_id r.claim.tag.book r.claim.tag.log ≡ r.gate.now)
        × (gate_id r.seen.book r.seen.log ≡ r.gate.now)
        × IsSomeAnd r.claim.value (λ held. IsSomeAnd held (λ value.
        (value.seen ≡ r.seen) × (value.state.value ≡ r.state.value))) };
}

impl<'a, S: Kept> ReadRight<'a, S> {
    /// The right of a claim to read. A slot that readers may enter has a state, so there is one.
    pub(crate) fn new(
        gate: &'a Gate<S>,
        claim: Claim<'a, Option<SlotValue<S>>>,
    ) -> Option<ReadRight<'a, S>>
        requires right { claim.right ≡ 1 }
        requires tag { gate_id claim.tag.book claim.tag.log ≡ gate.now }
        ensures gate { IfSome result (λ r. r.gate ≡ gate.now) }
        ensures state { IfSome result (IsReplayed S.content S.accepts) }
    {
        let (seen, state) = match claim.get() {
            Some(value) => (value.seen.again(), Snapshot::of(&*value.state)),
            None => {
                claim.leave();
                return None;
            }
        };
        Some(ReadRight {
            gate,
            claim,
            seen,
            state,
        })
    }

    /// Shows the state to a pass of this gate that has seen no more than the history of the state. The
    /// pass has then seen just that. `Moved` where the history was found to be longer: the pass takes
    /// what was found, and no state is shown.
    pub fn look(&self, pass: &mut Pass<S>) -> Result<&S, Moved>
        requires { pass.old.gate ≡ self.now.gate }
        ensures gate { pass.new.gate ≡ pass.old.gate }
        ensures own { pass.new.own ≡ pass.old.own }
        ensures more { IsPrefix pass.old.prefix pass.new.prefix }
        ensures seen { OnOk result (pass.new.prefix ≡ self.now.history) }
        ensures shown { IfOk result (λ s. s.now ≡ self.now.state) }
        ensures replay { IsReplayed S.content S.accepts self.now }
        ensures moved { IfErr result (λ m. IsLonger self.now.history pass.new.prefix m.seen) }
    {
        match self.claim.get() {
            Some(value) => {
                let gate = self.gate;
                pass.look(&gate.word, &value.state, &value.seen, value.count)?;
                Ok(&value.state)
            }
            None => unreachable!(),
        }
    }

    /// Gives the right back: one reader less is in.
    pub fn release(self) {
        let ReadRight {
            gate: _,
            claim,
            seen: _,
            state: _,
        } = self;
        let _word = claim.leave();
    }
}

//! What lies in the slot of a gate.
ghost use Rattle.std.specs.Prelude.{◌≡◌};

use crate::kept::Kept;
use crate::log::SeenLog;
use counted_slot::Fits;

/// A state in a place of its own, so that what is moved is a pointer, with the log that leads to it, and
/// the number of that log's events.
pub(crate) struct SlotValue<S: Kept> {
    pub state: Box<S>,
    pub seen: SeenLog<S>,
    pub count: u64,
}

/// One call at each place where one is let go.
impl<S: Kept> Drop for SlotValue<S> {
    fn drop(self) {
        let SlotValue {
            state: _state,
            seen: _seen,
            count: _count,
        } = self;
    }
}

impl<S: Kept> SlotValue<S> {
    /// The state, its log and the number of that log's events.
    pub(crate) fn into_parts(self) -> (Box<S>, SeenLog<S>, u64)
        ensures { result ≡ (self.state, self.seen, self.count) }
    {
        let SlotValue { state, seen, count } = self;
        (state, seen, count)
    }

    /// The state alone.
    pub(crate) fn into_state(self) -> S
        ensures { result ≡ self.state.value }
    {
        let SlotValue {
            state,
            seen: _seen,
            count: _count,
        } = self;
        Box::into_inner(state)
    }
}

/// The tag is which gate it is, by its log as it was opened.
impl<S: Kept> Fits for SlotValue<S> {
    type Tag = SeenLog<S>;

    ghost use Rattle.rw_gate.specs.Views.{gate_id};
    ghost use Rattle.rw_gate.specs.Histories.{IsSlotValue};

    ghost fits = { λ tag value. IsSlotValue S.content S.accepts (gate_id tag.book tag.log)
        value.seen.book value.seen.log value.count value.state.value };
}

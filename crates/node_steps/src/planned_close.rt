//! A close that is planned, with the fallback's vnode in a closer's hand.

ghost use Rattle.std.specs.Prelude.{◌≡◌, None};
ghost use Rattle.vnode_machine.specs.Copying.{apply_close};

use crate::hand::Hand;
use std::alloc::Global;
use std::marker::Model;

/// A vnode in hand that isn't closed, and the number that its close is to carry. Contracts see its state
/// and the number.
pub(crate) struct PlannedClose {
    hand: Box<Hand>,
    number: u64,
}

/// One call at each place where one is let go.
impl Drop for PlannedClose {
    fn drop(self) {
        let PlannedClose {
            hand: _hand,
            number: _number,
        } = self;
    }
}

impl Model for PlannedClose {
    ghost use Rattle.node_steps.specs.CloseHands.{CloseView, close_view, IsPlannedClose};

    ghost Value = { CloseView };

    ghost view = { close_view };

    ghost invariant = { IsPlannedClose };
}

impl PlannedClose {
    /// The close of a vnode that isn't closed.
    pub(crate) fn of(hand: Box<Hand>, number: u64) -> PlannedClose
        requires { hand.value.state.closed ≡ None }
        ensures state { result.state ≡ hand.value.state }
        ensures number { result.number ≡ number }
    {
        PlannedClose { hand, number }
    }

    /// The last epoch that the vnode gave.
    pub(crate) fn last_epoch(&self) -> u32
        ensures { result ≡ self.now.state.last_epoch }
    {
        self.hand.last_epoch()
    }

    /// Closes the vnode. It takes no memory.
    pub(crate) fn finish(self, alloc: Global) -> Box<Hand>
        ensures { result.value.state ≡ apply_close self.state self.number }
    {
        let PlannedClose { mut hand, number } = self;
        hand.close(alloc, number);
        hand
    }
}

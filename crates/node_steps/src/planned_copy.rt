//! A copy of a key that is planned, with the primary's vnode in a copier's hand.

ghost use Rattle.std.specs.Prelude.{◌≡◌, Some};
ghost use Rattle.node_steps.specs.CopyHands.{clock_in, copied_by, IsCopy};

use crate::hand::Hand;
use std::marker::Model;
use vnode_core::Change;

/// A copy that the vnode in hand has prepared. Contracts see the vnode's state, the clock that is copied
/// and the state after it.
pub(crate) struct PlannedCopy {
    hand: Box<Hand>,
    change: Change,
}

/// One call at each place where one is let go.
impl Drop for PlannedCopy {
    fn drop(self) {
        let PlannedCopy {
            hand: _hand,
            change: _change,
        } = self;
    }
}

impl Model for PlannedCopy {
    ghost use Rattle.node_steps.specs.CopyHands.{CopyView, copy_view, IsPlannedCopy};

    ghost Value = { CopyView };

    ghost view = { copy_view };

    ghost invariant = { IsPlannedCopy };
}

impl PlannedCopy {
    /// The copy that a vnode prepared last.
    pub(crate) fn of(hand: Box<Hand>, change: Change) -> PlannedCopy
        requires prepared { hand.value.prepared ≡ Some change }
        requires copy { IsCopy change }
        ensures state { result.state ≡ hand.value.state }
        ensures clock { result.clock ≡ clock_in change }
        ensures next { result.next ≡ copied_by hand.value.state change }
    {
        PlannedCopy { hand, change }
    }

    /// Makes the copy. It takes no memory.
    pub(crate) fn finish(self) -> Box<Hand>
        ensures { result.value.state ≡ self.next }
    {
        let PlannedCopy { mut hand, change } = self;
        hand.finish_copy(change);
        hand
    }
}

//! The actions of a closer at the vnode of its next step, but its look at both and its publish.

ghost use Rattle.std.specs.Prelude.{◌≡◌};
ghost use Rattle.node_steps.specs.World.{Closing};
ghost use Rattle.node_steps.specs.Steps.{Enters, Leaves, Takes, Puts};
ghost use Rattle.node_steps.specs.Running.{CanCountReader, close_stage_of, phase_of, vnode_of};
ghost use Rattle.node_steps.specs.Running.{Turns};

use crate::acts::lay;
use crate::close_stage::CloseStage;
use crate::outcome::Outcome;
use crate::phase::Phase;
use crate::site::Site;

/// The fallback's state goes into the closer's hand. What another worker planned before it put the state back ends.
pub(crate) fn take(site: &mut Site, own: usize, from: usize, stage: CloseStage) -> (Phase, Outcome)
    ensures { Turns Takes (vnode_of site.old) (Closing own from (close_stage_of stage))
        (vnode_of site.new) (phase_of result.0) result.1 }
{
    match stage {
        CloseStage::Asked => {
            if site.readers != 0 {
                return (Phase::Closing(own, from, CloseStage::Asked), Outcome::No);
            }
            match site.place.take() {
                Some(mut hand) => {
                    hand.drop_plan();
                    let stage = CloseStage::Taken(hand);
                    (Phase::Closing(own, from, stage), Outcome::Done)
                }
                None => (Phase::Closing(own, from, CloseStage::Asked), Outcome::No),
            }
        }
        other => (Phase::Closing(own, from, other), Outcome::No),
    }
}

/// One reader more at the primary. There are fewer readers than 2 to the 64 in every world that is kept.
pub(crate) fn enter(site: &mut Site, own: usize, from: usize, stage: CloseStage) -> (Phase, Outcome)
    ensures { CanCountReader (vnode_of site.old).word
        → Turns Enters (vnode_of site.old) (Closing own from (close_stage_of stage))
        (vnode_of site.new) (phase_of result.0) result.1 }
{
    match stage {
        CloseStage::Taken(hand) => {
            let is_shut = site.marked || site.place.is_none();
            if is_shut {
                return (
                    Phase::Closing(own, from, CloseStage::Taken(hand)),
                    Outcome::No,
                );
            }
            site.readers = site.readers.saturating_add(1);
            (
                Phase::Closing(own, from, CloseStage::Inside(hand)),
                Outcome::Done,
            )
        }
        other => (Phase::Closing(own, from, other), Outcome::No),
    }
}

/// One reader less at the primary.
pub(crate) fn leave(site: &mut Site, own: usize, from: usize, stage: CloseStage) -> (Phase, Outcome)
    ensures { Turns Leaves (vnode_of site.old) (Closing own from (close_stage_of stage))
        (vnode_of site.new) (phase_of result.0) result.1 }
{
    match stage {
        CloseStage::Done(hand, true) => {
            site.readers = site.readers.saturating_sub(1);
            (
                Phase::Closing(own, from, CloseStage::Done(hand, false)),
                Outcome::Done,
            )
        }
        other => (Phase::Closing(own, from, other), Outcome::No),
    }
}

/// The fallback's state lies in place again, with no readers and no mark. The closer has no call then.
pub(crate) fn put(site: &mut Site, own: usize, from: usize, stage: CloseStage) -> (Phase, Outcome)
    ensures { Turns Puts (vnode_of site.old) (Closing own from (close_stage_of stage))
        (vnode_of site.new) (phase_of result.0) result.1 }
{
    match stage {
        CloseStage::Done(hand, false) => {
            lay(site, hand);
            (Phase::Idle, Outcome::Done)
        }
        other => (Phase::Closing(own, from, other), Outcome::No),
    }
}

//! The actions of a worker at its vnode, but a look and a publish.

ghost use Rattle.std.specs.Prelude.{◌≡◌, false, Some};
ghost use Rattle.std.specs.Option.{option_map};
ghost use Rattle.node_steps.specs.Steps.{Enters, Leaves, Marks, Unmarks, Takes, Puts};
ghost use Rattle.node_steps.specs.World.{Turned};
ghost use Rattle.node_steps.specs.Running.{CanCountReader, ask_of, phase_of, vnode_of, Turns};

use crate::call::Call;
use crate::hand::Hand;
use crate::outcome::Outcome;
use crate::phase::Phase;
use crate::site::Site;
use crate::{closer, copier};

/// One reader more. There are fewer readers than 2 to the 64 in every world that is kept.
pub(crate) fn enter(site: &mut Site, phase: Phase) -> (Phase, Outcome)
    ensures { CanCountReader (vnode_of site.old).word
        → Turns Enters (vnode_of site.old) (phase_of phase)
        (vnode_of site.new) (phase_of result.0) result.1 }
{
    match phase {
        Phase::Asked(index, Call::Get(get)) => {
            if site.marked || site.place.is_none() {
                return (Phase::Asked(index, Call::Get(get)), Outcome::No);
            }
            site.readers = site.readers.saturating_add(1);
            (Phase::Reading(index, get), Outcome::Done)
        }
        Phase::Copying(own, from, key, stage) => copier::enter(site, own, from, key, stage),
        Phase::Closing(own, from, stage) => closer::enter(site, own, from, stage),
        other => (other, Outcome::No),
    }
}

/// One reader less.
pub(crate) fn leave(site: &mut Site, phase: Phase) -> (Phase, Outcome)
    ensures { Turns Leaves (vnode_of site.old) (phase_of phase)
        (vnode_of site.new) (phase_of result.0) result.1 }
{
    match phase {
        Phase::Reading(index, get) => {
            site.readers = site.readers.saturating_sub(1);
            (Phase::Asked(index, Call::Get(get)), Outcome::Done)
        }
        Phase::Done(_, None) => {
            site.readers = site.readers.saturating_sub(1);
            (Phase::Idle, Outcome::Done)
        }
        Phase::Turned(own, _, call, None) => {
            site.readers = site.readers.saturating_sub(1);
            (Phase::Asked(own, call), Outcome::Done)
        }
        Phase::Copying(own, from, key, stage) => copier::leave(site, own, from, key, stage),
        Phase::Closing(own, from, stage) => closer::leave(site, own, from, stage),
        other => (other, Outcome::No),
    }
}

/// The word is marked.
pub(crate) fn mark(site: &mut Site, phase: Phase) -> (Phase, Outcome)
    ensures { Turns Marks (vnode_of site.old) (phase_of phase)
        (vnode_of site.new) (phase_of result.0) result.1 }
{
    match phase {
        Phase::Asked(index, call) => {
            if site.place.is_none() || site.marked {
                return (Phase::Asked(index, call), Outcome::No);
            }
            site.marked = true;
            (Phase::Asked(index, call), Outcome::Done)
        }
        other => (other, Outcome::No),
    }
}

/// The mark is taken away.
pub(crate) fn unmark(site: &mut Site, phase: Phase) -> (Phase, Outcome)
    ensures { Turns Unmarks (vnode_of site.old) (phase_of phase)
        (vnode_of site.new) (phase_of result.0) result.1 }
{
    match phase {
        Phase::Asked(index, call) => {
            if site.place.is_none() || !site.marked {
                return (Phase::Asked(index, call), Outcome::No);
            }
            site.marked = false;
            (Phase::Asked(index, call), Outcome::Done)
        }
        other => (other, Outcome::No),
    }
}

/// The state goes into the worker's hand. What another worker planned before it put the state back is no plan of this
/// one, and ends.
pub(crate) fn take(site: &mut Site, phase: Phase) -> (Phase, Outcome)
    ensures { Turns Takes (vnode_of site.old) (phase_of phase)
        (vnode_of site.new) (phase_of result.0) result.1 }
{
    match phase {
        Phase::Asked(index, call) => {
            if site.readers != 0 {
                return (Phase::Asked(index, call), Outcome::No);
            }
            match site.place.take() {
                Some(mut hand) => {
                    hand.drop_plan();
                    (Phase::Holding(index, call, hand), Outcome::Done)
                }
                None => (Phase::Asked(index, call), Outcome::No),
            }
        }
        Phase::Copying(own, from, key, stage) => copier::take(site, own, from, key, stage),
        Phase::Closing(own, from, stage) => closer::take(site, own, from, stage),
        other => (other, Outcome::No),
    }
}

/// Lays a state in place.
pub(crate) fn lay(site: &mut Site, hand: Box<Hand>)
    ensures { site.new
        ≡ record { own = site.old.own; readers = 0; marked = false; place = Some hand } }
{
    let own = site.own;
    *site = Site {
        own,
        readers: 0,
        marked: false,
        place: Some(hand),
    };
}

/// Who was turned away puts the state back; then its call is for its partition's own site.
fn put_turned(
    site: &mut Site,
    own: usize,
    index: usize,
    call: Call,
    hand: Option<Box<Hand>>,
) -> (Phase, Outcome)
    ensures { Turns Puts (vnode_of site.old)
        (Turned own index (ask_of call) (option_map (λ h. h.value.state) hand))
        (vnode_of site.new) (phase_of result.0) result.1 }
{
    match hand {
        Some(hand) => {
            lay(site, hand);
            (Phase::Asked(own, call), Outcome::Done)
        }
        None => (Phase::Turned(own, index, call, None), Outcome::No),
    }
}

/// The state lies in place again, with no readers and no mark.
pub(crate) fn put(site: &mut Site, phase: Phase) -> (Phase, Outcome)
    ensures { Turns Puts (vnode_of site.old) (phase_of phase)
        (vnode_of site.new) (phase_of result.0) result.1 }
{
    match phase {
        Phase::Holding(index, call, hand) => {
            lay(site, hand);
            (Phase::Asked(index, call), Outcome::Done)
        }
        Phase::Done(_, Some(hand)) => {
            lay(site, hand);
            (Phase::Idle, Outcome::Done)
        }
        Phase::Turned(own, index, call, hand) => put_turned(site, own, index, call, hand),
        Phase::Copying(own, from, key, stage) => copier::put(site, own, from, key, stage),
        Phase::Closing(own, from, stage) => closer::put(site, own, from, stage),
        other => (other, Outcome::No),
    }
}

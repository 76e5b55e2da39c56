//! The actions of a copier at the vnode of its next step.

ghost use Rattle.std.specs.Prelude.{◌≡◌, None, IfOk, IfErr};
ghost use Rattle.node_steps.specs.declared.site.Site.{Site};
ghost use Rattle.node_steps.specs.CopyLooks.{FindsTo, SyncsTo};
ghost use Rattle.node_steps.specs.Parts.{IsFit};
ghost use Rattle.node_steps.specs.World.{Copying, CopyInside, CopyLooked, CopyTaken};
ghost use Rattle.node_steps.specs.Steps.{Enters, Leaves, Takes, Puts, Looks, Publishes};
ghost use Rattle.node_steps.specs.Running.{CanCountReader, phase_of, stage_of, vnode_of, Turns};

use crate::acts::lay;
use crate::copied_clock::CopiedClock;
use crate::hand::Hand;
use crate::looks::Looked;
use crate::outcome::Outcome;
use crate::phase::Phase;
use crate::planned_copy::PlannedCopy;
use crate::site::Site;
use crate::stage::Stage;
use riak_msgs::Key;
use std::alloc::Global;

/// One reader more. There are fewer readers than 2 to the 64 in every world that is kept.
pub(crate) fn enter(
    site: &mut Site,
    own: usize,
    from: usize,
    key: Box<Key>,
    stage: Stage,
) -> (Phase, Outcome)
    ensures { CanCountReader (vnode_of site.old).word
        → Turns Enters (vnode_of site.old) (Copying own from key.value (stage_of stage))
        (vnode_of site.new) (phase_of result.0) result.1 }
{
    match stage {
        Stage::Asked => {
            let is_shut = site.marked || site.place.is_none();
            if is_shut {
                return (Phase::Copying(own, from, key, Stage::Asked), Outcome::No);
            }
            site.readers = site.readers.saturating_add(1);
            (Phase::Copying(own, from, key, Stage::Inside), Outcome::Done)
        }
        other => (Phase::Copying(own, from, key, other), Outcome::No),
    }
}

/// One reader less. The copier has no call then.
pub(crate) fn leave(
    site: &mut Site,
    own: usize,
    from: usize,
    key: Box<Key>,
    stage: Stage,
) -> (Phase, Outcome)
    ensures { Turns Leaves (vnode_of site.old) (Copying own from key.value (stage_of stage))
        (vnode_of site.new) (phase_of result.0) result.1 }
{
    match stage {
        Stage::Done(None) => {
            site.readers = site.readers.saturating_sub(1);
            (Phase::Idle, Outcome::Done)
        }
        other => (Phase::Copying(own, from, key, other), Outcome::No),
    }
}

/// The primary's state goes into the copier's hand. What another worker planned before it put the state back ends.
fn take_hand(
    site: &mut Site,
    own: usize,
    from: usize,
    key: Box<Key>,
    clock: Box<CopiedClock>,
) -> (Phase, Outcome)
    ensures { Turns Takes (vnode_of site.old) (Copying own from key.value (CopyLooked clock.value))
        (vnode_of site.new) (phase_of result.0) result.1 }
{
    if site.readers != 0 {
        return (
            Phase::Copying(own, from, key, Stage::Looked(clock)),
            Outcome::No,
        );
    }
    match site.place.take() {
        Some(mut hand) => {
            hand.drop_plan();
            let stage = Stage::Taken(clock, hand);
            (Phase::Copying(own, from, key, stage), Outcome::Done)
        }
        None => (
            Phase::Copying(own, from, key, Stage::Looked(clock)),
            Outcome::No,
        ),
    }
}

/// The primary's state goes into the copier's hand.
pub(crate) fn take(
    site: &mut Site,
    own: usize,
    from: usize,
    key: Box<Key>,
    stage: Stage,
) -> (Phase, Outcome)
    ensures { Turns Takes (vnode_of site.old) (Copying own from key.value (stage_of stage))
        (vnode_of site.new) (phase_of result.0) result.1 }
{
    match stage {
        Stage::Looked(clock) => take_hand(site, own, from, key, clock),
        other => (Phase::Copying(own, from, key, other), Outcome::No),
    }
}

/// The primary's state lies in place again, with no readers and no mark.
pub(crate) fn put(
    site: &mut Site,
    own: usize,
    from: usize,
    key: Box<Key>,
    stage: Stage,
) -> (Phase, Outcome)
    ensures { Turns Puts (vnode_of site.old) (Copying own from key.value (stage_of stage))
        (vnode_of site.new) (phase_of result.0) result.1 }
{
    match stage {
        Stage::Done(Some(hand)) => {
            lay(site, hand);
            (
                Phase::Copying(own, from, key, Stage::Done(None)),
                Outcome::Done,
            )
        }
        other => (Phase::Copying(own, from, key, other), Outcome::No),
    }
}

/// A copier looks for its key in the state at the fallback. Where that is closed it is done.
fn find(alloc: Global, hand: &Hand, own: usize, from: usize, key: Box<Key>) -> Looked
    ensures ok { IfOk result (λ r. FindsTo hand.now.state own from key.value (phase_of r.0) r.1) }
    ensures err { IfErr result (λ p. phase_of p ≡ Copying own from key.value CopyInside) }
{
    if hand.is_closed() {
        let phase = Phase::Copying(own, from, key, Stage::Done(None));
        return Ok((phase, Outcome::Elsewhere));
    }
    match hand.clock_of(alloc, &key) {
        Ok(Some(clock)) => {
            let phase = Phase::Copying(own, from, key, Stage::Looked(clock));
            Ok((phase, Outcome::Done))
        }
        Ok(None) => {
            let phase = Phase::Copying(own, from, key, Stage::Done(None));
            Ok((phase, Outcome::Kept))
        }
        Err(_) => Err(Phase::Copying(own, from, key, Stage::Inside)),
    }
}

/// A copier looks at the primary's state in its hand, which isn't closed: it plans the copy, or finds it stuck.
fn sync(
    alloc: Global,
    own: usize,
    from: usize,
    key: Box<Key>,
    clock: Box<CopiedClock>,
    mut hand: Box<Hand>,
) -> Looked
    ensures ok { IfOk result (λ r. hand.value.state.closed ≡ None →
        SyncsTo own from key.value clock.value hand.value.state (phase_of r.0) r.1) }
    ensures err { IfErr result (λ p.
        phase_of p ≡ Copying own from key.value (CopyTaken clock.value hand.value.state None)) }
{
    match hand.plan_copy(alloc, &key, &clock) {
        Ok(Some(change)) => {
            let copy = PlannedCopy::of(hand, change);
            let phase = Phase::Copying(own, from, key, Stage::Planned(copy));
            Ok((phase, Outcome::Done))
        }
        Ok(None) => {
            let phase = Phase::Copying(own, from, key, Stage::Done(Some(hand)));
            Ok((phase, Outcome::Stuck))
        }
        Err(_) => {
            let phase = Phase::Copying(own, from, key, Stage::Taken(clock, hand));
            Err(phase)
        }
    }
}

/// Looks at the state in place at the fallback, or at the primary's in hand. Where memory is refused the
/// copier is as it was. In every world that is kept the state is in place where a reader is inside.
pub(crate) fn look(
    alloc: Global,
    site: &Site,
    own: usize,
    from: usize,
    key: Box<Key>,
    stage: Stage,
) -> Looked
    ensures ok { IfOk result (λ r.
        IsFit (vnode_of site.now).word (Copying own from key.value (stage_of stage))
        → Turns Looks (vnode_of site.now) (Copying own from key.value (stage_of stage))
        (vnode_of site.now) (phase_of r.0) r.1) }
    ensures err { IfErr result (λ p. phase_of p ≡ Copying own from key.value (stage_of stage)) }
{
    match stage {
        Stage::Inside => match &site.place {
            Some(hand) => find(alloc, hand, own, from, key),
            None => Ok((Phase::Copying(own, from, key, Stage::Inside), Outcome::No)),
        },
        Stage::Taken(clock, hand) => sync(alloc, own, from, key, clock, hand),
        other => Ok((Phase::Copying(own, from, key, other), Outcome::No)),
    }
}

/// Publishes the copy that was planned. It takes no memory.
pub(crate) fn publish(own: usize, from: usize, key: Box<Key>, stage: Stage) -> (Phase, Outcome)
    ensures { (site : Site)
        → Turns Publishes (vnode_of site) (Copying own from key.value (stage_of stage))
        (vnode_of site) (phase_of result.0) result.1 }
{
    match stage {
        Stage::Planned(copy) => {
            let hand = copy.finish();
            let stage = Stage::Done(Some(hand));
            (Phase::Copying(own, from, key, stage), Outcome::Copied)
        }
        other => (Phase::Copying(own, from, key, other), Outcome::No),
    }
}

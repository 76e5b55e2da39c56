//! The steps of a closer that are about two sites: its look at both, and its publish.

ghost use Rattle.std.specs.Prelude.{◌≡◌, ◌<◌, length, slice_set, IfOk, IfErr};
ghost use Rattle.node_steps.specs.Closings.{ClosesTo, IsPrimaryFor, JudgesTo, CloserLooksTo};
ghost use Rattle.node_steps.specs.Closings.{WorkerMoves, ground_of};
ghost use Rattle.node_steps.specs.Parts.{world_in};
ghost use Rattle.node_steps.specs.World.{Closing, CloseInside};
ghost use Rattle.node_steps.specs.Running.{close_stage_of, phase_of};

use crate::close_stage::CloseStage;
use crate::hand::Hand;
use crate::looks::Looked;
use crate::outcome::Outcome;
use crate::parts::Parts;
use crate::phase::Phase;
use crate::planned_close::PlannedClose;
use crate::step::Act;
use std::alloc::Global;

/// A closer looks at the primary, with the fallback's state in its hand. It is done where the fallback is
/// closed, or where a key isn't copied as it is now; else it plans the close, with the number of the
/// commands that the primary has accepted.
fn judge(alloc: Global, primary: &Hand, own: usize, from: usize, hand: Box<Hand>) -> Looked
    ensures ok { IfOk result (λ r.
        JudgesTo own from hand.value.state primary.now.state (phase_of r.0) r.1) }
    ensures err { IfErr result (λ p. phase_of p ≡ Closing own from (CloseInside hand.value.state)) }
{
    if hand.is_closed() {
        let phase = Phase::Closing(own, from, CloseStage::Done(hand, true));
        return Ok((phase, Outcome::Elsewhere));
    }
    match primary.left_of(alloc, &hand) {
        Ok(0) => {
            let close = PlannedClose::of(hand, primary.count_accepted());
            let phase = Phase::Closing(own, from, CloseStage::Looked(close));
            Ok((phase, Outcome::Done))
        }
        Ok(keys) => {
            let phase = Phase::Closing(own, from, CloseStage::Done(hand, true));
            Ok((phase, Outcome::Left(keys)))
        }
        Err(_) => Err(Phase::Closing(own, from, CloseStage::Inside(hand))),
    }
}

/// Puts a number in the place of the one before, where there is such a place.
fn set_at<T: Copy>(list: &mut Vec<T>, at: usize, value: T)
    ensures { list.new.items ≡ slice_set list.old.items at value }
{
    match list.get_mut(at) {
        None => {}
        Some(place) => *place = value,
    }
}

impl Parts {
    /// The state in place at the first site, where there is the second too.
    fn primary_for(&self, own: usize, from: usize) -> Option<&Hand>
        ensures { IsPrimaryFor (ground_of self.now) own from result }
    {
        if from >= self.sites.len() {
            return None;
        }
        match &self.sites.get(own)?.place {
            Some(hand) => Some(&**hand),
            None => None,
        }
    }

    /// A closer looks at both sites, the one at the first index with the state of the one at the second
    /// in its hand. Where memory is refused it is as it was. In every world that is kept the primary's
    /// state is in place then.
    fn look_at_both(&self, alloc: Global, own: usize, from: usize, stage: CloseStage) -> Looked
        ensures ok { IfOk result (λ r.
            CloserLooksTo (ground_of self.now) own from (close_stage_of stage) (phase_of r.0) r.1) }
        ensures err { IfErr result (λ p. phase_of p ≡ Closing own from (close_stage_of stage)) }
    {
        match stage {
            CloseStage::Inside(hand) => match self.primary_for(own, from) {
                Some(primary) => judge(alloc, primary, own, from, hand),
                None => {
                    let phase = Phase::Closing(own, from, CloseStage::Inside(hand));
                    Ok((phase, Outcome::No))
                }
            },
            other => Ok((Phase::Closing(own, from, other), Outcome::No)),
        }
    }

    /// A closer publishes its close: the partition's calls go to its own site again, and its next
    /// fallback is opened behind the last epoch of this one. It takes no memory.
    fn publish_close(
        &mut self,
        alloc: Global,
        own: usize,
        from: usize,
        stage: CloseStage,
    ) -> (Phase, Outcome)
        ensures moves { ClosesTo (ground_of self.old) own from (close_stage_of stage)
            (ground_of self.new) (phase_of result.0) result.1 }
        ensures workers { self.new.workers ≡ self.old.workers }
    {
        match stage {
            CloseStage::Looked(close) => {
                set_at(&mut self.epochs, own, close.last_epoch());
                set_at(&mut self.routes, own, own);
                let hand = close.finish(alloc);
                let phase = Phase::Closing(own, from, CloseStage::Done(hand, true));
                (phase, Outcome::Done)
            }
            other => (Phase::Closing(own, from, other), Outcome::No),
        }
    }

    /// What a closer does, whose next step at one site is about that of this index.
    pub(crate) fn close_turn(
        &mut self,
        alloc: Global,
        act: Act,
        index: usize,
        own: usize,
        from: usize,
        stage: CloseStage,
    ) -> Looked
        requires { index < length self.old.sites.items }
        ensures ok { IfOk result (λ r.
            WorkerMoves (Closing own from (close_stage_of stage)) act index
            (ground_of self.old) (ground_of self.new) (phase_of r.0) r.1) }
        ensures err { IfErr result (λ p. (phase_of p ≡ Closing own from (close_stage_of stage))
            × (world_in self.new ≡ world_in self.old)) }
        ensures workers { self.new.workers ≡ self.old.workers }
    {
        match act {
            Act::Look => self.look_at_both(alloc, own, from, stage),
            Act::Publish => Ok(self.publish_close(alloc, own, from, stage)),
            other => self.turn_site(alloc, other, index, Phase::Closing(own, from, stage)),
        }
    }
}

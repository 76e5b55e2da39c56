//! The running parts of a world, and what each kind of step does to them.

ghost use Rattle.std.specs.Prelude.{◌≡◌, ◌<◌, length, IfOk, IfErr, OnErr};
ghost use Rattle.node_steps.specs.Asked.{action_of, asking_step, closing_step, copying_step};
ghost use Rattle.node_steps.specs.Asked.{step_by, step_of};
ghost use Rattle.node_steps.specs.Closings.{WorkerMoves, MovesAt, TurnsAt, ground_of};
ghost use Rattle.node_steps.specs.Parts.{Finds, FindsIdle, FindsIdleAndFallback, HasFallbackSite};
ghost use Rattle.node_steps.specs.Parts.{IsFit, SendsTo, TakesFitStep, TakesRunStep, world_in};
ghost use Rattle.node_steps.specs.Running.{ask_of, phase_of, vnode_of, Turns};

use crate::acts::{enter, leave, mark, put, take, unmark};
use crate::call::{Call, call_of};
use crate::close_stage::CloseStage;
use crate::fault::StepFault;
use crate::looks::{Looked, look, publish};
use crate::outcome::Outcome;
use crate::phase::Phase;
use crate::site::Site;
use crate::stage::Stage;
use crate::step::{Act, Step};
use riak_msgs::{Key, Request};
use std::alloc::{AllocError, Global};
use std::mem;

/// What runs: the vnode at each site, for each partition the site that its calls go to and the last epoch
/// that its fallbacks gave before they were closed, and the phase of each worker.
#[derive(Drop)]
pub(crate) struct Parts {
    pub(crate) sites: Vec<Site>,
    pub(crate) routes: Vec<usize>,
    pub(crate) epochs: Vec<u32>,
    pub(crate) workers: Vec<Phase>,
}

/// A turn of a worker at its vnode. Where memory is refused both are as they were.
fn turn(alloc: Global, act: Act, site: &mut Site, phase: Phase) -> Looked
    ensures ok { IfOk result (λ r. IsFit (vnode_of site.old).word (phase_of phase)
        → Turns (action_of act) (vnode_of site.old) (phase_of phase)
        (vnode_of site.new) (phase_of r.0) r.1) }
    ensures err { IfErr result (λ p.
        (phase_of p ≡ phase_of phase) × (vnode_of site.new ≡ vnode_of site.old)) }
{
    match act {
        Act::Enter => Ok(enter(site, phase)),
        Act::Leave => Ok(leave(site, phase)),
        Act::Mark => Ok(mark(site, phase)),
        Act::Unmark => Ok(unmark(site, phase)),
        Act::Take => Ok(take(site, phase)),
        Act::Put => Ok(put(site, phase)),
        Act::Look => look(alloc, site, phase),
        Act::Publish => Ok(publish(phase)),
    }
}

/// Puts a phase in the place of the one before, which is let go.
fn set_phase(place: &mut Phase, phase: Phase)
    ensures { place.new ≡ phase }
{
    *place = phase;
}

/// The outcome for a call that no worker gets, which is let go.
fn refuse(_call: Call) -> Outcome
    ensures { result ≡ Outcome.No }
{
    Outcome::No
}

impl Parts {
    /// The place of a worker, and the index of the site that it is about; none where it can do nothing.
    fn find(&self, worker: u16) -> Option<(usize, usize)>
        ensures { Finds self.now worker result }
    {
        let place = usize::from(worker.checked_sub(1)?);
        let phase = self.workers.get(place)?;
        let index = phase.index()?;
        if index >= self.sites.len() {
            return None;
        }
        Some((place, index))
    }

    /// A turn at the site of an index. Where memory is refused nothing changes.
    pub(crate) fn turn_site(
        &mut self,
        alloc: Global,
        act: Act,
        index: usize,
        phase: Phase,
    ) -> Looked
        requires { index < length self.old.sites.items }
        ensures ok { IfOk result (λ r.
            MovesAt act index (ground_of self.old) (phase_of phase)
            (ground_of self.new) (phase_of r.0) r.1) }
        ensures err { IfErr result (λ p. (phase_of p ≡ phase_of phase)
            × (world_in self.new ≡ world_in self.old)) }
        ensures workers { self.new.workers ≡ self.old.workers }
    {
        match turn(alloc, act, &mut self.sites[index], phase) {
            Ok(came) => Ok(came),
            Err(phase) => Err(phase),
        }
    }

    /// What a worker in a phase does, whose step is about the site of an index. Where memory is refused
    /// nothing changes.
    fn move_on(&mut self, alloc: Global, act: Act, index: usize, phase: Phase) -> Looked
        requires { index < length self.old.sites.items }
        ensures ok { IfOk result (λ r.
            WorkerMoves (phase_of phase) act index
            (ground_of self.old) (ground_of self.new) (phase_of r.0) r.1) }
        ensures err { IfErr result (λ p. (phase_of p ≡ phase_of phase)
            × (world_in self.new ≡ world_in self.old)) }
        ensures workers { self.new.workers ≡ self.old.workers }
    {
        match phase {
            Phase::Closing(own, from, stage) => {
                self.close_turn(alloc, act, index, own, from, stage)
            }
            other => self.turn_site(alloc, act, index, other),
        }
    }

    /// A turn of the worker at a place, whose step is about the site of an index.
    fn turn_at(
        &mut self,
        alloc: Global,
        act: Act,
        place: usize,
        index: usize,
    ) -> Result<Outcome, StepFault>
        requires worker { place < length self.old.workers.items }
        requires vnode { index < length self.old.sites.items }
        ensures ok { IfOk result (TurnsAt act place index self.old self.new) }
        ensures err { OnErr result (world_in self.new ≡ world_in self.old) }
    {
        let phase = mem::replace(&mut self.workers[place], Phase::Idle);
        match self.move_on(alloc, act, index, phase) {
            Ok((next, outcome)) => {
                set_phase(&mut self.workers[place], next);
                Ok(outcome)
            }
            Err(phase) => {
                set_phase(&mut self.workers[place], phase);
                Err(StepFault::NoMemory)
            }
        }
    }

    /// A worker that has a call does something. Where memory is refused nothing changes.
    fn act(&mut self, alloc: Global, worker: u16, act: Act) -> Result<Outcome, StepFault>
        ensures ok { IfOk result (λ outcome.
            TakesFitStep self.old (step_by worker act) outcome self.new) }
        ensures err { OnErr result (world_in self.new ≡ world_in self.old) }
    {
        match self.find(worker) {
            Some((place, index)) => self.turn_at(alloc, act, place, index),
            None => Ok(Outcome::No),
        }
    }

    /// The place of a worker that has no call.
    fn find_idle(&self, worker: u16) -> Option<usize>
        ensures { FindsIdle self.now.workers.items worker result }
    {
        let place = usize::from(worker.checked_sub(1)?);
        match self.workers.get(place)? {
            Phase::Idle => Some(place),
            Phase::Asked(..) | Phase::Reading(..) | Phase::Holding(..) | Phase::Done(..) => None,
            Phase::Turned(..) | Phase::Copying(..) | Phase::Closing(..) => None,
        }
    }

    /// The site that a call for a partition goes to; none where there is no such partition, and for a
    /// reap of one that is diverted.
    fn site_for(&self, index: u16, call: &Call) -> Option<usize>
        ensures { SendsTo self.now index (ask_of call.now) result }
    {
        let own = usize::from(index);
        let site = *self.routes.get(own)?;
        if site >= self.sites.len() {
            return None;
        }
        if site != own && call.is_reap() {
            return None;
        }
        Some(site)
    }

    /// A worker gets a call for the partition at an index.
    fn give(&mut self, worker: u16, index: u16, call: Call) -> Outcome
        ensures { TakesRunStep (world_in self.old) (asking_step worker index (ask_of call)) result
            (world_in self.new) }
    {
        let Some(place) = self.find_idle(worker) else {
            return refuse(call);
        };
        let Some(site) = self.site_for(index, &call) else {
            return refuse(call);
        };
        set_phase(&mut self.workers[place], Phase::Asked(site, call));
        Outcome::Done
    }

    /// A worker is asked what a request does.
    fn ask(
        &mut self,
        alloc: Global,
        worker: u16,
        index: u16,
        request: Request,
    ) -> Result<Outcome, StepFault>
        ensures ok { IfOk result (λ outcome. TakesRunStep (world_in self.old)
            (step_of (Step.Ask worker index request)) outcome (world_in self.new)) }
        ensures err { OnErr result (world_in self.new ≡ world_in self.old) }
    {
        match call_of(alloc, request)? {
            Some(call) => Ok(self.give(worker, index, call)),
            None => Ok(Outcome::No),
        }
    }

    /// A worker is asked to reap a key.
    fn reap(
        &mut self,
        alloc: Global,
        worker: u16,
        index: u16,
        key: Key,
    ) -> Result<Outcome, StepFault>
        ensures ok { IfOk result (λ outcome. TakesRunStep (world_in self.old)
            (step_of (Step.Reap worker index key)) outcome (world_in self.new)) }
        ensures err { OnErr result (world_in self.new ≡ world_in self.old) }
    {
        let call = Call::Reap(Box::new(alloc, key).map_err(AllocError::from)?);
        Ok(self.give(worker, index, call))
    }

    /// The site of a partition's fallback; none where the partition isn't diverted.
    fn fallback_of(&self, index: u16) -> Option<usize>
        ensures { HasFallbackSite self.now index result }
    {
        let own = usize::from(index);
        let site = *self.routes.get(own)?;
        if site >= self.sites.len() {
            return None;
        }
        if site == own {
            return None;
        }
        Some(site)
    }

    /// The place of a worker that has no call, and the site of a partition's fallback.
    fn idle_and_fallback(&self, worker: u16, index: u16) -> Option<(usize, usize)>
        ensures { FindsIdleAndFallback self.now worker index result }
    {
        let place = self.find_idle(worker)?;
        let site = self.fallback_of(index)?;
        Some((place, site))
    }

    /// A worker is to copy a key of the partition at an index.
    fn send_copier(&mut self, worker: u16, index: u16, key: Box<Key>) -> Outcome
        ensures { TakesRunStep (world_in self.old) (copying_step worker index key.value) result
            (world_in self.new) }
    {
        let Some((place, site)) = self.idle_and_fallback(worker, index) else {
            return Outcome::No;
        };
        let own = usize::from(index);
        set_phase(
            &mut self.workers[place],
            Phase::Copying(own, site, key, Stage::Asked),
        );
        Outcome::Done
    }

    /// A worker is asked to copy a key.
    fn copy(
        &mut self,
        alloc: Global,
        worker: u16,
        index: u16,
        key: Key,
    ) -> Result<Outcome, StepFault>
        ensures ok { IfOk result (λ outcome. TakesRunStep (world_in self.old)
            (step_of (Step.Copy worker index key)) outcome (world_in self.new)) }
        ensures err { OnErr result (world_in self.new ≡ world_in self.old) }
    {
        let key = Box::new(alloc, key).map_err(AllocError::from)?;
        Ok(self.send_copier(worker, index, key))
    }

    /// A worker is to close the fallback of the partition at an index.
    fn close(&mut self, worker: u16, index: u16) -> Outcome
        ensures { TakesRunStep (world_in self.old) (closing_step worker index) result
            (world_in self.new) }
    {
        let Some((place, site)) = self.idle_and_fallback(worker, index) else {
            return Outcome::No;
        };
        let own = usize::from(index);
        set_phase(
            &mut self.workers[place],
            Phase::Closing(own, site, CloseStage::Asked),
        );
        Outcome::Done
    }

    /// Takes a step. Where memory is refused nothing changes.
    pub(crate) fn step(&mut self, alloc: Global, step: Step) -> Result<Outcome, StepFault>
        ensures ok { IfOk result (λ outcome.
            TakesFitStep self.old (step_of step) outcome self.new) }
        ensures err { OnErr result (world_in self.new ≡ world_in self.old) }
    {
        match step {
            Step::Ask(worker, index, request) => self.ask(alloc, worker, index, request),
            Step::Reap(worker, index, key) => self.reap(alloc, worker, index, key),
            Step::Enter(worker) => self.act(alloc, worker, Act::Enter),
            Step::Leave(worker) => self.act(alloc, worker, Act::Leave),
            Step::Mark(worker) => self.act(alloc, worker, Act::Mark),
            Step::Unmark(worker) => self.act(alloc, worker, Act::Unmark),
            Step::Take(worker) => self.act(alloc, worker, Act::Take),
            Step::Put(worker) => self.act(alloc, worker, Act::Put),
            Step::Look(worker) => self.act(alloc, worker, Act::Look),
            Step::Publish(worker) => self.act(alloc, worker, Act::Publish),
            Step::Divert(index) => self.divert(alloc, index),
            Step::Copy(worker, index, key) => self.copy(alloc, worker, index, key),
            Step::Close(worker, index) => Ok(self.close(worker, index)),
        }
    }
}

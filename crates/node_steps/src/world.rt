//! A running world.

ghost use Rattle.std.specs.Prelude.{◌≡◌, map, replicate, IfOk, OnErr};
ghost use Rattle.node_steps.specs.World.{opening_vnodes, opening_world, own_sites};
ghost use Rattle.node_steps.specs.Erased.{erase, erase_vnode};
ghost use Rattle.node_steps.specs.Running.{vnode_of};
ghost use Rattle.node_steps.specs.Asked.{step_of};
ghost use Rattle.node_steps.specs.Parts.{TakesRunStep};
ghost use Rattle.node_steps.specs.Kept.{FollowsInRun, FollowsAll, FollowsSome};

use crate::fault::StepFault;
use crate::outcome::Outcome;
use crate::parts::Parts;
use crate::phase::Phase;
use crate::site::{Site, new_site};
use crate::step::Step;
use std::alloc::{AllocError, Global};
use std::marker::Model;

/// Workers over vnodes, which take one step at a time in any order. Contracts see the world of
/// [`always`](crate::always) without its histories, which no step needs.
///
/// One of three workers and one vnode, which is asked for b/k:
///
/// - 1 is asked a get and enters. 2 is asked a put of "v" and marks the word; then 3, which is asked a
///   get, can't enter, and 2 can't take the state, since 1 is inside.
/// - 1 looks, which shows that the key is absent, and leaves. 2 takes the state, and looks: its put is
///   planned. It publishes, and the put is answered.
/// - 3 can't enter until 2 has put the state back. Then it enters, looks, and sees "v".
pub struct World {
    parts: Parts,
}

/// One call at each place where one is let go.
impl Drop for World {
    fn drop(self) {
        let World { parts: _parts } = self;
    }
}

impl Model for World {
    ghost use Rattle.node_steps.specs.World.{World};
    ghost use Rattle.node_steps.specs.Kept.{kept_of, IsKept};

    ghost Value = { World };

    ghost view = { kept_of };

    ghost invariant = { λ w. IsKept (kept_of w) };
}

/// The vnodes of a run, each in place.
fn new_sites(alloc: Global, run: u32, vnodes: u16) -> Result<Vec<Site>, AllocError>
    ensures { IfOk result (λ sites.
        map vnode_of sites.items ≡ map erase_vnode (opening_vnodes run 0 vnodes)) }
{
    let mut sites = Vec::with_capacity(alloc, usize::from(vnodes))?;
    for index in 0..vnodes {
        let id = u64::from(run) * 65_536 + u64::from(index);
        let site = new_site(alloc, id, usize::from(index), 0)?;
        sites.push(site)?;
    }
    Ok(sites)
}

/// For each partition its own site.
fn new_routes(alloc: Global, vnodes: u16) -> Result<Vec<usize>, AllocError>
    ensures { IfOk result (λ routes. routes.items ≡ own_sites 0 vnodes) }
{
    let mut routes = Vec::with_capacity(alloc, usize::from(vnodes))?;
    for index in 0..vnodes {
        routes.push(usize::from(index))?;
    }
    Ok(routes)
}

/// For each partition that no fallback has given an epoch.
fn new_epochs(alloc: Global, vnodes: u16) -> Result<Vec<u32>, AllocError>
    ensures { IfOk result (λ epochs. epochs.items ≡ replicate vnodes 0) }
{
    let mut epochs = Vec::with_capacity(alloc, usize::from(vnodes))?;
    for _ in 0..vnodes {
        epochs.push(0)?;
    }
    Ok(epochs)
}

/// Workers that have no call.
fn new_workers(alloc: Global, workers: u16) -> Result<Vec<Phase>, AllocError>
    ensures { IfOk result (λ phases. phases.items ≡ replicate workers Phase.Idle) }
{
    let mut phases = Vec::with_capacity(alloc, usize::from(workers))?;
    for _ in 0..workers {
        phases.push(Phase::Idle)?;
    }
    Ok(phases)
}

impl World {
    /// A world of so many workers, which have no call, and so many partitions of a run, none of which is
    /// diverted, before any event: the vnode of the partition at an index has the id `run * 65536 +
    /// index`.
    pub fn new(alloc: Global, workers: u16, vnodes: u16, run: u32) -> Result<World, StepFault>
        ensures { IfOk result (λ world. world ≡ erase (opening_world run workers vnodes)) }
    {
        Ok(World {
            parts: Parts {
                sites: new_sites(alloc, run, vnodes)?,
                routes: new_routes(alloc, vnodes)?,
                epochs: new_epochs(alloc, vnodes)?,
                workers: new_workers(alloc, workers)?,
            },
        })
    }

    /// Takes a step, and returns its outcome, which is `No` exactly where it isn't possible. Where memory
    /// is refused nothing changes.
    ///
    /// A look copies what it shows, and what it plans, a copier's the key's clock, a closer's one key
    /// after another; a call, and a copier's key, is kept on the heap; a fallback takes a place. All else
    /// takes no memory.
    pub fn step(&mut self, alloc: Global, step: Step) -> Result<Outcome, StepFault>
        ensures step { IfOk result (λ outcome.
            TakesRunStep self.old (step_of step) outcome self.new) }
        ensures schedule { IfOk result (λ outcome.
            FollowsInRun self.old (step_of step) outcome self.new) }
        ensures err { OnErr result (self.new ≡ self.old) }
    {
        self.parts.step(alloc, step)
    }

    /// Makes room for the outcomes, and takes the steps in their order, each as a copy. Where memory is
    /// refused for a step those before it are taken.
    pub fn run(&mut self, alloc: Global, steps: &[Step]) -> Result<Vec<Outcome>, StepFault>
        ensures ok { IfOk result (λ outcomes.
            FollowsAll self.old steps.now outcomes.items self.new) }
        ensures err { OnErr result (FollowsSome self.old steps.now self.new) }
    {
        let mut outcomes = Vec::with_capacity(alloc, steps.len())?;
        for step in steps {
            let copy = step.clone(alloc)?;
            let outcome = self.step(alloc, copy)?;
            let Ok(()) = outcomes.push(outcome) else {
                return Err(StepFault::NoMemory);
            };
        }
        Ok(outcomes)
    }
}

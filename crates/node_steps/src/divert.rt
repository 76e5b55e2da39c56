//! A partition that is diverted.

ghost use Rattle.std.specs.Prelude.{◌≡◌, not, map, IfOk, OnErr};
ghost use Rattle.std.specs.List.{list_all};
ghost use Rattle.node_steps.specs.Parts.{MayDivert, TakesFitStep, world_in};
ghost use Rattle.node_steps.specs.Running.{phase_of, vnode_of, worker_of};
ghost use Rattle.node_steps.specs.Steps.{is_for, Diverts};

use crate::fault::StepFault;
use crate::outcome::Outcome;
use crate::parts::Parts;
use crate::phase::Phase;
use crate::site::{Site, new_site};
use std::alloc::Global;

/// By how much the id of a fallback is above its primary's.
const FALLBACK_IDS: u64 = 32_768;

/// Whether a worker in this phase has to do with a site of the partition of this index.
fn is_for(sites: &[Site], index: usize, phase: &Phase) -> bool
    ensures { result ≡ is_for (map vnode_of sites.now) index 0 (phase_of phase.now) }
{
    let mut at = 0;
    while at < sites.len() {
        if sites[at].own == index && phase.is_about(at) {
            return true;
        }
        at += 1;
    }
    false
}

/// Whether no worker has to do with the partition of this index.
fn is_free(sites: &[Site], workers: &[Phase], index: usize) -> bool
    ensures { result ≡ list_all
        (λ worker. not (is_for (map vnode_of sites.now) index 0 worker.phase))
        (map worker_of workers.now) }
{
    for phase in workers {
        if is_for(sites, index, phase) {
            return false;
        }
    }
    true
}

impl Parts {
    /// The id of a fallback for a partition, and the epoch that it is opened behind, where it can be
    /// diverted: its calls go to its own site, and no worker has to do with it, so that the state is in
    /// place.
    fn next_fallback(&self, own: usize) -> Option<(u64, u32)>
        ensures { MayDivert self.now own result }
    {
        let site = *self.routes.get(own)?;
        let epoch = *self.epochs.get(own)?;
        if site != own {
            return None;
        }
        if !is_free(self.sites.as_slice(), self.workers.as_slice(), own) {
            return None;
        }
        let primary = self.sites.get(own)?;
        match &primary.place {
            Some(hand) => Some((hand.id().saturating_add(FALLBACK_IDS), epoch)),
            None => None,
        }
    }

    /// A partition is diverted: its calls go to a fallback at a new site from then on. Where memory is
    /// refused nothing changes.
    pub(crate) fn divert(&mut self, alloc: Global, index: u16) -> Result<Outcome, StepFault>
        ensures ok { IfOk result (λ outcome.
            TakesFitStep self.old (Diverts index) outcome self.new) }
        ensures err { OnErr result (world_in self.new ≡ world_in self.old) }
    {
        let own = usize::from(index);
        let Some((id, epoch)) = self.next_fallback(own) else {
            return Ok(Outcome::No);
        };
        let fallback = new_site(alloc, id, own, epoch)?;
        let site = self.sites.len();
        let Ok(()) = self.sites.push(fallback) else {
            return Err(StepFault::NoMemory);
        };
        self.routes[own] = site;
        Ok(Outcome::Done)
    }
}

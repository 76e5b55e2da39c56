//! How far a server has come whose workers are paused.

ghost use Rattle.std.specs.Prelude.{◌≡◌, ◌<◌, ◌^◌, ◌↔◌, length, nat_eq, IfErr, IfSome, IsTrue, OnErr, OnOk};
ghost use Rattle.std.specs.List.{list_all};
ghost use Rattle.handoff.specs.Partitions.{IsDivertRefused};
ghost use Rattle.gate_node.specs.Gates.{handoff_of};
ghost use Rattle.worker_pool.specs.Resuming.{IsOnceDiverted};
ghost use Rattle.node_commands.specs.Periods.{IsNew, NoneRests};

use gate_node::{Passes, Shared};
use handoff::HandoffFault;
use socket_streams::SocketSession;
use stats_book::Totals;
use std::alloc::Global;

/// What a server's workers have come to, where they are paused or haven't begun.
#[derive(Drop)]
pub struct Progress {
    /// The sessions that rest, of each worker.
    pub rested: Vec<Vec<SocketSession>>,
    /// What the sessions that are over had seen of the gates.
    pub seen: Passes,
    /// What all sessions have counted.
    pub totals: Totals,
    /// How many connections were accepted.
    pub connections: u64,
    /// How many of them were closed before they came to a worker, for want of memory.
    pub closed: u64,
}

/// A server whose workers are paused: its gates are its own.
#[derive(Drop)]
pub struct Paused {
    pub shared: Shared,
    pub progress: Progress,
}

/// Whether none of these lists has a session.
fn are_empty(lists: &[Vec<SocketSession>]) -> bool
    ensures { result ≡ list_all (λ one. nat_eq (length one.items) 0) lists.now }
{
    lists.iter().all(|one| one.is_empty())
}

impl Progress {
    /// No session has begun, over these gates. None where memory is refused.
    fn new(alloc: Global, shared: &Shared) -> Option<Progress>
        ensures { IfSome result (IsNew shared.now) }
    {
        let seen = Passes::new(alloc, shared).ok()?;
        Some(Progress {
            rested: Vec::new(alloc),
            seen,
            totals: Totals::zeros(),
            connections: 0,
            closed: 0,
        })
    }

    /// Whether no session rests.
    pub(crate) fn rests_none(&self) -> bool
        ensures { IsTrue result ↔ NoneRests self.now }
    {
        are_empty(self.rested.as_slice())
    }
}

impl Paused {
    /// A server over these gates whose workers haven't begun. None where memory is refused.
    pub(crate) fn new(alloc: Global, shared: Shared) -> Option<Paused>
        ensures shared { IfSome result (λ paused. paused.shared ≡ shared) }
        ensures progress { IfSome result (λ paused. IsNew paused.shared paused.progress) }
    {
        let progress = Progress::new(alloc, &shared)?;
        Some(Paused { shared, progress })
    }

    /// The same, with this partition diverted, whose index is below the ring's size; or unchanged, and why. The budget is that of the gates' sweeps.
    pub(crate) fn divert(
        self,
        alloc: Global,
        partition: u16,
        budget: u32,
    ) -> (Paused, Result<(), HandoffFault>)
        requires partition { partition < 2 ^ self.shared.index_bits }
        requires budget { budget ≡ self.shared.budget }
        ensures ok { OnOk result.1 (IsOnceDiverted partition self.shared result.0.shared) }
        ensures err { OnErr result.1 (result.0.shared ≡ self.shared) }
        ensures fault { IfErr result.1 (IsDivertRefused (handoff_of self.shared) partition) }
        ensures progress { result.0.progress ≡ self.progress }
    {
        let Paused { shared, progress } = self;
        let reads = shared.reads();
        let mut handoff = shared.into_handoff();
        let diverted = handoff.divert(alloc, partition);
        let shared = Shared::over(handoff, budget, reads);
        (Paused { shared, progress }, diverted)
    }
}

//! What the workers of a run keep for themselves.
ghost use Rattle.std.specs.Prelude.{◌≡◌, length, IfOk};

use gate_node::{GateNode, GivenUp, PartitionCache, Reserve, Ring, Turnstile};
use stats_book::SessionCount;
use std::alloc::{AllocError, Global};
use std::sync::{Mutex, Wait};

/// Of how many keys a worker remembers the partitions: 416 KiB of them.
const PLACES: usize = 8_192;

/// What a worker keeps, and lends to the nodes of its sessions.
pub(crate) struct KeptByWorker<'a> {
    /// What it keeps back, of which nothing is there at first.
    pub(crate) reserve: Reserve<'a>,
    /// The partitions of the keys that it met. None where there is one partition.
    pub(crate) partitions: Option<PartitionCache>,
}

/// One call at each place where one is let go.
impl<'a> Drop for KeptByWorker<'a> {
    fn drop(self) {
        let KeptByWorker {
            reserve: _reserve,
            partitions: _partitions,
        } = self;
    }
}

impl<'a> KeptByWorker<'a> {
    /// Of a worker on this ring, whose run counts so what is given up.
    fn new(alloc: Global, ring: Ring, given_up: &'a GivenUp) -> KeptByWorker<'a> {
        let mut partitions = None;
        if ring.size() > 1 {
            partitions = Some(PartitionCache::new(alloc, ring, PLACES));
        }
        KeptByWorker {
            reserve: Reserve::new(alloc, given_up),
            partitions,
        }
    }
}

/// What the workers of a run keep, in their order.
pub(crate) struct Kept<'a> {
    pub(crate) workers: Vec<KeptByWorker<'a>>,
    /// Whose reserve is being filled has it.
    pub(crate) filling: Mutex<()>,
}

/// One call at each place where one is let go.
impl<'a> Drop for Kept<'a> {
    fn drop(self) {
        let Kept {
            workers: _workers,
            filling: _filling,
        } = self;
    }
}

/// What so many workers keep on this ring, of whose reserves this counts what is given up.
pub(crate) fn new_kept<'a>(
    alloc: Global,
    ring: Ring,
    count: usize,
    given_up: &'a GivenUp,
) -> Result<Kept<'a>, AllocError>
    ensures { IfOk result (λ kept. length kept.workers.items ≡ count) }
{
    let mut workers = Vec::with_capacity(alloc, count)?;
    for _ in 0..count {
        workers.push(KeptByWorker::new(alloc, ring, given_up))?;
    }
    Ok(Kept {
        workers,
        filling: Mutex::new(()),
    })
}

/// A node with what its worker keeps, where it does.
pub(crate) fn kept_by<'a, X: Wait, T: Turnstile>(
    node: GateNode<'a, X, T, SessionCount>,
    worker: Option<&'a KeptByWorker<'a>>,
) -> GateNode<'a, X, T, SessionCount>
    ensures { result ≡ node.entry }
{
    let Some(worker) = worker else {
        return node;
    };
    let node = node.with_reserve(&worker.reserve);
    match &worker.partitions {
        Some(partitions) => node.with_partitions(partitions),
        None => node,
    }
}

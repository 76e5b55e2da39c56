//! What the workers of a run are started with.
ghost use Rattle.std.specs.Prelude.{◌≡◌, length, IfOk, IfErr};
ghost use Rattle.job_pool.specs.Lists.{Every};
ghost use Rattle.job_pool.specs.Workers.{IsNew};
ghost use Rattle.stats_book.specs.Counting.{zeros};
ghost use Rattle.gate_node.specs.declared.fault.PoolFault.TheVariants.{NoMemory};
ghost use Rattle.worker_pool.specs.EndReporters.{HasRoom, IsNewServingSetup};

use crate::end_reporter::EndReporter;
use crate::end_sink::EndSink;
use crate::kept::Kept;
use crate::serving_setup::ServingSetup;
use crate::session_service::OfGates;
use crate::watch::Watch;
use crate::worker_state::WorkerState;
use gate_node::{Passes, PoolFault, Shared};
use job_pool::WorkerSetup;
use node_session::{Source, Target};
use std::alloc::Global;

/// What a worker of a run is started with.
pub(crate) type WorkerSetupOf<'a, H, R, W, K, Y, B> = WorkerSetup<
    WorkerState,
    EndReporter<H, R, W, K>,
    Watch<'a, Y>,
    B,
>;

/// What the worker in a place is started with that has this setup.
fn new_worker_setup<'a, H, R, W, K, Y, B>(
    alloc: Global,
    shared: &Shared,
    serving_setup: ServingSetup<K, Y, B>,
    place: usize,
    kept: &'a Kept<'a>,
) -> Result<WorkerSetupOf<'a, H, R, W, K, Y, B>, PoolFault>
where
    H: OfGates,
    R: Source + Drop,
    W: Target + Drop,
    K: EndSink<R, W> + Drop,
    Y: Drop,
    B: Drop,
    requires of_run { shared.now ≡ H.gates }
    requires new { IsNewServingSetup K.told K.has_room serving_setup }
    ensures new { IfOk result (IsNew (λ end_reporter. end_reporter.told)
        (λ end_reporter n. HasRoom K.has_room end_reporter n)) }
    ensures worker { IfOk result (λ worker_setup. worker_setup.worker ≡ zeros) }
    ensures fault { IfErr result (λ fault. fault ≡ NoMemory) }
{
    let seen = match Passes::new(alloc, shared) {
        Ok(seen) => seen,
        Err(_) => return Err(PoolFault::NoMemory),
    };
    let ServingSetup {
        sink,
        readiness,
        wakeup,
        counts,
    } = serving_setup;
    Ok(WorkerSetup {
        worker: WorkerState::new(alloc, place, counts),
        sink: EndReporter::new(alloc, sink, seen),
        readiness: Watch::new(alloc, readiness, kept, place),
        wakeup,
    })
}

/// What the workers are started with, each with what the worker in its place keeps.
pub(crate) fn worker_setups_of<'a, H, R, W, K, Y, B>(
    alloc: Global,
    shared: &Shared,
    serving_setups: Vec<ServingSetup<K, Y, B>>,
    kept: &'a Kept<'a>,
) -> Result<Vec<WorkerSetupOf<'a, H, R, W, K, Y, B>>, PoolFault>
where
    H: OfGates,
    R: Source + Drop,
    W: Target + Drop,
    K: EndSink<R, W> + Drop,
    Y: Drop,
    B: Drop,
    requires of_run { shared.now ≡ H.gates }
    requires new { Every (IsNewServingSetup K.told K.has_room) serving_setups.items }
    ensures new { IfOk result (λ worker_setups. Every (IsNew (λ end_reporter. end_reporter.told)
        (λ end_reporter n. HasRoom K.has_room end_reporter n)) worker_setups.items) }
    ensures zeros { IfOk result (λ worker_setups.
        Every (λ worker_setup. worker_setup.worker ≡ zeros) worker_setups.items) }
    ensures count { IfOk result (λ worker_setups.
        length worker_setups.items ≡ length serving_setups.items) }
    ensures fault { IfErr result (λ fault. fault ≡ NoMemory) }
{
    let mut worker_setups = Vec::new(alloc);
    for serving_setup in serving_setups {
        let place = worker_setups.len();
        let Ok(worker_setup) = new_worker_setup(alloc, shared, serving_setup, place, kept) else {
            return Err(PoolFault::NoMemory);
        };
        let Ok(()) = worker_setups.push(worker_setup) else {
            return Err(PoolFault::NoMemory);
        };
    }
    Ok(worker_setups)
}

//! How the workers are started.
ghost use Rattle.std.specs.Prelude.{◌≡◌, [], map, IfOk, IfErr};
ghost use Rattle.crossbeam_queue.specs.Passes.{view, IsPassOf};
ghost use Rattle.job_pool.specs.Lists.{Every};
ghost use Rattle.job_pool.specs.Ends.{HasWorked};
ghost use Rattle.job_pool.specs.Queue.{leader, newcomer};
ghost use Rattle.job_pool.specs.Workers.{IsNew, IsOn, IsOfRun, state_before, worker_of};

use crate::fault::RunFault;
use crate::join::Child;
use crate::queue::{Accepts, Fork, JobQueue, QueuePass};
use crate::readiness::{Readiness, Wakeup, WorkerSetup};
use crate::service::Service;
use crate::sink::Sink;
use crate::sleepers::Sleepers;
use crate::worker::{WorkerOutput, WorkerPromise, work};
use std::alloc::Global;
use std::snapshot::Snapshot;
use std::sync::Wait;
use std::thread::{Scope, Threads};

/// Starts a worker with this setup.
fn start_one<'s, X, H, S, K, D, B, T>(
    scope: &'s Scope<'s, X>,
    rt: &'s T,
    alloc: Global,
    service: &'s S,
    queue: &'s JobQueue<H, S::Job>,
    pass: &mut QueuePass<S::Job>,
    sleepers: &mut Sleepers<B>,
    worker_setup: WorkerSetup<S::Worker, K, D, B>,
) -> Result<Child<S, K>, RunFault>
where
    H: Accepts<S::Job> + Send + Sync,
    S: Service,
    K: Sink<S> + Drop + Send + 's,
    D: Readiness<S> + Drop + Send + 's,
    B: Wakeup + Drop,
    T: Threads + Wait + Sync,
    requires queue { IsPassOf queue.now pass.old × (view pass.old ≡ leader) }
    requires accepts { (job : S.Job) → H.accepts job → S.accepts service.now job }
    requires new { IsNew K.told K.has_room worker_setup }
    ensures queue { IsPassOf queue.now pass.new × (view pass.new ≡ leader) }
    ensures child { IfOk result (λ child.
        IsOn queue.now.table.shared.table_id service.now child
        × (state_before child ≡ worker_setup.worker)) }
    ensures fault { IfErr result IsOfRun }
{
    let WorkerSetup {
        worker,
        sink,
        readiness,
        wakeup,
    } = worker_setup;
    let Ok(to_leader) = sleepers.add(wakeup) else {
        return Err(RunFault::NoMemory);
    };
    let theirs = queue.another::<Fork>(pass);
    let promise = WorkerPromise {
        service: Snapshot::of(service),
        worker: Snapshot::of(&worker),
        pass: Snapshot::of(&theirs),
    };
    let Ok(child) = scope.spawn_with(
        promise,
        move || -> WorkerOutput<S::Worker, S::Job, K>
            requires queue { IsPassOf queue.now theirs × (view theirs ≡ newcomer) }
            requires accepts { (job : S.Job) → H.accepts job → S.accepts service.now job }
            requires none { K.told sink ≡ [] }
            requires room { K.has_room sink 0 }
            ensures queue { IsPassOf queue.entry.now result.pass }
            ensures worked { HasWorked (S.serves service.entry.now) (view result.pass).taken
                (K.told result.left.sink) result.left.taken result.left.refused
                worker result.left.worker }
        {
            work::<H, S, K, D, T>(
                rt, alloc, service, queue, theirs, to_leader, worker, sink, readiness,
            )
        },
    ) else {
        return Err(RunFault::NoThread);
    };
    Ok(child)
}

/// Starts a worker with each of these setups. Where it fails, some have been started.
pub(crate) fn start_all<'s, X, H, S, K, D, B, T>(
    scope: &'s Scope<'s, X>,
    rt: &'s T,
    alloc: Global,
    service: &'s S,
    queue: &'s JobQueue<H, S::Job>,
    pass: &mut QueuePass<S::Job>,
    sleepers: &mut Sleepers<B>,
    children: &mut Vec<Child<S, K>>,
    worker_setups: Vec<WorkerSetup<S::Worker, K, D, B>>,
) -> Result<(), RunFault>
where
    H: Accepts<S::Job> + Send + Sync,
    S: Service,
    K: Sink<S> + Drop + Send + 's,
    D: Readiness<S> + Drop + Send + 's,
    B: Wakeup + Drop,
    T: Threads + Wait + Sync,
    requires queue { IsPassOf queue.now pass.old × (view pass.old ≡ leader) }
    requires accepts { (job : S.Job) → H.accepts job → S.accepts service.now job }
    requires new { Every (IsNew K.told K.has_room) worker_setups.items }
    requires none { children.old.items ≡ [] }
    ensures queue { IsPassOf queue.now pass.new × (view pass.new ≡ leader) }
    ensures children { Every (IsOn queue.now.table.shared.table_id service.now) children.new.items }
    ensures workers { IfOk result (λ _.
        map state_before children.new.items ≡ map worker_of worker_setups.items) }
    ensures fault { IfErr result IsOfRun }
{
    let Ok(()) = children.reserve(worker_setups.len()) else {
        return Err(RunFault::NoMemory);
    };
    for worker_setup in worker_setups {
        match start_one(
            scope,
            rt,
            alloc,
            service,
            queue,
            pass,
            sleepers,
            worker_setup,
        ) {
            Ok(child) => children.push_reserved(child),
            Err(fault) => return Err(fault),
        }
    }
    Ok(())
}

//! How the workers are joined.
ghost use Rattle.std.specs.Prelude.{◌≡◌, true, [], length, map};
ghost use Rattle.crossbeam_queue.specs.Passes.{view, IsPassOf};
ghost use Rattle.job_pool.specs.Ends.{AreJoined, IsWorkerJoined};
ghost use Rattle.job_pool.specs.Lists.{Every};
ghost use Rattle.job_pool.specs.Queue.{AreOfGiven};
ghost use Rattle.job_pool.specs.Telling.{HasPlaces, IsEmpty};
ghost use Rattle.job_pool.specs.Workers.{IsOn, state_before};

use crate::queue::{Accepts, Fork, JobQueue, QueuePass, Reconcile};
use crate::service::Service;
use crate::sink::Sink;
use crate::worker::{Left, WorkerOutput, WorkerPromise};
use crate::workers_left::WorkersLeft;
use std::snapshot::Snapshot;
use std::thread::{PromisedHandle, Threads};

/// A worker that was started.
pub(crate) type Child<S, K> = PromisedHandle<
    WorkerOutput<<S as Service>::Worker, <S as Service>::Job, K>,
    WorkerPromise<S, <S as Service>::Worker, <S as Service>::Job>,
>;

/// Joins a worker, and learns what it took.
fn join_one<H, S, K, T>(
    rt: &T,
    queue: &JobQueue<H, S::Job>,
    pass: &mut QueuePass<S::Job>,
    child: Child<S, K>,
) -> Left<S::Worker, K>
where
    H: Accepts<S::Job>,
    S: Service,
    K: Sink<S> + Drop + Send,
    T: Threads,
    requires queue { IsPassOf queue.now pass.old × ((view pass.old).leads ≡ true) }
    requires child { child.promise.pass.value.table_id ≡ queue.now.table.shared.table_id }
    ensures queue { IsPassOf queue.now pass.new × ((view pass.new).leads ≡ true) }
    ensures given { (view pass.new).given ≡ (view pass.old).given }
    ensures joined { IsWorkerJoined (S.serves child.promise.service.value) (view pass.old).given
        (view pass.old).taken (view pass.new).taken (K.told result.sink) result.taken
        result.refused child.promise.worker.value result.worker }
{
    let WorkerOutput { pass: theirs, left } = child.join(rt);
    queue.absorb::<Fork>(pass, theirs);
    queue.learn_as::<Reconcile>(pass);
    left
}

/// Joins the workers, in their order, and lays what each left with what the others left.
pub(crate) fn join_all<H, S, K, T>(
    rt: &T,
    service: Snapshot<S>,
    queue: &JobQueue<H, S::Job>,
    pass: &mut QueuePass<S::Job>,
    children: Vec<Child<S, K>>,
    told: &mut WorkersLeft<S::Worker, K>,
)
where
    H: Accepts<S::Job>,
    S: Service,
    K: Sink<S> + Drop + Send,
    T: Threads,
    requires queue { IsPassOf queue.now pass.old × ((view pass.old).leads ≡ true) }
    requires taken { (view pass.old).taken ≡ [] }
    requires children { Every (IsOn queue.now.table.shared.table_id service.value) children.items }
    requires told { IsEmpty told.old × HasPlaces told.old (length children.items) }
    ensures given { (view pass.new).given ≡ (view pass.old).given }
    ensures learned { AreOfGiven (view pass.new) }
    ensures joined { AreJoined (S.serves service.value) K.told (view pass.old).given
        (view pass.new).taken (map state_before children.items) []
        told.new.workers.items told.new.sinks.items told.new.given told.new.refused }
{
    for child in children {
        let left = join_one(rt, queue, pass, child);
        told.add(left);
    }
    queue.learn_as::<Reconcile>(pass);
}

/// Joins workers of which nothing is wanted.
pub(crate) fn let_go<S: Service, K: Sink<S> + Drop + Send, T: Threads>(
    rt: &T,
    children: Vec<Child<S, K>>,
) {
    for child in children {
        child.join(rt);
    }
}

//! A run of the pool.
ghost use Rattle.std.specs.Prelude.{◌≡◌, ◌<◌, [], length, map, IfOk, IfErr};
ghost use Rattle.crossbeam_queue.specs.Passes.{view, IsPassOf};
ghost use Rattle.job_pool.specs.Giving.{GivesOnly, Leaves};
ghost use Rattle.job_pool.specs.Lists.{Every};
ghost use Rattle.job_pool.specs.Queue.{leader};
ghost use Rattle.job_pool.specs.Telling.{HasPlaces, IsEmpty};
ghost use Rattle.job_pool.specs.Telling.{TellsEachOnce, TellsGiven, ToldThenFailed};
ghost use Rattle.job_pool.specs.Workers.{IsNew, IsOfRun, IsOn, state_before, worker_of};
ghost use Rattle.job_pool.specs.declared.fault.RunFault.TheVariants.{JobsFailed};

use crate::fault::RunFault;
use crate::jobs::Jobs;
use crate::join::{Child, join_all, let_go};
use crate::lent::Lent;
use crate::queue::{Accepts, JobQueue, QueuePass};
use crate::readiness::{Readiness, Wakeup, WorkerSetup};
use crate::rooms::Rooms;
use crate::service::Service;
use crate::sink::Sink;
use crate::sleepers::{Sleepers, Wakes};
use crate::start::start_all;
use crate::submit::{submit_all, submit_stops};
use crate::workers_left::WorkersLeft;
use std::alloc::Global;
use std::marker::Brand;
use std::snapshot::Snapshot;
use std::sync::Wait;
use std::thread;
use std::thread::Threads;

/// How many jobs wait in the queue at most, unless there are more workers: then as many as these. They are few, since
/// their places are one piece of memory, each of a whole job, and a run is to start where no long piece is free.
pub const MAX_WAITING: usize = 64;

/// What the workers left, and how the source stopped.
#[derive(Drop)]
struct Joined<W, K> {
    told: WorkersLeft<W, K>,
    stopped: Result<(), RunFault>,
}

/// Gives the jobs to the workers that were started, and a stop mark to each; then joins them. What they took has to be all that was given: so
/// each job was served or refused.
fn dispatch<H, S, G, K, B, T>(
    rt: &T,
    service: Snapshot<S>,
    queue: &JobQueue<H, S::Job>,
    pass: &mut QueuePass<S::Job>,
    sleepers: &Sleepers<B>,
    jobs: &mut G,
    children: Vec<Child<S, K>>,
    told: WorkersLeft<S::Worker, K>,
) -> Result<Joined<S::Worker, K>, RunFault>
where
    H: Accepts<S::Job>,
    S: Service,
    G: Jobs<Job = S::Job>,
    K: Sink<S> + Drop + Send,
    B: Wakeup + Drop,
    T: Threads + Wait,
    requires queue { IsPassOf queue.now pass.old × (view pass.old ≡ leader) }
    requires accepts { GivesOnly G.gives H.accepts jobs.old }
    requires children { Every (IsOn queue.now.table.shared.table_id service.value) children.items }
    requires told { IsEmpty told × HasPlaces told (length children.items) }
    ensures told { IfOk result (λ joined.
        TellsGiven (S.serves service.value) K.told G.gives jobs.old
        (map state_before children.items) joined.told joined.stopped jobs.new) }
    ensures fault { IfErr result (λ fault. Leaves G.gives fault jobs.old jobs.new) }
    ensures own { IfErr result IsOfRun }
{
    let mut told = told;
    let (count, stopped) = submit_all(rt, queue, pass, sleepers, jobs);
    submit_stops(rt, queue, pass, sleepers, children.len());
    join_all(rt, service, queue, pass, children, &mut told);
    if told.given == count {
        Ok(Joined { told, stopped })
    } else {
        Err(RunFault::NoMemory)
    }
}

/// Stops and joins the workers that were started.
fn give_up<H, S, K, B, T>(
    rt: &T,
    queue: &JobQueue<H, S::Job>,
    pass: &mut QueuePass<S::Job>,
    sleepers: &Sleepers<B>,
    children: Vec<Child<S, K>>,
)
where
    H: Accepts<S::Job>,
    S: Service,
    K: Sink<S> + Drop + Send,
    B: Wakeup + Drop,
    T: Threads + Wait,
    requires queue { IsPassOf queue.now pass.old × (view pass.old ≡ leader) }
{
    submit_stops(rt, queue, pass, sleepers, children.len());
    let_go(rt, children);
}

/// A run over a queue of which this pass gives the jobs. The source of jobs comes back.
fn run_on<'a, H, S, G, K, D, B, T>(
    rt: &'a T,
    alloc: Global,
    service: &'a S,
    queue: &'a JobQueue<H, S::Job>,
    pass: QueuePass<S::Job>,
    rooms: Rooms<S::Worker, K, B>,
    jobs: G,
    worker_setups: Vec<WorkerSetup<S::Worker, K, D, B>>,
) -> (G, Result<Joined<S::Worker, K>, RunFault>)
where
    H: Accepts<S::Job> + Send + Sync,
    S: Service,
    G: Jobs<Job = S::Job> + Drop,
    K: Sink<S> + Drop + Send + 'a,
    D: Readiness<S> + Drop + Send + 'a,
    B: Wakeup + Drop,
    T: Threads + Wait + Sync,
    requires queue { IsPassOf queue.now pass × (view pass ≡ leader) }
    requires accepts { (job : S.Job) → H.accepts job → S.accepts service.now job }
    requires jobs { GivesOnly G.gives H.accepts jobs }
    requires new { Every (IsNew K.told K.has_room) worker_setups.items }
    requires told { IsEmpty rooms.told × HasPlaces rooms.told (length worker_setups.items) }
    ensures told { IfOk result.1 (λ joined.
        TellsGiven (S.serves service.now) K.told G.gives jobs
        (map worker_of worker_setups.items) joined.told joined.stopped result.0) }
    ensures fault { IfErr result.1 (λ fault. Leaves G.gives fault jobs result.0) }
    ensures own { IfErr result.1 IsOfRun }
{
    thread::scope(
        thread::scope_env(),
        rt,
        |scope| -> (G, Result<Joined<S::Worker, K>, RunFault>)
            requires queue { IsPassOf queue.now pass × (view pass ≡ leader) }
            requires accepts { (job : S.Job) → H.accepts job → S.accepts service.now job }
            requires jobs { GivesOnly G.gives H.accepts jobs }
            requires new { Every (IsNew K.told K.has_room) worker_setups.items }
            requires told { IsEmpty rooms.told × HasPlaces rooms.told (length worker_setups.items) }
            ensures told { IfOk result.1 (λ joined.
                TellsGiven (S.serves service.entry.now) K.told G.gives jobs
                (map worker_of worker_setups.items) joined.told joined.stopped result.0) }
            ensures fault { IfErr result.1 (λ fault. Leaves G.gives fault jobs result.0) }
            ensures own { IfErr result.1 IsOfRun }
        {
            let mut mine = pass;
            let mut source = jobs;
            let Rooms { sleepers, told } = rooms;
            let mut sleepers = sleepers;
            let mut children = Vec::new(alloc);
            let started = start_all(
                scope,
                rt,
                alloc,
                service,
                queue,
                &mut mine,
                &mut sleepers,
                &mut children,
                worker_setups,
            );
            if let Err(fault) = started {
                give_up(rt, queue, &mut mine, &sleepers, children);
                return (source, Err(fault));
            }
            let service = Snapshot::of(service);
            let joined = dispatch(
                rt,
                service,
                queue,
                &mut mine,
                &sleepers,
                &mut source,
                children,
                told,
            );
            (source, joined)
        },
    )
}

/// A run for a service that takes what `H` says. The source of jobs comes back.
fn run_owned<H, S, G, K, D, B, T>(
    rt: &T,
    alloc: Global,
    service: &S,
    jobs: G,
    worker_setups: Vec<WorkerSetup<S::Worker, K, D, B>>,
    wakes: Wakes,
) -> (G, Result<Joined<S::Worker, K>, RunFault>)
where
    H: Accepts<S::Job> + Send + Sync,
    S: Service,
    G: Jobs<Job = S::Job> + Drop,
    K: Sink<S> + Drop + Send,
    D: Readiness<S> + Drop + Send,
    B: Wakeup + Drop,
    T: Threads + Wait + Sync,
    requires accepts { (job : S.Job) → H.accepts job → S.accepts service.now job }
    requires jobs { GivesOnly G.gives H.accepts jobs }
    requires new { Every (IsNew K.told K.has_room) worker_setups.items }
    ensures told { IfOk result.1 (λ joined.
        TellsGiven (S.serves service.now) K.told G.gives jobs
        (map worker_of worker_setups.items) joined.told joined.stopped result.0) }
    ensures fault { IfErr result.1 (λ fault. Leaves G.gives fault jobs result.0) }
    ensures own { IfErr result.1 IsOfRun }
{
    let count = worker_setups.len();
    let Ok(rooms) = Rooms::new(alloc, count, wakes) else {
        return (jobs, Err(RunFault::NoMemory));
    };
    let most = MAX_WAITING.max(count);
    let Ok((queue, pass)) = JobQueue::<H, S::Job>::ruled(alloc, most) else {
        return (jobs, Err(RunFault::NoMemory));
    };
    run_on(rt, alloc, service, &queue, pass, rooms, jobs, worker_setups)
}

/// A run over a source that is lent.
fn run_lent<S, G, K, D, B, T>(
    rt: &T,
    alloc: Global,
    service: &S,
    jobs: &mut G,
    worker_setups: Vec<WorkerSetup<S::Worker, K, D, B>>,
    wakes: Wakes,
) -> Result<Joined<S::Worker, K>, RunFault>
where
    S: Service,
    G: Jobs<Job = S::Job>,
    K: Sink<S> + Drop + Send,
    D: Readiness<S> + Drop + Send,
    B: Wakeup + Drop,
    T: Threads + Wait + Sync,
    requires jobs { GivesOnly G.gives (S.accepts service.now) jobs.old }
    requires new { Every (IsNew K.told K.has_room) worker_setups.items }
    ensures told { IfOk result (λ joined.
        TellsGiven (S.serves service.now) K.told G.gives jobs.old
        (map worker_of worker_setups.items) joined.told joined.stopped jobs.new) }
    ensures fault { IfErr result (λ fault. Leaves G.gives fault jobs.old jobs.new) }
    ensures own { IfErr result IsOfRun }
{
    let lent = Lent { jobs };
    let (Lent { jobs }, joined) = run_owned::<Brand, S, Lent<G>, K, D, B, T>(
        rt,
        alloc,
        service,
        lent,
        worker_setups,
        wakes,
    );
    joined
}

/// Serves all jobs of a source, each once, by a worker with each of these setups, and keeps no end: each is told the sink of the worker that served
/// its job, when it comes.
///
/// What each sink was told are the ends of the turns of its worker, under their jobs' numbers, in their order; these turns lead from the state that
/// was handed in to the one that comes back. A job whose end is told no sink was refused, for want of memory, by the worker that took it, which told
/// its sink so. Each job is one of these, once, and `given` and `refused` count them. There has to be a setup; its sink was told nothing before,
/// and has room for no end at least; and each job that the source may give is one that the service takes.
///
/// A worker takes the jobs for which its wakeup was rung; each is meant for the workers that `wakes` says. It has as many jobs open at a time
/// as its readiness lets it.
///
/// Where the run ends by a fault, the workers that were started have been joined, and their states and sinks are let go:
///
/// - `NoThread`: the system refused a thread. No job was taken from the source.
/// - `JobsFailed`: the source gave some jobs and then a fault. Each of the jobs that it gave was served or refused once.
/// - `NoMemory`: memory was refused to the run, before it took a job from the source; or there were more jobs than can be counted.
///
/// It waits for the workers, and they for jobs. It returns if each call of `next` does, and each job is over after finitely many turns.
pub fn run_at<S, G, T, K, D, B>(
    rt: &T,
    alloc: Global,
    service: &S,
    jobs: &mut G,
    worker_setups: Vec<WorkerSetup<S::Worker, K, D, B>>,
    wakes: Wakes,
) -> Result<WorkersLeft<S::Worker, K>, RunFault>
where
    S: Service,
    G: Jobs<Job = S::Job>,
    T: Threads + Wait + Sync,
    K: Sink<S> + Drop + Send,
    D: Readiness<S> + Drop + Send,
    B: Wakeup + Drop,
    requires some { 0 < length worker_setups.items }
    requires jobs { GivesOnly G.gives (S.accepts service.now) jobs.old }
    requires new { Every (IsNew K.told K.has_room) worker_setups.items }
    ensures told { IfOk result (λ done.
        TellsEachOnce G.gives (S.serves service.now) K.told jobs.old worker_setups.items done
        jobs.new) }
    ensures fault { IfErr result (λ fault. Leaves G.gives fault jobs.old jobs.new) }

    // Where the source failed, each job that it gave was told or refused once.
    ensures failed { IfErr result (λ fault. fault ≡ JobsFailed
        → ToldThenFailed G.gives (S.serves service.now) K.told
        jobs.old worker_setups.items jobs.new) }
{
    match run_lent(rt, alloc, service, jobs, worker_setups, wakes) {
        Ok(joined) => {
            let Joined { told, stopped } = joined;
            match stopped {
                Ok(()) => Ok(told),
                Err(fault) => Err(fault),
            }
        }
        Err(fault) => Err(fault),
    }
}

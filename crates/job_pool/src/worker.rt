//! A worker: it takes jobs and serves them until it takes a stop mark.
ghost use Rattle.std.specs.Prelude.{◌≡◌, []};
ghost use Rattle.slab.specs.Slab.{slab_len};
ghost use Rattle.crossbeam_queue.specs.Passes.{view, IsPassOf};
ghost use Rattle.job_pool.specs.Queue.{newcomer};
ghost use Rattle.job_pool.specs.Ends.{HasWorked};

use crate::open_jobs::OpenJobs;
use crate::queue::{Accepts, JobQueue, Pop, QueuePass, Task};
use crate::readiness::Readiness;
use crate::service::Service;
use crate::sink::Sink;
use crate::sleepers::Leader;
use std::alloc::Global;
use std::snapshot::Snapshot;
use std::sync::Wait;
use std::thread::Promise;

/// The end of a job under the job's number.
#[derive(Drop)]
pub struct NumberedEnd<E> {
    pub number: usize,
    pub end: E,
}

/// What a worker leaves whose jobs have all ended.
#[derive(Drop)]
pub struct Left<W, K> {
    pub worker: W,
    pub sink: K,
    /// How many jobs it took, and how many of these it refused.
    pub taken: usize,
    pub refused: usize,
}

/// What a worker gives back when it stops.
#[derive(Drop)]
pub struct WorkerOutput<W, J, K> {
    pub pass: QueuePass<J>,
    pub left: Left<W, K>,
}

/// What a worker promises of its work: its pass is of the same queue, and what its sink was told are the ends of its turns, each with a
/// job that it took, which lead from its first state to its last. It has served or refused each job that it took, once.
#[derive(Drop)]
pub struct WorkerPromise<S, W, J> {
    pub service: Snapshot<S>,
    pub worker: Snapshot<W>,
    pub pass: Snapshot<QueuePass<J>>,
}

impl<S: Service, K: Sink<S>> Promise<WorkerOutput<S::Worker, S::Job, K>>
    for WorkerPromise<S, S::Worker, S::Job> {
    ghost use Rattle.std.specs.Prelude.{◌≡◌, []};
    ghost use Rattle.crossbeam_queue.specs.Passes.{view};
    ghost use Rattle.job_pool.specs.Ends.{HasWorked};

    ghost kept_by = { λ p work.
        ((work.pass.table_id ≡ p.pass.value.table_id) × (work.pass.me.1 ≡ []))
        × HasWorked (S.serves p.service.value) (view work.pass).taken
        (K.told work.left.sink) work.left.taken work.left.refused
        p.worker.value work.left.worker };
}

/// How many tasks a worker takes at most before it gives those that it has their turns.
const MAX_TASKS_PER_ROUND: u32 = 64;

/// What a worker took out of the queue.
#[derive(Clone, Copy, Drop)]
enum Took {
    /// Jobs, each of which was opened or refused.
    Jobs,
    /// A stop mark.
    Stop,
    /// There was nothing.
    Nothing,
}

/// Takes a task out of the queue, if there is one, and opens the job. Wakes the leading thread, which may sleep for room.
fn take_task<'a, H, S, K, D, T>(
    rt: &T,
    alloc: Global,
    queue: &JobQueue<H, S::Job>,
    pass: &mut QueuePass<S::Job>,
    to_leader: &Leader,
    open_jobs: &mut OpenJobs<'a, S, K>,
    waits: &mut D,
) -> Took
where
    H: Accepts<S::Job>,
    S: Service,
    K: Sink<S> + Drop,
    D: Readiness<S>,
    T: Wait,
    requires queue { IsPassOf queue.now pass.old }
    requires accepts { (job : S.Job) → H.accepts job → S.accepts open_jobs.old.service job }
    requires taken { open_jobs.old.taken ≡ (view pass.old).taken }
    ensures queue { IsPassOf queue.now pass.new }
    ensures taken { open_jobs.new.taken ≡ (view pass.new).taken }
    ensures service { open_jobs.new.service ≡ open_jobs.old.service }
    ensures first { open_jobs.new.first ≡ open_jobs.old.first }
{
    match queue.pop_as::<Pop<H>, T>(rt, pass) {
        Some(Task::Serve(next)) => {
            to_leader.wake();
            let has_room = open_jobs.reserve(alloc);
            if let Some(slot) = open_jobs.begin(alloc, next, has_room) {
                if let Some(opened) = open_jobs.opened(slot) {
                    waits.begin(slot, opened);
                }
            }
            Took::Jobs
        }
        Some(Task::Stop) => {
            to_leader.wake();
            Took::Stop
        }
        None => Took::Nothing,
    }
}

/// Takes the tasks out of the queue that are to be taken, and opens the jobs: until there is none, or a stop mark was taken, or 64 were, so that
/// open jobs go on meanwhile.
fn take_tasks<'a, H, S, K, D, T>(
    rt: &T,
    alloc: Global,
    queue: &JobQueue<H, S::Job>,
    pass: &mut QueuePass<S::Job>,
    to_leader: &Leader,
    open_jobs: &mut OpenJobs<'a, S, K>,
    waits: &mut D,
) -> Took
where
    H: Accepts<S::Job>,
    S: Service,
    K: Sink<S> + Drop,
    D: Readiness<S>,
    T: Wait,
    requires queue { IsPassOf queue.now pass.old }
    requires accepts { (job : S.Job) → H.accepts job → S.accepts open_jobs.old.service job }
    requires taken { open_jobs.old.taken ≡ (view pass.old).taken }
    ensures queue { IsPassOf queue.now pass.new }
    ensures taken { open_jobs.new.taken ≡ (view pass.new).taken }
    ensures service { open_jobs.new.service ≡ open_jobs.old.service }
    ensures first { open_jobs.new.first ≡ open_jobs.old.first }
{
    let mut took = Took::Nothing;
    for _ in 0..MAX_TASKS_PER_ROUND {
        if !waits.takes(open_jobs.is_empty()) {
            return took;
        }
        match take_task(rt, alloc, queue, pass, to_leader, open_jobs, waits) {
            Took::Jobs => took = Took::Jobs,
            Took::Stop => return Took::Stop,
            Took::Nothing => return took,
        }
    }
    took
}

/// Gives each slot that is to have one a turn.
fn take_turns<'a, S: Service, K: Sink<S> + Drop, D: Readiness<S>>(
    alloc: Global,
    open_jobs: &mut OpenJobs<'a, S, K>,
    waits: &mut D,
)
    ensures service { open_jobs.new.service ≡ open_jobs.old.service }
    ensures first { open_jobs.new.first ≡ open_jobs.old.first }
    ensures taken { open_jobs.new.taken ≡ open_jobs.old.taken }
{
    for _ in 0..u64::MAX {
        match waits.next() {
            Some(turn) => {
                let moved = open_jobs.take_turn(alloc, turn, waits);
                waits.after(turn.slot, moved);
            }
            None => return,
        }
    }
}

/// One round of a worker: it takes the tasks that it is to take, and gives each job that is ready a turn. It waits where it took none, unless its last
/// job has just ended, or it has its stop mark and no job open: then nothing might wake it. Whether it has taken its stop mark.
fn work_once<'a, H, S, K, D, T>(
    rt: &T,
    alloc: Global,
    queue: &JobQueue<H, S::Job>,
    pass: &mut QueuePass<S::Job>,
    to_leader: &Leader,
    open_jobs: &mut OpenJobs<'a, S, K>,
    waits: &mut D,
    is_stopped: bool,
) -> bool
where
    H: Accepts<S::Job>,
    S: Service,
    K: Sink<S> + Drop,
    D: Readiness<S>,
    T: Wait,
    requires queue { IsPassOf queue.now pass.old }
    requires accepts { (job : S.Job) → H.accepts job → S.accepts open_jobs.old.service job }
    requires taken { open_jobs.old.taken ≡ (view pass.old).taken }
    ensures queue { IsPassOf queue.now pass.new }
    ensures taken { open_jobs.new.taken ≡ (view pass.new).taken }
    ensures service { open_jobs.new.service ≡ open_jobs.old.service }
    ensures first { open_jobs.new.first ≡ open_jobs.old.first }
{
    let was_idle = open_jobs.is_empty();
    if !is_stopped {
        match take_tasks(rt, alloc, queue, pass, to_leader, open_jobs, waits) {
            Took::Jobs => {
                take_turns(alloc, open_jobs, waits);
                return false;
            }
            Took::Stop => return true,
            Took::Nothing => {}
        }
    }
    take_turns(alloc, open_jobs, waits);

    // who has just become idle looks for a task first: the wakeup may have been rung for it long ago
    let is_idle = open_jobs.is_empty();
    if !is_idle || (was_idle && !is_stopped) {
        waits.wait(rt, is_idle);
    }
    is_stopped
}

/// What a worker gives back whose jobs have all ended.
fn finish<'a, S: Service, K: Sink<S> + Drop>(
    open_jobs: OpenJobs<'a, S, K>,
    pass: QueuePass<S::Job>,
) -> WorkerOutput<S::Worker, S::Job, K>
    requires empty { slab_len open_jobs.jobs ≡ 0 }
    requires taken { open_jobs.taken ≡ (view pass).taken }
    ensures pass { result.pass ≡ pass }
    ensures worked { HasWorked (S.serves open_jobs.entry.service) (view result.pass).taken
        (K.told result.left.sink) result.left.taken result.left.refused
        open_jobs.entry.first result.left.worker }
{
    WorkerOutput {
        pass,
        left: open_jobs.into_left(),
    }
}

/// Serves jobs, many at once, until it takes a stop mark and all have ended. It waits by its readiness alone. The sink was told each end as it came.
pub(crate) fn work<H, S, K, D, T>(
    rt: &T,
    alloc: Global,
    service: &S,
    queue: &JobQueue<H, S::Job>,
    pass: QueuePass<S::Job>,
    to_leader: Leader,
    worker: S::Worker,
    sink: K,
    readiness: D,
) -> WorkerOutput<S::Worker, S::Job, K>
where
    H: Accepts<S::Job>,
    S: Service,
    K: Sink<S> + Drop,
    D: Readiness<S> + Drop,
    T: Wait,
    requires queue { IsPassOf queue.now pass × (view pass ≡ newcomer) }
    requires accepts { (job : S.Job) → H.accepts job → S.accepts service.now job }
    requires none { K.told sink ≡ [] }
    requires room { K.has_room sink 0 }
    ensures queue { IsPassOf queue.now result.pass }
    ensures worked { HasWorked (S.serves service.now) (view result.pass).taken
        (K.told result.left.sink) result.left.taken result.left.refused
        worker result.left.worker }
{
    let mut mine = pass;
    let mut waits = readiness;
    let mut open_jobs = OpenJobs::new(alloc, service, worker, sink);
    let mut is_stopped = false;
    for _ in rt.forever() {
        is_stopped = work_once(
            rt,
            alloc,
            queue,
            &mut mine,
            &to_leader,
            &mut open_jobs,
            &mut waits,
            is_stopped,
        );
        if is_stopped && open_jobs.is_empty() {
            return finish(open_jobs, mine);
        }
    }
    unreachable!()
}

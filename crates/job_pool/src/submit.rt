//! How the jobs come into the queue.
ghost use Rattle.std.specs.Prelude.{◌≡◌, [], true, length, IfOk, IfErr};
ghost use Rattle.crossbeam_queue.specs.Passes.{view, IsPassOf};
ghost use Rattle.job_pool.specs.Giving.{GaveAll, GivesOnly, StoppedAfter};
ghost use Rattle.job_pool.specs.Queue.{leader, after_push, IsAcceptedTask, IsNextTask};

use crate::fault::RunFault;
use crate::jobs::Jobs;
use crate::queue::{Accepts, JobQueue, NumberedJob, Push, QueuePass, Task};
use crate::readiness::Wakeup;
use crate::sleepers::Sleepers;
use std::sync::Wait;

/// Puts a task into the queue. Where the queue is full it sleeps until a worker has taken a task.
fn submit<H: Accepts<J>, J, B: Wakeup + Drop, T: Wait>(
    rt: &T,
    queue: &JobQueue<H, J>,
    pass: &mut QueuePass<J>,
    sleepers: &Sleepers<B>,
    task: Task<J>,
)
    requires queue { IsPassOf queue.now pass.old }
    requires leads { (view pass.old).leads ≡ true }
    requires next { IsNextTask (view pass.old).given task × IsAcceptedTask H.accepts task }
    ensures queue { IsPassOf queue.now pass.new }
    ensures pushed { view pass.new ≡ after_push (view pass.old) task }
{
    let mut held = task;
    for _ in rt.forever() {
        match queue.push_as::<Push, T>(rt, pass, held) {
            Ok(()) => return,
            Err(back) => {
                held = back;
                sleepers.sleep(rt);
            }
        }
    }
    unreachable!()
}

/// Takes all jobs and puts each into the queue under its number, and wakes those that it is meant for. Returns how many it put there, also behind a fault.
pub(crate) fn submit_all<H, G, B, T>(
    rt: &T,
    queue: &JobQueue<H, G::Job>,
    pass: &mut QueuePass<G::Job>,
    sleepers: &Sleepers<B>,
    jobs: &mut G,
) -> (usize, Result<(), RunFault>)
where
    H: Accepts<G::Job>,
    G: Jobs,
    G::Job: Drop,
    B: Wakeup + Drop,
    T: Wait,
    requires queue { IsPassOf queue.now pass.old × (view pass.old ≡ leader) }
    requires accepts { GivesOnly G.gives H.accepts jobs.old }
    ensures queue { IsPassOf queue.now pass.new × ((view pass.new).leads ≡ true) }
    ensures count { result.0 ≡ length (view pass.new).given }
    ensures taken { (view pass.new).taken ≡ [] }
    ensures given { IfOk result.1 (λ _. GaveAll G.gives jobs.old (view pass.new).given jobs.new) }
    ensures fault { IfErr result.1 (λ fault.
        StoppedAfter G.gives fault jobs.old (view pass.new).given jobs.new) }
{
    let mut count: usize = 0;
    for _ in rt.forever() {
        match jobs.next() {
            Ok(Some(job)) => {
                let Some(more) = count.checked_add(1) else {
                    return (count, Err(RunFault::NoMemory));
                };
                let task = Task::Serve(NumberedJob { number: count, job });
                submit(rt, queue, pass, sleepers, task);
                sleepers.ring();
                count = more;
            }
            Ok(None) => return (count, Ok(())),
            Err(_) => return (count, Err(RunFault::JobsFailed)),
        }
    }
    unreachable!()
}

/// Puts a stop mark into the queue for each worker, and wakes all.
pub(crate) fn submit_stops<H: Accepts<J>, J, B: Wakeup + Drop, T: Wait>(
    rt: &T,
    queue: &JobQueue<H, J>,
    pass: &mut QueuePass<J>,
    sleepers: &Sleepers<B>,
    workers: usize,
)
    requires queue { IsPassOf queue.now pass.old × ((view pass.old).leads ≡ true) }
    ensures queue { IsPassOf queue.now pass.new }
    ensures same { view pass.new ≡ view pass.old }
{
    for _ in 0..workers {
        submit(rt, queue, pass, sleepers, Task::Stop);
    }
    sleepers.close();
}

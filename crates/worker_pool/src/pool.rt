//! A run of the pool that keeps all ends.
ghost use Rattle.std.specs.Prelude.{◌≡◌, ◌≤◌, length, map, IfOk, IfErr};
ghost use Rattle.job_pool.specs.Giving.{GivesOnly};
ghost use Rattle.stats_book.specs.Counting.{sum_of};
ghost use Rattle.gate_node.specs.OneHistory.{ShareHistories};
ghost use Rattle.worker_pool.specs.JobEnds.{IsForGates, WereOfRun, counted_whole, end_passes};
ghost use Rattle.worker_pool.specs.Run.{ServesSource};
ghost use Rattle.worker_pool.specs.JobFaults.{LeavesSource, IsFaultAfter, IsFaultOf};

use crate::closed::Closed;
use crate::job::{End, EndRead, EndWrite, Job};
use crate::pause::NoPause;
use crate::server::{ServedJob, Server};
use crate::serving::pool_fault;
use crate::session_service::{OfGates, SessionService};
use crate::stream_readiness::{ShownStreams, new_rounds};
use crate::worker_setups::new_worker_setups;
use crate::worker_state::{WorkerState, sum_up};
use gate_node::{PoolFault, Shared, Turnstile, tallies_of};
use job_pool::{
    Finished, Jobs, Post, Rounds, StreamReadiness, Wake, Wakes, Wakeup, ends_in_order, run_at,
};
use std::alloc::Global;
use std::marker::Brand;
use std::sync::Wait;
use std::thread::Threads;

/// Workers that serve connections over the gates of a run.
pub struct Pool;

/// The ends, where the book was full at none of them.
fn whole_ends<I: Drop, O: Drop>(
    alloc: Global,
    served: Vec<ServedJob<I, O>>,
) -> Result<Vec<End<I, O>>, PoolFault>
    ensures ends { IfOk result (λ ends. map counted_whole ends.items ≡ served.items) }
    ensures fault { IfErr result (IsFaultOf served.items) }
{
    let mut ends = Vec::new(alloc);
    for one in served {
        if one.book_full {
            return Err(PoolFault::BookFull);
        }
        let Ok(()) = ends.push(one.end) else {
            return Err(PoolFault::NoMemory);
        };
    }
    Ok(ends)
}

/// What a run leaves whose workers were joined: what they counted in all, and a look at each vnode.
fn finish<X, I, O>(
    rt: &X,
    alloc: Global,
    shared: &Shared,
    finished: Finished<ServedJob<I, O>, WorkerState>,
) -> Result<Closed<I, O>, PoolFault>
where
    X: Wait,
    I: Drop,
    O: Drop,
    requires passes { WereOfRun shared.now finished.ends.items }
    ensures ends { IfOk result (λ closed.
        map counted_whole closed.ends.items ≡ finished.ends.items) }
    ensures history { IfOk result (λ closed.
        ShareHistories end_passes shared.now.gates closed.ends.items
        closed.tallies.items closed.count_all) }
    ensures totals { IfOk result (λ closed. closed.totals ≡ sum_of finished.workers.items) }
    ensures fault { IfErr result (IsFaultAfter finished.ends.items finished.workers.items) }
{
    let Finished {
        ends: served,
        workers: worker_states,
    } = finished;
    let ends = match whole_ends(alloc, served) {
        Ok(ends) => ends,
        Err(fault) => return Err(fault),
    };
    let Some(totals) = sum_up(worker_states) else {
        return Err(PoolFault::BookFull);
    };
    match tallies_of(rt, alloc, shared, ends.as_slice()) {
        Ok(found) => Ok(Closed {
            totals,
            tallies: found.tallies,
            count_all: found.count_all,
            ends,
        }),
        Err(fault) => Err(fault),
    }
}

/// A run by workers at these posts, over the gates that `H` names.
fn run_at_posts<H, X, J, I, O, T, Y, B>(
    rt: &X,
    alloc: Global,
    shared: &Shared,
    jobs: &mut J,
    workers: u16,
    posts: Vec<Post<ShownStreams<Y>, B>>,
    wakes: Wakes,
    turnstile: &T,
) -> Result<Closed<I, O>, PoolFault>
where
    H: OfGates + Sync + Send,
    X: Threads + Wait + Sync,
    J: Jobs<Job = Job<I, O>>,
    I: EndRead + Drop + Send + Sync,
    O: EndWrite + Drop + Send + Sync,
    T: Turnstile + Sync,
    Y: StreamReadiness<I, O> + Drop + Send,
    B: Wakeup + Drop,
    requires of_run { shared.now ≡ H.gates }
    requires workers { 1 ≤ workers }
    requires posts { length posts.items ≡ workers }
    requires jobs { GivesOnly J.gives (IsForGates shared.now) jobs.old }
    ensures served { IfOk result (λ closed.
        ServesSource I.source O.target shared.now J.gives workers
        jobs.old closed jobs.new) }
    ensures fault { IfErr result (λ fault.
        LeavesSource J.gives I.source O.target shared.now fault jobs.old jobs.new) }
{
    let Ok(worker_setups) = new_worker_setups(alloc, workers, posts) else {
        return Err(PoolFault::NoMemory);
    };
    let server = Server {
        session_service: SessionService::<H, X, T, NoPause, I, O>::new(
            rt, shared, turnstile, &NoPause,
        ),
    };
    let left = match run_at(rt, alloc, &server, jobs, worker_setups, wakes) {
        Ok(left) => left,
        Err(fault) => return Err(pool_fault(fault)),
    };
    match ends_in_order(alloc, &server, left) {
        Ok(finished) => finish(rt, alloc, shared, finished),
        Err(_) => Err(PoolFault::NoMemory),
    }
}

impl Pool {
    /// Serves all jobs of a source over the gates of a run, each once, by so many workers.
    ///
    /// There are 1 to 64 workers, and the passes of each job that the source may give are of these gates. The calling thread takes the
    /// jobs from the source and hands them to the workers; each is served by one worker, whose calls pass the turnstile. On success
    /// there is one end for each job, in the order in which the source gave them. The end has the job's own reader, writer and
    /// passes, and what `serve` returned: what was written is the output for what was read, by a run of the step of a node over the
    /// gates from the job's passes to the end's, which may serve a later job. The totals are what the sessions of these ends counted,
    /// each session once.
    ///
    /// There is one history of the primary of each partition, legal, and after each step of each session the passes have seen beginnings
    /// of these histories. So each reply is at a position of the history of its key's vnode
    /// ([`replies_are_at_positions`](crate::replies_are_at_positions)), and what two connections are told of one vnode fits together. The
    /// tallies are in the order of the partitions, each of the whole of that history: of one look after the workers were joined, made
    /// again where the history had gone on past the state that was found, or where an end's pass had seen more. Order in real time isn't
    /// said, nor any order between vnodes. In a partition that is diverted each reply is at a position of its fallback's history; that
    /// this is one history for all sessions isn't said, and there is no tally of it.
    ///
    /// Where it is refused, the workers that were started have been joined, and what they did to the vnodes stays:
    ///
    /// - `NoMemory`: memory was refused, to the run or to a worker for the end of a job, which was then not served. The source gave
    ///   some jobs, or all of them.
    /// - `NoThread`: the system refused a thread. No job was taken from the source.
    /// - `JobsFailed`: the source gave some jobs and then a fault. The jobs that it gave were served, or refused for want of memory.
    /// - `BookFull`: all jobs were served, and a total would have passed 18,446,744,073,709,551,615: that of a worker, at the end of one of its
    ///   sessions, or the sum over the workers.
    ///
    /// It waits for the workers, and they for jobs and for one another. It returns if each call of the source, of the readers and the
    /// writers, and of the turnstile does.
    pub fn run<X, J, I, O, T>(
        rt: &X,
        alloc: Global,
        shared: &Shared,
        jobs: &mut J,
        workers: u16,
        turnstile: &T,
    ) -> Result<Closed<I, O>, PoolFault>
    where
        X: Threads + Wait + Sync,
        J: Jobs<Job = Job<I, O>>,
        I: EndRead + Drop + Send + Sync,
        O: EndWrite + Drop + Send + Sync,
        T: Turnstile + Sync,
        requires workers { (1 ≤ workers) × (workers ≤ 64) }
        requires jobs { GivesOnly J.gives (IsForGates shared.now) jobs.old }
        ensures served { IfOk result (λ closed.
            ServesSource I.source O.target shared.now J.gives workers
            jobs.old closed jobs.new) }
        ensures fault { IfErr result (λ fault.
            LeavesSource J.gives I.source O.target shared.now fault jobs.old jobs.new) }
    {
        let Ok(posts) = new_rounds(alloc, workers) else {
            return Err(PoolFault::NoMemory);
        };
        run_at_posts::<Brand, X, J, I, O, T, Rounds, Wake>(
            rt,
            alloc,
            shared,
            jobs,
            workers,
            posts,
            Wakes::All,
            turnstile,
        )
    }

    /// The same by a worker at each of these posts. The calling thread hands each job to a worker with the least load, by
    /// its wakeup; how many sessions a worker has open, and which of them has its turn, its readiness says.
    ///
    /// It returns if each call of the source and of the turnstile does, and each session is over after finitely many turns.
    pub fn run_with<X, J, I, O, T, Y, B>(
        rt: &X,
        alloc: Global,
        shared: &Shared,
        jobs: &mut J,
        workers: u16,
        posts: Vec<Post<ShownStreams<Y>, B>>,
        turnstile: &T,
    ) -> Result<Closed<I, O>, PoolFault>
    where
        X: Threads + Wait + Sync,
        J: Jobs<Job = Job<I, O>>,
        I: EndRead + Drop + Send + Sync,
        O: EndWrite + Drop + Send + Sync,
        T: Turnstile + Sync,
        Y: StreamReadiness<I, O> + Drop + Send,
        B: Wakeup + Drop,
        requires workers { (1 ≤ workers) × (workers ≤ 64) }
        requires posts { length posts.items ≡ workers }
        requires jobs { GivesOnly J.gives (IsForGates shared.now) jobs.old }
        ensures served { IfOk result (λ closed.
            ServesSource I.source O.target shared.now J.gives workers
            jobs.old closed jobs.new) }
        ensures fault { IfErr result (λ fault.
            LeavesSource J.gives I.source O.target shared.now fault jobs.old jobs.new) }
    {
        run_at_posts::<Brand, X, J, I, O, T, Y, B>(
            rt,
            alloc,
            shared,
            jobs,
            workers,
            posts,
            Wakes::LeastLoad,
            turnstile,
        )
    }
}

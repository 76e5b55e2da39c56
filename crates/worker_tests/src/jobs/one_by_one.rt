//! Runs whose workers have one job open at a time, all of which are woken for each, and whose ends are kept.
ghost use Rattle.std.specs.Prelude.{◌≡◌, ◌<◌, length, IfOk};
ghost use Rattle.job_pool.specs.Giving.{GivesOnly};

use job_pool::{
    Finished, Jobs, Post, Readiness, Rounds, RunFault, Service, StepOutcome, StreamReadiness, Turn,
    Wake, Wakes, collecting_setups, ends_in_order, run_at,
};
use std::alloc::{AllocError, Global};
use std::sync::Wait;
use std::thread::Threads;

/// Gives the jobs of a service their turns as sessions have them that are shown no streams.
#[derive(Drop)]
struct WithoutStreams<Y> {
    streams: Y,
}

impl<S: Service, Y: StreamReadiness<(), ()>> Readiness<S> for WithoutStreams<Y> {
    fn takes(&mut self, is_idle: bool) -> bool {
        self.streams.takes(is_idle)
    }

    fn begin(&mut self, slot: usize, _opened: &S::Open) {
        self.streams.begin(slot, &(), &());
    }

    fn next(&mut self) -> Option<Turn> {
        self.streams.next()
    }

    fn ends_turn(&mut self, slot: usize, before: u32) -> bool {
        self.streams.ends_turn(slot, before)
    }

    fn after(&mut self, slot: usize, moved: StepOutcome) {
        self.streams.after(slot, moved);
    }

    fn wait<T: Wait>(&mut self, rt: &T, is_idle: bool) {
        self.streams.wait(rt, is_idle);
    }
}

/// So many posts.
fn new_posts(
    alloc: Global,
    count: usize,
) -> Result<Vec<Post<WithoutStreams<Rounds>, Wake>>, AllocError>
    ensures { IfOk result (λ posts. length posts.items ≡ count) }
{
    let mut posts = Vec::new(alloc);
    for _ in 0..count {
        let (streams, wakeup) = Rounds::new(alloc)?;
        posts.push(Post {
            readiness: WithoutStreams { streams },
            wakeup,
        })?;
    }
    Ok(posts)
}

/// A run by workers with these states.
pub fn run<S, G, T>(
    rt: &T,
    alloc: Global,
    service: &S,
    jobs: &mut G,
    workers: Vec<S::Worker>,
) -> Result<Finished<S::End, S::Worker>, RunFault>
where
    S: Service,
    G: Jobs<Job = S::Job>,
    T: Threads + Wait + Sync,
    requires some { 0 < length workers.items }
    requires jobs { GivesOnly G.gives (S.accepts service.now) jobs.old }
{
    let Ok(posts) = new_posts(alloc, workers.len()) else {
        return Err(RunFault::NoMemory);
    };
    let Ok(worker_setups) = collecting_setups(alloc, workers, posts) else {
        return Err(RunFault::NoMemory);
    };
    let left = match run_at(rt, alloc, service, jobs, worker_setups, Wakes::All) {
        Ok(left) => left,
        Err(fault) => return Err(fault),
    };
    match ends_in_order(alloc, service, left) {
        Ok(finished) => Ok(finished),
        Err(_) => Err(RunFault::NoMemory),
    }
}

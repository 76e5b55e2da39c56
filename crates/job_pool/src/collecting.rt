//! What the workers of a run that keeps all ends are started with.
ghost use Rattle.std.specs.Prelude.{◌≡◌, length, map, IfOk};
ghost use Rattle.job_pool.specs.Lists.{Every};
ghost use Rattle.job_pool.specs.Sinks.{HasRoom, kept};
ghost use Rattle.job_pool.specs.Workers.{IsNew, worker_of};

use crate::readiness::{Post, WorkerSetup};
use crate::sink::Collected;
use std::alloc::{AllocError, Global};

/// A setup for each of these workers, at one of these posts, whose sink keeps all ends. The sinks make room for an end when a job is opened.
pub fn collecting_setups<W: Drop, E: Drop, D: Drop, B: Drop>(
    alloc: Global,
    workers: Vec<W>,
    posts: Vec<Post<D, B>>,
) -> Result<Vec<WorkerSetup<W, Collected<E>, D, B>>, AllocError>
    requires { length posts.items ≡ length workers.items }
    ensures workers { IfOk result (λ worker_setups.
        map worker_of worker_setups.items ≡ workers.items) }
    ensures new { IfOk result (λ worker_setups. Every (IsNew kept HasRoom) worker_setups.items) }
{
    let mut worker_setups = Vec::with_capacity(alloc, workers.len())?;
    let mut left = posts;
    for worker in workers {
        let Some(post) = left.pop() else {
            unreachable!()
        };
        let Post { readiness, wakeup } = post;
        worker_setups.push_reserved(WorkerSetup {
            worker,
            sink: Collected::new(alloc),
            readiness,
            wakeup,
        });
    }
    Ok(worker_setups)
}

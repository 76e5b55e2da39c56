//! What the workers of a run are started with.
ghost use Rattle.std.specs.Prelude.{◌≡◌, length, map, replicate, IfOk};
ghost use Rattle.job_pool.specs.Lists.{Every};
ghost use Rattle.job_pool.specs.Sinks.{HasRoom, kept};
ghost use Rattle.job_pool.specs.Workers.{IsNew, worker_of};
ghost use Rattle.stats_book.specs.Counting.{zeros};

use crate::server::ServedJob;
use crate::stream_readiness::ShownStreams;
use crate::worker_state::{WorkerState, new_worker_states};
use job_pool::{Collected, Post, WorkerSetup, collecting_setups};
use std::alloc::{AllocError, Global};

/// What a worker is started with: its sink keeps all ends.
pub(crate) type WorkerSetupOf<I, O, Y, B> = WorkerSetup<
    WorkerState,
    Collected<ServedJob<I, O>>,
    ShownStreams<Y>,
    B,
>;

/// What so many workers are started with, at these posts, which have counted nothing.
pub(crate) fn new_worker_setups<I: Drop, O: Drop, Y: Drop, B: Drop>(
    alloc: Global,
    workers: u16,
    posts: Vec<Post<ShownStreams<Y>, B>>,
) -> Result<Vec<WorkerSetupOf<I, O, Y, B>>, AllocError>
    requires { length posts.items ≡ workers }
    ensures workers { IfOk result (λ worker_setups.
        map worker_of worker_setups.items ≡ replicate workers zeros) }
    ensures new { IfOk result (λ worker_setups. Every (IsNew kept HasRoom) worker_setups.items) }
{
    let worker_states = new_worker_states(alloc, workers)?;
    collecting_setups(alloc, worker_states, posts)
}

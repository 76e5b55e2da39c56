//! What a run has memory for before it takes a job.
ghost use Rattle.std.specs.Prelude.{IfOk};
ghost use Rattle.job_pool.specs.Telling.{HasPlaces, IsEmpty};

use crate::readiness::Wakeup;
use crate::sleepers::{Sleepers, Wakes};
use crate::workers_left::WorkersLeft;
use std::alloc::{AllocError, Global};

/// Where the leading thread sleeps, and places for what the workers leave.
#[derive(Drop)]
pub(crate) struct Rooms<W, K, B> {
    pub(crate) sleepers: Sleepers<B>,
    pub(crate) told: WorkersLeft<W, K>,
}

impl<W: Drop, K: Drop, B: Wakeup + Drop> Rooms<W, K, B> {
    /// For so many workers.
    pub(crate) fn new(
        alloc: Global,
        count: usize,
        wakes: Wakes,
    ) -> Result<Rooms<W, K, B>, AllocError>
        ensures { IfOk result (λ rooms. IsEmpty rooms.told × HasPlaces rooms.told count) }
    {
        Ok(Rooms {
            sleepers: Sleepers::new(alloc, wakes)?,
            told: WorkersLeft::with_places(alloc, count)?,
        })
    }
}

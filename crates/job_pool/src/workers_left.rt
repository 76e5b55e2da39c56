//! What the workers of a run left.
ghost use Rattle.std.specs.Prelude.{◌≡◌, ◌+◌, ◌∷◌, ◌++◌, [], IfOk, length, ℕ};
ghost use Rattle.job_pool.specs.Ends.{IsCount};
ghost use Rattle.job_pool.specs.Telling.{HasPlaces, IsEmpty};

use crate::worker::Left;
use std::alloc::{AllocError, Global};

/// What the workers of a run left.
#[derive(Drop)]
pub struct WorkersLeft<W, K> {
    /// The states of the workers, in the order in which their setups were handed in.
    pub workers: Vec<W>,
    /// Their sinks, in that order.
    pub sinks: Vec<K>,
    /// How many jobs the source gave.
    pub given: usize,
    /// How many of them were refused for want of memory.
    pub refused: usize,
}

impl<W: Drop, K: Drop> WorkersLeft<W, K> {
    /// What none left, with places for so many.
    pub(crate) fn with_places(alloc: Global, count: usize) -> Result<WorkersLeft<W, K>, AllocError>
        ensures empty { IfOk result IsEmpty }
        ensures places { IfOk result (λ told. HasPlaces told count) }
    {
        Ok(WorkersLeft {
            workers: Vec::with_capacity(alloc, count)?,
            sinks: Vec::with_capacity(alloc, count)?,
            given: 0,
            refused: 0,
        })
    }

    /// With what one worker more left.
    pub(crate) fn add(&mut self, left: Left<W, K>)
        requires places { HasPlaces self.old 1 }
        ensures workers { self.new.workers.items ≡ self.old.workers.items ++ left.worker ∷ [] }
        ensures sinks { self.new.sinks.items ≡ self.old.sinks.items ++ left.sink ∷ [] }
        ensures given { IsCount self.new.given (self.old.given + left.taken) }
        ensures refused { IsCount self.new.refused (self.old.refused + left.refused) }
        ensures places { (n : ℕ) → HasPlaces self.old (n + 1) → HasPlaces self.new n }
    {
        let Left {
            worker,
            sink,
            taken,
            refused,
        } = left;
        self.workers.push_reserved(worker);
        self.sinks.push_reserved(sink);
        self.given = self.given.saturating_add(taken);
        self.refused = self.refused.saturating_add(refused);
    }
}

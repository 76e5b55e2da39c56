//! What others see of a worker's sessions while it serves.

use node_session::AnswerCounts;
use stats_book::LiveTotals;
use std::alloc::{AllocError, Global};
use std::sync::Arc;

/// What a worker's sessions have done by now, for whoever has a copy: the worker counts, and every thread may read the
/// numbers at any time, without a lock. Copies are of the same numbers. A worker of a later run may count on in them.
#[derive(Drop)]
pub struct LiveCounts {
    totals: Arc<LiveTotals, Global>,
    answers: Arc<AnswerCounts, Global>,
}

impl LiveCounts {
    /// Nothing was done.
    pub fn new(alloc: Global) -> Result<LiveCounts, AllocError> {
        let answers = Arc::new(alloc, AnswerCounts::new(alloc)?)?;
        Ok(LiveCounts {
            totals: Arc::new(alloc, LiveTotals::new())?,
            answers,
        })
    }

    /// The same numbers once more. Refused where there are too many copies.
    pub fn try_clone(&self) -> Result<LiveCounts, AllocError> {
        let answers = Arc::try_clone(&self.answers)?;
        Ok(LiveCounts {
            totals: Arc::try_clone(&self.totals)?,
            answers,
        })
    }

    /// What the sessions have counted.
    pub fn totals(&self) -> &LiveTotals {
        &self.totals
    }

    /// How the sessions have answered messages.
    pub fn answers(&self) -> &AnswerCounts {
        &self.answers
    }

    /// Where a session shows what it counts.
    pub(crate) fn share_totals(&self) -> Option<Arc<LiveTotals, Global>> {
        Arc::try_clone(&self.totals).ok()
    }

    /// Where a worker counts the answers of its sessions.
    pub(crate) fn share_answers(&self) -> Option<Arc<AnswerCounts, Global>> {
        Arc::try_clone(&self.answers).ok()
    }
}

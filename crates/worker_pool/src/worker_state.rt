//! What a worker has beside its open sessions.
ghost use Rattle.std.specs.Prelude.{◌≡◌, true, false, replicate, IfOk, IfSome, IfNone};
ghost use Rattle.stats_book.specs.Counting.{ArePastFull, both, sum_of, zeros};

use crate::live_counts::LiveCounts;
use node_session::Scratch;
use stats_book::{SessionCount, Totals};
use std::alloc::{AllocError, Global};
use std::marker::Model;

/// What a worker has counted, what is lent to each step of its sessions, and which of the run's workers it is.
///
/// Contracts see what it has counted.
pub struct WorkerState {
    totals: Totals,
    pub(crate) scratch: Scratch,
    pub(crate) place: usize,
    counts: Option<LiveCounts>,
}

/// One call at each place where one is let go.
impl Drop for WorkerState {
    fn drop(self) {
        let WorkerState {
            totals: _totals,
            scratch: _scratch,
            place: _place,
            counts: _counts,
        } = self;
    }
}

impl Model for WorkerState {
    ghost use Rattle.stats_book.specs.declared.totals.Totals.{Totals};

    ghost Value = { Totals };

    ghost view = { λ t. t.totals };
}

/// Has the answers counted that are made in this room, where they are shown.
fn count_answers(scratch: &mut Scratch, counts: &Option<LiveCounts>) {
    if let Some(counts) = counts {
        if let Some(answers) = counts.share_answers() {
            scratch.count_in(answers);
        }
    }
}

impl WorkerState {
    /// Of the worker in this place, which has served nothing. It makes the room that the worker lends to its sessions, once: a session that has a
    /// message in part keeps it. Where there is no memory for it, each session takes its own. What its sessions do is shown there, if it is.
    pub(crate) fn new(alloc: Global, place: usize, counts: Option<LiveCounts>) -> WorkerState
        ensures { result ≡ zeros }
    {
        let mut scratch = Scratch::new(alloc);
        let _is_made = scratch.make_room();
        count_answers(&mut scratch, &counts);
        WorkerState {
            totals: Totals::zeros(),
            scratch,
            place,
            counts,
        }
    }

    /// What a session that goes on counts by.
    pub(crate) fn new_count(&self) -> SessionCount
        ensures { result ≡ record { counted = zeros; book_full = false } }
    {
        let live = match &self.counts {
            Some(counts) => counts.share_totals(),
            None => None,
        };
        SessionCount::seen_in(live)
    }

    /// Adds what a session counted that was left. False where that isn't all that there was to be counted, or a number would pass the last one;
    /// the worker's numbers stay then.
    pub(crate) fn add(&mut self, count: SessionCount) -> bool
        ensures added { result ≡ true
            → (count.book_full ≡ false) × (self.new ≡ both self.old count.counted) }
        ensures same { result ≡ false → self.new ≡ self.old }
    {
        let (counted, is_full) = count.into_parts();
        !is_full && self.totals.add(&counted)
    }

    /// What it has counted.
    fn totals(&self) -> &Totals
        ensures { result.now ≡ self.now }
    {
        &self.totals
    }
}

/// A state for each of so many workers.
pub fn new_worker_states(alloc: Global, workers: u16) -> Result<Vec<WorkerState>, AllocError>
    ensures { IfOk result (λ worker_states. worker_states.items ≡ replicate workers zeros) }
{
    let mut worker_states = Vec::with_capacity(alloc, usize::from(workers))?;
    for _ in 0..workers {
        let place = worker_states.len();
        worker_states.push(WorkerState::new(alloc, place, None))?;
    }
    Ok(worker_states)
}

/// What these workers have counted in all. None where a number would pass the last one.
pub fn sum_up(worker_states: Vec<WorkerState>) -> Option<Totals>
    ensures sum { IfSome result (λ totals. totals ≡ sum_of worker_states.items) }
    ensures past { IfNone result (ArePastFull zeros (sum_of worker_states.items)) }
{
    let mut totals = Totals::zeros();
    for worker_state in worker_states {
        if !totals.add(worker_state.totals()) {
            return None;
        }
    }
    Some(totals)
}

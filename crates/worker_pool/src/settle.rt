//! What a run leaves whose workers were joined.
ghost use Rattle.std.specs.Prelude.{◌≡◌, ◌≤◌, [], length, map, vec_capacity, IfOk, IfErr};
ghost use Rattle.gate_node.specs.Merging.{HaveSeenAllOf};
ghost use Rattle.gate_node.specs.Passes.{ArePassesOf};
ghost use Rattle.worker_pool.specs.Settling.{IsFaultAfterTold, Settles};
ghost use Rattle.worker_pool.specs.EndReporters.{AreApart};

use crate::end_reporter::{EndReporter, either};
use crate::end_sink::EndSink;
use crate::paused_session::PausedSession;
use crate::served_sessions::ServedSessions;
use crate::session_service::OfGates;
use crate::worker_state::{WorkerState, sum_up};
use gate_node::{Passes, PoolFault};
use job_pool::WorkersLeft;
use node_session::{Source, Target};
use std::alloc::{AllocError, Global};

/// A place for what each worker of a run leaves, made before the run, so that none of it is lost for want of memory.
pub(crate) struct Places<R: Source, W: Target, K> {
    pub(crate) sinks: Vec<K>,
    pub(crate) resting: Vec<Vec<PausedSession<R, W>>>,
}

/// One call at each place where one is let go.
impl<R: Source + Drop, W: Target + Drop, K: Drop> Drop for Places<R, W, K> {
    fn drop(self) {
        let Places {
            sinks: _sinks,
            resting: _resting,
        } = self;
    }
}

impl<R: Source, W: Target, K> Places<R, W, K> {
    /// The lists.
    fn into_lists(self) -> (Vec<K>, Vec<Vec<PausedSession<R, W>>>)
        ensures { (result.0 ≡ self.sinks) × (result.1 ≡ self.resting) }
    {
        let Places { sinks, resting } = self;
        (sinks, resting)
    }
}

/// Places for so many workers.
pub(crate) fn new_places<R: Source, W: Target, K: Drop>(
    alloc: Global,
    workers: usize,
) -> Result<Places<R, W, K>, AllocError>
    ensures empty { IfOk result (λ places.
        (places.sinks.items ≡ []) × (places.resting.items ≡ [])) }
    ensures room { IfOk result (λ places. (workers ≤ vec_capacity places.sinks)
        × (workers ≤ vec_capacity places.resting)) }
{
    Ok(Places {
        sinks: Vec::with_capacity(alloc, workers)?,
        resting: Vec::with_capacity(alloc, workers)?,
    })
}

/// The sinks of end reporters, what rests of each, and whether the book was full in a session of one of them.
#[derive(Drop)]
struct Apart<R: Source, W: Target, K> {
    sinks: Vec<K>,
    resting: Vec<Vec<PausedSession<R, W>>>,
    is_book_full: bool,
}

/// Takes the end reporters apart, in lists that have a place for each. What they have seen these passes have then seen too.
fn take_apart<H: OfGates, R: Source + Drop, W: Target + Drop, K: EndSink<R, W> + Drop>(
    sinks: Vec<K>,
    resting: Vec<Vec<PausedSession<R, W>>>,
    end_reporters: Vec<EndReporter<H, R, W, K>>,
    seen: &mut Passes,
) -> Apart<R, W, K>
    requires passes { ArePassesOf H.gates seen.old }
    requires no_sinks { sinks.items ≡ [] }
    requires none_rests { resting.items ≡ [] }
    requires room { length end_reporters.items ≤ vec_capacity sinks }
    requires more_room { length end_reporters.items ≤ vec_capacity resting }
    ensures { AreApart K.told H.gates end_reporters.items result.sinks.items
        (map (λ one. one.items) result.resting.items) result.is_book_full seen.old seen.new }
{
    let mut sinks = sinks;
    let mut resting = resting;
    let mut is_book_full = false;
    for end_reporter in end_reporters {
        let (sink, passes, rest, is_full) = end_reporter.parts();
        seen.merge(passes);
        sinks.push_reserved(sink);
        resting.push_reserved(rest);
        is_book_full = either(is_book_full, is_full);
    }
    Apart {
        sinks,
        resting,
        is_book_full,
    }
}

/// What a run leaves whose workers were joined.
pub(crate) fn settle<H, R, W, K>(
    places: Places<R, W, K>,
    told: WorkersLeft<WorkerState, EndReporter<H, R, W, K>>,
    seen: &mut Passes,
) -> Result<ServedSessions<R, W, K>, PoolFault>
where
    H: OfGates,
    R: Source + Drop,
    W: Target + Drop,
    K: EndSink<R, W> + Drop,
    requires passes { ArePassesOf H.gates seen.old }
    requires empty { (places.sinks.items ≡ []) × (places.resting.items ≡ []) }
    requires sinks { length told.sinks.items ≤ vec_capacity places.sinks }
    requires resting { length told.sinks.items ≤ vec_capacity places.resting }
    ensures served { IfOk result (Settles K.told H.gates
        told.workers.items told.sinks.items told.given told.refused seen.new) }
    ensures fault { IfErr result (IsFaultAfterTold K.told H.gates
        told.workers.items told.sinks.items seen.new) }
    ensures more { HaveSeenAllOf seen.new seen.old }
    ensures passes { ArePassesOf H.gates seen.new }
{
    let WorkersLeft {
        workers,
        sinks: end_reporters,
        given,
        refused,
    } = told;
    let (sinks, resting) = places.into_lists();
    let apart = take_apart(sinks, resting, end_reporters, seen);
    let sum = sum_up(workers);
    let Apart {
        sinks,
        resting,
        is_book_full,
    } = apart;
    if is_book_full {
        return Err(PoolFault::BookFull);
    }
    let Some(totals) = sum else {
        return Err(PoolFault::BookFull);
    };
    Ok(ServedSessions {
        totals,
        accepted: given as u64,
        refused: refused as u64,
        sinks,
        resting,
    })
}

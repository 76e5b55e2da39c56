//! What a worker keeps of how its sessions were left.
ghost use Rattle.std.specs.Prelude.{◌≡◌, ◌+◌, ◌||◌, ◌++◌, ◌∷◌, [], ℕ};
ghost use Rattle.stats_book.specs.declared.totals.Totals.{Totals};
ghost use Rattle.gate_node.specs.Gates.{Gates};
ghost use Rattle.gate_node.specs.GateStep.{NodeOverGates};
ghost use Rattle.gate_node.specs.Merging.{HaveSeenAllOf};
ghost use Rattle.gate_node.specs.Passes.{ArePassesOf};
ghost use Rattle.worker_pool.specs.Leaving.{EndsOver};
ghost use Rattle.worker_pool.specs.Resuming.{RunStep};
ghost use Rattle.worker_pool.specs.Serving.{CountsInOpenSession};
ghost use Rattle.worker_pool.specs.EndReporters.{HasRoom, EndReporterStands, end_of};

use crate::end_sink::{EndSink, SessionEnd};
use crate::left::{EndedSession, Left};
use crate::pause::Pause;
use crate::paused_session::PausedSession;
use crate::session_service::{LeftSession, OfGates, SessionService};
use gate_node::{Passes, Shared, Turnstile};
use ghost_state::GhostList;
use job_pool::{NumberedEnd, Sink};
use node_session::{Source, Target};
use std::alloc::Global;
use std::marker::{Model, PhantomData};
use std::snapshot::Snapshot;
use std::sync::Wait;

/// Whether one of both holds.
pub(crate) fn either(first: bool, second: bool) -> bool
    ensures { result ≡ first || second }
{
    first || second
}

/// A worker's sink, the sessions of that worker that rest, passes that have seen what the passes of each session that is over had seen, and whether the
/// book was full in one of its sessions.
///
/// Contracts see too how all its sessions were left.
pub struct EndReporter<H: OfGates, R: Source, W: Target, K: EndSink<R, W>> {
    sink: K,
    seen: Passes,
    is_book_full: bool,
    resting: Vec<PausedSession<R, W>>,
    told: GhostList<NumberedEnd<LeftSession<R, W>>>,
    of: PhantomData<H>,
}

/// One call at each place where one is let go.
impl<H: OfGates, R: Source + Drop, W: Target + Drop, K: EndSink<R, W> + Drop> Drop
    for EndReporter<H, R, W, K> {
    fn drop(self) {
        let EndReporter {
            sink: _sink,
            seen: _seen,
            is_book_full: _is_book_full,
            resting: _resting,
            told: _told,
            of: _of,
        } = self;
    }
}

impl<H: OfGates, R: Source, W: Target, K: EndSink<R, W>> Model for EndReporter<H, R, W, K> {
    ghost use Rattle.std.specs.Prelude.{vec_capacity};
    ghost use Rattle.worker_pool.specs.EndReporters.{EndReporterView, EndReporterStands};

    ghost Value = { EndReporterView R W K };

    ghost view = { λ t. record {
      sink = t.sink;
      seen = t.seen;
      book_full = t.is_book_full;
      resting = t.resting.items;
      places = vec_capacity t.resting;
      told = t.told;
    } };

    ghost invariant = { λ t. EndReporterStands K.told H.gates (record {
      sink = t.sink;
      seen = t.seen;
      book_full = t.is_book_full;
      resting = t.resting.items;
      places = vec_capacity t.resting;
      told = t.told;
    }) };
}

impl<H: OfGates, R: Source, W: Target, K: EndSink<R, W>> EndReporter<H, R, W, K> {
    /// Of a worker that has served nothing.
    pub(crate) fn new(alloc: Global, sink: K, seen: Passes) -> EndReporter<H, R, W, K>
        requires none { K.told sink ≡ [] }
        requires passes { ArePassesOf H.gates seen }
        ensures sink { result.sink ≡ sink }
        ensures told { result.told ≡ [] }
        ensures resting { result.resting ≡ [] }
    {
        EndReporter {
            sink,
            seen,
            is_book_full: false,
            resting: Vec::new(alloc),
            told: GhostList::new(),
            of: PhantomData,
        }
    }

    /// The sink, the passes, the sessions that rest, and whether the book was full in a session.
    pub(crate) fn parts(self) -> (K, Passes, Vec<PausedSession<R, W>>, bool)
        ensures sink { result.0 ≡ self.sink }
        ensures seen { result.1 ≡ self.seen }
        ensures resting { result.2.items ≡ self.resting }
        ensures full { result.3 ≡ self.book_full }
        ensures stands { EndReporterStands K.told H.gates self }
    {
        let EndReporter {
            sink,
            seen,
            is_book_full,
            resting,
            told: _,
            of: _,
        } = self;
        (sink, seen, resting, is_book_full)
    }
}

/// Tells a sink the end of a session over these gates, and keeps what its passes had seen.
fn tell_end<R: Source, W: Target, K: EndSink<R, W>>(
    sink: &mut K,
    seen: &mut Passes,
    shared: &Shared,
    number: usize,
    ended: EndedSession<R, W>,
)
    requires ends { (after : NodeOverGates)
        × EndsOver R.source W.target shared.now RunStep ended.origin ended after }
    requires passes { ArePassesOf shared.now seen.old }
    requires room { (n : ℕ) × K.has_room sink.old (n + 1) }
    ensures told { K.told sink.new
        ≡ K.told sink.old ++ record { number = number; end = end_of ended } ∷ [] }
    ensures room { (n : ℕ) → K.has_room sink.old (n + 1) → K.has_room sink.new n }
    ensures mine { HaveSeenAllOf seen.new seen.old }
    ensures theirs { HaveSeenAllOf seen.new ended.passes }
    ensures fallbacks { seen.new.fallbacks ≡ seen.old.fallbacks }
{
    let EndedSession {
        result,
        reader,
        writer,
        passes,
        origin,
    } = ended;
    seen.merge(passes);
    let end = SessionEnd {
        result,
        reader,
        writer,
    };
    sink.tell(shared, number, origin, end);
}

impl<'a, H, X, T, Q, R, W, K> Sink<SessionService<'a, H, X, T, Q, R, W>> for EndReporter<H, R, W, K>
where
    H: OfGates + Sync,
    X: Wait + Sync,
    T: Turnstile + Sync,
    Q: Pause + Sync,
    R: Source + Drop + Send + Sync,
    W: Target + Drop + Send + Sync,
    K: EndSink<R, W>,
{
    ghost told = { λ end_reporter. end_reporter.told };

    ghost has_room = { λ end_reporter n. HasRoom K.has_room end_reporter n };

    fn make_room(&mut self, more: usize) -> bool {
        self.resting.reserve(more).is_ok() && self.sink.make_room(more)
    }

    fn tell(
        &mut self,
        service: &SessionService<'a, H, X, T, Q, R, W>,
        number: usize,
        job: Snapshot<PausedSession<R, W>>,
        end: LeftSession<R, W>,
    )
        requires served { (first : Totals) × (last : Totals)
            × CountsInOpenSession Q.can_be_raised R.source W.target service.now
            first job.value last end }
        requires room { (n : ℕ) × HasRoom K.has_room self.old (n + 1) }
        ensures told { self.new.told
            ≡ self.old.told ++ record { number = number; end = end } ∷ [] }
        ensures room { (n : ℕ) → HasRoom K.has_room self.old (n + 1)
            → HasRoom K.has_room self.new n }
    {
        let next = NumberedEnd { number, end };
        self.told.push(&next);
        let NumberedEnd {
            number,
            end: LeftSession { left, book_full },
        } = next;
        let is_full = either(self.is_book_full, book_full);
        self.is_book_full = is_full;
        match left {
            Left::Ended(ended) => {
                tell_end(
                    &mut self.sink,
                    &mut self.seen,
                    service.shared(),
                    number,
                    ended,
                );
            }
            Left::Rests(session) => {
                self.sink.rest(number);
                self.resting.push_reserved(session);
            }
        }
    }

    fn refuse(
        &mut self,
        _service: &SessionService<'a, H, X, T, Q, R, W>,
        number: usize,
        job: PausedSession<R, W>,
    ) {
        let (reader, writer) = job.into_streams();
        self.sink.refuse(number, reader, writer);
    }
}

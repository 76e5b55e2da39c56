//! What a worker waits with that keeps a reserve.

use crate::kept::Kept;
use crate::open_session::OpenSession;
use crate::pause::Pause;
use crate::session_service::{OfGates, SessionService};
use gate_node::Turnstile;
use job_pool::{Readiness, StepOutcome, StreamReadiness, Turn};
use node_session::{Source, Target};
use std::alloc::Global;
use std::sync::Wait;

/// What a worker waits with, which is shown the streams of a session; and the worker's reserve, which its own thread fills once all threads were
/// started, and again behind a wait where it was given up, one worker behind the other: an allocator may take much more for a thread for a moment
/// than what it keeps.
pub(crate) struct Watch<'a, Y> {
    streams: Y,
    kept: &'a Kept<'a>,
    /// Which of them is the worker.
    place: usize,
    is_filled: bool,
    alloc: Global,
}

/// One call at each place where one is let go.
impl<'a, Y: Drop> Drop for Watch<'a, Y> {
    fn drop(self) {
        let Watch {
            streams: _streams,
            kept: _kept,
            place: _place,
            is_filled: _is_filled,
            alloc: _alloc,
        } = self;
    }
}

impl<'a, Y> Watch<'a, Y> {
    /// With a reserve that isn't filled yet.
    pub(crate) fn new(alloc: Global, streams: Y, kept: &'a Kept<'a>, place: usize) -> Watch<'a, Y> {
        Watch {
            streams,
            kept,
            place,
            is_filled: false,
            alloc,
        }
    }

    /// Fills the reserve, or as much of it as there is memory for: the first time that this may be, and where it was given up since then. So what a
    /// worker without puts gave up doesn't burden the puts of others for longer than memory lacks.
    fn fill<V: Wait>(&mut self, rt: &V) {
        let Some(worker) = self.kept.workers.as_slice().get(self.place) else {
            return;
        };
        if self.is_filled && !worker.reserve.is_given_up() {
            return;
        }
        let held = self.kept.filling.lock(rt);
        let _is_whole = worker.reserve.fill(self.alloc);
        drop(held);
        self.is_filled = true;
    }
}

impl<'a, Y, H, X, T, Q, I, O> Readiness<SessionService<'a, H, X, T, Q, I, O>> for Watch<'a, Y>
where
    Y: StreamReadiness<I, O>,
    H: OfGates + Sync,
    X: Wait + Sync,
    T: Turnstile + Sync,
    Q: Pause + Sync,
    I: Source + Drop + Send + Sync,
    O: Target + Drop + Send + Sync,
{
    fn takes(&mut self, is_idle: bool) -> bool {
        self.streams.takes(is_idle)
    }

    fn begin(&mut self, slot: usize, opened: &OpenSession<'a, X, T, I, O>) {
        self.streams.begin(slot, opened.reader(), opened.writer());
    }

    fn next(&mut self) -> Option<Turn> {
        self.streams.next()
    }

    fn ends_turn(&mut self, slot: usize, before: u32) -> bool {
        self.streams.ends_turn(slot, before)
    }

    fn after(&mut self, slot: usize, moved: StepOutcome) {
        self.streams.after(slot, moved);
    }

    fn wait<V: Wait>(&mut self, rt: &V, is_idle: bool) {
        self.streams.wait(rt, is_idle);
        if self.streams.may_take_memory() {
            self.fill(rt);
        }
    }
}

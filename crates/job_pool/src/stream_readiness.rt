//! What a worker waits with whose jobs read and write streams.
use crate::readiness::Turn;
use crate::service::StepOutcome;
use std::sync::Wait;

/// What a worker waits with, and which of its slots have their turn, where each job is a session over a reader and a writer: a
/// [`Readiness`](crate::Readiness) that is shown these streams when a session begins or goes on, whatever else the session is made of.
///
/// No clause speaks of that: whichever session has its turn, and when, each comes to the end that its service promises.
pub trait StreamReadiness<R, W> {
    /// Whether a session is to be taken out of the queue now; `is_idle` where none is open. A worker that has taken its stop mark isn't asked.
    fn takes(&mut self, is_idle: bool) -> bool;

    /// Whether all threads of the run were started, so that the worker may take memory. It is woken when that comes.
    fn may_take_memory(&self) -> bool;

    /// The session with these streams was opened in this slot, and is to have its first turn.
    fn begin(&mut self, slot: usize, reader: &R, writer: &W);

    /// The next slot that is to have a turn. None where all that are ready had one.
    fn next(&mut self) -> Option<Turn>;

    /// Whether the turn of a slot ends behind a step that its session can go on behind: it has cost enough, and others are to have theirs. `before` is
    /// how many steps the turn had before that one. It is asked at each such step, so it is to be cheap.
    fn ends_turn(&mut self, slot: usize, before: u32) -> bool;

    /// What came of the turn of a slot. Behind `Going` the slot is to have a further turn, and behind `Over` it is free.
    fn after(&mut self, slot: usize, moved: StepOutcome);

    /// Waits until a slot is ready, it is woken, or it is time to look. `is_idle` where no session is open. It returns at once where a turn
    /// is due, or where it was woken since it last returned.
    fn wait<T: Wait>(&mut self, rt: &T, is_idle: bool);
}

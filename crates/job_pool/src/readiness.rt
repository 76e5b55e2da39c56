//! What a worker waits with, and what wakes it.
use crate::service::{Service, StepOutcome};
use std::sync::Wait;

/// The turn of a job.
#[derive(Clone, Copy, Drop)]
pub struct Turn {
    pub slot: usize,
    /// Whether the job is waited for where it would have to wait; else it is then over.
    pub may_wait: bool,
}

/// What a worker waits with, and which of its slots have their turn.
///
/// No clause speaks of that: whichever job has its turn, and when, each comes to the end that the service promises.
pub trait Readiness<S: Service> {
    /// Whether a task is to be taken out of the queue now; `is_idle` where no job is open. A worker that has taken its stop mark isn't asked.
    fn takes(&mut self, is_idle: bool) -> bool;

    /// A job was opened in this slot, and is to have its first turn.
    fn begin(&mut self, slot: usize, opened: &S::Open);

    /// The next slot that is to have a turn. None where all that are ready had one.
    fn next(&mut self) -> Option<Turn>;

    /// Whether the turn of a slot ends behind a step that its job can go on behind: it has cost enough, and others are to have theirs. `before` is
    /// how many steps the turn had before that one. It is asked at each such step, so it is to be cheap.
    fn ends_turn(&mut self, slot: usize, before: u32) -> bool;

    /// What came of the turn of a slot. Behind `Going` the slot is to have a further turn, and behind `Over` it is free.
    fn after(&mut self, slot: usize, moved: StepOutcome);

    /// Waits until a slot is ready, it is woken, or it is time to look. `is_idle` where no job is open. It returns at once where a turn is due,
    /// or where it was woken since it last returned. A worker that has its stop mark and no job open doesn't wait.
    fn wait<T: Wait>(&mut self, rt: &T, is_idle: bool);
}

/// What the leading thread wakes a worker with. It is the leader's side of the worker's [`Readiness`]; both are made together.
pub trait Wakeup {
    /// How much the worker has to do: one for each job that it has open or is to take, and more for those that keep it busy.
    fn load(&self) -> usize;

    /// A task was put into the queue, which this worker is to take. Wakes it.
    fn ring(&self);

    /// All tasks are in the queue, the last of them stop marks: the worker takes tasks until it has its mark. Wakes it.
    fn close(&self);
}

/// A worker's state, what it is told the ends by, what it waits with, and what wakes it.
#[derive(Drop)]
pub struct WorkerSetup<W, K, D, B> {
    pub worker: W,
    pub sink: K,
    pub readiness: D,
    pub wakeup: B,
}

/// What a worker waits with, and what wakes it: its setup without the rest.
#[derive(Drop)]
pub struct Post<D, B> {
    pub readiness: D,
    pub wakeup: B,
}

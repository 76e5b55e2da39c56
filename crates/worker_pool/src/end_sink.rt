//! What is told how sessions were left, as they are.

use crate::rest::Began;
use gate_node::Shared;
use job_pool::NumberedEnd;
use node_session::{Ended, SessionFault, Source, Target};

/// How a session ended, with its own reader and writer as it left them. Its passes stay with the worker.
#[derive(Drop)]
pub struct SessionEnd<R, W> {
    pub result: Result<Ended, SessionFault>,
    pub reader: R,
    pub writer: W,
}

/// What is told how each session of a worker of [`serve`](crate::serve) was left, when it is. Each worker has one of its own.
pub trait EndSink<R: Source, W: Target> {
    ghost use Rattle.std.specs.Prelude.{◌≡◌, ◌+◌, ◌++◌, ◌∷◌, [], ℕ, List, true};
    ghost use Rattle.job_pool.specs.declared.worker.NumberedEnd.{NumberedEnd};
    ghost use Rattle.worker_pool.specs.declared.end_sink.SessionEnd.{SessionEnd};
    ghost use Rattle.worker_pool.specs.Telling.{IsToldEnd};

    // The ends that it was told, under their sessions' numbers, in the order in which they came.
    ghost told: { Self → List (NumberedEnd (SessionEnd R W)) };
    // It has room for so many more.
    ghost has_room: { Self → ℕ → Type 0 };

    /// Makes room for so many ends. False where memory is refused; nothing that was told is lost.
    fn make_room(&mut self, more: usize) -> bool
        ensures told { told self.new ≡ told self.old }
        ensures room { result ≡ true → has_room self.new more }
        ensures kept { (n : ℕ) → has_room self.old n → has_room self.new n };

    /// Is told the end of the session of this number, which began there, and came to this end over gates that became these.
    fn tell(&mut self, shared: &Shared, number: usize, origin: Began, end: SessionEnd<R, W>)
        requires served { IsToldEnd R.source W.target shared.now origin end }
        requires room { (n : ℕ) × has_room self.old (n + 1) }
        ensures told { told self.new
            ≡ told self.old ++ record { number = number; end = end } ∷ [] }
        ensures room { (n : ℕ) → has_room self.old (n + 1) → has_room self.new n };

    /// Is told that the session of this number rests.
    fn rest(&mut self, number: usize)
        ensures told { told self.new ≡ told self.old }
        ensures room { (n : ℕ) → has_room self.old (n + 1) → has_room self.new n };

    /// Is told that the session of this number was refused for want of memory, and given its streams.
    fn refuse(&mut self, number: usize, reader: R, writer: W)
        ensures told { told self.new ≡ told self.old }
        ensures kept { (n : ℕ) → has_room self.old n → has_room self.new n };
}

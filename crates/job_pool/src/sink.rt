//! What is told the end of each job.
ghost use Rattle.std.specs.Prelude.{◌≡◌, ◌+◌, ◌≤◌, ◌++◌, ◌∷◌, [], vec_len, vec_capacity};

use crate::service::Service;
use crate::worker::NumberedEnd;
use std::alloc::Global;
use std::snapshot::Snapshot;

/// What is told the end of each job of a worker, as it comes. Each worker has one of its own.
pub trait Sink<S: Service> {
    ghost use Rattle.std.specs.Prelude.{◌≡◌, ◌+◌, ◌++◌, ◌∷◌, [], ℕ, List, true};
    ghost use Rattle.job_pool.specs.declared.worker.NumberedEnd.{NumberedEnd};

    // The ends that it was told, under their jobs' numbers, in the order in which they came.
    ghost told: { Self → List (NumberedEnd S.End) };
    // It has room for so many more.
    ghost has_room: { Self → ℕ → Type 0 };

    /// Makes room for so many ends. False where memory is refused; nothing that was told is lost.
    fn make_room(&mut self, more: usize) -> bool
        ensures told { told self.new ≡ told self.old }
        ensures room { result ≡ true → has_room self.new more }
        ensures kept { (n : ℕ) → has_room self.old n → has_room self.new n };

    /// Is told the end of the job of this number, which was served so.
    fn tell(&mut self, service: &S, number: usize, job: Snapshot<S::Job>, end: S::End)
        requires served { (first : S.Worker) × (last : S.Worker)
            × S.serves service.now first job.value last end }
        requires room { (n : ℕ) × has_room self.old (n + 1) }
        ensures told { told self.new
            ≡ told self.old ++ record { number = number; end = end } ∷ [] }
        ensures room { (n : ℕ) → has_room self.old (n + 1) → has_room self.new n };

    /// Is told that the job of this number was refused for want of memory.
    fn refuse(&mut self, service: &S, number: usize, job: S::Job)
        requires { S.accepts service.now job }
        ensures told { told self.new ≡ told self.old }
        ensures kept { (n : ℕ) → has_room self.old n → has_room self.new n };
}

/// Keeps all ends, until [`ends_in_order`](crate::ends_in_order) gives them.
#[derive(Drop)]
pub struct Collected<E> {
    pub(crate) ends: Vec<NumberedEnd<E>>,
}

impl<E: Drop> Collected<E> {
    /// It was told none.
    pub(crate) fn new(alloc: Global) -> Collected<E>
        ensures none { result.ends.items ≡ [] }
        ensures room { vec_len result.ends ≤ vec_capacity result.ends }
    {
        Collected {
            ends: Vec::new(alloc),
        }
    }
}

impl<S: Service> Sink<S> for Collected<S::End> {
    ghost use Rattle.job_pool.specs.Sinks.{HasRoom, kept};

    ghost told = { kept };

    ghost has_room = { HasRoom };

    fn make_room(&mut self, more: usize) -> bool {
        self.ends.reserve(more).is_ok()
    }

    fn tell(&mut self, _service: &S, number: usize, _job: Snapshot<S::Job>, end: S::End)
        requires room { vec_len self.old.ends + 1 ≤ vec_capacity self.old.ends }
        ensures told { self.new.ends.items
            ≡ self.old.ends.items ++ record { number = number; end = end } ∷ [] }
        ensures capacity { vec_capacity self.new.ends ≡ vec_capacity self.old.ends }
    {
        self.ends.push_reserved(NumberedEnd { number, end });
    }

    fn refuse(&mut self, _service: &S, _number: usize, _job: S::Job) {}
}

//! What is told the ends of the sessions of a test, and keeps them.
ghost use Rattle.std.specs.Prelude.{◌≡◌, ◌+◌, ◌≤◌, ◌++◌, ◌∷◌, [], vec_len, vec_capacity};

use crate::workers::streams::{Counts, Input, Output};
use job_pool::NumberedEnd;
use std::alloc::Global;
use std::sync::Arc;
use std::sync::atomic::Ordering;
use worker_pool::{Began, EndSink, SessionEnd, Shared};

/// Keeps the ends that it was told, and the numbers of the sessions that rest and of those that were refused.
#[derive(Drop)]
pub struct KeptEnds {
    pub ends: Vec<NumberedEnd<SessionEnd<Input, Output>>>,
    pub rests: Vec<usize>,
    pub refused: Vec<usize>,
    /// For how many sessions more there is memory.
    rooms: u32,
    counts: Arc<Counts, Global>,
}

impl KeptEnds {
    /// One that was told nothing, and has memory for so many sessions.
    pub fn new(alloc: Global, rooms: u32, counts: Arc<Counts, Global>) -> KeptEnds
        ensures none { result.ends.items ≡ [] }
        ensures room { vec_len result.ends ≤ vec_capacity result.ends }
    {
        KeptEnds {
            ends: Vec::new(alloc),
            rests: Vec::new(alloc),
            refused: Vec::new(alloc),
            rooms,
            counts,
        }
    }
}

impl EndSink<Input, Output> for KeptEnds {
    ghost use Rattle.std.specs.Prelude.{◌+◌, ◌≤◌, vec_len, vec_capacity};

    ghost told = { λ sink. sink.ends.items };

    ghost has_room = { λ sink n. vec_len sink.ends + n ≤ vec_capacity sink.ends };

    fn make_room(&mut self, more: usize) -> bool {
        if self.rooms == 0 {
            return false;
        }
        self.rooms = self.rooms.saturating_sub(1);
        self.ends.reserve(more).is_ok()
    }

    fn tell(
        &mut self,
        _shared: &Shared,
        number: usize,
        _origin: Began,
        end: SessionEnd<Input, Output>,
    )
        requires room { vec_len self.old.ends + 1 ≤ vec_capacity self.old.ends }
        ensures told { self.new.ends.items
            ≡ self.old.ends.items ++ record { number = number; end = end } ∷ [] }
        ensures capacity { vec_capacity self.new.ends ≡ vec_capacity self.old.ends }
    {
        end.writer.count_end();
        self.ends.push_reserved(NumberedEnd { number, end });
        self.counts.ends.fetch_add(1, Ordering::SeqCst);
    }

    /// Keeps its number where it can.
    fn rest(&mut self, number: usize)
        ensures ends { self.new.ends.items ≡ self.old.ends.items }
        ensures capacity { vec_capacity self.new.ends ≡ vec_capacity self.old.ends }
    {
        let _is_kept = self.rests.push(number);
    }

    /// Counts it where its number can be kept.
    fn refuse(&mut self, number: usize, _reader: Input, _writer: Output)
        ensures ends { self.new.ends.items ≡ self.old.ends.items }
        ensures capacity { vec_capacity self.new.ends ≡ vec_capacity self.old.ends }
    {
        if self.refused.push(number).is_ok() {
            self.counts.refusals.fetch_add(1, Ordering::SeqCst);
        }
    }
}

//! The jobs that a worker has open.
ghost use Rattle.std.specs.Prelude.{◌≡◌, ◌+◌, ◌==◌, ◌∷◌, ◌++◌, [], true, IsSomeAnd};
ghost use Rattle.slab.specs.Slab.{get, slab_len, HasRoomFor};
ghost use Rattle.job_pool.specs.Ends.{HasWorked};

use crate::open_job::OpenJob;
use crate::queue::NumberedJob;
use crate::readiness::{Readiness, Turn};
use crate::service::{Service, StepOutcome};
use crate::sink::Sink;
use crate::worker::Left;
use ghost_state::GhostList;
use slab::Slab;
use std::alloc::Global;
use std::marker::Model;
use std::snapshot::Snapshot;

/// How many steps a job takes at most before others have their turn: enough for some 500 short requests
/// that came together, so that a job mostly stops where it
/// waits for more, and holds little then. A turn whose steps cost more ends before, once its readiness says so.
pub const MAX_STEPS_PER_TURN: u32 = 1024;

/// The jobs that a worker has open, each in a slot, the worker's state, and what is told the ends.
///
/// Each job that was taken is open, or its end was told, or it was refused, once.
#[derive(Drop)]
pub(crate) struct OpenJobs<'a, S: Service, K: Sink<S>> {
    service: &'a S,
    first: Snapshot<S::Worker>,
    worker: S::Worker,
    jobs: Slab<OpenJob<S>>,
    sink: K,
    taken: GhostList<NumberedJob<S::Job>>,
    refused: GhostList<usize>,
    took: usize,
    away: usize,
}

impl<'a, S: Service, K: Sink<S>> Model for OpenJobs<'a, S, K> {
    ghost use Rattle.std.specs.Prelude.{length};
    ghost use Rattle.slab.specs.Slab.{slab_len};
    ghost use Rattle.job_pool.specs.OpenJobs.{OpenJobsView, OpenJobsStand};
    ghost use Rattle.job_pool.specs.Ends.{IsCount};

    ghost Value = { OpenJobsView S S.Worker S.Job K };

    ghost view = { λ d. record {
      service = d.service.now;
      first = d.first.value;
      worker = d.worker;
      jobs = d.jobs;
      sink = d.sink;
      taken = d.taken;
      refused = d.refused;
    } };

    ghost invariant = { λ d. OpenJobsStand (S.serves d.service.now) d.service.now d.taken
        (K.told d.sink) d.refused d.first.value d.worker d.jobs
        × K.has_room d.sink (slab_len d.jobs)
        × IsCount d.took (length d.taken) × IsCount d.away (length d.refused) };
}

impl<'a, S: Service, K: Sink<S> + Drop> OpenJobs<'a, S, K> {
    /// No job is open, and none was taken.
    pub(crate) fn new(
        alloc: Global,
        service: &'a S,
        worker: S::Worker,
        sink: K,
    ) -> OpenJobs<'a, S, K>
        requires none { K.told sink ≡ [] }
        requires room { K.has_room sink 0 }
        ensures service { result.service ≡ service.now }
        ensures first { result.first ≡ worker }
        ensures taken { result.taken ≡ [] }
        ensures none_open { slab_len result.jobs ≡ 0 }
    {
        OpenJobs {
            service,
            first: Snapshot::of(&worker),
            worker,
            jobs: Slab::new(alloc),
            sink,
            taken: GhostList::new(),
            refused: GhostList::new(),
            took: 0,
            away: 0,
        }
    }

    /// Whether no job is open.
    pub(crate) fn is_empty(&self) -> bool
        ensures { result ≡ (slab_len self.now.jobs == 0) }
    {
        self.jobs.is_empty()
    }

    /// The job that is open in a slot, if one is.
    pub(crate) fn opened(&self, slot: usize) -> Option<&S::Open> {
        match self.jobs.get(slot) {
            Some(open_job) => Some(open_job.opened()),
            None => None,
        }
    }

    /// Makes room for one job more, and for its end; once more where the service gives memory up for that. False where memory is refused.
    pub(crate) fn reserve(&mut self, alloc: Global) -> bool
        ensures room { result ≡ true → HasRoomFor self.new.jobs 1
            × K.has_room self.new.sink (slab_len self.new.jobs + 1) }
        ensures service { self.new.service ≡ self.old.service }
        ensures first { self.new.first ≡ self.old.first }
        ensures taken { self.new.taken ≡ self.old.taken }
    {
        self.reserve_one() || (self.service.make_room(alloc, &self.worker) && self.reserve_one())
    }

    /// Makes room for one job more, and for its end. False where memory is refused.
    fn reserve_one(&mut self) -> bool
        ensures room { result ≡ true → HasRoomFor self.new.jobs 1
            × K.has_room self.new.sink (slab_len self.new.jobs + 1) }
        ensures service { self.new.service ≡ self.old.service }
        ensures first { self.new.first ≡ self.old.first }
        ensures taken { self.new.taken ≡ self.old.taken }
    {
        if self.jobs.reserve(1).is_err() {
            return false;
        }
        let _capacity = self.jobs.capacity();
        let open = self.jobs.len() + 1;
        self.sink.make_room(open)
    }

    /// Opens a job that was taken, where there is room for it, and returns its slot. None where it is refused, which the sink is told.
    pub(crate) fn begin(
        &mut self,
        alloc: Global,
        next: NumberedJob<S::Job>,
        has_room: bool,
    ) -> Option<usize>
        requires accepts { S.accepts self.old.service next.job }
        requires room { has_room ≡ true → HasRoomFor self.old.jobs 1
            × K.has_room self.old.sink (slab_len self.old.jobs + 1) }
        ensures service { self.new.service ≡ self.old.service }
        ensures first { self.new.first ≡ self.old.first }
        ensures taken { self.new.taken ≡ self.old.taken ++ next ∷ [] }
    {
        self.taken.push(&next);
        self.took = self.took.saturating_add(1);
        let NumberedJob { number, job } = next;
        let service = self.service;
        if !has_room {
            self.refused.push(&number);
            self.away = self.away.saturating_add(1);
            self.sink.refuse(service, number, job);
            return None;
        }
        let asked = Snapshot::of(&job);
        match service.open(alloc, &mut self.worker, job) {
            Ok(opened) => {
                let open_job = OpenJob::new(service, number, asked, opened);
                Some(self.jobs.insert_reserved(open_job))
            }
            Err(job) => {
                self.refused.push(&number);
                self.away = self.away.saturating_add(1);
                self.sink.refuse(service, number, job);
                None
            }
        }
    }

    /// Ends the job in a slot, which is over: its end is told the sink, and the slot is free. It stands apart from the step, whose caller would else keep
    /// room for all that ends a job, and clear it at each step.
    #[inline(never)]
    fn end(&mut self, slot: usize)
        requires { IsSomeAnd (get self.old.jobs slot) (λ open_job. open_job.ended ≡ true) }
        ensures service { self.new.service ≡ self.old.service }
        ensures first { self.new.first ≡ self.old.first }
        ensures taken { self.new.taken ≡ self.old.taken }
    {
        let service = self.service;
        let open_job = self.jobs.remove(slot);
        let (number, job, end) = open_job.close(service, &mut self.worker);
        self.sink.tell(service, number, job, end);
    }

    /// Takes one step of the job in a slot. Its end, if it comes to that, is told the sink, and the slot is free. In a slot that is free
    /// nothing is done.
    #[inline(always)]
    pub(crate) fn step(&mut self, alloc: Global, slot: usize, may_wait: bool) -> StepOutcome
        ensures service { self.new.service ≡ self.old.service }
        ensures first { self.new.first ≡ self.old.first }
        ensures taken { self.new.taken ≡ self.old.taken }
    {
        let service = self.service;
        let Some(open_job) = self.jobs.get_mut(slot) else {
            return StepOutcome::Waits;
        };
        match open_job.step(service, alloc, &mut self.worker, may_wait) {
            StepOutcome::Going => return StepOutcome::Going,
            StepOutcome::Waits => return StepOutcome::Waits,
            StepOutcome::Over => {}
        }
        self.end(slot);
        StepOutcome::Over
    }

    /// Takes steps of the job whose turn it is until it ends or would have to wait, or others are to have their turn.
    pub(crate) fn take_turn<D: Readiness<S>>(
        &mut self,
        alloc: Global,
        turn: Turn,
        waits: &mut D,
    ) -> StepOutcome
        ensures service { self.new.service ≡ self.old.service }
        ensures first { self.new.first ≡ self.old.first }
        ensures taken { self.new.taken ≡ self.old.taken }
    {
        for before in 0..MAX_STEPS_PER_TURN {
            match self.step(alloc, turn.slot, turn.may_wait) {
                StepOutcome::Going => {}
                moved => return moved,
            }
            if waits.ends_turn(turn.slot, before) {
                return StepOutcome::Going;
            }
        }
        StepOutcome::Going
    }

    /// What the worker leaves where no job is open.
    pub(crate) fn into_left(self) -> Left<S::Worker, K>
        requires { slab_len self.jobs ≡ 0 }
        ensures { HasWorked (S.serves self.entry.service) self.entry.taken
            (K.told result.sink) result.taken result.refused self.entry.first result.worker }
    {
        let OpenJobs {
            service: _,
            first: _,
            worker,
            jobs: _,
            sink,
            taken: _,
            refused: _,
            took,
            away,
        } = self;
        Left {
            worker,
            sink,
            taken: took,
            refused: away,
        }
    }
}

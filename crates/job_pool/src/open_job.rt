//! A job that is open at a worker.
ghost use Rattle.std.specs.Prelude.{◌≡◌, true, false};
ghost use Rattle.job_pool.specs.declared.service.StepOutcome.TheVariants.{Over};

use crate::service::{Service, StepOutcome};
use std::alloc::Global;
use std::marker::Model;
use std::snapshot::Snapshot;

/// A job that is open, and has come so far as the service says of it. In clauses it has its number and the job as it was given; what has
/// become of it isn't seen, so that a step of it changes nothing that another one rests on.
#[derive(Drop)]
pub(crate) struct OpenJob<S: Service> {
    service: Snapshot<S>,
    number: usize,
    job: Snapshot<S::Job>,
    ended: bool,
    opened: S::Open,
}

impl<S: Service> Model for OpenJob<S> {
    ghost use Rattle.std.specs.Prelude.{◌≡◌, true};
    ghost use Rattle.job_pool.specs.OpenJobs.{OpenJobView};

    ghost Value = { OpenJobView S S.Job };

    ghost view = { λ s. record {
      service = s.service.value;
      number = s.number;
      job = s.job.value;
      ended = s.ended;
    } };

    ghost invariant = { λ s. S.stands s.service.value s.job.value s.opened
        × (s.ended ≡ true → S.is_over s.opened) };
}

impl<S: Service> OpenJob<S> {
    /// A job that was opened.
    pub(crate) fn new(
        service: &S,
        number: usize,
        job: Snapshot<S::Job>,
        opened: S::Open,
    ) -> OpenJob<S>
        requires { S.stands service.now job.value opened }
        ensures { result ≡ record {
          service = service.now;
          number = number;
          job = job.value;
          ended = false;
        } }
    {
        OpenJob {
            service: Snapshot::of(service),
            number,
            job,
            ended: false,
            opened,
        }
    }

    /// What it has become.
    pub(crate) fn opened(&self) -> &S::Open {
        &self.opened
    }

    /// Takes one step of it.
    pub(crate) fn step(
        &mut self,
        service: &S,
        alloc: Global,
        worker: &mut S::Worker,
        may_wait: bool,
    ) -> StepOutcome
        requires { self.old.service ≡ service.now }
        ensures open_job { self.new ≡ record self.old { ended = self.new.ended } }
        ensures over { result ≡ Over → self.new.ended ≡ true }
        ensures worker { worker.new ≡ worker.old }
    {
        match service.step(alloc, worker, &mut self.opened, may_wait) {
            StepOutcome::Going => {
                self.ended = false;
                StepOutcome::Going
            }
            StepOutcome::Waits => {
                self.ended = false;
                StepOutcome::Waits
            }
            StepOutcome::Over => {
                self.ended = true;
                StepOutcome::Over
            }
        }
    }

    /// Brings it to its end. Its number, the job as it was given, and the end.
    pub(crate) fn close(
        self,
        service: &S,
        worker: &mut S::Worker,
    ) -> (usize, Snapshot<S::Job>, S::End)
        requires service { self.service ≡ service.now }
        requires ended { self.ended ≡ true }
        ensures number { result.0 ≡ self.number }
        ensures job { result.1.value ≡ self.job }
        ensures serves { S.serves service.now worker.old self.job worker.new result.2 }
    {
        let OpenJob {
            service: _,
            number,
            job,
            ended: _,
            opened,
        } = self;
        let end = service.close(worker, opened);
        (number, job, end)
    }
}

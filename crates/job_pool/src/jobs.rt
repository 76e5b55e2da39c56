//! Where jobs come from.

/// A further job could not be had.
#[derive(Clone, Copy, Debug, Drop, PartialEq, Eq)]
pub struct JobFault;

/// A source of jobs, which gives one after another.
pub trait Jobs {
    /// What is to be served.
    type Job;

    ghost use Rattle.std.specs.Prelude.{Option, Result};
    ghost use Rattle.job_pool.specs.declared.jobs.JobFault.{JobFault};

    // Of a source in the first state a call may return this, and leave it in the last.
    ghost gives: { Self → Result (Option Self.Job) JobFault → Self → Type 0 };

    /// The next job, or `None` where there is none left. After `None` or a fault the pool does not call again.
    fn next(&mut self) -> Result<Option<Self::Job>, JobFault>
        ensures { gives self.old result self.new };
}

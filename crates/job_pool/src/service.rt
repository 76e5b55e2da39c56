//! What serves jobs in steps.
use std::alloc::Global;

/// What came of a step.
#[derive(Clone, Copy, Drop, PartialEq, Eq)]
pub enum StepOutcome {
    /// The job can go on.
    Going,
    /// The job would have to wait, and nothing was done.
    Waits,
    /// The job is over.
    Over,
}

/// What serves jobs in steps, by many threads at once, each of which has many jobs open.
///
/// An open job has all that its own steps change: a step of one leaves every other as it is. Each worker has a state too, to which a job
/// adds when it is closed. A service that waits, or that reads what all workers share, holds what it needs by itself.
pub trait Service: Sync {
    /// What is to be served.
    type Job: Drop + Send;

    /// What a job comes to.
    type End: Drop + Send;

    /// A worker's own state.
    type Worker: Drop + Send;

    /// A job that is being served.
    type Open: Drop + Send;

    ghost use Rattle.std.specs.Prelude.{◌≡◌, IfOk, IfErr};
    ghost use Rattle.job_pool.specs.declared.service.StepOutcome.TheVariants.{Over};

    // The service takes this job.
    ghost accepts: { Self → Self.Job → Type 0 };
    // This job was opened, and has come so far.
    ghost stands: { Self → Self.Job → Self.Open → Type 0 };
    // It is over.
    ghost is_over: { Self.Open → Type 0 };
    // This job came to this end, and took the worker from the first state to the second.
    ghost serves: { Self → Self.Worker → Self.Job → Self.Worker → Self.End → Type 0 };

    /// Opens a job. Where it is refused, for want of memory, the job comes back.
    fn open(
        &self,
        alloc: Global,
        worker: &mut Self::Worker,
        job: Self::Job,
    ) -> Result<Self::Open, Self::Job>
        requires { accepts self.now job }
        ensures worker { worker.new ≡ worker.old }
        ensures opened { IfOk result (stands self.now job) }
        ensures refused { IfErr result (λ back. back ≡ job) };

    /// Memory was refused for a job that is to be opened, before it was. A service that keeps some back for that gives it up. True where the same is
    /// to be tried once more.
    fn make_room(&self, _alloc: Global, _worker: &Self::Worker) -> bool {
        false
    }

    /// Takes one step of an open job. Where it would have to wait and may not, it is over.
    fn step(
        &self,
        alloc: Global,
        worker: &mut Self::Worker,
        opened: &mut Self::Open,
        may_wait: bool,
    ) -> StepOutcome
        ensures worker { worker.new ≡ worker.old }
        ensures stands { (job : Self.Job)
            → stands self.now job opened.old → stands self.now job opened.new }
        ensures over { result ≡ Over → is_over opened.new };

    /// Brings a job that is over to its end.
    fn close(&self, worker: &mut Self::Worker, opened: Self::Open) -> Self::End
        requires { is_over opened }
        ensures { (job : Self.Job)
            → stands self.now job opened → serves self.now worker.old job worker.new result };
}

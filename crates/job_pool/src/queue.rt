//! The queue of jobs and its rule: who takes a job learns that it was given, and under which number.

use crossbeam_queue::protocol::{Join, Lesson, Outcome, Protocol, Split};
use crossbeam_queue::{Pass, RuledArrayQueue};
use std::collections::LinkedList;
use std::marker::{Brand, PhantomData};

/// Which jobs a run's service takes. Each run picks its own.
pub trait Accepts<J> {
    ghost accepts: { J → Type 0 };
}

impl<J> Accepts<J> for Brand {
    ghost use Rattle.std.specs.Prelude.{⊤};

    ghost accepts = { λ job. ⊤ };
}

/// A job under its number: how many were given before it.
#[derive(Drop)]
pub struct NumberedJob<J> {
    pub number: usize,
    pub job: J,
}

/// What lies in the queue.
#[derive(Drop)]
pub enum Task<J> {
    /// A job to serve.
    Serve(NumberedJob<J>),
    /// The worker that takes it stops.
    Stop,
}

// What a thread knows: whether it gives the jobs, which it gave, and which it took. No value of it is made.
pub struct Knowledge<J> {
    pub leads: bool,
    pub given: LinkedList<J>,
    pub taken: LinkedList<NumberedJob<J>>,
}

/// A thread's pass of the queue.
pub type QueuePass<J> = Pass<Task<J>, Knowledge<J>>;

/// The queue between the thread that gives the jobs and the workers.
pub type JobQueue<H, J> = RuledArrayQueue<Task<J>, Knowledge<J>, QueueRule<H>>;

pub struct QueueRule<H>(PhantomData<H>);

impl<H: Accepts<J>, J> Protocol<Task<J>, Knowledge<J>> for QueueRule<H> {
    ghost use Rattle.job_pool.specs.Queue.{AllGiven, leader};

    ghost holds = { AllGiven H.accepts };

    ghost first = { leader };
}

/// A push of a task.
pub struct Push;

impl<J> Outcome<Task<J>, Knowledge<J>> for Push {
    ghost use Rattle.std.specs.Prelude.{◌≡◌};
    ghost use Rattle.job_pool.specs.Queue.{after_push};

    ghost then = { λ v x w. w ≡ after_push v x };
}

impl<J> Lesson<Task<J>, Knowledge<J>> for Push {
    ghost use Rattle.std.specs.Prelude.{⊤};

    ghost fact = { λ v items. ⊤ };
}

/// A pop of a task.
pub struct Pop<H>(PhantomData<H>);

impl<H: Accepts<J>, J> Outcome<Task<J>, Knowledge<J>> for Pop<H> {
    ghost use Rattle.std.specs.Prelude.{◌≡◌};
    ghost use Rattle.job_pool.specs.Queue.{after_pop, IsAcceptedTask};

    ghost then = { λ v x w. (w ≡ after_pop v x) × IsAcceptedTask H.accepts x };
}

impl<H: Accepts<J>, J> Lesson<Task<J>, Knowledge<J>> for Pop<H> {
    ghost use Rattle.std.specs.Prelude.{⊤};

    ghost fact = { λ v items. ⊤ };
}

/// A worker's pass, cut off from the leader's and put together with it again.
pub struct Fork;

impl<J> Split<Knowledge<J>> for Fork {
    ghost use Rattle.job_pool.specs.Queue.{newcomer};

    ghost left = { λ v. v };

    ghost right = { λ v. newcomer };
}

impl<J> Join<Knowledge<J>> for Fork {
    ghost use Rattle.job_pool.specs.Queue.{newcomer, together};

    ghost both = { together };

    ghost spent = { newcomer };
}

/// The leader learns that what it knows as taken is what it gave, each job once.
pub struct Reconcile;

impl<J> Lesson<Task<J>, Knowledge<J>> for Reconcile {
    ghost use Rattle.job_pool.specs.Queue.{AreOfGiven};

    ghost fact = { λ v items. AreOfGiven v };
}

//! A pool of workers: each job of a source is served once, by one of many threads, which have many
//! jobs open at a time.
//!
//! What it means: a [`Service`] serves a job in steps; when the job is over, `close` brings it to
//! its end and takes the worker from one state to its next. That is a turn (`specs/Turns`): a
//! worker in one state, a job, the next state and the job's end. [`run_at`] takes all jobs of a
//! [`Jobs`] source (`specs/Telling`: `TellsEachOnce`). The turns of one worker lead from the state
//! that was handed in to the one that comes back. What its [`Sink`] was told are the ends of these
//! turns, and each job was told once or refused for want of memory, and counted. So no end is made
//! up, none is another job's, no job is served twice, and what the workers' states gained is what
//! the turns gained, each counted once. Nothing is said of which worker serves which job, nor when.
//!
//! What a sink is told comes with its proof: `tell` requires that this end is one of a turn with
//! this very job. So that holds of each end while the run goes on, whether or not it ever returns.
//! Where the sinks keep all ends ([`collecting_setups`]), [`ends_in_order`] gives one for each job,
//! in the order in which the source gave the jobs (`specs/Turns`: `ServedOnce`).
//!
//! What it costs: a job goes through one queue of [`MAX_WAITING`] places, is moved and not copied,
//! and takes no lock. After each push all workers are woken, or that one alone whose [`Wakeup`]
//! tells the least load ([`Wakes`]). Where the queue is full the leading thread sleeps, and a
//! worker that took a task wakes it. A run takes memory for the queue, a thread for each worker and
//! a parker for the leading thread. A worker takes memory for each job that it has open.
//!
//! How it is built: the queue is under a rule (`specs/Queue`: `AllGiven`): what lies in it, and
//! what each worker took, is a job that was given, under its number, and each job that was given
//! waits in it or was taken once, since whatever the numbers weigh, the sums are the same. A
//! worker has its open jobs in slots (`specs/OpenJobs`): each job that it took is open, or its
//! end was told, or it was refused, once. When it stops none is open. The leading thread joins it,
//! learns by the rule that what it took are jobs that were given, and compares the counts: so none
//! is lost. `ends_in_order` lays each end that was kept into the place of its number. What a worker
//! waits with ([`Readiness`]) decides which slots have their turn, and when that ends, and no
//! clause speaks of that. A source comes by `&mut`, and no clause follows a `&mut` through a scope
//! of threads, so it goes through as a value that comes back (`Lent`).
//!
//! ```text
//! source gives 5, 6, 7; the service doubles; two workers, which count what they served, from 0
//! the leader pushes     (0, 5) (1, 6) (2, 7) stop stop
//! worker a takes        (0, 5)        (2, 7)      stop      its sink is told (2, 14) (0, 10), count 2
//! worker b takes               (1, 6)        stop           its sink is told (1, 12), count 1
//! run_at returns        workers 2, 1; their sinks; given 3, refused 0
//! places after a, b     10 _ 14       10 12 14
//! ends_in_order gives   10, 12, 14
//! ```
//!
//! # Proved
//!
//! What the head says under *What it means* holds too of the jobs that a source gave before it
//! failed. If a thread is refused, no job was taken. By `run_at`, `ends_in_order`, and the clauses
//! of `Service`, `Sink` and `Jobs`.
//!
//! # Tested
//!
//! Who has a turn, and who is woken.
//!
//! # Open
//!
//! - That a run returns.
//! - That jobs are served side by side.
//! - That an open job has a turn.
//! - That `NoMemory` comes only if memory was refused.
#![tactic(auto)]

mod collecting;
mod fault;
mod jobs;
mod join;
mod lent;
mod open_job;
mod open_jobs;
mod order;
mod pool;
mod queue;
mod readiness;
mod rooms;
mod rounds;
mod service;
mod sink;
mod sleepers;
mod start;
mod stream_readiness;
mod submit;
mod worker;
mod workers_left;

pub use collecting::collecting_setups;
pub use fault::RunFault;
pub use jobs::{JobFault, Jobs};
pub use open_jobs::MAX_STEPS_PER_TURN;
pub use order::{Finished, ends_in_order};
pub use pool::{MAX_WAITING, run_at};
pub use readiness::{Post, Readiness, Turn, Wakeup, WorkerSetup};
pub use rounds::{Rounds, Wake};
pub use service::{Service, StepOutcome};
pub use sink::{Collected, Sink};
pub use sleepers::Wakes;
pub use stream_readiness::StreamReadiness;
pub use worker::NumberedEnd;
pub use workers_left::WorkersLeft;

//! Workers that serve sessions over the gates of a run, and count what they do.
//!
//! What it means: [`serve`] takes all sessions of a source, each new or one that rested, and serves
//! each to its end, or, once its pause is raised, until its next turn. A [`PausedSession`] has
//! come so far from its first read on; nothing that it has read is lost, nor anything that it has
//! to send. It goes on by a later run, over the same gates or over what these became by diversions.
//!
//! [`Pool::run`] takes all jobs of a source, each a connection with passes of the run's gates, and
//! gives one end for each, in the order in which the source gave the jobs (`specs/Run`:
//! `ServesSource`). An end is what `serve` of `node_session` makes of that job's reader and writer,
//! by a run of the step of a node over the gates (`gate_node`) from the job's passes to the end's.
//! [`Pool::run_with`] is the same by workers that have as many sessions open as their readiness has
//! them take.
//!
//! ```text
//! let mut seen = Passes::new(alloc, &shared)?;
//! // as many as are wanted, by a source of jobs
//! let first = PausedSession::new(alloc, &shared, passes, reader, writer);
//! let served = serve(&rt, alloc, &shared, &mut sessions, serving_setups, &Open, &pause, &mut seen)?;
//! // had an answer half written, say
//! served.resting
//! let mut handoff = shared.into_handoff();
//! handoff.divert(alloc, 0)?;
//! let later = Shared::over(handoff, budget, reads);
//! // it sends the rest, and goes on at the fallback
//! serve(&rt, alloc, &later, &mut resting, serving_setups, &Open, &NoPause, &mut seen)?
//! // of one history of each vnode, through both runs
//! tallies_of(&rt, alloc, &later, slice::from_ref(&seen))
//!
//! jobs a, b, c; two workers                 each session begins with nothing counted
//! worker 1  serves a, c                     it has counted: 1 put, then 1 put and 1 get more
//! worker 2  serves b                        it has counted: 1 put
//! Pool::run returns                         ends of a, b, c; 3 puts, 1 get; the tally of each vnode: 3 writes in all
//! ```
//!
//! What it costs: what a run of `job_pool` costs, and a thread for each worker. A session that rests
//! takes its streams, its passes and what it has in part, as one that is open does; to lay it down
//! and to go on take no memory, beside a place for each that a worker has open. A tally is one look
//! under a right to read, and a comparison of two numbers for each end.
//!
//! How it is built: an open session ([`OpenSession`]) is served by [`SessionService`], a service of
//! `job_pool`. A job is a session which never rests. The session has a node of its own,
//! over its passes, which counts by itself, and when it is left its worker ([`WorkerState`]) adds
//! what it has counted. So what a step changes is that session's alone. For clauses its node
//! ([`RunNode`]) stands where the session rested, until its next step is taken over the gates as
//! they are then. So what was said of the session so far is said of it. What says where is a
//! [`Rest`], which has no bytes. Of two gates of which each became the other both are the same
//! (`proofs/SameGates`): so each step of a job is one over the run's own gates. Of two passes of a
//! gate the one behind has seen a beginning of what the other has: so passes that are laid together
//! with those of each session that is over have seen all that these had, through as many runs as
//! are wanted.
//!
//! # Proved
//!
//! Each session that a source gave was refused, or ended and a sink was told its end, or rests,
//! once, and was counted so (`specs/Telling`: `TellsAll`). The totals are what these sessions
//! counted. What a sink is told, while the run goes on too, is the end of a session from its first
//! read on, over the very reader and writer with which it began (`IsToldEnd`; `specs/Leaving`:
//! `EndsOver`). Its node stands over the gates as they were at each step (`specs/Resuming`:
//! `RunStep`). So what `serve` of `node_session` promises goes through every rest.
//!
//! All sessions see one history of the primary of each partition, through as many runs as `seen` is
//! handed on to. A session rests only if the pause can be raised. `BookFull` comes only if all
//! sessions were given. In one of them a number would have passed the last one, or the sum over
//! the workers would.
//!
//! Of a run that keeps its ends each reply is at a position of these histories, unless its partition
//! is diverted ([`replies_are_at_positions`]); with the ends come the totals, each session counted
//! once (`specs/Summing`: `SumsSessions`), and the tally of each primary.
//!
//! By `serve`, `PausedSession::new`, `Pool::run`, `Pool::run_with`; laws
//! `told_sessions_are_at_positions`, `told_sessions_are_legal`, `sessions_go_on`,
//! `sessions_stay_in_their_run`, `sessions_are_at_positions`, `pool_replies_are_legal`.
//!
//! # Tested
//!
//! - The totals equal the sums of the tallies. No clause says that each event is some session's.
//! - A run ends once its pause is raised.
//! - What workers show while they serve ([`LiveCounts`]) is, once the run is over, its totals.
//! - Runs pause at each of their steps.
//!
//! # Open
//!
//! - What is left of the sessions if a run ends by a fault behind its first session, and the
//!   histories after one.
//! - That the fallback of a diverted partition has one history for all connections.
#![tactic(auto)]

mod closed;
mod end_reporter;
mod end_sink;
mod job;
mod kept;
mod laws;
mod left;
mod live_counts;
mod open_session;
mod pause;
mod paused_session;
mod pool;
mod rest;
mod run_node;
mod served_sessions;
mod server;
mod serving;
mod serving_setup;
mod session_service;
mod settle;
mod stream_readiness;
mod watch;
mod worker_setup;
mod worker_setups;
mod worker_state;

pub use closed::Closed;
pub use end_sink::{EndSink, SessionEnd};
pub use gate_node::{
    GateNode, Open, Passes, PoolFault, Shared, Turnstile, replies_are_at_positions,
};
pub use job::{End, EndRead, EndWrite, Job};
pub use job_pool::{JobFault, Jobs, Post, StreamReadiness};
pub use laws::{
    pool_replies_are_legal, sessions_are_at_positions, sessions_go_on, sessions_stay_in_their_run,
    told_sessions_are_at_positions, told_sessions_are_legal,
};
pub use left::{EndedSession, Left};
pub use live_counts::LiveCounts;
pub use node_session::{AnswerCounts, Ended, MAX_READ_LEN, MessageKind, SessionFault};
pub use open_session::OpenSession;
pub use pause::{NoPause, Pause};
pub use paused_session::PausedSession;
pub use pool::Pool;
pub use rest::{Began, Rest};
pub use riak_msgs::Text;
pub use run_node::{NodeParts, RunNode};
pub use served_sessions::ServedSessions;
pub use serving::{pool_fault, serve};
pub use serving_setup::ServingSetup;
pub use session_service::{LeftSession, OfGates, SessionService};
pub use stream_readiness::ShownStreams;
pub use worker_state::{WorkerState, new_worker_states, sum_up};

//! Sockets as the streams of a pool's sessions: a listener is a source of sessions, behind those
//! that rest, and each worker serves many connections, each as its socket is ready.
//!
//! ```text
//! // four workers, and what they do, which others may read meanwhile
//! let counts = ServerCounts::new(alloc, 4)?;
//! // each run has its own
//! let (waits, stop) = new_run_waits(&rt, alloc, 4, &counts)?;
//! // for each a sink, a readiness and a wakeup
//! let serving_setups = new_serving_setups(&rt, alloc, &stop, waits.workers, waiting)?;
//! let limits = Limits {
//!     connections: Some(9), counts_refused: true, can_stop: true, keeps_back: true, tries: None,
//! };
//! let arrivals = Arrivals::new(&rt, alloc, &listener, waits.accepting, &shared, &stop, limits)?;
//! // `resting` of the run before; none at first
//! let mut sessions = Sessions::new(alloc, arrivals, rested, Some(writer));
//! // of `worker_pool`
//! serve(&rt, alloc, &shared, &mut sessions, serving_setups, &Open, &stop, &mut seen)
//! // by another thread: it returns, and what is open rests
//! stop.pause()
//! ```
//!
//! What it means: [`Arrivals`] gives new connections of a run's gates, so many at most, and counts
//! those that it closed for want of memory (`specs/Arriving`). [`Sessions`] gives each session that
//! rests, once, and then one that is to begin for each of these connections (`specs/Sessions`:
//! `GivesSession`). [`LogSink`] was told just the ends that it was told.
//!
//! [`ServerCounts`] says at any time what the workers have done by now: each number has one thread
//! that raises it, and takes no lock.
//!
//! What it costs: a connection takes a descriptor, its passes, and 80 bytes beside its session; its
//! replies are gathered in up to 8,192 bytes until what was read is answered, and go out by one
//! write; of a read that took less than it had room for the next needs no call of the system
//! (`Connection`). A worker takes no memory before all threads are started.
//!
//! How it is built: the leading thread waits at the listener, and rings the wakeup of a worker with
//! the fewest connections, of which one that had a turn lately counts as four. A worker waits with
//! `mio` for its sockets and its wakeup ([`EventLoop`]), and gives each connection that is ready a
//! turn, which ends once it has moved 64 KiB or taken a millisecond. Where nobody waits for a
//! client any more (it was silent for too long, or serving is stopped), its connection has one
//! ordinary turn, and then one in which it ends rather than wait. Where the run is paused each
//! connection has one turn, in which the pool lays it down: its socket stays open and takes what
//! its client sends, and the event loop of a later run watches it anew.
//!
//! # Proved
//!
//! Beside what the head says: each connection that `Arrivals` gives has new passes, and how many it
//! gave is counted too. What was written to a connection is three parts, one behind another: what
//! the system took, what is gathered, and what was let go at its end. A flush that succeeds leaves
//! nothing gathered.
//!
//! By the calls of `Arrivals`, `Sessions`, `LogSink` and `ReplyHalf`, `new_serving_setups`,
//! `new_posts`.
//!
//! # Tested
//!
//! What the rows of `worker_tests`, `scripts/maintain/try-requests`, `scripts/maintain/try-clients`
//! and `scripts/maintain/try-control` try. So is what `ServerCounts` says.
//!
//! # Open
//!
//! - That `send` hands on the bytes that it notes.
//! - What comes over a socket, and when a session rests.
//! - Proved safe, and no more: who is ready, whose turn it is, a run's signals, which sockets
//!   linger, what an error of `accept` comes to, a log line.
#![tactic(auto)]

mod accept_fault;
mod activity;
mod arrivals;
mod connection;
mod event_loop;
mod halves;
mod limits;
mod lingering;
mod log_sink;
mod pause;
mod refused_puts;
mod replies_bound;
mod reports;
mod run_signals;
mod server_counts;
mod sessions;
mod slots;
mod spare;
mod system_calls;
mod turn_bound;
mod waiting;
mod waits;
mod worker_clock;
mod worker_signals;

pub use accept_fault::AcceptFault;
pub use arrivals::Arrivals;
pub use event_loop::EventLoop;
pub use halves::{ReplyHalf, RequestHalf};
pub use limits::Limits;
pub use log_sink::LogSink;
pub use run_signals::RunSignals;
pub use server_counts::{ServerCounts, Work, WorkerCounts};
pub use sessions::{Sessions, SocketSession};
pub use waiting::Waiting;
pub use waits::{
    RunWaits, SocketPost, SocketServingSetup, Waits, WorkerWaits, new_posts, new_run_waits,
    new_serving_setups,
};
pub use worker_signals::SocketWakeup;

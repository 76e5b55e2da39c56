//! What the commands of the program do, over any streams and any listener.
//!
//! [`pipe`] serves one reader to one writer by a node of its own. [`serve_on`] and
//! [`serve_on_until`] serve the connections of a listener over the gates of one run
//! (`worker_pool`), many by each thread, each as its socket is ready (`socket_streams`):
//! [`serve_on`] so many, whose ends it keeps; [`serve_on_until`] as many as come, until so many
//! have ended or an input ends; [`serve_controlled`] the same while an operator says on a console
//! what is to be done: partitions are diverted, copied back and returned while clients go on.
//! These two, by one [`ServerSettings`], are the program's `serve`.
//!
//! ```text
//! pipe(alloc, Ring::new(1)?, 1, 0, &mut reader, &mut writer)      // reader: 00 00 00 01 01, a ping
//!     == Ok(Ended { replies: 1, rest: 0 })                        // writer: 00 00 00 01 02
//! let settings = Settings { connections: 2, workers: 2, ring: Ring::new(64)?, run: 1, sweep: 0 };
//! serve_on(&rt, alloc, TcpListener::bind(&rt, "127.0.0.1:0")?, &settings, &mut writer)?.ends.len() == 2
//! // writer: `listening 127.0.0.1:40001`, and at the end `gets 2 puts 2 deletes 0 refusals 0 reaps 0`
//! ```
//!
//! What it means: what a session writes is defined in `node_session`, over a node for one thread
//! (`pipe`) or over the gates (`specs/Runs`: `AreServed`, `AreTold`). A connection begins by passes
//! that had seen nothing. What was written to a connection is the replies, in order, and what the
//! system took of that is its beginning.
//!
//! How a paused server goes on is in `specs/Periods` (`HasServed`): what its sessions have seen and
//! counted goes from one period to the next. What each call of a hand-off gave is kept in tracks
//! (`handoff_tracks`).
//!
//! What it costs: what its connections cost (`socket_streams`); by [`serve_on`] the end of each
//! besides, with its passes.
//!
//! # Proved
//!
//! What `pipe` wrote is a session over the sibling register for what was read, for every ring, run
//! and sweep budget. `serve_on` serves each of its connections once, to its end, over the gates of
//! a new run. `serve_on_until` serves as `serve` of `worker_pool` does. Both serve sockets. Where
//! the tallies count all of the vnodes' histories (`count_all`), these are legal for the sibling
//! register, and each session is by steps of the register among others, in them.
//!
//! `serve_controlled` is a path of periods and of diversions (`IsControlled`). In each period the
//! workers serve as `serve` of `worker_pool` says; partitions are diverted while the workers are
//! paused. In the end no session rests: as many ended, were refused or were closed as connections
//! were accepted. What is known of the partitions' diversions in the end holds (`tracks` of
//! `IsControlled`; `handoff_tracks`). Where no partition was ever diverted, the replies of all
//! periods are legal as those of `serve_on_until` are.
//!
//! The answers to `copy`, `return` and `divert` are what `copy_back`, `finish_return` and `divert`
//! gave, and each refusal is its fault's. What is counted for `totals` is the sum of a count of
//! each partition, in pieces (`key_counts`); its clause names no history. The lines of the address
//! and of the totals are exact by clauses of what writes them. The address of `serve_on_until` and
//! `serve_controlled` has no such clause.
//!
//! By `pipe`, `serve_on`, `serve_on_until`, `serve_controlled`.
//!
//! # Tested
//!
//! - Each line of a console has its answer, once, and does what it asks for (`worker_tests`,
//!   `scripts/maintain/try-control`).
//! - The line of `totals` tells what was counted of the partitions.
//!
//! # Open
//!
//! - What a socket gives.
//! - Which fault of serving comes when.
//! - The log.
//! - That a partition is diverted because a line asked for it, and that what the operator is told
//!   is its answer.
//! - What is left if the workers of a later period can't be started.
#![tactic(auto)]

mod commands;
mod console;
mod controlled;
mod fault;
mod gates;
mod hearing;
mod lines;
mod options;
mod period;
mod progress;
mod serving;
mod stats;
mod streams;
mod until;

pub use controlled::{Controlled, serve_controlled};
pub use fault::ServeFault;
pub use options::{ServerSettings, ServingOptions};
pub use serving::{MAX_ACCEPT_TRIES, Served, Settings, serve_on};
pub use socket_streams::{ReplyHalf, RequestHalf, Waiting};
pub use streams::pipe;
pub use until::{ServedUntil, serve_on_until};

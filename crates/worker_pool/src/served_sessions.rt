//! What a run of the pool leaves.
use crate::paused_session::PausedSession;
use node_session::{Source, Target};
use stats_book::Totals;

/// What a run leaves.
#[derive(Drop)]
pub struct ServedSessions<R: Source, W: Target, K> {
    /// What all its sessions counted in it.
    pub totals: Totals,
    /// How many sessions the source gave.
    pub accepted: u64,
    /// How many of them were refused for want of memory. Each of the others was served: a sink was told its end, or it rests.
    pub refused: u64,
    /// What was told the ends, in the order of the setups.
    pub sinks: Vec<K>,
    /// The sessions that rest, of each worker, in that order.
    pub resting: Vec<Vec<PausedSession<R, W>>>,
}

//! What a worker is started with.

use crate::live_counts::LiveCounts;

/// What a worker is started with: what is told the ends of its sessions, what it waits with, what it is woken by, and
/// where it shows what its sessions do, if it does.
#[derive(Drop)]
pub struct ServingSetup<K, D, B> {
    pub sink: K,
    pub readiness: D,
    pub wakeup: B,
    pub counts: Option<LiveCounts>,
}

//! What a server is asked for.

ghost use Rattle.std.specs.Prelude.{◌≤◌};

use gate_node::Ring;
use socket_streams::Waiting;

/// How a server is asked to serve, whatever its ring and its listener.
#[derive(Clone, Copy)]
pub struct ServingOptions {
    /// After how many connections no more are accepted, if there is such a number.
    pub connections: Option<u64>,
    /// How the threads wait for their connections.
    pub waiting: Waiting,
    /// How many threads serve, each many connections: from 1 to 64.
    pub workers: u16,
    /// The run's number, from 1 on.
    pub run: u32,
    /// How many dead keys are forgotten after an answer, at most.
    pub sweep: u32,
    ghost some_run: { 1 ≤ run },
    ghost some_workers: { (1 ≤ workers) × (workers ≤ 64) },
}

/// How a server for as many clients as come serves.
#[derive(Clone, Copy)]
pub struct ServerSettings {
    /// The partitions of the keys.
    pub ring: Ring,
    /// What else it is asked for.
    pub options: ServingOptions,
}

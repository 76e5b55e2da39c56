//! The gates of a new run.
ghost use Rattle.std.specs.Prelude.{◌≤◌, IfSome};
ghost use Rattle.node_commands.specs.Runs.{IsNewRun};

use gate_node::{Ring, Shared};
use node_session::MAX_READS;
use std::alloc::Global;

/// The gates of a new run, one for each partition, whose sessions make 4,294,967,296 reads at most. Refused where memory is.
pub(crate) fn new_shared(alloc: Global, ring: Ring, run: u32, sweep: u32) -> Option<Shared>
    requires { 1 ≤ run }
    ensures { IfSome result (IsNewRun ring run sweep) }
{
    let Ok(shared) = Shared::new(alloc, ring, run, sweep, MAX_READS) else {
        return None;
    };
    // this call's contract says that they are a new run's
    let _gates = shared.gates();
    Some(shared)
}

//! Why a pool of nodes, or what it needs, isn't had.
ghost use Rattle.std.specs.Prelude.{◌≡◌};
ghost use Rattle.gate_node.specs.declared.fault.PoolFault.TheVariants.{NoMemory};

use std::alloc::AllocError;
use thiserror::Error;

/// Why a pool of nodes, or what it needs, isn't had.
#[derive(Clone, Copy, Debug, PartialEq, Eq, Drop, Error)]
pub enum PoolFault {
    /// Memory was refused.
    #[error("no memory")]
    NoMemory,
    /// The system refused a thread.
    #[error("no thread")]
    NoThread,
    /// A further job could not be had.
    #[error("jobs failed")]
    JobsFailed,
    /// A total of the book would have passed 18,446,744,073,709,551,615.
    #[error("book full")]
    BookFull,
}

impl From<AllocError> for PoolFault {
    ghost from_gives = { λ _ fault. fault ≡ NoMemory };

    fn from(_error: AllocError) -> PoolFault {
        PoolFault::NoMemory
    }
}

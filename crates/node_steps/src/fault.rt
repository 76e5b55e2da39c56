//! Why a step isn't taken.

use std::alloc::AllocError;
use thiserror::Error;

/// Why a step isn't taken.
#[derive(Clone, Copy, Debug, Drop, Error, PartialEq, Eq)]
pub enum StepFault {
    /// Memory was refused.
    #[error("no memory")]
    NoMemory,
}

impl From<AllocError> for StepFault {
    fn from(_error: AllocError) -> StepFault {
        StepFault::NoMemory
    }
}

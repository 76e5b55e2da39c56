//! Why the register gives no answer.

use std::alloc::AllocError;
use thiserror::Error;

/// Why a register gave no answer. Nothing changed.
#[derive(Clone, Copy, Debug, Drop, Error, PartialEq, Eq)]
pub enum RegisterFault {
    /// A growth was refused.
    #[error("no memory")]
    NoMemory,
}

impl From<AllocError> for RegisterFault {
    fn from(_: AllocError) -> Self {
        RegisterFault::NoMemory
    }
}

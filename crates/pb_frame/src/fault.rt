//! Why a framer gives no frame, or a message has none.

ghost use Rattle.std.specs.Prelude.{◌≡◌};
ghost use Rattle.pb_frame.specs.declared.fault.FrameFault.TheVariants.{NoMemory};

use std::alloc::AllocError;
use thiserror::Error;

/// Why a framer gives no frame, or a message has none.
#[derive(Clone, Copy, Debug, Drop, Error, PartialEq, Eq)]
pub enum FrameFault {
    /// The four length bytes hold 0, and a frame has at least its code.
    #[error("frame of length 0")]
    Empty,
    /// The four length bytes hold more than the framer's limit, or a body is too long for any frame.
    #[error("frame too large")]
    TooLarge,
    /// Memory was refused, and nothing has changed.
    #[error("no memory")]
    NoMemory,
}

impl From<AllocError> for FrameFault {
    ghost from_gives = { λ _ e. e ≡ NoMemory };

    fn from(_e: AllocError) -> FrameFault {
        FrameFault::NoMemory
    }
}

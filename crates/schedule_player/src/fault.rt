//! Why a schedule is not played to its end.

use pb_frame::WriteFailed;
use std::alloc::AllocError;
use thiserror::Error;

/// Why a schedule is not played to its end. Each whole line before it was answered.
#[derive(Clone, Copy, Debug, Drop, Error, PartialEq, Eq)]
pub enum StepsFault {
    /// The line of this number, counted from 1, asks for no step, or is past the 100,000th.
    #[error("bad step at line {0}")]
    BadStep(u32),
    /// The reader failed, or the input hadn't ended after 4,294,967,296 reads.
    #[error("read failed")]
    ReadFailed,
    /// The writer failed or took no byte. A beginning of the next line may have been written.
    #[error("write failed")]
    WriteFailed,
    /// Memory was refused.
    #[error("no memory")]
    NoMemory,
}

impl From<AllocError> for StepsFault {
    ghost use Rattle.std.specs.Prelude.{◌≡◌};
    ghost use Rattle.schedule_player.specs.declared.fault.StepsFault.TheVariants.{NoMemory};

    ghost from_gives = { λ _ fault. fault ≡ NoMemory };

    fn from(_error: AllocError) -> StepsFault {
        StepsFault::NoMemory
    }
}

impl From<WriteFailed> for StepsFault {
    ghost use Rattle.std.specs.Prelude.{◌≡◌};
    ghost use Rattle.schedule_player.specs.declared.fault.StepsFault.TheVariants as faults;

    ghost from_gives = { λ _ fault. fault ≡ faults.WriteFailed };

    fn from(_failed: WriteFailed) -> StepsFault {
        StepsFault::WriteFailed
    }
}

//! Why a call of the hand-off did not do it.
ghost use Rattle.std.specs.Prelude.{◌≡◌};
ghost use Rattle.handoff.specs.Steps.{fault_of};
ghost use Rattle.handoff.specs.declared.fault.HandoffFault.TheVariants.{NoMemory};

use rw_gate::{Moved, Pass};
use std::alloc::AllocError;
use vnode_core::Vnode;

/// The passes by which the end of a diversion looked at both gates of the partition.
#[derive(Drop)]
pub struct Returned {
    pub primary: Pass<Vnode>,
    pub fallback: Pass<Vnode>,
}

/// Why a call of the hand-off did not do it.
#[derive(Drop)]
pub enum HandoffFault {
    /// The partition has a fallback that one attempt didn't show closed, or it had 4,294,967,295 diversions.
    AlreadyDiverted,
    /// The partition has no fallback; or it has one that is closed, as this pass of it has seen.
    NotDiverted(Option<Pass<Vnode>>),
    /// A key of the fallback isn't copied as it is now, by these passes.
    LeftOver(Returned),
    /// Memory was refused.
    NoMemory,
    /// The history of a gate had gone on past the state that was found, or can have no further event; or
    /// a gate took what it doesn't take while its partition is diverted, the primary a command or a
    /// close, or the fallback a copy or a reap; or what the primary had then wasn't seen.
    GateStopped,
}

impl From<AllocError> for HandoffFault {
    ghost from_gives = { λ _ fault. fault ≡ NoMemory };

    fn from(_error: AllocError) -> HandoffFault {
        HandoffFault::NoMemory
    }
}

/// Why a step of a copy back or of a return wasn't made.
#[derive(Clone, Copy, Drop)]
pub(crate) enum Stop {
    /// The fallback is closed.
    NotDiverted,
    /// Memory was refused.
    NoMemory,
    /// As the fault of this name.
    GateStopped,
}

/// The fault that a stop is told as, with the pass of the fallback.
pub(crate) fn fault_of(stop: Stop, theirs: Pass<Vnode>) -> HandoffFault
    ensures { result ≡ fault_of stop theirs }
{
    match stop {
        Stop::NotDiverted => HandoffFault::NotDiverted(Some(theirs)),
        Stop::NoMemory => HandoffFault::NoMemory,
        Stop::GateStopped => HandoffFault::GateStopped,
    }
}

impl From<AllocError> for Stop {
    ghost use Rattle.std.specs.Prelude.{◌≡◌};
    ghost use Rattle.handoff.specs.declared.fault.Stop.TheVariants as stops;

    ghost from_gives = { λ _ stop. stop ≡ stops.NoMemory };

    fn from(_error: AllocError) -> Stop {
        Stop::NoMemory
    }
}

impl From<Moved> for Stop {
    ghost use Rattle.std.specs.Prelude.{◌≡◌};
    ghost use Rattle.handoff.specs.declared.fault.Stop.TheVariants as stops;

    ghost from_gives = { λ _ stop. stop ≡ stops.GateStopped };

    fn from(_moved: Moved) -> Stop {
        Stop::GateStopped
    }
}

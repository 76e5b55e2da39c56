//! Why a message is refused.

ghost use Rattle.riak_msgs.specs.declared.fault.MsgFault.TheVariants.{BadMessage, NoMemory};
ghost use Rattle.std.specs.Prelude.{◌≡◌};

use pb_fields::FieldFault;
use std::alloc::AllocError;
use thiserror::Error;

/// Why a message is no request, or no reply is written.
#[derive(Clone, Copy, Debug, Drop, Error, PartialEq, Eq)]
pub enum MsgFault {
    /// No request has this message code.
    #[error("unknown message code")]
    UnknownCode,
    /// The body isn't one of a request of this code.
    #[error("bad message")]
    BadMessage,
    /// A required field isn't there.
    #[error("missing field")]
    MissingField,
    /// A bucket, key or type of no bytes is given.
    #[error("empty name")]
    EmptyName,
    /// A put names no key.
    #[error("key required")]
    NoKey,
    /// Memory was refused.
    #[error("no memory")]
    NoMemory,
}

impl From<AllocError> for MsgFault {
    ghost from_gives = { λ _ e. e ≡ NoMemory };

    fn from(_error: AllocError) -> MsgFault {
        MsgFault::NoMemory
    }
}

impl From<FieldFault> for MsgFault {
    ghost from_gives = { λ _ e. e ≡ BadMessage };

    fn from(_fault: FieldFault) -> MsgFault {
        MsgFault::BadMessage
    }
}

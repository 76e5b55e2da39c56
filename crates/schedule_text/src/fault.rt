//! Why a line is no step.

ghost use Rattle.std.specs.Prelude.{◌≡◌};
ghost use Rattle.schedule_text.specs.Reading.{fault_of_message};

use riak_msgs::MsgFault;
use thiserror::Error;

/// Why a line was not read.
#[derive(Clone, Copy, Debug, Drop, Error, PartialEq, Eq)]
pub enum LineFault {
    /// The text isn't a line of the form, or its request is none.
    #[error("bad step")]
    BadStep,
    /// Memory was refused for the request.
    #[error("no memory")]
    NoMemory,
}

impl LineFault {
    /// Of a line whose message is refused: that of a bad step, but where memory was refused.
    pub(crate) fn of_message(fault: MsgFault) -> LineFault
        ensures { result ≡ fault_of_message fault }
    {
        match fault {
            MsgFault::NoMemory => LineFault::NoMemory,
            MsgFault::UnknownCode
            | MsgFault::BadMessage
            | MsgFault::MissingField
            | MsgFault::EmptyName
            | MsgFault::NoKey => LineFault::BadStep,
        }
    }
}

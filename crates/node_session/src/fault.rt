//! Why a session stops before the end of its input.

ghost use Rattle.std.specs.Prelude.{◌≡◌};
ghost use Rattle.node_session.specs.Report.{reason_text, reply_count};

use std::error::Error;
use std::fmt;

/// Why a session stopped before the end of its input, and how many replies it had written whole. The error for a bad
/// length isn't one of them. In words: `bad frame after 2 replies`.
#[derive(Clone, Copy, Debug, Drop, PartialEq, Eq)]
pub enum SessionFault {
    /// The reader failed. Each whole frame that had come was answered.
    ReadFailed(u64),
    /// The writer failed or took no byte. A beginning of the next reply may have been written.
    WriteFailed(u64),
    /// A frame had a bad length, and its error was written.
    BadFrame(u64),
    /// All reads were made, and the input hadn't ended. Each whole frame that had come was answered.
    TooManyReads(u64),
    /// Memory was refused for what was read last or for a reply, or a reply is too long for any frame.
    NoMemory(u64),
}

impl SessionFault {
    /// What went wrong, in words.
    fn reason(self) -> &'static str
        ensures { result.now ≡ reason_text self }
    {
        match self {
            SessionFault::ReadFailed(_) => "read failed",
            SessionFault::WriteFailed(_) => "write failed",
            SessionFault::BadFrame(_) => "bad frame",
            SessionFault::TooManyReads(_) => "too many reads",
            SessionFault::NoMemory(_) => "no memory",
        }
    }

    /// How many replies were written whole before it.
    fn replies(self) -> u64
        ensures { result ≡ reply_count self }
    {
        match self {
            SessionFault::ReadFailed(count)
            | SessionFault::WriteFailed(count)
            | SessionFault::BadFrame(count)
            | SessionFault::TooManyReads(count)
            | SessionFault::NoMemory(count) => count,
        }
    }
}

impl fmt::Display for SessionFault {
    ghost use Rattle.std.specs.Prelude.{Some};
    ghost use Rattle.node_session.specs.Report.{fault_text};

    ghost output = { λ fault. Some (fault_text fault) };

    fn fmt<W: fmt::Write>(&self, f: &mut fmt::Formatter<W>) -> fmt::Result {
        write!(f, "{} after {} replies", self.reason(), self.replies())
    }
}

impl Error for SessionFault {}

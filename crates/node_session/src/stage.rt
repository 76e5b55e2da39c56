//! What a session does next.

use crate::ended::Ended;
use crate::fault::SessionFault;

/// What a session does next.
#[derive(Clone, Copy, Drop)]
pub enum Stage {
    /// It answers the next message, if one has come whole.
    Answering,
    /// It writes the reply to the last message.
    Sending,
    /// It writes the error for a bad length.
    Telling,
    /// It has what was written flushed, and then reads, if not all reads were made.
    Flushing,
    /// It reads.
    Reading,
    /// It has what was written flushed, as far as that can be done, and then it is over by this fault.
    Closing(SessionFault),
    /// It is over.
    Over(Result<Ended, SessionFault>),
}

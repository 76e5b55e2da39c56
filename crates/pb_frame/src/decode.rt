//! The header at the front of a stream.

ghost use Rattle.pb_frame.specs.Header.{IsHeader};

use crate::fault::FrameFault;
use byteorder::{BigEndian, ByteOrder};

/// The header of the first frame of a stream.
pub(crate) enum Header {
    /// Less than a whole frame is there.
    Incomplete,
    /// A whole frame, of so many bytes.
    Complete(usize),
    /// A length that no frame has.
    Invalid(FrameFault),
}

/// Decodes the header at the front of a stream whose frames have at most this length. It takes no memory.
#[tactic(auto, unfolding(crate::specs::Message::given_length))]
pub(crate) fn decode_header(limit: u32, bytes: &[u8]) -> Header
    ensures { IsHeader limit bytes.now result }
{
    if bytes.len() < 4 {
        return Header::Incomplete;
    }
    let length = BigEndian::read_u32(bytes);
    if length == 0 {
        return Header::Invalid(FrameFault::Empty);
    }
    if length > limit {
        return Header::Invalid(FrameFault::TooLarge);
    }
    let end = length as usize + 4;
    if bytes.len() < end {
        return Header::Incomplete;
    }
    Header::Complete(end)
}

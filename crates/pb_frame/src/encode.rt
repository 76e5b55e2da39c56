//! The encoding of a message as a frame.

ghost use Rattle.std.specs.Prelude.{◌≡◌, ◌<◌, ◌≤◌, ◌++◌, List, ℕ, length};
ghost use Rattle.std.specs.Prelude.{IfOk, IsOk, IsErrOf, IsOkUnless};
ghost use Rattle.pb_frame.specs.Limits.{max_body_len};
ghost use Rattle.pb_frame.specs.Message.{frame};

use crate::fault::FrameFault;
use crate::limits::MAX_BODY_LEN;
use byteorder::{BigEndian, ByteOrder};
use std::alloc::Global;

/// How many bytes of a frame precede its body: four of its length, and the code.
pub const HEADER_LEN: usize = 5;

/// The bytes in front of a message's body in its frame: how long code and body are in four bytes, the highest first,
/// then the code. So the body is written behind them into the same buffer.
///
/// `TooLarge` just where the body is longer than [`MAX_BODY_LEN`]. It takes no memory.
#[tactic(auto, unfolding(crate::specs::Message::frame))]
pub fn header(code: u8, body_len: usize) -> Result<[u8; HEADER_LEN], FrameFault>
    ensures ok { IfOk result (λ head. (body : List ℕ) → length body ≡ body_len
        → head ++ body ≡ frame (record { code = code; body = body })) }
    ensures too_large { max_body_len < body_len → IsErrOf result FrameFault.TooLarge }
    ensures within { body_len ≤ max_body_len → IsOk result }
{
    if body_len > MAX_BODY_LEN {
        return Err(FrameFault::TooLarge);
    }
    let mut header = [0, 0, 0, 0, code];
    BigEndian::write_u32(&mut header, body_len as u32 + 1);
    Ok(header)
}

/// The frame of a message, as Riak's Protocol Buffers Client API has it: how long code and body are
/// in four bytes, the highest first, then the code, then the body. `TooLarge` just where the body is
/// longer than [`MAX_BODY_LEN`]; else only memory may be refused.
pub fn frame_of(alloc: Global, code: u8, body: &[u8]) -> Result<Vec<u8>, FrameFault>
    ensures ok { IfOk result (λ v. v.items ≡ frame (record { code = code; body = body.now })) }
    ensures too_large { max_body_len < length body.now → IsErrOf result FrameFault.TooLarge }
    ensures memory { length body.now ≤ max_body_len → IsOkUnless result FrameFault.NoMemory }
{
    let header = header(code, body.len())?;
    let mut frame = Vec::with_capacity(alloc, HEADER_LEN.saturating_add(body.len()))?;
    frame.extend_from_slice(&header)?;
    frame.extend_from_slice(body)?;
    Ok(frame)
}

//! Replies as frames.

ghost use Rattle.std.specs.Prelude.{◌≡◌, ◌≤◌, ◌<◌, ◌++◌, List, ℕ, [], length, IfOk, IfErr, OnOk};
ghost use Rattle.std.specs.Prelude.{OnErr};
ghost use Rattle.pb_frame.specs.Limits.{max_body_len};
ghost use Rattle.pb_frame.specs.Message.{frame};
ghost use Rattle.node_session.specs.Answers.{message_fault_text, frame_fault_text, IsUnframed};

use crate::scratch::Scratch;
use pb_frame::{FrameFault, HEADER_LEN, header};
use riak_msgs::{Message, MsgFault, Text, encoded_len};

/// The text of the error for a message that is no request.
pub(crate) fn message_fault_text(fault: MsgFault) -> Text
    ensures { result ≡ message_fault_text fault }
{
    match fault {
        MsgFault::UnknownCode => Text::UnknownCode,
        MsgFault::BadMessage => Text::BadMessage,
        MsgFault::MissingField => Text::MissingField,
        MsgFault::EmptyName => Text::EmptyName,
        MsgFault::NoKey => Text::NoKey,
        MsgFault::NoMemory => Text::NoMemory,
    }
}

/// The text of the error for a bad length.
pub(crate) fn frame_fault_text(fault: FrameFault) -> Text
    ensures { result ≡ frame_fault_text fault }
{
    match fault {
        FrameFault::Empty => Text::BadFrame,
        FrameFault::TooLarge => Text::FrameTooLarge,
        FrameFault::NoMemory => Text::NoMemory,
    }
}

/// The header of the frame of a body of so many bytes. Refused, by `TooLarge`, just where a frame can't hold so many.
#[inline(always)]
fn body_header(code: u8, body_len: usize) -> Result<[u8; HEADER_LEN], FrameFault>
    ensures head { IfOk result (λ head. (body : List ℕ) → length body ≡ body_len
        → head ++ body ≡ frame (record { code = code; body = body })) }
    ensures framed { IfOk result (λ _. body_len ≤ max_body_len) }
    ensures too_large { IfErr result (λ fault.
        (fault ≡ FrameFault.TooLarge) × (max_body_len < body_len)) }
{
    header(code, body_len)
}

/// Writes the frame of a message with a body into an empty buffer: the header, and the body behind it.
/// Room for it is lent, or made in the buffer, first. Where it is refused a part may be there.
#[inline(always)]
fn write_frame<M: Message>(
    out: &mut Vec<u8>,
    code: u8,
    body: &M,
    scratch: &mut Scratch,
) -> Result<(), FrameFault>
    requires { out.old.items ≡ [] }
    ensures frame { OnOk result
        (out.new.items ≡ frame (record { code = code; body = M.encoding body.now })) }
    ensures framed { OnOk result (length (M.encoding body.now) ≤ max_body_len) }
    ensures fault { IfErr result (IsUnframed (M.encoding body.now)) }
{
    let Ok(len) = encoded_len(body) else {
        return Err(FrameFault::NoMemory);
    };
    let header = body_header(code, len)?;
    let wanted = HEADER_LEN.saturating_add(len);
    scratch.lend_reply(out, wanted);
    out.reserve(wanted)?;
    out.extend_from_slice(&header)?;
    match body.encode(out) {
        Ok(()) => Ok(()),
        Err(_) => Err(FrameFault::NoMemory),
    }
}

/// Puts the frame of a message with a body into an empty buffer, with the room that is lent where it has
/// enough. Refused by `TooLarge` just where a frame can't hold the body, and where memory is refused; the
/// buffer is empty then.
#[inline(always)]
pub(crate) fn fill_frame<M: Message>(
    out: &mut Vec<u8>,
    code: u8,
    body: &M,
    scratch: &mut Scratch,
) -> Result<(), FrameFault>
    requires { out.old.items ≡ [] }
    ensures ok { OnOk result
        (out.new.items ≡ frame (record { code = code; body = M.encoding body.now })) }
    ensures framed { OnOk result (length (M.encoding body.now) ≤ max_body_len) }
    ensures fault { IfErr result (IsUnframed (M.encoding body.now)) }
    ensures err { OnErr result (out.new.items ≡ []) }
{
    let filled = write_frame(out, code, body, scratch);
    if filled.is_err() {
        scratch.take_reply(out);
    }
    filled
}

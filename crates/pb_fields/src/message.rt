//! Messages: values that are encoded as fields.

ghost use Rattle.std.specs.Prelude.{◌≡◌, ℕ, List, length, IfOk, OnOk};
ghost use Rattle.pb_fields.specs.Field.{IsNumber};
ghost use Rattle.pb_fields.specs.Encoding.{bytes_field, repeated_field};

use crate::output::{LengthCounter, Output};
use std::alloc::AllocError;

/// A value that is encoded as fields, one behind another.
pub trait Message {
    ghost use Rattle.std.specs.Prelude.{List, ℕ, OnOk};

    // The bytes of its fields.
    ghost encoding: { Self → List ℕ };

    /// Encodes the value's fields. Refused only where the output is.
    fn encode<O: Output>(&self, out: &mut O) -> Result<(), AllocError>
        ensures { OnOk result (O.appends out.old (encoding self.now) out.new) };
}

/// How many bytes a message's fields have. It takes no memory; refused only where they are more than a `usize` counts.
#[inline(always)]
pub fn encoded_len<M: Message>(message: &M) -> Result<usize, AllocError>
    ensures { IfOk result (λ n. n ≡ length (M.encoding message.now)) }
{
    let mut counter = LengthCounter { len: 0 };
    message.encode(&mut counter)?;
    Ok(counter.len)
}

/// Encodes a message as the number's field of another. Refused only where the output is.
///
/// It counts the message's bytes once, and then encodes it, where the output doesn't only count.
///
/// Source: the Protocol Buffers documentation, "Encoding", section "Submessages".
#[inline(always)]
pub fn encode_message<O: Output, M: Message>(
    out: &mut O,
    number: u32,
    message: &M,
) -> Result<(), AllocError>
    requires { IsNumber number }
    ensures { OnOk result
        (O.appends out.old (bytes_field number (M.encoding message.now)) out.new) }
{
    if out.begin_message(number, encoded_len(message)?)? {
        message.encode(out)
    } else {
        Ok(())
    }
}

/// Encodes each of the messages as a field of the number, in their order. Refused only where the output is.
#[inline(always)]
pub fn encode_repeated<O: Output, M: Message>(
    out: &mut O,
    number: u32,
    messages: &[M],
) -> Result<(), AllocError>
    requires { IsNumber number }
    ensures { OnOk result
        (O.appends out.old (repeated_field M.encoding number messages.now) out.new) }
{
    for message in messages {
        encode_message(out, number, message)?;
    }
    Ok(())
}

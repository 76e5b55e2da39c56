//! Bytes to a writer.

ghost use Rattle.schedule_player.specs.Sent.{Sends};

use crate::fault::StepsFault;
use pb_frame::write_some;
use std::io::Write;

/// Writes all of the bytes, or fails with a beginning of them written.
pub(crate) fn send<W: Write>(writer: &mut W, bytes: &[u8]) -> Result<(), StepsFault>
    ensures { Sends (W.contents writer.old) (W.contents writer.new) bytes.now result }
{
    let mut sent = 0;
    while sent < bytes.len() {
        sent += write_some(writer, &bytes[sent..])?;
    }
    Ok(())
}

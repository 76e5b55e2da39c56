//! A session from its first read to its end, where reader and writer wait.

ghost use Rattle.std.specs.Prelude.{◌≡◌, ◌≤◌, ◌^◌, IfOk, IfErr};
ghost use Rattle.std.specs.Io.KnownBytes.{IsAtEnd};
ghost use Rattle.node_session.specs.Session.{EndsInput, Given, StopsInput};
ghost use Rattle.node_session.specs.Streams.{source_of};

use crate::ended::Ended;
use crate::fault::SessionFault;
use crate::node::Node;
use crate::scratch::Scratch;
use crate::session::Session;
use crate::transport::Plain;
use std::alloc::Global;
use std::io::{Read, Write};

/// How many bytes one read counts for, at most.
pub const MAX_READ_LEN: usize = 4096;

/// Serves one connection: reads requests from `reader` to the end of the input, at most `reads` times, answers each of
/// them in order by `node`, and writes the replies to `writer`.
///
/// A read takes up to [`MAX_READ_LEN`] bytes here, and each whole request that has come is answered
/// before the next read. A request's frame has a length of at most [`MAX_REQUEST_LEN`]. A message that is
/// no request is answered by its error, and the session goes on. A read, write or flush that is
/// interrupted is tried again; such a read counts as one. The writer is flushed before each read, so that
/// at the end all is flushed, and, as far as that can be done, after a fault.
pub fn serve<R: Read, W: Write, N: Node>(
    alloc: Global,
    reader: &mut R,
    writer: &mut W,
    node: &mut N,
    reads: u64,
) -> Result<Ended, SessionFault>
    requires { reads ≤ 2 ^ 32 }

    // What was written is the output for what was read, and all of it was read.
    ensures ended { IfOk result (λ e.
        Given (source_of (R.remaining reader.old)) (source_of (R.remaining reader.new)) reads
        (EndsInput N.step node.old node.new (W.contents writer.old) (W.contents writer.new) e)) }
    ensures all { IfOk result (λ _. IsAtEnd (R.remaining reader.new)) }

    // What was written is the output for what was read, as far as the fault lets it come.
    ensures stopped { IfErr result (λ fault.
        Given (source_of (R.remaining reader.old)) (source_of (R.remaining reader.new)) reads
        (StopsInput N.step node.old node.new
        (W.contents writer.old) (W.contents writer.new) reads fault)) }
{
    let mut session = Session::new(alloc, reads);
    let mut scratch = Scratch::new(alloc);
    'steps: loop {
        if let Some(result) = session.outcome() {
            return result;
        }
        session.step::<N, Plain, R, W>(alloc, reader, writer, node, &mut scratch, false);
    }
}

//! One connection over a reader and a writer.

ghost use Rattle.std.specs.Prelude.{◌⊎◌, ◌≤◌, ◌^◌, IfOk, IfErr};
ghost use Rattle.std.specs.Io.KnownBytes.{IsAtEnd};
ghost use Rattle.node_session.specs.Session.{Given};
ghost use Rattle.node_session.specs.Pipes.{PipeEnds, PipeStops, IsNotBegun};
ghost use Rattle.node_session.specs.Streams.{source_of};

use gate_node::Ring;
use node_session::{Ended, MAX_READS, PlainNode, SessionFault, serve};
use std::alloc::Global;
use std::io::{Read, Write};

/// Serves the reader to the writer by a node of its own, which is new: of this run, at least 1, on this ring, and with
/// this budget of its sweeps.
pub fn pipe<R: Read, W: Write>(
    alloc: Global,
    ring: Ring,
    run: u32,
    sweep: u32,
    reader: &mut R,
    writer: &mut W,
) -> Result<Ended, SessionFault>
    requires { 1 ≤ run }

    // All of the input was read, and what was written is what the sibling register answers to it.
    ensures ended { IfOk result (λ e.
        Given (source_of (R.remaining reader.old)) (source_of (R.remaining reader.new)) (2 ^ 32)
        (PipeEnds run ring sweep (W.contents writer.old) (W.contents writer.new) e)) }
    ensures all { IfOk result (λ _. IsAtEnd (R.remaining reader.new)) }

    // The same of what was read and written before a fault, as far as the session got.
    ensures stopped { IfErr result (λ fault.
        IsNotBegun (R.remaining reader.old) (R.remaining reader.new)
        (W.contents writer.old) (W.contents writer.new) fault
        ⊎ Given (source_of (R.remaining reader.old)) (source_of (R.remaining reader.new)) (2 ^ 32)
        (PipeStops run ring sweep (W.contents writer.old) (W.contents writer.new)
        (2 ^ 32) fault)) }
{
    let Ok(new) = PlainNode::on_ring(alloc, ring, run) else {
        return Err(SessionFault::NoMemory(0));
    };
    let mut node = new.with_budget(sweep);
    serve(alloc, reader, writer, &mut node, MAX_READS)
}

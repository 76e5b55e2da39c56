//! The end of a session as a line of text and an exit status.

ghost use Rattle.std.specs.Prelude.{◌≡◌, OnOk};
ghost use Rattle.std.specs.Io.KnownBytes.{Appends};
ghost use Rattle.node_session.specs.Report.{exit_status, fault_line};

use crate::ended::Ended;
use crate::fault::SessionFault;
use std::io;
use std::io::Write;

/// The program's status after a session: 0 at the end of the input, 1 for a fault.
pub fn exit_status(outcome: Result<Ended, SessionFault>) -> u8
    ensures { result ≡ exit_status outcome }
{
    match outcome {
        Ok(_) => 0,
        Err(_) => 1,
    }
}

/// Writes the program's line for a fault, such as `riak_node: bad frame after 2 replies`. It takes no
/// memory. An `Err` is the writer's.
pub fn write_fault<W: Write>(writer: &mut W, fault: SessionFault) -> io::Result<()>
    ensures { OnOk result
        (Appends (W.contents writer.old) (W.contents writer.new) (fault_line fault)) }
{
    writeln!(writer, "riak_node: {fault}")
}

//! How a command ends: its line on standard error, and its status.

ghost use Rattle.std.specs.Prelude.{◌≡◌, OnOk};
ghost use Rattle.std.specs.Io.KnownBytes.{Appends};
ghost use Rattle.riak_node.specs.Conclusions.{error_line, left_line, line_of, rest_line};
ghost use Rattle.riak_node.specs.Conclusions.{status_of, steps_fault_line};

use node_commands::ServeFault;
use node_session::{Ended, SessionFault, exit_status, write_fault};
use schedule_player::StepsFault;
use std::io;
use std::io::Write;

/// How a command ends.
#[derive(Clone, Copy)]
pub enum Conclusion {
    /// `pipe` came to the end of its input, or stopped before. Status 0 or 1.
    Piped(Result<Ended, SessionFault>),
    /// `serve` came to its end, or stopped before. Status 0 or 1.
    Served(Result<(), ServeFault>),
    /// `serve` had no listener. Status 1.
    CannotListen,
    /// `serve` had no listener for an operator's clients. Status 1.
    CannotListenForControl,
    /// `steps` came to the end of its schedule, or stopped before. Status 0 or 1.
    Played(Result<(), StepsFault>),
    /// There is no ring of the size that is asked for. Status 2.
    NoRing,
    /// What was given as an address is none. Status 2.
    NoAddress,
    /// An argument isn't UTF-8. Status 2.
    NotText,
    /// There was no memory for the command line. Status 1.
    NoMemory,
    /// The help that was asked for couldn't be written. Status 1.
    HelpNotWritten,
}

/// Writes a line of the program.
fn write_error<W: Write>(writer: &mut W, text: &str) -> io::Result<()>
    ensures { OnOk result
        (Appends (W.contents writer.old) (W.contents writer.new) (error_line text.now)) }
{
    writeln!(writer, "riak_node: {text}")
}

/// Writes the line for so many bytes behind the last whole frame of an input.
fn write_left<W: Write>(writer: &mut W, rest: usize, replies: u64) -> io::Result<()>
    ensures { OnOk result
        (Appends (W.contents writer.old) (W.contents writer.new) (left_line rest replies)) }
{
    writeln!(
        writer,
        "riak_node: {rest} bytes of a frame are left after {replies} replies"
    )
}

/// Writes that line where there are such bytes.
fn write_rest<W: Write>(writer: &mut W, ended: Ended) -> io::Result<()>
    ensures { OnOk result
        (Appends (W.contents writer.old) (W.contents writer.new) (rest_line ended)) }
{
    if ended.rest == 0 {
        return Ok(());
    }
    write_left(writer, ended.rest, ended.replies)
}

/// Writes the line for a schedule that wasn't played to its end.
fn write_steps_fault<W: Write>(writer: &mut W, fault: StepsFault) -> io::Result<()>
    ensures { OnOk result
        (Appends (W.contents writer.old) (W.contents writer.new) (steps_fault_line fault)) }
{
    match fault {
        StepsFault::BadStep(line) => writeln!(writer, "riak_node: bad step at line {line}"),
        StepsFault::ReadFailed => write_error(writer, "read failed"),
        StepsFault::WriteFailed => write_error(writer, "write failed"),
        StepsFault::NoMemory => write_error(writer, "no memory"),
    }
}

impl Conclusion {
    /// Writes its line, if it has one.
    pub(crate) fn write_line<W: Write>(self, writer: &mut W) -> io::Result<()>
        ensures { OnOk result
            (Appends (W.contents writer.old) (W.contents writer.new) (line_of self)) }
    {
        match self {
            Conclusion::Piped(Ok(ended)) => write_rest(writer, ended),
            Conclusion::Piped(Err(fault)) => write_fault(writer, fault),
            Conclusion::Served(Ok(())) | Conclusion::Played(Ok(())) => Ok(()),
            Conclusion::Served(Err(fault)) => writeln!(writer, "riak_node: {fault}"),
            Conclusion::CannotListen => write_error(writer, "cannot listen"),
            Conclusion::CannotListenForControl => {
                write_error(writer, "cannot listen for control")
            }
            Conclusion::Played(Err(fault)) => write_steps_fault(writer, fault),
            Conclusion::NoRing => {
                write_error(writer, "ring must be a power of two from 1 to 1024")
            }
            Conclusion::NoAddress => {
                write_error(writer, "address must be an IP address, as 127.0.0.1")
            }
            Conclusion::NotText => write_error(writer, "arguments must be UTF-8"),
            Conclusion::NoMemory => write_error(writer, "no memory"),
            Conclusion::HelpNotWritten => write_error(writer, "write failed"),
        }
    }

    /// The program's status.
    pub(crate) fn status(self) -> u8
        ensures { result ≡ status_of self }
    {
        match self {
            Conclusion::Piped(outcome) => exit_status(outcome),
            Conclusion::Served(Ok(())) | Conclusion::Played(Ok(())) => 0,
            Conclusion::Served(Err(_)) | Conclusion::Played(Err(_)) => 1,
            Conclusion::CannotListen | Conclusion::CannotListenForControl => 1,
            Conclusion::NoMemory | Conclusion::HelpNotWritten => 1,
            Conclusion::NoRing | Conclusion::NoAddress | Conclusion::NotText => 2,
        }
    }
}

//! Why a command wasn't done.

ghost use Rattle.std.specs.Prelude.{◌++◌, OnOk, codes, decimal};
ghost use Rattle.std.specs.Io.KnownBytes.{Appends};
ghost use Rattle.control_text.specs.Answers.{refusal_line};

use crate::mistake::Mistake;
use std::io;
use std::io::Write;

/// Why a command wasn't done. A number is the index of the partition that the command named.
#[derive(Clone, Copy, Drop, PartialEq, Eq)]
pub enum OperatorRefusal {
    /// The line asks for no command: `refused: ` and what is wrong with it, as in
    /// `refused: no such command; help lists them`.
    BadLine(Mistake),
    /// The line is longer than any command: `refused: the line has more than 64 bytes`.
    LongLine,
    /// The node has no partition of this index: `refused: there is no partition 9`.
    NoPartition(u16),
    /// A diversion of a partition that is diverted: `refused: partition 3 is diverted already`.
    AlreadyDiverted(u16),
    /// A copy or a return of a partition that isn't diverted: `refused: partition 3 isn't diverted`.
    NotDiverted(u16),
    /// A return before all keys were copied: `refused: partition 3 has keys left to be copied`.
    LeftOver(u16),
    /// Memory was refused: `refused: no memory`.
    NoMemory,
    /// A gate of the partition takes no more steps: `refused: partition 3's gate has stopped`.
    GateStopped(u16),
}

/// Writes the line of a refusal that begins with its partition.
fn write_about<W: Write>(writer: &mut W, partition: u16, what: &str) -> io::Result<()>
    ensures { OnOk result (Appends (W.contents writer.old) (W.contents writer.new)
        (codes "refused: partition " ++ decimal partition ++ what.now ++ codes "\n")) }
{
    writeln!(writer, "refused: partition {partition}{what}")
}

impl OperatorRefusal {
    /// Writes the refusal's line, its line feed (byte 0a) among it. On an error of the writer a part of
    /// it may have been written. It takes no memory of its own.
    pub fn write_line<W: Write>(self, writer: &mut W) -> io::Result<()>
        ensures line { OnOk result
            (Appends (W.contents writer.old) (W.contents writer.new) (refusal_line self)) }
    {
        match self {
            OperatorRefusal::BadLine(mistake) => {
                let what = mistake.text();
                writeln!(writer, "refused: {what}")
            }
            OperatorRefusal::LongLine => writeln!(
                writer,
                "refused: the line has more than 64 bytes"
            ),
            OperatorRefusal::NoPartition(index) => {
                writeln!(writer, "refused: there is no partition {index}")
            }
            OperatorRefusal::AlreadyDiverted(index) => write_about(
                writer,
                index,
                " is diverted already",
            ),
            OperatorRefusal::NotDiverted(index) => write_about(writer, index, " isn't diverted"),
            OperatorRefusal::LeftOver(index) => {
                write_about(writer, index, " has keys left to be copied")
            }
            OperatorRefusal::NoMemory => writeln!(writer, "refused: no memory"),
            OperatorRefusal::GateStopped(index) => write_about(
                writer,
                index,
                "'s gate has stopped",
            ),
        }
    }
}

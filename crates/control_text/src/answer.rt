//! What is answered to a command.

ghost use Rattle.std.specs.Prelude.{◌≡◌, OnOk};
ghost use Rattle.std.specs.Io.KnownBytes.{Appends};
ghost use Rattle.control_text.specs.Answers.{answer_line, answer_text, help_lines, rest_word};

use crate::refusal::OperatorRefusal;
use std::io;
use std::io::Write;

/// The lines of the answer to `help`.
const HELP: &[u8] = b"\
help           lists the commands
totals         what was done so far, and how much is stored
stats          what was done by now, without a pause
diverted       which partitions are diverted, and for how long
divert 3       calls of partition 3 go to a fallback from now on
copy 3 100     at most 100 keys of partition 3 are copied back from its fallback
return 3       calls of partition 3 go to its primary again, once all keys are copied
stop           the node ends in order
";

/// What is answered to a command that names a partition, or to a line that asks for none. The answer to
/// `totals` is the line of the totals, and to `stop` nothing is answered.
#[derive(Clone, Copy, Drop, PartialEq, Eq)]
pub enum OperatorAnswer {
    /// The partition of this index is diverted from now on: `diverted 3`.
    Diverted(u16),
    /// Keys were copied back: `copied 3 keys 100 left`, and `copied 3 keys 12 whole` where none are left.
    Copied {
        /// The partition's index.
        partition: u16,
        /// How many keys this command copied.
        keys: u64,
        /// Whether keys are left to be copied.
        left: bool,
    },
    /// The partition of this index is at its primary again: `returned 3`.
    Returned(u16),
    /// The command wasn't done: `refused: ` and why.
    Refused(OperatorRefusal),
}

/// Writes the lines of the answer to `help`, each with its line feed: the commands, and what each does.
/// On an error of the writer a part of them may have been written. It takes no memory of its own.
pub fn write_help<W: Write>(writer: &mut W) -> io::Result<()>
    ensures lines { OnOk result
        (Appends (W.contents writer.old) (W.contents writer.new) help_lines) }
{
    writer.write_all(HELP)
}

/// The word for whether keys are left to be copied.
fn rest_word(left: bool) -> &'static str
    ensures { result.now ≡ rest_word left }
{
    if left { "left" } else { "whole" }
}

impl OperatorAnswer {
    /// Writes the answer's line, its line feed (byte 0a) among it. On an error of the writer a part of
    /// it may have been written. It takes no memory of its own.
    pub fn write_line<W: Write>(self, writer: &mut W) -> io::Result<()>
        ensures line { OnOk result
            (Appends (W.contents writer.old) (W.contents writer.new) (answer_line self)) }
    {
        match self {
            OperatorAnswer::Diverted(partition) => writeln!(writer, "diverted {partition}"),
            OperatorAnswer::Copied {
                partition,
                keys,
                left,
            } => {
                let rest = rest_word(left);
                writeln!(writer, "copied {partition} keys {keys} {rest}")
            }
            OperatorAnswer::Returned(partition) => writeln!(writer, "returned {partition}"),
            OperatorAnswer::Refused(refusal) => refusal.write_line(writer),
        }
    }
}

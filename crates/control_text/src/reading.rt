//! Reading a command.

ghost use Rattle.std.specs.Prelude.{codes};
ghost use Rattle.control_text.specs.Commands.{ReadsCommand};
ghost use Rattle.control_text.specs.Reading.{NamesAlone, ReadsBehind, ReadsText};

use crate::command::OperatorCommand;
use crate::number::{read_budget, read_partition};

/// The command that has this text, of those without a number.
fn read_alone(text: &[u8]) -> Option<OperatorCommand>
    ensures { NamesAlone text.now result }
{
    match text {
        b"help" => Some(OperatorCommand::Help),
        b"totals" => Some(OperatorCommand::Totals),
        b"stats" => Some(OperatorCommand::Stats),
        b"diverted" => Some(OperatorCommand::Diverted),
        b"stop" => Some(OperatorCommand::Stop),
        _ => None,
    }
}

/// The diversion whose number stands in this text.
fn read_divert(operands: &[u8]) -> Option<OperatorCommand>
    ensures { ReadsBehind (codes "divert ") operands.now result }
{
    match read_partition(operands) {
        Some(partition) => Some(OperatorCommand::Divert(partition)),
        None => None,
    }
}

/// The return whose number stands in this text.
fn read_return(operands: &[u8]) -> Option<OperatorCommand>
    ensures { ReadsBehind (codes "return ") operands.now result }
{
    match read_partition(operands) {
        Some(partition) => Some(OperatorCommand::Return(partition)),
        None => None,
    }
}

/// The copy whose two numbers stand in this text.
fn read_copy(operands: &[u8]) -> Option<OperatorCommand>
    ensures { ReadsBehind (codes "copy ") operands.now result }
{
    let Ok(numbers) = str::from_utf8(operands) else {
        return None;
    };
    let Some((first, second)) = numbers.split_once(' ') else {
        return None;
    };
    let Some(partition) = read_partition(first.as_bytes()) else {
        return None;
    };
    match read_budget(second.as_bytes()) {
        Some(budget) => Some(OperatorCommand::Copy { partition, budget }),
        None => None,
    }
}

/// The command that has this text.
fn read_text(text: &[u8]) -> Option<OperatorCommand>
    ensures { ReadsText text.now result }
{
    if let Some(operands) = text.strip_prefix(b"divert ") {
        return read_divert(operands);
    }
    if let Some(operands) = text.strip_prefix(b"copy ") {
        return read_copy(operands);
    }
    if let Some(operands) = text.strip_prefix(b"return ") {
        return read_return(operands);
    }
    read_alone(text)
}

/// The command that a line asks for; none where it asks for none. The line comes without its line feed,
/// and may end in one carriage return (byte 0d), which doesn't count.
///
/// A command is `help`, `totals`, `stats`, `diverted`, `divert P`, `copy P B`, `return P` or `stop`, in
/// lower case, with one space (byte 20) between two words and no other blank. P is a partition's index
/// from 0 to 65,535, B a number of keys from 1 to 4,294,967,295, each in decimal without sign or leading
/// zeros. That there is such a partition isn't asked here.
pub fn read_command(line: &[u8]) -> Option<OperatorCommand>
    ensures reads { ReadsCommand line.now result }
{
    match line.strip_suffix(b"\r") {
        Some(text) => read_text(text),
        None => read_text(line),
    }
}

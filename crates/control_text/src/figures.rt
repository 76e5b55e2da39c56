//! Figures on a line.

ghost use Rattle.std.specs.Prelude.{◌++◌, OnOk, codes, decimal};
ghost use Rattle.std.specs.Io.KnownBytes.{Appends};
ghost use Rattle.control_text.specs.Figures.{figures_text, group_text};

use std::io;
use std::io::Write;

/// A number with its name, as in `puts 12`.
#[derive(Clone, Copy, Drop)]
pub struct Figure {
    /// What the number counts.
    pub name: &'static str,
    /// The number.
    pub value: u64,
}

/// Writes a name and a number, with a space between them.
fn write_figure<W: Write>(writer: &mut W, name: &str, value: u64) -> io::Result<()>
    ensures { OnOk result (Appends (W.contents writer.old) (W.contents writer.new)
        (name.now ++ codes " " ++ decimal value)) }
{
    write!(writer, "{name} {value}")
}

/// Writes the figures of a line: name and value of each, as in `uptime 12 run 1`. One space stands between
/// two words. On an error of the writer a part of them may have been written. It takes no memory of its own.
pub fn write_figures<W: Write>(writer: &mut W, figures: &[Figure]) -> io::Result<()>
    ensures figures { OnOk result
        (Appends (W.contents writer.old) (W.contents writer.new) (figures_text figures.now)) }
{
    match figures.split_first() {
        Some((first, rest)) => {
            write_figure(writer, first.name, first.value)?;
            write_group(writer, rest)
        }
        None => Ok(()),
    }
}

/// Writes further figures of a line, as [`write_figures`] does, each with a space before its name.
pub fn write_group<W: Write>(writer: &mut W, figures: &[Figure]) -> io::Result<()>
    ensures group { OnOk result
        (Appends (W.contents writer.old) (W.contents writer.new) (group_text figures.now)) }
{
    for figure in figures {
        write!(writer, " ")?;
        write_figure(writer, figure.name, figure.value)?;
    }
    Ok(())
}

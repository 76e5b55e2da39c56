//! The lines that a run of connections writes.
ghost use Rattle.std.specs.Prelude.{◌≡◌, true, OnOk};
ghost use Rattle.std.specs.Io.KnownBytes.{Appends};
ghost use Rattle.node_commands.specs.Lines.{address_line, commands_text, held_text, open_line};
ghost use Rattle.node_commands.specs.Lines.{open_text, others_text, refused_text, stored_text};
ghost use Rattle.node_commands.specs.Lines.{totals_line};

use key_counts::KeyCounts;
use log::{Log, warn};
use stats_book::Totals;
use std::io;
use std::io::Write;

/// Writes where the listener listens, in a line.
pub(crate) fn write_address<W: Write>(writer: &mut W, port: u16) -> io::Result<()>
    ensures { OnOk result
        (Appends (W.contents writer.old) (W.contents writer.new) (address_line port)) }
{
    writeln!(writer, "listening 127.0.0.1:{port}")
}

/// Writes how many gets, puts and deletes were counted.
fn write_commands<W: Write>(writer: &mut W, totals: Totals) -> io::Result<()>
    ensures { OnOk result
        (Appends (W.contents writer.old) (W.contents writer.new) (commands_text totals)) }
{
    let Totals {
        gets,
        puts,
        deletes,
        ..
    } = totals;
    write!(writer, "gets {gets} puts {puts} deletes {deletes}")
}

/// Writes how many refusals and reaps were counted, to the line's end.
fn write_others<W: Write>(writer: &mut W, totals: Totals) -> io::Result<()>
    ensures { OnOk result
        (Appends (W.contents writer.old) (W.contents writer.new) (others_text totals)) }
{
    let Totals {
        refusals,
        reaps,
        ..
    } = totals;
    writeln!(writer, " refusals {refusals} reaps {reaps}")
}

/// Writes the totals, in a line.
fn write_totals<W: Write>(writer: &mut W, totals: Totals) -> io::Result<()>
    ensures { OnOk result
        (Appends (W.contents writer.old) (W.contents writer.new) (totals_line totals)) }
{
    write_commands(writer, totals)?;
    write_others(writer, totals)
}

/// Writes and flushes the totals, in a line.
pub(crate) fn report<W: Write>(totals: Totals, writer: &mut W) -> io::Result<()>
    ensures { OnOk result
        (Appends (W.contents writer.old) (W.contents writer.new) (totals_line totals)) }
{
    let written = write_totals(writer, totals);
    writer.flush()?;
    written
}

/// Writes how many refusals and reaps were counted and how many connections were accepted.
fn write_open<W: Write>(writer: &mut W, totals: Totals, connections: u64) -> io::Result<()>
    ensures { OnOk result
        (Appends (W.contents writer.old) (W.contents writer.new) (open_text totals connections)) }
{
    let Totals {
        refusals,
        reaps,
        ..
    } = totals;
    write!(
        writer,
        " refusals {refusals} reaps {reaps} connections {connections}"
    )
}

/// Writes how much is stored, where it is known.
fn write_stored<W: Write>(writer: &mut W, counts: Option<KeyCounts>) -> io::Result<()>
    ensures { OnOk result
        (Appends (W.contents writer.old) (W.contents writer.new) (stored_text counts)) }
{
    let Some(counts) = counts else {
        return Ok(());
    };
    let KeyCounts {
        keys,
        siblings,
        dead_keys,
        value_bytes,
    } = counts;
    write!(
        writer,
        " keys {keys} siblings {siblings} dead {dead_keys} bytes {value_bytes}"
    )
}

/// Writes how many puts were refused for want of memory, to the line's end.
fn write_refused<W: Write>(writer: &mut W, puts: u64) -> io::Result<()>
    ensures { OnOk result
        (Appends (W.contents writer.old) (W.contents writer.new) (refused_text puts)) }
{
    writeln!(writer, " puts_refused {puts}")
}

/// Writes how much is stored, where it is known, and how many puts were refused for want of memory, to the line's end.
fn write_held<W: Write>(
    writer: &mut W,
    counts: Option<KeyCounts>,
    refused_puts: u64,
) -> io::Result<()>
    ensures { OnOk result (Appends (W.contents writer.old) (W.contents writer.new)
        (held_text counts refused_puts)) }
{
    write_stored(writer, counts)?;
    write_refused(writer, refused_puts)
}

/// Writes the totals, how many connections were accepted, how much is stored where it is known, and how many puts were refused for want of memory, in a line.
pub(crate) fn write_open_totals<W: Write>(
    writer: &mut W,
    totals: Totals,
    connections: u64,
    counts: Option<KeyCounts>,
    refused_puts: u64,
) -> io::Result<()>
    ensures { OnOk result (Appends (W.contents writer.old) (W.contents writer.new)
        (open_line totals connections counts refused_puts)) }
{
    write_commands(writer, totals)?;
    write_open(writer, totals, connections)?;
    write_held(writer, counts, refused_puts)
}

/// Writes and flushes the totals, in a line, and returns whether that could be done; the log tells where it couldn't.
pub(crate) fn tell_totals<L: Log, W: Write>(rt: &L, totals: Totals, writer: &mut W) -> bool
    ensures { result ≡ true → Appends (W.contents writer.old) (W.contents writer.new)
        (totals_line totals) }
{
    match report(totals, writer) {
        Ok(()) => true,
        Err(_) => {
            warn!(rt; "the totals couldn't be written");
            false
        }
    }
}

/// Logs where some vnode's tally counts other than its history has entries, since then the laws of the register don't speak of this run; tells the totals.
pub(crate) fn conclude<L: Log, W: Write>(
    rt: &L,
    totals: Totals,
    count_all: bool,
    writer: &mut W,
) -> bool
    ensures { result ≡ true → Appends (W.contents writer.old) (W.contents writer.new)
        (totals_line totals) }
{
    if !count_all {
        warn!(rt; "the commands that were counted aren't all that the partitions' histories have");
    }
    tell_totals(rt, totals, writer)
}

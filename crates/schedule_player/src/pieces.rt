//! The lines of what is read, piece by piece.

ghost use Rattle.schedule_text.specs.Cuts.{CutsAt};
ghost use Rattle.schedule_player.specs.Progress.{PlaysEnd, PlaysPiece, WritesEnd};

use crate::fault::StepsFault;
use crate::player::Player;
use crate::sending::send;
use pb_frame::flush;
use schedule_text::write_verdict;
use std::alloc::Global;
use std::io::Write;

/// What stands before and behind the first line feed; none where there is none.
fn cut_line(text: &[u8]) -> Option<(&[u8], &[u8])>
    ensures { CutsAt 10 text.now result }
{
    let mut at = 0;
    while at < text.len() {
        if text[at] == b'\n' {
            return Some((&text[..at], &text[at + 1..]));
        }
        at += 1;
    }
    None
}

/// Answers the lines that a piece of the input ends, the first of which begins with `partial`. What stands behind the
/// last of them is `partial` then.
pub(crate) fn play_piece<W: Write>(
    alloc: Global,
    player: &mut Player,
    partial: &mut Vec<u8>,
    piece: &[u8],
    writer: &mut W,
) -> Result<(), StepsFault>
    ensures { PlaysPiece player.old partial.old.items piece.now (W.contents writer.old)
        player.new partial.new.items (W.contents writer.new) result }
{
    let mut rest = piece;
    while let Some((front, behind)) = cut_line(rest) {
        partial.extend_from_slice(front)?;
        player.play_line(alloc, partial.as_slice(), writer)?;
        partial.clear();
        rest = behind;
    }
    partial.extend_from_slice(rest)?;
    Ok(())
}

/// Answers what stands behind the last line feed, if anything does, and writes the line of the verdict.
pub(crate) fn finish<W: Write>(
    alloc: Global,
    player: &mut Player,
    partial: &[u8],
    writer: &mut W,
) -> Result<(), StepsFault>
    ensures { PlaysEnd player.old partial.now
        (W.contents writer.old) (W.contents writer.new) result }
{
    if !partial.is_empty() {
        player.play_line(alloc, partial, writer)?;
    }
    write_end(alloc, player, writer)
}

/// Writes the line of the verdict.
fn write_end<W: Write>(alloc: Global, player: &Player, writer: &mut W) -> Result<(), StepsFault>
    ensures { WritesEnd player.now (W.contents writer.old) (W.contents writer.new) result }
{
    let line = write_verdict(alloc, player.referee.verdict())?;
    send(writer, line.as_slice())?;
    flush(writer)?;
    Ok(())
}

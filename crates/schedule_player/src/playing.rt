//! A schedule from its first read to its end.

ghost use Rattle.std.specs.Prelude.{IfOk};
ghost use Rattle.std.specs.Io.KnownBytes.{IsAtEnd};
ghost use Rattle.schedule_player.specs.Played.{Played, start_on};
ghost use Rattle.schedule_player.specs.Progress.{PlaysAll};

use crate::fault::StepsFault;
use crate::opening::new_player;
use crate::pieces::{finish, play_piece};
use crate::player::Player;
use pb_frame::{MAX_READS, flush};
use ring_map::Ring;
use std::alloc::Global;
use std::io::{ErrorKind, Read, Write};

/// How much is read at a time.
const PIECE: usize = 4096;

/// Plays the schedule that is read from `reader`, and writes to `writer` a line for each of its lines,
/// and the line of the comparison with a plain register, which is `plain not compared` where a partition
/// was diverted. `workers` workers, without a call, begin over the vnodes of `ring`, before any event of
/// this run.
///
/// A read takes up to 4,096 bytes, and each line that has come is answered before the next read, at the
/// latest. The last line may lack its line feed. A read, write or flush that is interrupted is tried
/// again; such a read counts as one. The writer is flushed before each read, at the end, and, as far as
/// that can be done, after a fault.
///
/// Each line is answered before a fault of a later line is returned:
/// - `BadStep(n)`: line n asks for no step, or n is 100,001.
/// - `ReadFailed`: the reader failed, or 4,294,967,296 reads were made and the input hadn't ended.
/// - `WriteFailed`: the writer failed, or took no byte. A beginning of the next line may have been written.
/// - `NoMemory`: memory was refused.
pub fn steps_on<R: Read, W: Write>(
    alloc: Global,
    reader: &mut R,
    writer: &mut W,
    workers: u16,
    ring: Ring,
    run: u32,
) -> Result<(), StepsFault>
    // What was written is what the theorem's world has for the steps that the lines ask for, as far as a
    // fault lets it come.
    ensures played { Played (start_on run workers ring) ring
        (R.remaining reader.old) (R.remaining reader.new)
        (W.contents writer.old) (W.contents writer.new) result }
    ensures all { IfOk result (λ _. IsAtEnd (R.remaining reader.new)) }
{
    let mut player = new_player(alloc, workers, ring, run)?;
    match play(alloc, &mut player, reader, writer) {
        Ok(()) => Ok(()),
        Err(fault) => {
            let _ = flush(writer);
            Err(fault)
        }
    }
}

/// Plays a schedule by a player.
fn play<R: Read, W: Write>(
    alloc: Global,
    player: &mut Player,
    reader: &mut R,
    writer: &mut W,
) -> Result<(), StepsFault>
    ensures played { PlaysAll player.old (R.remaining reader.old) (R.remaining reader.new)
        (W.contents writer.old) (W.contents writer.new) result }
    ensures all { IfOk result (λ _. IsAtEnd (R.remaining reader.new)) }
{
    let mut piece = [0u8; PIECE];
    let mut partial = Vec::new(alloc);
    for _ in 0..MAX_READS {
        flush(writer)?;
        match reader.read(&mut piece) {
            Ok(0) => return finish(alloc, player, partial.as_slice(), writer),
            Ok(n) => play_piece(alloc, player, &mut partial, &piece[..n], writer)?,
            Err(error) => {
                if error.kind() != ErrorKind::Interrupted {
                    return Err(StepsFault::ReadFailed);
                }
            }
        }
    }
    Err(StepsFault::ReadFailed)
}

//! Bytes to a writer, and how often a reader is read.
//!
//! What it means: of the bytes that [`try_write`] and [`write_some`] are given the writer took those
//! that are counted, at least one, from the first on; where they answer anything else, and in a
//! [`flush`], the writer holds what it held. So whoever adds up the counts of one call after another
//! knows at each moment how many of the bytes were written.
//!
//! That is why std's `write_all` isn't used: where it fails, its contract says nothing of what was
//! written, and a session has to say of each reply whether it was written whole, in part or not at all.
//!
//! [`try_write`] and [`try_flush`] tell a writer that would have to wait from one that failed; to
//! [`write_some`] and [`flush`] both are a failure. A call that is interrupted is tried again. What it
//! costs: one call of the writer, but for interruptions, and no memory.
//!
//! ```text
//! write_some(a writer that takes two bytes, "abc") == Ok(2)              // "ab" was written
//! write_some(a writer that is full, "c") == Err(WriteFailed)             // nothing was written
//! try_write(a writer that would have to wait, "c") == Wrote::Blocked     // nothing was written
//! ```

ghost use Rattle.std.specs.Prelude.{◌<◌, ◌≤◌, length, take, IfOk, OnErr};
ghost use Rattle.std.specs.Io.KnownBytes.{Appends, Keeps};
ghost use Rattle.pb_frame.specs.Trying.{WritesSome};

use std::io::{ErrorKind, Write};

/// How often a stream is read by one call at most, 2^32: at that bound a call that reads to the end of
/// its input stops, with a fault.
pub const MAX_READS: u64 = 4_294_967_296;

/// How often in a row one write or one flush may be interrupted. The bound lets the loops end, and is never met.
const MAX_INTERRUPTIONS: u64 = 18_446_744_073_709_551_615;

/// The writer failed, or took no byte.
#[derive(Clone, Copy, Drop)]
pub struct WriteFailed;

/// What came of a write.
#[derive(Clone, Copy, Drop)]
pub enum Wrote {
    /// So many bytes were taken.
    Bytes(usize),
    /// None was taken: the writer would have to wait.
    Blocked,
    /// The writer failed, or took no byte.
    Failed,
}

/// What came of a flush.
#[derive(Clone, Copy, Drop)]
pub enum Flushed {
    /// All that was written is flushed.
    Done,
    /// The writer would have to wait.
    Blocked,
    /// The writer failed.
    Failed,
}

/// Has the writer take some of the bytes. A write that is interrupted is tried again.
#[inline(always)]
pub fn try_write<W: Write>(writer: &mut W, bytes: &[u8]) -> Wrote
    ensures { WritesSome (W.contents writer.old) (W.contents writer.new) bytes.now result }
{
    for _ in 0..MAX_INTERRUPTIONS {
        match writer.write(bytes) {
            Ok(0) => return Wrote::Failed,
            Ok(n) => return Wrote::Bytes(n),
            Err(error) => match error.kind() {
                ErrorKind::Interrupted => {}
                ErrorKind::WouldBlock => return Wrote::Blocked,
                _ => return Wrote::Failed,
            },
        }
    }
    Wrote::Failed
}

/// Has the writer take some of the bytes, at least one. A write that is interrupted is tried again. One
/// that would have to wait has failed.
pub fn write_some<W: Write>(writer: &mut W, bytes: &[u8]) -> Result<usize, WriteFailed>
    // At least one byte was written, and the bytes in front of the count, after all that had been.
    ensures some { IfOk result (λ n. (0 < n) × (n ≤ length bytes.now)) }
    ensures taken { IfOk result (λ n.
        Appends (W.contents writer.old) (W.contents writer.new) (take n bytes.now)) }

    // Nothing was written at a failure.
    ensures none { OnErr result (Keeps (W.contents writer.old) (W.contents writer.new)) }
{
    match try_write(writer, bytes) {
        Wrote::Bytes(n) => Ok(n),
        Wrote::Blocked => Err(WriteFailed),
        Wrote::Failed => Err(WriteFailed),
    }
}

/// Flushes what was written. A flush that is interrupted is tried again.
#[inline(always)]
pub fn try_flush<W: Write>(writer: &mut W) -> Flushed
    // Nothing further is written by it.
    ensures kept { Keeps (W.contents writer.old) (W.contents writer.new) }
{
    for _ in 0..MAX_INTERRUPTIONS {
        match writer.flush() {
            Ok(()) => return Flushed::Done,
            Err(error) => match error.kind() {
                ErrorKind::Interrupted => {}
                ErrorKind::WouldBlock => return Flushed::Blocked,
                _ => return Flushed::Failed,
            },
        }
    }
    Flushed::Failed
}

/// Flushes what was written. A flush that is interrupted is tried again. One that would have to wait has failed.
pub fn flush<W: Write>(writer: &mut W) -> Result<(), WriteFailed>
    // Nothing further is written by it.
    ensures kept { Keeps (W.contents writer.old) (W.contents writer.new) }
{
    match try_flush(writer) {
        Flushed::Done => Ok(()),
        Flushed::Blocked => Err(WriteFailed),
        Flushed::Failed => Err(WriteFailed),
    }
}

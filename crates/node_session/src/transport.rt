//! How a session reads and writes.

ghost use Rattle.node_session.specs.Streams.{Flushes, Holds, SendsSome};

use crate::source::Source;
use crate::target::Target;
use std::io;
use std::io::{ErrorKind, Read, Write};

/// How a session reads from an `R` and writes to a `W`, and what clauses see of them.
pub trait Transport<R, W> {
    ghost use Rattle.std.specs.Prelude.{◌≡◌, ◌<◌, ◌≤◌, [], ◌∷◌, length, IfOk, OnOk};
    ghost use Rattle.std.specs.Io.{ReadsAtMost};
    ghost use Rattle.std.specs.Io.KnownBytes.{IsAtEnd};
    ghost use Rattle.node_session.specs.Streams.{SourceView, TargetView, Gave, Holds, Takes};
    ghost use Rattle.node_session.specs.Streams.{note_of};

    ghost source: { R → SourceView };

    ghost target: { W → TargetView };

    /// Reads once.
    fn receive(reader: &mut R, buf: &mut [u8]) -> io::Result<usize>
        ensures bound { ReadsAtMost result buf.new }
        ensures gave { Gave (source reader.old) (source reader.new) (note_of result buf.new ∷ []) }
        ensures end { IfOk result (λ n. n ≡ 0 → 0 < length buf.new
            → IsAtEnd (source reader.new).unread) };

    /// Has the writer take some of the bytes.
    fn send(writer: &mut W, bytes: &[u8]) -> io::Result<usize>
        ensures bound { IfOk result (λ n. n ≤ length bytes.now) }
        ensures takes { Takes (target writer.old) (target writer.new) result bytes.now };

    /// Has the writer hand on all that it holds back.
    fn flush(writer: &mut W) -> io::Result<()>
        ensures holds { Holds (target writer.old) (target writer.new) }
        ensures all { OnOk result ((target writer.new).waiting ≡ []) };
}

/// By any reader and any writer.
pub struct Plain;

impl<R: Read, W: Write> Transport<R, W> for Plain {
    ghost use Rattle.node_session.specs.Streams.{source_of, target_of};

    ghost source = { λ reader. source_of (R.remaining reader) };

    ghost target = { λ writer. target_of (W.contents writer) };

    #[inline(always)]
    fn receive(reader: &mut R, buf: &mut [u8]) -> io::Result<usize> {
        reader.read(buf)
    }

    #[inline(always)]
    fn send(writer: &mut W, bytes: &[u8]) -> io::Result<usize> {
        writer.write(bytes)
    }

    #[inline(always)]
    fn flush(writer: &mut W) -> io::Result<()> {
        writer.flush()
    }
}

/// By a reader that notes its reads, and a writer that tells what it holds back.
pub struct Noted;

impl<R: Source, W: Target> Transport<R, W> for Noted {
    ghost source = { R.source };

    ghost target = { W.target };

    #[inline(always)]
    fn receive(reader: &mut R, buf: &mut [u8]) -> io::Result<usize> {
        reader.receive(buf)
    }

    #[inline(always)]
    fn send(writer: &mut W, bytes: &[u8]) -> io::Result<usize> {
        writer.send(bytes)
    }

    #[inline(always)]
    fn flush(writer: &mut W) -> io::Result<()> {
        writer.flush()
    }
}

/// How often in a row one call of a writer may be interrupted. The bound lets the loops end, and is never met.
const MAX_INTERRUPTIONS: u64 = 18_446_744_073_709_551_615;

/// What came of bytes for a writer.
#[derive(Clone, Copy, Drop)]
pub(crate) enum Sent {
    /// So many bytes were taken.
    Bytes(usize),
    /// None was taken: the writer would have to wait.
    Blocked,
    /// The writer failed, or took no byte.
    Failed,
}

/// What came of a flush.
#[derive(Clone, Copy, Drop)]
pub(crate) enum Flushed {
    /// Nothing is held back.
    Done,
    /// The writer would have to wait.
    Blocked,
    /// The writer failed.
    Failed,
}

/// Has the writer take some of the bytes. A call that is interrupted is made again.
#[inline(always)]
pub(crate) fn try_send<T: Transport<R, W>, R, W>(writer: &mut W, bytes: &[u8]) -> Sent
    ensures { SendsSome (T.target writer.old) (T.target writer.new) bytes.now result }
{
    for _ in 0..MAX_INTERRUPTIONS {
        match T::send(writer, bytes) {
            Ok(0) => return Sent::Failed,
            Ok(n) => return Sent::Bytes(n),
            Err(error) => match error.kind() {
                ErrorKind::Interrupted => {}
                ErrorKind::WouldBlock => return Sent::Blocked,
                _ => return Sent::Failed,
            },
        }
    }
    Sent::Failed
}

/// Has the writer hand on all that it holds back. A call that is interrupted is made again.
#[inline(always)]
pub(crate) fn try_flush<T: Transport<R, W>, R, W>(writer: &mut W) -> Flushed
    ensures holds { Holds (T.target writer.old) (T.target writer.new) }
    ensures all { Flushes (T.target writer.new) result }
{
    for _ in 0..MAX_INTERRUPTIONS {
        match T::flush(writer) {
            Ok(()) => return Flushed::Done,
            Err(error) => match error.kind() {
                ErrorKind::Interrupted => {}
                ErrorKind::WouldBlock => return Flushed::Blocked,
                _ => return Flushed::Failed,
            },
        }
    }
    Flushed::Failed
}

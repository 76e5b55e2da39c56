//! Readers and writers that cut, fail and are interrupted where a test wants it.

ghost use Rattle.std.specs.Prelude.{◌<◌};

use crate::tests::frames::due;
use std::alloc::Global;
use std::cell::Cell;
use std::io;
use std::io::{ErrorKind, Read, Write};

/// A call that a session makes of its reader or its writer.
#[derive(Clone, Copy, Drop, PartialEq, Eq)]
pub enum Call {
    Read,
    Write,
    Flush,
}

/// Calls that don't go well, by the number of calls of the same kind before them.
#[derive(Clone, Copy, Drop)]
pub enum Trouble {
    /// The call of this number fails, and each after it.
    Fails(Call, u64),
    /// The call of this number alone fails.
    FailsOnce(Call, u64),
    /// Each call whose number this divides is interrupted. 0 divides none.
    Interrupts(Call, u64),
    /// Each of the first so many calls is interrupted.
    Begins(Call, u64),
    /// Each call whose number this divides would have to wait. 0 divides none.
    Blocks(Call, u64),
    /// Each of the first so many calls would have to wait.
    Holds(Call, u64),
    /// A read fails unless just the replies to what was read of the requests before were flushed.
    Awaits,
}

/// How the bytes of a session come and go.
#[derive(Clone, Copy, Drop)]
pub struct Channel<'a> {
    /// The greatest length of the first piece that is read, and of each later one: at least 1.
    pub pieces: (usize, usize),
    /// How many bytes a write takes at most.
    pub most: usize,
    /// How many reads may be made.
    pub reads: u32,
    pub troubles: &'a [Trouble],
}

/// Pieces of eight bytes, and no trouble.
pub const PLAIN: Channel<'static> = Channel {
    pieces: (8, 8),
    most: 64,
    reads: 100,
    troubles: &[],
};

/// What becomes of a call of this number.
pub fn attempt(troubles: &[Trouble], call: Call, number: u64) -> io::Result<()> {
    for trouble in troubles {
        match *trouble {
            Trouble::Fails(kind, first) => {
                if kind == call && number >= first {
                    return Err(io::Error::from(ErrorKind::ConnectionReset));
                }
            }
            Trouble::FailsOnce(kind, one) => {
                if kind == call && number == one {
                    return Err(io::Error::from(ErrorKind::ConnectionReset));
                }
            }
            Trouble::Interrupts(kind, every) => {
                if kind == call && every != 0 && number % every == 0 {
                    return Err(io::Error::from(ErrorKind::Interrupted));
                }
            }
            Trouble::Begins(kind, count) => {
                if kind == call && number < count {
                    return Err(io::Error::from(ErrorKind::Interrupted));
                }
            }
            Trouble::Blocks(kind, every) => {
                if kind == call && every != 0 && number % every == 0 {
                    return Err(io::Error::from(ErrorKind::WouldBlock));
                }
            }
            Trouble::Holds(kind, count) => {
                if kind == call && number < count {
                    return Err(io::Error::from(ErrorKind::WouldBlock));
                }
            }
            Trouble::Awaits => {}
        }
    }
    Ok(())
}

/// Whether a read fails where replies are awaited.
fn awaits(troubles: &[Trouble]) -> bool {
    for trouble in troubles {
        if let Trouble::Awaits = trouble {
            return true;
        }
    }
    false
}

/// Gives bytes in pieces.
#[derive(Drop)]
pub struct Source<'i, 't, 'f> {
    pub left: &'i [u8],
    piece: usize,
    later: usize,
    troubles: &'t [Trouble],
    pub reads: u64,
    /// How many bytes a read has asked for at most.
    pub largest: usize,
    given: u64,
    flushed: &'f Cell<usize>,
    ghost some: { 0 < piece },
    ghost more: { 0 < later },
}

impl<'i, 't, 'f> Source<'i, 't, 'f> {
    /// It is told how many bytes of the replies were flushed.
    pub fn new(
        left: &'i [u8],
        channel: &Channel<'t>,
        flushed: &'f Cell<usize>,
    ) -> Source<'i, 't, 'f> {
        let (piece, later) = channel.pieces;
        Source {
            left,
            piece: piece.max(1),
            later: later.max(1),
            troubles: channel.troubles,
            reads: 0,
            largest: 0,
            given: 0,
            flushed,
        }
    }
}

impl Read for Source<'_, '_, '_> {
    ghost use Rattle.std.specs.Prelude.{Some};

    ghost remaining = { λ r. Some r.left.now };

    fn read(&mut self, buf: &mut [u8]) -> io::Result<usize> {
        let (_, answered) = due(self.given);
        if awaits(self.troubles) && self.flushed.get() != answered {
            return Err(io::Error::from(ErrorKind::ConnectionReset));
        }
        let number = self.reads;
        self.reads = number.saturating_add(1);
        self.largest = self.largest.max(buf.len());
        attempt(self.troubles, Call::Read, number)?;
        let n = self.piece.min(self.left.len()).min(buf.len());
        let (front, left) = self.left.split_at(n);
        buf[..n].copy_from_slice(front);
        self.left = left;
        self.piece = self.later;
        self.given = self.given.saturating_add(n as u64);
        Ok(n)
    }
}

/// Takes some bytes at a time.
#[derive(Drop)]
pub struct Sink<'t, 'f> {
    pub bytes: Vec<u8>,
    most: usize,
    troubles: &'t [Trouble],
    pub writes: u64,
    pub flushes: u64,
    flushed: &'f Cell<usize>,
}

impl<'t, 'f> Sink<'t, 'f> {
    /// It tells how many of its bytes were flushed.
    pub fn new(alloc: Global, channel: &Channel<'t>, flushed: &'f Cell<usize>) -> Sink<'t, 'f> {
        Sink {
            bytes: Vec::new(alloc),
            most: channel.most,
            troubles: channel.troubles,
            writes: 0,
            flushes: 0,
            flushed,
        }
    }
}

impl Write for Sink<'_, '_> {
    ghost use Rattle.std.specs.Prelude.{Some};

    ghost contents = { λ w. Some w.bytes.items };

    fn write(&mut self, buf: &[u8]) -> io::Result<usize> {
        let number = self.writes;
        self.writes = number.saturating_add(1);
        attempt(self.troubles, Call::Write, number)?;
        let n = self.most.min(buf.len());
        self.bytes.extend_from_slice(&buf[..n])?;
        Ok(n)
    }

    fn flush(&mut self) -> io::Result<()> {
        let number = self.flushes;
        self.flushes = number.saturating_add(1);
        attempt(self.troubles, Call::Flush, number)?;
        self.flushed.set(self.bytes.len());
        Ok(())
    }
}

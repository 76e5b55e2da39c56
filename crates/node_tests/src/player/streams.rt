//! A reader that gives bytes one at a time, and a writer that fails where a test wants it.

use std::io;
use std::io::{ErrorKind, Read, Write};

/// Gives bytes one at a time; behind the last of them is its end, or it fails.
#[derive(Drop)]
pub struct Source<'a> {
    pub left: &'a [u8],
    pub fails: bool,
}

impl Read for Source<'_> {
    ghost use Rattle.std.specs.Prelude.{Some};

    ghost remaining = { λ r. Some r.left.now };

    fn read(&mut self, buf: &mut [u8]) -> io::Result<usize> {
        if self.fails && self.left.is_empty() {
            return Err(io::Error::from(ErrorKind::ConnectionReset));
        }
        let n = self.left.len().min(buf.len()).min(1);
        let (front, left) = self.left.split_at(n);
        buf[..n].copy_from_slice(front);
        self.left = left;
        Ok(n)
    }
}

/// Takes three bytes at a time; after so many writes each fails.
#[derive(Drop)]
pub struct Sink {
    pub bytes: Vec<u8>,
    pub writes: u64,
}

impl Write for Sink {
    ghost use Rattle.std.specs.Prelude.{Some};

    ghost contents = { λ w. Some w.bytes.items };

    fn write(&mut self, buf: &[u8]) -> io::Result<usize> {
        if self.writes == 0 {
            return Err(io::Error::from(ErrorKind::ConnectionReset));
        }
        let n = buf.len().min(3);
        self.bytes.extend_from_slice(&buf[..n])?;
        self.writes -= 1;
        Ok(n)
    }

    fn flush(&mut self) -> io::Result<()> {
        Ok(())
    }
}

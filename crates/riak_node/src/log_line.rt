//! A line of the log, made without memory.

ghost use Rattle.std.specs.Prelude.{None};

use std::io;
use std::io::{Cursor, Write};

/// How many bytes a line has at most, its line feed among them. A pipe takes so many at once, or none of them.
const MAX_LINE: usize = 4_096;

/// A line of the log: what was made of it so far, and how much of that is written. What is longer than 4,096 bytes is cut.
#[derive(Drop)]
pub(crate) struct LogLine {
    text: Cursor<[u8; MAX_LINE]>,
    written: usize,
}

impl LogLine {
    /// A line without bytes, which is written.
    pub(crate) fn new() -> LogLine {
        LogLine {
            text: Cursor::new([0; MAX_LINE]),
            written: 0,
        }
    }

    /// Ends it by a line feed, in the place of the last byte where it is full.
    pub(crate) fn end(&mut self) {
        let last = MAX_LINE as u64 - 1;
        if self.text.position() > last {
            self.text.set_position(last);
        }
        let _one = self.text.write(b"\n");
    }

    /// What isn't written yet.
    pub(crate) fn unwritten(&self) -> &[u8] {
        let length = self.text.position() as usize;
        match self.text.get_ref().get(self.written..length) {
            Some(bytes) => bytes,
            None => &[],
        }
    }

    /// Takes note that so many bytes more are written.
    pub(crate) fn note_written(&mut self, count: usize) {
        self.written = self.written.saturating_add(count);
    }
}

impl Write for LogLine {
    ghost contents = { λ _. None };

    fn write(&mut self, buf: &[u8]) -> io::Result<usize> {
        self.text.write(buf)
    }

    fn flush(&mut self) -> io::Result<()> {
        Ok(())
    }
}

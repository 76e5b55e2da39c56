//! Standard input and output as one channel.

use crate::watched_input::WatchedInput;
use std::io;
use std::io::{Read, Write};

/// What an operator writes to standard input, and reads from standard output.
#[derive(Drop)]
pub(crate) struct Terminal<I, O> {
    input: WatchedInput<I>,
    output: O,
}

impl<I, O> Terminal<I, O> {
    /// Of this input and this output.
    pub(crate) fn new(input: WatchedInput<I>, output: O) -> Terminal<I, O> {
        Terminal { input, output }
    }
}

impl<I: Read, O> Read for Terminal<I, O> {
    fn read(&mut self, buf: &mut [u8]) -> io::Result<usize> {
        self.input.read(buf)
    }
}

impl<I, O: Write> Write for Terminal<I, O> {
    ghost contents = { λ terminal. O.contents terminal.output };

    fn write(&mut self, buf: &[u8]) -> io::Result<usize> {
        self.output.write(buf)
    }

    fn flush(&mut self) -> io::Result<()> {
        self.output.flush()
    }
}

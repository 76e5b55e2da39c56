//! An operator's channel that ends with an input.

use crate::watched_input::WatchedInput;
use std::io;
use std::io::{ErrorKind, Read, Write};

/// A channel that has no end of its own, and ends where standard input does, if that is asked for.
#[derive(Drop)]
pub(crate) struct UntilEnd<C, I> {
    channel: C,
    input: Option<WatchedInput<I>>,
}

impl<C, I: Read> UntilEnd<C, I> {
    /// Of this channel, until this input ends, if there is one.
    pub(crate) fn new(channel: C, input: Option<WatchedInput<I>>) -> UntilEnd<C, I> {
        UntilEnd { channel, input }
    }

    /// Whether the input has ended, as far as can be known without waiting.
    fn has_ended(&mut self) -> bool {
        match &mut self.input {
            Some(input) => input.has_ended(),
            None => false,
        }
    }
}

/// The input is looked at where nothing has come over the channel.
impl<C: Read, I: Read> Read for UntilEnd<C, I> {
    fn read(&mut self, buf: &mut [u8]) -> io::Result<usize> {
        match self.channel.read(buf) {
            Err(error) => {
                if error.kind() == ErrorKind::WouldBlock && self.has_ended() {
                    return Ok(0);
                }
                Err(error)
            }
            read => read,
        }
    }
}

impl<C: Write, I> Write for UntilEnd<C, I> {
    ghost contents = { λ it. C.contents it.channel };

    fn write(&mut self, buf: &[u8]) -> io::Result<usize> {
        self.channel.write(buf)
    }

    fn flush(&mut self) -> io::Result<()> {
        self.channel.flush()
    }
}

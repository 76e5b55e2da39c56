//! The connection of an operator.

ghost use Rattle.std.specs.Prelude.{None};

use std::io;
use std::io::{ErrorKind, Read, Write};
use std::net::{Shutdown, TcpStream};
use std::time::Duration;

/// How long a read waits at most, in milliseconds.
pub(crate) const WAIT_MILLIS: u64 = 100;

/// How long an answer waits at most for a client that doesn't read, in milliseconds.
const ANSWER_MILLIS: u64 = 1_000;

/// After how many reads in a row that brought nothing an operator may be let go: a minute at least.
const SILENT_READS: u32 = 600;

/// How often bytes are read that a client may have written by the time when it is closed.
const LATE_READS: u32 = 16;

/// How many such bytes are read at once.
const LATE_LEN: usize = 1_024;

/// Who is connected, if anybody is, and what has come of the line that it writes.
#[derive(Drop)]
pub(crate) struct Operator {
    stream: Option<TcpStream>,
    /// The connection that is over, and isn't closed yet.
    ended: Option<TcpStream>,
    line: LineSoFar,
    silent_reads: u32,
}

/// What has come of a line.
#[derive(Clone, Copy, PartialEq, Eq)]
enum LineSoFar {
    /// Bytes that commands have.
    Plain,
    /// One more, which no command has.
    Foreign,
    /// Such a line, whole: nothing behind it is read.
    Refused,
}

/// Whether commands have this byte: their words are of lower-case letters and digits, with a blank between two.
fn is_of_commands(byte: u8) -> bool {
    byte.is_ascii_lowercase() || byte.is_ascii_digit() || byte == b' ' || byte == b'\r'
}

/// Writes this to a client, as far as that can be done without waiting, and ends the connection.
pub(crate) fn dismiss(stream: &mut TcpStream, told: &[u8]) {
    if stream.set_nonblocking(true).is_err() {
        return;
    }
    let _unheard = stream.write(told);
    let _unheard = stream.shutdown(Shutdown::Write);
    // where a connection is closed with bytes unread, its client may lose what it was told
    let mut late = [0u8; LATE_LEN];
    for _ in 0..LATE_READS {
        match stream.read(&mut late) {
            Ok(count) if count > 0 => {}
            _ => return,
        }
    }
}

impl Operator {
    /// Nobody.
    pub(crate) fn nobody() -> Operator {
        Operator {
            stream: None,
            ended: None,
            line: LineSoFar::Plain,
            silent_reads: 0,
        }
    }

    /// Whether anybody is connected.
    pub(crate) fn is_there(&self) -> bool {
        self.stream.is_some()
    }

    /// Begins to hear a client. Refused where its connection can't be set up, which is closed then.
    pub(crate) fn begin(&mut self, stream: TcpStream) -> io::Result<()> {
        stream.set_nodelay(true)?;
        stream.set_read_timeout(Some(Duration::from_millis(WAIT_MILLIS)))?;
        stream.set_write_timeout(Some(Duration::from_millis(ANSWER_MILLIS)))?;
        *self = Operator::nobody();
        self.stream = Some(stream);
        Ok(())
    }

    /// Nobody is heard any more.
    fn end(&mut self) {
        self.ended = self.stream.take();
    }

    /// The connection that is over, for who closes it. So is that of a client that wrote a line which can't be a command, once that was answered: before the next read.
    pub(crate) fn take_ended(&mut self) -> Option<TcpStream> {
        if self.line == LineSoFar::Refused {
            self.line = LineSoFar::Plain;
            self.end();
        }
        self.ended.take()
    }

    /// Whether a client is connected of which all was read that it wrote, as far as can be known without waiting.
    pub(crate) fn is_quiet(&self) -> bool {
        let Some(stream) = &self.stream else {
            return false;
        };
        if stream.set_nonblocking(true).is_err() {
            return false;
        }
        let found = stream.peek(&mut [0u8; 1]);
        let waits_again = stream.set_nonblocking(false).is_ok();
        match found {
            Ok(_) => false,
            Err(error) => waits_again && error.kind() == ErrorKind::WouldBlock,
        }
    }

    /// Ends the connection of a client that was silent for a minute. Whether it was.
    pub(crate) fn end_if_silent(&mut self) -> bool {
        let is_silent = self.silent_reads >= SILENT_READS;
        if is_silent {
            self.end();
        }
        is_silent
    }

    /// Takes note of a byte that has come.
    fn note(&mut self, byte: u8) {
        self.silent_reads = 0;
        if byte == b'\n' {
            if self.line == LineSoFar::Foreign {
                self.line = LineSoFar::Refused;
            }
        } else if !is_of_commands(byte) {
            self.line = LineSoFar::Foreign;
        }
    }
}

/// A read brings one byte at most, and waits 100 ms at most. Of a client that has gone the connection is over, and the read is as where nothing has come.
impl Read for Operator {
    fn read(&mut self, buf: &mut [u8]) -> io::Result<usize> {
        let (Some(stream), Some(place)) = (&mut self.stream, buf.get_mut(..1)) else {
            return Err(ErrorKind::WouldBlock.into());
        };
        match stream.read(place) {
            Ok(count) if count > 0 => {
                let byte = place[0];
                self.note(byte);
                return Ok(count);
            }
            Ok(_) => {}
            Err(error) => match error.kind() {
                ErrorKind::Interrupted => return Err(error),
                ErrorKind::WouldBlock => {
                    self.silent_reads = self.silent_reads.saturating_add(1);
                    return Err(error);
                }
                _ => {}
            },
        }
        self.end();
        Err(ErrorKind::WouldBlock.into())
    }
}

/// What can't be written to a client within a second is passed over, and its connection is over; so is what is written to nobody.
impl Write for Operator {
    ghost contents = { λ _. None };

    fn write(&mut self, buf: &[u8]) -> io::Result<usize> {
        let Some(stream) = &mut self.stream else {
            return Ok(buf.len());
        };
        match stream.write(buf) {
            Ok(count) => return Ok(count),
            Err(error) => {
                if error.kind() == ErrorKind::Interrupted {
                    return Err(error);
                }
            }
        }
        self.end();
        Ok(buf.len())
    }

    fn flush(&mut self) -> io::Result<()> {
        Ok(())
    }
}

//! Standard output, which a terminal that nobody reads doesn't hold up for ever.

ghost use Rattle.std.specs.Prelude.{None};

use crate::open_again::open_again;
use std::fs::File;
use std::io::{ErrorKind, IsTerminal, Write};
use std::rt::{Clock, Stdout};
use std::sync::Wait;
use std::time::Duration;
use std::{io, thread};

/// The name by which Linux opens what standard output is once more.
const STANDARD_OUTPUT_PATH: &str = "/proc/self/fd/1";

/// How often a terminal without room is tried: for a second.
const TRIES: u32 = 100;

/// The pause between two tries, in milliseconds.
const PAUSE_MILLIS: u64 = 10;

/// Standard output. What a terminal doesn't take within a second is passed over. Anything else is written as ever.
#[derive(Drop)]
pub(crate) struct PatientOutput<R> {
    rt: R,
    stdout: Stdout,
    terminal: Option<File>,
}

/// The terminal that standard output is, where it is one and can be opened once more.
pub(crate) fn terminal_of(rt: &HostRuntime) -> Option<File> {
    if rt.stdout().is_terminal() {
        open_again(rt, STANDARD_OUTPUT_PATH, true)
    } else {
        None
    }
}

impl<R> PatientOutput<R> {
    /// This standard output, which is that terminal, if it is one.
    pub(crate) fn new(rt: R, stdout: Stdout, terminal: Option<File>) -> PatientOutput<R> {
        PatientOutput {
            rt,
            stdout,
            terminal,
        }
    }
}

impl<R: Clock + Wait> Write for &PatientOutput<R> {
    ghost contents = { λ _. None };

    fn write(&mut self, buf: &[u8]) -> io::Result<usize> {
        let Some(file) = &self.terminal else {
            return (&self.stdout).write(buf);
        };
        let mut terminal = file;
        for _ in 0..TRIES {
            match terminal.write(buf) {
                Ok(count) => return Ok(count),
                Err(error) => {
                    if error.kind() != ErrorKind::WouldBlock {
                        return Err(error);
                    }
                }
            }
            thread::sleep(&self.rt, Duration::from_millis(PAUSE_MILLIS));
        }
        Ok(buf.len())
    }

    fn flush(&mut self) -> io::Result<()> {
        Ok(())
    }
}

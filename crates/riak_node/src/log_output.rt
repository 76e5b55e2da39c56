//! Where the lines of the log go.

use crate::log_line::LogLine;
use crate::open_again::open_again;
use crate::watch::{STANDARD_ERROR, Watch};
use mio::Interest;
use std::alloc::Global;
use std::fs::File;
use std::io::{IsTerminal, Write};
use std::rt::Stderr;
use std::time::Duration;

/// The name by which Linux opens what standard error is once more.
const STANDARD_ERROR_PATH: &str = "/proc/self/fd/2";

/// How lines get to standard error.
#[derive(Drop)]
enum Way {
    /// By a descriptor of the log's own, whose writes never wait, of the same terminal or pipe.
    Own(File),
    /// By standard error itself, where it says that it can be written.
    Watched(Watch),
    /// By standard error itself, as a file, for which nobody waits.
    Plain,
}

/// Standard error, which is written without waiting.
#[derive(Drop)]
pub(crate) struct LogOutput {
    stderr: Stderr,
    way: Way,
}

/// How lines get to this standard error: what can be watched is opened once more, or else watched.
fn way_of(rt: &HostRuntime, alloc: Global) -> Way {
    let Some(watch) = Watch::new(rt, alloc, STANDARD_ERROR, Interest::WRITABLE) else {
        return Way::Plain;
    };
    match open_again(rt, STANDARD_ERROR_PATH, rt.stderr().is_terminal()) {
        Some(file) => Way::Own(file),
        None => Way::Watched(watch),
    }
}

impl LogOutput {
    /// The standard error of this runtime.
    pub(crate) fn new(rt: &HostRuntime, alloc: Global) -> LogOutput {
        LogOutput {
            stderr: rt.stderr(),
            way: way_of(rt, alloc),
        }
    }

    /// Writes what isn't written of a line, by one write, as far as that can be done without waiting, and takes note of how much went out. Whether anything did.
    pub(crate) fn write(&mut self, line: &mut LogLine) -> bool {
        let bytes = line.unwritten();
        let written = match &mut self.way {
            Way::Own(file) => file.write(bytes),
            Way::Watched(watch) => {
                if !watch.is_ready(Duration::from_millis(0)) {
                    return false;
                }
                self.stderr.write(bytes)
            }
            Way::Plain => self.stderr.write(bytes),
        };
        let Ok(count) = written else {
            return false;
        };
        line.note_written(count);
        count > 0
    }
}

//! Why serving stopped.

ghost use Rattle.std.specs.Prelude.{◌≡◌, ◌≢◌};
ghost use Rattle.std.specs.IoError.{error_kind};
ghost use Rattle.node_commands.specs.Lines.{serve_fault_text};

use std::error::Error;
use std::io::ErrorKind;
use std::{fmt, io};

/// Why serving stopped before all connections were served. All threads have been joined.
#[derive(Clone, Copy, Debug, Drop, PartialEq, Eq)]
pub enum ServeFault {
    /// The system gave no further connection: the listener failed, or for an hour there was no descriptor or no memory for one.
    /// Those that were accepted before were ended. In words: `accept failed`.
    AcceptFailed,
    /// The system refused a thread, or a descriptor that a thread waits by. No connection was accepted. In words: `no thread`.
    NoThread,
    /// Memory was refused to the run, or for one connection after another, so often that no more were tried. A single connection for which it
    /// is refused is closed, and serving goes on. In words: `no memory`.
    NoMemory,
    /// A total would have passed 18,446,744,073,709,551,615. In words: `book full`.
    BookFull,
}

impl ServeFault {
    /// What went wrong, in words.
    fn text(self) -> &'static str
        ensures { result.now ≡ serve_fault_text self }
    {
        match self {
            ServeFault::AcceptFailed => "accept failed",
            ServeFault::NoThread => "no thread",
            ServeFault::NoMemory => "no memory",
            ServeFault::BookFull => "book full",
        }
    }
}

impl fmt::Display for ServeFault {
    ghost use Rattle.std.specs.Prelude.{Some};
    ghost use Rattle.node_commands.specs.Lines.{serve_fault_text};

    ghost output = { λ fault. Some (serve_fault_text fault) };

    fn fmt<W: fmt::Write>(&self, f: &mut fmt::Formatter<W>) -> fmt::Result {
        f.write_str(self.text())
    }
}

impl Error for ServeFault {}

/// Why what a thread waits with couldn't be made: for want of memory, of the process or of the system, or of a descriptor.
pub(crate) fn setup_fault(error: &io::Error) -> ServeFault
    ensures memory { error_kind error.now ≡ ErrorKind.OutOfMemory →
        result ≡ ServeFault.NoMemory }
    ensures descriptor { error_kind error.now ≢ ErrorKind.OutOfMemory →
        result ≡ ServeFault.NoThread }
{
    if error.kind() == ErrorKind::OutOfMemory {
        ServeFault::NoMemory
    } else {
        ServeFault::NoThread
    }
}

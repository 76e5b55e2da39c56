//! The socket of a connection, and what its worker was told of it.

ghost use Rattle.std.specs.Prelude.{◌≡◌, Some};

use ghost_state::GhostValue;
use std::alloc::Global;
use std::io;
use std::io::ErrorKind;
use std::net::TcpStream;
use std::sync::Arc;
use std::sync::atomic::{AtomicBool, AtomicUsize, Ordering};

/// The socket of a connection, with what its worker was told of it. A read that takes fewer bytes than it has room for has taken all that came, so
/// that the next one would have to wait: it needs no call of the system, until that reports something new. Where it has reported that the
/// client ended its half, or that the connection failed, it won't do so again; and where it has reported urgent data, a read stops before these,
/// whatever has come behind them. Then each read is a call.
#[derive(Drop)]
pub(crate) struct Connection {
    stream: TcpStream,
    /// Whether a read has taken all that came, and nothing was reported since.
    is_drained: AtomicBool,
    /// Whether something was reported behind which each read is a call.
    is_asked: AtomicBool,
    /// Whether a read has met the end of what comes, or a call has failed: then its client sends nothing more.
    is_over: AtomicBool,
    /// How many bytes were read and written in this turn, and how many of them read. Its worker alone counts.
    moved: AtomicUsize,
    received: AtomicUsize,
    /// How many bytes of replies wait because the socket didn't take them. Its worker alone counts.
    waiting: AtomicUsize,
    /// Whether one of its halves was called since its worker asked that last.
    is_called: AtomicBool,
    /// How many connections its listener gave before, for clauses alone.
    pub(crate) number: GhostValue<u64>,
}

/// Adds to a number that this thread alone raises.
fn add(number: &AtomicUsize, bytes: usize) {
    let sum = number.load(Ordering::Relaxed).saturating_add(bytes);
    number.store(sum, Ordering::Relaxed);
}

/// Whether an error says that the same call may go well later.
pub(crate) fn is_of_now(error: &io::Error) -> bool {
    error.kind() == ErrorKind::WouldBlock || error.kind() == ErrorKind::Interrupted
}

/// A connection, which its two halves and its worker's slot have. The socket is closed when all have let go of it.
pub(crate) type Socket = Arc<Connection, Global>;

impl Connection {
    /// Of a stream of which nothing was reported, which is the connection of this number.
    pub(crate) fn new(stream: TcpStream, number: u64) -> Connection
        ensures { result.number ≡ Some number }
    {
        Connection {
            stream,
            is_drained: AtomicBool::new(false),
            is_asked: AtomicBool::new(false),
            is_over: AtomicBool::new(false),
            moved: AtomicUsize::new(0),
            received: AtomicUsize::new(0),
            waiting: AtomicUsize::new(0),
            is_called: AtomicBool::new(false),
            number: GhostValue::some(&number),
        }
    }

    /// The stream.
    pub(crate) fn stream(&self) -> &TcpStream {
        &self.stream
    }

    /// The stream alone.
    pub(crate) fn into_stream(self) -> TcpStream {
        let Connection {
            stream,
            is_drained: _,
            is_asked: _,
            is_over: _,
            moved: _,
            received: _,
            waiting: _,
            is_called: _,
            number: _,
        } = self;
        stream
    }

    /// Whether a read would have to wait.
    pub(crate) fn is_drained(&self) -> bool {
        self.is_drained.load(Ordering::SeqCst)
    }

    /// A read took so many bytes and had room for so many.
    pub(crate) fn note_read(&self, taken: usize, room: usize) {
        if taken < room && !self.is_asked.load(Ordering::SeqCst) {
            self.is_drained.store(true, Ordering::SeqCst);
        }
    }

    /// Something was reported, so that the next read is a call, and perhaps each one from now on.
    pub(crate) fn note_event(&self, is_asked: bool) {
        if is_asked {
            self.is_asked.store(true, Ordering::SeqCst);
        }
        self.is_drained.store(false, Ordering::SeqCst);
    }

    /// Notes what a call of the stream returned, where that is an error or the end of what comes.
    pub(crate) fn note_result(&self, came: &io::Result<usize>) {
        let is_over = match came {
            Ok(taken) => *taken == 0,
            Err(error) => !is_of_now(error),
        };
        if is_over {
            self.is_over.store(true, Ordering::SeqCst);
        }
    }

    /// It begins a turn, in which nothing was read or written yet.
    pub(crate) fn begin_turn(&self) {
        self.moved.store(0, Ordering::Relaxed);
        self.received.store(0, Ordering::Relaxed);
        self.is_called.store(false, Ordering::Relaxed);
    }

    /// One of its halves is called.
    pub(crate) fn note_call(&self) {
        self.is_called.store(true, Ordering::Relaxed);
    }

    /// Whether one of its halves was called since that was asked last, or since its turn began.
    pub(crate) fn take_call(&self) -> bool {
        let is_called = self.is_called.load(Ordering::Relaxed);
        self.is_called.store(false, Ordering::Relaxed);
        is_called
    }

    /// So many bytes of replies are handed to the system: they wait until it has taken the last of them.
    pub(crate) fn note_handed(&self, bytes: usize) {
        let most = self.waiting.load(Ordering::Relaxed).max(bytes);
        self.waiting.store(most, Ordering::Relaxed);
        self.note_call();
    }

    /// The system took so many bytes of those that were left of them.
    pub(crate) fn note_taken(&self, taken: usize, left: usize) {
        add(&self.moved, taken);
        if taken == left {
            self.waiting.store(0, Ordering::Relaxed);
        }
    }

    /// How many bytes of replies wait. A reply counts whole until the last of it is taken.
    pub(crate) fn waiting(&self) -> usize {
        self.waiting.load(Ordering::Relaxed)
    }

    /// So many bytes were read.
    pub(crate) fn note_received(&self, bytes: usize) {
        add(&self.moved, bytes);
        add(&self.received, bytes);
    }

    /// How many bytes were read and written in this turn.
    pub(crate) fn moved(&self) -> usize {
        self.moved.load(Ordering::Relaxed)
    }

    /// How many bytes were read in this turn.
    pub(crate) fn received(&self) -> usize {
        self.received.load(Ordering::Relaxed)
    }

    /// Whether its client sends nothing more.
    pub(crate) fn is_over(&self) -> bool {
        self.is_over.load(Ordering::SeqCst)
    }
}

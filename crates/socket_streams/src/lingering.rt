//! Sockets of connections that have ended while their clients may still be sending.

use crate::connection::{Socket, is_of_now};
use crate::worker_clock::WorkerClock;
use std::alloc::Global;
use std::io::Read;
use std::net::Shutdown;
use std::rt::Clock;
use worker_pool::MAX_READ_LEN;

/// How long such a socket is kept at most, in milliseconds.
const LINGER_MILLIS: u64 = 2000;

/// How long it is kept at most where the worker waits for nothing else.
const LAST_LINGER_MILLIS: u64 = 1000;

/// Behind how long a silence of its client it is closed then: longer than a round trip between continents takes.
const SILENT_MILLIS: u64 = 300;

/// How many such sockets a worker keeps at most.
const MAX_SOCKETS: usize = 64;

/// How often they are looked at, in milliseconds.
pub(crate) const LOOK_MILLIS: u64 = 20;

/// How many reads of a socket are made at a look at most.
const MAX_LINGER_READS: u32 = 32;

/// A socket whose side to the client is shut down.
#[derive(Drop)]
struct Lingerer {
    socket: Socket,
    /// Since when it is kept.
    began: u64,
    /// When a look found last that something had come.
    heard: u64,
}

impl Lingerer {
    /// Passes over what has come, at this time. Whether it is kept further.
    fn is_kept(&mut self, now: u64, is_last: bool) -> bool {
        match pass_over(&self.socket) {
            Passed::End => return false,
            Passed::Bytes => self.heard = now,
            Passed::Nothing => {}
        }
        let kept = now.saturating_sub(self.began);
        if !is_last {
            return kept < LINGER_MILLIS;
        }
        kept < LAST_LINGER_MILLIS && now.saturating_sub(self.heard) < SILENT_MILLIS
    }
}

/// What was passed over.
#[derive(Clone, Copy, Drop)]
enum Passed {
    /// Something had come.
    Bytes,
    /// Nothing had come.
    Nothing,
    /// The client has ended, or the connection has failed.
    End,
}

/// The sockets of a worker whose connections have ended though their clients may still be sending.
///
/// What a client sends to a socket that is closed is answered by a reset, by which it may lose what it hasn't read yet: the last replies, and
/// the error that says why its connection ended. So the side to the client is shut down, behind these replies, and what comes is read and
/// passed over until the client ends too, for two seconds at most. Only so many sockets are kept, and looked at only so often, that clients who never end take
/// little of the worker's time.
///
/// Where the worker is to take no more connections, its end may wait for these sockets alone. Then one is kept for as long as its client needs to see the
/// end that was sent to it, and no longer. What the system took for a client it goes on sending when the socket is closed, whether its client reads soon or
/// not, unless something comes from that client: so one whose client was silent for 300 ms is closed, and all that it sent before it saw the end has
/// come by then. A client that goes on sending all the same is passed over for a second in all.
#[derive(Drop)]
pub(crate) struct Lingering {
    clock: WorkerClock,
    sockets: Vec<Lingerer>,
    next_look: u64,
}

/// Passes over what has come.
fn pass_over(socket: &Socket) -> Passed {
    let mut stream = socket.stream();
    let mut piece = [0u8; MAX_READ_LEN];
    let mut passed = Passed::Nothing;
    for _ in 0..MAX_LINGER_READS {
        match stream.read(&mut piece) {
            Ok(0) => return Passed::End,
            Ok(_) => passed = Passed::Bytes,
            Err(error) if is_of_now(&error) => return passed,
            Err(_) => return Passed::End,
        }
    }
    passed
}

impl Lingering {
    /// There is none.
    pub(crate) fn new<X: Clock>(rt: &X, alloc: Global) -> Lingering {
        Lingering {
            clock: WorkerClock::new(rt, None),
            sockets: Vec::new(alloc),
            next_look: 0,
        }
    }

    /// Whether there is none.
    pub(crate) fn is_empty(&self) -> bool {
        self.sockets.is_empty()
    }

    /// Shuts down the side to the client, and keeps the socket from now on. Where 64 are kept, and where memory is refused, it is closed.
    pub(crate) fn add<X: Clock>(&mut self, rt: &X, socket: Socket) {
        if socket.stream().shutdown(Shutdown::Write).is_err() || self.sockets.len() >= MAX_SOCKETS {
            return;
        }
        if self.sockets.reserve(1).is_ok() {
            let now = self.clock.now(rt);
            self.sockets.push_reserved(Lingerer {
                socket,
                began: now,
                heard: now,
            });
        }
    }

    /// Passes over what has come, where it is time to look, and closes the sockets whose clients have ended, or that were kept for as long as
    /// may be. `is_last` where the worker is to take no more connections.
    pub(crate) fn pass_over<X: Clock>(&mut self, rt: &X, is_last: bool) {
        let now = self.clock.now(rt);
        if now < self.next_look {
            return;
        }
        self.next_look = now.saturating_add(LOOK_MILLIS);
        self.sockets.retain_mut(|one| one.is_kept(now, is_last));
    }
}

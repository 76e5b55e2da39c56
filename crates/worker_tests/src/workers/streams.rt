//! Readers and writers of the tests, and what they count.
use node_session::{Source, Target};
use std::alloc::Global;
use std::io;
use std::io::{ErrorKind, Read, Write};
use std::sync::Arc;
use std::sync::atomic::{AtomicU64, Ordering};
use worker_pool::{EndRead, EndWrite};

/// What came of the jobs of a run, as its streams and its sinks count it. A run that fails lets these go, and leaves the counts.
#[derive(Drop)]
pub struct Counts {
    /// The writes to all writers, each of a reply where they take all bytes at once.
    pub writes: AtomicU64,
    /// The writers that held just the bytes that they were to hold, once their sessions were over.
    pub well_ended: AtomicU64,
    /// The sessions that workers have begun, and very many where a further one couldn't be made.
    pub begun: AtomicU64,
    /// The ends that were told.
    pub ends: AtomicU64,
    /// The refusals that were told.
    pub refusals: AtomicU64,
}

impl Counts {
    /// Nothing came yet.
    pub fn new() -> Counts {
        Counts {
            writes: AtomicU64::new(0),
            well_ended: AtomicU64::new(0),
            begun: AtomicU64::new(0),
            ends: AtomicU64::new(0),
            refusals: AtomicU64::new(0),
        }
    }

    /// Whether so many sessions have begun or were refused, or no further one can be made.
    pub fn are_begun(&self, sessions: u64) -> bool {
        let refused = self.refusals.load(Ordering::SeqCst);
        self.begun.load(Ordering::SeqCst).saturating_add(refused) >= sessions
    }

    /// Whether so many ends, each behind its writer's own, and so many refusals were told.
    pub fn are_told(&self, (ends, refusals): (u64, u64)) -> bool {
        self.well_ended.load(Ordering::SeqCst) == ends
            && self.ends.load(Ordering::SeqCst) == ends
            && self.refusals.load(Ordering::SeqCst) == refusals
    }
}

/// Gives these bytes, so many at a time.
#[derive(Drop)]
pub struct Input {
    pub rest: &'static [u8],
    pub most: usize,
    pub ended: u32,
}

impl Read for Input {
    ghost use Rattle.std.specs.Prelude.{Some};

    ghost remaining = { λ r. Some r.rest.now };

    fn read(&mut self, buf: &mut [u8]) -> io::Result<usize> {
        let n = self.rest.len().min(buf.len()).min(self.most.max(1));
        let (front, rest) = self.rest.split_at(n);
        buf[..n].copy_from_slice(front);
        self.rest = rest;
        Ok(n)
    }
}

impl Source for Input {
    ghost use Rattle.std.specs.Prelude.{Some};
    ghost use Rattle.node_session.specs.Streams.{source_of};

    ghost source = { λ input. source_of (Some input.rest.now) };

    fn receive(&mut self, buf: &mut [u8]) -> io::Result<usize> {
        self.read(buf)
    }
}

impl EndRead for Input {
    fn ended(&mut self) {
        self.ended = self.ended.saturating_add(1);
    }
}

/// Takes all bytes, so many at a time, and raises a number that others see, or fails at each write.
#[derive(Drop)]
pub struct Output {
    pub held: Vec<u8>,
    pub most: usize,
    pub fails: bool,
    /// Which of the lines of a test it is of.
    pub line: usize,
    /// What it is to hold when it is ended.
    pub wanted: &'static [u8],
    pub ended: u32,
    pub counts: Arc<Counts, Global>,
}

impl Output {
    /// Counts it, if it holds just the bytes that it is to hold when it is ended.
    pub fn count_end(&self) {
        if self.held.as_slice() == self.wanted {
            self.counts.well_ended.fetch_add(1, Ordering::SeqCst);
        }
    }
}

impl Write for Output {
    ghost use Rattle.std.specs.Prelude.{Some};

    ghost contents = { λ w. Some w.held.items };

    fn write(&mut self, buf: &[u8]) -> io::Result<usize> {
        if self.fails {
            return Err(io::Error::from(ErrorKind::ConnectionReset));
        }
        let n = buf.len().min(self.most.max(1));
        self.held.extend_from_slice(&buf[..n])?;
        self.counts.writes.fetch_add(1, Ordering::SeqCst);
        Ok(n)
    }

    fn flush(&mut self) -> io::Result<()> {
        Ok(())
    }
}

impl Target for Output {
    ghost use Rattle.std.specs.Prelude.{Some};
    ghost use Rattle.node_session.specs.Streams.{target_of};

    ghost target = { λ output. target_of (Some output.held.items) };

    fn send(&mut self, bytes: &[u8]) -> io::Result<usize> {
        self.write(bytes)
    }

    fn flush(&mut self) -> io::Result<()> {
        Write::flush(self)
    }
}

impl EndWrite for Output {
    fn ended(&mut self) {
        self.count_end();
        self.ended = self.ended.saturating_add(1);
    }
}

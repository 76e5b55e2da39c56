//! What a server has done by now.

use crate::refused_puts::RefusedPuts;
use log::Log;
use std::alloc::{AllocError, Global};
use std::rt::Clock;
use std::sync::atomic::{AtomicU64, Ordering};
use std::sync::{Arc, Wait};
use worker_pool::LiveCounts;

/// Raises a number that this thread alone raises.
fn raise(number: &AtomicU64, amount: u64) {
    let raised = number.load(Ordering::Relaxed).wrapping_add(amount);
    number.store(raised, Ordering::Relaxed);
}

/// What a worker has done by now, through all runs. The worker alone counts. Every thread may read the numbers at any
/// time, each as it is then, without a lock: those of its sessions after each answer, the others after each turn.
#[derive(Drop)]
pub struct WorkerCounts {
    sessions: LiveCounts,
    turns: AtomicU64,
    received: AtomicU64,
    sent: AtomicU64,
    open: AtomicU64,
    ended: AtomicU64,
}

impl WorkerCounts {
    /// Nothing was done.
    fn new(alloc: Global) -> Result<WorkerCounts, AllocError> {
        Ok(WorkerCounts {
            sessions: LiveCounts::new(alloc)?,
            turns: AtomicU64::new(0),
            received: AtomicU64::new(0),
            sent: AtomicU64::new(0),
            open: AtomicU64::new(0),
            ended: AtomicU64::new(0),
        })
    }

    /// What its sessions have done.
    pub fn sessions(&self) -> &LiveCounts {
        &self.sessions
    }

    /// How many turns its connections had.
    pub fn turns(&self) -> u64 {
        self.turns.load(Ordering::Relaxed)
    }

    /// How many bytes of requests its connections have read.
    fn received(&self) -> u64 {
        self.received.load(Ordering::Relaxed)
    }

    /// How many bytes of replies the system has taken from its connections.
    fn sent(&self) -> u64 {
        self.sent.load(Ordering::Relaxed)
    }

    /// How many connections it has open. None while the server is paused.
    pub fn open(&self) -> u64 {
        self.open.load(Ordering::Relaxed)
    }

    /// How many of its connections have ended, or were closed for want of memory.
    fn ended(&self) -> u64 {
        self.ended.load(Ordering::Relaxed)
    }

    /// A connection had a turn, in which it read and sent so many bytes.
    pub(crate) fn count_turn(&self, received: usize, sent: usize) {
        raise(&self.turns, 1);
        raise(&self.received, received as u64);
        raise(&self.sent, sent as u64);
    }

    /// A connection begins, or goes on behind a pause.
    pub(crate) fn count_begin(&self) {
        raise(&self.open, 1);
    }

    /// A connection has ended, or rests.
    pub(crate) fn count_end(&self, rests: bool) {
        let open = self.open.load(Ordering::Relaxed).saturating_sub(1);
        self.open.store(open, Ordering::Relaxed);
        if !rests {
            raise(&self.ended, 1);
        }
    }

    /// A connection was closed for want of memory before it had begun.
    pub(crate) fn count_refused(&self) {
        raise(&self.ended, 1);
    }
}

/// What workers have done by now, together.
#[derive(Clone, Copy)]
pub struct Work {
    /// How many turns their connections had.
    pub turns: u64,
    /// How many bytes of requests were read.
    pub received: u64,
    /// How many bytes of replies the system has taken.
    pub sent: u64,
    /// How many connections have ended, or were closed for want of memory.
    pub ended: u64,
}

/// What a server has done by now, through all its runs. Each number is raised by one thread. Every thread may read it
/// at any time, as it is then, without a lock.
#[derive(Drop)]
pub struct ServerCounts {
    workers: Vec<Arc<WorkerCounts, Global>>,
    accepted: AtomicU64,
    turned_away: AtomicU64,
    refused_puts: RefusedPuts,
}

impl ServerCounts {
    /// Of a server with so many workers, which has done nothing.
    pub fn new(alloc: Global, workers: u16) -> Result<Arc<ServerCounts, Global>, AllocError> {
        let mut counts = Vec::with_capacity(alloc, usize::from(workers))?;
        for _ in 0..workers {
            counts.push(Arc::new(alloc, WorkerCounts::new(alloc)?)?)?;
        }
        let counts = ServerCounts {
            workers: counts,
            accepted: AtomicU64::new(0),
            turned_away: AtomicU64::new(0),
            refused_puts: RefusedPuts::new(),
        };
        Ok(Arc::new(alloc, counts)?)
    }

    /// The numbers of each worker, in their order.
    pub fn workers(&self) -> &[Arc<WorkerCounts, Global>] {
        self.workers.as_slice()
    }

    /// What all workers have done.
    pub fn work(&self) -> Work {
        let mut sum = Work {
            turns: 0,
            received: 0,
            sent: 0,
            ended: 0,
        };
        for worker in &self.workers {
            sum.turns = sum.turns.saturating_add(worker.turns());
            sum.received = sum.received.saturating_add(worker.received());
            sum.sent = sum.sent.saturating_add(worker.sent());
            sum.ended = sum.ended.saturating_add(worker.ended());
        }
        sum
    }

    /// How many connections were accepted.
    pub fn accepted(&self) -> u64 {
        self.accepted.load(Ordering::Relaxed)
    }

    /// How many of them were closed for want of memory before they came to a worker.
    pub fn turned_away(&self) -> u64 {
        self.turned_away.load(Ordering::Relaxed)
    }

    /// The numbers of the worker in this place. Refused where there are too many copies of them, or there is none.
    pub(crate) fn share_worker(
        &self,
        place: usize,
    ) -> Result<Arc<WorkerCounts, Global>, AllocError> {
        match self.workers.get(place) {
            Some(counts) => Arc::try_clone(counts),
            None => Err(AllocError),
        }
    }

    /// A connection was accepted.
    pub(crate) fn count_accepted(&self) {
        raise(&self.accepted, 1);
    }

    /// One that was accepted is closed for want of memory.
    pub(crate) fn count_turned_away(&self) {
        raise(&self.turned_away, 1);
    }

    /// Puts were refused for want of memory since this was said last, which the log says once a minute at most.
    pub(crate) fn note_refused_puts<X: Clock + Log + Wait>(&self, rt: &X) {
        self.refused_puts.note(rt);
    }
}

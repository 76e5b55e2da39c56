//! What a worker shares with those who wake it, and with its sink.

use crate::server_counts::WorkerCounts;
use crate::slots::Slot;
use job_pool::Wakeup;
use mio::Waker;
use std::alloc::Global;
use std::mem;
use std::sync::atomic::{AtomicBool, AtomicUsize, Ordering};
use std::sync::{Arc, Mutex, Wait};

/// As how many connections beside itself one counts that had a turn lately, where it is asked which worker has the least to do.
const ACTIVE_WEIGHT: usize = 3;

/// What a worker's readiness, its sink, its wakeup and the signals of its run share.
#[derive(Drop)]
pub(crate) struct WorkerSignals {
    waker: Waker,
    /// How many connections the worker has open or is to take.
    load: AtomicUsize,
    /// How many of them had a turn lately, as the worker says when it waits.
    active: AtomicUsize,
    /// How many tasks it is to take.
    due: AtomicUsize,
    /// Whether all tasks are in the queue, so that it takes them until it has a stop mark.
    is_closing: AtomicBool,
    /// Whether it waits, or is about to, and nobody has woken it since.
    is_waiting: AtomicBool,
    /// Whether the connection that has its turn ends where it would have to wait.
    is_cutting: AtomicBool,
    /// Whether the connection that had its turn last rests, and its slot doesn't know yet.
    is_resting: AtomicBool,
    /// No slot, with room for as many as the worker may need next.
    wider: Mutex<Vec<Slot>>,
    /// What the worker has done by now.
    counts: Arc<WorkerCounts, Global>,
}

impl WorkerSignals {
    /// The worker has nothing and is to take nothing. This waker ends its wait, and there is counted what it does.
    pub(crate) fn new(
        alloc: Global,
        waker: Waker,
        counts: Arc<WorkerCounts, Global>,
    ) -> WorkerSignals {
        WorkerSignals {
            waker,
            load: AtomicUsize::new(0),
            active: AtomicUsize::new(0),
            due: AtomicUsize::new(0),
            is_closing: AtomicBool::new(false),
            is_waiting: AtomicBool::new(false),
            is_cutting: AtomicBool::new(false),
            is_resting: AtomicBool::new(false),
            wider: Mutex::new(Vec::new(alloc)),
            counts,
        }
    }

    /// What the worker has done by now.
    pub(crate) fn counts(&self) -> &WorkerCounts {
        &self.counts
    }

    /// Wakes the worker where it waits. The system refuses that only where a worker was woken so often, and hasn't waited since, that it
    /// can't be counted: it is awake then.
    pub(crate) fn wake(&self) {
        if self.is_waiting.swap(false, Ordering::SeqCst) {
            let _is_awake = self.waker.wake().is_err();
        }
    }

    /// The worker waits from now on, or no longer.
    pub(crate) fn set_waiting(&self, is_waiting: bool) {
        self.is_waiting.store(is_waiting, Ordering::SeqCst);
    }

    /// Whether the worker is to take a task.
    pub(crate) fn has_due(&self) -> bool {
        self.due.load(Ordering::SeqCst) > 0
    }

    /// Whether the worker is to take a task, which it then takes.
    pub(crate) fn take_due(&self) -> bool {
        let has_due = self.has_due();
        if has_due {
            self.due.fetch_sub(1, Ordering::SeqCst);
        }
        has_due
    }

    /// Whether all tasks are in the queue.
    pub(crate) fn is_closing(&self) -> bool {
        self.is_closing.load(Ordering::SeqCst)
    }

    /// A connection of the worker's has ended, or rests, or was refused.
    pub(crate) fn count_end(&self) {
        self.load.fetch_sub(1, Ordering::SeqCst);
    }

    /// Says how many of the worker's connections had a turn lately.
    pub(crate) fn set_active(&self, active: usize) {
        self.active.store(active, Ordering::Relaxed);
    }

    /// Says whether the connection that has its turn next ends where it would have to wait.
    pub(crate) fn set_cutting(&self, is_cutting: bool) {
        self.is_cutting.store(is_cutting, Ordering::SeqCst);
    }

    /// Whether the connection that had its turn last was to end where it would have to wait.
    pub(crate) fn is_cutting(&self) -> bool {
        self.is_cutting.load(Ordering::SeqCst)
    }

    /// The connection that had its turn last rests.
    pub(crate) fn note_rest(&self) {
        self.is_resting.store(true, Ordering::SeqCst);
    }

    /// Whether the connection that had its turn last rests, which is asked once behind that turn.
    pub(crate) fn take_rest(&self) -> bool {
        self.is_resting.swap(false, Ordering::SeqCst)
    }

    /// Puts room for slots here.
    pub(crate) fn put_wider<X: Wait>(&self, rt: &X, slots: Vec<Slot>) {
        *self.wider.lock(rt) = slots;
    }

    /// Takes the room for slots that was put here; one without room where there is none.
    pub(crate) fn take_wider<X: Wait>(&self, rt: &X, alloc: Global) -> Vec<Slot> {
        mem::replace(&mut *self.wider.lock(rt), Vec::new(alloc))
    }
}

/// What the leading thread wakes a worker with. It writes to the worker's descriptor only where the worker waits.
#[derive(Drop)]
pub struct SocketWakeup {
    pub(crate) worker_signals: Arc<WorkerSignals, Global>,
}

impl Wakeup for SocketWakeup {
    /// One for each connection, and three more for each that had a turn lately.
    fn load(&self) -> usize {
        let open = self.worker_signals.load.load(Ordering::SeqCst);
        let active = self.worker_signals.active.load(Ordering::Relaxed).min(open);
        open.saturating_add(active.saturating_mul(ACTIVE_WEIGHT))
    }

    fn ring(&self) {
        self.worker_signals.load.fetch_add(1, Ordering::SeqCst);
        self.worker_signals.due.fetch_add(1, Ordering::SeqCst);
        self.worker_signals.wake();
    }

    fn close(&self) {
        self.worker_signals.is_closing.store(true, Ordering::SeqCst);
        self.worker_signals.wake();
    }
}

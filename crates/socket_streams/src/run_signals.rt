//! How a run is ended, and how it is paused.

use crate::pause::{PAUSE_MILLIS, SETTLE_MICROS};
use crate::server_counts::ServerCounts;
use crate::worker_signals::WorkerSignals;
use mio::Waker;
use std::alloc::Global;
use std::io::{ErrorKind, Read};
use std::rt::Clock;
use std::sync::atomic::{AtomicBool, AtomicUsize, Ordering};
use std::sync::{Arc, Wait};
use std::thread;
use std::time::Duration;
use worker_pool::Pause;

/// Says when all threads of a run were started, and ends it from outside, in one of two ways. Once it is raised the accepting thread accepts no more,
/// and the workers end their connections. Once it pauses the run the accepting thread accepts no more either, and the workers lay their sessions
/// down, each between two of its steps: for that it is given to the run as its pause too. Where both were said sessions rest. Each is for good, so
/// each run has signals of its own.
///
/// ```text
/// let (waits, stop) = new_run_waits(&rt, alloc, 4, &counts)?;
/// serve(&rt, alloc, &shared, &mut sessions, serving_setups, &Open, &stop, &mut seen)   // until another thread says one of these:
/// stop.raise()                                                                // it returns once each session was ended
/// stop.pause()                                                                // it returns with the sessions, which rest
/// ```
#[derive(Drop)]
pub struct RunSignals {
    accepting: Waker,
    all_worker_signals: Vec<Arc<WorkerSignals, Global>>,
    is_started: AtomicBool,
    /// How many workers have what they keep for themselves.
    settled: AtomicUsize,
    is_ready: AtomicBool,
    is_stopping: AtomicBool,
    is_pausing: AtomicBool,
    /// Whether memory is kept back by which the run can be started again.
    is_pausable: AtomicBool,
    /// Whether serving has ended.
    is_over: AtomicBool,
    /// What the server has done by now.
    counts: Arc<ServerCounts, Global>,
}

impl RunSignals {
    /// No thread was started, it isn't raised, and doesn't pause the run. This waker ends the accepting thread's wait, and these signals those of the workers.
    pub(crate) fn new(
        accepting: Waker,
        all_worker_signals: Vec<Arc<WorkerSignals, Global>>,
        counts: Arc<ServerCounts, Global>,
    ) -> RunSignals {
        RunSignals {
            accepting,
            all_worker_signals,
            is_started: AtomicBool::new(false),
            settled: AtomicUsize::new(0),
            is_ready: AtomicBool::new(false),
            is_stopping: AtomicBool::new(false),
            is_pausing: AtomicBool::new(false),
            is_pausable: AtomicBool::new(false),
            is_over: AtomicBool::new(false),
            counts,
        }
    }

    /// What the server has done by now.
    pub(crate) fn counts(&self) -> &ServerCounts {
        &self.counts
    }

    /// Whether all threads were started.
    pub(crate) fn is_started(&self) -> bool {
        self.is_started.load(Ordering::SeqCst)
    }

    /// All threads were started, which the workers are told once.
    pub(crate) fn start(&self) {
        if !self.is_started.swap(true, Ordering::SeqCst) {
            self.wake_workers();
        }
    }

    /// One more worker has what it keeps for itself, or as much of it as there is memory for.
    pub(crate) fn settle(&self) {
        self.settled.fetch_add(1, Ordering::SeqCst);
    }

    /// Waits until each worker has what it keeps for itself, which they take once all threads were started, or as much of it as there is memory for.
    pub(crate) fn wait_for_workers<X: Clock + Wait>(&self, rt: &X) {
        for _ in rt.forever() {
            if self.settled.load(Ordering::SeqCst) >= self.all_worker_signals.len() {
                return;
            }
            thread::sleep(rt, Duration::from_micros(SETTLE_MICROS));
        }
        unreachable!()
    }

    /// The workers are settled, and the accepting thread has what it keeps back.
    pub(crate) fn set_ready(&self) {
        self.is_ready.store(true, Ordering::SeqCst);
    }

    /// Whether the workers and the accepting thread have what they keep back, or as much of it as there is memory for. In a run that keeps memory back for a
    /// pause a thread beside them takes none before: an allocator gives what earlier threads have left to those that ask first.
    pub fn is_ready(&self) -> bool {
        self.is_ready.load(Ordering::SeqCst)
    }

    /// Wakes the workers.
    fn wake_workers(&self) {
        for worker_signals in &self.all_worker_signals {
            worker_signals.wake();
        }
    }

    /// Wakes the accepting thread and the workers.
    fn wake_all(&self) {
        // the counter behind a waker takes every wake while it is open, as it is for as long as the waker lives
        let _taken = self.accepting.wake();
        self.wake_workers();
    }

    /// Whether it was raised.
    pub fn is_stopping(&self) -> bool {
        self.is_stopping.load(Ordering::SeqCst)
    }

    /// Raises it, for good.
    pub fn raise(&self) {
        self.is_stopping.store(true, Ordering::SeqCst);
        self.wake_all();
    }

    /// Whether it pauses the run.
    pub fn is_pausing(&self) -> bool {
        self.is_pausing.load(Ordering::SeqCst)
    }

    /// Pauses the run, for good: no more connections are accepted, and each session rests once it has its next turn, which it has soon.
    pub fn pause(&self) {
        self.is_pausing.store(true, Ordering::SeqCst);
        self.wake_all();
    }

    /// Whether memory is kept back by which the run can be started again.
    pub(crate) fn set_pausable(&self, is_pausable: bool) {
        self.is_pausable.store(is_pausable, Ordering::SeqCst);
    }

    /// Pauses the run where memory is kept back by which it can be started again. False where there is too little of it, or its limits keep none back
    /// ([`Limits`](crate::Limits)): the accepting thread tries to make what lacks then.
    pub fn pause_if_kept(&self) -> bool {
        if self.is_pausable.load(Ordering::SeqCst) {
            self.pause();
            return true;
        }
        let _taken = self.accepting.wake();
        false
    }

    /// Whether no more connections are to be accepted.
    pub(crate) fn ends_accepting(&self) -> bool {
        self.is_stopping() || self.is_pausing()
    }

    /// Serving has ended, and the input is read no further.
    pub fn close(&self) {
        self.is_over.store(true, Ordering::SeqCst);
    }

    /// Raises it at the end of an input, or where its reader fails. An input that has nothing yet and says so (`WouldBlock`) is read again,
    /// every 10 ms, until serving has ended. It takes no memory.
    pub fn raise_after<X: Clock + Wait, I: Read>(&self, rt: &X, input: &mut I) {
        let mut passed = [0u8; 64];
        for _ in rt.forever() {
            match input.read(&mut passed) {
                Ok(0) => break,
                Ok(_) => {}
                Err(error) => match error.kind() {
                    ErrorKind::Interrupted => {}
                    ErrorKind::WouldBlock => thread::sleep(rt, Duration::from_millis(PAUSE_MILLIS)),
                    _ => break,
                },
            }
            if self.is_over.load(Ordering::SeqCst) {
                return;
            }
        }
        self.raise();
    }
}

impl Pause for RunSignals {
    ghost can_be_raised = { Unit {0} };

    fn is_raised(&self) -> bool {
        self.is_pausing()
    }
}

//! The time of a worker, and when it looks for silent connections.

use std::rt::Clock;
use std::time::{Duration, Instant};

/// How often a worker looks for connections that were silent for too long, in milliseconds.
const SWEEP_MILLIS: u64 = 1000;

/// What a worker does about the time.
#[derive(Drop)]
pub(crate) struct WorkerClock {
    /// When the worker began, where there is a clock.
    started: Option<Instant>,
    /// How long a connection may be silent, in milliseconds, if it may not be for ever.
    idle_millis: Option<u64>,
    /// When silent connections are looked for next, in milliseconds since the worker began.
    next_sweep: u64,
}

/// What time it is for silent connections.
#[derive(Clone, Copy)]
pub(crate) struct Tick {
    /// The time, in milliseconds since the worker began.
    pub(crate) now: u64,
    /// A connection that was silent since then is to be closed.
    pub(crate) closes_before: u64,
    /// Whether silent connections are to be looked for.
    pub(crate) is_sweep: bool,
}

impl WorkerClock {
    /// It begins now. A connection may be silent for so many seconds, if there is a limit.
    pub(crate) fn new<X: Clock>(rt: &X, idle_seconds: Option<u32>) -> WorkerClock {
        WorkerClock {
            started: Instant::now(rt).ok(),
            idle_millis: idle_seconds.map(|seconds| u64::from(seconds).saturating_mul(1000)),
            next_sweep: 0,
        }
    }

    /// The time since the worker began, in milliseconds; 0 where the clock fails.
    pub(crate) fn now<X: Clock>(&self, rt: &X) -> u64 {
        let Some(started) = self.started else {
            return 0;
        };
        match started.elapsed(rt) {
            Ok(elapsed) => elapsed
                .as_secs()
                .saturating_mul(1000)
                .saturating_add(u64::from(elapsed.subsec_millis())),
            Err(_) => 0,
        }
    }

    /// What time it is for silent connections; None where they may be silent for ever.
    pub(crate) fn tick<X: Clock>(&mut self, rt: &X) -> Option<Tick> {
        let idle_millis = self.idle_millis?;
        let now = self.now(rt);
        let is_sweep = now >= self.next_sweep;
        if is_sweep {
            self.next_sweep = now.saturating_add(SWEEP_MILLIS);
        }
        Some(Tick {
            now,
            closes_before: now.saturating_sub(idle_millis),
            is_sweep,
        })
    }

    /// How long may be waited at most for what is ready next, if there is such a time.
    pub(crate) fn limit(&self) -> Option<Duration> {
        match self.idle_millis {
            Some(_) => Some(Duration::from_millis(SWEEP_MILLIS)),
            None => None,
        }
    }
}

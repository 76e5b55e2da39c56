//! How long a worker waits for its connections, and how.

use crate::waits::Waits;
use std::rt::Clock;
use std::time::{Duration, Instant};
use std::{io, thread};

/// How many looks a worker makes at most before it sleeps, should the clock stand still.
const MAX_LOOKS: u32 = 10_000;

/// How a worker waits for its connections.
#[derive(Clone, Copy)]
pub struct Waiting {
    /// After how many seconds without a byte a connection is closed, if it is.
    pub idle_seconds: Option<u32>,
    /// For how many microseconds a worker spins before it sleeps, if it does.
    pub spin_micros: Option<u32>,
    /// While replies of so many bytes wait in all connections together, no connection begins a further one, if there is such a number.
    pub replies_bytes: Option<u64>,
}

/// Whether a worker spins before it sleeps: looks for what is ready, and yields its processor to other threads between two looks.
///
/// A thread that sleeps goes on some 10 to 50 microseconds after it is woken, later than a short request is served. So where the last wait was
/// no longer than it may spin, the next one begins awake, and sleeps once it has spun for so long. Behind a longer wait it sleeps at once: so a
/// worker to whom nothing comes takes no processor's time.
#[derive(Drop)]
pub(crate) struct Spin {
    /// For how many microseconds it may spin, if it may.
    micros: Option<u32>,
    /// Whether the last wait was no longer than that.
    was_short: bool,
}

/// Whether no more than so many microseconds have gone by. Not so where the clock fails.
pub(crate) fn is_within<X: Clock>(rt: &X, began: &Instant, micros: u32) -> bool {
    match began.elapsed(rt) {
        Ok(elapsed) => elapsed.as_micros() <= u128::from(micros),
        Err(_) => false,
    }
}

/// Looks until something is ready, or for so many microseconds. Whether something is.
fn look<X: Clock>(rt: &X, waits: &mut Waits, began: &Instant, micros: u32) -> io::Result<bool> {
    for _ in 0..MAX_LOOKS {
        let now = Some(Duration::from_millis(0));
        waits.poll.poll(&mut waits.events, now)?;
        if !waits.events.is_empty() {
            return Ok(true);
        }
        if !is_within(rt, began, micros) {
            return Ok(false);
        }
        thread::yield_now();
    }
    Ok(false)
}

impl Spin {
    /// It has waited for nothing yet, and may spin for so many microseconds, if it may.
    pub(crate) fn new(micros: Option<u32>) -> Spin {
        Spin {
            micros,
            was_short: false,
        }
    }

    /// Waits as `Poll::poll` does, for so long at most if there is a limit, and for as long as it spins beside it.
    pub(crate) fn wait<X: Clock>(
        &mut self,
        rt: &X,
        waits: &mut Waits,
        limit: Option<Duration>,
    ) -> io::Result<()> {
        let Some(micros) = self.micros else {
            return waits.poll.poll(&mut waits.events, limit);
        };
        let Ok(began) = Instant::now(rt) else {
            return waits.poll.poll(&mut waits.events, limit);
        };
        if self.was_short && look(rt, waits, &began, micros)? {
            return Ok(());
        }
        let waited = waits.poll.poll(&mut waits.events, limit);
        self.was_short = is_within(rt, &began, micros);
        waited
    }
}

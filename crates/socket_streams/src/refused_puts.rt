//! When puts were refused for want of memory, and when the log said so.

use crate::server_counts::WorkerCounts;
use log::{Log, warn};
use std::rt::Clock;
use std::sync::{Mutex, Wait};
use std::time::Instant;

/// For how long the log doesn't say again that puts are refused, in seconds. Behind so long a time without one, what
/// comes is new.
const QUIET_SECONDS: u64 = 60;

/// How many puts a worker had refused for want of memory when that was looked at last.
#[derive(Drop)]
pub(crate) struct RefusalWatch {
    seen: u64,
}

impl RefusalWatch {
    /// Those that it has refused by now are seen.
    pub(crate) fn new(counts: &WorkerCounts) -> RefusalWatch {
        RefusalWatch {
            seen: counts.sessions().answers().refused_puts(),
        }
    }

    /// Whether it has refused more by now, which are seen then.
    pub(crate) fn has_more(&mut self, counts: &WorkerCounts) -> bool {
        let before = self.seen;
        self.seen = counts.sessions().answers().refused_puts();
        self.seen != before
    }
}

/// Since when puts were refused, when one was last, and when the log said so last.
#[derive(Clone, Copy, Drop)]
struct Spell {
    since: Instant,
    last: Instant,
    told: Instant,
}

/// When puts were refused for want of memory. All workers of a server share it.
#[derive(Drop)]
pub(crate) struct RefusedPuts {
    spell: Mutex<Option<Spell>>,
}

/// How many seconds have gone by since then; 0 where the clock fails.
fn seconds_since<X: Clock>(rt: &X, then: Instant) -> u64 {
    match then.elapsed(rt) {
        Ok(elapsed) => elapsed.as_secs(),
        Err(_) => 0,
    }
}

impl RefusedPuts {
    /// None was refused.
    pub(crate) fn new() -> RefusedPuts {
        RefusedPuts {
            spell: Mutex::new(None),
        }
    }

    /// Some were refused by now. The log says so once a minute at most, and since when.
    pub(crate) fn note<X: Clock + Log + Wait>(&self, rt: &X) {
        let Ok(now) = Instant::now(rt) else {
            return;
        };
        let mut spell = self.spell.lock(rt);
        *spell = Some(next_spell(rt, *spell, now));
    }
}

/// What is known once some were refused at this time, of which the log is told where that is due.
fn next_spell<X: Clock + Log>(rt: &X, spell: Option<Spell>, now: Instant) -> Spell {
    let Some(spell) = spell else {
        return begin_spell(rt, now);
    };
    if seconds_since(rt, spell.last) >= QUIET_SECONDS {
        return begin_spell(rt, now);
    }
    let mut told = spell.told;
    if seconds_since(rt, told) >= QUIET_SECONDS {
        let seconds = seconds_since(rt, spell.since);
        warn!(rt; "puts are refused for want of memory, for {seconds} seconds now");
        told = now;
    }
    Spell {
        since: spell.since,
        last: now,
        told,
    }
}

/// The first is refused at this time.
fn begin_spell<X: Log>(rt: &X, now: Instant) -> Spell {
    warn!(rt; "puts are refused for want of memory");
    Spell {
        since: now,
        last: now,
        told: now,
    }
}

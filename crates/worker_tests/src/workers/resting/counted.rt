//! Whether each session that a run was given was told, or rests, or was refused, once.
use crate::workers::kept_ends::KeptEnds;
use crate::workers::script::Line;
use crate::workers::served::{times_refused, times_told};
use crate::workers::sessions::TestServed;

/// How often a session over the line of this number rests.
fn times_resting(served: &TestServed, number: usize) -> usize {
    let mut times = 0usize;
    for worker in &served.resting {
        for session in worker {
            if session.writer().line == number {
                times = times.saturating_add(1);
            }
        }
    }
    times
}

/// How often these sinks were told that the session of this number rests.
fn times_rested(sinks: &[KeptEnds], number: usize) -> usize {
    let mut times = 0usize;
    for sink in sinks {
        for rests in &sink.rests {
            if *rests == number {
                times = times.saturating_add(1);
            }
        }
    }
    times
}

/// Whether the session that was given as this one, over this line, was told, or rests, or was refused, once. What rests was told as such.
fn is_left_once(served: &TestServed, number: usize, at: usize, line: &Line) -> bool {
    let sinks = served.sinks.as_slice();
    let rests = times_resting(served, at);
    let told = times_told(sinks, number, line);
    let refused = times_refused(sinks, number);
    times_rested(sinks, number) == rests && told.saturating_add(rests).saturating_add(refused) == 1
}

/// Whether each of these sessions was left once, as it was given.
fn are_left_once(served: &TestServed, order: &[usize], lines: &[Line]) -> bool {
    for (number, at) in order.iter().enumerate() {
        match lines.get(*at) {
            Some(line) if is_left_once(served, number, *at, line) => {}
            _ => return false,
        }
    }
    true
}

/// How many sessions were told, how many rest, and how many were refused.
fn sums_of(served: &TestServed) -> (u64, u64, u64) {
    let mut told = 0u64;
    let mut rest = 0u64;
    let mut refused = 0u64;
    for sink in &served.sinks {
        told = told.saturating_add(sink.ends.len() as u64);
        refused = refused.saturating_add(sink.refused.len() as u64);
    }
    for worker in &served.resting {
        rest = rest.saturating_add(worker.len() as u64);
    }
    (told, rest, refused)
}

/// Whether what a run left that was given these is counted right: each was left once, as it was given.
pub fn is_counted(served: &TestServed, order: &[usize], lines: &[Line]) -> bool {
    let (told, rest, refused) = sums_of(served);
    served.accepted == order.len() as u64
        && served.refused == refused
        && served.accepted == told.saturating_add(rest).saturating_add(refused)
        && are_left_once(served, order, lines)
}

//! A schedule that is played whole, on a ring of one partition, in run 1.

use ring_map::Ring;
use schedule_player::{StepsFault, steps_on};
use std::alloc::Global;

/// What a schedule comes to.
pub type Played = Result<(), StepsFault>;

fn play(alloc: Global, schedule: &[u8], workers: u16, written: &mut Vec<u8>) -> Option<Played> {
    let ring = Ring::new(1)?;
    let mut rest = schedule;
    Some(steps_on(alloc, &mut rest, written, workers, ring, 1))
}

/// Whether memory was refused; then the writer may be the one that it was refused to.
fn lacked_memory(played: Option<Played>) -> bool {
    matches!(
        played,
        Some(Err(StepsFault::NoMemory | StepsFault::WriteFailed))
    )
}

/// Plays, and a second time where memory was refused.
pub fn play_again(
    alloc: Global,
    schedule: &[u8],
    workers: u16,
    written: &mut Vec<u8>,
) -> Option<Played> {
    let played = play(alloc, schedule, workers, written);
    if !lacked_memory(played) {
        return played;
    }
    written.clear();
    play(alloc, schedule, workers, written)
}

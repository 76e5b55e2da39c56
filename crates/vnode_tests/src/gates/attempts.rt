//! Attempts at a gate, which win or fail at once.

use rw_gate::{Gate, Kept};

/// What may be attempted once.
#[derive(Clone, Copy)]
pub(crate) enum Attempt {
    Read,
    Write,
    Mark,
    Unmark,
}

/// Whether an attempt succeeds.
pub(crate) fn succeeds<S: Kept>(gate: &Gate<S>, attempt: Attempt) -> bool {
    match attempt {
        Attempt::Read => match gate.try_read() {
            Some(right) => {
                right.release();
                true
            }
            None => false,
        },
        Attempt::Write => match gate.try_write() {
            Some(right) => {
                right.release();
                true
            }
            None => false,
        },
        Attempt::Mark => gate.mark(),
        Attempt::Unmark => gate.unmark(),
    }
}

/// Whether each attempt beside a reader succeeds or not, as it says.
pub(crate) fn are_so_beside_reader<S: Kept>(gate: &Gate<S>, attempts: &[(Attempt, bool)]) -> bool {
    let Some(right) = gate.try_read() else {
        return false;
    };
    let mut are_so = true;
    for (attempt, is_let) in attempts {
        are_so = succeeds(gate, *attempt) == *is_let && are_so;
    }
    right.release();
    are_so
}

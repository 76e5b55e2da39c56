//! The answers of the register.

use crate::numbers::Numbers;

/// The answer to a command.
#[derive(Drop)]
pub enum Told {
    /// A put or a delete was refused, and nothing changed: [`MATCH_FOUND`](crate::MATCH_FOUND),
    /// [`MODIFIED`](crate::MODIFIED), [`NOT_FOUND`](crate::NOT_FOUND) or
    /// [`TOO_MANY_SIBLINGS`](crate::TOO_MANY_SIBLINGS).
    Refused(u8),
    /// The siblings by their sequence numbers, newest first, where a tombstone's number has no value;
    /// the position whose context is shown; whether the key is unchanged, so that nothing else is shown;
    /// whether contents are shown bare.
    Shown {
        siblings: Numbers,
        place: Option<u64>,
        unchanged: bool,
        bare: bool,
    },
    /// A put that shows nothing, or a delete.
    Done,
    /// The key was dead and is forgotten.
    Reaped,
    /// The key wasn't dead, and stays as it is.
    Kept,
}

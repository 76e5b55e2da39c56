//! How long a server pauses before it tries again.

/// The pause, in milliseconds, before a connection is accepted again for which there was no descriptor or no memory, before an input is
/// read again that had nothing yet, and after a wait that failed.
pub const PAUSE_MILLIS: u64 = 10;

/// The pause, in microseconds, before it is looked again whether the workers have what they keep for themselves.
pub(crate) const SETTLE_MICROS: u64 = 100;

//! Why a call of a clock is refused.

use thiserror::Error;

/// Why a call of a clock is refused; the clock means what it meant.
#[derive(Clone, Copy, Debug, Drop, Error, PartialEq, Eq)]
pub enum ClockFault {
    /// The clock would know more than 64 actors.
    #[error("too many actors")]
    ActorsFull,
    /// The actor's counter is 18,446,744,073,709,551,615.
    #[error("counter used up")]
    CounterFull,
    /// A growth was refused, and neither of the others holds.
    #[error("no memory")]
    NoMemory,
}

/// A call that was refused, with what it was given.
#[derive(Debug, Drop)]
pub struct Rejected<T> {
    /// Why.
    pub fault: ClockFault,
    /// What the call was given.
    pub value: T,
}

//! What is counted.

/// One of the five numbers of a node.
#[derive(Clone, Copy)]
pub enum Quantity {
    /// Gets that were answered.
    Gets,
    /// Puts that were accepted.
    Puts,
    /// Deletes that were accepted: the tombstones that they wrote.
    Deletes,
    /// Refusals: the error replies to gets, puts and deletes.
    Refusals,
    /// Dead keys that were reaped.
    Reaps,
}

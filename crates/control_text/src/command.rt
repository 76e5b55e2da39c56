//! A command.

/// What an operator asks a serving node for.
#[derive(Clone, Copy, Drop, PartialEq, Eq)]
pub enum OperatorCommand {
    /// What the commands are: `help`.
    Help,
    /// How many commands were served, and how much is stored: `totals`.
    Totals,
    /// What was done by now, without a pause: `stats`.
    Stats,
    /// Which partitions are diverted: `diverted`.
    Diverted,
    /// That the partition of this index, from 0, is diverted to a fallback: `divert P`.
    Divert(u16),
    /// That keys are copied back from the fallback of a partition: `copy P B`.
    Copy {
        /// The partition's index, from 0.
        partition: u16,
        /// How many keys are copied at most: 1 or more.
        budget: u32,
    },
    /// That the partition of this index, from 0, goes back to its primary: `return P`.
    Return(u16),
    /// That the node stops: `stop`.
    Stop,
}

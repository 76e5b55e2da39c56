//! How long the connections of a listener are accepted.
ghost use Rattle.std.specs.Prelude.{◌≡◌, false};

use crate::run_signals::RunSignals;

/// How many connections of a listener are accepted, and how often that is tried.
#[derive(Clone, Copy)]
pub struct Limits {
    /// How many the run has accepted before, behind whose numbers theirs begin.
    pub before: u64,
    /// How many are accepted at most, if there is such a number.
    pub connections: Option<u64>,
    /// Whether one that is closed for want of memory is one of those that were accepted.
    pub counts_refused: bool,
    /// Whether the run's signals may end accepting before: they are raised, or pause the run.
    pub can_stop: bool,
    /// Whether a MiB is kept back between connections, by which the run can be started again behind a pause.
    pub keeps_back: bool,
    /// Behind how many tries in a row that gave no connection none is made any more, if there is such a number.
    pub tries: Option<u32>,
}

impl Limits {
    /// Whether the run's signals end accepting before as many were accepted as are to be.
    pub(crate) fn are_cut(&self, stop: &RunSignals) -> bool
        ensures { self.now.can_stop ≡ false → result ≡ false }
    {
        self.can_stop && stop.ends_accepting()
    }

    /// Whether no further try is made behind so many in a row that gave no connection.
    pub(crate) fn are_tried(&self, failures: u32) -> bool {
        match self.tries {
            Some(most) => failures >= most,
            None => false,
        }
    }
}

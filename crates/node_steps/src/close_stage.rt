//! How far a closer is.

ghost use Rattle.std.specs.Prelude.{◌≡◌};
ghost use Rattle.node_steps.specs.Steps.{close_site};
ghost use Rattle.node_steps.specs.Running.{close_stage_of};

use crate::hand::Hand;
use crate::planned_close::PlannedClose;

/// How far a worker is that closes a fallback.
#[derive(Drop)]
pub(crate) enum CloseStage {
    /// It is outside.
    Asked,
    /// It has the fallback's state in its hand.
    Taken(Box<Hand>),
    /// It is inside the primary too, as a reader, and has not looked.
    Inside(Box<Hand>),
    /// It has planned the close.
    Looked(PlannedClose),
    /// It is done, with the fallback's state in its hand, and inside the primary or not any more.
    Done(Box<Hand>, bool),
}

impl CloseStage {
    /// The site of the closer's next step: the primary's, or the one that it closes.
    pub(crate) fn site(&self, own: usize, from: usize) -> usize
        ensures { result ≡ close_site own from (close_stage_of self.now) }
    {
        match self {
            CloseStage::Asked => from,
            CloseStage::Taken(_) => own,
            CloseStage::Inside(_) => own,
            CloseStage::Looked(_) => from,
            CloseStage::Done(_, true) => own,
            CloseStage::Done(_, false) => from,
        }
    }
}

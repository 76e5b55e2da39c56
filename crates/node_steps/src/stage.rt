//! How far a copier is.

ghost use Rattle.std.specs.Prelude.{◌≡◌};
ghost use Rattle.node_steps.specs.Steps.{copy_site};
ghost use Rattle.node_steps.specs.Running.{stage_of};

use crate::copied_clock::CopiedClock;
use crate::hand::Hand;
use crate::planned_copy::PlannedCopy;

/// How far a worker is that copies a key back.
#[derive(Drop)]
pub(crate) enum Stage {
    /// It is outside.
    Asked,
    /// It is inside the fallback as a reader, and has not looked.
    Inside,
    /// It has read the key's clock there.
    Looked(Box<CopiedClock>),
    /// It has the primary's state in its hand too.
    Taken(Box<CopiedClock>, Box<Hand>),
    /// It has planned the copy.
    Planned(PlannedCopy),
    /// It is done, and is inside the fallback, with the primary's state in its hand or without it.
    Done(Option<Box<Hand>>),
}

impl Stage {
    /// The site of the copier's next step: the one that it copies to, or the one that it copies from.
    pub(crate) fn site(&self, own: usize, from: usize) -> usize
        ensures { result ≡ copy_site own from (stage_of self.now) }
    {
        match self {
            Stage::Asked | Stage::Inside => from,
            Stage::Looked(_) => own,
            Stage::Taken(_, _) => own,
            Stage::Planned(_) => own,
            Stage::Done(None) => from,
            Stage::Done(Some(_)) => own,
        }
    }
}

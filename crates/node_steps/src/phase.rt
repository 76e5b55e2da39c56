//! What a worker is about.

ghost use Rattle.std.specs.Prelude.{◌≡◌};
ghost use Rattle.node_steps.specs.Steps.{is_about, site_of, Enters};
ghost use Rattle.node_steps.specs.Running.{phase_of};

use crate::call::Call;
use crate::close_stage::CloseStage;
use crate::hand::Hand;
use crate::stage::Stage;
use riak_msgs::{GetAsk, Key};

/// What a worker is about; its call goes to the site of the index. Where two sites are named, the first
/// is its partition's own.
#[derive(Drop)]
pub(crate) enum Phase {
    /// It has no call.
    Idle,
    /// It has a call, and is outside.
    Asked(usize, Call),
    /// It is inside as a reader, and has not looked.
    Reading(usize, Box<GetAsk>),
    /// It is inside with the state in its hand.
    Holding(usize, Call, Box<Hand>),
    /// Its call is answered, and it is inside as a reader, or with the state in its hand.
    Done(usize, Option<Box<Hand>>),
    /// It has found the vnode at the second site closed, and is inside there as a reader, or with the
    /// state in its hand; then its call is for the first.
    Turned(usize, usize, Call, Option<Box<Hand>>),
    /// It copies a key to the site of the first index from that of the second.
    Copying(usize, usize, Box<Key>, Stage),
    /// It closes the vnode at the second site, where all is copied to the first.
    Closing(usize, usize, CloseStage),
}

impl Phase {
    /// The index of the site of the worker's next step.
    pub(crate) fn index(&self) -> Option<usize>
        ensures { result ≡ site_of Enters (phase_of self.now) }
    {
        match self {
            Phase::Idle => None,
            Phase::Asked(index, _) => Some(*index),
            Phase::Reading(index, _) => Some(*index),
            Phase::Holding(index, _, _) => Some(*index),
            Phase::Done(index, _) => Some(*index),
            Phase::Turned(_, index, _, _) => Some(*index),
            Phase::Copying(own, from, _, stage) => Some(stage.site(*own, *from)),
            Phase::Closing(own, from, stage) => Some(stage.site(*own, *from)),
        }
    }

    /// Whether the worker has a call at the site of this index, or is turned away from there or to there,
    /// or copies or closes from it or to it.
    pub(crate) fn is_about(&self, site: usize) -> bool
        ensures { result ≡ is_about site (phase_of self.now) }
    {
        match self {
            Phase::Idle => false,
            Phase::Asked(index, _) => *index == site,
            Phase::Reading(index, _) => *index == site,
            Phase::Holding(index, _, _) => *index == site,
            Phase::Done(index, _) => *index == site,
            Phase::Turned(own, index, _, _) => *own == site || *index == site,
            Phase::Copying(own, from, _, _) => *own == site || *from == site,
            Phase::Closing(own, from, _) => *own == site || *from == site,
        }
    }
}

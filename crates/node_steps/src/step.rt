//! A step of a running world.

ghost use Rattle.std.specs.Prelude.{◌≡◌, IfOk};

use crate::copies::copy_of_request;
use riak_msgs::{Key, Request};
use std::alloc::{AllocError, Global};

/// What happens next: a worker does something, or a partition is diverted. Workers are numbered from 1,
/// partitions from 0.
#[derive(Drop)]
pub enum Step {
    /// The worker gets a call: what a client asks of the partition of this index.
    Ask(u16, u16, Request),
    /// The worker gets a call: a reap of a key of the partition of this index.
    Reap(u16, u16, Key),
    /// It enters its call's vnode as a reader.
    Enter(u16),
    /// It leaves as a reader.
    Leave(u16),
    /// It marks the word, so that no reader enters.
    Mark(u16),
    /// It takes the mark away.
    Unmark(u16),
    /// It takes the state into its hand.
    Take(u16),
    /// It puts the state back in place.
    Put(u16),
    /// It looks at the state that it is shown.
    Look(u16),
    /// It publishes what it planned at its look.
    Publish(u16),
    /// The partition of this index is diverted to a fallback.
    Divert(u16),
    /// The worker gets a copy to do: of a key of the partition of this index, from its fallback to its primary.
    Copy(u16, u16, Key),
    /// The worker is to close the fallback of the partition of this index.
    Close(u16, u16),
}

impl Step {
    /// A copy, with that of its request or key.
    pub fn clone(&self, alloc: Global) -> Result<Step, AllocError>
        ensures { IfOk result (λ copy. copy ≡ self.now) }
    {
        match self {
            Step::Ask(worker, index, request) => {
                let request = copy_of_request(alloc, request)?;
                Ok(Step::Ask(*worker, *index, request))
            }
            Step::Reap(worker, index, key) => { Ok(Step::Reap(*worker, *index, key.clone(alloc)?)) }
            Step::Enter(worker) => Ok(Step::Enter(*worker)),
            Step::Leave(worker) => Ok(Step::Leave(*worker)),
            Step::Mark(worker) => Ok(Step::Mark(*worker)),
            Step::Unmark(worker) => Ok(Step::Unmark(*worker)),
            Step::Take(worker) => Ok(Step::Take(*worker)),
            Step::Put(worker) => Ok(Step::Put(*worker)),
            Step::Look(worker) => Ok(Step::Look(*worker)),
            Step::Publish(worker) => Ok(Step::Publish(*worker)),
            Step::Divert(index) => Ok(Step::Divert(*index)),
            Step::Copy(worker, index, key) => { Ok(Step::Copy(*worker, *index, key.clone(alloc)?)) }
            Step::Close(worker, index) => Ok(Step::Close(*worker, *index)),
        }
    }
}

/// What a worker that has a call does.
#[derive(Clone, Copy, Drop)]
pub(crate) enum Act {
    Enter,
    Leave,
    Mark,
    Unmark,
    Take,
    Put,
    Look,
    Publish,
}

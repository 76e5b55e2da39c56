//! The clock of a key, as a copier has read it at the fallback.

ghost use Rattle.std.specs.Prelude.{◌≡◌, IfOk};
ghost use Rattle.vnode_machine.specs.Copying.{IsStoredClock};

use dvv_set::Clock;
use riak_msgs::Content;
use std::alloc::{AllocError, Global};
use std::marker::Model;
use vnode_core::{CloneSibling, OwnActor, StoredClock};

/// The clock that a key had at a fallback, as its copier keeps it. Contracts see what it knows and has live.
pub(crate) struct CopiedClock {
    stored: StoredClock,
}

/// One call at each place where one is let go.
impl Drop for CopiedClock {
    fn drop(self) {
        let CopiedClock { stored: _stored } = self;
    }
}

impl Model for CopiedClock {
    ghost use Rattle.std.specs.Prelude.{Option};
    ghost use Rattle.riak_msgs.specs.Contents.{Content};
    ghost use Rattle.dvv_set.specs.Clocks.{DotState};
    ghost use Rattle.vnode_machine.specs.Copying.{IsStoredClock};

    ghost Value = { DotState (Option Content) };

    ghost view = { λ c. c.stored.clock.meaning };

    ghost invariant = { λ c. IsStoredClock c.stored.clock.meaning };
}

impl CopiedClock {
    /// A copy of a clock.
    pub(crate) fn of(
        alloc: Global,
        clock: &Clock<Option<Content>>,
    ) -> Result<CopiedClock, AllocError>
        requires { IsStoredClock clock.now.meaning }
        ensures { IfOk result (λ copied. copied ≡ clock.now.meaning) }
    {
        let clock = clock.try_clone::<CloneSibling>(alloc)?;
        let actor = OwnActor::none();
        Ok(CopiedClock {
            stored: StoredClock { actor, clock },
        })
    }

    /// The clock, as it is stored for a key.
    pub(crate) fn stored(&self) -> &StoredClock
        ensures meaning { result.now.clock.meaning ≡ self.now }
        ensures form { IsStoredClock self.now }
    {
        &self.stored
    }
}

//! What refuses a put for which there is no memory.

ghost use Rattle.std.specs.Prelude.{None, IfOk, IfErr, IfNone, IfSome, IsSome};
ghost use Rattle.vnode_core.specs.declared.ask.Ask.TheVariants.{Put};
ghost use Rattle.vnode_core.specs.Plans.{AcceptsOpen, Refuses, RefusesOpen};

use crate::checks::Writer;
use crate::refusal::Refusal;
use crate::vnode::VnodeOver;
use actor_epoch::Context;
use clock_store::{ClockStore, stored_in};
use riak_msgs::PutAsk;

impl<S: ClockStore> VnodeOver<S> {
    /// What refuses a put for which there is no memory: the first of the checks of
    /// [`prepare`](Self::prepare) that holds, and `NoMemory` where none does. None where the vnode is
    /// closed. It takes no memory.
    pub fn refusal_without_memory(&self, put: &PutAsk) -> Option<Refusal>
        ensures refused { IfSome result (Refuses self.now.state (Put put.now)) }
        ensures closed { IfNone result (IsSome self.now.state.closed) }
    {
        if self.closed.is_some() {
            return None;
        }
        Some(self.first_refusal(put))
    }

    /// The same of a vnode that isn't closed.
    fn first_refusal(&self, put: &PutAsk) -> Refusal
        ensures { RefusesOpen self.now.state (Put put.now) result }
    {
        match self.check_only(put) {
            Ok(_writer) => Refusal::NoMemory,
            Err(refusal) => refusal,
        }
    }

    /// Checks a put, and makes no room for it; returns who would make it.
    fn check_only(&self, put: &PutAsk) -> Result<Writer, Refusal>
        ensures ok { IfOk result (λ writer. AcceptsOpen self.now.state (Put put.now)) }
        ensures err { IfErr result (λ refusal. RefusesOpen self.now.state (Put put.now) refusal) }
    {
        let context = Context::given(put.context.as_slice())?;
        let found = self.store.find(&put.key);
        let writer = self.check_put(put, stored_in(found), context.as_ref())?;
        Ok(writer)
    }
}

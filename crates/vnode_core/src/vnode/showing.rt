//! What a vnode shows of a key, where that lies.

ghost use Rattle.std.specs.Prelude.{◌≡◌};
ghost use Rattle.sibling_register.specs.Answers.{AskGet};
ghost use Rattle.vnode_machine.specs.Asks.{get_command};
ghost use Rattle.vnode_machine.specs.Step.{outcome, Answered, GetDone};
ghost use Rattle.riak_msgs.specs.Requests.{unconditional_get};
ghost use Rattle.vnode_core.specs.Plans.{Registers};

use crate::stored_reply::StoredReply;
use crate::vnode::VnodeOver;
use clock_store::{ClockStore, ShortKey};
use riak_msgs::GetAsk;

impl<S: ClockStore> VnodeOver<S> {
    /// Shows a key as [`VnodeOver::get`] does, but where its siblings and its clock lie: nothing is
    /// copied. It takes no memory and is never refused.
    #[inline(always)]
    pub fn show(&self, ask: &GetAsk) -> StoredReply<'_>
        ensures shows { outcome self.now.state (AskGet (get_command ask.now))
            ≡ Answered (GetDone result) }
        ensures register { Registers self.now.state (AskGet (get_command ask.now))
            (Answered (GetDone result)) }
    {
        match self.store.get(&ask.key) {
            None => StoredReply::nothing(),
            Some(key) => StoredReply::of(key, ask),
        }
    }

    /// Shows the key of short names as `show` does of a get without options, where no whole key lies
    /// anywhere. It takes no memory and is never refused.
    #[inline(always)]
    pub fn show_short(&self, key: ShortKey) -> StoredReply<'_>
        ensures shows { outcome self.now.state
            (AskGet (get_command (unconditional_get key))) ≡ Answered (GetDone result) }
        ensures register { Registers self.now.state
            (AskGet (get_command (unconditional_get key))) (Answered (GetDone result)) }
    {
        match self.store.get_short(key) {
            None => StoredReply::nothing(),
            Some(key) => StoredReply::whole(key),
        }
    }
}

//! What a get asks of a vnode.

ghost use Rattle.std.specs.Prelude.{◌≡◌};
ghost use Rattle.sibling_register.specs.Answers.{AskGet};
ghost use Rattle.vnode_machine.specs.Asks.{get_command};
ghost use Rattle.vnode_machine.specs.Step.{outcome, Answered, GetDone};
ghost use Rattle.riak_msgs.specs.Requests.{unconditional_get};
ghost use Rattle.vnode_core.specs.Plans.{Registers};

use crate::stored_reply::StoredReply;
use crate::vnode::Vnode;
use clock_store::ShortKey;
use riak_msgs::GetAsk;

/// A get as it is asked: whole, or without options by the short names of its key, of which no copy is made then.
pub trait Lookup {
    ghost use Rattle.std.specs.Prelude.{◌≡◌};
    ghost use Rattle.riak_msgs.specs.declared.get.GetAsk.{GetAsk};
    ghost use Rattle.sibling_register.specs.Answers.{AskGet};
    ghost use Rattle.vnode_machine.specs.Asks.{get_command};
    ghost use Rattle.vnode_machine.specs.Step.{outcome, Answered, GetDone};
    ghost use Rattle.vnode_core.specs.Plans.{Registers};

    // What is asked.
    ghost get: { Self → GetAsk };

    /// Shows the key of a vnode that is asked for, as [`VnodeOver::show`](crate::VnodeOver::show) does.
    fn show<'a>(&self, vnode: &'a Vnode) -> StoredReply<'a>
        ensures shows { outcome vnode.now.state (AskGet (get_command (get self.now)))
            ≡ Answered (GetDone result) }
        ensures register { Registers vnode.now.state (AskGet (get_command (get self.now)))
            (Answered (GetDone result)) };
}

impl Lookup for GetAsk {
    ghost get = { λ get. get };

    #[inline(always)]
    fn show<'a>(&self, vnode: &'a Vnode) -> StoredReply<'a> {
        vnode.show(self)
    }
}

impl Lookup for ShortKey {
    ghost use Rattle.riak_msgs.specs.Requests.{unconditional_get};

    ghost get = { λ key. unconditional_get key };

    #[inline(always)]
    fn show<'a>(&self, vnode: &'a Vnode) -> StoredReply<'a> {
        vnode.show_short(*self)
    }
}

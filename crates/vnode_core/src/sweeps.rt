//! A sweep: a vnode's first dead keys are forgotten, each by a reap, at most so many.

ghost use Rattle.std.specs.Prelude.{◌≡◌, length};
ghost use Rattle.vnode_machine.specs.Dead.{has_dead, swept, swept_keys};
ghost use Rattle.vnode_core.specs.Reaping.{key_given};
ghost use Rattle.vnode_core.specs.Sweeps.{RegistersReaps, prepared_after};

use crate::vnode::Vnode;
use riak_msgs::Key;

/// What a sweep did.
#[derive(Clone, Copy, Debug, Drop, PartialEq, Eq)]
pub struct Swept {
    /// How many keys it forgot.
    pub reaped: u32,
    /// Whether a dead key at or after the first one is left.
    pub more: bool,
}

/// Reaps the first `budget` dead keys at or after `from`, or of all keys where none is given, in key
/// order: these and no others. Where the budget isn't 0, what was prepared ends. It takes no memory and
/// is never refused.
pub fn sweep(vnode: &mut Vnode, from: Option<&Key>, budget: u32) -> Swept
    ensures state { vnode.new.state ≡ swept vnode.old.state (key_given from.entry) budget }
    ensures reaped { result.reaped
        ≡ length (swept_keys vnode.old.state (key_given from.entry) budget) }
    ensures more { result.more ≡ has_dead vnode.new.state (key_given from.entry) }
    ensures prepared { vnode.new.prepared ≡ prepared_after budget vnode.old.prepared }
    ensures register { RegistersReaps vnode.old.state
        (swept_keys vnode.old.state (key_given from.entry) budget) vnode.new.state }
{
    let mut reaped = 0;
    while reaped < budget && vnode.reap_first(from) {
        reaped += 1;
    }
    Swept {
        reaped,
        more: vnode.has_dead(from),
    }
}

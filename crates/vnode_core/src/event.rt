//! The commands in the history of a vnode behind a gate, and the law that they are a history of the register.

ghost use Rattle.std.specs.Prelude.{List, ℕ};
ghost use Rattle.riak_msgs.specs.Contents.{Content};
ghost use Rattle.vnode_machine.specs.Machine.{State};
ghost use Rattle.rw_gate.specs.Views.{GateId};
ghost use Rattle.vnode_core.specs.Plans.{View};
ghost use Rattle.vnode_core.specs.declared.event.VnodeEvent.{VnodeEvent};
ghost use Rattle.vnode_core.specs.Events.{RunIsLegal, GateHistoryIsLegal};

use riak_msgs::{DelAsk, Key, PutAsk, PutReply};

/// A command that a vnode accepted, with what it was answered. Clauses alone speak of it, and code makes none.
pub enum VnodeEvent {
    /// A put, and the reply to it.
    Put(PutAsk, PutReply),
    /// A delete that wrote a tombstone.
    Del(DelAsk),
    /// A reap that forgot this key.
    Reap(Key),
}

/// The history of a gate round a new vnode, where it has commands alone, is a legal history of the
/// sibling register. Each of its events is the register's next one, with its command's options and its
/// context as given, and was answered as the register answers it at its place; and the vnode's state is
/// the replay of that history. So it is of each run of commands from the opening state of a vnode, and of
/// each history of commands of which a state under a right is the replay. Of histories with copies
/// `copy_laws` speaks.
pub fn histories_are_legal()
    ensures run { (vnode last_epoch : ℕ) (events : List VnodeEvent) (state : State Content)
        → RunIsLegal vnode last_epoch events state }
    ensures gate { (vnode last_epoch : ℕ) (gate : GateId View)
        (events : List VnodeEvent) (state : View)
        → GateHistoryIsLegal vnode last_epoch gate events state }
{}

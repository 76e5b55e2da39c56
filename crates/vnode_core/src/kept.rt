//! A vnode behind a gate.

ghost use Rattle.std.specs.Prelude.{◌≡◌};

use crate::ask::{Answer, Ask, Plan};
use crate::change::Change;
use crate::entry::Entry;
use crate::refusal::Refusal;
use crate::vnode::VnodeOver;
use clock_store::ClockStore;
use rw_gate::Kept;
use std::alloc::Global;
use std::snapshot::Snapshot;

/// A change, and for clauses alone the vnode as it was when the change was prepared: the two fix the event that the
/// change makes in a gate's history, its answer too.
#[derive(Drop)]
pub struct LoggedChange<S: ClockStore> {
    change: Change,
    before: Snapshot<VnodeOver<S>>,
}

/// The machine's states are those of the vnode machine, and its step is the machine's: a command is
/// accepted with the answer that its event holds, an ask that changes nothing is answered, and a refusal
/// is the machine's, or one for want of memory where the machine accepts. Copies and the close are
/// entries beside the commands. `prepare` and `apply` are the vnode's `prepare` and `finish`.
impl<S: ClockStore> Kept for VnodeOver<S> {
    type Ask = Ask;

    type Change = LoggedChange<S>;

    type Reply = Answer;

    type Refusal = Refusal;

    type Event = Entry;

    ghost use Rattle.std.specs.Prelude.{◌≡◌};
    ghost use Rattle.riak_msgs.specs.Contents.{Content};
    ghost use Rattle.vnode_machine.specs.Machine.{State};
    ghost use Rattle.vnode_core.specs.Plans.{Refuses, IsAnsweredUnchanged};
    ghost use Rattle.vnode_core.specs.Events.{Makes, EntryAsks, AnsweredBy, entry_of, IsLoggable};

    ghost State = { State Content };

    ghost content = { λ vnode. vnode.state };

    ghost accepts = { Makes };

    ghost answers = { IsAnsweredUnchanged };

    ghost refuses = { Refuses };

    ghost asks = { EntryAsks };

    ghost answered_by = { AnsweredBy };

    ghost event = { λ logged. entry_of logged.before.value.state logged.change };

    ghost ready = { λ vnode logged. IsLoggable vnode logged.change logged.before.value };

    #[inline(always)]
    fn prepare(
        &mut self,
        alloc: Global,
        ask: Ask,
    ) -> Result<Plan<LoggedChange<S>, Answer>, Refusal> {
        match VnodeOver::prepare(self, alloc, ask) {
            Ok(Plan::Change(change)) => Ok(Plan::Change(logged(change, self))),
            Ok(Plan::Nothing(answer)) => Ok(Plan::Nothing(answer)),
            Err(refusal) => Err(refusal),
        }
    }

    #[inline(always)]
    fn apply(&mut self, change: LoggedChange<S>) -> Answer {
        let LoggedChange { change, before: _ } = change;
        self.finish(change)
    }

    ghost sound = { λ vnode logged is. (is.next, is.makes) };
}

/// The change with the vnode that it was prepared from.
fn logged<S: ClockStore>(change: Change, vnode: &VnodeOver<S>) -> LoggedChange<S>
    ensures change { result.change ≡ change }
    ensures before { result.before.value ≡ vnode.now }
{
    LoggedChange {
        change,
        before: Snapshot::of(vnode),
    }
}

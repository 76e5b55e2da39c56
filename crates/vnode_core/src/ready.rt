//! What lies ready for the command that is prepared.

ghost use Rattle.std.specs.Prelude.{◌≡◌, Some};
ghost use Rattle.rw_gate.specs.declared.kept.Plan.TheVariants.{Nothing};
ghost use Rattle.vnode_core.specs.Vnodes.{writes_after, tombstones_after};
ghost use Rattle.vnode_core.specs.Readiness.{plan_in};

use crate::ask::{Answer, Ask, Plan, Reaped};
use crate::change::Change;
use crate::checks::Writer;
use crate::laid_answer::LaidAnswer;
use crate::refusal::Refusal;

/// Who makes the write that is prepared, and its answer.
#[derive(Drop)]
pub(crate) struct Ready {
    pub(crate) writer: Writer,
    pub(crate) answer: LaidAnswer,
}

/// The outcome of a command that isn't refused.
#[derive(Clone, Copy, Drop)]
pub(crate) enum Readiness {
    /// All that it needs is ready.
    Ready,
    /// A delete without context of an absent key: it does nothing.
    NothingToDelete,
    /// A reap that forgets nothing, since the key has a value, or there is none.
    NothingToReap(Reaped),
    /// A copy after which the key would have too many siblings, or its clock too many actors.
    Stuck,
    /// The vnode is closed, and takes nothing.
    Closed,
}

/// The plan of a command.
pub(crate) fn plan_of(ask: Ask, readiness: Readiness) -> Plan<Change, Answer>
    ensures { result ≡ plan_in readiness ask }
{
    match readiness {
        Readiness::Ready => Plan::Change(Change { ask }),
        Readiness::NothingToDelete => answered(ask, Answer::Del),
        Readiness::NothingToReap(reaped) => answered(ask, Answer::Reaped(reaped)),
        Readiness::Stuck => answered(ask, Answer::Stuck),
        Readiness::Closed => answered(ask, Answer::Closed),
    }
}

/// The plan of a command that changes nothing, which is let go.
fn answered(ask: Ask, answer: Answer) -> Plan<Change, Answer>
    ensures { result ≡ Nothing answer }
{
    drop(ask);
    Plan::Nothing(answer)
}

/// The refusal of a command, which is let go.
pub(crate) fn refuse(ask: Ask, refusal: Refusal) -> Refusal
    ensures { result ≡ refusal }
{
    drop(ask);
    refusal
}

/// How many writes there are after a command.
pub(crate) fn writes_after(writes: u64, ask: &Ask) -> u64
    ensures { result ≡ writes_after writes ask.now }
{
    match ask {
        Ask::Put(_) => writes.saturating_add(1),
        Ask::Del(_) | Ask::Reap(_) | Ask::ReapFirst(_) | Ask::Copy(_) | Ask::Close(_) => writes,
    }
}

/// How many tombstones there are after a command.
pub(crate) fn tombstones_after(tombstones: u64, ask: &Ask) -> u64
    ensures { result ≡ tombstones_after tombstones ask.now }
{
    match ask {
        Ask::Del(_) => tombstones.saturating_add(1),
        Ask::Put(_) | Ask::Reap(_) | Ask::ReapFirst(_) | Ask::Copy(_) | Ask::Close(_) => tombstones,
    }
}

/// Puts what is ready in place of what was.
#[inline(always)]
pub(crate) fn set_ready(place: &mut Option<Ready>, ready: Ready)
    ensures { place.new ≡ Some ready }
{
    *place = Some(ready);
}

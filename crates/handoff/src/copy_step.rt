//! One key of a fallback copied back to its primary, or a stretch of keys that are copied.
ghost use Rattle.std.specs.Prelude.{◌≡◌, IfOk, IfErr, None};
ghost use mathlib.Core.List.{IsPrefix};
ghost use Rattle.clock_store.specs.Keys.{stored_of};
ghost use Rattle.vnode_core.specs.Events.{commands_of};
ghost use Rattle.vnode_machine.specs.Sound.{IsSound};
ghost use Rattle.handoff.specs.Sights.{IsOfVnode, ShowsState, Sight};
ghost use Rattle.handoff.specs.Left.{IsHeld, IsHeldAt};
ghost use Rattle.handoff.specs.Steps.{IsStopOf, CopiesOrStays};

use crate::copying::Diverted;
use crate::fault::Stop;
use crate::left::{Found, Left, next_left};
use clock_store::KeyRef;
use ghost_state::{GhostList, Listing};
use riak_msgs::Key;
use rw_gate::{AskOutcome, Pass, ReadRight, WriteRight, ask_shown};
use std::alloc::Global;
use std::sync::Wait;
use vnode_core::{Ask, KeyCopy, Vnode, VnodeEvent, is_copied};

/// How many keys are looked at under the same rights, but for one: so long puts at the fallback wait for
/// a look that finds all copied.
const STRETCH: u32 = 15;

/// The commands of what a pass has seen.
struct Commands;

impl Listing<Pass<Vnode>, VnodeEvent> for Commands {
    ghost use Rattle.vnode_core.specs.Events.{commands_of};

    ghost list = { λ pass. commands_of pass.prefix };
}

/// The commands of what a pass has seen, for clauses alone.
fn commands_seen(pass: &Pass<Vnode>) -> GhostList<VnodeEvent>
    ensures { result ≡ commands_of pass.now.prefix }
{
    GhostList::listed::<Pass<Vnode>, Commands>(pass)
}

/// What became of one key more.
#[derive(Drop)]
pub(crate) enum Step {
    /// Behind the last one all are copied as they are now.
    End,
    /// All keys up to this one are copied as they are now; further ones weren't looked at.
    Passed(Key),
    /// It was copied.
    Made(Key),
    /// It would have had too many siblings or actors, and nothing changed.
    Stuck(Key),
}

/// Copies the first key behind one, within a stretch of keys, that isn't copied as it is now, while a
/// right to read is held at the fallback.
pub(crate) fn copy_next<R: Wait>(
    rt: &R,
    alloc: Global,
    partition: &Diverted<'_>,
    mine: &mut Pass<Vnode>,
    theirs: &mut Pass<Vnode>,
    after: Option<&Key>,
) -> Result<Step, Stop>
    requires mine { mine.old.gate ≡ partition.now.primary.now }
    requires theirs { theirs.old.gate ≡ partition.now.fallback.now.gate }
    requires vnode { IsOfVnode partition.now.fallback.now.gate }
    ensures mine { mine.new.gate ≡ partition.now.primary.now }
    ensures theirs { theirs.new.gate ≡ partition.now.fallback.now.gate }
    ensures more { IsPrefix mine.old.prefix mine.new.prefix }
    ensures more_there { IsPrefix theirs.old.prefix theirs.new.prefix }
    ensures own_there { theirs.new.own ≡ theirs.old.own }
    ensures step { IfOk result (CopiesOrStays partition.now.fallback.now.diversion
        mine.old mine.new theirs.new) }
    ensures stop { IfErr result (IsStopOf theirs.new) }
{
    let reader = partition.fallback.gate.read(rt);
    let step = copy_under(rt, alloc, partition, &reader, mine, theirs, after);
    reader.release();
    step
}

/// The same under a right to read at the fallback, which the caller gives back.
fn copy_under<R: Wait>(
    rt: &R,
    alloc: Global,
    partition: &Diverted<'_>,
    reader: &ReadRight<'_, Vnode>,
    mine: &mut Pass<Vnode>,
    theirs: &mut Pass<Vnode>,
    after: Option<&Key>,
) -> Result<Step, Stop>
    requires mine { mine.old.gate ≡ partition.now.primary.now }
    requires reader { reader.now.gate ≡ partition.now.fallback.now.gate }
    requires theirs { theirs.old.gate ≡ partition.now.fallback.now.gate }
    requires vnode { IsOfVnode partition.now.fallback.now.gate }
    ensures mine { mine.new.gate ≡ partition.now.primary.now }
    ensures theirs { theirs.new.gate ≡ partition.now.fallback.now.gate }
    ensures more { IsPrefix mine.old.prefix mine.new.prefix }
    ensures more_there { IsPrefix theirs.old.prefix theirs.new.prefix }
    ensures own_there { theirs.new.own ≡ theirs.old.own }
    ensures step { IfOk result (CopiesOrStays partition.now.fallback.now.diversion
        mine.old mine.new theirs.new) }
    ensures stop { IfErr result (IsStopOf theirs.new) }
{
    let from = reader.look(theirs)?;
    if from.closed_at().is_some() {
        return Err(Stop::NotDiverted);
    }
    let left = match look_for(rt, alloc, partition, from, mine, after)? {
        Found::End => return Ok(Step::End),
        Found::Passed(key) => return Ok(Step::Passed(key)),
        Found::Next(left) => left,
    };
    let diversion = partition.fallback.diversion;
    let mut writer = partition.primary.write(rt);
    let step = copy_to(&mut writer, alloc, from, left, diversion, mine, theirs);
    writer.release();
    step
}

/// Looks for a key of the fallback's vnode that isn't copied as it is now, by a right to read at the
/// primary, over a stretch of keys.
fn look_for<'a, R: Wait>(
    rt: &R,
    alloc: Global,
    partition: &Diverted<'_>,
    from: &'a Vnode,
    mine: &mut Pass<Vnode>,
    after: Option<&Key>,
) -> Result<Found<'a>, Stop>
    requires mine { mine.old.gate ≡ partition.now.primary.now }
    requires sound { IsSound from.now.state }
    ensures mine { mine.new.gate ≡ mine.old.gate }
    ensures more { IsPrefix mine.old.prefix mine.new.prefix }
    ensures own { mine.new.own ≡ mine.old.own }
    ensures held { IfOk result (IsHeldAt from.now.state) }
    ensures stop { (theirs : Sight) → IfErr result (IsStopOf theirs) }
{
    let here = partition.primary.read(rt);
    let found = look_under(alloc, &here, from, mine, after);
    here.release();
    found
}

/// The same under the right to read, which the caller gives back.
fn look_under<'a>(
    alloc: Global,
    here: &ReadRight<'_, Vnode>,
    from: &'a Vnode,
    mine: &mut Pass<Vnode>,
    after: Option<&Key>,
) -> Result<Found<'a>, Stop>
    requires mine { mine.old.gate ≡ here.now.gate }
    requires sound { IsSound from.now.state }
    ensures mine { mine.new.gate ≡ mine.old.gate }
    ensures more { IsPrefix mine.old.prefix mine.new.prefix }
    ensures own { mine.new.own ≡ mine.old.own }
    ensures held { IfOk result (IsHeldAt from.now.state) }
    ensures stop { (theirs : Sight) → IfErr result (IsStopOf theirs) }
{
    let to = here.look(mine)?;
    let found = next_left(alloc, to, from, after, STRETCH)?;
    Ok(found)
}

/// Copies a key that the fallback holds, under rights to read there and to write at the primary, where it
/// isn't copied by now; of the fallback's history its pass has seen all.
fn copy_to(
    writer: &mut WriteRight<'_, Vnode>,
    alloc: Global,
    from: &Vnode,
    left: Left<'_>,
    diversion: u32,
    mine: &mut Pass<Vnode>,
    theirs: &Pass<Vnode>,
) -> Result<Step, Stop>
    requires mine { mine.old.gate ≡ writer.old.gate }
    requires shown { ShowsState theirs.now from.now.state }
    requires unclosed { from.now.state.closed ≡ None }
    requires held { IsHeld from.now.state left.key (stored_of left.stored.now) }
    ensures mine { mine.new.gate ≡ mine.old.gate }
    ensures more { IsPrefix mine.old.prefix mine.new.prefix }
    ensures step { IfOk result (CopiesOrStays diversion mine.old mine.new theirs.now) }
    ensures stop { IfErr result (IsStopOf theirs.now) }
{
    let to = writer.look(mine)?;
    if is_copied(to, &left.key, left.stored) {
        return Ok(Step::Passed(left.key));
    }
    let parts = KeyRef::of(&left.key);
    let copy = KeyCopy::of(alloc, parts, left.stored, diversion, commands_seen(theirs))?;
    match ask_shown(writer, alloc, mine, Ask::Copy(copy)) {
        AskOutcome::Made(_) => Ok(Step::Made(left.key)),
        AskOutcome::Told(_) => Ok(Step::Stuck(left.key)),
        AskOutcome::Refused(_) => Err(Stop::NoMemory),
        AskOutcome::Moved | AskOutcome::Full => Err(Stop::GateStopped),
    }
}

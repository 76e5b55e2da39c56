//! How many keys of a fallback are left, by a look at both gates.
ghost use Rattle.std.specs.Prelude.{◌≡◌, ◌-◌, ◌^◌, min, IfOk, IfErr};
ghost use mathlib.Core.List.{IsPrefix};
ghost use Rattle.handoff.specs.Copying.{CountsLeft};
ghost use Rattle.handoff.specs.Sights.{IsOfVnode};
ghost use Rattle.handoff.specs.Steps.{IsStopOf};

use crate::copying::Diverted;
use crate::fault::Stop;
use rw_gate::{Pass, ReadRight};
use std::alloc::Global;
use std::sync::Wait;
use vnode_core::{Vnode, count_left};

/// A count of keys, as a copy back says it: 4,294,967,295 where there are more.
fn as_told(count: u64) -> u32
    ensures { result ≡ min count (2 ^ 32 - 1) }
{
    match u32::try_from(count) {
        Ok(count) => count,
        Err(_) => u32::MAX,
    }
}

/// How many keys aren't copied as they are now, by a look at both.
pub(crate) fn look_left<R: Wait>(
    rt: &R,
    alloc: Global,
    partition: &Diverted<'_>,
    mine: &mut Pass<Vnode>,
    theirs: &mut Pass<Vnode>,
) -> Result<u32, Stop>
    requires mine { mine.old.gate ≡ partition.now.primary.now }
    requires theirs { theirs.old.gate ≡ partition.now.fallback.now.gate }
    requires vnode { IsOfVnode partition.now.fallback.now.gate }
    ensures mine { mine.new.gate ≡ partition.now.primary.now }
    ensures theirs { theirs.new.gate ≡ partition.now.fallback.now.gate }
    ensures more { IsPrefix mine.old.prefix mine.new.prefix }
    ensures more_there { IsPrefix theirs.old.prefix theirs.new.prefix }
    ensures own { mine.new.own ≡ mine.old.own }
    ensures own_there { theirs.new.own ≡ theirs.old.own }
    ensures left { IfOk result (CountsLeft mine.new theirs.new) }
    ensures stop { IfErr result (IsStopOf theirs.new) }
{
    let there = partition.fallback.gate.read(rt);
    let here = partition.primary.read(rt);
    let left = left_under(alloc, &here, &there, mine, theirs);
    here.release();
    there.release();
    left
}

/// The same under rights to read, which the caller gives back.
fn left_under(
    alloc: Global,
    here: &ReadRight<'_, Vnode>,
    there: &ReadRight<'_, Vnode>,
    mine: &mut Pass<Vnode>,
    theirs: &mut Pass<Vnode>,
) -> Result<u32, Stop>
    requires mine { mine.old.gate ≡ here.now.gate }
    requires theirs { theirs.old.gate ≡ there.now.gate }
    requires vnode { IsOfVnode there.now.gate }
    ensures mine { mine.new.gate ≡ mine.old.gate }
    ensures theirs { theirs.new.gate ≡ theirs.old.gate }
    ensures more { IsPrefix mine.old.prefix mine.new.prefix }
    ensures more_there { IsPrefix theirs.old.prefix theirs.new.prefix }
    ensures own { mine.new.own ≡ mine.old.own }
    ensures own_there { theirs.new.own ≡ theirs.old.own }
    ensures left { IfOk result (CountsLeft mine.new theirs.new) }
    ensures stop { IfErr result (IsStopOf theirs.new) }
{
    let from = there.look(theirs)?;
    if from.closed_at().is_some() {
        return Err(Stop::NotDiverted);
    }
    let to = here.look(mine)?;
    let left = count_left(alloc, to, from)?;
    Ok(as_told(left))
}

//! The end of a diversion.
ghost use Rattle.std.specs.Prelude.{◌≡◌, ◌↔◌, IsTrue, length, IfOk, IfErr, IfSome, OnOk, []};
ghost use mathlib.Core.List.{IsPrefix};
ghost use Rattle.rw_gate.specs.Histories.{IsReplayed};
ghost use Rattle.vnode_core.specs.Events.{Makes};
ghost use Rattle.handoff.specs.Endings.{ClosesWith, EndsSo, IsCloseStop, IsEndFault, IsEndStop};
ghost use Rattle.handoff.specs.Returning.{EndsFrom, OfGates};
ghost use Rattle.handoff.specs.Sights.{IsOfVnode, state_of};
ghost use Rattle.handoff.specs.Started.{HasStayed, IsSameBelow, IsStartOf, updates_counted};
ghost use Rattle.handoff.specs.Steps.{IsStopOf};

use crate::copying::Diverted;
use crate::fault::{HandoffFault, Returned, Stop, fault_of};
use crate::gates::Start;
use crate::left::first_left;
use rw_gate::{AskOutcome, Gate, Pass, ReadRight, WriteRight, ask_shown};
use std::alloc::Global;
use std::sync::Wait;
use vnode_core::{Ask, Tally, Vnode};

/// What became of an attempt to end a diversion.
#[derive(Clone, Copy, Drop)]
pub(crate) enum Ending {
    /// The fallback is closed now.
    Closed,
    /// A key isn't copied as it is now, and nothing changed.
    LeftOver,
}

/// Closes the fallback, where each of its keys is copied as it is now.
pub(crate) fn end_diversion<R: Wait>(
    rt: &R,
    alloc: Global,
    partition: &Diverted<'_>,
) -> Result<Returned, HandoffFault>
    requires vnode { IsOfVnode partition.now.fallback.now.gate }
    requires start { IfSome partition.now.fallback.now.start
        (IsStartOf partition.now.primary.now) }
    ensures ok { IfOk result (λ passes.
        OfGates partition.now.primary.now partition.now.fallback.now passes
        (EndsFrom partition.now.fallback.now.start)) }
    ensures fault { IfErr result (IsEndFault partition.now.primary.now partition.now.fallback.now) }
{
    let mut mine = partition.primary.pass();
    let mut theirs = partition.fallback.gate.pass();
    let mut writer = partition.fallback.gate.write(rt);
    let primary = partition.primary;
    let start = &partition.fallback.start;
    let ending = close_under(
        rt,
        alloc,
        primary,
        start,
        &mut writer,
        &mut mine,
        &mut theirs,
    );
    writer.release();
    match ending {
        Ok(Ending::Closed) => Ok(Returned {
            primary: mine,
            fallback: theirs,
        }),
        Ok(Ending::LeftOver) => Err(HandoffFault::LeftOver(Returned {
            primary: mine,
            fallback: theirs,
        })),
        Err(stop) => Err(fault_of(stop, theirs)),
    }
}

/// The same under a right to write at the fallback, which the caller gives back.
fn close_under<R: Wait>(
    rt: &R,
    alloc: Global,
    primary: &Gate<Vnode>,
    start: &Option<Start>,
    writer: &mut WriteRight<'_, Vnode>,
    mine: &mut Pass<Vnode>,
    theirs: &mut Pass<Vnode>,
) -> Result<Ending, Stop>
    requires mine { mine.old.gate ≡ primary.now }
    requires start { IfSome start.now (IsStartOf primary.now) }
    requires theirs { theirs.old.gate ≡ writer.old.gate }
    requires vnode { IsOfVnode writer.old.gate }
    requires own { mine.old.own ≡ [] }
    requires own_there { theirs.old.own ≡ [] }
    ensures mine { mine.new.gate ≡ mine.old.gate }
    ensures theirs { theirs.new.gate ≡ theirs.old.gate }
    ensures ending { IfOk result (EndsSo start.now mine.new theirs.new) }
    ensures stop { IfErr result (IsStopOf theirs.new) }
{
    let reader = primary.read(rt);
    let ending = close_shown(alloc, &reader, start, writer, mine, theirs);
    reader.release();
    ending
}

/// The same under a right to read at the primary too.
fn close_shown(
    alloc: Global,
    reader: &ReadRight<'_, Vnode>,
    start: &Option<Start>,
    writer: &mut WriteRight<'_, Vnode>,
    mine: &mut Pass<Vnode>,
    theirs: &mut Pass<Vnode>,
) -> Result<Ending, Stop>
    requires mine { mine.old.gate ≡ reader.now.gate }
    requires start { IfSome start.now (IsStartOf reader.now.gate) }
    requires theirs { theirs.old.gate ≡ writer.old.gate }
    requires vnode { IsOfVnode writer.old.gate }
    requires own { mine.old.own ≡ [] }
    requires own_there { theirs.old.own ≡ [] }
    ensures mine { mine.new.gate ≡ mine.old.gate }
    ensures theirs { theirs.new.gate ≡ theirs.old.gate }
    ensures ending { IfOk result (EndsSo start.now mine.new theirs.new) }
    ensures stop { IfErr result
        (IsEndStop start.now reader.now writer.old mine.new theirs.new) }
{
    let to = reader.look(mine)?;
    let from = writer.look(theirs)?;
    match from.closed_at() {
        Some(_) => return Err(Stop::NotDiverted),
        None => {}
    }
    let left = first_left(alloc, to, from)?;
    match left {
        Some(_) => return Ok(Ending::LeftOver),
        None => {}
    }
    if !has_stayed(to, start, mine) {
        return Err(Stop::GateStopped);
    }
    if !took_updates_alone(from, theirs) {
        return Err(Stop::GateStopped);
    }
    close(writer, alloc, mine.seen(), theirs)?;
    Ok(Ending::Closed)
}

/// Whether two tallies are the same, and no count of them is at its stop.
fn is_same_below(first: &Tally, last: &Tally) -> bool
    ensures { IsTrue result ↔ IsSameBelow first.now last.now }
{
    first.writes == last.writes
        && first.tombstones == last.tombstones
        && first.reaps == last.reaps
        && last.writes < u64::MAX
        && last.tombstones < u64::MAX
        && last.reaps < u64::MAX
}

/// Whether what a pass has seen begins what another of its gate has.
fn begins(first: &Pass<Vnode>, last: &Pass<Vnode>) -> bool
    requires { last.now.gate ≡ first.now.gate }
    ensures { IsTrue result ↔ IsPrefix first.now.prefix last.now.prefix }
{
    if first.is_behind(last) {
        return true;
    }
    // where both have seen as much, either begins the other
    first.seen() == last.seen()
}

/// Whether a primary isn't closed and accepted no command since its partition was diverted, by what its pass has seen.
fn has_stayed(primary: &Vnode, start: &Option<Start>, mine: &Pass<Vnode>) -> bool
    requires { IfSome start.now (IsStartOf mine.now.gate) }
    ensures { IsTrue result ↔ HasStayed start.now primary.now.state mine.now }
{
    let Some(from) = start else {
        return false;
    };
    match primary.closed_at() {
        Some(_) => return false,
        None => {}
    }
    if !begins(&from.pass, mine) {
        return false;
    }
    let tally = primary.tally();
    is_same_below(&from.tally, &tally)
}

/// Whether a vnode took writes and deletes alone, and its pass has seen all of them.
fn took_updates_alone(vnode: &Vnode, pass: &Pass<Vnode>) -> bool
    ensures { IsTrue result ↔ (updates_counted vnode.now.state ≡ length pass.now.prefix) }
{
    let tally = vnode.tally();
    let seen = pass.seen();
    match tally.writes.checked_add(tally.tombstones) {
        None => false,
        Some(updates) => updates == seen,
    }
}

/// Publishes the close of a fallback, all of whose history its pass has seen, with this number.
fn close(
    writer: &mut WriteRight<'_, Vnode>,
    alloc: Global,
    number: u64,
    theirs: &mut Pass<Vnode>,
) -> Result<(), Stop>
    requires gate { theirs.old.gate ≡ writer.old.gate }
    requires shown { theirs.old.prefix ≡ writer.old.history }
    requires replay { IsReplayed state_of Makes writer.old }
    ensures gate { theirs.new.gate ≡ theirs.old.gate }
    ensures closed { OnOk result (ClosesWith number theirs.old theirs.new) }
    ensures stop { IfErr result (IsCloseStop writer.old theirs.new) }
{
    match ask_shown(writer, alloc, theirs, Ask::Close(number)) {
        AskOutcome::Made(_) => Ok(()),
        AskOutcome::Told(_) => Err(Stop::NotDiverted),
        AskOutcome::Refused(_) => Err(Stop::NoMemory),
        AskOutcome::Moved => Err(Stop::GateStopped),
        AskOutcome::Full => Err(Stop::GateStopped),
    }
}

//! What the console compares of what the calls of a hand-off gave.

ghost use Rattle.std.specs.Prelude.{◌≡◌, ◌+◌, ◌≤◌, length, IfSome, IsTrue};
ghost use mathlib.Core.List.{IsPrefix};
ghost use Rattle.handoff.specs.Running.{commands_in};
ghost use Rattle.handoff_tracks.specs.Compared.{AreAll, CopiesGates, EndsBehind, Follows};
ghost use Rattle.handoff_tracks.specs.Compared.{HaveSameGates, IsBehind, KeepsGates};

use crate::track::{Copies, LastReturn};
use handoff::{Copied, Pass, Returned, Start, Tally, Vnode};

/// Whether a call began behind all that another had seen, and saw no less than that one.
pub(crate) fn is_behind(first: &Copied, next: &Copied) -> bool
    requires { HaveSameGates first.now next.now }
    ensures { IsTrue result → IsBehind first.now next.now }
{
    first.primary.seen() <= next.began
        && first.primary.is_behind(&next.primary)
        && first.fallback.is_behind(&next.fallback)
}

/// Whether a return saw what a call had seen, and then the close.
fn ends_behind(last: &Copied, passes: &Returned) -> bool
    requires gate { passes.now.primary.gate ≡ last.now.primary.gate }
    requires gate_there { passes.now.fallback.gate ≡ last.now.fallback.gate }
    ensures { IsTrue result → EndsBehind last.now passes.now }
{
    last.fallback.seen() < passes.fallback.seen()
        && last.primary.is_behind(&passes.primary)
        && last.fallback.is_behind(&passes.fallback)
}

/// Whether all that came to the primary since a diversion began are the copies of these calls.
pub(crate) fn are_all(start: &Start, copies: &Copies, passes: &Returned) -> bool
    requires { CopiesGates copies.now passes.now }
    ensures { IsTrue result → AreAll start.now copies.now passes.now }
{
    let began = start.pass.seen();
    match began.checked_add(copies.keys) {
        Some(total) => total == passes.primary.seen() && ends_last(began, copies, passes),
        None => false,
    }
}

/// How many commands a tally counts. None past 18,446,744,073,709,551,615.
pub(crate) fn commands_in(tally: Tally) -> Option<u64>
    ensures { IfSome result (λ commands. commands ≡ commands_in tally) }
{
    let updates = tally.writes.checked_add(tally.tombstones)?;
    updates.checked_add(tally.reaps)
}

/// Whether a return saw what the last of these calls had, and then the close, and the first began behind
/// so many entries; or there was no call.
fn ends_last(began: u64, copies: &Copies, passes: &Returned) -> bool
    requires { CopiesGates copies.now passes.now }
    ensures { IsTrue result → IfSome copies.now.last
        (λ last. (began ≤ copies.now.from) × EndsBehind last passes.now) }
{
    match &copies.last {
        Some(last) => began <= copies.from && ends_behind(last, passes),
        None => true,
    }
}

/// Whether a primary took commands alone between its last return and the beginning of a diversion, when
/// it had taken so many.
fn took_commands(last: &LastReturn, start: &Start, commands: u64) -> bool
    ensures { IsTrue result → commands + length last.now.passes.primary.prefix
        ≡ last.now.commands + length start.now.pass.prefix }
{
    let at_return = commands.checked_add(last.passes.primary.seen());
    let at_start = last.commands.checked_add(start.pass.seen());
    match (at_return, at_start) {
        (Some(first), Some(next)) => first == next,
        _ => false,
    }
}

/// Whether the pass that saw the fallback before closed had seen no less than its return.
fn saw_return(last: &LastReturn, before: &Option<Pass<Vnode>>) -> bool
    requires { IfSome before.now (λ pass. pass.gate ≡ last.now.passes.fallback.gate) }
    ensures { IsTrue result → IfSome before.now
        (λ pass. IsPrefix last.now.passes.fallback.prefix pass.prefix) }
{
    match before {
        Some(pass) => last.passes.fallback.is_behind(pass),
        None => true,
    }
}

/// Whether a diversion began right behind the last return, when the primary had taken so many commands.
pub(crate) fn follows(
    kept: &Option<LastReturn>,
    before: &Option<Pass<Vnode>>,
    start: &Start,
    commands: u64,
) -> bool
    requires { KeepsGates kept.now before.now start.now }
    ensures { IsTrue result → Follows kept.now before.now start.now commands }
{
    match kept {
        None => commands == start.pass.seen(),
        Some(last) => {
            last.passes.primary.is_behind(&start.pass)
                && took_commands(last, start, commands)
                && saw_return(last, before)
        }
    }
}

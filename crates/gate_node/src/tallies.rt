//! What the primaries of a run have accepted, as one history of each of which every caller has seen a beginning.
ghost use Rattle.std.specs.Prelude.{◌≡◌, true, IfOk, IfSome, IfErr};
ghost use Rattle.gate_node.specs.OneHistory.{PassIsOfGate, HasSeen, CallersAreOfRun};
ghost use Rattle.gate_node.specs.OneHistory.{CallersAreOfGate, AllHaveSeen};
ghost use Rattle.gate_node.specs.OneHistory.{SharesHistory, ShareHistories};
ghost use Rattle.gate_node.specs.Tallies.{IsTally, CountsAll, commands_in};
ghost use Rattle.handoff.specs.Sights.{IsOfVnode};
ghost use Rattle.gate_node.specs.declared.fault.PoolFault.TheVariants.{NoMemory};

use crate::fault::PoolFault;
use crate::passes::{HasPasses, Passes};
use crate::shared::Shared;
use rw_gate::{Gate, Pass, ReadRight};
use std::alloc::Global;
use std::sync::Wait;
use vnode_core::{Tally, Vnode};

/// The tallies of the primaries of a run, in the order of the partitions.
#[derive(Drop)]
pub struct RunTallies {
    pub tallies: Vec<Tally>,
    /// Whether each counts as many commands as its vnode's history has entries. Then no vnode took a copy or was closed.
    pub count_all: bool,
}

/// The tally of a vnode, and whether it counts all entries of the history.
#[derive(Clone, Copy, Drop)]
struct Looked {
    tally: Tally,
    counts_all: bool,
}

/// Whether a tally counts so many commands.
fn counts_entries(tally: &Tally, entries: u64) -> bool
    ensures { result ≡ true → commands_in tally.now ≡ entries }
{
    let Some(changes) = tally.writes.checked_add(tally.tombstones) else {
        return false;
    };
    match changes.checked_add(tally.reaps) {
        None => false,
        Some(commands) => commands == entries,
    }
}

/// The tally of a vnode at one look under a right to read: of all that the pass has then seen of its history. None where the history
/// had gone on past the state that was found.
fn look<X: Wait>(rt: &X, gate: &Gate<Vnode>, pass: &mut Pass<Vnode>) -> Option<Looked>
    requires gate { pass.old.gate ≡ gate.now }
    requires new { IsOfVnode gate.now }
    ensures gate { pass.new.gate ≡ gate.now }
    ensures tally { IfSome result (λ looked.
        IsTally (record { gate = gate.now; events = pass.new.prefix }) looked.tally) }
    ensures all { IfSome result (λ looked. looked.counts_all ≡ true
        → CountsAll (record { gate = gate.now; events = pass.new.prefix }) looked.tally) }
{
    let right = gate.read(rt);
    let looked = look_under(&right, pass);
    right.release();
    looked
}

/// The same under the right, which the caller gives back.
fn look_under(right: &ReadRight<'_, Vnode>, pass: &mut Pass<Vnode>) -> Option<Looked>
    requires gate { pass.old.gate ≡ right.now.gate }
    requires new { IsOfVnode right.now.gate }
    ensures gate { pass.new.gate ≡ right.now.gate }
    ensures tally { IfSome result (λ looked.
        IsTally (record { gate = right.now.gate; events = pass.new.prefix }) looked.tally) }
    ensures all { IfSome result (λ looked. looked.counts_all ≡ true
        → CountsAll (record { gate = right.now.gate; events = pass.new.prefix }) looked.tally) }
{
    let Ok(vnode) = right.look(pass) else {
        return None;
    };
    let tally = vnode.tally();
    let counts_all = counts_entries(&tally, pass.seen());
    Some(Looked { tally, counts_all })
}

/// Whether the pass of the primary at this index, where there is one, has seen no more than another one of its gate.
fn is_behind(passes: &Passes, index: usize, other: &Pass<Vnode>) -> bool
    requires { PassIsOfGate index other.now.gate passes.now.primaries }
    ensures { result ≡ true → HasSeen index other.now.prefix passes.now.primaries }
{
    match passes.passes().get(index) {
        None => true,
        Some(pass) => pass.is_behind(other),
    }
}

/// Whether none of these callers' passes of the primary at this index has seen more than another one of their gate.
fn are_behind<H: HasPasses>(callers: &[H], index: usize, other: &Pass<Vnode>) -> bool
    requires { CallersAreOfGate H.sights index other.now.gate callers.now }
    ensures { result ≡ true → AllHaveSeen H.sights index other.now.prefix callers.now }
{
    for caller in callers {
        if !is_behind(caller.caller_passes(), index, other) {
            return false;
        }
    }
    true
}

/// The tally of the vnode behind a gate, by a new pass of it, of a history of which what these callers' passes have seen are beginnings. It
/// is looked at again where the history had gone on past the state that was found, or where one of them had seen more.
fn tally_of<X: Wait, H: HasPasses>(
    rt: &X,
    gate: &Gate<Vnode>,
    callers: &[H],
    index: usize,
) -> Looked
    requires callers { CallersAreOfGate H.sights index gate.now callers.now }
    requires new { IsOfVnode gate.now }
    ensures { SharesHistory H.sights index gate.now callers.now result.tally result.counts_all }
{
    let mut pass = gate.pass();
    for _ in rt.forever() {
        if let Some(looked) = look(rt, gate, &mut pass) {
            // What a caller saw before it ended, a later look sees: but no clause speaks of order in time, so it is compared.
            if are_behind(callers, index, &pass) {
                return looked;
            }
        }
    }
    unreachable!()
}

/// Whether both hold.
fn both(first: bool, second: bool) -> bool
    ensures { result ≡ true → (first ≡ true) × (second ≡ true) }
{
    first && second
}

/// The tallies of the primaries of a run, in the order of the partitions, each of a history of which every one of these callers' passes has
/// seen a beginning.
///
/// A tally is of one look of a new pass, made again where the history had gone on past the state that was found, or where a caller's pass
/// had seen more. It waits for each vnode in turn. Whether each counts all that its history has is looked at too: then the histories are
/// of commands alone. Refused where memory is.
pub fn tallies_of<X: Wait, H: HasPasses>(
    rt: &X,
    alloc: Global,
    shared: &Shared,
    callers: &[H],
) -> Result<RunTallies, PoolFault>
    requires { CallersAreOfRun H.sights shared.now callers.now }
    ensures history { IfOk result (λ found.
        ShareHistories H.sights shared.now.gates callers.now found.tallies.items found.count_all) }
    ensures fault { IfErr result (λ fault. fault ≡ NoMemory) }
{
    let mut tallies = Vec::new(alloc);
    let mut count_all = true;
    for gate in shared.gates() {
        let index = tallies.len();
        let looked = tally_of(rt, gate, callers, index);
        count_all = both(count_all, looked.counts_all);
        let Ok(()) = tallies.push(looked.tally) else {
            return Err(PoolFault::NoMemory);
        };
    }
    Ok(RunTallies { tallies, count_all })
}

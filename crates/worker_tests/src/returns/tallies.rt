//! What a partition's vnodes have accepted, and what they are asked by passes of their own.
ghost use Rattle.std.specs.Prelude.{◌<◌, ◌^◌};

use gate_node::{Passes, Shared, tallies_of};
use handoff::Handoff;
use rw_gate::{AskOutcome, Gate, ask};
use std::alloc::Global;
use std::sync::Wait;
use vnode_core::{Ask, Tally, Vnode};

/// A vnode of a partition.
#[derive(Clone, Copy)]
pub enum Side {
    Primary,
    Fallback,
}

/// What a partition's vnodes have accepted.
#[derive(Clone, Copy)]
pub struct Accepted {
    pub primary: Tally,
    /// None where no fallback stands there.
    pub fallback: Option<Tally>,
    /// Whether the tallies of the run's primaries count all that their histories have, which a copy isn't.
    pub count_all: bool,
}

/// What a vnode has accepted.
pub fn gate_tally<W: Wait>(rt: &W, gate: &Gate<Vnode>) -> Option<Tally> {
    let mut pass = gate.pass();
    let right = gate.read(rt);
    let tally = match right.look(&mut pass) {
        Ok(vnode) => Some(vnode.tally()),
        Err(_) => None,
    };
    right.release();
    tally
}

/// What the fallback of a partition has accepted, where one stands.
fn fallback_tally<W: Wait>(rt: &W, handoff: &Handoff, index: u16) -> Option<Tally>
    requires { index < 2 ^ handoff.now.index_bits }
{
    let fallback = handoff.fallback(usize::from(index))?;
    gate_tally(rt, &fallback.gate)
}

/// The tally at this index.
fn tally_at(tallies: &[Tally], index: u16) -> Option<Tally> {
    match tallies.get(usize::from(index)) {
        Some(tally) => Some(*tally),
        None => None,
    }
}

/// Whether the primary of a partition has accepted this, and the tallies of all primaries count what they should.
fn has_at_primary<W: Wait>(
    rt: &W,
    alloc: Global,
    shared: &Shared,
    index: u16,
    wanted: &Accepted,
) -> bool {
    let no_callers: &[Passes] = &[];
    match tallies_of(rt, alloc, shared, no_callers) {
        Ok(found) => {
            found.count_all == wanted.count_all
                && tally_at(found.tallies.as_slice(), index) == Some(wanted.primary)
        }
        Err(_) => false,
    }
}

/// Whether a partition's vnodes have accepted this.
pub fn has_accepted<W: Wait>(
    rt: &W,
    alloc: Global,
    shared: &Shared,
    index: u16,
    wanted: &Accepted,
) -> bool
    requires { index < 2 ^ shared.now.index_bits }
{
    has_at_primary(rt, alloc, shared, index, wanted)
        && fallback_tally(rt, shared.handoff(), index) == wanted.fallback
}

/// Whether a vnode forgets its first dead key.
fn reaps_first<W: Wait>(rt: &W, alloc: Global, gate: &Gate<Vnode>) -> bool {
    let mut pass = gate.pass();
    match ask(rt, alloc, gate, &mut pass, Ask::ReapFirst(None)) {
        AskOutcome::Made(_) => true,
        _ => false,
    }
}

/// Whether a partition's vnode on this side forgets its first dead key.
pub fn reaps<W: Wait>(rt: &W, alloc: Global, handoff: &Handoff, index: u16, side: Side) -> bool
    requires { index < 2 ^ handoff.now.index_bits }
{
    let at = usize::from(index);
    match side {
        Side::Primary => reaps_first(rt, alloc, &handoff.gates()[at]),
        Side::Fallback => match handoff.fallback(at) {
            Some(fallback) => reaps_first(rt, alloc, &fallback.gate),
            None => false,
        },
    }
}

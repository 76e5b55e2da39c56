//! Gates round new vnodes: those of the primaries, and that of a fallback.
ghost use Rattle.std.specs.Prelude.{◌≡◌, ◌+◌, ◌≤◌, ◌^◌, IfOk, IfNone, IfSome, IsSome, length};
ghost use Rattle.vnode_machine.specs.Replay.{IsWithinLimits};
ghost use Rattle.vnode_core.specs.Events.{IsMadeNew};
ghost use Rattle.handoff.specs.Partitions.{AreMadeNew, AreNone, BeginsBehind, fallback_id};
ghost use Rattle.handoff.specs.Partitions.{number_of};
ghost use Rattle.handoff.specs.Sights.{ClosedBehind};
ghost use Rattle.handoff.specs.Started.{IsStartOf, IsTallied};

use ring_map::{Ring, vnode_id};
use rw_gate::{Gate, Pass, ReadRight};
use std::alloc::{AllocError, Global};
use vnode_core::{Tally, Vnode};

/// What lies between the id of a partition's primary and that of its fallback.
const FALLBACK_IDS: u64 = 32768;

/// What stands beside the primary of a partition that is diverted: a gate round another vnode, and the
/// number of the diversion.
pub struct Fallback {
    pub gate: Gate<Vnode>,
    /// 1 for the partition's first diversion.
    pub diversion: u32,
    /// The pass by which the fallback before this one was seen closed: of all that it ever took. None for
    /// the first diversion.
    pub before: Option<Pass<Vnode>>,
    /// What the primary had when the partition was diverted; none where two attempts to read it failed,
    /// and then the diversion can't end.
    pub start: Option<Start>,
}

/// What a pass had seen of a partition's primary when the partition was diverted, and the primary's tally then.
#[derive(Drop)]
pub struct Start {
    pub pass: Pass<Vnode>,
    pub tally: Tally,
}

/// One call at each place where one is let go.
impl Drop for Fallback {
    fn drop(self) {
        let Fallback {
            gate: _gate,
            diversion: _diversion,
            before: _before,
            start: _start,
        } = self;
    }
}

/// A gate round a new vnode, whose first life gets the epoch behind this one.
fn new_gate(alloc: Global, id: u64, last_epoch: u32) -> Result<Gate<Vnode>, AllocError>
    ensures { IfOk result (IsMadeNew id last_epoch) }
{
    match Gate::new(alloc, Vnode::after(alloc, id, last_epoch)) {
        Ok(gate) => Ok(gate),
        Err(_) => Err(AllocError),
    }
}

/// A gate round the new vnode of each partition.
pub(crate) fn new_gates(alloc: Global, ring: Ring, run: u32) -> Result<Vec<Gate<Vnode>>, AllocError>
    requires { 1 ≤ run }
    ensures gates { IfOk result (λ gates. AreMadeNew run 0 gates.items) }
    ensures size { IfOk result (λ gates. length gates.items ≡ 2 ^ ring) }
    ensures few { IfOk result (λ gates. length gates.items ≤ 1024) }
{
    let size = ring.size();
    let mut gates = Vec::with_capacity(alloc, usize::from(size))?;
    for index in 0..size {
        gates.push(new_gate(alloc, vnode_id(run, index), 0)?)?;
    }
    Ok(gates)
}

/// The place of a fallback for each partition, with none there.
pub(crate) fn no_fallbacks(alloc: Global, size: u16) -> Result<Vec<Option<Fallback>>, AllocError>
    ensures none { IfOk result (λ fallbacks. AreNone fallbacks.items) }
    ensures size { IfOk result (λ fallbacks. length fallbacks.items ≡ size) }
{
    let mut fallbacks = Vec::with_capacity(alloc, usize::from(size))?;
    for _ in 0..size {
        fallbacks.push(None)?;
    }
    Ok(fallbacks)
}

/// What a partition's next diversion begins with: its number, the epoch behind which its fallback's first
/// life begins, and the pass that has seen the fallback before it closed with that epoch.
#[derive(Drop)]
pub(crate) struct NextDiversion {
    pub(crate) number: u32,
    pub(crate) last_epoch: u32,
    pub(crate) before: Option<Pass<Vnode>>,
}

/// A pass that has seen a vnode closed, and the last epoch that the vnode had given then.
#[derive(Drop)]
struct SeenClosed {
    pass: Pass<Vnode>,
    last_epoch: u32,
}

/// The last epoch that a vnode gave, where a look shows it closed.
fn last_if_shown(right: &ReadRight<'_, Vnode>, pass: &mut Pass<Vnode>) -> Option<u32>
    requires { pass.old.gate ≡ right.now.gate }
    ensures gate { pass.new.gate ≡ pass.old.gate }
    ensures closed { IfSome result (ClosedBehind pass.new) }
{
    let Ok(vnode) = right.look(pass) else {
        return None;
    };
    match vnode.closed_at() {
        None => None,
        Some(_) => Some(vnode.last_epoch()),
    }
}

/// The same by one attempt to read it, with the pass.
fn last_if_closed(gate: &Gate<Vnode>) -> Option<SeenClosed>
    ensures gate { IfSome result (λ seen. seen.pass.gate ≡ gate.now) }
    ensures closed { IfSome result (λ seen. ClosedBehind seen.pass seen.last_epoch) }
{
    let right = gate.try_read()?;
    let mut pass = gate.pass();
    let shown = last_if_shown(&right, &mut pass);
    right.release();
    match shown {
        None => None,
        Some(last_epoch) => Some(SeenClosed { pass, last_epoch }),
    }
}

/// What the next diversion of a partition begins with, by the fallback that stands there: the first
/// begins behind no epoch, a later one behind the last epoch of the closed one, as a pass of that has
/// seen it. None where one attempt doesn't show it closed, or it was the last that can be numbered.
pub(crate) fn next_diversion(fallback: &Option<Fallback>) -> Option<NextDiversion>
    ensures number { IfSome result (λ next. next.number ≡ number_of fallback.now + 1) }
    ensures begins { IfSome result (λ next.
        BeginsBehind fallback.now next.before next.last_epoch) }
    ensures none { IfNone result (IsSome fallback.now) }
{
    match fallback {
        None => Some(NextDiversion {
            number: 1,
            last_epoch: 0,
            before: None,
        }),
        Some(fallback) => {
            let number = fallback.diversion.checked_add(1)?;
            let SeenClosed { pass, last_epoch } = last_if_closed(&fallback.gate)?;
            Some(NextDiversion {
                number,
                last_epoch,
                before: Some(pass),
            })
        }
    }
}

/// The tally of a vnode at one look.
fn tally_if_shown(right: &ReadRight<'_, Vnode>, pass: &mut Pass<Vnode>) -> Option<Tally>
    requires { pass.old.gate ≡ right.now.gate }
    ensures gate { pass.new.gate ≡ right.now.gate }
    ensures tally { IfSome result (IsTallied pass.new) }
{
    let Ok(vnode) = right.look(pass) else {
        return None;
    };
    Some(vnode.tally())
}

/// One attempt to read a primary, and one more without the mark, where no call is under way that could have made it.
fn read_alone(gate: &Gate<Vnode>) -> Option<ReadRight<'_, Vnode>>
    ensures { IfSome result (λ right. right.gate ≡ gate.now) }
{
    match gate.try_read() {
        Some(right) => Some(right),
        None => {
            gate.unmark();
            gate.try_read()
        }
    }
}

/// What a primary has, while no call is under way.
pub(crate) fn look_start(gate: &Gate<Vnode>) -> Option<Start>
    ensures { IfSome result (IsStartOf gate.now) }
{
    let right = read_alone(gate)?;
    let mut pass = gate.pass();
    let shown = tally_if_shown(&right, &mut pass);
    right.release();
    match shown {
        None => None,
        Some(tally) => Some(Start { pass, tally }),
    }
}

/// The fallback of a partition's next diversion, of which the primary had this.
pub(crate) fn new_fallback(
    alloc: Global,
    run: u32,
    index: u16,
    next: NextDiversion,
    start: Option<Start>,
) -> Result<Fallback, AllocError>
    ensures made { IfOk result (λ fallback.
        IsMadeNew (fallback_id run index) next.last_epoch fallback.gate) }
    ensures number { IfOk result (λ fallback. fallback.diversion ≡ next.number) }
    ensures before { IfOk result (λ fallback. fallback.before ≡ next.before) }
    ensures start { IfOk result (λ fallback. fallback.start ≡ start) }
    ensures limits { IsWithinLimits (fallback_id run index) next.last_epoch }
{
    let id = vnode_id(run, index) + FALLBACK_IDS;
    let gate = new_gate(alloc, id, next.last_epoch)?;
    Ok(Fallback {
        gate,
        diversion: next.number,
        before: next.before,
        start,
    })
}

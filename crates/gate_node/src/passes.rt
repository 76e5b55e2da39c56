//! A caller's passes of the gates of a run, and of the fallbacks that it met.
ghost use Rattle.std.specs.Prelude.{◌≡◌, IfOk, IsOkUnless, All, length, map, true};
ghost use Rattle.handoff.specs.Partitions.{AreNone};
ghost use Rattle.gate_node.specs.Passes.{ArePassesOf, AreUnused, IsUnused};
ghost use Rattle.gate_node.specs.Passes.{FitsPartition, IsRenewed, is_pass_of, places_of};

use crate::fault::PoolFault;
use crate::shared::Shared;
use handoff::Fallback;
use rw_gate::{Gate, Pass};
use std::alloc::{AllocError, Global};
use std::marker::Model;
use vnode_core::Vnode;

/// A pass of a partition's fallback, the number of its diversion, and that of the fallback's close, once the pass has seen it.
#[derive(Drop)]
pub struct FallbackPass {
    pub diversion: u32,
    pub pass: Pass<Vnode>,
    pub closed: Option<u64>,
}

/// A caller's pass of each gate of a run, in the partitions' order, and one of the fallback of each partition where the caller met one.
///
/// They outlive a diversion: by the same passes a node may go on over the gates when a partition was diverted
/// ([`passes_outlive_diversions`](crate::passes_outlive_diversions)). The places of fallbacks take no memory before the first one is met. Where a
/// diversion has ended, the pass of the closed fallback is kept
/// with the number of its close until the partition is diverted again, so that a caller looks at a closed fallback once.
#[derive(Drop)]
pub struct Passes {
    pub(crate) primaries: Vec<Pass<Vnode>>,
    /// How many partitions there are.
    pub(crate) size: usize,
    /// A place for each partition, once a fallback was met; none before.
    pub(crate) fallbacks: Vec<Option<FallbackPass>>,
}

impl Model for Passes {
    ghost use Rattle.gate_node.specs.Passes.{Sights, places_of};

    ghost Value = { Sights };

    ghost view = { λ p. record {
      primaries = p.primaries.items;
      fallbacks = places_of p.size p.fallbacks.items;
    } };
}

/// A pass of each gate.
fn new_passes(alloc: Global, gates: &[Gate<Vnode>]) -> Result<Vec<Pass<Vnode>>, AllocError>
    ensures gates { IfOk result (λ passes. map (λ pass. pass.gate) passes.items ≡ gates.now) }
    ensures new { IfOk result (λ passes. All IsUnused passes.items) }
{
    let mut passes = Vec::with_capacity(alloc, gates.len())?;
    for gate in gates {
        passes.push(gate.pass())?;
    }
    Ok(passes)
}

/// The place of a fallback's pass for each of so many partitions, with nothing there.
fn empty_places(alloc: Global, size: usize) -> Result<Vec<Option<FallbackPass>>, AllocError>
    ensures none { IfOk result (λ places. AreNone places.items) }
    ensures size { IfOk result (λ places. length places.items ≡ size) }
{
    let mut places = Vec::with_capacity(alloc, size)?;
    for _ in 0..size {
        places.push(None)?;
    }
    Ok(places)
}

/// Makes the places of so many partitions, where they weren't made yet. False where memory is refused.
pub(crate) fn make_places(
    alloc: Global,
    size: usize,
    places: &mut Vec<Option<FallbackPass>>,
) -> bool
    ensures same { places_of size places.new.items ≡ places_of size places.old.items }
    ensures made { result ≡ true → places_of size places.new.items ≡ places.new.items }
{
    if !places.is_empty() {
        return true;
    }
    match empty_places(alloc, size) {
        Ok(made) => {
            *places = made;
            true
        }
        Err(_) => false,
    }
}

/// Whether the pass that is kept is of this fallback.
fn is_pass_of(fallback: &Fallback, kept: &Option<FallbackPass>) -> bool
    ensures { result ≡ is_pass_of fallback.now kept.now }
{
    match kept {
        Some(kept) => kept.diversion == fallback.diversion,
        None => false,
    }
}

/// Keeps a pass of this fallback: the one that is kept, where it is of this diversion, else a new one.
pub(crate) fn renew(kept: &mut Option<FallbackPass>, fallback: &Fallback)
    requires { FitsPartition (Some fallback.now) kept.old }
    ensures { IsRenewed fallback.now kept.old kept.new }
{
    if is_pass_of(fallback, kept) {
        return;
    }
    *kept = Some(FallbackPass {
        diversion: fallback.diversion,
        pass: fallback.gate.pass(),
        closed: None,
    });
}

impl Passes {
    /// A pass of each gate, which has seen nothing. Refused where memory is.
    pub fn new(alloc: Global, shared: &Shared) -> Result<Passes, PoolFault>
        ensures gates { IfOk result (ArePassesOf shared.now) }
        ensures new { IfOk result AreUnused }
        ensures only { IsOkUnless result PoolFault.NoMemory }
    {
        let gates = shared.handoff.gates();
        let primaries = new_passes(alloc, gates)?;
        Ok(Passes {
            primaries,
            size: gates.len(),
            fallbacks: Vec::new(alloc),
        })
    }

    /// The passes of the primaries, in the partitions' order.
    pub fn passes(&self) -> &[Pass<Vnode>]
        ensures { result.now ≡ self.now.primaries }
    {
        self.primaries.as_slice()
    }
}

/// A caller, or what a caller left, with its passes of the gates of a run.
pub trait HasPasses {
    ghost use Rattle.std.specs.Prelude.{◌≡◌};
    ghost use Rattle.gate_node.specs.Passes.{Sights};

    // What it has seen and published by them.
    ghost sights: { Self → Sights };

    /// Its passes.
    fn caller_passes(&self) -> &Passes
        ensures { result.now ≡ sights self.now };
}

impl HasPasses for Passes {
    ghost sights = { λ p. p };

    fn caller_passes(&self) -> &Passes {
        self
    }
}

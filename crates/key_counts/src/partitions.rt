//! What the vnodes of a hand-off's partitions store, each counted in pieces.

ghost use Rattle.std.specs.Prelude.{◌≡◌, ◌<◌, ◌^◌, IfOk, Some, slice_get};
ghost use Rattle.handoff.specs.Sights.{IsOfVnode};
ghost use Rattle.key_counts.specs.Partitions.{AreCounted, IsCountedAt, IsFallbackCounted};
ghost use Rattle.key_counts.specs.Partitions.{IsCountOfAll, counts_at, total_in};
ghost use Rattle.key_counts.specs.Sums.{capped, plus};

use crate::counts::KeyCounts;
use crate::looks::{Counted, count_at};
use ghost_state::GhostList;
use handoff::{Gate, Handoff, Vnode};
use std::alloc::{AllocError, Global};
use std::sync::Wait;

/// What the vnodes of a partition store.
pub struct PartitionCounts {
    /// The primary's.
    pub primary: Counted,
    /// The fallback's, where the partition has one; a closed one holds no keys.
    pub fallback: Option<Counted>,
}

/// One call at each place where one is let go.
impl Drop for PartitionCounts {
    fn drop(self) {
        let PartitionCounts {
            primary: _primary,
            fallback: _fallback,
        } = self;
    }
}

/// The gate of a partition's primary. The index is below the ring's size.
fn primary_gate(handoff: &Handoff, index: u16) -> &Gate<Vnode>
    requires { index < 2 ^ handoff.now.index_bits }
    ensures stands { slice_get handoff.now.gates index ≡ Some result.now }
    ensures vnode { IsOfVnode result.now }
{
    &handoff.gates()[usize::from(index)]
}

/// What the fallback of a partition stores, where it has one. The index is below the ring's size.
fn count_fallback<R: Wait>(
    rt: &R,
    alloc: Global,
    handoff: &Handoff,
    index: u16,
) -> Result<Option<Counted>, AllocError>
    requires { index < 2 ^ handoff.now.index_bits }
    ensures { IfOk result (IsFallbackCounted handoff.now index) }
{
    match handoff.fallback(usize::from(index)) {
        None => Ok(None),
        Some(fallback) => Ok(Some(count_at(rt, alloc, &fallback.gate)?)),
    }
}

/// What the vnodes of a partition store: its primary's, and its fallback's where it has one, each in
/// pieces. The index is below the ring's size. It waits, and needs no memory, as [`count_at`].
pub fn count_partition<R: Wait>(
    rt: &R,
    alloc: Global,
    handoff: &Handoff,
    index: u16,
) -> Result<PartitionCounts, AllocError>
    requires { index < 2 ^ handoff.now.index_bits }
    ensures { IfOk result (IsCountedAt handoff.now index) }
{
    // What is copied back between the two counts is then counted at both, and not at neither.
    let fallback = count_fallback(rt, alloc, handoff, index)?;
    let primary = count_at(rt, alloc, primary_gate(handoff, index))?;
    Ok(PartitionCounts { primary, fallback })
}

/// A total with what the vnodes of a partition store.
fn add_partition(total: KeyCounts, partition: &PartitionCounts) -> KeyCounts
    ensures { result ≡ capped (plus total (counts_at partition.now)) }
{
    let total = total.plus(partition.primary.counts);
    match &partition.fallback {
        None => total,
        Some(fallback) => total.plus(fallback.counts),
    }
}

/// How much the vnodes of all partitions store together, each piece at a moment of its own, while calls go
/// on: the sums of what [`count_partitions`] lists, without the list. It waits, and needs no memory, as
/// [`count_at`].
pub fn count_all<R: Wait>(rt: &R, alloc: Global, handoff: &Handoff) -> Result<KeyCounts, AllocError>
    ensures { IfOk result (IsCountOfAll handoff.now) }
{
    let mut total = KeyCounts::none();
    let mut partitions = GhostList::new();
    for index in 0..handoff.ring().size() {
        let partition = count_partition(rt, alloc, handoff, index)?;
        total = add_partition(total, &partition);
        partitions.push(&partition);
    }
    Ok(total)
}

/// What the vnodes of each partition store, in their order, each piece at a moment of its own, while
/// calls go on. It waits; memory may be refused.
pub fn count_partitions<R: Wait>(
    rt: &R,
    alloc: Global,
    handoff: &Handoff,
) -> Result<Vec<PartitionCounts>, AllocError>
    ensures { IfOk result (λ partitions. AreCounted handoff.now partitions.items) }
{
    let size = handoff.ring().size();
    let mut partitions = Vec::with_capacity(alloc, usize::from(size))?;
    for index in 0..size {
        partitions.push(count_partition(rt, alloc, handoff, index)?)?;
    }
    Ok(partitions)
}

/// The sums of what all of them store.
pub fn total_of(partitions: &[PartitionCounts]) -> KeyCounts
    ensures { result ≡ total_in partitions.now }
{
    let mut total = KeyCounts::none();
    for partition in partitions {
        total = add_partition(total, partition);
    }
    total
}

//! The gates of a run, and the fallbacks of partitions that are diverted.
ghost use Rattle.std.specs.Prelude.{◌≡◌, ◌<◌, ◌≤◌, ◌^◌, Some, length, slice_get};
ghost use Rattle.std.specs.Prelude.{IfOk, IfErr, IfNone, IfSome, IsOkUnless, OnOk, OnErr, None};
ghost use Rattle.std.specs.Option.{option_map};
ghost use Rattle.handoff.specs.Partitions.{AreMadeNew, AreOfNewRun, AreNone, IsFallback};
ghost use Rattle.handoff.specs.Partitions.{IsDiverted, IsDivertRefused, diversion_at};
ghost use Rattle.handoff.specs.Copying.{IsCopiedBack, IsCopyFault};
ghost use Rattle.handoff.specs.Returning.{HasReturned, IsReturnFault};
ghost use Rattle.handoff.specs.Diverted.{IsDivertedAt};

use crate::copying::{Copied, Diverted, copy_keys};
use crate::fault::{HandoffFault, Returned};
use crate::gates::{Fallback, look_start, new_fallback, new_gates, next_diversion, no_fallbacks};
use crate::returning::end_diversion;
use ring_map::Ring;
use rw_gate::Gate;
use std::alloc::Global;
use std::marker::Model;
use std::sync::Wait;
use vnode_core::Vnode;

/// The gates of a run, one round the vnode of each partition of a ring, and beside each partition that is
/// diverted its fallback. Threads share it by reference, so while one is diverted no call of any
/// partition is under way.
///
/// ```text
/// let mut handoff = Handoff::new(alloc, ring, 1)?   the primaries of run 1, with the ids 65536, 65537, ..; none is diverted
/// handoff.diversion(0)                              0
/// handoff.divert(alloc, 0)?                         the calls of partition 0 are for a new vnode from now on, with the id 98304
/// handoff.diversion(0)                              1
/// handoff.fallback(0)                               the gate round that vnode, and 1; the primary's gate and its keys stay
/// handoff.divert(alloc, 0)                          Err(AlreadyDiverted)
/// handoff.diversion(1)                              0: the other partitions are as they were
/// handoff.copy_back(rt, alloc, 0, 10)?              up to ten keys of that vnode, copied to the primary's
/// handoff.finish_return(rt, alloc, 0)?              where all are copied as they are now, the calls are for the primary again
/// handoff.divert(alloc, 0)?                         a new vnode with the id 98304, whose epochs begin behind the last one's
/// handoff.diversion(0)                              2
/// ```
pub struct Handoff {
    ring: Ring,
    run: u32,
    gates: Vec<Gate<Vnode>>,
    fallbacks: Vec<Option<Fallback>>,
}

/// One call at each place where one is let go.
impl Drop for Handoff {
    fn drop(self) {
        let Handoff {
            ring: _ring,
            run: _run,
            gates: _gates,
            fallbacks: _fallbacks,
        } = self;
    }
}

impl Model for Handoff {
    ghost use Rattle.std.specs.Prelude.{◌≡◌, ◌^◌, length};
    ghost use Rattle.handoff.specs.Partitions.{HandoffView, AreOfNewRun, AreFallbacks};
    ghost use Rattle.handoff.specs.Started.{AreStarts};

    ghost Value = { HandoffView };

    ghost view = { λ h. record {
      index_bits = h.ring;
      run = h.run;
      gates = h.gates.items;
      fallbacks = h.fallbacks.items;
    } };

    ghost invariant = { λ h. AreOfNewRun h.run h.gates.items × (length h.gates.items ≡ 2 ^ h.ring)
        × AreFallbacks h.run 0 h.fallbacks.items × (length h.fallbacks.items ≡ 2 ^ h.ring)
        × AreStarts h.gates.items h.fallbacks.items };
}

impl Handoff {
    /// The gates of a run, each round a new vnode: that of the partition at an index has the id `run *
    /// 65536 + index`. The run is at least 1, and its number is used once: contexts that were shown in an
    /// earlier run of the same number may cover what their holders never saw. No partition is diverted.
    /// Refused where memory is.
    pub fn new(alloc: Global, ring: Ring, run: u32) -> Result<Handoff, HandoffFault>
        requires { 1 ≤ run }
        ensures ring { IfOk result (λ h. h.index_bits ≡ ring) }
        ensures run { IfOk result (λ h. h.run ≡ run) }
        ensures gates { IfOk result (λ h. AreMadeNew run 0 h.gates) }
        ensures size { IfOk result (λ h. length h.gates ≡ 2 ^ ring) }
        ensures none { IfOk result (λ h. AreNone h.fallbacks) }
        ensures only { IsOkUnless result HandoffFault.NoMemory }
    {
        let gates = new_gates(alloc, ring, run)?;
        let fallbacks = no_fallbacks(alloc, ring.size())?;
        Ok(Handoff {
            ring,
            run,
            gates,
            fallbacks,
        })
    }

    /// Diverts a partition, whose index is below the ring's size: its calls are for a new vnode from now
    /// on, with the id `run * 65536 + 32768 + index`. The first diversion's vnode begins with epoch 1, a
    /// later one's behind the last epoch of the closed fallback before it; where none is left, it begins
    /// no life. Refused, and all stays as it was, by `NoMemory`, or by `AlreadyDiverted` where the
    /// partition has a fallback that one attempt to read it doesn't show closed, or had 4,294,967,295 of
    /// them.
    pub fn divert(&mut self, alloc: Global, index: u16) -> Result<(), HandoffFault>
        requires { index < 2 ^ self.old.index_bits }
        ensures ok { OnOk result (IsDiverted index self.old self.new) }
        ensures err { OnErr result (self.new ≡ self.old) }
        ensures fault { IfErr result (IsDivertRefused self.old index) }
    {
        let at = usize::from(index);
        let Some(next) = next_diversion(&self.fallbacks[at]) else {
            return Err(HandoffFault::AlreadyDiverted);
        };
        let start = look_start(&self.gates[at]);
        let fallback = new_fallback(alloc, self.run, index, next, start)?;
        self.fallbacks[at] = Some(fallback);
        Ok(())
    }

    /// The gates of a partition that is diverted, or was until its fallback was closed. The index is
    /// below the ring's size.
    fn diverted(&self, index: u16) -> Option<Diverted<'_>>
        requires { index < 2 ^ self.now.index_bits }
        ensures none { IfNone result (slice_get self.now.fallbacks index ≡ Some None) }
        ensures some { IfSome result (λ d. IsDivertedAt self.now index d) }
    {
        let at = usize::from(index);
        let fallback = self.fallback(at)?;
        let primary = &self.gates[at];
        Some(Diverted { primary, fallback })
    }

    /// Copies keys of a partition's fallback back to its primary, while calls go on: in their order, the
    /// first `budget` keys that aren't copied as they are now. Such a one is copied where the primary's
    /// clock of the key has the fallback's own actor of it with the fallback's counter. The index is
    /// below the ring's size.
    ///
    /// It goes through the keys in stretches of 16: under a right to read at the fallback, and one at the
    /// primary, it looks for a key that is left; where one is, it takes the right to write at the primary
    /// in place of that to read, looks again, and publishes a copy of what the look at the fallback
    /// showed. Then it gives all back. Whoever holds a right at a primary asks for no right at a
    /// fallback, so no two calls wait for each other. At last it looks at both once more, and counts what
    /// is left; writes at the fallback wait for that.
    ///
    /// Refused, with what was copied until then copied, by `NotDiverted` where no fallback stands there,
    /// or a look shows it closed, with the pass that has seen that; by `NoMemory`; by `GateStopped`. The
    /// call can be made again.
    pub fn copy_back<R: Wait>(
        &self,
        rt: &R,
        alloc: Global,
        index: u16,
        budget: u32,
    ) -> Result<Copied, HandoffFault>
        requires { index < 2 ^ self.now.index_bits }
        ensures ok { IfOk result (IsCopiedBack self.now index budget) }
        ensures fault { IfErr result (IsCopyFault self.now index) }
    {
        let Some(partition) = self.diverted(index) else {
            return Err(HandoffFault::NotDiverted(None));
        };
        copy_keys(rt, alloc, &partition, budget)
    }

    /// Ends a partition's diversion, where each key of its fallback is copied as it is now: it closes the
    /// fallback, which drops its keys, and later calls go to the primary again. The close carries how
    /// many entries the primary's history had at the look that found it so. By tallies it sees that the
    /// fallback took writes and deletes alone, and that since the partition was diverted only copies came
    /// to the primary; else `GateStopped`. The index is below the ring's size.
    ///
    /// It takes the right to write at the fallback, and then a right to read at the primary; so no two
    /// calls wait for each other, as with `copy_back`.
    ///
    /// Refused, and all stays as it was, by `NotDiverted` where no fallback stands there, or a look shows
    /// it closed, with the pass that has seen that; by `LeftOver`, with the passes that show it, where a
    /// key isn't copied; by `NoMemory`; by `GateStopped`.
    pub fn finish_return<R: Wait>(
        &self,
        rt: &R,
        alloc: Global,
        index: u16,
    ) -> Result<Returned, HandoffFault>
        requires { index < 2 ^ self.now.index_bits }
        ensures ok { IfOk result (HasReturned self.now index) }
        ensures fault { IfErr result (IsReturnFault self.now index) }
    {
        let Some(partition) = self.diverted(index) else {
            return Err(HandoffFault::NotDiverted(None));
        };
        end_diversion(rt, alloc, &partition)
    }

    /// The number of a partition's last diversion, 0 before the first. The index is below the ring's size.
    pub fn diversion(&self, index: u16) -> u32
        requires { index < 2 ^ self.now.index_bits }
        ensures { result ≡ diversion_at self.now index }
    {
        match self.fallback(usize::from(index)) {
            None => 0,
            Some(fallback) => fallback.diversion,
        }
    }

    /// How the partitions are numbered.
    #[inline(always)]
    pub fn ring(&self) -> Ring
        ensures { result ≡ self.now.index_bits }
    {
        self.ring
    }

    /// The gates of the primaries, in the partitions' order.
    #[inline(always)]
    pub fn gates(&self) -> &[Gate<Vnode>]
        ensures gates { result.now ≡ self.now.gates }
        ensures size { length result.now ≡ 2 ^ self.now.index_bits }
        ensures places { length self.now.fallbacks ≡ 2 ^ self.now.index_bits }
        ensures new_run { AreOfNewRun self.now.run self.now.gates }
    {
        self.gates.as_slice()
    }

    /// The fallback of a partition, where it is diverted. The index is below the ring's size.
    #[inline(always)]
    pub fn fallback(&self, index: usize) -> Option<&Fallback>
        requires { index < 2 ^ self.now.index_bits }
        ensures stands { slice_get self.now.fallbacks index
            ≡ Some (option_map (λ f. f.now) result) }
        ensures new { IfSome result (λ f. IsFallback self.now.run index f.now) }
    {
        match &self.fallbacks[index] {
            None => None,
            Some(fallback) => Some(fallback),
        }
    }
}

//! The gates of a run, and what all sessions over them have in common.
ghost use Rattle.std.specs.Prelude.{◌≡◌, ◌≤◌, ◌^◌, IfOk, IsOkUnless, length};
ghost use Rattle.handoff.specs.Partitions.{AreMadeNew, AreNone, AreOfNewRun};
ghost use Rattle.gate_node.specs.Gates.{handoff_of};

use crate::fault::PoolFault;
use crate::turnstile::Turnstile;
use handoff::Handoff;
use ring_map::Ring;
use rw_gate::Gate;
use std::alloc::Global;
use std::marker::Model;
use std::sync::atomic::{AtomicU64, Ordering};
use vnode_core::Vnode;

/// The gates of a run, one round the vnode of each partition of a ring, with the fallbacks of those that are diverted, and what all
/// sessions over them have in common. Threads share it by reference.
///
/// A partition is diverted between two of these: the first gives its gates back, and the second is made over them.
///
/// ```text
/// let shared = Shared::new(alloc, ring, 1, 0, 100)?     no partition is diverted
/// let mut handoff = shared.into_handoff()               once no node is over it
/// handoff.divert(alloc, 0)?                             the calls of partition 0 are for its fallback from now on
/// let shared = Shared::over(handoff, 0, 100)            the same primaries, with all that they hold, and the fallback
/// ```
pub struct Shared {
    pub(crate) handoff: Handoff,
    pub(crate) budget: u32,
    reads: u64,
    /// How many calls have passed a turnstile that sees them. It may wrap.
    calls: AtomicU64,
}

/// One call at each place where one is let go.
impl Drop for Shared {
    fn drop(self) {
        let Shared {
            handoff: _handoff,
            budget: _budget,
            reads: _reads,
            calls: _calls,
        } = self;
    }
}

impl Model for Shared {
    ghost use Rattle.std.specs.Prelude.{◌≤◌, ◌^◌};
    ghost use Rattle.gate_node.specs.Gates.{Gates};

    ghost Value = { Gates };

    ghost view = { λ s. record {
      index_bits = s.handoff.index_bits;
      run = s.handoff.run;
      budget = s.budget;
      reads = s.reads;
      gates = s.handoff.gates;
      fallbacks = s.handoff.fallbacks;
    } };

    ghost invariant = { λ s. s.reads ≤ 2 ^ 32 };
}

impl Shared {
    /// The gates of a run, each round a new vnode: that of the partition at an index has the id `run * 65536 + index`. The
    /// run is at least 1, and its number is used once: contexts that were shown in an earlier run of the same number may
    /// cover what their holders never saw. No partition is diverted. After each answer to a get, a put or a delete the vnode of that
    /// key forgets its first `budget` dead keys. A session over these gates reads at most `reads` times, which is at most
    /// 4,294,967,296. Refused where memory is.
    pub fn new(
        alloc: Global,
        ring: Ring,
        run: u32,
        budget: u32,
        reads: u64,
    ) -> Result<Shared, PoolFault>
        requires run { 1 ≤ run }
        requires reads { reads ≤ 2 ^ 32 }
        ensures ring { IfOk result (λ s. s.index_bits ≡ ring) }
        ensures run { IfOk result (λ s. s.run ≡ run) }
        ensures budget { IfOk result (λ s. s.budget ≡ budget) }
        ensures reads { IfOk result (λ s. s.reads ≡ reads) }
        ensures gates { IfOk result (λ s. AreMadeNew run 0 s.gates) }
        ensures size { IfOk result (λ s. length s.gates ≡ 2 ^ ring) }
        ensures none { IfOk result (λ s. AreNone s.fallbacks) }
        ensures only { IsOkUnless result PoolFault.NoMemory }
    {
        match Handoff::new(alloc, ring, run) {
            Ok(handoff) => Ok(Shared::over(handoff, budget, reads)),
            Err(_) => Err(PoolFault::NoMemory),
        }
    }

    /// These gates and fallbacks, with all that their vnodes hold. It takes no memory.
    pub fn over(handoff: Handoff, budget: u32, reads: u64) -> Shared
        requires { reads ≤ 2 ^ 32 }
        ensures handoff { handoff_of result ≡ handoff }
        ensures budget { result.budget ≡ budget }
        ensures reads { result.reads ≡ reads }
    {
        Shared {
            handoff,
            budget,
            reads,
            calls: AtomicU64::new(0),
        }
    }

    /// The gates and the fallbacks.
    pub fn handoff(&self) -> &Handoff
        ensures { result.now ≡ handoff_of self.now }
    {
        &self.handoff
    }

    /// The gates and the fallbacks, with all that their vnodes hold. It takes no memory.
    pub fn into_handoff(self) -> Handoff
        ensures { result ≡ handoff_of self }
    {
        let Shared {
            handoff,
            budget: _,
            reads: _,
            calls: _,
        } = self;
        handoff
    }

    /// How many times a session over these gates reads at most.
    pub fn reads(&self) -> u64
        ensures reads { result ≡ self.now.reads }
        ensures bound { result ≤ 2 ^ 32 }
    {
        self.reads
    }

    /// The gates of the primaries, in the partitions' order.
    pub fn gates(&self) -> &[Gate<Vnode>]
        ensures gates { result.now ≡ self.now.gates }
        ensures size { length result.now ≡ 2 ^ self.now.index_bits }
        ensures new_run { AreOfNewRun self.now.run self.now.gates }
    {
        self.handoff.gates()
    }

    /// A call that has its right passes the turnstile, under the next number, if that sees calls.
    pub(crate) fn enter<T: Turnstile>(&self, turnstile: &T) {
        if !turnstile.sees_calls() {
            return;
        }
        let calls = self.calls.fetch_add(1, Ordering::SeqCst);
        turnstile.inside(calls.wrapping_add(1));
    }
}

//! How many events a vnode has accepted.

ghost use Rattle.std.specs.Prelude.{◌≡◌};

use crate::vnode::VnodeOver;
use clock_store::ClockStore;

/// How many events of each kind a vnode has accepted since it was new. Each count stops at 18,446,744,073,709,551,615.
#[derive(Clone, Copy, Debug, Drop, PartialEq, Eq)]
pub struct Tally {
    /// Puts; those that were refused don't count.
    pub writes: u64,
    /// Deletes that left a tombstone.
    pub tombstones: u64,
    /// Dead keys that were forgotten.
    pub reaps: u64,
}

impl<S: ClockStore> VnodeOver<S> {
    /// How many puts and deletes it has accepted, and how many dead keys it has forgotten. It takes no memory.
    pub fn tally(&self) -> Tally
        ensures writes { result.writes ≡ self.now.state.writes }
        ensures tombstones { result.tombstones ≡ self.now.state.tombstones }
        ensures reaps { result.reaps ≡ self.now.state.reaps }
    {
        Tally {
            writes: self.writes,
            tombstones: self.tombstones,
            reaps: self.reaps,
        }
    }
}

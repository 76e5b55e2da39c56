//! The keys of a vnode, one after another, and what it knows of each.

ghost use Rattle.std.specs.Prelude.{◌≡◌, [], None, IfSome};
ghost use Rattle.std.specs.Option.{option_map};
ghost use Rattle.riak_msgs.specs.KeyOrder.{key_cmp};
ghost use Rattle.clock_store.specs.Behind.{next_entry};
ghost use Rattle.clock_store.specs.KeyRefs.{key_found, key_after};
ghost use Rattle.clock_store.specs.Keys.{stored_of};
ghost use Rattle.vnode_machine.specs.Copying.{IsStoredClock};
ghost use Rattle.vnode_machine.specs.Machine.{opening, stored};
ghost use Rattle.vnode_machine.specs.Replay.{IsAfter};
ghost use Rattle.vnode_core.specs.Checks.{last_dot};

use crate::checks::last_of;
use crate::vnode::VnodeOver;
use actor_epoch::{Dot, EpochSource};
use clock_store::{ClockStore, FoundKey, KeyRef, StoredClock};
use dvv_set::Clock;
use ghost_state::GhostValue;
use riak_msgs::{Content, Key};
use std::alloc::Global;

impl<S: ClockStore> VnodeOver<S> {
    /// A vnode that holds no key, and whose first life gets the epoch behind `last_epoch`, as if that was
    /// the last one it gave; where it is 4,294,967,295, no life begins. It takes no memory.
    pub fn after(alloc: Global, id: u64, last_epoch: u32) -> VnodeOver<S>
        ensures state { result.state ≡ opening id last_epoch }
        ensures prepared { result.prepared ≡ None }
        ensures register { IsAfter id last_epoch [] result.state }
    {
        VnodeOver {
            id,
            epochs: EpochSource::after(last_epoch),
            writes: 0,
            tombstones: 0,
            reaps: 0,
            store: S::new(alloc),
            ready: None,
            prepared: GhostValue::none(),
            closed: None,
        }
    }

    /// The last epoch that it gave, 0 before any. It takes no memory.
    pub fn last_epoch(&self) -> u32
        ensures { result ≡ self.now.state.last_epoch }
    {
        self.epochs.last()
    }

    /// The number that its close carries; None where it isn't closed. It takes no memory.
    pub fn closed_at(&self) -> Option<u64>
        ensures { result ≡ self.now.state.closed }
    {
        self.closed
    }

    /// The least key behind one, or of all where none is given, present or dead, with its actor and its
    /// clock. The key is lent part by part, since no whole key is stored. It takes no memory.
    pub fn next_key(&self, after: Option<KeyRef<'_>>) -> Option<(FoundKey<'_>, &StoredClock)>
        ensures next { option_map (λ entry. (key_found entry.0, stored_of entry.1.now)) result
            ≡ next_entry key_cmp (key_after after.entry) self.now.state.keys }
        ensures form { IfSome result (λ entry. IsStoredClock entry.1.now.clock.meaning) }
    {
        self.store.next(after)
    }

    /// The clock of a key, present or dead; None where it is absent. It takes no memory.
    pub fn clock(&self, key: &Key) -> Option<&Clock<Option<Content>>>
        ensures { option_map (λ clock. clock.now.meaning) result
            ≡ option_map (λ s. s.clock) (stored self.now.state key.now) }
    {
        match self.store.get(key) {
            None => None,
            Some(stored) => Some(&stored.clock),
        }
    }

    /// The last dot of a key's life at this vnode: its own actor with that one's counter; None where the
    /// key is absent, or came by copies alone. It takes no memory.
    pub fn own(&self, key: &Key) -> Option<Dot>
        ensures { result ≡ last_dot (stored self.now.state key.now) }
    {
        last_of(self.store.get(key))
    }
}

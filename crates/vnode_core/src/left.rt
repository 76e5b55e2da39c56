//! The keys of a vnode, a fallback, that another, its primary, hasn't as they are there now.

ghost use Rattle.std.specs.Prelude.{◌≡◌, ◌+◌, ◌-◌, ◌^◌, min, IfOk};
ghost use Rattle.clock_store.specs.Keys.{stored_of};
ghost use Rattle.vnode_machine.specs.Sound.{IsSound};
ghost use Rattle.vnode_core.specs.Left.{count_left, is_copied, one_unless};

use crate::vnode::Vnode;
use clock_store::{StoredClock, given_parts};
use dvv_set::Clock;
use riak_msgs::{Content, Key};
use std::alloc::{AllocError, Global};

/// Whether the primary has a key as the fallback has it now: the fallback's own actor of the key, with
/// the fallback's counter. Where the fallback's clock has no actor of its own it hasn't.
pub fn is_copied(primary: &Vnode, key: &Key, there: &StoredClock) -> bool
    ensures { result ≡ is_copied primary.now.state (key.now, stored_of there.now) }
{
    let Some(own) = there.actor.get() else {
        return false;
    };
    match primary.clock(key) {
        None => false,
        Some(clock) => clock.counter_of(own) == there.clock.counter_of(own),
    }
}

/// How many keys are left with one more that is copied or isn't; at most 18,446,744,073,709,551,615.
fn add_left(count: u64, is_copied: bool) -> u64
    ensures { result ≡ min (count + one_unless is_copied) (2 ^ 64 - 1) }
{
    if is_copied {
        return count;
    }
    count.saturating_add(1)
}

/// How many keys of the fallback the primary hasn't as they are there now; 18,446,744,073,709,551,615
/// where there are more. Each key is copied, to be found at the primary: refused where memory is. It
/// leaves both as they are.
pub fn count_left(alloc: Global, primary: &Vnode, fallback: &Vnode) -> Result<u64, AllocError>
    requires { IsSound fallback.now.state }
    ensures { IfOk result (λ count. count
        ≡ min (count_left primary.now.state fallback.now.state.keys) (2 ^ 64 - 1)) }
{
    let mut count: u64 = 0;
    let mut at: Option<Key> = None;
    loop {
        let Some((parts, stored)) = fallback.next_key(given_parts(at.as_ref())) else {
            return Ok(count);
        };
        let key = parts.to_key(alloc)?;
        count = add_left(count, is_copied(primary, &key, stored));
        at = Some(key);
    }
}

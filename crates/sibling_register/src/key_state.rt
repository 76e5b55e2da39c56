//! The state of a key at the end of the history.

ghost use Rattle.std.specs.Prelude.{◌≡◌, ◌<◌, ◌^◌, IfOk, Some, nat_eq, is_some};
ghost use Rattle.std.specs.List.{list_any};
ghost use Rattle.std.specs.Option.{option_eq};
ghost use Rattle.sibling_register.specs.History.{count_of, content_of};
ghost use Rattle.sibling_register.specs.Siblings.{siblings, is_present};
ghost use Rattle.sibling_register.specs.Counting.{context_at};
ghost use Rattle.sibling_register.specs.Entries.{is_dead_by, has_too_many_by};

use crate::refusals::MAX_SIBLINGS;
use crate::register::PlainRegister;
use riak_msgs::Key;
use std::alloc::{AllocError, Global};

/// The state of a key at the end of the history: its siblings, newest first; how many events it has; and whether one of
/// the siblings is a write.
#[derive(Drop)]
pub(crate) struct KeyState {
    pub(crate) siblings: Vec<u64>,
    pub(crate) count: u64,
    pub(crate) is_present: bool,
}

/// How many events the key had at a position.
pub(crate) fn count_at<V>(
    register: &PlainRegister<V>,
    key: &Key,
    position: Option<u64>,
) -> Option<u64>
    ensures value { result ≡ context_at register.now key.now position }
{
    match position {
        None => None,
        Some(position) => Some(register.count_before(key, position)),
    }
}

/// Whether the position with this count has the context of the end, where the key has so many events.
pub(crate) fn names_end(named: Option<u64>, count: u64) -> bool
    ensures value { result ≡ option_eq nat_eq named (Some count) }
{
    named == Some(count)
}

/// Whether some of the numbers is of a write.
fn has_write<V>(register: &PlainRegister<V>, key: &Key, numbers: &[u64]) -> bool
    ensures value { result
        ≡ list_any (λ n. is_some (content_of register.now key.now n)) numbers.now }
{
    numbers
        .iter()
        .any(|number| register.value(key, *number).is_some())
}

impl KeyState {
    /// The state of a key of the register.
    pub(crate) fn of<V>(
        alloc: Global,
        register: &PlainRegister<V>,
        key: &Key,
    ) -> Result<KeyState, AllocError>
        ensures siblings { IfOk result (λ s.
            s.siblings.items ≡ siblings register.now key.now) }
        ensures count { IfOk result (λ s. s.count ≡ count_of register.now key.now) }
        ensures bound { IfOk result (λ s. s.count < 2 ^ 63) }
        ensures present { IfOk result (λ s.
            s.is_present ≡ is_present register.now key.now) }
    {
        let siblings = register.siblings(alloc, key)?;
        let count = register.count(key);
        let is_present = has_write(register, key, siblings.as_slice());
        Ok(KeyState {
            siblings,
            count,
            is_present,
        })
    }

    /// Whether it has a sibling, and no write among them.
    pub(crate) fn is_dead(&self) -> bool
        ensures value { result ≡ is_dead_by self.now }
    {
        !self.siblings.is_empty() && !self.is_present
    }

    /// Whether as many siblings as the limit are past the number that was seen.
    pub(crate) fn has_too_many(&self, saw: u64) -> bool
        ensures value { result ≡ has_too_many_by self.now saw }
    {
        self.siblings.iter().filter(|number| **number > saw).count() >= MAX_SIBLINGS
    }
}

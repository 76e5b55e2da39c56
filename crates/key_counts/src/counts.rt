//! How much a vnode stores, counted key by key, in stretches.

ghost use Rattle.std.specs.Prelude.{◌≡◌, ◌-◌, ◌^◌, min, IfOk, IfSome};
ghost use Rattle.names.specs.KeyRefs.{key_found};
ghost use Rattle.vnode_core.specs.Left.{stored_of};
ghost use Rattle.vnode_core.specs.Vnodes.{IsSound};
ghost use Rattle.key_counts.specs.Sums.{capped, no_counts, plus};
ghost use Rattle.key_counts.specs.Stored.{bytes_of, is_dead, one_if, one_key};
ghost use Rattle.key_counts.specs.Stored.{siblings_of, value_len, IsStretch};

use crate::walk::next_key;
use riak_msgs::{Content, Key};
use std::alloc::{AllocError, Global};
use vnode_core::{FoundKey, StoredClock, Vnode};

/// How much is stored. Each number stops at 18,446,744,073,709,551,615.
#[derive(Clone, Copy, Drop, PartialEq, Eq)]
pub struct KeyCounts {
    /// How many keys are stored, dead ones among them.
    pub keys: u64,
    /// How many siblings they have together, tombstones among them.
    pub siblings: u64,
    /// How many of the keys are dead: all their siblings are tombstones.
    pub dead_keys: u64,
    /// How many bytes the values of all siblings have together; a tombstone has none.
    pub value_bytes: u64,
}

impl KeyCounts {
    /// Nothing is stored.
    pub(crate) fn none() -> KeyCounts
        ensures { result ≡ no_counts }
    {
        KeyCounts {
            keys: 0,
            siblings: 0,
            dead_keys: 0,
            value_bytes: 0,
        }
    }

    /// These numbers and others together.
    pub(crate) fn plus(self, more: KeyCounts) -> KeyCounts
        ensures { result ≡ capped (plus self more) }
    {
        KeyCounts {
            keys: self.keys.saturating_add(more.keys),
            siblings: self.siblings.saturating_add(more.siblings),
            dead_keys: self.dead_keys.saturating_add(more.dead_keys),
            value_bytes: self.value_bytes.saturating_add(more.value_bytes),
        }
    }
}

/// How many bytes the value of a sibling has; a tombstone has none.
fn value_len(sibling: &Option<Content>) -> u64
    ensures { result ≡ value_len sibling.now }
{
    match sibling {
        None => 0,
        Some(content) => content.value().len() as u64,
    }
}

/// How many siblings a key has, tombstones among them.
fn count_siblings(stored: &StoredClock) -> u64
    ensures { result ≡ min (siblings_of (stored_of stored.now)) (2 ^ 64 - 1) }
{
    let mut count: u64 = 0;
    for _sibling in stored.clock.values() {
        count = count.saturating_add(1);
    }
    count
}

/// How many bytes the values of a key's siblings have together.
fn count_bytes(stored: &StoredClock) -> u64
    ensures { result ≡ min (bytes_of (stored_of stored.now)) (2 ^ 64 - 1) }
{
    let mut count: u64 = 0;
    for sibling in stored.clock.values() {
        count = count.saturating_add(value_len(sibling));
    }
    count
}

/// 1 for a dead key, whose siblings are all tombstones, and 0 for another.
fn count_dead(stored: &StoredClock) -> u64
    ensures { result ≡ one_if (is_dead (stored_of stored.now)) }
{
    if stored.has_value() {
        return 0;
    }
    1
}

/// What a key counts.
fn count_key(stored: &StoredClock) -> KeyCounts
    ensures { result ≡ capped (one_key (stored_of stored.now)) }
{
    KeyCounts {
        keys: 1,
        siblings: count_siblings(stored),
        dead_keys: count_dead(stored),
        value_bytes: count_bytes(stored),
    }
}

/// How many keys are counted under one right to read: behind so many others have theirs. More are where there is no
/// memory to copy the last of them.
pub const PIECE_KEYS: usize = 1_000;

/// What was counted of a stretch of keys.
#[derive(Clone, Copy, Drop)]
pub struct Stretch {
    pub counts: KeyCounts,
    /// Whether it goes to the last key.
    pub is_last: bool,
}

/// The key at which a piece ends that has counted so much: the last of them, copied, where they are 1,000 or more. None
/// where they are fewer, or memory is refused.
fn ends_at(alloc: Global, counts: KeyCounts, last: &FoundKey<'_>) -> Option<Key>
    ensures { IfSome result (λ key. key ≡ key_found last.now) }
{
    if counts.keys < PIECE_KEYS as u64 {
        return None;
    }
    match last.to_key(alloc) {
        Ok(key) => Some(key),
        Err(_) => None,
    }
}

/// What a vnode stores behind a key, or from the first where none is given, counted key by key: 1,000
/// keys, or as many as there are. The last of them is copied to the key, to go on from it. Where memory
/// is refused for that, the next ones are counted too, until one can be copied or there is no more; the
/// last stretch leaves the key as it is. So it needs no memory. It leaves the vnode as it is.
pub(crate) fn count_stretch(
    alloc: Global,
    vnode: &Vnode,
    at: &mut Option<Key>,
) -> Result<Stretch, AllocError>
    requires { IsSound vnode.now.state }
    ensures { IfOk result (IsStretch vnode.now.state at.old at.new) }
{
    let mut counts = KeyCounts::none();
    let mut found = None;
    loop {
        let next = match next_key(alloc, vnode, at.as_ref(), &found) {
            Ok(next) => next,
            Err(error) => return Err(error),
        };
        let Some((parts, stored)) = next else {
            return Ok(Stretch {
                counts,
                is_last: true,
            });
        };
        counts = counts.plus(count_key(stored));
        if let Some(key) = ends_at(alloc, counts, &parts) {
            *at = Some(key);
            return Ok(Stretch {
                counts,
                is_last: false,
            });
        }
        found = Some(parts);
    }
}

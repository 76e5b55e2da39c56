//! The keys of a fallback that aren't copied as they are now.
ghost use Rattle.std.specs.Prelude.{◌≡◌, IfOk, IfNone, IfSome, None};
ghost use Rattle.std.specs.Option.{option_map};
ghost use Rattle.clock_store.specs.Keys.{stored_of};
ghost use Rattle.vnode_machine.specs.Sound.{IsSound};
ghost use Rattle.handoff.specs.Left.{AreCopied, FindsLeft, IsNextLeft};

use clock_store::{StoredClock, given_parts};
use riak_msgs::Key;
use std::alloc::{AllocError, Global};
use vnode_core::{Vnode, is_copied};

/// A key of a fallback that isn't copied as it is now, and what the fallback stores of it.
#[derive(Drop)]
pub(crate) struct Left<'a> {
    pub(crate) key: Key,
    pub(crate) stored: &'a StoredClock,
}

/// What a walk over some keys of a fallback found.
#[derive(Drop)]
pub(crate) enum Found<'a> {
    /// No key is left, up to the last one.
    End,
    /// No key is left up to this one, and there it stopped.
    Passed(Key),
    /// The first that is.
    Next(Left<'a>),
}

/// A copy of the key that is given, or none. Refused where memory is.
fn copy_of(alloc: Global, key: Option<&Key>) -> Result<Option<Key>, AllocError>
    ensures { IfOk result (λ copy. copy ≡ option_map (λ k. k.now) key.entry) }
{
    match key {
        None => Ok(None),
        Some(key) => Ok(Some(key.clone(alloc)?)),
    }
}

/// The first key of the fallback's vnode, behind one or of all, that the primary's hasn't as it is there
/// now, where it is among the first so many, and one more. Each key on the way is copied, to be found at
/// the primary: refused where memory is.
pub(crate) fn next_left<'a>(
    alloc: Global,
    primary: &Vnode,
    fallback: &'a Vnode,
    after: Option<&Key>,
    most: u32,
) -> Result<Found<'a>, AllocError>
    requires sound { IsSound fallback.now.state }
    ensures { IfOk result (FindsLeft primary.now.state fallback.now.state
        (option_map (λ k. k.now) after.entry)) }
{
    let mut looked: u32 = 0;
    let mut at = copy_of(alloc, after)?;
    loop {
        let Some((parts, stored)) = fallback.next_key(given_parts(at.as_ref())) else {
            return Ok(Found::End);
        };
        let key = parts.to_key(alloc)?;
        if !is_copied(primary, &key, stored) {
            return Ok(Found::Next(Left { key, stored }));
        }
        if looked >= most {
            return Ok(Found::Passed(key));
        }
        looked += 1;
        at = Some(key);
    }
}

/// The first key of the fallback's vnode that the primary's hasn't as it is there now.
pub(crate) fn first_left<'a>(
    alloc: Global,
    primary: &Vnode,
    fallback: &'a Vnode,
) -> Result<Option<Left<'a>>, AllocError>
    requires sound { IsSound fallback.now.state }
    ensures none { IfOk result (λ left. IfNone left
        (AreCopied primary.now.state fallback.now.state.keys)) }
    ensures some { IfOk result (λ left. IfSome left (λ l.
        IsNextLeft primary.now.state fallback.now.state None l.key (stored_of l.stored.now))) }
{
    let mut at: Option<Key> = None;
    loop {
        match next_left(alloc, primary, fallback, at.as_ref(), u32::MAX)? {
            Found::End => return Ok(None),
            Found::Next(left) => return Ok(Some(left)),
            Found::Passed(key) => at = Some(key),
        }
    }
}

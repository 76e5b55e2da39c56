//! A context that a reply showed, and the position that it names.

ghost use Rattle.std.specs.Prelude.{◌≡◌, OnOk, false};
ghost use Rattle.std.specs.Option.{option_map_or};
ghost use Rattle.std.specs.Cmp.Lexicographic.{pointwise};
ghost use Rattle.actor_epoch.specs.Dots.{dot_eq};
ghost use Rattle.actor_epoch.specs.Given.{context_of, pairs_read};
ghost use Rattle.schedule_text.specs.Compared.{is_of, is_unknown, position_given, shown_by};

use crate::shown_contexts::ShownContexts;
use actor_epoch::Context;
use riak_msgs::{Bytes, Key};
use std::alloc::{AllocError, Global};

/// A context that a reply showed for a key, and the position of the register's history at which it was shown first.
#[derive(Drop)]
pub struct ShownContext {
    pub(crate) key: Key,
    pub(crate) context: Bytes,
    pub(crate) position: u64,
}

/// Whether two contexts have the same pairs.
fn have_same_pairs(context: &Context<'_>, other: &Context<'_>) -> bool
    ensures { result ≡ pointwise dot_eq context.now other.now }
{
    let mut others = other.pairs();
    for pair in context.pairs() {
        match others.next() {
            None => return false,
            Some(other) => {
                if pair != other {
                    return false;
                }
            }
        }
    }
    others.next().is_none()
}

/// Whether bytes are a context with these pairs.
fn is_same_context(context: &Context<'_>, bytes: &[u8]) -> bool
    ensures { result ≡ option_map_or (pointwise dot_eq context.now)
        (pairs_read (context_of bytes.now)) false }
{
    match Context::read(bytes) {
        None => false,
        Some(other) => have_same_pairs(context, &other),
    }
}

impl ShownContext {
    /// Whether it is this context, and was shown for this key.
    pub(crate) fn is_of(&self, key: &Key, context: &Context<'_>) -> bool
        ensures { result ≡ is_of key.now context.now self.now }
    {
        self.key.is_same(key) && is_same_context(context, self.context.as_slice())
    }
}

/// The position of what is given as a context for a key: none where it is of another form, or wasn't shown for the key.
pub(crate) fn position_given(shown: &ShownContexts, key: &Key, given: &[u8]) -> Option<u64>
    ensures { result ≡ position_given shown.now key.now (context_of given.now) }
{
    match Context::read(given) {
        None => None,
        Some(context) => shown.position_of(key, &context),
    }
}

/// Whether what is given as a context is of the right form, and wasn't shown for the key.
pub(crate) fn is_unknown(shown: &ShownContexts, key: &Key, given: &[u8]) -> bool
    ensures { result ≡ is_unknown shown.now key.now (context_of given.now) }
{
    match Context::read(given) {
        None => false,
        Some(context) => shown.position_of(key, &context).is_none(),
    }
}

/// Notes the context that a reply shows for a key, where it wasn't shown before: it names this position.
pub(crate) fn note(
    alloc: Global,
    shown: &mut ShownContexts,
    key: &Key,
    context: &[u8],
    position: u64,
) -> Result<(), AllocError>
    ensures { OnOk result (shown.new ≡ shown_by context.now key.now position shown.old) }
{
    if !is_unknown(shown, key, context) {
        return Ok(());
    }
    let key = key.clone(alloc)?;
    let context = Bytes::from_slice(alloc, context)?;
    let entry = ShownContext {
        key,
        context,
        position,
    };
    shown.push(alloc, entry)
}

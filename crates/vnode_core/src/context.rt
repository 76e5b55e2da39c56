//! The context that a command gives.

ghost use Rattle.std.specs.Prelude.{◌≡◌, ◌≢◌, Some, length};
ghost use Rattle.std.specs.List.{list_any};
ghost use Rattle.actor_epoch.specs.Given.{context_of, pairs_read, Malformed};
ghost use Rattle.dvv_set.specs.Held.{pairs_of as seen_in};
ghost use Rattle.vnode_core.specs.Checks.{pairs_in, AreRead, is_ahead};

use actor_epoch::{Context, Dot};

/// How many pairs it has.
pub(crate) fn len(context: Option<&Context<'_>>) -> usize
    ensures { result ≡ length (pairs_in (seen_in context.entry)) }
{
    match context {
        None => 0,
        Some(context) => context.pairs().len(),
    }
}

/// What the context of a command has seen whose form was checked, with no second look at it; None where it gives none.
pub(crate) fn seen_by(given: &[u8]) -> Option<Context<'_>>
    requires { context_of given.now ≢ Some Malformed }
    ensures { result ≡ pairs_read (context_of given.now) }
{
    if given.is_empty() {
        return None;
    }
    Some(Context::of_form(given))
}

/// Whether some pair can't have been given by a vnode of this id, which gave this epoch last and this dot last in the
/// key's life.
#[inline(always)]
pub(crate) fn names_unissued_dot(
    context: Option<&Context<'_>>,
    vnode: u64,
    last_epoch: u32,
    last: Option<Dot>,
) -> bool
    ensures ahead { result ≡ list_any (is_ahead vnode last_epoch last)
        (pairs_in (seen_in context.entry)) }
    ensures read { AreRead (seen_in context.entry) }
{
    if let Some(context) = context {
        for (actor, counter) in context.pairs() {
            if is_ahead(vnode, last_epoch, last, Dot { actor, counter }) {
                return true;
            }
        }
    }
    false
}

/// Whether a pair can't have been given so.
#[inline(always)]
pub(crate) fn is_ahead(vnode: u64, last_epoch: u32, last: Option<Dot>, pair: Dot) -> bool
    ensures { result ≡ is_ahead vnode last_epoch last pair }
{
    if pair.actor.vnode == vnode && last_epoch < pair.actor.epoch {
        return true;
    }
    match last {
        None => false,
        Some(own) => pair.actor == own.actor && own.counter < pair.counter,
    }
}

/// What was read is of the form, as its pairs say. It does nothing.
#[inline(always)]
pub(crate) fn is_read(context: Option<&Context<'_>>)
    ensures { AreRead (seen_in context.entry) }
{
    if let Some(context) = context {
        let _pairs = context.pairs();
    }
}

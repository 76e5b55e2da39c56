//! Who makes a write of a key that its own actor alone has written, by a context that names no other: most writes are such.

ghost use Rattle.std.specs.Prelude.{◌≡◌, ◌||◌, false, None, Some, IfSome};
ghost use Rattle.dvv_set.specs.Held.{pairs_of as seen_in};
ghost use Rattle.clock_store.specs.Keys.{stored_of};
ghost use Rattle.dvv_set.specs.Soles.{SawAlone};
ghost use Rattle.vnode_core.specs.Checks.{found_in, siblings_check};
ghost use Rattle.vnode_core.specs.Soles.{IsSole, IsSeenAlone, MakesSole, MakesPlain};

use crate::checks::{MAX_SIBLINGS, Writer};
use crate::context::is_ahead;
use crate::replies::only_pair;
use actor_epoch::{Context, Counter, Dot, MAX_COUNTER};
use clock_store::StoredClock;
use riak_msgs::PutAsk;

/// The last dot of a key whose clock knows its own actor alone; None where it knows another.
#[inline(always)]
fn sole_dot(key: &StoredClock) -> Option<Dot>
    ensures { IfSome result (λ last. IsSole (stored_of key.now) last) }
{
    let own = key.actor.get()?;
    let (actor, counter) = only_pair(&key.clock)?;
    if actor == own {
        return Some(Dot { actor, counter });
    }
    None
}

/// The counter up to which a context has seen a key's own actor, 0 without one, by the key's last dot; None where it names
/// another actor, or what a vnode of this id can't have given, which gave this epoch last.
#[inline(always)]
fn sole_seen(id: u64, last_epoch: u32, last: Dot, context: Option<&Context<'_>>) -> Option<Counter>
    ensures { IfSome result (λ counter.
        IsSeenAlone id last_epoch last (seen_in context.entry) counter) }
{
    match context {
        None => Some(0),
        Some(context) => {
            let (actor, counter) = context.sole_pair()?;
            let pair = Dot { actor, counter };
            if is_ahead(id, last_epoch, Some(last), pair) {
                return None;
            }
            if actor == last.actor {
                return Some(counter);
            }
            None
        }
    }
}

/// Whether so many siblings stay that a write is refused. A context that has seen the last dot leaves none, and they aren't
/// counted.
#[inline(always)]
fn leaves_too_many(
    key: &StoredClock,
    last: Dot,
    context: Option<&Context<'_>>,
    seen: Counter,
) -> bool
    requires sole { IsSole (stored_of key.now) last }
    requires saw { SawAlone (seen_in context) last.actor seen }
    ensures { result ≡ false
        → siblings_check key.now.clock.meaning (seen_in context.entry) ≡ None }
{
    if seen == last.counter {
        return false;
    }
    key.clock.has_uncovered(context, MAX_SIBLINGS)
}

/// Who makes a write of a stored key that its own actor alone has written, by a context that names no other, where there is
/// room for it: all checks are decided by the key's last dot and the number of its siblings.
#[inline(always)]
fn stored_writer(
    id: u64,
    last_epoch: u32,
    key: &StoredClock,
    context: Option<&Context<'_>>,
) -> Option<Writer>
    ensures { IfSome result (λ writer. MakesSole id last_epoch
        (Some (stored_of key.now)) (seen_in context.entry) writer) }
{
    let last = sole_dot(key)?;
    if last.counter == MAX_COUNTER {
        return None;
    }
    let seen = sole_seen(id, last_epoch, last, context)?;
    if leaves_too_many(key, last, context, seen) {
        return None;
    }
    Some(Writer {
        actor: last.actor,
        last_epoch,
    })
}

/// Who makes such a write, by what was found of its key. None where the key is absent or the write is no such one: then it
/// goes through all checks one after another.
#[inline(always)]
pub(crate) fn sole_writer(
    id: u64,
    last_epoch: u32,
    found: Option<&StoredClock>,
    context: Option<&Context<'_>>,
) -> Option<Writer>
    ensures { IfSome result (λ writer. MakesSole id last_epoch
        (found_in found.entry) (seen_in context.entry) writer) }
{
    match found {
        None => None,
        Some(key) => stored_writer(id, last_epoch, key, context),
    }
}

/// Whether a put asks for conditions on what is stored.
#[inline(always)]
fn has_conditions(put: &PutAsk) -> bool
    ensures { result ≡ (put.now.if_none_match || put.now.if_not_modified) }
{
    put.if_none_match || put.if_not_modified
}

/// Who makes such a put, where it asks for no conditions.
#[inline(always)]
pub(crate) fn plain_writer(
    id: u64,
    last_epoch: u32,
    put: &PutAsk,
    found: Option<&StoredClock>,
    context: Option<&Context<'_>>,
) -> Option<Writer>
    ensures { IfSome result (λ writer. MakesPlain id last_epoch
        put.now (found_in found.entry) (seen_in context.entry) writer) }
{
    if has_conditions(put) {
        return None;
    }
    let writer = sole_writer(id, last_epoch, found, context)?;
    Some(writer)
}

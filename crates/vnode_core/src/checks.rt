//! The checks of a write, by what is stored of its key, and who makes it. They take no memory.

ghost use Rattle.std.specs.Prelude.{◌≡◌, ◌<◌, true, false, Some, None, IfOk, OnOk};
ghost use Rattle.actor_epoch.specs.Dots.{counter_in};
ghost use Rattle.dvv_set.specs.Clocks.{join};
ghost use Rattle.dvv_set.specs.Held.{pairs_of as seen_in};
ghost use Rattle.dvv_set.specs.Laws.{IsClock};
ghost use Rattle.vnode_core.specs.Checks.{found_in, last_dot, has_value_in, is_current_in};
ghost use Rattle.vnode_core.specs.Checks.{options_check, ChecksStored, ChecksRoom, first_writer};
ghost use Rattle.vnode_core.specs.Checks.{next_writer, GivesWriter, GivesWriterOf, siblings_check};
ghost use Rattle.vnode_core.specs.Checks.{actor_check, writer_check};
ghost use Rattle.vnode_machine.specs.Sound.{IsForm, IsFormed};
ghost use Rattle.vnode_core.specs.Refusals.{GivenBy, RefusedBy};
ghost use Rattle.clock_store.specs.Keys.{stored_of};

use crate::context;
use crate::refusal::Refusal;
use actor_epoch::{Actor, Context, Dot, MAX_ACTORS, MAX_COUNTER, MAX_EPOCH};
use clock_store::StoredClock;
use riak_msgs::PutAsk;

/// The most siblings of a key, as the clock counts them.
pub(crate) const MAX_SIBLINGS: u128 = sibling_register::MAX_SIBLINGS as u128;

/// Who makes a write: the actor of its key's life, or the next one's where it begins a life, as that of
/// an absent key does and that of a key that came by copies alone; and the last epoch that is given once
/// it is made.
#[derive(Clone, Copy, Drop)]
pub(crate) struct Writer {
    /// The actor of the key's life.
    pub(crate) actor: Actor,
    /// The last epoch that is given then.
    pub(crate) last_epoch: u32,
}

/// The last dot of a key's life; None where it is in none: absent, or come by copies alone.
#[inline(always)]
pub(crate) fn last_of(found: Option<&StoredClock>) -> Option<Dot>
    ensures { result ≡ last_dot (found_in found.entry) }
{
    let key = found?;
    let actor = key.actor.get()?;
    Some(Dot {
        actor,
        counter: key.clock.counter_of(actor),
    })
}

/// Whether there is a value.
fn has_value(found: Option<&StoredClock>) -> bool
    ensures { result ≡ has_value_in (found_in found.entry) }
{
    match found {
        None => false,
        Some(key) => key.has_value(),
    }
}

/// Whether the context is the key's.
fn matches_clock(found: Option<&StoredClock>, context: Option<&Context<'_>>) -> bool
    ensures { result ≡ is_current_in (found_in found.entry) (seen_in context.entry) }
{
    match found {
        None => false,
        Some(key) => match context {
            None => false,
            Some(context) => key.matches_clock(context),
        },
    }
}

/// Whether the options of a put let it go on.
pub(crate) fn check_options(
    put: &PutAsk,
    found: Option<&StoredClock>,
    context: Option<&Context<'_>>,
) -> Result<(), Refusal>
    ensures { GivenBy result
        (options_check put.now (found_in found.entry) (seen_in context.entry)) }
{
    if put.if_none_match {
        if has_value(found) {
            return Err(Refusal::MatchFound);
        }
        return Ok(());
    }
    if put.if_not_modified {
        if !has_value(found) {
            return Err(Refusal::NotFound);
        }
        if !matches_clock(found, context) {
            return Err(Refusal::Modified);
        }
    }
    Ok(())
}

/// Whether a stored key has room for one sibling more beside those that a context hasn't seen.
fn check_siblings(key: &StoredClock, context: Option<&Context<'_>>) -> Result<(), Refusal>
    ensures { GivenBy result (siblings_check key.now.clock.meaning (seen_in context.entry)) }
{
    if key.clock.has_uncovered(context, MAX_SIBLINGS) {
        return Err(Refusal::TooManySiblings);
    }
    Ok(())
}

/// Whether the clock of a stored key has room for one write more at the actor of a dot, its last there,
/// without what its context has seen.
fn check_actor(key: &StoredClock, context: Option<&Context<'_>>, last: Dot) -> Result<(), Refusal>
    requires { last.counter ≡ counter_in key.now.clock.meaning.known last.actor }
    ensures given { GivenBy result
        (actor_check key.now.clock.meaning (seen_in context.entry) last.actor false) }
    ensures clock { IsClock key.now.clock.meaning }
{
    if key.clock.is_actors_full(context, last.actor) {
        return Err(Refusal::ClockFull);
    }
    if last.counter == MAX_COUNTER {
        return Err(Refusal::CounterUsedUp);
    }
    Ok(())
}

/// What refuses the first write of a key's life where every epoch was given: too many actors, or that. The clock has no
/// actor of epoch 0, so that this one counts as one more, as the next one would.
fn refusal_without_epoch(id: u64, key: &StoredClock, context: Option<&Context<'_>>) -> Refusal
    requires { IsForm (stored_of key.now) }
    ensures given { RefusedBy result (actor_check key.now.clock.meaning (seen_in context.entry)
        (first_writer id MAX_EPOCH).actor true) }
    ensures clock { IsClock key.now.clock.meaning }
{
    let unknown = Actor {
        vnode: id,
        epoch: 0,
    };
    context::is_read(context);
    if key.clock.is_actors_full(context, unknown) {
        return Refusal::ClockFull;
    }
    Refusal::EpochsUsedUp
}

/// Whether a key that came by copies alone has room for the first write of its life, and who makes it.
fn check_first_writer(
    id: u64,
    last_epoch: u32,
    key: &StoredClock,
    context: Option<&Context<'_>>,
) -> Result<Writer, Refusal>
    requires form { IsForm (stored_of key.now) }
    requires none { key.now.actor ≡ None }
    ensures given { GivenBy result
        (writer_check id last_epoch (stored_of key.now) (seen_in context.entry)) }
    ensures writer { IfOk result (λ writer. writer ≡ first_writer id last_epoch) }
    ensures clock { IsClock key.now.clock.meaning }
{
    if last_epoch == MAX_EPOCH {
        return Err(refusal_without_epoch(id, key, context));
    }
    let writer = first_writer(id, last_epoch);
    let actor = writer.actor;
    let counter = key.clock.counter_of(actor);
    check_actor(key, context, Dot { actor, counter })?;
    Ok(writer)
}

/// Whether the clock of a stored key has room for one write more, without what its context has seen, and
/// who makes it: the actor of its life, whose last dot was found, or the next one's of a key that came by
/// copies alone.
#[inline(always)]
fn check_writer(
    id: u64,
    last_epoch: u32,
    key: &StoredClock,
    last: Option<Dot>,
    context: Option<&Context<'_>>,
) -> Result<Writer, Refusal>
    requires form { IsForm (stored_of key.now) }
    requires last { last ≡ last_dot (Some (stored_of key.now)) }
    ensures given { GivenBy result
        (writer_check id last_epoch (stored_of key.now) (seen_in context.entry)) }
    ensures writer { IfOk result (λ writer. writer ≡ next_writer id last_epoch key.now.actor) }
    ensures clock { IsClock key.now.clock.meaning }
{
    let Some(last) = last else {
        return check_first_writer(id, last_epoch, key, context);
    };
    check_actor(key, context, last)?;
    Ok(Writer {
        actor: last.actor,
        last_epoch,
    })
}

/// Whether a stored key has room for one write more, which discards what its context has seen, and who makes it.
#[inline(always)]
fn check_stored(
    id: u64,
    last_epoch: u32,
    key: &StoredClock,
    last: Option<Dot>,
    context: Option<&Context<'_>>,
) -> Result<Writer, Refusal>
    requires form { IsForm (stored_of key.now) }
    requires last { last ≡ last_dot (Some (stored_of key.now)) }
    ensures given { ChecksStored id last_epoch
        (stored_of key.now) (seen_in context.entry) result }
    ensures writer { GivesWriterOf id last_epoch (stored_of key.now) result }
{
    check_siblings(key, context)?;
    check_writer(id, last_epoch, key, last, context)
}

/// Whether there is room for the first write of a life at a vnode that gave this epoch last, by a context that doesn't
/// run ahead.
fn check_new(id: u64, last_epoch: u32, context: Option<&Context<'_>>) -> Result<(), Refusal>
    ensures given { ChecksRoom id last_epoch None (seen_in context.entry) result }
    ensures left { OnOk result (last_epoch < MAX_EPOCH) }
{
    if MAX_ACTORS <= context::len(context) {
        return Err(Refusal::ClockFull);
    }
    if last_epoch == MAX_EPOCH {
        return Err(Refusal::EpochsUsedUp);
    }
    Ok(())
}

/// Whether a key has room for one write more, which discards what its context has seen, and who makes it: where it was
/// not found, or has no actor, the next life's.
#[inline(always)]
pub(crate) fn check_room(
    id: u64,
    last_epoch: u32,
    found: Option<&StoredClock>,
    last: Option<Dot>,
    context: Option<&Context<'_>>,
) -> Result<Writer, Refusal>
    requires form { IsFormed (found_in found) }
    requires last { last ≡ last_dot (found_in found) }
    ensures given { ChecksRoom id last_epoch (found_in found.entry) (seen_in context.entry) result }
    ensures writer { GivesWriter id last_epoch
        (found_in found.entry) (seen_in context.entry) result }
{
    match found {
        Some(key) => check_stored(id, last_epoch, key, last, context),
        None => {
            check_new(id, last_epoch, context)?;
            Ok(first_writer(id, last_epoch))
        }
    }
}

/// Who begins the next life.
fn first_writer(id: u64, last_epoch: u32) -> Writer
    requires { last_epoch < MAX_EPOCH }
    ensures { result ≡ first_writer id last_epoch }
{
    let epoch = last_epoch + 1;
    Writer {
        actor: Actor { vnode: id, epoch },
        last_epoch: epoch,
    }
}

/// Whether a stored key has room for one write more in place of all its values, and who makes it.
pub(crate) fn check_overwrite(
    id: u64,
    last_epoch: u32,
    key: &StoredClock,
) -> Result<Writer, Refusal>
    requires { IsForm (stored_of key.now) }
    ensures given { ChecksStored id last_epoch
        (stored_of key.now) (Some (join key.now.clock.meaning)) result }
    ensures writer { GivesWriterOf id last_epoch (stored_of key.now) result }
{
    check_writer(id, last_epoch, key, last_of(Some(key)), None)
}

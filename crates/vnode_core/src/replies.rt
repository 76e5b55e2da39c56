//! What a vnode answers.

ghost use Rattle.std.specs.Prelude.{◌≡◌, ◌||◌, [], ◌∷◌, None, Some, IfOk, IfSome, IsTrue, map};
ghost use Rattle.vnode_core.specs.Checks.{found_in};
ghost use Rattle.actor_epoch.specs.Contexts.{encoding, is_well_formed};
ghost use Rattle.dvv_set.specs.Clocks.{discard, event};
ghost use Rattle.dvv_set.specs.Laws.{IsClock};
ghost use Rattle.actor_epoch.specs.Entries.{entries_of, entry_of};
ghost use Rattle.actor_epoch.specs.Given.{context_of};
ghost use Rattle.dvv_set.specs.Held.{IsWithin, pairs_of as seen_in};
ghost use Rattle.riak_msgs.specs.Contents.{Content, shown};
ghost use Rattle.vnode_core.specs.Replies.{nothing, nothing_after, is_its, all_shown, siblings_of};
ghost use Rattle.vnode_core.specs.Replies.{reply_after, filled, clock_after, clock_found, RefersTo};
ghost use Rattle.vnode_core.specs.Replies.{Previews, FitsPut, sole};
ghost use Rattle.clock_store.specs.Keys.{stored_of};

use crate::checks::MAX_SIBLINGS;
use actor_epoch::{Actor, Context, Counter};
use clock_store::StoredClock;
use dvv_set::Clock;
use riak_msgs::{Content, ContextBytes, GetAsk, GetReply, PutAsk, PutReply, Sequence, Shown};
use std::alloc::{AllocError, Global};
use std::default::MadeWith;

/// The answer to a get of an absent key.
pub(crate) fn absent_reply(alloc: Global) -> GetReply
    ensures { result ≡ nothing }
{
    GetReply {
        contents: Sequence::new(alloc),
        context: ContextBytes::new(alloc),
        unchanged: false,
    }
}

/// A sibling as a reply shows it, without its value where it is to be bare.
fn show(sibling: &Option<Content>, is_bare: bool) -> Result<Shown, AllocError>
    ensures { IfOk result (λ s. s ≡ shown is_bare sibling.now) }
{
    match sibling {
        None => Ok(Shown::tombstone()),
        Some(content) => Shown::of_content(content, is_bare),
    }
}

/// The room that a clock's values are given at once: theirs, since a key has no more siblings than its limit.
fn room_for<V: MadeWith<Global> + Drop>(clock: &Clock<V>) -> usize {
    clock.uncovered(None).min(MAX_SIBLINGS) as usize
}

/// A key's siblings as a reply shows them: further owners of their bytes.
fn show_all(alloc: Global, key: &StoredClock, is_bare: bool) -> Result<Sequence<Shown>, AllocError>
    ensures { IfOk result (λ all. all ≡ all_shown is_bare key.now.clock.meaning) }
{
    let mut all = Sequence::with_capacity(alloc, room_for(&key.clock))?;
    for sibling in key.clock.values() {
        all.push(show(sibling, is_bare)?)?;
    }
    Ok(all)
}

/// The pair that a clock knows, where it knows one alone, as most do.
#[inline(always)]
pub(crate) fn only_pair<V: MadeWith<Global> + Drop>(clock: &Clock<V>) -> Option<(Actor, Counter)>
    ensures pair { IfSome result (λ pair. entries_of (pair ∷ []) ≡ clock.now.meaning.known) }
    ensures clock { IsClock clock.now.meaning }
{
    let mut known = clock.join();
    let pair = known.next()?;
    match known.next() {
        None => Some(pair),
        Some(_) => None,
    }
}

/// The pairs that a clock knows.
fn known_pairs<V: MadeWith<Global> + Drop>(
    alloc: Global,
    clock: &Clock<V>,
) -> Result<Vec<(Actor, Counter)>, AllocError>
    ensures { IfOk result (λ pairs. entries_of pairs.items ≡ clock.now.meaning.known) }
{
    let mut pairs = Vec::new(alloc);
    for pair in clock.join() {
        pairs.push(pair)?;
    }
    Ok(pairs)
}

/// The bytes of a context of these pairs.
fn write_context(alloc: Global, pairs: &[(Actor, Counter)]) -> Result<ContextBytes, AllocError>
    requires { IsTrue (is_well_formed (entries_of pairs.now)) }
    ensures { IfOk result (λ bytes. bytes ≡ encoding (entries_of pairs.now)) }
{
    let bytes = Context::write(alloc, pairs)?;
    Ok(ContextBytes::from_vec(bytes))
}

/// A context of one pair, but for the pair.
const PAIR_CONTEXT: [u8; 21] = [
    2, 0, 0, 0, 0, 0, 0, 0, 0, 0, 0, 0, 0, 0, 0, 0, 0, 0, 0, 0, 0,
];

/// The bytes of a context of one pair. They take no memory, since so many lie in the value itself.
#[inline(always)]
fn pair_context(alloc: Global, actor: Actor, counter: Counter) -> Result<ContextBytes, AllocError>
    ensures { IfOk result (λ bytes. bytes ≡ encoding (entry_of (actor, counter) ∷ [])) }
{
    let mut bytes = PAIR_CONTEXT;
    bytes[1..].copy_from_slice(&Context::pair_bytes(actor, counter));
    ContextBytes::from_slice(alloc, &bytes)
}

/// The bytes of a clock's context.
fn context_of<V: MadeWith<Global> + Drop>(
    alloc: Global,
    clock: &Clock<V>,
) -> Result<ContextBytes, AllocError>
    requires { IsTrue (is_well_formed clock.now.meaning.known) }
    ensures { IfOk result (λ bytes. bytes ≡ encoding clock.now.meaning.known) }
{
    match only_pair(clock) {
        Some((actor, counter)) => pair_context(alloc, actor, counter),
        None => {
            let pairs = known_pairs(alloc, clock)?;
            write_context(alloc, pairs.as_slice())
        }
    }
}

/// Whether these bytes, as given, are a stored key's context.
#[inline(always)]
pub(crate) fn is_shown_by(key: &StoredClock, given: &[u8]) -> bool
    ensures { result ≡ is_its (stored_of key.now) (context_of given.now) }
{
    match Context::read(given) {
        None => false,
        Some(context) => key.matches_clock(&context),
    }
}

/// The answer to a get of a stored key: all its siblings, and its context. Where it is dead, whose siblings are all
/// tombstones, it shows no sibling, and the context where the get asks for it. Where it isn't, and the get gives the
/// key's own context, it is `unchanged` alone.
pub(crate) fn siblings_reply(
    alloc: Global,
    key: &StoredClock,
    ask: &GetAsk,
) -> Result<GetReply, AllocError>
    requires { IsTrue (is_well_formed key.now.clock.meaning.known) }
    ensures { IfOk result (λ reply. reply ≡ siblings_of (stored_of key.now) ask.now) }
{
    let mut reply = absent_reply(alloc);
    let is_alive = key.has_value();
    if is_alive && is_shown_by(key, ask.if_modified.as_slice()) {
        reply.unchanged = true;
        return Ok(reply);
    }
    if is_alive {
        reply.contents = show_all(alloc, key, ask.head)?;
    }
    if is_alive || ask.deletedvclock {
        reply.context = context_of(alloc, &key.clock)?;
    }
    Ok(reply)
}

/// The answer to an accepted put that asked to be shown nothing.
fn accepted(alloc: Global) -> PutReply
    ensures { result ≡ nothing_after }
{
    PutReply {
        contents: Sequence::new(alloc),
        context: ContextBytes::new(alloc),
    }
}

/// The clock of a key with references to its siblings; an empty one, where the key was not found.
fn references(
    alloc: Global,
    found: Option<&StoredClock>,
) -> Result<Clock<Option<&Option<Content>>>, AllocError>
    ensures { IfOk result (λ clock. RefersTo clock.meaning (clock_found (found_in found.entry))) }
{
    match found {
        None => Ok(Clock::new(alloc)),
        Some(key) => key.clock.references(alloc),
    }
}

/// Whether a put asks to be shown siblings.
fn shows_siblings(put: &PutAsk) -> bool
    ensures { result ≡ (put.now.return_body || put.now.return_head) }
{
    put.return_body || put.return_head
}

/// The clock of a key as a put leaves it, with references to the siblings that stay, and none in the place of what is
/// put.
fn preview<'a>(
    alloc: Global,
    found: Option<&'a StoredClock>,
    context: Option<&Context<'_>>,
    actor: Actor,
) -> Result<Clock<Option<&'a Option<Content>>>, AllocError>
    requires { IsWithin (clock_found (found_in found)).known (seen_in context) actor }
    ensures { IfOk result (λ clock.
        Previews clock.meaning (found_in found.entry) (seen_in context.entry) actor) }
{
    let mut clock = references(alloc, found)?;
    clock.reserve(context, actor)?;
    clock.put_ready(context, actor, None);
    Ok(clock)
}

/// A sibling that stays, or where there is none the content that is put, as a reply shows it.
fn show_filled(
    sibling: Option<&Option<Content>>,
    content: &Content,
    is_bare: bool,
) -> Result<Shown, AllocError>
    ensures { IfOk result (λ s. s ≡ shown is_bare (filled content.now sibling.entry)) }
{
    match sibling {
        None => Shown::of_content(content, is_bare),
        Some(sibling) => show(sibling, is_bare),
    }
}

/// The siblings after a put as its reply shows them.
fn show_after(
    alloc: Global,
    after: &Clock<Option<&Option<Content>>>,
    content: &Content,
    is_bare: bool,
) -> Result<Sequence<Shown>, AllocError>
    ensures { IfOk result (λ all. all ≡
        map (λ entry. shown is_bare (filled content.now entry.1)) after.now.meaning.live) }
{
    let mut all = Sequence::with_capacity(alloc, room_for(after))?;
    for sibling in after.values() {
        all.push(show_filled(*sibling, content, is_bare)?)?;
    }
    Ok(all)
}

/// The counter of the first dot of a new key's life, where a put at it gives no context.
fn first_counter(context: Option<&Context<'_>>) -> Option<Counter>
    ensures { IfSome result (λ counter. (counter ≡ 1) × (seen_in context.entry ≡ None)) }
{
    match context {
        None => Some(1),
        Some(_) => None,
    }
}

/// The counter of the next dot of an actor, where this one alone has written a key, and the context has seen all of it.
fn next_sole_counter(key: &StoredClock, context: &Context<'_>, actor: Actor) -> Option<Counter>
    ensures { IfSome result (λ counter. (content : Content) →
        event actor (Some content) (discard context.now key.now.clock.meaning)
        ≡ sole (entry_of (actor, counter)) content) }
{
    let (only, counter) = only_pair(&key.clock)?;
    if only == actor && key.matches_clock(context) {
        return counter.checked_add(1);
    }
    None
}

/// The counter of the dot that a put is given, where its content is the one sibling after it and its
/// actor the one that is known then: at a new key, and where the context has seen all of a key that this
/// actor alone has written. Most puts that are shown siblings are such, and need no clock to preview.
fn sole_counter(
    found: Option<&StoredClock>,
    context: Option<&Context<'_>>,
    actor: Actor,
) -> Option<Counter>
    ensures { IfSome result (λ counter. (content : Content) →
        clock_after (found_in found.entry) (seen_in context.entry) actor content
        ≡ sole (entry_of (actor, counter)) content) }
{
    let Some(key) = found else {
        return first_counter(context);
    };
    next_sole_counter(key, context?, actor)
}

/// The reply to a put whose content is the one sibling after it, and whose actor the one that is known then.
fn sole_reply(
    alloc: Global,
    put: &PutAsk,
    actor: Actor,
    counter: Counter,
) -> Result<PutReply, AllocError>
    requires { IsTrue (put.now.return_body || put.now.return_head) }
    ensures { IfOk result (λ reply. reply
        ≡ reply_after (sole (entry_of (actor, counter)) put.now.content) put.now) }
{
    let mut contents = Sequence::with_capacity(alloc, 1)?;
    contents.push(Shown::of_content(&put.content, !put.return_body)?)?;
    let context = pair_context(alloc, actor, counter)?;
    Ok(PutReply { contents, context })
}

/// The answer to an accepted put, by what was found of its key before it: nothing, or where it asked for
/// them the siblings after it, with their values or without, and the context. No content is copied: what
/// is shown is a further owner of its bytes.
pub(crate) fn put_reply(
    alloc: Global,
    found: Option<&StoredClock>,
    put: &PutAsk,
    context: Option<&Context<'_>>,
    actor: Actor,
) -> Result<PutReply, AllocError>
    requires { FitsPut (found_in found) (seen_in context) actor }
    ensures { IfOk result (λ reply. reply ≡ reply_after
        (clock_after (found_in found.entry) (seen_in context.entry) actor put.now.content)
        put.now) }
{
    if !shows_siblings(put) {
        return Ok(accepted(alloc));
    }
    if let Some(counter) = sole_counter(found, context, actor) {
        return sole_reply(alloc, put, actor, counter);
    }
    let after = preview(alloc, found, context, actor)?;
    let contents = show_after(alloc, &after, &put.content, !put.return_body)?;
    let context = context_of(alloc, &after)?;
    Ok(PutReply { contents, context })
}

//! One vnode.
ghost use Rattle.std.specs.Prelude.{◌≡◌, ◌-◌, ◌≤◌, [], None, Some, IfOk, IfErr, OnOk};
ghost use Rattle.std.specs.Option.{option_map};
ghost use Rattle.actor_epoch.specs.Given.{context_of, Pairs};
ghost use Rattle.dvv_set.specs.Held.{pairs_of as seen_in};
ghost use Rattle.sibling_register.specs.Answers.{AskGet};
ghost use Rattle.vnode_machine.specs.Asks.{get_command, put_command};
ghost use Rattle.vnode_machine.specs.Machine.{opening, stored, put_check};
ghost use Rattle.vnode_machine.specs.Replay.{IsAfter};
ghost use Rattle.vnode_machine.specs.Step.{outcome, Answered, GetDone};
ghost use Rattle.vnode_core.specs.Checks.{found_in, writer_of};
ghost use Rattle.vnode_core.specs.declared.ask.Ask.TheVariants.{Put, Del};
ghost use Rattle.vnode_machine.specs.Sound.{IsSound};
ghost use Rattle.vnode_core.specs.Plans.{AcceptsPrepared, IsPrepared, IsWrite, Plans, RefusesOpen};
ghost use Rattle.vnode_core.specs.Plans.{Refuses, Registers, RegistersPlan, RegistersStep, Steps};
ghost use Rattle.vnode_core.specs.Readiness.{plan_in};
ghost use Rattle.vnode_core.specs.Refusals.{GivenBy};
ghost use Rattle.vnode_core.specs.declared.ask.Answer.TheVariants as answers;
ghost use Rattle.vnode_core.specs.Replies.{FitsPut, clock_after, reply_after};
ghost use Rattle.vnode_core.specs.Vnodes.{written_by, IsOfForm, HasRoomFor, AcceptsPut};

mod copying;
mod deleting;
mod keys;
mod reaping;
mod refusing;
mod showing;
mod tally;

use crate::ask::{Answer, Ask, Plan};
use crate::change::Change;
use crate::checks::{Writer, check_options, check_room, last_of};
use crate::context::{self, names_unissued_dot};
use crate::laid_answer::LaidAnswer;
use crate::ready::{Readiness, Ready, plan_of, refuse, set_ready, tombstones_after, writes_after};
use crate::refusal::Refusal;
use crate::replies::{absent_reply, put_reply, siblings_reply};
use crate::sole_writer::plain_writer;
use actor_epoch::{Actor, Context, EpochSource};
use clock_store::{ClockMap, ClockStore, StoredClock, WriteKind, place_in, stored_in};
use ghost_state::GhostValue;
use riak_msgs::{DelAsk, GetAsk, GetReply, PutAsk};
use std::alloc::{AllocError, Global};
use std::marker::Model;
pub use tally::Tally;

/// One vnode: the keys that it holds, with their siblings. Contracts see the machine's state, and the command that was
/// prepared last and isn't made yet.
///
/// A life, of a vnode with id 65536 and first epoch 1, and of the key k in the bucket b:
///
/// - `new`: it holds no key and has given no epoch. A get of b/k shows nothing, and no context.
/// - put "v": b/k is absent, so a life of it begins, at the actor (65536, 1), and "v" has that actor's dot 1. A get
///   shows "v", and a context of one entry: the actor with counter 1.
/// - put "w", again without a context: it saw nothing, so "v" stays beside it. "w" has dot 2. A get shows "w" and "v",
///   the newest first, and the actor with counter 2.
/// - put "x" by the context that the first get showed: it saw "v" and not "w". "x" has dot 3; "v" is gone, and a get
///   shows "x" and "w", and the actor with counter 3.
/// - put on b/j: a life of another key, at the actor (65536, 2). Its context covers nothing of b/k; a put on b/k that
///   gives it leaves all siblings, and the clock of b/k knows that actor from then on.
/// - 62 puts more on b/k without context are accepted. Then it has 64 siblings, and the next is refused:
///   `TooManySiblings`. What a get shows stays as it was; a put by the context that it shows leaves that put alone.
/// - delete of b/j without a context: it sees all that is stored there. Its tombstone has dot 2 of (65536, 2), and
///   b/j is dead: a get shows nothing, and with `deletedvclock` the context. Another delete has dot 3.
/// - put "y" on b/j without a context, with `return_body`: it saw no tombstone. The reply shows "y" and, deleted, the
///   tombstone, and the actor with counter 4, as a get shows them then.
/// - delete of b/i, which is absent, without a context: it does nothing, and takes no epoch. By the
///   context of b/j it is a tombstone, and begins a life at (65536, 3).
pub struct VnodeOver<S: ClockStore> {
    id: u64,
    epochs: EpochSource,
    writes: u64,
    tombstones: u64,
    reaps: u64,
    store: S,
    ready: Option<Ready>,
    prepared: GhostValue<Ask>,
    closed: Option<u64>,
}

/// One call at each place where one is let go.
impl<S: ClockStore> Drop for VnodeOver<S> {
    fn drop(self) {
        let VnodeOver {
            id: _id,
            epochs: _epochs,
            writes: _writes,
            tombstones: _tombstones,
            reaps: _reaps,
            store: _store,
            ready: _ready,
            prepared: _prepared,
            closed: _closed,
        } = self;
    }
}

impl<S: ClockStore> Model for VnodeOver<S> {
    ghost use Rattle.vnode_core.specs.Plans.{View};

    ghost Value = { View };

    ghost use Rattle.vnode_core.specs.Vnodes.{fields, view_of, IsVnode};

    ghost view = { λ v. view_of (fields v.id v.epochs v.writes v.tombstones v.reaps
        (S.shows v.store) v.ready v.prepared v.closed) };

    ghost invariant = { λ v. IsVnode (fields v.id v.epochs v.writes v.tombstones v.reaps
        (S.shows v.store) v.ready v.prepared v.closed) };
}

/// A vnode over the ordered map of clocks.
pub type Vnode = VnodeOver<ClockMap>;

/// Gives up what lies ready, with its room.
fn give_up<S: ClockStore>(store: &mut S, ready: &mut Option<Ready>)
    ensures { (S.shows store.new).keys ≡ (S.shows store.old).keys }
{
    if ready.take().is_some() {
        store.drop_room();
    }
}

/// Writes what a command asks for, at an actor, where there is room.
fn write<S: ClockStore>(store: &mut S, ask: Ask, actor: Actor)
    requires form { IsOfForm ask }
    requires room { HasRoomFor (S.shows store.old) ask actor }
    ensures { (S.shows store.new).keys ≡ written_by (S.shows store.old).keys ask actor }
{
    match ask {
        Ask::Put(put) => write_content(store, put, actor),
        Ask::Del(del) => write_tombstone(store, del, actor),
        Ask::Reap(_) | Ask::ReapFirst(_) | Ask::Copy(_) | Ask::Close(_) => unreachable!(),
    }
}

/// Writes the content of a put.
fn write_content<S: ClockStore>(store: &mut S, put: PutAsk, actor: Actor)
    requires form { IsOfForm (Put put) }
    requires room { HasRoomFor (S.shows store.old) (Put put) actor }
    ensures { (S.shows store.new).keys ≡ written_by (S.shows store.old).keys (Put put) actor }
{
    let PutAsk {
        key,
        context,
        content,
        ..
    } = put;
    let seen = context::seen_by(context.as_slice());
    store.write(key, seen.as_ref(), actor, Some(content));
}

/// Writes the tombstone of a delete: over what its context has seen, or without one over all.
fn write_tombstone<S: ClockStore>(store: &mut S, del: DelAsk, actor: Actor)
    requires form { IsOfForm (Del del) }
    requires room { HasRoomFor (S.shows store.old) (Del del) actor }
    ensures { (S.shows store.new).keys ≡ written_by (S.shows store.old).keys (Del del) actor }
{
    let DelAsk { key, context } = del;
    match context::seen_by(context.as_slice()) {
        None => store.overwrite(key, actor, None),
        Some(seen) => store.write(key, Some(&seen), actor, None),
    }
}

/// Lays the answer to an accepted put ready, by what was found of its key. Refused where memory is.
#[inline(always)]
fn lay_answer(
    alloc: Global,
    found: Option<&StoredClock>,
    put: &PutAsk,
    context: Option<&Context<'_>>,
    actor: Actor,
) -> Result<LaidAnswer, AllocError>
    requires { FitsPut (found_in found) (seen_in context) actor }
    ensures { IfOk result (λ laid. laid ≡ answers.Put (reply_after
        (clock_after (found_in found.entry) (seen_in context.entry) actor put.now.content)
        put.now)) }
{
    if !put.return_body && !put.return_head {
        return Ok(LaidAnswer::of_put(alloc));
    }
    match put_reply(alloc, found, put, context, actor) {
        Ok(reply) => LaidAnswer::of_reply(alloc, reply),
        Err(error) => Err(error),
    }
}

impl<S: ClockStore> VnodeOver<S> {
    /// A vnode that holds no key, and whose first life gets the epoch `first_epoch`. It takes no memory.
    pub fn new(alloc: Global, id: u64, first_epoch: u32) -> VnodeOver<S>
        requires { 1 ≤ first_epoch }
        ensures state { result.state ≡ opening id (first_epoch - 1) }
        ensures prepared { result.prepared ≡ None }
        ensures register { IsAfter id (first_epoch - 1) [] result.state }
    {
        VnodeOver::after(alloc, id, first_epoch - 1)
    }

    /// Shows a key: its siblings, the newest first, and the bytes of its context; nothing, where the key is absent. A
    /// dead key, whose siblings are all tombstones, shows its context alone, and that with `deletedvclock` alone.
    /// With `head` the values are empty. Where the key has a value and `if_modified` has the entries of its clock,
    /// the reply is `unchanged` alone; any other `if_modified` is as none. Refused for want of memory alone.
    pub fn get(&self, alloc: Global, ask: &GetAsk) -> Result<GetReply, Refusal>
        ensures ok { IfOk result (λ reply.
            outcome self.now.state (AskGet (get_command ask.now)) ≡ Answered (GetDone reply)) }
        ensures err { IfErr result (λ refusal. refusal ≡ Refusal.NoMemory) }
        ensures register { IfOk result (λ reply.
            Registers self.now.state (AskGet (get_command ask.now)) (Answered (GetDone reply))) }
    {
        match self.store.get(&ask.key) {
            None => Ok(absent_reply(alloc)),
            Some(key) => Ok(siblings_reply(alloc, key, ask)?),
        }
    }

    /// Checks a put by what was found of its key; returns who makes it.
    pub(crate) fn check_put(
        &self,
        put: &PutAsk,
        found: Option<&StoredClock>,
        context: Option<&Context<'_>>,
    ) -> Result<Writer, Refusal>
        requires given { context_of put.now.context ≡ option_map Pairs (seen_in context) }
        requires found { found_in found ≡ stored self.now.state put.now.key }
        ensures sound { IsSound self.now.state }
        ensures given { GivenBy result (put_check self.now.state (put_command put.now)) }
        ensures writer { IfOk result (λ writer. writer ≡ writer_of self.now.state put.now.key) }
    {
        let last_epoch = self.epochs.last();
        if let Some(writer) = plain_writer(self.id, last_epoch, put, found, context) {
            return Ok(writer);
        }
        let last = last_of(found);
        if names_unissued_dot(context, self.id, last_epoch, last) {
            return Err(Refusal::BadContext);
        }
        check_options(put, found, context)?;
        check_room(self.id, last_epoch, found, last, context)
    }

    /// Gives up what was prepared.
    fn drop_prepared(&mut self)
        ensures same { self.new.state ≡ self.old.state }
        ensures ended { self.new.prepared ≡ None }
        ensures sound { IsSound self.old.state }
        ensures accepted { AcceptsPrepared self.old }
    {
        self.prepared = GhostValue::none(); // the earlier one is given up
        give_up(&mut self.store, &mut self.ready);
    }

    /// Makes ready all that a command needs, where nothing is prepared; then it is what is prepared.
    fn make_ready(&mut self, alloc: Global, ask: &Ask) -> Result<Readiness, Refusal>
        requires ended { self.old.prepared ≡ None }
        requires opened { self.old.state.closed ≡ None }
        ensures same { self.new.state ≡ self.old.state }
        ensures ok { IfOk result (λ r. Plans self.new ask.now (plan_in r ask.now)) }
        ensures err { IfErr result (λ refusal. Refuses self.old.state ask.now refusal) }
        ensures ended { IfErr result (λ refusal. self.new.prepared ≡ None) }
    {
        match ask {
            Ask::Put(put) => {
                self.make_put_ready(alloc, ask, put)?;
                Ok(Readiness::Ready)
            }
            Ask::Del(del) => self.make_del_ready(alloc, ask, del),
            Ask::Reap(key) => Ok(self.make_reap_ready(ask, key)),
            Ask::ReapFirst(from) => Ok(self.make_first_reap_ready(ask, from.as_ref())),
            Ask::Copy(copy) => self.make_copy_ready(alloc, ask, copy),
            Ask::Close(number) => Ok(self.make_close_ready(ask, *number)),
        }
    }

    /// Who makes a put, and its reply, by what was found of its key.
    fn plan_put(
        &self,
        alloc: Global,
        put: &PutAsk,
        found: Option<&StoredClock>,
        context: Option<&Context<'_>>,
    ) -> Result<Ready, Refusal>
        requires given { context_of put.now.context ≡ option_map Pairs (seen_in context) }
        requires found { found_in found ≡ stored self.now.state put.now.key }
        ensures ok { IfOk result (λ ready. AcceptsPut self.now.state put.now ready) }
        ensures err { IfErr result (λ refusal. RefusesOpen self.now.state (Put put.now) refusal) }
    {
        let writer = self.check_put(put, found, context)?;
        let answer = lay_answer(alloc, found, put, context, writer.actor)?;
        Ok(Ready { writer, answer })
    }

    /// Makes ready what a put needs: room for its content, and its answer. Its key is searched for once.
    fn make_put_ready(&mut self, alloc: Global, ask: &Ask, put: &PutAsk) -> Result<(), Refusal>
        requires is { ask.now ≡ Put put.now }
        requires ended { self.old.prepared ≡ None }
        requires opened { self.old.state.closed ≡ None }
        ensures same { self.new.state ≡ self.old.state }
        ensures ok { OnOk result (IsPrepared self.new (Put put.now) (Put put.now)) }
        ensures err { IfErr result (λ refusal. Refuses self.old.state (Put put.now) refusal) }
        ensures ended { IfErr result (λ refusal. self.new.prepared ≡ None) }
    {
        let context = Context::given(put.context.as_slice())?;
        let seen = context.as_ref();
        let found = self.store.find(&put.key);
        let ready = self.plan_put(alloc, put, stored_in(found), seen)?;
        let actor = ready.writer.actor;
        let place = place_in(found);
        let kind = WriteKind::Value;
        match self
            .store
            .reserve(alloc, &put.key, place, seen, actor, kind)
        {
            Ok(()) => {
                set_ready(&mut self.ready, ready);
                self.prepared = GhostValue::some(ask);
                Ok(())
            }
            Err(_) => {
                drop(ready);
                Err(Refusal::NoMemory)
            }
        }
    }

    /// Plans a command: checks it, makes all the room that it needs, and its answer. Nothing changes until the change
    /// is finished; a change that isn't finished is as if never asked for, and the next `prepare` ends it, also one
    /// that is refused. The room of a copy that was given up stays until room is made again, or a reap or a close
    /// ends it. A delete without context of an absent key does nothing: it is `Plan::Nothing`, whatever memory there
    /// is. So is a copy that is `Stuck`, and whatever is asked of a vnode that is closed: the answer is `Closed`.
    ///
    /// The answer to a put shows nothing, or with `return_body` all siblings after it, the newest first,
    /// and the context; with `return_head` alone the same with empty values.
    ///
    /// Refusals, the first that holds, by checks that take no memory: `BadContext`, where the context isn't of the
    /// form, or names an epoch of this vnode above the last one given, or the key's own actor with a counter above
    /// the stored one; `MatchFound`, where the put asks for no value and there is one; `NotFound` and `Modified`,
    /// where it asks for an unchanged key and not for no value, and there is no value, or the context hasn't the
    /// entries of the key's clock; `TooManySiblings`, where more than 63 siblings aren't covered by the context;
    /// `ClockFull`, where the actors of the key's clock, of the context and the key's own are more than 64;
    /// `EpochsUsedUp`, where the key is absent or came by copies alone, and the epoch 4,294,967,295 was given;
    /// `CounterUsedUp`, where the key's actor has the dot 18,446,744,073,709,551,615. The own actor of a key that has
    /// none is the next one. `NoMemory`, where none of these holds and a growth was refused. Each leaves the state as
    /// it was. The options are a put's alone. Without a context a put covers nothing, and a delete all that is
    /// stored: `BadContext` and `TooManySiblings` never refuse such a delete.
    #[inline(always)]
    pub fn prepare(&mut self, alloc: Global, ask: Ask) -> Result<Plan<Change, Answer>, Refusal>
        ensures same { self.new.state ≡ self.old.state }
        ensures ok { IfOk result (λ plan. Plans self.new ask plan) }
        ensures err { IfErr result (λ refusal. Refuses self.old.state ask refusal) }
        ensures ended { IfErr result (λ refusal. self.new.prepared ≡ None) }
        ensures register { RegistersPlan self.old.state ask result }
    {
        self.drop_prepared();
        if self.closed.is_some() {
            return Ok(plan_of(ask, Readiness::Closed));
        }
        match self.make_ready(alloc, &ask) {
            Ok(Readiness::Ready) => Ok(Plan::Change(Change { ask })),
            Ok(readiness) => Ok(plan_of(ask, readiness)),
            Err(refusal) => Err(refuse(ask, refusal)),
        }
    }

    /// Makes the change that this vnode prepared last, and answers it. It takes no memory and is never refused.
    #[inline(always)]
    pub fn finish(&mut self, change: Change) -> Answer
        requires { self.old.prepared ≡ Some change }
        ensures step { Steps self.old.state change result self.new.state }
        ensures ended { self.new.prepared ≡ None }
        ensures register { RegistersStep self.old.state change result self.new.state }
    {
        match change.ask {
            Ask::Reap(key) => self.finish_reap(key),
            Ask::ReapFirst(from) => self.finish_first_reap(from),
            Ask::Copy(copy) => self.finish_copy(copy),
            Ask::Close(number) => self.finish_close(number),
            write => self.finish_write(write),
        }
    }

    /// Makes the write that is prepared.
    fn finish_write(&mut self, ask: Ask) -> Answer
        requires write { IsWrite ask }
        requires prepared { self.old.prepared ≡ Some ask }
        ensures step { Steps self.old.state ask result self.new.state }
        ensures ended { self.new.prepared ≡ None }
        ensures register { RegistersStep self.old.state ask result self.new.state }
    {
        self.prepared = GhostValue::none(); // it is made now
        let Some(Ready { writer, answer }) = self.ready.take() else {
            unreachable!()
        };
        self.epochs = EpochSource::after(writer.last_epoch);
        self.writes = writes_after(self.writes, &ask);
        self.tombstones = tombstones_after(self.tombstones, &ask);
        write(&mut self.store, ask, writer.actor);
        answer.into_answer()
    }
}

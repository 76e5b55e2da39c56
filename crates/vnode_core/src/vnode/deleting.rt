//! Deletes of a vnode: a tombstone over what the deleter has seen of a key.

ghost use Rattle.std.specs.Prelude.{◌≡◌, None, IfOk, IfErr};
ghost use Rattle.std.specs.Option.{option_map};
ghost use Rattle.actor_epoch.specs.Given.{context_of, Pairs};
ghost use Rattle.dvv_set.specs.Held.{pairs_of as seen_in};
ghost use Rattle.vnode_core.specs.declared.ask.Ask.TheVariants.{Del};
ghost use Rattle.vnode_core.specs.Plans.{Plans, Refuses};
ghost use Rattle.vnode_core.specs.Refusals.{GivenBy};
ghost use Rattle.vnode_machine.specs.Machine.{stored};
ghost use Rattle.vnode_core.specs.Checks.{found_in, writer_of};
ghost use Rattle.vnode_core.specs.Readiness.{plan_in};
ghost use Rattle.vnode_core.specs.Vnodes.{del_check_by, DelOfAllGives, PlansDel};

use crate::ask::{Answer, Ask};
use crate::checks::{Writer, check_overwrite, check_room, last_of};
use crate::context::names_unissued_dot;
use crate::laid_answer::LaidAnswer;
use crate::ready::{Readiness, Ready, set_ready};
use crate::refusal::Refusal;
use crate::sole_writer::sole_writer;
use crate::vnode::VnodeOver;
use actor_epoch::Context;
use clock_store::{ClockStore, StoredClock, WriteKind, place_in, stored_in};
use ghost_state::GhostValue;
use riak_msgs::{DelAsk, Key};
use std::alloc::Global;

impl<S: ClockStore> VnodeOver<S> {
    /// Checks a delete by a context, by what was found of its key; returns who writes its tombstone.
    fn check_del(
        &self,
        key: &Key,
        found: Option<&StoredClock>,
        context: &Context<'_>,
    ) -> Result<Writer, Refusal>
        requires { found_in found ≡ stored self.now.state key.now }
        ensures given { GivenBy result (del_check_by self.now.state key.now context.now) }
        ensures writer { IfOk result (λ writer. writer ≡ writer_of self.now.state key.now) }
    {
        let _key = key;
        let last_epoch = self.epochs.last();
        if let Some(writer) = sole_writer(self.id, last_epoch, found, Some(context)) {
            return Ok(writer);
        }
        let last = last_of(found);
        if names_unissued_dot(Some(context), self.id, last_epoch, last) {
            return Err(Refusal::BadContext);
        }
        check_room(self.id, last_epoch, found, last, Some(context))
    }

    /// Checks a delete without context, by what was found of its key; returns who writes its tombstone:
    /// nobody, where the key is absent.
    fn check_del_of_all(
        &self,
        key: &Key,
        found: Option<&StoredClock>,
    ) -> Result<Option<Writer>, Refusal>
        requires { found_in found ≡ stored self.now.state key.now }
        ensures { DelOfAllGives self.now.state key.now result }
    {
        let _key = key;
        let Some(found) = found else {
            return Ok(None);
        };
        let writer = check_overwrite(self.id, self.epochs.last(), found)?;
        Ok(Some(writer))
    }

    /// Who writes the tombstone of a delete, by what was found of its key; nobody, where it does nothing.
    fn tombstone_writer(
        &self,
        del: &DelAsk,
        found: Option<&StoredClock>,
        context: Option<&Context<'_>>,
    ) -> Result<Option<Writer>, Refusal>
        requires given { context_of del.now.context ≡ option_map Pairs (seen_in context) }
        requires found { found_in found ≡ stored self.now.state del.now.key }
        ensures { PlansDel self.now.state del.now result }
    {
        match context {
            None => self.check_del_of_all(&del.key, found),
            Some(context) => Ok(Some(self.check_del(&del.key, found, context)?)),
        }
    }

    /// Makes ready what a delete needs: room for its tombstone; then it is what is prepared. One that
    /// does nothing needs nothing. Its key is searched for once.
    pub(crate) fn make_del_ready(
        &mut self,
        alloc: Global,
        ask: &Ask,
        del: &DelAsk,
    ) -> Result<Readiness, Refusal>
        requires is { ask.now ≡ Del del.now }
        requires ended { self.old.prepared ≡ None }
        requires opened { self.old.state.closed ≡ None }
        ensures same { self.new.state ≡ self.old.state }
        ensures ok { IfOk result (λ r. Plans self.new (Del del.now) (plan_in r (Del del.now))) }
        ensures err { IfErr result (λ refusal. Refuses self.old.state (Del del.now) refusal) }
        ensures ended { IfErr result (λ refusal. self.new.prepared ≡ None) }
    {
        let context = Context::given(del.context.as_slice())?;
        let seen = context.as_ref();
        let found = self.store.find(&del.key);
        let Some(writer) = self.tombstone_writer(del, stored_in(found), seen)? else {
            return Ok(Readiness::NothingToDelete);
        };
        let actor = writer.actor;
        let place = place_in(found);
        let kind = WriteKind::Tombstone;
        self.store
            .reserve(alloc, &del.key, place, seen, actor, kind)?;
        let answer = LaidAnswer::of_del(alloc);
        set_ready(&mut self.ready, Ready { writer, answer });
        self.prepared = GhostValue::some(ask);
        Ok(Readiness::Ready)
    }
}

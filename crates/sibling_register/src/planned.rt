//! The outcome of a command, before anything is kept.

ghost use Rattle.std.specs.Prelude.{◌≡◌, IfOk};
ghost use Rattle.sibling_register.specs.Answers.{Answers};
ghost use Rattle.sibling_register.specs.Plain.{asked, answer_of};
ghost use Rattle.sibling_register.specs.Entries.{outcome_of, IsOutcomeOf};

use crate::command::Command;
use crate::del::plan_del;
use crate::entry::Entry;
use crate::get::plan_get;
use crate::put::{Put, plan_put};
use crate::reap::plan_reap;
use crate::register::PlainRegister;
use crate::told::Told;
use std::alloc::{AllocError, Global};

/// What a command is answered, and the entry that is then kept of it.
#[derive(Drop)]
pub(crate) struct Planned<V> {
    pub(crate) told: Told,
    pub(crate) entry: Option<Entry<V>>,
}

impl<V> Planned<V> {
    /// An answer of which nothing is kept.
    pub(crate) fn answer(told: Told) -> Self
        ensures value { outcome_of result ≡ Answers (answer_of told) }
    {
        Planned { told, entry: None }
    }
}

/// The outcome of a command.
pub(crate) fn plan<V: Drop>(
    alloc: Global,
    register: &PlainRegister<V>,
    command: Command<V>,
) -> Result<Planned<V>, AllocError>
    ensures value { IfOk result (IsOutcomeOf register.now (asked register.now command)) }
{
    match command {
        Command::Get {
            key,
            if_modified,
            head,
            deletedvclock,
        } => plan_get(alloc, register, &key, if_modified, head, deletedvclock),
        Command::Put {
            key,
            context,
            value,
            return_body,
            return_head,
            if_not_modified,
            if_none_match,
        } => {
            let put = Put {
                key,
                context,
                value,
                return_body,
                return_head,
                if_not_modified,
                if_none_match,
            };
            plan_put(alloc, register, put)
        }
        Command::Del { key, context } => plan_del(alloc, register, key, context),
        Command::Reap { key } => plan_reap(alloc, register, key),
    }
}

//! Reaps.

ghost use Rattle.std.specs.Prelude.{IfOk};
ghost use Rattle.sibling_register.specs.Answers.{AskReap};
ghost use Rattle.sibling_register.specs.Entries.{IsOutcomeOf};

use crate::entry::Entry;
use crate::key_state::KeyState;
use crate::operation::Operation;
use crate::planned::Planned;
use crate::register::PlainRegister;
use crate::told::Told;
use riak_msgs::Key;
use std::alloc::{AllocError, Global};

/// The outcome of a reap.
pub(crate) fn plan_reap<V>(
    alloc: Global,
    register: &PlainRegister<V>,
    key: Key,
) -> Result<Planned<V>, AllocError>
    ensures value { IfOk result (IsOutcomeOf register.now (AskReap key)) }
{
    let key_state = KeyState::of(alloc, register, &key)?;
    if !key_state.is_dead() {
        return Ok(Planned::answer(Told::Kept));
    }
    let entry = Entry {
        key,
        operation: Operation::Reap,
        context: None,
        saw: key_state.count,
    };
    Ok(Planned {
        told: Told::Reaped,
        entry: Some(entry),
    })
}

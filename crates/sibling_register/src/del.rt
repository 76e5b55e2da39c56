//! Deletes.

ghost use Rattle.std.specs.Prelude.{◌≡◌, IfOk, is_none, ◌&&◌, ◌==◌, length, unwrap_or};
ghost use Rattle.sibling_register.specs.Answers.{AskDel};
ghost use Rattle.sibling_register.specs.Entries.{del_of, IsOutcomeOf};

use crate::entry::Entry;
use crate::key_state::{KeyState, count_at};
use crate::operation::Operation;
use crate::planned::Planned;
use crate::refusals::TOO_MANY_SIBLINGS;
use crate::register::PlainRegister;
use crate::told::Told;
use riak_msgs::Key;
use std::alloc::{AllocError, Global};

/// Whether a delete does nothing: it gives no context, and its key is absent.
fn is_idle(named: Option<u64>, key_state: &KeyState) -> bool
    ensures value { result ≡ (is_none named && (length key_state.now.siblings.items == 0)) }
{
    named.is_none() && key_state.siblings.is_empty()
}

/// Up to which number a delete saw the key's events: all of them, where it gives no context.
fn seen_by_delete(named: Option<u64>, count: u64) -> u64
    ensures value { result ≡ unwrap_or named count }
{
    named.unwrap_or(count)
}

/// The outcome of a delete.
pub(crate) fn plan_del<V>(
    alloc: Global,
    register: &PlainRegister<V>,
    key: Key,
    context: Option<u64>,
) -> Result<Planned<V>, AllocError>
    ensures value { IfOk result (IsOutcomeOf register.now
        (AskDel (del_of register.now key context))) }
{
    let key_state = KeyState::of(alloc, register, &key)?;
    let named = count_at(register, &key, context);
    if is_idle(named, &key_state) {
        return Ok(Planned::answer(Told::Done));
    }
    let saw = seen_by_delete(named, key_state.count);
    if key_state.has_too_many(saw) {
        return Ok(Planned::answer(Told::Refused(TOO_MANY_SIBLINGS)));
    }
    let entry = Entry {
        key,
        operation: Operation::Tombstone,
        context: named,
        saw,
    };
    Ok(Planned {
        told: Told::Done,
        entry: Some(entry),
    })
}

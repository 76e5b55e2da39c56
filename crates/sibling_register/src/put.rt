//! Puts, and the checks that refuse them.

ghost use Rattle.std.specs.Prelude.{◌≡◌, IfOk, Some, false, not, ◌||◌};
ghost use Rattle.std.specs.Prelude.{if◌then◌else◌, nat_eq, unwrap_or};
ghost use Rattle.std.specs.Option.{option_eq};
ghost use Rattle.sibling_register.specs.Answers.{AskPut, Shown, Done};
ghost use Rattle.sibling_register.specs.Plain.{answer_of};
ghost use Rattle.sibling_register.specs.Plans.{first_check_of};
ghost use Rattle.sibling_register.specs.Entries.{put_of, has_too_many_by, outcome_of};
ghost use Rattle.sibling_register.specs.Entries.{accepted_put, IsOutcomeOf};

use crate::entry::Entry;
use crate::key_index::follow;
use crate::key_state::{KeyState, count_at, names_end};
use crate::numbers::Numbers;
use crate::operation::Operation;
use crate::planned::Planned;
use crate::refusals::{MATCH_FOUND, MODIFIED, NOT_FOUND, TOO_MANY_SIBLINGS};
use crate::register::PlainRegister;
use crate::told::Told;
use riak_msgs::Key;
use std::alloc::{AllocError, Global};

/// A put, as its command gives it.
#[derive(Drop)]
pub(crate) struct Put<V> {
    pub(crate) key: Key,
    pub(crate) context: Option<u64>,
    pub(crate) value: V,
    pub(crate) return_body: bool,
    pub(crate) return_head: bool,
    pub(crate) if_not_modified: bool,
    pub(crate) if_none_match: bool,
}

/// Up to which number a put saw the key's events: nothing, where it gives no context.
fn seen_by_put(named: Option<u64>) -> u64
    ensures value { result ≡ unwrap_or named 0 }
{
    named.unwrap_or(0)
}

/// The first check that holds, by what each of them asks.
fn first_holding(
    is_present: bool,
    is_name: bool,
    too_many: bool,
    if_not_modified: bool,
    if_none_match: bool,
) -> Option<u8>
    ensures value { result
        ≡ first_check_of is_present is_name too_many if_not_modified if_none_match }
{
    if if_none_match && is_present {
        Some(MATCH_FOUND)
    } else if if_not_modified && !if_none_match && !is_present {
        Some(NOT_FOUND)
    } else if if_not_modified && !if_none_match && !is_name {
        Some(MODIFIED)
    } else if too_many {
        Some(TOO_MANY_SIBLINGS)
    } else {
        None
    }
}

/// The first check that holds, of a put whose context names the position with this count.
fn first_check(
    key_state: &KeyState,
    named: Option<u64>,
    if_not_modified: bool,
    if_none_match: bool,
) -> Option<u8>
    ensures value { result ≡ first_check_of key_state.now.is_present
        (option_eq nat_eq named (Some key_state.now.count))
        (has_too_many_by key_state.now (unwrap_or named 0)) if_not_modified if_none_match }
{
    let is_name = names_end(named, key_state.count);
    let too_many = key_state.has_too_many(seen_by_put(named));
    first_holding(
        key_state.is_present,
        is_name,
        too_many,
        if_not_modified,
        if_none_match,
    )
}

/// The answer to an accepted put, after which the key has these siblings.
fn put_answer(siblings: Vec<u64>, position: u64, return_body: bool, return_head: bool) -> Told
    ensures value { answer_of result ≡ (if return_body || return_head
        then Shown siblings.items (Some position) false (not return_body) else Done) }
{
    if return_body || return_head {
        Told::Shown {
            siblings: Numbers::new(siblings),
            place: Some(position),
            unchanged: false,
            bare: !return_body,
        }
    } else {
        Told::Done
    }
}

/// The outcome of a put that no check refuses, where its context names the position with this count. The key has these
/// siblings, and the put's entry gets this number and this position.
#[inline(always)]
fn accept_put<V: Drop>(
    mut siblings: Vec<u64>,
    number: u64,
    position: u64,
    named: Option<u64>,
    put: Put<V>,
) -> Result<Planned<V>, AllocError>
    ensures value { IfOk result (λ planned.
        outcome_of planned ≡ accepted_put put named siblings.items number position) }
{
    let entry = Entry {
        key: put.key,
        operation: Operation::Write(put.value),
        context: named,
        saw: seen_by_put(named),
    };
    follow(&mut siblings, &entry, number)?;
    let told = put_answer(siblings, position, put.return_body, put.return_head);
    Ok(Planned {
        told,
        entry: Some(entry),
    })
}

/// The outcome of a put.
pub(crate) fn plan_put<V: Drop>(
    alloc: Global,
    register: &PlainRegister<V>,
    put: Put<V>,
) -> Result<Planned<V>, AllocError>
    ensures value { IfOk result (IsOutcomeOf register.now
        (AskPut (put_of register.now put))) }
{
    let key_state = KeyState::of(alloc, register, &put.key)?;
    let named = count_at(register, &put.key, put.context);
    if let Some(number) = first_check(&key_state, named, put.if_not_modified, put.if_none_match) {
        return Ok(Planned::answer(Told::Refused(number)));
    }
    let number = key_state.count + 1;
    let position = register.next_position();
    accept_put(key_state.siblings, number, position, named, put)
}

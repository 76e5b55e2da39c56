//! Gets.

ghost use Rattle.std.specs.Prelude.{◌≡◌, IfOk, [], false};
ghost use Rattle.sibling_register.specs.Answers.{AskGet, Shown};
ghost use Rattle.sibling_register.specs.Plain.{answer_of};
ghost use Rattle.sibling_register.specs.Plans.{get_told_of};
ghost use Rattle.sibling_register.specs.Entries.{get_of, IsOutcomeOf};

use crate::key_state::{KeyState, count_at, names_end};
use crate::numbers::Numbers;
use crate::planned::Planned;
use crate::register::PlainRegister;
use crate::told::Told;
use riak_msgs::Key;
use std::alloc::{AllocError, Global};

/// The answer without siblings.
fn without_siblings(alloc: Global, place: Option<u64>, unchanged: bool) -> Told
    ensures value { answer_of result ≡ Shown [] place unchanged false }
{
    Told::Shown {
        siblings: Numbers::new(Vec::new(alloc)),
        place,
        unchanged,
        bare: false,
    }
}

/// What a get shows of a key in this state.
#[inline(always)]
fn get_answer(
    alloc: Global,
    key_state: KeyState,
    is_name: bool,
    position: u64,
    head: bool,
    deletedvclock: bool,
) -> Told
    ensures value { answer_of result ≡ get_told_of key_state.siblings.items key_state.is_present
        is_name position head deletedvclock }
{
    if key_state.siblings.is_empty() {
        without_siblings(alloc, None, false)
    } else if !key_state.is_present {
        without_siblings(
            alloc,
            if deletedvclock { Some(position) } else { None },
            false,
        )
    } else if is_name {
        without_siblings(alloc, None, true)
    } else {
        Told::Shown {
            siblings: Numbers::new(key_state.siblings),
            place: Some(position),
            unchanged: false,
            bare: head,
        }
    }
}

/// The outcome of a get.
pub(crate) fn plan_get<V>(
    alloc: Global,
    register: &PlainRegister<V>,
    key: &Key,
    if_modified: Option<u64>,
    head: bool,
    deletedvclock: bool,
) -> Result<Planned<V>, AllocError>
    ensures value { IfOk result (IsOutcomeOf register.now
        (AskGet (get_of register.now key.now if_modified head deletedvclock))) }
{
    let key_state = KeyState::of(alloc, register, key)?;
    let named = count_at(register, key, if_modified);
    let is_name = names_end(named, key_state.count);
    let position = register.len();
    let told = get_answer(alloc, key_state, is_name, position, head, deletedvclock);
    Ok(Planned::answer(told))
}

//! Takes the steps of an exchange with the register, each once more where memory was refused.

ghost use Rattle.sibling_register.specs.Plain.{IsPosition, GivesPositions};

use crate::exchanges::steps::PLAIN_PUT;
use crate::register::steps::{
    Bare, Del, Done, Get, Kept, Len, Put, PutTimes, Reap, Reaped, Refused, Reply, Shows, Step,
    Unchanged, Value,
};
use riak_msgs::Key;
use sibling_register::{Command, PlainRegister, RegisterFault, Told};
use std::alloc::Global;

/// Whether the answer shows these siblings, the context of this position, and whether it is unchanged and bare.
fn is_shown(told: &Told, numbers: &[u64], position: Option<u64>, flags: (bool, bool)) -> bool {
    match told {
        Told::Shown {
            siblings,
            place,
            unchanged,
            bare,
        } => siblings.as_slice() == numbers && *place == position && (*unchanged, *bare) == flags,
        _ => false,
    }
}

fn is_told(told: &Told, reply: &Reply) -> bool {
    match reply {
        Shows(numbers, position) => is_shown(told, numbers, *position, (false, false)),
        Bare(numbers, position) => is_shown(told, numbers, *position, (false, true)),
        Unchanged => is_shown(told, &[], None, (true, false)),
        Done => matches!(told, Told::Done),
        Refused(number) => matches!(told, Told::Refused(given) if given == number),
        Reaped => matches!(told, Told::Reaped),
        Kept => matches!(told, Told::Kept),
    }
}

/// A position, where the register has come so far.
fn position(register: &PlainRegister<u8>, wanted: Option<u64>) -> Option<u64>
    ensures { IsPosition register.now result }
{
    match wanted {
        None => None,
        Some(position) => {
            if position <= register.len() {
                Some(position)
            } else {
                None
            }
        }
    }
}

/// The command of a step, by its key.
fn command_of(register: &PlainRegister<u8>, key: Key, step: &Step) -> Command<u8>
    ensures { GivesPositions register.now result }
{
    match step {
        Get(_, if_modified, options, _) => Command::Get {
            key,
            if_modified: position(register, *if_modified),
            head: options.head,
            deletedvclock: options.deletedvclock,
        },
        Put(_, value, context, options, _) => Command::Put {
            key,
            context: position(register, *context),
            value: *value,
            return_body: options.return_body,
            return_head: options.return_head,
            if_not_modified: options.if_not_modified,
            if_none_match: options.if_none_match,
        },
        Del(_, context, _) => Command::Del {
            key,
            context: position(register, *context),
        },
        _ => Command::Reap { key },
    }
}

/// Asks what a step asks of a key.
fn ask(
    register: &mut PlainRegister<u8>,
    alloc: Global,
    name: &[u8],
    step: &Step,
    reply: &Reply,
) -> Result<bool, RegisterFault> {
    let key = Key::of_default_type(alloc, b"b", name)?;
    let command = command_of(register, key, step);
    match register.ask(alloc, command) {
        Ok(told) => Ok(is_told(&told, reply)),
        Err(fault) => Err(fault),
    }
}

/// Whether the value of a number under a key is this one.
fn is_value(
    register: &PlainRegister<u8>,
    alloc: Global,
    name: &[u8],
    number: u64,
    wanted: Option<u8>,
) -> Result<bool, RegisterFault> {
    let key = Key::of_default_type(alloc, b"b", name)?;
    Ok(register.value(&key, number).copied() == wanted)
}

/// Takes a step once: whether it came as expected; an error where memory was refused.
fn take_once(
    register: &mut PlainRegister<u8>,
    alloc: Global,
    step: &Step,
) -> Result<bool, RegisterFault> {
    match step {
        Get(name, _, _, reply)
        | Put(name, _, _, _, reply)
        | Del(name, _, reply)
        | Reap(name, reply) => ask(register, alloc, name, step, reply),
        Value(name, number, wanted) => is_value(register, alloc, name, *number, *wanted),
        Len(wanted) => Ok(register.len() == *wanted),
        PutTimes(_, _) => Ok(false),
    }
}

/// Takes a step, and once more where memory was refused: that leaves the register as it was.
fn take(register: &mut PlainRegister<u8>, alloc: Global, step: &Step) -> bool {
    let before = register.len();
    match take_once(register, alloc, step) {
        Ok(is_so) => is_so,
        Err(_) => register.len() == before && take_once(register, alloc, step) == Ok(true),
    }
}

fn take_puts(
    register: &mut PlainRegister<u8>,
    alloc: Global,
    count: u8,
    name: &'static [u8],
) -> bool {
    for value in 0..count {
        if !take(register, alloc, &Put(name, value, None, PLAIN_PUT, Done)) {
            return false;
        }
    }
    true
}

fn take_all(register: &mut PlainRegister<u8>, alloc: Global, step: &Step) -> bool {
    match step {
        PutTimes(count, name) => take_puts(register, alloc, *count, name),
        _ => take(register, alloc, step),
    }
}

/// How many steps come as expected with a new register, before one that doesn't.
pub(crate) fn taken(alloc: Global, steps: &[Step]) -> usize {
    let mut register = PlainRegister::new(alloc);
    let mut count = 0usize;
    for step in steps {
        if !take_all(&mut register, alloc, step) {
            return count;
        }
        count = count.saturating_add(1);
    }
    count
}

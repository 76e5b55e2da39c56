//! Asking a plain register what a vnode was asked.

ghost use Rattle.std.specs.Prelude.{◌≡◌, ◌≤◌, IfOk, IfSome, OnOk, length, Some};
ghost use Rattle.riak_msgs.specs.Contents.{Content};
ghost use Rattle.actor_epoch.specs.Given.{Context};
ghost use Rattle.sibling_register.specs.Answers.{RegisterAsk, AskDel, AskGet, AskPut};
ghost use Rattle.sibling_register.specs.Plain.{GivesPositions, IsPosition, answer_of};
ghost use Rattle.sibling_register.specs.declared.command.Command.TheVariants.{Reap};
ghost use Rattle.vnode_machine.specs.Asks.{del_command, get_command, put_command, request_ask};
ghost use Rattle.schedule_text.specs.PlainAnswers.{PlainRegisterAnswers, command_by, history_after};
ghost use Rattle.schedule_text.specs.PlainAnswers.{plain_of};
ghost use Rattle.schedule_text.specs.Compared.{within};

use riak_msgs::{Content, DelAsk, GetAsk, Key, PutAsk, Request};
use sibling_register::{Command, PlainRegister, Told};
use std::alloc::{AllocError, Global};

/// A position that isn't past the end. (No position is: the minimum only says so.)
pub(crate) fn within(position: Option<u64>, register: &PlainRegister<Content>) -> Option<u64>
    ensures is { result ≡ within register.now position }
    ensures at { IsPosition register.now result }
{
    match position {
        None => None,
        Some(position) => Some(position.min(register.len())),
    }
}

/// Asks a command.
fn ask_command(
    alloc: Global,
    register: &mut PlainRegister<Content>,
    command: Command<Content>,
) -> Result<Told, AllocError>
    requires { GivesPositions register.old command }
    ensures { IfOk result (λ told.
        PlainRegisterAnswers register.old command (answer_of told) register.new) }
{
    match register.ask(alloc, command) {
        Ok(told) => Ok(told),
        Err(_) => Err(AllocError),
    }
}

/// Asks a get.
fn ask_get(
    alloc: Global,
    register: &mut PlainRegister<Content>,
    ask: &GetAsk,
    if_modified: Option<u64>,
) -> Result<Told, AllocError>
    requires { IsPosition register.old if_modified }
    ensures { IfOk result (λ told.
        PlainRegisterAnswers register.old (command_by (AskGet (get_command ask.now)) if_modified)
        (answer_of told) register.new) }
{
    let key = ask.key.clone(alloc)?;
    let command = Command::Get {
        key,
        if_modified,
        head: ask.head,
        deletedvclock: ask.deletedvclock,
    };
    ask_command(alloc, register, command)
}

/// Asks a put.
fn ask_put(
    alloc: Global,
    register: &mut PlainRegister<Content>,
    ask: &PutAsk,
    context: Option<u64>,
) -> Result<Told, AllocError>
    requires { IsPosition register.old context }
    ensures { IfOk result (λ told.
        PlainRegisterAnswers register.old (command_by (AskPut (put_command ask.now)) context)
        (answer_of told) register.new) }
{
    let key = ask.key.clone(alloc)?;
    let value = ask.content.clone()?;
    let command = Command::Put {
        key,
        context,
        value,
        return_body: ask.return_body,
        return_head: ask.return_head,
        if_not_modified: ask.if_not_modified,
        if_none_match: ask.if_none_match,
    };
    ask_command(alloc, register, command)
}

/// Asks a delete.
fn ask_del(
    alloc: Global,
    register: &mut PlainRegister<Content>,
    ask: &DelAsk,
    context: Option<u64>,
) -> Result<Told, AllocError>
    requires { IsPosition register.old context }
    ensures { IfOk result (λ told.
        PlainRegisterAnswers register.old (command_by (AskDel (del_command ask.now)) context)
        (answer_of told) register.new) }
{
    let key = ask.key.clone(alloc)?;
    ask_command(alloc, register, Command::Del { key, context })
}

/// Asks what a request asks, its context as this position. (A ping asks nothing.)
pub(crate) fn ask_register(
    alloc: Global,
    register: &mut PlainRegister<Content>,
    request: &Request,
    position: Option<u64>,
) -> Result<Told, AllocError>
    requires { IsPosition register.old position }
    ensures { (ask : RegisterAsk Content Context) → request_ask request.now ≡ Some ask
        → IfOk result (λ told.
        PlainRegisterAnswers register.old (command_by ask position) (answer_of told) register.new) }
{
    match request {
        Request::Ping => Ok(Told::Done),
        Request::Get(get) => ask_get(alloc, register, get, position),
        Request::Put(put) => ask_put(alloc, register, put, position),
        Request::Del(del) => ask_del(alloc, register, del, position),
    }
}

/// Asks to reap a key.
pub(crate) fn reap_plain(
    alloc: Global,
    register: &mut PlainRegister<Content>,
    key: &Key,
) -> Result<(), AllocError>
    ensures { OnOk result (
        register.new ≡ history_after register.old (plain_of register.old (Reap key.now))) }
{
    let key = key.clone(alloc)?;
    ask_command(alloc, register, Command::Reap { key })?;
    Ok(())
}

//! Steps of a world, and what came of them, as yes or no.

use crate::messages::Message;
use node_steps::{Outcome, Step, StepFault, World};
use riak_msgs::{Key, Reply, read_request};
use std::alloc::Global;

/// What a worker does, or a partition.
pub enum Act {
    /// It is asked this request, for the partition of this index.
    Ask(u16, u16, Message),
    /// It is asked to forget b/k, for the partition of this index.
    Reap(u16, u16),
    Enter(u16),
    Leave(u16),
    Mark(u16),
    Unmark(u16),
    Take(u16),
    Put(u16),
    Look(u16),
    Publish(u16),
    /// The partition of this index is diverted.
    Divert(u16),
    /// It is to copy b/k back, for the partition of this index.
    Copy(u16, u16),
    /// It is to close the fallback of the partition of this index.
    Close(u16, u16),
}

/// What comes of it.
pub enum Wanted {
    /// It is possible, and answers nothing.
    Done,
    /// It isn't possible.
    No,
    /// It answers by this reply.
    Reply(Message),
    /// It answers that the key is forgotten.
    Reaped,
    /// It answers that the key isn't dead, or isn't held where it was to be copied from.
    Kept,
    /// The key was copied.
    Copied,
    /// The copy is stuck.
    Stuck,
    /// The fallback is closed.
    Elsewhere,
    /// So many keys aren't copied.
    Left(u64),
}

/// A world of run 1, and a second time where memory was refused.
pub fn world_of(alloc: Global, workers: u16, vnodes: u16) -> Result<World, StepFault> {
    match World::new(alloc, workers, vnodes, 1) {
        Err(StepFault::NoMemory) => World::new(alloc, workers, vnodes, 1),
        made => made,
    }
}

fn let_go(_outcome: Result<Outcome, StepFault>) {}

fn asks(
    world: &mut World,
    alloc: Global,
    worker: u16,
    vnode: u16,
    request: &Message,
) -> Result<Outcome, StepFault> {
    match read_request(alloc, request.code, request.body) {
        Ok(request) => world.step(alloc, Step::Ask(worker, vnode, request)),
        Err(_) => Err(StepFault::NoMemory),
    }
}

fn asks_reap(
    world: &mut World,
    alloc: Global,
    worker: u16,
    vnode: u16,
) -> Result<Outcome, StepFault> {
    match Key::of_default_type(alloc, b"b", b"k") {
        Ok(key) => world.step(alloc, Step::Reap(worker, vnode, key)),
        Err(_) => Err(StepFault::NoMemory),
    }
}

fn copies(world: &mut World, alloc: Global, worker: u16, vnode: u16) -> Result<Outcome, StepFault> {
    match Key::of_default_type(alloc, b"b", b"k") {
        Ok(key) => world.step(alloc, Step::Copy(worker, vnode, key)),
        Err(_) => Err(StepFault::NoMemory),
    }
}

/// Takes a step.
fn take(world: &mut World, alloc: Global, act: &Act) -> Result<Outcome, StepFault> {
    let step = match act {
        Act::Ask(worker, vnode, request) => return asks(world, alloc, *worker, *vnode, request),
        Act::Reap(worker, vnode) => return asks_reap(world, alloc, *worker, *vnode),
        Act::Copy(worker, vnode) => return copies(world, alloc, *worker, *vnode),
        Act::Enter(worker) => Step::Enter(*worker),
        Act::Leave(worker) => Step::Leave(*worker),
        Act::Mark(worker) => Step::Mark(*worker),
        Act::Unmark(worker) => Step::Unmark(*worker),
        Act::Take(worker) => Step::Take(*worker),
        Act::Put(worker) => Step::Put(*worker),
        Act::Look(worker) => Step::Look(*worker),
        Act::Publish(worker) => Step::Publish(*worker),
        Act::Divert(index) => Step::Divert(*index),
        Act::Close(worker, index) => Step::Close(*worker, *index),
    };
    world.step(alloc, step)
}

/// Whether memory was refused to a step that asks for some.
fn lacked_memory(act: &Act, outcome: &Result<Outcome, StepFault>) -> bool {
    matches!(
        act,
        Act::Ask(..) | Act::Reap(..) | Act::Copy(..) | Act::Look(_) | Act::Divert(_)
    ) && matches!(outcome, Err(StepFault::NoMemory))
}

/// Takes a step, and a second time where memory was refused.
fn take_again(world: &mut World, alloc: Global, act: &Act) -> Result<Outcome, StepFault> {
    let outcome = take(world, alloc, act);
    if !lacked_memory(act, &outcome) {
        return outcome;
    }
    take(world, alloc, act)
}

/// The reply has this code and this body.
fn is_reply(alloc: Global, reply: &Reply, wanted: &Message) -> bool {
    let mut bytes = Vec::new(alloc);
    if reply.append_body(&mut bytes).is_err() {
        bytes.clear();
        if reply.append_body(&mut bytes).is_err() {
            return false;
        }
    }
    reply.code() == wanted.code && bytes.as_slice() == wanted.body
}

fn is_wanted(alloc: Global, outcome: &Result<Outcome, StepFault>, wanted: &Wanted) -> bool {
    match (outcome, wanted) {
        (Ok(Outcome::Done), Wanted::Done)
        | (Ok(Outcome::No), Wanted::No)
        | (Ok(Outcome::Reaped), Wanted::Reaped)
        | (Ok(Outcome::Copied), Wanted::Copied)
        | (Ok(Outcome::Stuck), Wanted::Stuck)
        | (Ok(Outcome::Elsewhere), Wanted::Elsewhere)
        | (Ok(Outcome::Kept), Wanted::Kept) => true,
        (Ok(Outcome::Left(keys)), Wanted::Left(wanted)) => keys == wanted,
        (Ok(Outcome::Reply(reply)), Wanted::Reply(message)) => is_reply(alloc, reply, message),
        _ => false,
    }
}

/// Each of the steps comes to what is wanted.
pub fn come_to(world: &mut World, alloc: Global, steps: &[(Act, Wanted)]) -> bool {
    for (act, wanted) in steps {
        if !comes_to(world, alloc, act, wanted) {
            return false;
        }
    }
    true
}

/// The step comes to this.
pub fn comes_to(world: &mut World, alloc: Global, act: &Act, wanted: &Wanted) -> bool {
    let outcome = take_again(world, alloc, act);
    let is_so = is_wanted(alloc, &outcome, wanted);
    let_go(outcome);
    is_so
}

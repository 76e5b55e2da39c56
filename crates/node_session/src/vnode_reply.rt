//! The replies of one vnode to what it is asked, and its sweeps.

ghost use Rattle.std.specs.Prelude.{◌≡◌, [], None};
ghost use Rattle.sibling_register.specs.Answers.{AskGet};
ghost use Rattle.vnode_machine.specs.Asks.{get_command};
ghost use Rattle.vnode_machine.specs.Dead.{swept};
ghost use Rattle.vnode_machine.specs.Step.{outcome};
ghost use Rattle.vnode_core.specs.Plans.{IsWrite};
ghost use Rattle.node_session.specs.PlainStep.{StepsBy, StepsByWrite};
ghost use Rattle.node_session.specs.PlainNodes.{AnswersAndSweeps, WritesAndSweeps};
ghost use Rattle.node_session.specs.Unsent.{PutsReply};

use crate::framed_reply::{FramedReply, put_stored};
use crate::reply_frame::ReplyFrame;
use crate::scratch::Scratch;
use riak_msgs::{GetAsk, Reply, Text};
use std::alloc::Global;
use vnode_core::{Ask, Lookup, Plan, Vnode, sweep};

/// Answers a get.
fn answer_get(vnode: &Vnode, alloc: Global, ask: &GetAsk) -> Reply
    ensures { StepsBy vnode.now.state
        (outcome vnode.now.state (AskGet (get_command ask.now))) result vnode.now.state }
{
    match vnode.get(alloc, ask) {
        Ok(reply) => Reply::Get(reply),
        Err(refusal) => Reply::Error(Text::from(refusal)),
    }
}

/// Answers a get, and puts the frame of the reply from where that lies.
#[inline(always)]
fn show<G: Lookup>(
    vnode: &Vnode,
    get: &G,
    out: &mut ReplyFrame,
    scratch: &mut Scratch,
) -> FramedReply
    requires { out.old ≡ [] }
    ensures steps { StepsBy vnode.now.state
        (outcome vnode.now.state (AskGet (get_command (G.get get.now)))) result.reply
        vnode.now.state }
    ensures put { PutsReply result.reply out.new result.put }
{
    put_stored(&get.show(vnode), out, scratch)
}

/// Answers a put or a delete of a vnode that isn't closed, and makes the change where it is accepted.
#[inline(always)]
fn answer_change(vnode: &mut Vnode, alloc: Global, ask: Ask) -> Reply
    requires opened { vnode.old.state.closed ≡ None }
    requires write { IsWrite ask }
    ensures steps { StepsByWrite vnode.old.state ask result vnode.new.state }
    ensures opened { vnode.new.state.closed ≡ None }
{
    match vnode.prepare(alloc, ask) {
        Ok(Plan::Change(change)) => Reply::from(vnode.finish(change)),
        Ok(Plan::Nothing(answer)) => Reply::from(answer),
        Err(refusal) => Reply::Error(Text::from(refusal)),
    }
}

/// Forgets the vnode's first dead keys, so many at most. With a budget of 0 no key is looked at.
fn forget_first(vnode: &mut Vnode, budget: u32)
    ensures swept { vnode.new.state ≡ swept vnode.old.state None budget }
    ensures closed { vnode.new.state.closed ≡ vnode.old.state.closed }
{
    if budget > 0 {
        sweep(vnode, None, budget);
    }
}

/// Answers a get, and forgets the vnode's first dead keys, so many at most.
pub(crate) fn get_and_sweep(vnode: &mut Vnode, alloc: Global, ask: &GetAsk, budget: u32) -> Reply
    ensures steps { AnswersAndSweeps budget vnode.old.state
        (outcome vnode.old.state (AskGet (get_command ask.now))) result vnode.new.state }
    ensures closed { vnode.new.state.closed ≡ vnode.old.state.closed }
{
    let reply = answer_get(vnode, alloc, ask);
    forget_first(vnode, budget);
    reply
}

/// Answers a get, puts the frame of the reply, and forgets the vnode's first dead keys, so many at most.
#[inline(always)]
pub(crate) fn show_and_sweep<G: Lookup>(
    vnode: &mut Vnode,
    get: &G,
    budget: u32,
    out: &mut ReplyFrame,
    scratch: &mut Scratch,
) -> FramedReply
    requires { out.old ≡ [] }
    ensures steps { AnswersAndSweeps budget vnode.old.state
        (outcome vnode.old.state (AskGet (get_command (G.get get.now)))) result.reply
        vnode.new.state }
    ensures closed { vnode.new.state.closed ≡ vnode.old.state.closed }
    ensures put { PutsReply result.reply out.new result.put }
{
    let framed = show(vnode, get, out, scratch);
    forget_first(vnode, budget);
    framed
}

/// Answers a put or a delete of a vnode that isn't closed, and forgets the vnode's first dead keys, so many at most.
#[inline(always)]
pub(crate) fn change_and_sweep(vnode: &mut Vnode, alloc: Global, ask: Ask, budget: u32) -> Reply
    requires opened { vnode.old.state.closed ≡ None }
    requires write { IsWrite ask }
    ensures steps { WritesAndSweeps budget vnode.old.state ask result vnode.new.state }
    ensures opened { vnode.new.state.closed ≡ None }
{
    let reply = answer_change(vnode, alloc, ask);
    forget_first(vnode, budget);
    reply
}

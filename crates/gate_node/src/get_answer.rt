//! How the reply to a get is handed on: whole, or put in its frame.
ghost use Rattle.std.specs.Prelude.{◌≡◌, []};
ghost use Rattle.riak_msgs.specs.declared.Reply.TheVariants.{Error, Get};
ghost use Rattle.gate_node.specs.Asked.{RepliesToGet, get_quantity};
ghost use Rattle.node_session.specs.Unsent.{PutsReply};

use crate::replies::get_quantity;
use crate::reserve::ReserveOf;
use node_session::{FramedReply, ReplyFrame, Scratch, put_error, put_stored};
use riak_msgs::{GetAsk, Reply, Text};
use stats_book::Quantity;
use std::alloc::Global;
use vnode_core::{Lookup, StoredReply, Vnode};

/// The reply to a get as it is handed on.
pub(crate) trait GetAnswer<G>: Drop {
    ghost use Rattle.std.specs.Prelude.{◌≡◌};
    ghost use Rattle.riak_msgs.specs.declared.GetAsk.{GetAsk};
    ghost use Rattle.riak_msgs.specs.declared.Reply.{Reply};
    ghost use Rattle.riak_msgs.specs.declared.Reply.TheVariants.{Error};
    ghost use Rattle.gate_node.specs.Asked.{RepliesToGet, get_quantity};

    // What is asked.
    ghost get: { G → GetAsk };

    /// Where it is put.
    type Frame;

    /// What is lent for that.
    type Room;

    // The reply.
    ghost reply: { Self → Reply };

    // Nothing is there.
    ghost is_free: { Self.Frame → Type 0 };

    // It was put there.
    ghost is_put: { Self → Self.Frame → Type 0 };

    /// Shows a vnode's state to a get: once more where memory was refused, and the thread gave up what it keeps back.
    fn show(
        vnode: &Vnode,
        alloc: Global,
        reserve: ReserveOf<'_>,
        asked: &G,
        frame: &mut Self::Frame,
        room: &mut Self::Room,
    ) -> Self
        requires { is_free frame.old }
        ensures shows { RepliesToGet (get asked.now) (reply result) vnode.now.state }
        ensures put { is_put result frame.new };

    /// Answers by an error.
    fn error(text: Text, frame: &mut Self::Frame) -> Self
        requires { is_free frame.old }
        ensures error { reply result ≡ Error text }
        ensures put { is_put result frame.new };

    /// What it is counted as.
    fn quantity(&self) -> Quantity
        ensures { result ≡ get_quantity (reply self.now) };
}

/// Where a whole reply is put: nowhere.
#[derive(Drop)]
pub(crate) struct NoFrame;

/// Shows a vnode's state to a get, once.
fn show_once(vnode: &Vnode, alloc: Global, get: &GetAsk) -> Reply
    ensures { RepliesToGet get.now result vnode.now.state }
{
    match vnode.get(alloc, get) {
        Ok(reply) => Reply::Get(reply),
        Err(refusal) => Reply::Error(Text::from(refusal)),
    }
}

impl GetAnswer<GetAsk> for Reply {
    ghost get = { λ get. get };

    type Frame = NoFrame;

    type Room = NoFrame;

    ghost reply = { λ reply. reply };

    ghost is_free = { λ frame. Unit {0} };

    ghost is_put = { λ reply frame. Unit {0} };

    fn show(
        vnode: &Vnode,
        alloc: Global,
        reserve: ReserveOf<'_>,
        get: &GetAsk,
        _frame: &mut NoFrame,
        _room: &mut NoFrame,
    ) -> Reply {
        match vnode.get(alloc, get) {
            Ok(reply) => Reply::Get(reply),
            Err(refusal) => {
                if reserve.give_up() {
                    return show_once(vnode, alloc, get);
                }
                Reply::Error(Text::from(refusal))
            }
        }
    }

    fn error(text: Text, _frame: &mut NoFrame) -> Reply {
        Reply::Error(text)
    }

    fn quantity(&self) -> Quantity {
        get_quantity(self)
    }
}

/// A reply to a get that was put in its frame, and what it is counted as.
#[derive(Drop)]
pub(crate) struct FramedGet {
    pub(crate) framed: FramedReply,
    quantity: Quantity,
    ghost counted: { quantity ≡ get_quantity framed.reply },
}

/// Puts the frame of what is shown: once more where memory was refused, and the thread gave up what it keeps back.
#[inline(always)]
fn put_shown(
    shown: &StoredReply<'_>,
    reserve: ReserveOf<'_>,
    frame: &mut ReplyFrame,
    scratch: &mut Scratch,
) -> FramedReply
    requires { frame.old ≡ [] }
    ensures reply { result.reply ≡ Get shown.now }
    ensures put { PutsReply (Get shown.now) frame.new result.put }
{
    let framed = put_stored(shown, frame, scratch);
    if framed.is_refused() && reserve.give_up() {
        return put_stored(shown, frame, scratch);
    }
    framed
}

impl<G: Lookup> GetAnswer<G> for FramedGet {
    ghost get = { G.get };

    type Frame = ReplyFrame;

    type Room = Scratch;

    ghost use Rattle.std.specs.Prelude.{◌≡◌, []};
    ghost use Rattle.node_session.specs.Unsent.{PutsReply};

    ghost reply = { λ answer. answer.framed.reply };

    ghost is_free = { λ frame. frame ≡ [] };

    ghost is_put = { λ answer frame. PutsReply answer.framed.reply frame answer.framed.put };

    #[inline(always)]
    fn show(
        vnode: &Vnode,
        _alloc: Global,
        reserve: ReserveOf<'_>,
        asked: &G,
        frame: &mut ReplyFrame,
        scratch: &mut Scratch,
    ) -> FramedGet {
        FramedGet {
            framed: put_shown(&asked.show(vnode), reserve, frame, scratch),
            quantity: Quantity::Gets,
        }
    }

    #[inline(always)]
    fn error(text: Text, frame: &mut ReplyFrame) -> FramedGet {
        FramedGet {
            framed: put_error(text, frame),
            quantity: Quantity::Refusals,
        }
    }

    #[inline(always)]
    fn quantity(&self) -> Quantity {
        self.quantity
    }
}

//! What a node over gates answers to a request.
ghost use Rattle.std.specs.Prelude.{◌≡◌, []};
ghost use Rattle.node_session.specs.Unsent.{PutsReply};

use crate::get_answer::{FramedGet, NoFrame};
use crate::node::GateNode;
use crate::reserve::ReserveOf;
use crate::turnstile::Turnstile;
use node_session::{FramedReply, Node, ReplyFrame, Scratch, put_reply};
use riak_msgs::{GetAsk, Reply, Request};
use stats_book::CountReplies;
use std::alloc::Global;
use std::sync::Wait;
use vnode_core::{Ask, ShortKey};

/// Puts the frame of a reply, and lets it go: once more where memory was refused, and the thread gave up what it keeps back.
#[inline(always)]
fn put_whole(
    reserve: ReserveOf<'_>,
    reply: Reply,
    out: &mut ReplyFrame,
    scratch: &mut Scratch,
) -> FramedReply
    requires { out.old ≡ [] }
    ensures reply { result.reply ≡ reply }
    ensures put { PutsReply reply out.new result.put }
{
    let framed = put_reply(&reply, out, scratch);
    if framed.is_refused() && reserve.give_up() {
        return put_reply(&reply, out, scratch);
    }
    framed
}

impl<'a, W: Wait, T: Turnstile, C: CountReplies> Node for GateNode<'a, W, T, C> {
    ghost use Rattle.gate_node.specs.GateStep.{GateNodeStep};

    ghost step = { GateNodeStep };

    fn answer(&mut self, alloc: Global, request: Request) -> Reply {
        match request {
            Request::Ping => Reply::Ping,
            Request::Get(get) => {
                let index = self.index(&get.key);
                self.get::<GetAsk, Reply>(alloc, index, &get, &mut NoFrame, &mut NoFrame)
            }
            Request::Put(put) => {
                let index = self.index(&put.key);
                self.change(alloc, index, Ask::Put(put))
            }
            Request::Del(del) => {
                let index = self.index(&del.key);
                self.change(alloc, index, Ask::Del(del))
            }
        }
    }

    #[inline(always)]
    fn answer_into(
        &mut self,
        alloc: Global,
        request: Request,
        out: &mut ReplyFrame,
        scratch: &mut Scratch,
    ) -> FramedReply {
        match request {
            Request::Ping => put_whole(self.reserve, Reply::Ping, out, scratch),
            Request::Get(get) => {
                let index = self.index(&get.key);
                self.get::<GetAsk, FramedGet>(alloc, index, &get, out, scratch)
                    .framed
            }
            Request::Put(put) => {
                let index = self.index(&put.key);
                let reply = self.change(alloc, index, Ask::Put(put));
                put_whole(self.reserve, reply, out, scratch)
            }
            Request::Del(del) => {
                let index = self.index(&del.key);
                let reply = self.change(alloc, index, Ask::Del(del));
                put_whole(self.reserve, reply, out, scratch)
            }
        }
    }

    #[inline(always)]
    fn answer_plain_get(
        &mut self,
        alloc: Global,
        bucket: &[u8],
        key: &[u8],
        out: &mut ReplyFrame,
        scratch: &mut Scratch,
    ) -> Option<FramedReply> {
        let short = ShortKey::of_names(bucket, key)?;
        let index = self.index_of_names(bucket, key);
        let answered = self.get::<ShortKey, FramedGet>(alloc, index, &short, out, scratch);
        Some(answered.framed)
    }

    fn make_room(&self, _alloc: Global) -> bool {
        self.reserve.give_up()
    }
}

//! The answer to a message.

ghost use Rattle.std.specs.Prelude.{◌≡◌, [], IfNone, IfSome};
ghost use Rattle.riak_msgs.specs.Reading.{Reads};
ghost use Rattle.node_session.specs.Answers.{Answers};
ghost use Rattle.node_session.specs.Unsent.{PutsReply};

use crate::framed_reply::{FramedReply, put_error};
use crate::node::Node;
use crate::reply::message_fault_text;
use crate::reply_frame::ReplyFrame;
use crate::scratch::Scratch;
use riak_msgs::{MsgFault, Request, plain_get_names, read_request};
use std::alloc::Global;

/// The code of a ping, which is one whatever its body.
const PING_CODE: u8 = 1;

/// The code of a get.
const GET_CODE: u8 = 9;

/// The request of a message, or its first fault: read once more where memory was refused and the node made room.
#[inline(always)]
fn decode<N: Node>(alloc: Global, code: u8, body: &[u8], node: &N) -> Result<Request, MsgFault>
    ensures { Reads code body.now result }
{
    match read_request(alloc, code, body) {
        Ok(request) => Ok(request),
        Err(fault) => {
            if fault == MsgFault::NoMemory && node.make_room(alloc) {
                return read_request(alloc, code, body);
            }
            Err(fault)
        }
    }
}

/// Answers a message that is a get without options in the plain form, by the names in it, where the node does so.
#[inline(always)]
fn answer_plain_get<N: Node>(
    alloc: Global,
    code: u8,
    body: &[u8],
    node: &mut N,
    out: &mut ReplyFrame,
    scratch: &mut Scratch,
) -> Option<FramedReply>
    requires { out.old ≡ [] }
    ensures answers { IfSome result (λ framed. Answers N.step node.old
        (record { code = code; body = body.now }) framed.reply node.new) }
    ensures put { IfSome result (λ framed. PutsReply framed.reply out.new framed.put) }
    ensures stays { IfNone result (node.new ≡ node.old) }
    ensures free { IfNone result (out.new ≡ []) }
{
    if code != GET_CODE {
        return None;
    }
    let (bucket, key) = plain_get_names(body)?;
    node.answer_plain_get(alloc, bucket, key, out, scratch)
}

/// Answers a message, and puts the frame of the reply.
#[inline(always)]
pub(crate) fn answer<N: Node>(
    alloc: Global,
    code: u8,
    body: &[u8],
    node: &mut N,
    out: &mut ReplyFrame,
    scratch: &mut Scratch,
) -> FramedReply
    requires { out.old ≡ [] }
    ensures answers { Answers N.step node.old (record { code = code; body = body.now })
        result.reply node.new }
    ensures put { PutsReply result.reply out.new result.put }
{
    if code == PING_CODE {
        return node.answer_into(alloc, Request::Ping, out, scratch);
    }
    if let Some(framed) = answer_plain_get(alloc, code, body, node, out, scratch) {
        return framed;
    }
    match decode(alloc, code, body, &*node) {
        Ok(request) => node.answer_into(alloc, request, out, scratch),
        Err(fault) => put_error(message_fault_text(fault), out),
    }
}

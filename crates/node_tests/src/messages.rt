//! Requests for the key k in the bucket b, and the replies to them, as their messages.

use riak_msgs::{MsgFault, Reply, Request, read_reply, read_request};
use std::alloc::Global;

/// A request or a reply.
pub struct Message {
    pub code: u8,
    pub body: &'static [u8],
}

/// A ping, which no vnode is asked.
pub const PING: Message = Message { code: 1, body: b"" };

/// A get.
pub const GET: Message = Message {
    code: 9,
    body: b"\x0a\x01b\x12\x01k",
};

/// A put of "v" without context.
pub const PUT_V: Message = Message {
    code: 11,
    body: b"\x0a\x01b\x12\x01k\x22\x03\x0a\x01v",
};

/// A delete without context.
pub const DELETE: Message = Message {
    code: 13,
    body: b"\x0a\x01b\x12\x01k",
};

/// The reply to a get of an absent key.
pub const ABSENT: Message = Message {
    code: 10,
    body: b"",
};

/// The reply to a get that shows "v", the first write of the vnode 0 of run 1, and its context.
pub const SHOWS_V: Message = Message {
    code: 10,
    body: b"\x0a\x03\x0a\x01v\x12\x15\x02\0\0\0\0\0\x01\0\0\0\0\0\x01\0\0\0\0\0\0\0\x01",
};

/// The reply to a get that shows "v", the first write of the fallback of the vnode 0 of run 1, and its context.
pub const SHOWS_V_AT_FALLBACK: Message = Message {
    code: 10,
    body: b"\x0a\x03\x0a\x01v\x12\x15\x02\0\0\0\0\0\x01\x80\0\0\0\0\x01\0\0\0\0\0\0\0\x01",
};

/// A put of "v" under another key of the bucket, j, without context.
pub const PUT_J: Message = Message {
    code: 11,
    body: b"\x0a\x01b\x12\x01j\x22\x03\x0a\x01v",
};

/// The reply to a get that shows "v" from both sides: the first write of the vnode 0 of run 1 (65536), and that of its fallback
/// (98304), by their contexts.
pub const SHOWS_BOTH: Message = Message {
    code: 10,
    body: b"\x0a\x03\x0a\x01v\x0a\x03\x0a\x01v\x12\x29\x02\
\0\0\0\0\0\x01\0\0\0\0\0\x01\0\0\0\0\0\0\0\x01\
\0\0\0\0\0\x01\x80\0\0\0\0\x01\0\0\0\0\0\0\0\x01",
};

/// The reply to a get that shows "v", the first write of the second fallback, whose epochs go on behind those of the first.
pub const SHOWS_V_AT_SECOND: Message = Message {
    code: 10,
    body: b"\x0a\x03\x0a\x01v\x12\x15\x02\0\0\0\0\0\x01\x80\0\0\0\0\x02\0\0\0\0\0\0\0\x01",
};

/// The reply to a get that shows "v" from the vnode, from its first fallback and from its second, by rising actors.
pub const SHOWS_THREE: Message = Message {
    code: 10,
    body: b"\x0a\x03\x0a\x01v\x0a\x03\x0a\x01v\x0a\x03\x0a\x01v\x12\x3d\x02\
\0\0\0\0\0\x01\0\0\0\0\0\x01\0\0\0\0\0\0\0\x01\
\0\0\0\0\0\x01\x80\0\0\0\0\x01\0\0\0\0\0\0\0\x01\
\0\0\0\0\0\x01\x80\0\0\0\0\x02\0\0\0\0\0\0\0\x01",
};

/// A put of "w" by the context of three sides, which asks for what is stored.
pub const PUT_W_BY_THREE: Message = Message {
    code: 11,
    body: b"\x0a\x01b\x12\x01k\x1a\x3d\x02\
\0\0\0\0\0\x01\0\0\0\0\0\x01\0\0\0\0\0\0\0\x01\
\0\0\0\0\0\x01\x80\0\0\0\0\x01\0\0\0\0\0\0\0\x01\
\0\0\0\0\0\x01\x80\0\0\0\0\x02\0\0\0\0\0\0\0\x01\
\x22\x03\x0a\x01w\x38\x01",
};

/// The reply to it, which has seen all: "w" alone, the second write of the vnode.
pub const STORED_W_ALONE: Message = Message {
    code: 12,
    body: b"\x0a\x03\x0a\x01w\x12\x3d\x02\
\0\0\0\0\0\x01\0\0\0\0\0\x01\0\0\0\0\0\0\0\x02\
\0\0\0\0\0\x01\x80\0\0\0\0\x01\0\0\0\0\0\0\0\x01\
\0\0\0\0\0\x01\x80\0\0\0\0\x02\0\0\0\0\0\0\0\x01",
};

/// A put of "w" by the context of the vnode and its first fallback, which asks for what is stored.
pub const PUT_W_BY_BOTH: Message = Message {
    code: 11,
    body: b"\x0a\x01b\x12\x01k\x1a\x29\x02\
\0\0\0\0\0\x01\0\0\0\0\0\x01\0\0\0\0\0\0\0\x01\
\0\0\0\0\0\x01\x80\0\0\0\0\x01\0\0\0\0\0\0\0\x01\
\x22\x03\x0a\x01w\x38\x01",
};

/// The reply to it behind the second fallback, whose "v" it hasn't seen: "w" and that one, by rising actors.
pub const STORED_W_BESIDE_V: Message = Message {
    code: 12,
    body: b"\x0a\x03\x0a\x01w\x0a\x03\x0a\x01v\x12\x3d\x02\
\0\0\0\0\0\x01\0\0\0\0\0\x01\0\0\0\0\0\0\0\x02\
\0\0\0\0\0\x01\x80\0\0\0\0\x01\0\0\0\0\0\0\0\x01\
\0\0\0\0\0\x01\x80\0\0\0\0\x02\0\0\0\0\0\0\0\x01",
};

/// A put of "v" without context, of a key that may not be present.
pub const PUT_V_IF_NONE: Message = Message {
    code: 11,
    body: b"\x0a\x01b\x12\x01k\x22\x03\x0a\x01v\x50\x01",
};

/// The reply to it where the key is present.
pub const MATCH_FOUND: Message = Message {
    code: 0,
    body: b"\x0a\x0bmatch_found\x10\x01",
};

/// The reply to a get that shows "v", the first write of the key's second life at the vnode 0 of run 1.
pub const SHOWS_V_IN_LIFE_TWO: Message = Message {
    code: 10,
    body: b"\x0a\x03\x0a\x01v\x12\x15\x02\0\0\0\0\0\x01\0\0\0\0\0\x02\0\0\0\0\0\0\0\x01",
};

/// The reply to a put.
pub const STORED: Message = Message {
    code: 12,
    body: b"",
};

/// The reply to a delete.
pub const DELETED: Message = Message {
    code: 14,
    body: b"",
};

/// Reads a request, and a second time where memory was refused.
pub fn request_again(alloc: Global, message: &Message) -> Result<Request, MsgFault> {
    match read_request(alloc, message.code, message.body) {
        Err(MsgFault::NoMemory) => read_request(alloc, message.code, message.body),
        other => other,
    }
}

/// Reads a reply, and a second time where memory was refused.
pub fn reply_again(alloc: Global, message: &Message) -> Result<Reply, MsgFault> {
    match read_reply(alloc, message.code, message.body) {
        Err(MsgFault::NoMemory) => read_reply(alloc, message.code, message.body),
        other => other,
    }
}

//! Replies, and their encoding.

ghost use Rattle.std.specs.Prelude.{◌≡◌, ◌∷◌, ◌++◌, length, IfOk, OnOk, IsOkUnless};
ghost use Rattle.riak_msgs.specs.Replies.{reply_body, reply_code};

use crate::encode::write_message;
use crate::fault::MsgFault;
use crate::get::GetReply;
use crate::put::PutReply;
use crate::text::{Text, text_of};
use pb_fields::{Message, Output, encoded_len};
use std::alloc::{AllocError, Global};

/// The one number that errors have here.
const ERROR_NUMBER: u64 = 1;

/// The response to a request.
#[derive(Drop)]
pub enum Reply {
    Error(Text),
    Ping,
    Get(GetReply),
    Put(PutReply),
    Del,
}

impl Reply {
    /// Its message code.
    pub fn code(&self) -> u8
        ensures { result ≡ reply_code self.now }
    {
        match self {
            Reply::Error(_) => 0,
            Reply::Ping => 2,
            Reply::Get(_) => 10,
            Reply::Put(_) => 12,
            Reply::Del => 14,
        }
    }

    /// How many bytes its body has. It takes no memory.
    ///
    /// Refused only where they are more than a `usize` counts, by [`MsgFault::NoMemory`].
    pub fn body_len(&self) -> Result<usize, MsgFault>
        ensures length { IfOk result (λ n. n ≡ length (reply_body self.now)) }
        ensures memory { IsOkUnless result MsgFault.NoMemory }
    {
        Ok(encoded_len(self)?)
    }

    /// Appends its body, in the one encoding that a reply has. Where the vector has room for [`Reply::body_len`] bytes
    /// it doesn't grow.
    ///
    /// Refused by [`MsgFault::NoMemory`] alone; the vector may then end with a part of the body.
    pub fn append_body(&self, out: &mut Vec<u8>) -> Result<(), MsgFault>
        ensures appended { OnOk result (out.new.items ≡ out.old.items ++ reply_body self.now) }
        ensures memory { IsOkUnless result MsgFault.NoMemory }
    {
        self.encode(out)?;
        Ok(())
    }
}

impl Message for Reply {
    ghost encoding = { reply_body };

    fn encode<O: Output>(&self, out: &mut O) -> Result<(), AllocError> {
        match self {
            Reply::Error(text) => {
                out.encode_bytes(1, text_of(*text))?;
                out.encode_varint(2, ERROR_NUMBER)
            }
            Reply::Get(reply) => reply.encode(out),
            Reply::Put(reply) => reply.encode(out),
            Reply::Ping | Reply::Del => Ok(()),
        }
    }
}

/// The message code of a reply, and its body after it, in the one encoding that a reply has: fields by rising
/// number, each varint in its shortest form, nothing for what is absent or false.
///
/// It takes one buffer of the right size.
///
/// Refused by [`MsgFault::NoMemory`] alone.
pub fn write_reply(alloc: Global, reply: &Reply) -> Result<Vec<u8>, MsgFault>
    ensures encoded { IfOk result (λ v. v.items ≡ reply_code reply.now ∷ reply_body reply.now) }
    ensures memory { IsOkUnless result MsgFault.NoMemory }
{
    write_message(alloc, reply.code(), reply)
}

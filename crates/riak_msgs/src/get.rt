//! The request of a get, and its reply.

ghost use Rattle.std.specs.Prelude.{◌≡◌, IfOk};
ghost use Rattle.riak_msgs.specs.Replies.{get_reply_body};
ghost use Rattle.riak_msgs.specs.Requests.{get_body, plain_get};

use crate::context_bytes::ContextBytes;
use crate::encode::{encode_context, encode_type};
use crate::key::Key;
use crate::sequence::Sequence;
use crate::shown::Shown;
use pb_fields::{Message, Output, encode_repeated};
use std::alloc::{AllocError, Global};

/// Asks for the siblings of a key.
///
/// Source: `RpbGetReq` of Riak's Protocol Buffers client API, without the fields that have no effect here.
#[derive(Drop)]
pub struct GetAsk {
    pub key: Key,
    /// A context: a stored clock of the same entries is answered by `unchanged`. No bytes are no context.
    pub if_modified: ContextBytes,
    /// Values are shown empty.
    pub head: bool,
    /// The context of a dead key is shown.
    pub deletedvclock: bool,
}

impl GetAsk {
    /// Asks for a key of the default type, and for nothing else.
    #[inline(always)]
    pub fn plain(alloc: Global, bucket: &[u8], key: &[u8]) -> Result<GetAsk, AllocError>
        ensures { IfOk result (λ ask. ask ≡ plain_get bucket.now key.now) }
    {
        Ok(GetAsk {
            key: Key::of_default_type(alloc, bucket, key)?,
            if_modified: ContextBytes::new(alloc),
            head: false,
            deletedvclock: false,
        })
    }
}

impl Message for GetAsk {
    ghost encoding = { get_body };

    fn encode<O: Output>(&self, out: &mut O) -> Result<(), AllocError> {
        self.key.encode_names(out)?;
        encode_context(out, 7, &self.if_modified)?;
        out.encode_bool(8, self.head)?;
        out.encode_bool(9, self.deletedvclock)?;
        encode_type(out, 13, &self.key.bucket_type)
    }
}

/// Answers a get: the siblings of the key, newest first, and the context of what was seen.
///
/// Source: `RpbGetResp` of Riak's Protocol Buffers client API.
#[derive(Drop)]
pub struct GetReply {
    pub contents: Sequence<Shown>,
    /// No bytes are no context.
    pub context: ContextBytes,
    pub unchanged: bool,
}

impl Message for GetReply {
    ghost encoding = { get_reply_body };

    fn encode<O: Output>(&self, out: &mut O) -> Result<(), AllocError> {
        encode_repeated(out, 1, self.contents.as_slice())?;
        encode_context(out, 2, &self.context)?;
        out.encode_bool(3, self.unchanged)
    }
}

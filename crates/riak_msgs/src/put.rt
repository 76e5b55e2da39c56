//! The request of a put, and its reply.

ghost use Rattle.std.specs.Prelude.{◌≡◌, IfOk, OnOk};
ghost use Rattle.riak_msgs.specs.Replies.{put_reply_body};
ghost use Rattle.riak_msgs.specs.Requests.{plain_put, put_body, put_options};

use crate::content::Content;
use crate::context_bytes::ContextBytes;
use crate::encode::{encode_context, encode_type};
use crate::key::Key;
use crate::sequence::Sequence;
use crate::shown::Shown;
use pb_fields::{Message, Output, encode_message, encode_repeated};
use std::alloc::{AllocError, Global};

/// Asks to write a content under a key.
///
/// Source: `RpbPutReq` of Riak's Protocol Buffers client API, without the fields that have no effect here.
#[derive(Drop)]
pub struct PutAsk {
    pub key: Key,
    /// What the writer has seen. No bytes are no context.
    pub context: ContextBytes,
    pub content: Content,
    /// The siblings after the put are shown.
    pub return_body: bool,
    /// The siblings after the put are shown with empty values.
    pub return_head: bool,
    /// Refused where the stored clock isn't that of the context.
    pub if_not_modified: bool,
    /// Refused where the key has a value.
    pub if_none_match: bool,
}

impl PutAsk {
    /// Asks to write a value without details, under a key of the default type, after what the context has
    /// seen, without options. No bytes are no context.
    pub fn plain(
        alloc: Global,
        bucket: &[u8],
        key: &[u8],
        context: &[u8],
        value: &[u8],
    ) -> Result<PutAsk, AllocError>
        ensures { IfOk result (λ ask. ask ≡ plain_put bucket.now key.now context.now value.now) }
    {
        Ok(PutAsk {
            key: Key::of_default_type(alloc, bucket, key)?,
            context: ContextBytes::from_slice(alloc, context)?,
            content: Content::of_value(alloc, value)?,
            return_body: false,
            return_head: false,
            if_not_modified: false,
            if_none_match: false,
        })
    }

    /// Encodes the options.
    fn encode_options<O: Output>(&self, out: &mut O) -> Result<(), AllocError>
        ensures { OnOk result (O.appends out.old (put_options self.now) out.new) }
    {
        out.encode_bool(7, self.return_body)?;
        out.encode_bool(9, self.if_not_modified)?;
        out.encode_bool(10, self.if_none_match)?;
        out.encode_bool(11, self.return_head)
    }
}

impl Message for PutAsk {
    ghost encoding = { put_body };

    fn encode<O: Output>(&self, out: &mut O) -> Result<(), AllocError> {
        self.key.encode_names(out)?;
        encode_context(out, 3, &self.context)?;
        encode_message(out, 4, &self.content)?;
        self.encode_options(out)?;
        encode_type(out, 16, &self.key.bucket_type)
    }
}

/// Answers a put: what `return_body` or `return_head` asked to be shown, else nothing.
///
/// Source: `RpbPutResp` of Riak's Protocol Buffers client API. Its key is never written.
#[derive(Drop)]
pub struct PutReply {
    pub contents: Sequence<Shown>,
    /// No bytes are no context.
    pub context: ContextBytes,
}

impl Message for PutReply {
    ghost encoding = { put_reply_body };

    fn encode<O: Output>(&self, out: &mut O) -> Result<(), AllocError> {
        encode_repeated(out, 1, self.contents.as_slice())?;
        encode_context(out, 2, &self.context)
    }
}

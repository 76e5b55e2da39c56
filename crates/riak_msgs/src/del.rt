//! The request of a delete.

ghost use Rattle.riak_msgs.specs.Requests.{del_body};

use crate::context_bytes::ContextBytes;
use crate::encode::{encode_context, encode_type};
use crate::key::Key;
use pb_fields::{Message, Output};
use std::alloc::AllocError;

/// Asks to write a tombstone under a key.
///
/// Source: `RpbDelReq` of Riak's Protocol Buffers client API, without the fields that have no effect here.
#[derive(Drop)]
pub struct DelAsk {
    pub key: Key,
    /// What the deleter has seen. No bytes are no context: it sees all that is stored.
    pub context: ContextBytes,
}

impl Message for DelAsk {
    ghost encoding = { del_body };

    fn encode<O: Output>(&self, out: &mut O) -> Result<(), AllocError> {
        self.key.encode_names(out)?;
        encode_context(out, 4, &self.context)?;
        encode_type(out, 13, &self.key.bucket_type)
    }
}

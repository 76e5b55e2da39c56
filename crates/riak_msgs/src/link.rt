//! Links of a content.

ghost use Rattle.riak_msgs.specs.ContentEncoding.{link_message};

use crate::encode::encode_optional;
use pb_fields::{Message, Output};
use std::alloc::AllocError;
use std::marker::Model;

/// A link from a value to another key, borrowed. Each part may be absent. Contracts see the record of its parts.
#[derive(Drop)]
pub struct Link<'a> {
    pub bucket: Option<&'a [u8]>,
    pub key: Option<&'a [u8]>,
    pub tag: Option<&'a [u8]>,
}

impl<'a> Model for Link<'a> {
    ghost use Rattle.std.specs.Prelude.{option_copied};
    ghost use Rattle.riak_msgs.specs.Content.{Link};

    ghost Value = { Link };

    ghost view = { λ link. record {
      bucket = option_copied link.bucket;
      key = option_copied link.key;
      tag = option_copied link.tag;
    } };
}

impl<'a> Message for Link<'a> {
    ghost encoding = { link_message };

    #[inline(always)]
    fn encode<O: Output>(&self, out: &mut O) -> Result<(), AllocError> {
        encode_optional(out, 1, self.bucket)?;
        encode_optional(out, 2, self.key)?;
        encode_optional(out, 3, self.tag)
    }
}

//! Pairs of a content's metadata and indexes.

ghost use Rattle.riak_msgs.specs.ContentEncoding.{pair_message};

use crate::encode::encode_optional;
use pb_fields::{Message, Output};
use std::alloc::AllocError;
use std::marker::Model;

/// A key of a content's metadata or indexes, with its value where it has one, borrowed. Contracts see
/// the record of both.
#[derive(Drop)]
pub struct Pair<'a> {
    pub key: &'a [u8],
    pub value: Option<&'a [u8]>,
}

impl<'a> Model for Pair<'a> {
    ghost use Rattle.std.specs.Prelude.{option_copied};
    ghost use Rattle.riak_msgs.specs.Content.{Pair};

    ghost Value = { Pair };

    ghost view = { λ pair. record { key = pair.key.now; value = option_copied pair.value } };
}

impl<'a> Message for Pair<'a> {
    ghost encoding = { pair_message };

    #[inline(always)]
    fn encode<O: Output>(&self, out: &mut O) -> Result<(), AllocError> {
        out.encode_bytes(1, self.key)?;
        encode_optional(out, 2, self.value)
    }
}

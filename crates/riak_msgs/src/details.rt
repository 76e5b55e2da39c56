//! What a content may state beside its value.

ghost use Rattle.riak_msgs.specs.Details.{details_message, no_details};
ghost use Rattle.std.specs.Prelude.{◌≡◌};

use crate::encode::encode_optional;
use crate::link::Link;
use crate::pair::Pair;
use crate::sequence::Sequence;
use pb_fields::{Message, Output, encode_repeated};
use std::alloc::{AllocError, Global};

/// What a content may state beside its value, borrowed. Each part may be absent, and most contents have none.
///
/// Source: `RpbContent` of `riak_kv.proto`.
pub struct Details<'a> {
    pub content_type: Option<&'a [u8]>,
    pub charset: Option<&'a [u8]>,
    pub content_encoding: Option<&'a [u8]>,
    pub links: Sequence<Link<'a>>,
    pub usermeta: Sequence<Pair<'a>>,
    pub indexes: Sequence<Pair<'a>>,
}

/// One call at each place where one is let go.
impl<'a> Drop for Details<'a> {
    fn drop(self) {
        let Details {
            content_type: _content_type,
            charset: _charset,
            content_encoding: _content_encoding,
            links: _links,
            usermeta: _usermeta,
            indexes: _indexes,
        } = self;
    }
}

impl<'a> Details<'a> {
    /// None is given. It takes no memory.
    pub fn new(alloc: Global) -> Details<'a>
        ensures { result ≡ no_details }
    {
        Details {
            content_type: None,
            charset: None,
            content_encoding: None,
            links: Sequence::new(alloc),
            usermeta: Sequence::new(alloc),
            indexes: Sequence::new(alloc),
        }
    }
}

impl<'a> Message for Details<'a> {
    ghost encoding = { details_message };

    fn encode<O: Output>(&self, out: &mut O) -> Result<(), AllocError> {
        encode_optional(out, 2, self.content_type)?;
        encode_optional(out, 3, self.charset)?;
        encode_optional(out, 4, self.content_encoding)?;
        encode_repeated(out, 6, self.links.as_slice())?;
        encode_repeated(out, 9, self.usermeta.as_slice())?;
        encode_repeated(out, 10, self.indexes.as_slice())
    }
}

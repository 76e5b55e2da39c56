//! A content as a reply shows it.

ghost use Rattle.riak_msgs.specs.BareContents.{content_shown, no_content};
ghost use Rattle.riak_msgs.specs.ContentEncoding.{content_message};
ghost use Rattle.riak_msgs.specs.Details.{content_with};
ghost use Rattle.std.specs.Prelude.{◌≡◌, Some, IfOk, OnOk, IsOkUnless};

use crate::content::Content;
use crate::details::Details;
use crate::fault::MsgFault;
use pb_fields::{Message, Output};
use std::alloc::{AllocError, Global};
use std::marker::Model;

/// The encoding of an empty value without details.
const NO_CONTENT: &[u8] = &[10, 0];

/// A content as a reply shows it, with its value or without. It is a further owner of a content's bytes,
/// of which none is copied, also where the value isn't shown. Contracts see the content that is shown.
pub struct ShownContent {
    /// None of an empty value without details.
    whole: Option<Content>,
    is_bare: bool,
}

/// One call at each place where one is let go.
impl Drop for ShownContent {
    fn drop(self) {
        let ShownContent {
            whole: _whole,
            is_bare: _is_bare,
        } = self;
    }
}

impl Model for ShownContent {
    ghost use Rattle.riak_msgs.specs.Content.{Content};
    ghost use Rattle.riak_msgs.specs.BareContents.{content_shown};

    ghost Value = { Content };

    ghost view = { λ s. content_shown s.is_bare s.whole };
}

impl ShownContent {
    /// An empty value without details. It takes no memory.
    pub(crate) fn empty() -> ShownContent
        ensures { result ≡ no_content }
    {
        ShownContent {
            whole: None,
            is_bare: false,
        }
    }

    /// This content, without its value where it is to be bare. It takes no memory.
    #[inline(always)]
    pub(crate) fn new(content: Content, is_bare: bool) -> ShownContent
        ensures { result ≡ content_shown is_bare (Some content) }
    {
        ShownContent {
            whole: Some(content),
            is_bare,
        }
    }

    /// The value's bytes; none, where it isn't shown.
    pub fn value(&self) -> &[u8]
        ensures { result.now ≡ self.now.value }
    {
        match &self.whole {
            Some(content) if !self.is_bare => content.value(),
            _ => &[],
        }
    }

    /// The details, as [`Content::details`] gives them, at the same cost. Refused where memory is.
    pub fn details(&self, alloc: Global) -> Result<Details<'_>, MsgFault>
        ensures details { IfOk result (λ details.
            self.now ≡ content_with self.now.value details) }
        ensures memory { IsOkUnless result MsgFault.NoMemory }
    {
        match &self.whole {
            Some(content) => content.details(alloc),
            None => Ok(Details::new(alloc)),
        }
    }
}

impl Message for ShownContent {
    ghost encoding = { content_message };

    #[inline(always)]
    fn encode<O: Output>(&self, out: &mut O) -> Result<(), AllocError> {
        match &self.whole {
            Some(content) => encode_content(out, content, self.is_bare),
            None => encode_empty(out),
        }
    }
}

/// Encodes a content, without its value where it is to be bare.
#[inline(always)]
pub(crate) fn encode_content<O: Output>(
    out: &mut O,
    content: &Content,
    is_bare: bool,
) -> Result<(), AllocError>
    ensures { OnOk result
        (O.appends out.old (content_message (content_shown is_bare (Some content.now))) out.new) }
{
    if is_bare {
        return content.encode_head(out);
    }
    content.encode(out)
}

/// Encodes an empty value without details.
#[inline(always)]
#[tactic(auto, unfolding(pb_fields::specs::Encoding::varint_encoding, pb_fields::specs::Encoding::varint_encoded))]
fn encode_empty<O: Output>(out: &mut O) -> Result<(), AllocError>
    ensures { OnOk result (O.appends out.old (content_message no_content) out.new) }
{
    out.append_encoded(NO_CONTENT)
}

//! Puts in the plain form.

ghost use Rattle.std.specs.Prelude.{◌≡◌, IfNone, IfOk, IfSome};
ghost use Rattle.riak_msgs.specs.Content.{Content};
ghost use Rattle.riak_msgs.specs.ContentEncoding.{content_message};
ghost use Rattle.riak_msgs.specs.PlainFields.{IsContentMessage};
ghost use Rattle.riak_msgs.specs.PlainPuts.{ArePlainFlags, IsPlainPutOf, plainly_asked};

use crate::content::Content;
use crate::context_bytes::ContextBytes;
use crate::key::Key;
use crate::plain_fields::{first_bytes, first_context, first_flag, first_names, is_plain_content};
use crate::put::PutAsk;
use crate::read_put::PutFlags;
use std::alloc::{AllocError, Global};

/// What a put in the plain form says, borrowed from its body: names, a context, a content that is its
/// own encoding, and the options.
#[derive(Clone, Copy)]
pub(crate) struct PlainPut<'a> {
    pub(crate) bucket: &'a [u8],
    pub(crate) key: &'a [u8],
    pub(crate) context: &'a [u8],
    pub(crate) content: &'a [u8],
    pub(crate) flags: PutFlags,
}

impl<'a> PlainPut<'a> {
    /// What a body says, where it is in the plain form.
    #[inline(always)]
    pub(crate) fn of(body: &'a [u8]) -> Option<PlainPut<'a>>
        ensures some { IfSome result (λ put. IsPlainPutOf body.now put) }
        ensures none { IfNone result ((put : PlainPut) → IsPlainPutOf body.now put → ⊥) }
    {
        let Some((bucket, key, behind_names)) = first_names(body) else {
            return None;
        };
        let (context, behind_context) = first_context(3, behind_names);
        let Some((content, options)) = first_bytes(4, behind_context) else {
            return None;
        };
        if !is_plain_content(content) {
            return None;
        }
        let Some(flags) = plain_flags(options) else {
            return None;
        };
        Some(PlainPut {
            bucket,
            key,
            context,
            content,
            flags,
        })
    }

    /// A copy of what is asked.
    #[inline(always)]
    pub(crate) fn ask(&self, alloc: Global) -> Result<PutAsk, AllocError>
        requires { IsContentMessage self.now.content.now }
        ensures { (content : Content) → self.now.content.now ≡ content_message content
            → IfOk result (λ ask. ask ≡ plainly_asked self.now content) }
    {
        Ok(PutAsk {
            key: Key::of_default_type(alloc, self.bucket, self.key)?,
            context: ContextBytes::from_slice(alloc, self.context)?,
            content: Content::from_encoding(alloc, self.content)?,
            return_body: self.flags.return_body,
            return_head: self.flags.return_head,
            if_not_modified: self.flags.if_not_modified,
            if_none_match: self.flags.if_none_match,
        })
    }
}

/// The options of a put, where these bytes are their one encoding.
#[inline(always)]
fn plain_flags(bytes: &[u8]) -> Option<PutFlags>
    ensures some { IfSome result (λ flags. ArePlainFlags bytes.now flags) }
    ensures none { IfNone result ((flags : PutFlags) → ArePlainFlags bytes.now flags → ⊥) }
{
    let (return_body, behind_body) = first_flag(7, bytes);
    let (if_not_modified, behind_modified) = first_flag(9, behind_body);
    let (if_none_match, behind_match) = first_flag(10, behind_modified);
    let (return_head, rest) = first_flag(11, behind_match);
    if !rest.is_empty() {
        return None;
    }
    Some(PutFlags {
        return_body,
        if_not_modified,
        if_none_match,
        return_head,
    })
}

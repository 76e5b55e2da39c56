//! A sibling as a reply shows it.

ghost use Rattle.riak_msgs.specs.Encoding.{shown_message};
ghost use Rattle.std.specs.Prelude.{◌≡◌, ◌++◌, false, Some, IfOk, OnOk};
ghost use Rattle.riak_msgs.specs.Contents.{shown, tombstone};

use crate::content::Content;
use crate::shown_content::{ShownContent, encode_content};
use pb_fields::{Message, Output};
use std::alloc::AllocError;

/// A sibling as a reply shows it. Of a tombstone the content is empty and `deleted` true.
pub struct Shown {
    pub content: ShownContent,
    pub deleted: bool,
}

/// One call at each place where one is let go.
impl Drop for Shown {
    fn drop(self) {
        let Shown {
            content: _content,
            deleted: _deleted,
        } = self;
    }
}

impl Shown {
    /// A tombstone, as a reply shows it. It takes no memory.
    pub fn tombstone() -> Shown
        ensures { result ≡ tombstone }
    {
        Shown {
            content: ShownContent::empty(),
            deleted: true,
        }
    }

    /// A content, as a reply shows it, without its value where it is to be bare: one more owner of its
    /// bytes. It takes no memory, and is refused only where there are 2 to the 63 of them.
    #[inline(always)]
    pub fn of_content(content: &Content, is_bare: bool) -> Result<Shown, AllocError>
        ensures { IfOk result (λ s. s ≡ shown is_bare (Some content.now)) }
    {
        Ok(Shown {
            content: ShownContent::new(content.clone()?, is_bare),
            deleted: false,
        })
    }
}

impl Message for Shown {
    ghost encoding = { shown_message };

    #[inline(always)]
    fn encode<O: Output>(&self, out: &mut O) -> Result<(), AllocError> {
        self.content.encode(out)?;
        out.encode_bool(11, self.deleted)
    }
}

/// The encoding of a tombstone, as a reply shows it.
const TOMBSTONE: &[u8] = &[10, 0, 88, 1];

/// A sibling as a reply shows it, encoded from where it lies: a content, or a tombstone where there is
/// none. Nothing of it is copied before.
#[derive(Clone, Copy)]
pub struct ShownSibling<'a> {
    pub sibling: &'a Option<Content>,
    /// Without its value.
    pub is_bare: bool,
}

/// Encodes a content as a reply shows it, without its value where it is to be bare.
#[inline(always)]
fn encode_shown<O: Output>(out: &mut O, content: &Content, is_bare: bool) -> Result<(), AllocError>
    ensures { OnOk result
        (O.appends out.old (shown_message (shown is_bare (Some content.now))) out.new) }
{
    encode_content(out, content, is_bare)?;
    out.encode_bool(11, false)
}

/// Encodes a tombstone as a reply shows it.
#[inline(always)]
#[tactic(auto, unfolding(pb_fields::specs::Encoding::varint_encoding, pb_fields::specs::Encoding::varint_encoded))]
fn encode_tombstone<O: Output>(out: &mut O) -> Result<(), AllocError>
    ensures { OnOk result (O.appends out.old (shown_message tombstone) out.new) }
{
    out.append_encoded(TOMBSTONE)
}

impl<'a> Message for ShownSibling<'a> {
    ghost use Rattle.riak_msgs.specs.Encoding.{shown_message};
    ghost use Rattle.riak_msgs.specs.Contents.{shown};

    ghost encoding = { λ s. shown_message (shown s.is_bare s.sibling.now) };

    #[inline(always)]
    fn encode<O: Output>(&self, out: &mut O) -> Result<(), AllocError> {
        match self.sibling {
            None => encode_tombstone(out),
            Some(content) => encode_shown(out, content, self.is_bare),
        }
    }
}

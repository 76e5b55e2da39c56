//! What is stored under a key.

ghost use Rattle.std.specs.Prelude.{◌≡◌, ◌<◌, ◌^◌, ◌∷◌, ◌++◌, [], Some};
ghost use Rattle.std.specs.Prelude.{length, IfOk, OnOk, IsOkUnless};
ghost use Rattle.pb_fields.specs.Encoding.{bytes_field};
ghost use Rattle.riak_msgs.specs.ContentEncoding.{content_message};
ghost use Rattle.riak_msgs.specs.Details.{content_with, details_message};
ghost use Rattle.riak_msgs.specs.KeptContent.{Keeps, Keeps-prop};

use crate::content_view::ContentView;
use crate::details::Details;
use crate::encode::write_encoding;
use crate::fault::MsgFault;
use crate::field_access::bytes_at;
use pb_fields::{Fields, LengthCounter, Message, Output};
use std::alloc::{AllocError, Global};
use std::marker::Model;
use std::sync::ArcSlice;

/// The field of an empty value.
const EMPTY_VALUE: &[u8] = &[10, 0];

/// What a client stores under a key: a value, and its details.
///
/// Kept is its encoding, as a reply has it: the value's field, and behind it those of the details that
/// are there. So a reply takes it as it is. It lies on the heap and has its owners counted, in any
/// threads: a further owner copies no byte and takes no memory, and moving a content moves a pointer.
/// Contracts see the record of the value and each detail.
///
/// Source: `RpbContent` of `riak_kv.proto`, without the tag and times that a server writes.
pub struct Content {
    encoding: ArcSlice<u8, Global>,
    ghost kept: { Keeps encoding.items.value.items } by { Keeps-prop encoding.items.value.items },
}

/// One call at each place where one is let go.
impl Drop for Content {
    fn drop(self) {
        let Content {
            encoding: _encoding,
        } = self;
    }
}

impl Model for Content {
    ghost use Rattle.riak_msgs.specs.Content.{Content};
    ghost use Rattle.riak_msgs.specs.KeptContent.{content_kept};

    ghost Value = { Content };

    ghost view = { λ c. content_kept c.encoding.items.value.items c.kept };
}

impl Content {
    ghost use Rattle.riak_msgs.specs.Content.{Content};
    ghost use Rattle.riak_msgs.specs.Contents.{bare, no_content};
    ghost use Rattle.riak_msgs.specs.Embedded.{ContentFields, StandForContent, content_of};
    ghost use Rattle.riak_msgs.specs.Seen.{IsSeenOf};

    /// A value without details.
    pub fn of_value(alloc: Global, value: &[u8]) -> Result<Content, AllocError>
        ensures { IfOk result (λ content. content ≡ record no_content { value = value.now }) }
    {
        Content::with_details(alloc, value, &Details::new(alloc))
    }

    /// A value with these details. It takes two places on the heap: one of the size of its encoding, and
    /// one for the count of owners.
    pub fn with_details(
        alloc: Global,
        value: &[u8],
        details: &Details<'_>,
    ) -> Result<Content, AllocError>
        ensures { IfOk result (λ content. content ≡ content_with value.now details.now) }
    {
        let encoding = ArcSlice::from_vec(write_encoding(alloc, &Detailed { value, details })?)?;
        Ok(Content { encoding })
    }

    /// The content of this encoding.
    pub(crate) fn of_encoding(encoding: Vec<u8>) -> Result<Content, AllocError>
        requires { (content : Content) × (encoding.items ≡ content_message content) }
        ensures { (content : Content) → encoding.items ≡ content_message content
            → IfOk result (λ kept. kept ≡ content) }
    {
        Ok(Content {
            encoding: ArcSlice::from_vec(encoding)?,
        })
    }

    /// A copy of the content of this encoding.
    #[inline(always)]
    pub(crate) fn from_encoding(alloc: Global, encoding: &[u8]) -> Result<Content, AllocError>
        requires { (content : Content) × (encoding.now ≡ content_message content) }
        ensures { (content : Content) → encoding.now ≡ content_message content
            → IfOk result (λ kept. kept ≡ content) }
    {
        Content::of_encoding(Vec::from_slice(alloc, encoding)?)
    }

    /// The encoding.
    fn encoding(&self) -> &[u8]
        ensures encoding { result.now ≡ content_message self.now }
        ensures counted { length result.now < 2 ^ 64 }
    {
        self.encoding.as_slice()
    }

    /// What a scan over the encoding sees.
    fn view(&self) -> ContentView<'_>
        ensures { (c : ContentFields) × IsSeenOf result c
            × StandForContent (content_message self.now ∷ []) c × (content_of c ≡ Some self.now) }
    {
        let mut view = ContentView::new();
        match view.merge(self.encoding()) {
            Ok(()) => view,
            Err(_) => unreachable!(),
        }
    }

    /// The value's bytes, which are those of the first field.
    pub fn value(&self) -> &[u8]
        ensures { result.now ≡ self.now.value }
    {
        match Fields::new(self.encoding()).next() {
            Some(Ok(field)) => bytes_at(1, field).unwrap_or(&[]),
            Some(Err(_)) => unreachable!(),
            None => unreachable!(),
        }
    }

    /// The details. They take memory only where there are links or pairs, to list them; the time is
    /// linear in the encoding's bytes.
    pub fn details(&self, alloc: Global) -> Result<Details<'_>, MsgFault>
        ensures details { IfOk result (λ details.
            self.now ≡ content_with self.now.value details) }
        ensures memory { IsOkUnless result MsgFault.NoMemory }
    {
        Ok(self.view().whole(alloc, self.encoding())?.details)
    }

    /// A further owner of the same bytes. It takes no memory, and is refused only where there are 2 to the 63 of them.
    pub fn clone(&self) -> Result<Content, AllocError>
        ensures { IfOk result (λ copy. copy ≡ self.now) }
    {
        Ok(Content {
            encoding: self.encoding.clone()?,
        })
    }

    /// What of the encoding is behind the value's field.
    fn encoded_details(&self) -> Result<&[u8], AllocError>
        ensures { IfOk result (λ details.
            content_message (bare self.now) ≡ EMPTY_VALUE.now ++ details.now) }
    {
        let encoding = self.encoding();
        let mut head = LengthCounter { len: 0 };
        head.encode_bytes(1, self.value())?;
        Ok(&encoding[head.len..])
    }

    /// Encodes it with an empty value.
    #[inline(always)]
    pub(crate) fn encode_head<O: Output>(&self, out: &mut O) -> Result<(), AllocError>
        ensures { OnOk result (O.appends out.old (content_message (bare self.now)) out.new) }
    {
        out.append_encoded(EMPTY_VALUE)?;
        out.append_encoded(self.encoded_details()?)?;
        Ok(())
    }
}

impl Message for Content {
    ghost encoding = { content_message };

    #[inline(always)]
    fn encode<O: Output>(&self, out: &mut O) -> Result<(), AllocError> {
        out.append_encoded(self.encoding())
    }
}

/// A value, and its details behind it.
#[derive(Clone, Copy)]
struct Detailed<'a, 'd> {
    value: &'a [u8],
    details: &'a Details<'d>,
}

impl<'a, 'd> Message for Detailed<'a, 'd> {
    ghost encoding = { λ d. bytes_field 1 d.value.now ++ details_message d.details.now };

    fn encode<O: Output>(&self, out: &mut O) -> Result<(), AllocError> {
        out.encode_bytes(1, self.value)?;
        self.details.encode(out)
    }
}

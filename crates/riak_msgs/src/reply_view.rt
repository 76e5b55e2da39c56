//! Reading a reply, for a client: one scan over the fields, in which each content is copied.

ghost use Rattle.std.specs.Prelude.{◌≡◌, ◌++◌, ◌∷◌, [], IfOk, OnOk, OnErr};
ghost use Rattle.pb_fields.specs.Merging.{RefusesNone, Tracks};
ghost use Rattle.riak_msgs.specs.Embedded.{ContentFields, StandForContent};
ghost use Rattle.riak_msgs.specs.Seen.{IsSeenOf};
ghost use Rattle.riak_msgs.specs.ReadingReplies.{ReadsReply};
ghost use Rattle.riak_msgs.specs.SeenReplies.{DecodesError, ReadsShown, HasSeenReply};
ghost use Rattle.riak_msgs.specs.SeenReplies.{IsSeenError, MergesContent, RefusesContent};
ghost use Rattle.riak_msgs.specs.SeenReplies.{whole_of};

use crate::content_view::ContentView;
use crate::context_bytes::ContextBytes;
use crate::fault::MsgFault;
use crate::field_access::{bytes_at, keep_flag, varint_at};
use crate::get::GetReply;
use crate::put::PutReply;
use crate::reply::Reply;
use crate::sequence::Sequence;
use crate::shown::Shown;
use crate::shown_content::ShownContent;
use crate::text::text_named;
use pb_fields::{Field, FieldFault, Merge, scan};
use std::alloc::Global;

/// Decodes a reply, for a client: of its code and the body behind it.
///
/// Of a body's fields those of other numbers or wire types are skipped, and of a scalar the last counts. The body of a
/// reply to a ping or a delete isn't looked at.
///
/// Refused are, in this order, any code but that of a reply ([`MsgFault::UnknownCode`]); a body, or a content, a link
/// or a pair in it, that stands for no list of fields, and an error whose text isn't one of this node's
/// ([`MsgFault::BadMessage`]); a required field that isn't there, which is an error's text or number, a content's value
/// or a pair's key ([`MsgFault::MissingField`]); memory ([`MsgFault::NoMemory`]).
///
/// Each content is copied as it is met, and where memory is refused the scan goes on without copying, so that the other
/// faults come first. Only a reply to a get or a put takes memory. Time is linear in the bytes.
///
/// Source: `RpbErrorResp`, `RpbGetResp` and `RpbPutResp` of Riak's Protocol Buffers client API.
pub fn read_reply(alloc: Global, code: u8, body: &[u8]) -> Result<Reply, MsgFault>
    ensures said { ReadsReply code body.now result }
{
    match code {
        0 => read_error(body),
        2 => Ok(Reply::Ping),
        10 => Ok(Reply::Get(read_shown(alloc, body)?)),
        12 => {
            let shown = read_shown(alloc, body)?;
            Ok(Reply::Put(PutReply {
                contents: shown.contents,
                context: shown.context,
            }))
        }
        14 => Ok(Reply::Del),
        _ => Err(MsgFault::UnknownCode),
    }
}

/// The last text of an error reply, and whether a number is there.
#[derive(Clone, Copy)]
struct ErrorView<'a> {
    text: Option<&'a [u8]>,
    has_number: bool,
}

impl<'a> Merge<'a> for ErrorView<'a> {
    type Fault = FieldFault;

    ghost merges = { Tracks IsSeenError };

    ghost refuses = { RefusesNone };

    fn merge_field(&mut self, field: Field<'a>) -> Result<(), FieldFault> {
        self.text = bytes_at(1, field).or(self.text);
        self.has_number |= varint_at(2, field).is_some();
        Ok(())
    }
}

/// Decodes the body of an error.
fn read_error(body: &[u8]) -> Result<Reply, MsgFault>
    ensures { DecodesError body.now result }
{
    let mut error = ErrorView {
        text: None,
        has_number: false,
    };
    scan(body, &mut error)?;
    let Some(bytes) = error.text else {
        return Err(MsgFault::MissingField);
    };
    match text_named(bytes) {
        None => Err(MsgFault::BadMessage),
        Some(_) if !error.has_number => Err(MsgFault::MissingField),
        Some(text) => Ok(Reply::Error(text)),
    }
}

/// What a scan over the fields of a reply to a get or a put has seen, and its contents, copied.
#[derive(Drop)]
struct ReplyView<'a> {
    alloc: Global,
    context: Option<&'a [u8]>,
    unchanged: bool,
    /// Whether some content lacks what is required.
    misses_field: bool,
    /// Whether memory was refused for some content.
    lacks_memory: bool,
    /// The contents, where none lacks what is required and memory was there for each.
    contents: Sequence<Shown>,
}

impl<'a> Merge<'a> for ReplyView<'a> {
    type Fault = FieldFault;

    ghost merges = { Tracks HasSeenReply };

    ghost refuses = { λ field fault. RefusesContent field };

    fn merge_field(&mut self, field: Field<'a>) -> Result<(), FieldFault> {
        self.context = bytes_at(2, field).or(self.context);
        keep_flag(3, field, &mut self.unchanged);
        match bytes_at(1, field) {
            Some(content) => self.merge_content(content),
            None => Ok(()),
        }
    }
}

impl<'a> ReplyView<'a> {
    // Reads one content, and copies it as long as memory is there.
    fn merge_content(&mut self, bytes: &'a [u8]) -> Result<(), FieldFault>
        ensures ok { OnOk result ((c : ContentFields) × StandForContent (bytes.now ∷ []) c
            × MergesContent self.old c self.new) }
        ensures err { OnErr result ((c : ContentFields) → StandForContent (bytes.now ∷ []) c → ⊥) }
    {
        let mut view = ContentView::new();
        view.merge(bytes)?;
        if !view.has_required_fields() {
            self.misses_field = true;
        } else if !self.lacks_memory {
            let pushed = push_content(self.alloc, bytes, view, &mut self.contents);
            self.lacks_memory = pushed.is_err();
        }
        Ok(())
    }
}

// Copies the content that was seen in these bytes behind the others.
fn push_content<'a>(
    alloc: Global,
    bytes: &'a [u8],
    view: ContentView<'a>,
    contents: &mut Sequence<Shown>,
) -> Result<(), MsgFault>
    ensures { (c : ContentFields) → IsSeenOf view.entry c → StandForContent (bytes.now ∷ []) c
        → OnOk result (contents.new ≡ contents.old ++ whole_of c ∷ []) }
{
    let content = view.whole(alloc, bytes)?.content(alloc)?;
    contents.push(Shown {
        content: ShownContent::new(content, false),
        deleted: view.deleted,
    })?;
    Ok(())
}

/// Decodes the body of a reply to a get; of a reply to a put the flag isn't used.
fn read_shown(alloc: Global, body: &[u8]) -> Result<GetReply, MsgFault>
    ensures { ReadsShown body.now result }
{
    let mut view = ReplyView {
        alloc,
        context: None,
        unchanged: false,
        misses_field: false,
        lacks_memory: false,
        contents: Sequence::new(alloc),
    };
    scan(body, &mut view)?;
    if view.misses_field {
        return Err(MsgFault::MissingField);
    }
    if view.lacks_memory {
        return Err(MsgFault::NoMemory);
    }
    let context = ContextBytes::from_slice(alloc, view.context.unwrap_or(&[]))?;
    Ok(GetReply {
        contents: view.contents,
        context,
        unchanged: view.unchanged,
    })
}

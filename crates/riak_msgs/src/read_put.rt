//! Reading a put.

ghost use Rattle.std.specs.Prelude.{◌≡◌, ◌∷◌, ◌++◌, [], false, List, None, IfOk, IfErr, OnErr};
ghost use Rattle.pb_fields.specs.Field.{WireField, seen};
ghost use Rattle.pb_fields.specs.Merging.{Tracks};
ghost use Rattle.riak_msgs.specs.Reading.{PutFields, EncodesPut, Reads, put_fault, put_of};
ghost use Rattle.riak_msgs.specs.Seen.{IsSeenOf, scalars_of, with_parts};
ghost use Rattle.riak_msgs.specs.Parts.{parts_in, parts_message};
ghost use Rattle.riak_msgs.specs.SeenRequests.{AppendsOccurrence, AreFlagsOf};
ghost use Rattle.riak_msgs.specs.SeenRequests.{HasBadContent, HasSeenPut, IsSeenPutOf};
ghost use Rattle.riak_msgs.specs.SeenRequests.{RefusesOccurrence, no_put};

use crate::content::Content;
use crate::content_view::ContentView;
use crate::context_bytes::ContextBytes;
use crate::fault::MsgFault;
use crate::field_access::{bytes_at, keep_flag, keep_last};
use crate::key_view::KeyView;
use crate::parts_encoder::{PartKind, PartsEncoder};
use crate::plain_put::PlainPut;
use crate::put::PutAsk;
use crate::request::Request;
use pb_fields::{Field, FieldFault, Merge, scan};
use std::alloc::Global;

/// The field numbers of a context, a content, the options and a bucket type in a put.
const CONTEXT: u32 = 3;

const CONTENT: u32 = 4;

const RETURN_BODY: u32 = 7;

const IF_NOT_MODIFIED: u32 = 9;

const IF_NONE_MATCH: u32 = 10;

const RETURN_HEAD: u32 = 11;

const BUCKET_TYPE: u32 = 16;

/// What a walk over a put's fields sees, borrowed from it.
#[derive(Clone, Copy)]
pub(crate) struct PutView<'a> {
    pub(crate) names: KeyView<'a>,
    pub(crate) context: Option<&'a [u8]>,
    pub(crate) flags: PutFlags,
    pub(crate) content: ContentView<'a>,
}

/// The last of each bool of a put.
#[derive(Clone, Copy)]
pub(crate) struct PutFlags {
    pub(crate) return_body: bool,
    pub(crate) if_not_modified: bool,
    pub(crate) if_none_match: bool,
    pub(crate) return_head: bool,
}

impl PutFlags {
    /// None seen yet.
    fn new() -> PutFlags
        ensures { AreFlagsOf result [] }
    {
        PutFlags {
            return_body: false,
            if_not_modified: false,
            if_none_match: false,
            return_head: false,
        }
    }

    /// Merges one field more.
    #[inline(always)]
    fn merge_field(&mut self, field: Field<'_>)
        ensures { (fields : List WireField) → AreFlagsOf self.old fields
            → AreFlagsOf self.new (fields ++ seen field.entry ∷ []) }
    {
        keep_flag(RETURN_BODY, field, &mut self.return_body);
        keep_flag(IF_NOT_MODIFIED, field, &mut self.if_not_modified);
        keep_flag(IF_NONE_MATCH, field, &mut self.if_none_match);
        keep_flag(RETURN_HEAD, field, &mut self.return_head);
    }
}

/// Decodes the body of a put. One in the plain form is read straight, and a body of any other form is scanned.
pub(crate) fn read_put(alloc: Global, body: &[u8]) -> Result<Request, MsgFault>
    ensures { Reads 11 body.now result }
{
    let Some(plain) = PlainPut::of(body) else {
        return read_any_put(alloc, body);
    };
    Ok(Request::Put(plain.ask(alloc)?))
}

/// Decodes the body of a put of any form.
#[inline(never)]
fn read_any_put(alloc: Global, body: &[u8]) -> Result<Request, MsgFault>
    ensures { Reads 11 body.now result }
{
    let view = PutView::of(body)?;
    if let Some(fault) = view.fault() {
        return Err(fault);
    }
    Ok(Request::Put(view.ask(alloc, body)?))
}

impl<'a> PutView<'a> {
    /// What is seen in a body, where it stands for a put's fields.
    #[inline(always)]
    fn of(body: &'a [u8]) -> Result<PutView<'a>, FieldFault>
        ensures ok { IfOk result (λ view. (put : PutFields) × EncodesPut body.now put
            × IsSeenPutOf view put) }
        ensures err { OnErr result ((put : PutFields) → EncodesPut body.now put → ⊥) }
    {
        let mut view = PutView::new();
        scan(body, &mut view)?;
        Ok(view)
    }

    /// Nothing seen yet.
    fn new() -> PutView<'a>
        ensures { IsSeenPutOf result no_put }
    {
        PutView {
            names: KeyView::new(),
            context: None,
            flags: PutFlags::new(),
            content: ContentView::new(),
        }
    }

    /// Why it is no put: bucket and content are required, no name is empty, and no key is made up for it.
    fn fault(&self) -> Option<MsgFault>
        ensures { (put : PutFields) → IsSeenPutOf self.now put → result ≡ put_fault put }
    {
        if self.names.bucket.is_none() || !self.content.has_required_fields() {
            return Some(MsgFault::MissingField);
        }
        if self.names.has_empty() {
            return Some(MsgFault::EmptyName);
        }
        if self.names.key.is_none() {
            return Some(MsgFault::NoKey);
        }
        None
    }

    /// A copy of what is asked, where nothing is missing.
    fn ask(&self, alloc: Global, body: &'a [u8]) -> Result<PutAsk, MsgFault>
        requires { (put : PutFields) × EncodesPut body.now put × IsSeenPutOf self.now put }
        ensures ok { (put : PutFields) → IsSeenPutOf self.now put → EncodesPut body.now put
            → None ≡ put_fault put → IfOk result (λ ask. ask ≡ put_of put) }
        ensures err { (put : PutFields) → IsSeenPutOf self.now put → EncodesPut body.now put
            → IfErr result (λ fault. fault ≡ MsgFault.NoMemory) }
    {
        Ok(PutAsk {
            key: self.names.key(alloc)?,
            context: ContextBytes::from_slice(alloc, self.context.unwrap_or(&[]))?,
            content: self.content(alloc, body)?,
            return_body: self.flags.return_body,
            return_head: self.flags.return_head,
            if_not_modified: self.flags.if_not_modified,
            if_none_match: self.flags.if_none_match,
        })
    }

    /// The content. (Apart from the others, since each value that is held at a `?` costs the prover time.)
    fn content(&self, alloc: Global, body: &'a [u8]) -> Result<Content, MsgFault>
        requires { (put : PutFields) × EncodesPut body.now put × IsSeenPutOf self.now put }
        ensures ok { (put : PutFields) → IsSeenPutOf self.now put → EncodesPut body.now put
            → IfOk result (λ content. content ≡ with_parts (scalars_of put.content) put.content) }
        ensures err { (put : PutFields) → IsSeenPutOf self.now put → EncodesPut body.now put
            → IfErr result (λ fault. fault ≡ MsgFault.NoMemory) }
    {
        if self.content.has_parts() {
            content_with_parts(alloc, self.content, body)
        } else {
            Ok(self.content.scalars(alloc).content(alloc)?)
        }
    }
}

/// The content of a put that was seen to have links or pairs. The body is scanned once more for each of
/// their numbers, since the encoding has them by their numbers. (By a copy of the view, since a view
/// whose place is handed on stays in memory for each put.)
fn content_with_parts(
    alloc: Global,
    view: ContentView<'_>,
    body: &[u8],
) -> Result<Content, MsgFault>
    requires { (put : PutFields) × EncodesPut body.now put × IsSeenOf view put.content }
    ensures ok { (put : PutFields) → IsSeenOf view.entry put.content → EncodesPut body.now put
        → IfOk result (λ content. content ≡ with_parts (scalars_of put.content) put.content) }
    ensures err { (put : PutFields) → EncodesPut body.now put
        → IfErr result (λ fault. fault ≡ MsgFault.NoMemory) }
{
    let scalars = view.begin_encoding(alloc)?;
    let links = append_parts(view.has_links, PartKind::Link, body, scalars)?;
    let usermeta = append_parts(view.has_usermeta, PartKind::Usermeta, body, links)?;
    let encoding = append_parts(view.has_indexes, PartKind::Index, body, usermeta)?;
    Ok(Content::of_encoding(encoding)?)
}

/// Appends the encoding of the links or pairs of one kind, if there are some. The body was seen before,
/// so only memory can be refused.
fn append_parts(
    are_there: bool,
    kind: PartKind,
    body: &[u8],
    out: Vec<u8>,
) -> Result<Vec<u8>, MsgFault>
    ensures ok { (put : PutFields) → (are_there ≡ false → parts_in kind put.content ≡ [])
        → EncodesPut body.now put → IfOk result (λ after.
        after.items ≡ out.items ++ parts_message kind (parts_in kind put.content)) }
    ensures err { (put : PutFields) → EncodesPut body.now put
        → IfErr result (λ fault. fault ≡ MsgFault.NoMemory) }
{
    if !are_there {
        return Ok(out);
    }
    let mut put = PutParts {
        parts: PartsEncoder { kind, out },
    };
    scan(body, &mut put)?;
    Ok(put.parts.out)
}

impl<'a> Merge<'a> for PutView<'a> {
    type Fault = FieldFault;

    ghost merges = { Tracks HasSeenPut };

    ghost refuses = { λ field fault. HasBadContent field };

    fn merge_field(&mut self, field: Field<'a>) -> Result<(), FieldFault> {
        self.names.merge_field(field, BUCKET_TYPE);
        keep_last(CONTEXT, field, &mut self.context);
        self.flags.merge_field(field);
        match bytes_at(CONTENT, field) {
            Some(content) => self.content.merge(content),
            None => Ok(()),
        }
    }
}

/// The links or pairs of one kind in each occurrence of a put's content.
#[derive(Drop)]
struct PutParts {
    parts: PartsEncoder,
}

impl<'a> Merge<'a> for PutParts {
    type Fault = MsgFault;

    ghost merges = { AppendsOccurrence };

    ghost refuses = { RefusesOccurrence };

    fn merge_field(&mut self, field: Field<'a>) -> Result<(), MsgFault> {
        match bytes_at(CONTENT, field) {
            Some(bytes) => self.parts.append_occurrence(bytes),
            None => Ok(()),
        }
    }
}

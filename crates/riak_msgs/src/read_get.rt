//! Reading a get.

ghost use Rattle.std.specs.Prelude.{◌≡◌, List, [], IfOk, IfSome, OnErr, Ok};
ghost use Rattle.pb_fields.specs.Field.{WireField};
ghost use Rattle.pb_fields.specs.Merging.{RefusesNone, Tracks};
ghost use Rattle.pb_fields.specs.Message.{Encodes};
ghost use Rattle.riak_msgs.specs.PlainFields.{BeginsWithNames};
ghost use Rattle.riak_msgs.specs.Reading.{Reads, get_of};
ghost use Rattle.riak_msgs.specs.Requests.{plain_get};
ghost use Rattle.riak_msgs.specs.declared.request.Request.TheVariants.{Get};
ghost use Rattle.riak_msgs.specs.SeenRequests.{IsSeenGetOf};

use crate::context_bytes::ContextBytes;
use crate::fault::MsgFault;
use crate::field_access::{keep_flag, keep_last};
use crate::get::GetAsk;
use crate::key::Key;
use crate::key_view::KeyView;
use crate::plain_fields::{first_context, first_flag, first_names};
use crate::request::Request;
use pb_fields::{Field, FieldFault, Merge, scan};
use std::alloc::{AllocError, Global};

/// The field numbers of a get's options and of its bucket type.
const IF_MODIFIED: u32 = 7;

const HEAD: u32 = 8;

const DELETED_VCLOCK: u32 = 9;

const BUCKET_TYPE: u32 = 13;

/// The bucket and the key of a get, where its body is in the plain form: the one encoding of a get without
/// options of a key of the default type, whose names have bytes. None, where the body is of any other
/// form, or of no get. What is found borrows from the body: it takes no memory.
#[inline(always)]
pub fn plain_get_names(body: &[u8]) -> Option<(&[u8], &[u8])>
    ensures { IfSome result (λ names.
        Reads 9 body.now (Ok (Get (plain_get names.0.now names.1.now)))) }
{
    let Some((bucket, key, rest)) = first_names(body) else {
        return None;
    };
    if !rest.is_empty() {
        return None;
    }
    Some((bucket, key))
}

/// Decodes the body of a get. Names in the plain form are read straight, and so are the options behind
/// them; a body of any other form is scanned.
pub(crate) fn read_get(alloc: Global, body: &[u8]) -> Result<Request, MsgFault>
    ensures { Reads 9 body.now result }
{
    let Some((bucket, key, rest)) = first_names(body) else {
        return read_any_get(alloc, body);
    };
    if !rest.is_empty() {
        return read_get_with_options(alloc, body, bucket, key, rest);
    }
    Ok(Request::Get(GetAsk::plain(alloc, bucket, key)?))
}

/// Decodes the body of a get that begins with these names, and behind them has these bytes.
#[inline(never)]
fn read_get_with_options(
    alloc: Global,
    body: &[u8],
    bucket: &[u8],
    key: &[u8],
    options: &[u8],
) -> Result<Request, MsgFault>
    requires { BeginsWithNames body.now bucket.now key.now options.now }
    ensures { Reads 9 body.now result }
{
    let (if_modified, flags) = first_context(7, options);
    let (head, behind_head) = first_flag(8, flags);
    let (deletedvclock, rest) = first_flag(9, behind_head);
    if !rest.is_empty() {
        return read_any_get(alloc, body);
    }
    Ok(Request::Get(GetAsk {
        key: Key::of_default_type(alloc, bucket, key)?,
        if_modified: ContextBytes::from_slice(alloc, if_modified)?,
        head,
        deletedvclock,
    }))
}

/// Decodes the body of a get of any form.
#[inline(never)]
fn read_any_get(alloc: Global, body: &[u8]) -> Result<Request, MsgFault>
    ensures { Reads 9 body.now result }
{
    let view = GetView::of(body)?;
    if let Some(fault) = view.names.fault() {
        return Err(fault);
    }
    Ok(Request::Get(view.ask(alloc)?))
}

/// What a walk over a get's fields sees, borrowed from its body.
#[derive(Clone, Copy)]
pub(crate) struct GetView<'a> {
    pub(crate) names: KeyView<'a>,
    pub(crate) if_modified: Option<&'a [u8]>,
    pub(crate) head: bool,
    pub(crate) deletedvclock: bool,
}

impl<'a> GetView<'a> {
    /// What is seen in a body, where it stands for fields.
    #[inline(always)]
    fn of(body: &'a [u8]) -> Result<GetView<'a>, FieldFault>
        ensures ok { IfOk result (λ view. (fields : List WireField) × Encodes body.now fields
            × IsSeenGetOf view fields) }
        ensures err { OnErr result ((fields : List WireField) → Encodes body.now fields → ⊥) }
    {
        let mut view = GetView::new();
        scan(body, &mut view)?;
        Ok(view)
    }

    /// Nothing seen yet.
    fn new() -> GetView<'a>
        ensures { IsSeenGetOf result [] }
    {
        GetView {
            names: KeyView::new(),
            if_modified: None,
            head: false,
            deletedvclock: false,
        }
    }

    /// A copy of what is asked.
    #[inline(always)]
    fn ask(&self, alloc: Global) -> Result<GetAsk, AllocError>
        ensures { (fields : List WireField) → IsSeenGetOf self.now fields
            → IfOk result (λ ask. ask ≡ get_of fields) }
    {
        Ok(GetAsk {
            key: self.names.key(alloc)?,
            if_modified: ContextBytes::given(alloc, self.if_modified)?,
            head: self.head,
            deletedvclock: self.deletedvclock,
        })
    }
}

impl<'a> Merge<'a> for GetView<'a> {
    type Fault = FieldFault;

    ghost merges = { Tracks IsSeenGetOf };

    ghost refuses = { RefusesNone };

    fn merge_field(&mut self, field: Field<'a>) -> Result<(), FieldFault> {
        self.names.merge_field(field, BUCKET_TYPE);
        keep_last(IF_MODIFIED, field, &mut self.if_modified);
        keep_flag(HEAD, field, &mut self.head);
        keep_flag(DELETED_VCLOCK, field, &mut self.deletedvclock);
        Ok(())
    }
}

//! Reading a delete.

ghost use Rattle.std.specs.Prelude.{◌≡◌, List, [], IfOk, OnErr};
ghost use Rattle.pb_fields.specs.Field.{WireField};
ghost use Rattle.pb_fields.specs.Merging.{RefusesNone, Tracks};
ghost use Rattle.pb_fields.specs.Message.{Encodes};
ghost use Rattle.riak_msgs.specs.PlainDeletes.{plain_del};
ghost use Rattle.riak_msgs.specs.Reading.{Reads, del_of};
ghost use Rattle.riak_msgs.specs.SeenRequests.{IsSeenDelOf};

use crate::context_bytes::ContextBytes;
use crate::del::DelAsk;
use crate::fault::MsgFault;
use crate::field_access::keep_last;
use crate::key::Key;
use crate::key_view::KeyView;
use crate::plain_fields::{first_context, first_names};
use crate::request::Request;
use pb_fields::{Field, FieldFault, Merge, scan};
use std::alloc::{AllocError, Global};

/// The field numbers of a context and of a bucket type in a delete.
const CONTEXT: u32 = 4;

const BUCKET_TYPE: u32 = 13;

/// Decodes the body of a delete. One in the plain form is read straight, and a body of any other form is scanned.
pub(crate) fn read_del(alloc: Global, body: &[u8]) -> Result<Request, MsgFault>
    ensures { Reads 13 body.now result }
{
    let Some((bucket, key, behind)) = first_names(body) else {
        return read_any_del(alloc, body);
    };
    let (context, rest) = first_context(4, behind);
    if !rest.is_empty() {
        return read_any_del(alloc, body);
    }
    Ok(Request::Del(plain_del(alloc, bucket, key, context)?))
}

/// A delete of a key of the default type, after what this context has seen.
#[inline(always)]
fn plain_del(alloc: Global, bucket: &[u8], key: &[u8], context: &[u8]) -> Result<DelAsk, AllocError>
    ensures { IfOk result (λ ask. ask ≡ plain_del bucket.now key.now context.now) }
{
    Ok(DelAsk {
        key: Key::of_default_type(alloc, bucket, key)?,
        context: ContextBytes::from_slice(alloc, context)?,
    })
}

/// Decodes the body of a delete of any form.
#[inline(never)]
fn read_any_del(alloc: Global, body: &[u8]) -> Result<Request, MsgFault>
    ensures { Reads 13 body.now result }
{
    let view = DelView::of(body)?;
    if let Some(fault) = view.names.fault() {
        return Err(fault);
    }
    Ok(Request::Del(view.ask(alloc)?))
}

/// What a walk over a delete's fields sees, borrowed from its body.
#[derive(Clone, Copy)]
pub(crate) struct DelView<'a> {
    pub(crate) names: KeyView<'a>,
    pub(crate) context: Option<&'a [u8]>,
}

impl<'a> DelView<'a> {
    /// What is seen in a body, where it stands for fields.
    fn of(body: &'a [u8]) -> Result<DelView<'a>, FieldFault>
        ensures ok { IfOk result (λ view. (fields : List WireField) × Encodes body.now fields
            × IsSeenDelOf view fields) }
        ensures err { OnErr result ((fields : List WireField) → Encodes body.now fields → ⊥) }
    {
        let mut view = DelView::new();
        scan(body, &mut view)?;
        Ok(view)
    }

    /// Nothing seen yet.
    fn new() -> DelView<'a>
        ensures { IsSeenDelOf result [] }
    {
        DelView {
            names: KeyView::new(),
            context: None,
        }
    }

    /// A copy of what is asked.
    fn ask(&self, alloc: Global) -> Result<DelAsk, AllocError>
        ensures { (fields : List WireField) → IsSeenDelOf self.now fields
            → IfOk result (λ ask. ask ≡ del_of fields) }
    {
        Ok(DelAsk {
            key: self.names.key(alloc)?,
            context: ContextBytes::given(alloc, self.context)?,
        })
    }
}

impl<'a> Merge<'a> for DelView<'a> {
    type Fault = FieldFault;

    ghost merges = { Tracks IsSeenDelOf };

    ghost refuses = { RefusesNone };

    fn merge_field(&mut self, field: Field<'a>) -> Result<(), FieldFault> {
        self.names.merge_field(field, BUCKET_TYPE);
        keep_last(CONTEXT, field, &mut self.context);
        Ok(())
    }
}

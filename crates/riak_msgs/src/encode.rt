//! Fields that may be absent, and a message behind its code.

ghost use Rattle.std.specs.Prelude.{◌≡◌, ◌∷◌, ◌<◌, ◌^◌, length, IfOk};
ghost use Rattle.std.specs.Prelude.{IsOkUnless, OnOk, option_copied};
ghost use Rattle.pb_fields.specs.Encoding.{optional_field};
ghost use Rattle.pb_fields.specs.Field.{IsNumber};
ghost use Rattle.riak_msgs.specs.Encoding.{context_field};
ghost use Rattle.riak_msgs.specs.Requests.{type_field};

use crate::bucket_type::{BucketType, DEFAULT_TYPE};
use crate::context_bytes::ContextBytes;
use crate::fault::MsgFault;
use pb_fields::{Message, Output, encoded_len};
use std::alloc::{AllocError, Global};

/// Encodes bytes as the field of this number, where they are there.
#[inline(always)]
pub(crate) fn encode_optional<O: Output>(
    out: &mut O,
    number: u32,
    bytes: Option<&[u8]>,
) -> Result<(), AllocError>
    requires { IsNumber number }
    ensures { OnOk result
        (O.appends out.old (optional_field number (option_copied bytes.entry)) out.new) }
{
    match bytes {
        Some(bytes) => out.encode_bytes(number, bytes),
        None => Ok(()),
    }
}

/// Encodes a context as the field of this number, where it has bytes.
#[inline(always)]
pub(crate) fn encode_context<O: Output>(
    out: &mut O,
    number: u32,
    context: &ContextBytes,
) -> Result<(), AllocError>
    requires { IsNumber number }
    ensures { OnOk result (O.appends out.old (context_field number context.now) out.new) }
{
    if context.is_empty() {
        Ok(())
    } else {
        out.encode_bytes(number, context.as_slice())
    }
}

/// Encodes a bucket type as the field of this number, where it isn't the default.
#[inline(always)]
pub(crate) fn encode_type<O: Output>(
    out: &mut O,
    number: u32,
    bucket_type: &BucketType,
) -> Result<(), AllocError>
    requires { IsNumber number }
    ensures { OnOk result (O.appends out.old (type_field number bucket_type.now) out.new) }
{
    if bucket_type.as_slice() == DEFAULT_TYPE {
        Ok(())
    } else {
        out.encode_bytes(number, bucket_type.as_slice())
    }
}

/// A message's code, and its encoding behind it, in one buffer of the right size. Refused by `NoMemory` alone.
#[inline(always)]
pub(crate) fn write_message<M: Message>(
    alloc: Global,
    code: u8,
    message: &M,
) -> Result<Vec<u8>, MsgFault>
    ensures encoded { IfOk result (λ v. v.items ≡ code ∷ M.encoding message.now) }
    ensures memory { IsOkUnless result MsgFault.NoMemory }
{
    let body = encoded_len(message)?;
    let mut out = Vec::with_capacity(alloc, body.saturating_add(1))?;
    out.extend_from_slice(&[code])?;
    message.encode(&mut out)?;
    Ok(out)
}

/// A message's encoding, in one buffer of the right size.
pub(crate) fn write_encoding<M: Message>(alloc: Global, message: &M) -> Result<Vec<u8>, AllocError>
    ensures encoded { IfOk result (λ v. v.items ≡ M.encoding message.now) }
    ensures counted { IfOk result (λ v. length v.items < 2 ^ 64) }
{
    let mut out = Vec::with_capacity(alloc, encoded_len(message)?)?;
    message.encode(&mut out)?;
    Ok(out)
}

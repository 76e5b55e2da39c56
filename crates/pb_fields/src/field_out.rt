//! Fields at the end of a vector.

ghost use Rattle.std.specs.Prelude.{◌≡◌, ◌+◌, ◌*◌, ◌<◌, ◌≤◌, ◌++◌, OnOk, OnErr};
ghost use Rattle.std.specs.Prelude.{length, take, vec_len, vec_capacity};
ghost use Rattle.wire_varint.specs.Varint.{encoding as varint_encoding};
ghost use Rattle.pb_fields.specs.Field.{IsNumber};
ghost use Rattle.pb_fields.specs.Encoding.{bytes_field, bytes_head, varint_field};

use crate::value::{BYTES, VARINT};
use std::alloc::AllocError;
use wire_varint::MAX_VARINT_LEN;

// Room for a key and a varint behind it.
const HEAD: usize = 2 * MAX_VARINT_LEN;

/// Appends fields to a vector, each in its one encoding: every varint in its shortest form.
///
/// Into an empty buffer `varint(out, 1, 150)` writes `08 96 01`, then `bytes(out, 2, b"b")` `12 01 62` behind it.
/// Each call makes its growth first: where memory is refused the buffer's bytes are as before. The number is one
/// that a field may have, from 1 to [`MAX_FIELD_NUMBER`](crate::MAX_FIELD_NUMBER).
pub struct FieldOut;

impl FieldOut {
    /// Appends the number's field with this varint. Refused only where memory is.
    #[inline(always)]
    pub fn varint(out: &mut Vec<u8>, number: u32, value: u64) -> Result<(), AllocError>
        requires { IsNumber number }
        ensures ok { OnOk result (out.new.items
            ≡ out.old.items ++ varint_field number value) }
        ensures err { OnErr result (out.new.items ≡ out.old.items) }
        ensures full { OnErr result (vec_capacity out.old
            < vec_len out.old + length (varint_field number value)) }
    {
        let mut head = [0; HEAD];
        let used = write_pair(key_of(number, VARINT), value, &mut head);
        out.extend_from_slice(&head[..used])
    }

    /// Appends the number's field with these bytes, behind their length. Refused only where memory is.
    #[inline(always)]
    pub fn bytes(out: &mut Vec<u8>, number: u32, content: &[u8]) -> Result<(), AllocError>
        requires { IsNumber number }
        ensures ok { OnOk result (out.new.items
            ≡ out.old.items ++ bytes_field number content.now) }
        ensures err { OnErr result (out.new.items ≡ out.old.items) }
        ensures full { OnErr result (vec_capacity out.old
            < vec_len out.old + length (bytes_field number content.now)) }
    {
        let mut head = [0; HEAD];
        let used = write_pair(key_of(number, BYTES), content.len() as u64, &mut head);
        let needed = used.checked_add(content.len()).ok_or(AllocError)?;
        out.reserve(needed)?;
        out.extend_from_slice(&head[..used])?;
        out.extend_from_slice(content)
    }
}

// Appends the key and the length of a field of so many bytes.
#[inline(always)]
pub(crate) fn append_head(out: &mut Vec<u8>, number: u32, len: usize) -> Result<(), AllocError>
    requires { IsNumber number }
    ensures { OnOk result (out.new.items ≡ out.old.items ++ bytes_head number len) }
{
    let mut head = [0; HEAD];
    let used = write_pair(key_of(number, BYTES), len as u64, &mut head);
    out.extend_from_slice(&head[..used])
}

// The key of a number and a wire type.
#[inline(always)]
pub(crate) fn key_of(number: u32, wire: u64) -> u64
    requires { wire < 8 }
    ensures { result ≡ number * 8 + wire }
{
    u64::from(number) * 8 + wire
}

// Writes two varints one behind the other, and says how many bytes they have.
#[inline(always)]
fn write_pair(first: u64, second: u64, out: &mut [u8; HEAD]) -> usize
    ensures bounded { result ≤ HEAD }
    ensures written { take result out.new ≡ varint_encoding first ++ varint_encoding second }
{
    let used = wire_varint::write(first, out);
    used + wire_varint::write(second, &mut out[used..])
}

//! The fields of a message, one after the other.

ghost use Rattle.std.specs.Prelude.{◌≡◌, length};
ghost use Rattle.std.specs.Iterator.{at_most};
ghost use Rattle.pb_fields.specs.Next.{Yields, left};

use crate::field::decode_field;
use crate::{Field, FieldFault};

/// The fields of a message, one after the other, borrowed from its bytes. After a fault the list has ended.
///
/// The bytes `08 96 01 12 01 62` stand for two fields: `next` gives number 1 with the varint 150, then number 2
/// with the byte `62`, then None. The bytes `08 96 01 12 02 62` stand for no list: `next` gives number 1 as
/// before, then [`FieldFault::Short`], then None.
#[derive(Clone, Copy)]
pub struct Fields<'a> {
    rest: &'a [u8],
}

impl<'a> Fields<'a> {
    /// The fields of these bytes, of which none is looked at before `next`.
    pub fn new(bytes: &'a [u8]) -> Fields<'a>
        ensures { left result ≡ bytes.now }
    {
        Fields { rest: bytes }
    }
}

impl<'a> Iterator for Fields<'a> {
    type Item = Result<Field<'a>, FieldFault>;

    ghost next_gives = { λ before item after. Yields (left before) item (left after) };

    ghost remaining = { λ fields. at_most (length (left fields)) };

    /// The next field, or why there is none; None at the end and after a fault.
    #[inline(always)]
    fn next(&mut self) -> Option<Result<Field<'a>, FieldFault>> {
        if self.rest.is_empty() {
            return None;
        }
        match decode_field(self.rest) {
            Ok((field, rest)) => {
                self.rest = rest;
                Some(Ok(field))
            }
            Err(fault) => {
                self.rest = &[];
                Some(Err(fault))
            }
        }
    }
}

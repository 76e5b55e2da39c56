//! The one scan of a message's fields.

ghost use Rattle.std.specs.Prelude.{List, IfErr, OnOk};
ghost use Rattle.pb_fields.specs.Field.{WireField, seen};
ghost use Rattle.pb_fields.specs.Message.{Encodes};
ghost use Rattle.pb_fields.specs.Merging.{MergesAll, RefusesOne};

use crate::{Field, FieldFault, Fields};

/// A value into which the fields of a message are merged, one after another.
///
/// A message type says what one field does; [`scan`] does so with all of them, in their order. A field
/// of an unknown number, or of another wire type than its own, changes nothing.
pub trait Merge<'a> {
    /// Why a field is refused, or the bytes are no list of fields.
    type Fault: From<FieldFault>;

    ghost use Rattle.std.specs.Prelude.{IfErr, OnOk};
    ghost use Rattle.pb_fields.specs.Field.{WireField, seen};

    // The second value is the first with the field merged into it.
    ghost merges: { Self → WireField → Self → Type 0 };
    // The field is refused by this fault.
    ghost refuses: { WireField → Self.Fault → Type 0 };

    /// Merges one field, or refuses it.
    fn merge_field(&mut self, field: Field<'a>) -> Result<(), Self::Fault>
        ensures ok { OnOk result (merges self.old (seen field.entry) self.new) }
        ensures err { IfErr result (λ fault. refuses (seen field.entry) fault) };
}

/// Merges each field of these bytes, in their order.
///
/// Refused by the first fault: where the bytes begin no further field, or where a field is refused. What
/// was merged before it stays. It takes the time of one walk over the fields, and no memory of its own.
pub fn scan<'a, M: Merge<'a>>(bytes: &'a [u8], into: &mut M) -> Result<(), M::Fault>
    ensures ok { OnOk result ((fields : List WireField) × Encodes bytes.now fields
        × MergesAll M.merges into.old fields into.new) }
    ensures err { IfErr result (λ fault. (fields : List WireField) → Encodes bytes.now fields
        → RefusesOne M.refuses fields fault) }
{
    for field in Fields::new(bytes) {
        into.merge_field(field?)?;
    }
    Ok(())
}

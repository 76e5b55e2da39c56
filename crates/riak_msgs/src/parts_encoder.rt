//! The links and pairs of a content, encoded one after another as they are met.

ghost use Rattle.std.specs.Prelude.{◌≡◌, ◌++◌, ◌∷◌, [], List, IfErr, OnOk};
ghost use Rattle.pb_fields.specs.Field.{IsNumber, WireField};
ghost use Rattle.pb_fields.specs.Message.{Encodes};
ghost use Rattle.riak_msgs.specs.ContentOnce.{EachStand};
ghost use Rattle.riak_msgs.specs.Embedded.{ContentFields, StandForContent};
ghost use Rattle.riak_msgs.specs.Parts.{Appends, part_number, parts_in, parts_message};
ghost use Rattle.riak_msgs.specs.Seen.{RefusesToCopy};

use crate::fault::MsgFault;
use crate::field_access::bytes_at;
use crate::pairs_and_links::PairView;
use pb_fields::{Field, Merge, encode_message, scan};

/// One of a content's repeated fields.
#[derive(Clone, Copy)]
pub(crate) enum PartKind {
    Link,
    Usermeta,
    Index,
}

impl PartKind {
    /// The number of its field.
    #[inline(always)]
    pub(crate) fn number(self) -> u32
        ensures is { result ≡ part_number self }
        ensures number { IsNumber result }
    {
        match self {
            PartKind::Link => 6,
            PartKind::Usermeta => 9,
            PartKind::Index => 10,
        }
    }
}

/// An encoding, to which the links or pairs of one kind are appended as a walk over the fields of a
/// content's occurrence meets them.
///
/// One is looked at after another, and no list of them is made: a frame of empty links holds half a million of them.
#[derive(Drop)]
pub(crate) struct PartsEncoder {
    pub(crate) kind: PartKind,
    pub(crate) out: Vec<u8>,
}

impl PartsEncoder {
    /// Appends those in one occurrence of the content. The occurrence was seen before, so only memory can be refused.
    pub(crate) fn append_occurrence(&mut self, bytes: &[u8]) -> Result<(), MsgFault>
        ensures kind { OnOk result (self.new.kind ≡ self.old.kind) }
        ensures ok { (part : ContentFields) → StandForContent (bytes.now ∷ []) part
            → OnOk result (self.new.out.items
            ≡ self.old.out.items ++ parts_message self.old.kind (parts_in self.old.kind part)) }
        ensures err { (part : ContentFields) → StandForContent (bytes.now ∷ []) part
            → IfErr result (λ fault. fault ≡ MsgFault.NoMemory) }
    {
        scan(bytes, self)
    }
}

impl<'a> Merge<'a> for PartsEncoder {
    type Fault = MsgFault;

    ghost merges = { Appends };

    ghost refuses = { RefusesToCopy };

    #[inline(always)]
    fn merge_field(&mut self, field: Field<'a>) -> Result<(), MsgFault> {
        match bytes_at(self.kind.number(), field) {
            Some(bytes) => append_part(self.kind, bytes, &mut self.out),
            None => Ok(()),
        }
    }
}

/// Appends the link or pair that these bytes are, a pair if it has a key. Where they stand for a list of
/// fields, only memory can be refused.
#[inline(always)]
fn append_part(kind: PartKind, bytes: &[u8], out: &mut Vec<u8>) -> Result<(), MsgFault>
    ensures ok { (fields : List WireField) → Encodes bytes.now fields
        → OnOk result (out.new.items ≡ out.old.items ++ parts_message kind (fields ∷ [])) }
    ensures err { (fields : List WireField) → Encodes bytes.now fields
        → IfErr result (λ fault. fault ≡ MsgFault.NoMemory) }
{
    let Ok(part) = PairView::read(bytes) else {
        return Err(MsgFault::BadMessage);
    };
    match kind {
        PartKind::Link => encode_message(out, 6, &part.link())?,
        PartKind::Usermeta | PartKind::Index => match part.pair() {
            Some(pair) => encode_message(out, kind.number(), &pair)?,
            None => {}
        },
    }
    Ok(())
}

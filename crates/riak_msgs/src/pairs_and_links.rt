//! Links and pairs, the messages in a content.

ghost use Rattle.std.specs.Prelude.{◌≡◌, ◌++◌, ◌∷◌, [], List, IfOk, IfErr, OnOk, OnErr, filter_map};
ghost use Rattle.pb_fields.specs.Field.{WireField};
ghost use Rattle.pb_fields.specs.Merging.{RefusesNone, Tracks};
ghost use Rattle.pb_fields.specs.Message.{Encodes};
ghost use Rattle.riak_msgs.specs.Embedded.{link_of, pair_of};
ghost use Rattle.riak_msgs.specs.Seen.{IsPartOf};

use crate::fault::MsgFault;
use crate::link::Link;
use crate::pair::Pair;
use crate::sequence::Sequence;
use pb_fields::{Field, FieldFault, Merge, Value, scan};

/// The last byte strings of the fields 1, 2 and 3 of a message: bucket, key and tag of a link, key and value of a pair.
#[derive(Clone, Copy)]
pub(crate) struct PairView<'a> {
    pub(crate) first: Option<&'a [u8]>,
    pub(crate) second: Option<&'a [u8]>,
    pub(crate) third: Option<&'a [u8]>,
}

impl<'a> Merge<'a> for PairView<'a> {
    type Fault = FieldFault;

    ghost merges = { Tracks IsPartOf };

    ghost refuses = { RefusesNone };

    fn merge_field(&mut self, field: Field<'a>) -> Result<(), FieldFault> {
        if let Value::Bytes(bytes) = field.value {
            match field.number {
                1 => self.first = Some(bytes),
                2 => self.second = Some(bytes),
                3 => self.third = Some(bytes),
                _ => {}
            }
        }
        Ok(())
    }
}

impl<'a> PairView<'a> {
    /// What these bytes have. Refused where they stand for no list of fields.
    #[inline(always)]
    pub(crate) fn read(bytes: &'a [u8]) -> Result<PairView<'a>, FieldFault>
        ensures ok { IfOk result (λ part. (fields : List WireField) × Encodes bytes.now fields
            × IsPartOf part fields) }
        ensures err { OnErr result ((fields : List WireField) → Encodes bytes.now fields → ⊥) }
    {
        let mut part = PairView {
            first: None,
            second: None,
            third: None,
        };
        scan(bytes, &mut part)?;
        Ok(part)
    }

    /// The link that it is.
    #[inline(always)]
    pub(crate) fn link(&self) -> Link<'a>
        ensures { (fields : List WireField) → IsPartOf self.now fields → result ≡ link_of fields }
    {
        Link {
            bucket: self.first,
            key: self.second,
            tag: self.third,
        }
    }

    /// The pair that it is, if it has a key.
    #[inline(always)]
    pub(crate) fn pair(&self) -> Option<Pair<'a>>
        ensures { (fields : List WireField) → IsPartOf self.now fields → result ≡ pair_of fields }
    {
        match self.first {
            Some(key) => Some(Pair {
                key,
                value: self.second,
            }),
            None => None,
        }
    }
}

/// Puts the link that these bytes are behind the others. Where they stand for a list of fields, only
/// memory can be refused.
pub(crate) fn push_link<'a>(bytes: &'a [u8], links: &mut Sequence<Link<'a>>) -> Result<(), MsgFault>
    ensures ok { OnOk result ((fields : List WireField) × Encodes bytes.now fields
        × (links.new ≡ links.old ++ link_of fields ∷ [])) }
    ensures err { (fields : List WireField) → Encodes bytes.now fields
        → IfErr result (λ fault. fault ≡ MsgFault.NoMemory) }
{
    let Ok(part) = PairView::read(bytes) else {
        return Err(MsgFault::BadMessage);
    };
    links.push(Link {
        bucket: part.first,
        key: part.second,
        tag: part.third,
    })?;
    Ok(())
}

/// Puts the pair that these bytes are behind the others, if it has a key. Where they stand for a list of
/// fields, only memory can be refused.
pub(crate) fn push_pair<'a>(bytes: &'a [u8], pairs: &mut Sequence<Pair<'a>>) -> Result<(), MsgFault>
    ensures ok { OnOk result ((fields : List WireField) × Encodes bytes.now fields
        × (pairs.new ≡ pairs.old ++ filter_map pair_of (fields ∷ []))) }
    ensures err { (fields : List WireField) → Encodes bytes.now fields
        → IfErr result (λ fault. fault ≡ MsgFault.NoMemory) }
{
    let Ok(part) = PairView::read(bytes) else {
        return Err(MsgFault::BadMessage);
    };
    let Some(key) = part.first else {
        return Ok(());
    };
    pairs.push(Pair {
        key,
        value: part.second,
    })?;
    Ok(())
}

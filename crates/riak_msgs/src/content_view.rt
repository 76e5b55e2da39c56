//! What a walk over a content's fields sees, without memory; and the content that is then made of it.

ghost use Rattle.std.specs.Prelude.{◌≡◌, ◌∷◌, ◌||◌, [], false, List, IfOk};
ghost use Rattle.std.specs.Prelude.{IfErr, OnOk, OnErr, is_none, is_some};
ghost use Rattle.pb_fields.specs.Field.{IsNumber, WireField, byte_string};
ghost use Rattle.pb_fields.specs.Message.{Encodes};
ghost use Rattle.riak_msgs.specs.ContentEncoding.{content_message};
ghost use Rattle.riak_msgs.specs.Embedded.{ContentFields, StandForContent, content_of, pair_of};
ghost use Rattle.riak_msgs.specs.SeenContents.{content_in};
ghost use Rattle.riak_msgs.specs.Seen.{Copies, HasNoParts, HoldsNone};
ghost use Rattle.riak_msgs.specs.Seen.{IsSeenOf, RefusesToCopy, Sees};
ghost use Rattle.riak_msgs.specs.Seen.{no_fields, merged, scalars_of, with_parts};

use crate::content::Content;
use crate::details::Details;
use crate::encode::encode_optional;
use crate::fault::MsgFault;
use crate::pairs_and_links::{PairView, push_link, push_pair};
use crate::sequence::Sequence;
use pb_fields::{
    Field, FieldFault, LengthCounter, Merge, Message, Output, Value, encode_message, scan,
};
use std::alloc::{AllocError, Global};

/// The last of each scalar of a content, borrowed from the message, over all its occurrences so far.
#[derive(Clone, Copy)]
pub(crate) struct ContentView<'a> {
    pub(crate) value: Option<&'a [u8]>,
    pub(crate) content_type: Option<&'a [u8]>,
    pub(crate) charset: Option<&'a [u8]>,
    pub(crate) content_encoding: Option<&'a [u8]>,
    /// Whether it is a tombstone.
    pub(crate) deleted: bool,
    /// Whether some pair lacks its key.
    pub(crate) misses_key: bool,
    /// Whether links are in it, pairs of metadata, and pairs of indexes.
    pub(crate) has_links: bool,
    pub(crate) has_usermeta: bool,
    pub(crate) has_indexes: bool,
    /// How many bytes the encoding of these has.
    pub(crate) parts_len: usize,
}

impl<'a> ContentView<'a> {
    /// Nothing seen yet.
    pub(crate) fn new() -> ContentView<'a>
        ensures { IsSeenOf result no_fields }
    {
        ContentView {
            value: None,
            content_type: None,
            charset: None,
            content_encoding: None,
            deleted: false,
            misses_key: false,
            has_links: false,
            has_usermeta: false,
            has_indexes: false,
            parts_len: 0,
        }
    }

    /// Merges one occurrence of the content, and looks into each message in it.
    pub(crate) fn merge(&mut self, bytes: &'a [u8]) -> Result<(), FieldFault>
        ensures ok { (c : ContentFields) → IsSeenOf self.old c
            → OnOk result ((part : ContentFields) × StandForContent (bytes.now ∷ []) part
            × IsSeenOf self.new (merged c part)) }
        ensures err { OnErr result ((part : ContentFields)
            → StandForContent (bytes.now ∷ []) part → ⊥) }
    {
        scan(bytes, self)
    }

    // Merges one more field of bytes, and looks into the message that they are.
    fn merge_bytes(&mut self, number: u32, bytes: &'a [u8]) -> Result<(), FieldFault>
        ensures ok { OnOk result
            (Sees self.old (record { number = number; value = byte_string bytes.now }) self.new) }
        ensures err { OnErr result
            (HoldsNone (record { number = number; value = byte_string bytes.now })) }
    {
        match number {
            1 => self.value = Some(bytes),
            2 => self.content_type = Some(bytes),
            3 => self.charset = Some(bytes),
            4 => self.content_encoding = Some(bytes),
            6 => {
                self.merge_link(bytes)?;
                self.has_links = true;
            }
            9 => {
                self.merge_pair(number, bytes)?;
                self.has_usermeta = true;
            }
            10 => {
                self.merge_pair(number, bytes)?;
                self.has_indexes = true;
            }
            _ => {}
        }
        Ok(())
    }

    // Looks into one more link.
    fn merge_link(&mut self, bytes: &'a [u8]) -> Result<(), FieldFault>
        ensures ok { OnOk result ((fields : List WireField) × Encodes bytes.now fields
            × (self.new ≡ record self.old { parts_len = self.new.parts_len })) }
        ensures err { OnErr result ((fields : List WireField) → Encodes bytes.now fields → ⊥) }
    {
        let part = PairView::read(bytes)?;
        self.parts_len = len_with(self.parts_len, 6, &part.link());
        Ok(())
    }

    // Looks into one more pair.
    fn merge_pair(&mut self, number: u32, bytes: &'a [u8]) -> Result<(), FieldFault>
        requires { IsNumber number }
        ensures ok { OnOk result ((fields : List WireField) × Encodes bytes.now fields
            × (self.new ≡ record self.old {
              misses_key = self.old.misses_key || is_none (pair_of fields);
              parts_len = self.new.parts_len;
            })) }
        ensures err { OnErr result ((fields : List WireField) → Encodes bytes.now fields → ⊥) }
    {
        let part = PairView::read(bytes)?;
        match part.pair() {
            Some(pair) => self.parts_len = len_with(self.parts_len, number, &pair),
            None => self.misses_key = true,
        }
        Ok(())
    }

    /// Whether links or pairs are in it.
    pub(crate) fn has_parts(&self) -> bool
        ensures { (c : ContentFields) → IsSeenOf self.now c → result ≡ false → HasNoParts c }
    {
        self.has_links || self.has_usermeta || self.has_indexes
    }

    /// The encoding of its scalars, with room behind it for that of the links and pairs.
    pub(crate) fn begin_encoding(&self, alloc: Global) -> Result<Vec<u8>, AllocError>
        ensures { (c : ContentFields) → IsSeenOf self.now c
            → IfOk result (λ out. out.items ≡ content_message (scalars_of c)) }
    {
        let mut len = LengthCounter {
            len: self.parts_len,
        };
        self.encode_scalars(&mut len)?;
        let mut out = Vec::with_capacity(alloc, len.len)?;
        self.encode_scalars(&mut out)?;
        Ok(out)
    }

    // Encodes its scalars.
    fn encode_scalars<O: Output>(&self, out: &mut O) -> Result<(), AllocError>
        ensures { (c : ContentFields) → IsSeenOf self.now c
            → OnOk result (O.appends out.old (content_message (scalars_of c)) out.new) }
    {
        out.encode_bytes(1, self.value.unwrap_or(&[]))?;
        encode_optional(out, 2, self.content_type)?;
        encode_optional(out, 3, self.charset)?;
        encode_optional(out, 4, self.content_encoding)
    }

    /// Whether nothing that is required is missing.
    pub(crate) fn has_required_fields(&self) -> bool
        ensures { (c : ContentFields) → IsSeenOf self.now c → result ≡ is_some (content_of c) }
    {
        self.value.is_some() && !self.misses_key
    }

    /// The scalars that were seen, to which links and pairs can be added.
    pub(crate) fn scalars(&self, alloc: Global) -> PartsView<'a>
        ensures { (c : ContentFields) → IsSeenOf self.now c → content_in result ≡ scalars_of c }
    {
        PartsView {
            value: self.value.unwrap_or(&[]),
            details: Details {
                content_type: self.content_type,
                charset: self.charset,
                content_encoding: self.content_encoding,
                links: Sequence::new(alloc),
                usermeta: Sequence::new(alloc),
                indexes: Sequence::new(alloc),
            },
        }
    }

    /// What was seen in the bytes of one occurrence, with its links and pairs. They are scanned once
    /// more where there are some.
    pub(crate) fn whole(&self, alloc: Global, bytes: &'a [u8]) -> Result<PartsView<'a>, MsgFault>
        ensures ok { (c : ContentFields) → IsSeenOf self.now c
            → StandForContent (bytes.now ∷ []) c
            → IfOk result (λ parts. content_in parts ≡ with_parts (scalars_of c) c) }
        ensures err { (c : ContentFields) → StandForContent (bytes.now ∷ []) c
            → IfErr result (λ fault. fault ≡ MsgFault.NoMemory) }
    {
        let mut parts = self.scalars(alloc);
        if self.has_parts() {
            merge_parts(bytes, &mut parts)?;
        }
        Ok(parts)
    }
}

impl<'a> Merge<'a> for ContentView<'a> {
    type Fault = FieldFault;

    ghost merges = { Sees };

    ghost refuses = { λ field fault. HoldsNone field };

    fn merge_field(&mut self, field: Field<'a>) -> Result<(), FieldFault> {
        match field.value {
            Value::Bytes(bytes) => self.merge_bytes(field.number, bytes),
            Value::Varint(value) => {
                if field.number == 11 {
                    self.deleted = value != 0;
                }
                Ok(())
            }
            Value::Eight(_) | Value::Four(_) => Ok(()),
        }
    }
}

// The length of fields so far, and of the number's field with this message. (It only says for how much room is made.)
#[inline(always)]
fn len_with<M: Message>(len: usize, number: u32, message: &M) -> usize
    requires { IsNumber number }
{
    let mut counter = LengthCounter { len };
    match encode_message(&mut counter, number, message) {
        Ok(()) => counter.len,
        Err(_) => len,
    }
}

/// A content, borrowed, into which the links and pairs of its occurrences are merged.
#[derive(Drop)]
pub(crate) struct PartsView<'a> {
    pub(crate) value: &'a [u8],
    pub(crate) details: Details<'a>,
}

impl<'a> PartsView<'a> {
    /// The content, whole.
    pub(crate) fn content(&self, alloc: Global) -> Result<Content, AllocError>
        ensures { IfOk result (λ content. content ≡ content_in self.now) }
    {
        Content::with_details(alloc, self.value, &self.details)
    }
}

impl<'a> Merge<'a> for PartsView<'a> {
    type Fault = MsgFault;

    ghost merges = { λ before field after. Copies (content_in before) field (content_in after) };

    ghost refuses = { RefusesToCopy };

    fn merge_field(&mut self, field: Field<'a>) -> Result<(), MsgFault> {
        let Value::Bytes(bytes) = field.value else {
            return Ok(());
        };
        match field.number {
            6 => push_link(bytes, &mut self.details.links),
            9 => push_pair(bytes, &mut self.details.usermeta),
            10 => push_pair(bytes, &mut self.details.indexes),
            _ => Ok(()),
        }
    }
}

/// Puts the links and pairs of one occurrence of a content behind those that are there.
///
/// The occurrence was seen before, so only memory can be refused.
pub(crate) fn merge_parts<'a>(bytes: &'a [u8], parts: &mut PartsView<'a>) -> Result<(), MsgFault>
    ensures ok { OnOk result ((part : ContentFields) × StandForContent (bytes.now ∷ []) part
        × (content_in parts.new ≡ with_parts (content_in parts.old) part)) }
    ensures err { (part : ContentFields) → StandForContent (bytes.now ∷ []) part
        → IfErr result (λ fault. fault ≡ MsgFault.NoMemory) }
{
    scan(bytes, parts)
}

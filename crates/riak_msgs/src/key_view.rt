//! The names that a request gives, as a walk over its fields sees them.

ghost use Rattle.std.specs.Prelude.{◌≡◌, ◌∷◌, ◌++◌, ℕ, List, [], IfOk, option_copied};
ghost use Rattle.std.specs.Option.{unwrap_or};
ghost use Rattle.pb_fields.specs.Field.{WireField, seen};
ghost use Rattle.riak_msgs.specs.BucketTypes.{default_type};
ghost use Rattle.riak_msgs.specs.Reading.{has_empty_name, is_empty_name, named_key, names_fault};
ghost use Rattle.riak_msgs.specs.SeenRequests.{AreNamesOf};

use crate::bucket_type::BucketType;
use crate::bytes::Bytes;
use crate::fault::MsgFault;
use crate::field_access::keep_last;
use crate::key::Key;
use pb_fields::Field;
use std::alloc::{AllocError, Global};

/// The last of each name in a message, borrowed from it.
#[derive(Clone, Copy)]
pub(crate) struct KeyView<'a> {
    pub(crate) bucket: Option<&'a [u8]>,
    pub(crate) key: Option<&'a [u8]>,
    pub(crate) bucket_type: Option<&'a [u8]>,
}

impl<'a> KeyView<'a> {
    /// No name seen yet.
    pub(crate) fn new() -> KeyView<'a>
        ensures { (type_number : ℕ) → AreNamesOf type_number result [] }
    {
        KeyView {
            bucket: None,
            key: None,
            bucket_type: None,
        }
    }

    /// Merges one field more: 1 is the bucket, 2 the key, and the type has the number that its message gives it.
    #[inline(always)]
    pub(crate) fn merge_field(&mut self, field: Field<'a>, type_number: u32)
        ensures { (fields : List WireField) → AreNamesOf type_number self.old fields
            → AreNamesOf type_number self.new (fields ++ seen field.entry ∷ []) }
    {
        keep_last(1, field, &mut self.bucket);
        keep_last(2, field, &mut self.key);
        keep_last(type_number, field, &mut self.bucket_type);
    }

    /// Whether a name is given with no bytes.
    #[inline(always)]
    pub(crate) fn has_empty(&self) -> bool
        ensures { (type_number : ℕ) (fields : List WireField)
            → AreNamesOf type_number self.now fields
            → result ≡ has_empty_name type_number fields }
    {
        is_empty_name(self.bucket) || is_empty_name(self.key) || is_empty_name(self.bucket_type)
    }

    /// Why a get or a delete of these names is none: bucket and key are required, and no name is empty.
    pub(crate) fn fault(&self) -> Option<MsgFault>
        ensures { (fields : List WireField) → AreNamesOf 13 self.now fields
            → result ≡ names_fault fields }
    {
        if self.bucket.is_none() || self.key.is_none() {
            return Some(MsgFault::MissingField);
        }
        if self.has_empty() {
            return Some(MsgFault::EmptyName);
        }
        None
    }

    /// A copy of the bucket type that is given; the default where none is, which takes no memory.
    #[inline(always)]
    fn bucket_type(&self, alloc: Global) -> Result<BucketType, AllocError>
        ensures { IfOk result (λ bucket_type.
            bucket_type ≡ unwrap_or (option_copied self.now.bucket_type) default_type) }
    {
        match self.bucket_type {
            Some(bytes) => BucketType::from_slice(alloc, bytes),
            None => Ok(BucketType::default_type()),
        }
    }

    /// A copy of the key that is named: of the default type where no type is given.
    #[inline(always)]
    pub(crate) fn key(&self, alloc: Global) -> Result<Key, AllocError>
        ensures { (type_number : ℕ) (fields : List WireField)
            → AreNamesOf type_number self.now fields
            → IfOk result (λ key. key ≡ named_key type_number fields) }
    {
        Ok(Key {
            bucket_type: self.bucket_type(alloc)?,
            bucket: Bytes::from_slice(alloc, self.bucket.unwrap_or(&[]))?,
            key: Bytes::from_slice(alloc, self.key.unwrap_or(&[]))?,
        })
    }
}

/// Whether a name is given with no bytes.
#[inline(always)]
fn is_empty_name(name: Option<&[u8]>) -> bool
    ensures { result ≡ is_empty_name (option_copied name.entry) }
{
    match name {
        Some(bytes) => bytes.is_empty(),
        None => false,
    }
}

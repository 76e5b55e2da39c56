//! Why bytes begin no field.

use thiserror::Error;

/// Why the bytes begin no field. Of several faults the first is answered, in this order: a bad varint, the end
/// within the key, a bad key, a bad wire type, a value that goes past the end.
#[derive(Clone, Copy, Debug, Drop, Error, PartialEq, Eq)]
pub enum FieldFault {
    /// The bytes end within the key, or the value goes past the end.
    #[error("the bytes end within a field")]
    Short,
    /// A varint of more than ten bytes: the key, or behind it a value or a length.
    #[error("a varint has more than ten bytes")]
    BadVarint,
    /// A key of 4,294,967,296 or more, or one of number 0.
    #[error("a key has no field number")]
    BadKey,
    /// A key of a wire type without a value here: 3, 4, 6 or 7.
    #[error("a key has no known wire type")]
    BadWire,
}

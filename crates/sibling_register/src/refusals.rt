//! The numbers of the refusals, and the limit of siblings.

/// A put with `if_none_match` found its key present.
pub const MATCH_FOUND: u8 = 1;

/// A put with `if_not_modified` gave another context than its key's.
pub const MODIFIED: u8 = 2;

/// A put with `if_not_modified` found its key absent or dead.
pub const NOT_FOUND: u8 = 3;

/// A put or a delete would have left its key with more than [`MAX_SIBLINGS`].
pub const TOO_MANY_SIBLINGS: u8 = 5;

/// How many siblings a key has at most.
pub const MAX_SIBLINGS: usize = 64;

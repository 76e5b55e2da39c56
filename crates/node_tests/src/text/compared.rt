//! The messages of runs that are compared.

use crate::messages::Message;

/// A put of "w" without context.
pub(crate) const PUT_W: Message = Message {
    code: 11,
    body: b"\x0a\x01b\x12\x01k\x22\x03\x0a\x01w",
};

/// A put of "x", by the context that "v" alone has.
pub(crate) const PUT_X: Message = Message {
    code: 11,
    body: b"\x0a\x01b\x12\x01k\x1a\x11\x01\0\0\0\0\0\x01\0\0\0\0\0\x01\0\0\0\x01\x22\x03\x0a\x01x",
};

/// A put of "z" that asks for no value there.
pub(crate) const PUT_Z_IF_NONE: Message = Message {
    code: 11,
    body: b"\x0a\x01b\x12\x01k\x22\x03\x0a\x01z\x50\x01",
};

/// A put of "z", by a context of another form.
pub(crate) const PUT_Z_BY_BAD_CONTEXT: Message = Message {
    code: 11,
    body: b"\x0a\x01b\x12\x01k\x1a\x01\x01\x22\x03\x0a\x01z",
};

/// A delete, by the context that "v" alone has.
pub(crate) const DELETE_V: Message = Message {
    code: 13,
    body: b"\x0a\x01b\x12\x01k\x22\x11\x01\0\0\0\0\0\x01\0\0\0\0\0\x01\0\0\0\x01",
};

/// A get of b/j.
pub(crate) const GET_J: Message = Message {
    code: 9,
    body: b"\x0a\x01b\x12\x01j",
};

/// A put of "v" that asks for the siblings after it.
pub(crate) const PUT_V_FOR_BODY: Message = Message {
    code: 11,
    body: b"\x0a\x01b\x12\x01k\x22\x03\x0a\x01v\x38\x01",
};

/// What such a put shows.
pub(crate) const PUT_SHOWS_V: Message = Message {
    code: 12,
    body: b"\x0a\x03\x0a\x01v\x12\x11\x01\0\0\0\0\0\x01\0\0\0\0\0\x01\0\0\0\x01",
};

/// "x" alone.
pub(crate) const SHOWS_X: Message = Message {
    code: 10,
    body: b"\x0a\x03\x0a\x01x\x12\x11\x01\0\0\0\0\0\x01\0\0\0\0\0\x01\0\0\0\x02",
};

/// A put of "y" without context that wants its key unmodified.
pub(crate) const PUT_Y_IF_SAME: Message = Message {
    code: 11,
    body: b"\x0a\x01b\x12\x01k\x22\x03\x0a\x01y\x48\x01",
};

/// The refusal of a put that wants its key unmodified where there is none.
pub(crate) const NOT_FOUND: Message = Message {
    code: 0,
    body: b"\x0a\x08notfound\x10\x01",
};

/// The refusal of a sibling too many.
pub(crate) const TOO_MANY: Message = Message {
    code: 0,
    body: b"\x0a\x11too many siblings\x10\x01",
};

/// A get that asks for no values.
pub(crate) const GET_HEAD: Message = Message {
    code: 9,
    body: b"\x0a\x01b\x12\x01k\x40\x01",
};

/// "w", and the context of "v".
pub(crate) const SHOWS_W: Message = Message {
    code: 10,
    body: b"\x0a\x03\x0a\x01w\x12\x15\x02\0\0\0\0\0\x01\0\0\0\0\0\x01\0\0\0\0\0\0\0\x01",
};

/// "x" and "w".
pub(crate) const SHOWS_X_W: Message = Message {
    code: 10,
    body: b"\x0a\x03\x0a\x01x\x0a\x03\x0a\x01w\x12\x15\x02\0\0\0\0\0\x01\0\0\0\0\0\x01\0\0\0\0\0\0\0\x03",
};

/// "w" and "x".
pub(crate) const SHOWS_W_X: Message = Message {
    code: 10,
    body: b"\x0a\x03\x0a\x01w\x0a\x03\x0a\x01x\x12\x15\x02\0\0\0\0\0\x01\0\0\0\0\0\x01\0\0\0\0\0\0\0\x03",
};

/// A tombstone and "w".
pub(crate) const SHOWS_TOMBSTONE_W: Message = Message {
    code: 10,
    body: b"\x0a\x04\x0a\0\x58\x01\x0a\x03\x0a\x01w\x12\x15\x02\0\0\0\0\0\x01\0\0\0\0\0\x01\0\0\0\0\0\0\0\x03",
};

/// That there is a value, which isn't given, and the context of "v".
pub(crate) const SHOWS_HEAD: Message = Message {
    code: 10,
    body: b"\x0a\x02\x0a\0\x12\x15\x02\0\0\0\0\0\x01\0\0\0\0\0\x01\0\0\0\0\0\0\0\x01",
};

/// "w" as the first write of a key that was forgotten once.
pub(crate) const SHOWS_W_ANEW: Message = Message {
    code: 10,
    body: b"\x0a\x03\x0a\x01w\x12\x15\x02\0\0\0\0\0\x01\0\0\0\0\0\x02\0\0\0\0\0\0\0\x01",
};

/// The refusal of a put where a value is there.
pub(crate) const MATCH_FOUND: Message = Message {
    code: 0,
    body: b"\x0a\x0bmatch_found\x10\x01",
};

/// The refusal of a put where another value is there.
pub(crate) const MODIFIED: Message = Message {
    code: 0,
    body: b"\x0a\x08modified\x10\x01",
};

/// The refusal of a context of another form.
pub(crate) const BAD_CONTEXT: Message = Message {
    code: 0,
    body: b"\x0a\x0bbad context\x10\x01",
};

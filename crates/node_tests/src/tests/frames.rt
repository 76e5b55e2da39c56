//! Frames that many tests send and expect: requests on b/k, and replies.

/// A ping, a put of "v" on b/k, and a get of b/k.
pub const REQUESTS: [u8; 32] = [
    0, 0, 0, 1, 1, 0, 0, 0, 12, 11, 10, 1, 98, 18, 1, 107, 34, 3, 10, 1, 118, 0, 0, 0, 7, 9, 10, 1,
    98, 18, 1, 107,
];

/// Their replies: a ping, an empty put reply, and "v" with its context.
pub const REPLIES: [u8; 43] = [
    0, 0, 0, 1, 2, 0, 0, 0, 1, 12, 0, 0, 0, 29, 10, 10, 3, 10, 1, 118, 18, 21, 2, 0, 0, 0, 0, 0, 1,
    0, 0, 0, 0, 0, 1, 0, 0, 0, 0, 0, 0, 0, 1,
];

/// The put and the get alone.
pub const PUT_AND_GET: &[u8] =
    b"\0\0\0\x0c\x0b\x0a\x01b\x12\x01k\x22\x03\x0a\x01v\0\0\0\x07\x09\x0a\x01b\x12\x01k";

/// Their replies.
pub const STORED_AND_SHOWN: &[u8] =
    b"\0\0\0\x01\x0c\0\0\0\x1d\x0a\x0a\x03\x0a\x01v\x12\x15\x02\0\0\0\0\0\x01\0\0\0\0\0\x01\0\0\0\0\0\0\0\x01";

/// How many of the replies are due for so many bytes of the requests, and how many bytes they are.
pub fn due(given: u64) -> (u64, usize) {
    match given {
        0..=4 => (0, 0),
        5..=20 => (1, 5),
        21..=31 => (2, 10),
        _ => (3, 43),
    }
}

pub const PING: &[u8] = b"\0\0\0\x01\x01";

pub const PONG: &[u8] = b"\0\0\0\x01\x02";

/// A message of no code.
pub const UNKNOWN: &[u8] = b"\0\0\0\x01\x07";

/// A get of b/k alone.
pub const GET: &[u8] = b"\0\0\0\x07\x09\x0a\x01b\x12\x01k";

/// Its reply where the key is absent.
pub const ABSENT: &[u8] = b"\0\0\0\x01\x0a";

/// A get of b/k that wants the context of a dead key.
pub const GET_DEAD: &[u8] = b"\0\0\0\x09\x09\x0a\x01b\x12\x01kH\x01";

pub const PUT_V: &[u8] = b"\0\0\0\x0c\x0b\x0a\x01b\x12\x01k\x22\x03\x0a\x01v";

pub const PUT_W: &[u8] = b"\0\0\0\x0c\x0b\x0a\x01b\x12\x01k\x22\x03\x0a\x01w";

/// A put of "z" where no value is.
pub const PUT_Z_IF_NONE: &[u8] = b"\0\0\0\x0e\x0b\x0a\x01b\x12\x01k\x22\x03\x0a\x01zP\x01";

/// A put of "x" that has seen the first dot of the first life in this run's first vnode.
pub const PUT_X_OVER_V: &[u8] =
    b"\0\0\0\x1f\x0b\x0a\x01b\x12\x01k\x1a\x11\x01\0\0\0\0\0\x01\0\0\0\0\0\x01\0\0\0\x01\x22\x03\x0a\x01x";

/// The same by a context of version 2, as the node shows it.
pub const PUT_X_OVER_V_AS_SHOWN: &[u8] =
    b"\0\0\0\x23\x0b\x0a\x01b\x12\x01k\x1a\x15\x02\0\0\0\0\0\x01\0\0\0\0\0\x01\0\0\0\0\0\0\0\x01\x22\x03\x0a\x01x";

/// A put of "e" on b/k that wants the key as its context shows it, the first dot.
pub const PUT_E_IF_V: &[u8] =
    b"\0\0\0\x21\x0b\x0a\x01b\x12\x01k\x1a\x11\x01\0\0\0\0\0\x01\0\0\0\0\0\x01\0\0\0\x01\x22\x03\x0a\x01eH\x01";

/// The same on b/q.
pub const PUT_Q_IF_V: &[u8] =
    b"\0\0\0\x21\x0b\x0a\x01b\x12\x01q\x1a\x11\x01\0\0\0\0\0\x01\0\0\0\0\0\x01\0\0\0\x01\x22\x03\x0a\x01eH\x01";

pub const STORED: &[u8] = b"\0\0\0\x01\x0c";

/// "v" with its context.
pub const SHOWN_V: &[u8] =
    b"\0\0\0\x1d\x0a\x0a\x03\x0a\x01v\x12\x15\x02\0\0\0\0\0\x01\0\0\0\0\0\x01\0\0\0\0\0\0\0\x01";

/// "w" and "v" with their context.
pub const SHOWN_W_V: &[u8] =
    b"\0\0\0\x22\x0a\x0a\x03\x0a\x01w\x0a\x03\x0a\x01v\x12\x15\x02\0\0\0\0\0\x01\0\0\0\0\0\x01\0\0\0\0\0\0\0\x02";

/// "x" and "w" with their context.
pub const SHOWN_X_W: &[u8] =
    b"\0\0\0\x22\x0a\x0a\x03\x0a\x01x\x0a\x03\x0a\x01w\x12\x15\x02\0\0\0\0\0\x01\0\0\0\0\0\x01\0\0\0\0\0\0\0\x03";

/// A delete of b/k without context.
pub const DELETE: &[u8] = b"\0\0\0\x07\x0d\x0a\x01b\x12\x01k";

/// Its reply.
pub const DELETED: &[u8] = b"\0\0\0\x01\x0e";

pub const UNKNOWN_CODE: &[u8] = b"\0\0\0\x19\0\x0a\x14unknown message code\x10\x01";

pub const BAD_MESSAGE: &[u8] = b"\0\0\0\x10\0\x0a\x0bbad message\x10\x01";

pub const MISSING_FIELD: &[u8] = b"\0\0\0\x12\0\x0a\x0dmissing field\x10\x01";

pub const EMPTY_NAME: &[u8] = b"\0\0\0\x0f\0\x0a\x0aempty name\x10\x01";

pub const CLOCK_FULL: &[u8] = b"\0\0\0\x0f\0\x0a\x0aclock full\x10\x01";

pub const BAD_CONTEXT: &[u8] = b"\0\0\0\x10\0\x0a\x0bbad context\x10\x01";

pub const BAD_FRAME: &[u8] = b"\0\0\0\x0e\0\x0a\x09bad frame\x10\x01";

pub const FRAME_TOO_LARGE: &[u8] = b"\0\0\0\x14\0\x0a\x0fframe too large\x10\x01";

pub const MATCH_FOUND: &[u8] = b"\0\0\0\x10\0\x0a\x0bmatch_found\x10\x01";

pub const MODIFIED: &[u8] = b"\0\0\0\x0d\0\x0a\x08modified\x10\x01";

pub const NOT_FOUND: &[u8] = b"\0\0\0\x0d\0\x0a\x08notfound\x10\x01";

pub const TOO_MANY_SIBLINGS: &[u8] = b"\0\0\0\x16\0\x0a\x11too many siblings\x10\x01";

pub const NO_MEMORY: &[u8] = b"\0\0\0\x0e\0\x0a\x09no memory\x10\x01";

/// A put of "x" by a context of the second epoch's first dot.
pub const PUT_X_BY_SECOND_EPOCH: &[u8] =
    b"\0\0\0\x1f\x0b\x0a\x01b\x12\x01k\x1a\x11\x01\0\0\0\0\0\x01\0\0\0\0\0\x02\0\0\0\x01\x22\x03\x0a\x01x";

/// A put of "x" by a context one counter ahead.
pub const PUT_X_AHEAD: &[u8] =
    b"\0\0\0\x1f\x0b\x0a\x01b\x12\x01k\x1a\x11\x01\0\0\0\0\0\x01\0\0\0\0\0\x01\0\0\0\x02\x22\x03\x0a\x01x";

/// A put of "x" by a context whose actors don't rise.
pub const PUT_X_FALLING: &[u8] =
    b"\0\0\0/\x0b\x0a\x01b\x12\x01k\x1a!\x01\0\0\0\0\0\x01\0\0\0\0\0\x01\0\0\0\x01\0\0\0\0\0\x01\0\0\0\0\0\x01\0\0\0\x01\x22\x03\x0a\x01x";

/// A put of "x" by a context of version 1 without entries.
pub const PUT_X_WITHOUT_ENTRY: &[u8] =
    b"\0\0\0\x0f\x0b\x0a\x01b\x12\x01k\x1a\x01\x01\x22\x03\x0a\x01x";

/// A put of "x" by a context of version 2 whose entry is short by four bytes.
pub const PUT_X_SHORT: &[u8] =
    b"\0\0\0\x1f\x0b\x0a\x01b\x12\x01k\x1a\x11\x02\0\0\0\0\0\x01\0\0\0\0\0\x01\0\0\0\x01\x22\x03\x0a\x01x";

/// A put of "v" with `return_body`.
pub const PUT_V_FOR_BODY: &[u8] = b"\0\0\0\x0e\x0b\x0a\x01b\x12\x01k\x22\x03\x0a\x01v8\x01";

/// A delete of b/k by the context of its first dot.
pub const DELETE_V: &[u8] =
    b"\0\0\0\x1a\x0d\x0a\x01b\x12\x01k\x22\x11\x01\0\0\0\0\0\x01\0\0\0\0\0\x01\0\0\0\x01";

/// A get of b/k with `if_modified`, by the context of its first dot.
pub const GET_IF_MODIFIED: &[u8] =
    b"\0\0\0\x1a\x09\x0a\x01b\x12\x01k:\x11\x01\0\0\0\0\0\x01\0\0\0\0\0\x01\0\0\0\x01";

/// A get of b/k with `head`.
pub const GET_HEAD: &[u8] = b"\0\0\0\x09\x09\x0a\x01b\x12\x01k@\x01";

/// A get of b/k with a bucket a before.
pub const GET_BUCKET_TWICE: &[u8] = b"\0\0\0\x0a\x09\x0a\x01a\x0a\x01b\x12\x01k";

/// A get of b/k with an unknown field 99.
pub const GET_UNKNOWN_FIELD: &[u8] = b"\0\0\0\x0a\x09\x0a\x01b\x12\x01k\x98\x06\x05";

/// A get of b/k with a length in two bytes.
pub const GET_LONG_LENGTH: &[u8] = b"\0\0\0\x08\x09\x0a\x81\0b\x12\x01k";

/// A get of b/k with a varint of eleven bytes.
pub const GET_LONG_VARINT: &[u8] =
    b"\0\0\0\x13\x09\x0a\x01b\x12\x01k\x18\xff\xff\xff\xff\xff\xff\xff\xff\xff\xff\x01";

/// A put of "v" whose content comes in two pieces, the content type in the second.
pub const PUT_V_TWICE: &[u8] =
    b"\0\0\0\x11\x0b\x0a\x01b\x12\x01k\x22\x03\x0a\x01v\x22\x03\x12\x01t";

/// A put of "d" by the context of the first dot.
pub const PUT_D_OVER_FIRST: &[u8] =
    b"\0\0\0\x1f\x0b\x0a\x01b\x12\x01k\x1a\x11\x01\0\0\0\0\0\x01\0\0\0\0\0\x01\0\0\0\x01\x22\x03\x0a\x01d";

/// A put of "v" without key.
pub const PUT_WITHOUT_KEY: &[u8] = b"\0\0\0\x09\x0b\x0a\x01b\x22\x03\x0a\x01v";

//! Messages as their bytes. What is wanted was taken from the message tables of the API, or computed by hand.

mod contents;
mod plain_requests;
mod reading;
mod refusals;
mod replies;
mod requests;
mod round_trips;

/// One entry of a context, as clients get it.
const SHOWN_CONTEXT: &[u8] = b"\x02\0\0\0\0\0\x01\0\0\0\0\0\x01\0\0\0\0\0\0\0\x01";

/// The same of version 1, as clients that got it before may give it.
const CONTEXT: &[u8] = b"\x01\0\0\0\0\0\x01\0\0\0\0\0\x01\0\0\0\x01";

/// Two entries of version 1, of two vnodes: more than the 24 bytes that take no memory.
const CONTEXT_OF_TWO: &[u8] =
    b"\x01\0\0\0\0\0\x01\0\0\0\0\0\x01\0\0\0\x01\0\0\0\0\0\x01\0\x01\0\0\0\x01\0\0\0\x02";

/// Bucket b and key k, as fields 1 and 2.
const NAMES: &[u8] = b"\x0a\x01b\x12\x01k";

/// A put of the value v: a content as field 4.
const PUT: &[u8] = b"\x0a\x01b\x12\x01k\x22\x03\x0a\x01v";

/// A put of the value x by a context of 17 bytes, field 3.
const PUT_AFTER: &[u8] =
    b"\x0a\x01b\x12\x01k\x1a\x11\x01\0\0\0\0\0\x01\0\0\0\0\0\x01\0\0\0\x01\x22\x03\x0a\x01x";

/// A get with `if_modified`, field 7, of the context.
const GET_IF_MODIFIED: &[u8] =
    b"\x0a\x01b\x12\x01k\x3a\x11\x01\0\0\0\0\0\x01\0\0\0\0\0\x01\0\0\0\x01";

/// A get with `head`, field 8; with `deletedvclock`, field 9.
const GET_HEAD: &[u8] = b"\x0a\x01b\x12\x01k\x40\x01";

const GET_DELETED_VCLOCK: &[u8] = b"\x0a\x01b\x12\x01k\x48\x01";

/// A get with all its options, of the type t.
const GET_WITH_ALL: &[u8] = b"\x0a\x01b\x12\x01k\x3a\x01c\x40\x01\x48\x01\x6a\x01t";

/// Puts with `return_body`, field 7; `if_not_modified`, 9; `if_none_match`, 10; `return_head`, 11.
const PUT_RETURN_BODY: &[u8] = b"\x0a\x01b\x12\x01k\x22\x03\x0a\x01v\x38\x01";

const PUT_IF_NOT_MODIFIED: &[u8] = b"\x0a\x01b\x12\x01k\x22\x03\x0a\x01v\x48\x01";

const PUT_IF_NONE_MATCH: &[u8] = b"\x0a\x01b\x12\x01k\x22\x03\x0a\x01z\x50\x01";

const PUT_RETURN_HEAD: &[u8] = b"\x0a\x01b\x12\x01k\x22\x03\x0a\x01v\x58\x01";

/// A put with all its options after a context, of the type t.
const PUT_WITH_ALL: &[u8] =
    b"\x0a\x01b\x12\x01k\x1a\x01c\x22\x03\x0a\x01v\x38\x01\x48\x01\x50\x01\x58\x01\x82\x01\x01t";

/// A delete after the context, field 4.
const DEL_AFTER: &[u8] = b"\x0a\x01b\x12\x01k\x22\x11\x01\0\0\0\0\0\x01\0\0\0\0\0\x01\0\0\0\x01";

//! How requests are read from their bytes, and compared with rows of tables.

use crate::messages::contents::{ContentRow, is_content};
use riak_msgs::*;
use std::alloc::Global;

/// The type of a key that gives none.
pub(crate) const DEFAULT: &[u8] = b"default";

/// What a body is read as. Each key is b/k.
pub(crate) enum Asked {
    Ping,
    /// A get: the bucket type, `if_modified`, and the field numbers of the bools that are set.
    Get(&'static [u8], &'static [u8], &'static [u32]),
    /// A put: the bucket type, the context, the content, and the field numbers of the bools that are set.
    Put(&'static [u8], &'static [u8], ContentRow, &'static [u32]),
    /// A delete: the bucket type and the context.
    Del(&'static [u8], &'static [u8]),
    /// No request, for this fault.
    Refused(MsgFault),
}

/// The code and the body of a message, and what they are read as.
pub(crate) struct Read {
    pub(crate) shows: &'static str,
    pub(crate) code: u8,
    pub(crate) body: &'static [u8],
    pub(crate) asked: Asked,
}

/// Lets a request go. (Where a function itself lets one go, that costs the prover eight seconds, and where it also asserts
/// or uses `?` while it holds one, a minute.)
pub(crate) fn let_go(_read: Result<Request, MsgFault>) {}

/// Reads, and a second time where memory was refused: then the answer is the same as it would have been.
fn read_again(alloc: Global, code: u8, body: &[u8]) -> Result<Request, MsgFault> {
    match read_request(alloc, code, body) {
        Err(MsgFault::NoMemory) => read_request(alloc, code, body),
        other => other,
    }
}

/// The message is read as what the row asks.
pub(crate) fn reads(alloc: Global, row: &Read) -> bool {
    let read = read_again(alloc, row.code, row.body);
    let is_so = is_read(alloc, &read, &row.asked);
    let_go(read);
    is_so
}

fn is_read(alloc: Global, read: &Result<Request, MsgFault>, want: &Asked) -> bool {
    match read {
        Ok(Request::Ping) => matches!(want, Asked::Ping),
        Ok(Request::Get(ask)) => is_get(ask, want),
        Ok(Request::Put(ask)) => is_put(alloc, ask, want),
        Ok(Request::Del(ask)) => is_del(ask, want),
        Err(fault) => is_refused(*fault, want),
    }
}

fn is_refused(fault: MsgFault, want: &Asked) -> bool {
    match want {
        Asked::Refused(want) => fault == *want,
        _ => false,
    }
}

/// The key is b/k of this type.
fn is_of(key: &Key, bucket_type: &[u8]) -> bool {
    key.bucket_type.as_slice() == bucket_type
        && key.bucket.as_slice() == b"b".as_slice()
        && key.key.as_slice() == b"k".as_slice()
}

fn is_get(ask: &GetAsk, want: &Asked) -> bool {
    match want {
        Asked::Get(bucket_type, if_modified, set) => {
            is_of(&ask.key, bucket_type)
                && ask.if_modified.as_slice() == *if_modified
                && ask.head == set.contains(&8)
                && ask.deletedvclock == set.contains(&9)
        }
        _ => false,
    }
}

fn is_put(alloc: Global, ask: &PutAsk, want: &Asked) -> bool {
    match want {
        Asked::Put(bucket_type, context, content, set) => {
            is_of(&ask.key, bucket_type)
                && ask.context.as_slice() == *context
                && is_content(alloc, &ask.content, content)
                && are_set(ask, set)
        }
        _ => false,
    }
}

/// Of a put's bools those of these field numbers are set.
fn are_set(ask: &PutAsk, set: &[u32]) -> bool {
    ask.return_body == set.contains(&7)
        && ask.if_not_modified == set.contains(&9)
        && ask.if_none_match == set.contains(&10)
        && ask.return_head == set.contains(&11)
}

fn is_del(ask: &DelAsk, want: &Asked) -> bool {
    match want {
        Asked::Del(bucket_type, context) => {
            is_of(&ask.key, bucket_type) && ask.context.as_slice() == *context
        }
        _ => false,
    }
}

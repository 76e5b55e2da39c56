//! Messages that are read and written again: requests, as a client writes them, and replies, as a client reads them.

use crate::messages::{reading, replies, *};
use riak_msgs::*;
use std::alloc::Global;

enum Kind {
    Request,
    Reply,
}

/// A message that is written as it is read.
struct Message {
    shows: &'static str,
    kind: Kind,
    code: u8,
    body: &'static [u8],
}

const MESSAGES: &[Message] = &[
    Message {
        shows: "a ping",
        kind: Kind::Request,
        code: 1,
        body: b"",
    },
    Message {
        shows: "a get",
        kind: Kind::Request,
        code: 9,
        body: NAMES,
    },
    Message {
        shows: "a get of a type",
        kind: Kind::Request,
        code: 9,
        body: b"\x0a\x01b\x12\x01k\x6a\x04maps",
    },
    Message {
        shows: "a put",
        kind: Kind::Request,
        code: 11,
        body: PUT,
    },
    Message {
        shows: "a put by a context",
        kind: Kind::Request,
        code: 11,
        body: PUT_AFTER,
    },
    Message {
        shows: "a put of a content with every field, of a type",
        kind: Kind::Request,
        code: 11,
        body: b"\x0a\x01b\x12\x01k\x22\x2a\x0a\x01v\x12\x01t\x1a\x01c\x22\x01e\x32\x06\x0a\x01b\x1a\x01t\x32\0\x4a\x03\x0a\x01m\x4a\x05\x0a\x01n\x12\0\x52\x06\x0a\x01i\x12\x01x\x82\x01\x01t",
    },
    Message {
        shows: "a get with if_modified",
        kind: Kind::Request,
        code: 9,
        body: GET_IF_MODIFIED,
    },
    Message {
        shows: "a get with head",
        kind: Kind::Request,
        code: 9,
        body: GET_HEAD,
    },
    Message {
        shows: "a get with deletedvclock",
        kind: Kind::Request,
        code: 9,
        body: GET_DELETED_VCLOCK,
    },
    Message {
        shows: "a get with all its options",
        kind: Kind::Request,
        code: 9,
        body: GET_WITH_ALL,
    },
    Message {
        shows: "a delete",
        kind: Kind::Request,
        code: 13,
        body: NAMES,
    },
    Message {
        shows: "a delete by a context",
        kind: Kind::Request,
        code: 13,
        body: DEL_AFTER,
    },
    Message {
        shows: "a delete by a context, of a type",
        kind: Kind::Request,
        code: 13,
        body: b"\x0a\x01b\x12\x01k\x22\x01c\x6a\x04maps",
    },
    Message {
        shows: "a put with return_body",
        kind: Kind::Request,
        code: 11,
        body: PUT_RETURN_BODY,
    },
    Message {
        shows: "a put with if_not_modified",
        kind: Kind::Request,
        code: 11,
        body: PUT_IF_NOT_MODIFIED,
    },
    Message {
        shows: "a put with if_none_match",
        kind: Kind::Request,
        code: 11,
        body: PUT_IF_NONE_MATCH,
    },
    Message {
        shows: "a put with return_head",
        kind: Kind::Request,
        code: 11,
        body: PUT_RETURN_HEAD,
    },
    Message {
        shows: "a put with all its options",
        kind: Kind::Request,
        code: 11,
        body: PUT_WITH_ALL,
    },
    Message {
        shows: "the reply to a ping",
        kind: Kind::Reply,
        code: 2,
        body: b"",
    },
    Message {
        shows: "the reply to a delete",
        kind: Kind::Reply,
        code: 14,
        body: b"",
    },
    Message {
        shows: "the reply to a put without contents",
        kind: Kind::Reply,
        code: 12,
        body: b"",
    },
    Message {
        shows: "the reply to a get that found nothing",
        kind: Kind::Reply,
        code: 10,
        body: b"",
    },
    Message {
        shows: "the reply to a get that is unchanged",
        kind: Kind::Reply,
        code: 10,
        body: b"\x18\x01",
    },
    Message {
        shows: "a refusal",
        kind: Kind::Reply,
        code: 0,
        body: b"\x0a\x0bmatch_found\x10\x01",
    },
    Message {
        shows: "a fault",
        kind: Kind::Reply,
        code: 0,
        body: b"\x0a\x09bad frame\x10\x01",
    },
    Message {
        shows: "the reply to a get with a value",
        kind: Kind::Reply,
        code: 10,
        body: b"\x0a\x03\x0a\x01v\x12\x15\x02\0\0\0\0\0\x01\0\0\0\0\0\x01\0\0\0\0\0\0\0\x01",
    },
    Message {
        shows: "the reply to a get with a tombstone and a value",
        kind: Kind::Reply,
        code: 10,
        body: b"\x0a\x04\x0a\0\x58\x01\x0a\x03\x0a\x01w\x12\x15\x02\0\0\0\0\0\x01\0\0\0\0\0\x01\0\0\0\0\0\0\0\x03",
    },
    Message {
        shows: "the reply to a put with a content of every field",
        kind: Kind::Reply,
        code: 12,
        body: b"\x0a\x2a\x0a\x01v\x12\x01t\x1a\x01c\x22\x01e\x32\x06\x0a\x01b\x1a\x01t\x32\0\x4a\x03\x0a\x01m\x4a\x05\x0a\x01n\x12\0\x52\x06\x0a\x01i\x12\x01x",
    },
    Message {
        shows: "the reply to a put with a context of two entries, which takes memory",
        kind: Kind::Reply,
        code: 12,
        body: b"\x0a\x03\x0a\x01v\x12\x21\x01\0\0\0\0\0\x01\0\0\0\0\0\x01\0\0\0\x01\0\0\0\0\0\x01\0\x01\0\0\0\x01\0\0\0\x02",
    },
    Message {
        shows: "a get of a type, a bucket and a key of twenty bytes",
        kind: Kind::Request,
        code: 9,
        body: b"\x0a\x14a bucket of 20 bytes\x12\x14and a key of as manyj\x14its type of 20 bytes",
    },
    Message {
        shows: "a put under such names, with details as long",
        kind: Kind::Request,
        code: 11,
        body: b"\x0a\x14a bucket of 20 bytes\x12\x14and a key of as many\x22\xbf\x01\x0a\x01v\x12\x15text/plain; charset=x2C\x0a\x14the bucket of a link\x12\x15the key that it names\x1a\x14the tag of that linkJ-\x0a\x14a name of usermeta..\x12\x15and the value of it..R/\x0a\x14an index of 20 bytes\x12\x17and what it is found by8\x01\x82\x01\x14its type of 20 bytes",
    },
    Message {
        shows: "the reply to a put with details as long",
        kind: Kind::Reply,
        code: 12,
        body: b"\x0a\xbf\x01\x0a\x01v\x12\x15text/plain; charset=x2C\x0a\x14the bucket of a link\x12\x15the key that it names\x1a\x14the tag of that linkJ-\x0a\x14a name of usermeta..\x12\x15and the value of it..R/\x0a\x14an index of 20 bytes\x12\x17and what it is found by\x12\x15\x02\0\0\0\0\0\x01\0\0\0\0\0\x01\0\0\0\0\0\0\0\x01",
    },
];

fn write_read_request(
    read: &Result<Request, MsgFault>,
    alloc: Global,
) -> Result<Vec<u8>, MsgFault> {
    match read {
        Ok(request) => write_request(alloc, request),
        Err(fault) => Err(*fault),
    }
}

fn rewrite_request(alloc: Global, code: u8, body: &[u8]) -> Result<Vec<u8>, MsgFault> {
    let read = read_request(alloc, code, body);
    let written = write_read_request(&read, alloc);
    reading::let_go(read);
    written
}

fn write_read_reply(read: &Result<Reply, MsgFault>, alloc: Global) -> Result<Vec<u8>, MsgFault> {
    match read {
        Ok(reply) => write_reply(alloc, reply),
        Err(fault) => Err(*fault),
    }
}

fn rewrite_reply(alloc: Global, code: u8, body: &[u8]) -> Result<Vec<u8>, MsgFault> {
    let read = read_reply(alloc, code, body);
    let written = write_read_reply(&read, alloc);
    replies::let_go(read);
    written
}

fn rewrite(alloc: Global, row: &Message) -> Result<Vec<u8>, MsgFault> {
    match row.kind {
        Kind::Request => rewrite_request(alloc, row.code, row.body),
        Kind::Reply => rewrite_reply(alloc, row.code, row.body),
    }
}

/// Where memory is refused on the way, nothing wrong is read or written, and the second round goes through.
fn rewrite_again(alloc: Global, row: &Message) -> Result<Vec<u8>, MsgFault> {
    match rewrite(alloc, row) {
        Err(MsgFault::NoMemory) => rewrite(alloc, row),
        other => other,
    }
}

fn stays(alloc: Global, row: &Message) -> bool {
    match rewrite_again(alloc, row) {
        Ok(written) => written.split_first() == Some((&row.code, row.body)),
        Err(_) => false,
    }
}

#[test]
fn what_is_read_is_written_again(rt: HostRuntime) {
    for row in MESSAGES {
        assert!(rt; stays(rt.alloc(), row), "{}", row.shows);
    }
}

//! Messages that are no requests, and why.

use crate::messages::NAMES;
use crate::messages::reading::Asked::Refused;
use crate::messages::reading::{Read, reads};
use riak_msgs::MsgFault;

/// Of several faults the first counts: a field that is missing, an empty name, no key.
const REFUSED: &[Read] = &[
    Read {
        shows: "the code 7",
        code: 7,
        body: b"",
        asked: Refused(MsgFault::UnknownCode),
    },
    Read {
        shows: "a reply's code",
        code: 12,
        body: NAMES,
        asked: Refused(MsgFault::UnknownCode),
    },
    Read {
        shows: "the code of a fault, before a body that is bad",
        code: 0,
        body: b"\x80",
        asked: Refused(MsgFault::UnknownCode),
    },
    Read {
        shows: "a get that is cut short",
        code: 9,
        body: b"\x0a\x01b\x12\x01",
        asked: Refused(MsgFault::BadMessage),
    },
    Read {
        shows: "a wire type of a get that is none",
        code: 9,
        body: b"\x0a\x01b\x12\x01k\x9b\x06",
        asked: Refused(MsgFault::BadMessage),
    },
    Read {
        shows: "a varint of eleven bytes of a get",
        code: 9,
        body: b"\x0a\x01b\x12\x01k\x18\xff\xff\xff\xff\xff\xff\xff\xff\xff\xff\x01",
        asked: Refused(MsgFault::BadMessage),
    },
    Read {
        shows: "a content that is cut short",
        code: 11,
        body: b"\x0a\x01b\x22\x03\x0a\x02v",
        asked: Refused(MsgFault::BadMessage),
    },
    Read {
        shows: "a link that is cut short",
        code: 11,
        body: b"\x0a\x01b\x12\x01k\x22\x06\x0a\x01v\x32\x01\x0a",
        asked: Refused(MsgFault::BadMessage),
    },
    Read {
        shows: "a pair of an index that is cut short",
        code: 11,
        body: b"\x0a\x01b\x12\x01k\x22\x07\x0a\x01v\x52\x02\x0b\x01",
        asked: Refused(MsgFault::BadMessage),
    },
    Read {
        shows: "a link that is cut short behind a good one, and behind a pair without a key",
        code: 11,
        body: b"\x0a\x01b\x12\x01k\x22\x0f\x0a\x01v\x4a\x02\x12\0\x32\x03\x12\x01j\x32\x01\x0a",
        asked: Refused(MsgFault::BadMessage),
    },
    Read {
        shows: "a pair that is cut short in the second occurrence of a content",
        code: 11,
        body: b"\x0a\x01b\x12\x01k\x22\x08\x0a\x01v\x4a\x03\x0a\x01m\x22\x04\x4a\x02\x12\x01",
        asked: Refused(MsgFault::BadMessage),
    },
    Read {
        shows: "a get of no bytes",
        code: 9,
        body: b"",
        asked: Refused(MsgFault::MissingField),
    },
    Read {
        shows: "a get with an empty bucket, and no key",
        code: 9,
        body: b"\x0a\0",
        asked: Refused(MsgFault::MissingField),
    },
    Read {
        shows: "a get without a bucket",
        code: 9,
        body: b"\x12\x01k",
        asked: Refused(MsgFault::MissingField),
    },
    Read {
        shows: "a get with an empty bucket",
        code: 9,
        body: b"\x0a\0\x12\x01k",
        asked: Refused(MsgFault::EmptyName),
    },
    Read {
        shows: "a get with an empty key",
        code: 9,
        body: b"\x0a\x01b\x12\0",
        asked: Refused(MsgFault::EmptyName),
    },
    Read {
        shows: "a get with an empty type",
        code: 9,
        body: b"\x0a\x01b\x12\x01k\x6a\0",
        asked: Refused(MsgFault::EmptyName),
    },
    Read {
        shows: "a put without a content",
        code: 11,
        body: NAMES,
        asked: Refused(MsgFault::MissingField),
    },
    Read {
        shows: "a content without a value",
        code: 11,
        body: b"\x0a\x01b\x12\x01k\x22\0",
        asked: Refused(MsgFault::MissingField),
    },
    Read {
        shows: "a pair without a key",
        code: 11,
        body: b"\x0a\x01b\x12\x01k\x22\x08\x0a\x01v\x4a\x03\x12\x01x",
        asked: Refused(MsgFault::MissingField),
    },
    Read {
        shows: "a pair without a key in the second occurrence of a content",
        code: 11,
        body: b"\x0a\x01b\x12\x01k\x22\x08\x0a\x01v\x4a\x03\x0a\x01m\x22\x04\x4a\x02\x12\0",
        asked: Refused(MsgFault::MissingField),
    },
    Read {
        shows: "a put with an empty bucket, and no key",
        code: 11,
        body: b"\x0a\0\x22\x03\x0a\x01v",
        asked: Refused(MsgFault::EmptyName),
    },
    Read {
        shows: "a put without a key",
        code: 11,
        body: b"\x0a\x01b\x22\x03\x0a\x01v",
        asked: Refused(MsgFault::NoKey),
    },
    Read {
        shows: "a delete of no bytes",
        code: 13,
        body: b"",
        asked: Refused(MsgFault::MissingField),
    },
    Read {
        shows: "a delete without a key, as of a get",
        code: 13,
        body: b"\x0a\x01b",
        asked: Refused(MsgFault::MissingField),
    },
    Read {
        shows: "a delete with an empty bucket, and no key",
        code: 13,
        body: b"\x0a\0",
        asked: Refused(MsgFault::MissingField),
    },
    Read {
        shows: "a delete with an empty bucket",
        code: 13,
        body: b"\x0a\0\x12\x01k",
        asked: Refused(MsgFault::EmptyName),
    },
    Read {
        shows: "a delete with an empty key",
        code: 13,
        body: b"\x0a\x01b\x12\0",
        asked: Refused(MsgFault::EmptyName),
    },
    Read {
        shows: "a delete with an empty type",
        code: 13,
        body: b"\x0a\x01b\x12\x01k\x6a\0",
        asked: Refused(MsgFault::EmptyName),
    },
    Read {
        shows: "a context of a delete that is cut short, behind an empty bucket",
        code: 13,
        body: b"\x0a\0\x22\x02c",
        asked: Refused(MsgFault::BadMessage),
    },
    Read {
        shows: "a varint of eleven bytes of a delete",
        code: 13,
        body: b"\x0a\x01b\x12\x01k\x18\xff\xff\xff\xff\xff\xff\xff\xff\xff\xff\x01",
        asked: Refused(MsgFault::BadMessage),
    },
];

#[test]
fn no_requests(rt: HostRuntime) {
    for row in REFUSED {
        assert!(rt; reads(rt.alloc(), row), "{}", row.shows);
    }
}

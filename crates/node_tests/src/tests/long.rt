//! Sessions of thousands of reads and writes, and of the longest frame.

use crate::tests::frames::{GET, PING, PONG, STORED};
use crate::tests::sessions::{Count, EMPTY, Part, Session, ended, goes};
use crate::tests::streams::{Call, Channel, PLAIN, Trouble};
use node_session::SessionFault;

/// The field of a reply that shows the first dot.
const VCLOCK: &[u8] = b"\x12\x15\x02\0\0\0\0\0\x01\0\0\0\0\0\x01\0\0\0\0\0\0\0\x01";

const LONG: &[Session] = &[
    // 2,000 pings are 10,000 bytes. By 6,001 reads of one byte 1,200 of them come whole.
    Session {
        shows: "thousands of reads are made",
        input: &[Part::Times(2000, PING)],
        channel: Channel {
            pieces: (1, 1),
            reads: 6001,
            ..PLAIN
        },
        end: Err(SessionFault::TooManyReads(1200)),
        output: &[Part::Times(1200, PONG)],
        counts: &[Count::Reads(6001), Count::Unread(3999)],
    },
    // 1,639 pings are 8,195 bytes: two reads of 4,080, one of 35, and one that meets the end.
    Session {
        shows: "without lent room a read takes 4,080 bytes where they are there",
        input: &[Part::Times(1639, PING)],
        channel: Channel {
            pieces: (5000, 5000),
            most: 5000,
            ..PLAIN
        },
        end: ended!(1639, 0),
        output: &[Part::Times(1639, PONG)],
        counts: &[Count::Reads(4), Count::Largest(4080)],
    },
    // A put of 6,000 bytes on b/k, and a get of it. The 6,039 bytes of the replies go out by writes of one byte, each of
    // which is interrupted once.
    Session {
        shows: "a long reply goes out byte by byte",
        input: &[
            Part::Bytes(b"\0\0\x17\x7d\x0b\x0a\x01b\x12\x01k\x22\xf3\x2e\x0a\xf0\x2e"),
            Part::Times(6000, b"\x07"),
            Part::Bytes(GET),
        ],
        channel: Channel {
            pieces: (4096, 4096),
            most: 1,
            troubles: &[Trouble::Interrupts(Call::Write, 2)],
            ..PLAIN
        },
        end: ended!(2, 0),
        output: &[
            Part::Bytes(b"\0\0\0\x01\x0c\0\0\x17\x8e\x0a\x0a\xf3\x2e\x0a\xf0\x2e"),
            Part::Times(6000, b"\x07"),
            Part::Bytes(VCLOCK),
        ],
        counts: &[Count::Writes(12_078)],
    },
    // A put of the longest frame that a request may have. The reply to a get of it is a frame of 17 bytes more.
    Session {
        shows: "the longest request is stored and shown",
        input: &[
            Part::Bytes(b"\0\x10\0\0\x0b\x0a\x01b\x12\x01k\x22\xf5\xff\x3f\x0a\xf1\xff\x3f"),
            Part::Times(1_048_561, b"\x07"),
            Part::Bytes(GET),
        ],
        channel: Channel {
            pieces: (4096, 4096),
            most: 5000,
            reads: 1000,
            ..PLAIN
        },
        end: ended!(2, 0),
        output: &[
            Part::Bytes(STORED),
            Part::Bytes(b"\0\x10\0\x11\x0a\x0a\xf5\xff\x3f\x0a\xf1\xff\x3f"),
            Part::Times(1_048_561, b"\x07"),
            Part::Bytes(VCLOCK),
        ],
        ..EMPTY
    },
];

#[test]
fn thousands_of_bytes_come_and_go(rt: HostRuntime) {
    for row in LONG {
        assert!(rt; goes(rt.alloc(), row), "{}", row.shows);
    }
}

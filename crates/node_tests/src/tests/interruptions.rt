//! Reads, writes and flushes that are interrupted.

use crate::tests::sessions::{ANSWERED, Count, Session, goes};
use crate::tests::streams::{Call, Channel, PLAIN, Trouble};
use node_session::SessionFault;

/// Every second read is interrupted. Five of ten reads are, and each is one of the reads.
const SECOND_READS: Trouble = Trouble::Interrupts(Call::Read, 2);

const SECOND_WRITES: Trouble = Trouble::Interrupts(Call::Write, 2);

const SECOND_FLUSHES: Trouble = Trouble::Interrupts(Call::Flush, 2);

/// The first thousand reads are interrupted. Then four reads give the requests, and a fifth meets the end.
const THOUSAND_READS: Trouble = Trouble::Begins(Call::Read, 1000);

const THOUSAND_WRITES: Trouble = Trouble::Begins(Call::Write, 1000);

const THOUSAND_FLUSHES: Trouble = Trouble::Begins(Call::Flush, 1000);

/// What is interrupted is tried again: all is answered.
const INTERRUPTIONS: &[Session] = &[
    Session {
        shows: "every second read, write and flush is tried again",
        channel: Channel {
            most: 3,
            reads: 10,
            troubles: &[SECOND_READS, SECOND_WRITES, SECOND_FLUSHES],
            ..PLAIN
        },
        counts: &[Count::Reads(10)],
        ..ANSWERED
    },
    Session {
        shows: "an interrupted read is one of the reads",
        channel: Channel {
            most: 3,
            reads: 9,
            troubles: &[SECOND_READS],
            ..PLAIN
        },
        end: Err(SessionFault::TooManyReads(3)),
        counts: &[Count::Reads(9)],
        ..ANSWERED
    },
    Session {
        shows: "a thousand writes and flushes in a row are tried again",
        channel: Channel {
            most: 3,
            reads: 5,
            troubles: &[THOUSAND_WRITES, THOUSAND_FLUSHES],
            ..PLAIN
        },
        counts: &[Count::Reads(5)],
        ..ANSWERED
    },
    Session {
        shows: "a thousand reads in a row are tried again",
        channel: Channel {
            most: 3,
            reads: 1005,
            troubles: &[THOUSAND_READS],
            ..PLAIN
        },
        counts: &[Count::Reads(1005)],
        ..ANSWERED
    },
    Session {
        shows: "a thousand interrupted reads are among the reads",
        channel: Channel {
            most: 3,
            reads: 1004,
            troubles: &[THOUSAND_READS],
            ..PLAIN
        },
        end: Err(SessionFault::TooManyReads(3)),
        counts: &[Count::Reads(1004)],
        ..ANSWERED
    },
];

#[test]
fn what_is_interrupted_is_tried_again(rt: HostRuntime) {
    for row in INTERRUPTIONS {
        assert!(rt; goes(rt.alloc(), row), "{}", row.shows);
    }
}

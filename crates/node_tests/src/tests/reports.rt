//! The program's line and status for a session's end.

use crate::tests::streams::{Call, Channel, PLAIN, Sink, Trouble};
use node_session::{SessionFault, exit_status, write_fault};
use std::alloc::Global;
use std::cell::Cell;

/// The line of a fault, whose status is 1.
struct Line {
    shows: &'static str,
    fault: SessionFault,
    /// How many bytes a write takes at most.
    most: usize,
    troubles: &'static [Trouble],
    is_written: bool,
    line: &'static [u8],
}

const LINES: &[Line] = &[
    Line {
        shows: "a failed read has its line",
        fault: SessionFault::ReadFailed(0),
        most: 100,
        troubles: &[],
        is_written: true,
        line: b"riak_node: read failed after 0 replies\n",
    },
    Line {
        shows: "a failed write has its line",
        fault: SessionFault::WriteFailed(10),
        most: 1,
        troubles: &[],
        is_written: true,
        line: b"riak_node: write failed after 10 replies\n",
    },
    Line {
        shows: "a bad frame has its line",
        fault: SessionFault::BadFrame(2),
        most: 100,
        troubles: &[],
        is_written: true,
        line: b"riak_node: bad frame after 2 replies\n",
    },
    Line {
        shows: "too many reads have their line",
        fault: SessionFault::TooManyReads(4_294_967_296),
        most: 3,
        troubles: &[],
        is_written: true,
        line: b"riak_node: too many reads after 4294967296 replies\n",
    },
    Line {
        shows: "refused memory has its line",
        fault: SessionFault::NoMemory(1),
        most: 100,
        troubles: &[],
        is_written: true,
        line: b"riak_node: no memory after 1 replies\n",
    },
    // Standard error that fails is an error of the call.
    Line {
        shows: "a line that is not written is an error",
        fault: SessionFault::BadFrame(2),
        most: 100,
        troubles: &[Trouble::Fails(Call::Write, 0)],
        is_written: false,
        line: b"",
    },
];

/// The line is written as it should be, and the status is 1.
fn reports(alloc: Global, row: &Line) -> bool {
    let channel = Channel {
        most: row.most,
        troubles: row.troubles,
        ..PLAIN
    };
    let flushed = Cell::new(0);
    let mut sink = Sink::new(alloc, &channel, &flushed);
    let is_written = write_fault(&mut sink, row.fault).is_ok();
    is_written == row.is_written
        && sink.bytes.as_slice() == row.line
        && exit_status(Err(row.fault)) == 1
}

#[test]
fn each_fault_has_its_line(rt: HostRuntime) {
    for row in LINES {
        assert!(rt; reports(rt.alloc(), row), "{}", row.shows);
    }
}

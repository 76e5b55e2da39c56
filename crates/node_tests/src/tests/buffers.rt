//! What a buffer keeps of its memory.

use pb_frame::shrink_empty;
use std::alloc::Global;

/// A buffer of so much memory, and whether it keeps that where it is shrunk with these bytes in it.
struct Buffer {
    shows: &'static str,
    capacity: usize,
    bytes: &'static [u8],
    is_kept: bool,
}

const BUFFERS: &[Buffer] = &[
    Buffer {
        shows: "an empty one keeps 256 bytes",
        capacity: 256,
        bytes: b"",
        is_kept: true,
    },
    Buffer {
        shows: "an empty one gives more than that back",
        capacity: 257,
        bytes: b"",
        is_kept: false,
    },
    Buffer {
        shows: "one that isn't empty keeps all that it has",
        capacity: 100_000,
        bytes: b"v",
        is_kept: true,
    },
];

/// Whether a buffer has its bytes behind that, and as much memory as its row says.
fn is_shrunk(alloc: Global, row: &Buffer) -> bool {
    let Ok(mut buffer) = Vec::<u8>::with_capacity(alloc, row.capacity) else {
        return false;
    };
    if buffer.extend_from_slice(row.bytes).is_err() {
        return false;
    }
    shrink_empty(&mut buffer);
    buffer.as_slice() == row.bytes && (buffer.capacity() >= row.capacity) == row.is_kept
}

#[test]
fn buffers_give_memory_back_where_they_are_empty(rt: HostRuntime) {
    for row in BUFFERS {
        assert!(rt; is_shrunk(rt.alloc(), row), "{}", row.shows);
    }
}

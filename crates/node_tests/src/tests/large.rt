//! A reply of many megabytes.

use crate::tests::frames::GET;
use crate::tests::sessions::ended;
use crate::tests::streams::{Channel, PLAIN, Sink, Source};
use node_session::{Node, serve};
use riak_msgs::{ContextBytes, GetReply, Reply, Request, Sequence, Text};
use std::alloc::{AllocError, Global};
use std::cell::Cell;

/// Shows a context of so many thousands of bytes, whatever it is asked.
#[derive(Drop)]
struct Showing {
    thousands: u32,
}

fn let_go(_request: Request) {}

/// So many thousands of bytes.
fn bytes_of(alloc: Global, thousands: u32) -> Result<Vec<u8>, AllocError> {
    let mut bytes = Vec::new(alloc);
    for _ in 0..thousands {
        bytes.extend_from_slice(&[7u8; 1000])?;
    }
    Ok(bytes)
}

impl Node for Showing {
    ghost use Rattle.std.specs.Prelude.{⊤};

    ghost step = { λ first request reply last. ⊤ };

    fn answer(&mut self, alloc: Global, request: Request) -> Reply {
        let_go(request);
        match bytes_of(alloc, self.thousands) {
            Ok(bytes) => Reply::Get(GetReply {
                contents: Sequence::new(alloc),
                context: ContextBytes::from_vec(bytes),
                unchanged: false,
            }),
            Err(_) => Reply::Error(Text::NoMemory),
        }
    }
}

/// Writes of any length.
const WHOLE: Channel<'static> = Channel {
    pieces: (100, 100),
    most: 1_000_000_000,
    ..PLAIN
};

/// The header of a frame of 64,000,006 bytes, a get's code, and a context of 64,000,000.
const FRONT: &[u8] = b"\x03\xd0\x90\x06\x0a\x12\x80\xa0\xc2\x1e";

/// A get is answered by a frame that begins so, and has so many bytes.
fn is_written(alloc: Global, thousands: u32, front: &[u8], len: usize) -> bool {
    let flushed = Cell::new(0);
    let mut source = Source::new(GET, &WHOLE, &flushed);
    let mut sink = Sink::new(alloc, &WHOLE, &flushed);
    let end = serve(
        alloc,
        &mut source,
        &mut sink,
        &mut Showing { thousands },
        10,
    );
    end == ended!(1, 0) && sink.bytes.len() == len && sink.bytes.starts_with(front)
}

#[test]
fn a_reply_of_64_megabytes_is_written(rt: HostRuntime) {
    assert!(rt; is_written(rt.alloc(), 64_000, FRONT, 64_000_010));
}

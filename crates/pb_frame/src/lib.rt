//! Messages in frames, on a stream of bytes that is fed in any pieces.
//!
//! Riak's Protocol Buffers Client API puts each message into a frame: four bytes, the highest
//! first, that hold how long the code and the body are, then the code, then the body. A stream of
//! bytes *splits* into the messages of its frames, each within a limit, and a rest that begins no
//! whole frame (`Splits`, in `specs/Message.antt`); each stream does so in one way (`every_stream`,
//! `one_split`). A [`Framer`] gives these messages.
//!
//! **Cost.** Feeding and taking `n` bytes takes time in proportion to `n`, whatever the pieces and
//! whenever frames are taken: a byte is copied once when it is fed, and over all calls no more
//! bytes are moved than were taken. Taking allocates nothing and copies nothing. What a large frame
//! took is given back once all was taken: a framer in which nothing is left keeps at most 256
//! bytes. Whoever feeds many framers may lend each a buffer for as long as it holds bytes
//! ([`Framer::lend`], [`Framer::give_back`]).
//!
//! **How it is built.** A buffer, and how much of it was taken: [`Framer::take`] moves that mark
//! alone, and [`Framer::feed`] moves what is left to the front once it is at most half of the
//! buffer. [`frame_of`] encodes a message, and [`header`] the bytes in front of a body that is
//! written behind it. [`try_write`] and its kin write frames to a stream, and say how many of their
//! bytes it took.
//!
//! ```text
//! Framer::new(alloc, 100)
//! feed(00 00 00 02 09)        Ok: the body of one byte is missing
//! take()                      None
//! feed(61)                    Ok
//! take()                      the code 9 and the body 61
//! ```
//!
//! # Proved
//!
//! However a stream is cut, a [`Framer`] gives the messages of its frames in their order. `None`
//! comes exactly if all were given and nothing is wrong. `Empty` or `TooLarge` comes exactly if a
//! bad length follows, and from then on for good. A writer takes at least one of the bytes, from
//! the first on, and as many as the call reports. If the writer fails or would have to wait,
//! nothing was written. By `feed`, `take`, `lend`, `give_back`, `rest`, `frame_of`, `header`,
//! `shrink_empty`, `try_write`, `write_some`, `try_flush`, `flush`; laws `every_stream`,
//! `one_split`, `any_pieces`, `none_left`, `bad_length`.
//!
//! # Tested
//!
//! A framer gives a large buffer back. A write or flush that is interrupted is tried again.
//!
//! # Open
//!
//! - That feeding and taking take time in proportion to the bytes.
//! - That `reading_len` returns more than 1.
//! - That a write or flush fails only if the writer does.
#![tactic(auto)]

mod decode;
mod encode;
mod fault;
mod frame;
mod framer;
mod idle;
mod laws;
mod limits;
mod stream;

pub use encode::{HEADER_LEN, frame_of, header};
pub use fault::FrameFault;
pub use frame::Frame;
pub use framer::Framer;
pub use idle::{return_room, shrink_empty};
pub use laws::{
    any_pieces, bad_length, every_stream, first_messages, none_left, one_split, request_limit,
};
pub use limits::{MAX_BODY_LEN, MAX_REQUEST_LEN};
pub use stream::{Flushed, MAX_READS, WriteFailed, Wrote, flush, try_flush, try_write, write_some};

//! A stream of frames that is fed in any pieces.

ghost use Rattle.std.specs.Prelude.{◌≡◌, ◌≤◌, ◌<◌, ◌+◌, ◌-◌, ◌++◌, [], length, None, IfSome};
ghost use Rattle.std.specs.Prelude.{IsErrOf, IsOkUnless, OnOk, OnErr, vec_capacity};
ghost use Rattle.pb_frame.specs.Message.{given_length};

use crate::decode::{Header, decode_header};
use crate::fault::FrameFault;
use crate::frame::Frame;
use crate::idle::{return_room, shrink_empty};
use byteorder::{BigEndian, ByteOrder};
use std::alloc::Global;
use std::marker::Model;
use std::mem;

/// How many bytes a small buffer has: a page, beside what an allocator adds.
const SMALL: usize = 4_080;

/// The bytes of a stream that were fed and not yet taken in frames.
///
/// A life, of bytes in hexadecimal, where frames have a length of at most 100:
///
/// | Call | Answer | `rest` after it |
/// |---|---|---|
/// | `feed(00 00 00 02 09)` | `Ok` | 5 |
/// | `take` | `None`: the body is still to come | 5 |
/// | `feed(61 00 00 00 00 07)` | `Ok` | 11 |
/// | `take` | the code 9 and the body `61` | 5 |
/// | `take` | `Empty`: the next length is 0 | 5 |
/// | `feed(01)`, `take` | `Empty`, from now on | 5 |
#[derive(Drop)]
pub struct Framer {
    // Those before `start` were taken.
    bytes: Vec<u8>,
    start: usize,
    limit: u32,
    fault: Option<FrameFault>,
}

impl Model for Framer {
    ghost use Rattle.std.specs.Prelude.{◌≤◌, drop, vec_len};
    ghost use Rattle.pb_frame.specs.Stream.{Stream};
    ghost use Rattle.std.specs.Option.{ForSome};
    ghost use Rattle.pb_frame.specs.Message.{IsFaulty};

    ghost Value = { Stream };

    ghost view = { λ f. record {
      limit = f.limit;
      rest = drop f.start f.bytes.items;
      fault = f.fault;
    } };

    // A fault that was returned is still at the front.
    ghost invariant = { λ f. (f.start ≤ vec_len f.bytes)
        × ForSome f.fault (IsFaulty f.limit (drop f.start f.bytes.items)) };
}

impl Framer {
    ghost use Rattle.std.specs.Borrow.{sem};
    ghost use Rattle.pb_frame.specs.Message.{IsPartial};
    ghost use Rattle.pb_frame.specs.Taking.{TakesOnce};

    /// No bytes yet, of frames whose length (the code and the body) is at most `limit` bytes. Takes no
    /// memory; `alloc` is kept for what is fed.
    pub fn new(alloc: Global, limit: u32) -> Framer
        ensures stream { result ≡ record { limit = limit; rest = []; fault = None } }
        ensures partial { IsPartial limit [] }
    {
        Framer {
            bytes: Vec::new(alloc),
            start: 0,
            limit,
            fault: None,
        }
    }

    /// How many bytes were fed and not yet taken in frames: once [`Framer::take`] gave none, how many
    /// lie behind the last whole frame. Takes no memory.
    pub fn rest(&self) -> usize
        ensures { result ≡ length self.now.rest }
    {
        self.bytes.len() - self.start
    }

    /// How many bytes of the frame at the front are still to come, by its four length bytes: 0 where it
    /// has come whole, or where these aren't all there. Takes no memory.
    #[tactic(auto, unfolding(crate::specs::Message::given_length))]
    pub fn missing(&self) -> usize
        ensures short { length self.now.rest < 4 → result ≡ 0 }
        ensures long { 4 ≤ length self.now.rest
            → result ≡ given_length self.now.rest + 4 - length self.now.rest }
    {
        let rest = &self.bytes[self.start..];
        if rest.len() < 4 {
            return 0;
        }
        (BigEndian::read_u32(rest) as usize + 4).saturating_sub(rest.len())
    }

    /// Adds a piece at the end of what was fed. An `Err` changes nothing: it is `NoMemory`, after which
    /// the same piece may be fed again, or the bad length that [`Framer::take`] returned, which is
    /// final.
    pub fn feed(&mut self, piece: &[u8]) -> Result<(), FrameFault>
        ensures ok { OnOk result (
            self.new ≡ record self.old { rest = self.old.rest ++ piece.now }) }
        ensures err { OnErr result (self.new ≡ self.old) }

        // Once a bad length was returned, its fault is, and no other. Before, only memory is refused.
        ensures stopped { IfSome self.old.fault (λ e. IsErrOf result e) }
        ensures memory { self.old.fault ≡ None → IsOkUnless result FrameFault.NoMemory }
    {
        if let Some(fault) = self.fault {
            return Err(fault);
        }
        self.compact();
        if !self.has_room(piece.len()) {
            return Err(FrameFault::NoMemory);
        }
        match self.bytes.extend_from_slice(piece) {
            Ok(()) => Ok(()),
            Err(_) => Err(FrameFault::NoMemory),
        }
    }

    /// Makes room for so many bytes more, and for no others, where a small buffer is enough, and for all
    /// that a frame lacks once a fifth of it has come. False where memory is refused for it.
    fn has_room(&mut self, more: usize) -> bool
        ensures { self.new ≡ self.old }
    {
        let wanted = self.wanted_room(more);
        self.bytes.reserve_exact(wanted).is_ok()
    }

    /// For how many bytes room is made at once before so many come; 0 where a buffer grows as it is filled.
    fn wanted_room(&self, more: usize) -> usize {
        let len = self.bytes.len().saturating_add(more);
        if len <= SMALL {
            return more;
        }
        // a length alone makes nobody take memory for what may never come
        let missing = self.missing();
        if missing > more && missing / 4 <= len {
            missing
        } else {
            0
        }
    }

    /// How many of so many bytes are to be read at once: all where they have room in this buffer or in a
    /// lent one, else as many as a small buffer holds behind what is left, where that is less. So a full
    /// node, whose free memory lies in pages, finds room for them.
    pub fn reading_len(&self, room: &Vec<u8>, len: usize) -> usize
        requires { 0 < len }
        ensures some { 0 < result }
        ensures most { result ≤ len }
    {
        let left = self.rest();
        let wanted = left.saturating_add(len);
        if wanted <= self.bytes.capacity() || wanted <= room.capacity() || left >= SMALL {
            return len;
        }
        len.min(SMALL - left)
    }

    /// Goes over to a lent buffer where a piece of so many bytes has room there behind what is left, and
    /// none in its own: what is left is moved there, and the buffers are exchanged. Takes no memory, and
    /// the stream stays as it is.
    pub fn lend(&mut self, room: &mut Vec<u8>, more: usize)
        ensures { self.new ≡ self.old }
    {
        let own = self.bytes.len().saturating_add(more);
        let lent = self.rest().saturating_add(more);
        if self.bytes.capacity() < own && lent <= room.capacity() {
            self.move_into(room);
        }
    }

    /// Moves what is left into another buffer, which has room for it, and exchanges the two.
    fn move_into(&mut self, room: &mut Vec<u8>)
        ensures { self.new ≡ self.old }
    {
        room.clear();
        if room.extend_from_slice(&self.bytes[self.start..]).is_ok() {
            mem::swap(&mut self.bytes, room);
            self.start = 0;
        }
    }

    /// Where nothing is left, gives its buffer back in exchange for a smaller one, where it has at most
    /// `most` bytes of memory. Takes none, and the stream stays as it is.
    pub fn give_back(&mut self, room: &mut Vec<u8>, most: usize)
        ensures { self.new ≡ self.old }
    {
        if self.start == self.bytes.len() {
            return_room(&mut self.bytes, room, most);
            self.start = 0;
        }
    }

    /// Its buffer, emptied: what is left is let go.
    pub fn into_room(self) -> Vec<u8>
        ensures { result.items ≡ [] }
    {
        let Framer {
            mut bytes,
            start: _,
            limit: _,
            fault: _,
        } = self;
        bytes.clear();
        bytes
    }

    /// Moves what is left to the front, once at least as many bytes before it were taken, and always in a
    /// small buffer. So over all calls no more bytes are moved than were taken, but for 4,080 at each, and
    /// what is kept of bytes that were taken is less than what is left.
    fn compact(&mut self)
        ensures { self.new ≡ self.old }
    {
        let left = self.rest();
        if self.start >= left || self.bytes.len() <= SMALL {
            self.bytes.copy_within(self.start.., 0);
            self.bytes.truncate(left);
            self.start = 0;
        }
    }

    /// Where nothing is left, lets go what was taken, and the memory that a large frame took.
    fn release(&mut self)
        ensures { self.new ≡ self.old }
    {
        if self.start == self.bytes.len() {
            self.bytes.clear();
            self.start = 0;
            shrink_empty(&mut self.bytes);
        }
    }

    /// The next whole frame. `None` where no whole frame is left and no bad length follows: feed
    /// more. An `Err` is `Empty` (a length of 0) or `TooLarge` (a length above the limit), once all
    /// frames before it were taken and its four bytes are there. It is final, since nothing marks
    /// where a next frame would begin: from then on this call and [`Framer::feed`] answer it, and
    /// nothing changes. Takes no memory; where nothing is left, memory above 256 bytes is given back.
    pub fn take(&mut self) -> Result<Option<Frame<'_>>, FrameFault>
        ensures* { sem 𝓛 (TakesOnce self.entry result) }
    {
        self.release();
        if let Some(fault) = self.fault {
            return Err(fault);
        }
        let start = self.start;
        match decode_header(self.limit, &self.bytes[start..]) {
            Header::Incomplete => Ok(None),
            Header::Invalid(fault) => {
                self.fault = Some(fault);
                Err(fault)
            }
            Header::Complete(length) => {
                let end = start + length;
                self.start = end;
                let bytes = self.bytes.as_slice();
                Ok(Some(Frame {
                    code: bytes[start + 4],
                    body: &bytes[start + 5..end],
                }))
            }
        }
    }
}

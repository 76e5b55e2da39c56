//! What a worker lends to each step of its sessions.

ghost use Rattle.std.specs.Prelude.{◌≡◌, []};

use crate::answer_counts::AnswerCounts;
use crate::reading::LONG_READ_LEN;
use crate::reply_frame::ReplyFrame;
use crate::serving::MAX_READ_LEN;
use pb_frame::{Framer, return_room};
use std::alloc::Global;
use std::mem;
use std::sync::Arc;

/// How much room is kept for requests, and how much for a reply, in bytes.
pub(crate) const MOST_ROOM: usize = 65_520;

/// What a worker lends to each step of its sessions: the bytes that a read comes into, those of a long
/// message, room for requests that are still to be answered, and room for the frame of a reply. Where a
/// worker counts its answers, they are counted here.
///
/// A session takes room when it has read or replied something, and gives it back once all that was read
/// is answered and sent: one that waits for its next request holds none. Once
/// [`make_room`](Self::make_room) has made all, a request of up to 61,424 bytes and a reply of up to
/// 65,520 take no memory for their frames: so they come and go in a node that has none left too. Longer
/// ones take memory of their own.
pub struct Scratch {
    pub(crate) piece: [u8; MAX_READ_LEN],
    /// None, or as many as a long read takes.
    pub(crate) long_piece: Vec<u8>,
    pub(crate) requests: Vec<u8>,
    reply: Vec<u8>,
    counts: Option<Arc<AnswerCounts, Global>>,
}

/// One call at each place where one is let go.
impl Drop for Scratch {
    fn drop(self) {
        let Scratch {
            piece: _piece,
            long_piece: _long_piece,
            requests: _requests,
            reply: _reply,
            counts: _counts,
        } = self;
    }
}

impl Scratch {
    /// With no room yet. It takes no memory.
    pub fn new(alloc: Global) -> Scratch {
        Scratch {
            piece: [0; MAX_READ_LEN],
            long_piece: Vec::new(alloc),
            requests: Vec::new(alloc),
            reply: Vec::new(alloc),
            counts: None,
        }
    }

    /// Has the answers of all sessions counted there.
    pub fn count_in(&mut self, counts: Arc<AnswerCounts, Global>) {
        self.counts = Some(counts);
    }

    /// A message of this code was answered by what is to be sent there.
    #[inline(always)]
    pub(crate) fn count_answer(&self, code: u8, out: &ReplyFrame) {
        if let Some(counts) = &self.counts {
            counts.count(code, out.error());
        }
    }

    /// Makes what isn't there of its room, where there is memory for it. Whether all is there then.
    pub fn make_room(&mut self) -> bool {
        self.requests.clear();
        self.reply.clear();
        self.requests.reserve_exact(MOST_ROOM).is_ok()
            && self.reply.reserve_exact(MOST_ROOM).is_ok()
            && self.long_piece.resize(LONG_READ_LEN, 0).is_ok()
    }

    /// Takes the room for requests back where nothing is to be answered.
    #[inline(always)]
    pub(crate) fn take_requests(&mut self, framer: &mut Framer)
        ensures { framer.new ≡ framer.old }
    {
        framer.give_back(&mut self.requests, MOST_ROOM);
    }

    /// Lends room for a reply's frame to a buffer that has too little for so many bytes.
    #[inline(always)]
    pub(crate) fn lend_reply(&mut self, bytes: &mut Vec<u8>, wanted: usize)
        requires { bytes.old.items ≡ [] }
        ensures { bytes.new.items ≡ [] }
    {
        if bytes.capacity() < wanted && wanted <= self.reply.capacity() {
            self.reply.clear();
            mem::swap(bytes, &mut self.reply);
        }
    }

    /// Takes the room for a reply back out of a buffer, which is emptied and keeps no memory.
    #[inline(always)]
    pub(crate) fn take_reply(&mut self, bytes: &mut Vec<u8>)
        ensures { bytes.new.items ≡ [] }
    {
        return_room(bytes, &mut self.reply, MOST_ROOM);
        if bytes.capacity() > 0 {
            bytes.shrink_to_fit();
        }
    }

    /// Takes back the room of a session that is over.
    pub(crate) fn take_all(&mut self, framer: Framer, frame: Vec<u8>) {
        let mut requests = framer.into_room();
        return_room(&mut requests, &mut self.requests, MOST_ROOM);
        let mut reply = frame;
        return_room(&mut reply, &mut self.reply, MOST_ROOM);
    }
}

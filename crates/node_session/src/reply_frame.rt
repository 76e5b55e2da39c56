//! The frame of a reply that is being sent.

ghost use Rattle.std.specs.Prelude.{◌≡◌, ◌≤◌, [], length, drop, OnOk, OnErr, IfErr};
ghost use Rattle.riak_msgs.specs.declared.reply.Reply.TheVariants.{Error, Get};
ghost use Rattle.node_session.specs.Answers.{reply_frame, HasNoFrame, IsFramed};
ghost use Rattle.node_session.specs.Unsent.{PutsReply, IsFront};

use crate::constant_frames::{constant_frame, error_frame, error_in, nothing_frame};
use crate::reply::fill_frame;
use crate::scratch::{MOST_ROOM, Scratch};
use pb_frame::FrameFault;
use riak_msgs::{Reply, Text};
use std::alloc::Global;
use std::marker::Model;
use vnode_core::StoredReply;

/// The code of the reply to a get.
const GET_CODE: u8 = 10;

/// The frame of a reply, of which some bytes were sent. That of an error, and of a reply that shows
/// nothing, takes no memory; that of another lies in room that the worker lends, where it finds enough
/// there.
///
/// Contracts see the bytes that are still to be sent.
#[derive(Drop)]
pub struct ReplyFrame {
    // Those before `sent` were sent.
    frame: Vec<u8>,
    sent: usize,
    // What is left of a frame that takes no memory.
    constant: &'static [u8],
}

impl Model for ReplyFrame {
    ghost use Rattle.std.specs.Prelude.{ℕ, List, ◌++◌, ◌≤◌, drop, vec_len};

    ghost Value = { List ℕ };

    ghost view = { λ o. drop o.sent o.frame.items ++ o.constant.now };

    ghost invariant = { λ o. o.sent ≤ vec_len o.frame };
}

/// Empties the buffer of a frame that was sent. Its memory goes back at once where the worker wouldn't
/// take it: its session may be held up before it takes its next step.
fn clear_frame(frame: &mut Vec<u8>)
    ensures { frame.new.items ≡ [] }
{
    frame.clear();
    if frame.capacity() > MOST_ROOM {
        frame.shrink_to_fit();
    }
}

impl ReplyFrame {
    /// Nothing is to be sent. It takes no memory.
    pub(crate) fn new(alloc: Global) -> ReplyFrame
        ensures { result ≡ [] }
    {
        ReplyFrame {
            frame: Vec::new(alloc),
            sent: 0,
            constant: b"",
        }
    }

    /// Which error is to be sent, if one is.
    #[inline(always)]
    pub(crate) fn error(&self) -> Option<Text> {
        error_in(self.constant)
    }

    /// How many bytes are to be sent.
    pub(crate) fn len(&self) -> usize
        ensures { result ≡ length self.now }
    {
        self.frame.len() - self.sent + self.constant.len()
    }

    /// What is to be sent first.
    pub(crate) fn next(&self) -> &[u8]
        ensures { IsFront result.now self.now }
    {
        if self.sent < self.frame.len() {
            &self.frame[self.sent..]
        } else {
            self.constant
        }
    }

    /// So much of what is to be sent first was sent.
    pub(crate) fn sent(&mut self, n: usize)
        requires { n ≤ length self.old }
        ensures { self.new ≡ drop n self.old }
    {
        let waits = self.frame.len() - self.sent;
        if n < waits {
            self.sent += n;
        } else {
            self.constant = &self.constant[n - waits..];
            self.sent = 0;
            clear_frame(&mut self.frame);
        }
    }

    /// Gives room back that was lent for a frame, where nothing is to be sent.
    pub(crate) fn give_back(&mut self, scratch: &mut Scratch)
        requires { self.old ≡ [] }
        ensures { self.new ≡ self.old }
    {
        self.sent = 0;
        self.constant = b"";
        scratch.take_reply(&mut self.frame);
    }

    /// The buffer of its frame.
    pub(crate) fn into_frame(self) -> Vec<u8> {
        let ReplyFrame {
            frame,
            sent: _,
            constant: _,
        } = self;
        frame
    }

    /// Puts the frame of a reply that takes memory.
    fn put_written(&mut self, reply: &Reply, scratch: &mut Scratch) -> Result<(), FrameFault>
        requires { self.old ≡ [] }
        ensures ok { OnOk result (self.new ≡ reply_frame reply.now) }
        ensures framed { OnOk result (IsFramed reply.now) }
        ensures fault { IfErr result (HasNoFrame reply.now) }
        ensures err { OnErr result (self.new ≡ []) }
    {
        self.frame.clear();
        self.sent = 0;
        self.constant = b"";
        fill_frame(&mut self.frame, reply.code(), reply, scratch)
    }

    /// Puts a frame that takes no memory.
    #[inline(always)]
    fn put_constant(&mut self, frame: &'static [u8])
        ensures { self.new ≡ frame.now }
    {
        self.frame.clear();
        self.sent = 0;
        self.constant = frame;
    }

    /// Puts the frame of an error. It takes no memory.
    pub fn put_error(&mut self, text: Text)
        ensures put { self.new ≡ reply_frame (Error text) }
        ensures framed { IsFramed (Error text) }
    {
        self.put_constant(error_frame(text));
    }

    /// Puts the frame of a reply where nothing else is to be sent. Refused by `TooLarge` just where a
    /// frame can't hold the reply's body, and where memory is. That of an error, of a ping or a delete,
    /// and of a get or a put that shows nothing takes no memory.
    #[inline(always)]
    pub fn put(&mut self, reply: &Reply, scratch: &mut Scratch) -> Result<(), FrameFault>
        requires { self.old ≡ [] }
        ensures { PutsReply reply.now self.new result }
    {
        match constant_frame(reply) {
            Some(frame) => {
                self.put_constant(frame);
                Ok(())
            }
            None => self.put_written(reply, scratch),
        }
    }

    /// Puts the frame of the reply to a get from where that lies, as `put` does that of a reply.
    #[inline(always)]
    pub fn put_stored(
        &mut self,
        shown: &StoredReply<'_>,
        scratch: &mut Scratch,
    ) -> Result<(), FrameFault>
        requires { self.old ≡ [] }
        ensures { PutsReply (Get shown.now) self.new result }
    {
        if shown.is_empty() {
            self.put_constant(nothing_frame());
            return Ok(());
        }
        self.frame.clear();
        self.sent = 0;
        self.constant = b"";
        fill_frame(&mut self.frame, GET_CODE, shown, scratch)
    }
}

//! What a session holds: bytes come in, messages are answered, bytes go out.

ghost use Rattle.std.specs.Prelude.{◌≡◌, ◌+◌, ◌^◌, ◌≤◌, ◌<◌, ◌++◌, [], drop, length, None, OnOk};
ghost use Rattle.std.specs.Prelude.{OnErr};
ghost use Rattle.pb_frame.specs.Limits.{max_request_len};
ghost use Rattle.node_session.specs.Limits.{max_read_len};
ghost use Rattle.pb_frame.specs.Message.{IsPartial, given_length};
ghost use Rattle.node_session.specs.Views.{nothing_read, CanFollow, IsRead};
ghost use Rattle.node_session.specs.Nexts.{AnswersNext};
ghost use Rattle.node_session.specs.Unsent.{IsFront};

use crate::answering::answer;
use crate::exchange::Exchange;
use crate::framed_reply::GhostReply;
use crate::node::Node;
use crate::reply::frame_fault_text;
use crate::reply_frame::ReplyFrame;
use crate::scratch::Scratch;
use crate::serving::MAX_READ_LEN;
use ghost_state::{GhostList, Listing};
use pb_frame::{Frame, Framer, MAX_REQUEST_LEN};
use std::alloc::{AllocError, Global};
use std::marker::Model;

/// The code for what has none: a frame of a bad length.
const NO_CODE: u8 = 0;

/// What a session did about its next message.
#[derive(Clone, Copy, Drop)]
pub enum Next {
    /// It was answered, and its reply is to be sent.
    Answered,
    /// None has come whole: the session waits for a further piece.
    Idle,
    /// A bad length stood next. Its error is to be sent, and the session ends.
    BadFrame,
    /// It was answered, but memory was refused for the reply, which is lost. The node has taken its step, and the
    /// session ends.
    Lost,
}

/// What one connection's session holds, which knows neither its streams nor its node: pieces that were read are
/// fed to it, a node is lent to each answer, and what is to be sent is looked at and told as sent.
///
/// It holds the message that is still to come whole, what was read along with it, and what is still to be
/// sent of the last reply: the next message is answered once all of it was. Contracts see all that was
/// read and each message with its reply too, of which nothing is held.
#[derive(Drop)]
pub struct Buffers {
    framer: Framer,
    outbox: ReplyFrame,
    input: GhostList<u8>,
    exchanges: GhostList<Exchange>,
}

impl Model for Buffers {
    ghost use Rattle.std.specs.Prelude.{◌≡◌};
    ghost use Rattle.pb_frame.specs.Limits.{max_request_len};
    ghost use Rattle.node_session.specs.Limits.{max_read_len};
    ghost use Rattle.node_session.specs.Views.{Transcript, IsRead};

    ghost Value = { Transcript };

    ghost view = { λ s. record {
      input = s.input;
      exchanges = s.exchanges;
      rest = s.framer.rest;
      fault = s.framer.fault;
      unsent = s.outbox;
    } };

    ghost invariant = { λ s. (s.framer.limit ≡ max_request_len)
        × IsRead s.input s.exchanges s.framer.rest };
}

/// A list with a piece behind it.
struct Fed;

impl<'a> Listing<(&'a GhostList<u8>, &'a [u8]), u8> for Fed {
    ghost use Rattle.std.specs.Prelude.{◌++◌};

    ghost list = { λ pair. pair.0.now ++ pair.1.now };
}

/// A list with a message and its reply behind it.
struct Told;

impl<'a, 'b> Listing<(&'a GhostList<Exchange>, Frame<'b>, &'a GhostReply), Exchange> for Told {
    ghost use Rattle.std.specs.Prelude.{[], ◌∷◌, ◌++◌};

    ghost list = { λ it. it.0.now
        ++ record { code = it.1.code; body = it.1.body.now; reply = it.2.now } ∷ [] };
}

impl Buffers {
    /// Nothing was read yet. It takes no memory.
    pub fn new(alloc: Global) -> Buffers
        ensures { result ≡ nothing_read }
    {
        Buffers {
            framer: Framer::new(alloc, MAX_REQUEST_LEN),
            outbox: ReplyFrame::new(alloc),
            input: GhostList::new(),
            exchanges: GhostList::new(),
        }
    }

    /// How many bytes were read that are in no message that was answered.
    pub fn rest(&self) -> usize
        ensures { result ≡ length self.now.rest }
    {
        self.framer.rest()
    }

    /// A law that has nothing to run: what was read is the frames of the messages that were answered, and what is left.
    pub fn is_read(&self)
        ensures { IsRead self.now.input self.now.exchanges self.now.rest }
    {
        let _ = &self.framer;
    }

    /// Takes a piece that was read behind all others, of at most 4,096 bytes or no more than the next
    /// message lacks. Each whole message was answered before. Where memory is refused nothing changes.
    pub fn feed(&mut self, piece: &[u8]) -> Result<(), AllocError>
        requires no_fault { self.old.fault ≡ None }
        requires idle { IsPartial max_request_len self.old.rest }
        requires follows { CanFollow self.old.rest (length piece.now) }
        ensures ok { OnOk result (self.new ≡ record self.old {
          input = self.old.input ++ piece.now;
          rest = self.old.rest ++ piece.now;
        }) }
        ensures err { OnErr result (self.new ≡ self.old) }
    {
        if self.framer.feed(piece).is_err() {
            return Err(AllocError);
        }
        let longer = GhostList::listed::<(&GhostList<u8>, &[u8]), Fed>(&(&self.input, piece));
        self.input = longer;
        Ok(())
    }

    /// How many bytes the message lacks that has begun to come: 0 until its length has come.
    #[inline(always)]
    pub(crate) fn missing(&self) -> usize
        ensures { 0 < result → (4 ≤ length self.now.rest)
            × (length self.now.rest + result ≡ given_length self.now.rest + 4) }
    {
        self.framer.missing()
    }

    /// Lends it room for a piece of so many bytes.
    #[inline(always)]
    pub(crate) fn lend(&mut self, requests: &mut Vec<u8>, more: usize)
        ensures { self.new ≡ self.old }
    {
        self.framer.lend(requests, more);
    }

    /// How many bytes are to be read at once, which have room in what is lent, or as few that a page is
    /// enough for what they make longer.
    #[inline(always)]
    pub(crate) fn reading_len(&self, requests: &Vec<u8>) -> usize
        ensures { (0 < result) × (result ≤ max_read_len) }
    {
        self.framer.reading_len(requests, MAX_READ_LEN)
    }

    /// Gives the room back that was lent to it, where nothing is to be answered any more.
    #[inline(always)]
    pub(crate) fn give_back(&mut self, scratch: &mut Scratch)
        requires { self.old.unsent ≡ [] }
        ensures { self.new ≡ self.old }
    {
        if self.framer.rest() == 0 {
            scratch.take_requests(&mut self.framer);
            self.outbox.give_back(scratch);
        }
    }

    /// Takes a piece, as `feed` does, of a session whose messages a node answers: once more where memory
    /// was refused and the node made room.
    pub fn feed_for<N: Node>(
        &mut self,
        alloc: Global,
        node: &N,
        piece: &[u8],
    ) -> Result<(), AllocError>
        requires no_fault { self.old.fault ≡ None }
        requires idle { IsPartial max_request_len self.old.rest }
        requires follows { CanFollow self.old.rest (length piece.now) }
        ensures ok { OnOk result (self.new ≡ record self.old {
          input = self.old.input ++ piece.now;
          rest = self.old.rest ++ piece.now;
        }) }
        ensures err { OnErr result (self.new ≡ self.old) }
    {
        match self.feed(piece) {
            Ok(()) => Ok(()),
            Err(_) => {
                if node.make_room(alloc) {
                    return self.feed(piece);
                }
                Err(AllocError)
            }
        }
    }

    /// What is to be sent first. There is none only where nothing is to be sent.
    pub fn pending(&self) -> &[u8]
        ensures { IsFront result.now self.now.unsent }
    {
        self.outbox.next()
    }

    /// How many bytes are to be sent.
    pub fn waiting(&self) -> usize
        ensures { result ≡ length self.now.unsent }
    {
        self.outbox.len()
    }

    /// So many bytes of what is to be sent were sent.
    pub fn sent(&mut self, n: usize)
        requires { n ≤ length self.old.unsent }
        ensures { self.new ≡ record self.old { unsent = drop n self.old.unsent } }
    {
        self.outbox.sent(n);
    }

    /// Answers the next message that has come whole, by a step of the node or, where it is no request, by
    /// its error, which takes no memory. After a bad length or a lost reply there is nothing more to feed or
    /// answer.
    #[inline(always)]
    pub fn answer_next<N: Node>(
        &mut self,
        alloc: Global,
        node: &mut N,
        scratch: &mut Scratch,
    ) -> Next
        requires no_fault { self.old.fault ≡ None }
        requires sent { self.old.unsent ≡ [] }
        ensures { AnswersNext N.step node.old node.new self.old self.new result }
    {
        match self.framer.take() {
            Ok(Some(frame)) => {
                let framed = answer(
                    alloc,
                    frame.code,
                    frame.body,
                    node,
                    &mut self.outbox,
                    scratch,
                );
                scratch.count_answer(frame.code, &self.outbox);
                let told = (&self.exchanges, frame, &framed.reply);
                let longer = GhostList::listed::<
                    (&GhostList<Exchange>, Frame<'_>, &GhostReply),
                    Told,
                >(&told);
                self.exchanges = longer;
                match framed.put {
                    Ok(()) => Next::Answered,
                    Err(_) => Next::Lost,
                }
            }
            Ok(None) => Next::Idle,
            Err(fault) => {
                self.outbox.put_error(frame_fault_text(fault));
                scratch.count_answer(NO_CODE, &self.outbox);
                Next::BadFrame
            }
        }
    }

    /// Gives back the room that was lent to a session that is over.
    pub(crate) fn end(self, scratch: &mut Scratch) {
        let Buffers {
            framer,
            outbox,
            input: _,
            exchanges: _,
        } = self;
        scratch.take_all(framer, outbox.into_frame());
    }
}

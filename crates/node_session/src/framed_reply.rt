//! A reply that was put in its frame.

ghost use Rattle.std.specs.Prelude.{◌≡◌, [], true, Err};
ghost use Rattle.riak_msgs.specs.declared.reply.Reply.TheVariants.{Error, Get};
ghost use Rattle.node_session.specs.Unsent.{PutsReply, first_reply};

use crate::reply_frame::ReplyFrame;
use crate::scratch::Scratch;
use ghost_state::{GhostList, Listing};
use pb_frame::FrameFault;
use riak_msgs::{Reply, Text};
use std::marker::Model;
use vnode_core::StoredReply;

/// A reply that clauses alone read: there are no bytes of it, whatever it shows.
#[derive(Drop)]
pub struct GhostReply {
    held: GhostList<Reply>,
}

impl Model for GhostReply {
    ghost use Rattle.riak_msgs.specs.declared.reply.Reply.{Reply};
    ghost use Rattle.node_session.specs.Unsent.{first_reply};

    ghost Value = { Reply };

    ghost view = { λ reply. first_reply reply.held };
}

/// A reply itself.
struct Itself;

impl Listing<Reply, Reply> for Itself {
    ghost use Rattle.std.specs.Prelude.{[], ◌∷◌};

    ghost list = { λ reply. reply ∷ [] };
}

/// The error of a text.
struct ErrorOf;

impl Listing<Text, Reply> for ErrorOf {
    ghost use Rattle.std.specs.Prelude.{[], ◌∷◌};
    ghost use Rattle.riak_msgs.specs.declared.reply.Reply.TheVariants.{Error};

    ghost list = { λ text. Error text ∷ [] };
}

/// The reply to a get of what is shown.
struct GetOf;

impl<'a> Listing<StoredReply<'a>, Reply> for GetOf {
    ghost use Rattle.std.specs.Prelude.{[], ◌∷◌};
    ghost use Rattle.riak_msgs.specs.declared.reply.Reply.TheVariants.{Get};

    ghost list = { λ shown. Get shown ∷ [] };
}

impl GhostReply {
    /// The first reply that a listing names of a value.
    #[inline(always)]
    fn named<X, M: Listing<X, Reply>>(about: &X) -> GhostReply
        ensures { result ≡ first_reply (M.list about.now) }
    {
        GhostReply {
            held: GhostList::listed::<X, M>(about),
        }
    }

    /// This reply.
    #[inline(always)]
    fn of(reply: &Reply) -> GhostReply
        ensures { result ≡ reply.now }
    {
        GhostReply::named::<Reply, Itself>(reply)
    }

    /// The error of this text.
    #[inline(always)]
    fn of_error(text: Text) -> GhostReply
        ensures { result ≡ Error text }
    {
        GhostReply::named::<Text, ErrorOf>(&text)
    }

    /// The reply to a get of what is shown.
    #[inline(always)]
    fn of_stored(shown: &StoredReply<'_>) -> GhostReply
        ensures { result ≡ Get shown.now }
    {
        GhostReply::named::<StoredReply<'_>, GetOf>(shown)
    }
}

/// A reply, as clauses see it, and whether it was put in its frame, or is lost.
#[derive(Drop)]
pub struct FramedReply {
    /// The reply.
    pub reply: GhostReply,
    /// Why it has no frame, where it has none.
    pub put: Result<(), FrameFault>,
}

impl FramedReply {
    /// Whether it is lost since memory was refused.
    #[inline(always)]
    pub fn is_refused(&self) -> bool
        ensures lost { result ≡ true → self.now.put ≡ Err FrameFault.NoMemory }
        ensures told { self.now.put ≡ Err FrameFault.NoMemory → result ≡ true }
    {
        match self.put {
            Err(FrameFault::NoMemory) => true,
            Ok(()) | Err(FrameFault::Empty | FrameFault::TooLarge) => false,
        }
    }
}

/// Puts the frame of a reply where nothing else is to be sent.
#[inline(always)]
pub fn put_reply(reply: &Reply, out: &mut ReplyFrame, scratch: &mut Scratch) -> FramedReply
    requires { out.old ≡ [] }
    ensures reply { result.reply ≡ reply.now }
    ensures put { PutsReply reply.now out.new result.put }
{
    FramedReply {
        reply: GhostReply::of(reply),
        put: out.put(reply, scratch),
    }
}

/// Puts the frame of a reply, and lets it go.
#[inline(always)]
pub(crate) fn put_whole(reply: Reply, out: &mut ReplyFrame, scratch: &mut Scratch) -> FramedReply
    requires { out.old ≡ [] }
    ensures reply { result.reply ≡ reply }
    ensures put { PutsReply reply out.new result.put }
{
    put_reply(&reply, out, scratch)
}

/// Puts the frame of an error. It takes no memory.
#[inline(always)]
pub fn put_error(text: Text, out: &mut ReplyFrame) -> FramedReply
    ensures reply { result.reply ≡ Error text }
    ensures put { PutsReply (Error text) out.new result.put }
{
    out.put_error(text);
    FramedReply {
        reply: GhostReply::of_error(text),
        put: Ok(()),
    }
}

/// Puts the frame of the reply to a get, from where it lies, where nothing else is to be sent.
#[inline(always)]
pub fn put_stored(
    shown: &StoredReply<'_>,
    out: &mut ReplyFrame,
    scratch: &mut Scratch,
) -> FramedReply
    requires { out.old ≡ [] }
    ensures reply { result.reply ≡ Get shown.now }
    ensures put { PutsReply (Get shown.now) out.new result.put }
{
    FramedReply {
        reply: GhostReply::of_stored(shown),
        put: out.put_stored(shown, scratch),
    }
}

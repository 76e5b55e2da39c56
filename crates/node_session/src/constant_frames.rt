//! The encoded replies that take no memory.

ghost use Rattle.std.specs.Prelude.{◌≡◌, IfSome, IfNone};
ghost use Rattle.riak_msgs.specs.declared.reply.Reply.TheVariants.{Error, Get, Put};
ghost use Rattle.vnode_core.specs.Replies.{nothing};
ghost use Rattle.node_session.specs.Answers.{reply_frame, IsFramed, IsNoError};

use riak_msgs::{GetReply, PutReply, Reply, Text};

/// All errors.
const ERRORS: [Text; 18] = [
    Text::UnknownCode,
    Text::BadMessage,
    Text::MissingField,
    Text::EmptyName,
    Text::NoKey,
    Text::NoMemory,
    Text::MatchFound,
    Text::Modified,
    Text::NotFound,
    Text::BadContext,
    Text::TooManySiblings,
    Text::ClockFull,
    Text::EpochsUsedUp,
    Text::CounterUsedUp,
    Text::Moved,
    Text::HistoryFull,
    Text::BadFrame,
    Text::FrameTooLarge,
];

/// The place of the message code in a frame, and the code of an error.
const CODE_PLACE: usize = 4;

const ERROR_CODE: u8 = 0;

/// The error whose frame this is, if it is one's.
#[inline(always)]
pub(crate) fn error_in(frame: &[u8]) -> Option<Text> {
    match frame.get(CODE_PLACE) {
        Some(code) if *code == ERROR_CODE => error_named(frame),
        _ => None,
    }
}

/// The error that has just this frame.
fn error_named(frame: &[u8]) -> Option<Text> {
    for text in ERRORS {
        if error_frame(text) == frame {
            return Some(text);
        }
    }
    None
}

/// The frame of an error reply. It takes no memory, so that `no memory` can always be answered.
#[tactic(auto, unfolding(pb_frame::specs::Message::frame, riak_msgs::specs::Encoding::varint_encoding, riak_msgs::specs::Encoding::varint_encoded))]
pub(crate) fn error_frame(text: Text) -> &'static [u8]
    ensures frame { result.now ≡ reply_frame (Error text) }
    ensures framed { IsFramed (Error text) }
{
    match text {
        Text::UnknownCode => b"\0\0\0\x19\0\x0a\x14unknown message code\x10\x01",
        Text::BadMessage => b"\0\0\0\x10\0\x0a\x0bbad message\x10\x01",
        Text::MissingField => b"\0\0\0\x12\0\x0a\x0dmissing field\x10\x01",
        Text::EmptyName => b"\0\0\0\x0f\0\x0a\x0aempty name\x10\x01",
        Text::NoKey => b"\0\0\0\x11\0\x0a\x0ckey required\x10\x01",
        Text::NoMemory => b"\0\0\0\x0e\0\x0a\x09no memory\x10\x01",
        Text::MatchFound => b"\0\0\0\x10\0\x0a\x0bmatch_found\x10\x01",
        Text::Modified => b"\0\0\0\x0d\0\x0a\x08modified\x10\x01",
        Text::NotFound => b"\0\0\0\x0d\0\x0a\x08notfound\x10\x01",
        Text::BadContext => b"\0\0\0\x10\0\x0a\x0bbad context\x10\x01",
        Text::TooManySiblings => b"\0\0\0\x16\0\x0a\x11too many siblings\x10\x01",
        Text::ClockFull => b"\0\0\0\x0f\0\x0a\x0aclock full\x10\x01",
        Text::EpochsUsedUp => b"\0\0\0\x13\0\x0a\x0eepochs used up\x10\x01",
        Text::CounterUsedUp => b"\0\0\0\x14\0\x0a\x0fcounter used up\x10\x01",
        Text::Moved => b"\0\0\0\x0a\0\x0a\x05moved\x10\x01",
        Text::HistoryFull => b"\0\0\0\x11\0\x0a\x0chistory full\x10\x01",
        Text::BadFrame => b"\0\0\0\x0e\0\x0a\x09bad frame\x10\x01",
        Text::FrameTooLarge => b"\0\0\0\x14\0\x0a\x0fframe too large\x10\x01",
    }
}

/// The frame of a get's reply that shows nothing.
#[inline(always)]
#[tactic(auto, unfolding(pb_frame::specs::Message::frame))]
pub(crate) fn nothing_frame() -> &'static [u8]
    ensures frame { result.now ≡ reply_frame (Get nothing) }
    ensures framed { IsFramed (Get nothing) }
{
    b"\0\0\0\x01\x0a"
}

/// The same, where a reply shows nothing.
#[inline(always)]
fn empty_get_frame(reply: &GetReply) -> Option<&'static [u8]>
    ensures { IfSome result (λ frame. (frame.now ≡ reply_frame (Get reply.now))
        × IsFramed (Get reply.now)) }
{
    if reply.contents.is_empty() && reply.context.is_empty() && !reply.unchanged {
        return Some(nothing_frame());
    }
    None
}

/// The frame of a put's reply that shows nothing.
#[inline(always)]
#[tactic(auto, unfolding(pb_frame::specs::Message::frame))]
fn empty_put_frame(reply: &PutReply) -> Option<&'static [u8]>
    ensures { IfSome result (λ frame. (frame.now ≡ reply_frame (Put reply.now))
        × IsFramed (Put reply.now)) }
{
    if reply.contents.is_empty() && reply.context.is_empty() {
        return Some(b"\0\0\0\x01\x0c");
    }
    None
}

/// The frame of a reply that takes no memory: of an error, a ping, a delete, and of a get or put that shows nothing.
#[inline(always)]
#[tactic(auto, unfolding(pb_frame::specs::Message::frame))]
pub(crate) fn constant_frame(reply: &Reply) -> Option<&'static [u8]>
    ensures frame { IfSome result (λ frame. frame.now ≡ reply_frame reply.now) }
    ensures framed { IfSome result (λ _. IsFramed reply.now) }
    ensures other { IfNone result (IsNoError reply.now) }
{
    match reply {
        Reply::Error(text) => Some(error_frame(*text)),
        Reply::Ping => Some(b"\0\0\0\x01\x02"),
        Reply::Get(reply) => empty_get_frame(reply),
        Reply::Put(reply) => empty_put_frame(reply),
        Reply::Del => Some(b"\0\0\0\x01\x0e"),
    }
}

//! What is written is read again.

ghost use Rattle.std.specs.Prelude.{◌^◌, ◌<◌, length, Ok};
ghost use Rattle.riak_msgs.specs.Reading.{Decodes};
ghost use Rattle.riak_msgs.specs.ReadingReplies.{DecodesReply};
ghost use Rattle.riak_msgs.specs.Replies.{reply_body, reply_code};
ghost use Rattle.riak_msgs.specs.Requests.{HasNames, request_body, request_code};
ghost use Rattle.riak_msgs.specs.declared.reply.Reply.{Reply};
ghost use Rattle.riak_msgs.specs.declared.request.Request.{Request};

/// A law: the encoding of a request whose names have bytes decodes to this request.
///
/// Its body is shorter than 2^64 bytes, so that each length in it has a varint.
pub fn requests_are_read_again()
    ensures { (q : Request) → HasNames q → length (request_body q) < 2 ^ 64
        → Decodes (request_code q) (request_body q) (Ok q) }
{}

/// A law: the encoding of a reply decodes to this reply.
///
/// Its body is shorter than 2^64 bytes, so that each length in it has a varint.
pub fn replies_are_read_again()
    ensures { (r : Reply) → length (reply_body r) < 2 ^ 64
        → DecodesReply (reply_code r) (reply_body r) (Ok r) }
{}

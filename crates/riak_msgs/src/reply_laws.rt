//! What holds of replies.

ghost use Rattle.std.specs.Prelude.{◌≡◌, ℕ, List, Result};
ghost use Rattle.riak_msgs.specs.declared.fault.MsgFault.{MsgFault};
ghost use Rattle.riak_msgs.specs.declared.reply.Reply.{Reply};
ghost use Rattle.riak_msgs.specs.ReadingReplies.{DecodesReply};

/// A law: a message decodes to one reply, or to one fault.
pub fn replies_say_one()
    ensures { (code : ℕ) (body : List ℕ) (a b : Result Reply MsgFault) → DecodesReply code body a
        → DecodesReply code body b → a ≡ b }
{}

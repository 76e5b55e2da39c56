//! What holds of messages and of keys.

ghost use Rattle.std.specs.Prelude.{◌≡◌, ℕ, List, Result};
ghost use Rattle.riak_msgs.specs.KeyOrder.{key_cmp};
ghost use Rattle.riak_msgs.specs.declared.key.Key.{Key};
ghost use Rattle.riak_msgs.specs.declared.request.Request.{Request};
ghost use Rattle.riak_msgs.specs.declared.fault.MsgFault.{MsgFault};
ghost use Rattle.riak_msgs.specs.Reading.{Decodes};

/// A law: a message decodes to one request, or to one fault.
pub fn messages_say_one()
    ensures { (code : ℕ) (body : List ℕ) (a b : Result Request MsgFault) → Decodes code body a
        → Decodes code body b → a ≡ b }
{}

/// A law: keys are ordered by bucket type, then by bucket, then by key, each by its bytes.
pub fn keys_are_ordered()
    ensures { (a b : Key) → ⟦<crate::key::Key as Ord>⟧.cmp a b ≡ key_cmp a b }
{}

//! The reply to a get, encoded from where its parts lie.

ghost use Rattle.std.specs.Prelude.{◌≡◌, [], ◌∷◌, true, OnOk};
ghost use Rattle.actor_epoch.specs.Contexts.{encoding, entry_bytes};
ghost use Rattle.actor_epoch.specs.Entries.{entry_of};
ghost use Rattle.actor_epoch.specs.declared.version.Version.TheVariants.{Two};
ghost use Rattle.riak_msgs.specs.Encoding.{bytes_field, context_field, repeated_field};
ghost use Rattle.riak_msgs.specs.Encoding.{shown_message};
ghost use Rattle.riak_msgs.specs.Requests.{unconditional_get};
ghost use Rattle.riak_msgs.specs.declared.key.Key.{Key};
ghost use Rattle.clock_store.specs.Keys.{stored_of};
ghost use Rattle.std.specs.List.{flat_map};
ghost use Rattle.vnode_core.specs.Replies.{nothing, unchanged, shown_siblings, shown_context};
ghost use Rattle.vnode_core.specs.Replies.{siblings_of};

use crate::replies::{is_shown_by, only_pair};
use actor_epoch::{Actor, Context, Counter};
use clock_store::StoredClock;
use riak_msgs::{GetAsk, Message, Output, ShownSibling, encode_message};
use std::alloc::AllocError;
use std::marker::Model;

/// The first byte of a context.
const CONTEXT_VERSION: &[u8] = &[2];

/// The field of a context of one pair, but for the pair: its key, its length, and the context's first byte.
const PAIR_FIELD: [u8; 23] = [
    18, 21, 2, 0, 0, 0, 0, 0, 0, 0, 0, 0, 0, 0, 0, 0, 0, 0, 0, 0, 0, 0, 0,
];

/// The reply to a get, of which nothing is copied: it is encoded from where the siblings and the clock of
/// the key lie. Contracts see the reply.
///
/// Of a key with the one sibling "v", written once in the first life at vnode 65,536, the encoding is `0a
/// 03 0a 01 76`, "v" as a field of a content that is a field of the reply, and behind it `12 15` and the
/// 21 bytes of the context.
#[derive(Drop)]
pub struct StoredReply<'a> {
    siblings: Option<&'a StoredClock>,
    is_bare: bool,
    context: Option<&'a StoredClock>,
    unchanged: bool,
}

impl<'a> Model for StoredReply<'a> {
    ghost use Rattle.riak_msgs.specs.declared.GetReply.{GetReply};
    ghost use Rattle.vnode_core.specs.Replies.{shown_siblings, shown_context};

    ghost Value = { GetReply };

    ghost view = { λ r. record {
      contents = shown_siblings r.is_bare r.siblings;
      context = shown_context r.context;
      unchanged = r.unchanged;
    } };
}

impl<'a> StoredReply<'a> {
    /// Shows nothing.
    #[inline(always)]
    pub(crate) fn nothing() -> StoredReply<'a>
        ensures { result ≡ nothing }
    {
        StoredReply {
            siblings: None,
            is_bare: false,
            context: None,
            unchanged: false,
        }
    }

    /// Shows that nothing changed.
    #[inline(always)]
    fn unchanged() -> StoredReply<'a>
        ensures { result ≡ unchanged }
    {
        StoredReply {
            siblings: None,
            is_bare: false,
            context: None,
            unchanged: true,
        }
    }

    /// The answer to a get of a stored key.
    #[inline(always)]
    pub(crate) fn of(key: &'a StoredClock, ask: &GetAsk) -> StoredReply<'a>
        ensures { result ≡ siblings_of (stored_of key.now) ask.now }
    {
        if !key.has_value() {
            let mut reply = StoredReply::nothing();
            if ask.deletedvclock {
                reply.context = Some(key);
            }
            return reply;
        }
        if is_shown_by(key, ask.if_modified.as_slice()) {
            return StoredReply::unchanged();
        }
        StoredReply {
            siblings: Some(key),
            is_bare: ask.head,
            context: Some(key),
            unchanged: false,
        }
    }

    /// The answer to a get of a stored key without options.
    #[inline(always)]
    #[tactic(auto, unfolding(actor_epoch::specs::Given::context_of))]
    pub(crate) fn whole(key: &'a StoredClock) -> StoredReply<'a>
        ensures { (name : Key) → result
            ≡ siblings_of (stored_of key.now) (unconditional_get name) }
    {
        if !key.has_value() {
            return StoredReply::nothing();
        }
        StoredReply {
            siblings: Some(key),
            is_bare: false,
            context: Some(key),
            unchanged: false,
        }
    }

    /// Whether it shows nothing.
    #[inline(always)]
    pub fn is_empty(&self) -> bool
        ensures { result ≡ true → self.now ≡ nothing }
    {
        self.siblings.is_none() && self.context.is_none() && !self.unchanged
    }
}

/// Encodes a key's siblings as a reply shows them, where it shows any.
#[inline(always)]
fn encode_siblings<O: Output>(
    out: &mut O,
    key: Option<&StoredClock>,
    is_bare: bool,
) -> Result<(), AllocError>
    ensures { OnOk result (O.appends out.old
        (repeated_field shown_message 1 (shown_siblings is_bare key.entry)) out.new) }
{
    let Some(key) = key else {
        return Ok(());
    };
    for sibling in key.clock.values() {
        encode_message(out, 1, &ShownSibling { sibling, is_bare })?;
    }
    Ok(())
}

/// Encodes the pairs of a key's context one behind another.
#[inline(always)]
fn encode_pairs<O: Output>(out: &mut O, key: &StoredClock) -> Result<(), AllocError>
    ensures { OnOk result (O.appends out.old
        (flat_map (entry_bytes Two) key.now.clock.meaning.known) out.new) }
{
    for pair in key.clock.join() {
        out.append_encoded(&Context::pair_bytes(pair.0, pair.1))?;
    }
    Ok(())
}

/// The context of a key.
#[derive(Clone, Copy)]
struct KnownContext<'a> {
    key: &'a StoredClock,
}

impl<'a> Message for KnownContext<'a> {
    ghost use Rattle.actor_epoch.specs.Contexts.{encoding};

    ghost encoding = { λ c. encoding c.key.now.clock.meaning.known };

    fn encode<O: Output>(&self, out: &mut O) -> Result<(), AllocError> {
        out.append_encoded(CONTEXT_VERSION)?;
        encode_pairs(out, self.key)?;
        Ok(())
    }
}

/// The field of a context of one pair.
#[inline(always)]
#[tactic(auto, unfolding(riak_msgs::specs::Encoding::varint_encoding, riak_msgs::specs::Encoding::varint_encoded))]
fn pair_field(actor: Actor, counter: Counter) -> [u8; 23]
    ensures { result ≡ bytes_field 2 (encoding (entry_of (actor, counter) ∷ [])) }
{
    let mut field = PAIR_FIELD;
    field[3..].copy_from_slice(&Context::pair_bytes(actor, counter));
    field
}

/// Encodes a key's context, where it is shown. That of one pair, as most have, is appended at once.
#[inline(always)]
fn encode_known<O: Output>(out: &mut O, key: Option<&StoredClock>) -> Result<(), AllocError>
    ensures { OnOk result
        (O.appends out.old (context_field 2 (shown_context key.entry)) out.new) }
{
    let Some(key) = key else {
        return Ok(());
    };
    match only_pair(&key.clock) {
        Some((actor, counter)) => out.append_encoded(&pair_field(actor, counter)),
        None => encode_message(out, 2, &KnownContext { key }),
    }
}

impl<'a> Message for StoredReply<'a> {
    ghost use Rattle.riak_msgs.specs.Replies.{get_reply_body};

    ghost encoding = { get_reply_body };

    #[inline(always)]
    fn encode<O: Output>(&self, out: &mut O) -> Result<(), AllocError> {
        encode_siblings(out, self.siblings, self.is_bare)?;
        encode_known(out, self.context)?;
        out.encode_bool(3, self.unchanged)
    }
}

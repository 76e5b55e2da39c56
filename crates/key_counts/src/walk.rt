//! The keys of a vnode, one behind another, without memory.

ghost use Rattle.std.specs.Prelude.{◌≡◌, IfOk, Some};
ghost use Rattle.std.specs.Option.{option_map};
ghost use Rattle.riak_msgs.specs.KeyOrder.{key_cmp};
ghost use Rattle.names.specs.KeyRefs.{key_found, name_of};
ghost use Rattle.names.specs.Behind.{next_entry};
ghost use Rattle.vnode_core.specs.Left.{stored_of};
ghost use Rattle.key_counts.specs.Walk.{IsOwnOf, reached};

use names::Name;
use riak_msgs::{Bytes, Key};
use std::alloc::{AllocError, Global};
use vnode_core::{FoundKey, KeyRef, StoredClock, Vnode, given_parts};

/// The bytes of a short name, which lie nowhere else and take no memory; none where it is a longer one.
fn own_bytes(alloc: Global, name: &Name<'_>) -> Result<Bytes, AllocError>
    ensures { IfOk result (IsOwnOf name.now) }
{
    match name {
        Name::Short(short) => (*short).to_bytes(alloc),
        Name::Bytes(_) => Ok(Bytes::new(alloc)),
    }
}

/// The bytes of a name: its own where it is short, and else where they lie.
fn lend<'a>(name: &'a Name<'a>, own: &'a Bytes) -> &'a Bytes
    requires { IsOwnOf name.now own.now }
    ensures { result.now ≡ name_of name.now }
{
    match name {
        Name::Short(_) => own,
        Name::Bytes(bytes) => *bytes,
    }
}

/// The least key behind one that was found, with its clock. It takes no memory.
fn next_behind<'a>(
    alloc: Global,
    vnode: &'a Vnode,
    found: &FoundKey<'_>,
) -> Result<Option<(FoundKey<'a>, &'a StoredClock)>, AllocError>
    ensures { IfOk result (λ next. option_map (λ e. (key_found e.0, stored_of e.1.now)) next
        ≡ next_entry key_cmp (Some (key_found found.now)) vnode.now.state.keys) }
{
    let bucket = own_bytes(alloc, &found.bucket)?;
    let key = own_bytes(alloc, &found.key)?;
    let parts = KeyRef {
        bucket_type: found.bucket_type,
        bucket: lend(&found.bucket, &bucket),
        key: lend(&found.key, &key),
    };
    Ok(vnode.next_key(Some(parts)))
}

/// The next key of a walk that began behind a key, or at the first where none is given, with its clock: the least one
/// behind what was found last, or where the walk began. It takes no memory.
pub(crate) fn next_key<'a>(
    alloc: Global,
    vnode: &'a Vnode,
    began: Option<&Key>,
    found: &Option<FoundKey<'_>>,
) -> Result<Option<(FoundKey<'a>, &'a StoredClock)>, AllocError>
    ensures { IfOk result (λ next. option_map (λ e. (key_found e.0, stored_of e.1.now)) next
        ≡ next_entry key_cmp (reached (option_map (λ k. k.now) began.entry) found.now)
        vnode.now.state.keys) }
{
    match found {
        None => Ok(vnode.next_key(given_parts(began))),
        Some(found) => next_behind(alloc, vnode, found),
    }
}

//! What the register remembers of each key.

ghost use Rattle.std.specs.Prelude.{◌≡◌, IsSome, OnOk, OnErr};
ghost use Rattle.std.specs.BTreeMap.{get};
ghost use Rattle.riak_msgs.specs.declared.key.Key.{Key};
ghost use Rattle.riak_msgs.specs.KeyOrder.{key_cmp};
ghost use Rattle.sibling_register.specs.Index.{AreSameAt, IsNotedAt};

use crate::entry::Entry;
use crate::key_index::KeyIndex;
use riak_msgs::Key;
use std::alloc::{AllocError, Global};
use std::collections::BTreeMap;

/// Gives a key an index, where it has none. Refused where memory is; nothing that is remembered changes.
fn add_key(keys: &mut BTreeMap<Key, KeyIndex>, alloc: Global, key: &Key) -> Result<(), AllocError>
    ensures same { (other : Key) → AreSameAt keys.old keys.new other }
    ensures ok { OnOk result (IsSome (get key_cmp keys.new key.now)) }
{
    if keys.contains_key(key) {
        return Ok(());
    }
    let own = key.clone(alloc)?;
    match keys.insert(own, KeyIndex::new(alloc)) {
        Ok(_) => Ok(()),
        Err(_) => Err(AllocError),
    }
}

/// Adds an entry, which stands at this place of the list. Refused where memory is; then nothing that is
/// remembered changes.
pub(crate) fn note<V>(
    keys: &mut BTreeMap<Key, KeyIndex>,
    alloc: Global,
    entry: &Entry<V>,
    place: usize,
) -> Result<(), AllocError>
    ensures ok { OnOk result ((other : Key) → IsNotedAt entry.now place keys.old keys.new other) }
    ensures err { OnErr result ((other : Key) → AreSameAt keys.old keys.new other) }
{
    add_key(keys, alloc, &entry.key)?;
    match keys.get_mut(&entry.key) {
        None => unreachable!(),
        Some(index) => index.add(alloc, entry, place),
    }
}

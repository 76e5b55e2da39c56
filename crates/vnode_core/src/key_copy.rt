//! A key with its clock, as one vnode hands it to another.

ghost use Rattle.std.specs.Prelude.{◌≡◌, IfOk};
ghost use Rattle.vnode_machine.specs.Copying.{IsStoredClock};
ghost use Rattle.clock_store.specs.KeyRefs.{key_in};

use crate::event::VnodeEvent;
use clock_store::{KeyRef, StoredClock};
use dvv_set::{Clock, CloneValue};
use ghost_state::GhostList;
use riak_msgs::{Content, Key};
use std::alloc::{AllocError, Global};
use std::marker::Model;

/// A key, and the clock that it had at a fallback: what a copy back brings to the primary. It lies behind
/// one pointer, so that a command that may be one moves no more bytes for it. For clauses alone it has
/// the commands that the fallback had accepted by then.
pub struct KeyCopy {
    parts: Box<CopyParts>,
    prefix: GhostList<VnodeEvent>,
}

/// What is copied.
#[derive(Drop)]
struct CopyParts {
    key: Key,
    clock: Clock<Option<Content>>,
    diversion: u32,
}

/// One call at each place where one is let go.
impl Drop for KeyCopy {
    fn drop(self) {
        let KeyCopy {
            parts: _parts,
            prefix: _prefix,
        } = self;
    }
}

impl Model for KeyCopy {
    ghost use Rattle.vnode_machine.specs.Copying.{IsStoredClock};
    ghost use Rattle.vnode_core.specs.KeyCopies.{KeyCopyView};

    ghost Value = { KeyCopyView };

    ghost view = { λ c. record {
      key = c.parts.value.key;
      clock = c.parts.value.clock.meaning;
      diversion = c.parts.value.diversion;
      prefix = c.prefix;
    } };

    ghost invariant = { λ c. IsStoredClock c.parts.value.clock.meaning };
}

/// Clones the siblings of a clock (`Clock::try_clone`): each clone is one owner more of its content's bytes.
pub struct CloneSibling;

impl CloneValue<Option<Content>> for CloneSibling {
    fn clone_value(
        sibling: &Option<Content>,
        _alloc: Global,
    ) -> Result<Option<Content>, AllocError> {
        match sibling {
            None => Ok(None),
            Some(content) => Ok(Some(content.clone()?)),
        }
    }
}

impl KeyCopy {
    /// A copy of a key and of its clock, as it is held at the fallback of this diversion. Refused where memory is.
    pub fn of(
        alloc: Global,
        key: KeyRef<'_>,
        stored: &StoredClock,
        diversion: u32,
        prefix: GhostList<VnodeEvent>,
    ) -> Result<KeyCopy, AllocError>
        requires { IsStoredClock stored.now.clock.meaning }
        ensures key { IfOk result (λ copy. copy.key ≡ key_in key.entry) }
        ensures clock { IfOk result (λ copy. copy.clock ≡ stored.now.clock.meaning) }
        ensures diversion { IfOk result (λ copy. copy.diversion ≡ diversion) }
        ensures prefix { IfOk result (λ copy. copy.prefix ≡ prefix) }
    {
        let clock = stored.clock.try_clone::<CloneSibling>(alloc)?;
        let key = key.to_key(alloc)?;
        let parts = Box::new(
            alloc,
            CopyParts {
                key,
                clock,
                diversion,
            },
        )?;
        Ok(KeyCopy { parts, prefix })
    }

    /// The key.
    pub fn key(&self) -> &Key
        ensures { result.now ≡ self.now.key }
    {
        &self.parts.key
    }

    /// The clock that it had.
    pub fn clock(&self) -> &Clock<Option<Content>>
        ensures meaning { result.now.meaning ≡ self.now.clock }
        ensures form { IsStoredClock self.now.clock }
    {
        &self.parts.clock
    }

    /// The key and the clock themselves.
    pub fn into_parts(self) -> (Key, Clock<Option<Content>>)
        ensures key { result.0 ≡ self.key }
        ensures clock { result.1.meaning ≡ self.clock }
    {
        let KeyCopy {
            parts,
            prefix: _prefix,
        } = self;
        let CopyParts { key, clock, .. } = Box::into_inner(parts);
        (key, clock)
    }
}

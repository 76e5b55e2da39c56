//! The pairs of a context, one after another.

ghost use Rattle.std.specs.Prelude.{◌≡◌, ◌≤◌, length};
ghost use Rattle.actor_epoch.specs.Versions.{entry_len};
ghost use Rattle.actor_epoch.specs.Entries.{entry_in};

use crate::actor::Actor;
use crate::dot::Dot;
use crate::limits::Counter;
use crate::version::Version;
use byteorder::{BigEndian, ByteOrder};
use std::marker::Model;

/// The pairs of a context that are still to come, in their order. Contracts see the list of them.
#[derive(Drop)]
pub struct ContextPairs<'a> {
    pub(crate) version: Version,
    pub(crate) count: usize,
    pub(crate) entries: &'a [u8],
}

impl<'a> Model for ContextPairs<'a> {
    ghost use Rattle.std.specs.Prelude.{◌≡◌, List, ◌*◌, length};
    ghost use Rattle.actor_epoch.specs.declared.dot.Dot.{Dot};
    ghost use Rattle.actor_epoch.specs.Versions.{entry_len};
    ghost use Rattle.actor_epoch.specs.Entries.{entries_in};

    ghost Value = { List Dot };

    ghost view = { λ p. entries_in p.version p.count p.entries.now };

    ghost invariant = { λ p. length p.entries.now ≡ entry_len p.version * p.count };
}

impl ContextPairs<'_> {
    /// How many are still to come.
    #[inline(always)]
    pub fn len(&self) -> usize
        ensures { result ≡ length self.now }
    {
        self.count
    }
}

impl<'a> Iterator for ContextPairs<'a> {
    type Item = (Actor, Counter);

    ghost use Rattle.std.specs.Prelude.{length};
    ghost use Rattle.std.specs.Iterator.{YieldsFirstBy, at_most};
    ghost use Rattle.actor_epoch.specs.Entries.{entry_of};

    ghost next_gives = { YieldsFirstBy entry_of (λ p. p) };

    ghost remaining = { λ p. at_most (length p) };

    #[inline(always)]
    fn next(&mut self) -> Option<(Actor, Counter)> {
        if self.count == 0 {
            return None;
        }
        let entry = entry_at(self.version, self.entries);
        let (_, rest) = self.entries.split_at(self.version.entry_len());
        self.entries = rest;
        self.count -= 1;
        Some((entry.actor, entry.counter))
    }
}

/// The pair in the first bytes.
#[inline(always)]
fn entry_at(version: Version, entries: &[u8]) -> Dot
    requires { entry_len version ≤ length entries.now }
    ensures { result ≡ entry_in version entries.now }
{
    let vnode = BigEndian::read_u64(entries);
    let epoch = BigEndian::read_u32(&entries[8..]);
    let counter = version.counter_at(&entries[12..]);
    Dot {
        actor: Actor { vnode, epoch },
        counter,
    }
}

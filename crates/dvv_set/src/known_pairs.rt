//! The pairs of a clock, one after another.

use crate::entry::Entry;
use actor_epoch::{Actor, Counter};
use std::marker::Model;

/// The pairs (actor, n) of a clock that are still to come, by rising actor. Contracts see the list of them.
#[derive(Drop)]
pub struct KnownPairs<'a, V> {
    pub(crate) entries: &'a [Entry<V>],
}

impl<'a, V> Model for KnownPairs<'a, V> {
    ghost use Rattle.std.specs.Prelude.{List};
    ghost use Rattle.actor_epoch.specs.declared.Dot.{Dot};
    ghost use Rattle.dvv_set.specs.ClockEntries.{known_of};
    ghost use Rattle.dvv_set.specs.Stored.{clock_entries};

    ghost Value = { List Dot };

    ghost view = { λ j. known_of (clock_entries j.entries.now) };
}

impl<'a, V> Iterator for KnownPairs<'a, V> {
    type Item = (Actor, Counter);

    ghost use Rattle.std.specs.Prelude.{length};
    ghost use Rattle.std.specs.Iterator.{YieldsFirstBy, at_most};
    ghost use Rattle.actor_epoch.specs.Entries.{entry_of};

    ghost next_gives = { YieldsFirstBy entry_of (λ p. p) };

    ghost remaining = { λ p. at_most (length p) };

    fn next(&mut self) -> Option<(Actor, Counter)> {
        let (entry, rest) = self.entries.split_first()?;
        self.entries = rest;
        Some((entry.pair.actor(), entry.pair.counter))
    }
}

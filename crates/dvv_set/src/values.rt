//! The values of a clock, one after another.

use crate::entry::Entry;
use std::marker::Model;

/// What a proof knows of a type behind references: whether an entry of its values fits in memory, as is so wherever one
/// exists. It asks nothing of the type.
pub trait InMemory {
    ghost use Rattle.std.specs.Mem.{FitsInMemory};
    ghost use Rattle.dvv_set.specs.contracts.entry.Entry.{the_row};

    ghost fits: { Type 0 };

    ghost fits_gives: { fits → FitsInMemory (the_row Self.row) };
}

impl<V> InMemory for V {
    ghost use Rattle.std.specs.Mem.{FitsInMemory};
    ghost use Rattle.dvv_set.specs.contracts.entry.Entry.{the_row};

    ghost fits = { FitsInMemory (the_row V.row) };

    ghost fits_gives = { λ fits. fits };
}

/// The values of a clock that are still to come: by rising actor, newest first in each. Contracts see the list of them.
#[derive(Drop)]
pub struct Values<'a, V: InMemory> {
    pub(crate) first: &'a [V],
    pub(crate) entries: &'a [Entry<V>],
}

impl<'a, V: InMemory> Model for Values<'a, V> {
    ghost use Rattle.std.specs.Prelude.{List, ◌++◌};
    ghost use Rattle.dvv_set.specs.Stored.{values_in};

    ghost Value = { List V };

    ghost view = { λ v. v.first.now ++ values_in v.entries.now };

    ghost invariant = { λ v. V.fits };
}

impl<'a, V: InMemory> Iterator for Values<'a, V> {
    type Item = &'a V;

    ghost use Rattle.std.specs.Prelude.{length};
    ghost use Rattle.std.specs.Iterator.{YieldsFirstRef, at_most};

    ghost next_gives = { YieldsFirstRef (λ v. v) };

    ghost remaining = { λ v. at_most (length v) };

    fn next(&mut self) -> Option<&'a V> {
        loop {
            if let Some((value, rest)) = self.first.split_first() {
                self.first = rest;
                return Some(value);
            }
            let (entry, rest) = self.entries.split_first()?;
            self.first = &entry.values;
            self.entries = rest;
        }
    }
}

//! What the register remembers of a key beside the list of accepted commands.

ghost use Rattle.std.specs.Prelude.{◌≡◌, [], OnOk, OnErr, filter, nat_lt};
ghost use Rattle.std.specs.List.Sorted.{IsNonDecreasingBy};
ghost use Rattle.sibling_register.specs.Entries.{follow_of};
ghost use Rattle.sibling_register.specs.Index.{IsAdded, IsUnchanged, below, place_of};

use crate::entry::Entry;
use std::alloc::{AllocError, Global};

/// What is remembered of a key: its siblings, newest first, and the places of its events in the list of
/// accepted commands, oldest first.
#[derive(Drop)]
pub(crate) struct KeyIndex {
    pub(crate) siblings: Vec<u64>,
    pub(crate) places: Vec<usize>,
}

/// Takes the numbers away that an entry saw.
fn forget(numbers: &mut Vec<u64>, saw: u64)
    ensures value { numbers.new.items ≡ filter (λ n. nat_lt saw n) numbers.old.items }
{
    numbers.retain(|n| *n > saw);
}

/// The siblings after one entry more of the key, which has this number.
pub(crate) fn follow<V>(
    numbers: &mut Vec<u64>,
    entry: &Entry<V>,
    number: u64,
) -> Result<(), AllocError>
    ensures value { OnOk result (numbers.new.items ≡ follow_of entry.now number numbers.old.items) }
{
    forget(numbers, entry.saw);
    if entry.operation.is_update() {
        numbers.insert(0, number)?;
    }
    Ok(())
}

impl KeyIndex {
    /// Of a key without events. It takes no memory.
    pub(crate) fn new(alloc: Global) -> KeyIndex
        ensures siblings { result.siblings.items ≡ [] }
        ensures places { result.places.items ≡ [] }
    {
        KeyIndex {
            siblings: Vec::new(alloc),
            places: Vec::new(alloc),
        }
    }

    /// How many of the events stand before a position of the list.
    pub(crate) fn count_before(&self, position: u64) -> u64
        requires { IsNonDecreasingBy (λ place. place) self.now.places.items }
        ensures value { result ≡ below position self.now.places.items }
    {
        let end = position as usize;
        self.places.as_slice().partition_point(|place| *place < end) as u64
    }

    /// The place of the event of this number, which is counted from 1.
    pub(crate) fn place_of(&self, number: u64) -> Option<usize>
        ensures value { result ≡ place_of self.now.places.items number }
    {
        match number.checked_sub(1) {
            None => None,
            Some(earlier) => self.places.get(earlier as usize).copied(),
        }
    }

    /// Adds an entry of the key, which stands at this place of the list. Refused where memory is, and
    /// then nothing changes.
    pub(crate) fn add<V>(
        &mut self,
        alloc: Global,
        entry: &Entry<V>,
        place: usize,
    ) -> Result<(), AllocError>
        ensures ok { OnOk result (IsAdded entry.now place self.old self.new) }
        ensures err { OnErr result (IsUnchanged self.old self.new) }
    {
        let number = self.places.len() as u64 + 1;
        let mut siblings = Vec::from_slice(alloc, self.siblings.as_slice())?;
        follow(&mut siblings, entry, number)?;
        self.places.push(place)?;
        self.siblings = siblings;
        Ok(())
    }
}

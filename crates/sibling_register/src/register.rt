//! The register as a program.

ghost use Rattle.std.specs.Prelude.{◌≡◌, ◌<◌, ◌^◌, ◌+◌, [], ◌∷◌, IfOk};
ghost use Rattle.std.specs.Prelude.{OnOk, OnErr, length, option_copied};
ghost use Rattle.sibling_register.specs.History.{content_of, count_of};
ghost use Rattle.sibling_register.specs.Siblings.{siblings};
ghost use Rattle.sibling_register.specs.Counting.{up_to};
ghost use Rattle.sibling_register.specs.Plain.{GivesPositions, Gives, answer_of};
ghost use Rattle.sibling_register.specs.Entries.{event_of, history_of, kept_of};
ghost use Rattle.sibling_register.specs.Index.{written_at};

use crate::command::Command;
use crate::entry::Entry;
use crate::fault::RegisterFault;
use crate::key_index::KeyIndex;
use crate::key_map::note;
use crate::planned::{Planned, plan};
use crate::told::Told;
use riak_msgs::Key;
use std::alloc::{AllocError, Global};
use std::collections::BTreeMap;
use std::marker::Model;

/// The register as a list of all accepted commands. Contracts see the history.
///
/// A life of one key, with each answer:
///
/// ```text
/// put v                     Done                            sibling 1
/// get                       Shown [1], position 1
/// put w                     Done                            siblings 2, 1
/// put x, context 1          Done                            siblings 3, 2: x saw v, and not w
/// get                       Shown [3, 2], position 3
/// delete                    Done                            sibling 4, a tombstone: the key is dead
/// reap                      Reaped                          none: the key is absent
/// put y, context 1          Done                            sibling 6: a new life, and the numbers go on
/// ```
///
/// Beside the list it remembers each key's siblings and where the key's events stand in the list, so
/// that no call reads the whole list: it takes one search among the keys, one among the key's events,
/// and a step for each sibling.
pub struct PlainRegister<V> {
    entries: Vec<Entry<V>>,
    keys: BTreeMap<Key, KeyIndex>,
}

/// One call at each place where one is let go.
impl<V: Drop> Drop for PlainRegister<V> {
    fn drop(self) {
        let PlainRegister {
            entries: _entries,
            keys: _keys,
        } = self;
    }
}

impl<V> Model for PlainRegister<V> {
    ghost use Rattle.std.specs.Prelude.{List, ℕ};
    ghost use Rattle.sibling_register.specs.History.{Event};

    ghost Value = { List (Event V ℕ) };

    ghost use Rattle.sibling_register.specs.Entries.{history_of};
    ghost use Rattle.sibling_register.specs.Index.{Remembers};

    ghost view = { λ r. history_of r.entries.items };

    ghost invariant = { λ r. Remembers (history_of r.entries.items) r.keys };
}

/// What the entry at a place wrote.
fn value_at<V>(entries: &[Entry<V>], place: Option<usize>) -> Option<&V>
    ensures value { option_copied result ≡ written_at entries.now place }
{
    match place {
        None => None,
        Some(place) => match entries.get(place) {
            None => None,
            Some(entry) => entry.operation.written(),
        },
    }
}

impl<V> PlainRegister<V> {
    /// A register that has accepted nothing. It takes no memory.
    pub fn new(alloc: Global) -> Self
        ensures value { result ≡ [] }
    {
        PlainRegister {
            entries: Vec::new(alloc),
            keys: BTreeMap::new(alloc),
        }
    }

    /// How many commands were accepted: the position at the end, the greatest that a command may give.
    pub fn len(&self) -> u64
        ensures value { result ≡ length self.now }
    {
        self.entries.len() as u64
    }

    /// The value of the key's write of this sequence number, and none where the number is of another event or of none.
    pub fn value(&self, key: &Key, number: u64) -> Option<&V>
        ensures value { option_copied result ≡ content_of self.now key.now number }
    {
        match self.keys.get(key) {
            None => None,
            Some(index) => value_at(self.entries.as_slice(), index.place_of(number)),
        }
    }

    /// The position after one command more.
    pub(crate) fn next_position(&self) -> u64
        ensures value { result ≡ length self.now + 1 }
    {
        self.entries.as_slice().len() as u64 + 1
    }

    /// The siblings of a key, newest first.
    pub(crate) fn siblings(&self, alloc: Global, key: &Key) -> Result<Vec<u64>, AllocError>
        ensures value { IfOk result (λ numbers. numbers.items ≡ siblings self.now key.now) }
    {
        match self.keys.get(key) {
            None => Ok(Vec::new(alloc)),
            Some(index) => Vec::from_slice(alloc, index.siblings.as_slice()),
        }
    }

    /// How many events a key has.
    pub(crate) fn count(&self, key: &Key) -> u64
        ensures value { result ≡ count_of self.now key.now }
        ensures bound { result < 2 ^ 63 }
    {
        match self.keys.get(key) {
            None => 0,
            Some(index) => index.places.as_slice().len() as u64,
        }
    }

    /// How many events a key had at a position.
    pub(crate) fn count_before(&self, key: &Key, position: u64) -> u64
        ensures value { result ≡ count_of (up_to self.now position) key.now }
    {
        match self.keys.get(key) {
            None => 0,
            Some(index) => index.count_before(position),
        }
    }
}

impl<V: Drop> PlainRegister<V> {
    /// Answers a command, and keeps what is accepted. The positions that it gives must not be past the end.
    ///
    /// A refusal is an answer, and changes nothing. On `NoMemory` nothing changed either.
    pub fn ask(&mut self, alloc: Global, command: Command<V>) -> Result<Told, RegisterFault>
        requires { GivesPositions self.old command }
        ensures gives { IfOk result (λ told. Gives self.old command (answer_of told) self.new) }
        ensures err { OnErr result (self.new ≡ self.old) }
    {
        let Planned { told, entry } = plan(alloc, self, command)?;
        self.keep(alloc, entry)?;
        Ok(told)
    }

    /// Keeps an entry, where there is one.
    fn keep(&mut self, alloc: Global, entry: Option<Entry<V>>) -> Result<(), RegisterFault>
        ensures ok { OnOk result (self.new ≡ kept_of self.old entry) }
        ensures err { OnErr result (self.new ≡ self.old) }
    {
        match entry {
            None => Ok(()),
            Some(entry) => self.keep_entry(alloc, entry),
        }
    }

    /// Keeps an entry, for which there is room first.
    fn keep_entry(&mut self, alloc: Global, entry: Entry<V>) -> Result<(), RegisterFault>
        ensures ok { OnOk result (self.new ≡ event_of entry ∷ self.old) }
        ensures err { OnErr result (self.new ≡ self.old) }
    {
        self.entries.reserve(1)?;
        let place = self.entries.as_slice().len();
        note(&mut self.keys, alloc, &entry, place)?;
        self.entries.push_reserved(entry);
        Ok(())
    }
}

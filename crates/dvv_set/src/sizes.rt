//! How many values and actors a sync would leave.

ghost use Rattle.std.specs.Prelude.{◌≡◌, ◌≤◌, ◌*◌, length, IsTrue};
ghost use Rattle.dvv_set.specs.ClockEntries.{AreEntries, is_entry, merged, merge_all};
ghost use Rattle.dvv_set.specs.Sizes.{total, values_in_entry, values_merged, values_replaced};
ghost use Rattle.dvv_set.specs.Stored.{clock_entry, clock_entries};

use crate::entry::{Entry, Place, search_actor};

/// How many values and actors a clock has, or would have.
#[derive(Clone, Copy, Debug, PartialEq, Eq)]
pub struct Sizes {
    /// How many live values it has: each of 64 actors may have as many as there are counters.
    pub siblings: u128,
    /// How many actors it knows.
    pub actors: usize,
}

/// How many values entries have.
fn count_values<V>(entries: &[Entry<V>]) -> u128
    requires { length entries.now ≤ 64 }
    ensures counted { result ≡ total values_in_entry (clock_entries entries.now) }
    ensures few { result ≤ 18446744073709551615 * length entries.now }
{
    let mut count = 0u128;
    for entry in entries {
        count += entry.values.len() as u128;
    }
    count
}

/// How many values are left of two entries of an actor.
fn count_merged<V>(own: &Entry<V>, other: &Entry<V>) -> usize
    requires own_entry { IsTrue (is_entry (clock_entry own.now)) }
    requires other_entry { IsTrue (is_entry (clock_entry other.now)) }
    ensures { result ≡ length (merged (clock_entry own.now).1 (clock_entry other.now).1).1 }
{
    let own_values = own.values.len();
    let other_values = other.values.len();
    if other.pair.counter <= own.pair.counter {
        let kept = (own.pair.counter - other.pair.counter) as usize + other_values;
        return own_values.min(kept);
    }
    let kept = (other.pair.counter - own.pair.counter) as usize + own_values;
    other_values.min(kept)
}

/// How many values the entry of an actor has once another one is merged in, and how many it has before.
fn merged_counts<V>(entries: &[Entry<V>], other: &Entry<V>) -> (usize, usize)
    requires entries { AreEntries (clock_entries entries.now) }
    requires other_entry { IsTrue (is_entry (clock_entry other.now)) }
    ensures merged { result.0 ≡ values_merged (clock_entries entries.now) (clock_entry other.now) }
    ensures before { result.1
        ≡ values_replaced (clock_entries entries.now) (clock_entry other.now) }
{
    match search_actor(entries, other.pair.actor()) {
        Place::Taken(at) => {
            let own = &entries[at];
            (count_merged(own, other), own.values.len())
        }
        Place::Free(_) => (other.values.len(), 0),
    }
}

/// How many values are left once other entries are merged into entries.
pub(crate) fn merged_values<V>(entries: &[Entry<V>], others: &[Entry<V>]) -> u128
    requires own_entries { AreEntries (clock_entries entries.now) }
    requires other_entries { AreEntries (clock_entries others.now) }
    requires few { length entries.now ≤ 64 }
    requires few_others { length others.now ≤ 64 }
    ensures { result ≡ total values_in_entry
        (merge_all (clock_entries others.now) (clock_entries entries.now)) }
{
    let mut merged = count_values(entries);
    let mut replaced = 0u128;
    for other in others {
        let (after, before) = merged_counts(entries, other);
        merged += after as u128;
        replaced += before as u128;
    }
    merged - replaced
}

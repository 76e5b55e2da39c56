//! The steps that a gate makes on its slot's word, as functions from a word to the next.
ghost use Rattle.std.specs.Prelude.{◌≡◌, ◌≢◌, ◌==◌, false, IfSome, IfNone};
ghost use Rattle.counted_slot.specs.Counting.{readers};
ghost use Rattle.rw_gate.specs.Words.{admits_reader, admits_writer, slot_state};
ghost use Rattle.rw_gate.specs.Words.{Enters, Marks, Unmarks};

use counted_slot::{MARKED, MOST_READERS, ONE_READER, PRESENT};

/// How many readers are in.
fn readers(word: u64) -> u64
    ensures { result ≡ readers word }
{
    word % 0x1_0000_0000 / ONE_READER
}

/// The word with one reader more. `None` exactly where no reader may come in: nothing is in place, it is
/// marked, or `MOST_READERS` are in.
pub(crate) fn entered(word: u64) -> Option<u64>
    ensures entered { IfSome result (Enters word) }
    ensures refused { IfNone result (admits_reader word ≡ false) }
{
    if word % 4 != PRESENT || readers(word) >= MOST_READERS {
        return None;
    }
    Some(word + ONE_READER)
}

/// The word with the mark. `None` exactly where nothing is in place, or it is marked.
pub(crate) fn marked(word: u64) -> Option<u64>
    ensures marked { IfSome result (Marks word) }
    ensures refused { IfNone result (slot_state word ≢ 1) }
{
    if word % 4 != PRESENT {
        return None;
    }
    Some(word + (MARKED - PRESENT))
}

/// The word without the mark. `None` exactly where it has none.
pub(crate) fn unmarked(word: u64) -> Option<u64>
    ensures unmarked { IfSome result (Unmarks word) }
    ensures refused { IfNone result (slot_state word ≢ 2) }
{
    if word % 4 != MARKED {
        return None;
    }
    Some(word - (MARKED - PRESENT))
}

/// Whether a writer may take the state: it is in place, marked or not, and no reader is in.
pub(crate) fn admits_writer(word: u64) -> bool
    ensures { result ≡ admits_writer word }
{
    (word % 4 == PRESENT || word % 4 == MARKED) && readers(word) == 0
}

/// Whether a compare-exchange was made: just where the word that it found is the one that it was to find.
pub(crate) fn was_made(expected: u64, found: u64) -> bool
    ensures { result ≡ (found == expected) }
{
    found == expected
}

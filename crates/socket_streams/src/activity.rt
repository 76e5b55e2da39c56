//! How many of a worker's connections had a turn lately.

/// How many turns a window has at least.
const MIN_TURNS: usize = 64;

/// How many turns a window has for each slot at least: a connection that is ready as often as the others has one in it.
const TURNS_PER_SLOT: usize = 4;

/// How many connections of a worker had a turn lately, counted over windows of some turns: one that has many in a window is counted once. A turn costs a
/// comparison with the number of the window in which its slot had the last one. A worker that has fallen silent keeps what it counted.
///
/// ```text
/// 16 slots, of which two have turns     64 turns later there are 2, and so from window to window
/// then one alone                        2 until that one has had 64 turns, and then 1
/// ```
#[derive(Drop)]
pub(crate) struct Activity {
    /// The number of the window, which may wrap.
    window: u32,
    /// How many turns it had.
    turns: usize,
    /// How many connections had one of these.
    counted: usize,
    /// How many had one in the window before.
    active: usize,
}

impl Activity {
    /// None had a turn.
    pub(crate) fn new() -> Activity {
        Activity {
            window: 1,
            turns: 0,
            counted: 0,
            active: 0,
        }
    }

    /// A slot that had its last turn in this window has one, of so many slots. The window of this turn.
    pub(crate) fn note_turn(&mut self, last: u32, slots: usize) -> u32 {
        let window = self.window;
        if last != window {
            self.counted = self.counted.saturating_add(1);
        }
        self.turns = self.turns.saturating_add(1);
        if self.turns >= MIN_TURNS.max(slots.saturating_mul(TURNS_PER_SLOT)) {
            self.active = self.counted;
            self.counted = 0;
            self.turns = 0;
            self.window = window.wrapping_add(1);
        }
        window
    }

    /// How many connections had a turn in the last window that is over.
    pub(crate) fn active(&self) -> usize {
        self.active
    }
}

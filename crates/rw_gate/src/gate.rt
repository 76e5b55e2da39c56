//! The gate: a slot with a counting word, beside the word of a log.
ghost use Rattle.std.specs.Prelude.{◌≡◌, [], IfOk, IfErr, IfSome, Some};
ghost use Rattle.rw_gate.specs.Histories.{IsSlotValue, IsReplayed};

use crate::kept::Kept;
use crate::log::{GateRule, Length, SeenLog};
use crate::pass::Pass;
use crate::read::ReadRight;
use crate::slot_value::SlotValue;
use crate::words;
use crate::write::WriteRight;
use counted_slot::{Counted, FREE, PRESENT, TAKEN};
use logbook::{Pens, Seen, Start, Word};
use std::alloc::Global;
use std::marker::Model;
use std::sync::{Mutex, Wait};
use std::thread;

/// How often a waiting call attempts before it waits for its turn.
const MAX_AWAKE_ATTEMPTS: u32 = 16;

/// A state that many may read or one may write, with the history of its changes.
///
/// A life of a gate round a `GatedCounter`, whose asks raise it:
///
/// | Call | Answer | State | History |
/// |---|---|---|---|
/// | `gate = Gate::new(alloc, GatedCounter { value: 0 })` | a gate | 0, in place | none |
/// | `ann = gate.pass()` | `ann.seen()` is 0 | | |
/// | `right = gate.try_write()` | a right | 0, in hand | |
/// | `gate.try_read()`, `gate.try_write()`, `gate.mark()` | `None`, `None`, `false` | | |
/// | `right.look(&mut ann)` | 0 | | |
/// | `right.prepare(alloc, 5)` | a change to 5 | 0, as before | |
/// | `right.publish(&mut ann, change)` | 5; `ann.seen()` is 1 | 5, in hand | `+5 = 5` |
/// | `right.release()` | | 5, in place | |
/// | `bob = gate.pass()`, `right = gate.try_read()` | a right, beside which others may read | | |
/// | `right.look(&mut bob)` | 5; `bob.seen()` is 1 | | |
/// | `gate.mark()` | `true`: who reads stays, and no reader comes | 5, marked | |
/// | `gate.try_read()`, `gate.try_write()` | `None`, `None`: `bob` is in | | |
/// | `right.release()`, then `gate.try_write()` | a right, and so on | 5, in hand | |
///
/// A state that is put back is unmarked. At most `MOST_READERS`, 1,073,741,823, are in at once, and an
/// entry past them is refused. The gate is `Send` and `Sync` where the state is.
pub struct Gate<S: Kept> {
    slot: Counted<Option<SlotValue<S>>>,
    pub(crate) word: Length<S>,
    start: SeenLog<S>,
    /// Held by the one reader that goes on attempting, while further ones that wait sleep.
    read_turn: Mutex<()>,
    /// The same for writers. Were it one turn for both, a reader that waits for a mark to go would keep
    /// out the writer that ends it.
    write_turn: Mutex<()>,
}

/// One call at each place where one is let go.
impl<S: Kept> Drop for Gate<S> {
    fn drop(self) {
        let Gate {
            slot: _slot,
            word: _word,
            start: _start,
            read_turn: _read_turn,
            write_turn: _write_turn,
        } = self;
    }
}

impl<S: Kept> Model for Gate<S> {
    ghost use Rattle.std.specs.Prelude.{◌≡◌};
    ghost use Rattle.rw_gate.specs.Logs.{IsNew};
    ghost use Rattle.rw_gate.specs.Steps.{length_word};
    ghost use Rattle.rw_gate.specs.Views.{GateId, gate_id_coded, gate_id};

    ghost Value = { GateId S };

    ghost coded = { gate_id_coded S.code };

    ghost view = { λ g. gate_id g.start.book g.start.log };

    ghost invariant = { λ g. (g.slot ≡ g.start)
        × (g.word ≡ length_word g.start.book) × IsNew g.start.log };
}

impl<S: Kept> Gate<S> {
    /// A gate round a state that has no history yet. It takes memory for the state's place, and the state
    /// is given back where there is none.
    pub fn new(alloc: Global, state: S) -> Result<Gate<S>, S>
        ensures ok { IfOk result (λ g. g.opening ≡ Some state) }
        ensures err { IfErr result (λ s. s ≡ state) }
    {
        let (gate, seen) = Gate::opened(&state);
        match Box::new(alloc, state) {
            Ok(state) => match gate.put_back(SlotValue {
                state,
                seen,
                count: 0,
            }) {
                Ok(()) => Ok(gate),
                // no path leads here: a new slot is free
                Err(value) => Err(value.into_state()),
            },
            Err(refused) => Err(refused.value),
        }
    }

    /// A gate with nothing in place, and its log, which was opened with this state.
    fn opened(state: &S) -> (Gate<S>, SeenLog<S>)
        ensures opening { result.0.opening ≡ Some state.now }
        ensures value { IsSlotValue S.content S.accepts result.0
            result.1.book result.1.log 0 state.now }
    {
        let (seen, mut pens): (SeenLog<S>, Pens) = Seen::open_row::<S, GateRule<S>>(
            state,
            Start::alone(),
            1,
        );
        let mut pen = pens.take();
        let gate = Gate {
            slot: Counted::new(None, &seen),
            word: Word::tracked(0, &mut pen),
            start: seen.again(),
            read_turn: Mutex::new(()),
            write_turn: Mutex::new(()),
        };
        (gate, seen)
    }

    /// A pass of this gate, whose holder has seen nothing yet.
    pub fn pass(&self) -> Pass<S>
        ensures gate { result.gate ≡ self.now }
        ensures prefix { result.prefix ≡ [] }
        ensures own { result.own ≡ [] }
    {
        Pass::new(&self.start)
    }

    /// One attempt to come in as a reader. `None` where a writer is in, where the state is marked, where
    /// `MOST_READERS` are in, and where another call came between.
    pub fn try_read(&self) -> Option<ReadRight<'_, S>>
        ensures gate { IfSome result (λ r. r.gate ≡ self.now) }
        ensures state { IfSome result (IsReplayed S.content S.accepts) }
    {
        let word = self.slot.load();
        let next = words::entered(word)?;
        let (found, claim) = self.slot.turn(word, next);
        if found != word {
            claim.done();
            return None;
        }
        ReadRight::new(self, claim)
    }

    /// One attempt to take the state in hand, marked or not. `None` where a reader or a writer is in, and
    /// where another call came between.
    pub fn try_write(&self) -> Option<WriteRight<'_, S>>
        ensures gate { IfSome result (λ r. r.gate ≡ self.now) }
        ensures state { IfSome result (IsReplayed S.content S.accepts) }
    {
        let word = self.slot.load();
        if !words::admits_writer(word) {
            return None;
        }
        let (found, claim) = self.slot.turn(word, TAKEN);
        if found != word {
            claim.done();
            return None;
        }
        // the value goes into the hand, and the word is FREE until it is put back
        let value = claim.put(None, FREE)?;
        Some(WriteRight::new(self, value))
    }

    /// One attempt to mark the state, so that no further reader comes in, and whether it did. Who reads stays.
    ///
    /// No clause speaks of the answer: a compare-exchange that was made and one that wasn't leave the
    /// same claim here, which has no right, and what word the slot holds stands in no clause. `words`
    /// says which word is to follow, and when the exchange was made.
    pub fn mark(&self) -> bool {
        let word = self.slot.load();
        let Some(marked) = words::marked(word) else {
            return false;
        };
        let (found, claim) = self.slot.turn(word, marked);
        claim.done();
        words::was_made(word, found)
    }

    /// One attempt to take the mark away, and whether it did.
    pub fn unmark(&self) -> bool {
        let word = self.slot.load();
        let Some(unmarked) = words::unmarked(word) else {
            return false;
        };
        let (found, claim) = self.slot.turn(word, unmarked);
        claim.done();
        words::was_made(word, found)
    }

    /// A few attempts to come in as a reader, between which other threads may run.
    fn try_read_awake(&self) -> Option<ReadRight<'_, S>>
        ensures gate { IfSome result (λ r. r.gate ≡ self.now) }
        ensures state { IfSome result (IsReplayed S.content S.accepts) }
    {
        for _ in 0..MAX_AWAKE_ATTEMPTS {
            if let Some(right) = self.try_read() {
                return Some(right);
            }
            thread::yield_now();
        }
        None
    }

    /// Waits until it may read: attempts, again and again. Of many readers that wait long one goes on
    /// attempting, and the others sleep.
    pub fn read<R: Wait>(&self, rt: &R) -> ReadRight<'_, S>
        ensures gate { result.gate ≡ self.now }
        ensures state { IsReplayed S.content S.accepts result }
    {
        if let Some(right) = self.try_read_awake() {
            return right;
        }
        let _turn = self.read_turn.lock(rt);
        for _ in rt.forever() {
            if let Some(right) = self.try_read_awake() {
                return right;
            }
        }
        unreachable!()
    }

    /// A few attempts to take the state in hand, each of which marks the state where it fails. Between
    /// them other threads may run.
    fn try_write_awake(&self) -> Option<WriteRight<'_, S>>
        ensures gate { IfSome result (λ r. r.gate ≡ self.now) }
        ensures state { IfSome result (IsReplayed S.content S.accepts) }
    {
        for _ in 0..MAX_AWAKE_ATTEMPTS {
            if let Some(right) = self.try_write() {
                return Some(right);
            }
            self.mark();
            thread::yield_now();
        }
        None
    }

    /// Waits until it has the state in hand. While it attempts it marks the state, wherever it finds it
    /// unmarked, so that readers leave and none comes. Of many writers that wait long one goes on
    /// attempting, and the others sleep.
    pub fn write<R: Wait>(&self, rt: &R) -> WriteRight<'_, S>
        ensures gate { result.gate ≡ self.now }
        ensures state { IsReplayed S.content S.accepts result }
    {
        if let Some(right) = self.try_write_awake() {
            return right;
        }
        let _turn = self.write_turn.lock(rt);
        for _ in rt.forever() {
            if let Some(right) = self.try_write_awake() {
                return right;
            }
        }
        unreachable!()
    }

    /// Lays a state in place, unmarked. It is given back where the slot is not free, which no path leads
    /// to: only the holder of the state puts it back.
    pub(crate) fn put_back(&self, value: SlotValue<S>) -> Result<(), SlotValue<S>>
        requires { IsSlotValue S.content S.accepts self.now
            value.seen.book value.seen.log value.count value.state.value }
        ensures { IfErr result (λ l. l ≡ value) }
    {
        let (found, claim) = self.slot.turn(FREE, TAKEN);
        if found != FREE {
            claim.done();
            return Err(value);
        }
        claim.put(Some(value), PRESENT);
        Ok(())
    }
}

//! What a caller has seen, and the two steps that show it more.
ghost use Rattle.std.specs.Prelude.{◌≡◌, ◌≢◌, ◌+◌, ◌<◌, ◌^◌, [], ◌∷◌, ◌++◌, length};
ghost use Rattle.std.specs.Prelude.{OnOk, OnErr, IfOk, IfErr, MatchBool};
ghost use mathlib.Core.List.{IsPrefix};
ghost use Rattle.rw_gate.specs.declared.log.GateEntry.TheVariants.{Made};
ghost use Rattle.rw_gate.specs.Logs.{events, IsRun, LeadsTo};
ghost use Rattle.rw_gate.specs.Steps.{length_word};
ghost use Rattle.rw_gate.specs.Views.{gate_id};
ghost use Rattle.rw_gate.specs.Histories.{AreBelow, IsHistory, IsLonger};

use crate::kept::Kept;
use crate::log::{GateEntry, GateRule, Length, Look, NoTrade, Publish, SeenLog};
use ghost_state::GhostList;
use logbook::Offer;
use std::marker::Model;
use thiserror::Error;

/// The history is longer than that of the state under the right.
#[derive(Clone, Copy, Debug, PartialEq, Eq, Drop, Error)]
#[error("the history has gone on to {seen} events")]
pub struct Moved {
    /// How many events the history was found to have. The pass has then seen them.
    pub seen: u64,
}

/// What its holder has seen of a gate's history: a prefix, which only grows.
///
/// For clauses alone a pass also has the positions of the events that it published, its own events. A
/// pass belongs to the gate that gave it. It may go to another thread.
pub struct Pass<S: Kept> {
    count: u64,
    seen: SeenLog<S>,
    own: GhostList<u64>,
}

/// One call at each place where one is let go.
impl<S: Kept> Drop for Pass<S> {
    fn drop(self) {
        let Pass {
            count: _count,
            seen: _seen,
            own: _own,
        } = self;
    }
}

impl<S: Kept> Model for Pass<S> {
    ghost use Rattle.std.specs.Prelude.{◌≡◌, length};
    ghost use Rattle.rw_gate.specs.Views.{PassView, pass_coded, gate_id};
    ghost use Rattle.rw_gate.specs.Logs.{events, IsRun};
    ghost use Rattle.rw_gate.specs.Histories.{AreBelow};

    ghost Value = { PassView S S.Event };

    ghost coded = { pass_coded S.code S.Event.code };

    ghost view = { λ p. record {
      gate = gate_id p.seen.book p.seen.log;
      prefix = events p.seen.log;
      own = p.own;
    } };

    ghost invariant = { λ p. (p.count ≡ length (events p.seen.log))
        × IsRun S.content S.accepts p.seen.log × AreBelow p.count p.own };
}

impl<S: Kept> Pass<S> {
    /// How many events its holder has seen.
    pub fn seen(&self) -> u64
        ensures length { result ≡ length self.now.prefix }
        ensures own { AreBelow (length self.now.prefix) self.now.own }
        ensures legal { IsHistory S.content S.accepts self.now.gate self.now.prefix }
    {
        self.count
    }

    /// Whether this pass has seen no more events than another of its gate. Both have seen beginnings of
    /// one history, so what the one that is behind has seen begins what the other has.
    pub fn is_behind(&self, other: &Pass<S>) -> bool
        requires { other.now.gate ≡ self.now.gate }
        ensures { MatchBool result (IsPrefix self.now.prefix other.now.prefix)
            (IsPrefix other.now.prefix self.now.prefix) }
    {
        let mut both = self.seen.again();
        both.learn(&other.seen);
        if self.count <= other.count {
            return true;
        }
        false
    }

    /// A pass that has seen no event of a gate.
    pub(crate) fn new(start: &SeenLog<S>) -> Pass<S>
        requires empty { events start.now.log ≡ [] }
        requires run { IsRun S.content S.accepts start.now.log }
        ensures gate { result.gate ≡ gate_id start.now.book start.now.log }
        ensures prefix { result.prefix ≡ [] }
        ensures own { result.own ≡ [] }
    {
        Pass {
            count: 0,
            seen: start.again(),
            own: GhostList::new(),
        }
    }

    /// A look beside a state with the `count` events of the log `seen`. They are all there are, or the
    /// history has gone on.
    pub(crate) fn look(
        &mut self,
        word: &Length<S>,
        state: &S,
        seen: &SeenLog<S>,
        count: u64,
    ) -> Result<(), Moved>
        requires word { word.now ≡ length_word seen.now.book }
        requires book { self.old.gate.book ≡ seen.now.book }
        requires counted { count ≡ length (events seen.now.log) }
        ensures gate { self.new.gate ≡ self.old.gate }
        ensures own { self.new.own ≡ self.old.own }
        ensures more { IsPrefix self.old.prefix self.new.prefix }
        ensures ok { OnOk result (self.new.prefix ≡ events seen.now.log) }
        ensures err { IfErr result (λ m. IsLonger (events seen.now.log) self.new.prefix m.seen) }
    {
        let found = self.load(word, state, seen);
        if found == count {
            Ok(())
        } else {
            Err(Moved { seen: found })
        }
    }

    /// One load, after which the pass has seen the whole history, and with it the log `seen`. Gives its length.
    fn load(&mut self, word: &Length<S>, state: &S, seen: &SeenLog<S>) -> u64
        requires word { word.now ≡ length_word seen.now.book }
        requires book { self.old.gate.book ≡ seen.now.book }
        ensures gate { self.new.gate ≡ self.old.gate }
        ensures own { self.new.own ≡ self.old.own }
        ensures more { IsPrefix self.old.prefix self.new.prefix }
        ensures with_seen { IsPrefix (events seen.now.log) self.new.prefix }
        ensures found { result ≡ length self.new.prefix }
    {
        let mut both = self.seen.again();
        both.learn(seen);
        let mut offer: Offer<GateEntry<S, S::Event>, (), GateRule<S>, NoTrade<S>> = both.plain::<
            NoTrade<S>,
            S,
            Look<S>,
        >(state);
        let found = word.load::<Look<S>, NoTrade<S>>(&mut both, &mut offer);
        self.count = found;
        self.seen = both;
        found
    }

    /// One exchange, which adds the event of a change behind the `count` events of the log `seen`, whose
    /// state is in hand. Gives the log with that event, or the history has gone on and stays as it is.
    pub(crate) fn publish(
        &mut self,
        word: &Length<S>,
        state: &S,
        seen: &SeenLog<S>,
        count: u64,
        change: &S::Change,
    ) -> Result<SeenLog<S>, Moved>
        requires word { word.now ≡ length_word seen.now.book }
        requires book { self.old.gate.book ≡ seen.now.book }
        requires counted { count ≡ length (events seen.now.log) }
        requires leads { LeadsTo S.content S.accepts seen.now.log (S.content state.now) }
        requires ready { S.ready state.now change.now }
        requires room { count + 1 < 2 ^ 64 }
        ensures gate { self.new.gate ≡ self.old.gate }
        ensures more { IsPrefix self.old.prefix self.new.prefix }
        ensures own { OnOk result (self.new.own ≡ self.old.own ++ count ∷ []) }
        ensures same_own { OnErr result (self.new.own ≡ self.old.own) }
        ensures before { OnOk result (IsPrefix self.old.prefix (events seen.now.log)) }
        ensures book { IfOk result (λ w. w.book ≡ seen.now.book) }
        ensures log { IfOk result (λ w. w.log ≡ seen.now.log ++ Made (S.event change.now) ∷ []) }
        ensures seen { IfOk result (λ w. self.new.prefix ≡ events w.log) }
        ensures err { IfErr result (λ m. IsLonger (events seen.now.log) self.new.prefix m.seen) }
    {
        let mut both = seen.again();
        both.learn(&self.seen);
        let found = Pass::exchange(word, state, seen, count, change, &mut both);
        if found != count {
            self.count = found;
            self.seen = both;
            return Err(Moved { seen: found });
        }
        self.count = count + 1;
        self.own.push(&count);
        self.seen = both.again();
        Ok(both)
    }

    /// The exchange by one who has seen `both`, which goes on from the log `seen`. Gives the number of
    /// events that was found. Where it is `count`, `both` was the whole log, and the event of the change
    /// stands behind it.
    fn exchange(
        word: &Length<S>,
        state: &S,
        seen: &SeenLog<S>,
        count: u64,
        change: &S::Change,
        both: &mut SeenLog<S>,
    ) -> u64
        requires word { word.now ≡ length_word both.old.book }
        requires counted { count ≡ length (events seen.now.log) }
        requires leads { LeadsTo S.content S.accepts seen.now.log (S.content state.now) }
        requires ready { S.ready state.now change.now }
        requires room { count + 1 < 2 ^ 64 }
        requires begins { IsPrefix seen.now.log both.old.log }
        requires run { IsRun S.content S.accepts both.old.log }
        ensures book { both.new.book ≡ both.old.book }
        ensures more { IsPrefix both.old.log both.new.log }
        ensures run { IsRun S.content S.accepts both.new.log }
        ensures hit { result ≡ count
            → (both.new.log ≡ both.old.log ++ Made (S.event change.now) ∷ [])
            × (length (events both.old.log) ≡ count) }
        ensures missed { result ≢ count → length (events both.new.log) ≡ result }
    {
        let mut offer: Offer<GateEntry<S, S::Event>, (), GateRule<S>, NoTrade<S>> = both.plain::<
            NoTrade<S>,
            S::Change,
            Publish<S>,
        >(change);
        let mut pen = both.no_pen();
        let next = count + 1;
        word.compare_exchange::<Publish<S>, NoTrade<S>>(count, next, both, &mut offer, &mut pen)
    }
}

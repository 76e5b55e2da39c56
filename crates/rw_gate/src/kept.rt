//! What a gate keeps: a value that stands for the state of a machine.
use std::alloc::Global;

/// What is planned for an ask.
#[derive(Drop)]
pub enum Plan<C, R> {
    /// The change that makes the next event, once it is applied.
    Change(C),
    /// The answer, where nothing changes and no event is made.
    Nothing(R),
}

/// A value that stands for the state of a machine, which answers asks one after the other.
///
/// An ask that changes something is answered in two steps. `prepare` plans it: it may take memory and may
/// refuse, and leaves the content as it was. `apply` makes the change: it takes no memory and cannot
/// refuse. Between them the change becomes an event of the history, and the event holds what was asked
/// and what is answered. `GatedCounter` is the smallest example.
pub trait Kept: Drop {
    /// What may be asked. It is let go where it is not handed to `prepare`.
    type Ask: Drop;

    /// An ask that was accepted, as `prepare` hands it to `apply`.
    type Change: Drop;

    /// The answer to an ask that was accepted, or that changes nothing.
    type Reply;

    /// Why an ask was refused.
    type Refusal;

    /// An entry of the history. Clauses alone speak of it and code needs to make none, so it may be a
    /// struct whose one ghost field is what happened.
    type Event;

    ghost use Rattle.std.specs.Prelude.{◌≡◌, IfOk, IfErr};
    ghost use Rattle.rw_gate.specs.Plans.{IfChange, IfNothing};

    // The machine's states, and the one that a value stands for. Room that was reserved is no part of it.
    ghost State: { Type 0 };

    ghost content: { Self → State };
    // The machine accepts the event in the first state, and goes on to the second.
    ghost accepts: { State → Self.Event → State → Type 0 };
    // The machine answers the ask like this, and stays as it is.
    ghost answers: { State → Self.Ask → Self.Reply → Type 0 };
    // The machine refuses the ask.
    ghost refuses: { State → Self.Ask → Self.Refusal → Type 0 };
    // What an event asks, and what it answers. Asks that differ in what they own alone, as in spare room,
    // may be one event's.
    ghost asks: { Self.Event → Self.Ask → Type 0 };

    ghost answered_by: { Self.Event → Self.Reply → Type 0 };
    // The event that a change makes.
    ghost event: { Self.Change → Self.Event };
    // The change was prepared from this value.
    ghost ready: { Self → Self.Change → Type 0 };

    /// Plans what is asked. The content stays as it was.
    fn prepare(
        &mut self,
        alloc: Global,
        ask: Self::Ask,
    ) -> Result<Plan<Self::Change, Self::Reply>, Self::Refusal>
        ensures same { content self.new ≡ content self.old }
        ensures change { IfOk result (λ plan. IfChange plan (λ c.
            ready self.new c × asks (event c) ask)) }
        ensures nothing { IfOk result (λ plan. IfNothing plan (answers (content self.old) ask)) }
        ensures refusal { IfErr result (refuses (content self.old) ask) };

    /// Makes the change that was prepared from this value, with no call between, and answers the reply of
    /// its event. It takes no memory.
    fn apply(&mut self, change: Self::Change) -> Self::Reply
        requires { ready self.old change }
        ensures reply { answered_by (event change) result }
        ensures moved { accepts (content self.old) (event change) (content self.new) };

    // The machine accepts what was prepared. It is a law, since an event is in the history before the
    // change is applied.
    ghost sound: { (s : Self) (c : Self.Change) → ready s c →
        (t : State) × accepts (content s) (event c) t };
}

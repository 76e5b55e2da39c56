//! The log of a gate: the state that it was made with, then the events, of which the machine accepts each
//! behind those before it. It exists in the proofs alone. What threads share is a word, the number of the
//! events.
use crate::kept::Kept;
use logbook::{Gain, Opening, Plain, Play, Rule, Seen, Word};
use std::marker::PhantomData;

/// An entry of the log. The code makes none.
pub enum GateEntry<S, E> {
    Opened(S),
    Made(E),
}

/// The rule of the log.
pub struct GateRule<S> {
    of: PhantomData<S>,
}

impl<S: Kept> Rule<GateEntry<S, S::Event>, ()> for GateRule<S> {
    ghost use Rattle.std.specs.Prelude.{[]};
    ghost use base.Fml.{ftrue};
    ghost use Rattle.rw_gate.specs.Steps.{IsLawful};

    ghost holds = { λ cells log. IsLawful S.content S.accepts cells log };

    ghost first = { [] };

    ghost hinted = { λ n log. Unit {0} };

    ghost shows = { λ log. [] };

    ghost keeps = { λ names log. ftrue };

    ghost moves = { λ ask before after answer. Unit {0} };
}

/// A log opens with the state that its gate is made with.
impl<S: Kept> Opening<S, GateEntry<S, S::Event>> for GateRule<S> {
    ghost use Rattle.std.specs.Prelude.{[], ◌∷◌};
    ghost use Rattle.rw_gate.specs.declared.log.GateEntry.TheVariants.{Opened};

    ghost log = { λ count s. Opened s ∷ [] };
}

/// Steps trade nothing.
pub struct NoTrade<S> {
    of: PhantomData<S>,
}

impl<S: Kept> Gain<GateEntry<S, S::Event>, ()> for NoTrade<S> {
    ghost use base.Fml.{ftrue};

    ghost after = { λ names about answer. ftrue };
}

/// The step of a look. It adds nothing, so the entry that it has to name is of no account.
pub struct Look<S> {
    of: PhantomData<S>,
}

impl<S: Kept> Play<GateEntry<S, S::Event>, ()> for Look<S> {
    ghost use Rattle.rw_gate.specs.Steps.{Looks};

    ghost then = { Looks S.content S.accepts };
}

impl<S: Kept> Plain<S, GateEntry<S, S::Event>, ()> for Look<S> {
    ghost use Rattle.std.specs.Prelude.{None};
    ghost use Rattle.rw_gate.specs.declared.log.GateEntry.TheVariants.{Opened};

    ghost ask = { λ s. Opened s };

    ghost state = { λ s. None };
}

/// The step of a publish, which adds the event of a change.
pub struct Publish<S> {
    of: PhantomData<S>,
}

impl<S: Kept> Play<GateEntry<S, S::Event>, ()> for Publish<S> {
    ghost use Rattle.rw_gate.specs.Steps.{Publishes};

    ghost then = { Publishes S.content S.accepts };
}

impl<S: Kept> Plain<S::Change, GateEntry<S, S::Event>, ()> for Publish<S> {
    ghost use Rattle.std.specs.Prelude.{None};
    ghost use Rattle.rw_gate.specs.declared.log.GateEntry.TheVariants.{Made};

    ghost ask = { λ c. Made (S.event c) };

    ghost state = { λ c. None };
}

/// A prefix of the log that was seen. It has no bytes.
pub type SeenLog<S> = Seen<GateEntry<S, <S as Kept>::Event>, (), GateRule<S>>;

/// The word of a log: how many events it has.
pub type Length<S> = Word<GateEntry<S, <S as Kept>::Event>, (), GateRule<S>>;

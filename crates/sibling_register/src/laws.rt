//! What follows from the definitions alone.

ghost use Rattle.std.specs.Prelude.{List, ℕ};
ghost use Rattle.sibling_register.specs.History.{Event};
ghost use Rattle.sibling_register.specs.Naming.{Naming, IsNamingOf, NamesOneSight};
ghost use Rattle.sibling_register.specs.Counting.{by_count};
ghost use Rattle.sibling_register.specs.Answers.{Told};
ghost use Rattle.sibling_register.specs.Legal.{IsLegal};
ghost use Rattle.sibling_register.specs.Plain.{Gives};
ghost use Rattle.sibling_register.specs.declared.command.Command.{Command};
ghost use Rattle.sibling_register.specs.Leaving.{LeavesOnlySeen};

/// A write that is a sibling at one position of a history whose events are each accepted, and none later, was seen by
/// a write or tombstone between. It needs no law of the naming.
pub fn values_leave_only_seen<V, C>()
    ensures leaving { (naming : Naming V C) (between position : List (Event V C))
        → LeavesOnlySeen naming between position }
{}

/// A command that gives the context of a position saw every number of the key up to there, and no other, whichever
/// position of that name the definition finds first.
pub fn a_context_names_one_sight<V, C>()
    ensures sight { (naming : Naming V C) (later position : List (Event V C))
        → NamesOneSight naming later position }
{}

/// The counts of a key's events are a naming of every history.
pub fn counting_is_a_naming<V>()
    ensures naming { (history : List (Event V ℕ)) → IsNamingOf by_count history }
{}

/// The histories of a [`PlainRegister`](crate::PlainRegister) are legal.
pub fn answers_stay_legal<V>()
    ensures legal { (old : List (Event V ℕ)) (command : Command V) (told : Told ℕ)
        (new : List (Event V ℕ)) → Gives old command told new
        → IsLegal by_count old → IsLegal by_count new }
{}

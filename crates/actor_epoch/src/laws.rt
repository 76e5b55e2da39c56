//! Laws of contexts.

ghost use Rattle.std.specs.Prelude.{◌≡◌, ◌↔◌, List, [], ℕ, None};
ghost use Rattle.actor_epoch.specs.declared.dot.Dot.{Dot};
ghost use Rattle.actor_epoch.specs.declared.version.Version.{Version};
ghost use Rattle.actor_epoch.specs.Given.{context_of};
ghost use Rattle.actor_epoch.specs.Limits.{max_epoch, max_counter, max_actors};
ghost use Rattle.actor_epoch.specs.Laws.{ReadsBack, ReadsWritten, ReadsNoOthers};
ghost use Rattle.actor_epoch.specs.Laws.{CoversUpTo, HasItsCounter};

use crate::limits::{MAX_ACTORS, MAX_COUNTER, MAX_EPOCH};

/// The bytes that `Context::write` makes of pairs are read as these pairs. Those of the first version are too, and no
/// other bytes are; no bytes alone are no context.
pub fn what_is_written_is_read()
    ensures back { (pairs : List Dot) → ReadsWritten pairs }
    ensures versions { (version : Version) (pairs : List Dot) → ReadsBack version pairs }
    ensures no_others { (bytes : List ℕ) (pairs : List Dot) → ReadsNoOthers bytes pairs }
    ensures none { (bytes : List ℕ) → (context_of bytes ≡ None) ↔ (bytes ≡ []) }
{}

/// Pairs, as those of a context, cover the dots from 1 to the greatest counter of an actor in them and no others; where
/// they are strictly rising by actor, as in a context, that is the counter of the one pair of the actor.
pub fn pairs_cover_up_to_their_counters()
    ensures covers { (pairs : List Dot) (dot : Dot) → CoversUpTo pairs dot }
    ensures counter { (before : List Dot) (pair : Dot) (after : List Dot)
        → HasItsCounter before pair after }
{}

/// The limits of the code are those of the definitions: 4,294,967,295 epochs, 18,446,744,073,709,551,615 counters and
/// 64 actors.
pub fn limits_are_those_of_the_definitions()
    ensures epoch { MAX_EPOCH ≡ max_epoch }
    ensures counter { MAX_COUNTER ≡ max_counter }
    ensures actors { MAX_ACTORS ≡ max_actors }
{}

//! Laws of clocks, over what they mean.

ghost use Rattle.std.specs.Prelude.{◌≡◌, List, [], IsTrue};
ghost use Rattle.actor_epoch.specs.declared.Actor.{Actor};
ghost use Rattle.actor_epoch.specs.declared.Dot.{Dot};
ghost use Rattle.actor_epoch.specs.Dots.{covers};
ghost use Rattle.dvv_set.specs.Clocks.{DotState, sync, discard};
ghost use Rattle.dvv_set.specs.Laws.{IsClock, KnowsItsLive, SameDots, SyncKnows, SyncKeeps};
ghost use Rattle.dvv_set.specs.Laws.{DiscardKnows, DiscardKeeps, EventKnows, EventKeeps};

/// Each call as an operation on sets of dots: a dot is known after a sync where either side knows it,
/// and live where both have it live, or one has it live and the other doesn't know it; a discard makes
/// the context's dots known and not live; an event makes one dot more known and live.
pub fn calls_are_set_operations<V>()
    ensures sync_knows { (own other : DotState V) (dot : Dot) → SyncKnows own other dot }
    ensures sync_keeps { (own other : DotState V) (dot : Dot) → SyncKeeps own other dot }
    ensures discard_knows { (pairs : List Dot) (clock : DotState V) (dot : Dot)
        → DiscardKnows pairs clock dot }
    ensures discard_keeps { (pairs : List Dot) (clock : DotState V) (dot : Dot)
        → DiscardKeeps pairs clock dot }
    ensures event_knows { (actor : Actor) (value : V) (clock : DotState V) (dot : Dot)
        → EventKnows actor value clock dot }
    ensures event_keeps { (actor : Actor) (value : V) (clock : DotState V) (dot : Dot)
        → EventKeeps actor value clock dot }
{}

/// A sync is idempotent, commutative and associative in what is known and what is live, and knows all that either side
/// knows; a discard is the sync with the context's pairs, none live.
pub fn sync_joins<V>()
    ensures idempotent { (clock : DotState V) → KnowsItsLive clock
        → SameDots (sync clock clock) clock }
    ensures commutative { (a b : DotState V) → KnowsItsLive a → KnowsItsLive b
        → SameDots (sync a b) (sync b a) }
    ensures associative { (a b c : DotState V) → KnowsItsLive a → KnowsItsLive b → KnowsItsLive c
        → SameDots (sync (sync a b) c) (sync a (sync b c)) }
    ensures above { (a b : DotState V) (dot : Dot) → IsTrue (covers a.known dot)
        → IsTrue (covers (sync a b).known dot) }
    ensures discards { (pairs : List Dot) (clock : DotState V)
        → discard pairs clock ≡ sync clock (record { known = pairs; live = [] }) }
{}

/// A discard of all that a clock knows leaves what it knows and no value.
pub fn discard_of_all_leaves_no_value<V>()
    ensures { (clock : DotState V) → IsClock clock
        → discard clock.known clock ≡ record { known = clock.known; live = [] } }
{}

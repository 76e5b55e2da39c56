//! What copies back say, beside the law of copies.
ghost use Rattle.std.specs.Prelude.{ℕ, List};
ghost use Rattle.copy_laws.specs.Joining.{Log, Fallbacks};
ghost use Rattle.copy_laws.specs.Sides.{Partition};
ghost use Rattle.handoff.specs.declared.copying.Copied.{Copied};
ghost use Rattle.handoff.specs.declared.gates.Fallback.{Fallback};
ghost use Rattle.handoff.specs.Joined.{CopiesAreOfCalls, ReturnJoinsKeys, TurnsSpareReaps};
ghost use Rattle.rw_gate.specs.Views.{GateId};
ghost use Rattle.vnode_core.specs.Plans.{View};
ghost use Rattle.vnode_core.specs.declared.entry.Entry.{Entry};
ghost use Rattle.riak_msgs.specs.declared.Key.{Key};
ghost use Rattle.handoff.specs.Meeting.{CopiesAreTrue};
ghost use Rattle.handoff.specs.Running.{Diversion, RunningHandOffsJoin, ShownContextsName};
ghost use Rattle.handoff.specs.Sights.{Sight};

/// Each copy that [`Handoff::copy_back`](crate::Handoff::copy_back) made is one that the law of copies
/// calls true (`IsTrueCopy` of `copy_laws`): it has its key's clock at the end of a beginning of the
/// fallback's history, and that beginning. So `copy_joins` speaks of the logs that running copies make:
/// no sibling is lost by them, and none comes again.
///
/// It asks that the pass of the fallback is of that diversion of the partition (`IsOfFallback`): its gate
/// was made round the new vnode that the partition names, which is the clause `is_new` of `divert`, and
/// what it has seen are commands alone, which begin the fallback's history.
pub fn copies_are_true()
    ensures { (partition : Partition) (primary : Log) (fallbacks : Fallbacks) (diversion : ℕ)
        (mine theirs : Sight) → CopiesAreTrue partition primary fallbacks diversion mine theirs }
{}

/// Where [`Handoff::finish_return`](crate::Handoff::finish_return) has ended a diversion, the two halves
/// meet: copies brought all that the fallbacks accepted for a key (`IsJoined` of `copy_laws`), and by
/// `copy_joins` the key's siblings in the state that the primary's pass shows are its joint ones: the
/// writes and tombstones of any side that no command of any side saw. So it is with each key, whether the
/// fallback held it or not.
///
/// It asks that the passes are of that partition: the primary's (`IsOfPrimary`) and that of its last
/// fallback (`IsOfLastFallback`), whose gates were made round the new vnodes that the partition names.
/// That the primary isn't closed, that its log and the fallback's are the machine's, and that the
/// fallback took writes and deletes alone, the end of the diversion says itself. And it asks of the key
/// (`IsHandedOff`) that of each earlier fallback copies brought all, which this law says of the return
/// that ended that one's diversion; that sides rise (`begins` of `divert`'s clause); that each copy is a
/// true one ([`copies_are_true`]); that no reap stands between what came and a copy
/// ([`turns_spare_reaps`]); and that contexts name what was there. Where copy backs ran one behind
/// another, [`running_hand_offs_join`] says all of this but the last; this law is left for those beside
/// others.
pub fn returns_join()
    ensures { (partition : Partition) (primary : Log) (fallbacks : Fallbacks)
        (mine theirs : Sight) → ReturnJoinsKeys partition primary fallbacks mine theirs }
{}

/// Where no command stands at the primary between two copies of a diversion, no reap of a key stands
/// between a number of that diversion and a copy of it. For a return has shown that only copies came
/// since its diversion began (`TookCopiesAlone` in `specs/Started`).
pub fn turns_spare_reaps()
    ensures { (partition : Partition) (primary : Log) (fallbacks : Fallbacks) (key : Key)
        → TurnsSpareReaps partition primary fallbacks key }
{}

/// Where the calls of [`Handoff::copy_back`](crate::Handoff::copy_back) that one caller made in a
/// diversion copied as many keys as entries came to the primary since the diversion began, and each began
/// behind all that the one before it had seen, they made all copies there. All of it is numbers and
/// passes that the caller has, and can compare: `keys` and `began` of each [`Copied`](crate::Copied),
/// `seen` of its passes, and `is_behind` of these and of those of the return.
pub fn copies_are_of_calls()
    ensures { (primary : GateId View) (fallback : Fallback) (mine : Sight)
        (before : List Entry) (calls : List Copied)
        → CopiesAreOfCalls primary fallback mine before calls }
{}

/// Where a caller diverted a partition any number of times, copied back each time by calls of its own
/// alone, one behind another, and returned, each key's siblings at the primary behind the last return are
/// its joint ones: the writes and tombstones of any side that no command of any side saw. Beside the
/// clauses of `divert`, `fallback`, `gates`, `copy_back` and `finish_return`, and what passes and tallies
/// let the caller compare (`HasReturnedBehind` in `specs/Running`), it asks only that contexts name what
/// was there, which is so where each had been shown for its key.
pub fn running_hand_offs_join()
    ensures { (run index : ℕ) (primary : GateId View) (last : Diversion) (earlier : List Diversion)
        → RunningHandOffsJoin run index primary last earlier }
{}

/// Where each context that a command of a key carried in such diversions had been shown for it, they name
/// what was there: so the siblings are joint ones ([`running_hand_offs_join`]). To the primary it had
/// been shown by the primary before, or by a fallback that had returned by then; to a fallback by the
/// primary before the partition was diverted, by an earlier fallback, or by itself before (`GivesShown`
/// in `specs/Running`).
pub fn shown_contexts_name()
    ensures { (run index : ℕ) (primary : GateId View) (last : Diversion) (earlier : List Diversion)
        → ShownContextsName run index primary last earlier }
{}

//! The theorems, as functions that have nothing to run.

ghost use Rattle.node_steps.specs.Claims.{AfterEvery, AtEveryStep, CallsMeetNoCopies};
ghost use Rattle.node_steps.specs.Claims.{FallbacksTakeCommands, HistoriesAreLegal};
ghost use Rattle.node_steps.specs.Claims.{LooksSeeReplays, LooksShowReplays};
ghost use Rattle.node_steps.specs.Claims.{RepliesAreRegisters, NothingElseHappens, RepliesHaveSeen};
ghost use Rattle.node_steps.specs.Claims.{NoDotIsIssuedTwice};
ghost use Rattle.node_steps.specs.Claims.{LivesAreOfDefinedKeys, ValuesLeaveOnlyCovered};
ghost use Rattle.node_steps.specs.Claims.{ValuesLeaveOnlySeen};
ghost use Rattle.node_steps.specs.Courses.{RunsAreCourses};
ghost use Rattle.node_steps.specs.HandOffs.{PartitionsHandOff};
ghost use Rattle.node_steps.specs.Moments.{LogsGrow, PartitionsGoOn};
ghost use Rattle.node_steps.specs.Erased.{NeedsNoHistory};
ghost use Rattle.node_steps.specs.Gates.{RunsAreScheduled};

/// **In whatever order workers take their steps, each vnode has a history that one thread could have
/// made. What a caller is answered is what the sibling register answers at one position of it, not before
/// what the caller had seen there. A dot is never issued a second time, not even after its key was
/// reaped. And no value leaves a key's siblings unless an accepted write or delete had seen it.**
///
/// *Whatever order*: in every run, for any number of workers and partitions, and after every list of
/// steps, also of such that divert a partition to a fallback, which has a history of its own, copy keys
/// back from there, close it, so that the calls go to the primary again, and divert the partition once
/// more.
///
/// *One thread*: a look shows the state after the whole log of its vnode, which is the replay of the
/// history where nothing was copied (`looks`). What comes of a look for a call is what the vnode machine
/// does with the call in that state; where it is closed, the call is turned away to the primary
/// (`looked`). Where no command follows a copy the history has a replay and is legal (`histories`): so at
/// each fallback (`fallbacks`), and at a primary until a fallback of its partition is closed; until then
/// nothing was copied to where a worker has a call (`uncopied`).
///
/// *Is answered*: a vnode that is closed answers nothing. Each reply, a refusal too, is the machine's in
/// the state after the log: at its look, or, of an accepted command, at its publish, by which the log has
/// just that command more. Where nothing was copied, and at each fallback, it is what the register may
/// answer at the end of the history (`answers`). No other step changes a log, but a copy, which carries
/// the clock that its key has at the fallback then, and the fallback's history, and a close, before which
/// each key that the fallback holds is copied as it is there, and which carries the number of commands
/// that the primary accepted (`nothing_else`).
///
/// *Had seen there*: the worker had seen no more than that log, copies and closes too, and has seen all
/// of it afterwards, its own command too (`seen`). The log at a site only grows (`grown`).
///
/// *A second time*: at one vnode, whatever the keys and lives (`dots`). A key is in a life exactly where
/// it is defined (`lives`).
///
/// *Unless .. had seen it*: a value leaves only by a write or delete whose context covers its dot, or by
/// a delete without context (`covered`). Where each context that was given for its key at a site had been
/// shown for it there, such a write or delete had seen the value (`left`).
///
/// Behind copies all this holds of each key, over the numbers of all sides, where each context that was
/// given for that key at a site of its partition had been shown for it at one of them, whatever was given
/// for other keys: the partition's primary and its fallbacks, with the copies between, are a hand-off of
/// it (`handed_off`, `specs/HandOffs`). The primary's log is legal for it, each command of it having seen
/// what it had to see. Each reply there to a call of it, an accepted command's too, at its publish, is
/// what the register may answer at the end of the log, which has just that command more then. The primary
/// shows the siblings that are its own or came, in their order. After each copy of the key where its
/// fallback accepted nothing of it since, and once the fallback is closed, the primary's siblings are the
/// joint ones. Whatever contexts were given, two writes or deletes that have the same dot are one,
/// whatever their keys and sides.
///
/// What happened to the partition is one course, whatever contexts were given, of which at each moment of
/// the schedule a beginning had happened (`moments`, `specs/Moments`): from there on a value leaves the
/// siblings of such a key at a site, own or brought, only where a write or delete that had seen it, of
/// whichever side, was accepted, or brought, since.
pub fn always()
    ensures histories { AfterEvery HistoriesAreLegal }
    ensures looks { AfterEvery LooksShowReplays }
    ensures looked { AtEveryStep LooksSeeReplays }
    ensures answers { AtEveryStep RepliesAreRegisters }
    ensures nothing_else { AtEveryStep NothingElseHappens }
    ensures seen { AtEveryStep RepliesHaveSeen }
    ensures dots { AfterEvery NoDotIsIssuedTwice }
    ensures lives { AfterEvery LivesAreOfDefinedKeys }
    ensures covered { AfterEvery ValuesLeaveOnlyCovered }
    ensures left { ValuesLeaveOnlySeen }
    ensures handed_off { PartitionsHandOff }
    ensures grown { LogsGrow }
    ensures moments { PartitionsGoOn }
    ensures uncopied { AfterEvery CallsMeetNoCopies }
    ensures fallbacks { AfterEvery FallbacksTakeCommands }
{}

/// Each run of a partition is a course of the law of copies, whatever contexts are given: what its
/// primary and its fallbacks accepted may happen so, one after another, with a return at each close, and
/// each later fallback behind the epochs of the one before. It happens so to each key for which each
/// context that was given at a site of the partition had been shown for it at one of them. So what
/// `courses_are_hand_offs` of `copy_laws` says of courses holds of it: the key is handed off as it has to
/// be, and what the fallbacks' contexts cover of the primary is just what had come.
pub fn runs_are_courses()
    ensures { RunsAreCourses }
{}

/// A world may be kept without its history: after every schedule, the outcome of any step needs the
/// words, the states in place, the routes, the epochs of fallbacks that were closed and the phases alone,
/// and so does what is left of them. The ids of vnodes, the epochs that they were opened behind, the
/// histories, the fronts that workers have seen and how often partitions were diverted are what the
/// claims of [`always`] speak of, and no step looks at them; nor at the state in place while it is taken,
/// which is in its holder's hand.
pub fn needs_no_history()
    ensures { AtEveryStep NeedsNoHistory }
{}

/// What [`always`] claims of histories it claims of the running gate's: each run of commands of the vnode
/// machine from the opening state of a vnode, which is what a gate round a new vnode keeps as its
/// history, is the history of that vnode after some schedule, by one definition (`history_after` in
/// `specs/Events` of `vnode_core`).
pub fn gates_are_scheduled()
    ensures { RunsAreScheduled }
{}

//! What holds of sessions that rest, and go on over later gates of their run.

ghost use Rattle.std.specs.Prelude.{ℕ, List, Option, false};
ghost use Rattle.std.specs.List.{AllZip};
ghost use Rattle.node_session.specs.SessionLaws.{CodedMessage};
ghost use Rattle.riak_msgs.specs.declared.Reply.{Reply};
ghost use Rattle.stats_book.specs.declared.totals.Totals.{Totals};
ghost use Rattle.node_session.specs.Answers.{AnswersInTurn};
ghost use Rattle.node_session.specs.Answered.{AnsweredInput};
ghost use Rattle.node_session.specs.Streams.{SourceView, TargetView};
ghost use Rattle.node_session.specs.Stages.{Came};
ghost use Rattle.node_session.specs.Session.{IsInputEnd, Stops};
ghost use Rattle.node_session.specs.declared.fault.SessionFault.{SessionFault};
ghost use Rattle.node_session.specs.declared.stage.Stage.{Stage};
ghost use Rattle.node_session.specs.declared.session.Session.{Session};
ghost use Rattle.gate_node.specs.GateStep.{NodeOverGates};
ghost use Rattle.gate_node.specs.Gates.{Gates};
ghost use Rattle.gate_node.specs.OneHistory.{IsSeen};
ghost use Rattle.gate_node.specs.Tallies.{GateHistory};
ghost use Rattle.gate_node.specs.Passes.{Sights};
ghost use Rattle.worker_pool.specs.Leaving.{IsEndOf};
ghost use Rattle.worker_pool.specs.Legal.{ToldSessionIsLegal};
ghost use Rattle.worker_pool.specs.PausedSessions.{PausedSessionView};
ghost use Rattle.worker_pool.specs.Telling.{ToldSession, IsToldSession, with_passes};
ghost use Rattle.worker_pool.specs.Resuming.{IsLater, ArePassesLater, RunNodeView, RunStep};
ghost use Rattle.worker_pool.specs.Resuming.{RunNodeStep, RunStepIn, standing};
ghost use Rattle.worker_pool.specs.declared.closed.Closed.{Closed};
ghost use Rattle.worker_pool.specs.declared.job.Job.{Job};
ghost use Rattle.worker_pool.specs.LegalJobs.{PlainRunIsLegal};

/// A session that rests is of one run: behind the messages that it has answered its node is over the gates that it began with, or over those that
/// these became by diversions. And a session's passes stay passes of the run's gates, however often partitions are diverted.
pub fn sessions_stay_in_their_run()
    ensures gates { (old : NodeOverGates) (messages : List CodedMessage)
        (replies : List Reply) (new : NodeOverGates)
        → AnswersInTurn RunStep old messages replies new → IsLater old.shared new.shared }
    ensures passes { (old new : Gates) (passes : Sights) → ArePassesLater old new passes }
{}

/// A session goes on where it rested: what it came to by a [`RunNode`](crate::RunNode), it came to by steps of a node over the gates as they were
/// then; and by such steps it has come as far for the node by which it goes on, over whatever gates, since that stands where it rested.
pub fn sessions_go_on()
    ensures so_far { (first now : RunNodeView) (source source' : SourceView)
        (target target' : TargetView) (stage : Stage) (session : Session)
        → Came RunNodeStep first now source source' target target' stage session
        → Came RunStep first.stands now.stands source source' target target' stage session }
    ensures further { (over : Gates) (before : Totals) (first now : NodeOverGates)
        (source source' : SourceView) (target target' : TargetView) (stage : Stage) (session : Session)
        → Came RunStep first now source source' target target' stage session
        → Came RunNodeStep (standing over before first) (standing over before now)
        source source' target target' stage session }
{}

/// Where the passes of a session have in the end seen beginnings of one list of histories, those of the primaries, each of its replies that isn't a
/// fallback's is at a position of the history of its key's vnode, however often it rested; and each step was over gates between those that it began
/// with and those of the end.
pub fn sessions_are_at_positions()
    ensures ended { (histories : List GateHistory) (shared : Gates) (old new : NodeOverGates)
        (input : List ℕ) (held held' : Option (List ℕ)) (count len : ℕ)
        → AnsweredInput RunStep old input held held' count (IsInputEnd new len)
        → AllZip IsSeen histories new.passes.primaries × IsLater new.shared shared
        → AnsweredInput (RunStepIn histories shared) old input held held' count
        (IsInputEnd new len) }
    ensures stopped { (histories : List GateHistory) (shared : Gates) (old new : NodeOverGates)
        (input : List ℕ) (held held' : Option (List ℕ)) (fault : SessionFault)
        → Stops RunStep old new input held held' fault
        → AllZip IsSeen histories new.passes.primaries × IsLater new.shared shared
        → Stops (RunStepIn histories shared) old new input held held' fault }
{}

/// Where the passes that a run of [`serve`](crate::serve) leaves have seen beginnings of one list of histories, at its end or behind any later run that it
/// handed them to, each session of which a sink was told is by steps in these: each of its replies that isn't a fallback's is at a position of the
/// history of its key's vnode.
pub fn told_sessions_are_at_positions<R, W>()
    ensures { (source : R → SourceView) (target : W → TargetView)
        (histories : List GateHistory) (shared : Gates)
        (given : List (PausedSessionView R W)) (seen : Sights) (one : ToldSession R W)
        → AllZip IsSeen histories seen.primaries
        → IsToldSession source target shared given seen one
        → IsEndOf source target shared (RunStepIn histories shared)
        one.session one.counted false (with_passes one.end one.passes one.session.origin) }
{}

/// Every reply of every such session, but an error of the gate and one for which memory was refused, is legal for the sibling register: at a position of
/// one legal history of its key's vnode, the same for all sessions, which has all that the session had seen of that.
///
/// It asks that no partition of the run has a fallback; that the tallies count all of the histories (`tallies_of` of `gate_node`); that the gates are those of a
/// new run `Shared` says.
pub fn told_sessions_are_legal<R, W>()
    ensures { (source : R → SourceView) (target : W → TargetView)
        (shared : Gates) (given : List (PausedSessionView R W)) (seen : Sights)
        (one : ToldSession R W)
        → ToldSessionIsLegal source target shared given seen one }
{}

/// Every reply of every session of [`Pool::run`](crate::Pool::run), but an error of the gate and one for which memory was refused, is legal for the
/// sibling register: at a position of one legal history of its key's vnode, which has all that the session had seen of that.
///
/// It asks that no partition of the run has a fallback, and that the tallies count all of the histories (`count_all` of [`Closed`](crate::Closed)); that the
/// gates are those of a new run `Shared` says.
pub fn pool_replies_are_legal<I, O>()
    ensures { (source : I → SourceView) (target : O → TargetView) (shared : Gates)
        (workers : ℕ) (jobs : List (Job I O)) (closed : Closed I O)
        → PlainRunIsLegal source target shared workers jobs closed }
{}

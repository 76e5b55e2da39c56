//! Where a node over gates answers.
ghost use Rattle.std.specs.Prelude.{◌≡◌, ℕ, List};
ghost use Rattle.node_session.specs.SessionLaws.{CodedMessage};
ghost use Rattle.riak_msgs.specs.Contents.{Content};
ghost use Rattle.riak_msgs.specs.declared.Request.{Request};
ghost use Rattle.riak_msgs.specs.declared.Reply.{Reply};
ghost use Rattle.vnode_machine.specs.Machine.{State};
ghost use Rattle.rw_gate.specs.Views.{GateId};
ghost use Rattle.vnode_core.specs.declared.event.VnodeEvent.{VnodeEvent};
ghost use Rattle.vnode_core.specs.Plans.{View};
ghost use Rattle.node_session.specs.Answers.{AnswersInTurn};
ghost use Rattle.gate_node.specs.GateStep.{NodeOverGates, GateNodeStep};
ghost use Rattle.gate_node.specs.Gates.{Gates};
ghost use Rattle.gate_node.specs.Legal.{PositionIsLegal};
ghost use Rattle.gate_node.specs.Passes.{Sights, OutliveDiversion};
ghost use Rattle.gate_node.specs.Sessions.{most_of, CountsUpTo};
ghost use Rattle.gate_node.specs.Plain.{PlainStepIsRegister, TalliesArePlain};
ghost use Rattle.gate_node.specs.Tallies.{GateHistory};
ghost use Rattle.vnode_core.specs.declared.vnode.tally.Tally.{Tally};
ghost use Rattle.gate_node.specs.OneHistory.{StepIn, AnswersIn};
ghost use Rattle.gate_node.specs.Registers.{RunIsRegister, EndIsRegister, StopIsRegister};
ghost use Rattle.node_session.specs.declared.fault.SessionFault.{SessionFault};
ghost use Rattle.std.specs.Prelude.{Option};

/// Each position at which a [`GateNode`](crate::GateNode) answers, and before which commands alone stand, is a legal history of the
/// sibling register, and the state there is its replay. For the node's step names the position and its run (`leads` of `IsMade` and `IsSaid` in
/// `specs/Asking` of `rw_gate`), that the gate was made round a new vnode, and that the id of this vnode is one that a vnode can have: for that of
/// the key's partition `made_new` and `limits` of `AtIndex` in `specs/GateStep`, for the partition's fallback those of `IsFallback`
/// (`is_new` of `AtFallback` and of `AtClosed`).
pub fn positions_are_legal()
    ensures { (vnode last_epoch : ℕ) (gate : GateId View)
        (events : List VnodeEvent) (state : State Content)
        → PositionIsLegal vnode last_epoch gate events state }
{}

/// A session over a [`GateNode`](crate::GateNode) keeps its gates: after the messages that `serve` has answered, by a run of
/// the node's step, the node is over the gates that it was made over.
pub fn sessions_keep_their_gates()
    ensures { (old : NodeOverGates) (messages : List CodedMessage)
        (replies : List Reply) (new : NodeOverGates)
        → AnswersInTurn GateNodeStep old messages replies new → new.shared ≡ old.shared }
{}

/// A caller's passes outlive diversions: what passes of a run's gates have to be for a node over them, they are after a partition was
/// diverted, for the first time or again. For a pass that is kept of a fallback has the number of its diversion, and no later diversion
/// has that number.
pub fn passes_outlive_diversions()
    ensures { (index : ℕ) (old new : Gates) (passes : Sights)
        → OutliveDiversion index old new passes }
{}

/// A session over a [`GateNode`](crate::GateNode) counts its replies: each reply to a get as a get, each to a put as a put,
/// at most each to a delete as a delete and each error as a refusal, and for each of them at most as many dead keys as the
/// budget allows. It counts nothing else, and where the book had no room for something, less.
pub fn sessions_count_their_replies()
    ensures { (old : NodeOverGates) (messages : List CodedMessage)
        (replies : List Reply) (new : NodeOverGates)
        → AnswersInTurn GateNodeStep old messages replies new
        → CountsUpTo (most_of old.shared.budget replies) old.count new.count }
{}

/// A session over a [`GateNode`](crate::GateNode) is one over the sibling register, which others ask too.
///
/// What the register keeps is the history of each vnode, for good, and no clocks. Each request is answered at the vnode of its key, at one
/// position of that history which has all that the node had seen of it: a get shows the siblings and the context of the position; a put or
/// a delete is refused as the register may refuse it there, or is the next command, and its reply shows the position after it. Commands of
/// other callers may stand between two of the session's, and the history with the command is legal. An error of the gate, that the history
/// has moved or is full, or that the vnode is closed, is no command, and neither is a ping, nor a request for which memory was refused.
///
/// `run` is about messages and replies. `ended` and `stopped` are about bytes: what a session wrote for its input, however that was cut, to
/// its end or to any fault.
///
/// All of this is so where the node has seen commands alone in the end: no copy of a key from another vnode, and no close. It had then seen
/// no other entries all along, and so no request was answered at a primary whose partition's fallback is closed.
///
/// What two sessions over the gates of one run have seen of a vnode begins one history (`Pass::is_behind` of `rw_gate`).
pub fn gate_node_is_register()
    ensures run { (old new : NodeOverGates) (messages : List CodedMessage) (replies : List Reply)
        → RunIsRegister old new messages replies }
    ensures ended { (old new : NodeOverGates) (input : List ℕ)
        (held held' : Option (List ℕ)) (count len : ℕ)
        → EndIsRegister old new input held held' count len }
    ensures stopped { (old new : NodeOverGates) (input : List ℕ)
        (held held' : Option (List ℕ)) (fault : SessionFault)
        → StopIsRegister old new input held held' fault }
{}

/// Each reply of a node whose passes have seen beginnings of one list of histories is at a position of the history of its key's vnode. For
/// where a step in these histories answers a get, a put or a delete, the events of which the reply is (`answered` of `steps` of `AtIndex` in
/// `specs/GateStep`) are a beginning of that history. These are the histories of the primaries: where a fallback answers, the law says
/// nothing. Whoever serves several connections over the gates of a run, and takes the tallies of the run behind them
/// ([`tallies_of`](crate::tallies_of)), can say of each of their steps that it is one in the same histories (`StepIn` of `specs/OneHistory`).
pub fn replies_are_at_positions()
    ensures { (histories : List GateHistory)
        (old : NodeOverGates) (request : Request) (reply : Reply)
        (new : NodeOverGates) (step : StepIn histories old request reply new)
        → AnswersIn histories old request reply new step }
{}

/// Where no partition of a new run has a fallback, and each tally counts as many commands as its vnode's history has entries
/// (`count_all` of [`RunTallies`](crate::RunTallies)), the histories are of commands alone, and legal for the sibling register. And each step of a
/// node in such histories (`StepIn` of `specs/OneHistory`) is one of the register among others ([`gate_node_is_register`]): every reply but an
/// error of the gate is the register's, at a position of one legal history of the key's vnode that has all that the node had seen of it.
pub fn plain_replies_are_legal()
    ensures tallies { (shared : Gates) (histories : List GateHistory) (tallies : List Tally)
        → TalliesArePlain shared histories tallies }
    ensures steps { (shared : Gates) (histories : List GateHistory)
        (old : NodeOverGates) (request : Request) (reply : Reply) (new : NodeOverGates)
        → PlainStepIsRegister shared histories old request reply new }
{}

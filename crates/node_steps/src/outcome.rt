//! The outcome of a step.

ghost use Rattle.std.specs.Prelude.{IsSome};
ghost use Rattle.node_steps.specs.Hands.{response_of, IsReturned};

use riak_msgs::Reply;
use vnode_core::{Answer, Reaped};

/// The outcome of a step.
#[derive(Drop)]
pub enum Outcome {
    /// The step isn't possible, and nothing changed.
    No,
    /// It was taken, and answers nothing.
    Done,
    /// It answered the worker's get, put or delete: by a response, or by the error of a refusal.
    Reply(Reply),
    /// It answered the worker's reap: the key is forgotten.
    Reaped,
    /// It answered the worker's reap: the key isn't dead, and stays as it is; or a copier: the fallback
    /// doesn't hold the key.
    Kept,
    /// The key was copied back.
    Copied,
    /// The key isn't copied: with the copy it would have too many siblings at the primary, or its clock
    /// too many actors.
    Stuck,
    /// The fallback is closed: a call goes on to the primary, and a copier or a closer is done.
    Elsewhere,
    /// The fallback isn't closed: so many of its keys aren't copied as they are now. At most
    /// 18,446,744,073,709,551,615 are told.
    Left(u64),
}

/// What a worker is returned for an answer of its vnode to a put, a delete or a reap.
pub(crate) fn answered(answer: Answer) -> Outcome
    requires { IsSome (response_of answer) }
    ensures { IsReturned answer result }
{
    match answer {
        Answer::Put(reply) => Outcome::Reply(Reply::Put(reply)),
        Answer::Del => Outcome::Reply(Reply::Del),
        Answer::Reaped(Reaped::Gone) => Outcome::Reaped,
        Answer::Reaped(Reaped::Kept | Reaped::Absent) => Outcome::Kept,
        Answer::Copied | Answer::Stuck | Answer::Closed => unreachable!(),
    }
}

//! The answer to a write, as it lies ready.

ghost use Rattle.std.specs.Prelude.{◌≡◌, IfOk};
ghost use Rattle.vnode_core.specs.declared.ask.Answer.TheVariants as answers;
ghost use Rattle.vnode_core.specs.Replies.{nothing_after};

use crate::ask::Answer;
use riak_msgs::{ContextBytes, PutReply, Sequence};
use std::alloc::{AllocError, Global};
use std::marker::Model;

/// The answer to a write that is prepared: to a delete, or to a put. A reply that shows something lies
/// behind a pointer, since most puts are shown nothing, and what lies ready is moved twice. Contracts see
/// the answer.
#[derive(Drop)]
pub(crate) struct LaidAnswer {
    is_put: bool,
    shown: Option<Box<PutReply>>,
    alloc: Global,
}

impl Model for LaidAnswer {
    ghost use Rattle.std.specs.Option.{option_map};
    ghost use Rattle.vnode_core.specs.declared.ask.Answer.{Answer};
    ghost use Rattle.vnode_core.specs.LaidAnswers.{answer_laid};

    ghost Value = { Answer };

    ghost view = { λ l. answer_laid l.is_put (option_map (λ b. b.value) l.shown) };
}

/// The reply of a put that is shown nothing.
#[inline(always)]
fn nothing_shown(alloc: Global) -> PutReply
    ensures { result ≡ nothing_after }
{
    PutReply {
        contents: Sequence::new(alloc),
        context: ContextBytes::new(alloc),
    }
}

impl LaidAnswer {
    /// To a delete. It takes no memory.
    #[inline(always)]
    pub(crate) fn of_del(alloc: Global) -> LaidAnswer
        ensures { result ≡ answers.Del }
    {
        LaidAnswer {
            is_put: false,
            shown: None,
            alloc,
        }
    }

    /// To a put that is shown nothing. It takes no memory.
    #[inline(always)]
    pub(crate) fn of_put(alloc: Global) -> LaidAnswer
        ensures { result ≡ answers.Put nothing_after }
    {
        LaidAnswer {
            is_put: true,
            shown: None,
            alloc,
        }
    }

    /// To a put that is shown something. Refused where there is no memory for it.
    pub(crate) fn of_reply(alloc: Global, reply: PutReply) -> Result<LaidAnswer, AllocError>
        ensures { IfOk result (λ laid. laid ≡ answers.Put reply) }
    {
        match Box::new(alloc, reply) {
            Ok(reply) => {
                let shown = Some(reply);
                Ok(LaidAnswer {
                    is_put: true,
                    shown,
                    alloc,
                })
            }
            Err(_) => Err(AllocError),
        }
    }

    /// The answer. It takes no memory.
    #[inline(always)]
    pub(crate) fn into_answer(self) -> Answer
        ensures { result ≡ self }
    {
        let LaidAnswer {
            is_put,
            shown,
            alloc,
        } = self;
        match shown {
            None => {
                if is_put {
                    return Answer::Put(nothing_shown(alloc));
                }
                Answer::Del
            }
            Some(reply) => {
                if is_put {
                    return Answer::Put(Box::into_inner(reply));
                }
                Answer::Del
            }
        }
    }
}

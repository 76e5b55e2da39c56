//! The replies for what came of an ask, and what they are counted as.
ghost use Rattle.std.specs.Prelude.{◌≡◌};
ghost use Rattle.gate_node.specs.Asked.{answer_quantity, get_quantity, outcome_quantity};
ghost use Rattle.gate_node.specs.Asked.{outcome_reply, told_quantity};

use riak_msgs::{Reply, Text};
use rw_gate::AskOutcome;
use stats_book::Quantity;
use vnode_core::{Answer, Refusal};

/// The reply for what came of an ask: its answer, or an error.
fn outcome_reply(outcome: AskOutcome<Answer, Refusal>) -> Reply
    ensures { result ≡ outcome_reply outcome }
{
    match outcome {
        AskOutcome::Made(answer) | AskOutcome::Told(answer) => Reply::from(answer),
        AskOutcome::Refused(refusal) => Reply::Error(Text::from(refusal)),
        AskOutcome::Moved => Reply::Error(Text::Moved),
        AskOutcome::Full => Reply::Error(Text::HistoryFull),
    }
}

/// What a get is counted as, by its reply.
pub(crate) fn get_quantity(reply: &Reply) -> Quantity
    ensures { result ≡ get_quantity reply.now }
{
    match reply {
        Reply::Error(_) => Quantity::Refusals,
        Reply::Ping | Reply::Get(_) | Reply::Put(_) | Reply::Del => Quantity::Gets,
    }
}

/// What an accepted command is counted as; a copy or a close, which no request asks for, as the error that is replied to it.
fn answer_quantity(answer: &Answer) -> Quantity
    ensures { result ≡ answer_quantity answer.now }
{
    match answer {
        Answer::Put(_) => Quantity::Puts,
        Answer::Del => Quantity::Deletes,
        Answer::Reaped(_) => Quantity::Reaps,
        Answer::Copied | Answer::Stuck | Answer::Closed => Quantity::Refusals,
    }
}

/// What an answer that changes nothing is counted as: that of a closed vnode is an error.
fn told_quantity(answer: &Answer) -> Option<Quantity>
    ensures { result ≡ told_quantity answer.now }
{
    match answer {
        Answer::Closed => Some(Quantity::Refusals),
        Answer::Put(_) | Answer::Del | Answer::Reaped(_) | Answer::Copied | Answer::Stuck => None,
    }
}

/// What is counted of what came of an ask. A delete that changes nothing isn't, but the error that its vnode is closed is.
fn outcome_quantity(outcome: &AskOutcome<Answer, Refusal>) -> Option<Quantity>
    ensures { result ≡ outcome_quantity outcome.now }
{
    match outcome {
        AskOutcome::Made(answer) => Some(answer_quantity(answer)),
        AskOutcome::Told(answer) => told_quantity(answer),
        AskOutcome::Refused(_) | AskOutcome::Moved | AskOutcome::Full => Some(Quantity::Refusals),
    }
}

/// The reply for what came of an ask, and what is counted of it.
#[inline(always)]
pub(crate) fn counted_reply(outcome: AskOutcome<Answer, Refusal>) -> (Reply, Option<Quantity>)
    ensures reply { result.0 ≡ outcome_reply outcome }
    ensures quantity { result.1 ≡ outcome_quantity outcome }
{
    let quantity = outcome_quantity(&outcome);
    (outcome_reply(outcome), quantity)
}

//! The line that is answered to a step.

ghost use Rattle.std.specs.Prelude.{◌≡◌, IfOk};
ghost use Rattle.schedule_player.specs.Answers.{answer_line};

use node_steps::Outcome;
use schedule_text::{LineOutcome, write_outcome};
use std::alloc::{AllocError, Global};

/// The line for what came of the step of a line of this number. It is refused where memory is.
pub(crate) fn write_answer(
    alloc: Global,
    number: u64,
    outcome: &Outcome,
) -> Result<Vec<u8>, AllocError>
    ensures { IfOk result (λ line. line.items ≡ answer_line number outcome.now) }
{
    match outcome {
        Outcome::No => write_outcome(alloc, number, LineOutcome::No),
        Outcome::Done => write_outcome(alloc, number, LineOutcome::Done),
        Outcome::Reply(reply) => write_outcome(alloc, number, LineOutcome::Reply(reply)),
        Outcome::Reaped => write_outcome(alloc, number, LineOutcome::Reaped),
        Outcome::Kept => write_outcome(alloc, number, LineOutcome::Kept),
        Outcome::Copied => write_outcome(alloc, number, LineOutcome::Copied),
        Outcome::Stuck => write_outcome(alloc, number, LineOutcome::Stuck),
        Outcome::Elsewhere => write_outcome(alloc, number, LineOutcome::Elsewhere),
        Outcome::Left(keys) => write_outcome(alloc, number, LineOutcome::Left(*keys)),
    }
}

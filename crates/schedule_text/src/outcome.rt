//! The line of a step's outcome.

ghost use Rattle.std.specs.Prelude.{◌≡◌, ◌++◌, IfOk, OnOk};
ghost use Rattle.schedule_text.specs.Outcomes.{left_text, outcome_line, outcome_text, reply_text};

use itoa::Buffer;
use riak_msgs::{Reply, write_reply};
use std::alloc::{AllocError, Global};

/// The outcome of a step, as its line holds it.
#[derive(Clone, Copy)]
pub enum LineOutcome<'a> {
    /// The step was not possible, and nothing changed: `no`.
    No,
    /// The step was taken, and nobody was answered: `ok`.
    Done,
    /// The step answered a get, a put or a delete: `reply` and its code and body.
    Reply(&'a Reply),
    /// The step forgot a dead key: `reaped`.
    Reaped,
    /// The step found that a reap's key isn't dead, or that the fallback doesn't hold a copier's: `kept`.
    Kept,
    /// The step copied a key back: `copied`.
    Copied,
    /// The step found that the primary would have too much of a copier's key: `stuck`.
    Stuck,
    /// The step found the fallback closed: `elsewhere`.
    Elsewhere,
    /// The step found that so many keys of the fallback aren't copied as they are now: `left` and their number.
    Left(u64),
}

/// Appends a reply's code and body in lower-case hexadecimal.
fn append_reply(alloc: Global, out: &mut Vec<u8>, reply: &Reply) -> Result<(), AllocError>
    ensures { OnOk result (out.new.items ≡ out.old.items ++ reply_text reply.now) }
{
    let Ok(message) = write_reply(alloc, reply) else {
        return Err(AllocError);
    };
    let digits = hex::encode(alloc, message.as_slice())?;
    out.extend_from_slice(digits.as_bytes())
}

/// Appends `left`, a space and how many keys are left, in decimal.
fn append_left(out: &mut Vec<u8>, keys: u64) -> Result<(), AllocError>
    ensures { OnOk result (out.new.items ≡ out.old.items ++ left_text keys) }
{
    let mut buffer = Buffer::new();
    out.extend_from_slice(b"left ")?;
    out.extend_from_slice(buffer.format(keys).as_bytes())
}

/// Appends an outcome as a line holds it.
fn append_outcome(
    alloc: Global,
    out: &mut Vec<u8>,
    outcome: LineOutcome<'_>,
) -> Result<(), AllocError>
    ensures { OnOk result (out.new.items ≡ out.old.items ++ outcome_text outcome.entry) }
{
    match outcome {
        LineOutcome::No => out.extend_from_slice(b"no"),
        LineOutcome::Done => out.extend_from_slice(b"ok"),
        LineOutcome::Reply(reply) => {
            out.extend_from_slice(b"reply ")?;
            append_reply(alloc, out, reply)
        }
        LineOutcome::Reaped => out.extend_from_slice(b"reaped"),
        LineOutcome::Kept => out.extend_from_slice(b"kept"),
        LineOutcome::Copied => out.extend_from_slice(b"copied"),
        LineOutcome::Stuck => out.extend_from_slice(b"stuck"),
        LineOutcome::Elsewhere => out.extend_from_slice(b"elsewhere"),
        LineOutcome::Left(keys) => append_left(out, keys),
    }
}

/// The line of an outcome: the number of the step's line in decimal, one space, the outcome, and a line
/// feed. A reply is written as its message code and its body, in lower-case hexadecimal.
///
/// It is refused where memory is.
pub fn write_outcome(
    alloc: Global,
    number: u64,
    outcome: LineOutcome<'_>,
) -> Result<Vec<u8>, AllocError>
    ensures line { IfOk result (λ line. line.items ≡ outcome_line number outcome.entry) }
{
    let mut buffer = Buffer::new();
    let mut line = Vec::from_slice(alloc, buffer.format(number).as_bytes())?;
    line.extend_from_slice(b" ")?;
    append_outcome(alloc, &mut line, outcome)?;
    line.extend_from_slice(b"\n")?;
    Ok(line)
}

//! Reading a line of a schedule.

ghost use Rattle.schedule_text.specs.Reading.{ReadsLine};

use crate::cut::cut_at;
use crate::fault::LineFault;
use crate::line::{GateStep, KeyStep, Line};
use crate::operands::{read_ask, read_close, read_divert, read_gate_step, read_keyed};
use std::alloc::Global;

/// The step that a line asks for, where there are `workers` workers. The text is the line without its line feed.
///
/// A step's word and its worker, with one space between: `enter`, `leave`, `mark`, `unmark`, `take`,
/// `put`, `look` or `publish`, and a decimal number from 1 to `workers` that doesn't begin with a zero.
/// Behind `ask`, `reap` and `copy` follow one more space and a message in lower-case hexadecimal: a
/// message code and a body, which [`read_request`](riak_msgs::read_request) has to read. For `ask` it is
/// a get (9), a put (11) or a delete (13); for the two others it is a get, whose key is meant and whose
/// options aren't looked at. Behind `divert` stands no worker but a partition's index, from 0 to 65,535,
/// in decimal without leading zeros; behind `close` the worker, one more space, and such an index. That
/// there is such a partition isn't asked here.
///
/// Refused by:
/// - `BadStep`: exactly where the text is no such line. All but the message is looked at before any memory is taken.
/// - `NoMemory`: memory was refused, for an `ask`, a `reap` or a `copy` of this form; whether its message
///   is a request is then not known.
pub fn read_line(alloc: Global, text: &[u8], workers: u16) -> Result<Line, LineFault>
    ensures reads { ReadsLine workers text.now result }
{
    let Some((word, operands)) = cut_at(text, b' ') else {
        return Err(LineFault::BadStep);
    };
    let is_ask = word == b"ask".as_slice();
    if is_ask {
        return read_ask(alloc, operands, workers);
    }
    let is_reap = word == b"reap".as_slice();
    if is_reap {
        return read_keyed(KeyStep::Reap, alloc, operands, workers);
    }
    let is_copy = word == b"copy".as_slice();
    if is_copy {
        return read_keyed(KeyStep::Copy, alloc, operands, workers);
    }
    let is_divert = word == b"divert".as_slice();
    if is_divert {
        return read_divert(operands);
    }
    let is_close = word == b"close".as_slice();
    if is_close {
        return read_close(operands, workers);
    }
    match GateStep::named(word) {
        Some(step) => read_gate_step(step, operands, workers),
        None => Err(LineFault::BadStep),
    }
}

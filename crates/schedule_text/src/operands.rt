//! The operands of a line, behind its word: a worker's number, and a message or a partition's index; or
//! such an index alone.

ghost use Rattle.std.specs.Prelude.{◌≡◌, ◌↔◌, ℕ, IsTrue, decimal, codes};
ghost use Rattle.std.specs.Str.{bytes_eq};
ghost use Rattle.schedule_text.specs.Lines.{IsWorker, gate_word, key_word};
ghost use Rattle.schedule_text.specs.Reading.{MakesKeyed, ReadsAsked, ReadsDecimal, ReadsOperands};
ghost use Rattle.schedule_text.specs.Reading.{ReadsWorker};

use crate::cut::cut_at;
use crate::fault::LineFault;
use crate::line::{GateStep, KeyStep, Line, LineAction};
use crate::message::read_hex_message;
use itoa::Buffer;
use riak_msgs::Request;
use std::alloc::Global;

/// Whether a text writes a number in decimal without leading zeros.
fn is_decimal_of(text: &[u8], number: u16) -> bool
    ensures { result ≡ bytes_eq (decimal number) text.now }
{
    let mut buffer = Buffer::new();
    buffer.format(number).as_bytes() == text
}

/// The number that a text writes in decimal without leading zeros, where it is at most 65,535.
fn read_decimal(text: &[u8]) -> Option<u16>
    ensures { ReadsDecimal text.now result }
{
    let Ok(digits) = str::from_utf8(text) else {
        return None;
    };
    let Ok(number) = digits.parse::<u16>() else {
        return None;
    };
    if is_decimal_of(text, number) {
        Some(number)
    } else {
        None
    }
}

/// Whether a worker has this number.
fn is_worker(worker: u16, workers: u16) -> bool
    ensures { IsTrue result ↔ IsWorker workers worker }
{
    1 <= worker && worker <= workers
}

/// The worker of this number: decimal without leading zeros, from 1 to how many workers there are.
fn read_worker(text: &[u8], workers: u16) -> Option<u16>
    ensures { ReadsWorker workers text.now result }
{
    match read_decimal(text) {
        Some(worker) => {
            if is_worker(worker, workers) {
                Some(worker)
            } else {
                None
            }
        }
        None => None,
    }
}

/// The worker, and the request that it is asked.
fn read_asked(alloc: Global, text: &[u8], workers: u16) -> Result<(u16, Request), LineFault>
    ensures { ReadsAsked workers text.now result }
{
    let Some((number, digits)) = cut_at(text, b' ') else {
        return Err(LineFault::BadStep);
    };
    let Some(worker) = read_worker(number, workers) else {
        return Err(LineFault::BadStep);
    };
    match read_hex_message(alloc, digits) {
        Ok(request) => Ok((worker, request)),
        Err(fault) => Err(fault),
    }
}

/// The line that asks for a get, a put or a delete.
pub(crate) fn read_ask(alloc: Global, text: &[u8], workers: u16) -> Result<Line, LineFault>
    ensures { ReadsOperands (codes "ask") workers text.now result }
{
    match read_asked(alloc, text, workers) {
        Ok((worker, request)) => Ok(Line::By(worker, LineAction::Ask(request))),
        Err(fault) => Err(fault),
    }
}

/// The line of a step with the key that a get names. Another request is let go.
fn keyed_of(step: KeyStep, worker: u16, request: Request) -> Result<Line, LineFault>
    ensures { MakesKeyed step worker request result }
{
    match request {
        Request::Get(get) => Ok(Line::By(worker, LineAction::Key(step, get.key))),
        _ => Err(LineFault::BadStep),
    }
}

/// The line that asks for a step with a key, a reap or a copy: its request is a get, of which the key counts.
pub(crate) fn read_keyed(
    step: KeyStep,
    alloc: Global,
    text: &[u8],
    workers: u16,
) -> Result<Line, LineFault>
    ensures { ReadsOperands (key_word step) workers text.now result }
{
    match read_asked(alloc, text, workers) {
        Ok((worker, request)) => keyed_of(step, worker, request),
        Err(fault) => Err(fault),
    }
}

/// The line of a gate's step.
pub(crate) fn read_gate_step(step: GateStep, text: &[u8], workers: u16) -> Result<Line, LineFault>
    ensures { ReadsOperands (gate_word step) workers text.now result }
{
    match read_worker(text, workers) {
        Some(worker) => Ok(Line::By(worker, LineAction::Gate(step))),
        None => Err(LineFault::BadStep),
    }
}

/// The line of a worker that closes a partition's fallback: the worker's number, one space, and the
/// index, decimal without leading zeros, up to 65,535.
pub(crate) fn read_close(text: &[u8], workers: u16) -> Result<Line, LineFault>
    ensures { ReadsOperands (codes "close") workers text.now result }
{
    let Some((number, digits)) = cut_at(text, b' ') else {
        return Err(LineFault::BadStep);
    };
    let Some(worker) = read_worker(number, workers) else {
        return Err(LineFault::BadStep);
    };
    match read_decimal(digits) {
        Some(index) => Ok(Line::Close(worker, index)),
        None => Err(LineFault::BadStep),
    }
}

/// The line by which a partition is diverted: its index, decimal without leading zeros, up to 65,535.
pub(crate) fn read_divert(text: &[u8]) -> Result<Line, LineFault>
    ensures { (workers : ℕ) → ReadsOperands (codes "divert") workers text.now result }
{
    match read_decimal(text) {
        Some(index) => Ok(Line::Divert(index)),
        None => Err(LineFault::BadStep),
    }
}

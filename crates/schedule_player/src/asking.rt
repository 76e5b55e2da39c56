//! The step that a line asks for, of the running world.

ghost use Rattle.std.specs.Prelude.{◌≡◌, ℕ, IfOk, is_some};
ghost use Rattle.schedule_player.specs.Asked.{gate_step, index_for, line_step};
ghost use Rattle.schedule_player.specs.Calls.{call_in, call_of, IsNoteOf};
ghost use Rattle.schedule_player.specs.Heard.{is_diversion};
ghost use Rattle.schedule_player.specs.Reads.{ReadsStep};
ghost use Rattle.node_steps.specs.Steps.{number_of};
ghost use Rattle.node_steps.specs.Asked.{step_of};

use crate::fault::StepsFault;
use node_steps::Step;
use riak_msgs::Request;
use ring_map::Ring;
use schedule_text::{GateStep, KeyStep, Line, LineAction, LineFault, read_line};
use std::alloc::{AllocError, Global};

/// The index of the partition that a request is for. (A ping is for none, and no line asks for one.)
fn index_for(ring: Ring, request: &Request) -> u16
    ensures { result ≡ index_for ring request.now }
{
    match request {
        Request::Ping => 0,
        Request::Get(get) => ring.index(&get.key),
        Request::Put(put) => ring.index(&put.key),
        Request::Del(del) => ring.index(&del.key),
    }
}

/// A worker's step at the gate of the vnode that it was asked for.
fn gate_step(worker: u16, step: GateStep) -> Step
    ensures { result ≡ gate_step worker step }
{
    match step {
        GateStep::Enter => Step::Enter(worker),
        GateStep::Leave => Step::Leave(worker),
        GateStep::Mark => Step::Mark(worker),
        GateStep::Unmark => Step::Unmark(worker),
        GateStep::Take => Step::Take(worker),
        GateStep::Put => Step::Put(worker),
        GateStep::Look => Step::Look(worker),
        GateStep::Publish => Step::Publish(worker),
    }
}

/// The step of a line: its worker's, and where it asks, reaps or copies for the partition of the key, or
/// closes; or a partition's.
fn line_step(ring: Ring, line: Line) -> Step
    ensures { result ≡ line_step ring line }
{
    match line {
        Line::By(worker, LineAction::Ask(request)) => {
            let index = index_for(ring, &request);
            Step::Ask(worker, index, request)
        }
        Line::By(worker, LineAction::Key(KeyStep::Reap, key)) => {
            let index = ring.index(&key);
            Step::Reap(worker, index, key)
        }
        Line::By(worker, LineAction::Key(KeyStep::Copy, key)) => {
            let index = ring.index(&key);
            Step::Copy(worker, index, key)
        }
        Line::By(worker, LineAction::Gate(step)) => gate_step(worker, step),
        Line::Divert(index) => Step::Divert(index),
        Line::Close(worker, index) => Step::Close(worker, index),
    }
}

/// The step that a line of this number asks for, where there are so many workers.
///
/// Refused by:
/// - `BadStep`: exactly where the text asks for no step.
/// - `NoMemory`: memory was refused.
pub(crate) fn read_step(
    alloc: Global,
    text: &[u8],
    workers: u16,
    ring: Ring,
    number: u32,
) -> Result<Step, StepsFault>
    ensures { ReadsStep workers ring number text.now result }
{
    match read_line(alloc, text, workers) {
        Ok(line) => Ok(line_step(ring, line)),
        Err(LineFault::BadStep) => Err(StepsFault::BadStep(number)),
        Err(LineFault::NoMemory) => Err(StepsFault::NoMemory),
    }
}

/// Whether the step asks something, and so gives its worker a call. (To ask a ping is no call.)
pub(crate) fn asks(step: &Step) -> bool
    ensures { result ≡ is_some (call_of step.now) }
{
    match step {
        Step::Ask(_, _, request) => !matches!(request, Request::Ping),
        _ => matches!(step, Step::Reap(_, _, _)),
    }
}

/// A copy of the step on the heap, if it gives its worker a call.
#[tactic(auto, using(crate::proofs::Calls::none_is))]
fn kept_call(alloc: Global, step: &Step) -> Result<Option<Box<Step>>, AllocError>
    ensures { IfOk result (λ call. call_in call ≡ call_of step.now) }
{
    if !asks(step) {
        return Ok(None);
    }
    let copy = step.clone(alloc)?;
    let call = Box::new(alloc, copy)?;
    Ok(Some(call))
}

/// The number of the worker that takes a step; 0 of a partition's.
fn worker_of(step: &Step) -> u16
    ensures { result ≡ number_of (step_of step.now) }
{
    match step {
        Step::Ask(worker, _, _) => *worker,
        Step::Reap(worker, _, _) => *worker,
        Step::Copy(worker, _, _) => *worker,
        Step::Close(worker, _) => *worker,
        Step::Enter(worker)
        | Step::Leave(worker)
        | Step::Mark(worker)
        | Step::Unmark(worker)
        | Step::Take(worker)
        | Step::Put(worker)
        | Step::Look(worker)
        | Step::Publish(worker) => *worker,
        Step::Divert(_) => 0,
    }
}

/// What is to be heard of a step that is taken.
#[derive(Drop)]
pub(crate) enum Note {
    /// The worker of this number takes it, and gets this call by it, if it asks something.
    OfWorker(u16, Option<Box<Step>>),
    /// It diverts a partition.
    OfDiversion,
}

/// Whether the step diverts a partition.
fn is_diversion(step: &Step) -> bool
    ensures { result ≡ is_diversion (step_of step.now) }
{
    matches!(step, Step::Divert(_))
}

/// What is to be heard of a step. It is refused where memory is.
pub(crate) fn note_of(alloc: Global, step: &Step) -> Result<Note, AllocError>
    ensures { IfOk result (λ note. IsNoteOf note (step_of step.now)) }
{
    if is_diversion(step) {
        return Ok(Note::OfDiversion);
    }
    let call = kept_call(alloc, step)?;
    Ok(Note::OfWorker(worker_of(step), call))
}

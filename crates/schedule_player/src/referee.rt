//! What the comparison with a plain register is told of a run.

ghost use Rattle.std.specs.Prelude.{◌≡◌, ◌-◌, IfOk, OnOk, Some, map, option_and_then};
ghost use Rattle.std.specs.Prelude.{option_copied};
ghost use Rattle.std.specs.Option.{option_map_or};
ghost use Rattle.riak_msgs.specs.Contents.{Content};
ghost use Rattle.node_steps.specs.Asked.{Context, RegisterAsk};
ghost use Rattle.node_steps.specs.declared.outcome.Outcome.TheVariants.{Done};
ghost use Rattle.schedule_text.specs.Compared.{after_call};
ghost use Rattle.schedule_player.specs.Calls.{after_note, call_in, call_of};
ghost use Rattle.schedule_player.specs.Heard.{after_act, after_diversion, last_call, nothing_heard};
ghost use Rattle.schedule_player.specs.Heard.{reaped, replied, with_call};

use crate::asking::{Note, asks};
use node_steps::{Outcome, Step};
use riak_msgs::Reply;
use schedule_text::{Comparison, Verdict};
use std::alloc::{AllocError, Global};
use std::marker::Model;

/// The last call of each worker, and the comparison, which is told of it when it is given and when it is
/// answered. Contracts see what is heard of a run (`specs/Heard`).
#[derive(Drop)]
pub(crate) struct Referee {
    calls: Vec<Option<Box<Step>>>,
    comparison: Comparison,
}

impl Model for Referee {
    ghost use Rattle.std.specs.Prelude.{map};
    ghost use Rattle.schedule_player.specs.Calls.{call_in};
    ghost use Rattle.schedule_player.specs.Heard.{Heard};

    ghost Value = { Heard };

    ghost view = { λ r. record {
      calls = map call_in r.calls.items;
      compared = r.comparison;
    } };
}

/// Where the last call of a worker lies. Workers are numbered from 1.
fn place_of(worker: u16) -> usize
    ensures { result ≡ worker - 1 }
{
    usize::from(worker.saturating_sub(1))
}

/// The last call of a worker.
#[tactic(auto, using(crate::proofs::Calls::last_is))]
fn last_call(calls: &[Option<Box<Step>>], worker: u16) -> Option<&Step>
    ensures { option_and_then call_of (option_copied result)
        ≡ last_call (map call_in calls.now) worker }
{
    match calls.get(place_of(worker)) {
        None => None,
        Some(None) => None,
        Some(Some(call)) => Some(&**call),
    }
}

/// Compares the answer to a worker's get, put or delete with the register's.
#[tactic(auto, using(crate::proofs::Calls::replied_is))]
fn compare(
    comparison: &mut Comparison,
    alloc: Global,
    line: u64,
    call: Option<&Step>,
    reply: &Reply,
) -> Result<(), AllocError>
    ensures { OnOk result (comparison.new
        ≡ option_map_or (λ ask. replied line reply.now ask comparison.old)
        (option_and_then call_of (option_copied call.entry)) comparison.old) }
{
    match call {
        Some(Step::Ask(_, _, request)) => comparison.reply(alloc, line, request, reply),
        _ => Ok(()),
    }
}

/// Has the register reap what a worker's vnode was asked to reap.
fn reap(comparison: &mut Comparison, alloc: Global, call: Option<&Step>) -> Result<(), AllocError>
    ensures { OnOk result (comparison.new
        ≡ option_map_or (λ ask. reaped ask comparison.old)
        (option_and_then call_of (option_copied call.entry)) comparison.old) }
{
    match call {
        Some(Step::Reap(_, _, key)) => comparison.reap(alloc, key),
        _ => Ok(()),
    }
}

/// Tells the comparison of a call.
#[tactic(auto, using(crate::proofs::Calls::asked_is))]
fn tell(comparison: &mut Comparison, call: &Step)
    ensures { comparison.new
        ≡ option_map_or (λ ask. after_call ask comparison.old) (call_of call.now) comparison.old }
{
    if let Step::Ask(_, _, request) = call {
        comparison.call(request);
    }
}

/// Keeps a worker's call.
#[tactic(auto, using(crate::proofs::Calls::kept_is, crate::proofs::Calls::not_kept))]
fn keep(calls: &mut Vec<Option<Box<Step>>>, worker: u16, call: Box<Step>)
    ensures { (ask : RegisterAsk Content Context) → call_of call.value ≡ Some ask
        → map call_in calls.new.items ≡ with_call (map call_in calls.old.items) worker ask }
{
    match calls.get_mut(place_of(worker)) {
        None => {}
        Some(slot) => *slot = Some(call),
    }
}

impl Referee {
    /// Of a run of so many workers, which have no call.
    pub(crate) fn new(alloc: Global, workers: u16) -> Result<Referee, AllocError>
        ensures { IfOk result (λ referee. referee ≡ nothing_heard workers) }
    {
        let mut calls = Vec::with_capacity(alloc, usize::from(workers))?;
        for _ in 0..workers {
            calls.push(None)?;
        }
        Ok(Referee {
            calls,
            comparison: Comparison::new(alloc),
        })
    }

    /// The verdict so far.
    pub(crate) fn verdict(&self) -> Verdict
        ensures { result ≡ self.now.compared.verdict }
    {
        self.comparison.verdict()
    }

    /// Takes down the call that a worker got.
    #[tactic(auto, using(crate::proofs::Calls::called_is, crate::proofs::Calls::none_is))]
    fn hear_call(&mut self, worker: u16, call: Option<Box<Step>>)
        ensures { self.new ≡ after_act 0 worker (call_in call) Done self.old }
    {
        let Some(call) = call else {
            return;
        };
        if !asks(&call) {
            return;
        }
        tell(&mut self.comparison, &call);
        keep(&mut self.calls, worker, call);
    }

    /// Takes down what came of the step of a line: the call that its worker got, or the answer to its
    /// last one, or that a partition was diverted.
    ///
    /// Refused where memory is; the referee is then of no more use.
    pub(crate) fn hear(
        &mut self,
        alloc: Global,
        line: u64,
        note: Note,
        outcome: &Outcome,
    ) -> Result<(), AllocError>
        ensures { OnOk result (self.new ≡ after_note line note outcome.now self.old) }
    {
        match note {
            Note::OfWorker(worker, call) => self.hear_act(alloc, line, worker, call, outcome),
            Note::OfDiversion => {
                self.hear_diversion(outcome);
                Ok(())
            }
        }
    }

    /// Takes down what came of a partition's step: where it was diverted, the run isn't compared.
    fn hear_diversion(&mut self, outcome: &Outcome)
        ensures { self.new ≡ after_diversion outcome.now self.old }
    {
        match outcome {
            Outcome::Done => self.comparison.end(),
            Outcome::No | Outcome::Reply(_) | Outcome::Reaped | Outcome::Kept => {}
            Outcome::Copied | Outcome::Stuck | Outcome::Elsewhere | Outcome::Left(_) => {}
        }
    }

    /// Takes down what came of a worker's step.
    #[tactic(auto, using(crate::proofs::Hearing::heard_reap))]
    fn hear_act(
        &mut self,
        alloc: Global,
        line: u64,
        worker: u16,
        call: Option<Box<Step>>,
        outcome: &Outcome,
    ) -> Result<(), AllocError>
        ensures { OnOk result (
            self.new ≡ after_act line worker (call_in call) outcome.now self.old) }
    {
        match outcome {
            Outcome::No | Outcome::Copied | Outcome::Stuck => Ok(()),
            Outcome::Elsewhere | Outcome::Left(_) => Ok(()),
            Outcome::Done => {
                self.hear_call(worker, call);
                Ok(())
            }
            Outcome::Reply(reply) => {
                let last = last_call(self.calls.as_slice(), worker);
                compare(&mut self.comparison, alloc, line, last, reply)
            }
            Outcome::Reaped | Outcome::Kept => {
                let last = last_call(self.calls.as_slice(), worker);
                reap(&mut self.comparison, alloc, last)
            }
        }
    }
}

//! What an operator's commands do.

ghost use Rattle.std.specs.Prelude.{◌≡◌, ◌<◌, ◌↔◌, ◌^◌, IsTrue};
ghost use Rattle.gate_node.specs.Gates.{handoff_of};
ghost use Rattle.handoff_tracks.specs.Tracks.{HaveTracks};
ghost use Rattle.node_commands.specs.Console.{AnswersCopy, AnswersReturn, refusal_of};

use crate::console::{Console, Heard};
use control_text::{OperatorAnswer, OperatorCommand, OperatorRefusal};
use gate_node::Shared;
use handoff::{Handoff, HandoffFault};
use handoff_tracks::HandoffTracks;
use log::{Log, info};
use socket_streams::RunSignals;
use std::alloc::Global;
use std::io::{Read, Write};
use std::rt::Clock;
use std::sync::Wait;
use std::sync::atomic::{AtomicBool, Ordering};
use std::thread;
use std::time::Duration;

/// The pause, in microseconds, before it is looked again whether the workers have what they keep for themselves.
const SETTLE_MICROS: u64 = 100;

/// What a server is paused or stopped for.
#[derive(Clone, Copy, Drop)]
pub(crate) enum Asked {
    /// Nothing: it ended by itself.
    Nothing,
    /// To tell its totals.
    Totals,
    /// To divert this partition, which it has.
    Divert(u16),
    /// To stop.
    Stop,
}

/// Why a command that names this partition wasn't done.
pub(crate) fn refusal_of(partition: u16, fault: &HandoffFault) -> OperatorRefusal
    ensures { result ≡ refusal_of partition fault.now }
{
    match fault {
        HandoffFault::AlreadyDiverted => OperatorRefusal::AlreadyDiverted(partition),
        HandoffFault::NotDiverted(_) => OperatorRefusal::NotDiverted(partition),
        HandoffFault::LeftOver(_) => OperatorRefusal::LeftOver(partition),
        HandoffFault::NoMemory => OperatorRefusal::NoMemory,
        HandoffFault::GateStopped => OperatorRefusal::GateStopped(partition),
    }
}

/// Whether there is a partition of this index.
pub(crate) fn has_partition(shared: &Shared, partition: u16) -> bool
    ensures { IsTrue result ↔ partition < 2 ^ shared.now.index_bits }
{
    usize::from(partition) < shared.gates().len()
}

/// Copies keys of a partition back, while calls go on.
fn copy<X: Wait>(
    rt: &X,
    alloc: Global,
    handoff: &Handoff,
    tracks: &mut HandoffTracks,
    partition: u16,
    budget: u32,
) -> OperatorAnswer
    requires partition { partition < 2 ^ handoff.now.index_bits }
    requires tracks { HaveTracks handoff.now tracks.old }
    ensures answers { AnswersCopy handoff.now partition budget result }
    ensures tracks { HaveTracks handoff.now tracks.new }
{
    match tracks.copy_back(rt, alloc, handoff, partition, budget) {
        Ok(copied) => OperatorAnswer::Copied {
            partition,
            keys: u64::from(copied.keys),
            left: copied.left > 0,
        },
        Err(fault) => OperatorAnswer::Refused(refusal_of(partition, &fault)),
    }
}

/// Ends the diversion of a partition, while calls go on.
fn finish_return<X: Wait>(
    rt: &X,
    alloc: Global,
    handoff: &Handoff,
    tracks: &mut HandoffTracks,
    partition: u16,
) -> OperatorAnswer
    requires partition { partition < 2 ^ handoff.now.index_bits }
    requires tracks { HaveTracks handoff.now tracks.old }
    ensures answers { AnswersReturn handoff.now partition result }
    ensures tracks { HaveTracks handoff.now tracks.new }
{
    match tracks.finish_return(rt, alloc, handoff, partition) {
        Ok(()) => OperatorAnswer::Returned(partition),
        Err(fault) => OperatorAnswer::Refused(refusal_of(partition, &fault)),
    }
}

/// Waits until the workers have what they keep back, or serving has ended.
fn wait_for_workers<X: Clock + Wait>(rt: &X, stop: &RunSignals, has_ended: &AtomicBool) {
    for _ in rt.forever() {
        if stop.is_ready() || has_ended.load(Ordering::SeqCst) {
            return;
        }
        thread::sleep(rt, Duration::from_micros(SETTLE_MICROS));
    }
    unreachable!()
}

impl<C: Read + Write> Console<C> {
    /// Has the server stopped, now and in each later period.
    fn stop(&mut self, stop: &RunSignals) -> Asked {
        self.is_stopping = true;
        stop.raise();
        Asked::Stop
    }

    /// Has the workers paused for this, and returns it; refuses it where too little memory is kept back by which they could be started again.
    fn pause_for<X: Clock + Log>(
        &mut self,
        rt: &X,
        stop: &RunSignals,
        asked: Asked,
    ) -> Option<Asked> {
        if stop.pause_if_kept() {
            return Some(asked);
        }
        self.answer(rt, OperatorAnswer::Refused(OperatorRefusal::NoMemory));
        None
    }

    /// Does a command on a partition that there is: one that needs no pause.
    fn obey_at<X: Clock + Log + Wait>(
        &mut self,
        rt: &X,
        alloc: Global,
        shared: &Shared,
        stop: &RunSignals,
        tracks: &mut HandoffTracks,
        command: OperatorCommand,
        partition: u16,
    ) -> Option<Asked>
        requires partition { partition < 2 ^ shared.now.index_bits }
        requires tracks { HaveTracks (handoff_of shared.now) tracks.old }
        ensures tracks { HaveTracks (handoff_of shared.now) tracks.new }
    {
        match command {
            OperatorCommand::Divert(_) => return self.pause_for(rt, stop, Asked::Divert(partition)),
            OperatorCommand::Copy { budget, .. } => {
                let answer = copy(rt, alloc, shared.handoff(), tracks, partition, budget);
                self.answer(rt, answer);
            }
            OperatorCommand::Return(_) => {
                let answer = finish_return(rt, alloc, shared.handoff(), tracks, partition);
                self.answer(rt, answer);
            }
            OperatorCommand::Help
            | OperatorCommand::Totals
            | OperatorCommand::Stats
            | OperatorCommand::Diverted
            | OperatorCommand::Stop => {}
        }
        None
    }

    /// Does a command; where the workers are to be paused or stopped for it, says so to them, and returns what for.
    fn obey<X: Clock + Log + Wait>(
        &mut self,
        rt: &X,
        alloc: Global,
        shared: &Shared,
        stop: &RunSignals,
        tracks: &mut HandoffTracks,
        command: OperatorCommand,
    ) -> Option<Asked>
        requires { HaveTracks (handoff_of shared.now) tracks.old }
        ensures { HaveTracks (handoff_of shared.now) tracks.new }
    {
        let partition = match command {
            OperatorCommand::Help => {
                self.tell_help();
                return None;
            }
            OperatorCommand::Totals => return self.pause_for(rt, stop, Asked::Totals),
            OperatorCommand::Stats => {
                self.tell_stats(rt);
                return None;
            }
            OperatorCommand::Diverted => {
                self.tell_diverted(rt);
                return None;
            }
            OperatorCommand::Stop => {
                info!(rt; "the operator stops the node");
                return Some(self.stop(stop));
            }
            OperatorCommand::Divert(partition) | OperatorCommand::Return(partition) => partition,
            OperatorCommand::Copy { partition, .. } => partition,
        };
        if has_partition(shared, partition) {
            return self.obey_at(rt, alloc, shared, stop, tracks, command, partition);
        }
        self.answer(
            rt,
            OperatorAnswer::Refused(OperatorRefusal::NoPartition(partition)),
        );
        None
    }

    /// Does what the line that has come asks for, or answers what is wrong with it.
    fn heed_line<X: Clock + Log + Wait>(
        &mut self,
        rt: &X,
        alloc: Global,
        shared: &Shared,
        stop: &RunSignals,
        tracks: &mut HandoffTracks,
    ) -> Option<Asked>
        requires { HaveTracks (handoff_of shared.now) tracks.old }
        ensures { HaveTracks (handoff_of shared.now) tracks.new }
    {
        match self.take_command() {
            Ok(command) => self.obey(rt, alloc, shared, stop, tracks, command),
            Err(refusal) => {
                self.answer(rt, OperatorAnswer::Refused(refusal));
                None
            }
        }
    }

    /// Waits until the workers have what they keep for themselves, tells what was kept, and does what the lines that come ask for, until one needs a pause or stops the node, the input ends, which stops it, or
    /// serving has ended. A line without its line feed is none. Where it was to be stopped before, it is at once, and nothing is read.
    pub(crate) fn hear<X: Clock + Log + Wait>(
        &mut self,
        rt: &X,
        alloc: Global,
        shared: &Shared,
        stop: &RunSignals,
        has_ended: &AtomicBool,
        tracks: &mut HandoffTracks,
    ) -> Asked
        requires { HaveTracks (handoff_of shared.now) tracks.old }
        ensures { HaveTracks (handoff_of shared.now) tracks.new }
    {
        if self.is_stopping {
            return self.stop(stop);
        }
        wait_for_workers(rt, stop, has_ended);
        self.tell_kept(rt, alloc, shared.handoff());
        for _ in rt.forever() {
            match self.read_line(rt, has_ended) {
                Heard::Over => return Asked::Nothing,
                Heard::End => {
                    info!(rt; "the end of the input, or a signal, stops the node");
                    return self.stop(stop);
                }
                Heard::Line => {
                    if let Some(asked) = self.heed_line(rt, alloc, shared, stop, tracks) {
                        return asked;
                    }
                }
            }
        }
        unreachable!()
    }
}

//! An operator's console: what an operator writes and reads, line by line.

ghost use Rattle.std.specs.Prelude.{IfSome};
ghost use Rattle.node_commands.specs.Console.{IsStored};

use crate::lines::write_open_totals;
use crate::options::ServerSettings;
use crate::stats::{Stats, refused_puts, write_stats};
use control_text::{
    DivertedPartitions, OperatorAnswer, OperatorCommand, OperatorRefusal, mistake_in, read_command,
    write_help,
};
use handoff::Handoff;
use key_counts::{KeyCounts, count_all};
use log::{Log, info, warn};
use socket_streams::ServerCounts;
use stats_book::Totals;
use std::alloc::Global;
use std::io::{ErrorKind, Read, Write};
use std::rt::Clock;
use std::sync::atomic::{AtomicBool, Ordering};
use std::sync::{Arc, Wait};
use std::thread;
use std::time::{Duration, Instant};

/// How many bytes of a line are kept: more than a command has. The refusal of a longer one names this number.
const MAX_LINE: usize = 64;

/// The pause, in milliseconds, before a channel is read again that had nothing yet.
const PAUSE_MILLIS: u64 = 10;

/// What an operator is told that the workers were paused for.
#[derive(Clone, Copy, Drop)]
pub(crate) enum Told {
    /// The answer to a command.
    Answer(OperatorAnswer),
    /// What all sessions had counted, and how many connections were accepted.
    Totals(Totals, u64),
}

/// What came of reading on to the end of a line.
#[derive(Clone, Copy, Drop)]
pub(crate) enum Heard {
    /// A line has come.
    Line,
    /// The channel's input has ended, or can't be read.
    End,
    /// Serving has ended by itself.
    Over,
}

/// How much the vnodes of all partitions store, each at a moment of its own. None where memory is refused to the count,
/// which needs none (`key_counts`).
fn count_stored<X: Wait>(rt: &X, alloc: Global, handoff: &Handoff) -> Option<KeyCounts>
    ensures { IfSome result (IsStored handoff.now) }
{
    match count_all(rt, alloc, handoff) {
        Ok(counts) => Some(counts),
        Err(_) => None,
    }
}

/// Tells the log what was done to a partition; of what was refused, nothing.
fn log_answer<L: Log>(rt: &L, answer: OperatorAnswer) {
    match answer {
        OperatorAnswer::Diverted(partition) => info!(rt; "partition {partition} is diverted"),
        OperatorAnswer::Copied {
            partition,
            keys,
            left,
        } => {
            let rest = if left {
                "some are left"
            } else {
                "none is left"
            };
            info!(rt; "{keys} keys of partition {partition} were copied back, {rest}");
        }
        OperatorAnswer::Returned(partition) => info!(rt; "partition {partition} has returned"),
        OperatorAnswer::Refused(_) => {}
    }
}

/// The channel to an operator, and the line that has come over it so far.
#[derive(Drop)]
pub(crate) struct Console<C> {
    operator: C,
    line: [u8; MAX_LINE],
    /// How many bytes of the line have come.
    length: usize,
    /// What is told once the workers go on, so that they don't wait for an operator who doesn't read.
    kept: Option<Told>,
    /// Which partitions are diverted by now, each since a second of this console.
    diverted: DivertedPartitions,
    /// What the server has done by now.
    counts: Arc<ServerCounts, Global>,
    /// When the console began, where there is a clock.
    started: Option<Instant>,
    /// The run's number.
    run: u32,
    /// Whether the server is to be stopped, by a line or since the input has ended.
    pub(crate) is_stopping: bool,
}

impl<C: Drop> Console<C> {
    /// A console over this channel, of which no line has come, to a server that serves so. None where memory is refused.
    pub(crate) fn new<X: Clock>(
        rt: &X,
        alloc: Global,
        operator: C,
        settings: &ServerSettings,
    ) -> Option<Console<C>> {
        Some(Console {
            operator,
            line: [0; MAX_LINE],
            length: 0,
            kept: None,
            diverted: DivertedPartitions::none(alloc).ok()?,
            counts: ServerCounts::new(alloc, settings.options.workers).ok()?,
            started: Instant::now(rt).ok(),
            run: settings.options.run,
            is_stopping: false,
        })
    }
}

impl<C: Read + Write> Console<C> {
    /// What the server has done by now.
    pub(crate) fn counts(&self) -> &Arc<ServerCounts, Global> {
        &self.counts
    }

    /// For how many seconds there is the console; 0 where the clock fails.
    fn seconds<X: Clock>(&self, rt: &X) -> u64 {
        let Some(started) = self.started else {
            return 0;
        };
        match started.elapsed(rt) {
            Ok(elapsed) => elapsed.as_secs(),
            Err(_) => 0,
        }
    }

    /// Keeps what the operator is told once it is heard again.
    pub(crate) fn keep(&mut self, told: Told) {
        self.kept = Some(told);
    }

    /// Tells what was kept, if anything was, as far as that can be written: beside totals how much is stored by now.
    pub(crate) fn tell_kept<X: Clock + Log + Wait>(
        &mut self,
        rt: &X,
        alloc: Global,
        handoff: &Handoff,
    ) {
        match self.kept {
            Some(Told::Answer(answer)) => self.answer(rt, answer),
            Some(Told::Totals(totals, connections)) => {
                let counts = count_stored(rt, alloc, handoff);
                self.tell_totals(totals, connections, counts);
            }
            None => {}
        }
        self.kept = None;
    }

    /// Answers, as far as that can be written; keeps, and tells the log, what was done to a partition.
    pub(crate) fn answer<X: Clock + Log>(&mut self, rt: &X, answer: OperatorAnswer) {
        let now = self.seconds(rt);
        self.diverted.note(answer, now);
        log_answer(rt, answer);
        if answer.write_line(&mut self.operator).is_ok() {
            let _unheard = self.operator.flush();
        }
    }

    /// Tells the commands, as far as that can be written.
    pub(crate) fn tell_help(&mut self) {
        if write_help(&mut self.operator).is_ok() {
            let _unheard = self.operator.flush();
        }
    }

    /// Tells what the server has done by now, as far as that can be written.
    pub(crate) fn tell_stats<X: Clock>(&mut self, rt: &X) {
        let stats = Stats {
            uptime: self.seconds(rt),
            run: self.run,
            diverted: self.diverted.count(),
            counts: &self.counts,
        };
        if write_stats(&mut self.operator, &stats).is_ok() {
            let _unheard = self.operator.flush();
        }
    }

    /// Tells which partitions are diverted, as far as that can be written.
    pub(crate) fn tell_diverted<X: Clock>(&mut self, rt: &X) {
        let now = self.seconds(rt);
        if self.diverted.write_line(&mut self.operator, now).is_ok() {
            let _unheard = self.operator.flush();
        }
    }

    /// Tells the log how many partitions are diverted still, where there are such.
    pub(crate) fn log_diverted<L: Log>(&self, rt: &L) {
        let count = self.diverted.count();
        if count > 0 {
            warn!(rt; "{count} partitions are diverted still");
        }
    }

    /// Tells the totals at a pause, how many connections were accepted by then, how much is stored, and how many puts were refused for want of memory by now, as
    /// far as that can be written.
    fn tell_totals(&mut self, totals: Totals, connections: u64, counts: Option<KeyCounts>) {
        let refused = refused_puts(&self.counts);
        let written = write_open_totals(&mut self.operator, totals, connections, counts, refused);
        if written.is_ok() {
            let _unheard = self.operator.flush();
        }
    }

    /// Takes a byte of the line. True where it is the line's end.
    fn takes(&mut self, byte: u8) -> bool {
        if byte == b'\n' {
            return true;
        }
        if let Some(place) = self.line.get_mut(self.length) {
            *place = byte;
        }
        self.length = self.length.saturating_add(1);
        false
    }

    /// Reads on to the end of a line. Where another operator has come, what has come of the line is dropped, and the log has a line.
    pub(crate) fn read_line<X: Clock + Log + Wait>(
        &mut self,
        rt: &X,
        has_ended: &AtomicBool,
    ) -> Heard {
        let mut byte = [0u8; 1];
        for _ in rt.forever() {
            if has_ended.load(Ordering::SeqCst) {
                return Heard::Over;
            }
            match self.operator.read(&mut byte) {
                Ok(0) => return Heard::End,
                Ok(_) => {
                    if self.takes(byte[0]) {
                        return Heard::Line;
                    }
                }
                Err(error) => match error.kind() {
                    ErrorKind::Interrupted => {}
                    ErrorKind::ConnectionReset => {
                        info!(rt; "an operator has connected");
                        self.length = 0;
                    }
                    ErrorKind::WouldBlock => thread::sleep(rt, Duration::from_millis(PAUSE_MILLIS)),
                    _ => return Heard::End,
                },
            }
        }
        unreachable!()
    }

    /// What the line that has come asks for, or what is wrong with it, and begins a new one.
    pub(crate) fn take_command(&mut self) -> Result<OperatorCommand, OperatorRefusal> {
        let length = self.length;
        self.length = 0;
        let Some(line) = self.line.get(..length) else {
            return Err(OperatorRefusal::LongLine);
        };
        match read_command(line) {
            Some(command) => Ok(command),
            None => Err(OperatorRefusal::BadLine(mistake_in(line))),
        }
    }
}

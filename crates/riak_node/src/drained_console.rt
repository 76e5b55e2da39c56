//! Log lines on standard error, which are passed over where nobody reads it.

use crate::connection_lines::ConnectionLines;
use crate::log_line::LogLine;
use crate::log_output::LogOutput;
use crate::log_time::write_time;
use log::kv::Source;
use log::span::Spans;
use log::{Line, Log, Metadata, Record};
use std::fmt::Display;
use std::io::Write;
use std::rt::Clock;
use std::sync::{Mutex, Wait};
use std::thread;
use std::time::Duration;

/// How often the end of the log is tried where there is no room for it: for a second.
const END_TRIES: u32 = 100;

/// The pause between two tries, in milliseconds.
const PAUSE_MILLIS: u64 = 10;

/// What is written of the log, and how many lines weren't since it was said last.
#[derive(Drop)]
struct Drain {
    output: LogOutput,
    /// The line of which a part may be left, which goes out before the next.
    last: LogLine,
    passed_over: u64,
}

impl Drain {
    /// To this output, to which nothing is written yet.
    fn new(output: LogOutput) -> Drain {
        Drain {
            output,
            last: LogLine::new(),
            passed_over: 0,
        }
    }

    /// Writes what is left of the last line. Whether nothing is left of it then.
    fn finish_last(&mut self) -> bool {
        if !self.last.unwritten().is_empty() {
            self.output.write(&mut self.last);
        }
        self.last.unwritten().is_empty()
    }

    /// Writes a line, or a part of it, of which the rest is kept, where nothing is left of the last one. Whether anything of it went out.
    fn put(&mut self, mut line: LogLine) -> bool {
        if !self.finish_last() || !self.output.write(&mut line) {
            return false;
        }
        if !line.unwritten().is_empty() {
            self.last = line;
        }
        true
    }

    /// Tells how many lines were passed over, if any were. Whether that is told.
    fn tell_passed_over<R: Clock>(&mut self, rt: &R) -> bool {
        let passed_over = self.passed_over;
        if passed_over == 0 {
            return true;
        }
        let mut line = LogLine::new();
        write_time(rt, &mut line);
        let _cut = write!(
            line,
            "[WARN  riak_node] {passed_over} log lines were passed over: standard error was full"
        );
        line.end();
        let is_told = self.put(line);
        if is_told {
            self.passed_over = 0;
        }
        is_told
    }

    /// Writes a line behind how many were passed over before it, or passes it over.
    fn write_line<R: Clock>(&mut self, rt: &R, line: LogLine) {
        if !self.tell_passed_over(rt) || !self.put(line) {
            self.passed_over = self.passed_over.saturating_add(1);
        }
    }
}

/// A log on standard error, each line behind its time, that nobody waits for but its end: where it is full, as a pipe or a terminal is that nobody reads, lines are passed over. How many, the
/// next line that is written is told by one before it, and `flush` tells it too. It takes no memory: a line of more than 4,096 bytes is cut.
#[derive(Drop)]
pub(crate) struct DrainedConsole<R: Wait> {
    rt: R,
    lines: ConnectionLines,
    drain: Mutex<Drain>,
}

impl<R: Wait> DrainedConsole<R> {
    /// To this output, with these lines of single connections.
    pub(crate) fn new(rt: R, output: LogOutput, lines: ConnectionLines) -> DrainedConsole<R> {
        DrainedConsole {
            rt,
            lines,
            drain: Mutex::new(Drain::new(output)),
        }
    }
}

impl<R: Clock + Wait> Log for DrainedConsole<R> {
    ghost use Rattle.std.specs.Prelude.{Some, []};

    ghost target_of = { λ _. Some [] };

    fn enabled(&self, metadata: &Metadata<'_>) -> bool {
        self.lines.have(metadata.level(), metadata.target())
    }

    fn log<D: Display, K: Source, S: Spans>(&self, record: &Record<'_, D, K, S>) {
        if !self.lines.have(record.level(), record.target()) {
            return;
        }
        let mut line = LogLine::new();
        write_time(&self.rt, &mut line);
        let _cut = write!(line, "{}", Line::new(record));
        line.end();
        let mut drain = self.drain.lock(&self.rt);
        drain.write_line(&self.rt, line);
    }

    /// Writes what is left of the last line, and how many were passed over since it was told last. Where there is no room for that, it is waited for, a second at most.
    fn flush(&self) {
        let mut drain = self.drain.lock(&self.rt);
        for _ in 0..END_TRIES {
            if drain.finish_last() && drain.tell_passed_over(&self.rt) {
                return;
            }
            thread::sleep(&self.rt, Duration::from_millis(PAUSE_MILLIS));
        }
    }

    fn target(&self) -> &str {
        ""
    }
}

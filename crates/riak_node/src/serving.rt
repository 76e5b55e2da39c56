//! Serving as the options of `serve` ask for: by an operator's console, or without one.

ghost use Rattle.std.specs.Prelude.{◌≡◌, None, Err, false, is_some, IfErr, IfOk};
ghost use Rattle.riak_node.specs.Serving.{AsksForConsole, IsServedAs};

use crate::control_port::ControlPort;
use crate::subcommand::ServeOptions;
use crate::terminal::Terminal;
use crate::until_end::UntilEnd;
use crate::watched_input::WatchedInput;
use log::Log;
use node_commands::{
    Controlled, ServeFault, ServedUntil, ServerSettings, serve_controlled, serve_on_until,
};
use ring_map::Ring;
use std::alloc::Global;
use std::io::{BufWriter, Read, Write};
use std::net::{Net, TcpListener};
use std::rt::Clock;
use std::sync::Wait;
use std::thread::Threads;

/// How many bytes are gathered for one write: more than a line has.
const LINE_LEN: usize = 512;

/// What came of serving.
pub(crate) enum ServeOutcome<'a, T> {
    /// By an operator's console.
    Controlled(Controlled),
    /// Without one.
    Asked(ServedUntil<'a, T>),
}

/// One call at each place where one is let go.
impl<'a, T> Drop for ServeOutcome<'a, T> {
    fn drop(self) {
        match self {
            ServeOutcome::Controlled(_controlled) => {}
            ServeOutcome::Asked(_asked) => {}
        }
    }
}

/// What ends serving before its last connection: the end of standard input, where that is asked for.
fn input_of<R: Net, I: Drop>(
    net: &R,
    alloc: Global,
    until_eof: bool,
    input: I,
) -> Option<WatchedInput<I>>
    ensures some { is_some result ≡ until_eof }
    ensures none { until_eof ≡ false → result ≡ None }
{
    if until_eof {
        Some(WatchedInput::new(net, alloc, input))
    } else {
        None
    }
}

/// A writer of lines to this output: each is one write, where it is flushed behind it.
fn line_writer<O: Write + Drop>(alloc: Global, output: O) -> Result<BufWriter<O>, ServeFault> {
    match BufWriter::with_capacity(alloc, LINE_LEN, output) {
        Ok(writer) => Ok(writer),
        Err(_) => Err(ServeFault::NoMemory),
    }
}

/// Serves the connections of a listener on this ring while an operator is heard over this channel, as the options ask for.
fn serve_by_console<'a, T, C, W>(
    rt: &'a T,
    alloc: Global,
    listener: TcpListener,
    ring: Ring,
    options: ServeOptions,
    operator: C,
    writer: &mut W,
) -> Result<ServeOutcome<'a, T>, ServeFault>
where
    T: Log + Clock + Net + Threads + Wait + Sync,
    C: Read + Write + Send + Drop,
    W: Write,
    requires { AsksForConsole options }
    ensures { IfOk result (IsServedAs options ring) }
{
    let settings = ServerSettings {
        ring,
        options: options.serving,
    };
    match serve_controlled(rt, alloc, listener, &settings, operator, writer) {
        Ok(outcome) => Ok(ServeOutcome::Controlled(outcome)),
        Err(fault) => Err(fault),
    }
}

/// Serves the connections of a listener on this ring, by a console where these options ask for one: over this control port, or else over standard input and
/// output, whose end ends serving; without one until as many have ended as are asked for, or standard input ends, where that is asked for.
pub(crate) fn serve_by_options<'a, T, I, O>(
    rt: &'a T,
    alloc: Global,
    listener: TcpListener,
    ring: Ring,
    options: ServeOptions,
    control: Option<ControlPort>,
    input: I,
    output: O,
) -> Result<ServeOutcome<'a, T>, ServeFault>
where
    T: Log + Clock + Net + Threads + Wait + Sync,
    I: Read + Send + Drop,
    O: Write + Copy + Send + Drop,
    requires { is_some control ≡ is_some options.control_port }
    ensures { IfOk result (IsServedAs options ring) }
{
    let mut lines = line_writer(alloc, output)?;
    if let Some(port) = control {
        let _unheard = port.announce(&mut lines);
        let operator = UntilEnd::new(port, input_of(rt, alloc, options.until_eof, input));
        return serve_by_console(rt, alloc, listener, ring, options, operator, &mut lines);
    }
    if options.control {
        let answers = line_writer(alloc, output)?;
        let terminal = Terminal::new(WatchedInput::new(rt, alloc, input), answers);
        return serve_by_console(rt, alloc, listener, ring, options, terminal, &mut lines);
    }
    let until = input_of(rt, alloc, options.until_eof, input);
    let settings = ServerSettings {
        ring,
        options: options.serving,
    };
    match serve_on_until(rt, alloc, listener, &settings, until, &mut lines) {
        Ok(outcome) => Ok(ServeOutcome::Asked(outcome)),
        Err(fault) => Err(fault),
    }
}

/// Whether serving came to its end, and the fault where it didn't.
pub(crate) fn ended<T>(outcome: &Result<ServeOutcome<'_, T>, ServeFault>) -> Result<(), ServeFault>
    ensures { IfErr result (λ fault. outcome.now ≡ Err fault) }
{
    match outcome {
        Ok(_) => Ok(()),
        Err(fault) => Err(*fault),
    }
}

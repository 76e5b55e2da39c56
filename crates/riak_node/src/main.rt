//! The node as a program.
//!
//! `riak_node serve` serves connections, each a stream of requests of Riak's Protocol Buffers
//! client API in frames, and their replies in frames. `riak_node pipe` serves standard input to
//! standard output in the same way. `riak_node steps` plays a schedule of workers' steps, a line in
//! and a line out. With `--control` an operator says on standard input what `serve` is to do, and
//! with `--control-port` over TCP.
//!
//! ```text
//! $ riak_node serve --until-eof < /dev/tty
//! listening 127.0.0.1:8087
//! gets 2 puts 2 deletes 0 refusals 0 reaps 0
//! $ printf 'divert 3\nreturn 3\n' | riak_node serve --control
//! listening 127.0.0.1:8087
//! diverted 3
//! returned 3
//! gets 0 puts 0 deletes 0 refusals 0 reaps 0
//! $ riak_node serve --control-port 0 &
//! control 127.0.0.1:40003
//! listening 127.0.0.1:8087
//! $ printf 'divert 3\n' | nc -N 127.0.0.1 40003
//! diverted 3
//! $ printf '\0\0\0\1\1' | riak_node pipe | xxd -p      a ping
//! 0000000102
//! ```
//!
//! Each ends with status 0 at the end of its input, or of its last connection, with 1 and one line
//! on standard error where it had to stop before, and with 2 where the command line is none of its
//! own. Where that line can't be written the status is the same. A signal ends `serve` at once.
//!
//! Nothing is read or opened before the command line and the ring were found good.
//!
//! # Proved
//!
//! Each option is `clap`'s value of the option of that name, within its range or one of its words
//! (`specs/Options`). Each command is what its options ask for. The line and the status of each end
//! are of one table (`specs/Conclusions`). `serve` has a console exactly if `--control` or
//! `--control-port` asks for one. By `command_of`, `serve_by_options`, `Conclusion::write_line`,
//! `Conclusion::status`.
//!
//! # Tested
//!
//! - Over which channel the console is, and all of the port.
//! - That nobody waits for the log, and which lines it has (`try-command-line`, `try-control`).
//! - What the scripts of `docs/CHANGING.md` try, and `pipe` on one stored input.
//!
//! # Open
//!
//! - That `main` hands on the options that it read.
//! - What `clap` takes as an option, and which defaults it puts in.
//! - That `listening` comes first.
//! - How many replies of `pipe` went out if a write failed.
//! - Tried by no test: `too many reads`, `accept failed`, `book full`.
#![tactic(auto)]

ghost use Rattle.std.specs.Prelude.{◌≡◌};
ghost use Rattle.std.specs.Process.{exit_status};
ghost use Rattle.riak_node.specs.Conclusions.{status_of};

mod command_line;
mod commands;
mod conclusion;
mod connection_lines;
mod control_port;
mod drained_console;
mod frame_counter;
mod listeners;
mod log_line;
mod log_output;
mod log_time;
mod open_again;
mod operator;
mod option_values;
mod options;
mod patient_output;
mod serving;
mod subcommand;
mod terminal;
mod until_end;
mod watch;
mod watched_input;

use clap::error::ErrorKind;
use commands::{pipe_as_asked, place_of, ring_of, steps_as_asked};
use conclusion::Conclusion;
use drained_console::DrainedConsole;
use frame_counter::FrameCounter;
use listeners::{control_port_of, listen};
use log::{Level, Log, Logged};
use log_output::LogOutput;
use node_session::SessionFault;
use patient_output::{PatientOutput, terminal_of};
use ring_map::Ring;
use schedule_player::StepsFault;
use serving::{ended, serve_by_options};
use std::alloc::Global;
use std::io;
use std::io::{BufWriter, Read, Write};
use std::net::{IpAddr, Net, TcpListener, TcpStream};
use std::process::ExitCode;
use std::rt::Clock;
use std::sync::Wait;
use std::thread::Threads;
use subcommand::{PipeOptions, ServeOptions, StepsOptions, Subcommand};

/// Writes the line that a command ends with on standard error, and returns its status, which is the
/// same where the line can't be written.
fn conclude(rt: &HostRuntime, conclusion: Conclusion) -> ExitCode
    ensures { exit_status result ≡ status_of conclusion }
{
    let _unheard = conclusion.write_line(&mut rt.stderr());
    ExitCode::from(conclusion.status())
}

/// The arguments, the program's name first; how the program ends where they can't be read.
fn arguments(rt: &HostRuntime) -> Result<Vec<String>, Conclusion> {
    let args = match std::env::args(rt) {
        Ok(args) => args.collect(rt.alloc()),
        Err(error) => {
            return if error.kind() == io::ErrorKind::InvalidData {
                Err(Conclusion::NotText)
            } else {
                Err(Conclusion::NoMemory)
            };
        }
    };
    match args {
        Ok(args) => Ok(args),
        Err(_) => Err(Conclusion::NoMemory),
    }
}

/// Writes what `clap` has to say of a command line, and returns the status. A mistake has its
/// status whether or not its text can be written; help that can't be is a fault.
fn tell(rt: &HostRuntime, error: clap::Error) -> ExitCode {
    if error.kind() == ErrorKind::OutOfMemory {
        return conclude(rt, Conclusion::NoMemory);
    }
    let status = error.exit_code() as u8;
    if error.print(rt).is_err() && status == 0 {
        return conclude(rt, Conclusion::HelpNotWritten);
    }
    ExitCode::from(status)
}

/// Serves standard input to standard output, by a ring of the asked size if there is one. The
/// replies to what one read brought are gathered for one write, up to 8,192 bytes. Where a write
/// failed some are left, which are neither counted nor tried again.
fn serve_streams(rt: &HostRuntime, options: PipeOptions) -> Conclusion {
    let ring = match ring_of(options.ring) {
        Ok(ring) => ring,
        Err(end) => return end,
    };
    let alloc = rt.alloc();
    let mut input = rt.stdin();
    let Ok(mut output) = BufWriter::new(alloc, FrameCounter::new(rt.stdout())) else {
        return Conclusion::Piped(Err(SessionFault::NoMemory(0)));
    };
    let outcome = pipe_as_asked(alloc, ring, options, &mut input, &mut output);
    let (counter, unwritten) = output.into_parts();
    if unwritten.is_empty() {
        Conclusion::Piped(outcome)
    } else {
        Conclusion::Piped(Err(SessionFault::WriteFailed(counter.whole())))
    }
}

/// Serves the connections that come to this address and port, on this ring, as the options ask for.
fn serve_all<R, I, O>(
    rt: &R,
    alloc: Global,
    ring: Ring,
    address: IpAddr,
    options: ServeOptions,
    input: I,
    output: O,
) -> Conclusion
where
    R: Log + Clock + Net<Listener = TcpListener, Stream = TcpStream> + Threads + Wait + Sync,
    I: Read + Send + Drop,
    O: Write + Copy + Send + Drop,
{
    let Some(listener) = listen(rt, address, options.port) else {
        return Conclusion::CannotListen;
    };
    let control = match control_port_of(rt, alloc, options.control_port) {
        Ok(control) => control,
        Err(end) => return end,
    };
    let outcome = serve_by_options(rt, alloc, listener, ring, options, control, input, output);
    Conclusion::Served(ended(&outcome))
}

/// Plays a schedule from standard input to standard output, by a ring of the asked size if there is one.
fn play_steps(rt: &HostRuntime, options: StepsOptions) -> Conclusion {
    let ring = match ring_of(options.ring) {
        Ok(ring) => ring,
        Err(end) => return end,
    };
    let mut input = rt.stdin();
    let Ok(mut output) = BufWriter::new(rt.alloc(), rt.stdout()) else {
        return Conclusion::Played(Err(StepsFault::NoMemory));
    };
    Conclusion::Played(steps_as_asked(rt.alloc(), ring, options, &mut input, &mut output))
}

fn main(rt: HostRuntime) -> ExitCode {
    let alloc = rt.alloc();
    let args = match arguments(&rt) {
        Ok(args) => args,
        Err(end) => return conclude(&rt, end),
    };
    let conclusion = match command_line::read(alloc, args.as_slice()) {
        Ok(Subcommand::Pipe(options)) => serve_streams(&rt, options),
        Ok(Subcommand::Steps(options)) => play_steps(&rt, options),
        Ok(Subcommand::Serve(options)) => match place_of(options) {
            Ok((ring, address)) => {
                let console = DrainedConsole::new(rt, LogOutput::new(&rt, alloc), options.lines);
                let logged = Logged::new(rt, Level::Info, console);
                let output = PatientOutput::new(rt, rt.stdout(), terminal_of(&rt));
                let input = rt.stdin();
                let conclusion = serve_all(&logged, alloc, ring, address, options, input, &output);
                logged.flush();
                conclusion
            }
            Err(end) => end,
        },
        Err(error) => return tell(&rt, error),
    };
    conclude(&rt, conclusion)
}

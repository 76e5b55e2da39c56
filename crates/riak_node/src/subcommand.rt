//! What the program is asked for.

ghost use Rattle.std.specs.Prelude.{◌≤◌};

use crate::connection_lines::ConnectionLines;
use node_commands::ServingOptions;
use std::net::IpAddr;

/// What the program is to do.
#[derive(Clone, Copy)]
pub enum Subcommand {
    /// Serve standard input to standard output.
    Pipe(PipeOptions),
    /// Serve connections.
    Serve(ServeOptions),
    /// Play a schedule from standard input.
    Steps(StepsOptions),
}

/// How a session over the standard streams is served.
#[derive(Clone, Copy)]
pub struct PipeOptions {
    /// How many partitions are asked for.
    pub ring: u16,
    /// The run's number.
    pub run: u32,
    /// How many dead keys are forgotten after an answer, at most.
    pub sweep: u32,
    ghost some: { 1 ≤ run },
}

/// How connections are served, and where.
#[derive(Clone, Copy)]
pub struct ServeOptions {
    /// The address that is listened on; None where what was given is none.
    pub address: Option<IpAddr>,
    /// The port that is listened on; with 0 a free one.
    pub port: u16,
    /// How many partitions are asked for.
    pub ring: u16,
    /// Whether serving ends at the end of standard input.
    pub until_eof: bool,
    /// Whether standard input is an operator's console.
    pub control: bool,
    /// The port of this machine's address to itself to which an operator's clients come, if they do; 0 for a free one.
    pub control_port: Option<u16>,
    /// Which lines of single connections the log has.
    pub lines: ConnectionLines,
    /// How they are served.
    pub serving: ServingOptions,
}

/// How a schedule is played.
#[derive(Clone, Copy)]
pub struct StepsOptions {
    /// How many workers take steps.
    pub workers: u16,
    /// How many partitions are asked for.
    pub ring: u16,
    /// The run's number.
    pub run: u32,
}

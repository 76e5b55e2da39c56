//! The command line.

use crate::option_values::command_of;
use crate::options;
use crate::subcommand::Subcommand;
use clap::error::ErrorKind;
use clap::{ArgMatches, Error};
use std::alloc::{AllocError, Global};

/// The command that serves standard input.
fn pipe<'a>(alloc: Global) -> Result<clap::Command<'a>, AllocError> {
    clap::Command::new(alloc, "pipe")
        .about(
            "Serves requests from standard input, and writes their replies to standard output, by a new node whose keys are lost with it",
        )
        .after_help(
            "Each frame is a length in four bytes, the highest first, a message code and a body.\n\n\
             Exit status: 0 at the end of the input; 1 where the session had to stop before, with one line on standard\n\
             error, as in: riak_node: bad frame after 2 replies; 2 for a command line that isn't one of these.\n\n\
             Example: riak_node pipe --ring 64 --run 2 < requests > replies",
        )
        .arg(options::ring(alloc))?
        .arg(options::run(alloc))?
        .arg(options::sweep(alloc))
}

/// The command that serves connections, without its options.
fn bare_serve<'a>(alloc: Global) -> clap::Command<'a> {
    clap::Command::new(alloc, "serve")
        .about(
            "Serves connections to a port, by a new node whose keys are lost with it, until it is ended or has served as many as are asked for",
        )
        .after_help(
            "Writes two lines to standard output: the address, as in: listening 127.0.0.1:8087, before the first\n\
             connection, and what was done, as in: gets 2 puts 2 deletes 0 refusals 0 reaps 0, where it ends in order. The\n\
             log of the connections goes to standard error.\n\n\
             With --control each line of standard input is a command, and is answered between these two, by one line but\n\
             for help: help, the commands, one a line; totals, what was done so far, how many connections came, and how\n\
             much is stored; stats, what was done by now, without a pause; diverted, which partitions are diverted;\n\
             divert P, calls of partition P, from 0, go to a fallback; copy P B, at most B of its keys are copied back,\n\
             and whether some are left; return P, it is at its primary again; stop, serving ends in order. What can't be\n\
             done is answered by why, as in: refused: there is no partition 64.\n\n\
             With --control-port an operator writes these lines to that port and reads the answers there. A further one is told\n\
             that another is connected, and closed. The address is a line before the other two, as in: control 127.0.0.1:8088.\n\n\
             Exit status: 0 at the end of standard input with --until-eof or --control, at stop, and when all connections\n\
             of --connections have ended, also those that failed; 1 where serving had to stop before, with one line on\n\
             standard error, as in: riak_node: cannot listen; 2 for a command line that isn't one of these.\n\n\
             Example: riak_node serve --workers 8 --idle 600",
        )
}

/// The command that serves connections.
fn serve<'a>(alloc: Global) -> Result<clap::Command<'a>, AllocError> {
    bare_serve(alloc)
        .arg(options::address(alloc))?
        .arg(options::port(alloc))?
        .arg(options::idle(alloc))?
        .arg(options::spin(alloc))?
        .arg(options::replies(alloc))?
        .arg(options::until_eof(alloc))?
        .arg(options::control(alloc))?
        .arg(options::control_port(alloc)?)?
        .arg(options::log(alloc))?
        .arg(options::connections(alloc))?
        .arg(options::workers(alloc))?
        .arg(options::shared_ring(alloc))?
        .arg(options::run(alloc))?
        .arg(options::sweep(alloc))
}

/// The command that plays a schedule.
fn steps<'a>(alloc: Global) -> Result<clap::Command<'a>, AllocError> {
    clap::Command::new(alloc, "steps")
        .about(
            "Plays a schedule: reads steps of workers over new vnodes from standard input, and writes what came of each",
        )
        .after_help(
            "A line is a word and a worker's number, from 1: enter, leave, mark, unmark, take, put, look, publish; behind\n\
             ask, reap and copy stand a request's message code and body in lower-case hexadecimal, behind close a\n\
             partition's index, from 0; behind divert stands such an index alone. Each line is answered by one, as in: 1 ok.\n\
             The last line written compares all answers with those of a plain register, where no partition was diverted.\n\n\
             Exit status: 0 at the end of the schedule; 1 where it had to stop before, with one line on standard error, as\n\
             in: riak_node: bad step at line 3; 2 for a command line that isn't one of these.\n\n\
             Example: riak_node steps --workers 3 < schedule",
        )
        .arg(options::step_workers(alloc))?
        .arg(options::ring(alloc))?
        .arg(options::run(alloc))
}

/// The program without its commands.
fn bare_program<'a>(alloc: Global) -> clap::Command<'a> {
    clap::Command::new(alloc, "riak_node")
        .version("0.1.0")
        .about("A key-value node that keeps siblings and speaks Riak's Protocol Buffers client API")
        .after_help(
            "Exit status: 0 where all was served; 1 where serving had to stop before, with one line on standard error;\n\
             2 for a command line that isn't one of these. See the help of each command.\n\n\
             Example: riak_node serve",
        )
        .subcommand_required(true)
}

/// A program with one command more, where that could be made.
fn with_command<'a>(
    program: clap::Command<'a>,
    command: Result<clap::Command<'a>, AllocError>,
) -> Result<clap::Command<'a>, AllocError> {
    match command {
        Ok(command) => program.subcommand(command),
        Err(refused) => Err(refused),
    }
}

/// The program.
fn program<'a>(alloc: Global) -> Result<clap::Command<'a>, AllocError> {
    let program = with_command(bare_program(alloc), serve(alloc))?;
    let program = with_command(program, pipe(alloc))?;
    with_command(program, steps(alloc))
}

/// The error for arguments without a command. `clap` has refused such by itself.
fn no_command(alloc: Global) -> Result<Error, AllocError> {
    program(alloc)?.error(ErrorKind::MissingSubcommand, "no command is given")
}

/// What `clap` finds in the arguments.
fn parse<'a>(alloc: Global, args: &'a [String]) -> Result<ArgMatches<'a>, Error> {
    program(alloc)?.try_get_matches_from(args)
}

/// Reads the arguments of the command line, the program's name first.
pub fn read(alloc: Global, args: &[String]) -> Result<Subcommand, Error> {
    let found = command_of(&parse(alloc, args)?);
    match found {
        Some(command) => Ok(command),
        None => Err(no_command(alloc)?),
    }
}

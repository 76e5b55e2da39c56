//! The options that a command line gives.

ghost use Rattle.std.specs.Prelude.{◌≤◌, codes, IfSome};
ghost use Rattle.clap.specs.Matches.{found_of};
ghost use Rattle.riak_node.specs.Options.{AreConnectionLines, AreServingOptions, IsAddress};
ghost use Rattle.riak_node.specs.Options.{IsNumber, IsNumberIfGiven};
ghost use Rattle.riak_node.specs.Options.{ArePipeOptions, AreServeOptions, AreStepsOptions};
ghost use Rattle.riak_node.specs.Options.{IsCommand};

use crate::connection_lines::ConnectionLines;
use crate::subcommand::{PipeOptions, ServeOptions, StepsOptions, Subcommand};
use clap::ArgMatches;
use node_commands::{ServingOptions, Waiting};
use std::net::{IpAddr, Ipv4Addr};

/// The number of an option of 16 bits, or this one. `clap` puts in the defaults, and has refused what is out of range.
fn small_number(found: &ArgMatches<'_>, name: &str, default: u16) -> u16
    ensures { IsNumber (found_of found.now) 0 65535 name.now default result }
{
    found.get_one::<u16>(name).unwrap_or(default)
}

/// The same of 32 bits.
fn number(found: &ArgMatches<'_>, name: &str, default: u32) -> u32
    ensures { IsNumber (found_of found.now) 0 4294967295 name.now default result }
{
    found.get_one::<u32>(name).unwrap_or(default)
}

/// The run's number.
fn run(found: &ArgMatches<'_>) -> u32
    ensures some { 1 ≤ result }
    ensures number { IsNumber (found_of found.now) 1 4294967295 (codes "run") 1 result }
{
    number(found, "run", 1).max(1)
}

/// How many workers there are, or this number of them.
fn workers(found: &ArgMatches<'_>, default: u16) -> u16
    requires { (1 ≤ default) × (default ≤ 64) }
    ensures some { 1 ≤ result }
    ensures few { result ≤ 64 }
    ensures number { IsNumber (found_of found.now) 1 64 (codes "workers") default result }
{
    small_number(found, "workers", default).max(1).min(64)
}

/// The options of `pipe`.
fn pipe_options(found: &ArgMatches<'_>) -> PipeOptions
    ensures { ArePipeOptions (found_of found.now) result }
{
    PipeOptions {
        ring: small_number(found, "ring", 1),
        run: run(found),
        sweep: number(found, "sweep", 0),
    }
}

/// The address that was given, or that of this machine to itself where none was; None where what was given is none.
fn address(found: &ArgMatches<'_>) -> Option<IpAddr>
    ensures { IsAddress (found_of found.now) result }
{
    if found.contains_id("address") {
        found.get_one::<IpAddr>("address")
    } else {
        Some(IpAddr::V4(Ipv4Addr::LOCALHOST))
    }
}

/// After how many connections serving ends, if it does.
fn connections(found: &ArgMatches<'_>) -> Option<u64>
    ensures { IsNumberIfGiven (found_of found.now) 65535 (codes "connections") result }
{
    match found.get_one::<u16>("connections") {
        Some(connections) => Some(u64::from(connections)),
        None => None,
    }
}

/// How the threads of `serve` wait for their connections.
fn waiting(found: &ArgMatches<'_>) -> Waiting
    ensures idle { IsNumberIfGiven (found_of found.now) 4294967295 (codes "idle")
        result.idle_seconds }
    ensures spin { IsNumberIfGiven (found_of found.now) 1000 (codes "spin") result.spin_micros }
    ensures replies { IsNumberIfGiven (found_of found.now) 18446744073709551615 (codes "replies")
        result.replies_bytes }
{
    Waiting {
        idle_seconds: found.get_one::<u32>("idle"),
        spin_micros: found.get_one::<u32>("spin"),
        replies_bytes: found.get_one::<u64>("replies"),
    }
}

/// Which lines of single connections the log has.
fn lines(found: &ArgMatches<'_>) -> ConnectionLines
    ensures { AreConnectionLines (found_of found.now) result }
{
    match found.get_str("log") {
        Some("ends") => ConnectionLines::Ends,
        Some("none") => ConnectionLines::Neither,
        _ => ConnectionLines::Both,
    }
}

/// How `serve` serves its connections.
fn serving_options(found: &ArgMatches<'_>) -> ServingOptions
    ensures { AreServingOptions (found_of found.now) result }
{
    ServingOptions {
        connections: connections(found),
        waiting: waiting(found),
        workers: workers(found, 4),
        run: run(found),
        sweep: number(found, "sweep", 0),
    }
}

/// The options of `serve`.
fn serve_options(found: &ArgMatches<'_>) -> ServeOptions
    ensures { AreServeOptions (found_of found.now) result }
{
    ServeOptions {
        address: address(found),
        port: small_number(found, "port", 8087),
        ring: small_number(found, "ring", 64),
        until_eof: found.get_flag("until-eof"),
        control: found.get_flag("control"),
        control_port: found.get_one::<u16>("control-port"),
        lines: lines(found),
        serving: serving_options(found),
    }
}

/// The options of `steps`.
fn steps_options(found: &ArgMatches<'_>) -> StepsOptions
    ensures { AreStepsOptions (found_of found.now) result }
{
    StepsOptions {
        workers: workers(found, 2),
        ring: small_number(found, "ring", 1),
        run: run(found),
    }
}

/// The command that was found, if there is one, with its options.
pub(crate) fn command_of(matches: &ArgMatches<'_>) -> Option<Subcommand>
    ensures { IfSome result (IsCommand matches.now) }
{
    match matches.subcommand() {
        Some(("pipe", found)) => Some(Subcommand::Pipe(pipe_options(found))),
        Some(("serve", found)) => Some(Subcommand::Serve(serve_options(found))),
        Some(("steps", found)) => Some(Subcommand::Steps(steps_options(found))),
        _ => None,
    }
}

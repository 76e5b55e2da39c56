//! The options of the commands.

use clap::builder::ValueParser;
use clap::{Arg, ArgAction, value_parser};
use std::alloc::{AllocError, Global};

/// An option whose value is a number, with the one that it has where it isn't given.
fn number<'a>(
    alloc: Global,
    name: &'a str,
    value_name: &'a str,
    parser: ValueParser<'a>,
    default: &'a str,
    help: &'a str,
) -> Arg<'a> {
    Arg::new(alloc, name)
        .long(name)
        .value_name(value_name)
        .value_parser(parser)
        .default_value(default)
        .help(help)
}

/// How many connections are served.
pub(crate) fn connections<'a>(alloc: Global) -> Arg<'a> {
    Arg::new(alloc, "connections")
        .long("connections")
        .value_name("N")
        .value_parser(value_parser!(u16).range(1..=65_535))
        .help(
            "Accept so many connections, from 1 to 65535, and end once the last of them has ended. Without it as many are served as come",
        )
}

/// The address.
pub(crate) fn address<'a>(alloc: Global) -> Arg<'a> {
    Arg::new(alloc, "address")
        .long("address")
        .value_name("A")
        .help(
            "The IP address that is listened on, 127.0.0.1 where none is given. Whoever can reach it can read, change and delete every key: there is no authentication and no encryption",
        )
}

/// After how long a silent connection is closed.
pub(crate) fn idle<'a>(alloc: Global) -> Arg<'a> {
    Arg::new(alloc, "idle")
        .long("idle")
        .value_name("SECONDS")
        .value_parser(value_parser!(u32).range(1..=4_294_967_295))
        .help(
            "Close a connection of which no byte has come or gone for so many seconds. Without it none is closed",
        )
}

/// For how long a worker spins.
pub(crate) fn spin<'a>(alloc: Global) -> Arg<'a> {
    Arg::new(alloc, "spin")
        .long("spin")
        .value_name("MICROS")
        .value_parser(value_parser!(u32).range(1..=1000))
        .help(
            "Let a thread that waited no longer than so many microseconds, from 1 to 1000, wait for as long again without sleep. Without it each wait sleeps",
        )
}

/// How many bytes of replies may wait.
pub(crate) fn replies<'a>(alloc: Global) -> Arg<'a> {
    Arg::new(alloc, "replies")
        .long("replies")
        .value_name("BYTES")
        .value_parser(value_parser!(u64).range(1..))
        .help(
            "While replies of so many bytes wait in all because clients don't read them, serve no other client. Give --idle too, which closes who never reads. Without it replies take as much memory as there is",
        )
}

/// Whether the end of standard input ends serving.
pub(crate) fn until_eof<'a>(alloc: Global) -> Arg<'a> {
    Arg::new(alloc, "until-eof")
        .long("until-eof")
        .action(ArgAction::SetTrue)
        .help(
            "End in order, with totals, at the end of standard input. Without it serving goes on until the program is ended from outside",
        )
}

/// Whether standard input is an operator's console.
pub(crate) fn control<'a>(alloc: Global) -> Arg<'a> {
    Arg::new(alloc, "control")
        .long("control")
        .action(ArgAction::SetTrue)
        .help(
            "Take an operator's commands from standard input, one a line, and answer each by one line on standard output. The end of standard input is as stop, with --until-eof or without",
        )
}

/// The port of an operator's console.
pub(crate) fn control_port<'a>(alloc: Global) -> Result<Arg<'a>, AllocError> {
    Arg::new(alloc, "control-port")
        .long("control-port")
        .value_name("N")
        .value_parser(value_parser!(u16))
        .help(
            "Take an operator's commands over TCP from one client at a time, at port N of 127.0.0.1, or with 0 at a free one, which a line before the first names. stop ends serving, and so does the end of standard input with --until-eof; no client's end does. Not with --control",
        )
        .conflicts_with("control")
}

/// Which lines of single connections the log has.
pub(crate) fn log<'a>(alloc: Global) -> Arg<'a> {
    Arg::new(alloc, "log")
        .long("log")
        .value_name("LINES")
        .value_parser(ValueParser::Names(&["all", "ends", "none"]))
        .default_value("all")
        .help(
            "Which lines of single connections the log on standard error has: all, one when it comes and one when it has ended; ends, that alone; none. Warnings of the server itself always come",
        )
}

/// The port.
pub(crate) fn port<'a>(alloc: Global) -> Arg<'a> {
    number(
        alloc,
        "port",
        "P",
        value_parser!(u16),
        "8087",
        "The port that is listened on. With 0 the system picks a free one, which the first line names",
    )
}

/// How many threads serve.
pub(crate) fn workers<'a>(alloc: Global) -> Arg<'a> {
    number(
        alloc,
        "workers",
        "W",
        value_parser!(u16).range(1..=64),
        "4",
        "How many threads serve, from 1 to 64, each many connections",
    )
}

/// How many workers a schedule has.
pub(crate) fn step_workers<'a>(alloc: Global) -> Arg<'a> {
    number(
        alloc,
        "workers",
        "W",
        value_parser!(u16).range(1..=64),
        "2",
        "How many workers take steps, from 1 to 64. A line that names another is a bad step",
    )
}

/// The number of partitions of a node that one thread serves.
pub(crate) fn ring<'a>(alloc: Global) -> Arg<'a> {
    number(
        alloc,
        "ring",
        "Q",
        value_parser!(u16),
        "1",
        "How many partitions share the keys, each with a vnode of its own: a power of two from 1 to 1024",
    )
}

/// The number of partitions of a node that several threads serve.
pub(crate) fn shared_ring<'a>(alloc: Global) -> Arg<'a> {
    number(
        alloc,
        "ring",
        "Q",
        value_parser!(u16),
        "64",
        "How many partitions share the keys, each with a vnode of its own: a power of two from 1 to 1024. More of them let more threads write at once",
    )
}

/// The run's number.
pub(crate) fn run<'a>(alloc: Global) -> Arg<'a> {
    number(
        alloc,
        "run",
        "N",
        value_parser!(u32).range(1..=4_294_967_295),
        "1",
        "The number of this run, from 1 to 4294967295. Contexts that clients keep from an earlier run are safe to use where each run has a number of its own",
    )
}

/// How many dead keys are forgotten.
pub(crate) fn sweep<'a>(alloc: Global) -> Arg<'a> {
    number(
        alloc,
        "sweep",
        "B",
        value_parser!(u32),
        "0",
        "How many deleted keys are forgotten, with their clocks, after each answer to a get, a put or a delete, at most. With 0 none is, and each deleted key takes memory for good",
    )
}

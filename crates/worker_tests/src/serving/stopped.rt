//! Runs that stop since no further connection is to be had.
use crate::serving::listener::{
    ABORTED, BAD_DESCRIPTOR, Failing, Failures, NO_PROCESS_DESCRIPTOR, listen,
};
use crate::serving::{Outcome, is_text, serve};
use log::sink::Console;
use log::{LevelFilter, Log, Logged};
use node_commands::{MAX_ACCEPT_TRIES, ServeFault};
use std::alloc::Global;
use std::io;
use std::net::{Net, SocketAddr, TcpListener, TcpStream};
use std::process::Abort;
use std::rt::Clock;
use std::sync::Wait;
use std::sync::atomic::{AtomicU32, Ordering};
use std::test::*;
use std::thread::Threads;
use std::time::Duration;

/// A run that stops behind the line on the port, since no accept gives a connection.
struct Stop {
    shows: &'static str,
    failures: Failures,
    workers: u16,
    /// How often a connection was accepted.
    accepts: u32,
}

const STOPS: &[Stop] = &[
    Stop {
        shows: "want of a descriptor ends the run at last",
        failures: Failures {
            count: u32::MAX,
            code: NO_PROCESS_DESCRIPTOR,
        },
        workers: 1,
        accepts: MAX_ACCEPT_TRIES,
    },
    Stop {
        shows: "connections that fail before they are accepted end the run at last",
        failures: Failures {
            count: u32::MAX,
            code: ABORTED,
        },
        workers: 1,
        accepts: MAX_ACCEPT_TRIES,
    },
    Stop {
        shows: "a fault of the listener itself ends the run at once",
        failures: Failures {
            count: u32::MAX,
            code: BAD_DESCRIPTOR,
        },
        workers: 2,
        accepts: 1,
    },
];

/// A runtime whose sleeps end at once.
#[derive(Clone, Copy)]
struct Hurried<R>(R);

impl<R: Threads> Threads for Hurried<R> {}

impl<R: Wait> Wait for Hurried<R> {}

impl<R: Net> Net for Hurried<R> {
    type Stream = R::Stream;

    type Listener = R::Listener;

    fn bind(&self, address: SocketAddr) -> io::Result<R::Listener> {
        self.0.bind(address)
    }

    fn connect(&self, address: SocketAddr) -> io::Result<R::Stream> {
        self.0.connect(address)
    }
}

impl<R: Clock> Clock for Hurried<R> {
    fn monotonic(&self) -> io::Result<Duration> {
        self.0.monotonic()
    }

    fn since_1970(&self) -> io::Result<Duration> {
        self.0.since_1970()
    }
}

/// Whether serving stopped behind the line on the port, since no connection could be had.
fn is_stopped(alloc: Global, outcome: &Outcome, port: u16) -> bool {
    matches!(&outcome.served, Err(ServeFault::AcceptFailed))
        && is_text(alloc, outcome.written.as_slice(), port, "")
}

/// Whether a run by this listener stops as it should.
fn stops<R: Log + Clock + Net + Threads + Wait + Sync>(
    rt: &R,
    alloc: Global,
    listener: TcpListener,
    port: u16,
    stop: &Stop,
) -> bool {
    let accepts = AtomicU32::new(0);
    let failing = Failing {
        listener,
        failures: stop.failures,
        accepts: &accepts,
    };
    let is_well = match serve(rt, alloc, failing, 1, stop.workers) {
        Some(outcome) => is_stopped(alloc, &outcome, port),
        None => false,
    };
    is_well && accepts.load(Ordering::SeqCst) == stop.accepts
}

/// The same by a new listener.
fn stops_anew<N, R>(net: &N, rt: &R, alloc: Global, stop: &Stop) -> bool
where
    N: Net<Listener = TcpListener, Stream = TcpStream>,
    R: Log + Clock + Net + Threads + Wait + Sync,
{
    let Some((listener, port)) = listen(net) else {
        return false;
    };
    stops(rt, alloc, listener, port, stop)
}

#[test]
fn a_run_stops_without_connections(rt: HostRuntime) {
    let quiet = Logged::new(Hurried(rt), LevelFilter::Off, Console(rt));
    for stop in STOPS {
        assert!(rt; stops_anew(&rt, &quiet, rt.alloc(), stop), "{}", stop.shows);
    }
}

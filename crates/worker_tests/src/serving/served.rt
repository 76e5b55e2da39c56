//! Runs that serve all their connections, and their clients beside them.
use crate::exchanges::{GET, NOTHING_ACCEPTED, PUT_V, STORED};
use crate::serving::clients::{Action, Ports, Step, take_all};
use crate::serving::listener::{
    ABORTED, Failing, Failures, NO_BUFFER, NO_FAILURES, NO_MEMORY, NO_PROCESS_DESCRIPTOR,
    NO_ROUTE_TO_HOST, NO_SYSTEM_DESCRIPTOR, listen,
};
use crate::serving::{Outcome, is_written, serve};
use log::sink::Console;
use log::{LevelFilter, Log, Logged};
use node_commands::{ReplyHalf, RequestHalf, Served};
use node_session::{Ended, SessionFault};
use std::alloc::Global;
use std::net::Net;
use std::process::Abort;
use std::rt::Clock;
use std::sync::Wait;
use std::sync::atomic::{AtomicBool, AtomicU32};
use std::test::*;
use std::thread;
use std::thread::Threads;
use vnode_core::Tally;
use worker_pool::End;

/// A run, what its clients do, and what it comes to.
#[derive(Clone, Copy)]
struct Run {
    shows: &'static str,
    failures: Failures,
    connections: u16,
    workers: u16,
    steps: &'static [Step],
    /// How each connection ends, in the order in which they came; none where a client doesn't wait for its replies.
    ends: &'static [Option<Result<Ended, SessionFault>>],
    /// What the one vnode accepted.
    tally: Tally,
    /// The line of the totals; none where a client doesn't wait for its replies.
    totals: Option<&'static str>,
}

/// A put of "v" on b/k, and a get of it.
pub const PUT_V_GET: &[u8] =
    b"\0\0\0\x0c\x0b\x0a\x01b\x12\x01k\x22\x03\x0a\x01v\0\0\0\x07\x09\x0a\x01b\x12\x01k";

/// A put of "w" on b/j, and a get of it.
pub const PUT_W_GET: &[u8] =
    b"\0\0\0\x0c\x0b\x0a\x01b\x12\x01j\x22\x03\x0a\x01w\0\0\0\x07\x09\x0a\x01b\x12\x01j";

/// Stored; "v" with the context of one dot of the vnode 65,536, but for its epoch and counter, which are twelve bytes.
pub const STORED_V: &[u8] =
    b"\0\0\0\x01\x0c\0\0\0\x1d\x0a\x0a\x03\x0a\x01v\x12\x15\x02\0\0\0\0\0\x01\0\0";

/// The same of "w".
pub const STORED_W: &[u8] =
    b"\0\0\0\x01\x0c\0\0\0\x1d\x0a\x0a\x03\x0a\x01w\x12\x15\x02\0\0\0\0\0\x01\0\0";

/// A put of "w" on b/k.
const PUT_W: &[u8] = b"\0\0\0\x0c\x0b\x0a\x01b\x12\x01k\x22\x03\x0a\x01w";

/// "w" and "v" as siblings, the later one first, with a context of one pair for both.
const W_AND_V: &[u8] =
    b"\0\0\0\x22\x0a\x0a\x03\x0a\x01w\x0a\x03\x0a\x01v\x12\x15\x02\0\0\0\0\0\x01\0\0";

/// A ping, and a length of 0.
pub const BAD_LENGTH: &[u8] = b"\0\0\0\x01\x01\0\0\0\0";

/// A pong; "bad frame".
pub const BAD_FRAME: &[u8] = b"\0\0\0\x01\x02\0\0\0\x0e\0\x0a\x09bad frame\x10\x01";

/// Two clients that are connected at once: each puts a value of its own and gets it.
pub const TWO_CLIENTS: &[Step] = &[
    Step::Connects,
    Step::Connects,
    Step::Acts(1, Action::Sends(PUT_W_GET)),
    Step::Acts(0, Action::Sends(PUT_V_GET)),
    Step::Acts(0, Action::Gets(STORED_V, 12)),
    Step::Acts(1, Action::Gets(STORED_W, 12)),
    Step::Acts(0, Action::Shuts),
    Step::Acts(0, Action::IsEnded),
    Step::Acts(1, Action::Shuts),
    Step::Acts(1, Action::IsEnded),
];

/// Two clients that each put a value of their own on b/k, without a context, and then get it.
pub const ONE_KEY: &[Step] = &[
    Step::Connects,
    Step::Connects,
    Step::Acts(0, Action::Sends(PUT_V)),
    Step::Acts(0, Action::Gets(STORED, 0)),
    Step::Acts(1, Action::Sends(PUT_W)),
    Step::Acts(1, Action::Gets(STORED, 0)),
    Step::Acts(0, Action::Sends(GET)),
    Step::Acts(0, Action::Gets(W_AND_V, 12)),
    Step::Acts(1, Action::Sends(GET)),
    Step::Acts(1, Action::Gets(W_AND_V, 12)),
    Step::Acts(0, Action::Shuts),
    Step::Acts(0, Action::IsEnded),
    Step::Acts(1, Action::Shuts),
    Step::Acts(1, Action::IsEnded),
];

/// Two clients that are connected at once, of which the later one ends first, with half a length.
const LATER_ENDS_FIRST: &[Step] = &[
    Step::Connects,
    Step::Connects,
    Step::Acts(1, Action::Sends(b"\0\0\x01")),
    Step::Acts(1, Action::Shuts),
    Step::Acts(1, Action::IsEnded),
    Step::Acts(0, Action::Sends(PUT_V_GET)),
    Step::Acts(0, Action::Gets(STORED_V, 12)),
    Step::Acts(0, Action::Shuts),
    Step::Acts(0, Action::IsEnded),
];

/// A client that sends half a length and ends.
const HALF_A_LENGTH: &[Step] = &[
    Step::Connects,
    Step::Acts(0, Action::Sends(b"\0\0\x01")),
    Step::Acts(0, Action::Shuts),
    Step::Acts(0, Action::IsEnded),
];

/// A client whose second length is bad: it gets the reply to its first request, and an error. Then one that asks and goes
/// without waiting for the reply, and one that waits for its own.
const THREE_CLIENTS: &[Step] = &[
    Step::Connects,
    Step::Acts(0, Action::Sends(BAD_LENGTH)),
    Step::Acts(0, Action::Gets(BAD_FRAME, 0)),
    Step::Acts(0, Action::IsEnded),
    Step::Leaves,
    Step::Connects,
    Step::Acts(0, Action::Sends(PUT_W_GET)),
    Step::Leaves,
    Step::Connects,
    Step::Acts(0, Action::Sends(PUT_V_GET)),
    Step::Acts(0, Action::Gets(STORED_V, 12)),
    Step::Acts(0, Action::Shuts),
    Step::Acts(0, Action::IsEnded),
];

/// How the connection of a client ends that put and got.
const PUT_AND_GOT: Option<Result<Ended, SessionFault>> = Some(Ok(Ended {
    replies: 2,
    rest: 0,
}));

const TWO_PUT_AND_GOT: &[Option<Result<Ended, SessionFault>>] = &[PUT_AND_GOT, PUT_AND_GOT];

/// What the vnode accepts of two puts.
const TWO_PUTS: Tally = Tally {
    writes: 2,
    ..NOTHING_ACCEPTED
};

/// What it accepts of one.
const ONE_PUT: Tally = Tally {
    writes: 1,
    ..NOTHING_ACCEPTED
};

/// The line of the totals where nothing was counted.
pub const NONE_OF_EACH: Option<&str> = Some("gets 0 puts 0 deletes 0 refusals 0 reaps 0\n");

/// The line of the totals of two puts and two gets.
pub const TWO_OF_EACH: Option<&str> = Some("gets 2 puts 2 deletes 0 refusals 0 reaps 0\n");

/// Two clients that put and get, served by two workers on a ring of one partition. Runs of a row say what is other.
const TWO_AT_ONCE: Run = Run {
    shows: "two clients are served at once",
    failures: NO_FAILURES,
    connections: 2,
    workers: 2,
    steps: TWO_CLIENTS,
    ends: TWO_PUT_AND_GOT,
    tally: TWO_PUTS,
    totals: TWO_OF_EACH,
};

const RUNS: &[Run] = &[
    Run {
        shows: "one worker serves two clients at once",
        workers: 1,
        ..TWO_AT_ONCE
    },
    Run {
        shows: "the ends are in the order in which the connections were accepted",
        workers: 1,
        steps: LATER_ENDS_FIRST,
        ends: &[
            PUT_AND_GOT,
            Some(Ok(Ended {
                replies: 0,
                rest: 3,
            })),
        ],
        tally: ONE_PUT,
        totals: Some("gets 1 puts 1 deletes 0 refusals 0 reaps 0\n"),
        ..TWO_AT_ONCE
    },
    Run {
        shows: "two clients of one key see one history of it",
        steps: ONE_KEY,
        ..TWO_AT_ONCE
    },
    Run {
        shows: "half a frame is a rest",
        failures: NO_FAILURES,
        connections: 1,
        workers: 1,
        steps: HALF_A_LENGTH,
        ends: &[Some(Ok(Ended {
            replies: 0,
            rest: 3,
        }))],
        tally: NOTHING_ACCEPTED,
        totals: NONE_OF_EACH,
    },
    Run {
        shows: "each fault ends its connection alone",
        failures: NO_FAILURES,
        connections: 3,
        workers: 1,
        steps: THREE_CLIENTS,
        ends: &[Some(Err(SessionFault::BadFrame(1))), None, PUT_AND_GOT],
        tally: TWO_PUTS,
        totals: None,
    },
    Run {
        shows: "want of memory is waited out",
        failures: Failures {
            count: 1,
            code: NO_MEMORY,
        },
        ..TWO_AT_ONCE
    },
    Run {
        shows: "want of a descriptor of the system is waited out",
        failures: Failures {
            count: 2,
            code: NO_SYSTEM_DESCRIPTOR,
        },
        ..TWO_AT_ONCE
    },
    Run {
        shows: "want of a descriptor of the process is waited out",
        failures: Failures {
            count: 3,
            code: NO_PROCESS_DESCRIPTOR,
        },
        ..TWO_AT_ONCE
    },
    Run {
        shows: "want of a buffer is waited out",
        failures: Failures {
            count: 4,
            code: NO_BUFFER,
        },
        ..TWO_AT_ONCE
    },
    Run {
        shows: "connections that were aborted before they were accepted are passed over, and don't count",
        failures: Failures {
            count: 5,
            code: ABORTED,
        },
        ..TWO_AT_ONCE
    },
    Run {
        shows: "so is one whose host is out of reach",
        failures: Failures {
            count: 1,
            code: NO_ROUTE_TO_HOST,
        },
        ..TWO_AT_ONCE
    },
];

/// Whether the connections ended so.
fn are_ends(
    ends: &[End<RequestHalf, ReplyHalf>],
    wanted: &[Option<Result<Ended, SessionFault>>],
) -> bool {
    let mut count = 0usize;
    for end in ends {
        if let Some(Some(result)) = wanted.get(count) {
            if end.result != *result {
                return false;
            }
        }
        count = count.saturating_add(1);
    }
    count == wanted.len()
}

/// Whether what was served is as a run says.
fn is_as_said(served: &Served, run: &Run) -> bool {
    served.tallies.as_slice() == [run.tally].as_slice()
        && served.count_all
        && are_ends(served.ends.as_slice(), run.ends)
}

/// Whether serving left and wrote what a run says.
fn is_served(alloc: Global, outcome: &Outcome, port: u16, run: &Run) -> bool {
    match &outcome.served {
        Ok(served) => {
            is_written(alloc, outcome.written.as_slice(), port, run.totals)
                && is_as_said(served, run)
        }
        Err(_) => false,
    }
}

/// Whether the connections of a listener are served as a run says.
fn serves<R: Log + Clock + Net + Threads + Wait + Sync>(
    rt: &R,
    alloc: Global,
    listener: Failing<'_>,
    port: u16,
    run: &Run,
) -> bool {
    match serve(rt, alloc, listener, run.connections, run.workers) {
        Some(outcome) => is_served(alloc, &outcome, port, run),
        None => false,
    }
}

// Serves a run, with its clients beside it: all comes as it says. It stands in each test, since both threads use the network, and of any runtime but a
// test's own it isn't known that another thread may.
macro_rules! serve_run {
    ($rt:ident, $run:expr) => {
        let Some((listener, port)) = listen(&$rt) else {
            panic!($rt; "no listener");
        };
        let run = $run;
        let quiet = Logged::new($rt, LevelFilter::Off, Console($rt));
        let accepts = AtomicU32::new(0);
        let failing = Failing {
            listener,
            failures: run.failures,
            accepts: &accepts,
        };
        let ports = Ports::new();
        let has_ended = AtomicBool::new(false);
        let (is_served, are_steps_taken) = thread::join(
            &$rt,
            || serves(&quiet, $rt.alloc(), failing, port, run),
            || take_all(&$rt, $rt.alloc(), port, &ports, &has_ended, run.steps),
        );
        assert!($rt; is_served && are_steps_taken, "{}", run.shows);
    };
}

/// Each of two clients gets the value that it put itself, and totals and tally count two puts.
#[test]
fn two_clients(rt: HostRuntime) {
    serve_run!(rt, &TWO_AT_ONCE);
}

#[test]
fn connections_are_served(rt: HostRuntime) {
    for run in RUNS {
        serve_run!(rt, run);
    }
}

//! Servers for as many clients as come, until an input ends or so many have come, and their clients beside them.
use crate::exchanges::accepted_of;
use crate::serving::clients::{Action, Ports, Step, take_all};
use crate::serving::heard::{are_told, has_ends};
use crate::serving::is_written;
use crate::serving::listener::listen;
use crate::serving::served::{
    BAD_FRAME, BAD_LENGTH, NONE_OF_EACH, ONE_KEY, PUT_V_GET, PUT_W_GET, STORED_V, STORED_W,
    TWO_CLIENTS, TWO_OF_EACH,
};
use log::sink::Locked;
use log::{LevelFilter, Log, Logged};
use node_commands::{ServerSettings, ServingOptions, Waiting, serve_on_until};
use ring_map::Ring;
use std::alloc::Global;
use std::io::{ErrorKind, Read};
use std::net::{Net, TcpListener};
use std::process::Abort;
use std::rt::Clock;
use std::sync::Wait;
use std::sync::atomic::{AtomicBool, Ordering};
use std::test::*;
use std::thread::Threads;
use std::time::Duration;
use std::{io, str, thread};

/// An input that ends once that is said, and until then says that it has nothing yet.
#[derive(Drop)]
struct Awaited<'a, R> {
    rt: &'a R,
    has_ended: &'a AtomicBool,
}

impl<'a, R: Clock> Read for Awaited<'a, R> {
    fn read(&mut self, _buf: &mut [u8]) -> io::Result<usize> {
        if self.has_ended.load(Ordering::SeqCst) {
            return Ok(0);
        }
        thread::sleep(self.rt, Duration::from_millis(1));
        Err(ErrorKind::WouldBlock.into())
    }
}

/// A server, what its clients do, and what it comes to.
#[derive(Clone, Copy)]
struct Server {
    shows: &'static str,
    workers: u16,
    /// After how many connections no more are accepted, if there is such a number.
    limit: Option<u64>,
    /// Whether there is an input whose end ends it.
    has_input: bool,
    waiting: Waiting,
    steps: &'static [Step],
    connections: u64,
    /// How the connections of the first clients end, as the log says behind their addresses.
    ends: &'static [&'static str],
    /// The line of the totals; none where a client doesn't wait for its replies.
    totals: Option<&'static str>,
}

/// A client that says nothing, one that has sent half a frame, and one that is served. The first two wait when the input ends.
const TWO_WAIT: &[Step] = &[
    Step::Connects,
    Step::Connects,
    Step::Acts(1, Action::Sends(b"\0\0\0\x07\x09\x0a")),
    Step::Connects,
    Step::Acts(2, Action::Sends(PUT_V_GET)),
    Step::Acts(2, Action::Gets(STORED_V, 12)),
    Step::Acts(2, Action::Shuts),
    Step::Acts(2, Action::IsEnded),
    Step::InputEnds,
    Step::Acts(0, Action::IsEnded),
    Step::Acts(1, Action::IsEnded),
];

/// A client whose bytes come one by one, beside one whose bytes come at once.
const ONE_BY_ONE: &[Step] = &[
    Step::Connects,
    Step::Connects,
    Step::Acts(0, Action::SendsByteByByte(PUT_V_GET)),
    Step::Acts(1, Action::Sends(PUT_W_GET)),
    Step::Acts(1, Action::Gets(STORED_W, 12)),
    Step::Acts(0, Action::Gets(STORED_V, 12)),
];

/// A client that says that it sends no more before it reads its replies.
const HALF_CLOSED: &[Step] = &[
    Step::Connects,
    Step::Acts(0, Action::Sends(PUT_V_GET)),
    Step::Acts(0, Action::Shuts),
    Step::Acts(0, Action::Gets(STORED_V, 12)),
    Step::Acts(0, Action::IsEnded),
];

/// A client whose second length is bad gets the reply to its first request, and an error. The other one is served on.
const ONE_BAD_LENGTH: &[Step] = &[
    Step::Connects,
    Step::Connects,
    Step::Acts(0, Action::Sends(BAD_LENGTH)),
    Step::Acts(0, Action::Gets(BAD_FRAME, 0)),
    Step::Acts(0, Action::IsEnded),
    Step::Acts(1, Action::Sends(PUT_V_GET)),
    Step::Acts(1, Action::Gets(STORED_V, 12)),
];

/// A client whose frame is too large, and that sends all of it before it reads: it gets the error.
const LARGE_FRAME: &[Step] = &[
    Step::Connects,
    Step::Acts(0, Action::Sends(b"\0\x20\0\0")),
    Step::Acts(0, Action::SendsZeros(2048)),
    Step::Acts(
        0,
        Action::Gets(b"\0\0\0\x14\0\x0a\x0fframe too large\x10\x01", 0),
    ),
    Step::Acts(0, Action::IsEnded),
];

/// A client that goes without its replies. The other one is served on.
const ONE_GOES: &[Step] = &[
    Step::Connects,
    Step::Connects,
    Step::Acts(1, Action::Sends(PUT_W_GET)),
    Step::Leaves,
    Step::Acts(0, Action::Sends(PUT_V_GET)),
    Step::Acts(0, Action::Gets(STORED_V, 12)),
];

/// A client that is silent for too long is closed. A further one is served.
const SILENT: &[Step] = &[
    Step::Connects,
    Step::Acts(0, Action::IsEnded),
    Step::Connects,
    Step::Acts(1, Action::Sends(PUT_V_GET)),
    Step::Acts(1, Action::Gets(STORED_V, 12)),
];

/// A client that says nothing.
const ONE_SILENT: &[Step] = &[Step::Connects, Step::Acts(0, Action::IsEnded)];

/// Of two clients the first ends before the second is served, and a third comes too late.
const ONE_TOO_MANY: &[Step] = &[
    Step::Connects,
    Step::Connects,
    Step::Connects,
    Step::Acts(0, Action::Shuts),
    Step::Acts(0, Action::IsEnded),
    Step::Acts(1, Action::Sends(PUT_V_GET)),
    Step::Acts(1, Action::Gets(STORED_V, 12)),
    Step::Acts(1, Action::Shuts),
    Step::Acts(1, Action::IsEnded),
];

/// The line of the totals of a put and a get.
const ONE_OF_EACH: Option<&str> = Some("gets 1 puts 1 deletes 0 refusals 0 reaps 0\n");

/// Workers that sleep in each wait, and close nobody for silence.
const ASLEEP: Waiting = Waiting {
    idle_seconds: None,
    spin_micros: None,
    replies_bytes: None,
};

/// Workers that close who is silent for a second, and spin.
const ONE_SECOND: Waiting = Waiting {
    idle_seconds: Some(1),
    spin_micros: Some(50),
    replies_bytes: None,
};

/// One worker that serves until its input ends, and whom no client comes to. Rows say what is other.
const ONE_WORKER: Server = Server {
    shows: "",
    workers: 1,
    limit: None,
    has_input: true,
    waiting: ASLEEP,
    steps: &[],
    connections: 0,
    ends: &[],
    totals: NONE_OF_EACH,
};

const SERVERS: &[Server] = &[
    Server {
        shows: "one worker serves two clients at once",
        steps: TWO_CLIENTS,
        connections: 2,
        totals: TWO_OF_EACH,
        ..ONE_WORKER
    },
    Server {
        shows: "two clients of one key see one history of it, whichever workers serve them",
        workers: 3,
        steps: ONE_KEY,
        connections: 2,
        totals: TWO_OF_EACH,
        ..ONE_WORKER
    },
    Server {
        shows: "clients that wait hold nobody up, and are ended with the input",
        steps: TWO_WAIT,
        connections: 3,
        ends: &["closed", "closed", "ended"],
        totals: ONE_OF_EACH,
        ..ONE_WORKER
    },
    Server {
        shows: "bytes may come one by one",
        steps: ONE_BY_ONE,
        connections: 2,
        totals: TWO_OF_EACH,
        ..ONE_WORKER
    },
    Server {
        shows: "who sends no more gets its replies",
        workers: 2,
        steps: HALF_CLOSED,
        connections: 1,
        totals: ONE_OF_EACH,
        ..ONE_WORKER
    },
    Server {
        shows: "a bad length ends its connection alone",
        steps: ONE_BAD_LENGTH,
        connections: 2,
        ends: &["ended: bad frame after 1 replies"],
        totals: ONE_OF_EACH,
        ..ONE_WORKER
    },
    Server {
        shows: "who still sends when its connection ends gets the error that says why",
        steps: LARGE_FRAME,
        connections: 1,
        ..ONE_WORKER
    },
    Server {
        shows: "who goes without replies ends its connection alone",
        steps: ONE_GOES,
        connections: 2,
        totals: None,
        ..ONE_WORKER
    },
    Server {
        shows: "who is silent for too long is closed",
        waiting: ONE_SECOND,
        steps: SILENT,
        connections: 2,
        totals: ONE_OF_EACH,
        ..ONE_WORKER
    },
    Server {
        shows: "it ends once so many connections have ended, and accepts no more",
        workers: 2,
        limit: Some(2),
        has_input: false,
        steps: ONE_TOO_MANY,
        connections: 2,
        totals: ONE_OF_EACH,
        ..ONE_WORKER
    },
    Server {
        shows: "it accepts no more than so many while its input goes on",
        limit: Some(2),
        steps: ONE_TOO_MANY,
        connections: 2,
        totals: ONE_OF_EACH,
        ..ONE_WORKER
    },
    Server {
        shows: "the last of so many may end by its silence",
        limit: Some(1),
        has_input: false,
        waiting: ONE_SECOND,
        steps: ONE_SILENT,
        connections: 1,
        ..ONE_WORKER
    },
    Server {
        shows: "the input may end before so many have come",
        limit: Some(5),
        steps: TWO_WAIT,
        connections: 3,
        totals: ONE_OF_EACH,
        ..ONE_WORKER
    },
    Server {
        shows: "the input may end while the last of so many wait",
        workers: 2,
        limit: Some(3),
        steps: TWO_WAIT,
        connections: 3,
        totals: ONE_OF_EACH,
        ..ONE_WORKER
    },
    Server {
        shows: "without a client it ends with the input",
        workers: 2,
        ..ONE_WORKER
    },
];

/// Whether a server of this listener comes to what it should.
fn serves<R: Log + Clock + Net + Threads + Wait + Sync>(
    rt: &R,
    alloc: Global,
    listener: TcpListener,
    port: u16,
    has_ended: &AtomicBool,
    server: &Server,
) -> bool {
    let Some(ring) = Ring::new(1) else {
        return false;
    };
    if server.workers < 1 || server.workers > 64 {
        return false;
    }
    let settings = ServerSettings {
        ring,
        options: ServingOptions {
            connections: server.limit,
            waiting: server.waiting,
            workers: server.workers,
            run: 1,
            sweep: 0,
        },
    };
    let mut written = Vec::new(alloc);
    let input = if server.has_input {
        Some(Awaited { rt, has_ended })
    } else {
        None
    };
    match serve_on_until(rt, alloc, listener, &settings, input, &mut written) {
        Ok(outcome) => is_written(alloc, written.as_slice(), port, server.totals)
            && outcome.connections == server.connections
            && outcome.served.accepted == server.connections
            && outcome.served.refused == 0
            && outcome.tallies.tallies.as_slice() == [accepted_of(outcome.served.totals)].as_slice()
            && outcome.tallies.count_all
            && outcome.wrote_totals,
        Err(_) => false,
    }
}

/// Whether the log says how each connection ended, once.
fn is_logged(alloc: Global, log: &[u8], ports: &Ports, server: &Server) -> bool {
    match str::from_utf8(log) {
        Ok(log) => has_ends(log, server.connections) && are_told(alloc, log, ports, server.ends),
        Err(_) => false,
    }
}

// The threads are started in the test itself: both use the network, and of any runtime it isn't known that another thread may.
#[test]
fn clients_are_served_until_the_end(rt: HostRuntime) {
    for server in SERVERS {
        let Some((listener, port)) = listen(&rt) else {
            panic!(rt; "no listener");
        };
        let heard = Locked::new(rt, Vec::new(rt.alloc()));
        let logged = Logged::new(rt, LevelFilter::Info, &heard);
        let ports = Ports::new();
        let has_ended = AtomicBool::new(false);
        let (is_served, are_steps_taken) = thread::join(
            &rt,
            || serves(&logged, rt.alloc(), listener, port, &has_ended, server),
            || take_all(&rt, rt.alloc(), port, &ports, &has_ended, server.steps),
        );
        let log = heard.into_inner();
        assert!(rt;
            is_served && are_steps_taken && is_logged(rt.alloc(), &log, &ports, server),
            "{}",
            server.shows
        );
    }
}

//! Servers with a console: what an operator is told, while clients go on.

use crate::serving::clients::{Action, Ports, Step, take_all};
use crate::serving::listener::listen;
use log::sink::Locked;
use log::{LevelFilter, Log, Logged};
use node_commands::{
    Controlled, ServeFault, ServerSettings, ServingOptions, Waiting, serve_controlled,
};
use ring_map::Ring;
use std::alloc::Global;
use std::io::{ErrorKind, Read, Write};
use std::net::{Net, TcpListener};
use std::process::Abort;
use std::rt::Clock;
use std::sync::Wait;
use std::sync::atomic::{AtomicBool, AtomicUsize, Ordering};
use std::test::*;
use std::thread::Threads;
use std::time::Duration;
use std::{io, thread};

/// Takes the line of the address, where it comes first, and then just the text that is due, in which `#` stands for a digit.
#[derive(Drop)]
struct Transcript<'a> {
    is_begun: bool,
    due: &'static [u8],
    /// How much of the text hasn't come.
    left: &'a AtomicUsize,
}

/// Whether a byte comes where this one is due.
fn is_due(due: u8, byte: u8) -> bool {
    due == byte || (due == b'#' && byte.is_ascii_digit())
}

impl<'a> Transcript<'a> {
    /// Takes a byte. False where another one is due.
    fn takes(&mut self, byte: u8) -> bool {
        if !self.is_begun {
            self.is_begun = byte == b'\n';
            return true;
        }
        match self.due.first() {
            Some(first) => {
                if !is_due(*first, byte) {
                    return false;
                }
                self.due = &self.due[1..];
                true
            }
            None => false,
        }
    }
}

impl<'a> Write for Transcript<'a> {
    ghost use Rattle.std.specs.Prelude.{None};

    ghost contents = { λ _. None };

    fn write(&mut self, buf: &[u8]) -> io::Result<usize> {
        for byte in buf {
            if !self.takes(*byte) {
                // one more than is due, so that it never comes to none
                self.left.store(1, Ordering::SeqCst);
                self.due = b"";
                return Err(ErrorKind::InvalidData.into());
            }
        }
        self.left.store(self.due.len(), Ordering::SeqCst);
        Ok(buf.len())
    }

    fn flush(&mut self) -> io::Result<()> {
        Ok(())
    }
}

/// Operators over one channel, one behind another: the lines of each, behind the last of which nothing comes until they are said to have ended, and what they
/// are answered.
#[derive(Drop)]
struct Operators<'a, 'b, R> {
    rt: &'a R,
    lines: &'static [u8],
    next: &'static [&'static [u8]],
    has_ended: &'a AtomicBool,
    answers: Transcript<'b>,
}

impl<'a, 'b, R: Clock> Read for Operators<'a, 'b, R> {
    fn read(&mut self, buf: &mut [u8]) -> io::Result<usize> {
        if let (Some(byte), Some(place)) = (self.lines.first(), buf.first_mut()) {
            *place = *byte;
            self.lines = &self.lines[1..];
            return Ok(1);
        }
        if let Some(lines) = self.next.first() {
            self.lines = *lines;
            self.next = &self.next[1..];
            return Err(ErrorKind::ConnectionReset.into());
        }
        if self.has_ended.load(Ordering::SeqCst) {
            return Ok(0);
        }
        thread::sleep(self.rt, Duration::from_millis(1));
        Err(ErrorKind::WouldBlock.into())
    }
}

impl<'a, 'b, R> Write for Operators<'a, 'b, R> {
    ghost use Rattle.std.specs.Prelude.{None};

    ghost contents = { λ _. None };

    fn write(&mut self, buf: &[u8]) -> io::Result<usize> {
        self.answers.write(buf)
    }

    fn flush(&mut self) -> io::Result<()> {
        self.answers.flush()
    }
}

/// A server with a console, on a ring of one partition: what its operators say and are answered, the totals at its end, and what its clients do.
struct Controls {
    shows: &'static str,
    workers: u16,
    operators: &'static [&'static [u8]],
    answers: &'static [u8],
    steps: &'static [Step],
    connections: u64,
    /// How many diversions of the partition have returned, of which all calls are known.
    returned: u64,
}

/// The totals of servers whose clients ask for nothing but pings.
const TOTALS: &[u8] = b"gets 0 puts 0 deletes 0 refusals 0 reaps 0\n";

/// A client whose ping comes byte by byte, and one that has sent the half of one.
const PINGS: &[Step] = &[
    Step::Connects,
    Step::Connects,
    Step::Acts(1, Action::Sends(b"\0\0\0")),
    Step::Acts(
        0,
        Action::SendsByteByByte(b"\0\0\0\x01\x01\0\0\0\x01\x01\0\0\0\x01\x01"),
    ),
    Step::Acts(
        0,
        Action::Gets(b"\0\0\0\x01\x02\0\0\0\x01\x02\0\0\0\x01\x02", 0),
    ),
    Step::Acts(1, Action::Sends(b"\x01\x01")),
    Step::Acts(1, Action::Gets(b"\0\0\0\x01\x02", 0)),
    Step::InputEnds,
    Step::Acts(0, Action::IsEnded),
    Step::Acts(1, Action::IsEnded),
];

const SERVERS: &[Controls] = &[
    Controls {
        shows: "each command has its answer, and each refusal its reason",
        workers: 1,
        operators: &[
            b"totals\ndiverted\ncopy 0 1\nreturn 0\ndivert 0\ndiverted\ndivert 0\ncopy 0 1\nreturn 0\ncopy 0 1\ndivert 1\ncopy 7 1\nreturn 9\nDivert 0\ndivert 0\r\nstop\ntotals\n",
        ],
        answers: b"gets 0 puts 0 deletes 0 refusals 0 reaps 0 connections 0 keys 0 siblings 0 dead 0 bytes 0 puts_refused 0\ndiverted now:\nrefused: partition 0 isn't diverted\nrefused: partition 0 isn't diverted\ndiverted 0\ndiverted now: 0 for # s\nrefused: partition 0 is diverted already\ncopied 0 keys 0 whole\nreturned 0\nrefused: partition 0 isn't diverted\nrefused: there is no partition 1\nrefused: there is no partition 7\nrefused: there is no partition 9\nrefused: no such command; help lists them\ndiverted 0\n",
        steps: &[],
        connections: 0,
        returned: 1,
    },
    Controls {
        shows: "clients go on through pauses, and are ended with the input",
        workers: 2,
        operators: &[b"divert 0\ncopy 0 9\nreturn 0\ndivert 0\nreturn 0\ndivert 0\nreturn 0\n"],
        answers: b"diverted 0\ncopied 0 keys 0 whole\nreturned 0\ndiverted 0\nreturned 0\ndiverted 0\nreturned 0\n",
        steps: PINGS,
        connections: 2,
        returned: 3,
    },
    Controls {
        shows: "a line of more than 64 bytes is refused, and one without its end isn't obeyed",
        workers: 1,
        operators: &[
            b"divert 000000000000000000000000000000000000000000000000000000000000000000\ndivert 0\n\nreturn 0",
        ],
        answers: b"refused: the line has more than 64 bytes\ndiverted 0\nrefused: no such command; help lists them\n",
        steps: &[Step::InputEnds],
        connections: 0,
        returned: 0,
    },
    Controls {
        shows: "a line whose operator has gone isn't obeyed, nor joined to the next one's",
        workers: 1,
        operators: &[
            b"divert 0\nretu",
            b"rn 0\n",
            b"",
            b"return 0\ndivert",
            b"copy 0 1\nstop\n",
        ],
        answers: b"diverted 0\nrefused: no such command; help lists them\nreturned 0\nrefused: partition 0 isn't diverted\n",
        steps: &[],
        connections: 0,
        returned: 1,
    },
];

/// Whether all calls of the hand-offs of a server's one partition are known, so many of which have returned.
fn knows_hand_offs(outcome: &Controlled, returned: u64) -> bool {
    match outcome.tracks.tracks() {
        [track] => track.returned() == Some(returned),
        _ => false,
    }
}

/// Whether a server came to so many connections, all of which were served, and none of its vnodes took anything; and to so many hand-offs.
fn has_served(outcome: &Result<Controlled, ServeFault>, connections: u64, returned: u64) -> bool {
    match outcome {
        Ok(outcome) => {
            outcome.connections == connections
                && outcome.closed == 0
                && outcome.totals.puts == 0
                && outcome.tallies.count_all
                && outcome.wrote_totals
                && knows_hand_offs(outcome, returned)
        }
        Err(_) => false,
    }
}

/// Whether a server of this listener comes to what it should.
fn serves<'a, R: Log + Clock + Net + Threads + Wait + Sync>(
    rt: &'a R,
    alloc: Global,
    listener: TcpListener,
    has_ended: &'a AtomicBool,
    controls: &Controls,
) -> bool {
    let Some(ring) = Ring::new(1) else {
        return false;
    };
    if controls.workers < 1 || controls.workers > 64 {
        return false;
    }
    let settings = ServerSettings {
        ring,
        options: ServingOptions {
            connections: None,
            waiting: Waiting {
                idle_seconds: None,
                spin_micros: Some(50),
                replies_bytes: None,
            },
            workers: controls.workers,
            run: 1,
            sweep: 0,
        },
    };
    let (unanswered, unwritten) = (AtomicUsize::new(1), AtomicUsize::new(1));
    let answers = Transcript {
        is_begun: true,
        due: controls.answers,
        left: &unanswered,
    };
    let operators = Operators {
        rt,
        lines: b"",
        next: controls.operators,
        has_ended,
        answers,
    };
    let mut writer = Transcript {
        is_begun: false,
        due: TOTALS,
        left: &unwritten,
    };
    let outcome = serve_controlled(rt, alloc, listener, &settings, operators, &mut writer);
    has_served(&outcome, controls.connections, controls.returned)
        && unanswered.load(Ordering::SeqCst) == 0
        && unwritten.load(Ordering::SeqCst) == 0
}

// The threads are started in the test itself: both use the network, and of any runtime it isn't known that another thread may.
#[test]
fn an_operator_is_answered_while_clients_go_on(rt: HostRuntime) {
    for controls in SERVERS {
        let Some((listener, port)) = listen(&rt) else {
            panic!(rt; "no listener");
        };
        let heard = Locked::new(rt, Vec::new(rt.alloc()));
        let logged = Logged::new(rt, LevelFilter::Info, &heard);
        let ports = Ports::new();
        let has_ended = AtomicBool::new(false);
        let (is_served, are_steps_taken) = thread::join(
            &rt,
            || serves(&logged, rt.alloc(), listener, &has_ended, controls),
            || take_all(&rt, rt.alloc(), port, &ports, &has_ended, controls.steps),
        );
        assert!(rt; is_served && are_steps_taken, "{}", controls.shows);
    }
}

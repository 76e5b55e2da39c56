//! A session over streams that need not wait, taken step by step to its end.

ghost use Rattle.node_session.specs.Stages.{Fits};
ghost use Rattle.std.specs.Prelude.{◌<◌};

use crate::tests::frames::{PING, PONG, STORED};
use crate::tests::sessions::{Part, Session, joined};
use crate::tests::streams::{Call, Channel, Trouble, attempt};
use node_session::{Ended, Plain, PlainNode, Scratch, SessionFault};
use std::alloc::Global;
use std::cell::Cell;
use std::io;
use std::io::{ErrorKind, Read, Write};

/// How many reads a session makes at most: more than any row takes.
const MAX_READS: u64 = 4_294_967_296;

/// Gives bytes in pieces.
#[derive(Drop)]
struct Giving<'a> {
    left: &'a [u8],
    piece: usize,
    troubles: &'a [Trouble],
    reads: u64,
    ghost some: { 0 < piece },
}

impl Read for Giving<'_> {
    ghost use Rattle.std.specs.Prelude.{Some};

    ghost remaining = { λ r. Some r.left.now };

    fn read(&mut self, buf: &mut [u8]) -> io::Result<usize> {
        let number = self.reads;
        self.reads = number.saturating_add(1);
        attempt(self.troubles, Call::Read, number)?;
        let n = self.piece.min(self.left.len()).min(buf.len());
        let (front, left) = self.left.split_at(n);
        buf[..n].copy_from_slice(front);
        self.left = left;
        Ok(n)
    }
}

/// Takes some bytes at a time, and fails where they aren't those that are due.
#[derive(Drop)]
struct Comparing<'a> {
    due: &'a [u8],
    most: usize,
    troubles: &'a [Trouble],
    writes: u64,
    /// How many bytes are still due.
    left: &'a Cell<usize>,
}

impl Write for Comparing<'_> {
    ghost use Rattle.std.specs.Prelude.{None};

    ghost contents = { λ w. None };

    fn write(&mut self, buf: &[u8]) -> io::Result<usize> {
        let number = self.writes;
        self.writes = number.saturating_add(1);
        attempt(self.troubles, Call::Write, number)?;
        let n = self.most.min(buf.len());
        if n > self.due.len() || !self.due.starts_with(&buf[..n]) {
            return Err(io::Error::from(ErrorKind::InvalidData));
        }
        self.due = &self.due[n..];
        self.left.set(self.due.len());
        Ok(n)
    }

    fn flush(&mut self) -> io::Result<()> {
        Ok(())
    }
}

/// Takes steps to the end, and returns what came of the session. One that would have to wait takes its next step all the same.
fn outcome_of(
    alloc: Global,
    session: &mut node_session::Session,
    source: &mut Giving,
    sink: &mut Comparing,
    node: &mut PlainNode,
    scratch: &mut Scratch,
) -> Option<Result<Ended, SessionFault>>
    requires { Fits session.old.stage session.old }
{
    for _ in 0..1_000_000u32 {
        if let Some(result) = session.outcome() {
            return Some(result);
        }
        let _waits = session.step::<_, Plain, _, _>(alloc, source, sink, node, scratch, true);
    }
    None
}

/// What a session is given, and what comes of it.
#[derive(Drop)]
pub struct Carried<'i, 'o, 't> {
    pub input: &'i [u8],
    pub output: &'o [u8],
    pub channel: Channel<'t>,
    pub end: Result<Ended, SessionFault>,
    /// How many bytes of the output are not taken.
    pub left: usize,
}

/// Whether a session with a new node comes to its end so.
pub fn comes_so(alloc: Global, row: &Carried) -> bool {
    let Ok(mut node) = PlainNode::new(alloc, 1) else {
        return false;
    };
    let left = Cell::new(row.output.len());
    let (piece, _) = row.channel.pieces;
    let mut source = Giving {
        left: row.input,
        piece: piece.max(1),
        troubles: row.channel.troubles,
        reads: 0,
    };
    let mut sink = Comparing {
        due: row.output,
        most: row.channel.most,
        troubles: row.channel.troubles,
        writes: 0,
        left: &left,
    };
    let mut session = node_session::Session::new(alloc, MAX_READS);
    let mut scratch = Scratch::new(alloc);
    let end = outcome_of(
        alloc,
        &mut session,
        &mut source,
        &mut sink,
        &mut node,
        &mut scratch,
    );
    end == Some(row.end) && left.get() == row.left
}

/// Takes 4,099 bytes, and lets them go: whether it got them.
fn mark(alloc: Global) -> bool {
    match Vec::<u8>::with_capacity(alloc, 4_099) {
        Ok(bytes) => bytes.is_empty(),
        Err(_) => false,
    }
}

/// A session whose steps were lent room, as it ended.
#[derive(Drop)]
struct Ran {
    end: Ended,
    reads: u64,
    /// For how many reads of 4,096 bytes these count.
    made: u64,
}

/// How a session of this input goes whose steps are lent room, between two marks, where it takes all of its output. A read gives so many bytes at most.
fn runs_between_marks(alloc: Global, input: &[u8], output: &[u8], piece: usize) -> Option<Ran>
    requires { 0 < piece }
{
    let Ok(mut node) = PlainNode::new(alloc, 1) else {
        return None;
    };
    let left = Cell::new(output.len());
    let mut source = Giving {
        left: input,
        piece,
        troubles: &[],
        reads: 0,
    };
    let mut sink = Comparing {
        due: output,
        most: output.len(),
        troubles: &[],
        writes: 0,
        left: &left,
    };
    let mut scratch = Scratch::new(alloc);
    let mut session = node_session::Session::new(alloc, MAX_READS);
    if !scratch.make_room() || !mark(alloc) {
        return None;
    }
    let end = outcome_of(
        alloc,
        &mut session,
        &mut source,
        &mut sink,
        &mut node,
        &mut scratch,
    );
    match end {
        Some(Ok(end)) if mark(alloc) && left.get() == 0 => Some(Ran {
            end,
            reads: source.reads,
            made: session.made,
        }),
        _ => None,
    }
}

/// The same of the bytes of these parts.
fn parts_run(alloc: Global, input: &[Part], output: &[Part], piece: usize) -> Option<Ran>
    requires { 0 < piece }
{
    match (joined(alloc, input), joined(alloc, output)) {
        (Ok(input), Ok(output)) => runs_between_marks(alloc, &input, &output, piece),
        _ => None,
    }
}

const PINGS: &[Part] = &[Part::Times(2_000, PING)];

const PONGS: &[Part] = &[Part::Times(2_000, PONG)];

/// Whether a session of pings comes to its end.
fn pings_are_answered(alloc: Global) -> bool {
    match parts_run(alloc, PINGS, PONGS, 4_096) {
        Some(ran) => ran.end.replies == 2_000 && ran.end.rest == 0,
        None => false,
    }
}

// In room that is lent a session takes no memory for what comes and goes, also where a message comes in two pieces.
#[test]
fn pings_in_lent_room(rt: HostRuntime) {
    assert!(rt; pings_are_answered(rt.alloc()));
}

/// A put of the longest frame that a request may have, 1,048,580 bytes, and a ping.
const LONGEST: &[Part] = &[
    Part::Bytes(b"\0\x10\0\0\x0b\x0a\x01b\x12\x01k\x22\xf5\xff\x3f\x0a\xf1\xff\x3f"),
    Part::Times(1_048_561, b"\x07"),
    Part::Bytes(PING),
];

const STORED_AND_PONG: &[Part] = &[Part::Bytes(STORED), Part::Bytes(PONG)];

/// Whether a session of the longest message makes so many reads, which count for so many.
fn longest_is_read(alloc: Global, reads: u64, made: u64) -> bool {
    match parts_run(alloc, LONGEST, STORED_AND_PONG, 2_000_000) {
        Some(ran) => ran.end.replies == 2 && ran.reads == reads && ran.made == made,
        None => false,
    }
}

// The first read brings its length. What it lacks, 1,044,484 bytes, comes by 15 reads of 65,536 bytes and one of 61,444, each of which counts for 16; the
// ping by one of its own, behind which one meets the end.
#[test]
fn a_long_message_is_read_64_kib_at_a_time(rt: HostRuntime) {
    assert!(rt; longest_is_read(rt.alloc(), 19, 258));
}

/// Whether a session goes as its row says, and takes all of its output.
pub fn is_carried(alloc: Global, row: &Session) -> bool {
    let (Ok(input), Ok(output)) = (joined(alloc, row.input), joined(alloc, row.output)) else {
        return false;
    };
    let carried = Carried {
        input: &input,
        output: &output,
        channel: row.channel,
        end: row.end,
        left: 0,
    };
    comes_so(alloc, &carried)
}

//! What a session is given, and what comes of it.

use crate::tests::frames::{REPLIES, REQUESTS};
use crate::tests::streams::{Channel, PLAIN, Sink, Source};
use node_session::{Ended, PlainNode, SessionFault, exit_status, serve};
use std::alloc::{AllocError, Global};
use std::cell::Cell;

/// Bytes in a row.
pub enum Part {
    Bytes(&'static [u8]),
    /// The same bytes so many times.
    Times(u32, &'static [u8]),
    /// Entries of a context: the first so many epochs of the vnode 131072, each with this counter.
    Entries(u8, &'static [u8]),
}

/// Appends the first so many epochs of the vnode 131072, each with this counter.
fn append_entries(bytes: &mut Vec<u8>, count: u8, counter: &[u8]) -> Result<(), AllocError> {
    for epoch in 1..=count {
        bytes.extend_from_slice(&[0, 0, 0, 0, 0, 2, 0, 0, 0, 0, 0, epoch])?;
        bytes.extend_from_slice(counter)?;
    }
    Ok(())
}

/// The bytes of all parts.
pub fn joined(alloc: Global, parts: &[Part]) -> Result<Vec<u8>, AllocError> {
    let mut bytes = Vec::new(alloc);
    for part in parts {
        match part {
            Part::Bytes(some) => bytes.extend_from_slice(some)?,
            Part::Times(times, some) => {
                for _ in 0..*times {
                    bytes.extend_from_slice(some)?;
                }
            }
            Part::Entries(count, counter) => append_entries(&mut bytes, *count, counter)?,
        }
    }
    Ok(bytes)
}

/// A count that a session is judged by besides its output.
#[derive(Drop)]
pub enum Count {
    Reads(u64),
    /// How many bytes a read has asked for at most.
    Largest(usize),
    Writes(u64),
    /// How many more flushes were made than reads.
    FlushesOverReads(u64),
    /// How many bytes are not read any more.
    Unread(usize),
    /// The program's status for the session's end.
    Status(u8),
}

/// What comes of a session.
#[derive(Drop)]
pub struct Outcome<'o, 'c> {
    pub end: Result<Ended, SessionFault>,
    pub output: &'o [u8],
    pub counts: &'c [Count],
}

// The end of a session that met the end of its input, with so many replies and so many bytes left.
macro_rules! ended {
    ($replies:expr, $rest:expr) => {
        Ok(node_session::Ended {
            replies: $replies,
            rest: $rest,
        })
    };
}

pub(crate) use ended;

/// A session on a new node.
#[derive(Clone, Copy)]
pub struct Session {
    pub shows: &'static str,
    pub input: &'static [Part],
    pub channel: Channel<'static>,
    pub end: Result<Ended, SessionFault>,
    pub output: &'static [Part],
    pub counts: &'static [Count],
}

/// One that is given nothing. Rows say what is other.
pub const EMPTY: Session = Session {
    shows: "",
    input: &[],
    channel: PLAIN,
    end: ended!(0, 0),
    output: &[],
    counts: &[],
};

/// One that is given the three requests, and answers them. Rows say what is other.
pub const ANSWERED: Session = Session {
    input: &[Part::Bytes(&REQUESTS)],
    end: ended!(3, 0),
    output: &[Part::Bytes(&REPLIES)],
    ..EMPTY
};

/// Whether each count is as it should be.
fn are_counted(
    counts: &[Count],
    source: &Source,
    sink: &Sink,
    end: Result<Ended, SessionFault>,
) -> bool {
    for count in counts {
        let is_right = match *count {
            Count::Reads(reads) => source.reads == reads,
            Count::Largest(bytes) => source.largest == bytes,
            Count::Writes(writes) => sink.writes == writes,
            Count::FlushesOverReads(more) => sink.flushes == source.reads.saturating_add(more),
            Count::Unread(bytes) => source.left.len() == bytes,
            Count::Status(status) => exit_status(end) == status,
        };
        if !is_right {
            return false;
        }
    }
    true
}

/// Serves an input that comes and goes by a channel, and compares all that comes of it.
pub fn comes_to(
    alloc: Global,
    node: &mut PlainNode,
    input: &[u8],
    channel: &Channel,
    outcome: &Outcome,
) -> bool {
    let flushed = Cell::new(0);
    let mut source = Source::new(input, channel, &flushed);
    let mut sink = Sink::new(alloc, channel, &flushed);
    let reads = u64::from(channel.reads);
    let end = serve(alloc, &mut source, &mut sink, node, reads);
    end == outcome.end
        && sink.bytes.as_slice() == outcome.output
        && are_counted(outcome.counts, &source, &sink, end)
}

/// Serves a new node.
pub fn comes_to_new(alloc: Global, input: &[u8], channel: &Channel, outcome: &Outcome) -> bool {
    match PlainNode::new(alloc, 1) {
        Ok(mut node) => comes_to(alloc, &mut node, input, channel, outcome),
        Err(_) => false,
    }
}

/// Whether a session on this node goes as its row says.
pub fn goes_on(alloc: Global, node: &mut PlainNode, row: &Session) -> bool {
    let (Ok(input), Ok(output)) = (joined(alloc, row.input), joined(alloc, row.output)) else {
        return false;
    };
    let outcome = Outcome {
        end: row.end,
        output: &output,
        counts: row.counts,
    };
    comes_to(alloc, node, &input, &row.channel, &outcome)
}

/// The same on a new node.
pub fn goes(alloc: Global, row: &Session) -> bool {
    match PlainNode::new(alloc, 1) {
        Ok(mut node) => goes_on(alloc, &mut node, row),
        Err(_) => false,
    }
}

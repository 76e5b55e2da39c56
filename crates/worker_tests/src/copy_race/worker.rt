//! A node over the gates that puts and gets by the contexts that it was shown, and records its puts.

use crate::copy_race::puts::{Put, frame_of, pair_of};
use gate_node::{GateNode, Open, Passes, Shared};
use node_session::serve;
use stats_book::SessionCount;
use std::alloc::{AllocError, Global};
use std::sync::Wait;

/// The ids of the primary and of its fallback.
pub const VNODES: [u64; 2] = [65_536, 98_304];

/// How many puts of each key a worker makes.
const TURNS: u8 = 60;

/// What a node is asked.
#[derive(Clone, Copy)]
pub enum Part<'a> {
    /// These frames.
    Frames(&'a [u8]),
    /// Puts and gets of b/k and b/j, by the contexts that these show, of which the first of b/k is this one.
    Turns { worker: u8, context: &'a [u8] },
}

/// What came of it.
#[derive(Drop)]
pub struct Done {
    pub written: Vec<u8>,
    pub puts: Vec<Put>,
}

/// The reply to a frame.
fn ask<W: Wait>(
    alloc: Global,
    node: &mut GateNode<'_, W, Open, SessionCount>,
    frame: &[u8],
) -> Option<Vec<u8>> {
    let mut reader = frame;
    let mut written = Vec::new(alloc);
    let result = serve(alloc, &mut reader, &mut written, node, 100);
    match result {
        Ok(_) => Some(written),
        Err(_) => None,
    }
}

/// A frame that gets a key of b.
fn get_frame(alloc: Global, key: u8) -> Result<Vec<u8>, AllocError> {
    frame_of(alloc, &[0x09, 0x0a, 1, b'b', 0x12, 1, key])
}

/// A frame that puts a byte on a key of b, by a context or without, and asks for what the key has then.
fn put_frame(alloc: Global, key: u8, value: u8, context: &[u8]) -> Result<Vec<u8>, AllocError> {
    let mut body = Vec::new(alloc);
    body.extend_from_slice(&[0x0b, 0x0a, 1, b'b', 0x12, 1, key])?;
    if !context.is_empty() {
        let len = u8::try_from(context.len()).unwrap_or(0);
        body.extend_from_slice(&[0x1a, len])?;
        body.extend_from_slice(context)?;
    }
    body.extend_from_slice(&[0x22, 3, 0x0a, 1, value, 0x38, 1])?;
    frame_of(alloc, body.as_slice())
}

/// The end of a reply, where it is a context of so many bytes.
fn ending(reply: &[u8], len: u8) -> Option<&[u8]> {
    let from = reply.len().checked_sub(usize::from(len))?.checked_sub(2)?;
    let end = reply.get(from..)?;
    if end.get(..2)? != [0x12, len].as_slice() {
        return None;
    }
    end.get(2..)
}

/// The context that a reply shows, of one vnode or of two.
pub fn context_in(reply: &[u8]) -> Option<&[u8]> {
    match ending(reply, 41) {
        Some(context) => Some(context),
        None => ending(reply, 21),
    }
}

/// A copy of the context that a reply shows, or of the one before.
fn latest_context(alloc: Global, reply: &[u8], before: &[u8]) -> Result<Vec<u8>, AllocError> {
    let mut context = Vec::new(alloc);
    context.extend_from_slice(context_in(reply).unwrap_or(before))?;
    Ok(context)
}

/// A put by this context, as its reply shows it.
fn put_of(key: u8, value: u8, context: &[u8], reply: &[u8]) -> Option<Put> {
    let shown = context_in(reply)?;
    Some(Put {
        key,
        value,
        dot: pair_of(shown, VNODES[1]),
        seen: [pair_of(context, VNODES[0]), pair_of(context, VNODES[1])],
    })
}

/// A put of the key by a context, and what it shows; recorded.
fn put_once<W: Wait>(
    alloc: Global,
    node: &mut GateNode<'_, W, Open, SessionCount>,
    key: u8,
    value: u8,
    context: &[u8],
    puts: &mut Vec<Put>,
) -> Option<Vec<u8>> {
    let frame = put_frame(alloc, key, value, context).ok()?;
    let reply = ask(alloc, node, frame.as_slice())?;
    let put = put_of(key, value, context, reply.as_slice())?;
    puts.push(put).ok()?;
    Some(reply)
}

/// The context of a put: every other one goes by a get before it, every fifth by none, the others by the last that was shown.
fn context_for<W: Wait>(
    alloc: Global,
    node: &mut GateNode<'_, W, Open, SessionCount>,
    key: u8,
    turn: u8,
    last: &[u8],
) -> Option<Vec<u8>> {
    if turn % 5 == 4 {
        return Some(Vec::new(alloc));
    }
    if turn % 2 == 1 {
        return latest_context(alloc, b"", last).ok();
    }
    let frame = get_frame(alloc, key).ok()?;
    let reply = ask(alloc, node, frame.as_slice())?;
    latest_context(alloc, reply.as_slice(), last).ok()
}

/// One turn at a key: the context that its put's reply shows.
fn take_turn<W: Wait>(
    alloc: Global,
    node: &mut GateNode<'_, W, Open, SessionCount>,
    key: u8,
    worker: u8,
    turn: u8,
    last: &[u8],
    puts: &mut Vec<Put>,
) -> Option<Vec<u8>> {
    let context = context_for(alloc, node, key, turn, last)?;
    let value = worker.wrapping_mul(128).wrapping_add(turn);
    let reply = put_once(alloc, node, key, value, context.as_slice(), puts)?;
    latest_context(alloc, reply.as_slice(), last).ok()
}

/// All turns of a worker at both keys, of which the first at b/k goes by this context.
fn take_turns<W: Wait>(
    alloc: Global,
    node: &mut GateNode<'_, W, Open, SessionCount>,
    worker: u8,
    context: &[u8],
) -> Option<Vec<Put>> {
    let mut puts = Vec::new(alloc);
    let mut of_k = latest_context(alloc, b"", context).ok()?;
    let mut of_j = Vec::new(alloc);
    for turn in 0..TURNS {
        of_k = take_turn(alloc, node, b'k', worker, turn, of_k.as_slice(), &mut puts)?;
        of_j = take_turn(alloc, node, b'j', worker, turn, of_j.as_slice(), &mut puts)?;
    }
    Some(puts)
}

/// What a node answers.
fn take_part<W: Wait>(
    alloc: Global,
    node: &mut GateNode<'_, W, Open, SessionCount>,
    part: Part<'_>,
) -> Option<Done> {
    match part {
        Part::Frames(frames) => {
            let written = ask(alloc, node, frames)?;
            let puts = Vec::new(alloc);
            Some(Done { written, puts })
        }
        Part::Turns { worker, context } => {
            let puts = take_turns(alloc, node, worker, context)?;
            let written = Vec::new(alloc);
            Some(Done { written, puts })
        }
    }
}

/// What a new node over these gates answers. None where memory is refused, or a put isn't stored.
pub fn take<W: Wait>(rt: &W, alloc: Global, shared: &Shared, part: Part<'_>) -> Option<Done> {
    let passes = match Passes::new(alloc, shared) {
        Ok(passes) => passes,
        Err(_) => return None,
    };
    let mut node = GateNode::counting_by(rt, shared, SessionCount::new(), passes, &Open);
    take_part(alloc, &mut node, part)
}

//! Puts as their replies show them, and what a get of a key shows by the list of them: the values that no put had seen, whichever vnode
//! took it.
use std::alloc::{AllocError, Global};

/// A dot; in a context, up to which counter it covers those of its actor.
#[derive(Clone, Copy, Drop)]
pub struct Dot {
    pub vnode: u64,
    pub epoch: u64,
    pub counter: u64,
}

/// A put that was answered.
#[derive(Clone, Copy, Drop)]
pub struct Put {
    /// The last byte of its key, k or j.
    pub key: u8,
    /// What it wrote, which no other put of its key did.
    pub value: u8,
    pub dot: Dot,
    /// What its context has of the primary, and of the fallback; with the counter 0 where it has nothing.
    pub seen: [Dot; 2],
}

/// The number of these bytes, the most significant first.
fn number_of(bytes: Option<&[u8]>) -> u64 {
    let mut number: u64 = 0;
    if let Some(bytes) = bytes {
        for byte in bytes {
            number = number.wrapping_mul(256).wrapping_add(u64::from(*byte));
        }
    }
    number
}

/// The pair that a part of a context is.
fn dot_of(part: &[u8]) -> Dot {
    Dot {
        vnode: number_of(part.get(0..8)),
        epoch: number_of(part.get(8..12)),
        counter: number_of(part.get(12..20)),
    }
}

/// What a context of version 2 has of this vnode, with the counter 0 where it has nothing.
pub fn pair_of(context: &[u8], vnode: u64) -> Dot {
    let first = dot_of(context.get(1..21).unwrap_or(b""));
    if first.vnode == vnode {
        return first;
    }
    let second = dot_of(context.get(21..41).unwrap_or(b""));
    if second.vnode == vnode {
        return second;
    }
    Dot {
        vnode,
        epoch: 0,
        counter: 0,
    }
}

/// Whether a context's pair covers a dot.
fn reaches(pair: &Dot, dot: &Dot) -> bool {
    pair.vnode == dot.vnode && pair.epoch == dot.epoch && dot.counter <= pair.counter
}

/// Whether a put of the key had seen a dot.
fn is_seen(puts: &[Put], key: u8, dot: &Dot) -> bool {
    for put in puts {
        if put.key == key && (reaches(&put.seen[0], dot) || reaches(&put.seen[1], dot)) {
            return true;
        }
    }
    false
}

/// The puts of the key that no put had seen, of either vnode: its joint siblings.
fn joint_siblings(alloc: Global, puts: &[Put], key: u8) -> Result<Vec<Put>, AllocError> {
    let mut joint = Vec::new(alloc);
    for put in puts {
        if put.key == key && !is_seen(puts, key, &put.dot) {
            joint.push(*put)?;
        }
    }
    Ok(joint)
}

/// Whether a get shows the one before the other: by rising actor, the newest first in each.
fn stands_before(one: &Dot, other: &Dot) -> bool {
    one.vnode < other.vnode || (one.vnode == other.vnode && one.counter > other.counter)
}

/// The first that a get shows behind this one, or the first of all.
fn next_shown(joint: &[Put], after: Option<&Put>) -> Option<Put> {
    let mut next: Option<Put> = None;
    for put in joint {
        let is_behind = match after {
            None => true,
            Some(last) => stands_before(&last.dot, &put.dot),
        };
        let is_first = match &next {
            None => true,
            Some(found) => stands_before(&put.dot, &found.dot),
        };
        if is_behind && is_first {
            next = Some(*put);
        }
    }
    next
}

/// Appends these values as a get shows them.
fn show_values(body: &mut Vec<u8>, joint: &[Put]) -> Result<(), AllocError> {
    let mut last: Option<Put> = None;
    for _ in joint {
        last = next_shown(joint, last.as_ref());
        if let Some(put) = &last {
            body.extend_from_slice(&[0x0a, 3, 0x0a, 1, put.value])?;
        }
    }
    Ok(())
}

/// The latest dot of this vnode that the key's puts have, or had seen; with the counter 0 where there is none.
fn latest_of(puts: &[Put], key: u8, vnode: u64) -> Dot {
    let mut latest = Dot {
        vnode,
        epoch: 0,
        counter: 0,
    };
    for put in puts {
        for dot in [put.dot, put.seen[0], put.seen[1]] {
            if put.key == key && dot.vnode == vnode && dot.counter > latest.counter {
                latest = dot;
            }
        }
    }
    latest
}

/// Appends a context's pair, where there is one.
fn show_pair(context: &mut Vec<u8>, pair: &Dot) -> Result<(), AllocError> {
    if pair.counter == 0 {
        return Ok(());
    }
    context.extend_from_slice(&pair.vnode.to_be_bytes())?;
    context.extend_from_slice(pair.epoch.to_be_bytes().get(4..8).unwrap_or(b""))?;
    context.extend_from_slice(&pair.counter.to_be_bytes())
}

/// A frame with this body, of less than 65,536 bytes.
pub fn frame_of(alloc: Global, body: &[u8]) -> Result<Vec<u8>, AllocError> {
    let mut frame = Vec::new(alloc);
    let len = u16::try_from(body.len()).unwrap_or(0);
    frame.extend_from_slice(&[0, 0])?;
    frame.extend_from_slice(&len.to_be_bytes())?;
    frame.extend_from_slice(body)?;
    Ok(frame)
}

/// The context of a key: what its puts have, or had seen, of each vnode.
fn context_of(
    alloc: Global,
    puts: &[Put],
    key: u8,
    vnodes: [u64; 2],
) -> Result<Vec<u8>, AllocError> {
    let mut context = Vec::new(alloc);
    context.push(2)?;
    show_pair(&mut context, &latest_of(puts, key, vnodes[0]))?;
    show_pair(&mut context, &latest_of(puts, key, vnodes[1]))?;
    Ok(context)
}

/// Appends this context as a get shows it.
fn show_context(body: &mut Vec<u8>, context: &[u8]) -> Result<(), AllocError> {
    let len = u8::try_from(context.len()).unwrap_or(0);
    body.extend_from_slice(&[0x12, len])?;
    body.extend_from_slice(context)
}

/// What a get of the key shows of its joint siblings.
fn shown_joint(alloc: Global, puts: &[Put], key: u8) -> Result<Vec<u8>, AllocError> {
    let joint = joint_siblings(alloc, puts, key)?;
    let mut body = Vec::new(alloc);
    body.push(0x0a)?;
    show_values(&mut body, joint.as_slice())?;
    Ok(body)
}

/// The reply to a get of the key, once all of these puts are at one vnode.
pub fn reply_to_get(
    alloc: Global,
    puts: &[Put],
    key: u8,
    vnodes: [u64; 2],
) -> Result<Vec<u8>, AllocError> {
    let context = context_of(alloc, puts, key, vnodes)?;
    let mut body = shown_joint(alloc, puts, key)?;
    show_context(&mut body, context.as_slice())?;
    frame_of(alloc, body.as_slice())
}

//! Two threads put and get at a fallback, by the contexts that they are shown, while a third copies back; and then the primary answers.
mod puts;
pub mod worker;

use crate::copy_race::puts::{Put, pair_of, reply_to_get};
use crate::copy_race::worker::{Done, Part, VNODES, context_in, take};
use crate::diversions::{PUT_P, divert};
use crate::exchanges::{GET, GET_J, new_shared};
use crate::returns::{Finish, copies_all, try_finish};
use gate_node::Shared;
use std::alloc::Global;
use std::process::Abort;
use std::sync::Wait;
use std::test::*;
use std::thread::{Threads, map_indices};

/// Copies one key, again and again.
fn copy_on<W: Wait>(rt: &W, alloc: Global, shared: &Shared) -> Option<Done> {
    for _ in 0..200u32 {
        if shared.handoff().copy_back(rt, alloc, 0, 1).is_err() {
            return None;
        }
    }
    let written = Vec::new(alloc);
    let puts = Vec::new(alloc);
    Some(Done { written, puts })
}

/// What one of three threads does: two put and get, the first of them by a context of b/k, and one copies.
fn play_one<W: Wait>(
    rt: &W,
    alloc: Global,
    shared: &Shared,
    index: usize,
    context: &[u8],
) -> Option<Done> {
    match index {
        0 => take(rt, alloc, shared, Part::Turns { worker: 0, context }),
        1 => take(
            rt,
            alloc,
            shared,
            Part::Turns {
                worker: 1,
                context: b"",
            },
        ),
        _ => copy_on(rt, alloc, shared),
    }
}

/// Adds the puts of the threads to those before. Whether each thread did what it should.
fn add_puts(puts: &mut Vec<Put>, all: &[Option<Done>]) -> bool {
    for done in all {
        match done {
            Some(done) => {
                if puts.extend_from_slice(done.puts.as_slice()).is_err() {
                    return false;
                }
            }
            None => return false,
        }
    }
    true
}

/// Two threads put and get while a third copies; their puts are added to those before. Whether all calls came to what they should.
fn race<R: Threads + Wait + Sync>(
    rt: &R,
    alloc: Global,
    shared: &Shared,
    context: &[u8],
    puts: &mut Vec<Put>,
) -> bool {
    let all = map_indices(
        rt,
        alloc,
        3,
        &|index| play_one(rt, alloc, shared, index, context),
    );
    match all {
        Ok(all) => add_puts(puts, all.as_slice()),
        Err(_) => false,
    }
}

/// Whether a get of a key shows its joint siblings by the list of all puts.
fn shows_joint<W: Wait>(
    rt: &W,
    alloc: Global,
    shared: &Shared,
    puts: &[Put],
    key: u8,
    get: &[u8],
) -> bool {
    let Some(done) = take(rt, alloc, shared, Part::Frames(get)) else {
        return false;
    };
    match reply_to_get(alloc, puts, key, VNODES) {
        Ok(wanted) => done.written.as_slice() == wanted.as_slice(),
        Err(_) => false,
    }
}

/// A copy of the context that a reply shows.
fn copied_context(alloc: Global, reply: &[u8]) -> Option<Vec<u8>> {
    let found = context_in(reply)?;
    let mut context = Vec::new(alloc);
    context.extend_from_slice(found).ok()?;
    Some(context)
}

/// Puts "p" on b/k and gets it: the context that this shows.
fn put_first<W: Wait>(rt: &W, alloc: Global, shared: &Shared) -> Option<Vec<u8>> {
    if take(rt, alloc, shared, Part::Frames(PUT_P)).is_none() {
        return None;
    }
    let shown = take(rt, alloc, shared, Part::Frames(GET))?;
    copied_context(alloc, shown.written.as_slice())
}

/// The put of "p".
fn first_put(context: &[u8]) -> Put {
    Put {
        key: b'k',
        value: b'p',
        dot: pair_of(context, VNODES[0]),
        seen: [pair_of(b"", VNODES[0]), pair_of(b"", VNODES[1])],
    }
}

/// Whether the primary shows each key's joint siblings, once all is copied and its diversion has ended.
fn returns_joined<R: Threads + Wait + Sync>(
    rt: &R,
    alloc: Global,
    shared: &Shared,
    context: &[u8],
) -> bool {
    let mut puts = Vec::new(alloc);
    if puts.push(first_put(context)).is_err() {
        return false;
    }
    race(rt, alloc, shared, context, &mut puts)
        && copies_all(rt, alloc, shared) == Some(true)
        && try_finish(rt, alloc, shared.handoff(), 0) == Some(Finish::Returned)
        && shows_joint(rt, alloc, shared, puts.as_slice(), b'k', GET)
        && shows_joint(rt, alloc, shared, puts.as_slice(), b'j', GET_J)
}

/// The same over new gates, of which partition 0 is diverted behind a put of "p".
fn is_none_lost<R: Threads + Wait + Sync>(rt: &R, alloc: Global) -> bool {
    let Some(shared) = new_shared(alloc, 1, 0) else {
        return false;
    };
    let Some(context) = put_first(rt, alloc, &shared) else {
        return false;
    };
    match divert(alloc, shared, 0, 0) {
        Some(shared) => returns_joined(rt, alloc, &shared, context.as_slice()),
        None => false,
    }
}

#[test]
fn copy_under_calls(rt: HostRuntime) {
    assert!(rt; is_none_lost(&rt, rt.alloc()));
}

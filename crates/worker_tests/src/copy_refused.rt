//! Calls of a hand-off for which memory may be refused once, as `scripts/maintain/refuse-memory` does at each of their allocations: nothing is lost,
//! and made again they come to what they would have.
use crate::diversions::divert;
use crate::exchanges::{GET_BOTH, NOTHING_COUNTED, new_shared};
use crate::playing::{NEW_SESSION, Session, play};
use crate::returns::{Finish, PUTS_F_AND_G, PUTS_P, copies_all, try_finish};
use gate_node::{Open, Shared};
use stats_book::Totals;
use std::alloc::Global;
use std::process::Abort;
use std::sync::Wait;
use std::test::*;

/// How often a call is made.
const CALLS: u32 = 2;

/// Gets of b/k and of b/j: "f" and "g", with their contexts.
const GETS_F_AND_G: &Session = &Session {
    requests: GET_BOTH,
    replies: b"\0\0\0\x31\x0a\x0a\x03\x0a\x01f\x12\x29\x02\0\0\0\0\0\x01\0\0\0\0\0\x01\0\0\0\0\0\0\0\x01\0\0\0\0\0\x01\x80\0\0\0\0\x01\0\0\0\0\0\0\0\x01\0\0\0\x1d\x0a\x0a\x03\x0a\x01g\x12\x15\x02\0\0\0\0\0\x01\x80\0\0\0\0\x02\0\0\0\0\0\0\0\x01",
    totals: Totals {
        gets: 2,
        ..NOTHING_COUNTED
    },
    ..NEW_SESSION
};

/// The gates with partition 0 diverted, behind a put of "p" on b/k; its fallback has "f", which had seen "p", and "g" on b/j.
fn set_up<W: Wait>(rt: &W, alloc: Global) -> Option<Shared> {
    let shared = new_shared(alloc, 1, 0)?;
    if !play(rt, alloc, &shared, &Open, PUTS_P) {
        return None;
    }
    let shared = divert(alloc, shared, 0, 0)?;
    if !play(rt, alloc, &shared, &Open, PUTS_F_AND_G) {
        return None;
    }
    Some(shared)
}

/// Whether gets show all that was put, by one of two sessions.
fn shows_all<W: Wait>(rt: &W, alloc: Global, shared: &Shared) -> bool {
    for _ in 0..CALLS {
        if play(rt, alloc, shared, &Open, GETS_F_AND_G) {
            return true;
        }
    }
    false
}

/// A call of a hand-off.
#[derive(Clone, Copy)]
enum Call {
    /// To copy all back.
    Copy,
    /// To end the diversion.
    Finish,
}

/// Whether a call comes to what it should. None where memory is refused to it.
fn comes<W: Wait>(rt: &W, alloc: Global, shared: &Shared, call: Call) -> Option<bool> {
    match call {
        Call::Copy => copies_all(rt, alloc, shared),
        Call::Finish => match try_finish(rt, alloc, shared.handoff(), 0) {
            Some(Finish::NoMemory) => None,
            finish => Some(finish == Some(Finish::Returned)),
        },
    }
}

/// Whether a call, made again where memory is refused to it, comes to what it should, and gets show all in between.
fn comes_again<W: Wait>(rt: &W, alloc: Global, shared: &Shared, call: Call) -> bool {
    for _ in 0..CALLS {
        if let Some(is_well) = comes(rt, alloc, shared, call) {
            return is_well;
        }
        if !shows_all(rt, alloc, shared) {
            return false;
        }
    }
    false
}

/// The same over new gates, which are set up anew where memory is refused for that.
fn comes_back<W: Wait>(rt: &W, alloc: Global) -> bool {
    for _ in 0..CALLS {
        if let Some(shared) = set_up(rt, alloc) {
            return comes_again(rt, alloc, &shared, Call::Copy)
                && comes_again(rt, alloc, &shared, Call::Finish)
                && shows_all(rt, alloc, &shared);
        }
    }
    false
}

#[test]
fn refused_copies_are_made_again(rt: HostRuntime) {
    assert!(rt; comes_back(&rt, rt.alloc()));
}

//! Sessions over the gates of a run, before and after its partition 0 is diverted. The key k of the bucket b lies in that partition of a
//! ring of one or of two; b/j in partition 0 of one, in partition 1 of two. The id of the primary of partition 0 is 65,536, that of its
//! fallback 98,304.
ghost use Rattle.std.specs.Prelude.{◌≡◌, ◌<◌, ◌^◌, true, IfSome};
ghost use Rattle.gate_node.specs.Passes.{Sights, ArePassesOf};
ghost use Rattle.worker_pool.specs.Resuming.{IsLater};

use crate::exchanges::{GET_BOTH, NOTHING_ACCEPTED, NOTHING_COUNTED, STORED_TWICE, new_shared};
use crate::playing::{NEW_SESSION, Session, play_on};
use crate::returns::{PUTS_F_AND_G, PUTS_P, gate_tally};
use gate_node::{Open, Passes, Shared};
use handoff::{Handoff, HandoffFault};
use stats_book::Totals;
use std::alloc::Global;
use std::process::Abort;
use std::sync::Wait;
use std::test::*;
use vnode_core::Tally;

/// A session, the diversion of partition 0, and a session over the same gates and the fallback by the passes that the first one left.
struct Diversion {
    shows: &'static str,
    partitions: u16,
    /// How many dead keys a vnode forgets after an answer.
    budget: u32,
    before: &'static Session,
    after: &'static Session,
    /// What the primary of partition 0 has accepted in all.
    tally: Tally,
}

/// A put of "p" on b/k.
pub const PUT_P: &[u8] = b"\0\0\0\x0c\x0b\x0a\x01b\x12\x01k\x22\x03\x0a\x01p";

/// A get of b/k; a put of "f" on it by the context of the primary's first dot, in version 1; a get of it; a put of "g" on b/j, and a get
/// of that.
pub const PUT_F_AND_G: &[u8] =
    b"\0\0\0\x07\x09\x0a\x01b\x12\x01k\0\0\0\x1f\x0b\x0a\x01b\x12\x01k\x1a\x11\x01\0\0\0\0\0\x01\0\0\0\0\0\x01\0\0\0\x01\x22\x03\x0a\x01f\0\0\0\x07\x09\x0a\x01b\x12\x01k\0\0\0\x0c\x0b\x0a\x01b\x12\x01j\x22\x03\x0a\x01g\0\0\0\x07\x09\x0a\x01b\x12\x01j";

/// Nothing; stored; "f", with the primary's dot and the first of the fallback's first epoch; stored; "g", with the first dot of its second.
pub const F_AND_G: &[u8] =
    b"\0\0\0\x01\x0a\0\0\0\x01\x0c\0\0\0\x31\x0a\x0a\x03\x0a\x01f\x12\x29\x02\0\0\0\0\0\x01\0\0\0\0\0\x01\0\0\0\0\0\0\0\x01\0\0\0\0\0\x01\x80\0\0\0\0\x01\0\0\0\0\0\0\0\x01\0\0\0\x01\x0c\0\0\0\x1d\x0a\x0a\x03\x0a\x01g\x12\x15\x02\0\0\0\0\0\x01\x80\0\0\0\0\x02\0\0\0\0\0\0\0\x01";

/// Puts of "p" on b/k and of "u" on b/j.
pub const PUT_P_AND_U: &[u8] =
    b"\0\0\0\x0c\x0b\x0a\x01b\x12\x01k\x22\x03\x0a\x01p\0\0\0\x0c\x0b\x0a\x01b\x12\x01j\x22\x03\x0a\x01u";

/// Nothing; "u", with the first dot of the vnode 65,537.
const NOTHING_U: &[u8] =
    b"\0\0\0\x01\x0a\0\0\0\x1d\x0a\x0a\x03\x0a\x01u\x12\x15\x02\0\0\0\0\0\x01\0\x01\0\0\0\x01\0\0\0\0\0\0\0\x01";

/// A put of "f" on b/k and a delete of it.
pub const PUT_DELETE: &[u8] =
    b"\0\0\0\x0c\x0b\x0a\x01b\x12\x01k\x22\x03\x0a\x01f\0\0\0\x07\x0d\x0a\x01b\x12\x01k";

/// Stored; deleted.
pub const STORED_DELETED: &[u8] = b"\0\0\0\x01\x0c\0\0\0\x01\x0e";

/// What the primary has accepted of the session before.
pub const ONE_WRITE: Tally = Tally {
    writes: 1,
    ..NOTHING_ACCEPTED
};

const DIVERSIONS: &[Diversion] = &[
    Diversion {
        shows: "a fallback answers over a history of its own, and keeps what a context covers",
        partitions: 1,
        budget: 0,
        before: PUTS_P,
        after: PUTS_F_AND_G,
        tally: ONE_WRITE,
    },
    Diversion {
        shows: "another partition is answered at its primary still",
        partitions: 2,
        budget: 0,
        before: &Session {
            requests: PUT_P_AND_U,
            replies: STORED_TWICE,
            totals: Totals {
                puts: 2,
                ..NOTHING_COUNTED
            },
            ..NEW_SESSION
        },
        after: &Session {
            requests: GET_BOTH,
            replies: NOTHING_U,
            totals: Totals {
                gets: 2,
                ..NOTHING_COUNTED
            },
            ..NEW_SESSION
        },
        tally: ONE_WRITE,
    },
    Diversion {
        shows: "no dead key is forgotten at a fallback",
        partitions: 1,
        budget: 1,
        before: PUTS_P,
        after: &Session {
            requests: PUT_DELETE,
            replies: STORED_DELETED,
            totals: Totals {
                puts: 1,
                deletes: 1,
                ..NOTHING_COUNTED
            },
            ..NEW_SESSION
        },
        tally: ONE_WRITE,
    },
];

/// Whether a run has a partition of this index.
pub fn has_partition(handoff: &Handoff, index: u16) -> bool
    ensures { result ≡ true → index < 2 ^ handoff.now.index_bits }
{
    usize::from(index) < handoff.gates().len()
}

/// The gates with the partition at this index diverted, which can't be diverted again; they have the passes that they had. None where memory
/// is refused, or there is no such partition, or the second diversion isn't refused.
pub fn divert(alloc: Global, shared: Shared, index: u16, budget: u32) -> Option<Shared>
    ensures passes { IfSome result (λ diverted.
        (passes : Sights) → ArePassesOf shared passes → ArePassesOf diverted passes) }
    ensures later { IfSome result (λ diverted.
        shared.budget ≡ budget → shared.reads ≡ 100 → IsLater shared diverted) }
{
    let mut handoff = shared.into_handoff();
    if !has_partition(&handoff, index) {
        return None;
    }
    match handoff.divert(alloc, index) {
        Ok(()) => {}
        Err(_) => return None,
    }
    match handoff.divert(alloc, index) {
        Err(HandoffFault::AlreadyDiverted) => Some(Shared::over(handoff, budget, 100)),
        _ => None,
    }
}

/// What the primary of partition 0 has accepted.
fn first_tally<W: Wait>(rt: &W, shared: &Shared) -> Option<Tally> {
    gate_tally(rt, shared.gates().first()?)
}

/// Whether the second session of a row, by these passes, comes to what it says, and the primary has accepted what it says.
fn play_after<W: Wait>(
    rt: &W,
    alloc: Global,
    shared: &Shared,
    row: &Diversion,
    passes: Passes,
) -> bool
    requires { ArePassesOf shared.now passes }
{
    play_on(rt, alloc, shared, &Open, row.after, passes).is_some()
        && first_tally(rt, shared) == Some(row.tally)
}

/// Whether the sessions of a row, by these passes, come to what they say.
fn play_both<W: Wait>(
    rt: &W,
    alloc: Global,
    shared: Shared,
    row: &Diversion,
    passes: Passes,
) -> bool
    requires { ArePassesOf shared passes }
{
    let Some(passes) = play_on(rt, alloc, &shared, &Open, row.before, passes) else {
        return false;
    };
    match divert(alloc, shared, 0, row.budget) {
        Some(shared) => play_after(rt, alloc, &shared, row, passes),
        None => false,
    }
}

/// The same over new gates by new passes.
fn play_anew<W: Wait>(rt: &W, alloc: Global, row: &Diversion) -> bool {
    let Some(shared) = new_shared(alloc, row.partitions, row.budget) else {
        return false;
    };
    match Passes::new(alloc, &shared) {
        Ok(passes) => play_both(rt, alloc, shared, row, passes),
        Err(_) => false,
    }
}

#[test]
fn diverted_calls_are_for_the_fallback(rt: HostRuntime) {
    for row in DIVERSIONS {
        assert!(rt; play_anew(&rt, rt.alloc(), row), "{}", row.shows);
    }
}

//! A session that rests while its partition is diverted, and while it is returned. The id of the primary is 65,536, that of its fallback
//! 98,304.
ghost use Rattle.std.specs.Prelude.{◌≡◌, IfSome};
ghost use Rattle.job_pool.specs.Lists.{Every};
ghost use Rattle.gate_node.specs.Passes.{ArePassesOf};
ghost use Rattle.worker_pool.specs.PausedSessions.{CanGoOn};

use crate::diversions::divert;
use crate::exchanges::{GET, NOTHING_ACCEPTED, NOTHING_COUNTED, ONE_GET, new_shared};
use crate::playing::{NEW_SESSION, Session, play};
use crate::returns::{Call, Copies, Finish, comes};
use crate::workers::resting::{PLAIN, Stage, after_looks, new_stage, run_once};
use crate::workers::script::Line;
use gate_node::tallies_of;
use node_session::Ended;
use stats_book::Totals;
use std::alloc::Global;
use std::process::Abort;
use std::slice;
use std::sync::Wait;
use std::test::*;
use std::thread::Threads;
use vnode_core::Tally;
use worker_pool::{NoPause, Open, Passes, Shared};

/// What comes of the session, by how many of its requests were answered before the diversion, and how many before the return.
struct Turned {
    before: u64,
    behind: u64,
    written: &'static [u8],
    /// What it would have written, had it got the key behind all that.
    later: &'static [u8],
    /// How many of the puts were answered at the primary.
    at_primary: u64,
    /// How many keys are copied back.
    copies: u32,
}

/// Puts of "p" and of "h" on b/k without context, and a get of it.
const PUTS_AND_GET: &[u8] =
    b"\0\0\0\x0c\x0b\x0a\x01b\x12\x01k\x22\x03\x0a\x01p\0\0\0\x0c\x0b\x0a\x01b\x12\x01k\x22\x03\x0a\x01h\0\0\0\x07\x09\x0a\x01b\x12\x01k";

/// Stored, twice; "h" and "p", by the second dot of the primary.
const BOTH_AT_PRIMARY: &[u8] =
    b"\0\0\0\x01\x0c\0\0\0\x01\x0c\0\0\0\x22\x0a\x0a\x03\x0a\x01h\x0a\x03\x0a\x01p\x12\x15\x02\0\0\0\0\0\x01\0\0\0\0\0\x01\0\0\0\0\0\0\0\x02";

/// Stored, twice; "h" and "p", by the second dot of the fallback.
const BOTH_AT_FALLBACK: &[u8] =
    b"\0\0\0\x01\x0c\0\0\0\x01\x0c\0\0\0\x22\x0a\x0a\x03\x0a\x01h\x0a\x03\x0a\x01p\x12\x15\x02\0\0\0\0\0\x01\x80\0\0\0\0\x01\0\0\0\0\0\0\0\x02";

/// Stored, twice; "p" by the first dot of the primary, and "h" by that of the fallback.
const P_AND_H: &[u8] =
    b"\0\0\0\x01\x0c\0\0\0\x01\x0c\0\0\0\x36\x0a\x0a\x03\x0a\x01p\x0a\x03\x0a\x01h\x12\x29\x02\0\0\0\0\0\x01\0\0\0\0\0\x01\0\0\0\0\0\0\0\x01\0\0\0\0\0\x01\x80\0\0\0\0\x01\0\0\0\0\0\0\0\x01";

/// Stored, twice; "h" by the first dot of the primary, and "p" by that of the fallback.
const H_AND_P: &[u8] =
    b"\0\0\0\x01\x0c\0\0\0\x01\x0c\0\0\0\x36\x0a\x0a\x03\x0a\x01h\x0a\x03\x0a\x01p\x12\x29\x02\0\0\0\0\0\x01\0\0\0\0\0\x01\0\0\0\0\0\0\0\x01\0\0\0\0\0\x01\x80\0\0\0\0\x01\0\0\0\0\0\0\0\x01";

/// Stored, twice; "h" alone, by the first dot of the fallback.
const H_ALONE: &[u8] =
    b"\0\0\0\x01\x0c\0\0\0\x01\x0c\0\0\0\x1d\x0a\x0a\x03\x0a\x01h\x12\x15\x02\0\0\0\0\0\x01\x80\0\0\0\0\x01\0\0\0\0\0\0\0\x01";

/// Stored, twice; nothing.
const NOTHING_BEHIND: &[u8] = b"\0\0\0\x01\x0c\0\0\0\x01\x0c\0\0\0\x01\x0a";

/// Both puts are answered at the primary, and so is the get.
const AT_PRIMARY: Turned = Turned {
    before: 3,
    behind: 3,
    written: BOTH_AT_PRIMARY,
    later: BOTH_AT_PRIMARY,
    at_primary: 2,
    copies: 0,
};

/// Both puts are answered at the fallback.
const AT_FALLBACK: Turned = Turned {
    before: 0,
    behind: 3,
    written: BOTH_AT_FALLBACK,
    later: BOTH_AT_FALLBACK,
    at_primary: 0,
    copies: 1,
};

/// The first put is answered at the primary, the second at the fallback.
const IN_TURN: Turned = Turned {
    before: 1,
    behind: 2,
    written: P_AND_H,
    later: P_AND_H,
    at_primary: 1,
    copies: 1,
};

const TURNS: &[Turned] = &[
    // nothing is answered while the partition is diverted
    Turned {
        before: 0,
        behind: 0,
        ..AT_PRIMARY
    },
    Turned {
        before: 1,
        behind: 1,
        ..AT_PRIMARY
    },
    Turned {
        before: 2,
        behind: 2,
        ..AT_PRIMARY
    },
    AT_PRIMARY,
    // both puts are, and the get too, or not
    AT_FALLBACK,
    Turned {
        behind: 2,
        ..AT_FALLBACK
    },
    // the second put is, and the get too, or not
    IN_TURN,
    Turned {
        behind: 3,
        written: H_ALONE,
        ..IN_TURN
    },
    // the first put is
    Turned {
        before: 0,
        behind: 1,
        written: H_AND_P,
        later: H_AND_P,
        ..IN_TURN
    },
    // the get is: of what the primary holds no request sees anything
    Turned {
        before: 2,
        behind: 3,
        written: NOTHING_BEHIND,
        ..AT_PRIMARY
    },
];

/// How many requests are answered behind so many steps: three for the read, and two for a request and its reply, of which the first answers.
fn answered_after(steps: u64) -> u64 {
    (steps.saturating_sub(2) / 2).min(3)
}

/// What comes of the session where so many requests were answered before the diversion, and so many before the return.
fn turned_at(before: u64, behind: u64) -> Option<&'static Turned> {
    for turned in TURNS {
        if turned.before == before && turned.behind == behind {
            return Some(turned);
        }
    }
    None
}

/// The session.
fn line_of(turned: &Turned) -> Line {
    Line {
        input: PUTS_AND_GET,
        fails: false,
        result: Ok(Ended {
            replies: 3,
            rest: 0,
        }),
        written: turned.written,
    }
}

/// The gates with partition 0 diverted, over which what rests may go on.
fn divert_under(alloc: Global, shared: Shared, stage: &Stage) -> Option<Shared>
    requires rest { Every (CanGoOn shared) stage.now.resting.items }
    requires seen { ArePassesOf shared stage.now.seen }
    requires budget { shared.budget ≡ 0 }
    requires reads { shared.reads ≡ 100 }
    ensures rest { IfSome result (λ later. Every (CanGoOn later) stage.now.resting.items) }
    ensures seen { IfSome result (λ later. ArePassesOf later stage.now.seen) }
{
    match divert(alloc, shared, 0, 0) {
        Some(later) => Some(later),
        None => None,
    }
}

/// Makes a run that is paused after so many looks. Whether it comes to what it should, and so many requests are answered then.
fn pause_once<'x, X: Threads + Wait + Sync>(
    rt: &X,
    alloc: Global,
    shared: &'x Shared,
    lines: &'x [Line],
    stage: &mut Stage,
    looks: u64,
    answered: u64,
) -> bool
    requires rest { Every (CanGoOn shared.now) stage.old.resting.items }
    requires seen { ArePassesOf shared.now stage.old.seen }
    ensures rest { Every (CanGoOn shared.now) stage.new.resting.items }
    ensures seen { ArePassesOf shared.now stage.new.seen }
{
    let pause = after_looks(looks);
    run_once(rt, alloc, shared, PLAIN, lines, stage, &pause) && has_answered(stage, answered)
}

/// Whether so many requests were answered.
fn has_answered(stage: &Stage, answered: u64) -> bool {
    let totals = stage.sums.totals;
    totals.gets.saturating_add(totals.puts) == answered
}

/// Whether what the fallback accepted is copied back, and the diversion ended.
fn is_returned<X: Wait>(rt: &X, alloc: Global, shared: &Shared, turned: &Turned) -> bool {
    let copy = Call::Copy(Copies {
        budget: 10,
        keys: turned.copies,
        stuck: 0,
        left: 0,
    });
    comes(rt, alloc, shared, 0, &copy)
        && comes(rt, alloc, shared, 0, &Call::Finish(Finish::Returned))
}

/// Whether the primary has accepted its puts, of a history of which these passes have seen a beginning; and whether it took copies.
fn has_accepted<X: Wait>(
    rt: &X,
    alloc: Global,
    shared: &Shared,
    seen: &Passes,
    turned: &Turned,
) -> bool
    requires { ArePassesOf shared.now seen.now }
{
    let wanted = Tally {
        writes: turned.at_primary,
        ..NOTHING_ACCEPTED
    };
    match tallies_of(rt, alloc, shared, slice::from_ref(seen)) {
        Ok(found) => {
            found.tallies.as_slice() == [wanted].as_slice()
                && found.count_all == (turned.copies == 0)
        }
        Err(_) => false,
    }
}

/// Whether a later get is told what is joint of both vnodes.
fn is_joint<X: Wait>(rt: &X, alloc: Global, shared: &Shared, turned: &Turned) -> bool {
    let Some(replies) = turned.later.get(10..) else {
        return false;
    };
    let session = Session {
        requests: GET,
        replies,
        totals: ONE_GET,
        ..NEW_SESSION
    };
    play(rt, alloc, shared, &Open, &session)
}

/// Whether the session is over, and all was counted.
fn is_done<X: Wait>(rt: &X, alloc: Global, shared: &Shared, stage: &Stage, turned: &Turned) -> bool
    requires { ArePassesOf shared.now stage.now.seen }
{
    let wanted = Totals {
        gets: 1,
        puts: 2,
        ..NOTHING_COUNTED
    };
    stage.resting.is_empty()
        && stage.sums.totals == wanted
        && has_accepted(rt, alloc, shared, &stage.seen, turned)
}

/// Whether the session, which rests while its partition is returned, if it isn't over, comes to what it says.
fn goes_on<X: Threads + Wait + Sync>(
    rt: &X,
    alloc: Global,
    shared: &Shared,
    stage: &mut Stage,
    turned: &Turned,
    looks: u64,
) -> bool
    requires rest { Every (CanGoOn shared.now) stage.old.resting.items }
    requires seen { ArePassesOf shared.now stage.old.seen }
{
    let lines = [line_of(turned)];
    pause_once(rt, alloc, shared, &lines, stage, looks, turned.behind)
        && is_returned(rt, alloc, shared, turned)
        && run_once(rt, alloc, shared, PLAIN, &lines, stage, &NoPause)
        && is_done(rt, alloc, shared, stage, turned)
        && is_joint(rt, alloc, shared, turned)
}

/// The same of a session that hasn't begun, and is paused after so many looks, before its partition is diverted.
fn turns_from<X: Threads + Wait + Sync>(
    rt: &X,
    alloc: Global,
    shared: Shared,
    stage: &mut Stage,
    turned: &Turned,
    looks: (u64, u64),
) -> bool
    requires rest { Every (CanGoOn shared) stage.old.resting.items }
    requires seen { ArePassesOf shared stage.old.seen }
    requires budget { shared.budget ≡ 0 }
    requires reads { shared.reads ≡ 100 }
{
    let (first, second) = looks;
    let lines = [line_of(turned)];
    if !pause_once(rt, alloc, &shared, &lines, stage, first, turned.before) {
        return false;
    }
    match divert_under(alloc, shared, stage) {
        Some(shared) => goes_on(rt, alloc, &shared, stage, turned, second),
        None => false,
    }
}

/// The same over these new gates.
fn turns_over<X: Threads + Wait + Sync>(
    rt: &X,
    alloc: Global,
    shared: Shared,
    turned: &Turned,
    looks: (u64, u64),
) -> bool
    requires budget { shared.budget ≡ 0 }
    requires reads { shared.reads ≡ 100 }
{
    match new_stage(alloc, &shared) {
        Some(mut stage) => turns_from(rt, alloc, shared, &mut stage, turned, looks),
        None => false,
    }
}

/// Whether the session, paused after so many steps, and after so many more, comes to what it says. It rests while its partition is diverted, and while
/// it is returned.
fn turns<X: Threads + Wait + Sync>(rt: &X, alloc: Global, first: u64, second: u64) -> bool {
    let before = answered_after(first);
    let behind = answered_after(first.saturating_add(second));
    let Some(turned) = turned_at(before, behind) else {
        return false;
    };
    match new_shared(alloc, 1, 0) {
        Some(shared) => turns_over(rt, alloc, shared, turned, (first, second)),
        None => false,
    }
}

#[test]
fn sessions_rest_while_partitions_turn(rt: HostRuntime) {
    for first in 0..14u64 {
        for second in 0..14u64 {
            assert!(rt; turns(&rt, rt.alloc(), first, second), "{first}, {second}");
        }
    }
}

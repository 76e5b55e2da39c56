//! One session that is paused at a step, and how far it has come by then.
use crate::exchanges::{PUT_V, STORED, new_shared};
use crate::workers::resting::{Manner, PLAIN, Stage, after_looks, new_stage, run_once};
use crate::workers::script::Line;
use crate::workers::sessions::TestSession;
use node_session::Ended;
use std::alloc::Global;
use std::process::Abort;
use std::sync::Wait;
use std::test::*;
use std::thread::Threads;
use worker_pool::Shared;

/// A session of one put, paused after so many looks, over streams that give and take so many bytes at once.
struct Cut {
    shows: &'static str,
    most: usize,
    looks: u64,
    /// How many bytes are unread then, and how many were written. None where the session is over.
    rests: Option<(usize, usize)>,
}

const ONE_PUT: &[Line] = &[Line {
    input: PUT_V,
    fails: false,
    result: Ok(Ended {
        replies: 1,
        rest: 0,
    }),
    written: STORED,
}];

/// It finds that nothing has come, flushes, and reads: three steps, as often as there is something to read. Then it answers, and writes.
const CUTS: &[Cut] = &[
    Cut {
        shows: "a session that hasn't begun has read nothing",
        most: usize::MAX,
        looks: 0,
        rests: Some((16, 0)),
    },
    Cut {
        shows: "a request of which nothing was answered is read",
        most: usize::MAX,
        looks: 3,
        rests: Some((0, 0)),
    },
    Cut {
        shows: "a request is cut in its length",
        most: 3,
        looks: 3,
        rests: Some((13, 0)),
    },
    Cut {
        shows: "a request is cut in its middle",
        most: 5,
        looks: 6,
        rests: Some((6, 0)),
    },
    Cut {
        shows: "a request is answered, and nothing of its reply was written",
        most: usize::MAX,
        looks: 4,
        rests: Some((0, 0)),
    },
    Cut {
        shows: "a reply is cut in its middle",
        most: 2,
        looks: 26,
        rests: Some((0, 2)),
    },
    Cut {
        shows: "a reply was written, and the end isn't read yet",
        most: usize::MAX,
        looks: 7,
        rests: Some((0, 5)),
    },
    Cut {
        shows: "a session that is over doesn't rest, though nobody has found it so",
        most: usize::MAX,
        looks: 8,
        rests: None,
    },
    Cut {
        shows: "a pause behind the last step",
        most: usize::MAX,
        looks: 9,
        rests: None,
    },
];

/// How much of a session is unread, and how much was written.
fn pieces_of(session: &TestSession) -> (usize, usize) {
    (session.reader().rest.len(), session.writer().held.len())
}

/// Whether this is what a cut leaves.
fn is_cut(stage: &Stage, cut: &Cut) -> bool {
    match (stage.resting.as_slice(), cut.rests) {
        ([], None) => true,
        ([session], Some(pieces)) => pieces_of(session) == pieces,
        _ => false,
    }
}

/// Whether a session over these new gates is cut as it says.
fn cuts_over<X: Threads + Wait + Sync>(rt: &X, alloc: Global, shared: &Shared, cut: &Cut) -> bool {
    let manner = Manner {
        most: cut.most,
        ..PLAIN
    };
    let pause = after_looks(cut.looks);
    match new_stage(alloc, shared) {
        Some(mut stage) => {
            run_once(rt, alloc, shared, manner, ONE_PUT, &mut stage, &pause) && is_cut(&stage, cut)
        }
        None => false,
    }
}

/// The same over gates of its own.
fn cuts_anew<X: Threads + Wait + Sync>(rt: &X, alloc: Global, cut: &Cut) -> bool {
    match new_shared(alloc, 1, 0) {
        Some(shared) => cuts_over(rt, alloc, &shared, cut),
        None => false,
    }
}

#[test]
fn sessions_are_cut_where_they_are_paused(rt: HostRuntime) {
    for cut in CUTS {
        assert!(rt; cuts_anew(&rt, rt.alloc(), cut), "{}", cut.shows);
    }
}

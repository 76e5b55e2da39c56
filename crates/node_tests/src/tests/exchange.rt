//! Requests to one node, each in a session of its own, and keys over their lives.

use crate::tests::frames::{
    ABSENT, DELETE, DELETED, GET, GET_DEAD, MATCH_FOUND, MODIFIED, NOT_FOUND, PUT_D_OVER_FIRST,
    PUT_E_IF_V, PUT_Q_IF_V, PUT_V, PUT_W, PUT_X_OVER_V, PUT_Z_IF_NONE, SHOWN_V, SHOWN_W_V,
    SHOWN_X_W, STORED,
};
use crate::tests::sessions::{Outcome, comes_to, ended};
use crate::tests::streams::Channel;
use node_session::PlainNode;
use ring_map::Ring;
use std::alloc::Global;
use std::process::Abort;

/// The node that is asked.
#[derive(Clone, Copy)]
pub enum Home {
    /// Of run 1, and one vnode.
    Plain,
    /// The same, whose sweeps forget so many keys.
    Sweeping(u32),
    /// On a ring of so many partitions, and of this run.
    OnRing(u16, u32),
}

/// A request and its reply.
pub enum Turn {
    Asks(&'static [u8], &'static [u8]),
    /// The same request gets the same reply so many times.
    Repeats(u8, &'static [u8], &'static [u8]),
}

pub use Home::{OnRing, Plain, Sweeping};
pub use Turn::{Asks, Repeats};

/// What a node is asked, and how it answers.
#[derive(Clone, Copy)]
pub struct Exchange {
    pub shows: &'static str,
    pub home: Home,
    /// What others begin with too.
    pub begin: &'static [Turn],
    pub turns: &'static [Turn],
}

/// A plain node that is asked nothing. Rows say what is other.
pub const PLAIN_NODE: Exchange = Exchange {
    shows: "",
    home: Plain,
    begin: &[],
    turns: &[],
};

/// "v" is put, and "w" beside it.
pub const PUTS_V_AND_W: &[Turn] = &[Asks(PUT_V, STORED), Asks(PUT_W, STORED)];

/// A put of "b" on b/k.
pub const PUT_B: &[u8] = b"\0\0\0\x0c\x0b\x0a\x01b\x12\x01k\x22\x03\x0a\x01b";

/// The key is absent; "v" is put, "w" beside it, and "x" over "v" alone. A put that wants no value is refused; then the
/// key is deleted, and its context is shown to who asks for it.
const LIFE: &[Turn] = &[
    Asks(GET, ABSENT),
    Asks(PUT_V, STORED),
    Asks(GET, SHOWN_V),
    Asks(PUT_W, STORED),
    Asks(GET, SHOWN_W_V),
    Asks(PUT_X_OVER_V, STORED),
    Asks(GET, SHOWN_X_W),
    Asks(PUT_Z_IF_NONE, MATCH_FOUND),
    Asks(DELETE, DELETED),
    Asks(
        GET_DEAD,
        b"\0\0\0\x18\x0a\x12\x15\x02\0\0\0\0\0\x01\0\0\0\0\0\x01\0\0\0\0\0\0\0\x04",
    ),
    Asks(GET, ABSENT),
];

/// "b" with the context of the first dot of the first life.
const SHOWN_FIRST: &[u8] =
    b"\0\0\0\x1d\x0a\x0a\x03\x0a\x01b\x12\x15\x02\0\0\0\0\0\x01\0\0\0\0\0\x01\0\0\0\0\0\0\0\x01";

/// The same of the second life.
const SHOWN_SECOND: &[u8] =
    b"\0\0\0\x1d\x0a\x0a\x03\x0a\x01b\x12\x15\x02\0\0\0\0\0\x01\0\0\0\0\0\x02\0\0\0\0\0\0\0\x01";

/// "b" is put, deleted and forgotten, and put again.
const TWO_LIVES: &[Turn] = &[
    Asks(PUT_B, STORED),
    Asks(GET, SHOWN_FIRST),
    Asks(DELETE, DELETED),
    Asks(PUT_B, STORED),
    Asks(GET, SHOWN_SECOND),
];

const LIVES: &[Exchange] = &[
    Exchange {
        shows: "one key over its life",
        turns: LIFE,
        ..PLAIN_NODE
    },
    Exchange {
        shows: "a ring of one partition is one vnode",
        home: OnRing(1, 1),
        turns: LIFE,
        ..PLAIN_NODE
    },
    // By Python's `hashlib` the digest of b/k begins with 56 and that of b/j with a6, so of 16 partitions they lie in 5
    // and in 10. The vnode ids of run 2 are 131072 and on, and the first life in each has epoch 1.
    Exchange {
        shows: "a key lies in the vnode of its partition",
        home: OnRing(16, 2),
        turns: &[
            Asks(PUT_V, STORED),
            Asks(b"\0\0\0\x0c\x0b\x0a\x01b\x12\x01j\x22\x03\x0a\x01w", STORED),
            Asks(
                GET,
                b"\0\0\0\x1d\x0a\x0a\x03\x0a\x01v\x12\x15\x02\0\0\0\0\0\x02\0\x05\0\0\0\x01\0\0\0\0\0\0\0\x01",
            ),
            Asks(
                b"\0\0\0\x07\x09\x0a\x01b\x12\x01j",
                b"\0\0\0\x1d\x0a\x0a\x03\x0a\x01w\x12\x15\x02\0\0\0\0\0\x02\0\x0a\0\0\0\x01\0\0\0\0\0\0\0\x01",
            ),
        ],
        ..PLAIN_NODE
    },
    // The key is forgotten once its delete is answered, and a second life begins, with the next epoch. The first life's
    // context covers nothing: both values stand.
    Exchange {
        shows: "a new life has a new actor",
        home: Sweeping(1),
        begin: TWO_LIVES,
        turns: &[
            Asks(PUT_D_OVER_FIRST, STORED),
            Asks(
                GET,
                b"\0\0\06\x0a\x0a\x03\x0a\x01d\x0a\x03\x0a\x01b\x12)\x02\0\0\0\0\0\x01\0\0\0\0\0\x01\0\0\0\0\0\0\0\x01\0\0\0\0\0\x01\0\0\0\0\0\x02\0\0\0\0\0\0\0\x02",
            ),
        ],
    },
    // A put that wants the key as the first life's context shows it is refused, and so is one of an absent key.
    Exchange {
        shows: "a context of an earlier life is modified",
        home: Sweeping(1),
        begin: TWO_LIVES,
        turns: &[Asks(PUT_E_IF_V, MODIFIED), Asks(PUT_Q_IF_V, NOT_FOUND)],
    },
];

/// A new node.
fn node_of(alloc: Global, home: &Home) -> Option<PlainNode> {
    match *home {
        Plain => PlainNode::new(alloc, 1).ok(),
        Sweeping(budget) => Some(PlainNode::new(alloc, 1).ok()?.with_budget(budget)),
        OnRing(size, run) => PlainNode::on_ring(alloc, Ring::new(size)?, run.max(1)).ok(),
    }
}

/// One request gets this reply.
pub fn answers(alloc: Global, node: &mut PlainNode, request: &[u8], reply: &[u8]) -> bool {
    let channel = Channel {
        pieces: (4096, 4096),
        most: 5000,
        reads: 1000,
        troubles: &[],
    };
    let outcome = Outcome {
        end: ended!(1, 0),
        output: reply,
        counts: &[],
    };
    comes_to(alloc, node, request, &channel, &outcome)
}

fn takes(alloc: Global, node: &mut PlainNode, turn: &Turn) -> bool {
    match turn {
        Asks(request, reply) => answers(alloc, node, request, reply),
        Repeats(times, request, reply) => {
            for _ in 0..*times {
                if !answers(alloc, node, request, reply) {
                    return false;
                }
            }
            true
        }
    }
}

/// The number of the first turn that goes otherwise.
fn fails_at(alloc: Global, node: &mut PlainNode, turns: &[Turn]) -> Option<usize> {
    for (number, turn) in turns.iter().enumerate() {
        if !takes(alloc, node, turn) {
            return Some(number);
        }
    }
    None
}

/// The number of the first turn of a row that goes otherwise, with those of its begin.
fn fails_in(alloc: Global, node: &mut PlainNode, row: &Exchange) -> Option<usize> {
    match fails_at(alloc, node, row.begin) {
        Some(number) => Some(number),
        None => match fails_at(alloc, node, row.turns) {
            Some(number) => Some(row.begin.len().saturating_add(number)),
            None => None,
        },
    }
}

/// Asks a new node, and compares each reply.
fn run_exchange(rt: &impl Abort, alloc: Global, row: &Exchange) {
    let failed = match node_of(alloc, &row.home) {
        Some(mut node) => fails_in(alloc, &mut node, row),
        None => Some(usize::MAX),
    };
    assert_eq!(rt; failed, None, "{}", row.shows);
}

/// The same for each row.
pub fn run_all(rt: &impl Abort, alloc: Global, rows: &[Exchange]) {
    for row in rows {
        run_exchange(rt, alloc, row);
    }
}

#[test]
fn keys_live_as_they_are_asked(rt: HostRuntime) {
    run_all(&rt, rt.alloc(), LIVES);
}

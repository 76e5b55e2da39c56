//! A vnode behind a gate: what was written is read back, and keys die, by one thread and by four.
use crate::gates::steps::Act::{Ask as Asks, Look};
use crate::gates::steps::Step::{LookAnew, Seen, Write};
use crate::gates::steps::Who::Ann;
use crate::gates::steps::{Outcome, Request, Step, Turn, View, plays};
use crate::gates::threads::{Work, is_end, makes_rounds, name_of};
use riak_msgs::{ContextBytes, DelAsk, GetAsk, GetReply, Key, PutAsk};
use rw_gate::Gate;
use std::alloc::Global;
use std::process::Abort;
use std::sync::Wait;
use std::test::*;
use std::thread::{Threads, map_indices};
use vnode_core::{Answer, Ask, Reaped, Refusal, Tally, Vnode};

/// A key of the bucket "b".
#[derive(Clone, Copy)]
pub(crate) enum Name {
    /// The key "k".
    K,
    /// The thread's own key of this round.
    Own,
}

/// A command and its answer.
pub(crate) enum Line {
    /// A put of a value without context. It is accepted.
    Put(Name, &'static [u8]),
    /// A delete without context. It leaves a tombstone.
    Del(Name),
    /// A reap of the first dead key, and what it comes to.
    ReapFirst(Reaped),
}

use Line::{Del, Put, ReapFirst};

/// What a look shows.
pub(crate) enum Shown {
    /// The values of the key "k", the newest first, and its context.
    Values(&'static [&'static [u8]], &'static [u8]),
    /// How many siblings the key "k" has.
    Siblings(usize),
    /// At least as many siblings of the key "k" as the thread has made rounds.
    Rounds,
    /// The tally, and whether a dead key is held.
    Counts(Tally, bool),
}

use Shown::{Counts, Rounds, Siblings, Values};

fn put(alloc: Global, key: &[u8], value: &[u8]) -> Option<Ask> {
    match PutAsk::plain(alloc, b"b", key, b"", value) {
        Ok(ask) => Some(Ask::Put(ask)),
        Err(_) => None,
    }
}

fn del(alloc: Global, key: &[u8]) -> Option<Ask> {
    match Key::of_default_type(alloc, b"b", key) {
        Ok(key) => {
            let context = ContextBytes::new(alloc);
            Some(Ask::Del(DelAsk { key, context }))
        }
        Err(_) => None,
    }
}

fn get_once(vnode: &Vnode, alloc: Global) -> Option<GetReply> {
    let ask = GetAsk::plain(alloc, b"b", b"k").ok()?;
    vnode.get(alloc, &ask).ok()
}

/// What a get of the key "k" shows, asked once more where memory was refused.
fn get(vnode: &Vnode, alloc: Global) -> Option<GetReply> {
    match get_once(vnode, alloc) {
        Some(reply) => Some(reply),
        None => get_once(vnode, alloc),
    }
}

fn has(reply: &GetReply, values: &[&[u8]], context: &[u8]) -> bool {
    let contents = reply.contents.as_slice();
    let mut are_same = contents.len() == values.len();
    for (shown, value) in contents.iter().zip(values) {
        are_same = are_same && shown.content.value() == *value;
    }
    are_same && reply.context.as_slice() == context
}

fn is_got(reply: &GetReply, shown: &Shown, turn: Turn) -> bool {
    match shown {
        Values(values, context) => has(reply, values, context),
        Siblings(count) => reply.contents.len() == *count,
        Rounds => usize::from(turn.round) <= reply.contents.len(),
        Counts(..) => false,
    }
}

fn is_answer(line: &Line, answer: &Answer, is_event: bool) -> bool {
    match (line, answer) {
        (Put(..), Answer::Put(_)) | (Del(_), Answer::Del) => is_event,
        (ReapFirst(expected), Answer::Reaped(reaped)) => reaped == expected,
        _ => false,
    }
}

impl Request<Vnode, Ask, Answer, Refusal> for Line {
    fn ask(&self, alloc: Global, turn: Turn) -> Option<Ask> {
        let own = [turn.thread, turn.round];
        match self {
            Put(Name::K, value) => put(alloc, b"k", value),
            Put(Name::Own, value) => put(alloc, &own, value),
            Del(Name::K) => del(alloc, b"k"),
            Del(Name::Own) => del(alloc, &own),
            ReapFirst(_) => Some(Ask::ReapFirst(None)),
        }
    }

    fn is_reply(&self, answer: Answer, is_event: bool) -> bool {
        is_answer(self, &answer, is_event)
    }

    fn refused(&self, refusal: Refusal) -> Outcome {
        match refusal {
            Refusal::NoMemory => Outcome::NoMemory,
            _ => Outcome::Wrong,
        }
    }
}

impl View<Vnode> for Shown {
    fn is_of(&self, vnode: &Vnode, alloc: Global, turn: Turn) -> bool {
        if let Counts(tally, has_dead) = self {
            return vnode.tally() == *tally && vnode.has_dead(None) == *has_dead;
        }
        match &get(vnode, alloc) {
            Some(reply) => is_got(reply, self, turn),
            None => false,
        }
    }
}

/// Steps at a new vnode.
struct Row {
    shows: &'static str,
    steps: &'static [Step<Line, Shown>],
}

/// The contexts of the first two dots of the key's first life, and of the first of its second.
const FIRST: &[u8] = b"\x02\0\0\0\0\0\x01\0\0\0\0\0\x01\0\0\0\0\0\0\0\x01";

const SECOND: &[u8] = b"\x02\0\0\0\0\0\x01\0\0\0\0\0\x01\0\0\0\0\0\0\0\x02";

const SECOND_LIFE: &[u8] = b"\x02\0\0\0\0\0\x01\0\0\0\0\0\x02\0\0\0\0\0\0\0\x01";

const ONE_DIED: Tally = Tally {
    writes: 2,
    tombstones: 1,
    reaps: 1,
};

const ROWS: &[Row] = &[
    Row {
        shows: "a new key shows nothing, and two blind puts are siblings, shown to a new pass too",
        steps: &[
            Step::Look(Values(&[], b"")),
            Write(Ann, &[Asks(Put(Name::K, b"v"))]),
            Step::Look(Values(&[b"v"], FIRST)),
            Write(Ann, &[Asks(Put(Name::K, b"w"))]),
            Seen(Ann, 2),
            Step::Look(Values(&[b"w", b"v"], SECOND)),
            LookAnew(Values(&[b"w", b"v"], SECOND), 2),
        ],
    },
    // nothing is shown then, and the next put begins the vnode's second life
    Row {
        shows: "a key that was deleted and reaped is forgotten",
        steps: &[
            Write(Ann, &[Asks(Put(Name::K, b"v"))]),
            Write(
                Ann,
                &[
                    Asks(Del(Name::K)),
                    Asks(ReapFirst(Reaped::Gone)),
                    Asks(ReapFirst(Reaped::Absent)),
                ],
            ),
            Seen(Ann, 3),
            Step::Look(Values(&[], b"")),
            Write(Ann, &[Asks(Put(Name::K, b"w"))]),
            Step::Look(Values(&[b"w"], SECOND_LIFE)),
            LookAnew(Counts(ONE_DIED, false), 4),
        ],
    },
];

/// A vnode whose id is 65,536 and first epoch 1.
fn new_vnode(alloc: Global) -> Vnode {
    Vnode::new(alloc, 65_536, 1)
}

#[test]
fn a_vnode_behind_a_gate(rt: HostRuntime) {
    for row in ROWS {
        assert!(rt;
            plays(rt.alloc(), new_vnode(rt.alloc()), row.steps),
            "{}",
            row.shows
        );
    }
}

// None of the sixty saw another, so all are siblings.
const SIXTY_SIBLINGS: &Work<Line, Shown> = &Work {
    rounds: 15,
    writes: &[&[Look(Rounds), Asks(Put(Name::K, b"v"))]],
    end: Siblings(60),
    events: 60,
};

const TWENTY_DIED: Tally = Tally {
    writes: 20,
    tombstones: 20,
    reaps: 20,
};

// The first dead key may be another thread's. There always is one, since a thread reaps once for each key that it left dead.
const TWENTY_KEYS: &Work<Line, Shown> = &Work {
    rounds: 5,
    writes: &[
        &[Asks(Put(Name::Own, b"v"))],
        &[Asks(Del(Name::Own))],
        &[Asks(ReapFirst(Reaped::Gone))],
    ],
    end: Counts(TWENTY_DIED, false),
    events: 60,
};

fn work(buries: bool) -> &'static Work<Line, Shown> {
    if buries { TWENTY_KEYS } else { SIXTY_SIBLINGS }
}

/// Whether four threads did one of the two works.
fn four_work<R: Threads + Wait + Sync>(
    rt: &R,
    alloc: Global,
    gate: &Gate<Vnode>,
    buries: bool,
) -> bool {
    match map_indices(
        rt,
        alloc,
        4,
        &|at| { makes_rounds(rt, alloc, gate, work(buries), name_of(at)) },
    ) {
        Ok(all) => all.as_slice() == [true, true, true, true].as_slice(),
        Err(_) => false,
    }
}

fn is_worked<R: Threads + Wait + Sync>(rt: &R, alloc: Global, buries: bool) -> bool {
    match Gate::new(alloc, new_vnode(alloc)) {
        Ok(gate) => {
            four_work(rt, alloc, &gate, buries) && is_end(rt, alloc, &gate, work(buries))
        }
        Err(_) => false,
    }
}

#[test]
fn four_threads_write_and_bury(rt: HostRuntime) {
    for (buries, shows) in [
        (false, "they write sixty siblings"),
        (true, "they bury twenty keys"),
    ] {
        assert!(rt; is_worked(&rt, rt.alloc(), buries), "{shows}");
    }
}

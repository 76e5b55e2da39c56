//! What clocks answer, at their limits too, and what they take in.

use crate::actors::{A, B, C, D, OTHER};
use crate::clocks::steps::Step::{Discard, Event, Overwrite, Put};
use crate::clocks::steps::{Step, count, event, holds, takes_all, takes_crowd, takes_in};
use crate::clocks::{SEEN_1, SEEN_2, SEEN_3, SEEN_A_C_D, SEEN_ALL, SEEN_ALL_BUT_ONE, SEEN_MANY};
use actor_epoch::{Actor, Context, Counter, Dot};
use dvv_set::{Clock, ClockFault, Needed};
use std::alloc::Global;

/// The first actor of a crowd, and its last ones.
const CROWD_1: Actor = Actor { vnode: 9, epoch: 1 };

const CROWD_63: Actor = Actor {
    vnode: 9,
    epoch: 63,
};

const CROWD_64: Actor = Actor {
    vnode: 9,
    epoch: 64,
};

/// What a clock answers, behind a context or without one.
enum Answer {
    /// It knows just these pairs, and has just these values.
    Holds(&'static [(Actor, Counter)], &'static [u8]),
    /// It has so many values.
    Count(u32),
    /// It knows this dot.
    Covers(Dot),
    /// The last counter of an actor.
    Last(Actor, Counter),
    /// The context doesn't cover so many values.
    Uncovered(u128),
    /// What an event of an actor needs.
    Needs(Actor, Needed),
    /// Whether an event of an actor would make too many actors known.
    IsFull(Actor, bool),
    /// It takes in another clock, of these steps.
    TakesIn(&'static [Step]),
    /// An event of an actor is refused by this fault, and gives its value back.
    Refuses(Actor, ClockFault),
}

use Answer::{Count, Covers, Holds, IsFull, Last, Needs, Refuses, TakesIn, Uncovered};

/// A clock of so many actors of one vnode, each with a value, and what steps add, first those that others begin with too; and what it
/// answers behind a context (no bytes: none).
#[derive(Clone, Copy)]
struct Case {
    shows: &'static str,
    crowd: u32,
    first: &'static [Step],
    steps: &'static [Step],
    context: &'static [u8],
    answers: &'static [Answer],
}

/// The steps of a clock of a and b at A, p at B and x at C.
const THREE: &[Step] = &[
    Event(C, b'x'),
    Event(A, b'a'),
    Event(B, b'p'),
    Event(A, b'b'),
];

/// The steps of a clock (A, 5, [e, d, c, b, a]).
const FIVE: &[Step] = &[
    Event(A, b'a'),
    Event(A, b'b'),
    Event(A, b'c'),
    Event(A, b'd'),
    Event(A, b'e'),
];

/// The steps of a clock (A, 4, [d]).
const FOURTH_ALONE: &[Step] = &[
    Event(A, b'a'),
    Event(A, b'b'),
    Event(A, b'c'),
    Event(A, b'd'),
    Discard(SEEN_3),
];

/// The steps of a clock (A, 2, [b]) and (B, 1, [p]).
const FIRST_SIDE: &[Step] = &[
    Event(A, b'a'),
    Event(A, b'b'),
    Discard(SEEN_1),
    Event(B, b'p'),
];

/// The steps of a clock (A, 1, [a]) and (C, 1, [x]).
const SECOND_SIDE: &[Step] = &[Event(A, b'a'), Event(C, b'x')];

/// A clock that knows nothing. Cases say what is other.
const NEW_CLOCK: Case = Case {
    shows: "",
    crowd: 0,
    first: &[],
    steps: &[],
    context: b"",
    answers: &[],
};

const CASES: &[Case] = &[
    // a and x go, and D becomes known.
    Case {
        shows: "a discard covers several actors",
        first: THREE,
        steps: &[Discard(SEEN_A_C_D)],
        answers: &[Holds(&[(A, 2), (B, 1), (C, 1), (D, 3)], b"bp")],
        ..NEW_CLOCK
    },
    // An event of A knows the three actors, and any other its own too.
    Case {
        shows: "what an event needs without a context",
        first: THREE,
        answers: &[
            Uncovered(4),
            Needs(
                A,
                Needed {
                    actors: 3,
                    counter: 2,
                },
            ),
            Needs(
                D,
                Needed {
                    actors: 4,
                    counter: 0,
                },
            ),
            Last(A, 2),
            Last(C, 1),
            Last(D, 0),
        ],
        ..NEW_CLOCK
    },
    // The context doesn't cover b and p, and makes D known.
    Case {
        shows: "what an event needs behind a context",
        first: THREE,
        context: SEEN_A_C_D,
        answers: &[
            Uncovered(2),
            Needs(
                A,
                Needed {
                    actors: 4,
                    counter: 2,
                },
            ),
            Needs(
                D,
                Needed {
                    actors: 4,
                    counter: 3,
                },
            ),
            Needs(
                OTHER,
                Needed {
                    actors: 5,
                    counter: 0,
                },
            ),
        ],
        ..NEW_CLOCK
    },
    Case {
        shows: "an overwrite at an actor that is known leaves one value",
        first: THREE,
        steps: &[Put(b"", A, None), Overwrite(A, b't')],
        answers: &[Holds(&[(A, 3), (B, 1), (C, 1)], b"t")],
        ..NEW_CLOCK
    },
    Case {
        shows: "an overwrite at a new actor leaves one value",
        first: THREE,
        steps: &[Put(b"", D, None), Overwrite(D, b't')],
        answers: &[Holds(&[(A, 2), (B, 1), (C, 1), (D, 1)], b"t")],
        ..NEW_CLOCK
    },
    Case {
        shows: "a put that is ready replaces what its context saw",
        steps: &[
            Event(A, b'v'),
            Event(A, b'w'),
            Put(SEEN_1, A, None),
            Put(SEEN_1, A, Some(b'x')),
        ],
        answers: &[Holds(&[(A, 3)], b"xw")],
        ..NEW_CLOCK
    },
    // (5, [e, d, c, b, a]) behind (A, 2) keeps the newest three.
    Case {
        shows: "of the one actor's values those that were seen go",
        first: FIVE,
        steps: &[Put(SEEN_2, A, Some(b'f'))],
        answers: &[Holds(&[(A, 6)], b"fedc")],
        ..NEW_CLOCK
    },
    // The second context is behind the counter, and the third ahead of it.
    Case {
        shows: "a value takes the place of the only one, where that was seen",
        steps: &[
            Event(A, b'v'),
            Put(SEEN_1, A, Some(b'w')),
            Put(SEEN_1, A, Some(b'x')),
            Put(SEEN_2, A, None),
            Discard(SEEN_2),
            Put(SEEN_3, A, Some(b'y')),
            Put(SEEN_MANY, A, Some(b'z')),
        ],
        answers: &[Holds(&[(A, 4_294_967_296)], b"z")],
        ..NEW_CLOCK
    },
    Case {
        shows: "a put behind nothing leaves all values of the one actor",
        steps: &[
            Event(A, b'v'),
            Put(b"", A, Some(b'w')),
            Put(b"", A, Some(b'x')),
        ],
        answers: &[Holds(&[(A, 3)], b"xwv")],
        ..NEW_CLOCK
    },
    Case {
        shows: "a context of other actors too makes these known beside the one actor",
        steps: &[Event(A, b'v'), Put(SEEN_A_C_D, A, Some(b'w'))],
        answers: &[Holds(&[(A, 2), (C, 1), (D, 3)], b"w")],
        ..NEW_CLOCK
    },
    Case {
        shows: "a put at another actor leaves the one actor's counter",
        steps: &[Event(A, b'v'), Put(SEEN_1, B, Some(b'p'))],
        answers: &[Holds(&[(A, 1), (B, 1)], b"p")],
        ..NEW_CLOCK
    },
    // All dots of A are known, and none has a value.
    Case {
        shows: "no dot is left",
        steps: &[Event(A, b'v'), Discard(SEEN_ALL)],
        answers: &[
            Refuses(A, ClockFault::CounterFull),
            Holds(&[(A, 18_446_744_073_709_551_615)], b""),
        ],
        ..NEW_CLOCK
    },
    Case {
        shows: "the last dot is given",
        steps: &[Event(A, b'v'), Discard(SEEN_ALL_BUT_ONE), Event(A, b'w')],
        answers: &[
            Holds(&[(A, 18_446_744_073_709_551_615)], b"w"),
            Covers(Dot {
                actor: A,
                counter: 18_446_744_073_709_551_615,
            }),
        ],
        ..NEW_CLOCK
    },
    Case {
        shows: "a counter goes past 2 to the 32",
        steps: &[Event(A, b'v'), Discard(SEEN_MANY), Event(A, b'w')],
        answers: &[Holds(&[(A, 4_294_967_296)], b"w")],
        ..NEW_CLOCK
    },
    Case {
        shows: "one actor fits beside sixty-three",
        crowd: 63,
        answers: &[IsFull(A, false), IsFull(CROWD_63, false)],
        ..NEW_CLOCK
    },
    Case {
        shows: "none fits beside sixty-three behind a context of others",
        crowd: 63,
        context: SEEN_A_C_D,
        answers: &[IsFull(CROWD_1, true)],
        ..NEW_CLOCK
    },
    // An event of one of them fits, and one of another is refused: the 64 stay.
    Case {
        shows: "no actor fits beside sixty-four",
        crowd: 64,
        answers: &[
            IsFull(A, true),
            IsFull(CROWD_64, false),
            Refuses(C, ClockFault::ActorsFull),
            Count(64),
        ],
        ..NEW_CLOCK
    },
    // (5, [e, d, c]) with (4, [d]), whose other side has seen and dropped c, is (5, [e, d]).
    Case {
        shows: "a sync drops what the other dropped",
        first: FIVE,
        steps: &[Discard(SEEN_2)],
        answers: &[TakesIn(FOURTH_ALONE), Holds(&[(A, 5)], b"ed")],
        ..NEW_CLOCK
    },
    // (5, [e, d]) with (4, [d]) is (5, [e, d]).
    Case {
        shows: "a sync keeps what the other has not seen",
        first: FIVE,
        steps: &[Discard(SEEN_3)],
        answers: &[TakesIn(FOURTH_ALONE), Holds(&[(A, 5)], b"ed")],
        ..NEW_CLOCK
    },
    // (2, [b, a]) with (2, []) is (2, []).
    Case {
        shows: "a sync with all dropped has none",
        steps: &[Event(A, b'a'), Event(A, b'b')],
        answers: &[
            TakesIn(&[Event(A, b'a'), Event(A, b'b'), Discard(SEEN_2)]),
            Holds(&[(A, 2)], b""),
        ],
        ..NEW_CLOCK
    },
    // Of A the first side has seen a and dropped it, and b is new to the second; B is known to the first side alone, C to
    // the second. So b, p and x stay, whichever side takes in the other.
    Case {
        shows: "the first side takes in the second of several actors",
        first: FIRST_SIDE,
        answers: &[
            TakesIn(SECOND_SIDE),
            Holds(&[(A, 2), (B, 1), (C, 1)], b"bpx"),
        ],
        ..NEW_CLOCK
    },
    Case {
        shows: "the second side takes in the first of several actors",
        first: SECOND_SIDE,
        answers: &[
            TakesIn(FIRST_SIDE),
            Holds(&[(A, 2), (B, 1), (C, 1)], b"bpx"),
        ],
        ..NEW_CLOCK
    },
];

fn answers(
    alloc: Global,
    clock: &mut Clock<u8>,
    context: Option<&Context<'_>>,
    answer: &Answer,
) -> bool {
    match answer {
        TakesIn(steps) => takes_in(alloc, clock, steps),
        Holds(pairs, values) => holds(clock, pairs, values),
        Count(values) => count(clock) == *values,
        Covers(dot) => clock.covers(dot),
        Last(actor, counter) => clock.counter_of(*actor) == *counter,
        Uncovered(values) => clock.uncovered(context) == *values,
        Needs(actor, needed) => clock.needed(context, *actor) == *needed,
        IsFull(actor, is_full) => clock.is_actors_full(context, *actor) == *is_full,
        Refuses(actor, fault) => event(clock, *actor, b'w') == Err(Some(*fault)),
    }
}

fn answers_all(
    alloc: Global,
    clock: &mut Clock<u8>,
    context: Option<&Context<'_>>,
    wanted: &[Answer],
) -> bool {
    for answer in wanted {
        if !answers(alloc, clock, context, answer) {
            return false;
        }
    }
    true
}

fn is_case(alloc: Global, row: &Case) -> bool {
    let Ok(context) = Context::given(row.context) else {
        return false;
    };
    let mut clock = Clock::new(alloc);
    takes_crowd(&mut clock, row.crowd)
        && takes_all(&mut clock, row.first)
        && takes_all(&mut clock, row.steps)
        && answers_all(alloc, &mut clock, context.as_ref(), row.answers)
}

#[test]
fn a_clock_answers_by_what_it_has_seen(rt: HostRuntime) {
    let alloc = rt.alloc();
    for row in CASES {
        assert!(rt; is_case(alloc, row), "{}", row.shows);
    }
}

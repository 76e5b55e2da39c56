//! Contexts as their bytes, and the epochs of a vnode.

use crate::actors::{A, B, OTHER};
use actor_epoch::{Actor, Context, Counter, Dot, EpochSource, MAX_EPOCH, MalformedContext};
use std::alloc::{AllocError, Global};

/// What a context has seen of an actor.
enum Seen {
    /// Whether it covers the dot of this counter.
    Covers(Counter, bool),
    /// The actor's counter in it.
    Last(Counter),
}

use Seen::{Covers, Last};

/// Bytes, and the context that they are: its pairs (none: they are no context), and what it has seen of actors.
#[derive(Clone, Copy)]
struct Case {
    shows: &'static str,
    bytes: &'static [u8],
    pairs: &'static [(Actor, Counter)],
    seen: &'static [(Actor, Seen)],
}

/// Two pairs, and the bytes of their context: of version 2, and of version 1.
const PAIRS: &[(Actor, Counter)] = &[(A, 1), (B, 258)];

const ENCODED: &[u8] =
    b"\x02\0\0\0\0\0\x01\0\0\0\0\0\x01\0\0\0\0\0\0\0\x01\0\0\0\0\0\x01\0\0\0\0\0\x02\0\0\0\0\0\0\x01\x02";

const NARROW: &[u8] =
    b"\x01\0\0\0\0\0\x01\0\0\0\0\0\x01\0\0\0\x01\0\0\0\0\0\x01\0\0\0\0\0\x02\0\0\x01\x02";

/// Bytes that are no context. Cases say what is other.
const NO_CONTEXT: Case = Case {
    shows: "",
    bytes: b"",
    pairs: &[],
    seen: &[],
};

const CASES: &[Case] = &[
    Case {
        shows: "no bytes are no context",
        bytes: b"",
        ..NO_CONTEXT
    },
    Case {
        shows: "the version alone is malformed",
        bytes: b"\x01",
        ..NO_CONTEXT
    },
    Case {
        shows: "version 2 alone is malformed",
        bytes: b"\x02",
        ..NO_CONTEXT
    },
    Case {
        shows: "another version is malformed",
        bytes: b"\x03\0\0\0\0\0\x01\0\0\0\0\0\x01\0\0\0\0\0\0\0\x01",
        ..NO_CONTEXT
    },
    Case {
        shows: "an entry of version 1 is too short for version 2",
        bytes: b"\x02\0\0\0\0\0\x01\0\0\0\0\0\x01\0\0\0\x01",
        ..NO_CONTEXT
    },
    Case {
        shows: "epoch 0 is malformed",
        bytes: b"\x01\0\0\0\0\0\x01\0\0\0\0\0\0\0\0\0\x01",
        ..NO_CONTEXT
    },
    Case {
        shows: "counter 0 is malformed",
        bytes: b"\x01\0\0\0\0\0\x01\0\0\0\0\0\x01\0\0\0\0",
        ..NO_CONTEXT
    },
    Case {
        shows: "the same actor twice is malformed",
        bytes: b"\x01\0\0\0\0\0\x01\0\0\0\0\0\x01\0\0\0\x01\0\0\0\0\0\x01\0\0\0\0\0\x01\0\0\0\x01",
        ..NO_CONTEXT
    },
    Case {
        shows: "a byte too few is malformed",
        bytes: b"\x01\0\0\0\0\0\x01\0\0\0\0\0\x01\0\0\0",
        ..NO_CONTEXT
    },
    Case {
        shows: "an entry of version 2 is too long for version 1",
        bytes: b"\x01\0\0\0\0\0\x01\0\0\0\0\0\x01\0\0\0\0\0\0\0\x01",
        ..NO_CONTEXT
    },
    Case {
        shows: "epoch 0 of version 2 is malformed",
        bytes: b"\x02\0\0\0\0\0\x01\0\0\0\0\0\0\0\0\0\0\0\0\0\x01",
        ..NO_CONTEXT
    },
    Case {
        shows: "counter 0 of version 2 is malformed",
        bytes: b"\x02\0\0\0\0\0\x01\0\0\0\0\0\x01\0\0\0\0\0\0\0\0",
        ..NO_CONTEXT
    },
    Case {
        shows: "the same actor twice in version 2 is malformed",
        bytes: b"\x02\0\0\0\0\0\x01\0\0\0\0\0\x01\0\0\0\0\0\0\0\x01\0\0\0\0\0\x01\0\0\0\0\0\x01\0\0\0\0\0\0\0\x01",
        ..NO_CONTEXT
    },
    Case {
        shows: "a byte too few of version 2 is malformed",
        bytes: b"\x02\0\0\0\0\0\x01\0\0\0\0\0\x01\0\0\0\0\0\0\0",
        ..NO_CONTEXT
    },
    Case {
        shows: "a context of one pair",
        bytes: b"\x01\0\0\0\0\0\x01\0\0\0\0\0\x01\0\0\0\x01",
        pairs: &[(A, 1)],
        ..NO_CONTEXT
    },
    Case {
        shows: "a context of one pair of version 2",
        bytes: b"\x02\0\0\0\0\0\x01\0\0\0\0\0\x01\0\0\0\0\0\0\0\x01",
        pairs: &[(A, 1)],
        ..NO_CONTEXT
    },
    // In version 1 the counter ends at 2 to the 32, in version 2 at 2 to the 64.
    Case {
        shows: "the greatest counter of version 1",
        bytes: b"\x01\0\0\0\0\0\x01\0\0\0\0\0\x01\xff\xff\xff\xff",
        pairs: &[(A, 4_294_967_295)],
        seen: &[
            (A, Covers(4_294_967_295, true)),
            (A, Covers(4_294_967_296, false)),
        ],
    },
    Case {
        shows: "the greatest counter of version 2",
        bytes: b"\x02\0\0\0\0\0\x01\0\0\0\0\0\x01\xff\xff\xff\xff\xff\xff\xff\xff",
        pairs: &[(A, 18_446_744_073_709_551_615)],
        seen: &[
            (A, Covers(18_446_744_073_709_551_615, true)),
            (A, Last(18_446_744_073_709_551_615)),
        ],
    },
    Case {
        shows: "a context of two pairs of version 1 covers their dots",
        bytes: NARROW,
        pairs: PAIRS,
        seen: &[
            (A, Covers(1, true)),
            (A, Covers(2, false)),
            (B, Covers(258, true)),
            (B, Covers(259, false)),
            (OTHER, Last(0)),
        ],
    },
    // The dots on both sides of where each pair ends.
    Case {
        shows: "a context of two pairs covers their dots",
        bytes: ENCODED,
        pairs: PAIRS,
        seen: &[
            (A, Covers(1, true)),
            (A, Covers(2, false)),
            (B, Covers(258, true)),
            (B, Covers(259, false)),
            (B, Covers(0, false)),
            (B, Last(258)),
            (OTHER, Last(0)),
        ],
    },
];

fn has_seen(context: &Context<'_>, actor: Actor, seen: &Seen) -> bool {
    match seen {
        Covers(counter, is_covered) => {
            let counter = *counter;
            context.covers(&Dot { actor, counter }) == *is_covered
        }
        Last(counter) => context.counter_of(actor) == *counter,
    }
}

/// Whether a context has just the pairs of a row, and has seen what it says.
fn is_context(context: &Context<'_>, row: &Case) -> bool {
    for (actor, seen) in row.seen {
        if !has_seen(context, *actor, seen) {
            return false;
        }
    }
    context.pairs().len() == row.pairs.len() && context.pairs().eq(row.pairs.iter().copied())
}

/// Whether bytes are read as the context of a row, or are none.
fn is_read(row: &Case) -> bool {
    match Context::read(row.bytes) {
        Some(context) => is_context(&context, row),
        None => row.pairs.is_empty(),
    }
}

/// Whether bytes are read and given as a row says: as a context, or as none where there are no bytes, or refused.
fn is_case(row: &Case) -> bool {
    let is_given = match Context::given(row.bytes) {
        Ok(Some(_)) => !row.pairs.is_empty(),
        Ok(None) => row.bytes.is_empty(),
        Err(MalformedContext) => !row.bytes.is_empty() && row.pairs.is_empty(),
    };
    is_given && is_read(row)
}

#[test]
fn bytes_are_a_context_or_none_or_malformed(rt: HostRuntime) {
    for row in CASES {
        assert!(rt; is_case(row), "{}", row.shows);
    }
}

/// The bytes of 65 entries: rising epochs of one vnode.
const ENTRIES: &[u8] = b"\x01\
    a vnode e001n001a vnode e002n001a vnode e003n001a vnode e004n001a vnode e005n001a vnode e006n001\
    a vnode e007n001a vnode e008n001a vnode e009n001a vnode e010n001a vnode e011n001a vnode e012n001\
    a vnode e013n001a vnode e014n001a vnode e015n001a vnode e016n001a vnode e017n001a vnode e018n001\
    a vnode e019n001a vnode e020n001a vnode e021n001a vnode e022n001a vnode e023n001a vnode e024n001\
    a vnode e025n001a vnode e026n001a vnode e027n001a vnode e028n001a vnode e029n001a vnode e030n001\
    a vnode e031n001a vnode e032n001a vnode e033n001a vnode e034n001a vnode e035n001a vnode e036n001\
    a vnode e037n001a vnode e038n001a vnode e039n001a vnode e040n001a vnode e041n001a vnode e042n001\
    a vnode e043n001a vnode e044n001a vnode e045n001a vnode e046n001a vnode e047n001a vnode e048n001\
    a vnode e049n001a vnode e050n001a vnode e051n001a vnode e052n001a vnode e053n001a vnode e054n001\
    a vnode e055n001a vnode e056n001a vnode e057n001a vnode e058n001a vnode e059n001a vnode e060n001\
    a vnode e061n001a vnode e062n001a vnode e063n001a vnode e064n001a vnode e065n001";

/// The length of the bytes up to the 64th entry.
const MOST: usize = 1025;

/// Whether 64 entries are a context, and 65 are none.
fn has_limit() -> bool {
    match ENTRIES.split_at_checked(MOST) {
        Some((most, last)) => {
            last.len() == 16 && Context::read(most).is_some() && Context::read(ENTRIES).is_none()
        }
        None => false,
    }
}

#[test]
fn a_context_has_64_entries_at_most(rt: HostRuntime) {
    assert!(rt; has_limit());
}

/// The bytes of the pairs, made once more where memory was refused.
fn write_again(alloc: Global) -> Result<Vec<u8>, AllocError> {
    match Context::write(alloc, PAIRS) {
        Err(_) => Context::write(alloc, PAIRS),
        written => written,
    }
}

fn is_written(alloc: Global) -> bool {
    match write_again(alloc) {
        Ok(bytes) => bytes.as_slice() == ENCODED,
        Err(_) => false,
    }
}

// The bytes are those that a row above reads.
#[test]
fn a_context_is_written_and_read(rt: HostRuntime) {
    assert!(rt; is_written(rt.alloc()));
}

/// The epochs that a source of this first epoch gives, and so does one that goes on after the epoch before.
struct Epochs {
    shows: &'static str,
    first: u32,
    before: u32,
    given: &'static [Option<u32>],
    last: u32,
}

const EPOCHS: &[Epochs] = &[
    Epochs {
        shows: "epochs rise by one",
        first: 1,
        before: 0,
        given: &[Some(1), Some(2)],
        last: 2,
    },
    Epochs {
        shows: "a source goes on after the epoch 2",
        first: 3,
        before: 2,
        given: &[Some(3)],
        last: 3,
    },
    Epochs {
        shows: "the last epoch is given once",
        first: MAX_EPOCH,
        before: 4_294_967_294,
        given: &[Some(4_294_967_295), None],
        last: 4_294_967_295,
    },
];

/// Whether a source gives the epochs of a row, each as it is foretold.
fn gives(epochs: &mut EpochSource, row: &Epochs) -> bool {
    if epochs.last() != row.before {
        return false;
    }
    for epoch in row.given {
        if epochs.peek() != *epoch || epochs.next() != *epoch {
            return false;
        }
    }
    epochs.last() == row.last
}

fn give(row: &Epochs) -> bool {
    1 <= row.first
        && gives(&mut EpochSource::new(row.first), row)
        && gives(&mut EpochSource::after(row.before), row)
}

#[test]
fn each_epoch_is_given_once(rt: HostRuntime) {
    for row in EPOCHS {
        assert!(rt; give(row), "{}", row.shows);
    }
}

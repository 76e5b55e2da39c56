//! Schedules that come byte by byte, and whose answers go out by three bytes a write.

use crate::player::playing::Played;
use crate::player::streams::{Sink, Source};
use ring_map::Ring;
use schedule_player::{StepsFault, steps_on};
use std::alloc::Global;
use std::process::Abort;

/// A schedule of two workers, of which so many writes are taken.
struct Pieces {
    shows: &'static str,
    text: &'static str,
    /// Whether the reader fails behind the text.
    fails: bool,
    writes: u64,
    result: Played,
    answers: &'static str,
}

const PIECES: &[Pieces] = &[
    Pieces {
        shows: "the pieces of a line are put together",
        text: "ask 1 090a016212016b\nenter 1\nlook 1",
        fails: false,
        writes: 100,
        result: Ok(()),
        answers: "1 ok\n2 ok\n3 reply 0a\nplain equal\n",
    },
    Pieces {
        shows: "a reader fails behind answered lines",
        text: "enter 1\nenter 2\nenter",
        fails: true,
        writes: 100,
        result: Err(StepsFault::ReadFailed),
        answers: "1 no\n2 no\n",
    },
    Pieces {
        shows: "a writer fails at once",
        text: "enter 1\nenter 2\nenter 0\n",
        fails: false,
        writes: 0,
        result: Err(StepsFault::WriteFailed),
        answers: "",
    },
    Pieces {
        shows: "a writer fails in a line",
        text: "enter 1\nenter 2\nenter 0\n",
        fails: false,
        writes: 3,
        result: Err(StepsFault::WriteFailed),
        answers: "1 no\n2 n",
    },
    Pieces {
        shows: "a writer fails at the verdict",
        text: "enter 1\n",
        fails: false,
        writes: 2,
        result: Err(StepsFault::WriteFailed),
        answers: "1 no\n",
    },
];

fn comes_to(alloc: Global, row: &Pieces) -> Option<bool> {
    let ring = Ring::new(1)?;
    let mut source = Source {
        left: row.text.as_bytes(),
        fails: row.fails,
    };
    let mut sink = Sink {
        bytes: Vec::new(alloc),
        writes: row.writes,
    };
    let played = steps_on(alloc, &mut source, &mut sink, 2, ring, 1);
    Some(played == row.result && sink.bytes.as_slice() == row.answers.as_bytes())
}

/// Whether a row holds, or holds where it is played once more.
fn comes_to_again(alloc: Global, row: &Pieces) -> bool {
    comes_to(alloc, row) == Some(true) || comes_to(alloc, row) == Some(true)
}

#[test]
fn a_schedule_comes_in_pieces(rt: HostRuntime) {
    for row in PIECES {
        assert!(rt; comes_to_again(rt.alloc(), row), "{}", row.shows);
    }
}

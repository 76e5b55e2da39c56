//! Texts that are cut into their lines.

use crate::text::reading::{let_go, read_again};
use schedule_text::*;
use std::alloc::Global;
use std::process::Abort;

/// A line that a text is cut into.
enum Piece {
    /// It is a step.
    Step(&'static str),
    /// It is none.
    Other(&'static str),
}

use Piece::{Other, Step};

/// A text and its lines.
struct Cut {
    shows: &'static str,
    text: &'static str,
    lines: &'static [Piece],
}

/// A reader inside while a writer marks, and a second reader that comes in after the put back.
pub(crate) const MARKING_WRITER: &str = "ask 1 090a016212016b\n\
ask 2 0b0a016212016b22030a0176\n\
ask 3 090a016212016b\n\
enter 1\n\
mark 2\n\
enter 3\n\
take 2\n\
look 1\n\
leave 1\n\
take 2\n\
look 2\n\
publish 2\n\
enter 3\n\
put 2\n\
enter 3\n\
look 3\n\
leave 3\n";

const CUTS: &[Cut] = &[
    Cut {
        shows: "lines are cut at line feeds",
        text: "enter 1\n\nleave 1",
        lines: &[Step("enter 1"), Other(""), Step("leave 1")],
    },
    Cut {
        shows: "no line stands behind the last line feed",
        text: "mark 2\n",
        lines: &[Step("mark 2")],
    },
    Cut {
        shows: "an empty text has no line",
        text: "",
        lines: &[],
    },
    Cut {
        shows: "two of four lines are steps",
        text: "enter 1\n\nenter 01\nleave 1",
        lines: &[
            Step("enter 1"),
            Other(""),
            Other("enter 01"),
            Step("leave 1"),
        ],
    },
    Cut {
        shows: "the schedule of a marking writer has 17 steps",
        text: MARKING_WRITER,
        lines: &[
            Step("ask 1 090a016212016b"),
            Step("ask 2 0b0a016212016b22030a0176"),
            Step("ask 3 090a016212016b"),
            Step("enter 1"),
            Step("mark 2"),
            Step("enter 3"),
            Step("take 2"),
            Step("look 1"),
            Step("leave 1"),
            Step("take 2"),
            Step("look 2"),
            Step("publish 2"),
            Step("enter 3"),
            Step("put 2"),
            Step("enter 3"),
            Step("look 3"),
            Step("leave 3"),
        ],
    },
];

/// The line is a step of whatever kind.
fn is_any_step(alloc: Global, line: &[u8]) -> bool {
    let read = read_again(alloc, line);
    let is = read.is_ok();
    let_go(read);
    is
}

fn is_piece(alloc: Global, line: Option<&[u8]>, piece: &Piece) -> bool {
    let Some(line) = line else {
        return false;
    };
    match piece {
        Step(text) => line == text.as_bytes() && is_any_step(alloc, line),
        Other(text) => line == text.as_bytes() && !is_any_step(alloc, line),
    }
}

/// Whether a row holds. Behind its last line a text has no other, however often it is asked.
fn is_cut(alloc: Global, row: &Cut) -> bool {
    let mut lines = Lines::new(row.text.as_bytes());
    for piece in row.lines {
        if !is_piece(alloc, lines.next(), piece) {
            return false;
        }
    }
    lines.next().is_none() && lines.next().is_none()
}

#[test]
fn a_text_is_cut_into_its_lines(rt: HostRuntime) {
    for row in CUTS {
        assert!(rt; is_cut(rt.alloc(), row), "{}", row.shows);
    }
}

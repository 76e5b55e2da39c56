//! The lines of the answers and of the refusals.

use control_text::{
    DivertedPartitions, Figure, Mistake, OperatorAnswer, OperatorRefusal, Word, write_figures,
    write_group, write_help,
};
use std::alloc::Global;
use std::io::Cursor;

/// An answer, and its line.
struct Answered {
    answer: OperatorAnswer,
    line: &'static str,
}

const ANSWERS: &[Answered] = &[
    Answered {
        answer: OperatorAnswer::Diverted(3),
        line: "diverted 3\n",
    },
    Answered {
        answer: OperatorAnswer::Diverted(65_535),
        line: "diverted 65535\n",
    },
    Answered {
        answer: OperatorAnswer::Copied {
            partition: 3,
            keys: 100,
            left: true,
        },
        line: "copied 3 keys 100 left\n",
    },
    Answered {
        answer: OperatorAnswer::Copied {
            partition: 3,
            keys: 12,
            left: false,
        },
        line: "copied 3 keys 12 whole\n",
    },
    Answered {
        answer: OperatorAnswer::Copied {
            partition: 0,
            keys: 0,
            left: false,
        },
        line: "copied 0 keys 0 whole\n",
    },
    Answered {
        answer: OperatorAnswer::Copied {
            partition: 65_535,
            keys: u64::MAX,
            left: true,
        },
        line: "copied 65535 keys 18446744073709551615 left\n",
    },
    Answered {
        answer: OperatorAnswer::Returned(3),
        line: "returned 3\n",
    },
];

/// A refusal, and its line.
struct Refusing {
    refusal: OperatorRefusal,
    line: &'static str,
}

const REFUSALS: &[Refusing] = &[
    Refusing {
        refusal: OperatorRefusal::BadLine(Mistake::NoSuchCommand),
        line: "refused: no such command; help lists them\n",
    },
    Refusing {
        refusal: OperatorRefusal::BadLine(Mistake::BlankBehind),
        line: "refused: a blank stands behind the last word\n",
    },
    Refusing {
        refusal: OperatorRefusal::BadLine(Mistake::Operands(Word::Help)),
        line: "refused: help takes no number\n",
    },
    Refusing {
        refusal: OperatorRefusal::BadLine(Mistake::Operands(Word::Totals)),
        line: "refused: totals takes no number\n",
    },
    Refusing {
        refusal: OperatorRefusal::BadLine(Mistake::Operands(Word::Stats)),
        line: "refused: stats takes no number\n",
    },
    Refusing {
        refusal: OperatorRefusal::BadLine(Mistake::Operands(Word::Diverted)),
        line: "refused: diverted takes no number\n",
    },
    Refusing {
        refusal: OperatorRefusal::BadLine(Mistake::Operands(Word::Stop)),
        line: "refused: stop takes no number\n",
    },
    Refusing {
        refusal: OperatorRefusal::BadLine(Mistake::Operands(Word::Divert)),
        line: "refused: divert takes one number, a partition's, from 0 to 65535, as in: divert 3\n",
    },
    Refusing {
        refusal: OperatorRefusal::BadLine(Mistake::Operands(Word::Copy)),
        line: "refused: copy takes two numbers, a partition's and how many keys, from 1 to 4294967295, as in: copy 3 100\n",
    },
    Refusing {
        refusal: OperatorRefusal::BadLine(Mistake::Operands(Word::Return)),
        line: "refused: return takes one number, a partition's, from 0 to 65535, as in: return 3\n",
    },
    Refusing {
        refusal: OperatorRefusal::LongLine,
        line: "refused: the line has more than 64 bytes\n",
    },
    Refusing {
        refusal: OperatorRefusal::NoPartition(9),
        line: "refused: there is no partition 9\n",
    },
    Refusing {
        refusal: OperatorRefusal::AlreadyDiverted(3),
        line: "refused: partition 3 is diverted already\n",
    },
    Refusing {
        refusal: OperatorRefusal::NotDiverted(3),
        line: "refused: partition 3 isn't diverted\n",
    },
    Refusing {
        refusal: OperatorRefusal::LeftOver(3),
        line: "refused: partition 3 has keys left to be copied\n",
    },
    Refusing {
        refusal: OperatorRefusal::LeftOver(65_535),
        line: "refused: partition 65535 has keys left to be copied\n",
    },
    Refusing {
        refusal: OperatorRefusal::NoMemory,
        line: "refused: no memory\n",
    },
    Refusing {
        refusal: OperatorRefusal::GateStopped(3),
        line: "refused: partition 3's gate has stopped\n",
    },
];

/// This line is all that was written.
fn holds(out: &Cursor<[u8; 640]>, line: &str) -> bool {
    out.get_ref().get(..line.len()) == Some(line.as_bytes()) && out.position() == line.len() as u64
}

fn writes_answer(answer: OperatorAnswer, line: &str) -> bool {
    let mut out = Cursor::new([0xeeu8; 640]);
    answer.write_line(&mut out).is_ok() && holds(&out, line)
}

fn writes_refusal(refusal: OperatorRefusal, line: &str) -> bool {
    let mut out = Cursor::new([0xeeu8; 640]);
    refusal.write_line(&mut out).is_ok() && holds(&out, line)
}

#[test]
fn writes_each_answer(rt: HostRuntime) {
    for row in ANSWERS {
        assert!(rt; writes_answer(row.answer, row.line), "{}", row.line);
    }
}

#[test]
fn writes_each_refusal(rt: HostRuntime) {
    for row in REFUSALS {
        assert!(rt; writes_refusal(row.refusal, row.line), "{}", row.line);
        assert!(rt;
            writes_answer(OperatorAnswer::Refused(row.refusal), row.line),
            "as an answer: {}",
            row.line
        );
    }
}

/// A writer that takes five bytes.
fn fails(answer: OperatorAnswer) -> bool {
    let mut out = Cursor::new([0xeeu8; 5]);
    answer.write_line(&mut out).is_err()
}

#[test]
fn a_full_writer_is_told(rt: HostRuntime) {
    assert!(rt; fails(OperatorAnswer::Diverted(3)));
}

const HELP: &str = "\
help           lists the commands
totals         what was done so far, and how much is stored
stats          what was done by now, without a pause
diverted       which partitions are diverted, and for how long
divert 3       calls of partition 3 go to a fallback from now on
copy 3 100     at most 100 keys of partition 3 are copied back from its fallback
return 3       calls of partition 3 go to its primary again, once all keys are copied
stop           the node ends in order
";

#[test]
fn writes_the_help(rt: HostRuntime) {
    let mut out = Cursor::new([0xeeu8; 640]);
    assert!(rt; write_help(&mut out).is_ok() && holds(&out, HELP));
}

/// Figures, and what is written of them where they begin a line.
struct Figures {
    figures: &'static [Figure],
    text: &'static str,
}

const FIGURES: &[Figures] = &[
    Figures {
        figures: &[],
        text: "",
    },
    Figures {
        figures: &[Figure {
            name: "uptime",
            value: 12,
        }],
        text: "uptime 12",
    },
    Figures {
        figures: &[
            Figure {
                name: "uptime",
                value: 0,
            },
            Figure {
                name: "run",
                value: 1,
            },
            Figure {
                name: "puts",
                value: u64::MAX,
            },
        ],
        text: "uptime 0 run 1 puts 18446744073709551615",
    },
];

fn begin_line(row: &Figures) -> bool {
    let mut out = Cursor::new([0xeeu8; 640]);
    write_figures(&mut out, row.figures).is_ok() && holds(&out, row.text)
}

#[test]
fn writes_figures(rt: HostRuntime) {
    for row in FIGURES {
        assert!(rt; begin_line(row), "{}", row.text);
    }
}

/// Two groups of figures stand on one line.
fn goes_on() -> bool {
    let mut out = Cursor::new([0xeeu8; 640]);
    let gets = Figure {
        name: "gets",
        value: 2,
    };
    let puts = Figure {
        name: "puts",
        value: 30,
    };
    write_figures(&mut out, &[gets]).is_ok()
        && write_group(&mut out, &[puts, gets]).is_ok()
        && write_group(&mut out, &[]).is_ok()
        && holds(&out, "gets 2 puts 30 gets 2")
}

#[test]
fn writes_a_further_group(rt: HostRuntime) {
    assert!(rt; goes_on());
}

/// What was answered so far, each with its second; which partitions are diverted now, and how many.
struct Noted {
    answers: &'static [(u64, OperatorAnswer)],
    now: u64,
    line: &'static str,
    count: usize,
}

const NOTED: &[Noted] = &[
    Noted {
        answers: &[],
        now: 9,
        line: "diverted now:\n",
        count: 0,
    },
    Noted {
        answers: &[
            (0, OperatorAnswer::Diverted(0)),
            (100, OperatorAnswer::Diverted(1_023)),
        ],
        now: 100,
        line: "diverted now: 0 for 100 s, 1023 for 0 s\n",
        count: 2,
    },
    Noted {
        answers: &[
            (45, OperatorAnswer::Diverted(17)),
            (333, OperatorAnswer::Diverted(3)),
            (
                340,
                OperatorAnswer::Copied {
                    partition: 3,
                    keys: 1,
                    left: false,
                },
            ),
            (341, OperatorAnswer::Refused(OperatorRefusal::LeftOver(17))),
            (
                342,
                OperatorAnswer::Refused(OperatorRefusal::AlreadyDiverted(3)),
            ),
        ],
        now: 345,
        line: "diverted now: 3 for 12 s, 17 for 300 s\n",
        count: 2,
    },
    Noted {
        answers: &[
            (1, OperatorAnswer::Diverted(3)),
            (2, OperatorAnswer::Diverted(4)),
            (3, OperatorAnswer::Returned(3)),
            (4, OperatorAnswer::Returned(5)),
        ],
        now: 5,
        line: "diverted now: 4 for 3 s\n",
        count: 1,
    },
    Noted {
        answers: &[
            (1, OperatorAnswer::Diverted(3)),
            (2, OperatorAnswer::Returned(3)),
            (3, OperatorAnswer::Diverted(1_024)),
            (4, OperatorAnswer::Diverted(3)),
        ],
        now: u64::MAX,
        line: "diverted now: 3 for 18446744073709551611 s\n",
        count: 1,
    },
    // the clock went back
    Noted {
        answers: &[
            (10, OperatorAnswer::Diverted(3)),
            (8, OperatorAnswer::Diverted(4)),
            (7, OperatorAnswer::Diverted(5)),
        ],
        now: 9,
        line: "diverted now: 3 for 0 s, 4 for 1 s, 5 for 2 s\n",
        count: 3,
    },
];

fn keeps_diverted(alloc: Global, row: &Noted) -> bool {
    let Ok(mut partitions) = DivertedPartitions::none(alloc) else {
        return false;
    };
    for (second, answer) in row.answers {
        partitions.note(*answer, *second);
    }
    let mut out = Cursor::new([0xeeu8; 640]);
    partitions.write_line(&mut out, row.now).is_ok()
        && holds(&out, row.line)
        && partitions.count() == row.count
}

#[test]
fn keeps_which_are_diverted(rt: HostRuntime) {
    for row in NOTED {
        assert!(rt; keeps_diverted(rt.alloc(), row), "{}", row.line);
    }
}

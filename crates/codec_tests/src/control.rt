//! Tests of a console's lines: what each asks for, and the lines of the answers.

mod answers;

use control_text::{Mistake, OperatorCommand, Word, mistake_in, read_command};

/// A line, and the command that it asks for.
struct Asked {
    shows: &'static str,
    line: &'static [u8],
    asks: Option<OperatorCommand>,
}

const GOOD: &[Asked] = &[
    Asked {
        shows: "help",
        line: b"help",
        asks: Some(OperatorCommand::Help),
    },
    Asked {
        shows: "which are diverted",
        line: b"diverted",
        asks: Some(OperatorCommand::Diverted),
    },
    Asked {
        shows: "totals",
        line: b"totals",
        asks: Some(OperatorCommand::Totals),
    },
    Asked {
        shows: "stats",
        line: b"stats",
        asks: Some(OperatorCommand::Stats),
    },
    Asked {
        shows: "a diversion",
        line: b"divert 3",
        asks: Some(OperatorCommand::Divert(3)),
    },
    Asked {
        shows: "a diversion of the first partition",
        line: b"divert 0",
        asks: Some(OperatorCommand::Divert(0)),
    },
    Asked {
        shows: "a diversion of the greatest index",
        line: b"divert 65535",
        asks: Some(OperatorCommand::Divert(65_535)),
    },
    Asked {
        shows: "a copy",
        line: b"copy 3 100",
        asks: Some(OperatorCommand::Copy {
            partition: 3,
            budget: 100,
        }),
    },
    Asked {
        shows: "a copy of one key",
        line: b"copy 0 1",
        asks: Some(OperatorCommand::Copy {
            partition: 0,
            budget: 1,
        }),
    },
    Asked {
        shows: "a copy of the greatest numbers",
        line: b"copy 65535 4294967295",
        asks: Some(OperatorCommand::Copy {
            partition: 65_535,
            budget: 4_294_967_295,
        }),
    },
    Asked {
        shows: "a return",
        line: b"return 10",
        asks: Some(OperatorCommand::Return(10)),
    },
    Asked {
        shows: "a stop",
        line: b"stop",
        asks: Some(OperatorCommand::Stop),
    },
    Asked {
        shows: "a carriage return behind a word doesn't count",
        line: b"stop\r",
        asks: Some(OperatorCommand::Stop),
    },
    Asked {
        shows: "a carriage return behind a number doesn't count",
        line: b"copy 3 100\r",
        asks: Some(OperatorCommand::Copy {
            partition: 3,
            budget: 100,
        }),
    },
];

/// A line that asks for nothing, and what is wrong with it.
struct Refused {
    shows: &'static str,
    line: &'static [u8],
    mistake: Mistake,
}

const BAD: &[Refused] = &[
    Refused {
        shows: "an empty line",
        line: b"",
        mistake: Mistake::NoSuchCommand,
    },
    Refused {
        shows: "a blank",
        line: b" ",
        mistake: Mistake::BlankBehind,
    },
    Refused {
        shows: "blanks",
        line: b"   ",
        mistake: Mistake::BlankBehind,
    },
    Refused {
        shows: "a carriage return alone",
        line: b"\r",
        mistake: Mistake::NoSuchCommand,
    },
    Refused {
        shows: "two carriage returns",
        line: b"stop\r\r",
        mistake: Mistake::NoSuchCommand,
    },
    Refused {
        shows: "a carriage return in front",
        line: b"\rstop",
        mistake: Mistake::NoSuchCommand,
    },
    Refused {
        shows: "a line feed",
        line: b"stop\n",
        mistake: Mistake::NoSuchCommand,
    },
    Refused {
        shows: "capitals",
        line: b"Stop",
        mistake: Mistake::NoSuchCommand,
    },
    Refused {
        shows: "a word's beginning",
        line: b"sto",
        mistake: Mistake::NoSuchCommand,
    },
    Refused {
        shows: "a longer word",
        line: b"stops",
        mistake: Mistake::NoSuchCommand,
    },
    Refused {
        shows: "a blank behind a word",
        line: b"stop ",
        mistake: Mistake::BlankBehind,
    },
    Refused {
        shows: "a blank before a word",
        line: b" stop",
        mistake: Mistake::NoSuchCommand,
    },
    Refused {
        shows: "a number behind totals",
        line: b"totals 1",
        mistake: Mistake::Operands(Word::Totals),
    },
    Refused {
        shows: "a number behind stats",
        line: b"stats 1",
        mistake: Mistake::Operands(Word::Stats),
    },
    Refused {
        shows: "what stats and stop begin with",
        line: b"st",
        mistake: Mistake::NoSuchCommand,
    },
    Refused {
        shows: "another word",
        line: b"dump",
        mistake: Mistake::NoSuchCommand,
    },
    Refused {
        shows: "a NUL behind a word",
        line: b"stop\0",
        mistake: Mistake::NoSuchCommand,
    },
    Refused {
        shows: "a NUL alone",
        line: b"\0",
        mistake: Mistake::NoSuchCommand,
    },
    Refused {
        shows: "bytes that are no text",
        line: b"divert \xff\xfe",
        mistake: Mistake::Operands(Word::Divert),
    },
    Refused {
        shows: "a diversion of nothing",
        line: b"divert",
        mistake: Mistake::Operands(Word::Divert),
    },
    Refused {
        shows: "a diversion of no number",
        line: b"divert ",
        mistake: Mistake::BlankBehind,
    },
    Refused {
        shows: "a diversion of a negative number",
        line: b"divert -1",
        mistake: Mistake::Operands(Word::Divert),
    },
    Refused {
        shows: "a sign",
        line: b"divert +1",
        mistake: Mistake::Operands(Word::Divert),
    },
    Refused {
        shows: "a leading zero",
        line: b"divert 03",
        mistake: Mistake::Operands(Word::Divert),
    },
    Refused {
        shows: "a number in hexadecimal",
        line: b"divert 0x3",
        mistake: Mistake::Operands(Word::Divert),
    },
    Refused {
        shows: "a fraction",
        line: b"divert 3.0",
        mistake: Mistake::Operands(Word::Divert),
    },
    Refused {
        shows: "an index above the greatest",
        line: b"divert 65536",
        mistake: Mistake::Operands(Word::Divert),
    },
    Refused {
        shows: "an index that is 3 in 16 bits",
        line: b"divert 65539",
        mistake: Mistake::Operands(Word::Divert),
    },
    Refused {
        shows: "an index that is 3 in 32 bits",
        line: b"divert 4294967299",
        mistake: Mistake::Operands(Word::Divert),
    },
    Refused {
        shows: "a line of digits",
        line: b"divert 340282366920938463463374607431768211456340282366920938463463374607431768211456",
        mistake: Mistake::Operands(Word::Divert),
    },
    Refused {
        shows: "two spaces",
        line: b"divert  3",
        mistake: Mistake::Operands(Word::Divert),
    },
    Refused {
        shows: "a tab",
        line: b"divert\t3",
        mistake: Mistake::NoSuchCommand,
    },
    Refused {
        shows: "two partitions",
        line: b"divert 3 4",
        mistake: Mistake::Operands(Word::Divert),
    },
    Refused {
        shows: "a blank behind a number",
        line: b"divert 3 ",
        mistake: Mistake::BlankBehind,
    },
    Refused {
        shows: "a copy of nothing",
        line: b"copy",
        mistake: Mistake::Operands(Word::Copy),
    },
    Refused {
        shows: "a copy without a budget",
        line: b"copy 3",
        mistake: Mistake::Operands(Word::Copy),
    },
    Refused {
        shows: "a copy of an empty budget",
        line: b"copy 3 ",
        mistake: Mistake::BlankBehind,
    },
    Refused {
        shows: "a budget of 0",
        line: b"copy 3 0",
        mistake: Mistake::Operands(Word::Copy),
    },
    Refused {
        shows: "a budget above the greatest",
        line: b"copy 3 4294967296",
        mistake: Mistake::Operands(Word::Copy),
    },
    Refused {
        shows: "a budget with a leading zero",
        line: b"copy 3 0100",
        mistake: Mistake::Operands(Word::Copy),
    },
    Refused {
        shows: "a copy of a greater index",
        line: b"copy 65536 1",
        mistake: Mistake::Operands(Word::Copy),
    },
    Refused {
        shows: "a copy without a partition",
        line: b"copy  100",
        mistake: Mistake::Operands(Word::Copy),
    },
    Refused {
        shows: "two spaces before a budget",
        line: b"copy 3  100",
        mistake: Mistake::Operands(Word::Copy),
    },
    Refused {
        shows: "two budgets",
        line: b"copy 3 100 100",
        mistake: Mistake::Operands(Word::Copy),
    },
    Refused {
        shows: "a tab before a budget",
        line: b"copy 3\t100",
        mistake: Mistake::Operands(Word::Copy),
    },
    Refused {
        shows: "a return of nothing",
        line: b"return",
        mistake: Mistake::Operands(Word::Return),
    },
    Refused {
        shows: "a return of a greater index",
        line: b"return 65536",
        mistake: Mistake::Operands(Word::Return),
    },
    Refused {
        shows: "a return of a word",
        line: b"return all",
        mistake: Mistake::Operands(Word::Return),
    },
    Refused {
        shows: "a number behind help",
        line: b"help 1",
        mistake: Mistake::Operands(Word::Help),
    },
    Refused {
        shows: "a number behind diverted",
        line: b"diverted 3\r",
        mistake: Mistake::Operands(Word::Diverted),
    },
    Refused {
        shows: "a word that begins as another",
        line: b"divertedly 3",
        mistake: Mistake::NoSuchCommand,
    },
    Refused {
        shows: "a blank behind a word that is none",
        line: b"dump ",
        mistake: Mistake::BlankBehind,
    },
];

#[test]
fn reads_a_line_as_its_command(rt: HostRuntime) {
    for row in GOOD {
        assert!(rt; read_command(row.line) == row.asks, "{}", row.shows);
    }
}

#[test]
fn refuses_other_lines(rt: HostRuntime) {
    for row in BAD {
        assert!(rt; read_command(row.line) == None, "{}", row.shows);
        assert!(rt;
            mistake_in(row.line) == row.mistake,
            "what is wrong: {}",
            row.shows
        );
    }
}

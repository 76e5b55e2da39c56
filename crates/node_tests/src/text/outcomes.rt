//! The lines that outcomes and verdicts are written as.

use crate::messages::{ABSENT, DELETED, Message, SHOWS_V, STORED, reply_again};
use crate::text::compared::MATCH_FOUND;
use riak_msgs::{MsgFault, Reply};
use schedule_text::*;
use std::alloc::{AllocError, Global};
use std::process::Abort;

/// What a line is written of.
enum Written {
    /// A step that was taken, at the line of this number.
    Done(u64),
    /// A step that was not possible.
    No(u64),
    /// The step that forgot a dead key.
    Reaped(u64),
    /// The step that found that its key isn't dead.
    Kept(u64),
    /// The step that copied a key back.
    Copied(u64),
    /// The step that found a copy stuck.
    Stuck(u64),
    /// The step that found the fallback closed.
    Elsewhere(u64),
    /// The step that found so many keys left.
    Left(u64, u64),
    /// The reply to a step.
    Reply(u64, Message),
    /// The verdict of a run.
    Verdict(Verdict),
}

/// A line as it is written.
struct WrittenLine {
    shows: &'static str,
    of: Written,
    line: &'static str,
}

const WRITTEN_LINES: &[WrittenLine] = &[
    WrittenLine {
        shows: "a step that was taken",
        of: Written::Done(1),
        line: "1 ok\n",
    },
    WrittenLine {
        shows: "a step that was not possible",
        of: Written::No(6),
        line: "6 no\n",
    },
    WrittenLine {
        shows: "a key that was forgotten",
        of: Written::Reaped(100_000),
        line: "100000 reaped\n",
    },
    WrittenLine {
        shows: "a key that isn't dead",
        of: Written::Kept(10),
        line: "10 kept\n",
    },
    WrittenLine {
        shows: "a key that was copied back",
        of: Written::Copied(11),
        line: "11 copied\n",
    },
    WrittenLine {
        shows: "a key that is stuck",
        of: Written::Stuck(12),
        line: "12 stuck\n",
    },
    WrittenLine {
        shows: "a fallback that is closed",
        of: Written::Elsewhere(13),
        line: "13 elsewhere\n",
    },
    WrittenLine {
        shows: "a key that is left",
        of: Written::Left(14, 1),
        line: "14 left 1\n",
    },
    WrittenLine {
        shows: "the most keys that are told",
        of: Written::Left(15, 18_446_744_073_709_551_615),
        line: "15 left 18446744073709551615\n",
    },
    WrittenLine {
        shows: "the reply to a get of an absent key",
        of: Written::Reply(8, ABSENT),
        line: "8 reply 0a\n",
    },
    WrittenLine {
        shows: "the reply to a put",
        of: Written::Reply(12, STORED),
        line: "12 reply 0c\n",
    },
    WrittenLine {
        shows: "the reply to a delete",
        of: Written::Reply(3, DELETED),
        line: "3 reply 0e\n",
    },
    WrittenLine {
        shows: "a reply is its code and body in hexadecimal",
        of: Written::Reply(16, SHOWS_V),
        line: "16 reply 0a0a030a01761215020000000000010000000000010000000000000001\n",
    },
    WrittenLine {
        shows: "the error message of a refusal",
        of: Written::Reply(2, MATCH_FOUND),
        line: "2 reply 000a0b6d617463685f666f756e641001\n",
    },
    WrittenLine {
        shows: "the verdict of a run that equals plain registers",
        of: Written::Verdict(Verdict::Equal),
        line: "plain equal\n",
    },
    WrittenLine {
        shows: "the verdict of a run that differs",
        of: Written::Verdict(Verdict::DiffersAt(17)),
        line: "plain differs at line 17\n",
    },
    WrittenLine {
        shows: "the verdict of a run that is not compared",
        of: Written::Verdict(Verdict::NotCompared),
        line: "plain not compared\n",
    },
];

fn is_line(written: &Result<Vec<u8>, AllocError>, line: &str) -> bool {
    match written {
        Ok(written) => written.as_slice() == line.as_bytes(),
        Err(_) => false,
    }
}

/// Writes an outcome, and a second time where memory was refused.
fn writes_outcome(alloc: Global, number: u64, outcome: LineOutcome<'_>, line: &str) -> bool {
    let mut written = write_outcome(alloc, number, outcome);
    if written.is_err() {
        written = write_outcome(alloc, number, outcome);
    }
    is_line(&written, line)
}

/// Writes a verdict, and a second time where memory was refused.
fn writes_verdict(alloc: Global, verdict: Verdict, line: &str) -> bool {
    let mut written = write_verdict(alloc, verdict);
    if written.is_err() {
        written = write_verdict(alloc, verdict);
    }
    is_line(&written, line)
}

fn let_go(_reply: Result<Reply, MsgFault>) {}

fn writes_read(alloc: Global, number: u64, reply: &Result<Reply, MsgFault>, line: &str) -> bool {
    match reply {
        Ok(reply) => writes_outcome(alloc, number, LineOutcome::Reply(reply), line),
        Err(_) => false,
    }
}

fn writes_reply(alloc: Global, number: u64, message: &Message, line: &str) -> bool {
    let reply = reply_again(alloc, message);
    let is_so = writes_read(alloc, number, &reply, line);
    let_go(reply);
    is_so
}

/// Whether a row holds.
fn writes(alloc: Global, row: &WrittenLine) -> bool {
    match &row.of {
        Written::Done(number) => writes_outcome(alloc, *number, LineOutcome::Done, row.line),
        Written::No(number) => writes_outcome(alloc, *number, LineOutcome::No, row.line),
        Written::Reaped(number) => writes_outcome(alloc, *number, LineOutcome::Reaped, row.line),
        Written::Kept(number) => writes_outcome(alloc, *number, LineOutcome::Kept, row.line),
        Written::Copied(number) => writes_outcome(alloc, *number, LineOutcome::Copied, row.line),
        Written::Stuck(number) => writes_outcome(alloc, *number, LineOutcome::Stuck, row.line),
        Written::Elsewhere(number) => {
            writes_outcome(alloc, *number, LineOutcome::Elsewhere, row.line)
        }
        Written::Left(number, keys) => {
            writes_outcome(alloc, *number, LineOutcome::Left(*keys), row.line)
        }
        Written::Reply(number, message) => writes_reply(alloc, *number, message, row.line),
        Written::Verdict(verdict) => writes_verdict(alloc, *verdict, row.line),
    }
}

#[test]
fn each_outcome_and_each_verdict_has_its_line(rt: HostRuntime) {
    for row in WRITTEN_LINES {
        assert!(rt; writes(rt.alloc(), row), "{}", row.shows);
    }
}

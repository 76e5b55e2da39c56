//! Replies, as this node writes them and as a client reads them, and a request that a client makes.

use crate::messages::contents::{ContentRow, FULL, V, content, is_shown};
use crate::messages::{SHOWN_CONTEXT, reading};
use riak_msgs::*;
use std::alloc::{AllocError, Global};

/// A content of a reply.
enum Sibling {
    /// A value without details.
    Value(&'static [u8]),
    Tombstone,
    /// The full content.
    Whole,
    /// The full content without its value.
    Head,
}

use Sibling::{Head, Tombstone, Value, Whole};

/// What a message is made of.
enum Made {
    Ping,
    Del,
    Error(Text),
    /// A reply to a put: its contents and the context.
    Put(&'static [Sibling], &'static [u8]),
    /// A reply to a get: its contents, the context, and whether it is unchanged.
    Get(&'static [Sibling], &'static [u8], bool),
    /// A request: a delete of b/k by a context, that no message was read for.
    Delete(&'static [u8]),
}

use Made::{Del, Delete, Error, Get, Ping, Put};

/// What a message is made of, and its bytes.
struct Written {
    shows: &'static str,
    made: Made,
    message: &'static [u8],
}

/// The full content, and it without its value, as a reply to a put. The bytes were computed by hand from the Protocol
/// Buffers encoding, and once more by a few lines of Python.
const WHOLE_AND_HEAD: &[u8] = b"\x0c\x0a\xc2\x01\x0a\x01v\
    \x12\x0atext/plain\x1a\x05utf-8\x22\x002\x09\x0a\x01b\x12\x01k\x1a\x01t\
    2\x02\x12\x00J\x06\x0a\x01m\x12\x011J\x02\x0a\x00R\x8c\x01\x0a\x05i_bin\x12\x82\x01\
    zzzzzzzzzzzzzzzzzzzzzzzzzzzzzzzzzzzzzzzzzzzzzzzzzzzzzzzzzzzzzzzzz\
    zzzzzzzzzzzzzzzzzzzzzzzzzzzzzzzzzzzzzzzzzzzzzzzzzzzzzzzzzzzzzzzzz\
    \x0a\xc1\x01\x0a\0\
    \x12\x0atext/plain\x1a\x05utf-8\x22\x002\x09\x0a\x01b\x12\x01k\x1a\x01t\
    2\x02\x12\x00J\x06\x0a\x01m\x12\x011J\x02\x0a\x00R\x8c\x01\x0a\x05i_bin\x12\x82\x01\
    zzzzzzzzzzzzzzzzzzzzzzzzzzzzzzzzzzzzzzzzzzzzzzzzzzzzzzzzzzzzzzzzz\
    zzzzzzzzzzzzzzzzzzzzzzzzzzzzzzzzzzzzzzzzzzzzzzzzzzzzzzzzzzzzzzzzz";

const WRITTEN: &[Written] = &[
    Written {
        shows: "the reply to a ping",
        made: Ping,
        message: b"\x02",
    },
    Written {
        shows: "the reply to a delete",
        made: Del,
        message: b"\x0e",
    },
    Written {
        shows: "a refusal",
        made: Error(Text::MatchFound),
        message: b"\0\x0a\x0bmatch_found\x10\x01",
    },
    Written {
        shows: "the reply to a put without contents",
        made: Put(&[], b""),
        message: b"\x0c",
    },
    Written {
        shows: "the reply to a get that is unchanged",
        made: Get(&[], b"", true),
        message: b"\x0a\x18\x01",
    },
    Written {
        shows: "the reply to a get with a value and a tombstone",
        made: Get(&[Value(b"v"), Tombstone], SHOWN_CONTEXT, false),
        message: b"\x0a\x0a\x03\x0a\x01v\x0a\x04\x0a\0\x58\x01\x12\x15\x02\0\0\0\0\0\x01\0\0\0\0\0\x01\0\0\0\0\0\0\0\x01",
    },
    Written {
        shows: "the reply to a put with the full content, and it without its value",
        made: Put(&[Whole, Head], b""),
        message: WHOLE_AND_HEAD,
    },
    Written {
        shows: "a delete by a context",
        made: Delete(b"c"),
        message: b"\x0d\x0a\x01b\x12\x01k\x22\x01c",
    },
];

/// Lets a reply go. (A function that itself lets one go while it also asserts or uses `?` costs the prover some ten times
/// as much.)
pub(crate) fn let_go(_read: Result<Reply, MsgFault>) {}

/// A content as a reply shows it, which is let go.
fn shown_of(content: Content, is_bare: bool) -> Result<Shown, AllocError> {
    Shown::of_content(&content, is_bare)
}

fn shown(alloc: Global, sibling: &Sibling) -> Result<Shown, AllocError> {
    match sibling {
        Value(value) => shown_of(Content::of_value(alloc, value)?, false),
        Tombstone => Ok(Shown::tombstone()),
        Whole => shown_of(content(alloc, &FULL)?, false),
        Head => shown_of(content(alloc, &FULL)?, true),
    }
}

fn contents(alloc: Global, siblings: &[Sibling]) -> Result<Sequence<Shown>, AllocError> {
    let mut contents = Sequence::new(alloc);
    for sibling in siblings {
        contents.push(shown(alloc, sibling)?)?;
    }
    Ok(contents)
}

/// A reply to a get that says whether it is unchanged, or a reply to a put.
fn reply(
    alloc: Global,
    siblings: &[Sibling],
    context: &[u8],
    unchanged: Option<bool>,
) -> Result<Reply, AllocError> {
    let contents = contents(alloc, siblings)?;
    let context = ContextBytes::from_slice(alloc, context)?;
    match unchanged {
        Some(unchanged) => Ok(Reply::Get(GetReply {
            contents,
            context,
            unchanged,
        })),
        None => Ok(Reply::Put(PutReply { contents, context })),
    }
}

/// Writes a reply and lets it go.
fn write_owned(alloc: Global, reply: Reply) -> Result<Vec<u8>, MsgFault> {
    let written = write_reply(alloc, &reply);
    let_go(Ok(reply));
    written
}

fn delete_of(alloc: Global, context: &[u8]) -> Result<DelAsk, AllocError> {
    Ok(DelAsk {
        key: Key::of_default_type(alloc, b"b", b"k")?,
        context: ContextBytes::from_slice(alloc, context)?,
    })
}

fn write_delete(alloc: Global, context: &[u8]) -> Result<Vec<u8>, MsgFault> {
    let delete = Request::Del(delete_of(alloc, context)?);
    let written = write_request(alloc, &delete);
    reading::let_go(Ok(delete));
    written
}

fn write(alloc: Global, made: &Made) -> Result<Vec<u8>, MsgFault> {
    match made {
        Ping => write_owned(alloc, Reply::Ping),
        Del => write_owned(alloc, Reply::Del),
        Error(text) => write_owned(alloc, Reply::Error(*text)),
        Put(siblings, context) => write_owned(alloc, reply(alloc, siblings, context, None)?),
        Get(siblings, context, unchanged) => {
            write_owned(alloc, reply(alloc, siblings, context, Some(*unchanged))?)
        }
        Delete(context) => write_delete(alloc, context),
    }
}

/// Where memory is refused on the way, nothing wrong is written, and the second round goes through.
fn write_again(alloc: Global, made: &Made) -> Result<Vec<u8>, MsgFault> {
    match write(alloc, made) {
        Err(MsgFault::NoMemory) => write(alloc, made),
        other => other,
    }
}

fn writes(alloc: Global, row: &Written) -> bool {
    match write_again(alloc, &row.made) {
        Ok(written) => written.as_slice() == row.message,
        Err(_) => false,
    }
}

#[test]
fn writes_what_is_made(rt: HostRuntime) {
    for row in WRITTEN {
        assert!(rt; writes(rt.alloc(), row), "{}", row.shows);
    }
}

/// The full content as a reply shows it, with its value or bare.
const SHOWN: &[(bool, ContentRow)] = &[(false, FULL), (true, ContentRow { value: b"", ..FULL })];

/// The full content as a reply shows it.
fn full_shown(alloc: Global, is_bare: bool) -> Result<Shown, AllocError> {
    shown_of(content(alloc, &FULL)?, is_bare)
}

fn is_shown_as(alloc: Global, shown: &Result<Shown, AllocError>, row: &ContentRow) -> bool {
    match shown {
        Ok(shown) => !shown.deleted && is_shown(alloc, &shown.content, row),
        Err(_) => false,
    }
}

fn shows_full(alloc: Global, is_bare: bool, row: &ContentRow) -> bool {
    is_shown_as(alloc, &full_shown(alloc, is_bare), row)
        || is_shown_as(alloc, &full_shown(alloc, is_bare), row)
}

/// A tombstone shows no value and no details.
fn shows_tombstone(alloc: Global) -> bool {
    let shown = Shown::tombstone();
    shown.deleted && is_shown(alloc, &shown.content, &ContentRow { value: b"", ..V })
}

#[test]
fn a_content_is_shown_with_its_details(rt: HostRuntime) {
    for (is_bare, row) in SHOWN {
        assert!(rt; shows_full(rt.alloc(), *is_bare, row), "bare: {is_bare}");
    }
    assert!(rt; shows_tombstone(rt.alloc()), "a tombstone");
}

/// The texts of the formats: of faults, and of refusals.
const TEXTS: &[(Text, &str)] = &[
    (Text::UnknownCode, "unknown message code"),
    (Text::BadMessage, "bad message"),
    (Text::MissingField, "missing field"),
    (Text::EmptyName, "empty name"),
    (Text::NoKey, "key required"),
    (Text::NoMemory, "no memory"),
    (Text::Moved, "moved"),
    (Text::HistoryFull, "history full"),
    (Text::BadFrame, "bad frame"),
    (Text::FrameTooLarge, "frame too large"),
    (Text::MatchFound, "match_found"),
    (Text::Modified, "modified"),
    (Text::NotFound, "notfound"),
    (Text::BadContext, "bad context"),
    (Text::TooManySiblings, "too many siblings"),
    (Text::ClockFull, "clock full"),
    (Text::EpochsUsedUp, "epochs used up"),
    (Text::CounterUsedUp, "counter used up"),
];

#[test]
fn texts_are_those_of_the_formats(rt: HostRuntime) {
    for (text, want) in TEXTS {
        assert!(rt; text_of(*text) == want.as_bytes(), "{want}");
    }
}

/// The code and the body of a reply, and what a client reads.
struct Read {
    shows: &'static str,
    code: u8,
    body: &'static [u8],
    /// The reply to a get without contents and context, and whether it is unchanged; or a fault.
    unchanged: Result<bool, MsgFault>,
}

/// A bool is true where its number isn't 0, whichever bits it has.
const READS: &[Read] = &[
    Read {
        shows: "a bool of 256",
        code: 10,
        body: b"\x18\x80\x02",
        unchanged: Ok(true),
    },
    Read {
        shows: "a bool of the highest bit alone",
        code: 10,
        body: b"\x18\x80\x80\x80\x80\x80\x80\x80\x80\x80\x01",
        unchanged: Ok(true),
    },
    Read {
        shows: "a bool of 0 in two bytes",
        code: 10,
        body: b"\x18\x80\0",
        unchanged: Ok(false),
    },
    Read {
        shows: "of two bools the last counts",
        code: 10,
        body: b"\x18\x01\x18\0",
        unchanged: Ok(false),
    },
    Read {
        shows: "a bool's number with another wire type is skipped",
        code: 10,
        body: b"\x1a\x01\x01",
        unchanged: Ok(false),
    },
    Read {
        shows: "a request's code",
        code: 9,
        body: b"\x0a\x01b",
        unchanged: Err(MsgFault::UnknownCode),
    },
    Read {
        shows: "the code 255",
        code: 255,
        body: b"",
        unchanged: Err(MsgFault::UnknownCode),
    },
    Read {
        shows: "a content of a get that is cut short",
        code: 10,
        body: b"\x0a\x03\x0a\x02v",
        unchanged: Err(MsgFault::BadMessage),
    },
    Read {
        shows: "a content of a put without its length",
        code: 12,
        body: b"\x0a",
        unchanged: Err(MsgFault::BadMessage),
    },
    Read {
        shows: "another node's text, with its number",
        code: 0,
        body: b"\x0a\x08overload\x10\x01",
        unchanged: Err(MsgFault::BadMessage),
    },
    Read {
        shows: "another node's text without its number",
        code: 0,
        body: b"\x0a\x08overload",
        unchanged: Err(MsgFault::BadMessage),
    },
    Read {
        shows: "a text without its number",
        code: 0,
        body: b"\x0a\x09bad frame",
        unchanged: Err(MsgFault::MissingField),
    },
    Read {
        shows: "a number without a text",
        code: 0,
        body: b"\x10\x01",
        unchanged: Err(MsgFault::MissingField),
    },
    Read {
        shows: "a content without a value",
        code: 10,
        body: b"\x0a\x03\x12\x01t",
        unchanged: Err(MsgFault::MissingField),
    },
    Read {
        shows: "a bad second content comes before the value that the first lacks",
        code: 10,
        body: b"\x0a\0\x0a\x01\x0a",
        unchanged: Err(MsgFault::BadMessage),
    },
];

/// Reads a reply, and a second time where memory was refused: then the answer is the same as it would have been.
fn read_again(alloc: Global, code: u8, body: &[u8]) -> Result<Reply, MsgFault> {
    match read_reply(alloc, code, body) {
        Err(MsgFault::NoMemory) => read_reply(alloc, code, body),
        other => other,
    }
}

fn is_read(read: &Result<Reply, MsgFault>, want: Result<bool, MsgFault>) -> bool {
    match read {
        Ok(Reply::Get(reply)) => {
            want == Ok(reply.unchanged) && reply.contents.is_empty() && reply.context.is_empty()
        }
        Ok(_) => false,
        Err(fault) => want == Err(*fault),
    }
}

fn reads(alloc: Global, row: &Read) -> bool {
    let read = read_again(alloc, row.code, row.body);
    let is_so = is_read(&read, row.unchanged);
    let_go(read);
    is_so
}

#[test]
fn a_client_reads_bools_and_faults(rt: HostRuntime) {
    for row in READS {
        assert!(rt; reads(rt.alloc(), row), "{}", row.shows);
    }
}

//! Streams of frames, cut and fed in any pieces, and frames made of messages.

use pb_frame::{FrameFault, Framer, MAX_REQUEST_LEN, frame_of};
use std::alloc::{AllocError, Global};

/// A ping, and a get of the key "k" in the bucket "b".
const TWO_FRAMES: &[u8] = &[0, 0, 0, 1, 1, 0, 0, 0, 7, 9, 0x0a, 1, b'b', 0x12, 1, b'k'];

/// The get's body.
const GET: &[u8] = &[0x0a, 1, b'b', 0x12, 1, b'k'];

/// The greatest length of a reply's frame that a client takes: 256 MiB.
const MAX_REPLY_LEN: u32 = 268_435_456;

/// What is done to a framer, and what comes of it.
enum Step {
    /// A piece is fed.
    Feed(&'static [u8]),
    /// Pieces of zeros are fed: so many, each so long.
    Zeros(u32, usize),
    /// Frames of one byte's body are fed, so many in one piece.
    Small(u32),
    /// A piece is not fed, for this fault.
    Refuse(&'static [u8], FrameFault),
    /// A frame of this code and body is taken.
    Take(u8, &'static [u8]),
    /// What is taken: a frame whose body is so long, none yet, or a fault.
    Length(Result<Option<usize>, FrameFault>),
    /// A zero is fed and then this taken, so many times.
    Turns(u32, Option<usize>),
    /// So many bytes wait.
    Waiting(usize),
}

use Step::{Feed, Length, Refuse, Small, Take, Turns, Waiting, Zeros};

/// What is done to a framer of this limit.
struct Stream {
    shows: &'static str,
    limit: u32,
    steps: &'static [Step],
}

/// Feeds, once more where memory was refused. What was refused has changed nothing.
fn feeds(framer: &mut Framer, piece: &[u8]) -> bool {
    let before = framer.rest();
    match framer.feed(piece) {
        Ok(()) => true,
        Err(fault) => {
            fault == FrameFault::NoMemory && framer.rest() == before && framer.feed(piece).is_ok()
        }
    }
}

/// The next frame has this code and this body.
fn takes(framer: &mut Framer, code: u8, body: &[u8]) -> bool {
    match framer.take() {
        Ok(Some(frame)) => frame.code == code && frame.body == body,
        _ => false,
    }
}

/// How long the body of the next frame is.
fn body_len(framer: &mut Framer) -> Result<Option<usize>, FrameFault> {
    match framer.take()? {
        Some(frame) => Ok(Some(frame.body.len())),
        None => Ok(None),
    }
}

/// Feeds so many pieces, each of so many zeros.
fn feeds_zeros(framer: &mut Framer, alloc: Global, times: u32, count: usize) -> bool {
    let Ok(zeros) = vec![in alloc; 0u8; count] else {
        return false;
    };
    for _ in 0..times {
        if !feeds(framer, &zeros) {
            return false;
        }
    }
    true
}

/// So many frames of one byte's body.
fn small_frames(alloc: Global, count: u32) -> Result<Vec<u8>, AllocError> {
    let mut bytes = Vec::new(alloc);
    for _ in 0..count {
        bytes.extend_from_slice(&[0, 0, 0, 2, 9, 5])?;
    }
    Ok(bytes)
}

fn feeds_small(framer: &mut Framer, alloc: Global, count: u32) -> bool {
    match small_frames(alloc, count) {
        Ok(bytes) => feeds(framer, &bytes),
        Err(_) => false,
    }
}

/// Feeds a zero and takes what is wanted, so many times.
fn takes_in_turn(framer: &mut Framer, times: u32, want: Option<usize>) -> bool {
    for _ in 0..times {
        if framer.feed(&[0]).is_err() || body_len(framer) != Ok(want) {
            return false;
        }
    }
    true
}

/// A step does what it names.
fn does(framer: &mut Framer, alloc: Global, step: &Step) -> bool {
    match step {
        Feed(piece) => feeds(framer, piece),
        Zeros(times, count) => feeds_zeros(framer, alloc, *times, *count),
        Small(count) => feeds_small(framer, alloc, *count),
        Refuse(piece, fault) => framer.feed(piece) == Err(*fault),
        Take(code, body) => takes(framer, *code, body),
        Length(want) => body_len(framer) == *want,
        Turns(times, want) => takes_in_turn(framer, *times, *want),
        Waiting(count) => framer.rest() == *count,
    }
}

/// Each step of a stream does what it names.
fn passes(alloc: Global, stream: &Stream) -> bool {
    let mut framer = Framer::new(alloc, stream.limit);
    for step in stream.steps {
        if !does(&mut framer, alloc, step) {
            return false;
        }
    }
    true
}

/// Streams of which each piece is fed again where memory was refused, which has changed nothing. They are run with each
/// allocation refused in turn: `rt try --test --fail-alloc N`, for N from 1 up.
const STREAMS: &[Stream] = &[
    Stream {
        shows: "less than the four length bytes is no frame yet",
        limit: MAX_REQUEST_LEN,
        steps: &[Feed(&[0, 0, 1]), Length(Ok(None)), Waiting(3)],
    },
    Stream {
        shows: "after a frame a bad length stays at the front, which no call changes",
        limit: 100,
        steps: &[
            Feed(&[0, 0, 0, 2, 9, 5, 0, 0, 0, 0, 7]),
            Take(9, &[5]),
            Length(Err(FrameFault::Empty)),
            Refuse(&[1], FrameFault::Empty),
            Waiting(5),
            Length(Err(FrameFault::Empty)),
            Refuse(&[1], FrameFault::Empty),
            Waiting(5),
            Length(Err(FrameFault::Empty)),
            Refuse(&[1], FrameFault::Empty),
            Waiting(5),
        ],
    },
    Stream {
        shows: "both frames are taken, and then the length of 0 behind them",
        limit: MAX_REQUEST_LEN,
        steps: &[
            Feed(TWO_FRAMES),
            Feed(&[0; 100]),
            Waiting(116),
            Take(1, b""),
            Take(9, GET),
            Length(Err(FrameFault::Empty)),
            Waiting(100),
        ],
    },
];

#[test]
fn refused_memory_changes_nothing(rt: HostRuntime) {
    for stream in STREAMS {
        assert!(rt; passes(rt.alloc(), stream), "{}", stream.shows);
    }
}

/// Four length bytes, and then a code and zeros. Replies may be longer than any request.
const LENGTHS: &[Stream] = &[
    Stream {
        shows: "a length of 0",
        limit: MAX_REQUEST_LEN,
        steps: &[Feed(&[0, 0, 0, 0]), Length(Err(FrameFault::Empty))],
    },
    Stream {
        shows: "no byte of one",
        limit: MAX_REQUEST_LEN,
        steps: &[Feed(&[0, 0, 0, 1]), Feed(&[]), Length(Ok(None))],
    },
    Stream {
        shows: "a code alone",
        limit: MAX_REQUEST_LEN,
        steps: &[Feed(&[0, 0, 0, 1]), Feed(&[0]), Length(Ok(Some(0)))],
    },
    Stream {
        shows: "a byte less than the longest request",
        limit: MAX_REQUEST_LEN,
        steps: &[
            Feed(&[0, 0x10, 0, 0]),
            Zeros(1, 1_048_575),
            Length(Ok(None)),
        ],
    },
    Stream {
        shows: "the longest request",
        limit: MAX_REQUEST_LEN,
        steps: &[
            Feed(&[0, 0x10, 0, 0]),
            Zeros(1, 1_048_576),
            Length(Ok(Some(1_048_575))),
        ],
    },
    Stream {
        shows: "a byte more than the longest request",
        limit: MAX_REQUEST_LEN,
        steps: &[Feed(&[0, 0x10, 0, 1]), Length(Err(FrameFault::TooLarge))],
    },
    Stream {
        shows: "the greatest length",
        limit: MAX_REQUEST_LEN,
        steps: &[Feed(&[255; 4]), Length(Err(FrameFault::TooLarge))],
    },
    Stream {
        shows: "a reply of 2 MiB",
        limit: MAX_REPLY_LEN,
        steps: &[
            Feed(&[0, 0x20, 0, 0]),
            Zeros(2, 1_048_576),
            Length(Ok(Some(2_097_151))),
        ],
    },
    Stream {
        shows: "a MiB less than the longest reply",
        limit: MAX_REPLY_LEN,
        steps: &[
            Feed(&[0x10, 0, 0, 0]),
            Zeros(255, 1_048_576),
            Length(Ok(None)),
        ],
    },
    Stream {
        shows: "the longest reply",
        limit: MAX_REPLY_LEN,
        steps: &[
            Feed(&[0x10, 0, 0, 0]),
            Zeros(256, 1_048_576),
            Length(Ok(Some(268_435_455))),
        ],
    },
    Stream {
        shows: "a byte more than the longest reply",
        limit: MAX_REPLY_LEN,
        steps: &[Feed(&[0x10, 0, 0, 1]), Length(Err(FrameFault::TooLarge))],
    },
];

#[test]
fn lengths_are_1_to_the_limit(rt: HostRuntime) {
    for stream in LENGTHS {
        assert!(rt; passes(rt.alloc(), stream), "{}", stream.shows);
    }
}

/// Where a feed or a take touched or moved each time what is there already, the first would take a quarter of an hour and
/// the second many minutes.
const IN_TURN: &[Stream] = &[
    Stream {
        shows: "a byte is fed behind 12 MB of frames, and one of them taken",
        limit: 100,
        steps: &[
            Small(2_000_000),
            Turns(2_000_000, Some(1)),
            Length(Err(FrameFault::Empty)),
            Waiting(2_000_000),
        ],
    },
    Stream {
        shows: "a frame of 4 MiB is fed a byte at a time, and whole at its last",
        limit: 4_194_304,
        steps: &[
            Feed(&[0, 0x40, 0, 0]),
            Turns(4_194_303, None),
            Feed(&[0]),
            Length(Ok(Some(4_194_303))),
        ],
    },
];

#[test]
fn takes_and_feeds_in_turn(rt: HostRuntime) {
    for stream in IN_TURN {
        assert!(rt; passes(rt.alloc(), stream), "{}", stream.shows);
    }
}

/// The code and body of both frames, and where each ends.
const ENDS: &[(u8, &[u8], usize)] = &[(1, b"", 5), (9, GET, 16)];

/// The bytes up to a place are fed behind those up to another, and the frames that end in them taken.
fn comes(framer: &mut Framer, from: usize, to: usize) -> bool {
    if framer
        .feed(TWO_FRAMES.get(from..to).unwrap_or(&[]))
        .is_err()
    {
        return false;
    }
    for (code, body, end) in ENDS {
        if from < *end && *end <= to && !takes(framer, *code, body) {
            return false;
        }
    }
    body_len(framer) == Ok(None)
}

/// Both frames come whole, cut at these places.
fn come_whole(alloc: Global, cuts: &[usize]) -> bool {
    let mut framer = Framer::new(alloc, MAX_REQUEST_LEN);
    let mut from = 0usize;
    for cut in cuts {
        if !comes(&mut framer, from, *cut) {
            return false;
        }
        from = *cut;
    }
    comes(&mut framer, from, 16) && framer.rest() == 0
}

/// Behind each byte but the last.
const EACH_BYTE: &[usize] = &[1, 2, 3, 4, 5, 6, 7, 8, 9, 10, 11, 12, 13, 14, 15];

#[test]
fn any_cut_gives_both_frames(rt: HostRuntime) {
    assert!(rt; come_whole(rt.alloc(), EACH_BYTE), "cut behind each byte");
    for first in 0..=16usize {
        for second in first..=16usize {
            let whole = come_whole(rt.alloc(), &[first, second]);
            assert!(rt; whole, "cut at {first} and {second}");
        }
    }
}

/// Makes a frame, once more where memory was refused.
fn frame_again(alloc: Global, code: u8, body: &[u8]) -> Result<Vec<u8>, FrameFault> {
    match frame_of(alloc, code, body) {
        Err(FrameFault::NoMemory) => frame_of(alloc, code, body),
        made => made,
    }
}

/// Such a frame has these bytes.
fn makes(alloc: Global, code: u8, body: &[u8], want: Option<&[u8]>) -> bool {
    match frame_again(alloc, code, body) {
        Ok(frame) => Some(frame.as_slice()) == want,
        Err(_) => false,
    }
}

#[test]
fn refused_memory_makes_no_frame(rt: HostRuntime) {
    let is_made = makes(rt.alloc(), 9, GET, TWO_FRAMES.get(5..));
    assert!(rt; is_made);
}

//! How many of the frames that are written behind a buffer went out.

ghost use Rattle.std.specs.Prelude.{◌<◌, length, IfSome};

use std::io;
use std::io::Write;

/// Where a stream of frames stands.
#[derive(Clone, Copy)]
enum Place {
    /// In the four bytes of a frame's length: how many of them have gone, and the number that these make.
    Length { bytes: u8, number: u32 },
    /// In the bytes of the frame behind its length, of which so many are left, one at least.
    Content { left: u32 },
}

/// The beginning of a frame.
const FRAME_START: Place = Place::Length {
    bytes: 0,
    number: 0,
};

/// What of a stream of frames has gone out: how many of them whole, and where it stands.
#[derive(Drop)]
struct FramesOut {
    whole: u64,
    place: Place,
}

impl FramesOut {
    /// Goes on to where so many bytes of a frame are left, behind its length.
    fn go_on(&mut self, left: u32) {
        if left == 0 {
            self.whole = self.whole.saturating_add(1);
            self.place = FRAME_START;
        } else {
            self.place = Place::Content { left };
        }
    }

    /// Takes note of a byte of a frame's length, behind so many, which make this number.
    fn note_length(&mut self, bytes: u8, number: u32, byte: u8) {
        let number = number.wrapping_mul(256).wrapping_add(u32::from(byte));
        if bytes >= 3 {
            self.go_on(number);
        } else {
            self.place = Place::Length {
                bytes: bytes + 1,
                number,
            };
        }
    }

    /// Takes note of a frame that these bytes begin with, where they have it whole and one begins there. What is behind it then.
    #[inline(always)]
    fn note_whole<'a>(&mut self, bytes: &'a [u8]) -> Option<&'a [u8]>
        ensures shorter { IfSome result (λ rest. length rest.now < length bytes.now) }
    {
        let Place::Length { bytes: 0, .. } = self.place else {
            return None;
        };
        let (number, behind) = bytes.split_first_chunk::<4>()?;
        let rest = behind.get(u32::from_be_bytes(*number) as usize..)?;
        self.whole = self.whole.saturating_add(1);
        Some(rest)
    }

    /// Takes note of bytes that went out.
    fn note(&mut self, bytes: &[u8]) {
        let mut rest = bytes;
        while let Some((first, more)) = rest.split_first() {
            if let Some(behind) = self.note_whole(rest) {
                rest = behind;
                continue;
            }
            match self.place {
                Place::Length { bytes, number } => {
                    self.note_length(bytes, number, *first);
                    rest = more;
                }
                Place::Content { left } => {
                    let passed = rest.len().min(left as usize).max(1);
                    self.go_on(left.saturating_sub(passed as u32));
                    rest = &rest[passed..];
                }
            }
        }
    }
}

/// A writer of frames, which counts those that it took whole. It stands behind a buffer: a session counts the replies that it gave to that buffer,
/// of which some haven't gone out where a write fails.
#[derive(Drop)]
pub(crate) struct FrameCounter<W> {
    writer: W,
    out: FramesOut,
}

impl<W> FrameCounter<W> {
    /// It has taken nothing.
    pub(crate) fn new(writer: W) -> FrameCounter<W> {
        FrameCounter {
            writer,
            out: FramesOut {
                whole: 0,
                place: FRAME_START,
            },
        }
    }

    /// How many frames it took whole.
    pub(crate) fn whole(&self) -> u64 {
        self.out.whole
    }
}

impl<W: Write> Write for FrameCounter<W> {
    ghost contents = { λ counter. W.contents counter.writer };

    fn write(&mut self, buf: &[u8]) -> io::Result<usize> {
        let taken = self.writer.write(buf)?;
        self.out.note(&buf[..taken]);
        Ok(taken)
    }

    fn flush(&mut self) -> io::Result<()> {
        self.writer.flush()
    }
}

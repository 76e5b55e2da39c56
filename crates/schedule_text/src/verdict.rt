//! The verdict of a comparison, and its line.

ghost use Rattle.std.specs.Prelude.{◌≡◌, IfOk};
ghost use Rattle.schedule_text.specs.Verdicts.{verdict_line, verdict_after};

use itoa::Buffer;
use std::alloc::{AllocError, Global};

/// The verdict of the comparison of a run with a plain register.
#[derive(Clone, Copy, Debug, Drop, PartialEq, Eq)]
pub enum Verdict {
    /// Every reply is that of the registers.
    Equal,
    /// The reply of this line is the first that isn't.
    DiffersAt(u64),
    /// A call gave a context of the right form that no earlier reply had shown for its key.
    NotCompared,
}

impl Verdict {
    /// The verdict after the answer of one line more, by whether it is the register's: the first difference stays.
    pub(crate) fn after(self, line: u64, is_due: bool) -> Verdict
        ensures { result ≡ verdict_after line self is_due }
    {
        match self {
            Verdict::Equal if !is_due => Verdict::DiffersAt(line),
            verdict => verdict,
        }
    }
}

/// The last line of a run: `plain equal`, `plain differs at line N` or `plain not compared`, and a line feed.
///
/// It is refused where memory is.
pub fn write_verdict(alloc: Global, verdict: Verdict) -> Result<Vec<u8>, AllocError>
    ensures line { IfOk result (λ line. line.items ≡ verdict_line verdict) }
{
    match verdict {
        Verdict::Equal => Vec::from_slice(alloc, b"plain equal\n"),
        Verdict::NotCompared => Vec::from_slice(alloc, b"plain not compared\n"),
        Verdict::DiffersAt(number) => {
            let mut buffer = Buffer::new();
            let mut line = Vec::from_slice(alloc, b"plain differs at line ")?;
            line.extend_from_slice(buffer.format(number).as_bytes())?;
            line.extend_from_slice(b"\n")?;
            Ok(line)
        }
    }
}

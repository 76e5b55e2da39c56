//! What a session reads from.

use std::collections::LinkedList;
use std::io;
use std::io::ErrorKind;

/// What came of a read, as clauses see it: no value of it is made.
pub enum ReadNote {
    /// It gave these bytes; none at the end of the input.
    Bytes(LinkedList<u8>),
    /// It failed.
    Failed(ErrorKind),
}

/// A reader that notes, for clauses alone, what its reads gave and of which connection it is.
///
/// Over a socket nobody knows the bytes before they were read. So what a clause says of them there, it
/// says of the notes: they are all that the session got, in order, and nothing else is.
pub trait Source {
    ghost use Rattle.std.specs.Prelude.{◌≡◌, ◌<◌, [], ◌∷◌, length, IfOk};
    ghost use Rattle.std.specs.Io.{ReadsAtMost};
    ghost use Rattle.std.specs.Io.KnownBytes.{IsAtEnd};
    ghost use Rattle.node_session.specs.Streams.{SourceView, Gave, note_of};

    ghost source: { Self → SourceView };

    /// Reads once, as `Read::read` does: how many bytes it put into the beginning of `buf`, none only at
    /// the end of the input or where `buf` is empty. An `Err` is the reader's, and gives no byte.
    fn receive(&mut self, buf: &mut [u8]) -> io::Result<usize>
        ensures bound { ReadsAtMost result buf.new }
        ensures gave { Gave (source self.old) (source self.new) (note_of result buf.new ∷ []) }
        ensures end { IfOk result (λ n. n ≡ 0 → 0 < length buf.new
            → IsAtEnd (source self.new).unread) };
}

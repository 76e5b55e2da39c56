//! What a session writes to.

use std::io;

/// A writer that tells clauses what it holds back of what it took, and of which connection it is.
pub trait Target {
    ghost use Rattle.std.specs.Prelude.{◌≡◌, ◌≤◌, [], length, IfOk, OnOk};
    ghost use Rattle.node_session.specs.Streams.{TargetView, Holds, Takes};

    ghost target: { Self → TargetView };

    /// Takes some of the bytes, from the first on: how many. An `Err` is the writer's, and takes none.
    fn send(&mut self, bytes: &[u8]) -> io::Result<usize>
        ensures bound { IfOk result (λ n. n ≤ length bytes.now) }
        ensures takes { Takes (target self.old) (target self.new) result bytes.now };

    /// Hands on all that it holds back. An `Err` is the writer's.
    fn flush(&mut self) -> io::Result<()>
        ensures holds { Holds (target self.old) (target self.new) }
        ensures all { OnOk result ((target self.new).waiting ≡ []) };
}

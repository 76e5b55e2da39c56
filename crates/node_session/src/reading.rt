//! What a session reads at once.
ghost use Rattle.std.specs.Prelude.{◌≡◌, ◌+◌, ◌-◌, ◌*◌, ◌<◌, ◌≤◌, ℕ, [], ◌∷◌, length, IfSome};
ghost use Rattle.std.specs.Prelude.{IfNone};
ghost use Rattle.std.specs.Int.{div_ceil};
ghost use Rattle.node_session.specs.Stages.{Goes, Fits, weight};
ghost use Rattle.node_session.specs.Streams.{Gave, TargetView, blocked};
ghost use Rattle.node_session.specs.Limits.{max_read_len};
ghost use Rattle.node_session.specs.Views.{CanFollow};
ghost use Rattle.node_session.specs.declared.stage.Stage.TheVariants.{Reading};

use crate::ended::Ended;
use crate::fault::SessionFault;
use crate::node::Node;
use crate::serving::MAX_READ_LEN;
use crate::session::Session;
use crate::stage::Stage;
use crate::transport::Transport;
use std::alloc::Global;
use std::io::ErrorKind;

/// How many bytes a long read takes, at most.
pub(crate) const LONG_READ_LEN: usize = 65_536;

/// How many reads one counts for that gave so many bytes: one for each 4,096 of them, begun or whole.
#[inline(always)]
fn reads_for(bytes: usize) -> u64
    ensures is { result ≡ div_ceil bytes max_read_len }
    ensures bound { bytes ≤ 4096 * result }
    ensures least { (count : ℕ) → bytes ≤ 4096 * count → result ≤ count }
{
    bytes.div_ceil(MAX_READ_LEN) as u64
}

impl Session {
    /// Reads once into this buffer, and takes what comes, which this node will answer, where it has no
    /// room into what is lent. None where the reader would have to wait.
    #[inline(always)]
    pub(crate) fn read<N: Node, T: Transport<R, W>, R, W>(
        &mut self,
        alloc: Global,
        reader: &mut R,
        node: &N,
        piece: &mut [u8],
        requests: &mut Vec<u8>,
    ) -> Option<Stage>
        requires fits { Fits Reading self.old }
        requires some { 0 < length piece.old }
        requires follows { CanFollow self.old.buffers.rest (length piece.old) }
        requires counted { length piece.old ≤ 4096 * (self.old.most - self.old.made) }
        ensures goes { IfSome result (λ stage. (now : N) (target : TargetView) → Goes N.step
            now now (T.source reader.old) (T.source reader.new) target target
            Reading self.old stage self.new) }
        ensures fits { IfSome result (λ stage. Fits stage self.new) }
        ensures less { IfSome result (λ stage.
            weight stage self.new < weight Reading self.old) }
        ensures most { self.new.most ≡ self.old.most }
        ensures waits { IfNone result ((self.new ≡ self.old)
            × Gave (T.source reader.old) (T.source reader.new) (blocked ∷ [])) }
    {
        self.buffers.is_read();
        match T::receive(reader, piece) {
            Ok(0) => Some(Stage::Over(Ok(Ended {
                replies: self.replies,
                rest: self.buffers.rest(),
            }))),
            Ok(n) => {
                self.made += reads_for(n);
                self.buffers.lend(requests, n);
                let Ok(()) = self.buffers.feed_for(alloc, node, &piece[..n]) else {
                    return Some(Stage::Closing(SessionFault::NoMemory(self.replies)));
                };
                Some(Stage::Answering)
            }
            Err(error) => match error.kind() {
                ErrorKind::WouldBlock => None,
                ErrorKind::Interrupted => {
                    self.made += 1;
                    Some(Stage::Flushing)
                }
                _ => Some(Stage::Over(Err(SessionFault::ReadFailed(self.replies)))),
            },
        }
    }

    /// Reads once: of a message that lacks more than 4,096 bytes as many of these as a long read takes,
    /// where there is a buffer for it; else as much as there is room for in what is lent, or what a page
    /// holds, and 4,096 bytes at most.
    #[inline(always)]
    pub(crate) fn read_some<N: Node, T: Transport<R, W>, R, W>(
        &mut self,
        alloc: Global,
        reader: &mut R,
        node: &N,
        piece: &mut [u8],
        long_piece: &mut Vec<u8>,
        requests: &mut Vec<u8>,
    ) -> Option<Stage>
        requires fits { Fits Reading self.old }
        requires room { length piece.old ≡ max_read_len }
        ensures goes { IfSome result (λ stage. (now : N) (target : TargetView) → Goes N.step
            now now (T.source reader.old) (T.source reader.new) target target
            Reading self.old stage self.new) }
        ensures fits { IfSome result (λ stage. Fits stage self.new) }
        ensures less { IfSome result (λ stage.
            weight stage self.new < weight Reading self.old) }
        ensures most { self.new.most ≡ self.old.most }
        ensures waits { IfNone result ((self.new ≡ self.old)
            × Gave (T.source reader.old) (T.source reader.new) (blocked ∷ [])) }
    {
        let wanted = self.buffers.missing().min(long_piece.len());
        if wanted > MAX_READ_LEN && reads_for(wanted) <= self.most - self.made {
            return self.read_long::<N, T, R, W>(alloc, reader, node, long_piece, wanted, requests);
        }
        let len = self.buffers.reading_len(requests);
        self.read::<N, T, R, W>(alloc, reader, node, &mut piece[..len], requests)
    }

    /// Reads so much at once, as `read` does, apart from the way of short messages.
    #[inline(never)]
    fn read_long<N: Node, T: Transport<R, W>, R, W>(
        &mut self,
        alloc: Global,
        reader: &mut R,
        node: &N,
        long_piece: &mut Vec<u8>,
        len: usize,
        requests: &mut Vec<u8>,
    ) -> Option<Stage>
        requires fits { Fits Reading self.old }
        requires some { (0 < len) × (len ≤ length long_piece.old.items) }
        requires follows { CanFollow self.old.buffers.rest len }
        requires counted { len ≤ 4096 * (self.old.most - self.old.made) }
        ensures goes { IfSome result (λ stage. (now : N) (target : TargetView) → Goes N.step
            now now (T.source reader.old) (T.source reader.new) target target
            Reading self.old stage self.new) }
        ensures fits { IfSome result (λ stage. Fits stage self.new) }
        ensures less { IfSome result (λ stage.
            weight stage self.new < weight Reading self.old) }
        ensures most { self.new.most ≡ self.old.most }
        ensures waits { IfNone result ((self.new ≡ self.old)
            × Gave (T.source reader.old) (T.source reader.new) (blocked ∷ [])) }
    {
        self.read::<N, T, R, W>(alloc, reader, node, &mut long_piece[..len], requests)
    }
}

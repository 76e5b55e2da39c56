//! A session in steps.
ghost use Rattle.std.specs.Prelude.{◌≡◌, ◌<◌, ◌≤◌, [], None, length, true, false};
ghost use Rattle.std.specs.Prelude.{IfNone, IfSome};
ghost use Rattle.pb_frame.specs.Limits.{max_request_len};
ghost use Rattle.pb_frame.specs.Message.{IsPartial};
ghost use Rattle.node_session.specs.Views.{nothing_read};
ghost use Rattle.node_session.specs.Stages.{Came, IsOverBy, Goes, Fits, IsGoing, CanWait, IsOver};
ghost use Rattle.node_session.specs.Stages.{weight, Waits};
ghost use Rattle.node_session.specs.Streams.{SourceView, TargetView, Holds};
ghost use Rattle.node_session.specs.declared.stage.Stage.TheVariants.{Answering, Sending, Telling};
ghost use Rattle.node_session.specs.declared.stage.Stage.TheVariants.{Flushing, Reading, Closing};
ghost use Rattle.node_session.specs.declared.stage.Stage.TheVariants.{Over};

use crate::buffers::{Buffers, Next};
use crate::ended::Ended;
use crate::fault::SessionFault;
use crate::node::Node;
use crate::scratch::Scratch;
use crate::stage::Stage;
use crate::transport::{Flushed, Sent, Transport, try_flush, try_send};
use std::alloc::Global;

/// A session in steps, which knows neither its streams nor its node: these are lent to each step, and so
/// is the room for what it reads and replies.
///
/// ```text
/// let mut session = Session::new(alloc, 1000);                            // 1,000 reads at most
/// session.step(alloc, &mut reader, &mut writer, &mut node, &mut scratch, true)  // false: nothing has come, so it flushes; then it reads, answers, writes
/// session.step(alloc, &mut reader, &mut writer, &mut node, &mut scratch, true)  // true, once a stream would have to wait: call again when it is ready,
/// session.step(alloc, &mut reader, &mut writer, &mut node, &mut scratch, false) // or end the session there
/// session.outcome()                                                           // Some(Err(SessionFault::ReadFailed(0)))
/// ```
#[derive(Drop)]
pub struct Session {
    /// What was read and isn't answered, and what is answered and isn't sent.
    pub buffers: Buffers,
    /// What it does next.
    pub stage: Stage,
    /// How many replies were written whole.
    pub replies: u64,
    /// How many reads were made.
    pub made: u64,
    /// How many reads are made at most.
    pub most: u64,
}

impl Session {
    /// Nothing was read yet, and so many reads are made at most. It takes no memory.
    pub fn new(alloc: Global, most: u64) -> Session
        ensures { result ≡ record {
          buffers = nothing_read;
          stage = Answering;
          replies = 0;
          made = 0;
          most = most;
        } }
    {
        Session {
            buffers: Buffers::new(alloc),
            stage: Stage::Answering,
            replies: 0,
            made: 0,
            most,
        }
    }

    /// What came of it, once it is over.
    #[inline(always)]
    pub fn outcome(&self) -> Option<Result<Ended, SessionFault>>
        ensures over { IfSome result (λ outcome. self.now.stage ≡ Over outcome) }
        ensures is_over { IfSome result (λ _. IsOver self.now.stage) }
        ensures going { IfNone result (IsGoing self.now.stage) }
    {
        match self.stage {
            Stage::Over(result) => Some(result),
            _ => None,
        }
    }

    /// Takes one step: it answers one message, or calls one stream once. True where that stream would
    /// have to wait, and may: then nothing is done. Where it may not, that counts as a failure of the
    /// stream.
    #[inline(always)]
    pub fn step<N: Node, T: Transport<R, W>, R, W>(
        &mut self,
        alloc: Global,
        reader: &mut R,
        writer: &mut W,
        node: &mut N,
        scratch: &mut Scratch,
        may_wait: bool,
    ) -> bool
        requires going { IsGoing self.old.stage }
        requires fits { Fits self.old.stage self.old }
        ensures goes { Goes N.step node.old node.new
            (T.source reader.old) (T.source reader.new)
            (T.target writer.old) (T.target writer.new)
            self.old.stage self.old self.new.stage self.new }
        ensures fits { Fits self.new.stage self.new }
        ensures less { result ≡ false
            → weight self.new.stage self.new < weight self.old.stage self.old }
        ensures waits { may_wait ≡ false → result ≡ false }
        ensures still { result ≡ true → self.new ≡ self.old }
        ensures most { self.new.most ≡ self.old.most }
    {
        match self.advance::<N, T, R, W>(alloc, reader, writer, node, scratch) {
            Some(stage) => {
                self.stage = stage;
                false
            }
            None => {
                if !may_wait {
                    let result = self.outcome_of_waiting::<N>();
                    self.stage = Stage::Over(result);
                }
                may_wait
            }
        }
    }

    /// Lets it go, and gives back the room that was lent to it: where a session is over before all of its
    /// reply was sent.
    pub fn end(self, scratch: &mut Scratch) {
        let Session {
            buffers,
            stage: _,
            replies: _,
            made: _,
            most: _,
        } = self;
        buffers.end(scratch);
    }

    /// Answers the next message, if one has come whole.
    #[inline(always)]
    fn answer<N: Node>(&mut self, alloc: Global, node: &mut N, scratch: &mut Scratch) -> Stage
        requires { Fits Answering self.old }
        ensures goes { (source : SourceView) (target : TargetView) → Goes N.step node.old node.new
            source source target target Answering self.old result self.new }
        ensures fits { Fits result self.new }
        ensures less { weight result self.new < weight Answering self.old }
        ensures most { self.new.most ≡ self.old.most }
    {
        self.buffers.is_read();
        self.buffers.give_back(scratch);
        match self.buffers.answer_next(alloc, node, scratch) {
            Next::Answered => Stage::Sending,
            Next::Idle => Stage::Flushing,
            Next::BadFrame => Stage::Telling,
            Next::Lost => Stage::Closing(SessionFault::NoMemory(self.replies)),
        }
    }

    /// Writes some of the reply to the last message; once all of it is written, the next one may be
    /// answered. None where the writer would have to wait.
    #[inline(always)]
    fn send<N: Node, T: Transport<R, W>, R, W>(&mut self, writer: &mut W) -> Option<Stage>
        requires { Fits Sending self.old }
        ensures goes { IfSome result (λ stage. (now : N) (source : SourceView) → Goes N.step
            now now source source (T.target writer.old) (T.target writer.new)
            Sending self.old stage self.new) }
        ensures fits { IfSome result (λ stage. Fits stage self.new) }
        ensures less { IfSome result (λ stage.
            weight stage self.new < weight Sending self.old) }
        ensures most { self.new.most ≡ self.old.most }
        ensures waits { IfNone result ((self.new ≡ self.old)
            × Holds (T.target writer.old) (T.target writer.new)
            × (0 < length self.new.buffers.unsent)) }
    {
        self.buffers.is_read();
        match try_send::<T, R, W>(writer, self.buffers.pending()) {
            Sent::Bytes(n) => {
                self.buffers.sent(n);
                if self.buffers.waiting() > 0 {
                    return Some(Stage::Sending);
                }
                self.replies = self.replies.saturating_add(1);
                Some(Stage::Answering)
            }
            Sent::Blocked => None,
            Sent::Failed => Some(Stage::Over(Err(SessionFault::WriteFailed(self.replies)))),
        }
    }

    /// Writes some of the error for a bad length. None where the writer would have to wait.
    fn tell<N: Node, T: Transport<R, W>, R, W>(&mut self, writer: &mut W) -> Option<Stage>
        ensures goes { IfSome result (λ stage. (now : N) (source : SourceView) → Goes N.step
            now now source source (T.target writer.old) (T.target writer.new)
            Telling self.old stage self.new) }
        ensures fits { IfSome result (λ stage. Fits stage self.new) }
        ensures less { IfSome result (λ stage.
            weight stage self.new < weight Telling self.old) }
        ensures most { self.new.most ≡ self.old.most }
        ensures waits { IfNone result ((self.new ≡ self.old)
            × Holds (T.target writer.old) (T.target writer.new)
            × (0 < length self.new.buffers.unsent)) }
    {
        let replies = self.replies;
        if self.buffers.pending().is_empty() {
            return Some(Stage::Closing(SessionFault::BadFrame(replies)));
        }
        match try_send::<T, R, W>(writer, self.buffers.pending()) {
            Sent::Bytes(n) => {
                self.buffers.sent(n);
                Some(Stage::Telling)
            }
            Sent::Blocked => None,
            Sent::Failed => Some(Stage::Over(Err(SessionFault::WriteFailed(replies)))),
        }
    }

    /// Has what was written flushed, where a further read may be made. None where the writer would have to wait.
    #[inline(always)]
    fn flush<N: Node, T: Transport<R, W>, R, W>(&mut self, writer: &mut W) -> Option<Stage>
        requires { Fits Flushing self.old }
        ensures goes { IfSome result (λ stage. (now : N) (source : SourceView) → Goes N.step
            now now source source (T.target writer.old) (T.target writer.new)
            Flushing self.old stage self.new) }
        ensures fits { IfSome result (λ stage. Fits stage self.new) }
        ensures less { IfSome result (λ stage.
            weight stage self.new < weight Flushing self.old) }
        ensures most { self.new.most ≡ self.old.most }
        ensures waits { IfNone result ((self.new ≡ self.old)
            × Holds (T.target writer.old) (T.target writer.new)) }
    {
        self.buffers.is_read();
        if self.made >= self.most {
            return Some(Stage::Closing(SessionFault::TooManyReads(self.replies)));
        }
        match try_flush::<T, R, W>(writer) {
            Flushed::Done => Some(Stage::Reading),
            Flushed::Blocked => None,
            Flushed::Failed => Some(Stage::Over(Err(SessionFault::WriteFailed(self.replies)))),
        }
    }

    /// Has what was written flushed, as far as that can be done. None where the writer would have to wait.
    fn close<N: Node, T: Transport<R, W>, R, W>(
        &mut self,
        writer: &mut W,
        fault: SessionFault,
    ) -> Option<Stage>
        ensures goes { IfSome result (λ stage. (now : N) (source : SourceView) → Goes N.step
            now now source source (T.target writer.old) (T.target writer.new)
            (Closing fault) self.old stage self.new) }
        ensures fits { IfSome result (λ stage. Fits stage self.new) }
        ensures less { IfSome result (λ stage.
            weight stage self.new < weight (Closing fault) self.old) }
        ensures most { self.new.most ≡ self.old.most }
        ensures waits { IfNone result ((self.new ≡ self.old)
            × Holds (T.target writer.old) (T.target writer.new)) }
    {
        match try_flush::<T, R, W>(writer) {
            Flushed::Done => Some(Stage::Over(Err(fault))),
            Flushed::Blocked => None,
            Flushed::Failed => Some(Stage::Over(Err(fault))),
        }
    }

    /// Takes one step from a stage that isn't the last one. The stage to which it comes; None where a
    /// stream would have to wait.
    #[inline(always)]
    fn advance<N: Node, T: Transport<R, W>, R, W>(
        &mut self,
        alloc: Global,
        reader: &mut R,
        writer: &mut W,
        node: &mut N,
        scratch: &mut Scratch,
    ) -> Option<Stage>
        requires going { IsGoing self.old.stage }
        requires fits { Fits self.old.stage self.old }
        ensures goes { IfSome result (λ to. Goes N.step node.old node.new
            (T.source reader.old) (T.source reader.new)
            (T.target writer.old) (T.target writer.new)
            self.old.stage self.old to self.new) }
        ensures fits { IfSome result (λ to. Fits to self.new) }
        ensures less { IfSome result (λ to.
            weight to self.new < weight self.old.stage self.old) }
        ensures waits { IfNone result ((self.new ≡ self.old) × (node.new ≡ node.old)
            × Waits self.old.stage (T.source reader.old) (T.source reader.new)
            (T.target writer.old) (T.target writer.new)
            × CanWait self.old.stage self.new.buffers) }
        ensures most { self.new.most ≡ self.old.most }
    {
        match self.stage {
            Stage::Answering => Some(self.answer(alloc, node, scratch)),
            Stage::Sending => self.send::<N, T, R, W>(writer),
            Stage::Telling => self.tell::<N, T, R, W>(writer),
            Stage::Flushing => self.flush::<N, T, R, W>(writer),
            Stage::Reading => {
                let Scratch {
                    piece,
                    long_piece,
                    requests,
                    ..
                } = scratch;
                self.read_some::<N, T, R, W>(alloc, reader, &*node, piece, long_piece, requests)
            }
            Stage::Closing(fault) => self.close::<N, T, R, W>(writer, fault),
            Stage::Over(_) => unreachable!(),
        }
    }

    /// What comes of a session whose stream would have to wait and may not: that counts as a failure of
    /// the stream.
    fn outcome_of_waiting<N: Node>(&self) -> Result<Ended, SessionFault>
        requires { CanWait self.now.stage self.now.buffers }
        ensures { (first now : N) (source source' source'' : SourceView)
            (target target' target'' : TargetView)
            → Waits self.now.stage source' source'' target' target''
            → Came N.step first now source source' target target' self.now.stage self.now
            → IsOverBy N.step first now source source'' target target'' self.now.most result }
    {
        self.buffers.is_read();
        match self.stage {
            Stage::Answering => unreachable!(),
            Stage::Sending => Err(SessionFault::WriteFailed(self.replies)),
            Stage::Telling => Err(SessionFault::WriteFailed(self.replies)),
            Stage::Flushing => Err(SessionFault::WriteFailed(self.replies)),
            Stage::Reading => Err(SessionFault::ReadFailed(self.replies)),
            Stage::Closing(fault) => Err(fault),
            Stage::Over(_) => unreachable!(),
        }
    }
}

//! A session that goes on.
ghost use Rattle.std.specs.Prelude.{◌≡◌, ◌<◌, true, false};
ghost use Rattle.gate_node.specs.Gates.{Gates};
ghost use Rattle.node_session.specs.Stages.{IsGoing, IsOver, weight};
ghost use Rattle.worker_pool.specs.Leaving.{IsEnd, LeavesSession};
ghost use Rattle.job_pool.specs.declared.service.StepOutcome.TheVariants.{Going, Waits, Over};
ghost use Rattle.worker_pool.specs.Resuming.{RunStep};
ghost use Rattle.worker_pool.specs.PausedSessions.{PausedSessionView, StaysOver};

use crate::left::Left;
use crate::paused_session::PausedSession;
use crate::rest::Began;
use crate::run_node::{NodeParts, RunNode};
use gate_node::Turnstile;
use job_pool::StepOutcome;
use node_session::{Noted, Scratch, Session, Source, Target};
use stats_book::SessionCount;
use std::alloc::Global;
use std::marker::Model;
use std::sync::Wait;

/// A session that goes on over the gates of a run, and may be left at any time.
///
/// Contracts see its node, what it does next and has counted, its streams, and where it began; and that it has come so far since then.
pub struct OpenSession<'a, X: Wait, T: Turnstile, R: Source, W: Target> {
    pub(crate) node: RunNode<'a, X, T>,
    pub(crate) session: Session,
    pub(crate) reader: R,
    pub(crate) writer: W,
    pub(crate) origin: Began,
}

/// One call at each place where one is let go.
impl<'a, X: Wait, T: Turnstile, R: Source + Drop, W: Target + Drop> Drop
    for OpenSession<'a, X, T, R, W> {
    fn drop(self) {
        let OpenSession {
            node: _node,
            session: _session,
            reader: _reader,
            writer: _writer,
            origin: _origin,
        } = self;
    }
}

impl<'a, X: Wait, T: Turnstile, R: Source, W: Target> Model for OpenSession<'a, X, T, R, W> {
    ghost use Rattle.worker_pool.specs.PausedSessions.{OpenSessionView, IsOpen};

    ghost Value = { OpenSessionView R W };

    ghost view = { λ s. record {
      node = s.node;
      session = s.session;
      reader = s.reader;
      writer = s.writer;
      origin = s.origin;
    } };

    ghost invariant = { λ s. IsOpen R.source W.target (record {
      node = s.node;
      session = s.session;
      reader = s.reader;
      writer = s.writer;
      origin = s.origin;
    }) };
}

impl<'a, X: Wait, T: Turnstile, R: Source, W: Target> OpenSession<'a, X, T, R, W> {
    /// What its requests are read from.
    pub fn reader(&self) -> &R
        ensures { result.now ≡ self.now.reader }
    {
        &self.reader
    }

    /// What its replies are written to.
    pub fn writer(&self) -> &W
        ensures { result.now ≡ self.now.writer }
    {
        &self.writer
    }

    /// Takes one step of one that isn't over. True where a stream would have to wait, and may; then nothing was done.
    #[inline(always)]
    fn advance(&mut self, alloc: Global, scratch: &mut Scratch, may_wait: bool) -> bool
        requires { IsGoing self.old.session.stage }
        ensures stays { (shared : Gates) (session : PausedSessionView R W)
            → StaysOver shared session self.old → StaysOver shared session self.new }
        ensures less { result ≡ false → weight self.new.session.stage self.new.session
            < weight self.old.session.stage self.old.session }
        ensures still { result ≡ true → self.new.session ≡ self.old.session }
    {
        self.session.step::<_, Noted, R, W>(
            alloc,
            &mut self.reader,
            &mut self.writer,
            &mut self.node,
            scratch,
            may_wait,
        )
    }

    /// Takes one step of it: it answers one message, or calls one stream once. Where a stream would have to wait, and may not, that counts as a
    /// failure of the stream, and the session is over.
    pub fn step(&mut self, alloc: Global, scratch: &mut Scratch, may_wait: bool) -> StepOutcome
        ensures stays { (shared : Gates) (session : PausedSessionView R W)
            → StaysOver shared session self.old → StaysOver shared session self.new }
        ensures less { result ≡ Going → weight self.new.session.stage self.new.session
            < weight self.old.session.stage self.old.session }
        ensures waits { result ≡ Waits → self.new.session ≡ self.old.session }
        ensures over { result ≡ Over → IsOver self.new.session.stage }
    {
        if self.session.outcome().is_some() {
            return StepOutcome::Over;
        }
        if self.advance(alloc, scratch, may_wait) {
            StepOutcome::Waits
        } else {
            StepOutcome::Going
        }
    }

    /// Leaves it as it is: it is over, or it rests; with what it has counted since it went on. The room that was lent to one that is over goes
    /// back.
    pub fn leave(self, scratch: &mut Scratch) -> (Left<R, W>, SessionCount)
        ensures over { IsOver self.entry.session.stage → IsEnd result.0 }
        ensures left { (shared : Gates) (session : PausedSessionView R W)
            → StaysOver shared session self.entry
            → LeavesSession R.source W.target shared RunStep session
            result.1.counted result.1.book_full result.0 }
    {
        let OpenSession {
            node,
            session,
            reader,
            writer,
            origin,
        } = self;
        let over = node.over();
        let parts = node.parts();
        let NodeParts {
            count,
            passes,
            rest,
        } = parts;
        let session = PausedSession {
            session,
            reader,
            writer,
            passes,
            rest,
            origin,
            over,
        };
        (session.settle(scratch), count)
    }
}

//! A session that rests between two of its steps.
ghost use Rattle.std.specs.Prelude.{◌≡◌, false};
ghost use Rattle.stats_book.specs.Counting.{zeros};
ghost use Rattle.gate_node.specs.Passes.{ArePassesOf};
ghost use Rattle.worker_pool.specs.PausedSessions.{CanGoOn, StaysOver, begun};

use crate::kept::{KeptByWorker, kept_by};
use crate::open_session::OpenSession;
use crate::rest::{Began, Rest, SeenGates, SeenOrigin, Standing, gates_seen};
use crate::run_node::RunNode;
use gate_node::{GateNode, Passes, Shared, Turnstile};
use ghost_state::{GhostList, Listing};
use node_session::{Session, Source, Target};
use stats_book::SessionCount;
use std::alloc::Global;
use std::marker::Model;
use std::sync::Wait;

/// A session that rests between two of its steps, with its streams and its passes: one that has begun, or is to. Nobody serves it, and
/// partitions may be diverted until it goes on.
///
/// Contracts see where it began, and that it has come so far from its first read on, by a node over the gates as they were at each step.
#[derive(Drop)]
pub struct PausedSession<R: Source, W: Target> {
    pub(crate) session: Session,
    pub(crate) reader: R,
    pub(crate) writer: W,
    pub(crate) passes: Passes,
    pub(crate) rest: Rest,
    pub(crate) origin: Began,
    pub(crate) over: GhostList<SeenGates>,
}

impl<R: Source, W: Target> Model for PausedSession<R, W> {
    ghost use Rattle.std.specs.Prelude.{◌≡◌};
    ghost use Rattle.worker_pool.specs.Resuming.{gates_in};
    ghost use Rattle.worker_pool.specs.PausedSessions.{PausedSessionView, IsUnderWay};

    ghost Value = { PausedSessionView R W };

    ghost view = { λ s. record {
      origin = s.origin;
      rest = s.rest;
      over = gates_in s.over;
      session = s.session;
      reader = s.reader;
      writer = s.writer;
    } };

    ghost invariant = { λ s. (s.passes ≡ s.rest.passes)
        × IsUnderWay R.source W.target (record {
          origin = s.origin;
          rest = s.rest;
          over = gates_in s.over;
          session = s.session;
          reader = s.reader;
          writer = s.writer;
        }) };
}

/// Where a session begins that has these streams, by these passes of these gates.
struct WithStreams;

impl<'a, R: Source, W: Target> Listing<(&'a Shared, &'a Passes, &'a R, &'a W), SeenOrigin>
    for WithStreams {
    ghost use Rattle.std.specs.Prelude.{[], ◌∷◌};

    ghost list = { λ about. record {
      gates = about.0.now;
      passes = about.1.now;
      source = R.source about.2.now;
      target = W.target about.3.now;
    } ∷ [] };
}

/// Where a session begins that has these streams, by these passes of these gates.
fn began<R: Source, W: Target>(shared: &Shared, passes: &Passes, reader: &R, writer: &W) -> Began
    ensures { result ≡ record {
      gates = shared.now;
      passes = passes.now;
      source = R.source reader.now;
      target = W.target writer.now;
    } }
{
    let about = (shared, passes, reader, writer);
    Began {
        at: GhostList::listed::<(&Shared, &Passes, &R, &W), WithStreams>(&about),
    }
}

/// Where a node stands that has these passes of these gates, and has done nothing.
struct FirstPlace;

impl<'a> Listing<(&'a Shared, &'a Passes), Standing> for FirstPlace {
    ghost use Rattle.std.specs.Prelude.{[], ◌∷◌, false};
    ghost use Rattle.stats_book.specs.Counting.{zeros};

    ghost list = { λ pair. record {
      shared = pair.0.now;
      passes = pair.1.now;
      count = record { counted = zeros; book_full = false };
    } ∷ [] };
}

/// Where a session begins that has these passes of these gates.
fn first_rest(shared: &Shared, passes: &Passes) -> Rest
    ensures { result ≡ record {
      shared = shared.now;
      passes = passes.now;
      count = record { counted = zeros; book_full = false };
    } }
{
    let pair = (shared, passes);
    Rest {
        at: GhostList::listed::<(&Shared, &Passes), FirstPlace>(&pair),
    }
}

impl<R: Source, W: Target> PausedSession<R, W> {
    /// A session that is to begin over these gates, by these passes of them. It takes no memory.
    pub fn new(
        alloc: Global,
        shared: &Shared,
        passes: Passes,
        reader: R,
        writer: W,
    ) -> PausedSession<R, W>
        requires { ArePassesOf shared.now passes }
        ensures { result ≡ begun (record {
          gates = shared.now;
          passes = passes;
          source = R.source reader;
          target = W.target writer;
        }) reader writer }
    {
        PausedSession {
            session: Session::new(alloc, shared.reads()),
            rest: first_rest(shared, &passes),
            origin: began(shared, &passes, &reader, &writer),
            reader,
            writer,
            passes,
            over: gates_seen(shared),
        }
    }

    /// What its requests are read from.
    pub fn reader(&self) -> &R
        ensures { result.now ≡ self.now.reader }
    {
        &self.reader
    }

    /// What its replies are written to.
    pub fn writer(&self) -> &W
        ensures { result.now ≡ self.now.writer }
    {
        &self.writer
    }

    /// Lets it go, but for its streams.
    pub(crate) fn into_streams(self) -> (R, W)
        ensures reader { result.0 ≡ self.reader }
        ensures writer { result.1 ≡ self.writer }
    {
        let PausedSession {
            session: _session,
            reader,
            writer,
            passes: _passes,
            rest: _rest,
            origin: _origin,
            over: _over,
        } = self;
        (reader, writer)
    }

    /// It goes on over these gates, those that it rested over or what they became, and has counted nothing of them yet, with what its worker keeps,
    /// where that does. Each of its calls passes the turnstile.
    pub(crate) fn go_on<'a, X: Wait, T: Turnstile>(
        self,
        rt: &'a X,
        shared: &'a Shared,
        turnstile: &'a T,
        kept: Option<&'a KeptByWorker<'a>>,
        count: SessionCount,
    ) -> OpenSession<'a, X, T, R, W>
        requires goes { CanGoOn shared.now self }
        requires unused { count ≡ record { counted = zeros; book_full = false } }
        ensures { StaysOver shared.now self result }
    {
        let PausedSession {
            session,
            reader,
            writer,
            passes,
            rest,
            origin,
            over: _,
        } = self;
        let node = kept_by(
            GateNode::counting_by(rt, shared, count, passes, turnstile),
            kept,
        );
        OpenSession {
            node: RunNode::resumed(shared, node, rest),
            session,
            reader,
            writer,
            origin,
        }
    }
}

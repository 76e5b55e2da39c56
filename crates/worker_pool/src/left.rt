//! How a session is left.
ghost use Rattle.std.specs.Prelude.{◌≡◌};
ghost use Rattle.worker_pool.specs.Leaving.{IsLeftAs};

use crate::paused_session::PausedSession;
use crate::rest::Began;
use gate_node::Passes;
use node_session::{Ended, Scratch, SessionFault, Source, Target};

/// A session that is over: what came of it, its streams and its passes as it left them, and where it began.
#[derive(Drop)]
pub struct EndedSession<R, W> {
    pub result: Result<Ended, SessionFault>,
    pub reader: R,
    pub writer: W,
    pub passes: Passes,
    pub origin: Began,
}

/// How a session is left.
#[derive(Drop)]
pub enum Left<R: Source, W: Target> {
    /// It is over.
    Ended(EndedSession<R, W>),
    /// It rests.
    Rests(PausedSession<R, W>),
}

impl<R: Source, W: Target> PausedSession<R, W> {
    /// Ends it, where it is over; else it rests. The room that was lent to one that is over goes back.
    pub(crate) fn settle(self, scratch: &mut Scratch) -> Left<R, W>
        ensures { IsLeftAs R.source W.target self result }
    {
        let Some(result) = self.session.outcome() else {
            return Left::Rests(self);
        };
        let PausedSession {
            session,
            reader,
            writer,
            passes,
            rest: _,
            origin,
            over: _,
        } = self;
        session.end(scratch);
        Left::Ended(EndedSession {
            result,
            reader,
            writer,
            passes,
            origin,
        })
    }
}

//! A connection to be served, and what it comes to.
ghost use Rattle.std.specs.Prelude.{◌≡◌};

use gate_node::{HasPasses, Passes};
use node_session::{Ended, SessionFault, Source, Target};

/// A reader whose `ended` is called once, after its session.
pub trait EndRead: Source {
    /// The session is over. What is unread stays so.
    fn ended(&mut self)
        ensures { Self.source self.new ≡ Self.source self.old };
}

/// A writer whose `ended` is called once, after its session.
pub trait EndWrite: Target {
    /// The session is over. What was written stays so.
    fn ended(&mut self)
        ensures { Self.target self.new ≡ Self.target self.old };
}

/// A connection to be served, by these passes of a run's gates.
#[derive(Drop)]
pub struct Job<R, W> {
    pub reader: R,
    pub writer: W,
    pub passes: Passes,
}

/// How the session of a job ended, with the job's own reader, writer and passes as the session left them.
#[derive(Drop)]
pub struct End<R, W> {
    pub result: Result<Ended, SessionFault>,
    pub reader: R,
    pub writer: W,
    pub passes: Passes,
}

impl<R, W> HasPasses for End<R, W> {
    ghost sights = { λ end. end.passes };

    fn caller_passes(&self) -> &Passes {
        &self.passes
    }
}

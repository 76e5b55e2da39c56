//! The service of the workers of a run: each job as a session that is served to its end.

use crate::job::{End, EndRead, EndWrite, Job};
use crate::left::{EndedSession, Left};
use crate::open_session::OpenSession;
use crate::pause::NoPause;
use crate::paused_session::PausedSession;
use crate::session_service::{LeftSession, OfGates, SessionService};
use crate::worker_state::WorkerState;
use gate_node::Turnstile;
use job_pool::{Service, StepOutcome};
use std::alloc::Global;
use std::sync::Wait;

/// An end, and whether its worker had no room for all that there was to be counted in it.
#[derive(Drop)]
pub struct ServedJob<I, O> {
    pub end: End<I, O>,
    pub book_full: bool,
}

/// Serves the jobs of a run, each as a session which never rests, over the gates that `H` names. All
/// workers share it.
#[derive(Drop)]
pub struct Server<'a, H: OfGates, X, T, I, O> {
    pub(crate) session_service: SessionService<'a, H, X, T, NoPause, I, O>,
}

impl<'a, H, X, T, I, O> Service for Server<'a, H, X, T, I, O>
where
    H: OfGates + Sync,
    X: Wait + Sync,
    T: Turnstile + Sync,
    I: EndRead + Drop + Send + Sync,
    O: EndWrite + Drop + Send + Sync,
{
    type Job = Job<I, O>;

    type End = ServedJob<I, O>;

    type Worker = WorkerState;

    type Open = OpenSession<'a, X, T, I, O>;

    ghost use Rattle.node_session.specs.Stages.{IsOver};
    ghost use Rattle.worker_pool.specs.JobEnds.{IsForGates, CountsInSession, StandsFor};

    ghost accepts = { λ server job. IsForGates server.session_service job };

    ghost stands = { λ server job opened.
        StandsFor I.source O.target server.session_service job opened };

    ghost is_over = { λ opened. IsOver opened.session.stage };

    ghost serves = { λ server. CountsInSession I.source O.target server.session_service };

    fn open(
        &self,
        alloc: Global,
        worker: &mut WorkerState,
        job: Job<I, O>,
    ) -> Result<OpenSession<'a, X, T, I, O>, Job<I, O>> {
        let Job {
            reader,
            writer,
            passes,
        } = job;
        let session = PausedSession::new(
            alloc,
            self.session_service.shared(),
            passes,
            reader,
            writer,
        );
        Ok(self.session_service.go_on(worker, session))
    }

    fn step(
        &self,
        alloc: Global,
        worker: &mut WorkerState,
        opened: &mut OpenSession<'a, X, T, I, O>,
        may_wait: bool,
    ) -> StepOutcome {
        self.session_service.step(alloc, worker, opened, may_wait)
    }

    fn close(
        &self,
        worker: &mut WorkerState,
        opened: OpenSession<'a, X, T, I, O>,
    ) -> ServedJob<I, O> {
        let LeftSession { left, book_full } = self.session_service.leave(worker, opened);
        let Left::Ended(ended) = left else {
            unreachable!()
        };
        let EndedSession {
            result,
            mut reader,
            mut writer,
            passes,
            origin: _,
        } = ended;
        reader.ended();
        writer.ended();
        let end = End {
            result,
            reader,
            writer,
            passes,
        };
        ServedJob { end, book_full }
    }
}

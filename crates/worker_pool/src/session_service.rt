//! The service of the workers of a run: sessions over its gates, in steps, each by a node of its own.
ghost use Rattle.std.specs.Prelude.{◌≡◌};
ghost use Rattle.node_session.specs.Stages.{IsOver};
ghost use Rattle.worker_pool.specs.Leaving.{IsEnd};
ghost use Rattle.worker_pool.specs.Serving.{CountsInOpenSession, MayBeLeft};
ghost use Rattle.worker_pool.specs.PausedSessions.{CanGoOn, StaysOver, PausedSessionView};

use crate::kept::KeptByWorker;
use crate::left::Left;
use crate::open_session::OpenSession;
use crate::pause::Pause;
use crate::paused_session::PausedSession;
use crate::worker_state::WorkerState;
use gate_node::{Shared, Turnstile};
use job_pool::{Service, StepOutcome};
use node_session::{Source, Target};
use std::alloc::Global;
use std::marker::{Brand, Model, PhantomData};
use std::sync::Wait;

/// Which gates a run is over. Each run picks its own, so that the passes of a worker are known to be of the gates of its sessions.
pub trait OfGates {
    ghost use Rattle.gate_node.specs.Gates.{Gates};

    ghost gates: { Gates };
}

impl OfGates for Brand {
    ghost use Rattle.worker_pool.specs.Resuming.{no_gates};

    ghost gates = { no_gates };
}

/// How a session of a run was left, and whether its worker had no room for all that there was to be counted in it.
#[derive(Drop)]
pub struct LeftSession<R: Source, W: Target> {
    pub left: Left<R, W>,
    pub book_full: bool,
}

/// Serves the sessions of a run over the gates that `H` names. All workers share it.
#[derive(Drop)]
pub struct SessionService<'a, H: OfGates, X, T, Q, R, W> {
    pub(crate) rt: &'a X,
    pub(crate) shared: &'a Shared,
    pub(crate) turnstile: &'a T,
    pub(crate) pause: &'a Q,
    /// What each worker keeps, in the workers' order.
    pub(crate) kept: &'a [KeptByWorker<'a>],
    pub(crate) of: PhantomData<H>,
    pub(crate) readers: PhantomData<R>,
    pub(crate) writers: PhantomData<W>,
}

impl<'a, H: OfGates, X, T, Q, R, W> Model for SessionService<'a, H, X, T, Q, R, W> {
    ghost use Rattle.std.specs.Prelude.{◌≡◌};
    ghost use Rattle.gate_node.specs.Gates.{Gates};

    ghost Value = { Gates };

    ghost view = { λ h. h.shared.now };

    ghost invariant = { λ h. h.shared.now ≡ H.gates };
}

impl<'a, H: OfGates, X, T, Q, R, W> SessionService<'a, H, X, T, Q, R, W> {
    /// Over these gates, for workers that keep nothing for themselves.
    pub fn new(rt: &'a X, shared: &'a Shared, turnstile: &'a T, pause: &'a Q) -> Self
        requires { shared.now ≡ H.gates }
        ensures { result ≡ shared.now }
    {
        SessionService {
            rt,
            shared,
            turnstile,
            pause,
            kept: &[],
            of: PhantomData,
            readers: PhantomData,
            writers: PhantomData,
        }
    }

    /// The gates.
    pub fn shared(&self) -> &Shared
        ensures shared { result.now ≡ self.now }
        ensures of_run { self.now ≡ H.gates }
    {
        self.shared
    }
}

impl<'a, H, X, T, Q, R, W> SessionService<'a, H, X, T, Q, R, W>
where
    H: OfGates,
    X: Wait,
    T: Turnstile,
    Q: Pause,
    R: Source,
    W: Target,
{
    /// Has a session go on, by the worker with this state. It takes no memory.
    pub fn go_on(
        &self,
        worker: &WorkerState,
        session: PausedSession<R, W>,
    ) -> OpenSession<'a, X, T, R, W>
        requires { CanGoOn self.now session }
        ensures { StaysOver self.now session result }
    {
        let kept = self.kept.get(worker.place);
        session.go_on(
            self.rt,
            self.shared,
            self.turnstile,
            kept,
            worker.new_count(),
        )
    }

    /// Leaves a session that is over, or may rest. The worker with this state counts what it counted.
    pub fn leave(
        &self,
        worker: &mut WorkerState,
        opened: OpenSession<'a, X, T, R, W>,
    ) -> LeftSession<R, W>
        requires { MayBeLeft Q.can_be_raised opened.session.stage }
        ensures over { IsOver opened.entry.session.stage → IsEnd result.left }
        ensures counts { (session : PausedSessionView R W) → StaysOver self.now session opened.entry
            → CountsInOpenSession Q.can_be_raised R.source W.target self.now
            worker.old session worker.new result }
    {
        let (left, count) = opened.leave(&mut worker.scratch);
        let is_added = worker.add(count);
        LeftSession {
            left,
            book_full: !is_added,
        }
    }
}

impl<'a, H, X, T, Q, R, W> Service for SessionService<'a, H, X, T, Q, R, W>
where
    H: OfGates + Sync,
    X: Wait + Sync,
    T: Turnstile + Sync,
    Q: Pause + Sync,
    R: Source + Drop + Send + Sync,
    W: Target + Drop + Send + Sync,
{
    type Job = PausedSession<R, W>;

    type End = LeftSession<R, W>;

    type Worker = WorkerState;

    type Open = OpenSession<'a, X, T, R, W>;

    ghost use Rattle.worker_pool.specs.Serving.{CountsInOpenSession, MayBeLeft};
    ghost use Rattle.worker_pool.specs.PausedSessions.{CanGoOn, StaysOver};

    ghost accepts = { λ shared session. CanGoOn shared session };

    ghost stands = { λ shared session opened. StaysOver shared session opened };

    ghost is_over = { λ opened. MayBeLeft Q.can_be_raised opened.session.stage };

    ghost serves = { λ shared. CountsInOpenSession Q.can_be_raised R.source W.target shared };

    fn open(
        &self,
        _alloc: Global,
        worker: &mut WorkerState,
        job: PausedSession<R, W>,
    ) -> Result<OpenSession<'a, X, T, R, W>, PausedSession<R, W>> {
        Ok(self.go_on(worker, job))
    }

    /// Gives the worker's reserve up, where it has one.
    fn make_room(&self, _alloc: Global, worker: &WorkerState) -> bool {
        match self.kept.get(worker.place) {
            Some(kept) => kept.reserve.give_up(),
            None => false,
        }
    }

    /// A session that is to rest isn't moved.
    fn step(
        &self,
        alloc: Global,
        worker: &mut WorkerState,
        opened: &mut OpenSession<'a, X, T, R, W>,
        may_wait: bool,
    ) -> StepOutcome {
        if self.pause.is_raised() {
            return StepOutcome::Over;
        }
        opened.step(alloc, &mut worker.scratch, may_wait)
    }

    fn close(
        &self,
        worker: &mut WorkerState,
        opened: OpenSession<'a, X, T, R, W>,
    ) -> LeftSession<R, W> {
        self.leave(worker, opened)
    }
}

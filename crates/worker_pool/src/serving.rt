//! A run of the pool.
ghost use Rattle.std.specs.Prelude.{◌≡◌, ◌≤◌, length, IfOk, IfErr};
ghost use Rattle.job_pool.specs.Giving.{GivesOnly};
ghost use Rattle.job_pool.specs.Lists.{Every};
ghost use Rattle.gate_node.specs.Merging.{HaveSeenAllOf};
ghost use Rattle.gate_node.specs.Passes.{ArePassesOf};
ghost use Rattle.worker_pool.specs.Settling.{pool_fault};
ghost use Rattle.worker_pool.specs.PausedSessions.{CanGoOn};
ghost use Rattle.worker_pool.specs.EndReporters.{IsNewServingSetup};
ghost use Rattle.worker_pool.specs.Telling.{LeavesTold, TellsSource};

use crate::end_sink::EndSink;
use crate::kept::{Kept, new_kept};
use crate::pause::Pause;
use crate::paused_session::PausedSession;
use crate::served_sessions::ServedSessions;
use crate::serving_setup::ServingSetup;
use crate::session_service::{OfGates, SessionService};
use crate::settle::{new_places, settle};
use crate::worker_setup::worker_setups_of;
use gate_node::{GivenUp, Passes, PoolFault, Shared, Turnstile};
use job_pool::{Jobs, RunFault, StreamReadiness, Wakes, Wakeup, run_at};
use node_session::{Source, Target};
use std::alloc::Global;
use std::marker::{Brand, PhantomData};
use std::sync::Wait;
use std::thread::Threads;

/// The fault of a run of sessions for one of the workers' run.
pub fn pool_fault(fault: RunFault) -> PoolFault
    ensures { result ≡ pool_fault fault }
{
    match fault {
        RunFault::NoMemory => PoolFault::NoMemory,
        RunFault::NoThread => PoolFault::NoThread,
        RunFault::JobsFailed => PoolFault::JobsFailed,
    }
}

impl<H, X, T, Q, R, W> SessionService<'_, H, X, T, Q, R, W>
where
    H: OfGates + Sync + Send,
    X: Threads + Wait + Sync,
    T: Turnstile + Sync,
    Q: Pause + Sync,
    R: Source + Drop + Send + Sync,
    W: Target + Drop + Send + Sync,
{
    /// A run over the gates that `H` names, whose workers keep this.
    fn serve<J, K, Y, B>(
        rt: &X,
        alloc: Global,
        shared: &Shared,
        sessions: &mut J,
        serving_setups: Vec<ServingSetup<K, Y, B>>,
        turnstile: &T,
        pause: &Q,
        kept: &Kept<'_>,
        seen: &mut Passes,
    ) -> Result<ServedSessions<R, W, K>, PoolFault>
    where
        J: Jobs<Job = PausedSession<R, W>>,
        K: EndSink<R, W> + Drop + Send,
        Y: StreamReadiness<R, W> + Drop + Send,
        B: Wakeup + Drop,
        requires of_run { shared.now ≡ H.gates }
        requires workers { (1 ≤ length serving_setups.items) × (length serving_setups.items ≤ 64) }
        requires new { Every (IsNewServingSetup K.told K.has_room) serving_setups.items }
        requires sessions { GivesOnly J.gives (CanGoOn shared.now) sessions.old }
        requires seen { ArePassesOf shared.now seen.old }
        ensures served { IfOk result (λ served.
            TellsSource Q.can_be_raised R.source W.target K.told shared.now J.gives
            sessions.old seen.old served sessions.new seen.new) }
        ensures sinks { IfOk result (λ served.
            length served.sinks.items ≡ length serving_setups.items) }
        ensures fault { IfErr result (λ fault. LeavesTold J.gives Q.can_be_raised
            R.source W.target shared.now fault sessions.old sessions.new) }
        ensures more { HaveSeenAllOf seen.new seen.old }
        ensures passes { ArePassesOf shared.now seen.new }
    {
        let Ok(places) = new_places(alloc, serving_setups.len()) else {
            return Err(PoolFault::NoMemory);
        };
        let Ok(worker_setups) = worker_setups_of(alloc, shared, serving_setups, kept) else {
            return Err(PoolFault::NoMemory);
        };
        let session_service = SessionService::<H, X, T, Q, R, W> {
            rt,
            shared,
            turnstile,
            pause,
            kept: kept.workers.as_slice(),
            of: PhantomData,
            readers: PhantomData,
            writers: PhantomData,
        };
        match run_at(
            rt,
            alloc,
            &session_service,
            sessions,
            worker_setups,
            Wakes::LeastLoad,
        ) {
            Ok(told) => settle(places, told, seen),
            Err(fault) => Err(pool_fault(fault)),
        }
    }
}

/// Serves all sessions of a source over the gates of a run, each to its end or until it is to rest, by as many workers as there are setups, and keeps no
/// end: each worker's sink is told the ends of its sessions as they come.
///
/// There are 1 to 64 setups, whose sinks were told nothing yet. Each session that the source may give is to begin over these gates
/// ([`PausedSession::new`]), or rested over these or over gates that became these by diversions. The calling thread takes the sessions from the source and hands
/// each to a worker with the least load, by its wakeup; how many sessions a worker has open, and which of them has its turn, its readiness says. The
/// calls of all sessions pass the turnstile. What a sink is told is what `serve` of `node_session` promises of that session from its first read on, by a
/// node over the gates as they were at each step, whether or not this call ever returns (`specs/Telling`: `IsToldEnd`).
///
/// Once the pause is raised, a session whose turn comes isn't moved, and rests. So where the source ends, and each session has a turn, the run returns
/// soon, and the gates are the caller's alone: it may divert partitions, and give the sessions that rest, with others, to a later run. A session that
/// rests is between two of its steps: nothing that it has read is lost, nor anything that it has to send.
///
/// On success each session that the source gave was refused, or a sink was told its end, or it rests, once, and these are counted; the totals are what they
/// counted in this run (`TellsSource`). The passes in `seen` have then seen what those of each session that is over had seen, and what they had seen
/// before, whatever is returned: so a history of which they have seen a beginning has a place for each reply of these sessions
/// ([`told_sessions_are_at_positions`](crate::told_sessions_are_at_positions)). Passes that are handed from run to run bring so one history of each
/// vnode through all of them (`gate_node`: `tallies_of`).
///
/// A worker keeps passes of the gates, which it lays together with those of each session that is over: a comparison of two numbers for each partition
/// and end. It keeps nothing else of a session that is over, and one place for each that is open. Beside that each has half a MiB kept back for what
/// doesn't make the vnodes grow ([`gate_node::Reserve`]), which its own thread fills once its readiness says that it may take memory; and, where
/// there is more than one partition, 416 KiB for those of keys that it met ([`gate_node::PartitionCache`]), which are made before a thread is
/// started. Where memory is refused for these it remembers none.
///
/// Where it is refused, the workers that were started have been joined, what the sinks were told was so, and the sinks and the sessions that were
/// taken from the source are let go:
///
/// - `NoMemory`: memory was refused to the run. The source gave some sessions, or all of them.
/// - `NoThread`: the system refused a thread. No session was taken from the source.
/// - `JobsFailed`: the source gave some sessions and then a fault. The sessions that it gave were served or refused.
/// - `BookFull`: all sessions were served or refused, and a total would have passed 18,446,744,073,709,551,615: that of a worker, at the end of one
///   of its sessions, or the sum over the workers.
///
/// It waits for the workers, and they for sessions and for one another. It returns if each call of the source, of the turnstile and of the pause
/// does, and each session is over, or rests, after finitely many turns.
pub fn serve<X, J, R, W, T, Q, K, Y, B>(
    rt: &X,
    alloc: Global,
    shared: &Shared,
    sessions: &mut J,
    serving_setups: Vec<ServingSetup<K, Y, B>>,
    turnstile: &T,
    pause: &Q,
    seen: &mut Passes,
) -> Result<ServedSessions<R, W, K>, PoolFault>
where
    X: Threads + Wait + Sync,
    J: Jobs<Job = PausedSession<R, W>>,
    R: Source + Drop + Send + Sync,
    W: Target + Drop + Send + Sync,
    T: Turnstile + Sync,
    Q: Pause + Sync,
    K: EndSink<R, W> + Drop + Send,
    Y: StreamReadiness<R, W> + Drop + Send,
    B: Wakeup + Drop,
    requires workers { (1 ≤ length serving_setups.items) × (length serving_setups.items ≤ 64) }
    requires new { Every (IsNewServingSetup K.told K.has_room) serving_setups.items }
    requires sessions { GivesOnly J.gives (CanGoOn shared.now) sessions.old }
    requires seen { ArePassesOf shared.now seen.old }
    ensures served { IfOk result (λ served.
        TellsSource Q.can_be_raised R.source W.target K.told shared.now J.gives
        sessions.old seen.old served sessions.new seen.new) }
    ensures sinks { IfOk result (λ served.
        length served.sinks.items ≡ length serving_setups.items) }
    ensures fault { IfErr result (λ fault. LeavesTold J.gives Q.can_be_raised
        R.source W.target shared.now fault sessions.old sessions.new) }
    ensures more { HaveSeenAllOf seen.new seen.old }
    ensures passes { ArePassesOf shared.now seen.new }
{
    let given_up = GivenUp::new();
    let Ok(kept) = new_kept(
        alloc,
        shared.handoff().ring(),
        serving_setups.len(),
        &given_up,
    ) else {
        return Err(PoolFault::NoMemory);
    };
    SessionService::<Brand, X, T, Q, R, W>::serve(
        rt,
        alloc,
        shared,
        sessions,
        serving_setups,
        turnstile,
        pause,
        &kept,
        seen,
    )
}

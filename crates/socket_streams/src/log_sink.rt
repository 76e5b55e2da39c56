//! What is told the end of each connection: the log.
ghost use Rattle.std.specs.Prelude.{◌≡◌, ◌++◌, ◌∷◌, []};

use crate::halves::{ReplyHalf, RequestHalf};
use crate::slots::Slot;
use crate::worker_signals::WorkerSignals;
use ghost_state::GhostList;
use job_pool::NumberedEnd;
use log::{Log, info, warn};
use std::alloc::{AllocError, Global};
use std::marker::Model;
use std::net::SocketAddr;
use std::rt::Clock;
use std::sync::{Arc, Wait};
use worker_pool::{Began, EndRead, EndSink, EndWrite, Ended, SessionEnd, SessionFault, Shared};

/// The end of a connection, as a worker's sink is told it.
type ConnectionEnd = SessionEnd<RequestHalf, ReplyHalf>;

/// Writes a line to the log for each end, and lets the halves of that connection go. Of one that rests it writes nothing: its slot is told by the worker's signals
/// that the socket stays open. It keeps nothing: clauses alone see the ends that it was told, as their list.
pub struct LogSink<'a, X> {
    rt: &'a X,
    alloc: Global,
    worker_signals: Arc<WorkerSignals, Global>,
    /// For how many slots the worker has room, or is to find it in its signals.
    room: usize,
    ends: GhostList<NumberedEnd<ConnectionEnd>>,
}

/// One call at each place where one is let go.
impl<'a, X> Drop for LogSink<'a, X> {
    fn drop(self) {
        let LogSink {
            rt: _rt,
            alloc: _alloc,
            worker_signals: _worker_signals,
            room: _room,
            ends: _ends,
        } = self;
    }
}

impl<'a, X> Model for LogSink<'a, X> {
    ghost use Rattle.std.specs.Prelude.{List};
    ghost use Rattle.job_pool.specs.declared.worker.NumberedEnd.{NumberedEnd};
    ghost use Rattle.worker_pool.specs.declared.end_sink.SessionEnd.{SessionEnd};
    ghost use Rattle.socket_streams.specs.declared.halves.RequestHalf.{RequestHalf};
    ghost use Rattle.socket_streams.specs.declared.halves.ReplyHalf.{ReplyHalf};

    ghost Value = { List (NumberedEnd (SessionEnd RequestHalf ReplyHalf)) };

    ghost view = { λ sink. sink.ends };
}

/// Whether a connection ended because nobody waited for its client any more, where it had its last turn so.
fn is_cut(outcome: Result<Ended, SessionFault>, is_cutting: bool) -> bool {
    match outcome {
        Err(SessionFault::ReadFailed(_)) | Err(SessionFault::WriteFailed(_)) => is_cutting,
        Err(_) | Ok(_) => false,
    }
}

/// Logs that a connection ended because of a fault. A bad frame may have been one that is too large.
fn log_fault<L: Log>(log: &L, peer: SocketAddr, fault: SessionFault, is_too_large: bool) {
    match fault {
        SessionFault::BadFrame(replies) if is_too_large => {
            warn!(log; "connection from {peer} ended: frame too large after {replies} replies");
        }
        _ => warn!(log; "connection from {peer} ended: {fault}"),
    }
}

/// Logs that a connection was closed while its client was silent.
fn log_closed<L: Log>(log: &L, peer: SocketAddr) {
    info!(log; "connection from {peer} closed");
}

/// Logs that a connection was closed for which memory was refused.
pub(crate) fn log_refused<L: Log>(log: &L, peer: SocketAddr) {
    warn!(log; "connection from {peer} closed: no memory");
}

/// Logs how a connection ended.
fn log_end<L: Log>(
    log: &L,
    peer: SocketAddr,
    outcome: Result<Ended, SessionFault>,
    is_cut: bool,
    is_too_large: bool,
) {
    if is_cut {
        return log_closed(log, peer);
    }
    match outcome {
        Ok(_) => info!(log; "connection from {peer} ended"),
        Err(fault) => log_fault(log, peer, fault, is_too_large),
    }
}

impl<'a, X> LogSink<'a, X> {
    /// One that was told none, of the worker that has these signals.
    pub(crate) fn new(
        rt: &'a X,
        alloc: Global,
        worker_signals: Arc<WorkerSignals, Global>,
    ) -> LogSink<'a, X>
        ensures { result ≡ [] }
    {
        LogSink {
            rt,
            alloc,
            worker_signals,
            room: 0,
            ends: GhostList::new(),
        }
    }
}

impl<'a, X: Log + Clock + Wait> LogSink<'a, X> {
    /// Makes room for so many slots, and puts it into the signals.
    fn widen(&mut self, slots: usize) -> Result<(), AllocError>
        ensures { self.new ≡ self.old }
    {
        let wider: Vec<Slot> = Vec::with_capacity(self.alloc, slots)?;
        self.room = wider.capacity();
        self.worker_signals.put_wider(self.rt, wider);
        Ok(())
    }
}

impl<'a, X: Log + Clock + Wait> EndSink<RequestHalf, ReplyHalf> for LogSink<'a, X> {
    ghost told = { λ sink. sink };

    ghost has_room = { λ sink n. Unit {0} };

    fn make_room(&mut self, more: usize) -> bool {
        more <= self.room || self.widen(more.saturating_mul(2)).is_ok() || self.widen(more).is_ok()
    }

    fn tell(&mut self, _shared: &Shared, number: usize, _origin: Began, end: ConnectionEnd)
        ensures { self.new ≡ self.old ++ record { number = number; end = end } ∷ [] }
    {
        let told = NumberedEnd { number, end };
        self.ends.push(&told);
        let NumberedEnd { number: _, end } = told;
        let SessionEnd {
            result,
            mut reader,
            mut writer,
        } = end;
        reader.ended();
        writer.ended();
        let is_cut = is_cut(result, self.worker_signals.is_cutting());
        let is_too_large = writer.is_too_large();
        log_end(self.rt, reader.peer(), result, is_cut, is_too_large);
    }

    fn rest(&mut self, _number: usize)
        ensures { self.new ≡ self.old }
    {
        self.worker_signals.note_rest();
    }

    fn refuse(&mut self, _number: usize, reader: RequestHalf, _writer: ReplyHalf)
        ensures { self.new ≡ self.old }
    {
        log_refused(self.rt, reader.peer());
        self.worker_signals.counts().count_refused();
        self.worker_signals.count_end();
    }
}

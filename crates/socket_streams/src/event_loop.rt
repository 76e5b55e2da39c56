//! A worker's sockets: which of its connections have their turn, and how it waits for them.

use crate::halves::{ReplyHalf, RequestHalf};
use crate::lingering::{LOOK_MILLIS, Lingering};
use crate::pause::PAUSE_MILLIS;
use crate::refused_puts::RefusalWatch;
use crate::replies_bound::{ASIDE_MILLIS, RepliesBound};
use crate::reports::{note_events, register};
use crate::run_signals::RunSignals;
use crate::slots::{Patience, Slots, Traffic};
use crate::turn_bound::TurnBound;
use crate::waiting::{Spin, Waiting};
use crate::waits::Waits;
use crate::worker_clock::WorkerClock;
use crate::worker_signals::WorkerSignals;
use job_pool::{StepOutcome, Turn};
use log::Log;
use std::alloc::Global;
use std::rt::Clock;
use std::sync::{Arc, Wait};
use std::time::Duration;
use std::{io, thread};
use worker_pool::StreamReadiness;

/// What a worker waits with whose sessions are over sockets: for these and for its wakeup, with `mio`.
///
/// A connection has a turn where its socket is ready, which ends once it has moved 64 KiB or taken a millisecond. Where it was silent for too long, or serving is stopped, it has one ordinary turn, and where that
/// ends in waiting, turns in which it ends rather than wait. Once the run pauses, each connection has a turn, in which it is laid down. The worker takes
/// a task where its wakeup was rung for one, and its stop mark once no connection is open and no socket lingers. In a run that pauses it doesn't wait for
/// sockets that linger: they are closed with it. It takes no memory before its first task, and is woken once all threads of the run were started.
///
/// A connection that goes on in a run is watched as a new one is, by that run's event loop: its socket stays as it was when the connection was laid down, but
/// that nothing is reported of it in between.
pub struct EventLoop<'s, X> {
    rt: &'s X,
    stop: &'s RunSignals,
    worker_signals: Arc<WorkerSignals, Global>,
    waits: Waits,
    spin: Spin,
    slots: Slots,
    bound: TurnBound,
    replies: RepliesBound,
    /// The sockets of connections that have ended while their clients may still be sending.
    lingering: Lingering,
    clock: WorkerClock,
    /// When it last returned from a wait, in milliseconds since the worker began.
    now: u64,
    /// How many turns the round has left that was begun, if one was.
    round: Option<usize>,
    /// The slot of a connection for which memory was refused here.
    unwatched: Option<usize>,
    /// Whether it has seen that all threads were started.
    has_started: bool,
    /// Whether it has said that the worker has what it keeps for itself.
    is_settled: bool,
    /// Whether it has seen that serving is stopped.
    is_stopping: bool,
    /// Whether it has seen that the run pauses.
    is_pausing: bool,
    refusals: RefusalWatch,
}

/// One call at each place where one is let go.
impl<'s, X> Drop for EventLoop<'s, X> {
    fn drop(self) {
        let EventLoop {
            rt: _rt,
            stop: _stop,
            worker_signals: _worker_signals,
            waits: _waits,
            spin: _spin,
            slots: _slots,
            bound: _bound,
            replies: _replies,
            lingering: _lingering,
            clock: _clock,
            now: _now,
            round: _round,
            unwatched: _unwatched,
            has_started: _has_started,
            is_settled: _is_settled,
            is_stopping: _is_stopping,
            is_pausing: _is_pausing,
            refusals: _refusals,
        } = self;
    }
}

impl<'s, X: Clock + Wait> EventLoop<'s, X> {
    /// No connection is open, and it is to wait so.
    pub(crate) fn new(
        rt: &'s X,
        alloc: Global,
        stop: &'s RunSignals,
        worker_signals: Arc<WorkerSignals, Global>,
        waits: Waits,
        waiting: Waiting,
        replies: RepliesBound,
    ) -> EventLoop<'s, X> {
        let refusals = RefusalWatch::new(worker_signals.counts());
        EventLoop {
            rt,
            stop,
            worker_signals,
            waits,
            spin: Spin::new(waiting.spin_micros),
            slots: Slots::new(alloc),
            bound: TurnBound::new(),
            replies,
            lingering: Lingering::new(rt, alloc),
            clock: WorkerClock::new(rt, waiting.idle_seconds),
            now: 0,
            round: None,
            unwatched: None,
            has_started: false,
            is_settled: false,
            is_stopping: false,
            is_pausing: false,
            refusals,
        }
    }

    /// Notes a connection that was opened in a slot. False where memory for that is refused.
    fn begin_slot(&mut self, slot: usize, reader: &RequestHalf) -> bool {
        match reader.share_socket() {
            Some(socket) => self
                .slots
                .begin(self.rt, &self.worker_signals, slot, socket, self.now),
            None => false,
        }
    }

    /// Begins to watch a connection that was opened in a slot, and is to have its first turn: what came before it was watched is reported, and that
    /// turn's read is a call, whatever its last run's reads have met. Where it can't be watched, its next read meets the end, unless it is to rest.
    fn watch(&mut self, slot: usize, reader: &RequestHalf) {
        if self.begin_slot(slot, reader) && register(&self.waits.poll, reader, slot).is_ok() {
            self.replies.count(&mut self.slots, slot);
            self.slots.mark_asked(slot);
            return;
        }
        self.unwatched = Some(slot);
        if !self.stop.is_pausing() {
            reader.shut_down();
        }
    }

    /// The turn of a slot, of which the sink is to know whether it cuts the connection off.
    fn turn(&mut self, slot: usize, may_wait: bool) -> Turn {
        self.worker_signals.set_cutting(!may_wait);
        self.slots.begin_turn(slot);
        self.replies.begin_turn();
        Turn { slot, may_wait }
    }

    /// Whether connections may be set aside.
    fn may_set_aside(&self) -> bool {
        !self.is_stopping && !self.is_pausing
    }

    /// Sets those aside that come first, of so many, whose turns are put off. How many are left of these.
    fn set_aside(&mut self, left: usize) -> usize {
        if !self.replies.is_reached() || !self.may_set_aside() {
            return left;
        }
        for passed in 0..left {
            match self.slots.first_ready() {
                Some(slot) if self.replies.puts_off(&self.slots, slot) => self.slots.set_aside(),
                _ => return left.saturating_sub(passed),
            }
        }
        0
    }

    /// The next turn of the round; None where it has none left, and has ended.
    fn next_of_round(&mut self) -> Option<Turn> {
        let due = match self.round {
            Some(left) => left,
            None => self.slots.ready(),
        };
        self.round = None;
        let left = self.set_aside(due);
        if left == 0 {
            return None;
        }
        let slot = self.slots.take_ready()?;
        self.round = Some(left - 1);
        let may_wait = self.slots.patience(slot) != Some(Patience::Gone);
        Some(self.turn(slot, may_wait))
    }

    /// Whether those that are set aside may go on.
    fn may_release(&self) -> bool {
        self.slots.has_aside() && !(self.may_set_aside() && self.replies.is_reached())
    }

    /// The connection in a slot would have to wait.
    fn note_waiting(&mut self, slot: usize) {
        let is_given_up = match self.slots.patience(slot) {
            Some(Patience::Open) => self.is_stopping,
            Some(Patience::Asked) => true,
            Some(Patience::Gone) | None => false,
        };
        if is_given_up {
            self.slots.set_patience(slot, Patience::Gone);
            self.slots.mark_asked(slot);
        }
    }

    /// The connection in a slot has ended, or rests. The socket of one that has ended lingers where its client may still be sending; that of one that
    /// rests stays as it is.
    fn note_end(&mut self, slot: usize) {
        if self.unwatched == Some(slot) {
            self.unwatched = None;
        }
        self.worker_signals.count_end();
        let rests = self.worker_signals.take_rest();
        self.worker_signals.counts().count_end(rests);
        if let Some(socket) = self.slots.end(slot) {
            if !rests && !socket.is_over() {
                self.lingering.add(self.rt, socket);
            }
        }
    }

    /// The connection in a slot can go on.
    fn note_going(&mut self, slot: usize) {
        self.slots.note_move(slot, self.now);
        if !self.is_stopping {
            self.slots.set_patience(slot, Patience::Open);
        }
        self.slots.mark_ready(slot);
    }

    /// Whether the worker has something to do that it was woken for. `is_idle` where no connection is open.
    fn is_called(&self, is_idle: bool) -> bool {
        self.worker_signals.has_due()
            || (is_idle && self.may_end())
            || (self.stop.is_started() && !self.has_started)
            || (self.stop.is_stopping() && !self.is_stopping)
            || (self.stop.is_pausing() && !self.is_pausing)
    }

    /// Whether all tasks are in the queue, and no socket lingers that is waited for: once no connection is open, the worker may take its stop mark.
    fn may_end(&self) -> bool {
        self.worker_signals.is_closing() && (self.is_pausing || self.lingering.is_empty())
    }

    /// How long may be waited for what is ready next; for ever, where it is None.
    fn limit(&self) -> Option<Duration> {
        if self.slots.has_aside() {
            return Some(Duration::from_millis(ASIDE_MILLIS));
        }
        if self.lingering.is_empty() {
            return self.clock.limit();
        }
        Some(Duration::from_millis(LOOK_MILLIS))
    }

    /// Looks once for what is ready, where there is something to do, and else waits for it.
    fn wait_for(&mut self, is_busy: bool) -> io::Result<()> {
        if is_busy {
            let now = Some(Duration::from_millis(0));
            return self.waits.poll.poll(&mut self.waits.events, now);
        }
        let limit = self.limit();
        self.spin.wait(self.rt, &mut self.waits, limit)
    }

    /// Waits until a socket is ready, it is woken, or it is time to look. Where the wait fails, for a short time.
    fn poll(&mut self, is_idle: bool) {
        // who wakes it from now on writes to its waker, and what was to wake it before is looked for behind this
        self.worker_signals.set_waiting(true);
        let is_busy = self.slots.ready() > 0 || self.may_release() || self.is_called(is_idle);
        if self.wait_for(is_busy).is_err() {
            thread::sleep(self.rt, Duration::from_millis(PAUSE_MILLIS));
        }
        self.worker_signals.set_waiting(false);
    }

    /// Has the connections that were silent since then asked once more, and then given up.
    fn sweep(&mut self, closes_before: u64) {
        for slot in 0..self.slots.len() {
            if self.slots.is_silent(slot, closes_before) {
                self.slots.set_patience(slot, Patience::Asked);
                self.slots.mark_asked(slot);
            }
        }
    }

    /// Notes what is ready, and looks at the clock where connections may not be silent for ever.
    fn note_ready(&mut self) {
        let tick = self.clock.tick(self.rt);
        if let Some(tick) = tick {
            self.now = tick.now;
        }
        note_events(
            &mut self.slots,
            &self.waits.events,
            self.now,
            self.is_stopping,
        );
        if let Some(tick) = tick {
            if tick.is_sweep {
                self.sweep(tick.closes_before);
            }
        }
    }

    /// Has each connection have a turn.
    fn ask_all(&mut self) {
        for slot in 0..self.slots.len() {
            self.slots.mark_asked(slot);
        }
    }

    /// Says once that the worker has what it keeps for itself: that is filled behind the wait in which the event loop has seen that all threads were started.
    fn settle(&mut self) {
        if self.has_started && !self.is_settled {
            self.is_settled = true;
            self.stop.settle();
        }
    }

    /// Where serving was stopped since it was last looked: each connection is to have a turn, and is then given up.
    fn note_stop(&mut self) {
        if !self.is_stopping && self.stop.is_stopping() {
            self.is_stopping = true;
            self.ask_all();
        }
    }

    /// Where the run was paused since it was last looked: each connection is to have a turn, in which it is laid down.
    fn note_pause(&mut self) {
        if !self.is_pausing && self.stop.is_pausing() {
            self.is_pausing = true;
            self.ask_all();
        }
    }
}

impl<'s, X: Clock + Log + Wait> StreamReadiness<RequestHalf, ReplyHalf> for EventLoop<'s, X> {
    fn may_take_memory(&self) -> bool {
        self.stop.is_started()
    }

    /// Behind a connection that can't be watched none is taken before that one has had its turns: there is a place for one.
    fn takes(&mut self, is_idle: bool) -> bool {
        self.unwatched.is_none() && (self.worker_signals.take_due() || (is_idle && self.may_end()))
    }

    fn begin(&mut self, slot: usize, reader: &RequestHalf, _writer: &ReplyHalf) {
        self.worker_signals.counts().count_begin();
        self.watch(slot, reader);
    }

    fn next(&mut self) -> Option<Turn> {
        match self.unwatched {
            Some(slot) => Some(self.turn(slot, false)),
            None => self.next_of_round(),
        }
    }

    fn ends_turn(&mut self, slot: usize, before: u32) -> bool {
        let moved = self.slots.moved(slot);
        let is_enough = self.bound.is_reached(self.rt, moved, before);
        self.replies.ends_turn(&self.slots, slot, is_enough, before)
    }

    fn after(&mut self, slot: usize, moved: StepOutcome) {
        let Traffic { received, sent } = self.slots.traffic(slot);
        self.worker_signals.counts().count_turn(received, sent);
        match moved {
            StepOutcome::Over => self.note_end(slot),
            StepOutcome::Going => self.note_going(slot),
            StepOutcome::Waits => self.note_waiting(slot),
        }
        self.replies.count(&mut self.slots, slot);
    }

    fn wait<T: Wait>(&mut self, _rt: &T, is_idle: bool) {
        self.settle();
        if self.refusals.has_more(self.worker_signals.counts()) {
            self.stop.counts().note_refused_puts(self.rt);
        }
        self.worker_signals.set_active(self.slots.active());
        self.poll(is_idle);
        self.has_started = self.stop.is_started();
        self.note_ready();
        self.note_stop();
        self.note_pause();
        if self.may_release() {
            self.slots.release(self.now);
        }
        if !self.lingering.is_empty() {
            self.lingering
                .pass_over(self.rt, self.worker_signals.is_closing());
        }
    }
}

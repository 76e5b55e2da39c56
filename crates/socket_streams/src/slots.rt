//! What a worker has of its connections beside their sessions, and which of them are ready.

use crate::activity::Activity;
use crate::connection::Socket;
use crate::worker_signals::WorkerSignals;
use std::alloc::Global;
use std::sync::Wait;

/// How long a connection is waited for.
#[derive(Clone, Copy, Drop, PartialEq, Eq)]
pub(crate) enum Patience {
    /// Until it is ready again.
    Open,
    /// It is to have an ordinary turn, since it was silent for too long: where that doesn't go on, it is waited for no more.
    Asked,
    /// No more: in its next turns it ends where it would have to wait.
    Gone,
}

/// What a worker has of the connection in a slot.
#[derive(Drop)]
pub(crate) struct Slot {
    /// The socket, which is told what is reported of it. None where no connection is open.
    socket: Option<Socket>,
    /// When something moved last, in milliseconds since the worker began.
    moved: u64,
    /// The slot behind it in the queue of those that are ready.
    next: usize,
    patience: Patience,
    /// Whether it stands in one of the two queues.
    is_ready: bool,
    /// Whether it stands in the queue of those that are set aside.
    is_aside: bool,
    /// The window in which it had its last turn.
    window: u32,
    /// How many bytes of its replies were counted as waiting, behind its last turn.
    counted: usize,
}

/// A queue of slots, which goes from slot to slot.
#[derive(Clone, Copy, Drop)]
struct Line {
    /// The first, where there is one.
    first: usize,
    /// The last one.
    last: usize,
    /// How many there are.
    count: usize,
}

/// The queue of no slot.
const EMPTY: Line = Line {
    first: 0,
    last: 0,
    count: 0,
};

/// The slots of a worker, the queue of those that are to have a turn, and the queue of those that were to have one and were set aside.
///
/// A queue goes from slot to slot, so that what becomes ready takes no memory.
#[derive(Drop)]
pub(crate) struct Slots {
    alloc: Global,
    slots: Vec<Slot>,
    /// Those that are to have a turn.
    ready: Line,
    /// Those that are set aside.
    aside: Line,
    /// How many had one lately.
    activity: Activity,
}

impl Line {
    /// Of one slot.
    fn of(slot: usize) -> Line {
        Line {
            first: slot,
            last: slot,
            count: 1,
        }
    }
}

/// How many bytes a connection has read and written in a turn.
#[derive(Clone, Copy)]
pub(crate) struct Traffic {
    pub(crate) received: usize,
    pub(crate) sent: usize,
}

impl Slots {
    /// There is none.
    pub(crate) fn new(alloc: Global) -> Slots {
        Slots {
            alloc,
            slots: Vec::new(alloc),
            ready: EMPTY,
            aside: EMPTY,
            activity: Activity::new(),
        }
    }

    /// How many slots there are.
    pub(crate) fn len(&self) -> usize {
        self.slots.len()
    }

    /// Moves the slots to where the sink made room for more, if there is none here.
    fn widen<X: Wait>(&mut self, rt: &X, worker_signals: &WorkerSignals) {
        if self.slots.len() < self.slots.capacity() {
            return;
        }
        let mut wider = worker_signals.take_wider(rt, self.alloc);
        if wider.capacity() > self.slots.len() && wider.append(&mut self.slots).is_ok() {
            self.slots = wider;
        }
    }

    /// The connection of a socket was opened in a slot at this time. False where memory for the slot is refused.
    pub(crate) fn begin<X: Wait>(
        &mut self,
        rt: &X,
        worker_signals: &WorkerSignals,
        slot: usize,
        socket: Socket,
        now: u64,
    ) -> bool {
        if slot >= self.slots.len() {
            self.widen(rt, worker_signals);
            let free = Slot {
                socket: None,
                moved: 0,
                next: 0,
                patience: Patience::Open,
                is_ready: false,
                is_aside: false,
                window: 0,
                counted: 0,
            };
            if self.slots.push(free).is_err() {
                return false;
            }
        }
        let Some(one) = self.slots.get_mut(slot) else {
            return false;
        };
        one.moved = now;
        one.patience = Patience::Open;
        one.socket = Some(socket);
        true
    }

    /// The connection in a slot has ended, or rests. Its socket.
    pub(crate) fn end(&mut self, slot: usize) -> Option<Socket> {
        match self.slots.get_mut(slot) {
            Some(one) => one.socket.take(),
            None => None,
        }
    }

    /// The socket of the connection in a slot; None where none is open.
    fn socket(&self, slot: usize) -> Option<&Socket> {
        match self.slots.get(slot) {
            Some(one) => one.socket.as_ref(),
            None => None,
        }
    }

    /// Something was reported of the socket in a slot, or its next read is to be a call, and perhaps each one from now on.
    pub(crate) fn note_event(&self, slot: usize, is_asked: bool) {
        if let Some(socket) = self.socket(slot) {
            socket.note_event(is_asked);
        }
    }

    /// The connection in a slot begins a turn.
    pub(crate) fn begin_turn(&self, slot: usize) {
        if let Some(socket) = self.socket(slot) {
            socket.begin_turn();
        }
    }

    /// How many bytes the connection in a slot has read in its turn, and how many it has written.
    pub(crate) fn traffic(&self, slot: usize) -> Traffic {
        let received = match self.socket(slot) {
            Some(socket) => socket.received(),
            None => 0,
        };
        Traffic {
            received,
            sent: self.moved(slot).saturating_sub(received),
        }
    }

    /// How many bytes the connection in a slot has read and written in its turn.
    pub(crate) fn moved(&self, slot: usize) -> usize {
        match self.socket(slot) {
            Some(socket) => socket.moved(),
            None => 0,
        }
    }

    /// Whether the connection in a slot has called its socket since that was asked last, or since its turn began.
    pub(crate) fn take_call(&self, slot: usize) -> bool {
        match self.socket(slot) {
            Some(socket) => socket.take_call(),
            None => false,
        }
    }

    /// How many bytes of replies of the connection in a slot wait.
    pub(crate) fn waiting(&self, slot: usize) -> usize {
        match self.socket(slot) {
            Some(socket) => socket.waiting(),
            None => 0,
        }
    }

    /// How many bytes of replies were counted as waiting in a slot, and how many wait there now, which counts from now on.
    pub(crate) fn recount(&mut self, slot: usize) -> (usize, usize) {
        let now = self.waiting(slot);
        match self.slots.get_mut(slot) {
            Some(one) => {
                let before = one.counted;
                one.counted = now;
                (before, now)
            }
            None => (0, 0),
        }
    }

    /// How long the connection in a slot is waited for; None where none is open.
    pub(crate) fn patience(&self, slot: usize) -> Option<Patience> {
        match self.slots.get(slot) {
            Some(one) if one.socket.is_some() => Some(one.patience),
            _ => None,
        }
    }

    /// From now on the connection in a slot is waited for so long.
    pub(crate) fn set_patience(&mut self, slot: usize, patience: Patience) {
        if let Some(one) = self.slots.get_mut(slot) {
            one.patience = patience;
        }
    }

    /// Something of the connection in a slot moved at this time.
    pub(crate) fn note_move(&mut self, slot: usize, now: u64) {
        if let Some(one) = self.slots.get_mut(slot) {
            one.moved = now;
        }
    }

    /// Whether the connection in a slot is waited for, and was silent since then. One that is set aside isn't.
    pub(crate) fn is_silent(&self, slot: usize, since: u64) -> bool {
        match self.slots.get(slot) {
            Some(one) => {
                one.socket.is_some()
                    && one.patience == Patience::Open
                    && !one.is_aside
                    && one.moved < since
            }
            None => false,
        }
    }

    /// Marks a slot as one that is ready. False where it was, and where there is none.
    fn mark(&mut self, slot: usize) -> bool {
        match self.slots.get_mut(slot) {
            Some(one) => {
                let is_new = !one.is_ready;
                one.is_ready = true;
                is_new
            }
            None => false,
        }
    }

    /// Puts these slots at the end of a queue, of which the first leads to the others. The queue.
    fn joined(&mut self, line: Line, more: Line) -> Line {
        if more.count == 0 {
            return line;
        }
        if line.count == 0 {
            return more;
        }
        if let Some(before) = self.slots.get_mut(line.last) {
            before.next = more.first;
        }
        Line {
            first: line.first,
            last: more.last,
            count: line.count.saturating_add(more.count),
        }
    }

    /// Puts a slot at the end of the queue of those that are ready, if it is in no queue.
    pub(crate) fn mark_ready(&mut self, slot: usize) {
        if self.mark(slot) {
            self.ready = self.joined(self.ready, Line::of(slot));
        }
    }

    /// The same of a slot whose next read is a call, whatever was reported.
    pub(crate) fn mark_asked(&mut self, slot: usize) {
        self.note_event(slot, false);
        self.mark_ready(slot);
    }

    /// The first slot of those that are ready.
    pub(crate) fn first_ready(&self) -> Option<usize> {
        if self.ready.count == 0 {
            return None;
        }
        Some(self.ready.first)
    }

    /// Takes the first slot out of the queue of those that are ready. It may be put there again.
    pub(crate) fn take_ready(&mut self) -> Option<usize> {
        let slot = self.first_ready()?;
        let slots = self.slots.len();
        let one = self.slots.get_mut(slot)?;
        one.is_ready = false;
        one.window = self.activity.note_turn(one.window, slots);
        self.ready.first = one.next;
        self.ready.count = self.ready.count.saturating_sub(1);
        Some(slot)
    }

    /// Sets the first slot of those that are ready aside, behind those that are.
    pub(crate) fn set_aside(&mut self) {
        let Some(slot) = self.first_ready() else {
            return;
        };
        if let Some(one) = self.slots.get_mut(slot) {
            one.is_aside = true;
            self.ready.first = one.next;
            self.ready.count = self.ready.count.saturating_sub(1);
            self.aside = self.joined(self.aside, Line::of(slot));
        }
    }

    /// Whether slots are set aside.
    pub(crate) fn has_aside(&self) -> bool {
        self.aside.count > 0
    }

    /// Puts those that are set aside at the end of the queue of those that are ready. At this time all of them have moved.
    pub(crate) fn release(&mut self, now: u64) {
        let mut slot = self.aside.first;
        for _ in 0..self.aside.count {
            if let Some(one) = self.slots.get_mut(slot) {
                one.is_aside = false;
                one.moved = now;
                slot = one.next;
            }
        }
        self.ready = self.joined(self.ready, self.aside);
        self.aside = EMPTY;
    }

    /// How many connections had a turn lately.
    pub(crate) fn active(&self) -> usize {
        self.activity.active()
    }

    /// How many slots are ready.
    pub(crate) fn ready(&self) -> usize {
        self.ready.count
    }
}

//! What the system reports of a worker's sockets.

use crate::halves::RequestHalf;
use crate::slots::{Patience, Slots};
use crate::waits::WAKER;
use mio::unix::SourceFd;
use mio::{Events, Interest, Poll, Token};
use std::alloc::Global;
use std::io;
use std::io::ErrorKind;

/// Has a connection's slot reported when bytes can be read or written, and when urgent data have come.
pub(crate) fn register(poll: &Poll, reader: &RequestHalf, slot: usize) -> io::Result<()> {
    let Some(descriptor) = reader.descriptor() else {
        return Err(ErrorKind::NotConnected.into());
    };
    poll.registry().register(
        &mut SourceFd(&descriptor),
        Token(slot),
        Interest::READABLE | Interest::WRITABLE | Interest::PRIORITY,
    )
}

/// Notes which slots are ready at this time. `is_stopping` where none is waited for any more.
pub(crate) fn note_events(slots: &mut Slots, events: &Events<Global>, now: u64, is_stopping: bool) {
    for event in events.iter() {
        let Token(slot) = event.token();
        if slot != WAKER {
            slots.note_move(slot, now);
            let is_asked = event.is_read_closed() || event.is_error() || event.is_priority();
            slots.note_event(slot, is_asked);
            if !is_stopping {
                slots.set_patience(slot, Patience::Open);
            }
            slots.mark_ready(slot);
        }
    }
}

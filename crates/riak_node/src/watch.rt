//! Whether a descriptor can be read or written without waiting.

use mio::unix::SourceFd;
use mio::{Events, Interest, Poll, Token};
use std::alloc::Global;
use std::net::Net;
use std::os::fd::AsRawFd;
use std::time::Duration;

/// The greatest descriptor of the standard streams.
pub(crate) const STANDARD_ERROR: i32 = 2;

/// Tells whether a standard stream or a listener can be read, or written, without waiting. A listener can be read where a connection has come.
#[derive(Drop)]
pub(crate) struct Watch {
    descriptor: i32,
    interest: Interest,
    poll: Poll,
    events: Events<Global>,
}

impl Watch {
    /// Of what has this descriptor, if it can be watched: a file can't, and is never waited for. Where a standard stream was closed
    /// before the program began, the poll would get its descriptor, and is let go: who listens then finds that descriptor free.
    pub(crate) fn new<R: Net>(
        net: &R,
        alloc: Global,
        descriptor: i32,
        interest: Interest,
    ) -> Option<Watch> {
        let poll = Poll::new(net).ok()?;
        if poll.as_raw_fd() <= STANDARD_ERROR {
            return None;
        }
        let events = Events::with_capacity(alloc, 1).ok()?;
        poll.registry()
            .register(&mut SourceFd(&descriptor), Token(0), interest)
            .ok()?;
        Some(Watch {
            descriptor,
            interest,
            poll,
            events,
        })
    }

    /// Whether it is ready, or is so within this time. Also where that can't be found out.
    pub(crate) fn is_ready(&mut self, limit: Duration) -> bool {
        // readiness is reported at its change alone, or when it is asked for anew
        let mut source = SourceFd(&self.descriptor);
        if self
            .poll
            .registry()
            .reregister(&mut source, Token(0), self.interest)
            .is_err()
        {
            return true;
        }
        match self.poll.poll(&mut self.events, Some(limit)) {
            Ok(()) => !self.events.is_empty(),
            Err(_) => true,
        }
    }
}

//! Standard input, whose reads say so where nothing comes for a while.

use crate::watch::Watch;
use mio::Interest;
use std::alloc::Global;
use std::io;
use std::io::{ErrorKind, Read};
use std::net::Net;
use std::time::Duration;

/// The descriptor of standard input.
const STANDARD_INPUT: i32 = 0;

/// How long a read waits at most, in milliseconds.
const WAIT_MILLIS: u64 = 100;

/// How many bytes are passed over at once where only the end is waited for.
const PASSED_LEN: usize = 1_024;

/// Standard input. A read returns `WouldBlock` where nothing has come within 100 ms, so that who reads can end before the input does. A
/// file, which is never waited for, is read as ever.
#[derive(Drop)]
pub(crate) struct WatchedInput<I> {
    input: I,
    watch: Option<Watch>,
}

impl<I> WatchedInput<I> {
    /// Of this standard input.
    pub(crate) fn new<R: Net>(net: &R, alloc: Global, input: I) -> WatchedInput<I> {
        WatchedInput {
            input,
            watch: Watch::new(net, alloc, STANDARD_INPUT, Interest::READABLE),
        }
    }
}

impl<I: Read> WatchedInput<I> {
    /// Whether it has ended, or failed, as far as can be known without waiting. What has come is passed over.
    pub(crate) fn has_ended(&mut self) -> bool {
        if let Some(watch) = &mut self.watch {
            if !watch.is_ready(Duration::from_millis(0)) {
                return false;
            }
        }
        let mut passed = [0u8; PASSED_LEN];
        match self.input.read(&mut passed) {
            Ok(count) => count == 0,
            Err(error) => !matches!(error.kind(), ErrorKind::Interrupted | ErrorKind::WouldBlock),
        }
    }
}

impl<I: Read> Read for WatchedInput<I> {
    fn read(&mut self, buf: &mut [u8]) -> io::Result<usize> {
        if let Some(watch) = &mut self.watch {
            if !watch.is_ready(Duration::from_millis(WAIT_MILLIS)) {
                return Err(ErrorKind::WouldBlock.into());
            }
        }
        self.input.read(buf)
    }
}

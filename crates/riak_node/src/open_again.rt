//! A standard stream that is opened once more, for writes that never wait.

use crate::watch::STANDARD_ERROR;
use std::fs::{File, OpenOptions};
use std::net::TcpStream;
use std::os::fd::{AsFd, AsRawFd};

/// Opens what a standard stream is, by the name that Linux has for it, for writes that never wait. Other programs write to it by what they have opened, whose ways don't change.
/// None where it can't be opened, as a socket can't, nor a terminal or a pipe of another user; and where it would get the descriptor of a standard stream that was closed.
pub(crate) fn open_again(rt: &HostRuntime, path: &str, is_terminal: bool) -> Option<File> {
    let mut how = OpenOptions::new();
    // a terminal is opened for writing alone: one that could be read would become the controlling terminal of a session that has none. A pipe is
    // opened for both: to open it for writing alone waits until somebody reads it
    how.read(!is_terminal).write(true);
    let file = how.open(rt, path).ok()?;
    if file.as_raw_fd() <= STANDARD_ERROR {
        return None;
    }
    // not to wait is a way of what is open, and so of both descriptors; the type is one that can ask for it
    let twin = TcpStream::from(file.as_fd().try_clone_to_owned().ok()?);
    twin.set_nonblocking(true).ok()?;
    Some(file)
}

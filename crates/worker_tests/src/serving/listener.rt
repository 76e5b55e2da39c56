//! A listener whose first accepts fail by an error of the system.
use std::io;
use std::net::{Net, OpenListener, SocketAddr, TcpListener, TcpStream};
use std::os::fd::{AsRawFd, RawFd};
use std::sync::atomic::{AtomicU32, Ordering};

/// Linux's EBADF.
pub const BAD_DESCRIPTOR: i32 = 9;

/// Linux's ENOMEM.
pub const NO_MEMORY: i32 = 12;

/// Linux's ENFILE.
pub const NO_SYSTEM_DESCRIPTOR: i32 = 23;

/// Linux's EMFILE.
pub const NO_PROCESS_DESCRIPTOR: i32 = 24;

/// Linux's ENOBUFS.
pub const NO_BUFFER: i32 = 105;

/// Linux's ECONNABORTED.
pub const ABORTED: i32 = 103;

/// Linux's EHOSTUNREACH.
pub const NO_ROUTE_TO_HOST: i32 = 113;

/// How many of the first accepts fail, and by which error of the system.
#[derive(Clone, Copy)]
pub struct Failures {
    pub count: u32,
    pub code: i32,
}

/// No accept fails.
pub const NO_FAILURES: Failures = Failures { count: 0, code: 0 };

/// A listener whose first accepts fail. It counts all of them.
#[derive(Drop)]
pub struct Failing<'a> {
    pub listener: TcpListener,
    pub failures: Failures,
    pub accepts: &'a AtomicU32,
}

impl<'a> OpenListener for Failing<'a> {
    type Stream = TcpStream;

    fn accept(&self) -> io::Result<(TcpStream, SocketAddr)> {
        let before = self.accepts.fetch_add(1, Ordering::SeqCst);
        if before < self.failures.count {
            return Err(io::Error::from_raw_os_error(self.failures.code));
        }
        self.listener.accept()
    }

    fn local_addr(&self) -> io::Result<SocketAddr> {
        self.listener.local_addr()
    }

    fn set_nonblocking(&self, is_nonblocking: bool) -> io::Result<()> {
        self.listener.set_nonblocking(is_nonblocking)
    }
}

impl<'a> AsRawFd for Failing<'a> {
    fn as_raw_fd(&self) -> RawFd {
        self.listener.as_raw_fd()
    }
}

/// The port that a listener listens on.
fn port_of(listener: &TcpListener) -> Option<u16> {
    match listener.local_addr() {
        Ok(address) => Some(address.port()),
        Err(_) => None,
    }
}

/// A listener of this machine, and its port.
pub fn listen<N: Net<Listener = TcpListener, Stream = TcpStream>>(
    net: &N,
) -> Option<(TcpListener, u16)> {
    let listener = TcpListener::bind(net, "127.0.0.1:0").ok()?;
    let port = port_of(&listener)?;
    Some((listener, port))
}

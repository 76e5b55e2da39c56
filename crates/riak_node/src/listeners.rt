//! The listeners of `serve`.

ghost use Rattle.std.specs.Prelude.{◌≡◌, is_some, IfErr, IfOk};

use crate::conclusion::Conclusion;
use crate::control_port::ControlPort;
use crate::watch::STANDARD_ERROR;
use log::{Log, warn};
use std::alloc::Global;
use std::net::{IpAddr, Ipv4Addr, Net, SocketAddr, TcpListener, TcpStream};
use std::os::fd::{AsRawFd, OwnedFd};

/// A listener on this address and port, at whose door as many connections may wait as the system allows. None where there is none, and where a standard stream was closed before the
/// program began: sockets would get its descriptor, and what is printed or logged would go to clients. The log says why.
pub(crate) fn listen<R: Log + Net<Listener = TcpListener, Stream = TcpStream>>(
    rt: &R,
    address: IpAddr,
    port: u16,
) -> Option<TcpListener> {
    // a listener of the standard library has 128 wait at most
    let listener = match mio::net::TcpListener::bind(rt, SocketAddr::new(address, port)) {
        Ok(listener) => TcpListener::from(OwnedFd::from(listener)),
        Err(error) => {
            warn!(rt; "cannot listen on {address}, port {port}: {error}");
            return None;
        }
    };
    if listener.as_raw_fd() <= STANDARD_ERROR {
        warn!(rt; "a standard stream is closed");
        return None;
    }
    Some(listener)
}

/// The port to which an operator's clients come, where one is asked for, of this machine's address to itself alone: there is no authentication. How `serve` ends
/// where it can't be had.
pub(crate) fn control_port_of<R: Log + Net<Listener = TcpListener, Stream = TcpStream>>(
    rt: &R,
    alloc: Global,
    port: Option<u16>,
) -> Result<Option<ControlPort>, Conclusion>
    ensures asked { IfOk result (λ control. is_some control ≡ is_some port) }
    ensures none { IfErr result (λ end. end ≡ Conclusion.CannotListenForControl) }
{
    let Some(port) = port else {
        return Ok(None);
    };
    let Some(listener) = listen(rt, IpAddr::V4(Ipv4Addr::LOCALHOST), port) else {
        return Err(Conclusion::CannotListenForControl);
    };
    match ControlPort::new(rt, alloc, listener) {
        Some(control) => Ok(Some(control)),
        None => Err(Conclusion::CannotListenForControl),
    }
}

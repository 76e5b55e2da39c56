//! The two halves of a connection over a socket that needs not wait.

ghost use Rattle.std.specs.Prelude.{◌≡◌, ◌≤◌, ◌++◌, [], drop, length};
ghost use Rattle.std.specs.Prelude.{None, Some, IfOk, OnOk};
ghost use Rattle.std.specs.Io.KnownBytes.{WriteAppends};
ghost use Rattle.socket_streams.specs.Sending.{written, waiting};

use crate::connection::{Connection, Socket};
use crate::system_calls::{note, receive, send};
use ghost_state::{GhostList, GhostValue, Listing};
use node_session::{ReadNote, Source, Target};
use pb_frame::shrink_empty;
use std::alloc::Global;
use std::io;
use std::io::ErrorKind;
use std::marker::Model;
use std::net::{Shutdown, SocketAddr, TcpStream};
use std::os::fd::{AsRawFd, RawFd};
use std::sync::Arc;
use worker_pool::{EndRead, EndWrite};

/// How many bytes of replies are gathered at most before they are written to the socket.
const MAX_GATHERED: usize = 8_192;

/// The error for a frame that is too large, as a session writes it.
const FRAME_TOO_LARGE: &[u8] = b"\0\0\0\x14\0\x0a\x0fframe too large\x10\x01";

/// The half from which requests are read. A read that would have to wait returns `WouldBlock`. After the session's end it has let go of the
/// socket, and reads as at the end of its input.
///
/// Clauses see which connection it is a half of, and what each of its reads gave.
#[derive(Drop)]
pub struct RequestHalf {
    socket: Option<Socket>,
    peer: SocketAddr,
    /// How many connections its listener gave before, for clauses alone.
    number: GhostValue<u64>,
    /// What its reads gave, for clauses alone.
    heard: GhostList<ReadNote>,
}

impl Model for RequestHalf {
    ghost use Rattle.std.specs.Prelude.{◌≡◌, None, Some, IfSome};
    ghost use Rattle.node_session.specs.Streams.{SourceView};

    ghost Value = { SourceView };

    ghost view = { λ half. record {
      number = half.number;
      unread = None;
      heard = Some half.heard;
    } };

    // its socket is that of this connection
    ghost invariant = { λ half. IfSome half.socket
        (λ socket. socket.value.number ≡ half.number) };
}

/// The half to which replies are written. It gathers them, up to 8,192 bytes or until it is flushed, for one write to the socket. A write that
/// finds no room, and a flush, return `WouldBlock` while the socket doesn't take what is gathered. Where memory is refused for what is to be
/// gathered, it is written to the socket at once. After the session's end it has let go of the socket, and takes nothing more.
///
/// Clauses see which connection it is a half of, and all that was written to it: what the system took, what is gathered behind that, and what
/// was let go of at the session's end.
#[derive(Drop)]
pub struct ReplyHalf {
    socket: Option<Socket>,
    /// How many connections its listener gave before, for clauses alone.
    number: GhostValue<u64>,
    /// Those before `sent` were sent.
    gathered: Vec<u8>,
    sent: usize,
    /// What the system took, for clauses alone.
    taken: GhostList<u8>,
    /// What was gathered and not sent when the session ended, for clauses alone.
    lost: GhostList<u8>,
    /// Whether what was written last is the error for a frame that is too large.
    is_too_large: bool,
}

impl Model for ReplyHalf {
    ghost use Rattle.std.specs.Prelude.{◌≡◌, ◌≤◌, [], drop, length, IfSome, IfNone};
    ghost use Rattle.socket_streams.specs.Sending.{RepliesView};

    ghost Value = { RepliesView };

    ghost view = { λ half. record {
      number = half.number;
      sent = half.taken;
      held = drop half.sent half.gathered.items;
      lost = half.lost;
    } };

    ghost invariant = { λ half. (half.sent ≤ length half.gathered.items)
        × IfSome half.socket (λ _. half.lost ≡ [])
        × IfNone half.socket (half.gathered.items ≡ [])
        × IfSome half.socket (λ socket. socket.value.number ≡ half.number) };
}

/// A list, and behind it these bytes without the first so many.
struct WithRest;

impl<'a> Listing<(&'a GhostList<u8>, &'a [u8], usize), u8> for WithRest {
    ghost use Rattle.std.specs.Prelude.{◌++◌, drop};

    ghost list = { λ of. of.0.now ++ drop of.2 of.1.now };
}

/// Hands to the system what is gathered behind the first so many bytes. `WouldBlock` where it doesn't take it all now.
fn send_rest(
    socket: &Socket,
    taken: &mut GhostList<u8>,
    gathered: &[u8],
    sent: &mut usize,
) -> io::Result<()>
    requires { sent.old ≤ length gathered.now }
    ensures within { sent.new ≤ length gathered.now }
    ensures kept { taken.new ++ drop sent.new gathered.now
        ≡ taken.old ++ drop sent.old gathered.now }
    ensures all { OnOk result (sent.new ≡ length gathered.now) }
{
    for _ in 0..=MAX_GATHERED {
        let rest = &gathered[*sent..];
        if rest.is_empty() {
            return Ok(());
        }
        let n = send(socket, taken, rest)?;
        if n == 0 {
            return Err(ErrorKind::WriteZero.into());
        }
        *sent += n;
    }
    Err(ErrorKind::WouldBlock.into())
}

impl RequestHalf {
    /// The address of the client.
    pub fn peer(&self) -> SocketAddr {
        self.peer
    }

    /// The descriptor of the socket, until the session's end.
    pub(crate) fn descriptor(&self) -> Option<RawFd> {
        match &self.socket {
            Some(socket) => Some(socket.stream().as_raw_fd()),
            None => None,
        }
    }

    /// Shuts the socket down, so that the session's next read meets the end.
    pub(crate) fn shut_down(&self) {
        if let Some(socket) = &self.socket {
            socket.note_event(true);
            // Only a connection that its client has ended can't be shut down.
            let _is_ended = socket.stream().shutdown(Shutdown::Both).is_err();
        }
    }

    /// The socket once more; None after the session's end.
    pub(crate) fn share_socket(&self) -> Option<Socket> {
        match &self.socket {
            Some(socket) => Arc::try_clone(socket).ok(),
            None => None,
        }
    }
}

impl Source for RequestHalf {
    ghost source = { λ half. half };

    fn receive(&mut self, buf: &mut [u8]) -> io::Result<usize> {
        match &self.socket {
            Some(socket) => receive(socket, &mut self.heard, buf),
            None => {
                let came = Ok(0);
                note(&mut self.heard, buf, &came);
                came
            }
        }
    }
}

impl EndRead for RequestHalf {
    fn ended(&mut self) {
        self.socket = None;
    }
}

impl ReplyHalf {
    /// Of a socket to which nothing was written.
    fn new(alloc: Global, socket: Socket, number: u64) -> ReplyHalf
        requires { socket.value.number ≡ Some number }
        ensures { result ≡ record { number = Some number; sent = []; held = []; lost = [] } }
    {
        ReplyHalf {
            socket: Some(socket),
            number: GhostValue::some(&number),
            gathered: Vec::new(alloc),
            sent: 0,
            taken: GhostList::new(),
            lost: GhostList::new(),
            is_too_large: false,
        }
    }

    /// Whether what was written last is the error for a frame that is too large.
    pub(crate) fn is_too_large(&self) -> bool {
        self.is_too_large
    }

    /// Writes all that is gathered to the socket. `WouldBlock` where that doesn't take it all now: then so many bytes behind it wait too.
    fn send_gathered(&mut self, behind: usize) -> io::Result<()>
        ensures kept { written self.new ≡ written self.old }
        ensures all { OnOk result (waiting self.new ≡ []) }
        ensures lost { self.new.lost ≡ self.old.lost }
        ensures number { self.new.number ≡ self.old.number }
    {
        let Some(socket) = &self.socket else {
            return Err(ErrorKind::NotConnected.into());
        };
        socket.note_handed(self.gathered.len().saturating_add(behind));
        send_rest(socket, &mut self.taken, &self.gathered, &mut self.sent)?;
        self.gathered.clear();
        self.sent = 0;
        Ok(())
    }

    /// Writes to the socket at once, where nothing is gathered.
    fn write_through(&mut self, buf: &[u8]) -> io::Result<usize>
        requires { self.old.held ≡ [] }
        ensures bound { IfOk result (λ n. n ≤ length buf.now) }
        ensures bytes { WriteAppends (Some (written self.old)) (Some (written self.new))
            result buf.now }
        ensures lost { self.new.lost ≡ self.old.lost }
        ensures number { self.new.number ≡ self.old.number }
    {
        match &self.socket {
            Some(socket) => {
                socket.note_handed(buf.len());
                send(socket, &mut self.taken, buf)
            }
            None => Ok(0),
        }
    }
}

impl Target for ReplyHalf {
    ghost use Rattle.socket_streams.specs.Sending.{target_of_replies};

    ghost target = { target_of_replies };

    fn send(&mut self, buf: &[u8]) -> io::Result<usize>
        ensures bound { IfOk result (λ n. n ≤ length buf.now) }
        ensures bytes { WriteAppends (Some (written self.old)) (Some (written self.new))
            result buf.now }
        ensures number { self.new.number ≡ self.old.number }
    {
        self.is_too_large = buf == FRAME_TOO_LARGE;
        if self.gathered.len() >= MAX_GATHERED {
            self.send_gathered(buf.len())?;
        }
        match &self.socket {
            Some(socket) => socket.note_call(),
            None => return Ok(0),
        }
        if self.gathered.is_empty() && buf.len() >= MAX_GATHERED {
            return self.write_through(buf);
        }
        let room = MAX_GATHERED.saturating_sub(self.gathered.len());
        let piece = &buf[..buf.len().min(room)];
        if self.gathered.extend_from_slice(piece).is_ok() {
            return Ok(piece.len());
        }
        self.send_gathered(buf.len())?;
        self.write_through(buf)
    }

    fn flush(&mut self) -> io::Result<()>
        ensures bytes { written self.new ≡ written self.old }
        ensures all { OnOk result (waiting self.new ≡ []) }
        ensures number { self.new.number ≡ self.old.number }
    {
        self.send_gathered(0)?;
        shrink_empty(&mut self.gathered);
        Ok(())
    }
}

impl EndWrite for ReplyHalf {
    fn ended(&mut self)
        ensures bytes { written self.new ≡ written self.old }
        ensures sent { self.new.sent ≡ self.old.sent }
        ensures waits { waiting self.new ≡ waiting self.old }
        ensures none { self.new.held ≡ [] }
        ensures number { self.new.number ≡ self.old.number }
    {
        self.socket = None;
        let unsent: (&GhostList<u8>, &[u8], usize) = (&self.lost, &self.gathered, self.sent);
        self.lost = GhostList::listed::<(&GhostList<u8>, &[u8], usize), WithRest>(&unsent);
        self.gathered.clear();
        self.sent = 0;
        shrink_empty(&mut self.gathered);
    }
}

/// The socket of a stream, which is the connection of this number; the stream, where memory is refused.
pub(crate) fn new_socket(alloc: Global, stream: TcpStream, number: u64) -> Result<Socket, TcpStream>
    ensures { IfOk result (λ socket. socket.value.number ≡ Some number) }
{
    match Arc::new(alloc, Connection::new(stream, number)) {
        Ok(socket) => Ok(socket),
        Err(failed) => Err(failed.value.into_stream()),
    }
}

/// Has a socket not wait, and send replies without delay. The halves of this connection; refused by the system alone.
pub(crate) fn new_halves(
    alloc: Global,
    socket: Socket,
    peer: SocketAddr,
    number: u64,
) -> io::Result<(RequestHalf, ReplyHalf)>
    requires { socket.value.number ≡ Some number }
    ensures reader { IfOk result (λ halves.
        halves.0 ≡ record { number = Some number; unread = None; heard = Some [] }) }
    ensures writer { IfOk result (λ halves.
        halves.1 ≡ record { number = Some number; sent = []; held = []; lost = [] }) }
{
    socket.stream().set_nonblocking(true)?;
    socket.stream().set_nodelay(true)?;
    let theirs = Arc::try_clone(&socket)?;
    let reader = RequestHalf {
        socket: Some(socket),
        peer,
        number: GhostValue::some(&number),
        heard: GhostList::new(),
    };
    Ok((reader, ReplyHalf::new(alloc, theirs, number)))
}

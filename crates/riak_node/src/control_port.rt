//! The port to which an operator's clients come.

ghost use Rattle.std.specs.Prelude.{None};
ghost use Rattle.std.specs.Io.{ReadsAtMost};

use crate::operator::{Operator, WAIT_MILLIS, dismiss};
use crate::watch::Watch;
use mio::Interest;
use std::alloc::Global;
use std::io;
use std::io::{BufWriter, ErrorKind, Read, Write};
use std::net::{Net, TcpListener, TcpStream};
use std::os::fd::{AsFd, AsRawFd, OwnedFd};
use std::time::Duration;

/// How many bytes are gathered for one write: more than an answer has.
const ANSWER_LEN: usize = 512;

/// What a client is told that comes while another is connected.
const BUSY: &[u8] = b"refused: another operator is connected\n";

/// How many bytes of a client are read at most before it is looked whether another has come.
const LOOK_BYTES: u32 = 256;

/// How many clients are turned away at one look, at most.
const MAX_TURNED_AWAY: u32 = 64;

/// How often it is looked at most whether who is connected has gone, before one who came meanwhile is turned away.
const MAX_LOOKS: u32 = 1_000;

/// Who came while another was connected that had lines left to be read, and so may have gone by then.
#[derive(Drop)]
struct Newcomer {
    stream: TcpStream,
    looks: u32,
}

/// A port to which an operator's clients come, one at a time: who comes while another is connected is told so, and closed. Their connections are one channel, which has no end.
///
/// - Who is connected stays so until it closes its connection, doesn't read an answer for a second, or has written nothing for a minute when another comes. An operator may leave a
///   terminal open for as long as nobody else needs the console, and none is kept out for longer by one that was forgotten.
/// - A line with a byte that no command has, as each request of HTTP begins with, is the last that is read of a client: the client is closed once that line was answered.
/// - A descriptor is kept back for an operator who comes where clients of the node have all others.
///
/// A read returns one byte at most, and `WouldBlock` where nothing has come within 100 ms, so that who reads can end before the clients do; and `ConnectionReset`
/// where the next client has come, so that what it writes isn't joined to a line that the one before left half written. An answer to a client that has gone is passed over.
#[derive(Drop)]
pub(crate) struct ControlPort {
    listener: TcpListener,
    watch: Option<Watch>,
    client: BufWriter<Operator>,
    newcomer: Option<Newcomer>,
    /// A descriptor that is let go where there is none for an operator. Nothing is done with what it is of.
    spare: Option<OwnedFd>,
    /// How many bytes were read since the last look for others.
    read_bytes: u32,
}

impl ControlPort {
    /// Of this listener. None where memory is refused, or the listener can't be asked without waiting.
    pub(crate) fn new<R: Net>(
        net: &R,
        alloc: Global,
        listener: TcpListener,
    ) -> Option<ControlPort> {
        listener.set_nonblocking(true).ok()?;
        let client = BufWriter::with_capacity(alloc, ANSWER_LEN, Operator::nobody()).ok()?;
        let watch = Watch::new(net, alloc, listener.as_raw_fd(), Interest::READABLE);
        let spare = listener.as_fd().try_clone_to_owned().ok();
        Some(ControlPort {
            listener,
            watch,
            client,
            newcomer: None,
            spare,
            read_bytes: 0,
        })
    }

    /// Writes where clients may come, in a line.
    pub(crate) fn announce<W: Write>(&self, writer: &mut W) -> io::Result<()> {
        let address = self.listener.local_addr()?;
        writeln!(writer, "control {address}")?;
        writer.flush()
    }

    /// Keeps a descriptor back again, where it was let go.
    fn keep_spare(&mut self) {
        if self.spare.is_none() {
            self.spare = self.listener.as_fd().try_clone_to_owned().ok();
        }
    }

    /// Ends a connection of which the client is told this, and closes it; where no other descriptor can be had to be kept back, it is this one.
    fn close(&mut self, stream: TcpStream, told: &[u8]) {
        let mut stream = stream;
        dismiss(&mut stream, told);
        self.keep_spare();
        if self.spare.is_none() {
            self.spare = Some(OwnedFd::from(stream));
        }
    }

    /// The next client, if one has come: where the system has no descriptor for it, by the one that is kept back.
    fn accept(&mut self) -> Option<TcpStream> {
        let error = match self.listener.accept() {
            Ok((stream, _)) => return Some(stream),
            Err(error) => error,
        };
        if error.kind() == ErrorKind::WouldBlock || self.spare.is_none() {
            return None;
        }
        self.spare = None;
        match self.listener.accept() {
            Ok((stream, _)) => Some(stream),
            Err(_) => None,
        }
    }

    /// The next client, if one comes within 100 ms.
    fn wait_for_client(&mut self) -> Option<TcpStream> {
        if let Some(newcomer) = self.newcomer.take() {
            return Some(newcomer.stream);
        }
        if let Some(watch) = &mut self.watch {
            if !watch.is_ready(Duration::from_millis(WAIT_MILLIS)) {
                return None;
            }
        }
        self.accept()
    }

    /// Turns a client away that came while another is connected, unless that one has been silent for a minute, or may have gone.
    fn meet(&mut self, newcomer: Newcomer) {
        let operator = self.client.get_mut();
        if newcomer.looks < MAX_LOOKS && !operator.is_quiet() || operator.end_if_silent() {
            self.newcomer = Some(newcomer);
        } else {
            self.close(newcomer.stream, BUSY);
        }
    }

    /// Meets those who have come while somebody is connected.
    fn look_for_others(&mut self) {
        self.read_bytes = 0;
        self.keep_spare();
        if let Some(newcomer) = self.newcomer.take() {
            let looks = newcomer.looks.saturating_add(1);
            self.meet(Newcomer { looks, ..newcomer });
        }
        for _ in 0..MAX_TURNED_AWAY {
            if self.newcomer.is_some() || !self.client.get_ref().is_there() {
                return;
            }
            let Some(stream) = self.accept() else {
                return;
            };
            self.meet(Newcomer { stream, looks: 0 });
        }
    }

    /// Reads of who is connected, and looks for others at each line's end, and where nothing has come.
    fn read_client(&mut self, buf: &mut [u8]) -> io::Result<usize>
        ensures { ReadsAtMost result buf.new }
    {
        let read = self.client.get_mut().read(buf);
        self.read_bytes = self.read_bytes.saturating_add(1);
        let is_due = match &read {
            Ok(_) => self.read_bytes >= LOOK_BYTES || buf.first() == Some(&b'\n'),
            Err(_) => true,
        };
        if is_due {
            self.look_for_others();
        }
        read
    }
}

impl Read for ControlPort {
    fn read(&mut self, buf: &mut [u8]) -> io::Result<usize> {
        if let Some(ended) = self.client.get_mut().take_ended() {
            self.close(ended, b"");
        }
        if self.client.get_ref().is_there() {
            return self.read_client(buf);
        }
        self.keep_spare();
        let Some(stream) = self.wait_for_client() else {
            return Err(ErrorKind::WouldBlock.into());
        };
        match self.client.get_mut().begin(stream) {
            Ok(()) => Err(ErrorKind::ConnectionReset.into()),
            Err(_) => Err(ErrorKind::WouldBlock.into()),
        }
    }
}

impl Write for ControlPort {
    ghost contents = { λ _. None };

    fn write(&mut self, buf: &[u8]) -> io::Result<usize> {
        self.client.write(buf)
    }

    fn flush(&mut self) -> io::Result<()> {
        self.client.flush()
    }
}

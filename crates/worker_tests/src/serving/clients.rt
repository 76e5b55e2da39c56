//! What the clients of a run do, step by step.
use std::alloc::Global;
use std::io::{Read, Write};
use std::net::{Net, Shutdown, TcpStream};
use std::sync::atomic::{AtomicBool, AtomicU16, Ordering};

/// A step of the clients.
pub enum Step {
    /// A further client connects.
    Connects,
    /// One of those that are connected, counted from 0 on, does something.
    Acts(usize, Action),
    /// The client that connected last goes.
    Leaves,
    /// Where serving ends at the end of an input, that comes.
    InputEnds,
}

/// What a client does, or is to see.
pub enum Action {
    /// It sends these bytes.
    Sends(&'static [u8]),
    /// It sends these bytes, each by a write of its own.
    SendsByteByByte(&'static [u8]),
    /// It sends so many times 1,024 zeros.
    SendsZeros(u32),
    /// It gets these bytes next, and then so many others, up to 64 of each.
    Gets(&'static [u8], usize),
    /// It says that it sends no more.
    Shuts,
    /// It gets nothing more.
    IsEnded,
}

/// The ports from which the first three clients connected, and 0 where there was none.
#[derive(Drop)]
pub struct Ports {
    ports: [AtomicU16; 3],
}

impl Ports {
    /// No client has connected.
    pub fn new() -> Ports {
        Ports {
            ports: [AtomicU16::new(0), AtomicU16::new(0), AtomicU16::new(0)],
        }
    }

    /// The port of a client, counted from 0 on.
    pub fn of(&self, client: usize) -> u16 {
        match self.ports.get(client) {
            Some(port) => port.load(Ordering::SeqCst),
            None => 0,
        }
    }

    /// Keeps the port of a client, where it is one of those.
    fn keep(&self, client: usize, stream: &TcpStream) {
        if let (Some(port), Ok(address)) = (self.ports.get(client), stream.local_addr()) {
            port.store(address.port(), Ordering::SeqCst);
        }
    }
}

/// Whether a client connects to a port of this machine.
fn connects<N: Net<Stream = TcpStream>>(
    net: &N,
    port: u16,
    streams: &mut Vec<TcpStream>,
    ports: &Ports,
) -> bool {
    match TcpStream::connect(net, ("127.0.0.1", port)) {
        Ok(stream) => {
            ports.keep(streams.len(), &stream);
            let is_set = stream.set_nodelay(true).is_ok();
            streams.push(stream).is_ok() && is_set
        }
        Err(_) => false,
    }
}

/// Whether so many bytes come next, up to 64. They are put into a buffer.
fn fills(stream: &mut TcpStream, buffer: &mut [u8; 64], count: usize) -> bool {
    match buffer.get_mut(..count) {
        Some(place) => stream.read_exact(place).is_ok(),
        None => false,
    }
}

/// Whether these bytes come next, and then so many others.
fn brings(stream: &mut TcpStream, beginning: &[u8], rest: usize) -> bool {
    let mut first = [0u8; 64];
    let mut second = [0u8; 64];
    fills(stream, &mut first, beginning.len())
        && first.get(..beginning.len()) == Some(beginning)
        && fills(stream, &mut second, rest)
}

/// Whether nothing more comes.
fn is_at_end(stream: &mut TcpStream) -> bool {
    let mut buffer = [0u8; 1];
    matches!(stream.read(&mut buffer), Ok(0))
}

/// Whether each of these bytes goes out by a write of its own.
fn sends_each(stream: &mut TcpStream, bytes: &[u8]) -> bool {
    let mut is_well = true;
    for byte in bytes {
        is_well = is_well && stream.write_all(&[*byte]).is_ok();
    }
    is_well
}

/// Whether so many times 1,024 zeros go out.
fn sends_zeros(stream: &mut TcpStream, pieces: u32) -> bool {
    let zeros = [0u8; 1024];
    for _ in 0..pieces {
        if stream.write_all(&zeros).is_err() {
            return false;
        }
    }
    true
}

/// Whether an action of a client goes as it should.
fn act(stream: &mut TcpStream, action: &Action) -> bool {
    match action {
        Action::Sends(bytes) => stream.write_all(bytes).is_ok(),
        Action::SendsByteByByte(bytes) => sends_each(stream, bytes),
        Action::SendsZeros(pieces) => sends_zeros(stream, *pieces),
        Action::Gets(bytes, rest) => brings(stream, bytes, *rest),
        Action::Shuts => stream.shutdown(Shutdown::Write).is_ok(),
        Action::IsEnded => is_at_end(stream),
    }
}

/// Whether a step goes as it should.
fn take<N: Net<Stream = TcpStream>>(
    net: &N,
    port: u16,
    streams: &mut Vec<TcpStream>,
    ports: &Ports,
    has_ended: &AtomicBool,
    step: &Step,
) -> bool {
    match step {
        Step::Connects => connects(net, port, streams, ports),
        Step::Acts(client, action) => match streams.get_mut(*client) {
            Some(stream) => act(stream, action),
            None => false,
        },
        Step::Leaves => streams.pop().is_some(),
        Step::InputEnds => {
            has_ended.store(true, Ordering::SeqCst);
            true
        }
    }
}

/// Whether all steps go as they should. Where one doesn't, those behind it are taken nevertheless, so that all clients come. Behind the last
/// one the input has ended. The ports of the clients are kept.
pub fn take_all<N: Net<Stream = TcpStream>>(
    net: &N,
    alloc: Global,
    port: u16,
    ports: &Ports,
    has_ended: &AtomicBool,
    steps: &[Step],
) -> bool {
    let mut streams = Vec::new(alloc);
    let mut is_well = true;
    for step in steps {
        is_well = take(net, port, &mut streams, ports, has_ended, step) && is_well;
    }
    has_ended.store(true, Ordering::SeqCst);
    is_well
}

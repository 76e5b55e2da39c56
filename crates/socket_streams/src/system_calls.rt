//! The calls by which bytes of a connection come from the system and go to it, and what they note for clauses.

ghost use Rattle.std.specs.Prelude.{◌≡◌, ◌≤◌, ◌++◌, ◌∷◌, [], take, length, IfOk, OnErr};
ghost use Rattle.std.specs.Io.{ReadsAtMost};
ghost use Rattle.node_session.specs.Streams.{note_of};

use crate::connection::Socket;
use ghost_state::{GhostList, Listing};
use node_session::ReadNote;
use std::io;
use std::io::{ErrorKind, Read, Write};

/// A list of notes, and behind it that of one read.
struct WithNote;

impl<'a> Listing<(&'a GhostList<ReadNote>, &'a [u8], &'a io::Result<usize>), ReadNote>
    for WithNote {
    ghost use Rattle.std.specs.Prelude.{◌++◌, ◌∷◌, []};
    ghost use Rattle.node_session.specs.Streams.{note_of};

    ghost list = { λ of. of.0.now ++ note_of of.2.now of.1.now ∷ [] };
}

/// Notes what came of a read into a buffer.
pub(crate) fn note(heard: &mut GhostList<ReadNote>, buf: &[u8], came: &io::Result<usize>)
    ensures { heard.new ≡ heard.old ++ note_of came.now buf.now ∷ [] }
{
    let of: (&GhostList<ReadNote>, &[u8], &io::Result<usize>) = (&*heard, buf, came);
    *heard = GhostList::listed::<(&GhostList<ReadNote>, &[u8], &io::Result<usize>), WithNote>(&of);
}

/// Has the system put bytes into a buffer, and notes what came of that.
pub(crate) fn receive(
    socket: &Socket,
    heard: &mut GhostList<ReadNote>,
    buf: &mut [u8],
) -> io::Result<usize>
    ensures bound { ReadsAtMost result buf.new }
    ensures heard { heard.new ≡ heard.old ++ note_of result buf.new ∷ [] }
{
    socket.note_call();
    let room = buf.len();
    let came = if socket.is_drained() {
        Err(ErrorKind::WouldBlock.into())
    } else {
        let mut stream = socket.stream();
        let came = stream.read(buf);
        socket.note_result(&came);
        came
    };
    if let Ok(taken) = &came {
        socket.note_received(*taken);
        socket.note_read(*taken, room);
    }
    note(heard, buf, &came);
    came
}

/// A list, and behind it the first so many of these bytes.
struct WithFirst;

impl<'a> Listing<(&'a GhostList<u8>, &'a [u8], usize), u8> for WithFirst {
    ghost use Rattle.std.specs.Prelude.{◌++◌, take};

    ghost list = { λ of. of.0.now ++ take of.2 of.1.now };
}

/// Hands bytes to the system, as many as it takes at once, which are noted behind those that it took before.
pub(crate) fn send(socket: &Socket, taken: &mut GhostList<u8>, bytes: &[u8]) -> io::Result<usize>
    ensures bound { IfOk result (λ n. n ≤ length bytes.now) }
    ensures took { IfOk result (λ n. taken.new ≡ taken.old ++ take n bytes.now) }
    ensures kept { OnErr result (taken.new ≡ taken.old) }
{
    let mut stream = socket.stream();
    let came = stream.write(bytes);
    match &came {
        Ok(n) => {
            socket.note_taken(*n, bytes.len());
            let more: (&GhostList<u8>, &[u8], usize) = (&*taken, bytes, *n);
            *taken = GhostList::listed::<(&GhostList<u8>, &[u8], usize), WithFirst>(&more);
        }
        Err(_) => socket.note_result(&came),
    }
    came
}

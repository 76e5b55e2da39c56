//! The laws of sessions, as functions that have nothing to run: their contracts are theorems.

ghost use Rattle.std.specs.Prelude.{ℕ, ◌≡◌};
ghost use Rattle.node_session.specs.Limits.{max_read_len};
ghost use Rattle.node_session.specs.SessionLaws.{IsRunNumber, RunsAreRegisters, EndsAreRegisters};
ghost use Rattle.node_session.specs.SessionLaws.{StopsAreRegisters};

use crate::serving::MAX_READ_LEN;

/// A plain node is the sibling register, message by message and byte by byte.
///
/// Take a new node of any run, on any ring and with any budget of sweeps, and any messages. Each of its vnodes has a
/// history that is legal under the register's definition and after which the vnode is. The replies are those of the
/// register, which keeps these histories for good and has no clocks, each at the history of its key's partition: a get
/// shows the siblings and the context of its position in the history; a put or a delete is refused as the register may
/// refuse it there, or it is the next event, and its reply shows the position after it. A message that is no request is
/// answered by its error, a ping by a ping, and neither is an event. Nor is a request for which memory was refused,
/// which is answered by `no memory`.
///
/// `run` is about messages and replies. `ended` and `stopped` are about bytes: what a session over the node wrote for
/// its input, however that was cut, to its end or to any fault, is what a session over the register writes.
///
/// A context counts as having seen what it names, whoever sends it; a delete without context saw all of its key.
pub fn plain_node_is_register()
    ensures run { (run index_bits budget : ℕ) → IsRunNumber run
        → RunsAreRegisters run index_bits budget }
    ensures ended { (run index_bits budget : ℕ) → IsRunNumber run
        → EndsAreRegisters run index_bits budget }
    ensures stopped { (run index_bits budget : ℕ) → IsRunNumber run
        → StopsAreRegisters run index_bits budget }
{}

/// What one read counts for, at most, is the limit of the definitions.
pub fn read_limit()
    ensures { MAX_READ_LEN ≡ max_read_len }
{}

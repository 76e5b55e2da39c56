//! One connection of the node, over any reader, any writer and any node: requests come in frames, and each is answered
//! by one reply in a frame, in order.
//!
//! ```text
//! let mut node = PlainNode::new(alloc, 1)?;                       // run 1, a ring of one partition, no sweeps
//! serve(alloc, &mut reader, &mut writer, &mut node, 1000)         // reader: 00 00 00 01 01 (a ping) and 00 00 07
//!     == Ok(Ended { replies: 1, rest: 3 })                        // writer: 00 00 00 01 02; three bytes were no frame
//! serve(alloc, &mut reader, &mut writer, &mut node, 1000)         // reader: 00 00 00 00 (a length that no frame has)
//!     == Err(SessionFault::BadFrame(0))                           // writer: the error `bad frame`, which isn't counted
//! ```
//!
//! What a session writes is `Answered` by its input (`specs/Answered`): the frames of the input's
//! messages are read one after another, each message is answered by a step of the node, or by its error
//! where it is no request, and the frames of these replies are written. A length that no frame has is
//! answered by one error, and ends the session. Each other end has its clause too: how many whole replies
//! went out before it, and the state of the node (`specs/Session`).
//!
//! [`Session`] is a session in steps, each of which answers one message or calls one stream once; each
//! reply is sent before the next message is answered. Whoever has many of them may take their steps in
//! any order, and each comes to what `serve` promises (`specs/Stages`). [`serve`] is the loop of these
//! steps, over streams that wait. What a step reads into, and where a reply's frame lies until it was
//! sent, is lent to it ([`Scratch`]), so a session that waits for its next request holds no buffer.
//!
//! `serve` reads up to 4,096 bytes at a time, and answers each whole frame that has come before it reads
//! on. Where it stops among its answers, no frame is left unanswered but those that its last 4,096 bytes
//! at most made whole. It never holds the whole input: only the frame that is still to come whole, what
//! was read along with it, and one reply. Errors take no memory. It asks the writer to flush before each
//! read, so a writer may gather the replies and pay one write for all that a read brought. Where a worker
//! lends the room ([`Scratch`]), what a long message still lacks is read up to 65,536 bytes at a time,
//! and never more than that: such a read counts as one for each 4,096 bytes of it.
//!
//! A get without options in the form that most clients write is asked of the node by the names that lie
//! in its message ([`Node::answer_plain_get`]), so no copy of them is made; a node that doesn't answer so
//! is asked it whole.
//!
//! `PlainNode` is a node for one thread: the vnodes of a ring, each key in that of its partition, whose
//! machine is its step (`specs/PlainNodes`). After each answer to a get, a put or a delete it forgets the
//! first dead keys of that key's vnode, so many at most. `plain_node_is_register` is the law of its
//! sessions.
//!
//! How a session reads and writes is a [`Transport`]: that of any reader and writer, or that of a
//! [`Source`] that notes its reads and a [`Target`] that tells what it holds back. By the notes clauses say
//! what a session over a socket was given, though nobody knows that beforehand.
//!
//! # Proved
//!
//! The output of `serve` is the session's output for the bytes that its reads gave, over any reader,
//! writer and node. By the notes of these reads (`specs/Session`): the end of the input comes behind a
//! read that gave nothing, and then the writer holds nothing back; `read failed` behind a read that failed
//! and wasn't interrupted; `too many reads` just where the reads count for as many as may be made.
//! Each step of a `Session` leaves less to be done, so a session ends. **A session
//! over a plain node is one over the sibling register**: each reply but `no memory` is what the
//! register answers at its place. By `serve`, the calls of `Session`, `Node`, `ReplyFrame` and
//! `PlainNode`, `write_fault`, `exit_status`; laws `plain_node_is_register`, `read_limit`.
//!
//! # Tested
//!
//! Each frame is answered and flushed before the next read.
//!
//! # Open
//!
//! No clause says:
//!
//! - that a write which failed isn't tried again, and that `write failed` comes behind one that did;
//! - that a read asks for all it may;
//! - that what was written before a refusal of memory is flushed.
//!
//! Of a reader that notes nothing the notes are any that give its bytes.
#![tactic(auto)]

mod answer_counts;
mod answering;
mod buffers;
mod constant_frames;
mod ended;
mod exchange;
mod fault;
mod framed_reply;
mod laws;
mod node;
mod plain_node;
mod reading;
mod reply;
mod reply_frame;
mod report;
mod scratch;
mod serving;
mod session;
mod source;
mod stage;
mod target;
mod transport;
mod vnode_reply;

pub use answer_counts::{AnswerCounts, MessageKind};
pub use buffers::Buffers;
pub use ended::Ended;
pub use exchange::Exchange;
pub use fault::SessionFault;
pub use framed_reply::{FramedReply, GhostReply, put_error, put_reply, put_stored};
pub use laws::{plain_node_is_register, read_limit};
pub use node::Node;
pub use pb_frame::MAX_READS;
pub use plain_node::{NodeFault, PlainNode};
pub use reply_frame::ReplyFrame;
pub use report::{exit_status, write_fault};
pub use scratch::Scratch;
pub use serving::{MAX_READ_LEN, serve};
pub use session::Session;
pub use source::{ReadNote, Source};
pub use stage::Stage;
pub use target::Target;
pub use transport::{Noted, Plain, Transport};

//! A node over the gates of a run: many threads, each with a node of its own, serve one set of vnodes.
//!
//! [`Shared`] has a gate (`rw_gate`) round the vnode of each partition of a ring, and the fallbacks
//! of those that are diverted (`handoff`). [`Passes`] are one caller's passes of these gates, and
//! of the fallbacks that it met: what the caller has seen of each vnode's history, and which of its
//! events the caller published. A [`GateNode`] answers requests by them: a get under a right to
//! read, a put or a delete under a right to write, and after each of these the first dead keys of
//! that vnode are forgotten, so many at most, each under a right to write of its own. Each of these
//! calls passes a [`Turnstile`] while it has its right. What was answered is counted once no right is
//! held, by the node's counter (`CountReplies` of `stats_book`). That of [`GateNode::new`] counts for
//! a share of a book, which has its numbers when the node is taken apart. [`GateNode::counting_by`]
//! takes any.
//!
//! What it means (`specs/GateStep`): each reply is the vnode machine's at one position of the
//! history of the key's vnode, and not before what the caller had seen of it; an accepted put or
//! delete is the event at that position, published once, and the caller's own; what the caller has
//! seen of any other vnode stays. Where commands alone stand before them, these positions are legal
//! histories of the sibling register, since each gate was made round a new vnode
//! ([`positions_are_legal`]). The errors `moved` and `history full` change nothing: the history had
//! gone on past the state that was found, which no path of today's gate leads to, or the vnode is
//! closed, or the history can have no further event. The node's count rises by one for what was
//! answered and by one for each dead key that was forgotten, and by nothing else; where a number
//! would pass the last one, the reply is the same and the node keeps that fact.
//!
//! Where a key's partition has a fallback, all of that is so at the fallback while it isn't closed:
//! another vnode, which has an id and a history of its own, and at first no keys (`AtFallback`). No
//! dead key is forgotten there, and the primary isn't asked; what it holds no request sees. A
//! partition is diverted only while no node is over the gates ([`Shared::into_handoff`]), and a
//! caller's passes outlive that ([`passes_outlive_diversions`]).
//!
//! A fallback is closed when its diversion ends, which may be while nodes answer. The close carries
//! the number of events that the primary's history had when all keys of the fallback were copied.
//! From then on all of that is so at the primary again, at a position behind so many events: behind
//! the copies (`AtReturned`). Where the primary's history is found shorter, the answer is `moved`.
//! A node sees the close by the look by which it would have answered at the fallback, gives that
//! right back, and asks for one at the primary; so it never has two. It keeps the number, and asks
//! the fallback no more.
//!
//! Of two passes of a gate the one behind has seen a beginning of what the other has. So once
//! callers have ended, one look at each primary by a new pass ([`tallies_of`]) shows a history of
//! which all of them have seen beginnings, with how many events of each kind it has, and each of
//! their replies at a primary is at a position of it ([`replies_are_at_positions`]).
//!
//! ```text
//! let shared = Shared::new(alloc, ring, 1, 0, 100)?
//!     the gates of run 1, each round a new vnode; no reaps, 100 reads a session
//! let passes = Passes::new(alloc, &shared)?
//!     one pass for each gate, which has seen nothing
//! GateNode::new(&rt, &shared, &book, share, passes, &Open)
//!     a node of this thread; others may have nodes over the same gates
//! node.with_reserve(&reserve).with_partitions(&cache)
//!     the same node, with what its thread keeps for all its nodes
//! node.answer(alloc, Request::Put(put))
//!     Reply::Put; the pass of the key's vnode has one event, its own; puts: 1
//! node.parts()
//!     the share, the passes, and whether the book was full
//! tallies_of(&rt, alloc, &shared, &[passes])
//!     one tally for each gate; that of the key's vnode has one write
//! ```
//!
//! What it costs: a request waits while another thread has its vnode's state in hand, and while
//! another counts. What is answered lies between the taking and the giving back of a right, and so
//! the frame of a get's reply is written from where the key lies while other readers may be in, and
//! no writer. Memory is taken by the vnode, by what a thread keeps back ([`Reserve`]), by
//! `PartitionCache::new`, and by `Shared::new`, `Passes::new` and `tallies_of`. The partition of a
//! key costs its digest, or a look at what the thread remembers ([`PartitionCache`]), a tenth of
//! that. A get without options of short names is answered by the names in its message, and takes no
//! memory. Where nothing is diverted a request looks at one word more, whether its partition has a
//! fallback, and a caller's passes have a place for the pass of each partition's fallback. After
//! the end of a diversion a caller takes a right at the closed fallback once, and one at the
//! primary to see that the copies are there, where it hadn't seen as many events; later requests
//! compare two numbers and are answered as where nothing was diverted.
//!
//! How it is built: a function that takes a right gives it back itself, as `rw_gate::ask` does for
//! any state behind a gate, and what is done under a right to write is one function (`ask_seen`).
//! The reply and its quantity are made from what came of it (`specs/Asked`), so a change that was
//! published is never answered or counted as refused.
//!
//! # Proved
//!
//! Replies, events, counts and diversions are as the head says, and a reply may be the error `no
//! memory` too. If a session's passes have seen commands alone in the end, that session is one over
//! the sibling register, which others ask too. All callers of one run see one history of each
//! partition's primary.
//!
//! Unless there was no room, gets and puts are counted exactly. A book without another share is
//! full only if a number would pass the last one. All other counts are never higher than the
//! replies stand for. A put that finds no whole `Reserve` is refused by the first check that holds,
//! and by `no memory` if none does.
//!
//! By the calls of `Shared`, `Passes` and `GateNode`, `PartitionCache`, `tallies_of`; laws
//! `positions_are_legal`, `replies_are_at_positions`, `passes_outlive_diversions`,
//! `sessions_keep_their_gates`, `sessions_count_their_replies`, `gate_node_is_register`,
//! `plain_replies_are_legal`.
//!
//! # Tested
//!
//! `moved` comes only if a look failed, or behind a close once the primary was looked at. The
//! clauses say only that nothing was published.
//!
//! # Open
//!
//! - That a call which waits for another thread returns.
//! - That a partition is ever remembered.
//! - Of what use a worker's `Reserve` is: `scripts/maintain/try-full` alone shows it.
#![tactic(auto)]

mod cached_key;
mod call;
mod diverted;
mod fault;
mod gated_vnode;
mod get_answer;
mod gets;
mod kept;
mod laws;
mod merging;
mod node;
mod partition_cache;
mod passes;
mod replies;
mod requests;
mod reserve;
mod shared;
mod tallies;
mod turnstile;

pub use fault::PoolFault;
pub use laws::{
    gate_node_is_register, passes_outlive_diversions, plain_replies_are_legal, positions_are_legal,
    replies_are_at_positions, sessions_count_their_replies, sessions_keep_their_gates,
};
pub use node::GateNode;
pub use partition_cache::PartitionCache;
pub use passes::{HasPasses, Passes};
pub use reserve::{GivenUp, Reserve};
pub use ring_map::Ring;
pub use shared::Shared;
pub use tallies::{RunTallies, tallies_of};
pub use turnstile::{Open, Turnstile};
pub use vnode_core::Tally;

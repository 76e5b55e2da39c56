//! A node of vnodes on a ring, for one thread.

ghost use Rattle.std.specs.Prelude.{◌≡◌, ◌≤◌, ◌<◌, ◌^◌, [], IfOk};
ghost use Rattle.sibling_register.specs.Answers.{AskGet, AskPut, AskDel};
ghost use Rattle.vnode_machine.specs.Asks.{get_command, put_command, del_command};
ghost use Rattle.node_session.specs.PlainNodes.{states_of, AnswersByKey, AreNew, AreOpen};
ghost use Rattle.node_session.specs.PlainNodes.{IsNewNode, partition_of};
ghost use Rattle.node_session.specs.Unsent.{PutsReply};

use crate::framed_reply::{FramedReply, put_whole};
use crate::node::Node;
use crate::reply_frame::ReplyFrame;
use crate::scratch::Scratch;
use crate::vnode_reply::{change_and_sweep, get_and_sweep, show_and_sweep};
use riak_msgs::{DEFAULT_TYPE, DelAsk, GetAsk, PutAsk, Reply, Request};
use ring_map::{Ring, vnode_id};
use std::alloc::{AllocError, Global};
use std::marker::Model;
use thiserror::Error;
use vnode_core::{Ask, Lookup, ShortKey, Vnode};

/// The first epoch of a vnode of a new run.
const FIRST_EPOCH: u32 = 1;

/// Why a node isn't made.
#[derive(Clone, Copy, Debug, Drop, Error, PartialEq, Eq)]
pub enum NodeFault {
    /// Memory was refused.
    #[error("no memory")]
    NoMemory,
}

impl From<AllocError> for NodeFault {
    fn from(_error: AllocError) -> NodeFault {
        NodeFault::NoMemory
    }
}

/// A node that keeps its keys in the vnodes of a ring, each key in that of its partition, and waits for nobody.
/// Contracts see the vnodes' states, and its step is the vnode machine's at the key's vnode.
///
/// One of run 1 and one partition, over its life: a get of b/k shows that the key is absent. A put of "v"
/// on b/k is stored, at the first dot of the actor (65536, 1). A get shows "v" with the context of that
/// dot. A put of "w" without context is stored beside "v", and a get shows "w", "v" and the context of
/// both dots. A delete without context leaves a tombstone alone: a get shows that the key is absent, and
/// its context to who asks for it. With a budget of 1 the key is forgotten after the delete's answer, and
/// a put begins a new life, at the actor (65536, 2).
pub struct PlainNode {
    ring: Ring,
    budget: u32,
    vnodes: Vec<Vnode>,
}

/// One call at each place where one is let go.
impl Drop for PlainNode {
    fn drop(self) {
        let PlainNode {
            ring: _ring,
            budget: _budget,
            vnodes: _vnodes,
        } = self;
    }
}

impl Model for PlainNode {
    ghost use Rattle.std.specs.Prelude.{◌≡◌, ◌^◌, length};
    ghost use Rattle.node_session.specs.PlainNodes.{NodeState, states_of, AreOpen};

    ghost Value = { NodeState };

    ghost view = { λ n.
        record { index_bits = n.ring; budget = n.budget; vnodes = states_of n.vnodes.items } };

    ghost invariant = { λ n. (length n.vnodes.items ≡ 2 ^ n.ring) × AreOpen n.vnodes.items };
}

/// A vnode of a run for each index below `size`, before any event.
fn new_vnodes(alloc: Global, run: u32, size: u16) -> Result<Vec<Vnode>, AllocError>
    requires { 1 ≤ run }
    ensures new { IfOk result (λ vnodes. AreNew run size (states_of vnodes.items)) }
    ensures opened { IfOk result (λ vnodes. AreOpen vnodes.items) }
{
    let mut vnodes = Vec::with_capacity(alloc, usize::from(size))?;
    for index in 0..size {
        vnodes.push(Vnode::new(alloc, vnode_id(run, index), FIRST_EPOCH))?;
    }
    Ok(vnodes)
}

impl PlainNode {
    /// A node of no keys, of this run, with one vnode: as [`PlainNode::on_ring`] with a ring of one partition.
    pub fn new(alloc: Global, run: u32) -> Result<PlainNode, NodeFault>
        requires { 1 ≤ run }
        ensures { IfOk result (λ n. IsNewNode run 0 0 n) }
    {
        let Some(ring) = Ring::new(1) else {
            unreachable!()
        };
        PlainNode::on_ring(alloc, ring, run)
    }

    /// A node of no keys, of this run, with a vnode for each partition of the ring; the vnode at an index has the id
    /// `run * 65536 + index`. The run is at least 1. Contexts that were shown in an earlier run of the same number may
    /// cover what their holders never saw, so a run's number is used once. `NoMemory` where memory is refused.
    pub fn on_ring(alloc: Global, ring: Ring, run: u32) -> Result<PlainNode, NodeFault>
        requires { 1 ≤ run }
        ensures { IfOk result (λ n. IsNewNode run ring 0 n) }
    {
        let vnodes = new_vnodes(alloc, run, ring.size())?;
        Ok(PlainNode {
            ring,
            budget: 0,
            vnodes,
        })
    }

    /// This node with another budget of its sweeps: after each answer to a get, a put or a delete, the
    /// vnode of that key forgets its first `budget` dead keys, in key order, each with its clock. A new
    /// node's budget is 0. It takes no memory.
    pub fn with_budget(mut self, budget: u32) -> PlainNode
        ensures { result ≡ record self { budget = budget } }
    {
        self.budget = budget;
        self
    }

    /// Answers a get.
    fn get(&mut self, alloc: Global, ask: &GetAsk) -> Reply
        ensures { AnswersByKey self.old (AskGet (get_command ask.now)) result self.new }
    {
        let index = usize::from(self.ring.index(&ask.key));
        get_and_sweep(&mut self.vnodes[index], alloc, ask, self.budget)
    }

    /// Answers a get at the vnode of its key, and puts the frame of the reply.
    #[inline(always)]
    fn get_into<G: Lookup>(
        &mut self,
        index: u16,
        get: &G,
        out: &mut ReplyFrame,
        scratch: &mut Scratch,
    ) -> FramedReply
        requires free { out.old ≡ [] }
        requires index { index ≡ partition_of self.old.index_bits (G.get get.now).key }
        requires below { index < 2 ^ self.old.index_bits }
        ensures answers { AnswersByKey self.old (AskGet (get_command (G.get get.now)))
            result.reply self.new }
        ensures put { PutsReply result.reply out.new result.put }
    {
        let index = usize::from(index);
        show_and_sweep(&mut self.vnodes[index], get, self.budget, out, scratch)
    }

    /// Answers a put.
    fn put(&mut self, alloc: Global, ask: PutAsk) -> Reply
        ensures { AnswersByKey self.old (AskPut (put_command ask)) result self.new }
    {
        let index = usize::from(self.ring.index(&ask.key));
        change_and_sweep(&mut self.vnodes[index], alloc, Ask::Put(ask), self.budget)
    }

    /// Answers a delete.
    fn del(&mut self, alloc: Global, ask: DelAsk) -> Reply
        ensures { AnswersByKey self.old (AskDel (del_command ask)) result self.new }
    {
        let index = usize::from(self.ring.index(&ask.key));
        change_and_sweep(&mut self.vnodes[index], alloc, Ask::Del(ask), self.budget)
    }
}

impl Node for PlainNode {
    ghost use Rattle.node_session.specs.PlainNodes.{PlainStep};

    ghost step = { PlainStep };

    fn answer(&mut self, alloc: Global, request: Request) -> Reply {
        match request {
            Request::Ping => Reply::Ping,
            Request::Get(ask) => self.get(alloc, &ask),
            Request::Put(ask) => self.put(alloc, ask),
            Request::Del(ask) => self.del(alloc, ask),
        }
    }

    #[inline(always)]
    fn answer_into(
        &mut self,
        alloc: Global,
        request: Request,
        out: &mut ReplyFrame,
        scratch: &mut Scratch,
    ) -> FramedReply {
        match request {
            Request::Ping => put_whole(Reply::Ping, out, scratch),
            Request::Get(ask) => {
                let index = self.ring.index(&ask.key);
                self.get_into(index, &ask, out, scratch)
            }
            Request::Put(ask) => {
                let reply = self.put(alloc, ask);
                put_whole(reply, out, scratch)
            }
            Request::Del(ask) => {
                let reply = self.del(alloc, ask);
                put_whole(reply, out, scratch)
            }
        }
    }

    #[inline(always)]
    fn answer_plain_get(
        &mut self,
        _alloc: Global,
        bucket: &[u8],
        key: &[u8],
        out: &mut ReplyFrame,
        scratch: &mut Scratch,
    ) -> Option<FramedReply> {
        let short = ShortKey::of_names(bucket, key)?;
        let index = self.ring.index_of_names(DEFAULT_TYPE, bucket, key);
        Some(self.get_into(index, &short, out, scratch))
    }
}

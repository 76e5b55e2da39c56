//! A node that goes on over later gates of its run.
ghost use Rattle.std.specs.Prelude.{◌≡◌, false};
ghost use Rattle.stats_book.specs.Counting.{zeros};
ghost use Rattle.gate_node.specs.Passes.{ArePassesOf};
ghost use Rattle.worker_pool.specs.Resuming.{IsLater, gates_in, on_top};

use crate::rest::{Rest, SeenGates, Standing, gates_seen};
use gate_node::{GateNode, Passes, Shared, Turnstile};
use ghost_state::{GhostList, Listing};
use node_session::{FramedReply, Node, ReplyFrame, Scratch};
use riak_msgs::{Reply, Request};
use stats_book::SessionCount;
use std::alloc::Global;
use std::marker::Model;
use std::sync::Wait;

/// A node over the gates of a run, whose session may rest, and goes on by another one once partitions were diverted.
///
/// Contracts see where it stands: the gates of its last step, its passes, and what was counted in all; and beside that the gates that its next
/// step is over, and what was counted before it went on over these. One that goes on stands where its session rested, so that what is said of a
/// session so far stays true. Each step is one of [`GateNode`] over the gates as they are then, and counted as there.
///
/// ```text
/// let node = RunNode::resumed(shared, GateNode::counting_by(rt, shared, SessionCount::new(), passes, &Open), rest);
/// session.step(alloc, &mut reader, &mut writer, &mut node, &mut scratch)      // as often as is wanted
/// let NodeParts { count, passes, rest } = node.parts();                     // the session rests
/// handoff.divert(alloc, 0)
/// let node = RunNode::resumed(later, GateNode::counting_by(rt, later, SessionCount::new(), passes, &Open), rest);
/// session.step(alloc, &mut reader, &mut writer, &mut node, &mut scratch)      // goes on, over the fallback of partition 0
/// ```
pub struct RunNode<'a, W: Wait, T: Turnstile> {
    node: GateNode<'a, W, T, SessionCount>,
    shared: &'a Shared,
    /// The gates of its last step.
    at: GhostList<SeenGates>,
    /// Where it stood when it went on.
    rest: Rest,
}

/// What is left of a node: what it counted since it went on, the passes for the node by which its session goes on, and where it stands.
#[derive(Drop)]
pub struct NodeParts {
    pub count: SessionCount,
    pub passes: Passes,
    pub rest: Rest,
}

/// One call at each place where one is let go.
impl<'a, W: Wait, T: Turnstile> Drop for RunNode<'a, W, T> {
    fn drop(self) {
        let RunNode {
            node: _node,
            shared: _shared,
            at: _at,
            rest: _rest,
        } = self;
    }
}

impl<'a, W: Wait, T: Turnstile> Model for RunNode<'a, W, T> {
    ghost use Rattle.std.specs.Prelude.{◌≡◌};
    ghost use Rattle.worker_pool.specs.Resuming.{IsLater, RunNodeView, gates_in, on_top};

    ghost Value = { RunNodeView };

    ghost view = { λ n. record {
      stands = record {
        shared = gates_in n.at;
        passes = n.node.passes;
        count = on_top n.rest.count.counted n.node.count;
      };
      over = n.shared.now;
      before = n.rest.count.counted;
    } };

    ghost invariant = { λ n. (n.node.shared ≡ n.shared.now)
        × IsLater (gates_in n.at) n.shared.now };
}

/// Where a node of a run stands.
struct ThisPlace;

impl<'a, W: Wait, T: Turnstile> Listing<RunNode<'a, W, T>, Standing> for ThisPlace {
    ghost use Rattle.std.specs.Prelude.{[], ◌∷◌};

    ghost list = { λ node. node.stands ∷ [] };
}

/// The gates where a node rested.
struct RestGates;

impl Listing<Rest, SeenGates> for RestGates {
    ghost use Rattle.std.specs.Prelude.{[], ◌∷◌};

    ghost list = { λ rest. rest.shared ∷ [] };
}

impl<'a, W: Wait, T: Turnstile> RunNode<'a, W, T> {
    /// The node of a session that rested there, and goes on over these gates, the same or later ones of the run, by the same passes. It has
    /// counted nothing yet, and stands where the session rested.
    pub fn resumed(
        shared: &'a Shared,
        node: GateNode<'a, W, T, SessionCount>,
        rest: Rest,
    ) -> RunNode<'a, W, T>
        requires over { node.shared ≡ shared.now }
        requires later { IsLater rest.shared shared.now }
        requires passes { node.passes ≡ rest.passes }
        requires unused { node.count ≡ record { counted = zeros; book_full = false } }
        requires room { rest.count.book_full ≡ false }
        ensures stands { result.stands ≡ rest }
        ensures over { result.over ≡ shared.now }
        ensures before { result.before ≡ rest.count.counted }
    {
        RunNode {
            node,
            shared,
            at: GhostList::listed::<Rest, RestGates>(&rest),
            rest,
        }
    }

    /// The gates that its next step is over.
    pub(crate) fn over(&self) -> GhostList<SeenGates>
        ensures { gates_in result ≡ self.now.over }
    {
        gates_seen(self.shared)
    }

    /// Takes it apart. It takes no memory, and waits for nobody.
    pub fn parts(self) -> NodeParts
        ensures count { on_top self.entry.before result.count ≡ self.entry.stands.count }
        ensures passes { result.passes ≡ self.entry.stands.passes }
        ensures gates { ArePassesOf self.entry.over result.passes }
        ensures rest { result.rest ≡ self.entry.stands }
        ensures later { IsLater self.entry.stands.shared self.entry.over }
    {
        let at = GhostList::listed::<RunNode<'a, W, T>, ThisPlace>(&self);
        let RunNode {
            node,
            shared: _,
            at: _,
            rest: _,
        } = self;
        let (count, passes) = node.into_counter();
        NodeParts {
            count,
            passes,
            rest: Rest { at },
        }
    }
}

impl<'a, W: Wait, T: Turnstile> Node for RunNode<'a, W, T> {
    ghost use Rattle.worker_pool.specs.Resuming.{RunNodeStep};

    ghost step = { RunNodeStep };

    fn answer(&mut self, alloc: Global, request: Request) -> Reply {
        let reply = self.node.answer(alloc, request);
        self.at = gates_seen(self.shared);
        reply
    }

    #[inline(always)]
    fn answer_into(
        &mut self,
        alloc: Global,
        request: Request,
        out: &mut ReplyFrame,
        scratch: &mut Scratch,
    ) -> FramedReply {
        let framed = self.node.answer_into(alloc, request, out, scratch);
        self.at = gates_seen(self.shared);
        framed
    }

    #[inline(always)]
    fn answer_plain_get(
        &mut self,
        alloc: Global,
        bucket: &[u8],
        key: &[u8],
        out: &mut ReplyFrame,
        scratch: &mut Scratch,
    ) -> Option<FramedReply> {
        let framed = self
            .node
            .answer_plain_get(alloc, bucket, key, out, scratch)?;
        self.at = gates_seen(self.shared);
        Some(framed)
    }

    fn make_room(&self, alloc: Global) -> bool {
        self.node.make_room(alloc)
    }
}

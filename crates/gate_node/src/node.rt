//! A node over the gates of a run.
ghost use Rattle.std.specs.Prelude.{◌≡◌, ◌<◌, ◌^◌, ◌⊎◌};
ghost use Rattle.std.specs.Prelude.{Some, IfOk, IfErr, false, true, nat_le, slice_get};
ghost use Rattle.handoff.specs.Partitions.{IsFallback};
ghost use Rattle.stats_book.specs.Counting.{ArePastFull, zeros};
ghost use Rattle.stats_book.specs.Holdings.{AllAre};
ghost use Rattle.gate_node.specs.Asked.{Changes, ChangesOpen};
ghost use Rattle.gate_node.specs.GateStep.{AtIndex, AtClosed, LooksAtPrimary, AtIndexFrom};
ghost use Rattle.gate_node.specs.GateStep.{AnswersError, AsksFallback, AtDiverted};
ghost use Rattle.gate_node.specs.GateStep.{AnswersAtPartition, events_seen};
ghost use Rattle.gate_node.specs.Passes.{ArePassesOf};

use crate::call::Call;
use crate::diverted::change_diverted;
use crate::gated_vnode::{catch_up, change_and_reap};
use crate::partition_cache::PartitionCache;
use crate::passes::{FallbackPass, Passes, make_places};
use crate::reserve::ReserveOf;
use crate::shared::Shared;
use crate::turnstile::Turnstile;
use handoff::Fallback;
use riak_msgs::{Reply, Text};
use rw_gate::Pass;
use stats_book::{Book, CountReplies, Quantity, ReplyCounter, Share};
use std::alloc::Global;
use std::marker::Model;
use std::sync::Wait;
use std::sync::ledger::Ledger;
use vnode_core::{Ask, Vnode};

/// A node over the gates of a run, for one thread beside others that have nodes over the same gates. It waits by the
/// runtime `W` where another thread has the vnode that a request is for. It counts its replies by `C`: by a share of a
/// book ([`new`](GateNode::new)), or by any other counter ([`counting_by`](GateNode::counting_by)).
///
/// Contracts see what its passes have seen and published, and what it has counted. Each reply but an error for want of
/// memory, `moved` or `history full` is the vnode machine's at one position of the vnode's history, not before what this
/// node had seen of it; `moved` and `history full` change nothing. A get that was answered, a put that was accepted, a
/// delete that wrote a tombstone, an error, and each dead key that was forgotten add one to what it has counted, which the
/// counter has when the node is taken apart; where there is no room, the reply is the same, and the node keeps that fact.
///
/// In a partition that is diverted all of this is so at its fallback, whose history is its own, and no dead key is forgotten there; the
/// primary is not asked. Where the fallback is closed, all of this is so at the primary, at a position behind as many events as the close
/// says, or else the answer is `moved`. A node that has seen the close asks the fallback no more.
pub struct GateNode<'a, W: Wait, T: Turnstile, C: CountReplies> {
    pub(crate) rt: &'a W,
    pub(crate) shared: &'a Shared,
    pub(crate) turnstile: &'a T,
    pub(crate) counter: C,
    pub(crate) primaries: Vec<Pass<Vnode>>,
    /// How many partitions there are.
    pub(crate) size: usize,
    /// A place for each partition, once a fallback was met; none before.
    pub(crate) fallbacks: Vec<Option<FallbackPass>>,
    /// What the thread keeps back, if anything.
    pub(crate) reserve: ReserveOf<'a>,
    /// The partitions of the keys that the thread met, if it remembers them.
    pub(crate) partitions: Option<&'a PartitionCache>,
}

/// One call at each place where one is let go.
impl<'a, W: Wait, T: Turnstile, C: CountReplies + Drop> Drop for GateNode<'a, W, T, C> {
    fn drop(self) {
        let GateNode {
            rt: _rt,
            shared: _shared,
            turnstile: _turnstile,
            counter: _counter,
            primaries: _primaries,
            size: _size,
            fallbacks: _fallbacks,
            reserve: _reserve,
            partitions: _partitions,
        } = self;
    }
}

impl<'a, W: Wait, T: Turnstile, C: CountReplies> Model for GateNode<'a, W, T, C> {
    ghost use Rattle.gate_node.specs.GateStep.{NodeOverGates};
    ghost use Rattle.gate_node.specs.Passes.{ArePassesOf, places_of};

    ghost Value = { NodeOverGates };

    ghost view = { λ n. record {
      shared = n.shared.now;
      passes = record {
        primaries = n.primaries.items;
        fallbacks = places_of n.size n.fallbacks.items;
      };
      count = C.count n.counter;
    } };

    ghost invariant = { λ n. ArePassesOf n.shared.now (record {
      primaries = n.primaries.items;
      fallbacks = places_of n.size n.fallbacks.items;
    }) };
}

impl<'a, W: Wait, T: Turnstile, G: Ledger, P: Ledger, D: Ledger, E: Ledger, R: Ledger> GateNode<
    'a,
    W,
    T,
    ReplyCounter<'a, G, P, D, E, R>,
> {
    /// A node over these gates by these passes of them, which counts by this share of the book. Each of its calls passes
    /// the turnstile. It takes no memory.
    pub fn new(
        rt: &'a W,
        shared: &'a Shared,
        book: &'a Book<G, P, D, E, R>,
        share: Share<G, P, D, E, R>,
        passes: Passes,
        turnstile: &'a T,
    ) -> GateNode<'a, W, T, ReplyCounter<'a, G, P, D, E, R>>
        requires { ArePassesOf shared.now passes }
        ensures shared { result.shared ≡ shared.now }
        ensures passes { result.passes ≡ passes }
        ensures count { result.count ≡ record { counted = share; book_full = false } }
    {
        GateNode::counting_by(
            rt,
            shared,
            ReplyCounter::new(book, share),
            passes,
            turnstile,
        )
    }

    /// The share, with all that was counted, and the passes, for later nodes over the same book and the same gates; and whether there was no room
    /// for some of what was to be counted. It takes no memory, and waits while another has the book.
    pub fn parts(self) -> (Share<G, P, D, E, R>, Passes, bool)
        ensures share { result.2 ≡ false → result.0 ≡ self.entry.count.counted }
        ensures passes { result.1 ≡ self.entry.passes }
        ensures gates { ArePassesOf self.entry.shared result.1 }
        ensures full { self.entry.count.book_full ≡ true → result.2 ≡ true }

        // Where the book has no other share, it has room for all that this one may count.
        ensures sole { AllAre 1 G.parts P.parts D.parts E.parts R.parts → result.2 ≡ true
            → (self.entry.count.book_full ≡ true) ⊎ ArePastFull zeros self.entry.count.counted }
    {
        let rt = self.rt;
        let (counter, passes) = self.into_counter();
        let (share, is_book_full) = counter.parts(rt);
        (share, passes, is_book_full)
    }
}

impl<'a, W: Wait, T: Turnstile, C: CountReplies> GateNode<'a, W, T, C> {
    /// A node over these gates by these passes of them, which counts by this counter. Each of its calls passes the
    /// turnstile. It takes no memory.
    pub fn counting_by(
        rt: &'a W,
        shared: &'a Shared,
        counter: C,
        passes: Passes,
        turnstile: &'a T,
    ) -> GateNode<'a, W, T, C>
        requires { ArePassesOf shared.now passes }
        ensures shared { result.shared ≡ shared.now }
        ensures passes { result.passes ≡ passes }
        ensures count { result.count ≡ C.count counter }
    {
        let Passes {
            primaries,
            size,
            fallbacks,
        } = passes;
        GateNode {
            rt,
            shared,
            turnstile,
            counter,
            primaries,
            size,
            fallbacks,
            reserve: ReserveOf::none(),
            partitions: None,
        }
    }

    /// The counter, with all that was counted, and the passes, for later nodes over the same gates. It takes no memory.
    pub fn into_counter(self) -> (C, Passes)
        ensures count { C.count result.0 ≡ self.entry.count }
        ensures passes { result.1 ≡ self.entry.passes }
        ensures gates { ArePassesOf self.entry.shared result.1 }
    {
        let GateNode {
            rt: _,
            shared: _,
            turnstile: _,
            counter,
            primaries,
            size,
            fallbacks,
            reserve: _,
            partitions: _,
        } = self;
        let passes = Passes {
            primaries,
            size,
            fallbacks,
        };
        (counter, passes)
    }

    /// What the node makes a call by to which this allocator is lent.
    #[inline(always)]
    pub(crate) fn call(&self, alloc: Global) -> Call<'a, W, T>
        ensures alloc { result.alloc ≡ alloc }
        ensures shared { result.shared.now ≡ self.now.shared }
    {
        Call {
            rt: self.rt,
            alloc,
            shared: self.shared,
            turnstile: self.turnstile,
            reserve: self.reserve,
        }
    }

    /// Answers what may change a vnode at the primary of a partition.
    fn change_at_primary(&mut self, alloc: Global, index: usize, change: Ask) -> Reply
        requires { index < 2 ^ self.old.shared.index_bits }
        ensures { AtIndex index self.old self.new (λ p q. Changes change p q result) }
    {
        let call = self.call(alloc);
        let shared = self.shared;
        let gates = shared.handoff.gates();
        let gate = &gates[index];
        let pass = &mut self.primaries[index];
        let answered = change_and_reap(call, gate, pass, change);
        self.counter.count_answer(answered.quantity, answered.reaps);
        answered.reply
    }

    /// Answers by an error that changes nothing.
    fn answer_error(&mut self, text: Text) -> Reply
        ensures { AnswersError text self.old result self.new }
    {
        self.counter.count_answer(Some(Quantity::Refusals), 0);
        Reply::Error(text)
    }

    /// Answers what may change a vnode at the fallback of a partition, or gives the number of its close, and the ask.
    fn change_at_fallback(
        &mut self,
        alloc: Global,
        index: usize,
        fallback: &Fallback,
        change: Ask,
    ) -> Result<Reply, (u64, Ask)>
        requires diverted { slice_get self.old.shared.fallbacks index
            ≡ Some (Some fallback.now) }
        requires new { IsFallback self.old.shared.run index fallback.now }
        ensures answers { IfOk result (λ reply.
            AsksFallback index self.old reply self.new (ChangesOpen change)) }
        ensures closed { IfErr result (λ back. AtClosed index back.0 self.old self.new) }
        ensures same { IfErr result (λ back. back.1 ≡ change) }
    {
        let call = self.call(alloc);
        if !make_places(alloc, self.size, &mut self.fallbacks) {
            return Ok(self.answer_error(Text::NoMemory));
        }
        let kept = &mut self.fallbacks[index];
        match change_diverted(call, fallback, kept, change) {
            Ok((reply, quantity)) => {
                self.counter.count_answer(quantity, 0);
                Ok(reply)
            }
            Err(back) => Err(back),
        }
    }

    /// Shows the primary of a partition to the pass of it, where that has seen fewer events than so many; and whether it has seen as many
    /// then.
    pub(crate) fn catch_up(&mut self, index: usize, number: u64) -> bool
        requires { index < 2 ^ self.old.shared.index_bits }
        ensures looks { LooksAtPrimary index self.old self.new }
        ensures far { result ≡ nat_le number (events_seen self.new index) }
    {
        let shared = self.shared;
        let gates = shared.handoff.gates();
        let gate = &gates[index];
        let pass = &mut self.primaries[index];
        catch_up(self.rt, gate, pass, number)
    }

    /// Answers what may change a vnode at the primary of a partition whose fallback is closed with this number.
    fn change_returned(&mut self, alloc: Global, index: usize, number: u64, change: Ask) -> Reply
        requires { index < 2 ^ self.old.shared.index_bits }
        ensures { AtIndexFrom index number self.old result self.new (Changes change) }
    {
        if self.catch_up(index, number) {
            self.change_at_primary(alloc, index, change)
        } else {
            self.answer_error(Text::Moved)
        }
    }

    /// Answers what may change a vnode at a partition with a fallback: at that, or at the primary where it is closed.
    #[inline(never)]
    fn change_at_diverted(
        &mut self,
        alloc: Global,
        index: usize,
        fallback: &Fallback,
        change: Ask,
    ) -> Reply
        requires within { index < 2 ^ self.old.shared.index_bits }
        requires diverted { slice_get self.old.shared.fallbacks index
            ≡ Some (Some fallback.now) }
        requires new { IsFallback self.old.shared.run index fallback.now }
        ensures { AtDiverted index self.old result self.new (Changes change) (ChangesOpen change) }
    {
        match self.change_at_fallback(alloc, index, fallback, change) {
            Ok(reply) => reply,
            Err((number, change)) => self.change_returned(alloc, index, number, change),
        }
    }

    /// Answers what may change a vnode, at the primary of a partition that has no fallback.
    #[inline(always)]
    pub(crate) fn change(&mut self, alloc: Global, index: usize, change: Ask) -> Reply
        requires { index < 2 ^ self.old.shared.index_bits }
        ensures { AnswersAtPartition index self.old result self.new
            (Changes change) (ChangesOpen change) }
    {
        let shared = self.shared;
        match shared.handoff.fallback(index) {
            None => self.change_at_primary(alloc, index, change),
            Some(fallback) => self.change_at_diverted(alloc, index, fallback, change),
        }
    }
}

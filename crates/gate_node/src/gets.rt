//! The gets of a node over the gates of a run.
ghost use Rattle.std.specs.Prelude.{◌≡◌, ◌<◌, ◌^◌, Some, IfOk, IfErr, OnErr, slice_get};
ghost use Rattle.handoff.specs.Partitions.{IsFallback};
ghost use Rattle.gate_node.specs.Asked.{Gets, GetsOpen};
ghost use Rattle.gate_node.specs.GateStep.{AtIndex, AtClosed, AtIndexFrom};
ghost use Rattle.gate_node.specs.GateStep.{AnswersError, AsksFallback};
ghost use Rattle.gate_node.specs.GateStep.{AtDiverted, AnswersAtPartition};

use crate::diverted::get_diverted;
use crate::gated_vnode::get_and_reap;
use crate::get_answer::GetAnswer;
use crate::node::GateNode;
use crate::passes::make_places;
use crate::turnstile::Turnstile;
use handoff::Fallback;
use riak_msgs::{GetAsk, Text};
use stats_book::{CountReplies, Quantity};
use std::alloc::Global;
use std::sync::Wait;

impl<'a, W: Wait, T: Turnstile, C: CountReplies> GateNode<'a, W, T, C> {
    /// Answers a get at the primary of a partition.
    #[inline(always)]
    fn get_at_primary<G, A: GetAnswer<G>>(
        &mut self,
        alloc: Global,
        index: usize,
        get: &G,
        frame: &mut A::Frame,
        room: &mut A::Room,
    ) -> A
        requires within { index < 2 ^ self.old.shared.index_bits }
        requires free { A.is_free frame.old }
        ensures answers { AtIndex index self.old self.new
            (λ p q. Gets (A.get get.now) p q (A.reply result)) }
        ensures put { A.is_put result frame.new }
    {
        let call = self.call(alloc);
        let shared = self.shared;
        let gates = shared.handoff.gates();
        let gate = &gates[index];
        let pass = &mut self.primaries[index];
        let answered = get_and_reap::<W, T, G, A>(call, gate, pass, get, frame, room);
        self.counter.count_answer(answered.quantity, answered.reaps);
        answered.reply
    }

    /// Answers a get by an error that changes nothing.
    fn get_error<G, A: GetAnswer<G>>(&mut self, text: Text, frame: &mut A::Frame) -> A
        requires { A.is_free frame.old }
        ensures answers { AnswersError text self.old (A.reply result) self.new }
        ensures put { A.is_put result frame.new }
    {
        self.counter.count_answer(Some(Quantity::Refusals), 0);
        A::error(text, frame)
    }

    /// Answers a get at the fallback of a partition, or gives the number of its close.
    fn get_at_fallback<G, A: GetAnswer<G>>(
        &mut self,
        alloc: Global,
        index: usize,
        fallback: &Fallback,
        get: &G,
        frame: &mut A::Frame,
        room: &mut A::Room,
    ) -> Result<A, u64>
        requires diverted { slice_get self.old.shared.fallbacks index
            ≡ Some (Some fallback.now) }
        requires new { IsFallback self.old.shared.run index fallback.now }
        requires free { A.is_free frame.old }
        ensures answers { IfOk result (λ reply.
            AsksFallback index self.old (A.reply reply) self.new (GetsOpen (A.get get.now))) }
        ensures put { IfOk result (λ reply. A.is_put reply frame.new) }
        ensures closed { IfErr result (λ number. AtClosed index number self.old self.new) }
        ensures free { OnErr result (A.is_free frame.new) }
    {
        let call = self.call(alloc);
        if !make_places(alloc, self.size, &mut self.fallbacks) {
            return Ok(self.get_error::<G, A>(Text::NoMemory, frame));
        }
        let kept = &mut self.fallbacks[index];
        match get_diverted::<W, T, G, A>(call, fallback, kept, get, frame, room) {
            Ok((reply, quantity)) => {
                self.counter.count_answer(quantity, 0);
                Ok(reply)
            }
            Err(number) => Err(number),
        }
    }

    /// Answers a get at the primary of a partition whose fallback is closed with this number.
    fn get_returned<G, A: GetAnswer<G>>(
        &mut self,
        alloc: Global,
        index: usize,
        number: u64,
        get: &G,
        frame: &mut A::Frame,
        room: &mut A::Room,
    ) -> A
        requires within { index < 2 ^ self.old.shared.index_bits }
        requires free { A.is_free frame.old }
        ensures answers { AtIndexFrom index number self.old (A.reply result) self.new
            (Gets (A.get get.now)) }
        ensures put { A.is_put result frame.new }
    {
        if self.catch_up(index, number) {
            self.get_at_primary::<G, A>(alloc, index, get, frame, room)
        } else {
            self.get_error::<G, A>(Text::Moved, frame)
        }
    }

    /// Answers a get at a partition with a fallback: at that, or at the primary where it is closed.
    #[inline(never)]
    fn get_at_diverted<G, A: GetAnswer<G>>(
        &mut self,
        alloc: Global,
        index: usize,
        fallback: &Fallback,
        get: &G,
        frame: &mut A::Frame,
        room: &mut A::Room,
    ) -> A
        requires within { index < 2 ^ self.old.shared.index_bits }
        requires diverted { slice_get self.old.shared.fallbacks index
            ≡ Some (Some fallback.now) }
        requires new { IsFallback self.old.shared.run index fallback.now }
        requires free { A.is_free frame.old }
        ensures answers { AtDiverted index self.old (A.reply result) self.new
            (Gets (A.get get.now)) (GetsOpen (A.get get.now)) }
        ensures put { A.is_put result frame.new }
    {
        match self.get_at_fallback::<G, A>(alloc, index, fallback, get, frame, room) {
            Ok(reply) => reply,
            Err(number) => self.get_returned::<G, A>(alloc, index, number, get, frame, room),
        }
    }

    /// Answers a get, at the primary of a partition that has no fallback.
    #[inline(always)]
    pub(crate) fn get<G, A: GetAnswer<G>>(
        &mut self,
        alloc: Global,
        index: usize,
        get: &G,
        frame: &mut A::Frame,
        room: &mut A::Room,
    ) -> A
        requires within { index < 2 ^ self.old.shared.index_bits }
        requires free { A.is_free frame.old }
        ensures answers { AnswersAtPartition index self.old (A.reply result) self.new
            (Gets (A.get get.now)) (GetsOpen (A.get get.now)) }
        ensures put { A.is_put result frame.new }
    {
        let shared = self.shared;
        match shared.handoff.fallback(index) {
            None => self.get_at_primary::<G, A>(alloc, index, get, frame, room),
            Some(fallback) => {
                self.get_at_diverted::<G, A>(alloc, index, fallback, get, frame, room)
            }
        }
    }
}

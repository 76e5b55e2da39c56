//! The comparison of a run with a plain register.

ghost use Rattle.std.specs.Prelude.{◌≡◌, OnOk};
ghost use Rattle.std.specs.Option.{option_map_or};
ghost use Rattle.vnode_machine.specs.Asks.{request_ask};
ghost use Rattle.schedule_text.specs.Compared.{after_call, after_reap, after_reply, not_compared};
ghost use Rattle.schedule_text.specs.Compared.{nothing_compared};

use crate::plain_ask::{ask_register, reap_plain, within};
use crate::reply_parts::{context_shown, is_asked, is_due, key_and_context};
use crate::shown_context::{is_unknown, note, position_given};
use crate::shown_contexts::ShownContexts;
use crate::verdict::Verdict;
use riak_msgs::{Content, Key, Reply, Request};
use sibling_register::PlainRegister;
use std::alloc::{AllocError, Global};
use std::marker::Model;

/// The comparison of a run with a [plain register](sibling_register::PlainRegister), which is asked the same.
///
/// It is told each get, put and delete that a worker gets, and each answer, in the order of the run. The
/// register is asked a command when that is answered. A context is the position at which a reply of this
/// run first showed its pairs for its key; a get's `if_modified` is a context too. A put or delete that
/// was refused as bad context, clock full, epochs used up, counter used up or for want of memory isn't
/// asked, since a register has no such refusals. Compared are the contents of replies, in order, and the
/// refusals `match_found`, `modified`, `notfound` and `too many siblings`.
///
/// Contracts see what is known of the run (`specs/Compared`). One register stands for all vnodes: what it
/// answers of a key depends on that key's commands alone, and a key has one vnode as long as its
/// partition isn't diverted. What a command costs doesn't grow with the run, but for the searches among
/// the keys, a key's events and the contexts that were shown.
#[derive(Drop)]
pub struct Comparison {
    register: PlainRegister<Content>,
    shown: ShownContexts,
    verdict: Verdict,
}

impl Model for Comparison {
    ghost use Rattle.schedule_text.specs.Compared.{Compared};

    ghost Value = { Compared };

    ghost view = { λ c. record {
      history = c.register;
      shown = c.shown;
      verdict = c.verdict;
    } };
}

impl Comparison {
    /// The comparison of a run that has answered nothing. It takes no memory.
    pub fn new(alloc: Global) -> Comparison
        ensures { result ≡ nothing_compared }
    {
        Comparison {
            register: PlainRegister::new(alloc),
            shown: ShownContexts::new(alloc),
            verdict: Verdict::Equal,
        }
    }

    /// What is known so far.
    pub fn verdict(&self) -> Verdict
        ensures { result ≡ self.now.verdict }
    {
        self.verdict
    }

    /// Takes a call that a worker got. One that gives a context of the right form that no earlier reply
    /// showed for its key ends the comparison, whether it is answered later or not.
    pub fn call(&mut self, request: &Request)
        ensures { self.new
            ≡ option_map_or (λ ask. after_call ask self.old) (request_ask request.now) self.old }
    {
        let Some((key, context)) = key_and_context(request) else {
            return;
        };
        if is_unknown(&self.shown, key, context.as_slice()) {
            self.verdict = Verdict::NotCompared;
        }
    }

    /// Takes the answer to a call, by the number of the line that gave it.
    ///
    /// Refused where memory is; the comparison is then of no more use.
    pub fn reply(
        &mut self,
        alloc: Global,
        line: u64,
        request: &Request,
        reply: &Reply,
    ) -> Result<(), AllocError>
        ensures { OnOk result (self.new
            ≡ option_map_or (λ ask. after_reply line ask reply.now self.old)
            (request_ask request.now) self.old) }
    {
        let Some((key, context)) = key_and_context(request) else {
            return Ok(());
        };
        if !is_asked(reply) {
            return Ok(());
        }
        let position = position_given(&self.shown, key, context.as_slice());
        let position = within(position, &self.register);
        let told = ask_register(alloc, &mut self.register, request, position)?;
        let is_due = is_due(&self.register, alloc, key, &told, reply)?;
        let end = self.register.len();
        note(alloc, &mut self.shown, key, context_shown(reply), end)?;
        self.verdict = self.verdict.after(line, is_due);
        Ok(())
    }

    /// Takes a reap that was answered, whether it forgot the key or kept it.
    ///
    /// Refused where memory is; the comparison is then of no more use.
    pub fn reap(&mut self, alloc: Global, key: &Key) -> Result<(), AllocError>
        ensures { OnOk result (self.new ≡ after_reap key.now self.old) }
    {
        reap_plain(alloc, &mut self.register, key)
    }

    /// Ends the comparison: a partition is diverted, so that two vnodes answer of the same keys, each by
    /// a history of its own.
    pub fn end(&mut self)
        ensures { self.new ≡ not_compared self.old }
    {
        self.verdict = Verdict::NotCompared;
    }
}

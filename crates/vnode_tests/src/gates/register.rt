//! A sibling register as a second state behind a gate. Its commands take memory, and some of them are refused or change nothing.
ghost use Rattle.std.specs.Prelude.{◌≡◌, IsTrue, IfNone, false};
ghost use Rattle.sibling_register.specs.Plain.{IsPosition, GivesPositions};

use crate::gates::steps::Act::Ask;
use crate::gates::steps::Step::{LookAnew, Seen, Write};
use crate::gates::steps::Who::Ann;
use crate::gates::steps::{Outcome, Request, Step, Turn, View, plays};
use ghost_state::GhostValue;
use riak_msgs::Key;
use rw_gate::{Kept, Plan};
use sibling_register::{Command, PlainRegister, RegisterFault, Told};
use std::alloc::Global;
use std::process::Abort;
use std::test::*;

/// A register. It answers a command where it is prepared, and is then ahead by its event until that is applied.
#[derive(Drop)]
pub(crate) struct Register {
    register: PlainRegister<u8>,
    is_ahead: bool,
}

/// An answer that made an event, of which clauses know the command: the change, which is its own event.
#[derive(Drop)]
pub(crate) struct Answered {
    told: Told,
    command: GhostValue<Command<u8>>,
}

/// Why a command was refused. Nothing changed.
#[derive(Clone, Copy, Drop)]
pub(crate) enum Refused {
    /// A growth was refused.
    NoMemory,
    /// The command gives a position past the end.
    PastEnd,
    /// The register is ahead by an event that was never applied.
    IsAhead,
}

impl From<RegisterFault> for Refused {
    fn from(_: RegisterFault) -> Refused {
        Refused::NoMemory
    }
}

fn is_position(register: &PlainRegister<u8>, position: Option<u64>) -> bool
    ensures { IsTrue result → IsPosition register.now position }
{
    match position {
        Some(position) => position <= register.len(),
        None => true,
    }
}

fn gives_positions(register: &PlainRegister<u8>, command: &Command<u8>) -> bool
    ensures { IsTrue result → GivesPositions register.now command.now }
{
    match command {
        Command::Get { if_modified, .. } => is_position(register, *if_modified),
        Command::Put { context, .. } => is_position(register, *context),
        Command::Del { context, .. } => is_position(register, *context),
        Command::Reap { .. } => true,
    }
}

// Why a command can't be answered, before it is asked.
fn refusal(state: &Register, command: &Command<u8>) -> Option<Refused>
    ensures applied { IfNone result (state.now.is_ahead ≡ false) }
    ensures within { IfNone result (GivesPositions state.now.register command.now) }
{
    if state.is_ahead {
        Some(Refused::IsAhead)
    } else if !gives_positions(&state.register, command) {
        Some(Refused::PastEnd)
    } else {
        None
    }
}

impl Kept for Register {
    type Ask = Command<u8>;

    type Change = Answered;

    type Reply = Told;

    type Refusal = Refused;

    type Event = Answered;

    ghost use Rattle.std.specs.Prelude.{◌≡◌, ℕ, true, List, Some};
    ghost use Rattle.sibling_register.specs.History.{Event};
    ghost use Rattle.sibling_register.specs.Plain.{Gives, answer_of};
    ghost use Rattle.vnode_tests.specs.Registers.{applied, RegisterMakes};

    ghost State = { List (Event ℕ ℕ) };

    ghost content = { λ r. applied r.is_ahead r.register };

    ghost accepts = { λ old e new. RegisterMakes e.command (answer_of e.told) old new };

    ghost answers = { λ h ask told. Gives h ask (answer_of told) h };

    // want of memory, and a state that is ahead, are no part of the machine
    ghost refuses = { λ h ask refusal. Unit {0} };

    ghost asks = { λ e ask. e.command ≡ Some ask };

    ghost answered_by = { λ e told. e.told ≡ told };

    ghost event = { λ c. c };

    ghost ready = { λ r c. (r.is_ahead ≡ true)
        × RegisterMakes c.command (answer_of c.told) (applied r.is_ahead r.register) r.register };

    fn prepare(
        &mut self,
        alloc: Global,
        ask: Command<u8>,
    ) -> Result<Plan<Answered, Told>, Refused> {
        if let Some(refused) = refusal(self, &ask) {
            drop(ask);
            return Err(refused);
        }
        let command = GhostValue::some(&ask);
        let before = self.register.len();
        let told = self.register.ask(alloc, ask)?;
        if self.register.len() == before {
            return Ok(Plan::Nothing(told));
        }
        self.is_ahead = true;
        Ok(Plan::Change(Answered { told, command }))
    }

    fn apply(&mut self, change: Answered) -> Told {
        self.is_ahead = false;
        let Answered { told, command: _ } = change;
        told
    }

    ghost sound = { λ r c is. (r.register, is.1) };
}

/// A command on the key "k" of the bucket "b", and its answer.
pub(crate) enum Line {
    /// A get, which shows these siblings and the context of this position.
    Get(&'static [u64], u64),
    /// A put of a value, and the position that its context names. It is done.
    Put(u8, Option<u64>),
    /// A put by the context of a position that there is not yet. It is refused.
    PutAhead(u8, u64),
    /// A delete without context. It is done.
    Del,
    /// A reap, and whether it forgets the key.
    Reap(bool),
}

use Line::{Del, Get, Put, PutAhead, Reap};

fn put(key: Key, value: u8, context: Option<u64>) -> Command<u8> {
    Command::Put {
        key,
        context,
        value,
        return_body: false,
        return_head: false,
        if_not_modified: false,
        if_none_match: false,
    }
}

fn command(key: Key, line: &Line) -> Command<u8> {
    match line {
        Get(..) => Command::Get {
            key,
            if_modified: None,
            head: false,
            deletedvclock: false,
        },
        Put(value, context) => put(key, *value, *context),
        PutAhead(value, position) => put(key, *value, Some(*position)),
        Del => Command::Del { key, context: None },
        Reap(_) => Command::Reap { key },
    }
}

fn is_told(line: &Line, told: &Told) -> bool {
    match (line, told) {
        (
            Get(numbers, position),
            Told::Shown {
                siblings,
                place,
                ..
            },
        ) => siblings.as_slice() == *numbers && *place == Some(*position),
        (Put(..) | Del, Told::Done) => true,
        (Reap(is_forgotten), Told::Reaped) => *is_forgotten,
        (Reap(is_forgotten), Told::Kept) => !*is_forgotten,
        _ => false,
    }
}

impl Request<Register, Command<u8>, Told, Refused> for Line {
    fn ask(&self, alloc: Global, _turn: Turn) -> Option<Command<u8>> {
        match Key::of_default_type(alloc, b"b", b"k") {
            Ok(key) => Some(command(key, self)),
            Err(_) => None,
        }
    }

    fn is_reply(&self, told: Told, _is_event: bool) -> bool {
        is_told(self, &told)
    }

    fn refused(&self, refusal: Refused) -> Outcome {
        match (self, refusal) {
            (PutAhead(..), Refused::PastEnd) => Outcome::Done,
            (_, Refused::NoMemory) => Outcome::NoMemory,
            _ => Outcome::Wrong,
        }
    }
}

/// How many events a register has.
pub(crate) struct Events(u64);

impl View<Register> for Events {
    fn is_of(&self, state: &Register, _alloc: Global, _turn: Turn) -> bool {
        state.register.len() == self.0
    }
}

const LIFE: &[Step<Line, Events>] = &[
    // two blind puts make siblings, and a put by the first one's context covers that alone
    Write(Ann, &[Ask(Put(b'v', None))]),
    Seen(Ann, 1),
    Write(Ann, &[Ask(Get(&[1], 1))]),
    Write(Ann, &[Ask(Put(b'w', None))]),
    Seen(Ann, 2),
    Write(Ann, &[Ask(Put(b'x', Some(1)))]),
    Seen(Ann, 3),
    // gets and a reap of a live key are no events
    Write(Ann, &[Ask(Get(&[3, 2], 3))]),
    Write(Ann, &[Ask(Reap(false))]),
    Seen(Ann, 3),
    // a delete covers all, a reap forgets the key, and a context of its first life covers nothing in its second
    Write(Ann, &[Ask(Del)]),
    Seen(Ann, 4),
    Write(Ann, &[Ask(Reap(true))]),
    Write(Ann, &[Ask(Put(b'y', Some(1)))]),
    Seen(Ann, 6),
    Write(Ann, &[Ask(Get(&[6], 6))]),
    // a put by the context of a position that there is not yet is refused, and is no event
    Write(Ann, &[Ask(PutAhead(b'z', 99))]),
    Seen(Ann, 6),
    LookAnew(Events(6), 6),
];

#[test]
fn a_register_behind_a_gate(rt: HostRuntime) {
    let register = Register {
        register: PlainRegister::new(rt.alloc()),
        is_ahead: false,
    };
    assert!(rt; plays(rt.alloc(), register, LIFE));
}

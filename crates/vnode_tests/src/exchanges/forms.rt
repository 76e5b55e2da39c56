//! The same asks to a vnode over each form of storage: the answers are the same, and so are the tallies.

use crate::exchanges::asking::{Place, ask_in, get_in};
use crate::exchanges::steps::{
    Command, Del, GetOptions, ID, NONE, OF_DEAD, PLAIN_GET, PLAIN_PUT, PutWith, RETURN_BODY,
};
use clock_list::ClockList;
use clock_store::ClockStore;
use riak_msgs::{GetAsk, GetReply, Shown};
use std::alloc::{AllocError, Global};
use std::process::Abort;
use vnode_core::{Answer, Ask, Plan, Reaped, Refusal, Vnode, VnodeOver};

/// A vnode over the list form of storage.
type ListVnode = VnodeOver<ClockList>;

/// Why the asking ends before all is answered.
#[derive(Clone, Copy, Drop, PartialEq, Eq)]
enum Stop {
    /// The test itself was refused memory.
    NoRoom,
    /// A vnode answered that memory was refused.
    NoMemory,
}

impl From<AllocError> for Stop {
    fn from(_error: AllocError) -> Stop {
        Stop::NoRoom
    }
}

/// Bytes that look as drawn, the same in each run.
#[derive(Drop)]
struct Draws {
    state: u64,
}

impl Draws {
    /// The next byte.
    fn next(&mut self) -> u8 {
        self.state = self
            .state
            .wrapping_mul(6_364_136_223_846_793_005)
            .wrapping_add(1_442_695_040_888_963_407);
        let bytes = self.state.to_le_bytes();
        bytes[6]
    }
}

/// What is asked: a get, or a command that may change the vnode.
#[derive(Clone, Copy)]
enum Asked<'a> {
    Get(&'a [u8], GetOptions),
    Change(Command<'a>),
}

/// What an ask was answered, but for siblings and contexts.
#[derive(Clone, Copy, PartialEq, Eq)]
enum Kind {
    None,
    Get { unchanged: bool },
    Put,
    Del,
    Reaped(Reaped),
    Refused(Refusal),
}

/// What an ask was answered: what was shown, and the context.
#[derive(Drop)]
struct Answers {
    kind: Kind,
    shown: Vec<u8>,
    context: Vec<u8>,
}

impl Answers {
    fn new(alloc: Global) -> Answers {
        Answers {
            kind: Kind::None,
            shown: Vec::new(alloc),
            context: Vec::new(alloc),
        }
    }

    /// Whether it is answered the same.
    fn is_same(&self, other: &Answers) -> bool {
        self.kind == other.kind
            && self.shown.as_slice() == other.shown.as_slice()
            && self.context.as_slice() == other.context.as_slice()
    }

    /// Notes siblings and a context.
    fn note(&mut self, siblings: &[Shown], context: &[u8]) -> Result<(), AllocError> {
        for one in siblings {
            self.shown.push(u8::from(one.deleted))?;
            self.shown.extend_from_slice(one.content.value())?;
            self.shown.push(0)?;
        }
        self.context.extend_from_slice(context)
    }

    fn note_get(&mut self, reply: &GetReply) -> Result<(), AllocError> {
        self.kind = Kind::Get {
            unchanged: reply.unchanged,
        };
        self.note(reply.contents.as_slice(), reply.context.as_slice())
    }

    fn note_answer(&mut self, answer: &Answer) -> Result<(), AllocError> {
        match answer {
            Answer::Put(reply) => {
                self.kind = Kind::Put;
                return self.note(reply.contents.as_slice(), reply.context.as_slice());
            }
            Answer::Del => self.kind = Kind::Del,
            Answer::Reaped(reaped) => self.kind = Kind::Reaped(*reaped),
            Answer::Copied | Answer::Stuck | Answer::Closed => self.kind = Kind::None,
        }
        Ok(())
    }

    /// Notes a refusal that isn't for want of memory.
    fn note_refusal(&mut self, refusal: Refusal) -> Result<(), Stop> {
        if refusal == Refusal::NoMemory {
            return Err(Stop::NoMemory);
        }
        self.kind = Kind::Refused(refusal);
        Ok(())
    }
}

/// Notes an answer, which goes then.
fn note_and_drop(answers: &mut Answers, answer: Answer) -> Result<(), Stop> {
    let noted = answers.note_answer(&answer);
    drop(answer);
    Ok(noted?)
}

/// Plans a command, makes its change where there is one, and notes its answer.
fn make<S: ClockStore>(
    vnode: &mut VnodeOver<S>,
    alloc: Global,
    ask: Ask,
    answers: &mut Answers,
) -> Result<(), Stop> {
    match vnode.prepare(alloc, ask) {
        Ok(Plan::Change(change)) => note_and_drop(answers, vnode.finish(change)),
        Ok(Plan::Nothing(answer)) => note_and_drop(answers, answer),
        Err(refusal) => answers.note_refusal(refusal),
    }
}

/// Notes what a get was answered.
fn note_read(answers: &mut Answers, read: &Result<GetReply, Refusal>) -> Result<(), Stop> {
    match read {
        Ok(reply) => Ok(answers.note_get(reply)?),
        Err(refusal) => answers.note_refusal(*refusal),
    }
}

/// Makes a get, which goes then, and notes what it is answered.
fn read<S: ClockStore>(
    vnode: &VnodeOver<S>,
    alloc: Global,
    get: GetAsk,
    answers: &mut Answers,
) -> Result<(), Stop> {
    let read = vnode.get(alloc, &get);
    let noted = note_read(answers, &read);
    drop(read);
    drop(get);
    noted
}

/// Asks a vnode, and notes its answer.
fn ask<S: ClockStore>(
    vnode: &mut VnodeOver<S>,
    alloc: Global,
    place: Place<'_>,
    asked: Asked<'_>,
    answers: &mut Answers,
) -> Result<(), Stop> {
    match asked {
        Asked::Get(name, options) => {
            let get = get_in(alloc, place, name, NONE, options)?;
            read(vnode, alloc, get, answers)
        }
        Asked::Change(command) => {
            let ask = ask_in(alloc, place, command)?;
            make(vnode, alloc, ask, answers)
        }
    }
}

/// What is asked of a key, by what was drawn: five gets of sixteen, six puts, three deletes, a reap, and one of the first dead
/// key. A get shows the context of a dead key, and a put the siblings after it, where more is to be shown.
fn asked_of<'a>(
    draw: u8,
    name: &'a [u8],
    value: &'a [u8],
    context: &'a [u8],
    shows_more: bool,
) -> Asked<'a> {
    let (get, put) = if shows_more {
        (OF_DEAD, RETURN_BODY)
    } else {
        (PLAIN_GET, PLAIN_PUT)
    };
    match draw % 16 {
        0..=4 => Asked::Get(name, get),
        5..=10 => Asked::Change(PutWith(name, value, context, put)),
        11..=13 => Asked::Change(Del(name, context)),
        14 => Asked::Change(Command::Reap(name)),
        _ => Asked::Change(Command::ReapFirst(Some(name))),
    }
}

/// Which key's context is given: its own, another's, or none.
fn context_at(own: u8, draw: u8) -> Option<u8> {
    match draw % 8 {
        0 => None,
        1 => Some(draw % 20),
        _ => Some(own),
    }
}

/// Where the keys are: a bucket of the default type, one that begins as it does, and two of another type.
const PLACES: [Place<'static>; 4] = [
    Place {
        bucket_type: None,
        bucket: b"b",
    },
    Place {
        bucket_type: None,
        bucket: b"b and sixteen more bytes",
    },
    Place {
        bucket_type: Some(b"maps"),
        bucket: b"b",
    },
    Place {
        bucket_type: Some(b"maps"),
        bucket: b"c",
    },
];

/// The last context that was shown of a key.
fn shown_of(contexts: &[Vec<u8>], at: Option<u8>) -> &[u8] {
    match at {
        None => b"",
        Some(at) => match contexts.get(usize::from(at)) {
            None => b"",
            Some(context) => context.as_slice(),
        },
    }
}

/// Asks a vnode. So many times it may answer that memory was refused, and is asked again.
fn ask_again<S: ClockStore>(
    vnode: &mut VnodeOver<S>,
    alloc: Global,
    place: Place<'_>,
    asked: Asked<'_>,
    answers: &mut Answers,
    refusals: &mut u8,
) -> Result<(), Stop> {
    match ask(vnode, alloc, place, asked, answers) {
        Err(Stop::NoMemory) if *refusals > 0 => {
            *refusals -= 1;
            ask(vnode, alloc, place, asked, answers)
        }
        answered => answered,
    }
}

/// Asks both the same, and keeps the context that they show: whether they answer the same.
fn ask_both(
    alloc: Global,
    draws: &mut Draws,
    refusals: &mut u8,
    contexts: &mut Vec<Vec<u8>>,
    vnode: &mut Vnode,
    list: &mut ListVnode,
) -> Result<bool, Stop> {
    let own = draws.next() % 20;
    let name = [b'a'.wrapping_add(own / 4)];
    let place = PLACES[usize::from(own % 4)];
    let value = [draws.next(), draws.next()];
    let command = draws.next();
    let context = shown_of(contexts, context_at(own, draws.next()));
    let asked = asked_of(command, &name, &value, context, draws.next() % 4 == 0);
    let mut answers = Answers::new(alloc);
    let mut also = Answers::new(alloc);
    let noted = ask_again(vnode, alloc, place, asked, &mut answers, refusals);
    let also_noted = ask_again(list, alloc, place, asked, &mut also, refusals);
    let is_same = answers.is_same(&also);
    drop(also);
    keep(contexts, own, answers);
    noted?;
    also_noted?;
    Ok(is_same)
}

/// Keeps the context that was answered, where there is one, as the last that was shown of a key.
fn keep(contexts: &mut Vec<Vec<u8>>, own: u8, answers: Answers) {
    let Answers { context, .. } = answers;
    if context.is_empty() {
        return;
    }
    match contexts.get_mut(usize::from(own)) {
        None => {}
        Some(place) => *place = context,
    }
}

/// No context for each of 20 keys.
fn no_contexts(alloc: Global) -> Result<Vec<Vec<u8>>, AllocError> {
    let mut contexts = Vec::new(alloc);
    for _ in 0..20 {
        contexts.push(Vec::new(alloc))?;
    }
    Ok(contexts)
}

/// Whether both answer 1,000 asks alike, and count the same.
fn answer_the_same(
    alloc: Global,
    mut refusals: u8,
    vnode: &mut Vnode,
    list: &mut ListVnode,
) -> Result<bool, Stop> {
    let mut contexts = no_contexts(alloc)?;
    let mut draws = Draws { state: 1 };
    for _ in 0..1000 {
        if !ask_both(alloc, &mut draws, &mut refusals, &mut contexts, vnode, list)? {
            return Ok(false);
        }
    }
    let counts = vnode.tally();
    Ok(counts == list.tally() && counts.writes > 200 && counts.tombstones > 50 && counts.reaps > 20)
}

/// The same of new vnodes.
fn new_forms_answer_the_same(alloc: Global, refusals: u8) -> Result<bool, Stop> {
    let mut vnode = Vnode::new(alloc, ID, 1);
    let mut list = ListVnode::new(alloc, ID, 1);
    let answers = answer_the_same(alloc, refusals, &mut vnode, &mut list);
    drop(vnode);
    drop(list);
    answers
}

/// 1,000 asks over 20 keys of three buckets and two types, by contexts of earlier replies, with deletes and reaps: each form
/// answers the same, and counts the same. No ask is answered by a refusal of memory.
#[test]
fn forms_answer_the_same(rt: HostRuntime) {
    assert!(&rt; new_forms_answer_the_same(rt.alloc(), 0) == Ok(true));
}

/// The same where one ask may be refused memory, and is asked again.
#[test]
fn forms_answer_the_same_after_a_refusal(rt: HostRuntime) {
    let answers = new_forms_answer_the_same(rt.alloc(), 1);
    assert!(&rt; answers == Ok(true) || answers == Err(Stop::NoRoom));
}

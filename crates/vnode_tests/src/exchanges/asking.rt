//! Takes the steps of an exchange, each once more where memory was refused.

ghost use Rattle.std.specs.Prelude.{◌≡◌, ◌≤◌, Some};

use crate::exchanges::steps::{
    AskTimes, Closed, ClosedAt, Closes, Command, Counted, Counts, Done, Exchange, Get, GetOptions,
    GetWith, HasDead, ID, Idle, LastEpoch, LetGo, NONE, PLAIN_GET, PLAIN_PUT, PutOptions, Reap,
    ReapFirst, Refused, Reply, Shows, Sibling, Step, Sweep, Tombstone, Unchanged, Value,
};
use riak_msgs::{
    BucketType, Bytes, Content, ContextBytes, DelAsk, GetAsk, GetReply, Key, PutAsk, Shown,
};
use std::alloc::{AllocError, Global};
use std::process::Abort;
use tomb_reaper::sweep;
use vnode_core::{Answer, Ask, Change, Plan, Refusal, Vnode};

/// Where keys are: their bucket type, or none for the default one, and their bucket.
#[derive(Clone, Copy)]
pub(crate) struct Place<'a> {
    pub(crate) bucket_type: Option<&'a [u8]>,
    pub(crate) bucket: &'a [u8],
}

/// The bucket "b" of the default type.
const B: Place<'static> = Place {
    bucket_type: None,
    bucket: b"b",
};

/// The key of a name in a place.
fn key_in(alloc: Global, place: Place<'_>, name: &[u8]) -> Result<Key, AllocError> {
    match place.bucket_type {
        None => Key::of_default_type(alloc, place.bucket, name),
        Some(bucket_type) => Ok(Key {
            bucket_type: BucketType::from_slice(alloc, bucket_type)?,
            bucket: Bytes::from_slice(alloc, place.bucket)?,
            key: Bytes::from_slice(alloc, name)?,
        }),
    }
}

/// The key of this name in the bucket "b" of the default type.
pub(crate) fn key_of(alloc: Global, name: &[u8]) -> Result<Key, AllocError> {
    key_in(alloc, B, name)
}

fn key_from(alloc: Global, name: Option<&[u8]>) -> Result<Option<Key>, AllocError> {
    match name {
        None => Ok(None),
        Some(name) => Ok(Some(key_of(alloc, name)?)),
    }
}

/// A get of a key in a place with options.
pub(crate) fn get_in(
    alloc: Global,
    place: Place<'_>,
    name: &[u8],
    if_modified: &[u8],
    options: GetOptions,
) -> Result<GetAsk, AllocError> {
    let if_modified = ContextBytes::from_slice(alloc, if_modified)?;
    Ok(GetAsk {
        key: key_in(alloc, place, name)?,
        if_modified,
        head: options.head,
        deletedvclock: options.deletedvclock,
    })
}

fn put_in(
    alloc: Global,
    place: Place<'_>,
    name: &[u8],
    value: &[u8],
    context: &[u8],
    options: PutOptions,
) -> Result<Ask, AllocError> {
    let context = ContextBytes::from_slice(alloc, context)?;
    let content = Content::of_value(alloc, value)?;
    Ok(Ask::Put(PutAsk {
        key: key_in(alloc, place, name)?,
        context,
        content,
        return_body: options.return_body,
        return_head: options.return_head,
        if_not_modified: options.if_not_modified,
        if_none_match: options.if_none_match,
    }))
}

/// The bytes of a context of so many entries, all of another vnode.
fn context_of_others(alloc: Global, count: u8) -> Result<Vec<u8>, AllocError> {
    let mut bytes = Vec::new(alloc);
    bytes.push(2)?;
    for epoch in 1..=count {
        bytes.extend_from_slice(&[0, 0, 0, 0, 0, 0, 0, 1, 0, 0, 0, epoch])?;
        bytes.extend_from_slice(&[0, 0, 0, 0, 0, 0, 0, 1])?;
    }
    Ok(bytes)
}

fn put_after_others(alloc: Global, count: u8) -> Result<Ask, AllocError> {
    let context = context_of_others(alloc, count)?;
    put_in(alloc, B, b"k", b"w", context.as_slice(), PLAIN_PUT)
}

fn del_in(alloc: Global, place: Place<'_>, name: &[u8], context: &[u8]) -> Result<Ask, AllocError> {
    let context = ContextBytes::from_slice(alloc, context)?;
    Ok(Ask::Del(DelAsk {
        key: key_in(alloc, place, name)?,
        context,
    }))
}

/// A command on keys in a place, as the vnode takes it.
pub(crate) fn ask_in(
    alloc: Global,
    place: Place<'_>,
    command: Command<'_>,
) -> Result<Ask, AllocError> {
    match command {
        Command::Put(name, value, context) => {
            put_in(alloc, place, name, value, context, PLAIN_PUT)
        }
        Command::PutWith(name, value, context, options) => {
            put_in(alloc, place, name, value, context, options)
        }
        Command::PutAfterOthers(count) => put_after_others(alloc, count),
        Command::Del(name, context) => del_in(alloc, place, name, context),
        Command::Reap(name) => Ok(Ask::Reap(key_in(alloc, place, name)?)),
        Command::ReapFirst(None) => Ok(Ask::ReapFirst(None)),
        Command::ReapFirst(Some(name)) => Ok(Ask::ReapFirst(Some(key_in(alloc, place, name)?))),
        Command::Close(number) => Ok(Ask::Close(number)),
    }
}

/// A command on keys of the bucket "b".
pub(crate) fn ask_of(alloc: Global, command: Command<'_>) -> Result<Ask, AllocError> {
    ask_in(alloc, B, command)
}

fn is_sibling(shown: &Shown, wanted: &Sibling) -> bool {
    match wanted {
        Value(value) => !shown.deleted && shown.content.value() == *value,
        Tombstone => shown.deleted && shown.content.value().is_empty(),
    }
}

fn are_siblings(shown: &[Shown], wanted: &[Sibling]) -> bool {
    if shown.len() != wanted.len() {
        return false;
    }
    for (one, other) in shown.iter().zip(wanted) {
        if !is_sibling(one, other) {
            return false;
        }
    }
    true
}

/// Whether siblings, with a context and whether they are unchanged, are the reply that is expected.
fn is_shown(siblings: &[Shown], context: &[u8], unchanged: bool, reply: &Reply) -> bool {
    match reply {
        Shows(wanted, bytes) => {
            !unchanged && context == *bytes && are_siblings(siblings, wanted)
        }
        Unchanged => unchanged && context.is_empty() && siblings.is_empty(),
        Counts(count, len) => siblings.len() == *count && context.len() == *len,
        Done => !unchanged && context.is_empty() && siblings.is_empty(),
        _ => false,
    }
}

fn is_answer(answer: &Answer, is_change: bool, reply: &Reply) -> bool {
    match answer {
        Answer::Put(put) => {
            is_change
                && is_shown(
                    put.contents.as_slice(),
                    put.context.as_slice(),
                    false,
                    reply,
                )
        }
        Answer::Del => match reply {
            Done => is_change,
            Idle => !is_change,
            _ => false,
        },
        Answer::Reaped(reaped) => matches!(reply, Reply::Reaped(wanted) if wanted == reaped),
        Answer::Closed => match reply {
            Closes => is_change,
            Closed => !is_change,
            _ => false,
        },
        Answer::Copied | Answer::Stuck => false,
    }
}

/// The same of an answer that goes then.
fn was_answer(answer: Answer, is_change: bool, reply: &Reply) -> bool {
    let is_so = is_answer(&answer, is_change, reply);
    drop(answer);
    is_so
}

/// Makes a change, or lets it go, as is expected.
fn finish(vnode: &mut Vnode, change: Change, reply: &Reply) -> bool
    requires { vnode.old.prepared ≡ Some change }
{
    match reply {
        LetGo => {
            drop(change);
            true
        }
        _ => was_answer(vnode.finish(change), true, reply),
    }
}

/// Whether a refusal is expected; an error where memory was refused.
fn refuses(refusal: Refusal, reply: &Reply) -> Result<bool, Refusal> {
    match reply {
        _ if refusal == Refusal::NoMemory => Err(refusal),
        Refused(wanted) => Ok(refusal == *wanted),
        _ => Ok(false),
    }
}

/// Plans a command, and makes its change where there is one.
fn make(vnode: &mut Vnode, alloc: Global, ask: Ask, reply: &Reply) -> Result<bool, Refusal> {
    match vnode.prepare(alloc, ask) {
        Ok(Plan::Change(change)) => Ok(finish(vnode, change, reply)),
        Ok(Plan::Nothing(answer)) => Ok(was_answer(answer, false, reply)),
        Err(refusal) => refuses(refusal, reply),
    }
}

fn is_read(read: &Result<GetReply, Refusal>, reply: &Reply) -> Result<bool, Refusal> {
    match read {
        Ok(got) => Ok(is_shown(
            got.contents.as_slice(),
            got.context.as_slice(),
            got.unchanged,
            reply,
        )),
        Err(refusal) => refuses(*refusal, reply),
    }
}

/// Makes a get, which goes then.
fn read(vnode: &Vnode, alloc: Global, get: GetAsk, reply: &Reply) -> Result<bool, Refusal> {
    let read = vnode.get(alloc, &get);
    let is_so = is_read(&read, reply);
    drop(read);
    drop(get);
    is_so
}

/// Makes a get of a key with options.
fn get(
    vnode: &Vnode,
    alloc: Global,
    name: &[u8],
    if_modified: &[u8],
    options: GetOptions,
    reply: &Reply,
) -> Result<bool, Refusal> {
    let get = get_in(alloc, B, name, if_modified, options)?;
    read(vnode, alloc, get, reply)
}

/// Plans a command, and makes its change where there is one.
fn ask(
    vnode: &mut Vnode,
    alloc: Global,
    command: Command<'_>,
    reply: &Reply,
) -> Result<bool, Refusal> {
    let ask = ask_of(alloc, command)?;
    make(vnode, alloc, ask, reply)
}

/// Takes a step that makes no plan, of the keys from one on, or of all.
fn take_from(vnode: &mut Vnode, from: Option<&Key>, step: &Step) -> bool {
    match step {
        Sweep(_, budget, wanted) => sweep(vnode, from, *budget) == *wanted,
        HasDead(_, wanted) => vnode.has_dead(from) == *wanted,
        Reap(_, wanted) => match from {
            Some(key) => vnode.reap(key) == *wanted,
            None => false,
        },
        ReapFirst(wanted) => vnode.reap_first(from) == *wanted,
        Counted(wanted) => vnode.tally() == *wanted,
        ClosedAt(wanted) => vnode.closed_at() == *wanted,
        LastEpoch(wanted) => vnode.last_epoch() == *wanted,
        _ => false,
    }
}

/// The key that such a step names.
fn name_in(step: &Step) -> Option<&'static [u8]> {
    match step {
        Sweep(from, _, _) | HasDead(from, _) => *from,
        Reap(name, _) => Some(*name),
        _ => None,
    }
}

fn take_by_key(vnode: &mut Vnode, alloc: Global, step: &Step) -> Result<bool, Refusal> {
    let from = key_from(alloc, name_in(step))?;
    Ok(take_from(vnode, from.as_ref(), step))
}

/// Takes a step once: whether it came as expected; an error where memory was refused.
fn take_once(vnode: &mut Vnode, alloc: Global, step: &Step) -> Result<bool, Refusal> {
    match step {
        Get(name, reply) => get(vnode, alloc, name, NONE, PLAIN_GET, reply),
        GetWith(name, if_modified, options, reply) => {
            get(vnode, alloc, name, if_modified, *options, reply)
        }
        Step::Ask(command, reply) | AskTimes(_, command, reply) => {
            ask(vnode, alloc, *command, reply)
        }
        _ => take_by_key(vnode, alloc, step),
    }
}

/// Whether the step before one that was refused memory shows the same again, where it was a get.
fn shows_still(vnode: &mut Vnode, alloc: Global, before: Option<&Step>) -> bool {
    match before {
        Some(step) => match step {
            Get(_, _) | GetWith(_, _, _, _) => take_once(vnode, alloc, step) == Ok(true),
            _ => true,
        },
        None => true,
    }
}

/// Takes a step, and once more where memory was refused.
fn take(vnode: &mut Vnode, alloc: Global, before: Option<&Step>, step: &Step) -> bool {
    match take_once(vnode, alloc, step) {
        Ok(is_so) => is_so,
        Err(_) => { shows_still(vnode, alloc, before) && take_once(vnode, alloc, step) == Ok(true) }
    }
}

fn times_of(step: &Step) -> u8 {
    match step {
        AskTimes(times, _, _) => *times,
        _ => 1,
    }
}

/// How many steps come as expected, before one that doesn't.
pub(crate) fn taken(vnode: &mut Vnode, alloc: Global, steps: &[Step]) -> usize {
    let mut before = None;
    let mut count = 0usize;
    for step in steps {
        for _ in 0..times_of(step) {
            if !take(vnode, alloc, before, step) {
                return count;
            }
        }
        before = Some(step);
        count = count.saturating_add(1);
    }
    count
}

/// The same with a new vnode, whose first life gets this epoch, of the steps of a begin and of those behind it.
pub(crate) fn taken_from(alloc: Global, first_epoch: u32, begin: &[Step], steps: &[Step]) -> usize
    requires { 1 ≤ first_epoch }
{
    let mut vnode = Vnode::new(alloc, ID, first_epoch);
    let begun = taken(&mut vnode, alloc, begin);
    let taken = taken(&mut vnode, alloc, steps);
    drop(vnode);
    begun.saturating_add(taken)
}

/// Each exchange goes as expected, with a vnode whose first epoch is 1.
pub(crate) fn go_as_expected(rt: &(impl Abort + AllocGlobal), exchanges: &[Exchange]) {
    for exchange in exchanges {
        let taken = taken_from(rt.alloc(), 1, exchange.begin, exchange.steps);
        let is_so = taken == exchange.begin.len().saturating_add(exchange.steps.len());
        assert!(rt; is_so, "{}: not so after {} steps", exchange.shows, taken);
    }
}

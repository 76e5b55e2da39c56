//! What requests give and replies show, and whether a register's answer is a reply's.

ghost use Rattle.std.specs.Prelude.{◌≡◌, IfOk, IfNone, IfSome, None, map, nat_eq, false};
ghost use Rattle.std.specs.Prelude.{if◌then◌else◌};
ghost use Rattle.std.specs.Option.{option_eq};
ghost use Rattle.riak_msgs.specs.Encoding.{repeated_field, shown_message};
ghost use Rattle.sibling_register.specs.Plain.{answer_of};
ghost use Rattle.vnode_machine.specs.Asks.{request_ask};
ghost use Rattle.schedule_text.specs.PlainAnswers.{are_due, is_due, plain_refusal, refusal_due};
ghost use Rattle.schedule_text.specs.PlainAnswers.{same_contents, sibling_shown};
ghost use Rattle.schedule_text.specs.Compared.{AreOf, context_in, is_asked};

use riak_msgs::{Content, ContextBytes, Key, Reply, Request, Shown, Text, encode_repeated};
use sibling_register::{MATCH_FOUND, MODIFIED, NOT_FOUND, PlainRegister, TOO_MANY_SIBLINGS, Told};
use std::alloc::{AllocError, Global};

/// The key of a request, and the context that it gives: of a get that is `if_modified`. A ping has none.
pub(crate) fn key_and_context(request: &Request) -> Option<(&Key, &ContextBytes)>
    ensures some { IfSome result (λ given. AreOf request.now given.0.now given.1.now) }
    ensures none { IfNone result (request_ask request.now ≡ None) }
{
    match request {
        Request::Ping => None,
        Request::Get(ask) => Some((&ask.key, &ask.if_modified)),
        Request::Put(ask) => Some((&ask.key, &ask.context)),
        Request::Del(ask) => Some((&ask.key, &ask.context)),
    }
}

/// The number of a refusal that a register has too; none of another text.
fn plain_refusal(text: Text) -> Option<u8>
    ensures { result ≡ plain_refusal text }
{
    match text {
        Text::MatchFound => Some(MATCH_FOUND),
        Text::Modified => Some(MODIFIED),
        Text::NotFound => Some(NOT_FOUND),
        Text::TooManySiblings => Some(TOO_MANY_SIBLINGS),
        _ => None,
    }
}

/// Whether a register is asked the command of this reply: it is accepted, or refused as a register may.
pub(crate) fn is_asked(reply: &Reply) -> bool
    ensures { result ≡ is_asked reply.now }
{
    match reply {
        Reply::Error(text) => plain_refusal(*text).is_some(),
        Reply::Ping => false,
        Reply::Get(_) | Reply::Put(_) | Reply::Del => true,
    }
}

/// The bytes of the context that a reply shows; none where it shows none.
pub(crate) fn context_shown(reply: &Reply) -> &[u8]
    ensures { result.now ≡ context_in reply.now }
{
    match reply {
        Reply::Error(_) | Reply::Ping | Reply::Del => &[],
        Reply::Get(shown) => shown.context.as_slice(),
        Reply::Put(shown) => shown.context.as_slice(),
    }
}

/// A sibling of the key as a reply shows it: a tombstone where the number has no value.
fn sibling_shown(
    register: &PlainRegister<Content>,
    key: &Key,
    is_bare: bool,
    number: u64,
) -> Result<Shown, AllocError>
    ensures { IfOk result (λ shown. shown ≡ sibling_shown register.now key.now is_bare number) }
{
    match register.value(key, number) {
        None => Ok(Shown::tombstone()),
        Some(content) => Shown::of_content(content, is_bare),
    }
}

/// The siblings of these numbers, as a reply shows them.
fn siblings_shown(
    register: &PlainRegister<Content>,
    alloc: Global,
    key: &Key,
    is_bare: bool,
    numbers: &[u64],
) -> Result<Vec<Shown>, AllocError>
    ensures { IfOk result (λ shown.
        shown.items ≡ map (sibling_shown register.now key.now is_bare) numbers.now) }
{
    let mut shown = Vec::with_capacity(alloc, numbers.len())?;
    for number in numbers {
        let sibling = sibling_shown(register, key, is_bare, *number)?;
        shown.push(sibling)?;
    }
    Ok(shown)
}

/// Contents as a reply has them.
fn bytes_of(alloc: Global, contents: &[Shown]) -> Result<Vec<u8>, AllocError>
    ensures { IfOk result (λ bytes. bytes.items ≡ repeated_field shown_message 1 contents.now) }
{
    let mut bytes = Vec::new(alloc);
    encode_repeated(&mut bytes, 1, contents)?;
    Ok(bytes)
}

/// Whether two lists of contents are one, by the bytes that a reply has for them.
fn are_same(alloc: Global, due: &[Shown], contents: &[Shown]) -> Result<bool, AllocError>
    ensures { IfOk result (λ is_same. is_same ≡ same_contents due.now contents.now) }
{
    let due = bytes_of(alloc, due)?;
    let contents = bytes_of(alloc, contents)?;
    Ok(due.as_slice() == contents.as_slice())
}

/// Whether these contents are due for the register's answer.
fn are_due(
    register: &PlainRegister<Content>,
    alloc: Global,
    key: &Key,
    told: &Told,
    contents: &[Shown],
) -> Result<bool, AllocError>
    ensures { IfOk result (λ are.
        are ≡ are_due register.now key.now (answer_of told.now) contents.now) }
{
    match told {
        Told::Shown { siblings, bare, .. } => {
            let due = siblings_shown(register, alloc, key, *bare, siblings.as_slice())?;
            are_same(alloc, due.as_slice(), contents)
        }
        Told::Done => are_same(alloc, &[], contents),
        Told::Refused(_) | Told::Reaped | Told::Kept => Ok(false),
    }
}

/// Whether a refusal of this text is due for the register's answer.
fn refuses_by(told: &Told, text: Text) -> bool
    ensures { result ≡ option_eq nat_eq (refusal_due (answer_of told.now)) (plain_refusal text) }
{
    let due = match told {
        Told::Refused(number) => Some(*number),
        Told::Shown { .. } | Told::Done | Told::Reaped | Told::Kept => None,
    };
    due == plain_refusal(text)
}

/// Whether a reply is the register's answer: the same refusal, or the same contents in their order.
pub(crate) fn is_due(
    register: &PlainRegister<Content>,
    alloc: Global,
    key: &Key,
    told: &Told,
    reply: &Reply,
) -> Result<bool, AllocError>
    ensures { IfOk result (λ is. is ≡ is_due register.now key.now (answer_of told.now) reply.now) }
{
    match reply {
        Reply::Error(text) => Ok(refuses_by(told, *text)),
        Reply::Ping => Ok(false),
        Reply::Get(shown) => are_due(register, alloc, key, told, shown.contents.as_slice()),
        Reply::Put(shown) => are_due(register, alloc, key, told, shown.contents.as_slice()),
        Reply::Del => are_due(register, alloc, key, told, &[]),
    }
}

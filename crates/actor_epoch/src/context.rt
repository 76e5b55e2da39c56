//! A context: what a client has seen of a key, as the bytes that it gives back.

ghost use Rattle.std.specs.Prelude.{◌≡◌, IsTrue, IfOk, IfErr, IfSome, Some, ◌&&◌, [], ◌∷◌, is_some};
ghost use Rattle.std.specs.Option.{option_map};
ghost use Rattle.std.specs.List.{list_all};
ghost use Rattle.actor_epoch.specs.Dots.{covers, counter_in};
ghost use Rattle.actor_epoch.specs.declared.version.Version.TheVariants.{Two};
ghost use Rattle.actor_epoch.specs.Entries.{entry_of, entries_of};
ghost use Rattle.actor_epoch.specs.Contexts.{may_follow, DecodesContext, encoding, is_well_formed};
ghost use Rattle.actor_epoch.specs.Contexts.{is_rising, is_within_limits, entry_bytes};
ghost use Rattle.actor_epoch.specs.Given.{context_of, pairs_read, Malformed, Pairs};

use crate::actor::Actor;
use crate::context_pairs::ContextPairs;
use crate::dot::Dot;
use crate::limits::{Counter, MAX_ACTORS};
use crate::version::Version;
use byteorder::{BigEndian, ByteOrder};
use std::alloc::{AllocError, Global};
use std::marker::Model;
use thiserror::Error;

/// The first byte of the contexts that are written: of the two versions that are read, the second.
const WRITTEN_VERSION: u8 = 2;

/// The length of a pair in the contexts that are written.
const ENTRY_LEN: usize = 20;

/// Bytes that are given as a context and aren't one.
#[derive(Clone, Copy, Debug, Drop, Error, PartialEq, Eq)]
#[error("malformed context")]
pub struct MalformedContext;

/// What a client has seen of a key, as the node gave it: pairs (actor, n), 1 to 64, strictly rising by actor, borrowed
/// from the bytes that encode them. It covers the dots 1 to n of each pair's actor. Contracts see the list of pairs.
///
/// The bytes are this project's own: the byte 2, then 20 bytes a pair, which are vnode id (8), epoch (4) and counter
/// (8), big-endian, epoch and counter from 1 on. So a key that was written twice in the first life at vnode 65,536 has
/// the context `02 0000000000010000 00000001 0000000000000002`: the pair of that life's actor and 2, which covers its
/// dots 1 and 2, and not the dot 3 that a later write gets. Contexts of the first version are read too: the byte 1,
/// then 16 bytes a pair, whose counters have 4 bytes. Two contexts say the same where their pairs are the same.
#[derive(Drop)]
pub struct Context<'a> {
    version: Version,
    count: usize,
    entries: &'a [u8],
}

impl<'a> Model for Context<'a> {
    ghost use Rattle.std.specs.Prelude.{◌≡◌, List, ◌*◌, length, IsTrue};
    ghost use Rattle.actor_epoch.specs.declared.dot.Dot.{Dot};
    ghost use Rattle.actor_epoch.specs.Versions.{entry_len};
    ghost use Rattle.actor_epoch.specs.Entries.{entries_in};
    ghost use Rattle.actor_epoch.specs.Contexts.{is_well_formed};

    ghost Value = { List Dot };

    ghost view = { λ c. entries_in c.version c.count c.entries.now };

    ghost invariant = { λ c. (length c.entries.now ≡ entry_len c.version * c.count)
        × IsTrue (is_well_formed (entries_in c.version c.count c.entries.now)) };
}

impl<'a> Context<'a> {
    /// Reads the bytes of a context; None exactly where they encode no 1 to 64 pairs that strictly rise by actor, with
    /// epochs and counters from 1 on, in neither version. Takes no memory.
    #[inline(always)]
    pub fn read(bytes: &'a [u8]) -> Option<Context<'a>>
        ensures read { result ≡ pairs_read (context_of bytes.now) }
        ensures decodes { DecodesContext bytes.now result }
    {
        let (first, entries) = bytes.split_first()?;
        let version = Version::from_byte(*first)?;
        let size = version.entry_len();
        let count = entries.len() / size;
        if entries.len() % size != 0
            || !are_of_form(ContextPairs {
                version,
                count,
                entries,
            })
        {
            return None;
        }
        Some(Context {
            version,
            count,
            entries,
        })
    }

    /// The context that bytes of the form encode (a condition), as `read` gives it, with no second look at its pairs.
    /// Takes no memory.
    #[inline(always)]
    pub fn of_form(bytes: &'a [u8]) -> Context<'a>
        requires { IsTrue (is_some (pairs_read (context_of bytes.now))) }
        ensures { pairs_read (context_of bytes.now) ≡ Some result }
    {
        let Some((first, entries)) = bytes.split_first() else {
            unreachable!()
        };
        let Some(version) = Version::from_byte(*first) else {
            unreachable!()
        };
        let count = entries.len() / version.entry_len();
        Context {
            version,
            count,
            entries,
        }
    }

    /// What was given as a context: none where there are no bytes, else the context that they are.
    /// Refused exactly where there are bytes and `read` gives None. Takes no memory.
    #[inline(always)]
    pub fn given(bytes: &'a [u8]) -> Result<Option<Context<'a>>, MalformedContext>
        ensures ok { IfOk result (λ found. context_of bytes.now ≡ option_map Pairs found) }
        ensures malformed { IfErr result (λ _. context_of bytes.now ≡ Some Malformed) }
    {
        if bytes.is_empty() {
            return Ok(None);
        }
        match Context::read(bytes) {
            Some(context) => Ok(Some(context)),
            None => Err(MalformedContext),
        }
    }

    /// Its pairs (actor, n), by rising actor.
    #[inline(always)]
    pub fn pairs(&self) -> ContextPairs<'a>
        ensures pairs { result ≡ self.now }
        ensures of_form { IsTrue (is_well_formed self.now) }
    {
        ContextPairs {
            version: self.version,
            count: self.count,
            entries: self.entries,
        }
    }

    /// Its pair, where it has one alone, as most have; None where it has more.
    #[inline(always)]
    pub fn sole_pair(&self) -> Option<(Actor, Counter)>
        ensures sole { IfSome result (λ pair. self.now ≡ entry_of pair ∷ []) }
        ensures of_form { IsTrue (is_well_formed self.now) }
    {
        let mut pairs = self.pairs();
        let pair = pairs.next()?;
        match pairs.next() {
            None => Some(pair),
            Some(_) => None,
        }
    }

    /// Whether it has seen a dot: whether the dot's counter is 1 to n in its actor's pair.
    pub fn covers(&self, dot: &Dot) -> bool
        ensures { result ≡ covers self.now dot.now }
    {
        for (actor, counter) in self.pairs() {
            if actor == dot.actor && 1 <= dot.counter && dot.counter <= counter {
                return true;
            }
        }
        false
    }

    /// The counter of an actor in its pairs: it has seen the actor's dots from 1 up to that, and none where it is 0.
    pub fn counter_of(&self, actor: Actor) -> Counter
        ensures { result ≡ counter_in self.now actor }
    {
        let mut greatest = 0;
        for (other, counter) in self.pairs() {
            if other == actor {
                greatest = counter.max(greatest);
            }
        }
        greatest
    }

    /// The bytes of a context of these pairs, which are 1 to 64, strictly rising by actor, with epochs and counters
    /// from 1 on (a condition). Refused where there is no memory for the bytes.
    pub fn write(alloc: Global, pairs: &[(Actor, Counter)]) -> Result<Vec<u8>, AllocError>
        requires { IsTrue (is_well_formed (entries_of pairs.now)) }
        ensures { IfOk result (λ bytes. bytes.items ≡ encoding (entries_of pairs.now)) }
    {
        let mut bytes = Vec::with_capacity(alloc, 1 + ENTRY_LEN * pairs.len())?;
        bytes.push(WRITTEN_VERSION)?;
        for pair in pairs {
            bytes.extend_from_slice(&Context::pair_bytes(pair.0, pair.1))?;
        }
        Ok(bytes)
    }

    /// The bytes of a pair as a context is written: behind the byte 2 those of each of its pairs stand
    /// so. It takes no memory.
    #[inline(always)]
    pub fn pair_bytes(actor: Actor, counter: Counter) -> [u8; 20]
        ensures { result ≡ entry_bytes Two (entry_of (actor, counter)) }
    {
        let mut bytes = [0; ENTRY_LEN];
        BigEndian::write_u64(&mut bytes, actor.vnode);
        BigEndian::write_u32(&mut bytes[8..], actor.epoch);
        BigEndian::write_u64(&mut bytes[12..], counter);
        bytes
    }
}

/// Whether pairs are 1 to 64, strictly rising by actor, with epochs and counters from 1 on.
fn are_of_form(pairs: ContextPairs<'_>) -> bool
    ensures { result ≡ is_well_formed pairs.entry }
{
    let count = pairs.len();
    1 <= count && count <= MAX_ACTORS && are_rising(pairs)
}

/// Whether pairs are strictly rising by actor, with epochs and counters from 1 on.
fn are_rising(pairs: ContextPairs<'_>) -> bool
    ensures { result ≡ (is_rising pairs.entry && list_all is_within_limits pairs.entry) }
{
    let mut last: Option<Actor> = None;
    for (actor, counter) in pairs {
        if !is_next(last, actor, counter) {
            return false;
        }
        last = Some(actor);
    }
    true
}

/// Whether a pair may follow the last actor: it is above that, and its epoch and counter begin at 1.
#[inline(always)]
fn is_next(last: Option<Actor>, actor: Actor, counter: Counter) -> bool
    ensures { result ≡ (may_follow last actor && is_within_limits (entry_of (actor, counter))) }
{
    let is_above = match last {
        None => true,
        Some(last) => last < actor,
    };
    is_above && 1 <= actor.epoch && 1 <= counter
}

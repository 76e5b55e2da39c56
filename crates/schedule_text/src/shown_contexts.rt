//! The contexts that replies showed, in the order in which they were shown, and how one is found among them.

ghost use Rattle.std.specs.Prelude.{◌≡◌, [], ◌∷◌, ◌++◌, ℕ, OnOk, OnErr, IsSome, if◌then◌else◌};
ghost use Rattle.std.specs.Prelude.{◌==◌};
ghost use Rattle.std.specs.BTreeMap.{get};
ghost use Rattle.std.specs.Ordering.{nat_cmp};
ghost use Rattle.schedule_text.specs.Compared.{position_of};
ghost use Rattle.schedule_text.specs.ShownIndex.{digest_of, mixed, entry_digest, places_at};
ghost use Rattle.schedule_text.specs.ShownIndex.{position_among, position_at};

use crate::shown_context::ShownContext;
use actor_epoch::{Actor, Context, Counter};
use riak_msgs::Key;
use std::alloc::{AllocError, Global};
use std::collections::BTreeMap;
use std::marker::Model;

/// What each number of a context is multiplied into: a prime that no epoch or counter of a run comes near.
const FACTOR: u64 = 1_099_511_628_211;

/// The contexts that replies showed. Contracts see them as a list, in the order in which they were shown.
///
/// Beside the list stand the places of the contexts of each digest, which is a number made of a context's
/// pairs, so that one is found without a look at the others.
pub(crate) struct ShownContexts {
    entries: Vec<ShownContext>,
    places: BTreeMap<u64, Vec<usize>>,
}

/// One call at each place where one is let go.
impl Drop for ShownContexts {
    fn drop(self) {
        let ShownContexts {
            entries: _entries,
            places: _places,
        } = self;
    }
}

impl Model for ShownContexts {
    ghost use Rattle.std.specs.Prelude.{List};
    ghost use Rattle.schedule_text.specs.declared.shown_context.ShownContext.{ShownContext};
    ghost use Rattle.schedule_text.specs.ShownIndex.{AreIndexed};

    ghost Value = { List ShownContext };

    ghost view = { λ s. s.entries.items };

    ghost invariant = { λ s. AreIndexed s.entries.items s.places };
}

/// A digest with one pair more.
fn mixed(digest: u64, actor: Actor, counter: Counter) -> u64
    ensures { result ≡ mixed digest actor counter }
{
    digest
        .wrapping_mul(FACTOR)
        .wrapping_add(u64::from(actor.epoch))
        .wrapping_mul(FACTOR)
        .wrapping_add(counter)
}

/// The digest of a context: it is made of the epochs and counters of its pairs.
fn digest_of(context: &Context<'_>) -> u64
    ensures { result ≡ digest_of 0 context.now }
{
    let mut digest = 0;
    for (actor, counter) in context.pairs() {
        digest = mixed(digest, actor, counter);
    }
    digest
}

/// The digest of a context that was shown; 0 where the bytes are of another form.
fn entry_digest(entry: &ShownContext) -> u64
    ensures { result ≡ entry_digest entry.now }
{
    match Context::read(entry.context.as_slice()) {
        None => 0,
        Some(context) => digest_of(&context),
    }
}

/// The position of a context, where it was shown for this key at this place.
fn position_at(
    entries: &[ShownContext],
    place: usize,
    key: &Key,
    context: &Context<'_>,
) -> Option<u64>
    ensures { result ≡ position_at entries.now key.now context.now place }
{
    match entries.get(place) {
        None => None,
        Some(entry) => {
            if entry.is_of(key, context) {
                Some(entry.position)
            } else {
                None
            }
        }
    }
}

/// The position of a context, where it was shown for this key at one of these places.
fn position_among(
    entries: &[ShownContext],
    places: &[usize],
    key: &Key,
    context: &Context<'_>,
) -> Option<u64>
    ensures { result ≡ position_among entries.now key.now context.now places.now }
{
    for place in places {
        match position_at(entries, *place, key, context) {
            None => {}
            Some(position) => return Some(position),
        }
    }
    None
}

/// Gives a digest an entry, where it has none. Refused where memory is; no place is added.
fn add_digest(
    places: &mut BTreeMap<u64, Vec<usize>>,
    alloc: Global,
    digest: u64,
) -> Result<(), AllocError>
    ensures same { (other : ℕ) → places_at places.new other ≡ places_at places.old other }
    ensures ok { OnOk result (IsSome (get nat_cmp places.new digest)) }
{
    if places.contains_key(&digest) {
        return Ok(());
    }
    match places.insert(digest, Vec::new(alloc)) {
        Ok(_) => Ok(()),
        Err(_) => Err(AllocError),
    }
}

/// Adds the place of a context of this digest. Refused where memory is, and then no place is added.
fn add_place(
    places: &mut BTreeMap<u64, Vec<usize>>,
    alloc: Global,
    digest: u64,
    place: usize,
) -> Result<(), AllocError>
    ensures ok { OnOk result ((other : ℕ) → places_at places.new other
        ≡ (if digest == other then places_at places.old other ++ place ∷ []
        else places_at places.old other)) }
    ensures err { OnErr result ((other : ℕ) →
        places_at places.new other ≡ places_at places.old other) }
{
    add_digest(places, alloc, digest)?;
    match places.get_mut(&digest) {
        None => unreachable!(),
        Some(same) => match same.push(place) {
            Ok(()) => Ok(()),
            Err(_) => Err(AllocError),
        },
    }
}

impl ShownContexts {
    /// None. It takes no memory.
    pub(crate) fn new(alloc: Global) -> ShownContexts
        ensures { result ≡ [] }
    {
        ShownContexts {
            entries: Vec::new(alloc),
            places: BTreeMap::new(alloc),
        }
    }

    /// The position of a context, where it was shown for this key.
    pub(crate) fn position_of(&self, key: &Key, context: &Context<'_>) -> Option<u64>
        ensures { result ≡ position_of self.now key.now context.now }
    {
        match self.places.get(&digest_of(context)) {
            None => None,
            Some(places) => {
                position_among(self.entries.as_slice(), places.as_slice(), key, context)
            }
        }
    }

    /// Adds a context. Refused where memory is, and then nothing changes.
    pub(crate) fn push(&mut self, alloc: Global, entry: ShownContext) -> Result<(), AllocError>
        ensures ok { OnOk result (self.new ≡ self.old ++ entry ∷ []) }
        ensures err { OnErr result (self.new ≡ self.old) }
    {
        let digest = entry_digest(&entry);
        let place = self.entries.as_slice().len();
        self.entries.reserve(1)?;
        add_place(&mut self.places, alloc, digest, place)?;
        self.entries.push_reserved(entry);
        Ok(())
    }
}

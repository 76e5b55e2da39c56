//! The keys of one bucket, with their places.

ghost use Rattle.std.specs.Prelude.{◌≡◌, ◌↔◌, [], ◌∷◌, IfOk, OnOk, OnErr, IsTrue, true, Some, None};
ghost use Rattle.std.specs.Prelude.{if◌then◌else◌, ℕ, List, option_map};
ghost use Rattle.std.specs.BTreeMap as tree;
ghost use Rattle.std.specs.BTreeMap.{is_at};
ghost use Rattle.names.specs.ShortNames.{is_short};
ghost use Rattle.names.specs.AssocList.{get, IsOrdered};
ghost use Rattle.std.specs.Prelude.{take};
ghost use Rattle.names.specs.Behind.{next_entry, lower};
ghost use Rattle.names.specs.KeyRefs.{name_of};
ghost use Rattle.names.specs.Nested.{bytes_cmp};

use crate::name::Name;
use crate::name_map::behind::next_entry;
use crate::short_name::ShortName;
use riak_msgs::Bytes;
use std::alloc::{AllocError, Global};
use std::collections::BTreeMap;
use std::marker::Model;

/// Keys in their order, each with its place: those of up to 15 bytes in a map by their two numbers, and
/// the longer ones in one of their own. A place is a number of 32 bits. Contracts see the list of all
/// keys.
pub(crate) struct KeyPlaces {
    short: BTreeMap<ShortName, u32>,
    long: BTreeMap<Bytes, u32>,
}

/// One call at each place where one is let go.
impl Drop for KeyPlaces {
    fn drop(self) {
        let KeyPlaces {
            short: _short,
            long: _long,
        } = self;
    }
}

impl Model for KeyPlaces {
    ghost use Rattle.names.specs.Nested.{KeyPlaces, keys_in, AreKeys};

    ghost Value = { KeyPlaces };

    ghost view = { λ k. keys_in k.short k.long };

    ghost invariant = { λ k. AreKeys k.short k.long };
}

/// The greatest place that is stored.
const MAX_PLACE: usize = 4_294_967_295;

/// A place as it is stored. Refused where it is no number of 32 bits.
#[inline(always)]
fn stored_place(place: usize) -> Result<u32, AllocError>
    ensures { IfOk result (λ stored. stored ≡ place) }
{
    if place > MAX_PLACE {
        return Err(AllocError);
    }
    Ok(place as u32)
}

/// The place of a name, if it has one.
#[inline(always)]
fn get_short(keys: &BTreeMap<ShortName, u32>, name: ShortName) -> Option<usize>
    ensures { result ≡ tree.get bytes_cmp keys.now name }
{
    match keys.get(&name) {
        Some(place) => Some(*place as usize),
        None => None,
    }
}

/// The place of a longer name, if it has one.
fn get_long(keys: &BTreeMap<Bytes, u32>, key: &Bytes) -> Option<usize>
    ensures { result ≡ tree.get bytes_cmp keys.now key.now }
{
    match keys.get(key) {
        Some(place) => Some(*place as usize),
        None => None,
    }
}

/// Gives a name a place, which replaces the one that it has, by one search. Refused where memory is, and
/// where the place is no number of 32 bits; then nothing changes.
#[inline(always)]
fn insert_short(
    keys: &mut BTreeMap<ShortName, u32>,
    name: ShortName,
    place: usize,
) -> Result<(), AllocError>
    ensures inserted { OnOk result ((other : List ℕ) → tree.get bytes_cmp keys.new other
        ≡ (if is_at (bytes_cmp name) other then Some place
        else tree.get bytes_cmp keys.old other)) }
    ensures refused { OnErr result (keys.new.entries ≡ keys.old.entries) }
    ensures ordered { tree.IsOrdered bytes_cmp keys.new }
{
    // By this call it is known that the keys are in order, also where the place is refused.
    let _count = keys.len();
    let stored = stored_place(place)?;
    match keys.insert(name, stored) {
        Ok(_) => Ok(()),
        Err(_) => Err(AllocError),
    }
}

/// The same for a longer name, which is copied first; where it is held already its copy is let go.
fn insert_long(
    keys: &mut BTreeMap<Bytes, u32>,
    alloc: Global,
    key: &Bytes,
    place: usize,
) -> Result<(), AllocError>
    ensures inserted { OnOk result ((other : List ℕ) → tree.get bytes_cmp keys.new other
        ≡ (if is_at (bytes_cmp key.now) other then Some place
        else tree.get bytes_cmp keys.old other)) }
    ensures refused { OnErr result (keys.new.entries ≡ keys.old.entries) }
    ensures ordered { tree.IsOrdered bytes_cmp keys.new }
{
    let _count = keys.len();
    let stored = stored_place(place)?;
    let own = key.clone(alloc)?;
    match keys.insert(own, stored) {
        Ok(_) => Ok(()),
        Err(_) => Err(AllocError),
    }
}

/// Removes a name; returns the place that it had. It takes no memory.
#[inline(always)]
fn remove_short(keys: &mut BTreeMap<ShortName, u32>, name: ShortName) -> Option<usize>
    ensures place { result ≡ tree.get bytes_cmp keys.old name }
    ensures removed { (other : List ℕ) → tree.get bytes_cmp keys.new other
        ≡ (if is_at (bytes_cmp name) other then None else tree.get bytes_cmp keys.old other) }
    ensures ordered { tree.IsOrdered bytes_cmp keys.new }
{
    match keys.remove(&name) {
        Some(place) => Some(place as usize),
        None => None,
    }
}

/// The same for a longer name.
fn remove_long(keys: &mut BTreeMap<Bytes, u32>, key: &Bytes) -> Option<usize>
    ensures place { result ≡ tree.get bytes_cmp keys.old key.now }
    ensures removed { (other : List ℕ) → tree.get bytes_cmp keys.new other
        ≡ (if is_at (bytes_cmp key.now) other then None else tree.get bytes_cmp keys.old other) }
    ensures ordered { tree.IsOrdered bytes_cmp keys.new }
{
    match keys.remove(key) {
        Some(place) => Some(place as usize),
        None => None,
    }
}

/// A name with its place. Refused as `insert_short` is.
fn one_short(
    alloc: Global,
    name: ShortName,
    place: usize,
) -> Result<BTreeMap<ShortName, u32>, AllocError>
    ensures { IfOk result (λ keys. keys.entries ≡ (name, place) ∷ []) }
{
    let stored = stored_place(place)?;
    let mut keys = BTreeMap::new(alloc);
    match keys.insert(name, stored) {
        Ok(_) => Ok(keys),
        Err(_) => Err(AllocError),
    }
}

/// The same for a longer name, which is copied.
fn one_long(alloc: Global, key: &Bytes, place: usize) -> Result<BTreeMap<Bytes, u32>, AllocError>
    ensures { IfOk result (λ keys. keys.entries ≡ (key.now, place) ∷ []) }
{
    let stored = stored_place(place)?;
    let own = key.clone(alloc)?;
    let mut keys = BTreeMap::new(alloc);
    match keys.insert(own, stored) {
        Ok(_) => Ok(keys),
        Err(_) => Err(AllocError),
    }
}

/// A name and its place, by value.
fn by_value(entry: Option<(&ShortName, &u32)>) -> Option<(ShortName, usize)>
    ensures { result ≡ option_map (λ found. (found.0.now, found.1.now)) entry.entry }
{
    match entry {
        None => None,
        Some((name, place)) => Some((*name, *place as usize)),
    }
}

/// The least name behind the first 15 bytes of one, or of all where none is given, with its place.
fn next_short(keys: &BTreeMap<ShortName, u32>, after: Option<&Bytes>) -> Option<(ShortName, usize)>
    ensures { result
        ≡ next_entry bytes_cmp (option_map (λ key. take 15 key.now) after.entry) keys.now.entries }
{
    match after {
        None => by_value(next_entry(keys, None)),
        Some(key) => {
            let prefix = ShortName::prefix_of(key.as_slice());
            by_value(next_entry(keys, Some(&prefix)))
        }
    }
}

/// The least longer name behind one, or of all where none is given, with its place.
fn next_long<'a>(
    keys: &'a BTreeMap<Bytes, u32>,
    after: Option<&Bytes>,
) -> Option<(&'a Bytes, usize)>
    ensures { option_map (λ entry. (entry.0.now, entry.1)) result
        ≡ next_entry bytes_cmp (option_map (λ key. key.now) after.entry) keys.now.entries }
{
    match next_entry(keys, after) {
        None => None,
        Some((key, place)) => Some((key, *place as usize)),
    }
}

/// The lesser of two names, where each may be missing, with its place.
fn lower<'a>(
    short: Option<(ShortName, usize)>,
    long: Option<(&'a Bytes, usize)>,
) -> Option<(Name<'a>, usize)>
    ensures { option_map (λ entry. (name_of entry.0, entry.1)) result
        ≡ lower bytes_cmp short (option_map (λ found. (found.0.now, found.1)) long.entry) }
{
    match short {
        None => match long {
            None => None,
            Some((key, place)) => Some((Name::Bytes(key), place)),
        },
        Some((name, place)) => match long {
            None => Some((Name::Short(name), place)),
            Some((key, other)) => {
                if name.is_above(key.as_slice()) {
                    return Some((Name::Bytes(key), other));
                }
                Some((Name::Short(name), place))
            }
        },
    }
}

impl KeyPlaces {
    /// The least key behind one, or of all where none is given, with its place. It takes no memory.
    pub(crate) fn next(&self, after: Option<&Bytes>) -> Option<(Name<'_>, usize)>
        ensures { option_map (λ entry. (name_of entry.0, entry.1)) result
            ≡ next_entry bytes_cmp (option_map (λ key. key.now) after.entry) self.now.entries }
    {
        let short = next_short(&self.short, after);
        let long = next_long(&self.long, after);
        lower(short, long)
    }

    /// One key with its place. Refused where memory is, and where the place is no number of 32 bits.
    pub(crate) fn one_key(alloc: Global, key: &Bytes, place: usize) -> Result<KeyPlaces, AllocError>
        ensures { IfOk result (λ keys. keys.entries ≡ (key.now, place) ∷ []) }
    {
        match ShortName::of(key.as_slice()) {
            Some(name) => {
                let short = one_short(alloc, name, place)?;
                let long = BTreeMap::new(alloc);
                Ok(KeyPlaces { short, long })
            }
            None => {
                let long = one_long(alloc, key, place)?;
                let short = BTreeMap::new(alloc);
                Ok(KeyPlaces { short, long })
            }
        }
    }

    /// The place of a key, if it has one.
    #[inline(always)]
    pub(crate) fn get(&self, key: &Bytes) -> Option<usize>
        ensures place { result ≡ get bytes_cmp self.now key.now }
        ensures ordered { IsOrdered bytes_cmp self.now }
    {
        match ShortName::of(key.as_slice()) {
            Some(name) => get_short(&self.short, name),
            None => get_long(&self.long, key),
        }
    }

    /// The same of a name of up to 15 bytes.
    #[inline(always)]
    pub(crate) fn get_name(&self, name: ShortName) -> Option<usize>
        requires { is_short name ≡ true }
        ensures place { result ≡ get bytes_cmp self.now name }
        ensures ordered { IsOrdered bytes_cmp self.now }
    {
        get_short(&self.short, name)
    }

    /// Whether there is no key.
    pub(crate) fn is_empty(&self) -> bool
        ensures { IsTrue result ↔ (self.now.entries ≡ []) }
    {
        self.short.is_empty() && self.long.is_empty()
    }

    /// Gives a key a place, which replaces the one that it has, by one search. Refused where memory is,
    /// and where the place is no number of 32 bits; then nothing changes.
    #[inline(always)]
    pub(crate) fn insert(
        &mut self,
        alloc: Global,
        key: &Bytes,
        place: usize,
    ) -> Result<(), AllocError>
        ensures inserted { OnOk result ((other : List ℕ) → get bytes_cmp self.new other
            ≡ (if is_at (bytes_cmp key.now) other then Some place
            else get bytes_cmp self.old other)) }
        ensures refused { OnErr result (self.new.entries ≡ self.old.entries) }
        ensures ordered { IsOrdered bytes_cmp self.new }
    {
        match ShortName::of(key.as_slice()) {
            Some(name) => insert_short(&mut self.short, name, place),
            None => insert_long(&mut self.long, alloc, key, place),
        }
    }

    /// Removes a key; returns the place that it had. It takes no memory.
    #[inline(always)]
    pub(crate) fn remove(&mut self, key: &Bytes) -> Option<usize>
        ensures place { result ≡ get bytes_cmp self.old key.now }
        ensures removed { (other : List ℕ) → get bytes_cmp self.new other
            ≡ (if is_at (bytes_cmp key.now) other then None else get bytes_cmp self.old other) }
        ensures ordered { IsOrdered bytes_cmp self.new }
    {
        match ShortName::of(key.as_slice()) {
            Some(name) => remove_short(&mut self.short, name),
            None => remove_long(&mut self.long, key),
        }
    }
    /// The same of a name of up to 15 bytes.
    #[inline(always)]
    pub(crate) fn remove_name(&mut self, name: ShortName) -> Option<usize>
        requires { is_short name ≡ true }
        ensures place { result ≡ get bytes_cmp self.old name }
        ensures removed { (other : List ℕ) → get bytes_cmp self.new other
            ≡ (if is_at (bytes_cmp name) other then None else get bytes_cmp self.old other) }
        ensures ordered { IsOrdered bytes_cmp self.new }
    {
        remove_short(&mut self.short, name)
    }
}

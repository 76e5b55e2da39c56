//! Names of up to 15 bytes as two numbers, and an ordered index of keys in which they stand so.
//!
//! ```text
//! let short = ShortName::of(b"k");                Some: k as two numbers
//! ShortName::of(b"a name of sixteen")             None: it has more than 15 bytes
//! ShortName::prefix_of(b"a name of sixteen")      "a name of sixte"
//! short.is_above(b"j, of any length")             true: k is behind it in the order of bytes
//! short.to_bytes(alloc)?                          b"k" as a byte string
//!
//! let mut map = NameMap::new(alloc);              no keys
//! map.insert(alloc, &key, 7)?;                    the key has the place 7
//! map.get(&key)                                   Some(7)
//! map.next(None)                                  the least key, its names as they are stored, and 7
//! map.remove(&key)                                Some(7): the key has no place
//! ```
//!
//! A name is the byte string of a bucket or of a key. A [`ShortName`] is in 16 bytes, is copied as it
//! is and takes no memory. A [`ShortKey`] is a key of the default bucket type with two such names.
//!
//! A [`NameMap`] leads from each key (bucket type, bucket, key) to its place: a number of 32 bits, as
//! the index of what belongs to the key in a slab. It is a trie of three levels, each an ordered map:
//! of bucket types, of the buckets in each, of the keys in each. So no whole key lies in it: one is
//! given as its borrowed parts ([`KeyRef`]), and found as its parts, each a [`Name`] ([`FoundKey`]).
//!
//! Contracts see a short name as the list of its bytes, a short key as the key, and the map as the
//! list of all keys with their places, which ascends (`AssocList`). The order is that of byte
//! strings, level by level. `specs/Merged` says what a map of short names and one of longer ones are
//! together, `specs/Nested` what a map of maps is as one list.
//!
//! # Proved
//!
//! A [`ShortName`] is a name of up to 15 bytes. Two are equal, and in order, as their bytes are:
//! they compare by their numbers alone. A [`NameMap`] is a list of keys in order, each with the
//! place that it got last. `insert` alone may be refused, and changes nothing then. By the calls of
//! `ShortName`, `ShortKey`, `KeyRef`, `FoundKey`, `Name` and `NameMap`, their orders and invariants;
//! law `names_are_ordered`.
//!
//! # Tested
//!
//! Calls with ample memory succeed.
#![tactic(auto)]

mod key_ref;
mod name;
mod name_map;
mod short_key;
mod short_name;

pub use key_ref::{FoundKey, KeyRef, given_parts};
pub use name::Name;
pub use name_map::NameMap;
pub use short_key::ShortKey;
pub use short_name::{ShortName, names_are_ordered};

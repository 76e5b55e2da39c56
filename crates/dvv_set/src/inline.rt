//! A list with its first items in the value itself.

ghost use Rattle.std.specs.Prelude.{◌≡◌, ◌≤◌, ◌<◌, ◌∷◌, ◌+◌, length, [], ◌++◌, ◌==◌};
ghost use Rattle.std.specs.Prelude.{◌↔◌, take, IsSome, IfSome, OnOk, get_or};
ghost use Rattle.std.specs.List.{insert};

use smallvec::SmallVec;
use std::alloc::{AllocError, Global};
use std::default::MadeWith;
use std::marker::Model;
use std::ops::DerefSlice;

/// A list that holds up to `N` items in place, and more in an allocation. Contracts see its items, and
/// how many fit into the room that it has. It has no more than what a clock needs, over the kit's
/// `SmallVec`.
pub(crate) struct InlineList<T, const N: usize> {
    content: SmallVec<T, N>,
}

impl<T: Drop, const N: usize> Drop for InlineList<T, N> {
    fn drop(self) {
        let InlineList { content: _content } = self;
    }
}

impl<T, const N: usize> Model for InlineList<T, N> {
    ghost use Rattle.smallvec.specs.SmallVec.{SmallVec as Items, small_vec_code};

    ghost Value = { Items T };

    ghost coded = { small_vec_code T.code };

    ghost view = { λ v. v.content };
}

impl<T, const N: usize> InlineList<T, N> {
    ghost use Rattle.std.specs.Borrow.{sem};
    ghost use Rattle.dvv_set.specs.InlineLists.{LendsItem};

    /// The item at an index, for writing, if there is one.
    pub(crate) fn get_mut(&mut self, at: usize) -> Option<&mut T>
        ensures* writes_back { sem 𝓛 (LendsItem T.row N.row self.entry at result) }
        ensures variant { IsSome result ↔ (at < length self.old.items) }
        ensures value { IfSome result (λ x. x.now ≡ get_or self.old.items at x.now) }
    {
        self.content.get_mut(at)
    }

    /// The allocator.
    pub(crate) fn allocator(&self) -> Global {
        *self.content.allocator()
    }

    /// Whether there is no item.
    pub(crate) fn is_empty(&self) -> bool
        ensures { result ≡ (length self.now.items == 0) }
    {
        self.content.is_empty()
    }

    /// How many items there are.
    pub(crate) fn len(&self) -> usize
        ensures { result ≡ length self.now.items }
    {
        self.content.len()
    }
}

impl<T, const N: usize> DerefSlice for InlineList<T, N> {
    type Elem = T;

    ghost deref_gives = { λ v xs. xs ≡ v.items };

    fn deref(&self) -> &[T] {
        self.content.as_slice()
    }
}

impl<T: MadeWith<Global> + Drop, const N: usize> InlineList<T, N> {
    /// An empty list, for which no memory is taken.
    pub(crate) fn new(alloc: Global) -> Self
        ensures items { result.items ≡ [] }
        ensures capacity { result.capacity ≡ N }
    {
        InlineList {
            content: SmallVec::new(alloc),
        }
    }

    /// How many items fit into the room that it has.
    #[inline(always)]
    pub(crate) fn capacity(&self) -> usize
        ensures { result ≡ self.now.capacity }
    {
        self.content.capacity()
    }

    /// Makes room for more items. Refused where there is no memory, and then nothing changes.
    #[inline(always)]
    pub(crate) fn reserve(&mut self, more: usize) -> Result<(), AllocError>
        ensures items { self.new.items ≡ self.old.items }
        ensures ok { OnOk result (length self.old.items + more ≤ self.new.capacity) }
        ensures capacity { self.old.capacity ≤ self.new.capacity }
    {
        let room = self.content.capacity();
        // Mostly there is room, and no call is made.
        if more <= room && self.content.len() <= room - more {
            return Ok(());
        }
        self.content.reserve(more)
    }

    /// Puts an item at the end, in room that is there.
    pub(crate) fn push_reserved(&mut self, item: T)
        requires { length self.old.items < self.old.capacity }
        ensures items { self.new.items ≡ self.old.items ++ item ∷ [] }
        ensures capacity { self.new.capacity ≡ self.old.capacity }
    {
        self.content.push_reserved(item);
    }

    /// Puts an item at the end. Refused where there is no memory.
    pub(crate) fn push(&mut self, item: T) -> Result<(), AllocError>
        ensures { OnOk result (self.new.items ≡ self.old.items ++ item ∷ []) }
    {
        self.content.push(item)?;
        Ok(())
    }

    /// Inserts an item, in room that is there.
    pub(crate) fn insert(&mut self, at: usize, item: T)
        requires place { at ≤ length self.old.items }
        requires room { length self.old.items < self.old.capacity }
        ensures inserted { self.new.items ≡ insert self.old.items at item }
        ensures capacity { self.new.capacity ≡ self.old.capacity }
    {
        if self.content.insert(at, item).is_err() {
            unreachable!()
        }
    }

    /// Keeps the first items.
    #[inline(always)]
    pub(crate) fn truncate(&mut self, len: usize)
        ensures items { self.new.items ≡ take len self.old.items }
        ensures capacity { self.new.capacity ≡ self.old.capacity }
    {
        self.content.truncate(len);
    }

    /// Takes the first item out.
    pub(crate) fn remove_first(&mut self) -> T
        requires { 0 < length self.old.items }
        ensures { self.old.items ≡ result ∷ self.new.items }
    {
        self.content.remove(0)
    }
}

//! What a node makes one call by.

use crate::reserve::ReserveOf;
use crate::shared::Shared;
use crate::turnstile::Turnstile;
use std::alloc::{AllocError, Global};
use std::sync::Wait;

/// What a node makes one call by: its runtime, by which it waits for a right; the allocator that the caller lends for this call; what all
/// sessions of the run have in common; the turnstile that the call passes once it has its right; and what its thread keeps back, which it gives
/// up where memory is refused.
///
/// It is five words, and is handed on by value.
pub(crate) struct Call<'a, W: Wait, T: Turnstile> {
    pub(crate) rt: &'a W,
    pub(crate) alloc: Global,
    pub(crate) shared: &'a Shared,
    pub(crate) turnstile: &'a T,
    pub(crate) reserve: ReserveOf<'a>,
}

// By hand, since a derived copy would ask for one of the runtime and one of the turnstile.
impl<'a, W: Wait, T: Turnstile> Clone for Call<'a, W, T> {
    fn clone(&self) -> Result<Self, AllocError> {
        Ok(*self)
    }
}

impl<'a, W: Wait, T: Turnstile> Copy for Call<'a, W, T> {}

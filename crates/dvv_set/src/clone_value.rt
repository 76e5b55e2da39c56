//! How values are copied.

ghost use Rattle.std.specs.Prelude.{◌≡◌, IfOk};

use std::alloc::{AllocError, Global};

/// Copies the values of a clock. It is implemented for a type of the caller's, so that the values may be
/// of any other crate.
pub trait CloneValue<V> {
    /// A copy. Refused where there is no memory.
    fn clone_value(value: &V, alloc: Global) -> Result<V, AllocError>
        ensures { IfOk result (λ copy. copy ≡ value.now) };
}

//! An optional value that only clauses read.
ghost use Rattle.std.specs.Prelude.{◌≡◌, Some, None};

use crate::list::GhostList;
use std::marker::Model;

/// A value of `T` or none, of which there are no bytes: no code reads it, and a clause sees it as its option.
///
/// | Call | The value |
/// |---|---|
/// | `GhostValue::none()` | `None` |
/// | `GhostValue::some(&7)` | `Some 7` |
///
/// The value is copied by its model alone, so `T` needs no `Clone`.
#[derive(Drop)]
pub struct GhostValue<T> {
    held: GhostList<T>,
}

impl<T> Model for GhostValue<T> {
    ghost use Rattle.std.specs.Prelude.{Option};
    ghost use Rattle.std.specs.Coded.{coded_option};
    ghost use Rattle.ghost_state.specs.Lists.{first_of};

    ghost Value = { Option T };

    ghost coded = { coded_option T.code };

    ghost view = { λ value. first_of value.held };
}

impl<T> GhostValue<T> {
    /// No value.
    pub fn none() -> GhostValue<T>
        ensures { result ≡ None }
    {
        GhostValue {
            held: GhostList::new(),
        }
    }

    /// This value.
    pub fn some(value: &T) -> GhostValue<T>
        ensures { result ≡ Some value.now }
    {
        let mut held = GhostList::new();
        held.push(value);
        GhostValue { held }
    }
}

//! What a kept command did.

ghost use Rattle.std.specs.Prelude.{◌≡◌, option_copied};
ghost use Rattle.sibling_register.specs.History.{is_update, written};
ghost use Rattle.sibling_register.specs.Entries.{operation_of};

/// What an accepted command did.
#[derive(Drop)]
pub(crate) enum Operation<V> {
    Write(V),
    Tombstone,
    Reap,
}

impl<V> Operation<V> {
    /// Whether it is a write or a tombstone.
    pub(crate) fn is_update(&self) -> bool
        ensures value { result ≡ is_update (operation_of self.now) }
    {
        match self {
            Operation::Write(_) => true,
            Operation::Tombstone => true,
            Operation::Reap => false,
        }
    }

    /// What a write wrote.
    pub(crate) fn written(&self) -> Option<&V>
        ensures value { option_copied result ≡ written (operation_of self.now) }
    {
        match self {
            Operation::Write(content) => Some(content),
            Operation::Tombstone => None,
            Operation::Reap => None,
        }
    }
}

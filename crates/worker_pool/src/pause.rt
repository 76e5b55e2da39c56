//! What has the workers of a run lay their sessions down.

/// A word from outside a run that its workers are to lay their sessions down, each between two of its steps.
pub trait Pause {
    ghost use Rattle.std.specs.Prelude.{◌≡◌, true};

    // The word may be given.
    ghost can_be_raised: { Type 0 };

    /// Whether the word was given.
    fn is_raised(&self) -> bool
        ensures { result ≡ true → can_be_raised };
}

/// The word is never given: each session of the run is served to its end.
#[derive(Clone, Copy, Drop)]
pub struct NoPause;

impl Pause for NoPause {
    ghost can_be_raised = { ⊥ };

    fn is_raised(&self) -> bool {
        false
    }
}

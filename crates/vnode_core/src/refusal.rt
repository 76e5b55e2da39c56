//! Why a vnode refuses a command, and the error text of each refusal.

ghost use Rattle.std.specs.Prelude.{◌≡◌};
ghost use Rattle.sibling_register.specs.Refusals.{refusal_text};
ghost use Rattle.vnode_core.specs.declared.refusal.Refusal.TheVariants.{BadContext, NoMemory};
ghost use Rattle.vnode_core.specs.Refusals.{number_of};

use actor_epoch::MalformedContext;
use riak_msgs::Text;
use std::alloc::AllocError;
use thiserror::Error;

/// Why a vnode refuses a command. Each refusal leaves the vnode as it was.
#[derive(Clone, Copy, Debug, Drop, Error, PartialEq, Eq)]
pub enum Refusal {
    /// A put asked for no value under its key, and there is one.
    #[error("match_found")]
    MatchFound,
    /// A put asked for an unchanged key, and its context isn't the key's.
    #[error("modified")]
    Modified,
    /// A put asked for an unchanged key, and the key has no value.
    #[error("notfound")]
    NotFound,
    /// The context isn't of the form, or names dots that this vnode hasn't given.
    #[error("bad context")]
    BadContext,
    /// More than 63 siblings would stay beside the new one.
    #[error("too many siblings")]
    TooManySiblings,
    /// The key's clock would have more than 64 actors.
    #[error("clock full")]
    ClockFull,
    /// The key is absent, and the vnode has no epoch left for a new life.
    #[error("epochs used up")]
    EpochsUsedUp,
    /// The key's actor has no dot left.
    #[error("counter used up")]
    CounterUsedUp,
    /// Memory was refused.
    #[error("no memory")]
    NoMemory,
}

impl From<AllocError> for Refusal {
    ghost from_gives = { λ _ refusal. refusal ≡ NoMemory };

    fn from(_error: AllocError) -> Refusal {
        Refusal::NoMemory
    }
}

impl From<MalformedContext> for Refusal {
    ghost from_gives = { λ _ refusal. refusal ≡ BadContext };

    fn from(_error: MalformedContext) -> Refusal {
        Refusal::BadContext
    }
}

/// The text of the error reply for a refusal: each refusal has one of its own. It takes no memory.
impl From<Refusal> for Text {
    ghost from_gives = { λ refusal text. text ≡ refusal_text (number_of refusal) };

    fn from(refusal: Refusal) -> Text {
        match refusal {
            Refusal::MatchFound => Text::MatchFound,
            Refusal::Modified => Text::Modified,
            Refusal::NotFound => Text::NotFound,
            Refusal::BadContext => Text::BadContext,
            Refusal::TooManySiblings => Text::TooManySiblings,
            Refusal::ClockFull => Text::ClockFull,
            Refusal::EpochsUsedUp => Text::EpochsUsedUp,
            Refusal::CounterUsedUp => Text::CounterUsedUp,
            Refusal::NoMemory => Text::NoMemory,
        }
    }
}

//! What is known of a partition's diversions.

ghost use Rattle.std.specs.Prelude.{◌≡◌, ◌++◌, ◌∷◌, [], ℕ, List, Some, IfSome, MatchOption};
ghost use Rattle.std.specs.Prelude.{slice_get};
ghost use Rattle.handoff.specs.declared.copying.Copied.{Copied as CopyBack};
ghost use Rattle.handoff.specs.declared.gates.Fallback.{Fallback as FallbackView};
ghost use Rattle.handoff.specs.Copying.{CopiesBack, IsCopiedBack};
ghost use Rattle.handoff.specs.Partitions.{GateId, HandoffView, IsDiverted, View};
ghost use Rattle.handoff.specs.Returning.{HasReturned};
ghost use Rattle.handoff_tracks.specs.Compared.{CanCopy, CanEnd, CopiesGates, HaveSameGates};
ghost use Rattle.handoff_tracks.specs.Compared.{IsBehind, IsReturnOf, KeepsGates, returned_by};
ghost use Rattle.handoff_tracks.specs.Compared.{returned_of};
ghost use Rattle.handoff_tracks.specs.Tracks.{IsTrack, WereMade};

use crate::compared::{are_all, commands_in, follows, is_behind};
use handoff::{Copied, Fallback, Returned};

/// What is kept of a partition's last return.
#[derive(Drop)]
pub struct LastReturn {
    /// The passes by which it looked at both gates.
    pub passes: Returned,
    /// How many commands the primary had taken when that diversion began.
    pub commands: u64,
    /// How many diversions have returned by then.
    pub diversions: u64,
}

/// The keys that were copied back in a diversion.
#[derive(Drop)]
pub struct Copies {
    /// How many.
    pub keys: u64,
    /// How many entries of the primary's history had been seen before the first.
    pub from: u64,
    /// What the last call gave, if there was one.
    pub last: Option<Copied>,
}

/// What is known of a partition's diversions, by what each call of the hand-off gave.
#[derive(Drop)]
pub enum HandoffTrack {
    /// All have returned, and no other calls copied or returned meanwhile.
    AtPrimary(Option<LastReturn>),
    /// So had the earlier ones, and one has begun.
    AtFallback(Option<LastReturn>, Copies),
    /// Nothing: entries came to the primary that no call told of, as of one that was refused behind some of its copies.
    Unknown,
}

/// Behind how many entries of the primary the first of these calls began, where the next one is behind the last.
fn from_of(from: u64, last: &Option<Copied>, next: &Copied) -> Option<u64>
    requires { IfSome last.now (λ first. HaveSameGates first next.now) }
    ensures { IfSome result (λ begins. MatchOption last.now (begins ≡ next.now.began)
        (λ first. (begins ≡ from) × IsBehind first next.now)) }
{
    match last {
        None => Some(next.began),
        Some(first) => {
            if is_behind(first, next) {
                Some(from)
            } else {
                None
            }
        }
    }
}

impl Copies {
    /// None.
    fn none() -> Copies
        ensures { (primary : GateId View) (fallback : FallbackView)
            → WereMade primary fallback result [] }
    {
        Copies {
            keys: 0,
            from: 0,
            last: None,
        }
    }

    /// With those of a call more; none where it isn't behind the last one.
    fn with(self, next: Copied) -> Option<Copies>
        requires { IfSome self.last (λ last. HaveSameGates last next) }
        ensures { (primary : GateId View) (fallback : FallbackView) (budget : ℕ)
            (calls : List CopyBack) → WereMade primary fallback self calls
            → CopiesBack primary fallback budget next
            → IfSome result (λ copies. WereMade primary fallback copies (calls ++ next ∷ [])) }
    {
        let from = from_of(self.from, &self.last, &next)?;
        let keys = self.keys.checked_add(u64::from(next.keys))?;
        Some(Copies {
            keys,
            from,
            last: Some(next),
        })
    }
}

/// How many diversions have returned.
fn returned_by(kept: &Option<LastReturn>) -> u64
    ensures { result ≡ returned_by kept.now }
{
    match kept {
        Some(last) => last.diversions,
        None => 0,
    }
}

/// What is kept of the return of a diversion from this fallback, where it and the calls of it follow on.
fn return_of(
    kept: &Option<LastReturn>,
    copies: &Copies,
    fallback: &Fallback,
    passes: Returned,
) -> Option<LastReturn>
    requires gates { IfSome fallback.now.start (KeepsGates kept.now fallback.now.before) }
    requires copies { CopiesGates copies.now passes }
    ensures { IfSome result (IsReturnOf kept.now copies.now fallback.now passes) }
{
    let Some(start) = &fallback.start else {
        return None;
    };
    let commands = commands_in(start.tally)?;
    if !follows(kept, &fallback.before, start, commands) || !are_all(start, copies, &passes) {
        return None;
    }
    let diversions = returned_by(kept).checked_add(1)?;
    Some(LastReturn {
        passes,
        commands,
        diversions,
    })
}

impl HandoffTrack {
    /// Behind a diversion.
    pub(crate) fn begun(self) -> HandoffTrack
        ensures { (index : ℕ) (old new : HandoffView) → IsTrack old index self
            → IsDiverted index old new → IsTrack new index result }
    {
        match self {
            HandoffTrack::AtPrimary(kept) => HandoffTrack::AtFallback(kept, Copies::none()),
            HandoffTrack::AtFallback(_kept, _copies) => HandoffTrack::Unknown,
            HandoffTrack::Unknown => HandoffTrack::Unknown,
        }
    }

    /// Behind a call that copied keys back.
    pub(crate) fn copied(self, copied: Copied) -> HandoffTrack
        requires { CanCopy self copied }
        ensures { (handoff : HandoffView) (index budget : ℕ) → IsTrack handoff index self
            → IsCopiedBack handoff index budget copied → IsTrack handoff index result }
    {
        match self {
            HandoffTrack::AtFallback(kept, copies) => match copies.with(copied) {
                Some(copies) => HandoffTrack::AtFallback(kept, copies),
                None => HandoffTrack::Unknown,
            },
            HandoffTrack::AtPrimary(_kept) => HandoffTrack::Unknown,
            HandoffTrack::Unknown => HandoffTrack::Unknown,
        }
    }

    /// Behind the return of a diversion from this fallback.
    pub(crate) fn ended(self, fallback: &Fallback, passes: Returned) -> HandoffTrack
        requires { CanEnd self fallback.now passes }
        ensures { (handoff : HandoffView) (index : ℕ)
            → slice_get handoff.fallbacks index ≡ Some (Some fallback.now)
            → IsTrack handoff index self
            → HasReturned handoff index passes → IsTrack handoff index result }
    {
        match self {
            HandoffTrack::AtFallback(kept, copies) => {
                match return_of(&kept, &copies, fallback, passes) {
                    Some(last) => HandoffTrack::AtPrimary(Some(last)),
                    None => HandoffTrack::Unknown,
                }
            }
            HandoffTrack::AtPrimary(_kept) => HandoffTrack::Unknown,
            HandoffTrack::Unknown => HandoffTrack::Unknown,
        }
    }

    /// How many diversions of the partition have returned, of each of which all calls are known. None
    /// where that isn't known.
    pub fn returned(&self) -> Option<u64>
        ensures { result ≡ returned_of self.now }
    {
        match self {
            HandoffTrack::AtPrimary(kept) => Some(returned_by(kept)),
            HandoffTrack::AtFallback(kept, _copies) => Some(returned_by(kept)),
            HandoffTrack::Unknown => None,
        }
    }
}

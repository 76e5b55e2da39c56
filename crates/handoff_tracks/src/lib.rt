//! What a caller of a hand-off knows of each partition's diversions, who makes all calls of it one behind another.
//!
//! [`HandoffTracks`] makes these calls and compares what they give: that a copy back began behind all
//! that the one before it had seen, that the calls of a diversion copied as many keys as entries came to
//! its primary, and that a diversion began right behind the last return. So it keeps, of each partition,
//! the passes of the last return and of the last copy back, and some counts ([`HandoffTrack`]); in
//! clauses stand the calls themselves (`HaveTracks` in `specs/Tracks`). Where all of them are known, they
//! are what `running_hand_offs_join` of `handoff` asks for: no sibling was lost by them, and none came
//! again ([`known_hand_offs_join`]).
//!
//! ```text
//! let mut handoff = Handoff::new(alloc, ring, 1)?
//! let mut tracks = HandoffTracks::new(alloc, &handoff)?
//! tracks.tracks()[0].returned()                              Some(0)
//! handoff.divert(alloc, 0)?; tracks.begin(0)                 calls of partition 0 are for a fallback
//! tracks.copy_back(rt, alloc, &handoff, 0, 10)?              up to ten keys of it are copied back
//! tracks.finish_return(rt, alloc, &handoff, 0)?
//! tracks.tracks()[0].returned()                              Some(1); None where a copy back was refused behind some keys
//! ```
//!
//! What it costs: a call of the hand-off, and some comparisons of numbers. A partition takes some hundred
//! bytes, made once.
//!
//! # Proved
//!
//! **The tracks of a partition's diversions are what each call of the hand-off gave, one behind
//! another** (`HaveTracks`). If none is missing, each key's siblings at the primary are its joint
//! ones behind the last return. `HandoffTracks` compares what passes and tallies say. A return may
//! find entries of which no call told, as after a copy that was refused behind some of its keys.
//! Then the partition isn't known any more. By the calls of `HandoffTracks`; law
//! `known_hand_offs_join`.
//!
//! # Tested
//!
//! What is known isn't lost without need (`worker_tests`: `serving/controlled`;
//! `scripts/maintain/try-control`, by the log).
//!
//! # Open
//!
//! No contract says that what is known isn't lost without need.
#![tactic(auto)]

mod calls;
mod compared;
mod laws;
mod track;

pub use calls::{CopiedBack, HandoffTracks};
pub use laws::known_hand_offs_join;
pub use track::{Copies, HandoffTrack, LastReturn};

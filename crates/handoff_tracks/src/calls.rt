//! What is known of all partitions' diversions.

ghost use Rattle.std.specs.Prelude.{◌≡◌, ◌<◌, ◌^◌, length, IfErr, IfOk, OnErr, Some, slice_get};
ghost use Rattle.std.specs.Prelude.{slice_set};
ghost use Rattle.handoff.specs.declared.copying.Copied.{Copied as CopyBack};
ghost use Rattle.handoff.specs.declared.fault.Returned.{Returned as ReturnPasses};
ghost use Rattle.handoff.specs.Copying.{IsCopiedBack, IsCopyFault};
ghost use Rattle.handoff.specs.Partitions.{AreNone, HandoffView, IsDiverted};
ghost use Rattle.handoff.specs.Returning.{HasReturned, IsReturnFault};
ghost use Rattle.handoff_tracks.specs.Tracks.{AreUndiverted, HaveTracks};
ghost use Rattle.handoff_tracks.specs.declared.track.HandoffTrack.TheVariants as tracks_are;

use crate::track::HandoffTrack;
use handoff::{Handoff, HandoffFault, Returned};
use std::alloc::{AllocError, Global};
use std::marker::Model;
use std::mem;
use std::sync::Wait;

/// How many keys a call copied back, and how many weren't copied as they were then.
#[derive(Clone, Copy, Debug, Drop, PartialEq, Eq)]
pub struct CopiedBack {
    pub keys: u32,
    /// 4,294,967,295 where there were more.
    pub left: u32,
}

/// What is known of each partition's diversions, in the order of the partitions.
pub struct HandoffTracks {
    tracks: Vec<HandoffTrack>,
}

/// One call at each place where one is let go.
impl Drop for HandoffTracks {
    fn drop(self) {
        let HandoffTracks { tracks: _tracks } = self;
    }
}

impl Model for HandoffTracks {
    ghost use Rattle.std.specs.Prelude.{List};
    ghost use Rattle.handoff_tracks.specs.declared.track.HandoffTrack.{HandoffTrack};

    ghost Value = { List HandoffTrack };

    ghost view = { λ all. all.tracks.items };
}

/// So many tracks of partitions that weren't diverted. Refused where memory is.
fn undiverted(alloc: Global, size: usize) -> Result<Vec<HandoffTrack>, AllocError>
    ensures tracks { IfOk result (λ tracks. AreUndiverted tracks.items) }
    ensures size { IfOk result (λ tracks. length tracks.items ≡ size) }
{
    let mut tracks = Vec::with_capacity(alloc, size)?;
    for _ in 0..size {
        tracks.push(HandoffTrack::AtPrimary(None))?;
    }
    Ok(tracks)
}

impl HandoffTracks {
    /// Of a hand-off of which no partition was diverted. Refused where memory is.
    pub fn new(alloc: Global, handoff: &Handoff) -> Result<HandoffTracks, AllocError>
        requires { AreNone handoff.now.fallbacks }
        ensures { IfOk result (HaveTracks handoff.now) }
    {
        let gates = handoff.gates();
        let tracks = undiverted(alloc, gates.len())?;
        Ok(HandoffTracks { tracks })
    }

    /// What is known of each partition, in their order.
    pub fn tracks(&self) -> &[HandoffTrack]
        ensures { result.now ≡ self.now }
    {
        self.tracks.as_slice()
    }

    /// What is known of a partition; behind that nothing is.
    fn take(&mut self, index: u16) -> HandoffTrack
        requires { index < length self.old }
        ensures was { slice_get self.old index ≡ Some result }
        ensures rest { self.new ≡ slice_set self.old index tracks_are.Unknown }
    {
        mem::replace(&mut self.tracks[usize::from(index)], HandoffTrack::Unknown)
    }

    /// Keeps what is known of a partition.
    fn keep(&mut self, index: u16, track: HandoffTrack)
        requires { index < length self.old }
        ensures { self.new ≡ slice_set self.old index track }
    {
        self.tracks[usize::from(index)] = track;
    }

    /// Keeps that a partition was diverted, whose index is below the ring's size.
    pub fn begin(&mut self, index: u16)
        requires { index < length self.old }
        ensures { (old new : HandoffView) → HaveTracks old self.old → IsDiverted index old new
            → HaveTracks new self.new }
    {
        let track = self.take(index);
        self.keep(index, track.begun());
    }

    /// [`Handoff::copy_back`] of a partition, whose index is below the ring's size. Where it is refused,
    /// all that is known stays; if keys were copied by then, its return finds entries of which no call
    /// told, and the partition isn't known any more.
    pub fn copy_back<R: Wait>(
        &mut self,
        rt: &R,
        alloc: Global,
        handoff: &Handoff,
        index: u16,
        budget: u32,
    ) -> Result<CopiedBack, HandoffFault>
        requires index { index < 2 ^ handoff.now.index_bits }
        requires tracks { HaveTracks handoff.now self.old }
        ensures ok { IfOk result (λ told. (copied : CopyBack)
            × IsCopiedBack handoff.now index budget copied × (told.keys ≡ copied.keys)
            × (told.left ≡ copied.left)) }
        ensures fault { IfErr result (IsCopyFault handoff.now index) }
        ensures err { OnErr result (self.new ≡ self.old) }
        ensures tracks { HaveTracks handoff.now self.new }
    {
        match handoff.copy_back(rt, alloc, index, budget) {
            Ok(copied) => {
                let told = CopiedBack {
                    keys: copied.keys,
                    left: copied.left,
                };
                let track = self.take(index);
                self.keep(index, track.copied(copied));
                Ok(told)
            }
            Err(fault) => Err(fault),
        }
    }

    /// Keeps that the diversion of a partition has ended, by these passes.
    fn end(&mut self, handoff: &Handoff, index: u16, passes: Returned)
        requires index { index < 2 ^ handoff.now.index_bits }
        requires tracks { HaveTracks handoff.now self.old }
        requires returned { HasReturned handoff.now index passes }
        ensures { HaveTracks handoff.now self.new }
    {
        let track = self.take(index);
        if let Some(fallback) = handoff.fallback(usize::from(index)) {
            self.keep(index, track.ended(fallback, passes));
        }
    }

    /// [`Handoff::finish_return`] of a partition, whose index is below the ring's size. Where it is
    /// refused, all that is known stays.
    pub fn finish_return<R: Wait>(
        &mut self,
        rt: &R,
        alloc: Global,
        handoff: &Handoff,
        index: u16,
    ) -> Result<(), HandoffFault>
        requires index { index < 2 ^ handoff.now.index_bits }
        requires tracks { HaveTracks handoff.now self.old }
        ensures ok { IfOk result (λ _. (passes : ReturnPasses)
            × HasReturned handoff.now index passes) }
        ensures fault { IfErr result (IsReturnFault handoff.now index) }
        ensures err { OnErr result (self.new ≡ self.old) }
        ensures tracks { HaveTracks handoff.now self.new }
    {
        match handoff.finish_return(rt, alloc, index) {
            Ok(passes) => {
                self.end(handoff, index, passes);
                Ok(())
            }
            Err(fault) => Err(fault),
        }
    }
}

//! An operator who is heard by a thread of its own.

ghost use Rattle.gate_node.specs.Gates.{handoff_of};
ghost use Rattle.handoff_tracks.specs.Tracks.{HaveTracks};

use crate::commands::Asked;
use crate::console::Console;
use gate_node::Shared;
use handoff_tracks::HandoffTracks;
use log::Log;
use socket_streams::RunSignals;
use std::alloc::Global;
use std::io::{Read, Write};
use std::rt::Clock;
use std::snapshot::Snapshot;
use std::sync::Wait;
use std::sync::atomic::AtomicBool;
use std::thread::Promise;

/// What the thread gives back that heard an operator.
#[derive(Drop)]
pub(crate) struct Hearing<C> {
    pub(crate) console: Console<C>,
    /// What is known of the partitions' diversions.
    pub(crate) tracks: HandoffTracks,
    /// What the server was paused or stopped for.
    pub(crate) asked: Asked,
}

/// It promises that what is known holds, over these gates.
#[derive(Drop)]
pub(crate) struct KnowsTracks {
    pub(crate) shared: Snapshot<Shared>,
}

impl<C: Read + Write> Promise<Hearing<C>> for KnowsTracks {
    ghost use Rattle.gate_node.specs.Gates.{handoff_of};
    ghost use Rattle.handoff_tracks.specs.Tracks.{HaveTracks};

    ghost kept_by = { λ promise hearing.
        HaveTracks (handoff_of promise.shared.value) hearing.tracks };
}

/// Hears an operator until the workers are to be paused or stopped, or serving has ended.
pub(crate) fn hear<X, C>(
    rt: &X,
    alloc: Global,
    shared: &Shared,
    console: Console<C>,
    tracks: HandoffTracks,
    stop: &RunSignals,
    has_ended: &AtomicBool,
) -> Hearing<C>
where
    X: Clock + Log + Wait,
    C: Read + Write,
    requires { HaveTracks (handoff_of shared.now) tracks }
    ensures { HaveTracks (handoff_of shared.now) result.tracks }
{
    let mut console = console;
    let mut tracks = tracks;
    let asked = console.hear(rt, alloc, shared, stop, has_ended, &mut tracks);
    Hearing {
        console,
        tracks,
        asked,
    }
}

//! Serving while an operator says what is to be done.

ghost use Rattle.std.specs.Prelude.{◌≡◌, ◌≤◌, ◌∷◌, [], true, IfOk};
ghost use Rattle.gate_node.specs.Gates.{handoff_of};
ghost use Rattle.gate_node.specs.OneHistory.{ShareHistories};
ghost use Rattle.gate_node.specs.Passes.{ArePassesOf, Sights};
ghost use Rattle.node_commands.specs.Console.{AnswersDivert};
ghost use Rattle.node_commands.specs.Lines.{EndsWithLine, totals_line};
ghost use Rattle.node_commands.specs.Periods.{CanServe, IsControlled, NoneRests};
ghost use Rattle.handoff_tracks.specs.Tracks.{HaveTracks};
ghost use Rattle.node_commands.specs.declared.console.Told.TheVariants as tolds;

use crate::commands::{Asked, has_partition, refusal_of};
use crate::console::{Console, Told};
use crate::fault::ServeFault;
use crate::gates::new_shared;
use crate::hearing::Hearing;
use crate::lines::tell_totals;
use crate::options::ServerSettings;
use crate::period::{Period, serve_on};
use crate::progress::Paused;
use control_text::{OperatorAnswer, OperatorRefusal};
use gate_node::{RunTallies, tallies_of};
use handoff_tracks::{HandoffTrack, HandoffTracks};
use log::{Log, info, warn};
use stats_book::Totals;
use std::alloc::Global;
use std::io::{Read, Write};
use std::net::{Net, TcpListener};
use std::rt::Clock;
use std::slice;
use std::sync::Wait;
use std::thread::Threads;

/// What came of a server with a console.
#[derive(Drop)]
pub struct Controlled {
    /// What all sessions counted.
    pub totals: Totals,
    /// The tally of each vnode that is a primary, of all that the sessions saw of it, in the order of the partitions.
    pub tallies: RunTallies,
    /// How many connections were accepted.
    pub connections: u64,
    /// How many of them were closed before they came to a worker, for want of memory.
    pub closed: u64,
    /// What is known of each partition's diversions, in the order of the partitions.
    pub tracks: HandoffTracks,
    /// Whether the line of the totals was written.
    pub wrote_totals: bool,
}

/// Whether serving ends that was paused or stopped for this.
fn is_end(asked: Asked) -> bool {
    match asked {
        Asked::Nothing | Asked::Stop => true,
        Asked::Totals | Asked::Divert(_) => false,
    }
}

/// A paused server with this partition diverted, where it has it and that can be done, and what is answered. Where that says why not, it is unchanged.
fn divert(
    alloc: Global,
    paused: Paused,
    settings: &ServerSettings,
    tracks: &mut HandoffTracks,
    partition: u16,
) -> (Paused, OperatorAnswer)
    requires serves { CanServe settings.now paused }
    requires tracks { HaveTracks (handoff_of paused.shared) tracks.old }
    ensures serves { CanServe settings.now result.0 }
    ensures answers { AnswersDivert paused partition result.0 result.1 }
    ensures tracks { HaveTracks (handoff_of result.0.shared) tracks.new }
{
    if !has_partition(&paused.shared, partition) {
        return (
            paused,
            OperatorAnswer::Refused(OperatorRefusal::NoPartition(partition)),
        );
    }
    let (paused, diverted) = paused.divert(alloc, partition, settings.options.sweep);
    match diverted {
        Ok(()) => {
            tracks.begin(partition);
            (paused, OperatorAnswer::Diverted(partition))
        }
        Err(fault) => (
            paused,
            OperatorAnswer::Refused(refusal_of(partition, &fault)),
        ),
    }
}

/// Tells the log how many diversions have returned of which all calls are known, and of how many partitions not all are, where there are such.
fn tell_tracks<R: Log>(rt: &R, tracks: &[HandoffTrack]) {
    let mut returned: u64 = 0;
    let mut unknown: u64 = 0;
    for track in tracks {
        match track.returned() {
            Some(number) => returned = returned.saturating_add(number),
            None => unknown = unknown.saturating_add(1),
        }
    }
    if returned > 0 {
        info!(rt; "{returned} diversions returned");
    }
    if unknown > 0 {
        warn!(rt; "of {unknown} partitions not all copies are known: one was refused behind some keys");
    }
}

/// What the operator is told of the totals of a paused server.
fn totals_of(paused: &Paused) -> Told
    ensures { result ≡ tolds.Totals paused.now.progress.totals paused.now.progress.connections }
{
    Told::Totals(paused.progress.totals, paused.progress.connections)
}

/// Does what a server was paused for, and keeps what the operator is told of that.
fn heed<C: Read + Write>(
    alloc: Global,
    paused: Paused,
    settings: &ServerSettings,
    hearing: &mut Hearing<C>,
) -> Paused
    requires serves { CanServe settings.now paused }
    requires tracks { HaveTracks (handoff_of paused.shared) hearing.old.tracks }
    ensures serves { CanServe settings.now result }
    ensures tracks { HaveTracks (handoff_of result.shared) hearing.new.tracks }
{
    match hearing.asked {
        Asked::Divert(partition) => {
            let (paused, answer) = divert(alloc, paused, settings, &mut hearing.tracks, partition);
            hearing.console.keep(Told::Answer(answer));
            paused
        }
        Asked::Totals => {
            hearing.console.keep(totals_of(&paused));
            paused
        }
        Asked::Nothing | Asked::Stop => paused,
    }
}

/// Serves, one period behind another, until it is stopped or has ended by itself, and no session rests.
fn serve_periods<T, C, W>(
    rt: &T,
    alloc: Global,
    listener: &TcpListener,
    paused: Paused,
    settings: &ServerSettings,
    console: Console<C>,
    tracks: HandoffTracks,
    writer: &mut W,
) -> Result<(Paused, HandoffTracks), ServeFault>
where
    T: Log + Clock + Net + Threads + Wait + Sync,
    C: Read + Write + Send + Drop,
    W: Write,
    requires workers { (1 ≤ settings.now.options.workers) × (settings.now.options.workers ≤ 64) }
    requires begins { CanServe settings.now paused }
    requires tracks { HaveTracks (handoff_of paused.shared) tracks }
    ensures serves { IfOk result (λ left. CanServe settings.now left.0) }
    ensures none_rests { IfOk result (λ left. NoneRests left.0.progress) }
    ensures tracks { IfOk result (λ left. HaveTracks (handoff_of left.0.shared) left.1) }
{
    let mut paused = paused;
    let mut console = console;
    let mut tracks = tracks;
    let mut announcing = Some(writer);
    for _ in rt.forever() {
        let Period {
            paused: left,
            mut hearing,
        } = serve_on(
            rt,
            alloc,
            listener,
            paused,
            settings,
            console,
            tracks,
            announcing.take(),
        )?;
        // none rests behind a period that was stopped or ended by itself; should one, it goes on, and isn't let go
        let is_over = is_end(hearing.asked) && left.progress.rests_none();
        if is_over {
            hearing.console.log_diverted(rt);
            return Ok((left, hearing.tracks));
        }
        paused = heed(alloc, left, settings, &mut hearing);
        console = hearing.console;
        tracks = hearing.tracks;
    }
    unreachable!()
}

/// The tallies of a server's vnodes.
fn tallies<X: Wait>(rt: &X, alloc: Global, paused: &Paused) -> Result<RunTallies, ServeFault>
    requires { ArePassesOf paused.now.shared paused.now.progress.seen }
    ensures { IfOk result (λ found. ShareHistories (λ (s : Sights). s) paused.now.shared.gates
        (paused.now.progress.seen ∷ []) found.tallies.items found.count_all) }
{
    let callers = slice::from_ref(&paused.progress.seen);
    match tallies_of(rt, alloc, &paused.shared, callers) {
        Ok(tallies) => Ok(tallies),
        Err(_) => Err(ServeFault::NoMemory),
    }
}

/// What came of a server, with the tallies of its vnodes.
fn conclude<X: Wait>(
    rt: &X,
    alloc: Global,
    paused: &Paused,
    settings: &ServerSettings,
    tracks: HandoffTracks,
    wrote_totals: bool,
) -> Result<Controlled, ServeFault>
    requires serves { CanServe settings.now paused.now }
    requires none_rests { NoneRests paused.now.progress }
    requires tracks { HaveTracks (handoff_of paused.now.shared) tracks }
    ensures controlled { IfOk result (IsControlled settings.now) }
    ensures told { IfOk result (λ outcome. (outcome.totals ≡ paused.now.progress.totals)
        × (outcome.wrote_totals ≡ wrote_totals)) }
{
    // what is asked and what is said name the settings
    let _settings = settings;
    match tallies(rt, alloc, paused) {
        Ok(tallies) => Ok(Controlled {
            totals: paused.progress.totals,
            tallies,
            connections: paused.progress.connections,
            closed: paused.progress.closed,
            tracks,
            wrote_totals,
        }),
        Err(fault) => Err(fault),
    }
}

/// Tells what came of a server, the totals in a line of their own.
fn told<T: Log + Wait, W: Write>(
    rt: &T,
    alloc: Global,
    paused: &Paused,
    settings: &ServerSettings,
    tracks: HandoffTracks,
    writer: &mut W,
) -> Result<Controlled, ServeFault>
    requires serves { CanServe settings.now paused.now }
    requires none_rests { NoneRests paused.now.progress }
    requires tracks { HaveTracks (handoff_of paused.now.shared) tracks }
    ensures controlled { IfOk result (IsControlled settings.now) }
    ensures line { IfOk result (λ outcome. outcome.wrote_totals ≡ true
        → EndsWithLine W.contents writer.new (totals_line outcome.totals)) }
{
    tell_tracks(rt, tracks.tracks());
    let wrote_totals = tell_totals(rt, paused.progress.totals, writer);
    conclude(rt, alloc, paused, settings, tracks, wrote_totals)
}

/// Serves the connections of a listener as [`serve_on_until`](crate::serve_on_until) does, over the gates of a new run, while an operator says line by line
/// what is to be done (`control_text` has the commands and the answers).
///
/// It writes `listening ADDRESS` once all threads were started, before the first connection is accepted, and the totals at the end. Over the operator's channel it reads lines, and writes one
/// for each:
///
/// - `help`: the commands, each with what it does, in several lines.
/// - `stats`: what was done by now, in numbers that are read without a pause and take no memory.
/// - `diverted`: which partitions are diverted now, and for how long.
/// - `totals`: what all sessions have counted, and how many connections were accepted, at one moment. For that the workers are paused. And how many keys,
///   siblings, dead keys and bytes of values are stored, counted behind the pause, while calls go on, each partition at a moment of its own, by a count that
///   needs no memory; and how many puts were refused for want of memory, as `stats` tells it then.
/// - `divert P`: the calls of partition P are for a fallback from then on. For that the workers are paused. Refused where there is no such partition, where it
///   is diverted, and where memory is refused.
/// - `copy P B`: at most B keys of its fallback are copied back to its primary, while calls go on.
/// - `return P`: its calls are for the primary again, where all keys are copied as they are then, while calls go on.
/// - `stop`, or the end of the channel's input: all connections are ended, and then the call returns.
///
/// A line that asks for none of these, or is longer than 64 bytes, is refused, with what is wrong with it. One without its line feed isn't obeyed. A line that can't be written is passed over,
/// and one that nobody reads holds up the operator alone. It returns too once as many connections were accepted as are to be and all of them have ended.
///
/// A read of the channel that fails with `ConnectionReset` means that who wrote has gone, and another operator may come over the same channel: what has come of a
/// line is dropped, and the channel is read on. It fails so once for each who goes. One that fails with `WouldBlock` is made again 10 ms later, and one that is
/// interrupted at once; any other error is as the end of the input.
///
/// Where the workers are paused each lays its sessions down, between two of their steps: no connection is closed, nothing that came over it is lost, nor anything
/// that is to be sent. Then they go on. Sockets that are kept open for late bytes alone, behind a refused frame, are closed then, and the time for which
/// connections have been silent is counted anew.
///
/// So that the workers can be started again where they had filled all memory, a MiB is kept back between pauses, by the accepting thread; while less than half
/// of it can be had, `totals` and `divert` are refused with `no memory`. Where they can't be started for want of a thread or a descriptor, serving ends with that
/// fault.
pub fn serve_controlled<T, C, W>(
    rt: &T,
    alloc: Global,
    listener: TcpListener,
    settings: &ServerSettings,
    operator: C,
    writer: &mut W,
) -> Result<Controlled, ServeFault>
where
    T: Log + Clock + Net + Threads + Wait + Sync,
    C: Read + Write + Send + Drop,
    W: Write,

    // From a new run on the workers served or a partition was diverted, one behind another. In each period every session that rested went on, and each
    // connection that came had one begun; each of these ended, and its sink was told so, or rests, or was refused, once. What it wrote is what a session
    // writes from its first read on, by a node over the gates as they were at each step. No more connections were accepted than were to be. In the end no
    // session rests: each connection that was accepted has ended, was refused or was closed, and each once. There is one
    // history of each primary's vnode through all periods, of which every session that is over has seen a beginning, with its tally. Where no partition was
    // ever diverted, and the tallies count all, these histories are legal for the sibling register, and each of these sessions is by steps of the register
    // among others, in them. What is known of a
    // partition's diversions is what each call of its hand-offs gave, one behind another: where all is known, no sibling was lost by them and none came
    // again (`known_hand_offs_join`).
    ensures controlled { IfOk result (IsControlled settings.now) }

    // Where the totals were written, theirs is the last line.
    ensures line { IfOk result (λ outcome. outcome.wrote_totals ≡ true
        → EndsWithLine W.contents writer.new (totals_line outcome.totals)) }
{
    let Some(shared) = new_shared(
        alloc,
        settings.ring,
        settings.options.run,
        settings.options.sweep,
    ) else {
        return Err(ServeFault::NoMemory);
    };
    let Some(paused) = Paused::new(alloc, shared) else {
        return Err(ServeFault::NoMemory);
    };
    let Ok(tracks) = HandoffTracks::new(alloc, paused.shared.handoff()) else {
        return Err(ServeFault::NoMemory);
    };
    let Some(console) = Console::new(rt, alloc, operator, settings) else {
        return Err(ServeFault::NoMemory);
    };
    let (paused, tracks) = serve_periods(
        rt,
        alloc,
        &listener,
        paused,
        settings,
        console,
        tracks,
        &mut *writer,
    )?;
    told(rt, alloc, &paused, settings, tracks, writer)
}

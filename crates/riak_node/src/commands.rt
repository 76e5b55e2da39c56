//! What the options ask for: the ring, the address, and the commands over any reader and writer.

ghost use Rattle.std.specs.Prelude.{◌≡◌, ◌⊎◌, ◌^◌, Some, None, IfOk, IfErr};
ghost use Rattle.ring_map.specs.Ring.{IsRingSize};
ghost use Rattle.std.specs.Io.KnownBytes.{IsAtEnd};
ghost use Rattle.node_session.specs.Session.{Given};
ghost use Rattle.node_session.specs.Pipes.{PipeEnds, PipeStops, IsNotBegun};
ghost use Rattle.node_session.specs.Streams.{source_of};
ghost use Rattle.schedule_player.specs.Played.{Played, start_on};

use crate::conclusion::Conclusion;
use crate::subcommand::{PipeOptions, ServeOptions, StepsOptions};
use node_commands::pipe;
use node_session::{Ended, SessionFault};
use ring_map::Ring;
use schedule_player::{StepsFault, steps_on};
use std::alloc::Global;
use std::io::{Read, Write};
use std::net::IpAddr;

/// The ring of so many partitions; where there is none, how the command ends.
pub(crate) fn ring_of(size: u16) -> Result<Ring, Conclusion>
    ensures ring { IfOk result (λ ring. 2 ^ ring ≡ size) }
    ensures none { IfErr result (λ end. (end ≡ Conclusion.NoRing) × (IsRingSize size → ⊥)) }
{
    match Ring::new(size) {
        Some(ring) => Ok(ring),
        None => Err(Conclusion::NoRing),
    }
}

/// The address that is listened on; where what was given is none, how the command ends.
fn address_of(address: Option<IpAddr>) -> Result<IpAddr, Conclusion>
    ensures address { IfOk result (λ given. address ≡ Some given) }
    ensures none { IfErr result (λ end. (end ≡ Conclusion.NoAddress) × (address ≡ None)) }
{
    match address {
        Some(address) => Ok(address),
        None => Err(Conclusion::NoAddress),
    }
}

/// The ring and the address that `serve` is asked for; where one of them is none, how it ends, the ring first.
pub(crate) fn place_of(options: ServeOptions) -> Result<(Ring, IpAddr), Conclusion>
    ensures found { IfOk result (λ place.
        (2 ^ place.0 ≡ options.ring) × (options.address ≡ Some place.1)) }
    ensures none { IfErr result (λ end.
        ((end ≡ Conclusion.NoRing) × (IsRingSize options.ring → ⊥))
        ⊎ ((end ≡ Conclusion.NoAddress) × (options.address ≡ None))) }
{
    let ring = match ring_of(options.ring) {
        Ok(ring) => ring,
        Err(end) => return Err(end),
    };
    match address_of(options.address) {
        Ok(address) => Ok((ring, address)),
        Err(end) => Err(end),
    }
}

/// Serves a reader to a writer by a new node on this ring, of the run and with the sweeps that are asked for.
pub(crate) fn pipe_as_asked<R: Read, W: Write>(
    alloc: Global,
    ring: Ring,
    options: PipeOptions,
    reader: &mut R,
    writer: &mut W,
) -> Result<Ended, SessionFault>
    // As `pipe` says, of this run and this budget.
    ensures ended { IfOk result (λ e.
        Given (source_of (R.remaining reader.old)) (source_of (R.remaining reader.new)) (2 ^ 32)
        (PipeEnds options.run ring options.sweep
        (W.contents writer.old) (W.contents writer.new) e)) }
    ensures all { IfOk result (λ _. IsAtEnd (R.remaining reader.new)) }
    ensures stopped { IfErr result (λ fault.
        IsNotBegun (R.remaining reader.old) (R.remaining reader.new)
        (W.contents writer.old) (W.contents writer.new) fault
        ⊎ Given (source_of (R.remaining reader.old)) (source_of (R.remaining reader.new)) (2 ^ 32)
        (PipeStops options.run ring options.sweep
        (W.contents writer.old) (W.contents writer.new) (2 ^ 32) fault)) }
{
    let PipeOptions { run, sweep, .. } = options;
    pipe(alloc, ring, run, sweep, reader, writer)
}

/// Plays a schedule from a reader to a writer by as many workers as are asked for, over the vnodes of this ring in this run.
pub(crate) fn steps_as_asked<R: Read, W: Write>(
    alloc: Global,
    ring: Ring,
    options: StepsOptions,
    reader: &mut R,
    writer: &mut W,
) -> Result<(), StepsFault>
    // As `steps_on` says, of these workers and this run.
    ensures played { Played (start_on options.run options.workers ring) ring
        (R.remaining reader.old) (R.remaining reader.new)
        (W.contents writer.old) (W.contents writer.new) result }
    ensures all { IfOk result (λ _. IsAtEnd (R.remaining reader.new)) }
{
    let StepsOptions { workers, run, .. } = options;
    steps_on(alloc, reader, writer, workers, ring, run)
}

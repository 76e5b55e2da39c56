//! A run that has answered nothing.

ghost use Rattle.std.specs.Prelude.{◌≡◌, IfErr, IfOk};
ghost use Rattle.schedule_player.specs.declared.fault.StepsFault.TheVariants.{NoMemory};
ghost use Rattle.schedule_player.specs.Played.{start_on};
ghost use Rattle.schedule_player.specs.Progress.{IsOpening};

use crate::fault::StepsFault;
use crate::player::Player;
use crate::referee::Referee;
use node_steps::World;
use ring_map::Ring;
use std::alloc::Global;

/// A run of so many workers, which have no call, over the vnodes of a ring, before any event.
pub(crate) fn new_player(
    alloc: Global,
    workers: u16,
    ring: Ring,
    run: u32,
) -> Result<Player, StepsFault>
    ensures ok { IfOk result (IsOpening (start_on run workers ring) ring) }
    ensures err { IfErr result (λ fault. fault ≡ NoMemory) }
{
    let referee = Referee::new(alloc, workers)?;
    match World::new(alloc, workers, ring.size(), run) {
        Ok(world) => Ok(Player {
            world,
            referee,
            workers,
            ring,
            lines: 0,
        }),
        Err(_) => Err(StepsFault::NoMemory),
    }
}

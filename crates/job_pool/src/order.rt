//! How the ends of all workers are put in the order of the jobs.
ghost use Rattle.std.specs.Prelude.{◌≡◌, List, Some, None, length, map, IfOk};
ghost use Rattle.job_pool.specs.Ends.{AreInOrder, placed, told_by};
ghost use Rattle.job_pool.specs.Lists.{Every};
ghost use Rattle.job_pool.specs.Sinks.{kept};
ghost use Rattle.job_pool.specs.Telling.{ToldOnce};
ghost use Rattle.job_pool.specs.Turns.{ServedOnce};

use crate::service::Service;
use crate::sink::Collected;
use crate::worker::NumberedEnd;
use crate::workers_left::WorkersLeft;
use std::alloc::{AllocError, Global};

/// What a run leaves each of whose jobs was served.
#[derive(Drop)]
pub struct Finished<E, W> {
    /// One end for each job, in the order in which the jobs were given.
    pub ends: Vec<E>,
    /// The states of the workers, in the order in which their setups were handed in.
    pub workers: Vec<W>,
}

/// So many empty places.
fn empty_places<E: Drop>(alloc: Global, count: usize) -> Result<Vec<Option<E>>, AllocError>
    ensures len { IfOk result (λ places. length places.items ≡ count) }
    ensures empty { IfOk result (λ places. Every (λ place. place ≡ None) places.items) }
{
    let mut places = Vec::new(alloc);
    for _ in 0..count {
        places.push(None)?;
    }
    Ok(places)
}

/// Lays each end into the place of its number, where there is such a place.
fn place_ends<E: Drop>(places: &mut Vec<Option<E>>, ends: Vec<NumberedEnd<E>>)
    ensures { places.new.items ≡ placed places.old.items ends.items }
{
    for one in ends {
        let number = one.number;
        if number < places.len() {
            places[number] = Some(one.end);
        }
    }
}

/// Lays each end that was kept into the place of its number.
fn place_all<E: Drop>(places: &mut Vec<Option<E>>, sinks: Vec<Collected<E>>)
    ensures { places.new.items
        ≡ placed places.old.items (told_by kept sinks.items) }
{
    for sink in sinks {
        let Collected { ends } = sink;
        place_ends(places, ends);
    }
}

/// The ends, where each place has one.
fn each_end<E: Drop>(alloc: Global, places: Vec<Option<E>>) -> Result<Vec<E>, AllocError>
    ensures { IfOk result (λ ends. map (λ end. Some end) ends.items ≡ places.items) }
{
    let mut ends = Vec::new(alloc);
    for place in places {
        let Some(end) = place else {
            return Err(AllocError);
        };
        ends.push(end)?;
    }
    Ok(ends)
}

/// The ends that were kept, in the order of their numbers, where there are so many.
fn in_order<E: Drop>(
    alloc: Global,
    sinks: Vec<Collected<E>>,
    count: usize,
) -> Result<Vec<E>, AllocError>
    ensures { IfOk result (λ ends.
        AreInOrder count (told_by kept sinks.items) ends.items) }
{
    let mut places = empty_places(alloc, count)?;
    place_all(&mut places, sinks);
    each_end(alloc, places)
}

/// One end for each job of a run by this service whose sinks kept all ends ([`collecting_setups`](crate::collecting_setups)), in the order in
/// which the jobs were given.
///
/// Where what the workers left is what [`run_at`](crate::run_at) says of a run over some jobs, each of these was served in one turn of a worker, to
/// its end, and the turns of one worker lead from its first state to its last. It needs a place for each end, twice. Refused where there is no
/// memory for these, and where a worker refused a job for want of memory. The ends and the states are let go then.
pub fn ends_in_order<S: Service>(
    alloc: Global,
    service: &S,
    left: WorkersLeft<S::Worker, Collected<S::End>>,
) -> Result<Finished<S::End, S::Worker>, AllocError>
    ensures { IfOk result (λ done. (jobs : List S.Job) (firsts : List S.Worker)
        → ToldOnce (S.serves service.now) kept jobs firsts
        left.workers.items left.sinks.items left.given left.refused
        → ServedOnce (S.serves service.now) jobs firsts done.ends.items done.workers.items) }
{
    let WorkersLeft {
        workers,
        sinks,
        given,
        refused: _,
    } = left;
    let ends = in_order(alloc, sinks, given)?;
    Ok(Finished { ends, workers })
}

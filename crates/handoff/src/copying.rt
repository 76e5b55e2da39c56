//! Copying the keys of a fallback back to its primary.
ghost use Rattle.std.specs.Prelude.{◌≡◌, ◌+◌, ◌<◌, ◌≤◌, ◌^◌, IfOk, IfErr, OnOk, IfNone, IfSome, []};
ghost use Rattle.std.specs.Prelude.{length};
ghost use Rattle.handoff.specs.Copying.{AreCopies, CopiesBack, CountsLeft, RiseBetween, WereTried};
ghost use Rattle.handoff.specs.Endings.{IsCopyStop};
ghost use Rattle.handoff.specs.Sights.{IsOfVnode};
ghost use Rattle.handoff.specs.Steps.{IsStopOf};

use crate::copy_step::{Step, copy_next};
use crate::counting::look_left;
use crate::fault::{HandoffFault, Stop, fault_of};
use crate::gates::Fallback;
use riak_msgs::Key;
use rw_gate::{Gate, Pass};
use std::alloc::Global;
use std::sync::Wait;
use vnode_core::Vnode;

/// What a copy back did.
#[derive(Drop)]
pub struct Copied {
    /// How many keys it copied.
    pub keys: u32,
    /// How many keys it tried that stayed as they were: they would have had more than 64 siblings, or 64 actors.
    pub stuck: u32,
    /// How many keys weren't copied as they were then, at a last look at both; 4,294,967,295 where there were more.
    pub left: u32,
    /// How many entries of the primary's history its pass had seen before the first copy.
    pub began: u64,
    /// The pass by which it looked and published at the primary, made for this call.
    pub primary: Pass<Vnode>,
    /// The pass by which it looked at the fallback, made for this call.
    pub fallback: Pass<Vnode>,
}

/// A partition that is diverted: the gate of its primary, and its fallback.
#[derive(Clone, Copy)]
pub(crate) struct Diverted<'a> {
    pub(crate) primary: &'a Gate<Vnode>,
    pub(crate) fallback: &'a Fallback,
}

/// How many keys were copied and how many were tried by now, and the last that was looked at.
#[derive(Drop)]
struct Tried {
    keys: u32,
    tried: u32,
    last: Key,
}

/// How many keys were copied, how many were tried, and how many are left; and how many entries of the
/// primary had been seen before.
#[derive(Clone, Copy, Drop)]
struct Counts {
    keys: u32,
    tried: u32,
    left: u32,
    began: u64,
}

/// Copies the first `budget` keys that aren't copied as they are now, in their order, and counts what is left then.
pub(crate) fn copy_keys<R: Wait>(
    rt: &R,
    alloc: Global,
    partition: &Diverted<'_>,
    budget: u32,
) -> Result<Copied, HandoffFault>
    requires { IsOfVnode partition.now.fallback.now.gate }
    ensures ok { IfOk result (CopiesBack partition.now.primary.now partition.now.fallback.now
        budget) }
    ensures fault { IfErr result (IsCopyStop partition.now.fallback.now) }
{
    let mut mine = partition.primary.pass();
    let mut theirs = partition.fallback.gate.pass();
    match copy_and_count(rt, alloc, partition, budget, &mut mine, &mut theirs) {
        Ok(counts) => Ok(Copied {
            keys: counts.keys,
            stuck: counts.tried - counts.keys,
            left: counts.left,
            began: counts.began,
            primary: mine,
            fallback: theirs,
        }),
        Err(stop) => Err(fault_of(stop, theirs)),
    }
}

/// The same by these passes; how many keys were copied, how many it tried, and how many are left.
fn copy_and_count<R: Wait>(
    rt: &R,
    alloc: Global,
    partition: &Diverted<'_>,
    budget: u32,
    mine: &mut Pass<Vnode>,
    theirs: &mut Pass<Vnode>,
) -> Result<Counts, Stop>
    requires mine { mine.old.gate ≡ partition.now.primary.now }
    requires theirs { theirs.old.gate ≡ partition.now.fallback.now.gate }
    requires vnode { IsOfVnode partition.now.fallback.now.gate }
    requires new { mine.old.own ≡ [] }
    requires new_there { theirs.old.own ≡ [] }
    ensures mine { mine.new.gate ≡ partition.now.primary.now }
    ensures theirs { theirs.new.gate ≡ partition.now.fallback.now.gate }
    ensures copies { IfOk result (λ counts. AreCopies partition.now.fallback.now.diversion
        mine.new theirs.new mine.new.own) }
    ensures keys { IfOk result (λ counts. counts.keys ≡ length mine.new.own) }
    ensures tried { IfOk result (λ counts. WereTried partition.now.fallback.now.diversion
        mine.new theirs.new counts.keys counts.tried) }
    ensures budget { IfOk result (λ counts. counts.tried ≤ budget) }
    ensures none { IfOk result (λ counts. theirs.new.own ≡ []) }
    ensures left { IfOk result (λ counts. CountsLeft mine.new theirs.new counts.left) }
    ensures rise { IfOk result (λ counts.
        RiseBetween counts.began mine.new.own (length mine.new.prefix)) }
    ensures stop { IfErr result (IsStopOf theirs.new) }
{
    let began = look_first(rt, partition.primary, mine);
    let (keys, tried) = copy_some(rt, alloc, partition, budget, began, mine, theirs)?;
    let left = look_left(rt, alloc, partition, mine, theirs)?;
    Ok(Counts {
        keys,
        tried,
        left,
        began,
    })
}

/// How many entries of a primary a pass has seen after a look.
fn look_first<R: Wait>(rt: &R, primary: &Gate<Vnode>, mine: &mut Pass<Vnode>) -> u64
    requires { mine.old.gate ≡ primary.now }
    ensures gate { mine.new.gate ≡ primary.now }
    ensures own { mine.new.own ≡ mine.old.own }
    ensures seen { result ≡ length mine.new.prefix }
{
    let right = primary.read(rt);
    // where the history has gone on past the state, that is seen all the same
    let _is_moved = right.look(mine).is_err();
    right.release();
    mine.seen()
}

/// Copies at most `budget` keys; how many were copied, and how many it tried.
fn copy_some<R: Wait>(
    rt: &R,
    alloc: Global,
    partition: &Diverted<'_>,
    budget: u32,
    began: u64,
    mine: &mut Pass<Vnode>,
    theirs: &mut Pass<Vnode>,
) -> Result<(u32, u32), Stop>
    requires mine { mine.old.gate ≡ partition.now.primary.now }
    requires theirs { theirs.old.gate ≡ partition.now.fallback.now.gate }
    requires vnode { IsOfVnode partition.now.fallback.now.gate }
    requires new { mine.old.own ≡ [] }
    requires new_there { theirs.old.own ≡ [] }
    requires rise { RiseBetween began mine.old.own (length mine.old.prefix) }
    ensures mine { mine.new.gate ≡ partition.now.primary.now }
    ensures theirs { theirs.new.gate ≡ partition.now.fallback.now.gate }
    ensures rise { IfOk result (λ made. RiseBetween began mine.new.own (length mine.new.prefix)) }
    ensures copies { IfOk result (λ made. AreCopies partition.now.fallback.now.diversion
        mine.new theirs.new mine.new.own) }
    ensures keys { IfOk result (λ made. made.0 ≡ length mine.new.own) }
    ensures tried { IfOk result (λ made. WereTried partition.now.fallback.now.diversion
        mine.new theirs.new made.0 made.1) }
    ensures budget { IfOk result (λ made. made.1 ≤ budget) }
    ensures none { IfOk result (λ made. theirs.new.own ≡ []) }
    ensures stop { IfErr result (IsStopOf theirs.new) }
{
    let mut keys: u32 = 0;
    let mut tried: u32 = 0;
    let mut last: Option<Key> = None;
    for _ in 0..u64::MAX {
        if tried >= budget {
            return Ok((keys, tried));
        }
        let next = copy_counted(
            rt,
            alloc,
            partition,
            keys,
            tried,
            began,
            mine,
            theirs,
            last.as_ref(),
        )?;
        match next {
            None => return Ok((keys, tried)),
            Some(one) => {
                keys = one.keys;
                tried = one.tried;
                last = Some(one.last);
            }
        }
    }
    Ok((keys, tried))
}

/// Goes on behind a key, until one more is copied or stuck, or at most a stretch of keys; none where no
/// further one is left. So many were copied and so many tried before.
fn copy_counted<R: Wait>(
    rt: &R,
    alloc: Global,
    partition: &Diverted<'_>,
    keys: u32,
    tried: u32,
    began: u64,
    mine: &mut Pass<Vnode>,
    theirs: &mut Pass<Vnode>,
    after: Option<&Key>,
) -> Result<Option<Tried>, Stop>
    requires mine { mine.old.gate ≡ partition.now.primary.now }
    requires theirs { theirs.old.gate ≡ partition.now.fallback.now.gate }
    requires vnode { IsOfVnode partition.now.fallback.now.gate }
    requires keys { keys ≡ length mine.old.own }
    requires tried { WereTried partition.now.fallback.now.diversion
        mine.old theirs.old keys tried }
    requires room { tried + 1 < 2 ^ 32 }
    requires copies { AreCopies partition.now.fallback.now.diversion
        mine.old theirs.old mine.old.own }
    requires rise { RiseBetween began mine.old.own (length mine.old.prefix) }
    ensures rise { OnOk result (RiseBetween began mine.new.own (length mine.new.prefix)) }
    ensures mine { mine.new.gate ≡ partition.now.primary.now }
    ensures theirs { theirs.new.gate ≡ partition.now.fallback.now.gate }
    ensures own_there { theirs.new.own ≡ theirs.old.own }
    ensures copies { OnOk result (AreCopies partition.now.fallback.now.diversion
        mine.new theirs.new mine.new.own) }
    ensures end { IfOk result (λ next. IfNone next (keys ≡ length mine.new.own)) }
    ensures tried { IfOk result (λ next. IfNone next
        (WereTried partition.now.fallback.now.diversion mine.new theirs.new keys tried)) }
    ensures more { IfOk result (λ next. IfSome next (λ one.
        (one.keys ≡ length mine.new.own) × (one.tried ≤ tried + 1) × WereTried
        partition.now.fallback.now.diversion mine.new theirs.new one.keys one.tried)) }
    ensures stop { IfErr result (IsStopOf theirs.new) }
{
    let _began = began;
    let step = copy_next(rt, alloc, partition, mine, theirs, after)?;
    match step {
        Step::End => Ok(None),
        Step::Passed(last) => Ok(Some(Tried { keys, tried, last })),
        Step::Made(last) => Ok(Some(Tried {
            keys: keys + 1,
            tried: tried + 1,
            last,
        })),
        Step::Stuck(last) => Ok(Some(Tried {
            keys,
            tried: tried + 1,
            last,
        })),
    }
}

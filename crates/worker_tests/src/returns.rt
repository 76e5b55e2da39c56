//! Turns of a partition that is diverted, copied back and returned, between sessions over the gates, and what they come to.
ghost use Rattle.std.specs.Prelude.{◌<◌, ◌^◌, IfSome};
ghost use Rattle.gate_node.specs.Passes.{ArePassesOf};

mod counts;
mod deletes;
pub mod forty;
mod long;
mod rows;
mod tallies;

use crate::diversions::{divert, has_partition};
use crate::exchanges::new_shared;
use crate::playing::{Session, play, play_on};
use crate::returns::counts::are_stored;
use crate::returns::long::{Numbers, gets, puts};
pub use crate::returns::rows::{PUTS_F_AND_G, PUTS_P};
pub use crate::returns::tallies::gate_tally;
use crate::returns::tallies::{Accepted, Side, has_accepted, reaps};
use gate_node::{Open, Passes, Shared};
use handoff::{Copied, Handoff, HandoffFault};
use key_counts::KeyCounts;
use std::alloc::Global;
use std::sync::Wait;

/// What happens next, and what it comes to.
#[derive(Clone, Copy)]
pub enum Turn {
    Serve(&'static Session),
    /// The partition is diverted, and can't be diverted again.
    Divert,
    Call(Call),
}

/// A call for the partition, or a look at it.
#[derive(Clone, Copy)]
pub enum Call {
    Copy(Copies),
    Finish(Finish),
    /// The partition at this index, which has no fallback, is neither copied back nor returned.
    NoneAt(u16),
    /// This is what its vnodes have accepted.
    Has(Accepted),
    /// One of its vnodes forgets its first dead key, asked by a pass of its own.
    Reap(Side),
    /// Its primary is marked, as by a writer that gave up.
    Mark,
    /// So many sessions, each by passes of its own.
    Serves(u32, &'static Session),
    /// This is the number of its last diversion.
    Number(u32),
    /// Puts of these numbers, which are stored.
    Puts(Numbers),
    /// Gets of these numbers, each shown with the first dot of its epoch of the fallback.
    Gets(Numbers),
    /// So much is stored at all partitions.
    Stores(KeyCounts),
}

/// A copy back with this budget: how many keys it copies, and how many are stuck and left.
#[derive(Clone, Copy)]
pub struct Copies {
    pub budget: u32,
    pub keys: u32,
    pub stuck: u32,
    pub left: u32,
}

/// What an attempt to end the diversion comes to.
#[derive(Clone, Copy, PartialEq, Eq)]
pub enum Finish {
    Returned,
    LeftOver,
    NotDiverted,
    NoMemory,
    GateStopped,
}

/// Turns one after another over new gates of this many partitions, with the one at this index.
#[derive(Clone, Copy)]
pub struct Course {
    pub shows: &'static str,
    pub partitions: u16,
    pub index: u16,
    /// How many dead keys a vnode forgets after an answer, from a diversion on; before the first it forgets none.
    pub budget: u32,
    pub turns: &'static [Turn],
}

/// The one partition of a ring, without turns. Courses say what is other.
pub const ONE_PARTITION: Course = Course {
    shows: "",
    partitions: 1,
    index: 0,
    budget: 0,
    turns: &[],
};

// A copy back with a budget, and how many keys it copies, how many are stuck, and how many are left.
macro_rules! copies {
    ($budget:expr => $keys:expr, $stuck:expr, $left:expr) => {
        Turn::Call(Call::Copy(Copies {
            budget: $budget,
            keys: $keys,
            stuck: $stuck,
            left: $left,
        }))
    };
}

// An attempt to end the diversion, and what it comes to.
macro_rules! finishes {
    ($finish:ident) => {
        Turn::Call(Call::Finish(Finish::$finish))
    };
}

// What the primary and the fallback have accepted, and whether the tallies of the run count all that its primaries' histories have.
macro_rules! has {
    ($primary:expr, $fallback:expr, $count_all:expr) => {
        Turn::Call(Call::Has(Accepted {
            primary: $primary,
            fallback: $fallback,
            count_all: $count_all,
        }))
    };
}

pub(crate) use copies;
pub(crate) use finishes;
pub(crate) use has;

/// The gates, and the passes of them that the sessions have left.
#[derive(Drop)]
struct Stage {
    shared: Shared,
    passes: Passes,
}

/// Whether a pass at the primary has seen what it had seen before the first copy, and the copies.
fn saw_copies(copied: &Copied) -> bool {
    copied.began.checked_add(u64::from(copied.keys)) == Some(copied.primary.seen())
}

/// Whether a copy back comes to what it says.
fn copies_as_said<W: Wait>(
    rt: &W,
    alloc: Global,
    handoff: &Handoff,
    index: u16,
    wanted: &Copies,
) -> bool
    requires { index < 2 ^ handoff.now.index_bits }
{
    match handoff.copy_back(rt, alloc, index, wanted.budget) {
        Ok(copied) => {
            copied.keys == wanted.keys
                && copied.stuck == wanted.stuck
                && copied.left == wanted.left
                && saw_copies(&copied)
        }
        Err(_) => false,
    }
}

/// Whether a copy back of all keys of partition 0 leaves none. None where memory is refused.
pub fn copies_all<W: Wait>(rt: &W, alloc: Global, shared: &Shared) -> Option<bool> {
    match shared.handoff().copy_back(rt, alloc, 0, 10) {
        Ok(copied) => Some(copied.stuck == 0 && copied.left == 0),
        Err(HandoffFault::NoMemory) => None,
        Err(_) => Some(false),
    }
}

/// What an attempt to end a partition's diversion comes to. None where it is of no use at all.
pub fn try_finish<W: Wait>(rt: &W, alloc: Global, handoff: &Handoff, index: u16) -> Option<Finish>
    requires { index < 2 ^ handoff.now.index_bits }
{
    match handoff.finish_return(rt, alloc, index) {
        Ok(_) => Some(Finish::Returned),
        Err(HandoffFault::LeftOver(_)) => Some(Finish::LeftOver),
        Err(HandoffFault::NotDiverted(_)) => Some(Finish::NotDiverted),
        Err(HandoffFault::NoMemory) => Some(Finish::NoMemory),
        Err(HandoffFault::GateStopped) => Some(Finish::GateStopped),
        Err(HandoffFault::AlreadyDiverted) => None,
    }
}

/// Whether a partition without a fallback is neither copied back nor returned.
fn is_none_at<W: Wait>(rt: &W, alloc: Global, handoff: &Handoff, index: u16) -> bool {
    if !has_partition(handoff, index) {
        return false;
    }
    let is_copied = match handoff.copy_back(rt, alloc, index, 10) {
        Err(HandoffFault::NotDiverted(None)) => false,
        _ => true,
    };
    !is_copied && try_finish(rt, alloc, handoff, index) == Some(Finish::NotDiverted)
}

/// Whether the primary of a partition can be marked.
fn is_marked(handoff: &Handoff, index: u16) -> bool {
    match handoff.gates().get(usize::from(index)) {
        Some(gate) => gate.mark(),
        None => false,
    }
}

/// Whether each of so many sessions over these gates comes to what it says.
fn serves<W: Wait>(rt: &W, alloc: Global, shared: &Shared, times: u32, session: &Session) -> bool {
    for _ in 0..times {
        if !play(rt, alloc, shared, &Open, session) {
            return false;
        }
    }
    true
}

/// Whether a call for the partition at this index comes to what it says.
pub fn comes<W: Wait>(rt: &W, alloc: Global, shared: &Shared, index: u16, call: &Call) -> bool {
    let handoff = shared.handoff();
    if !has_partition(handoff, index) {
        return false;
    }
    match call {
        Call::Copy(wanted) => copies_as_said(rt, alloc, handoff, index, wanted),
        Call::Finish(wanted) => try_finish(rt, alloc, handoff, index) == Some(*wanted),
        Call::NoneAt(other) => is_none_at(rt, alloc, handoff, *other),
        Call::Has(wanted) => has_accepted(rt, alloc, shared, index, wanted),
        Call::Reap(side) => reaps(rt, alloc, handoff, index, *side),
        Call::Mark => is_marked(handoff, index),
        Call::Serves(times, session) => serves(rt, alloc, shared, *times, session),
        Call::Number(wanted) => handoff.diversion(index) == *wanted,
        Call::Puts(numbers) => puts(rt, alloc, shared, *numbers),
        Call::Gets(numbers) => gets(rt, alloc, shared, *numbers),
        Call::Stores(wanted) => are_stored(rt, alloc, handoff, wanted),
    }
}

/// The stage after a turn of a course. None where that doesn't come to what it says.
fn take_turn<W: Wait>(
    rt: &W,
    alloc: Global,
    course: &Course,
    stage: Stage,
    turn: &Turn,
) -> Option<Stage>
    requires { ArePassesOf stage.shared stage.passes }
    ensures { IfSome result (λ next. ArePassesOf next.shared next.passes) }
{
    let Stage { shared, passes } = stage;
    match turn {
        Turn::Serve(session) => match play_on(rt, alloc, &shared, &Open, session, passes) {
            Some(passes) => Some(Stage { shared, passes }),
            None => None,
        },
        Turn::Divert => match divert(alloc, shared, course.index, course.budget) {
            Some(shared) => Some(Stage { shared, passes }),
            None => None,
        },
        Turn::Call(call) => {
            if !comes(rt, alloc, &shared, course.index, call) {
                return None;
            }
            Some(Stage { shared, passes })
        }
    }
}

/// Whether all turns of a course come to what they say.
fn take_turns<W: Wait>(rt: &W, alloc: Global, course: &Course, stage: Stage) -> bool
    requires { ArePassesOf stage.shared stage.passes }
{
    let mut stage = stage;
    for turn in course.turns {
        match take_turn(rt, alloc, course, stage, turn) {
            Some(next) => stage = next,
            None => return false,
        }
    }
    true
}

/// Whether a course over new gates, by new passes, comes to what it says.
pub fn play_course<W: Wait>(rt: &W, alloc: Global, course: &Course) -> bool {
    let Some(shared) = new_shared(alloc, course.partitions, 0) else {
        return false;
    };
    match Passes::new(alloc, &shared) {
        Ok(passes) => take_turns(rt, alloc, course, Stage { shared, passes }),
        Err(_) => false,
    }
}

//! Whole schedules.

use crate::messages::{
    ABSENT, DELETE, DELETED, GET, PING, PUT_V, SHOWS_V, SHOWS_V_AT_FALLBACK, STORED,
};
use crate::steps::parts::{Schedule, WRITE, all_play, reads, writes};
use crate::steps::playing::{Act, Wanted, comes_to, world_of};
use Act::{Ask, Divert, Enter, Leave, Look, Mark, Publish, Put, Reap, Take, Unmark};
use Wanted::{Done, Kept, No, Reaped, Reply};
use node_steps::{Outcome, Step, StepFault, World};
use std::alloc::{AllocError, Global};
use std::process::Abort;
use std::test::Fail;

const SCHEDULES: &[Schedule] = &[
    // 1 reads while 2 waits to write and 3 to read: 2 marks the word, so that 3 can't enter, and can't take the state while 1
    // is inside. 1 is shown that the key is absent. Once 2 has written "v" and put the state back, 3 is shown it.
    Schedule {
        shows: "readers and a writer",
        workers: 3,
        vnodes: 1,
        parts: &[&[
            (Ask(1, 0, GET), Done),
            (Ask(2, 0, PUT_V), Done),
            (Ask(3, 0, GET), Done),
            (Enter(1), Done),
            (Mark(2), Done),
            (Enter(3), No),
            (Take(2), No),
            (Look(1), Reply(ABSENT)),
            (Leave(1), Done),
            (Take(2), Done),
            (Look(2), Done),
            (Publish(2), Reply(STORED)),
            (Enter(3), No),
            (Put(2), Done),
            (Enter(3), Done),
            (Look(3), Reply(SHOWS_V)),
            (Leave(3), Done),
        ]],
    },
    // A worker holds one vnode while another writes at the other: no vnode is in the other's way, and a key is that of its
    // vnode alone.
    Schedule {
        shows: "two vnodes apart",
        workers: 2,
        vnodes: 2,
        parts: &[
            &[(Ask(1, 1, GET), Done), (Take(1), Done)],
            writes!(2, PUT_V, STORED),
            &[
                (Look(1), Reply(ABSENT)),
                (Put(1), Done),
                (Ask(1, 0, GET), Done),
                (Enter(1), Done),
                (Look(1), Reply(SHOWS_V)),
            ],
        ],
    },
    // The next holder can't publish it, and its own worker looks again.
    Schedule {
        shows: "a plan ends with its put back",
        workers: 2,
        vnodes: 1,
        parts: &[&[
            (Ask(1, 0, PUT_V), Done),
            (Take(1), Done),
            (Look(1), Done),
            (Put(1), Done),
            (Ask(2, 0, GET), Done),
            (Take(2), Done),
            (Publish(2), No),
            (Look(2), Reply(ABSENT)),
            (Put(2), Done),
            (Take(1), Done),
            (Publish(1), No),
            (Look(1), Done),
            (Publish(1), Reply(STORED)),
        ]],
    },
    // A key that has a value is kept; once it is deleted its tombstone is reaped, and then it is absent.
    Schedule {
        shows: "a dead key is reaped",
        workers: 1,
        vnodes: 1,
        parts: &[
            WRITE,
            &[
                (Reap(1, 0), Done),
                (Take(1), Done),
                (Look(1), Kept),
                (Put(1), Done),
            ],
            writes!(1, DELETE, DELETED),
            &[
                (Reap(1, 0), Done),
                (Take(1), Done),
                (Look(1), Done),
                (Publish(1), Reaped),
                (Put(1), Done),
                (Ask(1, 0, GET), Done),
                (Take(1), Done),
                (Look(1), Reply(ABSENT)),
            ],
        ],
    },
    // There is no worker 0 and no worker 3 of two, and no vnode 1 of one.
    Schedule {
        shows: "nobody is asked a ping; who has a call gets no other",
        workers: 2,
        vnodes: 1,
        parts: &[&[
            (Ask(1, 0, PING), No),
            (Ask(0, 0, GET), No),
            (Ask(3, 0, GET), No),
            (Ask(1, 1, GET), No),
            (Ask(1, 0, GET), Done),
            (Ask(1, 0, PUT_V), No),
            (Enter(0), No),
            (Enter(3), No),
            (Look(2), No),
        ]],
    },
    // A put doesn't enter as a reader; nobody leaves, puts back or looks from outside; a word is marked once; and a state
    // that is taken can be neither entered, marked nor taken.
    Schedule {
        shows: "what a phase and a word refuse",
        workers: 2,
        vnodes: 1,
        parts: &[&[
            (Ask(1, 0, PUT_V), Done),
            (Enter(1), No),
            (Leave(1), No),
            (Put(1), No),
            (Look(1), No),
            (Publish(1), No),
            (Unmark(1), No),
            (Mark(1), Done),
            (Mark(1), No),
            (Unmark(1), Done),
            (Take(1), Done),
            (Publish(1), No),
            (Ask(2, 0, GET), Done),
            (Enter(2), No),
            (Mark(2), No),
            (Take(2), No),
        ]],
    },
    // What the primary has isn't shown then; "v" at the fallback has the fallback's first dot. No step ends a diversion.
    Schedule {
        shows: "a partition is diverted once, and its calls go to the fallback",
        workers: 1,
        vnodes: 1,
        parts: &[
            WRITE,
            &[(Divert(0), Done), (Divert(0), No)],
            reads!(ABSENT),
            WRITE,
            reads!(SHOWS_V_AT_FALLBACK),
            &[(Divert(0), No)],
        ],
    },
    // The worker is asked, reading, and answered inside as a reader; then asked, holding without a plan and with one, and
    // answered with the state in its hand.
    Schedule {
        shows: "a partition isn't diverted while a worker has a call there",
        workers: 1,
        vnodes: 1,
        parts: &[&[
            (Ask(1, 0, GET), Done),
            (Divert(0), No),
            (Enter(1), Done),
            (Divert(0), No),
            (Look(1), Reply(ABSENT)),
            (Divert(0), No),
            (Leave(1), Done),
            (Ask(1, 0, PUT_V), Done),
            (Take(1), Done),
            (Divert(0), No),
            (Look(1), Done),
            (Divert(0), No),
            (Publish(1), Reply(STORED)),
            (Divert(0), No),
            (Put(1), Done),
            (Divert(0), Done),
        ]],
    },
    // Worker 1 reads in partition 1 meanwhile. There is no partition 2. The two fallbacks are apart.
    Schedule {
        shows: "the other partitions are as before",
        workers: 2,
        vnodes: 2,
        parts: &[&[
            (Ask(1, 1, GET), Done),
            (Enter(1), Done),
            (Divert(0), Done),
            (Divert(2), No),
            (Divert(1), No),
            (Reap(2, 0), No),
            (Reap(2, 1), Done),
            (Take(2), No),
            (Look(1), Reply(ABSENT)),
            (Leave(1), Done),
            (Take(2), Done),
            (Look(2), Kept),
            (Put(2), Done),
            (Divert(1), Done),
            (Reap(2, 1), No),
            (Ask(1, 0, PUT_V), Done),
            (Take(1), Done),
            (Look(1), Done),
            (Publish(1), Reply(STORED)),
            (Ask(2, 1, GET), Done),
            (Enter(2), Done),
            (Look(2), Reply(ABSENT)),
            (Put(1), Done),
            (Ask(1, 0, GET), Done),
            (Enter(1), Done),
            (Look(1), Reply(SHOWS_V_AT_FALLBACK)),
        ]],
    },
];

#[test]
fn each_step_comes_to_its_outcome(rt: HostRuntime) {
    all_play(&rt, rt.alloc(), SCHEDULES);
}

fn let_go(_outcomes: Result<Vec<Outcome>, StepFault>) {}

fn four_steps(alloc: Global) -> Result<Vec<Step>, AllocError> {
    let mut steps = Vec::with_capacity(alloc, 4)?;
    steps.push(Step::Enter(1))?;
    steps.push(Step::Enter(2))?;
    steps.push(Step::Mark(1))?;
    steps.push(Step::Leave(1))?;
    Ok(steps)
}

fn are_as_taken(outcomes: &Result<Vec<Outcome>, StepFault>) -> bool {
    match outcomes {
        Ok(outcomes) => matches!(
            outcomes.as_slice(),
            [Outcome::Done, Outcome::No, Outcome::No, Outcome::Done]
        ),
        Err(_) => false,
    }
}

fn runs(world: &mut World, alloc: Global) -> bool {
    let Ok(steps) = four_steps(alloc) else {
        return false;
    };
    let outcomes = world.run(alloc, steps.as_slice());
    let is_so = are_as_taken(&outcomes);
    let_go(outcomes);
    is_so
}

/// The outcomes of a run stand in the order of its steps.
#[test]
fn a_run_takes_its_steps_in_order(rt: HostRuntime) -> Result<(), Fail> {
    let alloc = rt.alloc();
    let mut world = world_of(alloc, 2, 1)?;
    let is_so = comes_to(&mut world, alloc, &Ask(1, 0, GET), &Done) && runs(&mut world, alloc);
    drop(world);
    assert!(&rt; is_so);
    Ok(())
}

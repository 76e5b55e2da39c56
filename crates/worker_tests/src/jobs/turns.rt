//! Which jobs have their turn, what their worker waits with is told of that, and whom a job is meant for.
ghost use Rattle.std.specs.Prelude.{◌≡◌, ◌<◌, length};

mod posts;

use crate::jobs::turns::posts::worker_setups_of;
use crate::jobs::wait_for;
use job_pool::{JobFault, Jobs, Service, StepOutcome, Wakes, run_at};
use std::alloc::Global;
use std::process::Abort;
use std::sync::Wait;
use std::sync::atomic::{AtomicU64, Ordering};
use std::test::*;
use std::thread::Threads;

/// A job of so many steps, which would have to wait once, behind so many of them.
#[derive(Clone, Copy, Drop)]
pub struct Work {
    steps: u32,
    waits_after: u32,
}

/// A job of one step.
const SHORT: Work = Work {
    steps: 1,
    waits_after: u32::MAX,
};

/// Jobs by workers, and what is told of them.
pub struct Row {
    shows: &'static str,
    jobs: &'static [Work],
    /// What the wakeup of the first worker tells as its load, and those of the others, where there are two more.
    load: usize,
    others: Option<(usize, usize)>,
    may_wait: bool,
    /// Behind how many steps the readiness ends a turn.
    most_steps: u32,
    /// No job has its turn before so many were opened.
    begun: u64,
    /// Whether a wakeup that is rung waits for the end of the job that it was rung for.
    one_by_one: bool,
    /// Whether there is memory for a job alone where the service gave some up.
    is_short: bool,
    /// Turns that their job could go on behind.
    going: u64,
    /// Turns that ended where their job would have to wait.
    waiting: u64,
    /// Turns that ended their job.
    over: u64,
    /// The steps of all jobs.
    steps: u64,
    /// The steps of all jobs as they were shown.
    shown: u64,
    /// How often each wakeup was rung.
    rings: (u64, u64, u64),
}

/// One job for one worker. Rows say what is other.
const ONE: Row = Row {
    shows: "",
    jobs: &[SHORT],
    load: 0,
    others: None,
    may_wait: true,
    most_steps: u32::MAX,
    begun: 0,
    one_by_one: false,
    is_short: false,
    going: 0,
    waiting: 0,
    over: 1,
    steps: 1,
    shown: 1,
    rings: (1, 0, 0),
};

/// It would have to wait behind 500 of 2,000 steps.
const LONG: Work = Work {
    steps: 2_000,
    waits_after: 500,
};

const ROWS: &[Row] = &[
    Row {
        shows: "a job that has to wait is waited for, and behind 1,024 steps others have their turn",
        jobs: &[LONG],
        going: 1,
        waiting: 1,
        steps: 2_000,
        shown: 2_000,
        ..ONE
    },
    Row {
        shows: "a turn ends where its readiness says so, and its job has a further one",
        jobs: &[LONG],
        most_steps: 100,
        going: 19,
        waiting: 1,
        steps: 2_000,
        shown: 2_000,
        ..ONE
    },
    Row {
        shows: "a job that would have to wait and may not is over",
        jobs: &[LONG],
        may_wait: false,
        steps: 500,
        shown: 2_000,
        ..ONE
    },
    Row {
        shows: "each of many open jobs is shown once",
        jobs: &[
            SHORT,
            Work { steps: 10, ..SHORT },
            Work {
                steps: 100,
                ..SHORT
            },
            Work {
                steps: 1_000,
                ..SHORT
            },
        ],
        begun: 4,
        over: 4,
        steps: 1_111,
        shown: 1_111,
        rings: (4, 0, 0),
        ..ONE
    },
    Row {
        shows: "a job is meant for a worker with the least load, not for one of them alone, which is told when it lies in the queue",
        jobs: &[SHORT, SHORT, SHORT, SHORT, SHORT, SHORT],
        load: 5,
        others: Some((2, 2)),
        one_by_one: true,
        over: 6,
        steps: 6,
        shown: 6,
        rings: (0, 5, 1),
        ..ONE
    },
    Row {
        shows: "workers with the same load have each its part of the jobs, and of every second one",
        jobs: &[SHORT, SHORT, SHORT, SHORT, SHORT, SHORT],
        load: 2,
        others: Some((2, 2)),
        one_by_one: true,
        over: 6,
        steps: 6,
        shown: 6,
        rings: (3, 2, 1),
        ..ONE
    },
    Row {
        shows: "memory is asked for once more where the service gives some up",
        is_short: true,
        ..ONE
    },
];

/// What the service, the source, the sinks, and what the workers wait with count.
#[derive(Drop)]
pub struct Seen {
    begun: AtomicU64,
    ended: AtomicU64,
    steps: AtomicU64,
    going: AtomicU64,
    waiting: AtomicU64,
    over: AtomicU64,
    shown: AtomicU64,
    first_rings: AtomicU64,
    second_rings: AtomicU64,
    third_rings: AtomicU64,
    rung: AtomicU64,
    closes: AtomicU64,
    given_up: AtomicU64,
    idle_waits: AtomicU64,
    is_late: AtomicU64,
}

impl Seen {
    /// Nothing came yet.
    fn new() -> Seen {
        Seen {
            begun: AtomicU64::new(0),
            ended: AtomicU64::new(0),
            steps: AtomicU64::new(0),
            going: AtomicU64::new(0),
            waiting: AtomicU64::new(0),
            over: AtomicU64::new(0),
            shown: AtomicU64::new(0),
            first_rings: AtomicU64::new(0),
            second_rings: AtomicU64::new(0),
            third_rings: AtomicU64::new(0),
            rung: AtomicU64::new(0),
            closes: AtomicU64::new(0),
            given_up: AtomicU64::new(0),
            idle_waits: AtomicU64::new(0),
            is_late: AtomicU64::new(0),
        }
    }

    /// Whether the turns came to what the row says.
    fn had_turns(&self, row: &Row) -> bool {
        self.going.load(Ordering::SeqCst) == row.going
            && self.waiting.load(Ordering::SeqCst) == row.waiting
            && self.over.load(Ordering::SeqCst) == row.over
    }

    /// Whether each wakeup was rung as often as the row says.
    fn had_rings(&self, row: &Row) -> bool {
        let (first, second, third) = row.rings;
        self.first_rings.load(Ordering::SeqCst) == first
            && self.second_rings.load(Ordering::SeqCst) == second
            && self.third_rings.load(Ordering::SeqCst) == third
    }

    /// Whether the row's jobs came to what it says.
    fn is_so(&self, row: &Row) -> bool {
        self.is_late.load(Ordering::SeqCst) == 0
            && self.ended.load(Ordering::SeqCst) == row.jobs.len() as u64
            && self.steps.load(Ordering::SeqCst) == row.steps
            && self.had_turns(row)
            && self.shown.load(Ordering::SeqCst) == row.shown
            && self.had_rings(row)
            && self.closes.load(Ordering::SeqCst) == if row.others.is_some() { 3 } else { 1 }
            && (self.given_up.load(Ordering::SeqCst) > 0) == row.is_short
    }
}

/// Gives these jobs, the first of them when a worker waits.
#[derive(Drop)]
struct Given<'a> {
    left: &'a [Work],
    seen: &'a Seen,
}

impl Jobs for Given<'_> {
    type Job = Work;

    ghost use Rattle.std.specs.Prelude.{⊤};

    ghost gives = { λ first given last. ⊤ };

    fn next(&mut self) -> Result<Option<Work>, JobFault> {
        wait_for(&self.seen.idle_waits, 1, &self.seen.is_late);
        let Some((work, rest)) = self.left.split_first() else {
            return Ok(None);
        };
        self.left = rest;
        Ok(Some(*work))
    }
}

/// A job that is open.
#[derive(Drop)]
pub struct Doing {
    work: Work,
    taken: u32,
    has_waited: bool,
}

/// Takes the steps of each job.
#[derive(Drop)]
pub struct Stepping<'a> {
    seen: &'a Seen,
}

impl Service for Stepping<'_> {
    type Job = Work;

    type End = ();

    type Worker = ();

    type Open = Doing;

    ghost use Rattle.std.specs.Prelude.{⊤};

    ghost accepts = { λ service job. ⊤ };

    ghost stands = { λ service job opened. ⊤ };

    ghost is_over = { λ opened. ⊤ };

    ghost serves = { λ service first job last end. ⊤ };

    fn open(&self, _alloc: Global, _worker: &mut (), job: Work) -> Result<Doing, Work> {
        self.seen.begun.fetch_add(1, Ordering::SeqCst);
        Ok(Doing {
            work: job,
            taken: 0,
            has_waited: false,
        })
    }

    fn make_room(&self, _alloc: Global, _worker: &()) -> bool {
        self.seen.given_up.fetch_add(1, Ordering::SeqCst);
        true
    }

    fn step(
        &self,
        _alloc: Global,
        _worker: &mut (),
        opened: &mut Doing,
        may_wait: bool,
    ) -> StepOutcome {
        if opened.taken == opened.work.waits_after && !opened.has_waited {
            opened.has_waited = true;
            return if may_wait {
                StepOutcome::Waits
            } else {
                StepOutcome::Over
            };
        }
        opened.taken = opened.taken.saturating_add(1);
        self.seen.steps.fetch_add(1, Ordering::SeqCst);
        if opened.taken >= opened.work.steps {
            StepOutcome::Over
        } else {
            StepOutcome::Going
        }
    }

    fn close(&self, _worker: &mut (), _opened: Doing) {
        self.seen.ended.fetch_add(1, Ordering::SeqCst);
    }
}

/// Whether the row's jobs are served as it says.
fn is_served<T: Threads + Wait + Sync>(rt: &T, alloc: Global, row: &Row) -> bool {
    let seen = Seen::new();
    let Ok(worker_setups) = worker_setups_of(alloc, &*row, &seen) else {
        return false;
    };
    if worker_setups.is_empty() {
        return false;
    }
    let service = Stepping { seen: &seen };
    let mut source = Given {
        left: row.jobs,
        seen: &seen,
    };
    let is_done = match run_at(
        rt,
        alloc,
        &service,
        &mut source,
        worker_setups,
        Wakes::LeastLoad,
    ) {
        Ok(told) => told.given == row.jobs.len() && told.refused == 0,
        Err(_) => false,
    };
    is_done && seen.is_so(row)
}

#[test]
fn each_job_has_its_turns(rt: HostRuntime) {
    for row in ROWS {
        assert!(rt; is_served(&rt, rt.alloc(), row), "{}", row.shows);
    }
}

//! The pure core of all schedules: workers over vnodes, step by step, in any order.
//!
//! A world (`specs/World`) has for each site a vnode: a word (how many readers are inside and whether it
//! is marked, or that it is taken), the log of what it accepted, whose commands are its history, and the
//! state in place; for each worker a phase with its call, the state in its hand and its plan, and for
//! each site the front of the log that it has seen. A call is for a partition, and one function (`route`)
//! says to which site it goes: to that of the partition's own vnode, its primary, or, where the partition
//! is diverted, to that of a fallback. A step is one partition's, which is diverted, or one worker's, at
//! one site (`specs/Steps`): it gets a call, enters as a reader or leaves, marks the word or takes the
//! mark away, takes the state into its hand or puts it back, looks, or publishes its plan. A look is a
//! step of the vnode machine in the state shown: it answers, or what the machine accepts becomes the
//! plan. A step that isn't possible changes nothing.
//!
//! A worker may also be a copier, of a key of a partition that is diverted: as a reader at the fallback
//! it keeps the key's clock, and stays inside; it takes the primary's state, looks, and publishes the
//! copy, which is an entry of the primary's log and no event of its history; then it puts the state back
//! and leaves. What the copy brings is the commands that it has seen at the fallback (`brought_by`),
//! which nobody changes while it is inside.
//!
//! Or it is a closer of a partition's fallback: it takes the fallback's state, enters the primary as a
//! reader, looks at both, and publishes the close where the primary has every key as it is at the
//! fallback; from then on the partition's calls go to the primary, and who finds the fallback closed is
//! turned away to there. Its look and its publish are the two steps that are about two sites (`closes` in
//! `specs/Steps`); all else is a turn at one.
//!
//! A vnode has its id and the epoch that it was opened behind in its own record, and is found by its site
//! in a list; of a site that it doesn't know a worker has seen nothing. So sites may be added while a
//! world runs: what is always true of a vnode (`proofs/Inside`, `IsSound`) speaks of one vnode, and is
//! true of a fresh one, whatever epochs were given before it, and whatever its log. That a log of
//! commands alone has a replay is said apart (`IsPlain`).
//!
//! [`always`] is the theorem, over every schedule (`specs/Claims`). Its proof goes step by step:
//! `proofs/Turns` derives what a turn makes of its worker and its vnode, and what comes of it
//! (`proofs/Coming`), from the machine's step; of a copier in `proofs/CopyTurns`, of a closer and of who
//! is turned away in `proofs/CloseTurns`; `proofs/Kept` counts readers and holders, so that what is
//! always true stays so, `proofs/CloseSteps` and `proofs/Closes` at the two steps of two sites,
//! `proofs/Diverting` where a partition is diverted. `proofs/Lifting`, `proofs/Leaving` and
//! `proofs/Showing` draw the claims; `proofs/Judged` keeps what a closer has seen until it publishes.
//! `proofs/Coursing` and those behind it make each run of a partition a course of `copy_laws`
//! ([`runs_are_courses`], `specs/Courses`): by a step at one site in `proofs/CourseSteps`, by a close in
//! `proofs/CourseCloses`, by a diversion in `proofs/CourseDiverts`; the law's partition isn't known until
//! the run is over, so all is said of each partition that agrees so far, and what needs contexts of each
//! key for which those that were given had been shown. `proofs/Joined` draws from the laws what holds of
//! it: what replies tell at the primary in `proofs/Telling`, that its log is legal in `proofs/Lawful`,
//! joint siblings in `proofs/CourseJoins`, dots in `proofs/OneDot`; `proofs/Moments` goes from one moment
//! to a later one. `proofs/CallsApart` and `proofs/Uncopied` keep calls and copies apart: a partition
//! that is diverted is asked nothing but at its fallback, to which nothing is copied
//! (`proofs/FallbackLogs`).
//!
//! One exchange, of three workers over one vnode (`proofs/Rows` evaluates it):
//!
//! ```text
//! 1 asks a get, 2 a put of "v", 3 a get      each has its call
//! 1 enters; 2 marks                          a reader is inside, and the word is marked
//! 3 enters                                   not possible: the word is marked
//! 2 takes                                    not possible: a reader is inside
//! 1 looks; leaves                            the key is absent, at the empty history
//! 2 takes; looks; publishes                  "v" is stored: the history has one event
//! 3 enters                                   not possible: the vnode is taken
//! 2 puts back; 3 enters; looks               "v"
//! ```
//!
//! A world may be kept without its histories: no step looks at them ([`needs_no_history`], `specs/Erased`).
//!
//! A [`World`] runs it: [`World::step`] takes any step, and what it returns and the world after it are
//! those of the theorem's world, whatever schedule led there (`specs/Kept`). What a worker does is told
//! at one site by its turn, and of a closer's look and publish over all that runs but the workers
//! (`specs/Closings`); `proofs/Taking` makes of it the step of the theorem's world.
//!
//! # Proved
//!
//! - **In whatever order any number of workers take their steps, each vnode has a history that one
//!   thread could have made. Each reply is what the sibling register answers at one position of it,
//!   not before what its caller had seen there. No dot is issued a second time. No value leaves a
//!   key's siblings unless an accepted write or delete had seen it.** This is a theorem of a pure
//!   world, whose steps are those of docs/SCHEDULES.md. The next five points are what `always` says
//!   of which vnodes.
//! - *Each vnode, whatever contexts are given.* A look shows the state after the whole log, and
//!   each reply is the machine's there. No other step changes a log but a copy and a close. A close
//!   comes only if each key of the fallback is copied as it is. No dot is issued twice at one
//!   vnode.
//! - *Where no command follows a copy: each fallback, and a primary until it is asked behind
//!   copies.* Its history is legal, and the state is its replay. A key is in a life exactly if it
//!   is defined. A value leaves only by a write or delete whose context covers its dot, or by a
//!   delete without context. That command had seen it, if each context that was given for the key
//!   there had been shown there.
//! - *Each fallback, and a primary to which nothing was copied.* Each reply is the register's at
//!   the end of that history.
//! - *A partition behind copies, whatever contexts are given.* What happened is one course of
//!   `copy_laws`, also from moment to moment. Two writes or deletes with one dot are one, whatever
//!   their keys and sides. A value leaves a fallback's siblings only by a command that had seen it
//!   and was accepted since.
//! - *A key behind copies, if each context that was given for it in the partition had been shown
//!   for it there.* The primary's log is legal for it, and each reply to a call of it is the
//!   register's over all sides. The primary's siblings are the joint ones after each copy of it if
//!   its fallback accepted nothing of it since, and once the fallback is closed. A value leaves
//!   them only by a write or delete, of some side, that had seen it.
//! - A `World` runs such schedules over real vnodes: a step returns what the theorem's step
//!   returns, and leaves the theorem's world. `No` comes for each step that isn't possible and for
//!   no other. Each running gate's history is that of a vnode after some schedule.
//!
//! By `World::new`, `step`, `run`; laws `always`, `runs_are_courses`, `needs_no_history`,
//! `gates_are_scheduled`.
//!
//! # Open
//!
//! A request for which memory is refused may not have been possible.
#![tactic(auto)]

mod acts;
mod call;
mod close_stage;
mod closer;
mod closing;
mod copied_clock;
mod copier;
mod copies;
mod divert;
mod fault;
mod hand;
mod laws;
mod looks;
mod outcome;
mod parts;
mod phase;
mod planned_close;
mod planned_copy;
mod site;
mod stage;
mod step;
mod world;

pub use fault::StepFault;
pub use laws::{always, gates_are_scheduled, needs_no_history, runs_are_courses};
pub use outcome::Outcome;
pub use step::Step;
pub use world::World;

//! The text of a schedule: one step a line, and one line for each outcome.
//!
//! A line names a step and the worker that takes it, as `enter 1`. Behind the worker of an `ask` or a
//! `reap` stands a request: its message code and its body in lower-case hexadecimal. Behind `divert`
//! stands a partition's index, behind `close` a worker's number and such an index. [`read_line`] reads
//! one as the step that it asks for (`specs/Lines`), and a line asks for one step
//! ([`a_line_asks_for_one_step`]). [`Lines`] cuts a text into its lines (`specs/Cuts`), and
//! [`write_outcome`] writes the outcome of a step (`specs/Outcomes`).
//!
//! A [`Comparison`] takes each call and each answer of a run and asks a plain register the same (`specs/Compared`,
//! `specs/PlainAnswers`); its verdict is the run's last line, which [`write_verdict`] writes (`specs/Verdicts`).
//!
//! ```text
//! ask 1 090a016212016b        worker 1 asks for bucket b, key k: a get
//! enter 1                     worker 1 enters as a reader
//! look 1                      worker 1 looks, and is answered
//! leave 1                     worker 1 leaves
//! reap 1 090a016212016b       worker 1 is asked to forget the key, if it is dead
//! divert 0                    partition 0 is diverted: its calls go to a fallback from then on
//! copy 1 090a016212016b       worker 1 is asked to copy the key back to the primary
//! close 1 0                   worker 1 is asked to close the fallback of partition 0
//! ```
//!
//! # Proved
//!
//! A line is read exactly as what its text asks for, and is a bad step exactly if it asks for
//! nothing. Lines of outcomes and verdicts, and the comparison with a plain register, are exact. By
//! `read_line`, `write_outcome`, `write_verdict`, the calls of `Lines` and `Comparison`; law
//! `a_line_asks_for_one_step`.
//!
//! # Open
//!
//! `no memory` may answer a line of the right form whose message is no request.
#![tactic(auto)]

mod comparison;
mod cut;
mod fault;
mod laws;
mod line;
mod lines;
mod message;
mod operands;
mod outcome;
mod plain_ask;
mod reading;
mod reply_parts;
mod shown_context;
mod shown_contexts;
mod verdict;

pub use comparison::Comparison;
pub use fault::LineFault;
pub use laws::a_line_asks_for_one_step;
pub use line::{GateStep, KeyStep, Line, LineAction, MAX_LINES};
pub use lines::Lines;
pub use outcome::{LineOutcome, write_outcome};
pub use reading::read_line;
pub use verdict::{Verdict, write_verdict};

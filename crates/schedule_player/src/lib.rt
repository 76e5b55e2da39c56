//! A schedule played from a reader to a writer: a line in, a line out.
//!
//! [`steps_on`] reads a schedule, one step a line (`schedule_text`), takes each step in a world of
//! workers over vnodes (`node_steps`), and writes what came of it as one line, before it reads on. Behind
//! the last of them stands the line of the comparison with a plain register; a run in which a partition
//! was diverted isn't compared.
//!
//! What it means (`specs/Played`): what was written are the outcomes that the theorem's world has for the
//! steps that the lines ask for, in their order, from the opening world on; the last line is a function
//! of them (`specs/Heard`).
//!
//! What it costs: each line is looked at once, and copied once into a buffer of its length. Of each
//! worker the last call is kept. A line takes a step of its world and one write, and an answer is
//! compared by searches alone, so that the whole takes time in proportion to its lines, but for a
//! logarithm.
//!
//! ```text
//! ask 1 090a016212016b        1 ok
//! enter 1                     2 ok
//! look 1                      3 reply 0a
//! leave 1                     4 ok
//!                             plain equal
//! ```
//!
//! # Proved
//!
//! The outcomes are so line for line, from any reader to any writer, and the last line comes at the
//! end. `BadStep` comes just if a line asks for nothing or 100,000 lines were answered. By
//! `steps_on`.
//!
//! # Tested
//!
//! Each line is answered before the next read.
#![tactic(auto)]

mod answer;
mod asking;
mod fault;
mod opening;
mod pieces;
mod player;
mod playing;
mod referee;
mod sending;

pub use fault::StepsFault;
pub use playing::steps_on;

//! The text of an operator's console of a serving node: one command a line, and one line for each
//! answer.
//!
//! What it means: which lines ask for which command is defined in `specs/Commands` (`AsksFor`), and
//! [`read_command`] reads a line as the command that it asks for. The line of an
//! [`OperatorAnswer`], and of an [`OperatorRefusal`], is defined in `specs/Answers`; each writes its
//! own. What is wrong with a line that asks for none is defined in `specs/Mistakes`
//! (`IsMistakeIn`), and [`mistake_in`] says it. [`write_figures`] and [`write_group`] write numbers
//! with their names, by `specs/Figures`.
//!
//! What it costs: only `DivertedPartitions::none` takes memory. A line is read in a few passes over
//! it.
//!
//! ```text
//! help                what the commands are
//! totals              how many commands were served, and how much is stored
//! stats               what was done by now, without a pause
//! diverted            which partitions are diverted                  diverted now: 3 for 12 s, 17 for 300 s
//! divert 3            partition 3 is diverted to a fallback          diverted 3
//! copy 3 100          at most 100 of its keys are copied back        copied 3 keys 100 left
//! return 3            partition 3 goes back to its primary           returned 3
//! stop                the node stops
//! dump                                                               refused: no such command; help lists them
//! ```
//!
//! # Proved
//!
//! [`read_command`] reads a line exactly as the command that its text asks for, and as none exactly
//! if it asks for none. What [`mistake_in`] says of such a line is wrong with it. If the writer
//! takes all of it, each answer's line is written as it is defined. So are the lines of `help` and
//! of the partitions that are diverted, and so are figures. An answer's text is one line of
//! printable ASCII. By `read_command`, `mistake_in`, `OperatorAnswer::write_line`,
//! `OperatorRefusal::write_line`, `write_help`, `write_figures`, `write_group`, the calls of
//! `DivertedPartitions`; laws `a_text_asks_for_one_command`, `an_answer_is_one_line`.
//!
//! # Tested
//!
//! A console keeps each of its answers, and writes what it kept.
//!
//! # Open
//!
//! What was written if the writer fails.
#![tactic(auto)]

mod answer;
mod command;
mod diverted;
mod figures;
mod laws;
mod mistake;
mod number;
mod reading;
mod refusal;

pub use answer::{OperatorAnswer, write_help};
pub use command::OperatorCommand;
pub use diverted::DivertedPartitions;
pub use figures::{Figure, write_figures, write_group};
pub use laws::{a_text_asks_for_one_command, an_answer_is_one_line};
pub use mistake::{Mistake, Word, mistake_in};
pub use reading::read_command;
pub use refusal::OperatorRefusal;

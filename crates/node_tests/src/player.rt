//! Schedules from their first line to the verdict.

mod limits;
mod pieces;
mod playing;
mod schedules;
mod streams;

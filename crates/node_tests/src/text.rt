//! Schedules, line by line.

mod compared;
mod comparing;
pub(crate) mod cutting;
mod outcomes;
mod reading;

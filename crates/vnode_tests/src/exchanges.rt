//! Exchanges with a vnode. What is wanted was computed by hand.

pub(crate) mod asking;
mod closes;
mod contexts;
mod copies;
mod deletes;
mod forms;
mod limits;
mod marks;
mod options;
mod plans;
pub(crate) mod steps;

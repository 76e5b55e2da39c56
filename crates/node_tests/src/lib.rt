//! Tests of `ring_map`, `node_session`, `node_steps`, `schedule_text` and `schedule_player`, from outside: the partitions of keys, whole sessions, from
//! bytes to bytes, and schedules, by their calls and as their bytes.
//!
//! They stand in a crate of their own, since a crate with tests is proved twice, and below the program, so that its
//! command line isn't proved again with them.
#![tactic(auto)]

#[cfg(test)]
mod messages;
#[cfg(test)]
mod player;
#[cfg(test)]
mod rings;
#[cfg(test)]
mod steps;
#[cfg(test)]
mod tests;
#[cfg(test)]
mod text;

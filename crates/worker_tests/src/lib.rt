//! Tests of `stats_book`, `job_pool`, `handoff`, `gate_node`, `worker_pool` and `node_commands`, from outside: what is counted, jobs and who serves
//! them, what is remembered of keys, nodes over gates, also where a partition is diverted, copied back and returned, runs of a pool, and connections served over sockets of this machine.
//!
//! They stand in a crate of their own, since a crate with tests is proved twice.
#![tactic(auto)]

#[cfg(test)]
mod book;
#[cfg(test)]
mod copy_race;
#[cfg(test)]
mod copy_refused;
#[cfg(test)]
mod diversions;
#[cfg(test)]
mod exchanges;
#[cfg(test)]
mod gates;
#[cfg(test)]
mod jobs;
#[cfg(test)]
mod partitions;
#[cfg(test)]
mod playing;
#[cfg(test)]
mod return_race;
#[cfg(test)]
mod returns;
#[cfg(test)]
mod serving;
#[cfg(test)]
mod workers;

//! Tests of `actor_epoch`, `dvv_set`, `clock_store`, `clock_list`, `sibling_register`, `vnode_core`, `tomb_reaper`, `ghost_state` and `rw_gate`, from
//! outside: contexts, epochs, clocks, what keeps the clocks of keys, the register, a vnode, its reaps, and a counter, a register and a vnode behind
//! a gate.
//!
//! They stand in a crate of their own, since a crate with tests is proved twice.
#![tactic(auto)]

#[cfg(test)]
mod actors;
#[cfg(test)]
mod clocks;
#[cfg(test)]
mod epochs;
#[cfg(test)]
mod exchanges;
#[cfg(test)]
mod gates;
#[cfg(test)]
mod ghosts;
#[cfg(test)]
mod reaping;
#[cfg(test)]
mod register;
#[cfg(test)]
mod storage;

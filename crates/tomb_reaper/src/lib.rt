//! Sweeps of a vnode: its dead keys are forgotten, so many at a time.
//!
//! A deleted key stays as a tombstone with its clock, so that late contexts of its life still meet what
//! they have seen. A sweep forgets such keys for good: each with its clock, in key order, from a key on.
//! What is forgotten, and what is left, are the machine's definitions (`dead_keys`, `swept_keys` and
//! `swept` in `specs/Dead` of `vnode_machine`). The body stands beside the vnode, in `vnode_core`.
//!
//! With b/i and b/k dead, and a value under b/j:
//!
//! ```text
//! vnode.has_dead(None)             true
//! sweep(&mut vnode, None, 1)       reaped: 1, more: true: b/i is forgotten
//! sweep(&mut vnode, None, 10)      reaped: 1, more: false: b/k is forgotten
//! sweep(&mut vnode, None, 10)      reaped: 0, more: false
//! ```
//!
//! # Proved
//!
//! `sweep` forgets exactly the first dead keys at or after a key, as many as its budget at most.
//! Each goes by a reap that the register accepts. `sweep` takes no memory. By `sweep` of
//! `vnode_core`.
#![tactic(auto)]

pub use vnode_core::{Swept, sweep};

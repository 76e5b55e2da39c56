//! Deletes, reaps and sweeps of a vnode. What is wanted was computed by hand.

mod lives;
mod sweeps;

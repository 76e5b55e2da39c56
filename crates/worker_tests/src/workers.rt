//! Runs of a pool, from bytes to bytes.
mod crowd;
mod kept_ends;
mod readers;
mod resting;
mod runs;
mod script;
mod served;
mod serving_setups;
mod sessions;
mod streams;

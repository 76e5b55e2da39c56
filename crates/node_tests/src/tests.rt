//! Whole sessions, from bytes to bytes.

mod buffers;
mod connections;
mod contexts;
mod exchange;
mod faults;
mod frames;
mod fronts;
mod interruptions;
mod large;
mod long;
mod memory;
mod messages;
mod nonblocking;
mod options;
mod reports;
mod scripts;
mod sessions;
mod stops;
mod streams;
mod turns;

//! Runs that serve connections, with clients beside them and with none.
ghost use Rattle.std.specs.Prelude.{◌≤◌, IfSome};

mod clients;
mod controlled;
mod heard;
mod listener;
mod served;
mod stopped;
mod until;

use crate::serving::listener::Failing;
use log::Log;
use node_commands::{ServeFault, Served, Settings, serve_on};
use ring_map::Ring;
use std::alloc::Global;
use std::net::Net;
use std::rt::Clock;
use std::sync::Wait;
use std::thread::Threads;

/// What serving left, and what it wrote.
#[derive(Drop)]
struct Outcome {
    served: Result<Served, ServeFault>,
    written: Vec<u8>,
}

/// The settings of a run by 1 to 64 workers, on a ring of one partition.
fn settings_of(connections: u16, workers: u16) -> Option<Settings>
    ensures least { IfSome result (λ settings. 1 ≤ settings.workers) }
    ensures most { IfSome result (λ settings. settings.workers ≤ 64) }
    ensures run { IfSome result (λ settings. 1 ≤ settings.run) }
{
    if workers < 1 || workers > 64 {
        return None;
    }
    let ring = Ring::new(1)?;
    Some(Settings {
        connections,
        workers,
        ring,
        run: 1,
        sweep: 0,
    })
}

/// Serves so many connections by so many workers.
fn serve<R: Log + Clock + Net + Threads + Wait + Sync>(
    rt: &R,
    alloc: Global,
    listener: Failing<'_>,
    connections: u16,
    workers: u16,
) -> Option<Outcome> {
    match settings_of(connections, workers) {
        Some(settings) => {
            let mut written = Vec::new(alloc);
            let served = serve_on(rt, alloc, listener, &settings, &mut written);
            Some(Outcome { served, written })
        }
        None => None,
    }
}

/// Whether a text is the line on the port, and then the line of these totals, if there are any.
fn is_written(alloc: Global, written: &[u8], port: u16, totals: Option<&str>) -> bool {
    match totals {
        Some(totals) => is_text(alloc, written, port, totals),
        None => true,
    }
}

/// Whether a text is `listening` with the port, and then this.
fn is_text(alloc: Global, written: &[u8], port: u16, then: &str) -> bool {
    match format!(in alloc; "listening 127.0.0.1:{port}\n{then}") {
        Ok(text) => written == text.as_bytes(),
        Err(_) => false,
    }
}

//! What the log says of connections.
use crate::serving::clients::Ports;
use std::alloc::Global;

/// The address of a client, and how its connection ended, as a line of the log has them; None of a line that says of no end.
fn end_of(line: &str) -> Option<(&str, &str)> {
    let (_, connection) = line.split_once("connection from ")?;
    connection.split_once(' ')
}

/// Whether so many ends were logged.
pub fn has_ends(log: &str, connections: u64) -> bool {
    let mut count = 0u64;
    for line in log.lines() {
        if end_of(line).is_some() {
            count = count.saturating_add(1);
        }
    }
    count == connections
}

/// How often it was logged that the connection from this address ended so, or otherwise.
fn ends_of(log: &str, address: &str, end: &str) -> (u64, u64) {
    let mut so = 0u64;
    let mut all = 0u64;
    for line in log.lines() {
        if let Some((client, told)) = end_of(line) {
            if client == address {
                all = all.saturating_add(1);
                if told == end {
                    so = so.saturating_add(1);
                }
            }
        }
    }
    (so, all)
}

/// Whether it was logged, once, that the connection from this port ended so.
fn is_told(alloc: Global, log: &str, port: u16, end: &str) -> bool {
    match format!(in alloc; "127.0.0.1:{port}") {
        Ok(address) => ends_of(log, address.as_str(), end) == (1, 1),
        Err(_) => false,
    }
}

/// Whether the connections of the first clients ended so, one after another.
pub fn are_told(alloc: Global, log: &str, ports: &Ports, ends: &[&str]) -> bool {
    let mut client = 0usize;
    for end in ends {
        if !is_told(alloc, log, ports.of(client), end) {
            return false;
        }
        client = client.saturating_add(1);
    }
    true
}

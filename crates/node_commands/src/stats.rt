//! What a server has done by now, in numbers for an operator.

use control_text::{Figure, write_figures, write_group};
use socket_streams::{ServerCounts, Work, WorkerCounts};
use stats_book::Totals;
use std::io;
use std::io::Write;
use worker_pool::{MessageKind, Text};

/// The errors, each by the name of its number: its text, with `_` in place of a space.
const ERRORS: [(Text, &str); 18] = [
    (Text::UnknownCode, "unknown_message_code"),
    (Text::BadMessage, "bad_message"),
    (Text::MissingField, "missing_field"),
    (Text::EmptyName, "empty_name"),
    (Text::NoKey, "key_required"),
    (Text::NoMemory, "no_memory"),
    (Text::MatchFound, "match_found"),
    (Text::Modified, "modified"),
    (Text::NotFound, "notfound"),
    (Text::BadContext, "bad_context"),
    (Text::TooManySiblings, "too_many_siblings"),
    (Text::ClockFull, "clock_full"),
    (Text::EpochsUsedUp, "epochs_used_up"),
    (Text::CounterUsedUp, "counter_used_up"),
    (Text::Moved, "moved"),
    (Text::HistoryFull, "history_full"),
    (Text::BadFrame, "bad_frame"),
    (Text::FrameTooLarge, "frame_too_large"),
];

/// The kinds of messages, each by the name of its number.
const KINDS: [(MessageKind, &str); 5] = [
    (MessageKind::Ping, "ping_messages"),
    (MessageKind::Get, "get_messages"),
    (MessageKind::Put, "put_messages"),
    (MessageKind::Delete, "delete_messages"),
    (MessageKind::Other, "other_messages"),
];

/// What a server has done by now, and what its operator knows of it.
#[derive(Clone, Copy)]
pub(crate) struct Stats<'a> {
    /// For how many seconds it has served.
    pub(crate) uptime: u64,
    /// The run's number.
    pub(crate) run: u32,
    /// How many partitions are diverted.
    pub(crate) diverted: usize,
    pub(crate) counts: &'a ServerCounts,
}

/// A number, by its name.
fn figure(name: &'static str, value: u64) -> Figure {
    Figure { name, value }
}

/// What the sessions of all workers have counted by now.
fn live_totals(counts: &ServerCounts) -> Totals {
    let mut totals = Totals::zeros();
    for worker in counts.workers() {
        let _has_room = totals.add(&worker.sessions().totals().now());
    }
    totals
}

/// How many messages of this kind were answered.
fn messages(counts: &ServerCounts, kind: MessageKind) -> u64 {
    let mut sum: u64 = 0;
    for worker in counts.workers() {
        sum = sum.saturating_add(worker.sessions().answers().messages(kind));
    }
    sum
}

/// How many replies were this error.
fn errors(counts: &ServerCounts, text: Text) -> u64 {
    let mut sum: u64 = 0;
    for worker in counts.workers() {
        sum = sum.saturating_add(worker.sessions().answers().errors(text));
    }
    sum
}

/// How many puts were refused for want of memory.
pub(crate) fn refused_puts(counts: &ServerCounts) -> u64 {
    let mut sum: u64 = 0;
    for worker in counts.workers() {
        sum = sum.saturating_add(worker.sessions().answers().refused_puts());
    }
    sum
}

/// How many messages a worker has answered.
fn messages_of(worker: &WorkerCounts) -> u64 {
    let mut sum: u64 = 0;
    for (kind, _) in KINDS {
        sum = sum.saturating_add(worker.sessions().answers().messages(kind));
    }
    sum
}

/// Writes for how long the server has served, by what, and for how many connections.
fn write_server<W: Write>(writer: &mut W, stats: &Stats<'_>, work: Work) -> io::Result<()> {
    let closed = work.ended.saturating_add(stats.counts.turned_away());
    let accepted = stats.counts.accepted();
    write_figures(
        writer,
        &[
            figure("uptime", stats.uptime),
            figure("run", u64::from(stats.run)),
            figure("workers", stats.counts.workers().len() as u64),
            figure("connections", accepted),
            figure("open", accepted.saturating_sub(closed)),
            figure("closed", closed),
        ],
    )
}

/// Writes what the sessions have counted, under the names of the totals.
fn write_totals<W: Write>(writer: &mut W, totals: Totals) -> io::Result<()> {
    write_group(
        writer,
        &[
            figure("gets", totals.gets),
            figure("puts", totals.puts),
            figure("deletes", totals.deletes),
            figure("refusals", totals.refusals),
            figure("reaps", totals.reaps),
        ],
    )
}

/// Writes how many messages of each kind were answered, and how many by each error.
fn write_answers<W: Write>(writer: &mut W, counts: &ServerCounts) -> io::Result<()> {
    for (kind, name) in KINDS {
        write_group(writer, &[figure(name, messages(counts, kind))])?;
    }
    for (text, name) in ERRORS {
        write_group(writer, &[figure(name, errors(counts, text))])?;
    }
    write_group(writer, &[figure("puts_refused", refused_puts(counts))])
}

/// Writes how many bytes have come and gone, in how many turns, and how many partitions are diverted.
fn write_work<W: Write>(writer: &mut W, stats: &Stats<'_>, work: Work) -> io::Result<()> {
    write_group(
        writer,
        &[
            figure("bytes_in", work.received),
            figure("bytes_out", work.sent),
            figure("turns", work.turns),
            figure("diverted", stats.diverted as u64),
        ],
    )
}

/// Writes what each worker has done.
fn write_workers<W: Write>(writer: &mut W, counts: &ServerCounts) -> io::Result<()> {
    let mut place: u64 = 0;
    for worker in counts.workers() {
        write_group(
            writer,
            &[
                figure("worker", place),
                figure("messages", messages_of(worker)),
                figure("turns", worker.turns()),
                figure("open", worker.open()),
            ],
        )?;
        place = place.saturating_add(1);
    }
    Ok(())
}

/// Writes what a server has done by now: a line of names, each with its number. It takes no memory of its own. Each
/// number is read by itself, while the workers go on.
pub(crate) fn write_stats<W: Write>(writer: &mut W, stats: &Stats<'_>) -> io::Result<()> {
    let work = stats.counts.work();
    write_server(writer, stats, work)?;
    write_totals(writer, live_totals(stats.counts))?;
    write_answers(writer, stats.counts)?;
    write_work(writer, stats, work)?;
    write_workers(writer, stats.counts)?;
    writeln!(writer)
}

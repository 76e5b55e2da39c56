//! The time of a log line.

use jiff_core::civil::DateTime;
use std::io::Write;
use std::rt::Clock;

/// Writes the time, in UTC and to the second, as `2026-11-26T22:10:42Z `, before a line. Nothing where the clock can't be read.
pub(crate) fn write_time<R: Clock, W: Write>(rt: &R, writer: &mut W) {
    let Ok(since) = rt.since_1970() else {
        return;
    };
    let Ok(DateTime { date, time }) = DateTime::from_nanosecond(since.as_nanos() as i128) else {
        return;
    };
    let _cut = write!(
        writer,
        "{:04}-{:02}-{:02}T{:02}:{:02}:{:02}Z ",
        date.year, date.month, date.day, time.hour, time.minute, time.second
    );
}

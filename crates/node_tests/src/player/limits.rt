//! How many lines a schedule has.

use crate::player::playing::{Played, play_again};
use schedule_player::StepsFault;
use std::alloc::{AllocError, Global};
use std::process::Abort;
use std::test::Fail;

/// So many lines, none of which is possible.
fn lines(alloc: Global, count: u32) -> Result<Vec<u8>, AllocError> {
    let mut text = Vec::new(alloc);
    for _ in 0..count {
        text.extend_from_slice(b"leave 1\n")?;
    }
    Ok(text)
}

/// What is answered to so many lines ends so, and they come to this result.
fn is_answered_last(
    rt: &impl Abort,
    alloc: Global,
    count: u32,
    wanted: Played,
    last: &[u8],
) -> Result<(), AllocError> {
    let schedule = lines(alloc, count)?;
    let mut written = Vec::new(alloc);
    let played = play_again(alloc, schedule.as_slice(), 1, &mut written);
    assert!(rt; played == Some(wanted) && written.as_slice().ends_with(last));
    Ok(())
}

#[test]
fn line_100_001_is_a_bad_step(rt: HostRuntime) -> Result<(), Fail> {
    let alloc = rt.alloc();
    let end = b"\n100000 no\nplain equal\n";
    is_answered_last(&rt, alloc, 100_000, Ok(()), end)?;
    let fault = Err(StepsFault::BadStep(100_001));
    is_answered_last(&rt, alloc, 100_001, fault, b"\n100000 no\n")?;
    Ok(())
}

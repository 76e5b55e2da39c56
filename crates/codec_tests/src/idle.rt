//! What a framer keeps in which nothing is left, for `scripts/maintain/count-allocations`: each mark is an allocation of a size that no
//! other here has, and the script counts those between the two of a test.

use pb_frame::{FrameFault, Framer, MAX_REQUEST_LEN};
use std::alloc::Global;

/// A frame of the longest request: its header, and so many zeros behind it.
const HEADER: &[u8] = &[0, 0x10, 0, 0, 9];

const ZEROS: usize = 1_048_575;

/// Takes 4,099 bytes, and lets them go: whether it got them.
fn mark(alloc: Global) -> bool {
    match Vec::<u8>::with_capacity(alloc, 4_099) {
        Ok(bytes) => bytes.is_empty(),
        Err(_) => false,
    }
}

/// How long the body of the next frame is.
fn body_len(framer: &mut Framer) -> Result<Option<usize>, FrameFault> {
    match framer.take()? {
        Some(frame) => Ok(Some(frame.body.len())),
        None => Ok(None),
    }
}

/// Feeds a frame of that many zeros, and takes it: whether nothing was left.
fn passes(framer: &mut Framer, alloc: Global, header: &[u8], zeros: usize) -> bool {
    let Ok(body) = vec![in alloc; 0u8; zeros] else {
        return false;
    };
    framer.feed(header).is_ok()
        && framer.feed(&body).is_ok()
        && body_len(framer) == Ok(Some(zeros))
        && body_len(framer) == Ok(None)
        && framer.rest() == 0
}

/// Feeds five bytes between two marks.
fn feeds_between_marks(framer: &mut Framer, alloc: Global) -> bool {
    mark(alloc) && framer.feed(&[0, 0, 0, 1, 1]).is_ok() && mark(alloc)
}

// The memory of a large frame was given back, so the next piece takes some.
#[test]
fn a_piece_behind_a_large_frame(rt: HostRuntime) {
    let alloc = rt.alloc();
    let mut framer = Framer::new(alloc, MAX_REQUEST_LEN);
    assert!(rt; passes(&mut framer, alloc, HEADER, ZEROS));
    assert!(rt; feeds_between_marks(&mut framer, alloc));
}

// That of a small one is kept, so the next piece takes none.
#[test]
fn a_piece_behind_a_small_frame(rt: HostRuntime) {
    let alloc = rt.alloc();
    let mut framer = Framer::new(alloc, MAX_REQUEST_LEN);
    assert!(rt; passes(&mut framer, alloc, &[0, 0, 0, 9, 9], 8));
    assert!(rt; feeds_between_marks(&mut framer, alloc));
}

//! Sessions by their requests, each with its reply and with what a get of b/k shows after it.

use crate::tests::frames::{
    ABSENT, GET, PING, PONG, PUT_V, PUT_W, PUT_X_OVER_V, SHOWN_V, SHOWN_W_V, SHOWN_X_W, STORED,
};
use std::alloc::{AllocError, Global};

/// A request and its reply.
pub struct Line {
    pub request: &'static [u8],
    pub reply: &'static [u8],
    /// What a get of b/k shows after it.
    pub shown: &'static [u8],
}

/// A ping, a put of "v", and a get.
pub const PING_PUT_GET: &[Line] = &[
    Line {
        request: PING,
        reply: PONG,
        shown: ABSENT,
    },
    PUTS_V,
    Line {
        request: GET,
        reply: SHOWN_V,
        shown: SHOWN_V,
    },
];

const PUTS_V: Line = Line {
    request: PUT_V,
    reply: STORED,
    shown: SHOWN_V,
};

/// Puts of "v", of "w" beside it, and of "x" over "v" alone, with a get after each.
pub const THREE_PUTS: &[Line] = &[
    PUTS_V,
    Line {
        request: GET,
        reply: SHOWN_V,
        shown: SHOWN_V,
    },
    Line {
        request: PUT_W,
        reply: STORED,
        shown: SHOWN_W_V,
    },
    Line {
        request: GET,
        reply: SHOWN_W_V,
        shown: SHOWN_W_V,
    },
    Line {
        request: PUT_X_OVER_V,
        reply: STORED,
        shown: SHOWN_X_W,
    },
    Line {
        request: GET,
        reply: SHOWN_X_W,
        shown: SHOWN_X_W,
    },
];

/// The requests, one behind another.
pub fn requests_of(alloc: Global, script: &[Line]) -> Result<Vec<u8>, AllocError> {
    let mut bytes = Vec::new(alloc);
    for line in script {
        bytes.extend_from_slice(line.request)?;
    }
    Ok(bytes)
}

/// The replies, one behind another.
pub fn replies_of(alloc: Global, script: &[Line]) -> Result<Vec<u8>, AllocError> {
    let mut bytes = Vec::new(alloc);
    for line in script {
        bytes.extend_from_slice(line.reply)?;
    }
    Ok(bytes)
}

/// What a get of b/k shows after so many of the requests to a new node.
pub fn shown_after(script: &[Line], requests: u64) -> &'static [u8] {
    let mut shown = ABSENT;
    let mut left = requests;
    for line in script {
        if left == 0 {
            return shown;
        }
        left -= 1;
        shown = line.shown;
    }
    shown
}

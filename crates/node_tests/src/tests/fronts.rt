//! Each shorter front of a request's frame, which is fed and then ended: nothing is answered, the front is the rest, and
//! nothing is stored.

use crate::tests::exchange::{PUT_B, answers};
use crate::tests::frames::{
    ABSENT, DELETE, DELETE_V, GET, GET_BUCKET_TWICE, GET_DEAD, GET_HEAD, GET_IF_MODIFIED,
    GET_LONG_LENGTH, GET_LONG_VARINT, GET_UNKNOWN_FIELD, PUT_D_OVER_FIRST, PUT_E_IF_V, PUT_Q_IF_V,
    PUT_V, PUT_V_FOR_BODY, PUT_V_TWICE, PUT_W, PUT_WITHOUT_KEY, PUT_X_AHEAD, PUT_X_BY_SECOND_EPOCH,
    PUT_X_FALLING, PUT_X_OVER_V, PUT_X_SHORT, PUT_X_WITHOUT_ENTRY, PUT_Z_IF_NONE, UNKNOWN,
};
use crate::tests::sessions::{Outcome, comes_to, ended};
use crate::tests::streams::PLAIN;
use node_session::PlainNode;
use std::alloc::Global;

/// A request's frame.
struct Frame {
    shows: &'static str,
    bytes: &'static [u8],
}

const FRAMES: &[Frame] = &[
    Frame {
        shows: "a get",
        bytes: GET,
    },
    Frame {
        shows: "a put of v",
        bytes: PUT_V,
    },
    Frame {
        shows: "a put of w",
        bytes: PUT_W,
    },
    Frame {
        shows: "a put of x by a context",
        bytes: PUT_X_OVER_V,
    },
    Frame {
        shows: "a put with if_none_match",
        bytes: PUT_Z_IF_NONE,
    },
    Frame {
        shows: "a delete without context",
        bytes: DELETE,
    },
    Frame {
        shows: "a get with deletedvclock",
        bytes: GET_DEAD,
    },
    Frame {
        shows: "a put of b",
        bytes: PUT_B,
    },
    Frame {
        shows: "a put of d by a context",
        bytes: PUT_D_OVER_FIRST,
    },
    Frame {
        shows: "a put with if_not_modified",
        bytes: PUT_E_IF_V,
    },
    Frame {
        shows: "a put with if_not_modified on another key",
        bytes: PUT_Q_IF_V,
    },
    Frame {
        shows: "a get with its bucket twice",
        bytes: GET_BUCKET_TWICE,
    },
    Frame {
        shows: "a get with an unknown field",
        bytes: GET_UNKNOWN_FIELD,
    },
    Frame {
        shows: "a get with a length in two bytes",
        bytes: GET_LONG_LENGTH,
    },
    Frame {
        shows: "a get with a varint of eleven bytes",
        bytes: GET_LONG_VARINT,
    },
    Frame {
        shows: "a put with its content twice",
        bytes: PUT_V_TWICE,
    },
    Frame {
        shows: "a put by a context one counter ahead",
        bytes: PUT_X_AHEAD,
    },
    Frame {
        shows: "a put by a context of the second epoch",
        bytes: PUT_X_BY_SECOND_EPOCH,
    },
    Frame {
        shows: "a put by a context that doesn't rise",
        bytes: PUT_X_FALLING,
    },
    Frame {
        shows: "a put by a context without entries",
        bytes: PUT_X_WITHOUT_ENTRY,
    },
    Frame {
        shows: "a put by a context of version 2 whose entry is short",
        bytes: PUT_X_SHORT,
    },
    Frame {
        shows: "a put with return_body",
        bytes: PUT_V_FOR_BODY,
    },
    Frame {
        shows: "a delete by a context",
        bytes: DELETE_V,
    },
    Frame {
        shows: "a get with if_modified",
        bytes: GET_IF_MODIFIED,
    },
    Frame {
        shows: "a get with head",
        bytes: GET_HEAD,
    },
    Frame {
        shows: "a put without key",
        bytes: PUT_WITHOUT_KEY,
    },
    Frame {
        shows: "a message of no code",
        bytes: UNKNOWN,
    },
];

/// The first so many bytes of a frame are a rest, and a get then finds nothing.
fn is_rest(alloc: Global, node: &mut PlainNode, frame: &[u8], len: usize) -> bool {
    let outcome = Outcome {
        end: ended!(0, len),
        output: b"",
        counts: &[],
    };
    match frame.split_at_checked(len) {
        Some((front, _)) => {
            comes_to(alloc, node, front, &PLAIN, &outcome) && answers(alloc, node, GET, ABSENT)
        }
        None => false,
    }
}

/// The same with a new node.
fn is_rest_of_new(alloc: Global, frame: &[u8], len: usize) -> bool {
    match PlainNode::new(alloc, 1) {
        Ok(mut node) => is_rest(alloc, &mut node, frame, len),
        Err(_) => false,
    }
}

#[test]
fn a_front_of_a_frame_is_not_answered(rt: HostRuntime) {
    for row in FRAMES {
        for len in 0..row.bytes.len() {
            assert!(rt;
                is_rest_of_new(rt.alloc(), row.bytes, len),
                "{}: its first {len} bytes",
                row.shows
            );
        }
    }
}

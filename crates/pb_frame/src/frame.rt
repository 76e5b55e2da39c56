//! A whole frame of a stream.

/// A frame's message: its code, and its body as it lies in the framer, without the four length bytes.
#[derive(Clone, Copy)]
pub struct Frame<'a> {
    pub code: u8,
    pub body: &'a [u8],
}

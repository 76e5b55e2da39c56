//! The limits of frames.

/// The longest request, as its frame's length counts it: the code and the body, 1 MiB in all.
pub const MAX_REQUEST_LEN: u32 = 1_048_576;

/// The longest body of any frame, whose length has to fit four bytes together with the code's one.
pub const MAX_BODY_LEN: usize = 4_294_967_294;

//! The keys whose places are told, by their names.

/// A name of more than 16 bytes: a copy of it takes memory.
const LONG: &[u8] = b"a name of more than sixteen bytes";

/// Another, whose first bytes are those of [`LONG`].
const LONGER: &[u8] = b"a name of more than sixteen bytes, and longer";

/// The first 15 bytes of [`LONG`].
const FIFTEEN: &[u8] = b"a name of more ";

/// The first 16.
const SIXTEEN: &[u8] = b"a name of more t";

/// The names of a key.
pub struct Names {
    pub bucket_type: &'static [u8],
    pub bucket: &'static [u8],
    pub key: &'static [u8],
}

/// The keys that the tests insert.
pub const SHORT: &Names = &Names {
    bucket_type: b"default",
    bucket: b"b",
    key: b"k",
};

pub const LONG_KEY: &Names = &Names {
    bucket_type: b"default",
    bucket: b"b",
    key: LONG,
};

pub const LONG_BUCKET: &Names = &Names {
    bucket_type: b"default",
    bucket: LONG,
    key: b"k",
};

pub const LONG_TYPE: &Names = &Names {
    bucket_type: LONG,
    bucket: b"b",
    key: b"k",
};

pub const ALL_LONG: &Names = &Names {
    bucket_type: LONG,
    bucket: LONGER,
    key: LONG,
};

pub const LONGER_KEY: &Names = &Names {
    bucket_type: LONG,
    bucket: LONGER,
    key: LONGER,
};

// Keys whose names are as long as a name of two numbers, longer by one byte, and longer by a zero byte than that of another key.
pub const KEY_OF_15: &Names = &Names {
    bucket_type: b"default",
    bucket: b"b",
    key: FIFTEEN,
};

pub const KEY_OF_16: &Names = &Names {
    bucket_type: b"default",
    bucket: b"b",
    key: SIXTEEN,
};

pub const KEY_WITH_ZERO: &Names = &Names {
    bucket_type: b"default",
    bucket: b"b",
    key: b"k\0",
};

pub const BUCKET_OF_15: &Names = &Names {
    bucket_type: b"default",
    bucket: FIFTEEN,
    key: b"k",
};

pub const BUCKET_OF_16: &Names = &Names {
    bucket_type: b"default",
    bucket: SIXTEEN,
    key: b"k",
};

/// The keys that the tests insert, in the order of [`Places`].
pub const KEYS: &[&Names] = &[
    SHORT,
    LONG_KEY,
    LONG_BUCKET,
    LONG_TYPE,
    ALL_LONG,
    LONGER_KEY,
];

/// The place of each of [`KEYS`].
pub type Places = [Option<usize>; 6];

pub const OTHER_KEY: &Names = &Names {
    bucket_type: b"default",
    bucket: b"b",
    key: LONGER,
};

pub const OTHER_BUCKET: &Names = &Names {
    bucket_type: b"default",
    bucket: LONGER,
    key: b"k",
};

pub const OTHER_TYPE: &Names = &Names {
    bucket_type: LONGER,
    bucket: b"b",
    key: b"k",
};

pub const EXCHANGED: &Names = &Names {
    bucket_type: b"default",
    bucket: b"k",
    key: b"b",
};

/// Keys that the tests never insert: one of another key, one of another bucket, one of another bucket type, and one whose
/// bucket and key are exchanged.
pub const OTHERS: &[&Names] = &[OTHER_KEY, OTHER_BUCKET, OTHER_TYPE, EXCHANGED];

//! Tests of varints, by the rows of the encoding's documentation and of the formats.

use wire_varint::{VarintFault, len, read, write};

/// Bytes, and the varint at their front.
struct Read {
    shows: &'static str,
    bytes: &'static [u8],
    /// The number, and how many bytes it has.
    read: Result<(u64, usize), VarintFault>,
}

/// The table of the formats, and the two varints that Protocol Buffers' documentation writes out.
const READS: &[Read] = &[
    Read {
        shows: "0 is a byte of 0",
        bytes: b"\x00",
        read: Ok((0, 1)),
    },
    Read {
        shows: "150 of the documentation",
        bytes: b"\x96\x01",
        read: Ok((150, 2)),
    },
    Read {
        shows: "300 of the documentation",
        bytes: b"\xac\x02",
        read: Ok((300, 2)),
    },
    Read {
        shows: "0 in two bytes",
        bytes: b"\x80\x00",
        read: Ok((0, 2)),
    },
    Read {
        shows: "bits above the 64th don't count",
        bytes: b"\xff\xff\xff\xff\xff\xff\xff\xff\xff\x7f",
        read: Ok((u64::MAX, 10)),
    },
    Read {
        shows: "no bytes are too short",
        bytes: b"",
        read: Err(VarintFault::Short),
    },
    Read {
        shows: "a first byte goes on",
        bytes: b"\x80",
        read: Err(VarintFault::Short),
    },
    Read {
        shows: "nine bytes go on",
        bytes: &[0x80; 9],
        read: Err(VarintFault::Short),
    },
    Read {
        shows: "ten bytes go on",
        bytes: &[0x80; 10],
        read: Err(VarintFault::TooLong),
    },
    Read {
        shows: "an eleventh byte is too long",
        bytes: b"\x80\x80\x80\x80\x80\x80\x80\x80\x80\x80\x01",
        read: Err(VarintFault::TooLong),
    },
];

#[test]
fn reads_the_table(rt: HostRuntime) {
    for row in READS {
        assert!(rt; read(row.bytes) == row.read, "{}", row.shows);
    }
}

/// A number, and its shortest varint.
struct Written {
    shows: &'static str,
    value: u64,
    bytes: &'static [u8],
}

const WRITTEN: &[Written] = &[
    Written {
        shows: "the least number",
        value: 0,
        bytes: b"\x00",
    },
    Written {
        shows: "the greatest number of one byte",
        value: 127,
        bytes: b"\x7f",
    },
    Written {
        shows: "the least number of two bytes",
        value: 128,
        bytes: b"\x80\x01",
    },
    Written {
        shows: "300 of the documentation",
        value: 300,
        bytes: b"\xac\x02",
    },
    Written {
        shows: "the greatest number",
        value: u64::MAX,
        bytes: b"\xff\xff\xff\xff\xff\xff\xff\xff\xff\x01",
    },
];

/// The number is written as these bytes, and read again from them.
fn writes(row: &Written) -> bool {
    let mut out = [0xeeu8; 12];
    let needed = len(row.value);
    let used = write(row.value, &mut out);
    used == needed && out.get(..used) == Some(row.bytes) && read(&out) == Ok((row.value, used))
}

#[test]
fn writes_the_shortest(rt: HostRuntime) {
    for row in WRITTEN {
        assert!(rt; writes(row), "{}", row.shows);
    }
}

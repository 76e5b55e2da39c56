//! Indexes of known digests, and of keys whose digests were computed outside.

use riak_msgs::{BucketType, Bytes, Key};
use ring_map::{Ring, vnode_id};
use std::alloc::{AllocError, Global};

/// The SHA-1 digest of the text `abc`, as the standard gives it.
const DIGEST: [u8; 20] = [
    0xa9, 0x99, 0x3e, 0x36, 0x47, 0x06, 0x81, 0x6a, 0xba, 0x3e, 0x25, 0x71, 0x78, 0x50, 0xc2, 0x6c,
    0x9c, 0xd0, 0xd8, 0x9d,
];

/// The digest's index on a ring of so many partitions, or none where no ring has this size.
struct Size {
    shows: &'static str,
    size: u16,
    index: Option<u16>,
}

const SIZES: &[Size] = &[
    Size {
        shows: "one partition has all keys",
        size: 1,
        index: Some(0),
    },
    Size {
        shows: "the top four bits number one of 16 partitions",
        size: 16,
        index: Some(10),
    },
    Size {
        shows: "the top ten bits number one of 1,024 partitions",
        size: 1024,
        index: Some(678),
    },
    Size {
        shows: "a ring of no partitions is refused",
        size: 0,
        index: None,
    },
    Size {
        shows: "three partitions are refused",
        size: 3,
        index: None,
    },
    Size {
        shows: "2,048 partitions are refused",
        size: 2048,
        index: None,
    },
];

/// The index of the digest on a ring of so many partitions.
fn index_of_digest(size: u16) -> Option<u16> {
    Some(Ring::new(size)?.index_of(&DIGEST))
}

#[test]
fn top_bits_number_the_partition(rt: HostRuntime) {
    for row in SIZES {
        let well = index_of_digest(row.size) == row.index;
        assert!(rt; well, "{}", row.shows);
    }
}

/// A key's index on the ring of 1,024 partitions.
struct Place {
    shows: &'static str,
    /// None is the default type.
    bucket_type: Option<&'static [u8]>,
    bucket: &'static [u8],
    key: &'static [u8],
    index: u16,
}

/// By Python's `hashlib` the digests begin with 56 73, b0 a3, 1f b0, ef 9c, 78 9e, 0e 89 and ec 5e.
const PLACES: &[Place] = &[
    Place {
        shows: "a key of the default type",
        bucket_type: None,
        bucket: b"b",
        key: b"k",
        index: 345,
    },
    Place {
        shows: "a key of another type",
        bucket_type: Some(b"maps"),
        bucket: b"users",
        key: b"alice",
        index: 706,
    },
    Place {
        shows: "names of 43 bytes: with their lengths and the padding one block of the digest",
        bucket_type: None,
        bucket: b"b",
        key: &[b'k'; 35],
        index: 126,
    },
    Place {
        shows: "names of 44 bytes: with the padding two blocks",
        bucket_type: None,
        bucket: b"b",
        key: &[b'k'; 36],
        index: 958,
    },
    Place {
        shows: "names of 52 bytes: with their lengths a whole block",
        bucket_type: None,
        bucket: b"b",
        key: &[b'k'; 44],
        index: 482,
    },
    Place {
        shows: "names of 53 bytes: one more than a block",
        bucket_type: None,
        bucket: b"b",
        key: &[b'k'; 45],
        index: 58,
    },
    Place {
        shows: "a key of a thousand bytes",
        bucket_type: None,
        bucket: b"b",
        key: &[b'k'; 1000],
        index: 945,
    },
];

fn key_of(alloc: Global, row: &Place) -> Result<Key, AllocError> {
    match row.bucket_type {
        Some(name) => Ok(Key {
            bucket_type: BucketType::from_slice(alloc, name)?,
            bucket: Bytes::from_slice(alloc, row.bucket)?,
            key: Bytes::from_slice(alloc, row.key)?,
        }),
        None => Key::of_default_type(alloc, row.bucket, row.key),
    }
}

fn index_of_key(alloc: Global, row: &Place) -> Option<u16> {
    let key = key_of(alloc, row).ok()?;
    Some(Ring::new(1024)?.index(&key))
}

#[test]
fn keys_have_the_index_of_their_digest(rt: HostRuntime) {
    for row in PLACES {
        let well = index_of_key(rt.alloc(), row) == Some(row.index);
        assert!(rt; well, "{}", row.shows);
    }
}

/// A vnode's id by its run and its index.
struct Id {
    shows: &'static str,
    run: u32,
    index: u16,
    id: u64,
}

const IDS: &[Id] = &[
    Id {
        shows: "the first vnode of the first run",
        run: 1,
        index: 0,
        id: 65_536,
    },
    Id {
        shows: "the last vnode of a ring of 1,024",
        run: 2,
        index: 1023,
        id: 132_095,
    },
    Id {
        shows: "the greatest run and index",
        run: 4_294_967_295,
        index: 65_535,
        id: 281_474_976_710_655,
    },
];

#[test]
fn a_vnode_id_is_the_run_above_the_index(rt: HostRuntime) {
    for row in IDS {
        let well = vnode_id(row.run, row.index) == row.id;
        assert!(rt; well, "{}", row.shows);
    }
}

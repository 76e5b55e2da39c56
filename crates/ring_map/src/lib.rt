//! The ring: which partition a key lies in, and which vnode serves it.
//!
//! A ring has a power of two of partitions, from 1 to 1,024. A key lies in the partition that the
//! top bits of its digest number (`specs/Ring`: `digest_of`, `index_of`), as many bits as number
//! the partitions. So which keys share a vnode depends on their names and the ring's size alone,
//! and is the same in every run.
//!
//! What it costs: one SHA-1 over the key's bytes, 12 bytes more for the lengths; on a ring of one
//! partition, nothing. No call takes memory.
//!
//! How it is built: names of up to 52 bytes are handed to the hasher at once, longer ones part by
//! part; a ring is the number of its index bits, and an index is one shift of the digest's first
//! two bytes.
//!
//! ```text
//! digest a9 99 3e 36 ..   first two bytes 1010 1001 1001 1001
//! ring 1     no bit            index   0
//! ring 16    1010              index  10
//! ring 1,024 1010 1001 10      index 678
//! ```
//!
//! # Proved
//!
//! The index of a key is the top bits of the SHA-1 digest of its names (`digest_of`), and 0 on a
//! ring of one partition. Finding it takes no memory. By `Ring::new`, `Ring::size`,
//! `Ring::index_of`, `Ring::index`, `vnode_id`.
//!
//! # Open
//!
//! That `sha1` is the standard's function, beyond its own definition: this is trusted.
#![tactic(auto)]

mod key_digest;
mod ring;

pub use ring::{MAX_PARTITIONS, Ring, vnode_id};
pub use sha1::DIGEST_LEN;

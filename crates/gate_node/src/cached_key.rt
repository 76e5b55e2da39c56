//! Keys of the default bucket type whose names are short, in a place of a fixed size.
ghost use Rattle.std.specs.Prelude.{◌≡◌, [], IfSome, IsTrue};
ghost use Rattle.riak_msgs.specs.Requests.{default_key};
ghost use Rattle.gate_node.specs.PartitionCache.{key_in};

use byteorder::{ByteOrder, LittleEndian};

/// How many bytes a bucket and a key have together at most: three times what is compared at once.
const MAX_LEN: usize = 48;

/// What the words of the names are multiplied by, each by one of its own: odd numbers without a pattern.
const MULTIPLIERS: [u64; 6] = [
    0x9e37_79b9_7f4a_7c15,
    0xbf58_476d_1ce4_e5b9,
    0x94d0_49bb_1331_11eb,
    0xff51_afd7_ed55_8ccd,
    0xc4ce_b9fe_1a85_ec53,
    0xd6e8_feb8_6659_fd93,
];

/// What the length of the bucket is multiplied by.
const LEN_MULTIPLIER: u64 = 0xa076_1d64_78bd_642f;

/// A key of the default bucket type whose bucket and key have up to 48 bytes together: the bytes of one behind those of the other, and zeros
/// behind them. It is copied as it is.
#[derive(Clone, Copy, PartialEq)]
pub(crate) struct CachedKey {
    bucket_len: u8,
    key_len: u8,
    bytes: [u8; MAX_LEN],
}

impl CachedKey {
    /// The key whose bucket and name are empty.
    #[inline(always)]
    pub(crate) fn empty() -> CachedKey
        ensures { key_in result ≡ default_key [] [] }
    {
        CachedKey {
            bucket_len: 0,
            key_len: 0,
            bytes: [0; MAX_LEN],
        }
    }

    /// The key of the default bucket type with these names, where they have up to 48 bytes together.
    #[inline(always)]
    pub(crate) fn of_names(bucket: &[u8], key: &[u8]) -> Option<CachedKey>
        ensures { IfSome result (λ cached. key_in cached ≡ default_key bucket.now key.now) }
    {
        let bucket_len = bucket.len();
        if bucket_len > MAX_LEN || key.len() > MAX_LEN - bucket_len {
            return None;
        }
        let end = bucket_len + key.len();
        let mut bytes = [0; MAX_LEN];
        bytes[..bucket_len].copy_from_slice(bucket);
        bytes[bucket_len..end].copy_from_slice(key);
        Some(CachedKey {
            bucket_len: bucket_len as u8,
            key_len: key.len() as u8,
            bytes,
        })
    }

    /// Whether two are one key. It is a call, so that both lie in memory, where many bytes are compared at once.
    #[inline(never)]
    pub(crate) fn is_same(&self, other: &CachedKey) -> bool
        ensures { IsTrue result → key_in self.now ≡ key_in other.now }
    {
        self == other
    }

    /// A number of 64 bits, which few keys have in common in its high half.
    #[inline(always)]
    pub(crate) fn hash(&self) -> u64 {
        let mut hash = u64::from(self.bucket_len).wrapping_mul(LEN_MULTIPLIER);
        for at in 0..MULTIPLIERS.len() {
            let word = LittleEndian::read_u64(&self.bytes[8 * at..]);
            hash = hash.wrapping_add(word.wrapping_mul(MULTIPLIERS[at]));
        }
        hash
    }
}

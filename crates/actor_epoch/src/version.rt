//! The versions of a context's bytes, which differ in how wide a counter is.

ghost use Rattle.std.specs.Prelude.{◌≡◌, ◌≤◌, length};
ghost use Rattle.byteorder.specs.Endian.{big_number};
ghost use Rattle.actor_epoch.specs.Versions.{version_of, counter_len, entry_len};

use crate::limits::Counter;
use byteorder::{BigEndian, ByteOrder};

/// A version of a context's bytes: how wide the counter of a pair is in them.
#[derive(Clone, Copy, Debug, PartialEq, Eq)]
pub(crate) enum Version {
    /// Counters of 4 bytes. Such contexts are read and no longer written.
    One,
    /// Counters of 8 bytes.
    Two,
}

impl Version {
    /// The version that the first byte of a context names; None where it names none.
    #[inline(always)]
    pub(crate) fn from_byte(byte: u8) -> Option<Version>
        ensures { result ≡ version_of byte }
    {
        match byte {
            1 => Some(Version::One),
            2 => Some(Version::Two),
            _ => None,
        }
    }

    /// The length of a pair in bytes: vnode id in 8, epoch in 4, then the counter.
    #[inline(always)]
    pub(crate) fn entry_len(self) -> usize
        ensures len { result ≡ entry_len self }
        ensures positive { 1 ≤ result }
    {
        match self {
            Version::One => 16,
            Version::Two => 20,
        }
    }

    /// The counter in the first bytes.
    #[inline(always)]
    pub(crate) fn counter_at(self, bytes: &[u8]) -> Counter
        requires { counter_len self ≤ length bytes.now }
        ensures { result ≡ big_number (counter_len self) bytes.now }
    {
        match self {
            Version::One => Counter::from(BigEndian::read_u32(bytes)),
            Version::Two => BigEndian::read_u64(bytes),
        }
    }
}

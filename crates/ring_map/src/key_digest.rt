//! The digest of a key's names.
ghost use Rattle.std.specs.Prelude.{◌≡◌, ◌++◌, IfSome, List, ℕ};
ghost use Rattle.sha1.specs.Sha1.{Holds};
ghost use Rattle.ring_map.specs.Ring.{names_digest, with_length};

use arrayvec::ArrayVec;
use byteorder::{BigEndian, ByteOrder};
use sha1::{DIGEST_LEN, Sha1};

/// How many bytes are hashed at once: of so many SHA-1 makes one block of its own, or two.
const MAX_SHORT_LEN: usize = 64;

/// The length of bytes, of which the low 32 bits count.
fn length_bytes(bytes: &[u8]) -> [u8; 4]
    ensures { result ++ bytes.now ≡ with_length bytes.now }
{
    let mut len = [0u8; 4];
    BigEndian::write_u32(&mut len, (bytes.len() % (1 << 32)) as u32);
    len
}

/// Puts bytes behind a message, after their length. None where there is no room: a part may be there then.
fn push_with_length(message: &mut ArrayVec<u8, MAX_SHORT_LEN>, bytes: &[u8]) -> Option<()>
    ensures { IfSome result (λ _. message.new.items ≡ message.old.items ++ with_length bytes.now) }
{
    message.try_extend_from_slice(&length_bytes(bytes)).ok()?;
    message.try_extend_from_slice(bytes).ok()?;
    Some(())
}

/// The digest of names that come with their lengths to 64 bytes at most, handed over at once.
fn short_digest(bucket_type: &[u8], bucket: &[u8], key: &[u8]) -> Option<[u8; DIGEST_LEN]>
    ensures { IfSome result (λ digest.
        digest ≡ names_digest bucket_type.now bucket.now key.now) }
{
    let mut message = ArrayVec::new();
    push_with_length(&mut message, bucket_type)?;
    push_with_length(&mut message, bucket)?;
    push_with_length(&mut message, key)?;
    Some(Sha1::digest(message.as_slice()))
}

/// Feeds bytes after their length.
fn update_with_length(hasher: &mut Sha1, bytes: &[u8])
    ensures { (m : List ℕ) → Holds hasher.old m → Holds hasher.new (m ++ with_length bytes.now) }
{
    hasher.update(&length_bytes(bytes));
    hasher.update(bytes);
}

/// The digest of names of any length, one by one.
fn long_digest(bucket_type: &[u8], bucket: &[u8], key: &[u8]) -> [u8; DIGEST_LEN]
    ensures { result ≡ names_digest bucket_type.now bucket.now key.now }
{
    let mut hasher = Sha1::new();
    update_with_length(&mut hasher, bucket_type);
    update_with_length(&mut hasher, bucket);
    update_with_length(&mut hasher, key);
    hasher.finalize()
}

/// The digest of the key with these names: SHA-1 over its bucket type, bucket and key, each after its length. It
/// takes no memory.
pub fn names_digest(bucket_type: &[u8], bucket: &[u8], key: &[u8]) -> [u8; DIGEST_LEN]
    ensures { result ≡ names_digest bucket_type.now bucket.now key.now }
{
    match short_digest(bucket_type, bucket, key) {
        Some(digest) => digest,
        None => long_digest(bucket_type, bucket, key),
    }
}

//! The memory of a buffer in which nothing waits.

ghost use Rattle.std.specs.Prelude.{◌≡◌, ◌≤◌, [], vec_capacity};

use std::mem;

/// The most memory that an empty buffer keeps, in bytes.
const MAX_IDLE_CAPACITY: usize = 256;

/// Gives the memory of an empty buffer back where it is more than 256 bytes, so that what a large frame
/// took isn't kept. Takes none. The bytes of a buffer that isn't empty stay where they are.
pub fn shrink_empty(bytes: &mut Vec<u8>)
    ensures items { bytes.new.items ≡ bytes.old.items }
    ensures capacity { bytes.old.items ≡ [] → vec_capacity bytes.new ≤ 256 }
{
    if bytes.is_empty() && bytes.capacity() > MAX_IDLE_CAPACITY {
        bytes.shrink_to_fit();
    }
}

/// Empties a buffer and exchanges it for a smaller one, which whoever lent it the larger one has: where
/// that is smaller, and this one has at most `most` bytes of memory. Takes none. Both are empty then.
pub fn return_room(bytes: &mut Vec<u8>, room: &mut Vec<u8>, most: usize)
    ensures bytes { bytes.new.items ≡ [] }
    ensures room { room.new.items ≡ [] }
{
    bytes.clear();
    room.clear();
    if room.capacity() < bytes.capacity() && bytes.capacity() <= most {
        mem::swap(bytes, room);
    }
}

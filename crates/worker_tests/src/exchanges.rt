//! Gates of a run, and requests of several tests with the replies to them.
ghost use Rattle.std.specs.Prelude.{◌≡◌, IfSome};

use gate_node::Shared;
use ring_map::Ring;
use stats_book::Totals;
use std::alloc::Global;
use vnode_core::Tally;

/// What a book has when nothing was counted. Totals of a test say what is other.
pub const NOTHING_COUNTED: Totals = Totals {
    gets: 0,
    puts: 0,
    deletes: 0,
    refusals: 0,
    reaps: 0,
};

/// A get.
pub const ONE_GET: Totals = Totals {
    gets: 1,
    ..NOTHING_COUNTED
};

/// A put.
pub const ONE_PUT: Totals = Totals {
    puts: 1,
    ..NOTHING_COUNTED
};

/// A get and a put.
pub const GET_AND_PUT: Totals = Totals {
    gets: 1,
    puts: 1,
    ..NOTHING_COUNTED
};

/// What a vnode has that accepted nothing. Tallies of a test say what is other.
pub const NOTHING_ACCEPTED: Tally = Tally {
    writes: 0,
    tombstones: 0,
    reaps: 0,
};

/// A put of "v" on b/k.
pub const PUT_V: &[u8] = b"\0\0\0\x0c\x0b\x0a\x01b\x12\x01k\x22\x03\x0a\x01v";

/// Stored.
pub const STORED: &[u8] = b"\0\0\0\x01\x0c";

/// Two replies: stored, twice.
pub const STORED_TWICE: &[u8] = b"\0\0\0\x01\x0c\0\0\0\x01\x0c";

/// A get of b/k.
pub const GET: &[u8] = b"\0\0\0\x07\x09\x0a\x01b\x12\x01k";

/// A get of b/j.
pub const GET_J: &[u8] = b"\0\0\0\x07\x09\x0a\x01b\x12\x01j";

/// Gets of b/k and of b/j.
pub const GET_BOTH: &[u8] = b"\0\0\0\x07\x09\x0a\x01b\x12\x01k\0\0\0\x07\x09\x0a\x01b\x12\x01j";

/// Nothing.
pub const NOTHING: &[u8] = b"\0\0\0\x01\x0a";

/// A put of "b" on b/k, a get, a delete without context, a put of "b", and a get.
pub const TWO_LIVES: &[u8] =
    b"\0\0\0\x0c\x0b\x0a\x01b\x12\x01k\x22\x03\x0a\x01b\0\0\0\x07\x09\x0a\x01b\x12\x01k\0\0\0\x07\x0d\x0a\x01b\x12\x01k\0\0\0\x0c\x0b\x0a\x01b\x12\x01k\x22\x03\x0a\x01b\0\0\0\x07\x09\x0a\x01b\x12\x01k";

/// Stored; "b" with the first epoch; deleted; stored; "b" with the second epoch. The key is forgotten after the delete, so
/// the second put begins a second life.
pub const LIVED_TWICE: &[u8] =
    b"\0\0\0\x01\x0c\0\0\0\x1d\x0a\x0a\x03\x0a\x01b\x12\x15\x02\0\0\0\0\0\x01\0\0\0\0\0\x01\0\0\0\0\0\0\0\x01\0\0\0\x01\x0e\0\0\0\x01\x0c\0\0\0\x1d\x0a\x0a\x03\x0a\x01b\x12\x15\x02\0\0\0\0\0\x01\0\0\0\0\0\x02\0\0\0\0\0\0\0\x01";

/// What the vnodes of a run together accept of what was counted.
pub fn accepted_of(totals: Totals) -> Tally {
    Tally {
        writes: totals.puts,
        tombstones: totals.deletes,
        reaps: totals.reaps,
    }
}

/// The gates of run 1 on a ring of so many partitions, of which each answer forgets so many dead keys.
pub fn new_shared(alloc: Global, partitions: u16, budget: u32) -> Option<Shared>
    ensures budget { IfSome result (λ shared. shared.budget ≡ budget) }
    ensures reads { IfSome result (λ shared. shared.reads ≡ 100) }
{
    Shared::new(alloc, Ring::new(partitions)?, 1, budget, 100).ok()
}

//! How many keys, siblings, dead keys and bytes of values the vnodes of a hand-off store.
//!
//! [`count_at`] walks over the keys of a gate's vnode, one behind another, in pieces of 1,000: each by a
//! look of one pass, under a right to read of its own, so that nobody waits longer than for a piece. No
//! key is copied but the last of a piece. Where memory is refused for that, the piece goes on to the next
//! key that can be copied, or to the vnode's end: the right is held longer, and the count is told. What
//! is counted in a piece is what the vnode stores there at the end of all that the pass has seen then
//! (`IsPiece` in `specs/Looks`), and each piece begins where the one before ended, with all seen that
//! that one had. So a key that stays as it is counts once, as it is, and one that is written meanwhile as
//! it was or as it is. Where nobody writes meanwhile the vnode stores just what was counted
//! ([`unchanged_vnodes_are_counted_exactly`]). [`count_partitions`] counts so the primary of each
//! partition and its fallback where it has one, while calls go on, and [`count_all`] sums them up without a
//! list. A closed fallback holds no keys, so it counts nothing.
//!
//! ```text
//! put "v" on b/k, "w" on b/k without a context, and "xyz" on b/j; then delete b/j
//! count_at(rt, alloc, &gate)?                          keys: 2, siblings: 3, dead_keys: 1, value_bytes: 2
//! let all = count_partitions(rt, alloc, &handoff)?     one entry a partition
//! total_of(all.as_slice())                             the sums of all of them
//! count_all(rt, alloc, &handoff)?                      the same, without a list
//! ```
//!
//! What it costs: a search for each key, and a look at each sibling. Writes of that vnode wait while a
//! piece is counted; those of the others don't.
//!
//! # Proved
//!
//! The count of a piece is exactly what is stored in its stretch of keys, at the end of all that
//! the pass has seen then. The stretches stand one behind another, from the first key to the last,
//! and each look is no earlier than the one before. Each number stops at
//! 18,446,744,073,709,551,615. The same holds of each vnode of a hand-off, and of all together. By
//! `count_at`, `count_partition`, `count_partitions`, `total_of`, `count_all`; law
//! `unchanged_vnodes_are_counted_exactly`.
//!
//! # Tested
//!
//! - Keys at the edges of pieces (`worker_tests`: `returns/counts`).
//! - `count_at`, `count_partition` and `count_all` need no memory, so they refuse nothing: a full node
//!   tells how much it stores (`scripts/maintain/try-full`). `count_partitions` needs it for its list.
//! - The console tells these numbers (`scripts/maintain/try-control`).
#![tactic(auto)]

mod counts;
mod laws;
mod looks;
mod partitions;
mod walk;

pub use counts::{KeyCounts, PIECE_KEYS, Stretch};
pub use laws::unchanged_vnodes_are_counted_exactly;
pub use looks::{Counted, Piece, count_at};
pub use partitions::{PartitionCounts, count_all, count_partition, count_partitions, total_of};

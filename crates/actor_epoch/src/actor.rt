//! An actor: one life of a key at one vnode.

/// One life of a key at one vnode: from the write that found the key absent to the reap that ends it. Actors are
/// ordered by vnode id, then by epoch.
#[derive(Clone, Copy, Debug, PartialEq, Eq, PartialOrd, Ord)]
pub struct Actor {
    /// The vnode's id.
    pub vnode: u64,
    /// The epoch that the vnode took for this life, from 1 to `MAX_EPOCH`.
    pub epoch: u32,
}
